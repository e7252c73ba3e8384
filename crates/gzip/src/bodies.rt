// A member: its body's text joins that of the members before it.
ghost use Rattle.std.specs.Prelude.{◌≡◌, ◌≤◌, ◌++◌, length, OnOk};
ghost use Rattle.gzip_spec.specs.Headers.{header_end};
ghost use Rattle.gzip_spec.specs.Files.{HasBody, Leads};
ghost use Rattle.gzip.specs.Goes.{Goes, IsJoined, stopped};

use crate::headers::{header_end, member_end, tail};
use gzip_spec::GzipFault;
use inflate::{InflateError, inflate};
use std::alloc::{AllocError, Global};

// Why a member is not read to its end.
#[derive(Clone, Copy, Drop)]
pub enum Stop {
    Memory,
    TooLong,
    Broken(GzipFault),
}

// The first member's text is not copied.
fn append(text: &mut Vec<u8>, more: Vec<u8>) -> Result<(), AllocError>
    ensures { OnOk result (text.new.items ≡ text.old.items ++ more.items) }
{
    if text.is_empty() {
        *text = more;
        Ok(())
    } else {
        text.extend_from_slice(&more)
    }
}

fn joined(text: &mut Vec<u8>, more: Vec<u8>, end: Result<usize, Stop>) -> Result<usize, Stop>
    ensures { IsJoined text.old.items more.items text.new.items end result }
{
    match append(text, more) {
        Ok(()) => end,
        Err(_) => Err(Stop::Memory),
    }
}

fn stopped(end: Result<usize, GzipFault>) -> Result<usize, Stop>
    ensures { result ≡ stopped end }
{
    match end {
        Ok(at) => Ok(at),
        Err(fault) => Err(Stop::Broken(fault)),
    }
}

// The member whose header ends here.
fn body(
    alloc: Global,
    bytes: &[u8],
    header: usize,
    most: usize,
    text: &mut Vec<u8>,
) -> Result<usize, Stop>
    requires within { header ≤ length bytes.now }
    requires short { length text.old.items ≤ most }
    ensures { Goes most bytes.now text.new.items (HasBody most bytes.now header text.old.items) result }
{
    let rest = tail(bytes, header);
    match inflate(alloc, rest, most - text.len()) {
        Ok(found) => {
            let end = member_end(bytes, header, found.taken, &found.text);
            joined(text, found.text, stopped(end))
        }
        Err(InflateError::Memory) => Err(Stop::Memory),
        Err(InflateError::TooLong { text: more }) => joined(text, more, Err(Stop::TooLong)),
        Err(InflateError::Broken { fault, text: more }) => {
            joined(text, more, Err(Stop::Broken(GzipFault::Body { fault })))
        }
    }
}

/// The member at the front of bytes: how many bytes it has. Its text joins the text so far.
pub fn member(
    alloc: Global,
    bytes: &[u8],
    other: GzipFault,
    most: usize,
    text: &mut Vec<u8>,
) -> Result<usize, Stop>
    requires { length text.old.items ≤ most }
    ensures { Goes most bytes.now text.new.items
        (Leads most (header_end other bytes.now) bytes.now text.old.items) result }
{
    match header_end(other, bytes) {
        Ok(header) => body(alloc, bytes, header, most, text),
        Err(fault) => Err(Stop::Broken(fault)),
    }
}
