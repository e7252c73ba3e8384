//! Reads gzip files (RFC 1952): each member's header, CRC and length are checked. It keeps what it read up to a fault,
//! since a copy can be cut short.
#![tactic(auto)]

ghost use Rattle.std.specs.Prelude.{◌≡◌, []};
ghost use Rattle.gzip_spec.specs.Files.{Outcome, Gives};
ghost use Rattle.gzip.specs.Goes.{Answers, Tells, AllGo};

mod bodies;
mod headers;

use bodies::{Stop, member};
pub use gzip_spec::GzipFault;
use headers::tail;
use std::alloc::Global;

/// Why a file gives no text. `TooLong` has the text up to where it gets too long, and `Broken` that up to the fault.
#[derive(Debug, Drop)]
pub enum GzipError {
    Memory,
    TooLong { text: Vec<u8> },
    Broken { fault: GzipFault, text: Vec<u8> },
}

// The members of a file, one after another.
fn members(alloc: Global, bytes: &[u8], most: usize, text: &mut Vec<u8>) -> Option<Stop>
    requires { text.old.items ≡ [] }
    ensures { AllGo most bytes.now text.new.items result }
{
    let mut at = 0;
    let mut other = GzipFault::NotGzip;
    'members: loop {
        let rest = tail(bytes, at);
        match member(alloc, rest, other, most, text) {
            Ok(taken) => at += taken,
            Err(stop) => return Some(stop),
        }
        if at == bytes.len() {
            return None;
        }
        other = GzipFault::TrailingBytes;
    }
}

fn read(alloc: Global, bytes: &[u8], most: usize) -> Result<Vec<u8>, GzipError>
    ensures { Answers most bytes.now result }
{
    let mut text = Vec::new(alloc);
    match members(alloc, bytes, most, &mut text) {
        None => Ok(text),
        Some(Stop::Memory) => Err(GzipError::Memory),
        Some(Stop::TooLong) => Err(GzipError::TooLong { text }),
        Some(Stop::Broken(fault)) => Err(GzipError::Broken { fault, text }),
    }
}

/// The text of a gzip file, if it has at most `most` bytes. Beside the text there are the tables of one block, and of
/// a file with several members also the text of one of these.
pub fn gunzip(alloc: Global, bytes: &[u8], most: usize) -> Result<Vec<u8>, GzipError>
    // What is answered is so: the text, or that up to a fault or to where it gets too long; none has more bytes.
    ensures found { Answers most bytes.now result }
    // What is so is answered, unless memory runs out.
    ensures told { (outcome : Outcome) → Gives most bytes.now outcome → Tells outcome result }
{
    read(alloc, bytes, most)
}
