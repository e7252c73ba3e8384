// The contents of records.
ghost use Rattle.std.specs.Prelude.{◌≡◌, ◌++◌, slice_range, take, IfOk, OnOk};
ghost use Rattle.psz_spec.specs.Records.{content_of as content_by, total_line as total_by};
ghost use Rattle.psz_spec.specs.States.{log_of as log_by};

use arrayvec::ArrayString;
use outside::Bytes;
use psz_read::{data_of, dump_header, header_len, total_line, words_of};
use psz_spec::{DumpHeader, Machine};
use std::alloc::{AllocError, Global};

// The bytes from one place to another, as far as there are any.
fn range(bytes: &[u8], from: u64, to: u64) -> &[u8]
    ensures { result.now ≡ slice_range bytes.now from to }
{
    let to = to.min(bytes.len() as u64);
    if from < to {
        &bytes[from as usize..to as usize]
    } else {
        &[]
    }
}

fn front(bytes: &[u8], len: u32) -> &[u8]
    ensures { result.now ≡ take len bytes.now }
{
    let len = (len as usize).min(bytes.len());
    &bytes[..len]
}

/// The log of a ring that was found.
pub fn log_of(alloc: Global, machine: Machine, bytes: &[u8]) -> Result<Vec<u8>, AllocError>
    ensures { IfOk result (λ log. log.items ≡ log_by machine bytes.now) }
{
    let words = words_of(machine, bytes);
    let kept = data_of(bytes);
    let mut log = Vec::from_slice(
        alloc,
        range(kept, u64::from(words.start), u64::from(words.len)),
    )?;
    log.extend_from_slice(front(kept, words.start))?;
    Ok(log)
}

// Adds the line in front of a dump that is not packed.
fn add_total(header: &DumpHeader, content: &mut Vec<u8>) -> Result<(), AllocError>
    ensures { OnOk result (content.new.items ≡ content.old.items ++ total_by header.now) }
{
    let mut line = ArrayString::new();
    total_line(header, &mut line);
    content.extend_from_slice(line.as_str().as_bytes())
}

/// The content of a dump zone that was found: its line, unless it is packed, and the dump.
pub fn content_of(alloc: Global, machine: Machine, bytes: &[u8]) -> Result<Vec<u8>, AllocError>
    ensures { IfOk result (λ content. content.items ≡ content_by machine bytes.now) }
{
    let header = dump_header(machine, data_of(bytes));
    let from = 12 + u64::from(header_len(machine));
    let to = 12 + u64::from(words_of(machine, bytes).len);
    let mut content = Vec::new(alloc);
    if !header.packed {
        add_total(&header, &mut content)?;
    }
    content.extend_from_slice(range(bytes, from, to))?;
    Ok(content)
}
