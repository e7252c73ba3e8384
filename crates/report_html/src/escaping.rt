// Bytes as a page shows them.
ghost use Rattle.std.specs.Prelude.{◌≡◌, ◌++◌, ◌∷◌, [], ◌≤◌, ◌+◌, ◌*◌, length, take, slice_index, OnOk};
ghost use Rattle.std.specs.Bool.{OnTrue};
ghost use Rattle.report_spec.specs.Escaped.{escaped, escaped_byte};

use crate::byte_rows::ROWS;
use std::alloc::AllocError;
use std::simd::{u8x8, u8x32};

/// A byte escaped, and zeros behind that. The last place has its length.
fn row_of(b: u8) -> [u8; 8]
    ensures len { slice_index result 7 ≤ 6 }
    ensures text { take (slice_index result 7) result ≡ escaped_byte b }
{
    ROWS[b as usize].to_le_bytes()
}

/// Stores a byte escaped at a place, in one store of its row. Returns where it ends.
fn put_byte(room: &mut [u8], at: usize, b: u8) -> usize
    requires { at + 8 ≤ length room.old }
    ensures len { length room.new ≡ length room.old }
    ensures end { result ≤ at + 6 }
    ensures text { take result room.new ≡ take at room.old ++ escaped_byte b }
{
    let row = row_of(b);
    u8x8::from_array(row).copy_to_slice(&mut room[at..]);
    at + usize::from(row[7])
}

/// Whether a byte is escaped as itself. Has no branch, so that many bytes are tested at once.
fn is_kept(b: u8) -> bool
    ensures { OnTrue result (escaped_byte b ≡ b ∷ []) }
{
    let is_printed = (32 <= b) & (b < 127) & (b != 92);
    let is_markup = (b == 38) | (b == 60) | (b == 62) | (b == 34) | (b == 39);
    ((b == 9) | (b == 10) | is_printed) & !is_markup
}

/// Whether all bytes are escaped as themselves.
fn are_kept(bytes: &[u8]) -> bool
    ensures { OnTrue result (escaped bytes.now ≡ bytes.now) }
{
    let mut are_kept = true;
    for b in bytes {
        are_kept &= is_kept(*b);
    }
    are_kept
}

/// The bytes that are tested at once.
const RUN: usize = 32;

/// The bytes that share a room.
const CHUNK: usize = 128;

/// The room of a chunk: six bytes at most for each of its bytes, and the rest of the last row.
const ROOM: usize = 776;

/// Stores bytes escaped at a place. Returns where they end.
fn put_rows(room: &mut [u8], from: usize, bytes: &[u8]) -> usize
    requires { from + 6 * length bytes.now + 8 ≤ length room.old }
    ensures len { length room.new ≡ length room.old }
    ensures end { result ≤ from + 6 * length bytes.now }
    ensures text { take result room.new ≡ take from room.old ++ escaped bytes.now }
{
    let mut at = from;
    for b in bytes {
        at = put_byte(room, at, *b);
    }
    at
}

/// Stores a whole run at a place as it is. Returns where it ends.
fn put_kept(room: &mut [u8], at: usize, run: &[u8]) -> usize
    requires run { length run.now ≡ 32 }
    requires fits { at + 32 ≤ length room.old }
    ensures len { length room.new ≡ length room.old }
    ensures end { result ≡ at + 32 }
    ensures text { take result room.new ≡ take at room.old ++ run.now }
{
    u8x32::from_slice(run).copy_to_slice(&mut room[at..]);
    at + RUN
}

/// Stores a run escaped at a place. A short one is not tested first: that would go byte by byte.
fn put_run(room: &mut [u8], at: usize, run: &[u8]) -> usize
    requires { at + 6 * length run.now + 8 ≤ length room.old }
    ensures len { length room.new ≡ length room.old }
    ensures end { result ≤ at + 6 * length run.now }
    ensures text { take result room.new ≡ take at room.old ++ escaped run.now }
{
    if run.len() == RUN && are_kept(run) {
        return put_kept(room, at, run);
    }
    put_rows(room, at, run)
}

/// Stores a chunk escaped at the front of a room. Returns where it ends.
fn put_chunk(room: &mut [u8; ROOM], chunk: &[u8]) -> usize
    requires { length chunk.now ≤ 128 }
    ensures within { result ≤ 776 }
    ensures text { take result room.new ≡ escaped chunk.now }
{
    let mut at = 0;
    let mut end = 0;
    while at < chunk.len() {
        let next = at + RUN.min(chunk.len() - at);
        end = put_run(room, end, &chunk[at..next]);
        at = next;
    }
    end
}

/// Appends the bytes escaped.
pub fn push_escaped(out: &mut Vec<u8>, bytes: &[u8]) -> Result<(), AllocError>
    ensures { OnOk result (out.new.items ≡ out.old.items ++ escaped bytes.now) }
{
    let mut room = [0; ROOM];
    let mut at = 0;
    while at < bytes.len() {
        let next = at + CHUNK.min(bytes.len() - at);
        let end = put_chunk(&mut room, &bytes[at..next]);
        out.extend_from_slice(&room[..end])?;
        at = next;
    }
    Ok(())
}
