// The bytes of a log, copied from the blocks that hold them.
ghost use Rattle.std.specs.Prelude.{◌≡◌, ◌+◌, ◌-◌, ◌≤◌, ◌<◌, ◌++◌, length, min, take, drop};
ghost use Rattle.zone_spec.specs.Zones.{IsValidZone};
ghost use Rattle.zone_spec.specs.Reading.{zone_reading, log_read, IsRing};
ghost use Rattle.rs_encode.specs.Lanes.{IsLent};
ghost use Rattle.zone_boot.specs.Reads.{bytes_at};

use crate::summaries::state_of;
use arrayvec::ArrayVec;
use prz_ecc::{Fix, read_block, read_header};
use zone_spec::{State, Words, Zone};

/// Copies the bytes that the data reads from `place` on to `out`, from `at` on: to the end of the block, and at most
/// `most` of them. Answers how many they are.
fn copy_piece(
    table: &[u128],
    image: &[u8],
    zone: &Zone,
    place: u32,
    most: u32,
    out: &mut [u8],
    at: usize,
) -> u32
    requires table { IsLent zone.now.parity table.now }
    requires valid { IsValidZone zone.now }
    requires size { length image.now ≡ zone.now.size }
    requires place { place < zone.now.cap }
    requires some { 0 < most }
    requires room { at + most ≤ length out.old }
    ensures some { 0 < result }
    ensures most { result ≤ most }
    ensures copied { out.new ≡ take at out.old ++ bytes_at zone.now image.now place result
        ++ drop (at + result) out.old }
{
    let mut block: ArrayVec<u8, 255> = ArrayVec::new();
    let mut fixes: ArrayVec<Fix, 63> = ArrayVec::new();
    let b = place / zone.block;
    let within = (place % zone.block) as usize;
    let _outcome = read_block(table, image, zone, b, &mut block, &mut fixes);
    let (_before, bytes) = block.as_slice().split_at(within);
    let len = bytes.len().min(most as usize);
    out[at..at + len].copy_from_slice(&bytes[..len]);
    len as u32
}

/// Copies the bytes that `n` data places from `place` on read to `out`, from `at` on, block by block.
fn copy_run(
    table: &[u128],
    image: &[u8],
    zone: &Zone,
    place: u32,
    n: u32,
    out: &mut [u8],
    at: usize,
)
    requires table { IsLent zone.now.parity table.now }
    requires valid { IsValidZone zone.now }
    requires size { length image.now ≡ zone.now.size }
    requires within { place + n ≤ zone.now.cap }
    requires room { at + n ≤ length out.old }
    ensures { out.new ≡ take at out.old ++ bytes_at zone.now image.now place n ++ drop (at + n) out.old }
{
    let mut done = 0;
    while done < n {
        let next = at + done as usize;
        done += copy_piece(table, image, zone, place + done, n - done, out, next);
    }
}

/// As [`copy_log`], of a ring with these words.
fn copy_ring(
    table: &[u128],
    image: &[u8],
    zone: &Zone,
    words: Words,
    from: u64,
    out: &mut [u8],
) -> usize
    requires table { IsLent zone.now.parity table.now }
    requires valid { IsValidZone zone.now }
    requires size { length image.now ≡ zone.now.size }
    requires ring { IsRing words zone.now.cap }
    ensures len { result ≡ min (length (log_read zone.now image.now words) - from) (length out.old) }
    ensures copied { out.new ≡ take result (drop from (log_read zone.now image.now words)) ++ drop result out.old }
{
    let size = words.size;
    if from >= u64::from(size) {
        return 0;
    }
    let from = from as u32;
    let n = out.len().min((size - from) as usize) as u32;
    let place = (words.start + from).min(size);
    let first = n.min(size - place);
    copy_run(table, image, zone, place, first, out, 0);
    let turned = from.saturating_sub(size - words.start);
    copy_run(table, image, zone, turned, n - first, out, first as usize);
    n as usize
}

/// Copies a zone's log, from its byte `from` on, to the front of `out`: as many bytes as there are and fit. Answers how
/// many. Only the header and the blocks that hold these bytes are decoded.
pub fn copy_log(table: &[u128], image: &[u8], zone: &Zone, from: u64, out: &mut [u8]) -> usize
    requires table { IsLent zone.now.parity table.now }
    requires valid { IsValidZone zone.now }
    requires size { length image.now ≡ zone.now.size }
    ensures len { result ≡ min (length (zone_reading zone.now image.now).log - from) (length out.old) }
    ensures copied { out.new ≡ take result (drop from (zone_reading zone.now image.now).log) ++ drop result out.old }
{
    let mut fixes: ArrayVec<Fix, 63> = ArrayVec::new();
    let header = read_header(table, image, zone, &mut fixes);
    match state_of(zone, header.words) {
        State::Found => copy_ring(table, image, zone, header.words, from, out),
        _ => 0,
    }
}
