// Writes to the store, as far as a cut lets them through.
ghost use Rattle.std.specs.Prelude.{◌≡◌, ◌+◌, ◌-◌, ◌<◌, ◌≤◌, [], ◌∷◌, length, MatchResult};
ghost use Rattle.outside.specs.Outside.{HasCause};
ghost use Rattle.blk_spec.specs.Writes.{through, spent, in_pieces};
ghost use Rattle.blk_spec.specs.Answers.{HasRoom, device};
ghost use Rattle.blk_spec.specs.Rings.{header_bytes, header_write, run_writes};
ghost use Rattle.blk_spec.specs.Dumps.{zeros_by};
ghost use Rattle.zone_blk.specs.Outcomes.{Ends, one_write};
ghost use Rattle.zone_blk.specs.Fits.{IsZone};

use arrayvec::ArrayVec;
use blk_spec::{BlkCut, BlkWords, BlkZone};
use outside::{Failed, Store};

// How many zeros are written at once.
const PIECE: usize = 65_536;

static ZEROS: [u8; PIECE] = [0; PIECE];

/// How many of the next bytes reach the store, and the cut after them.
#[derive(Clone, Copy)]
struct Passing {
    count: usize,
    cut: BlkCut,
}

fn pass(cut: BlkCut, len: usize) -> Passing
    ensures count { result.count ≡ through cut len }
    ensures within { result.count ≤ len }
    ensures cut { result.cut ≡ spent len cut }
{
    match cut {
        BlkCut::Uncut => Passing { count: len, cut },
        BlkCut::After(limit) => {
            if len as u64 <= limit {
                Passing {
                    count: len,
                    cut: BlkCut::After(limit - len as u64),
                }
            } else {
                Passing {
                    count: limit as usize,
                    cut: BlkCut::Dropped,
                }
            }
        }
        BlkCut::Dropped => Passing { count: 0, cut },
    }
}

/// Writes the bytes from place `at` of the store on, which lie in the zone.
pub fn write<M: Store>(
    store: &mut M,
    cut: &mut BlkCut,
    zone: BlkZone,
    at: u32,
    bytes: &[u8],
) -> Result<(), Failed>
    requires zone { IsZone zone }
    requires inside { at + length bytes.now ≤ zone.at + zone.size }
    requires room { HasRoom (zone.at + zone.size) (M.holds store.old) }
    ensures ends { let a = device (M.holds store.old) (M.writes store.old) (M.read_faults store.old) in
        let b = device (M.holds store.new) (M.writes store.new) (M.read_faults store.new) in
        Ends result (one_write at bytes.now) cut.old cut.new a b }
    ensures room { HasRoom (zone.at + zone.size) (M.holds store.new) }
    ensures cause { HasCause (M.faults store.old) (M.faults store.new) result }
{
    let passing = pass(*cut, bytes.len());
    *cut = passing.cut;
    if passing.count == 0 {
        return Ok(());
    }
    store.write_at(at as u64, &bytes[..passing.count])
}

pub fn header(sig: u32, words: BlkWords) -> ArrayVec<u8, 12>
    ensures { result.items ≡ header_bytes sig words }
{
    let mut bytes: ArrayVec<u8, 12> = ArrayVec::new();
    let _room = bytes.try_extend_from_slice(&sig.to_le_bytes());
    let _room = bytes.try_extend_from_slice(&words.size.to_le_bytes());
    let _room = bytes.try_extend_from_slice(&words.start.to_le_bytes());
    bytes
}

/// Writes the zone's header with these words.
pub fn write_header<M: Store>(
    store: &mut M,
    cut: &mut BlkCut,
    zone: BlkZone,
    words: BlkWords,
) -> Result<(), Failed>
    requires zone { IsZone zone }
    requires sized { 12 ≤ zone.size }
    requires room { HasRoom (zone.at + zone.size) (M.holds store.old) }
    ensures ends { let a = device (M.holds store.old) (M.writes store.old) (M.read_faults store.old) in
        let b = device (M.holds store.new) (M.writes store.new) (M.read_faults store.new) in
        Ends result (header_write zone words ∷ []) cut.old cut.new a b }
    ensures room { HasRoom (zone.at + zone.size) (M.holds store.new) }
    ensures cause { HasCause (M.faults store.old) (M.faults store.new) result }
{
    let bytes = header(zone.sig, words);
    write(store, cut, zone, zone.at, bytes.as_slice())
}

/// Writes data from a place of the zone's data on, and after them the header with these words.
pub fn write_run<M: Store>(
    store: &mut M,
    cut: &mut BlkCut,
    zone: BlkZone,
    place: u32,
    bytes: &[u8],
    words: BlkWords,
) -> Result<(), Failed>
    requires zone { IsZone zone }
    requires inside { 12 + place + length bytes.now ≤ zone.size }
    requires room { HasRoom (zone.at + zone.size) (M.holds store.old) }
    ensures ends { let a = device (M.holds store.old) (M.writes store.old) (M.read_faults store.old) in
        let b = device (M.holds store.new) (M.writes store.new) (M.read_faults store.new) in
        Ends result (run_writes zone place bytes.now words) cut.old cut.new a b }
    ensures room { HasRoom (zone.at + zone.size) (M.holds store.new) }
    ensures cause { HasCause (M.faults store.old) (M.faults store.new) result }
{
    match write(store, cut, zone, zone.at + 12 + place, bytes) {
        Ok(()) => write_header(store, cut, zone, words),
        Err(failed) => Err(failed),
    }
}

/// Writes zeros from place `from` of the store up to the zone's end.
fn write_zeros<M: Store>(
    store: &mut M,
    cut: &mut BlkCut,
    zone: BlkZone,
    from: u32,
) -> Result<(), Failed>
    requires zone { IsZone zone }
    requires inside { from ≤ zone.at + zone.size }
    requires room { HasRoom (zone.at + zone.size) (M.holds store.old) }
    ensures ends { let a = device (M.holds store.old) (M.writes store.old) (M.read_faults store.old) in
        let b = device (M.holds store.new) (M.writes store.new) (M.read_faults store.new) in
        Ends result (in_pieces from (zeros_by 65536 ((zone.at + zone.size) - from))) cut.old cut.new
        a b }
    ensures room { HasRoom (zone.at + zone.size) (M.holds store.new) }
    ensures cause { HasCause (M.faults store.old) (M.faults store.new) result }
{
    let end = zone.at + zone.size;
    let mut at = from;
    'pieces: while at < end {
        let count = (PIECE as u32).min(end - at);
        match write(store, cut, zone, at, &ZEROS[..count as usize]) {
            Ok(()) => at += count,
            Err(Failed) => return Err(Failed),
        }
    }
    Ok(())
}

/// Writes a whole zone: two pieces, a body, and zeros up to the zone's end.
pub fn write_zone<M: Store>(
    store: &mut M,
    cut: &mut BlkCut,
    zone: BlkZone,
    header: &[u8],
    front: &[u8],
    body: &[u8],
) -> Result<(), Failed>
    requires zone { IsZone zone }
    requires inside { length header.now + length front.now + length body.now ≤ zone.size }
    requires room { HasRoom (zone.at + zone.size) (M.holds store.old) }
    ensures ends { let a = device (M.holds store.old) (M.writes store.old) (M.read_faults store.old) in
        let b = device (M.holds store.new) (M.writes store.new) (M.read_faults store.new) in
        Ends result (in_pieces zone.at (header.now ∷ front.now ∷ body.now
        ∷ zeros_by 65536 (zone.size - (length header.now + length front.now + length body.now)))) cut.old cut.new
        a b }
    ensures room { HasRoom (zone.at + zone.size) (M.holds store.new) }
    ensures cause { HasCause (M.faults store.old) (M.faults store.new) result }
{
    let mut at = zone.at;
    match write(store, cut, zone, at, header) {
        Ok(()) => at += header.len() as u32,
        Err(Failed) => return Err(Failed),
    }
    match write(store, cut, zone, at, front) {
        Ok(()) => at += front.len() as u32,
        Err(Failed) => return Err(Failed),
    }
    match write(store, cut, zone, at, body) {
        Ok(()) => write_zeros(store, cut, zone, at + body.len() as u32),
        Err(Failed) => Err(Failed),
    }
}
