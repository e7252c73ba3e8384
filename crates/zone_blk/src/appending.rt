// The writes of an append to a ring.
ghost use Rattle.std.specs.Prelude.{◌≡◌, ◌+◌, ◌-◌, ◌<◌, ◌≤◌, [], ◌∷◌, length, nat_lt, if◌then◌else◌, IfOk};
ghost use Rattle.outside.specs.Outside.{HasCause};
ghost use Rattle.blk_spec.specs.Layout.{capacity};
ghost use Rattle.blk_spec.specs.Answers.{HasRoom, device};
ghost use Rattle.blk_spec.specs.Rings.{header_write, run_writes, first_run, first_words, run_words, is_short};
ghost use Rattle.blk_spec.specs.Rings.{last_words, kept_writes, append_writes, words_after};
ghost use Rattle.zone_blk.specs.Outcomes.{Ends};
ghost use Rattle.zone_blk.specs.Fits.{IsZone, IsWithin};

use crate::writing::{write_header, write_run};
use blk_spec::{BlkCut, BlkWords, BlkZone};
use outside::{Failed, Store};

/// How an append goes round a ring: how many bytes its first run has, the words after that run and after the second
/// one, whether a further header is written, and the ring's words in the end.
#[derive(Clone, Copy)]
struct Turn {
    first: u32,
    first_words: BlkWords,
    run_words: BlkWords,
    is_short: bool,
    last: BlkWords,
}

fn run_words_of(zone: BlkZone, words: BlkWords, first: u32, count: u32) -> BlkWords
    requires zone { IsZone zone }
    requires sized { 4096 ≤ zone.size }
    requires within { words.start < capacity zone }
    requires run { first ≡ first_run zone words count }
    ensures { result ≡ run_words zone words count }
{
    let cap = zone.size - 12;
    if first < count {
        BlkWords {
            size: count - first,
            start: count - first,
        }
    } else {
        BlkWords {
            size: words.start + first,
            start: (words.start + first) % cap,
        }
    }
}

fn turn_of(zone: BlkZone, words: BlkWords, count: u32) -> Turn
    requires zone { IsZone zone }
    requires sized { 4096 ≤ zone.size }
    requires within { words.start < capacity zone }
    requires some { 0 < count }
    requires fits { count ≤ capacity zone }
    ensures first { result.first ≡ first_run zone words count }
    ensures first_words { result.first_words ≡ first_words zone words count }
    ensures run_words { result.run_words ≡ run_words zone words count }
    ensures short { result.is_short ≡ is_short zone words count }
    ensures last { result.last ≡ last_words zone words count }
    ensures start { result.last.start < capacity zone }
    ensures size { result.last.size ≤ capacity zone }
{
    let cap = zone.size - 12;
    let first = count.min(cap - words.start);
    let run_words = run_words_of(zone, words, first, count);
    let is_short = run_words.size != cap && (words.size == cap || first < count);
    Turn {
        first,
        first_words: BlkWords {
            size: words.start + first,
            start: (words.start + first) % cap,
        },
        run_words,
        is_short,
        last: BlkWords {
            size: if is_short { cap } else { run_words.size },
            start: run_words.start,
        },
    }
}

/// Writes what goes on from place 0, where there is any.
fn write_rest<M: Store>(
    store: &mut M,
    cut: &mut BlkCut,
    zone: BlkZone,
    bytes: &[u8],
    words: BlkWords,
) -> Result<(), Failed>
    requires zone { IsZone zone }
    requires inside { 12 + length bytes.now ≤ zone.size }
    requires room { HasRoom (zone.at + zone.size) (M.holds store.old) }
    ensures ends { let a = device (M.holds store.old) (M.writes store.old) (M.read_faults store.old) in
        let b = device (M.holds store.new) (M.writes store.new) (M.read_faults store.new) in
        Ends result (if nat_lt 0 (length bytes.now) then run_writes zone 0 bytes.now words else [])
        cut.old cut.new a b }
    ensures room { HasRoom (zone.at + zone.size) (M.holds store.new) }
    ensures cause { HasCause (M.faults store.old) (M.faults store.new) result }
{
    if bytes.is_empty() {
        return Ok(());
    }
    write_run(store, cut, zone, 0, bytes, words)
}

/// Writes the further header of a ring that is full, where its last header says less.
fn write_further<M: Store>(
    store: &mut M,
    cut: &mut BlkCut,
    zone: BlkZone,
    is_short: bool,
    words: BlkWords,
) -> Result<(), Failed>
    requires zone { IsZone zone }
    requires sized { 12 ≤ zone.size }
    requires room { HasRoom (zone.at + zone.size) (M.holds store.old) }
    ensures ends { let a = device (M.holds store.old) (M.writes store.old) (M.read_faults store.old) in
        let b = device (M.holds store.new) (M.writes store.new) (M.read_faults store.new) in
        Ends result (if is_short then header_write zone words ∷ [] else []) cut.old cut.new
        a b }
    ensures room { HasRoom (zone.at + zone.size) (M.holds store.new) }
    ensures cause { HasCause (M.faults store.old) (M.faults store.new) result }
{
    if !is_short {
        return Ok(());
    }
    write_header(store, cut, zone, words)
}

/// Writes at least one byte, and at most as many as the ring holds, with the headers after them.
fn write_turn<M: Store>(
    store: &mut M,
    cut: &mut BlkCut,
    zone: BlkZone,
    words: BlkWords,
    bytes: &[u8],
) -> Result<BlkWords, Failed>
    requires zone { IsZone zone }
    requires sized { 4096 ≤ zone.size }
    requires within { words.start < capacity zone }
    requires some { 0 < length bytes.now }
    requires fits { length bytes.now ≤ capacity zone }
    requires room { HasRoom (zone.at + zone.size) (M.holds store.old) }
    ensures ends { let a = device (M.holds store.old) (M.writes store.old) (M.read_faults store.old) in
        let b = device (M.holds store.new) (M.writes store.new) (M.read_faults store.new) in
        Ends result (kept_writes zone words bytes.now) cut.old cut.new a b }
    ensures words { IfOk result (λ after. after ≡ last_words zone words (length bytes.now)) }
    ensures start { IfOk result (λ after. after.start < capacity zone) }
    ensures size { IfOk result (λ after. after.size ≤ capacity zone) }
    ensures room { HasRoom (zone.at + zone.size) (M.holds store.new) }
    ensures cause { HasCause (M.faults store.old) (M.faults store.new) result }
{
    let turn = turn_of(zone, words, bytes.len() as u32);
    let (first, rest) = bytes.split_at(turn.first as usize);
    match write_run(store, cut, zone, words.start, first, turn.first_words) {
        Ok(()) => (),
        Err(Failed) => return Err(Failed),
    }
    match write_rest(store, cut, zone, rest, turn.run_words) {
        Ok(()) => (),
        Err(Failed) => return Err(Failed),
    }
    match write_further(store, cut, zone, turn.is_short, turn.last) {
        Ok(()) => Ok(turn.last),
        Err(Failed) => Err(Failed),
    }
}

/// Appends to the ring of a zone: its last bytes where the payload has more than the ring holds. Answers the ring's
/// words after the append.
pub fn append_ring<M: Store>(
    store: &mut M,
    cut: &mut BlkCut,
    zone: BlkZone,
    words: BlkWords,
    payload: &[u8],
) -> Result<BlkWords, Failed>
    requires zone { IsZone zone }
    requires sized { 0 < zone.size }
    requires within { IsWithin zone words }
    requires room { HasRoom (zone.at + zone.size) (M.holds store.old) }
    ensures ends { let a = device (M.holds store.old) (M.writes store.old) (M.read_faults store.old) in
        let b = device (M.holds store.new) (M.writes store.new) (M.read_faults store.new) in
        Ends result (append_writes zone words payload.now) cut.old cut.new a b }
    ensures words { IfOk result (λ after. after ≡ words_after zone words payload.now) }
    ensures within { IfOk result (λ after. IsWithin zone after) }
    ensures room { HasRoom (zone.at + zone.size) (M.holds store.new) }
    ensures cause { HasCause (M.faults store.old) (M.faults store.new) result }
{
    if payload.is_empty() {
        return Ok(words);
    }
    let over = payload.len().saturating_sub((zone.size - 12) as usize);
    let (_early, kept) = payload.split_at(over);
    write_turn(store, cut, zone, words, kept)
}
