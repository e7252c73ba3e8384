// What a loading reads of the store.
ghost use Rattle.std.specs.Prelude.{◌≡◌, ◌+◌, ◌-◌, ◌<◌, ◌≤◌, length, take, drop, slice_range, IfOk, IfSome, OnOk};
ghost use Rattle.std.specs.Prelude.{IsTrue, ◌++◌, option_to_list, vec_len, None, nat_lt, ◌&&◌};
ghost use Rattle.std.specs.List.{All};
ghost use Rattle.std.specs.Int.{from_le_bytes};
ghost use Rattle.std.proofs.Common.{w32, w64};
ghost use Rattle.blk_spec.specs.Layout.{IsLayout};
ghost use Rattle.blk_spec.specs.Answers.{HasRoom};
ghost use Rattle.blk_spec.specs.Reading.{zone_bytes, header_words as words_read, is_valid as is_valid_zone};
ghost use Rattle.blk_spec.specs.Reading.{is_dump as is_dump_zone, ring_log, saved_ring as saved_of, dump_seen};
ghost use Rattle.blk_spec.specs.Reading.{listed_dump as dump_of, dumps_listed, greatest_counter as greatest_of};
ghost use Rattle.zone_blk.specs.Fits.{IsZone};
ghost use Rattle.zone_blk.specs.Loading.{ReadEnds, IsIn};

use crate::zones::dump_zone;
use blk_spec::{BlkFault, BlkLayout, BlkTime, BlkZone};
use outside::{Bytes, Failed, Load};
use std::alloc::{AllocError, Global};
use std::marker::Model;
use zone_spec::Words;

const MAGIC: u32 = 0x4dfc3ae5;

const HEADER: u32 = 12;

const DUMP_HEADER: u32 = 40;

// Both headers of a dump.
const FRONT: usize = 52;

const NANOS: u64 = 1_000_000_000;

/// A listed dump. `index` is its zone's, `reason` the number in its header.
#[derive(Drop)]
pub struct Dump {
    pub index: u32,
    pub time: BlkTime,
    pub packed: bool,
    pub counter: u32,
    pub reason: u32,
    pub body: Bytes,
}

impl Model for Dump {
    ghost use Rattle.blk_spec.specs.Reading.{BlkDump};

    ghost Value = { BlkDump };

    ghost view = { λ d. record {
      index = d.index;
      time = d.time;
      packed = d.packed;
      counter = d.counter;
      reason = d.reason;
      body = d.body;
    } };
}

fn word_at(bytes: &[u8], at: usize) -> u32
    requires { at + 4 ≤ length bytes.now }
    ensures { result ≡ from_le_bytes w32 (slice_range bytes.now at (at + 4)) }
{
    let word = &bytes[at..at + 4];
    u32::from_le_bytes([word[0], word[1], word[2], word[3]])
}

fn long_at(bytes: &[u8], at: usize) -> u64
    requires { at + 8 ≤ length bytes.now }
    ensures { result ≡ from_le_bytes w64 (slice_range bytes.now at (at + 8)) }
{
    let long = &bytes[at..at + 8];
    u64::from_le_bytes([
        long[0], long[1], long[2], long[3], long[4], long[5], long[6], long[7],
    ])
}

fn header_words(bytes: &[u8]) -> Words
    requires { 12 ≤ length bytes.now }
    ensures { result ≡ words_read bytes.now }
{
    Words {
        sig: word_at(bytes, 0),
        size: word_at(bytes, 4),
        start: word_at(bytes, 8),
    }
}

fn is_valid(zone: BlkZone, words: Words) -> bool
    requires { 12 ≤ zone.size }
    ensures { result ≡ is_valid_zone zone words }
{
    words.sig == zone.sig && words.size <= zone.size - 12 && words.start <= words.size
}

fn has_log(zone: BlkZone, words: Words) -> bool
    requires { 12 ≤ zone.size }
    ensures { result ≡ (is_valid_zone zone words && nat_lt 0 words.size) }
{
    is_valid(zone, words) && words.size > 0
}

fn is_dump(words: Words, content: &[u8]) -> bool
    requires { 40 ≤ length content.now }
    ensures { result ≡ is_dump_zone words content.now }
{
    words.size >= DUMP_HEADER
        && word_at(content, 0) == MAGIC
        && long_at(content, 8) < 1 << 63
        && long_at(content, 16) < NANOS
}

fn is_listed(zone: BlkZone, words: Words, content: &[u8]) -> bool
    requires sized { 12 ≤ zone.size }
    requires header { 40 ≤ length content.now }
    ensures { result ≡ (is_valid_zone zone words && is_dump_zone words content.now) }
{
    is_valid(zone, words) && is_dump(words, content)
}

/// Reads a part of a zone, from its byte `from` on.
fn read_part<M: Load>(
    store: &mut M,
    zone: BlkZone,
    from: u32,
    into: &mut [u8],
) -> Result<(), BlkFault>
    requires zone { IsZone zone }
    requires inside { from + length into.old ≤ zone.size }
    requires room { HasRoom (zone.at + zone.size) (M.holds store.old) }
    ensures bytes { OnOk result (IfSome (M.holds store.old)
        (λ bs. into.new ≡ take (length into.old) (drop from (zone_bytes bs zone)))) }
    ensures ends { ReadEnds result (M.faults store.old) (M.faults store.new) (M.read_faults store.old)
        (M.read_faults store.new) }
    ensures same { M.holds store.new ≡ M.holds store.old }
    ensures unwritten { M.writes store.new ≡ M.writes store.old }
    ensures later { M.faults store.old ≤ M.faults store.new }
{
    match store.read_at(u64::from(zone.at + from), into) {
        Ok(()) => Ok(()),
        Err(Failed) => Err(BlkFault::StoreFault),
    }
}

/// Reads so many bytes of a zone, from its byte `from` on, into memory of their own.
fn read_bytes<M: Load>(
    alloc: Global,
    store: &mut M,
    zone: BlkZone,
    from: u32,
    len: u32,
) -> Result<Vec<u8>, BlkFault>
    requires zone { IsZone zone }
    requires inside { from + len ≤ zone.size }
    requires room { HasRoom (zone.at + zone.size) (M.holds store.old) }
    ensures bytes { IfOk result (λ v. IfSome (M.holds store.old)
        (λ bs. v.items ≡ take len (drop from (zone_bytes bs zone)))) }
    ensures len { IfOk result (λ v. vec_len v ≡ len) }
    ensures ends { ReadEnds result (M.faults store.old) (M.faults store.new) (M.read_faults store.old)
        (M.read_faults store.new) }
    ensures same { M.holds store.new ≡ M.holds store.old }
    ensures unwritten { M.writes store.new ≡ M.writes store.old }
    ensures later { M.faults store.old ≤ M.faults store.new }
{
    let mut bytes = vec![in alloc; 0u8; len as usize]?;
    match read_part(store, zone, from, &mut bytes) {
        Ok(()) => Ok(bytes),
        Err(fault) => Err(fault),
    }
}

/// Reads the words of a ring's header.
fn read_header<M: Load>(store: &mut M, zone: BlkZone) -> Result<Words, BlkFault>
    requires zone { IsZone zone }
    requires sized { 12 ≤ zone.size }
    requires room { HasRoom (zone.at + zone.size) (M.holds store.old) }
    ensures words { IfOk result (λ words. IfSome (M.holds store.old) (λ bs. words ≡ words_read (zone_bytes bs zone))) }
    ensures ends { ReadEnds result (M.faults store.old) (M.faults store.new) (M.read_faults store.old)
        (M.read_faults store.new) }
    ensures same { M.holds store.new ≡ M.holds store.old }
    ensures unwritten { M.writes store.new ≡ M.writes store.old }
    ensures later { M.faults store.old ≤ M.faults store.new }
{
    let mut header = [0u8; HEADER as usize];
    match read_part(store, zone, 0, &mut header) {
        Ok(()) => Ok(header_words(&header)),
        Err(fault) => Err(fault),
    }
}

/// Reads the log of a ring whose header has these words: its bytes alone.
fn read_log<M: Load>(
    alloc: Global,
    store: &mut M,
    zone: BlkZone,
    words: Words,
) -> Result<Bytes, BlkFault>
    requires zone { IsZone zone }
    requires sized { 12 ≤ zone.size }
    requires log { IsTrue (is_valid_zone zone words && nat_lt 0 words.size) }
    requires room { HasRoom (zone.at + zone.size) (M.holds store.old) }
    ensures log { IfOk result (λ log. IfSome (M.holds store.old)
        (λ bs. log ≡ ring_log words (drop 12 (zone_bytes bs zone)))) }
    ensures ends { ReadEnds result (M.faults store.old) (M.faults store.new) (M.read_faults store.old)
        (M.read_faults store.new) }
    ensures same { M.holds store.new ≡ M.holds store.old }
    ensures unwritten { M.writes store.new ≡ M.writes store.old }
    ensures later { M.faults store.old ≤ M.faults store.new }
{
    let mut log = match read_bytes(alloc, store, zone, HEADER, words.size) {
        Ok(log) => log,
        Err(fault) => return Err(fault),
    };
    log.rotate_left(words.start as usize);
    Ok(Bytes::from_vec(log))
}

/// Reads the saved log of a ring: its header, and then its log alone.
pub fn read_ring<M: Load>(
    alloc: Global,
    store: &mut M,
    zone: BlkZone,
) -> Result<Option<Bytes>, BlkFault>
    requires zone { IsZone zone }
    requires sig { 0 < zone.sig }
    requires room { HasRoom (zone.at + zone.size) (M.holds store.old) }
    ensures saved { IfOk result (λ saved. IfSome (M.holds store.old)
        (λ bs. saved ≡ saved_of zone (zone_bytes bs zone))) }
    ensures none { IfOk result (λ saved. zone.size ≡ 0 → saved ≡ None) }
    ensures ends { ReadEnds result (M.faults store.old) (M.faults store.new) (M.read_faults store.old)
        (M.read_faults store.new) }
    ensures same { M.holds store.new ≡ M.holds store.old }
    ensures unwritten { M.writes store.new ≡ M.writes store.old }
    ensures later { M.faults store.old ≤ M.faults store.new }
{
    if zone.size < HEADER {
        return Ok(None);
    }
    let words = match read_header(store, zone) {
        Ok(words) => words,
        Err(fault) => return Err(fault),
    };
    if !has_log(zone, words) {
        return Ok(None);
    }
    match read_log(alloc, store, zone, words) {
        Ok(log) => Ok(Some(log)),
        Err(fault) => Err(fault),
    }
}

/// The dump whose header has these words and whose zone goes on so, with this body.
fn dump_with(index: u32, words: Words, content: &[u8], body: Bytes) -> Dump
    requires content { 40 ≤ length content.now }
    requires time { IsTrue (is_dump_zone words content.now) }
    ensures { result ≡ record (dump_seen index words content.now) { body = body } }
{
    Dump {
        index,
        time: BlkTime {
            secs: long_at(content, 8),
            nanos: long_at(content, 16) as u32,
        },
        packed: content[24] != 0,
        counter: word_at(content, 28),
        reason: word_at(content, 32),
        body,
    }
}

/// Reads the front of a dump's zone: both its headers.
fn read_front<M: Load>(store: &mut M, zone: BlkZone) -> Result<[u8; FRONT], BlkFault>
    requires zone { IsZone zone }
    requires sized { 4096 ≤ zone.size }
    requires room { HasRoom (zone.at + zone.size) (M.holds store.old) }
    ensures front { IfOk result (λ front. IfSome (M.holds store.old) (λ bs. front ≡ take 52 (zone_bytes bs zone))) }
    ensures ends { ReadEnds result (M.faults store.old) (M.faults store.new) (M.read_faults store.old)
        (M.read_faults store.new) }
    ensures same { M.holds store.new ≡ M.holds store.old }
    ensures unwritten { M.writes store.new ≡ M.writes store.old }
    ensures later { M.faults store.old ≤ M.faults store.new }
{
    let mut front = [0u8; FRONT];
    match read_part(store, zone, 0, &mut front) {
        Ok(()) => Ok(front),
        Err(fault) => Err(fault),
    }
}

/// Reads the dump of a zone, where it is listed: its headers, and then its body alone.
fn read_dump<M: Load>(
    alloc: Global,
    store: &mut M,
    index: u32,
    zone: BlkZone,
) -> Result<Option<Dump>, BlkFault>
    requires zone { IsZone zone }
    requires sized { 4096 ≤ zone.size }
    requires room { HasRoom (zone.at + zone.size) (M.holds store.old) }
    ensures dump { IfOk result (λ dump. IfSome (M.holds store.old)
        (λ bs. dump ≡ dump_of index zone (zone_bytes bs zone))) }
    ensures index { IfOk result (λ dump. IfSome dump (λ d. d.index ≡ index)) }
    ensures ends { ReadEnds result (M.faults store.old) (M.faults store.new) (M.read_faults store.old)
        (M.read_faults store.new) }
    ensures same { M.holds store.new ≡ M.holds store.old }
    ensures unwritten { M.writes store.new ≡ M.writes store.old }
    ensures later { M.faults store.old ≤ M.faults store.new }
{
    let front = match read_front(store, zone) {
        Ok(front) => front,
        Err(fault) => return Err(fault),
    };
    let words = header_words(&front);
    let content = &front[HEADER as usize..];
    if !is_listed(zone, words, content) {
        return Ok(None);
    }
    match read_bytes(alloc, store, zone, FRONT as u32, words.size - DUMP_HEADER) {
        Ok(body) => Ok(Some(dump_with(index, words, content, Bytes::from_vec(body)))),
        Err(fault) => Err(fault),
    }
}

fn add_dump(dumps: &mut Vec<Dump>, dump: Option<Dump>) -> Result<(), AllocError>
    ensures { OnOk result (dumps.new.items ≡ dumps.old.items ++ option_to_list dump) }
{
    if let Some(dump) = dump {
        dumps.push(dump)?;
    }
    Ok(())
}

/// Reads the listed dumps, by rising number.
pub fn read_dumps<M: Load>(
    alloc: Global,
    store: &mut M,
    layout: BlkLayout,
) -> Result<Vec<Dump>, BlkFault>
    requires layout { IsLayout layout }
    requires room { HasRoom layout.total (M.holds store.old) }
    ensures dumps { IfOk result (λ v. IfSome (M.holds store.old) (λ bs. v.items ≡ dumps_listed layout bs)) }
    ensures inside { IfOk result (λ v. All (IsIn layout) v.items) }
    ensures ends { ReadEnds result (M.faults store.old) (M.faults store.new) (M.read_faults store.old)
        (M.read_faults store.new) }
    ensures same { M.holds store.new ≡ M.holds store.old }
    ensures unwritten { M.writes store.new ≡ M.writes store.old }
    ensures later { M.faults store.old ≤ M.faults store.new }
{
    let mut dumps = Vec::new(alloc);
    for index in 0..layout.dumps {
        let dump = match read_dump(alloc, store, index, dump_zone(layout, index)) {
            Ok(dump) => dump,
            Err(fault) => return Err(fault),
        };
        match add_dump(&mut dumps, dump) {
            Ok(()) => (),
            Err(AllocError) => return Err(BlkFault::Memory),
        }
    }
    Ok(dumps)
}

/// The greatest counter of the dumps with this reason, or 0.
pub fn greatest_counter(dumps: &[Dump], reason: u32) -> u32
    ensures { result ≡ greatest_of reason dumps.now }
{
    let mut most: u32 = 0;
    for dump in dumps {
        if dump.reason == reason {
            most = most.max(dump.counter);
        }
    }
    most
}
