// The write of a dump.
ghost use Rattle.std.specs.Prelude.{◌≡◌, ◌+◌, ◌-◌, ◌<◌, ◌≤◌, ◌++◌, ◌∷◌, replicate, if◌then◌else◌};
ghost use Rattle.std.specs.Int.{to_le_bytes};
ghost use Rattle.std.proofs.Common.{w32, w64};
ghost use Rattle.outside.specs.Outside.{HasCause};
ghost use Rattle.blk_spec.specs.Answers.{HasRoom, device};
ghost use Rattle.kmsg_spec.specs.Reasons.{reason_number};
ghost use Rattle.blk_spec.specs.Dumps.{dump_header, dump_writes, dump_pieces};
ghost use Rattle.zone_blk.specs.Outcomes.{EndsAs};
ghost use Rattle.zone_blk.specs.Fits.{IsZone};

use crate::writing::{header, write_zone};
use arrayvec::ArrayVec;
use blk_spec::{BlkCut, BlkTime, BlkWords, BlkZone, Reason};
use outside::{Failed, Store};

const MAGIC: u32 = 0x4dfc3ae5;

// Both headers of a dump.
const HEADERS: u32 = 52;

/// What the header of a dump says.
#[derive(Clone, Copy)]
pub struct DumpHeader {
    pub time: BlkTime,
    pub packed: bool,
    pub counter: u32,
    pub reason: Reason,
}

// The magic and the time.
fn first_fields(time: BlkTime) -> ArrayVec<u8, 24>
    ensures { result.items ≡ to_le_bytes w32 0x4dfc3ae5 ++ replicate 4 0 ++ to_le_bytes w64 time.secs
        ++ to_le_bytes w64 time.nanos }
{
    let mut bytes: ArrayVec<u8, 24> = ArrayVec::new();
    let _room = bytes.try_extend_from_slice(&MAGIC.to_le_bytes());
    let _room = bytes.try_extend_from_slice(&[0, 0, 0, 0]);
    let _room = bytes.try_extend_from_slice(&time.secs.to_le_bytes());
    let _room = bytes.try_extend_from_slice(&(time.nanos as u64).to_le_bytes());
    bytes
}

// Whether the dump is compressed, its counter, and the number of its reason.
fn last_fields(flag: u8, counter: u32, reason: u32) -> ArrayVec<u8, 16>
    ensures { result.items ≡ flag ∷ replicate 3 0 ++ to_le_bytes w32 counter ++ to_le_bytes w32 reason
        ++ replicate 4 0 }
{
    let mut bytes: ArrayVec<u8, 16> = ArrayVec::new();
    let _room = bytes.try_extend_from_slice(&[flag, 0, 0, 0]);
    let _room = bytes.try_extend_from_slice(&counter.to_le_bytes());
    let _room = bytes.try_extend_from_slice(&reason.to_le_bytes());
    let _room = bytes.try_extend_from_slice(&[0, 0, 0, 0]);
    bytes
}

fn flag_of(packed: bool) -> u8
    ensures { result ≡ (if packed then 1 else 0) }
{
    if packed { 1 } else { 0 }
}

fn header_of(dump: DumpHeader) -> ArrayVec<u8, 40>
    ensures { result.items ≡ dump_header dump.time dump.packed dump.counter (reason_number dump.reason) }
{
    let first = first_fields(dump.time);
    let last = last_fields(flag_of(dump.packed), dump.counter, dump.reason.number());
    let mut bytes: ArrayVec<u8, 40> = ArrayVec::new();
    let _room = bytes.try_extend_from_slice(first.as_slice());
    let _room = bytes.try_extend_from_slice(last.as_slice());
    bytes
}

/// Writes a dump over its whole zone: the front of the body that fits.
pub fn write_dump<M: Store>(
    store: &mut M,
    cut: &mut BlkCut,
    zone: BlkZone,
    dump: DumpHeader,
    body: &[u8],
) -> Result<(), Failed>
    requires zone { IsZone zone }
    requires sized { 4096 ≤ zone.size }
    requires room { HasRoom (zone.at + zone.size) (M.holds store.old) }
    ensures ends { let a = device (M.holds store.old) (M.writes store.old) (M.read_faults store.old) in
        let b = device (M.holds store.new) (M.writes store.new) (M.read_faults store.new) in
        EndsAs result (dump_writes zone dump.time dump.packed dump.counter dump.reason body.now)
        (dump_pieces zone dump.time dump.packed dump.counter dump.reason body.now)
        cut.old cut.new a b }
    ensures room { HasRoom (zone.at + zone.size) (M.holds store.new) }
    ensures cause { HasCause (M.faults store.old) (M.faults store.new) result }
{
    let (kept, _over) = body.split_at(body.len().min((zone.size - HEADERS) as usize));
    let words = BlkWords {
        size: 40 + kept.len() as u32,
        start: 0,
    };
    let header = header(zone.sig, words);
    let front = header_of(dump);
    write_zone(store, cut, zone, header.as_slice(), front.as_slice(), kept)
}
