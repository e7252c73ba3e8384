// The stores of a boot in a zone: those that zone_boot hands out are made, up to a limit.
ghost use Rattle.std.specs.Prelude.{◌≡◌, ◌+◌, ◌-◌, ◌*◌, ◌≤◌, ◌<◌, ◌^◌, ◌++◌, ℕ, List, [], length, min, take, drop};
ghost use Rattle.std.specs.Prelude.{if◌then◌else◌};
ghost use Rattle.std.proofs.Common.{w32};
ghost use Rattle.zone_spec.specs.Zones.{IsValidZone};
ghost use Rattle.zone_spec.specs.Reading.{zone_reading};
ghost use Rattle.zone_spec.specs.Parts.{AreBytes};
ghost use Rattle.zone_spec.specs.PartReadings.{words_read};
ghost use Rattle.zone_spec.specs.Calls.{erase_stages};
ghost use Rattle.zone_spec.specs.Boot.{boot_fixes, boot_stores, signing, keeps as keeps_zone};
ghost use Rattle.prz_region.specs.CutRegion.{span, stored};
ghost use Rattle.zone_boot.specs.Handed.{handed, handed_len};
ghost use Rattle.zone_boot.specs.Booting.{IsKept, IsBooting, Gives, KeepsReadings};
ghost use Rattle.zone_boot.specs.Left.{stages_of};
ghost use Rattle.zone_boot.specs.declared.boots.Phase.TheVariants.{Header, Blocks, Finished};
ghost use Rattle.zone_spec.specs.declared.State.TheVariants.{Found};
ghost use Rattle.prz_read.specs.Reads.{bytes_read, read_end};
ghost use Rattle.prz_read.specs.Sources.{unturned, HasBlock, IsFixing, IsRead, rank};

use crate::reading::{Reading, keeps};
use crate::span_parts::read_block;
use arrayvec::ArrayVec;
use prz_ecc::{Coder, Fix, bytes_of};
use prz_region::{Span, Spans};
use zone_boot::{Boot, BootStore, Given, Phase};
use zone_spec::{State, Words, Zone};

/// How many stores a boot has in a zone, and how many of them were made.
#[derive(Clone, Copy, Debug, PartialEq, Eq)]
pub struct Settled {
    pub made: u64,
    pub all: u64,
    /// The number of stores before the first one of the erasure; all where there is none.
    pub erase_at: u64,
}

/// The bytes that the block which `size` cuts reads from there on: none where a block ends there.
fn tail_read(coder: &Coder, span: &Span, zone: &Zone, size: u32) -> ArrayVec<u8, 255>
    requires coder { coder.now ≡ zone.now.parity }
    requires valid { IsValidZone zone.now }
    requires len { length span.now ≡ zone.now.size }
    requires within { size ≤ zone.now.cap }
    ensures { bytes_read zone.now span.now size ++ result.items
        ≡ bytes_read zone.now span.now (read_end zone.now size) }
{
    let _len = span.len();
    let none: ArrayVec<u8, 255> = ArrayVec::new();
    if size == zone.cap {
        return none;
    }
    let within = size % zone.block;
    if within == 0 {
        return none;
    }
    let mut block: ArrayVec<u8, 255> = ArrayVec::new();
    let mut fixes: ArrayVec<Fix, 63> = ArrayVec::new();
    let _outcome = read_block(coder, span, zone, size / zone.block, &mut block, &mut fixes);
    let (_below, tail) = block.as_slice().split_at(within as usize);
    copy_of(tail)
}

fn copy_of(bytes: &[u8]) -> ArrayVec<u8, 255>
    requires { length bytes.now ≤ 255 }
    ensures { result.items ≡ bytes.now }
{
    let mut out: ArrayVec<u8, 255> = ArrayVec::new();
    let _room = out.try_extend_from_slice(bytes);
    out
}

/// Appends the bytes from `from` on, as long as there are fewer than `most`.
fn push_piece(out: &mut ArrayVec<u8, 128>, bytes: &[u8], from: usize, most: usize)
    requires most { most ≤ 128 }
    requires few { length out.old.items ≤ most }
    ensures pushed { out.new.items ≡ out.old.items ++ take (most - length out.old.items) (drop from bytes.now) }
    ensures few { length out.new.items ≤ most }
{
    let rest = &bytes[from.min(bytes.len())..];
    let count = rest.len().min(most - out.len());
    let _room = out.try_extend_from_slice(&rest[..count]);
}

/// The bytes that block `b` reads: those of the log, turned back from its begin at `start`, and of the tail after it.
fn block_of(zone: &Zone, b: u32, start: u32, log: &[u8], tail: &[u8]) -> ArrayVec<u8, 128>
    requires valid { IsValidZone zone.now }
    requires block { zone.now.block * b < 2 ^ 32 }
    requires start { start ≤ length log.now }
    ensures { result.items ≡ take zone.now.block (drop (zone.now.block * b) (unturned start log.now ++ tail.now)) }
{
    let (back, front) = log.split_at(log.len() - start as usize);
    let at = (zone.block * b) as usize;
    let most = zone.block as usize;
    let mut out: ArrayVec<u8, 128> = ArrayVec::new();
    push_piece(&mut out, front, at, most);
    push_piece(&mut out, back, at.saturating_sub(front.len()), most);
    push_piece(&mut out, tail, at.saturating_sub(log.len()), most);
    out
}

/// Makes the first `left` of the stores that were handed out, or all.
fn make(out: &BootStore, spans: &mut Spans, i: u32, left: u64)
    requires span { i < length spans.old.spans }
    requires inside { out.now.place + handed_len out.now ≤ length (span spans.old i) }
    ensures { spans.new ≡ stored spans.old i (take left (handed out.now)) }
{
    match out.given {
        Given::Word => {
            if left > 0 {
                spans.store_word(i, out.place, out.byte_order, out.word);
            }
        }
        Given::Bytes => {
            let bytes = out.bytes.as_slice();
            let count = left.min(bytes.len() as u64) as usize;
            spans.store_bytes(i, out.place, &bytes[..count]);
        }
        Given::Nothing => {}
    }
}

/// Hands out the next stores of a boot: its corrections from the bytes that were read, and no part is decoded.
fn hand_out(
    coder: &Coder,
    span: &Span,
    reading: &Reading,
    tail: &[u8],
    boot: &mut Boot,
    out: &mut BootStore,
)
    requires coder { coder.now ≡ boot.old.zone.parity }
    requires valid { IsValidZone boot.old.zone }
    requires kept { IsKept boot.old }
    requires size { length span.now ≡ boot.old.zone.size }
    requires ready { boot.old.phase ≡ Finished → ⊥ }
    requires words { boot.old.phase ≡ Header → reading.now.words ≡ words_read boot.old.zone span.now }
    requires block { boot.old.phase ≡ Blocks → boot.old.block < boot.old.count
        → HasBlock boot.old.zone span.now boot.old.block reading.now.words.start reading.now.log tail.now }
    ensures gives { Gives boot.old span.now boot.new out.new }
    ensures erasure { boot.new.erasure ≡ boot.old.erasure }
    ensures count { boot.new.count ≡ boot.old.count }
    ensures fixing { IsFixing boot.new.phase → IsFixing boot.old.phase }
    ensures keeps { IsFixing boot.new.phase → KeepsReadings boot.old.zone span.now (handed out.new) }
    ensures rank { rank boot.new ≤ rank boot.old }
    ensures some { handed out.new ≡ [] → rank boot.new < rank boot.old }
{
    let image = span.bytes();
    match boot.phase {
        Phase::Header => {
            let reads = bytes_of(boot.zone.byte_order, reading.words);
            boot.fix_header(image, reads.as_slice(), out)
        }
        Phase::Blocks => {
            if boot.block < boot.count {
                let start = reading.words.start;
                let block = block_of(&boot.zone, boot.block, start, reading.log.as_slice(), tail);
                boot.fix_block(image, block.as_slice(), out);
            } else {
                boot.finish(coder.table(), image, out);
            }
        }
        _ => boot.finish(coder.table(), image, out),
    }
}

/// A boot of the zone with this reading, before its first store. A reading without corrections has none to compare.
fn begin(zone: &Zone, reading: &Reading) -> Boot
    requires valid { IsValidZone zone.now }
    requires reading { (image : List ℕ) × AreBytes image × (reading.now ≡ zone_reading zone.now image) }
    ensures zone { result.zone ≡ zone.now }
    ensures made { result.made ≡ 0 }
    ensures kept { IsKept result }
    ensures erasure { stages_of zone.now result.erasure ≡ (if keeps_zone zone.now reading.now then []
        else signing zone.now reading.now.state ++ erase_stages) }
    ensures stands { (image : List ℕ) → AreBytes image → reading.now ≡ zone_reading zone.now image
        → IsBooting result image image }
    ensures found { 0 < result.count → IsRead zone.now reading.now result.count }
{
    let is_kept = keeps(zone, reading);
    if reading.corrected == 0 {
        return Boot::of_clean(zone, reading.state, is_kept);
    }
    Boot::of_reading(zone, reading.words, reading.state, is_kept)
}

/// The bytes after the log that the last block of the log reads, where there are corrections. One block at most is
/// decoded again for them.
fn tail_of(coder: &Coder, span: &Span, zone: &Zone, reading: &Reading) -> ArrayVec<u8, 255>
    requires coder { coder.now ≡ zone.now.parity }
    requires valid { IsValidZone zone.now }
    requires size { length span.now ≡ zone.now.size }
    requires reading { reading.now ≡ zone_reading zone.now span.now }
    ensures { 0 < reading.now.corrected → reading.now.state ≡ Found
        → bytes_read zone.now span.now reading.now.words.size ++ result.items
        ≡ bytes_read zone.now span.now (read_end zone.now reading.now.words.size) }
{
    match reading.state {
        State::Found if reading.corrected > 0 => tail_read(coder, span, zone, reading.words.size),
        _ => ArrayVec::new(),
    }
}

/// Makes the first `limit` stores of a boot, or all, in the zone whose bytes are span `i`: the corrections of its data
/// and header, and the erasure of a zone that is not kept, in the order in which zone_boot hands them out. `reading` is
/// that of the span. Takes no memory.
pub fn settle_by(
    coder: &Coder,
    spans: &mut Spans,
    i: u32,
    zone: &Zone,
    reading: &Reading,
    limit: u64,
) -> Settled
    requires coder { coder.now ≡ zone.now.parity }
    requires valid { IsValidZone zone.now }
    requires span { i < length spans.old.spans }
    requires size { length (span spans.old i) ≡ zone.now.size }
    requires reading { reading.now ≡ zone_reading zone.now (span spans.old i) }
    ensures stores { spans.new ≡ stored spans.old i (take limit (boot_stores zone.now (span spans.old i))) }
    ensures made { result.made ≡ min limit (length (boot_stores zone.now (span spans.old i))) }
    ensures all { result.all ≡ length (boot_stores zone.now (span spans.old i)) }
    ensures erase_at { result.erase_at ≡ length (boot_fixes zone.now (span spans.old i)) }
{
    let _len = spans.all()[i as usize].len();
    let tail = tail_of(coder, &spans.all()[i as usize], zone, reading);
    let mut boot = begin(zone, reading);
    let mut out = BootStore::new();
    while !boot.is_finished() {
        let left = limit.saturating_sub(boot.made);
        let span = &spans.all()[i as usize];
        hand_out(coder, span, reading, tail.as_slice(), &mut boot, &mut out);
        make(&out, spans, i, left);
    }
    Settled {
        made: limit.min(boot.made),
        all: boot.made,
        erase_at: boot.made - boot.erasure_len(),
    }
}

/// The same with an encoder of its own. Takes no memory.
pub fn settle(spans: &mut Spans, i: u32, zone: &Zone, reading: &Reading, limit: u64) -> Settled
    requires valid { IsValidZone zone.now }
    requires span { i < length spans.old.spans }
    requires size { length (span spans.old i) ≡ zone.now.size }
    requires reading { reading.now ≡ zone_reading zone.now (span spans.old i) }
    ensures stores { spans.new ≡ stored spans.old i (take limit (boot_stores zone.now (span spans.old i))) }
    ensures made { result.made ≡ min limit (length (boot_stores zone.now (span spans.old i))) }
    ensures all { result.all ≡ length (boot_stores zone.now (span spans.old i)) }
    ensures erase_at { result.erase_at ≡ length (boot_fixes zone.now (span spans.old i)) }
{
    settle_by(&Coder::new(zone), spans, i, zone, reading, limit)
}
