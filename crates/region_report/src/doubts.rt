// The bytes of a record that stand in bad blocks.
ghost use Rattle.std.specs.Prelude.{◌≡◌, ◌-◌, ◌<◌, ◌++◌, ℕ, Some, length, map, position, slice_get};
ghost use Rattle.std.specs.Prelude.{IfOk, OnOk};
ghost use Rattle.std.specs.List.{range_with_len};
ghost use Rattle.std.specs.Option.{option_copied};
ghost use Rattle.zone_spec.specs.declared.Zone.{Zone as ZoneValue};
ghost use Rattle.zone_spec.specs.Zones.{IsValidZone};
ghost use Rattle.prz_read.specs.Saving.{saved};
ghost use Rattle.report_spec.specs.Packed.{RecordShown};
ghost use Rattle.report_spec.specs.Doubts.{is_doubtful as is_doubtful_place, log_doubts as doubts_of_log, reading_at};
ghost use Rattle.report_spec.specs.Doubts.{zone_doubts as doubts_of_zone, is_console_zone as is_of_console};
ghost use Rattle.report_spec.specs.Doubts.{zone_place as place_of_zone, last_doubts as doubts_at_end};
ghost use Rattle.report_spec.specs.Doubts.{doubts_by as doubts_by_reading, with_doubts as doubts_added};
ghost use Rattle.report_spec.specs.Doubts.{doubts_between as doubts_in_range, has_doubt as has_doubt_in};

use crate::shown::RecordReport;
use crate::warnings::{any_bad, is_bad};
use outside::Bytes;
use prz_read::{Logs, Reading, ZoneParts};
use report_spec::Packing;
use std::alloc::{AllocError, Global};
use zone_spec::{Kind, Name, PartState, Words, Zone};

/// Whether a place of a zone's data is in a bad block.
fn is_doubtful(block: u32, states: &[PartState], place: u32) -> bool
    requires { 0 < block }
    ensures { result ≡ is_doubtful_place block states.now place }
{
    match states.get((place / block) as usize) {
        Some(state) => is_bad(*state),
        None => false,
    }
}

fn push_doubts(
    doubts: &mut Vec<bool>,
    block: u32,
    states: &[PartState],
    from: u32,
    to: u32,
) -> Result<(), AllocError>
    requires { 0 < block }
    ensures { OnOk result (doubts.new.items ≡ doubts.old.items
        ++ map (is_doubtful_place block states.now) (range_with_len from (to - from))) }
{
    for place in from..to {
        doubts.push(is_doubtful(block, states, place))?;
    }
    Ok(())
}

/// Of each byte of a zone's log, whether its place is in a bad block; nothing if no block is bad.
fn log_doubts(
    alloc: Global,
    zone: &Zone,
    words: Words,
    states: &[PartState],
) -> Result<Vec<bool>, AllocError>
    requires { IsValidZone zone.now }
    ensures { IfOk result (λ doubts. doubts.items ≡ doubts_of_log zone.now words states.now) }
{
    let mut doubts = Vec::new(alloc);
    if any_bad(states) {
        push_doubts(&mut doubts, zone.block, states, words.start, words.size)?;
        push_doubts(&mut doubts, zone.block, states, 0, words.start)?;
    }
    Ok(doubts)
}

fn reading_at(logs: &Logs, i: usize) -> Option<&Reading>
    ensures { option_copied result ≡ reading_at (saved logs.now) i }
{
    if i < logs.len() as usize {
        logs.reading(i as u32)
    } else {
        None
    }
}

fn zone_at(zones: &[Zone], i: usize) -> Option<&Zone>
    ensures { option_copied result ≡ slice_get zones.now i }
{
    zones.get(i)
}

fn parts_at(parts: &[ZoneParts], i: usize) -> Option<&ZoneParts>
    ensures { option_copied result ≡ slice_get parts.now i }
{
    parts.get(i)
}

fn doubts_by(
    alloc: Global,
    zone: Option<&Zone>,
    reading: Option<&Reading>,
    parts: Option<&ZoneParts>,
) -> Result<Vec<bool>, AllocError>
    requires { (z : ZoneValue) → option_copied zone ≡ Some z → IsValidZone z }
    ensures { IfOk result (λ doubts. doubts.items
        ≡ doubts_by_reading (option_copied zone.entry) (option_copied reading.entry) (option_copied parts.entry)) }
{
    let Some(zone) = zone else {
        return Ok(Vec::new(alloc));
    };
    let (Some(reading), Some(parts)) = (reading, parts) else {
        return Ok(Vec::new(alloc));
    };
    log_doubts(alloc, zone, reading.words, parts.blocks.as_slice())
}

fn zone_doubts(
    alloc: Global,
    zones: &[Zone],
    logs: &Logs,
    parts: &[ZoneParts],
    place: Option<usize>,
) -> Result<Vec<bool>, AllocError>
    requires valid { (i : ℕ) (z : ZoneValue) → slice_get zones.now i ≡ Some z → IsValidZone z }
    ensures { IfOk result (λ doubts. doubts.items
        ≡ doubts_of_zone zones.now (saved logs.now) parts.now place) }
{
    match place {
        Some(i) => doubts_by(
            alloc,
            zone_at(zones, i),
            reading_at(logs, i),
            parts_at(parts, i),
        ),
        None => Ok(Vec::new(alloc)),
    }
}

fn is_console_zone(zone: &Zone) -> bool
    ensures { result ≡ is_of_console zone.now }
{
    match zone.name.kind {
        Kind::Console => true,
        Kind::Dump | Kind::Ftrace | Kind::Pmsg => false,
    }
}

fn console_place(zones: &[Zone]) -> Option<usize>
    ensures { result ≡ position is_of_console zones.now }
{
    zones.iter().position(|zone| is_console_zone(zone))
}

/// The place of the zone in which a record's bytes stand as it has them.
fn zone_place(zones: &[Zone], packing: &Packing<Bytes>, name: Name) -> Option<usize>
    ensures { result ≡ place_of_zone zones.now packing.now name }
{
    match name {
        Name::Dump { index, .. } => match packing {
            Packing::Plain => Some(index as usize),
            Packing::Whole { .. } | Packing::Part { .. } => None,
        },
        Name::Console => console_place(zones),
        Name::Pmsg | Name::Ftrace => None,
    }
}

fn last_doubts(alloc: Global, count: usize, doubts: &[bool]) -> Result<Vec<bool>, AllocError>
    ensures { IfOk result (λ last. last.items ≡ doubts_at_end count doubts.now) }
{
    Vec::from_slice(alloc, &doubts[doubts.len().saturating_sub(count)..])
}

fn with_doubts(
    alloc: Global,
    zones: &[Zone],
    logs: &Logs,
    parts: &[ZoneParts],
    entry: RecordReport,
) -> Result<RecordReport, AllocError>
    requires valid { (i : ℕ) (z : ZoneValue) → slice_get zones.now i ≡ Some z → IsValidZone z }
    ensures { IfOk result (λ r. r ≡ doubts_added zones.now (saved logs.now) parts.now entry) }
{
    let place = zone_place(zones, &entry.packing, entry.name);
    let doubts = zone_doubts(alloc, zones, logs, parts, place)?;
    let count = entry.content.len().saturating_sub(entry.notice);
    let doubts = last_doubts(alloc, count, doubts.as_slice())?;
    Ok(RecordReport { doubts, ..entry })
}

/// The records, of each byte of whose text it is known whether it is doubtful. Takes time linear in the logs.
pub fn records_doubted(
    alloc: Global,
    zones: &[Zone],
    logs: &Logs,
    parts: &[ZoneParts],
    records: Vec<RecordReport>,
) -> Result<Vec<RecordReport>, AllocError>
    requires valid { (i : ℕ) (z : ZoneValue) → slice_get zones.now i ≡ Some z → IsValidZone z }
    ensures { IfOk result (λ all. all.items
        ≡ map (λ (r : RecordShown). doubts_added zones.now (saved logs.now) parts.now r) records.items) }
{
    let mut all = Vec::with_capacity(alloc, records.len())?;
    for entry in records {
        all.push(with_doubts(alloc, zones, logs, parts, entry)?)?;
    }
    Ok(all)
}

/// The doubts of the bytes between two places.
pub fn doubts_between(doubts: &[bool], from: usize, to: usize) -> &[bool]
    ensures { result.now ≡ doubts_in_range doubts.now from to }
{
    let end = to.min(doubts.len());
    if from < end { &doubts[from..end] } else { &[] }
}

/// Whether a byte between two places is doubtful.
pub fn has_doubt(doubts: &[bool], from: usize, to: usize) -> bool
    ensures { result ≡ has_doubt_in doubts.now from to }
{
    doubts_between(doubts, from, to).iter().any(|doubt| *doubt)
}
