// The two halves of a boot: all that is read and taken before the first store, and the stores.
ghost use Rattle.std.specs.Prelude.{◌≡◌, ◌≤◌, ◌<◌, ◌^◌, if◌then◌else◌, [], length, take, min, slice_get, Some, None};
ghost use Rattle.std.specs.Prelude.{IfOk};
ghost use Rattle.zone_spec.specs.Zones.{IsValidZone};
ghost use Rattle.zone_spec.specs.Reading.{zone_reading};
ghost use Rattle.zone_spec.specs.Boot.{keeps as keeps_zone, boot_stores, boot_fixes};
ghost use Rattle.ramoops_layout.specs.Laid.{zones_of};
ghost use Rattle.prz_region.specs.CutRegion.{span, stored};
ghost use Rattle.circular_buffer.specs.Buffer.{buffer};
ghost use Rattle.ramoops.specs.OffSeen.{known_all};
ghost use Rattle.ramoops.specs.Booting.{SpansFit, Prepares, AreLogs, Settles};
ghost use Rattle.ramoops.specs.Parting.{PartsTo};
ghost use Rattle.std.specs.Vec.{vec_capacity};

use crate::Told;
use crate::coders::Coders;
use crate::known::KnownZone;
use crate::report::{ZoneReport, report_of};
use crate::zones::HeldZone;
use prz_read::{Logs, Reading, Settled, keeps, read_zone, read_zone_by, settle, settle_by};
use prz_region::{Span, Spans};
use ramoops_layout::types::Layout;
use std::alloc::{AllocError, Global};
use zone_spec::{Words, Zone};

/// All that a boot reads and takes before its first store: the logs, the reports, the told lists of the zones, and
/// their encoders.
#[derive(Drop)]
pub struct Prepared {
    pub(crate) logs: Logs,
    pub(crate) reports: Vec<ZoneReport>,
    pub(crate) held: Vec<HeldZone>,
    pub(crate) coders: Coders,
}

// What is kept of a zone with this reading.
fn hold(alloc: Global, zone: &Zone, reading: &Reading) -> Result<HeldZone, AllocError>
    requires { length reading.now.log ≤ zone.now.cap }
    ensures { IfOk result (λ held. held ≡ record {
      told = buffer
          (if keeps_zone zone.now reading.now then reading.now.log else []) zone.now.cap;
      flight = None;
    }) }
{
    let mut told = Told::with_capacity(alloc, zone.cap)?;
    if keeps(zone, reading) {
        told.append(reading.log.as_slice());
    }
    Ok(HeldZone { told, flight: None })
}

// Reads a zone with the encoder for its parts, which is made if there is none yet.
fn read_with(
    alloc: Global,
    coders: &mut Coders,
    span: &Span,
    zone: &Zone,
) -> Result<Reading, AllocError>
    requires valid { IsValidZone zone.now }
    requires size { length span.now ≡ zone.now.size }
    ensures { IfOk result (λ r. r ≡ zone_reading zone.now span.now) }
{
    coders.add(zone)?;
    match coders.for_zone(zone) {
        Some(coder) => read_zone_by(alloc, coder, span, zone),
        None => read_zone(alloc, span, zone),
    }
}

impl Prepared {
    ghost use Rattle.ramoops.specs.OffSeen.{known_or};
    ghost use Rattle.std.specs.Option.{option_copied};
    ghost use Rattle.ramoops.specs.Booting.{Adds};

    // Reads the next zone, whose bytes are the span's.
    fn add(
        &mut self,
        alloc: Global,
        zone: &Zone,
        span: &Span,
        known: Option<&KnownZone>,
    ) -> Result<(), AllocError>
        requires valid { IsValidZone zone.now }
        requires size { length span.now ≡ zone.now.size }
        requires room { length self.old.logs.readings < length self.old.logs.zones }
        ensures { IfOk result (λ _. Adds self.old self.new zone.now span.now
            (known_or (option_copied known.entry))) }
    {
        let _len = span.len();
        let reading = read_with(alloc, &mut self.coders, span, zone)?;
        self.reports.push(report_of(zone, known, &reading))?;
        self.held.push(hold(alloc, zone, &reading)?)?;
        self.logs.push(reading);
        Ok(())
    }
}

/// Reads all zones, and stores nothing. The logs and the encoders are the only memory taken.
pub(crate) fn read_logs(alloc: Global, layout: &Layout, spans: &Spans) -> Result<Logs, AllocError>
    requires { SpansFit (zones_of layout.now) spans.now.spans }
    ensures { IfOk result (λ logs. AreLogs (zones_of layout.now) spans.now.spans logs) }
{
    let mut logs = Logs::new(alloc, layout)?;
    let mut coders = Coders::new(alloc);
    let zones = layout.zones();
    for (i, zone) in zones.iter().enumerate() {
        let reading = read_with(alloc, &mut coders, &spans.all()[i], zone)?;
        logs.push(reading);
    }
    Ok(logs)
}

/// Reads all zones, and takes what a boot keeps of them. Stores nothing.
pub(crate) fn prepare(
    alloc: Global,
    layout: &Layout,
    spans: &Spans,
    known: &[KnownZone],
) -> Result<Prepared, AllocError>
    requires { SpansFit (zones_of layout.now) spans.now.spans }
    ensures { IfOk result (λ p. Prepares (zones_of layout.now) spans.now.spans
        (known_all (length (zones_of layout.now)) known.now) p) }
{
    let zones = layout.zones();
    let mut prepared = Prepared {
        logs: Logs::new(alloc, layout)?,
        reports: Vec::with_capacity(alloc, zones.len())?,
        held: Vec::with_capacity(alloc, zones.len())?,
        coders: Coders::new(alloc),
    };
    for (i, zone) in zones.iter().enumerate() {
        prepared.add(alloc, zone, &spans.all()[i], known.get(i))?;
    }
    Ok(prepared)
}

/// A zone that a boot came to: how many of the boot's stores were then left to be made, the words that it read, and how
/// many stores it has there.
#[derive(Clone, Copy)]
pub struct Passed {
    pub(crate) left: u64,
    pub(crate) words: Words,
    pub(crate) settled: Settled,
}

// Settles a zone with the encoder that was made for its parts.
fn settle_with(
    coders: &Coders,
    spans: &mut Spans,
    i: u32,
    zone: &Zone,
    reading: &Reading,
    limit: u64,
) -> Settled
    requires valid { IsValidZone zone.now }
    requires span { i < length spans.old.spans }
    requires size { length (span spans.old i) ≡ zone.now.size }
    requires reading { reading.now ≡ zone_reading zone.now (span spans.old i) }
    ensures stores { spans.new ≡ stored spans.old i (take limit (boot_stores zone.now (span spans.old i))) }
    ensures made { result.made ≡ min limit (length (boot_stores zone.now (span spans.old i))) }
    ensures all { result.all ≡ length (boot_stores zone.now (span spans.old i)) }
    ensures few { result.all < 2 ^ 64 }
    ensures erase_at { result.erase_at ≡ length (boot_fixes zone.now (span spans.old i)) }
{
    match coders.for_zone(zone) {
        Some(coder) => settle_by(coder, spans, i, zone, reading, limit),
        None => settle(spans, i, zone, reading, limit),
    }
}

// Makes the first `left` stores of a boot in zone `i`, or all, by its reading.
fn pass(coders: &Coders, spans: &mut Spans, i: u32, zone: &Zone, logs: &Logs, left: u64) -> Passed
    requires valid { IsValidZone zone.now }
    requires span { i < length spans.old.spans }
    requires size { length (span spans.old i) ≡ zone.now.size }
    requires zones { i < length logs.now.zones }
    requires reading { slice_get logs.now.readings i ≡ Some (Some (zone_reading zone.now (span spans.old i))) }
    ensures stores { spans.new ≡ stored spans.old i (take left (boot_stores zone.now (span spans.old i))) }
    ensures left { result.left ≡ left }
    ensures words { result.words ≡ (zone_reading zone.now (span spans.old i)).words }
    ensures made { result.settled.made ≡ min left (length (boot_stores zone.now (span spans.old i))) }
    ensures all { result.settled.all ≡ length (boot_stores zone.now (span spans.old i)) }
    ensures few { result.settled.all < 2 ^ 64 }
    ensures erase_at { result.settled.erase_at ≡ length (boot_fixes zone.now (span spans.old i)) }
{
    match logs.reading(i) {
        Some(reading) => Passed {
            left,
            words: reading.words,
            settled: settle_with(coders, spans, i, zone, reading, left),
        },
        None => unreachable!(),
    }
}

/// Makes all stores of a boot, by the zones' readings. Takes no memory.
pub(crate) fn settle_all(coders: &Coders, spans: &mut Spans, layout: &Layout, logs: &Logs)
    requires spans { SpansFit (zones_of layout.now) spans.old.spans }
    requires logs { AreLogs (zones_of layout.now) spans.old.spans logs.now }
    ensures { Settles (zones_of layout.now) spans.old spans.new }
{
    let zones = layout.zones();
    for i in 0..logs.len() {
        let _passed = pass(coders, spans, i, &zones[i as usize], logs, u64::MAX);
    }
}

/// How far a boot has come: how many stores it may still make, and whether it made all that it came to.
#[derive(Clone, Copy)]
pub struct BootProgress {
    pub(crate) left: u64,
    pub(crate) is_whole: bool,
}

/// Makes the first `limit` stores of a boot, or all, by the zones' readings, and notes how it passed each zone where
/// there is room for it. Takes no memory.
pub(crate) fn settle_part(
    coders: &Coders,
    spans: &mut Spans,
    layout: &Layout,
    logs: &Logs,
    limit: u64,
    passed: &mut Vec<Passed>,
) -> BootProgress
    requires spans { SpansFit (zones_of layout.now) spans.old.spans }
    requires logs { AreLogs (zones_of layout.now) spans.old.spans logs.now }
    requires none { passed.old.items ≡ [] }
    requires room { length (zones_of layout.now) ≤ vec_capacity passed.old }
    ensures { PartsTo (zones_of layout.now) spans.old spans.new limit (length (zones_of layout.now))
        result passed.new.items }
{
    let zones = layout.zones();
    let mut progress = BootProgress {
        left: limit,
        is_whole: true,
    };
    for i in 0..logs.len() {
        let next = pass(coders, spans, i, &zones[i as usize], logs, progress.left);
        progress.is_whole &= next.settled.all <= progress.left;
        progress.left -= next.settled.made;
        passed.push_reserved(next);
    }
    progress
}
