// The report of an image.
ghost use Rattle.std.specs.Prelude.{◌≡◌, ◌<◌, ◌^◌, ℕ, Some, None, length, slice_get, IfOk};
ghost use Rattle.zone_spec.specs.declared.Zone.{Zone as ZoneValue};
ghost use Rattle.zone_spec.specs.Zones.{IsValidZone};
ghost use Rattle.zone_spec.specs.Layouts.{IsLayout};
ghost use Rattle.ramoops_layout.specs.Laid.{params_of, zones_of};
ghost use Rattle.prz_read.specs.Saving.{AreNumbered};
ghost use Rattle.region_report.specs.Reports.{SpansFit, ReadsTo, IsReport};

use crate::doubts::records_doubted;
use crate::mended::records_mended;
use crate::shown::{RecordReport, shown_records};
use crate::traced::records_traced;
use ftrace_text::EntryForm;
use outside::Bytes;
use prz_read::{Logs, ZoneParts, read_parts};
use prz_region::{Region, Span, Spans};
use ramoops_layout::types::Layout;
use report_spec::Origin;
use std::alloc::{AllocError, Global};
use std::marker::Model;
use symbols::Symbols;
use zone_spec::Zone;

/// What an image holds.
#[derive(Drop)]
pub struct Report {
    origin: Origin,
    logs: Logs,
    parts: Vec<ZoneParts>,
    records: Vec<RecordReport>,
}

impl Model for Report {
    ghost use Rattle.prz_read.specs.Saving.{AreNumbered};
    ghost use Rattle.region_report.specs.Reports.{ReportHeld};

    ghost Value = { ReportHeld };

    ghost view = { λ r. record {
      origin = r.origin;
      logs = r.logs;
      parts = r.parts.items;
      records = r.records.items;
    } };
}

impl Report {
    /// The report of zones that read so, with these records.
    pub fn of_zones(
        origin: Origin,
        logs: Logs,
        parts: Vec<ZoneParts>,
        records: Vec<RecordReport>,
    ) -> Report
        ensures { result ≡ record { origin = origin; logs = logs; parts = parts.items; records = records.items } }
    {
        Report {
            origin,
            logs,
            parts,
            records,
        }
    }

    /// Whose records they are.
    pub fn origin(&self) -> Origin
        ensures { result ≡ self.now.origin }
    {
        self.origin
    }

    /// What the zones hold, in the layout's order.
    pub fn logs(&self) -> &Logs
        ensures { result.now ≡ self.now.logs }
    {
        &self.logs
    }

    /// How the parts of each zone read, in the layout's order.
    pub fn parts(&self) -> &[ZoneParts]
        ensures { result.now ≡ self.now.parts }
    {
        &self.parts
    }

    /// The records that the next boot would list, in that order, as they are shown.
    pub fn records(&self) -> &[RecordReport]
        ensures { result.now ≡ self.now.records }
    {
        &self.records
    }
}

/// The zones as they read.
#[derive(Drop)]
pub struct Readings {
    pub(crate) logs: Logs,
    pub(crate) parts: Vec<ZoneParts>,
}

impl Readings {
    ghost use Rattle.prz_read.specs.Saving.{AreNumbered};
    ghost use Rattle.region_report.specs.Reports.{Adds};

    // Reads the next zone, whose bytes are the span's.
    fn add(&mut self, alloc: Global, zone: &Zone, span: &Span) -> Result<(), AllocError>
        requires valid { IsValidZone zone.now }
        requires size { length span.now ≡ zone.now.size }
        requires room { length self.old.logs.readings < length self.old.logs.zones }
        ensures { IfOk result (λ _. Adds self.old self.new zone.now span.now) }
    {
        let (reading, parts) = read_parts(alloc, span, zone)?;
        self.parts.push(parts)?;
        self.logs.push(reading);
        Ok(())
    }
}

fn read_zones(alloc: Global, zones: &[Zone], spans: &Spans) -> Result<Readings, AllocError>
    requires valid { (i : ℕ) (z : ZoneValue) → slice_get zones.now i ≡ Some z → IsValidZone z }
    requires fit { SpansFit zones.now spans.now.spans }
    requires few { length zones.now < 2 ^ 32 }
    requires numbered { AreNumbered zones.now }
    ensures { IfOk result (λ r. ReadsTo zones.now spans.now.spans (length zones.now) r) }
{
    let mut readings = Readings {
        logs: Logs::of_zones(alloc, zones)?,
        parts: Vec::with_capacity(alloc, zones.len())?,
    };
    for (i, zone) in zones.iter().enumerate() {
        readings.add(alloc, zone, &spans.all()[i])?;
    }
    Ok(readings)
}

/// The report of an image by a whole list of zones, with the functions of a map, and the image again. The entries of its
/// ftrace logs have the form that is given, or else the one that the logs' bytes show. Each part is decoded once, and
/// each packed dump inflated once. Takes time linear in the image and in the texts, which have at most 64 times its bytes.
pub fn report_of_zones(
    alloc: Global,
    zones: &[Zone],
    symbols: &Symbols,
    given: Option<EntryForm>,
    image: Bytes,
) -> Result<(Report, Bytes), AllocError>
    requires whole { IsLayout zones.now (length image) }
    requires few { length zones.now < 2 ^ 32 }
    requires numbered { AreNumbered zones.now }
    ensures report { IfOk result (λ read. IsReport zones.now symbols.now given image read.0) }
    ensures image { IfOk result (λ read. read.1 ≡ image) }
{
    let spans = match Region::from_bytes(image).cut_zones(zones) {
        Ok(spans) => spans,
        Err((_, refused)) => return Err(refused),
    };
    let Readings { logs, parts } = read_zones(alloc, zones, &spans)?;
    let image = spans.join().into_bytes();
    let held = records_traced(alloc, zones, given, &logs)?;
    let shown = shown_records(alloc, zones, symbols, held)?;
    let doubted = records_doubted(alloc, zones, &logs, parts.as_slice(), shown)?;
    let records = records_mended(alloc, parts.as_slice(), doubted)?;
    let report = Report {
        origin: Origin::Region,
        logs,
        parts,
        records,
    };
    Ok((report, image))
}

/// The report of an image by its layout, with the functions of a map.
pub fn report_of(
    alloc: Global,
    layout: &Layout,
    symbols: &Symbols,
    image: Bytes,
) -> Result<Report, AllocError>
    requires { length image ≡ (params_of layout.now).mem }
    ensures { IfOk result (IsReport (zones_of layout.now) symbols.now None image) }
{
    let _mem = layout.mem();
    let (report, _image) = report_of_zones(alloc, layout.zones(), symbols, None, image)?;
    Ok(report)
}
