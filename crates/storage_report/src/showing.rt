// The report of a storage, given to a sink.
ghost use Rattle.std.specs.Prelude.{◌≡◌, IfOk, OnOk, MatchResult};
ghost use Rattle.storage_spec.specs.Zones.{zones_in};
ghost use Rattle.report_tool.specs.Shown.{AreOf};
ghost use Rattle.storage_report.specs.Given.{ShowsStorage, IsReported, IsUnreported};

use crate::reading::{StorageRead, read};
use crate::storage::HeldStorage;
use command_spec::Stop;
use outside::{Failed, Sink};
use region_report::{Division, Report};
use report_tool::{Format, shown_zones};
use std::alloc::{AllocError, Global};
use symbols::Symbols;

// The report in a format.
fn shown(
    alloc: Global,
    held: &HeldStorage,
    read: &StorageRead,
    lines: usize,
    format: Format,
    path: &str,
) -> Result<Vec<u8>, AllocError>
    requires of { AreOf read.now.zones.items read.now.report }
    requires same { read.now.zones.items ≡ zones_in held.now.storage.machine held.now.storage.sizes }
    ensures { IfOk result (λ text. ShowsStorage format path.now held.now lines read.now.report text.items) }
{
    let division = Division::Storage(held.storage.sizes);
    shown_zones(
        alloc,
        &division,
        &read.zones,
        lines,
        format,
        path,
        &read.report,
        "",
    )
}

/// Gives the report of a storage to the sink, written in a format and headed by `path`, with the functions of a map. A
/// text has so many lines of the newest dump. The sink is given nothing before all of the report is made.
pub fn report<W: Sink>(
    alloc: Global,
    held: &HeldStorage,
    symbols: &Symbols,
    lines: usize,
    format: Format,
    path: &str,
    out: &mut W,
) -> Result<Report, Stop>
    ensures reported { MatchResult result
        (IsReported format path.now held.now symbols.now lines (W.given out.old) (W.given out.new))
        (IsUnreported format path.now held.now symbols.now lines (W.given out.old) (W.given out.new)
        (W.faults out.old) (W.faults out.new)) }
    ensures faultless { OnOk result (W.faults out.new ≡ W.faults out.old) }
{
    let read = read(alloc, &held.storage, symbols, &held.bytes)?;
    let bytes = shown(alloc, held, &read, lines, format, path)?;
    match out.put(&bytes) {
        Ok(()) => Ok(read.report),
        Err(Failed) => Err(Stop::SinkFault),
    }
}
