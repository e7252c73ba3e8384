// What must be known before a report is believed.
ghost use Rattle.std.specs.Prelude.{◌≡◌, ◌++◌, length, OnOk, IfOk};
ghost use Rattle.std.specs.List.{list_any, count_by};
ghost use Rattle.std.specs.Option.{option_copied};
ghost use Rattle.prz_read.specs.Saving.{saved};
ghost use Rattle.report_spec.specs.Warnings.{console_warning, teller_warning, is_bad as is_bad_state, has_bad_header};
ghost use Rattle.report_spec.specs.Warnings.{headers_warning, has_log, has_bad_part, layout_warning, parts_warnings};
ghost use Rattle.region_report.specs.Tellers.{told_in};
ghost use Rattle.region_report.specs.Warned.{teller_bad as teller_bad_of, warnings_by};

use crate::counted::counts;
use crate::deaths::Telling;
use crate::newest::{is_console, newest_dump};
use crate::report::Report;
use crate::shown::RecordReport;
use prz_read::{Logs, ZoneParts};
use report_spec::{Origin, Warning};
use std::alloc::{AllocError, Global};
use zone_spec::PartState;

fn add_console_warning(
    warnings: &mut Vec<Warning>,
    dump: Option<&RecordReport>,
    told: Option<Telling<'_>>,
) -> Result<(), AllocError>
    ensures { OnOk result (warnings.new.items
        ≡ warnings.old.items ++ console_warning (option_copied dump.entry) (told_in told.entry)) }
{
    let (Some(dump), Some(told)) = (dump, told) else {
        return Ok(());
    };
    if is_console(told.teller) {
        warnings.push(Warning::ConsoleTells(dump.name))?;
    }
    Ok(())
}

/// How many parts of the record that tells are bad.
fn teller_bad(logs: &Logs, told: Option<Telling<'_>>) -> u64
    ensures { result ≡ teller_bad_of (saved logs.now) (told_in told.entry) }
{
    match told {
        Some(told) => {
            let teller: &RecordReport = told.teller;
            counts(logs, teller.name).bad
        }
        None => 0,
    }
}

fn add_teller_warning(warnings: &mut Vec<Warning>, bad: u64) -> Result<(), AllocError>
    ensures { OnOk result (warnings.new.items ≡ warnings.old.items ++ teller_warning bad) }
{
    if bad > 0 {
        warnings.push(Warning::BadTeller(bad))?;
    }
    Ok(())
}

/// Whether a part is bad.
pub fn is_bad(state: PartState) -> bool
    ensures { result ≡ is_bad_state state }
{
    match state {
        PartState::Read(_) => false,
        PartState::Bad => true,
    }
}

fn has_bad_header(zone: &ZoneParts) -> bool
    ensures { result ≡ has_bad_header zone.now }
{
    is_bad(zone.header)
}

fn has_log(zone: &ZoneParts) -> bool
    ensures { result ≡ has_log zone.now }
{
    !zone.blocks.as_slice().is_empty()
}

/// Whether one of these blocks is bad.
pub fn any_bad(blocks: &[PartState]) -> bool
    ensures { result ≡ list_any is_bad_state blocks.now }
{
    blocks.iter().any(|block| is_bad(*block))
}

fn has_bad_part(zone: &ZoneParts) -> bool
    ensures { result ≡ has_bad_part zone.now }
{
    is_bad(zone.header) || any_bad(zone.blocks.as_slice())
}

fn bad_headers(zones: &[ZoneParts]) -> usize
    ensures { result ≡ count_by has_bad_header zones.now }
{
    zones.iter().filter(|zone| has_bad_header(zone)).count()
}

/// How many zones have a log.
fn logs(zones: &[ZoneParts]) -> usize
    ensures { result ≡ count_by has_log zones.now }
{
    zones.iter().filter(|zone| has_log(zone)).count()
}

fn bad_zones(zones: &[ZoneParts]) -> usize
    ensures { result ≡ count_by has_bad_part zones.now }
{
    zones.iter().filter(|zone| has_bad_part(zone)).count()
}

fn add_headers_warning(warnings: &mut Vec<Warning>, count: u64) -> Result<(), AllocError>
    ensures { OnOk result (warnings.new.items ≡ warnings.old.items ++ headers_warning count) }
{
    if count > 0 {
        warnings.push(Warning::BadHeaders(count))?;
    }
    Ok(())
}

/// Adds that the parameters can be wrong, by how many zones have a log, how many bad parts, and how many there are.
fn add_layout_warning(
    warnings: &mut Vec<Warning>,
    logs: u64,
    bad: u64,
    zones: u64,
) -> Result<(), AllocError>
    ensures { OnOk result (warnings.new.items ≡ warnings.old.items ++ layout_warning logs bad zones) }
{
    if logs == 0 {
        warnings.push(Warning::NoLog)?;
    } else if bad > zones / 2 {
        warnings.push(Warning::ManyBad(bad))?;
    }
    Ok(())
}

fn add_zone_warnings(warnings: &mut Vec<Warning>, zones: &[ZoneParts]) -> Result<(), AllocError>
    ensures { OnOk result (warnings.new.items ≡ warnings.old.items
        ++ headers_warning (count_by has_bad_header zones.now)
        ++ layout_warning (count_by has_log zones.now) (count_by has_bad_part zones.now) (length zones.now)) }
{
    add_headers_warning(warnings, bad_headers(zones) as u64)?;
    add_layout_warning(
        warnings,
        logs(zones) as u64,
        bad_zones(zones) as u64,
        zones.len() as u64,
    )
}

/// Adds the warnings by how the parts of zones read.
fn add_parts_warnings(
    warnings: &mut Vec<Warning>,
    origin: Origin,
    zones: &[ZoneParts],
) -> Result<(), AllocError>
    ensures { OnOk result (warnings.new.items ≡ warnings.old.items ++ parts_warnings origin zones.now) }
{
    match origin {
        Origin::Region => add_zone_warnings(warnings, zones),
        Origin::Storage => Ok(()),
    }
}

/// The warnings of a report in which this tells why the machine died.
pub fn warnings_by(
    alloc: Global,
    report: &Report,
    told: Option<Telling<'_>>,
) -> Result<Vec<Warning>, AllocError>
    ensures { IfOk result (λ warnings. warnings.items ≡ warnings_by report.now (told_in told.entry)) }
{
    let mut warnings = Vec::new(alloc);
    add_console_warning(&mut warnings, newest_dump(report.records()), told)?;
    add_teller_warning(&mut warnings, teller_bad(report.logs(), told))?;
    add_parts_warnings(&mut warnings, report.origin(), report.parts())?;
    Ok(warnings)
}
