// Warnings, put onto a line.
ghost use Rattle.std.specs.Prelude.{◌≡◌, ◌∷◌, map, codes, OnOk};
ghost use Rattle.json.specs.Token.{key};
ghost use Rattle.serde_json.specs.Data.{null};
ghost use Rattle.region_report.specs.Tellers.{told_in};
ghost use Rattle.region_report.specs.Warned.{warnings_by as warnings_of_report};
ghost use Rattle.report_json.specs.Schema.{count, warning_with, warning_data, warnings_data};
ghost use Rattle.report_json.specs.Tokens.{onto, all_onto};

use crate::records::put_name;
use crate::tokens::Line;
use region_report::{Origin, Report, Telling, Warning, warnings_by};
use std::alloc::{AllocError, Global};

/// A warning with a number.
fn put_counted(line: &mut Line, code: &str, number: u64) -> Result<(), AllocError>
    ensures { OnOk result (line.new ≡ onto (warning_with code.now (count number) null) line.old) }
{
    line.begin_object()?;
    line.text("code", code)?;
    line.count("count", number)?;
    line.none("record")?;
    line.end_object()
}

fn put_warning(line: &mut Line, origin: Origin, warning: Warning) -> Result<(), AllocError>
    ensures { OnOk result (line.new ≡ onto (warning_data origin warning) line.old) }
{
    match warning {
        Warning::ConsoleTells(dump) => {
            line.begin_object()?;
            line.text("code", "console_tells")?;
            line.none("count")?;
            put_name(line, "record", origin, dump)?;
            line.end_object()
        }
        Warning::BadTeller(bad) => put_counted(line, "bad_teller", bad),
        Warning::BadHeaders(headers) => put_counted(line, "bad_headers", headers),
        Warning::NoLog => {
            line.begin_object()?;
            line.text("code", "no_log")?;
            line.none("count")?;
            line.none("record")?;
            line.end_object()
        }
        Warning::ManyBad(zones) => put_counted(line, "many_bad", zones),
    }
}

fn put_each(line: &mut Line, origin: Origin, warnings: &[Warning]) -> Result<(), AllocError>
    ensures { OnOk result (line.new ≡ all_onto (map (warning_data origin) warnings.now) line.old) }
{
    for warning in warnings {
        put_warning(line, origin, *warning)?;
    }
    Ok(())
}

#[tactic(auto, using(crate::proofs::Onto::arrays))]
fn put_list(line: &mut Line, origin: Origin, warnings: &[Warning]) -> Result<(), AllocError>
    ensures { OnOk result (line.new ≡ onto (warnings_data origin warnings.now) line.old) }
{
    line.begin_array()?;
    put_each(line, origin, warnings)?;
    line.end_array()
}

/// The warnings of a report in which this tells why the machine died.
pub fn put_warnings(
    alloc: Global,
    line: &mut Line,
    report: &Report,
    told: Option<Telling<'_>>,
) -> Result<(), AllocError>
    ensures { OnOk result (line.new
        ≡ onto (warnings_data report.now.origin (warnings_of_report report.now (told_in told.entry)))
        (key (codes "warnings") ∷ line.old)) }
{
    let warnings = warnings_by(alloc, report, told)?;
    line.key("warnings")?;
    put_list(line, report.origin(), warnings.as_slice())
}
