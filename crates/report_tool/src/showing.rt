// A report in a format.
ghost use Rattle.std.specs.Prelude.{IfOk};
ghost use Rattle.report_tool.specs.Shown.{AreOf, IsJsonLine, ShowsZones, Shows, IsOf};

use crate::Plan;
use region_report::{Division, Report};
use report_html::html;
use report_json::json;
use report_text::{brief, text};
use std::alloc::{AllocError, Global};
use zone_spec::Zone;

/// How a report is written.
#[derive(Clone, Copy, Debug, PartialEq, Eq)]
pub enum Format {
    /// For a terminal.
    Text,
    /// One line, for programs.
    Json,
    /// One page, for a browser.
    Html,
    /// One line for people: the path, the time, and the signature or how the log ends.
    Brief,
}

fn json_line(
    alloc: Global,
    division: &Division,
    zones: &[Zone],
    path: &str,
    report: &Report,
    better: &str,
) -> Result<Vec<u8>, AllocError>
    requires { AreOf zones.now report.now }
    ensures { IfOk result (λ line. IsJsonLine path.now division.now zones.now better.now report.now line.items) }
{
    let mut line = json(alloc, path, division, zones, report, better)?;
    line.push(b'\n')?;
    Ok(line)
}

/// The report of zones, divided so, of the image at `path`, written in a format. A text has so many lines of the newest
/// dump. `better` are the words of a layout that explains the image better; all but a brief line
/// show them.
pub fn shown_zones(
    alloc: Global,
    division: &Division,
    zones: &[Zone],
    lines: usize,
    format: Format,
    path: &str,
    report: &Report,
    better: &str,
) -> Result<Vec<u8>, AllocError>
    requires { AreOf zones.now report.now }
    ensures { IfOk result (λ shown. ShowsZones format path.now division.now zones.now lines better.now report.now
        shown.items) }
{
    match format {
        Format::Text => {
            let bytes = text(
                alloc,
                path.as_bytes(),
                zones,
                report,
                lines,
                better.as_bytes(),
            )?;
            Ok(bytes.into_vec())
        }
        Format::Json => json_line(alloc, division, zones, path, report, better),
        Format::Html => html(
            alloc,
            path.as_bytes(),
            division,
            zones,
            report,
            better.as_bytes(),
        ),
        Format::Brief => {
            let bytes = brief(alloc, path.as_bytes(), report)?;
            Ok(bytes.into_vec())
        }
    }
}

/// The report of the image at `path`, written in a format.
pub fn shown(
    alloc: Global,
    plan: &Plan,
    format: Format,
    path: &str,
    report: &Report,
    better: &str,
) -> Result<Vec<u8>, AllocError>
    requires { IsOf plan.now report.now }
    ensures { IfOk result (λ shown. Shows format path.now plan.now better.now report.now shown.items) }
{
    let division = Division::Region(plan.params);
    shown_zones(
        alloc,
        &division,
        &plan.zones,
        plan.lines,
        format,
        path,
        report,
        better,
    )
}
