// The line of a report.
ghost use Rattle.std.specs.Prelude.{◌≡◌, ◌∷◌, length, codes, IfOk, OnOk};
ghost use Rattle.json.specs.Token.{key};
ghost use Rattle.report_spec.specs.Deaths.{death_told as death_of};
ghost use Rattle.report_json.specs.Schema.{IsLine};

use crate::deaths::{put_bytes, put_death};
use crate::ends::put_end;
use crate::machines::{put_machine, put_signature};
use crate::records::put_records;
use crate::tokens::Line;
use crate::warned::put_warnings;
use crate::zones::{put_division, put_zones};
use region_report::{Division, RecordReport, Report, death_told};
use std::alloc::{AllocError, Global};
use zone_spec::Zone;

/// The number of the schema that docs/REPORT.md describes.
const SCHEMA: u64 = 2;

/// Room for the members of a record or a zone, and for the states of most blocks.
const MEMBERS: usize = 2048;

/// About as many bytes as the line will have.
fn expected_len(zones: &[Zone], records: &[RecordReport]) -> usize {
    let mut len = zones.len().saturating_add(1).saturating_mul(MEMBERS);
    for held in records {
        let content = held.content.len();
        // A text has some escapes.
        len = len.saturating_add(content).saturating_add(content / 16);
    }
    len
}

/// The report of the image at `path` as JSON, without a newline. `better` are the words of a layout that explains the
/// image better, if there are any.
pub fn json(
    alloc: Global,
    path: &str,
    division: &Division,
    zones: &[Zone],
    report: &Report,
    better: &str,
) -> Result<Vec<u8>, AllocError>
    requires readings { length report.now.logs.readings ≡ length zones.now }
    requires parts { length report.now.parts ≡ length zones.now }
    ensures { IfOk result (λ text. IsLine path.now division.now zones.now better.now report.now text.items) }
{
    let records = report.records();
    let told = death_told(records);
    let mut line = Line::with_capacity(alloc, expected_len(zones, records))?;
    line.begin_object()?;
    put_bytes(&mut line, "better", better.as_bytes())?;
    put_death(alloc, &mut line, report.origin(), told)?;
    put_end(&mut line, report.origin(), records, told)?;
    put_machine(&mut line, records, told)?;
    put_division(&mut line, division)?;
    line.text("path", path)?;
    put_records(alloc, &mut line, report.origin(), report.logs(), records)?;
    line.count("schema", SCHEMA)?;
    put_signature(alloc, &mut line, told)?;
    put_warnings(alloc, &mut line, report, told)?;
    put_zones(&mut line, zones, report.logs(), report.parts())?;
    line.end_object()?;
    Ok(line.finish())
}
