// The whole text.
ghost use Rattle.std.specs.Prelude.{◌≡◌, ◌++◌, length, true, IfOk, OnOk};
ghost use Rattle.std.specs.List.{list_all};
ghost use Rattle.std.specs.Option.{option_copied};
ghost use Rattle.report_spec.specs.Visible.{is_visible};
ghost use Rattle.report_spec.specs.Deaths.{death_told};
ghost use Rattle.report_spec.specs.Facts.{signature_told};
ghost use Rattle.region_report.specs.Tellers.{told_in, end_in};
ghost use Rattle.report_text.specs.Pieces.{parts};
ghost use Rattle.report_text.specs.Whole.{newest_log as newest_log_of, told_lines, answer_parts};
ghost use Rattle.report_text.specs.Facts.{short_time, short_end, short_parts};
ghost use Rattle.report_text.specs.Whole.{all_parts, IsTextOf, line_parts, brief_of};

use crate::around::add_around;
use crate::died::add_first;
use crate::earlier::add_others;
use crate::lines::{add_tail, add_tails};
use crate::pieces::{Piece, add, render};
use crate::records::add_records;
use crate::warned::{add_better, add_warnings};
use crate::zones::add_zones;
use outside::Bytes;
use region_report::{
    End, RecordReport, Report, Telling, console, death_time, death_told, end_text, end_told,
    newest_dump, signature_of, warnings_by,
};
use std::alloc::{AllocError, Global};
use zone_spec::{Time, Zone};

/// The newest dump, or without one the console.
fn newest_log(records: &[RecordReport]) -> Option<&RecordReport>
    ensures { option_copied result ≡ newest_log_of records.now }
{
    newest_dump(records).or(console(records))
}

/// Adds the lines that tell why the machine died, or the last lines of the newest log.
fn add_lines<'a>(
    alloc: Global,
    pieces: &mut Vec<Piece<'a>>,
    most: usize,
    records: &'a [RecordReport],
    told: Option<Telling<'a>>,
) -> Result<(), AllocError>
    ensures { OnOk result (parts pieces.new.items
        ≡ parts pieces.old.items ++ told_lines most records.entry.now (told_in told.entry)) }
{
    match told {
        Some(told) => {
            let teller: &'a RecordReport = told.teller;
            add(pieces, &[Piece::Own("\n")])?;
            add_around(
                alloc,
                pieces,
                teller.doubts.as_slice(),
                teller.said(),
                most,
                told.death,
            )
        }
        None => add_tail(pieces, "\n", most, newest_log(records)),
    }
}

/// Adds what a report says of a death, before its tables.
fn add_answer<'a>(
    alloc: Global,
    pieces: &mut Vec<Piece<'a>>,
    title: &'a [u8],
    signature: &'a [u8],
    report: &'a Report,
    told: Option<Telling<'a>>,
    most: usize,
    better: &'a [u8],
) -> Result<(), AllocError>
    requires { signature.now ≡ signature_told (told_in told) }
    ensures { OnOk result (parts pieces.new.items ≡ parts pieces.old.items
        ++ answer_parts title.entry.now most better.entry.now report.entry.now (told_in told.entry)) }
{
    let records = report.records();
    let warnings = warnings_by(alloc, report, told)?;
    add_first(pieces, title, signature, records, told)?;
    add_warnings(pieces, warnings.as_slice())?;
    add_better(pieces, better)?;
    add_lines(alloc, pieces, most, records, told)?;
    add_others(alloc, pieces, records, told)
}

fn all_pieces<'a>(
    alloc: Global,
    title: &'a [u8],
    signature: &'a [u8],
    zones: &[Zone],
    report: &'a Report,
    told: Option<Telling<'a>>,
    most: usize,
    better: &'a [u8],
) -> Result<Vec<Piece<'a>>, AllocError>
    requires signature { signature.now ≡ signature_told (told_in told) }
    requires zones { zones.now ≡ report.now.logs.zones }
    requires readings { length report.now.logs.readings ≡ length zones.now }
    ensures { IfOk result (λ pieces. parts pieces.items
        ≡ all_parts title.entry.now most better.entry.now report.entry.now (told_in told.entry)) }
{
    let records = report.records();
    let mut pieces = Vec::new(alloc);
    add_answer(
        alloc,
        &mut pieces,
        title,
        signature,
        report,
        told,
        most,
        better,
    )?;
    add_zones(&mut pieces, zones, report.logs(), records.len())?;
    add_records(&mut pieces, records)?;
    add_tails(&mut pieces, records)?;
    Ok(pieces)
}

/// The text of the report of these zones, of an image of this title, such as its path: why the machine died and what is
/// known of it, warnings, the words of a layout that explains the image better, if there are any, the lines that tell it,
/// earlier deaths, the zones, the records, and the last lines of the console and of Android's log. Below the last line
/// that tells there are at least so many lines. No byte of it but printable ASCII, tabs and newlines, whatever the title
/// and the records are.
#[tactic(auto, unfolding(crate::specs::Whole::text_of))]
pub fn text(
    alloc: Global,
    title: &[u8],
    zones: &[Zone],
    report: &Report,
    most: usize,
    better: &[u8],
) -> Result<Bytes, AllocError>
    requires zones { zones.now ≡ report.now.logs.zones }
    requires readings { length report.now.logs.readings ≡ length zones.now }
    ensures text { IfOk result (IsTextOf title.now most better.now report.now) }
    ensures visible { IfOk result (λ text. list_all is_visible text ≡ true) }
{
    let told = death_told(report.records());
    let signature = signature_of(alloc, told)?;
    let pieces = all_pieces(
        alloc,
        title,
        signature.as_slice(),
        zones,
        report,
        told,
        most,
        better,
    )?;
    let text = render(alloc, report.origin(), pieces.as_slice())?;
    Ok(Bytes::from_vec(text))
}

fn add_short_time(pieces: &mut Vec<Piece<'_>>, time: Option<Time>) -> Result<(), AllocError>
    ensures { OnOk result (parts pieces.new.items ≡ parts pieces.old.items ++ short_time time) }
{
    match time {
        Some(time) => add(pieces, &[Piece::Moment(time)]),
        None => add(pieces, &[Piece::Own("-")]),
    }
}

fn add_short_end(pieces: &mut Vec<Piece<'_>>, end: Option<End<'_>>) -> Result<(), AllocError>
    ensures { OnOk result (parts pieces.new.items ≡ parts pieces.old.items ++ short_end (end_in end.entry)) }
{
    match end {
        Some(end) => add(
            pieces,
            &[
                Piece::Own("  -  "),
                Piece::Own(end_text(&end)),
                Piece::Own("\n"),
            ],
        ),
        None => add(
            pieces,
            &[Piece::Own("  -  no death: no record tells of the kernel\n")],
        ),
    }
}

fn add_short<'a>(
    pieces: &mut Vec<Piece<'a>>,
    signature: &'a [u8],
    records: &'a [RecordReport],
    told: Option<Telling<'a>>,
) -> Result<(), AllocError>
    ensures { OnOk result (parts pieces.new.items ≡ parts pieces.old.items
        ++ short_parts signature.entry.now records.entry.now (told_in told.entry)) }
{
    match told {
        Some(told) => {
            add(pieces, &[Piece::Own("  ")])?;
            add_short_time(pieces, death_time(&told, newest_dump(records)))?;
            add(
                pieces,
                &[
                    Piece::Own("  "),
                    Piece::Foreign(signature),
                    Piece::Own("\n"),
                ],
            )
        }
        None => add_short_end(pieces, end_told(records)),
    }
}

fn line_pieces<'a>(
    alloc: Global,
    title: &'a [u8],
    signature: &'a [u8],
    report: &'a Report,
    told: Option<Telling<'a>>,
) -> Result<Vec<Piece<'a>>, AllocError>
    requires { signature.now ≡ signature_told (told_in told) }
    ensures { IfOk result (λ pieces. parts pieces.items
        ≡ line_parts title.entry.now report.entry.now (told_in told.entry)) }
{
    let mut pieces = Vec::new(alloc);
    add(&mut pieces, &[Piece::Foreign(title)])?;
    add_short(&mut pieces, signature, report.records(), told)?;
    Ok(pieces)
}

/// One line on the image of this title: when the machine died, and the signature; or how the log ends.
#[tactic(auto, unfolding(crate::specs::Whole::brief_of))]
pub fn brief(alloc: Global, title: &[u8], report: &Report) -> Result<Bytes, AllocError>
    ensures text { IfOk result (λ text. text ≡ brief_of title.now report.now) }
    ensures visible { IfOk result (λ text. list_all is_visible text ≡ true) }
{
    let told = death_told(report.records());
    let signature = signature_of(alloc, told)?;
    let pieces = line_pieces(alloc, title, signature.as_slice(), report, told)?;
    let text = render(alloc, report.origin(), pieces.as_slice())?;
    Ok(Bytes::from_vec(text))
}
