// The page.
ghost use Rattle.std.specs.Prelude.{◌≡◌, ◌++◌, None, IfOk, OnOk};
ghost use Rattle.prz_read.specs.Saving.{saved};
ghost use Rattle.region_report.specs.Tellers.{told_in};
ghost use Rattle.zone_spec.specs.Parts.{AreBytes};
ghost use Rattle.report_spec.specs.Packed.{readable};
ghost use Rattle.report_html.specs.Pieces.{parts};
ghost use Rattle.report_html.specs.Pages.{time_parts, length_parts, packing_parts, content_parts, summary_parts};
ghost use Rattle.report_html.specs.Order.{shown_in};
ghost use Rattle.report_html.specs.Pages.{record_parts, records_parts, list_parts, records_opening, heading_parts};
ghost use Rattle.report_html.specs.Pages.{named_parts, page_with, page_of};
ghost use Rattle.report_html.specs.Escaping.{HoldBytes, AllTellBytes, IsWithoutMarkup};

use crate::causes::add_causes;
use crate::died::{add_died, add_why};
use crate::ended::words;
use crate::groups::{add_edge, are_grouped, group_in};
use crate::listed::{
    add_fold, add_head, add_mark, add_say, is_teller, is_unfolded, teller_name, unfolded,
};
use crate::order::newest_first;
use crate::parameters::add_parameters;
use crate::picture::add_picture;
use crate::pieces::{Piece, add, render};
use crate::reads::add_read;
use crate::style::STYLE;
use crate::warnings::{add_better, add_warnings};
use crate::words::{END, HEAD, LEVELS, NAVIGATION};
use outside::Bytes;
use prz_read::Logs;
use region_report::{
    Division, Packing, RecordReport, Report, Telling, death_told, end_told, newest_dump,
    signature_of,
};
use std::alloc::{AllocError, Global};
use zone_spec::{Name, Time, Zone};

fn add_length(pieces: &mut Vec<Piece<'_>>, bytes: u64) -> Result<(), AllocError>
    ensures { OnOk result (parts pieces.new.items ≡ parts pieces.old.items ++ length_parts bytes) }
{
    add(
        pieces,
        &[
            Piece::Own("<span>"),
            Piece::Number(bytes),
            Piece::Own(" bytes</span>"),
        ],
    )
}

fn add_packing(pieces: &mut Vec<Piece<'_>>, packing: &Packing<Bytes>) -> Result<(), AllocError>
    ensures { OnOk result (parts pieces.new.items ≡ parts pieces.old.items ++ packing_parts packing.now) }
{
    match packing {
        Packing::Plain => Ok(()),
        Packing::Whole { taken } => add(
            pieces,
            &[
                Piece::Own("<span>inflated from "),
                Piece::Number(*taken as u64),
                Piece::Own(" bytes</span>"),
            ],
        ),
        Packing::Part { fault, .. } => add(
            pieces,
            &[
                Piece::Own("<span class=\"fix\">inflated in part: "),
                Piece::Own(fault.words()),
                Piece::Own("</span>"),
            ],
        ),
    }
}

/// Adds when a record was written, if it has a time.
fn add_time(pieces: &mut Vec<Piece<'_>>, time: Option<Time>) -> Result<(), AllocError>
    ensures { OnOk result (parts pieces.new.items ≡ parts pieces.old.items ++ time_parts time) }
{
    match time {
        Some(time) => add(
            pieces,
            &[
                Piece::Own("<span>"),
                Piece::Moment(time),
                Piece::Own("</span>"),
            ],
        ),
        None => Ok(()),
    }
}

/// Adds the lines of a record, with its name as their anchor, or where they stand.
fn add_lines<'a>(
    pieces: &mut Vec<Piece<'a>>,
    tells: bool,
    name: Name,
    doubts: &'a [bool],
    content: &'a [u8],
) -> Result<(), AllocError>
    ensures { OnOk result
        (parts pieces.new.items ≡ parts pieces.old.items ++ content_parts tells name doubts.entry.now content.entry.now) }
{
    if tells {
        add(
            pieces,
            &[
                Piece::Own("</summary>\n<p class=\"note\">Its lines stand above: "),
                Piece::Link(name),
                Piece::Own("</p>\n</details>\n"),
            ],
        )
    } else {
        add(
            pieces,
            &[
                Piece::Own("</summary>\n<pre class=\"log\" id=\""),
                Piece::Named(name),
                Piece::Own("\">\n"),
                Piece::Log(doubts, content),
                Piece::Own("</pre>\n</details>\n"),
            ],
        )
    }
}

fn add_content<'a>(
    pieces: &mut Vec<Piece<'a>>,
    tells: bool,
    name: Name,
    doubts: &'a [bool],
    content: &'a [u8],
) -> Result<(), AllocError>
    ensures bytes { AreBytes content.entry.now }
    ensures parts { OnOk result
        (parts pieces.new.items ≡ parts pieces.old.items ++ content_parts tells name doubts.entry.now content.entry.now) }
{
    add_lines(pieces, tells, name, doubts, content)
}

/// Adds the summary of a record.
fn add_summary<'a>(
    pieces: &mut Vec<Piece<'a>>,
    logs: &Logs,
    tells: bool,
    held: &'a RecordReport,
) -> Result<(), AllocError>
    ensures { OnOk result (parts pieces.new.items
        ≡ parts pieces.old.items ++ summary_parts (saved logs.now) tells held.entry.now) }
{
    let text = held.readable();
    add_say(pieces, held.name, text)?;
    add(pieces, &[Piece::Named(held.name), Piece::Own("</b>")])?;
    add_head(pieces, held.name, text)?;
    add_mark(pieces, tells)?;
    add_time(pieces, held.time)?;
    add_length(pieces, held.content.len() as u64)?;
    add_packing(pieces, &held.packing)?;
    add_read(pieces, logs, held.name)?;
    Ok(())
}

/// Adds a record, folded or not.
fn add_record<'a>(
    pieces: &mut Vec<Piece<'a>>,
    logs: &Logs,
    is_open: bool,
    tells: bool,
    held: &'a RecordReport,
) -> Result<(), AllocError>
    ensures bytes { OnOk result (AreBytes (readable held.entry.now)) }
    ensures parts { OnOk result (parts pieces.new.items
        ≡ parts pieces.old.items ++ record_parts (saved logs.now) is_open tells held.entry.now) }
{
    let text = held.readable();
    add_fold(pieces, is_open)?;
    add_summary(pieces, logs, tells, held)?;
    add_content(pieces, tells, held.name, held.doubts.as_slice(), text)?;
    Ok(())
}

/// Adds records, in groups or not. That of the dump of this number is unfolded, and that of this name tells.
fn add_each<'a>(
    pieces: &mut Vec<Piece<'a>>,
    logs: &Logs,
    number: Option<u32>,
    teller: Option<Name>,
    records: &[&'a RecordReport],
) -> Result<(), AllocError>
    ensures bytes { OnOk result (HoldBytes (shown_in records.now)) }
    ensures parts { OnOk result (parts pieces.new.items
        ≡ parts pieces.old.items ++ records_parts (saved logs.now) number teller (shown_in records.now)) }
{
    let grouped = are_grouped(records);
    let mut before = None;
    for (place, held) in records.iter().enumerate() {
        let group = group_in(grouped, place, held);
        add_edge(pieces, number.is_some(), before, group)?;
        let (is_open, tells) = (is_unfolded(number, held), is_teller(teller, held));
        add_record(pieces, logs, is_open, tells, held)?;
        before = group;
    }
    add_edge(pieces, number.is_some(), before, None)?;
    Ok(())
}

/// Adds the records of a report, the newest first, of which this tells why the machine died.
fn add_list<'a>(
    alloc: Global,
    pieces: &mut Vec<Piece<'a>>,
    report: &'a Report,
    told: Option<Telling<'_>>,
) -> Result<(), AllocError>
    ensures bytes { OnOk result (HoldBytes report.entry.now.records) }
    ensures parts { OnOk result (parts pieces.new.items
        ≡ parts pieces.old.items ++ list_parts report.entry.now (told_in told.entry)) }
{
    let records = report.records();
    let number = unfolded(newest_dump(records), told);
    let teller = teller_name(told);
    let ordered = newest_first(alloc, records)?;
    add_each(pieces, report.logs(), number, teller, ordered.as_slice())
}

/// Adds how many records there are.
fn add_records_opening(pieces: &mut Vec<Piece<'_>>, count: u64) -> Result<(), AllocError>
    ensures { OnOk result (parts pieces.new.items ≡ parts pieces.old.items ++ records_opening count) }
{
    add(
        pieces,
        &[
            Piece::Own("<h2 id=\"records\">Records: "),
            Piece::Number(count),
            Piece::Own(LEVELS),
        ],
    )
}

/// Adds what the page is named by: the signature, or how the log ends.
fn add_named<'a>(
    pieces: &mut Vec<Piece<'a>>,
    signature: &'a [u8],
    records: &[RecordReport],
    told: Option<Telling<'_>>,
) -> Result<(), AllocError>
    ensures { OnOk result (parts pieces.new.items
        ≡ parts pieces.old.items ++ named_parts signature.entry.now records.now (told_in told.entry)) }
{
    match told {
        Some(_) => add(pieces, &[Piece::Foreign(signature)]),
        None => add(pieces, &[Piece::Own(words(end_told(records)))]),
    }
}

/// Adds a head with the page's name and the style, and the title.
fn add_heading<'a>(
    pieces: &mut Vec<Piece<'a>>,
    title: &'a [u8],
    signature: &'a [u8],
    records: &[RecordReport],
    told: Option<Telling<'_>>,
) -> Result<(), AllocError>
    ensures { OnOk result (parts pieces.new.items ≡ parts pieces.old.items
        ++ heading_parts title.entry.now (named_parts signature.entry.now records.now (told_in told.entry))) }
{
    add(
        pieces,
        &[Piece::Own(HEAD), Piece::Foreign(title), Piece::Own(": ")],
    )?;
    add_named(pieces, signature, records, told)?;
    add(
        pieces,
        &[
            Piece::Own("</title>\n<style>\n"),
            Piece::Own(STYLE),
            Piece::Own("</style>\n</head>\n<body>\n<header>\n<h1>Why this machine died: "),
            Piece::Foreign(title),
            Piece::Own(NAVIGATION),
        ],
    )
}

/// The pieces of the page of a report.
fn all_pieces<'a>(
    alloc: Global,
    title: &'a [u8],
    division: &Division,
    zones: &[Zone],
    report: &'a Report,
    better: &'a [u8],
    signature: &'a [u8],
    told: Option<Telling<'a>>,
) -> Result<Vec<Piece<'a>>, AllocError>
    ensures bytes { OnOk result (HoldBytes report.entry.now.records) }
    ensures tells { OnOk result (AllTellBytes signature.entry.now report.entry.now.records (told_in told.entry)) }
    ensures parts { IfOk result (λ pieces. parts pieces.items
        ≡ page_with title.entry.now division.now zones.now report.entry.now better.entry.now signature.entry.now
        (told_in told.entry)) }
{
    let mut pieces = Vec::new(alloc);
    add_heading(&mut pieces, title, signature, report.records(), told)?;
    add_why(&mut pieces, report.records(), told)?;
    add_warnings(alloc, &mut pieces, report, told)?;
    add_better(&mut pieces, better)?;
    add_died(
        &mut pieces,
        signature,
        report.logs(),
        report.records(),
        told,
    )?;
    add_records_opening(&mut pieces, report.records().len() as u64)?;
    add_causes(alloc, &mut pieces, report.records())?;
    add_list(alloc, &mut pieces, report, told)?;
    add_picture(alloc, &mut pieces, zones, report)?;
    add_parameters(&mut pieces, division)?;
    add(&mut pieces, &[Piece::Own(END)])?;
    Ok(pieces)
}

/// The page of the report of these zones, divided so, in ASCII. `title` is what it is headed with, such as the image's
/// path, and `better` are the words of a layout that explains the image better. All bytes that come from the image, the
/// title or these words are escaped, and so make no markup.
pub fn html(
    alloc: Global,
    title: &[u8],
    division: &Division,
    zones: &[Zone],
    report: &Report,
    better: &[u8],
) -> Result<Vec<u8>, AllocError>
    ensures page { IfOk result (λ text. text.items ≡ page_of title.now division.now zones.now report.now better.now) }
    ensures no_markup { IfOk result (λ text. IsWithoutMarkup title.now better.now report.now.records text.items) }
{
    let told = death_told(report.records());
    let signature = signature_of(alloc, told)?;
    let pieces = all_pieces(
        alloc,
        title,
        division,
        zones,
        report,
        better,
        signature.as_slice(),
        told,
    )?;
    let text = render(alloc, report.origin(), pieces.as_slice())?;
    Ok(text)
}
