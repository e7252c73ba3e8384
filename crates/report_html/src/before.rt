// What was before the death: the newest of the other dumps that tell.
ghost use Rattle.std.specs.Prelude.{◌≡◌, ◌++◌, OnOk};
ghost use Rattle.zone_spec.specs.Parts.{AreBytes};
ghost use Rattle.report_spec.specs.Newest.{is_newer};
ghost use Rattle.region_report.specs.Tellers.{told_in};
ghost use Rattle.report_html.specs.Pieces.{parts};
ghost use Rattle.report_html.specs.Before.{told_before as told_by_newest, teller_in, newer_told as told_by_newer};
ghost use Rattle.report_html.specs.Before.{time_after, line_below, named_below, context_below, before_parts};
ghost use Rattle.report_html.specs.Escaping.{TellsBytes};

use crate::pieces::{Piece, add};
use death::part;
use death_spec::{Death, Line, Span};
use region_report::{RecordReport, Telling, is_newer, other_told};
use std::alloc::AllocError;
use zone_spec::{Name, Time};

/// Whether a record is newer than the one that is held.
fn is_newer_than(entry: &RecordReport, held: Option<Telling<'_>>) -> bool
    ensures { result ≡ is_newer entry.now (teller_in (told_in held.entry)) }
{
    match held {
        Some(held) => is_newer(entry, Some(held.teller)),
        None => is_newer(entry, None),
    }
}

fn newer_told<'a>(
    name: Name,
    held: Option<Telling<'a>>,
    entry: &'a RecordReport,
) -> Option<Telling<'a>>
    ensures { told_in result ≡ told_by_newer name (told_in held.entry) entry.now }
{
    if is_newer_than(entry, held) {
        other_told(name, entry).or(held)
    } else {
        held
    }
}

/// Why the machine died by the newest of the other dumps that tell.
fn told_before<'a>(name: Name, records: &'a [RecordReport]) -> Option<Telling<'a>>
    ensures { told_in result ≡ told_by_newest name records.now }
{
    let mut before = None;
    for entry in records {
        before = newer_told(name, before, entry);
    }
    before
}

fn add_time_after(pieces: &mut Vec<Piece<'_>>, time: Option<Time>) -> Result<(), AllocError>
    ensures { OnOk result (parts pieces.new.items ≡ parts pieces.old.items ++ time_after time) }
{
    match time {
        Some(time) => add(pieces, &[Piece::Own(", "), Piece::Moment(time)]),
        None => Ok(()),
    }
}

fn add_line_below<'a>(
    pieces: &mut Vec<Piece<'a>>,
    text: &'a [u8],
    line: Line,
) -> Result<(), AllocError>
    ensures bytes { AreBytes text.entry.now }
    ensures parts { OnOk result (parts pieces.new.items ≡ parts pieces.old.items ++ line_below text.entry.now line) }
{
    add(
        pieces,
        &[
            Piece::Own("\n"),
            Piece::Foreign(part(text, line.text, line.end)),
        ],
    )
}

fn add_named<'a>(
    pieces: &mut Vec<Piece<'a>>,
    words: &'static str,
    text: &'a [u8],
    span: Option<Span>,
) -> Result<(), AllocError>
    ensures { OnOk result (parts pieces.new.items
        ≡ parts pieces.old.items ++ named_below words.entry.now text.entry.now span) }
{
    match span {
        Some(span) => add(
            pieces,
            &[
                Piece::Own(words),
                Piece::Foreign(part(text, span.start, span.end)),
            ],
        ),
        None => Ok(()),
    }
}

/// Adds what the report below the telling line names.
fn add_context<'a>(
    pieces: &mut Vec<Piece<'a>>,
    text: &'a [u8],
    death: Death,
) -> Result<(), AllocError>
    ensures { OnOk result (parts pieces.new.items ≡ parts pieces.old.items ++ context_below text.entry.now death) }
{
    add_named(pieces, "\nCPU ", text, death.cpu)?;
    add_named(pieces, "\nFunction ", text, death.function)?;
    add_named(pieces, "\nTask ", text, death.task)?;
    Ok(())
}

fn add_told<'a>(pieces: &mut Vec<Piece<'a>>, told: Telling<'a>) -> Result<(), AllocError>
    ensures bytes { OnOk result (TellsBytes (told_in (Some told.entry))) }
    ensures parts { OnOk result (parts pieces.new.items
        ≡ parts pieces.old.items ++ before_parts (told_in (Some told.entry))) }
{
    let teller: &'a RecordReport = told.teller;
    add(
        pieces,
        &[
            Piece::Own("<tr><th scope=\"row\">Before it</th><td>"),
            Piece::Link(teller.name),
        ],
    )?;
    add_time_after(pieces, teller.time)?;
    let text = teller.readable();
    add_line_below(pieces, text, told.death.telling)?;
    add_context(pieces, text, told.death)?;
    add(pieces, &[Piece::Own("</td></tr>\n")])?;
    Ok(())
}

/// Adds what was before the death that the record of this name tells.
pub fn add_before<'a>(
    pieces: &mut Vec<Piece<'a>>,
    name: Name,
    records: &'a [RecordReport],
) -> Result<(), AllocError>
    ensures bytes { OnOk result (TellsBytes (told_by_newest name records.entry.now)) }
    ensures parts { OnOk result (parts pieces.new.items
        ≡ parts pieces.old.items ++ before_parts (told_by_newest name records.entry.now)) }
{
    match told_before(name, records) {
        Some(told) => add_told(pieces, told),
        None => Ok(()),
    }
}
