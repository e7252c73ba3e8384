// The list of records: the summary of each, and which is unfolded.
ghost use Rattle.std.specs.Prelude.{◌≡◌, ◌++◌, OnOk};
ghost use Rattle.std.specs.Option.{option_copied};
ghost use Rattle.report_spec.specs.Newest.{is_console};
ghost use Rattle.region_report.specs.Tellers.{told_in};
ghost use Rattle.report_html.specs.Pieces.{parts};
ghost use Rattle.death_spec.specs.Lines.{lines_from};
ghost use Rattle.report_html.specs.Listed.{below_parts, telling_parts, above_parts, say_parts, first_parts};
ghost use Rattle.report_html.specs.Listed.{head_parts as head_of, dump_number, unfolded, is_numbered, is_unfolded};
ghost use Rattle.report_html.specs.Listed.{teller_name, is_same_record, is_teller, mark_parts, fold_parts};

use crate::pieces::{Piece, add};
use death::{death, next_line, part};
use death_spec::{Death, Span};
use region_report::{RecordReport, Telling};
use std::alloc::AllocError;
use zone_spec::Name;

/// Adds the function that the report below the telling line names.
fn add_below<'a>(
    pieces: &mut Vec<Piece<'a>>,
    text: &'a [u8],
    function: Option<Span>,
) -> Result<(), AllocError>
    ensures { OnOk result (parts pieces.new.items ≡ parts pieces.old.items ++ below_parts text.entry.now function) }
{
    match function {
        Some(span) => add(
            pieces,
            &[
                Piece::Own("\n<span>"),
                Piece::Foreign(part(text, span.start, span.end)),
                Piece::Own("</span>"),
            ],
        ),
        None => Ok(()),
    }
}

/// Adds the telling line of a crash log.
fn add_telling<'a>(
    pieces: &mut Vec<Piece<'a>>,
    text: &'a [u8],
    death: Option<Death>,
) -> Result<(), AllocError>
    ensures { OnOk result (parts pieces.new.items ≡ parts pieces.old.items ++ telling_parts text.entry.now death) }
{
    match death {
        Some(death) => {
            let line = part(text, death.telling.text, death.telling.end);
            add(pieces, &[Piece::Foreign(line)])?;
            add_below(pieces, text, death.function)
        }
        None => add(pieces, &[Piece::Own("no telling line")]),
    }
}

/// Adds what tells of a record of this name and text.
fn add_above<'a>(pieces: &mut Vec<Piece<'a>>, name: Name, text: &'a [u8]) -> Result<(), AllocError>
    ensures { OnOk result (parts pieces.new.items ≡ parts pieces.old.items ++ above_parts name text.entry.now) }
{
    match name {
        Name::Dump { .. } | Name::Console => add_telling(pieces, text, death(text)),
        Name::Pmsg => add(pieces, &[Piece::Own("messages of user space")]),
        Name::Ftrace => add(pieces, &[Piece::Own("function trace")]),
    }
}

/// Adds the line above the name of a record with this text.
pub fn add_say<'a>(
    pieces: &mut Vec<Piece<'a>>,
    name: Name,
    text: &'a [u8],
) -> Result<(), AllocError>
    ensures { OnOk result (parts pieces.new.items ≡ parts pieces.old.items ++ say_parts name text.entry.now) }
{
    add(pieces, &[Piece::Own("<span class=\"say\">")])?;
    add_above(pieces, name, text)?;
    add(pieces, &[Piece::Own("</span>\n<b>")])?;
    Ok(())
}

/// Adds the first line of a text.
fn add_first<'a>(pieces: &mut Vec<Piece<'a>>, text: &'a [u8]) -> Result<(), AllocError>
    ensures { OnOk result (parts pieces.new.items
        ≡ parts pieces.old.items ++ first_parts text.entry.now (lines_from text.entry.now 0)) }
{
    match next_line(text, 0) {
        Some(line) => add(
            pieces,
            &[
                Piece::Own("<span>"),
                Piece::Foreign(part(text, line.start, line.end)),
                Piece::Own("</span>"),
            ],
        ),
        None => Ok(()),
    }
}

/// Adds the first line of a dump.
pub fn add_head<'a>(
    pieces: &mut Vec<Piece<'a>>,
    name: Name,
    text: &'a [u8],
) -> Result<(), AllocError>
    ensures { OnOk result (parts pieces.new.items ≡ parts pieces.old.items ++ head_of name text.entry.now) }
{
    match name {
        Name::Dump { .. } => add_first(pieces, text),
        Name::Console | Name::Pmsg | Name::Ftrace => Ok(()),
    }
}

/// The number of a dump's zone.
pub fn dump_number(name: Name) -> Option<u32>
    ensures { result ≡ dump_number name }
{
    match name {
        Name::Dump { index, .. } => Some(index),
        Name::Console | Name::Pmsg | Name::Ftrace => None,
    }
}

pub fn is_console(name: Name) -> bool
    ensures { result ≡ is_console name }
{
    match name {
        Name::Console => true,
        Name::Dump { .. } | Name::Pmsg | Name::Ftrace => false,
    }
}

/// The number of the dump that is unfolded: the newest, unless it tells why the machine died.
pub fn unfolded(dump: Option<&RecordReport>, told: Option<Telling<'_>>) -> Option<u32>
    ensures { result ≡ unfolded (option_copied dump.entry) (told_in told.entry) }
{
    let dump = dump?;
    match told {
        Some(told) => {
            let teller: &RecordReport = told.teller;
            if is_console(teller.name) {
                dump_number(dump.name)
            } else {
                None
            }
        }
        None => dump_number(dump.name),
    }
}

fn is_numbered(number: u32, name: Name) -> bool
    ensures { result ≡ is_numbered number name }
{
    match name {
        Name::Dump { index, .. } => index == number,
        Name::Console | Name::Pmsg | Name::Ftrace => false,
    }
}

/// Whether a record is unfolded.
pub fn is_unfolded(number: Option<u32>, held: &RecordReport) -> bool
    ensures { result ≡ is_unfolded number held.now.name }
{
    match number {
        Some(number) => is_numbered(number, held.name),
        None => false,
    }
}

/// The name of the record that tells why the machine died.
pub fn teller_name(told: Option<Telling<'_>>) -> Option<Name>
    ensures { result ≡ teller_name (told_in told.entry) }
{
    match told {
        Some(told) => {
            let teller: &RecordReport = told.teller;
            Some(teller.name)
        }
        None => None,
    }
}

fn is_same_record(teller: Name, name: Name) -> bool
    ensures { result ≡ is_same_record teller name }
{
    match teller {
        Name::Dump { index, .. } => is_numbered(index, name),
        Name::Console => is_console(name),
        Name::Pmsg | Name::Ftrace => false,
    }
}

/// Whether a record is the one of this name, which tells why the machine died.
pub fn is_teller(teller: Option<Name>, held: &RecordReport) -> bool
    ensures { result ≡ is_teller teller held.now.name }
{
    match teller {
        Some(teller) => is_same_record(teller, held.name),
        None => false,
    }
}

/// Adds a mark, if a record tells why the machine died.
pub fn add_mark(pieces: &mut Vec<Piece<'_>>, tells: bool) -> Result<(), AllocError>
    ensures { OnOk result (parts pieces.new.items ≡ parts pieces.old.items ++ mark_parts tells) }
{
    if tells {
        add(pieces, &[Piece::Own("<mark>tells why it died</mark>")])
    } else {
        Ok(())
    }
}

/// Adds a fold, open or not, up to its summary.
pub fn add_fold(pieces: &mut Vec<Piece<'_>>, is_open: bool) -> Result<(), AllocError>
    ensures { OnOk result (parts pieces.new.items ≡ parts pieces.old.items ++ fold_parts is_open) }
{
    if is_open {
        add(pieces, &[Piece::Own("<details open>\n<summary>")])
    } else {
        add(pieces, &[Piece::Own("<details>\n<summary>")])
    }
}
