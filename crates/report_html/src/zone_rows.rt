// The table of zones, in which neighbours that are empty and read alike share a row.
ghost use Rattle.std.specs.Prelude.{◌≡◌, ◌++◌, None, OnOk};
ghost use Rattle.std.specs.Option.{option_copied, option_map};
ghost use Rattle.report_html.specs.Pieces.{parts};
ghost use Rattle.report_html.specs.Pictures.{drawn_of};
ghost use Rattle.report_html.specs.ZoneRows.{kind_number as number_of, is_same_form as have_same_form, is_empty as is_empty_state};
ghost use Rattle.report_html.specs.ZoneRows.{has_same_numbers as have_same_numbers, are_both_empty as are_readings_empty};
ghost use Rattle.report_html.specs.ZoneRows.{are_empty_alike as are_alike_empty, is_unused as has_no_block};
ghost use Rattle.report_html.specs.ZoneRows.{have_same_parts as have_parts_alike, shares_row as share_row, is_joined as joins_row};
ghost use Rattle.report_html.specs.ZoneRows.{row_of, longer as longer_row, next_row as row_next, reading_cells, unread_cells};
ghost use Rattle.report_html.specs.ZoneRows.{read_cells, up_to, each_words, name_parts, place_cells, zone_parts};
ghost use Rattle.report_html.specs.ZoneRows.{held_parts, done_parts, rows_after, zone_in, row_in};

use crate::block_runs::is_alike;
use crate::picture::add_strip;
use crate::pieces::{Piece, add};
use crate::region::{add_zone_name, read_text};
use crate::words::{CELL, STRIP};
use prz_read::Reading;
use region_report::{PartState, Report, ZoneParts};
use std::alloc::AllocError;
use zone_spec::{Kind, State, Zone};

/// The first zone of a row, with its reading and its parts, and the last one.
#[derive(Clone, Copy)]
pub struct Row<'a> {
    pub first: &'a Zone,
    pub reading: Option<&'a Reading>,
    pub states: &'a ZoneParts,
    pub last: &'a Zone,
}

fn kind_number(kind: Kind) -> u8
    ensures { result ≡ number_of kind }
{
    match kind {
        Kind::Dump => 0,
        Kind::Console => 1,
        Kind::Ftrace => 2,
        Kind::Pmsg => 3,
    }
}

fn is_same_form(zone: &Zone, other: &Zone) -> bool
    ensures { result ≡ have_same_form zone.now other.now }
{
    kind_number(zone.name.kind) == kind_number(other.name.kind)
        && zone.size == other.size
        && zone.cap == other.cap
        && zone.blocks == other.blocks
}

fn is_empty(state: State) -> bool
    ensures { result ≡ is_empty_state state }
{
    match state {
        State::Empty => true,
        State::Unsigned | State::Invalid | State::Found => false,
    }
}

fn has_same_numbers(reading: &Reading, other: &Reading) -> bool
    ensures { result ≡ have_same_numbers reading.now other.now }
{
    reading.words.start == other.words.start
        && reading.words.size == other.words.size
        && reading.corrected == other.corrected
        && reading.bad == other.bad
}

fn are_both_empty(reading: &Reading, other: &Reading) -> bool
    ensures { result ≡ are_readings_empty reading.now other.now }
{
    is_empty(reading.state) && is_empty(other.state) && has_same_numbers(reading, other)
}

fn are_empty_alike(reading: Option<&Reading>, other: Option<&Reading>) -> bool
    ensures { result ≡ are_alike_empty (option_copied reading.entry) (option_copied other.entry) }
{
    match reading {
        Some(reading) => match other {
            Some(other) => are_both_empty(reading, other),
            None => false,
        },
        None => false,
    }
}

/// Whether no block of a zone is in use.
fn is_unused(states: &ZoneParts) -> bool
    ensures { result ≡ has_no_block states.now }
{
    let blocks = states.blocks.as_slice();
    blocks.is_empty()
}

fn header_of(states: &ZoneParts) -> PartState
    ensures { result ≡ states.now.header }
{
    states.header
}

/// Whether no block of two zones is in use, and their headers read alike.
fn have_same_parts(states: &ZoneParts, other: &ZoneParts) -> bool
    ensures { result ≡ have_parts_alike states.now other.now }
{
    is_alike(header_of(states), header_of(other)) && is_unused(states) && is_unused(other)
}

fn shares_row(row: Row<'_>, next: Row<'_>) -> bool
    ensures { result ≡ share_row (zone_in row.entry) (zone_in next.entry) }
{
    is_same_form(row.first, next.first)
        && are_empty_alike(row.reading, next.reading)
        && have_same_parts(row.states, next.states)
}

/// Whether a zone joins the row that is held.
fn joins(held: Option<Row<'_>>, next: Row<'_>) -> bool
    ensures { result ≡ joins_row (option_map row_in held.entry) (zone_in next.entry) }
{
    match held {
        Some(row) => shares_row(row, next),
        None => false,
    }
}

/// A row of one zone.
fn alone<'a>(next: Row<'a>) -> Row<'a>
    ensures { row_in result ≡ row_of (zone_in next.entry) }
{
    Row {
        first: next.first,
        reading: next.reading,
        states: next.states,
        last: next.first,
    }
}

fn longer<'a>(held: Option<Row<'a>>, next: Row<'a>) -> Row<'a>
    ensures { row_in result ≡ longer_row (option_map row_in held.entry) (zone_in next.entry) }
{
    match held {
        Some(row) => Row {
            first: row.first,
            reading: row.reading,
            states: row.states,
            last: next.first,
        },
        None => alone(next),
    }
}

/// The row that is held with one zone more, or the one that this zone begins.
fn next_row<'a>(held: Option<Row<'a>>, next: Row<'a>) -> Row<'a>
    ensures { row_in result ≡ row_next (option_map row_in held.entry) (zone_in next.entry) }
{
    if joins(held, next) {
        longer(held, next)
    } else {
        alone(next)
    }
}

/// Adds the words of a header as it reads, corrected bytes and bad parts.
fn add_reading(pieces: &mut Vec<Piece<'_>>, reading: &Reading) -> Result<(), AllocError>
    ensures { OnOk result (parts pieces.new.items ≡ parts pieces.old.items ++ reading_cells reading.now) }
{
    let (start, size) = (
        u64::from(reading.words.start),
        u64::from(reading.words.size),
    );
    let (corrected, bad) = (u64::from(reading.corrected), u64::from(reading.bad));
    add(
        pieces,
        &[
            Piece::Own(CELL),
            Piece::Number(start),
            Piece::Own(CELL),
            Piece::Number(size),
            Piece::Own(CELL),
            Piece::Number(corrected),
            Piece::Own(CELL),
            Piece::Number(bad),
        ],
    )?;
    Ok(())
}

fn add_unread(pieces: &mut Vec<Piece<'_>>) -> Result<(), AllocError>
    ensures { OnOk result (parts pieces.new.items ≡ parts pieces.old.items ++ unread_cells) }
{
    add(pieces, &[Piece::Own("</td><td colspan=\"4\">")])
}

fn add_read_cells(pieces: &mut Vec<Piece<'_>>, reading: Option<&Reading>) -> Result<(), AllocError>
    ensures { OnOk result (parts pieces.new.items
        ≡ parts pieces.old.items ++ read_cells (option_copied reading.entry)) }
{
    match reading {
        Some(reading) => add_reading(pieces, reading),
        None => add_unread(pieces),
    }
}

/// Adds up to which zone a row goes, if it has several.
fn add_up_to(pieces: &mut Vec<Piece<'_>>, from: u64, to: u64) -> Result<(), AllocError>
    ensures { OnOk result (parts pieces.new.items ≡ parts pieces.old.items ++ up_to from to) }
{
    if from == to {
        Ok(())
    } else {
        add(pieces, &[Piece::Own(" to "), Piece::Number(to)])
    }
}

fn each_text(from: u64, to: u64) -> &'static str
    ensures { result.now ≡ each_words from to }
{
    if from == to { "" } else { " each" }
}

/// Adds the names of a row's zones.
fn add_names(pieces: &mut Vec<Piece<'_>>, first: &Zone, last: &Zone) -> Result<(), AllocError>
    ensures { OnOk result (parts pieces.new.items ≡ parts pieces.old.items ++ name_parts first.now last.now) }
{
    let (from, to) = (u64::from(first.name.index), u64::from(last.name.index));
    add(pieces, &[Piece::Own("<tr><th scope=\"row\">")])?;
    add_zone_name(pieces, first)?;
    add_up_to(pieces, from, to)?;
    Ok(())
}

/// Adds the state, the place and the size of a row's zones.
fn add_places(
    pieces: &mut Vec<Piece<'_>>,
    first: &Zone,
    last: &Zone,
    reading: Option<&Reading>,
) -> Result<(), AllocError>
    ensures { OnOk result (parts pieces.new.items
        ≡ parts pieces.old.items ++ place_cells first.now last.now (option_copied reading.entry)) }
{
    let read = read_text(reading);
    let (at, size) = (u64::from(first.at), u64::from(first.size));
    let each = each_text(u64::from(first.name.index), u64::from(last.name.index));
    add(
        pieces,
        &[
            Piece::Own("</th><td>"),
            Piece::Own(read),
            Piece::Own(CELL),
            Piece::Number(at),
            Piece::Own(CELL),
            Piece::Number(size),
            Piece::Own(each),
        ],
    )?;
    Ok(())
}

/// Adds a row, and below it the strip of its first zone.
fn add_row(pieces: &mut Vec<Piece<'_>>, row: Row<'_>) -> Result<(), AllocError>
    ensures { OnOk result (parts pieces.new.items ≡ parts pieces.old.items ++ zone_parts (row_in row.entry)) }
{
    add_names(pieces, row.first, row.last)?;
    add_places(pieces, row.first, row.last, row.reading)?;
    add_read_cells(pieces, row.reading)?;
    add(pieces, &[Piece::Own(STRIP)])?;
    add_strip(pieces, row.first, row.states)?;
    add(pieces, &[Piece::Own("</td></tr>\n")])?;
    Ok(())
}

fn add_held(pieces: &mut Vec<Piece<'_>>, held: Option<Row<'_>>) -> Result<(), AllocError>
    ensures { OnOk result (parts pieces.new.items
        ≡ parts pieces.old.items ++ held_parts (option_map row_in held.entry)) }
{
    match held {
        Some(row) => add_row(pieces, row),
        None => Ok(()),
    }
}

/// Adds the row that is held, if a zone does not join it.
fn add_done(
    pieces: &mut Vec<Piece<'_>>,
    held: Option<Row<'_>>,
    next: Row<'_>,
) -> Result<(), AllocError>
    ensures { OnOk result (parts pieces.new.items ≡ parts pieces.old.items
        ++ done_parts (option_map row_in held.entry) (zone_in next.entry)) }
{
    if joins(held, next) {
        Ok(())
    } else {
        add_held(pieces, held)
    }
}

/// Adds the rows of the zones of a report.
pub fn add_rows(
    pieces: &mut Vec<Piece<'_>>,
    zones: &[Zone],
    report: &Report,
) -> Result<(), AllocError>
    ensures { OnOk result (parts pieces.new.items ≡ parts pieces.old.items
        ++ rows_after None (drawn_of zones.now report.now)) }
{
    let (logs, states) = (report.logs(), report.parts());
    let count = zones.len().min(states.len()).min(logs.len() as usize);
    let mut held = None;
    for i in 0..count {
        let next = Row {
            first: &zones[i],
            reading: logs.reading(i as u32),
            states: &states[i],
            last: &zones[i],
        };
        add_done(pieces, held, next)?;
        held = Some(next_row(held, next));
    }
    add_held(pieces, held)?;
    Ok(())
}
