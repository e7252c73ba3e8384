// The dumps by telling line.
ghost use Rattle.std.specs.Prelude.{◌≡◌, ◌&&◌, nat_lt, if◌then◌else◌, List, [], ◌∷◌, ◌++◌, length, take, map, filter};
ghost use Rattle.std.specs.Prelude.{flat_map, IfOk, OnOk};
ghost use Rattle.std.specs.Option.{option_copied};
ghost use Rattle.report_spec.specs.Newest.{newer_of, newest};
ghost use Rattle.report_html.specs.Pieces.{part_of, parts};
ghost use Rattle.report_html.specs.Causes.{CrashShown, telling_line as line_told, crash_of as crash_shown};
ghost use Rattle.report_html.specs.Causes.{is_dump as is_dump_shown, crashes_of as crashes_shown};
ghost use Rattle.report_html.specs.Causes.{is_same_line as are_same, has_line_of as has_same, with_first};
ghost use Rattle.report_html.specs.Causes.{rows_of as rows_shown, has_no_row as has_none, time_cell, newest_cells};
ghost use Rattle.report_html.specs.Causes.{row_parts, line_part, cause_parts, others_parts, table_parts, causes_parts};
ghost use Rattle.report_html.specs.Causes.{crash_in, crashes_in};

use crate::listed::dump_number;
use crate::pieces::{Piece, add};
use crate::words::CAUSES;
use death::{death, part};
use region_report::{RecordReport, is_newer};
use std::alloc::{AllocError, Global};
use zone_spec::Time;

/// A dump, and its telling line if it has one.
#[derive(Clone, Copy)]
pub struct Crash<'a> {
    pub dump: &'a RecordReport,
    pub line: Option<&'a [u8]>,
}

/// How many telling lines have a row of their own.
const ROWS: usize = 15;

fn telling_line(text: &[u8]) -> Option<&[u8]>
    ensures { option_copied result ≡ line_told text.now }
{
    let death = death(text)?;
    Some(part(text, death.telling.text, death.telling.end))
}

fn crash_of(entry: &RecordReport) -> Crash<'_>
    ensures { crash_in result ≡ crash_shown entry.now }
{
    let line = telling_line(entry.readable());
    Crash { dump: entry, line }
}

fn is_dump(entry: &RecordReport) -> bool
    ensures { result ≡ is_dump_shown entry.now }
{
    dump_number(entry.name).is_some()
}

fn push_dump<'a>(crashes: &mut Vec<Crash<'a>>, entry: &'a RecordReport) -> Result<(), AllocError>
    ensures { OnOk result (crashes_in crashes.new.items
        ≡ crashes_in crashes.old.items ++ crashes_shown (entry.entry.now ∷ [])) }
{
    if !is_dump(entry) {
        return Ok(());
    }
    crashes.push(crash_of(entry))?;
    Ok(())
}

/// The dumps among the records.
fn crashes_of<'a>(alloc: Global, records: &'a [RecordReport]) -> Result<Vec<Crash<'a>>, AllocError>
    ensures { IfOk result (λ crashes. crashes_in crashes.items ≡ crashes_shown records.now) }
{
    let mut crashes = Vec::new(alloc);
    for entry in records {
        push_dump(&mut crashes, entry)?;
    }
    Ok(crashes)
}

fn is_same_line(line: Option<&[u8]>, other: Option<&[u8]>) -> bool
    ensures { result ≡ are_same (option_copied line.entry) (option_copied other.entry) }
{
    match line {
        Some(line) => match other {
            Some(other) => line == other,
            None => false,
        },
        None => other.is_none(),
    }
}

fn has_line_of(crash: &Crash<'_>, other: &Crash<'_>) -> bool
    ensures { result ≡ has_same (crash_in crash.now) (crash_in other.now) }
{
    is_same_line(crash.line, other.line)
}

/// Whether the line of a dump has none of these rows.
fn has_no_row(rows: &[Crash<'_>], crash: &Crash<'_>) -> bool
    ensures { result ≡ has_none (crashes_in rows.now) (crash_in crash.now) }
{
    for row in rows {
        if has_line_of(crash, row) {
            return false;
        }
    }
    true
}

/// Adds a dump, if it is one to keep.
fn keep<'a>(kept: &mut Vec<Crash<'a>>, is_kept: bool, crash: &Crash<'a>) -> Result<(), AllocError>
    ensures { OnOk result (crashes_in kept.new.items
        ≡ crashes_in kept.old.items ++ (if is_kept then crash_in crash.now ∷ [] else [])) }
{
    if !is_kept {
        return Ok(());
    }
    kept.push(*crash)?;
    Ok(())
}

fn is_room(rows: &[Crash<'_>]) -> bool
    ensures { result ≡ nat_lt (length (crashes_in rows.now)) 15 }
{
    rows.len() < ROWS
}

/// Whether a dump begins a row: its line has none yet, and there is room for one.
fn is_new(rows: &[Crash<'_>], crash: &Crash<'_>) -> bool
    ensures { result ≡ (nat_lt (length (crashes_in rows.now)) 15
        && has_none (crashes_in rows.now) (crash_in crash.now)) }
{
    is_room(rows) && has_no_row(rows, crash)
}

fn push_row<'a>(rows: &mut Vec<Crash<'a>>, crash: &Crash<'a>) -> Result<(), AllocError>
    ensures { OnOk result ((firsts : List CrashShown) → crashes_in rows.old.items ≡ take 15 firsts
        → crashes_in rows.new.items ≡ take 15 (with_first firsts (crash_in crash.now))) }
{
    let is_new = is_new(rows.as_slice(), crash);
    keep(rows, is_new, crash)
}

/// The first dump of each telling line that has a row.
fn rows_of<'a>(alloc: Global, crashes: &[Crash<'a>]) -> Result<Vec<Crash<'a>>, AllocError>
    ensures { IfOk result (λ rows. crashes_in rows.items ≡ rows_shown (crashes_in crashes.now)) }
{
    let mut rows = Vec::new(alloc);
    for crash in crashes {
        push_row(&mut rows, crash)?;
    }
    Ok(rows)
}

/// The dumps with the line of this one.
fn alike<'a>(
    alloc: Global,
    crashes: &[Crash<'a>],
    first: &Crash<'_>,
) -> Result<Vec<Crash<'a>>, AllocError>
    ensures { IfOk result (λ alike. crashes_in alike.items
        ≡ filter (has_same (crash_in first.now)) (crashes_in crashes.now)) }
{
    let mut alike = Vec::new(alloc);
    for crash in crashes {
        keep(&mut alike, has_line_of(first, crash), crash)?;
    }
    Ok(alike)
}

/// The dumps whose line has none of these rows.
fn others<'a>(
    alloc: Global,
    crashes: &[Crash<'a>],
    rows: &[Crash<'_>],
) -> Result<Vec<Crash<'a>>, AllocError>
    ensures { IfOk result (λ others. crashes_in others.items
        ≡ filter (has_none (crashes_in rows.now)) (crashes_in crashes.now)) }
{
    let mut others = Vec::new(alloc);
    for crash in crashes {
        keep(&mut others, has_no_row(rows, crash), crash)?;
    }
    Ok(others)
}

/// The record that is held, or one that is newer.
fn newer<'a>(held: Option<&'a RecordReport>, dump: &'a RecordReport) -> Option<&'a RecordReport>
    ensures { option_copied result ≡ newer_of (option_copied held.entry) dump.entry.now }
{
    if is_newer(dump, held) {
        Some(dump)
    } else {
        held
    }
}

/// The newest of the dumps.
fn newest_of<'a>(crashes: &[Crash<'a>]) -> Option<&'a RecordReport>
    ensures { option_copied result ≡ newest (map (λ (c : CrashShown). c.dump) (crashes_in crashes.now)) }
{
    let mut held = None;
    for crash in crashes {
        held = newer(held, crash.dump);
    }
    held
}

fn add_time_cell(pieces: &mut Vec<Piece<'_>>, time: Option<Time>) -> Result<(), AllocError>
    ensures { OnOk result (parts pieces.new.items ≡ parts pieces.old.items ++ time_cell time) }
{
    match time {
        Some(time) => add(pieces, &[Piece::Moment(time)]),
        None => Ok(()),
    }
}

/// Adds a link to a dump, and its time.
fn add_dump(pieces: &mut Vec<Piece<'_>>, dump: &RecordReport) -> Result<(), AllocError>
    ensures { OnOk result (parts pieces.new.items ≡ parts pieces.old.items ++ newest_cells (Some dump.now)) }
{
    add(pieces, &[Piece::Link(dump.name), Piece::Own("</td><td>")])?;
    add_time_cell(pieces, dump.time)?;
    Ok(())
}

fn add_newest(pieces: &mut Vec<Piece<'_>>, newest: Option<&RecordReport>) -> Result<(), AllocError>
    ensures { OnOk result (parts pieces.new.items
        ≡ parts pieces.old.items ++ newest_cells (option_copied newest.entry)) }
{
    match newest {
        Some(dump) => add_dump(pieces, dump),
        None => add(pieces, &[Piece::Own("</td><td>")]),
    }
}

/// Adds the row of these dumps, with what they tell.
fn add_row<'a>(
    pieces: &mut Vec<Piece<'a>>,
    line: Piece<'a>,
    crashes: &[Crash<'_>],
) -> Result<(), AllocError>
    ensures { OnOk result (parts pieces.new.items
        ≡ parts pieces.old.items ++ row_parts (part_of line.entry) (crashes_in crashes.now)) }
{
    add(
        pieces,
        &[
            Piece::Own("<tr><td class=\"n\">"),
            Piece::Number(crashes.len() as u64),
            Piece::Own(" &times;</td><td class=\"wrap\">"),
            line,
            Piece::Own("</td><td>"),
        ],
    )?;
    add_newest(pieces, newest_of(crashes))?;
    add(pieces, &[Piece::Own("</td></tr>\n")])?;
    Ok(())
}

fn line_piece(line: Option<&[u8]>) -> Piece<'_>
    ensures { part_of result ≡ line_part (option_copied line.entry) }
{
    match line {
        Some(line) => Piece::Foreign(line),
        None => Piece::Own("no telling line"),
    }
}

/// Adds the row of the dumps with the line of this one.
fn add_cause<'a>(
    alloc: Global,
    pieces: &mut Vec<Piece<'a>>,
    crashes: &[Crash<'a>],
    first: &Crash<'a>,
) -> Result<(), AllocError>
    ensures { OnOk result (parts pieces.new.items
        ≡ parts pieces.old.items ++ cause_parts (crashes_in crashes.now) (crash_in first.now)) }
{
    let alike = alike(alloc, crashes, first)?;
    add_row(pieces, line_piece(first.line), alike.as_slice())
}

fn add_rows<'a>(
    alloc: Global,
    pieces: &mut Vec<Piece<'a>>,
    crashes: &[Crash<'a>],
    rows: &[Crash<'a>],
) -> Result<(), AllocError>
    ensures { OnOk result (parts pieces.new.items
        ≡ parts pieces.old.items ++ flat_map (cause_parts (crashes_in crashes.now)) (crashes_in rows.now)) }
{
    for row in rows {
        add_cause(alloc, pieces, crashes, row)?;
    }
    Ok(())
}

/// Adds the last row, if there are such dumps.
fn add_others(pieces: &mut Vec<Piece<'_>>, others: &[Crash<'_>]) -> Result<(), AllocError>
    ensures { OnOk result (parts pieces.new.items ≡ parts pieces.old.items ++ others_parts (crashes_in others.now)) }
{
    if others.is_empty() {
        return Ok(());
    }
    add_row(pieces, Piece::Own("other telling lines"), others)
}

fn add_table<'a>(
    alloc: Global,
    pieces: &mut Vec<Piece<'a>>,
    crashes: &[Crash<'a>],
) -> Result<(), AllocError>
    ensures { OnOk result (parts pieces.new.items ≡ parts pieces.old.items ++ table_parts (crashes_in crashes.now)) }
{
    let rows = rows_of(alloc, crashes)?;
    let others = others(alloc, crashes, rows.as_slice())?;
    add(pieces, &[Piece::Own(CAUSES)])?;
    add_rows(alloc, pieces, crashes, rows.as_slice())?;
    add_others(pieces, others.as_slice())?;
    add(pieces, &[Piece::Own("</table></div>\n")])?;
    Ok(())
}

/// Adds a table of the dumps by telling line, if there are two dumps or more. Takes time linear in the texts of the
/// dumps, and in their number for each row.
pub fn add_causes<'a>(
    alloc: Global,
    pieces: &mut Vec<Piece<'a>>,
    records: &'a [RecordReport],
) -> Result<(), AllocError>
    ensures { OnOk result (parts pieces.new.items ≡ parts pieces.old.items ++ causes_parts records.entry.now) }
{
    let crashes = crashes_of(alloc, records)?;
    if crashes.len() < 2 {
        return Ok(());
    }
    add_table(alloc, pieces, crashes.as_slice())
}
