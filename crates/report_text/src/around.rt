// The lines that tell why the machine died, and those around them.
ghost use Rattle.std.specs.Prelude.{◌≡◌, ◌++◌, OnOk, IfOk};
ghost use Rattle.death_spec.specs.Lines.{lines_from};
ghost use Rattle.report_spec.specs.Excerpts.{next_at};
ghost use Rattle.report_text.specs.Pieces.{parts};
ghost use Rattle.report_text.specs.Around.{log_parts, marked_parts, last_end as last_end_of, trace_end as trace_end_of};
ghost use Rattle.report_text.specs.Around.{end_below as end_below_of, rest_parts, around_parts};

use crate::pieces::Piece;
use crate::seen::add_lines;
use death::{next_line, part, trace};
use death_spec::{Death, Line, Span};
use region_report::{below, doubts_between, place_above};
use std::alloc::{AllocError, Global};

/// The lines that are shown above the telling line.
const ABOVE: usize = 8;

fn add_log<'a>(
    pieces: &mut Vec<Piece<'a>>,
    doubts: &[bool],
    text: &'a [u8],
    from: usize,
    to: usize,
) -> Result<(), AllocError>
    ensures { OnOk result (parts pieces.new.items
        ≡ parts pieces.old.items ++ log_parts doubts.now text.entry.now from to) }
{
    let doubts = doubts_between(doubts, from, to);
    add_lines(pieces, false, doubts, part(text, from, to))
}

fn add_marked<'a>(
    pieces: &mut Vec<Piece<'a>>,
    doubts: &[bool],
    text: &'a [u8],
    line: Line,
) -> Result<(), AllocError>
    ensures { OnOk result (parts pieces.new.items
        ≡ parts pieces.old.items ++ marked_parts doubts.now text.entry.now line) }
{
    let doubts = doubts_between(doubts, line.start, line.next);
    add_lines(pieces, true, doubts, part(text, line.start, line.next))
}

/// Where the last of these functions ends.
fn last_end(spans: &[Span]) -> usize
    ensures { result ≡ last_end_of spans.now }
{
    spans.iter().fold(0, |end, span| end.max(span.end))
}

/// The place of the next line, or this place if there is none.
fn next_place(text: &[u8], place: usize) -> usize
    ensures { result ≡ next_at place (lines_from text.now place) }
{
    match next_line(text, place) {
        Some(line) => line.next,
        None => place,
    }
}

/// The end of the line in which the call trace ends.
fn trace_end(alloc: Global, text: &[u8]) -> Result<usize, AllocError>
    ensures { IfOk result (λ end. end ≡ trace_end_of text.now) }
{
    let spans = trace(alloc, text)?;
    Ok(next_place(text, last_end(spans.as_slice())))
}

/// So many lines below a place, and the call trace to its end.
fn end_below(alloc: Global, text: &[u8], at: usize, most: usize) -> Result<usize, AllocError>
    ensures { IfOk result (λ end. end ≡ end_below_of text.now at most) }
{
    let end = trace_end(alloc, text)?;
    Ok(below(text, at, most).max(end))
}

fn add_below<'a>(
    alloc: Global,
    pieces: &mut Vec<Piece<'a>>,
    doubts: &[bool],
    text: &'a [u8],
    at: usize,
    most: usize,
) -> Result<(), AllocError>
    ensures { OnOk result (parts pieces.new.items
        ≡ parts pieces.old.items ++ log_parts doubts.now text.entry.now at (end_below_of text.entry.now at most)) }
{
    let end = end_below(alloc, text, at, most)?;
    add_log(pieces, doubts, text, at, end)
}

/// Adds the lines below the telling line.
fn add_rest<'a>(
    alloc: Global,
    pieces: &mut Vec<Piece<'a>>,
    doubts: &[bool],
    text: &'a [u8],
    most: usize,
    at: usize,
    second: Option<Line>,
) -> Result<(), AllocError>
    ensures { OnOk result (parts pieces.new.items
        ≡ parts pieces.old.items ++ rest_parts doubts.now text.entry.now most at second) }
{
    match second {
        Some(line) => {
            add_log(pieces, doubts, text, at, line.start)?;
            add_marked(pieces, doubts, text, line)?;
            add_below(alloc, pieces, doubts, text, line.next, most)
        }
        None => add_below(alloc, pieces, doubts, text, at, most),
    }
}

/// Adds the lines that tell: from eight above the telling line to the end of its call trace, and at least so many
/// below the last line that tells.
pub fn add_around<'a>(
    alloc: Global,
    pieces: &mut Vec<Piece<'a>>,
    doubts: &[bool],
    text: &'a [u8],
    most: usize,
    death: Death,
) -> Result<(), AllocError>
    ensures { OnOk result (parts pieces.new.items
        ≡ parts pieces.old.items ++ around_parts doubts.now text.entry.now most death) }
{
    let telling = death.telling;
    let from = place_above(text, telling.start, ABOVE);
    add_log(pieces, doubts, text, from, telling.start)?;
    add_marked(pieces, doubts, text, telling)?;
    add_rest(
        alloc,
        pieces,
        doubts,
        text,
        most,
        telling.next,
        death.second,
    )
}
