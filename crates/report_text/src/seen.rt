// Lines of which bytes can be doubtful.
ghost use Rattle.std.specs.Prelude.{◌≡◌, ◌++◌, OnOk};
ghost use Rattle.report_text.specs.Pieces.{parts};
ghost use Rattle.report_text.specs.Tails.{lead as lead_of, line_rows, seen_lines};

use crate::pieces::Piece;
use crate::rows::add_rows;
use death::{next_line, part};
use death_spec::Line;
use region_report::has_doubt;
use std::alloc::AllocError;

/// The two columns before a line.
fn lead(tells: bool, doubtful: bool) -> &'static str
    ensures { result.now ≡ lead_of tells doubtful }
{
    match (tells, doubtful) {
        (false, false) => "  ",
        (false, true) => "~ ",
        (true, false) => "> ",
        (true, true) => ">~",
    }
}

fn add_line<'a>(
    pieces: &mut Vec<Piece<'a>>,
    tells: bool,
    doubts: &[bool],
    text: &'a [u8],
    line: Line,
) -> Result<(), AllocError>
    ensures { OnOk result (parts pieces.new.items
        ≡ parts pieces.old.items ++ line_rows tells doubts.now text.entry.now line) }
{
    let doubtful = has_doubt(doubts, line.start, line.next);
    add_rows(
        pieces,
        lead(tells, doubtful),
        part(text, line.start, line.next),
    )
}

/// Adds the lines of a text with these doubts in rows that fit a terminal, those with doubtful bytes marked.
pub fn add_lines<'a>(
    pieces: &mut Vec<Piece<'a>>,
    tells: bool,
    doubts: &[bool],
    text: &'a [u8],
) -> Result<(), AllocError>
    ensures { OnOk result (parts pieces.new.items
        ≡ parts pieces.old.items ++ seen_lines tells doubts.now text.entry.now) }
{
    let mut at = 0;
    'lines: while let Some(line) = next_line(text, at) {
        add_line(pieces, tells, doubts, text, line)?;
        at = line.next;
    }
    Ok(())
}
