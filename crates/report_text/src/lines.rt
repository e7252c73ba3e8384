// The last lines of a record.
ghost use Rattle.std.specs.Prelude.{◌≡◌, ◌≤◌, ◌++◌, drop, length, OnOk};
ghost use Rattle.std.specs.Option.{option_copied};
ghost use Rattle.report_text.specs.Pieces.{parts};
ghost use Rattle.report_text.specs.Tails.{last_lines, tail_rows, break_parts, tail_parts};
ghost use Rattle.report_text.specs.Whole.{tails};

use crate::pieces::{Piece, add};
use crate::seen::add_lines;
use outside::Bytes;
use region_report::{Packing, RecordReport, android_log, console, doubts_between};
use std::alloc::AllocError;

/// How many lines of the console and of Android's log are shown.
const LINES: usize = 10;

/// Where at most so many last lines begin.
fn tail_start(bytes: &[u8], most: usize) -> usize
    ensures within { result ≤ length bytes.now }
    ensures last { drop result bytes.now ≡ last_lines most bytes.now }
{
    if most == 0 {
        return bytes.len();
    }
    let mut lines = 0;
    for i in (0..bytes.len()).rev() {
        if bytes[i] == b'\n' && i + 1 < bytes.len() {
            lines += 1;
            if lines == most {
                return i + 1;
            }
        }
    }
    0
}

/// Adds why a packed text goes no further, if it doesn't.
fn add_break(pieces: &mut Vec<Piece<'_>>, packing: &Packing<Bytes>) -> Result<(), AllocError>
    ensures { OnOk result (parts pieces.new.items ≡ parts pieces.old.items ++ break_parts packing.now) }
{
    match packing {
        Packing::Part { fault, .. } => add(
            pieces,
            &[
                Piece::Own("  (breaks off: "),
                Piece::Own(fault.words()),
                Piece::Own(")\n"),
            ],
        ),
        Packing::Plain | Packing::Whole { .. } => Ok(()),
    }
}

/// Adds at most so many last lines of these bytes.
fn add_tail_rows<'a>(
    pieces: &mut Vec<Piece<'a>>,
    most: usize,
    doubts: &[bool],
    bytes: &'a [u8],
) -> Result<(), AllocError>
    ensures { OnOk result (parts pieces.new.items
        ≡ parts pieces.old.items ++ tail_rows most doubts.now bytes.entry.now) }
{
    let start = tail_start(bytes, most);
    let doubts = doubts_between(doubts, start, bytes.len());
    add_lines(pieces, false, doubts, &bytes[start..])
}

/// Adds a heading and at most so many last lines of a record, if there is one. A packed text that breaks off ends with
/// the reason.
pub fn add_tail<'a>(
    pieces: &mut Vec<Piece<'a>>,
    heading: &'static str,
    most: usize,
    entry: Option<&'a RecordReport>,
) -> Result<(), AllocError>
    ensures { OnOk result (parts pieces.new.items
        ≡ parts pieces.old.items ++ tail_parts heading.entry.now most (option_copied entry.entry)) }
{
    match entry {
        Some(entry) => {
            add(pieces, &[Piece::Own(heading)])?;
            add_tail_rows(pieces, most, entry.doubts.as_slice(), entry.said())?;
            add_break(pieces, &entry.packing)
        }
        None => Ok(()),
    }
}

/// Adds the last lines of the console and of Android's log.
pub fn add_tails<'a>(
    pieces: &mut Vec<Piece<'a>>,
    records: &'a [RecordReport],
) -> Result<(), AllocError>
    ensures { OnOk result (parts pieces.new.items ≡ parts pieces.old.items ++ tails records.entry.now) }
{
    add_tail(
        pieces,
        "\nlast lines of the console\n",
        LINES,
        console(records),
    )?;
    add_tail(
        pieces,
        "\nlast lines of Android's log\n",
        LINES,
        android_log(records),
    )
}
