// How a record read.
ghost use Rattle.std.specs.Prelude.{◌≡◌, ◌++◌, OnOk};
ghost use Rattle.prz_read.specs.Saving.{saved};
ghost use Rattle.report_html.specs.Pieces.{parts};
ghost use Rattle.report_html.specs.Reads.{counted_parts, number_parts, clean_parts, read_parts};

use crate::pieces::{Piece, add};
use prz_read::Logs;
use region_report::counts;
use std::alloc::AllocError;
use zone_spec::Name;

fn add_counted(pieces: &mut Vec<Piece<'_>>, words: &'static str, n: u64) -> Result<(), AllocError>
    ensures { OnOk result (parts pieces.new.items ≡ parts pieces.old.items ++ counted_parts words.entry.now n) }
{
    add(
        pieces,
        &[Piece::Own(words), Piece::Number(n), Piece::Own("</span>")],
    )
}

/// Adds a number, unless it is 0.
fn add_number(pieces: &mut Vec<Piece<'_>>, words: &'static str, n: u64) -> Result<(), AllocError>
    ensures { OnOk result (parts pieces.new.items ≡ parts pieces.old.items ++ number_parts words.entry.now n) }
{
    if n > 0 {
        add_counted(pieces, words, n)
    } else {
        Ok(())
    }
}

/// Adds that nothing was bad or corrected, if it is so.
fn add_clean(pieces: &mut Vec<Piece<'_>>, bad: u64, corrected: u64) -> Result<(), AllocError>
    ensures { OnOk result (parts pieces.new.items ≡ parts pieces.old.items ++ clean_parts bad corrected) }
{
    if bad == 0 && corrected == 0 {
        add(pieces, &[Piece::Own("<span class=\"ok\">clean</span>")])
    } else {
        Ok(())
    }
}

/// Adds how the zones of a record read.
pub fn add_read(pieces: &mut Vec<Piece<'_>>, logs: &Logs, name: Name) -> Result<(), AllocError>
    ensures { OnOk result (parts pieces.new.items
        ≡ parts pieces.old.items ++ read_parts (saved logs.now) name) }
{
    let counts = counts(logs, name);
    add_clean(pieces, counts.bad, counts.corrected)?;
    add_number(pieces, "<span class=\"bad\">bad ", counts.bad)?;
    add_number(pieces, "<span class=\"fix\">corrected ", counts.corrected)
}
