// What must be known before a text is believed.
ghost use Rattle.std.specs.Prelude.{◌≡◌, ◌++◌, OnOk};
ghost use Rattle.report_text.specs.Pieces.{parts};
ghost use Rattle.report_text.specs.Facts.{counted_warning, lacking, plain_warning, warning_parts, warnings_parts};
ghost use Rattle.report_text.specs.Facts.{better_parts};

use crate::facts::add_bytes;
use crate::pieces::{Piece, add};
use region_report::Warning;
use std::alloc::AllocError;
use zone_spec::Name;

fn add_counted(
    pieces: &mut Vec<Piece<'_>>,
    words: &'static str,
    n: u64,
    end: &'static str,
) -> Result<(), AllocError>
    ensures { OnOk result (parts pieces.new.items
        ≡ parts pieces.old.items ++ counted_warning words.entry.now n end.entry.now) }
{
    add(
        pieces,
        &[Piece::Own(words), Piece::Number(1, n), Piece::Own(end)],
    )
}

/// Adds that the console tells, and not this dump.
fn add_lacking(pieces: &mut Vec<Piece<'_>>, dump: Name) -> Result<(), AllocError>
    ensures { OnOk result (parts pieces.new.items ≡ parts pieces.old.items ++ lacking dump) }
{
    add(
        pieces,
        &[
            Piece::Own("  careful    the newest dump, "),
            Piece::Named(dump),
            Piece::Own(", does not have all of this\n"),
        ],
    )
}

fn add_plain(pieces: &mut Vec<Piece<'_>>, words: &'static str) -> Result<(), AllocError>
    ensures { OnOk result (parts pieces.new.items ≡ parts pieces.old.items ++ plain_warning words.entry.now) }
{
    add(pieces, &[Piece::Own(words)])
}

fn add_warning(pieces: &mut Vec<Piece<'_>>, warning: Warning) -> Result<(), AllocError>
    ensures { OnOk result (parts pieces.new.items ≡ parts pieces.old.items ++ warning_parts warning) }
{
    match warning {
        Warning::ConsoleTells(dump) => add_lacking(pieces, dump),
        Warning::BadTeller(bad) => add_counted(
            pieces,
            "  careful    bad parts in the record that tells: ",
            bad,
            "; its lines can be wrong\n",
        ),
        Warning::BadHeaders(count) => add_counted(
            pieces,
            "  careful    bad headers: ",
            count,
            "; a log lost there may be newer\n",
        ),
        Warning::NoLog => add_plain(
            pieces,
            "  careful    no zone has a log: the region is blank, or the place or the parameters are wrong\n",
        ),
        Warning::ManyBad(bad) => add_counted(
            pieces,
            "  careful    zones with bad parts: ",
            bad,
            "; the place or the parameters may be wrong\n",
        ),
    }
}

/// Adds a line for each warning.
pub fn add_warnings(pieces: &mut Vec<Piece<'_>>, warnings: &[Warning]) -> Result<(), AllocError>
    ensures { OnOk result (parts pieces.new.items ≡ parts pieces.old.items ++ warnings_parts warnings.now) }
{
    for warning in warnings {
        add_warning(pieces, *warning)?;
    }
    Ok(())
}

/// Adds the words of a layout that explains the image better, if there are any.
pub fn add_better<'a>(pieces: &mut Vec<Piece<'a>>, better: &'a [u8]) -> Result<(), AllocError>
    ensures { OnOk result (parts pieces.new.items ≡ parts pieces.old.items ++ better_parts better.entry.now) }
{
    add_bytes(
        pieces,
        "  careful    another layout explains it better; give only these words: ",
        better,
    )
}
