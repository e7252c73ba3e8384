// What must be known before a page is believed.
ghost use Rattle.std.specs.Prelude.{◌≡◌, ◌++◌, flat_map, OnOk};
ghost use Rattle.region_report.specs.Tellers.{told_in};
ghost use Rattle.report_html.specs.Pieces.{parts};
ghost use Rattle.report_html.specs.Warnings.{warned, lacking, bad_headers, warning_parts, better_parts, warnings_parts};

use crate::pieces::{Piece, add};
use crate::words::{BAD_TELLER, CLOSING, MANY_BAD, NO_LOG, OPENING};
use region_report::{Report, Telling, Warning, warnings_by};
use std::alloc::{AllocError, Global};
use zone_spec::Name;

fn add_warned(pieces: &mut Vec<Piece<'_>>, said: &'static str) -> Result<(), AllocError>
    ensures { OnOk result (parts pieces.new.items ≡ parts pieces.old.items ++ warned said.entry.now) }
{
    add(
        pieces,
        &[Piece::Own(OPENING), Piece::Own(said), Piece::Own(CLOSING)],
    )
}

/// Adds that the console tells, and not this dump.
fn add_lacking(pieces: &mut Vec<Piece<'_>>, dump: Name) -> Result<(), AllocError>
    ensures { OnOk result (parts pieces.new.items
        ≡ parts pieces.old.items ++ lacking dump) }
{
    add(
        pieces,
        &[
            Piece::Own(OPENING),
            Piece::Own("The reason comes from the console; the newest dump, "),
            Piece::Link(dump),
            Piece::Own(", does not contain all of it."),
            Piece::Own(CLOSING),
        ],
    )
}

fn add_bad_headers(pieces: &mut Vec<Piece<'_>>, count: u64) -> Result<(), AllocError>
    ensures { OnOk result (parts pieces.new.items ≡ parts pieces.old.items ++ bad_headers count) }
{
    add(
        pieces,
        &[
            Piece::Own(OPENING),
            Piece::Own("Bad headers: "),
            Piece::Number(count),
            Piece::Own(". A log lost there may be newer than what stands below."),
            Piece::Own(CLOSING),
        ],
    )
}

fn add_warning(pieces: &mut Vec<Piece<'_>>, warning: Warning) -> Result<(), AllocError>
    ensures { OnOk result (parts pieces.new.items ≡ parts pieces.old.items ++ warning_parts warning) }
{
    match warning {
        Warning::ConsoleTells(dump) => add_lacking(pieces, dump),
        Warning::BadTeller(_) => add_warned(pieces, BAD_TELLER),
        Warning::BadHeaders(count) => add_bad_headers(pieces, count),
        Warning::NoLog => add_warned(pieces, NO_LOG),
        Warning::ManyBad(_) => add_warned(pieces, MANY_BAD),
    }
}

fn add_each(pieces: &mut Vec<Piece<'_>>, warnings: &[Warning]) -> Result<(), AllocError>
    ensures { OnOk result (parts pieces.new.items
        ≡ parts pieces.old.items ++ flat_map warning_parts warnings.now) }
{
    for warning in warnings {
        add_warning(pieces, *warning)?;
    }
    Ok(())
}

/// Adds the words of a layout that explains the image better, if there are any.
pub fn add_better<'a>(pieces: &mut Vec<Piece<'a>>, better: &'a [u8]) -> Result<(), AllocError>
    ensures { OnOk result (parts pieces.new.items ≡ parts pieces.old.items ++ better_parts better.entry.now) }
{
    if better.is_empty() {
        return Ok(());
    }
    add(
        pieces,
        &[
            Piece::Own(OPENING),
            Piece::Own("Another layout explains it better; give only these words: "),
            Piece::Foreign(better),
            Piece::Own(CLOSING),
        ],
    )
}

/// Adds the warnings of a report in which this tells why the machine died.
pub fn add_warnings(
    alloc: Global,
    pieces: &mut Vec<Piece<'_>>,
    report: &Report,
    told: Option<Telling<'_>>,
) -> Result<(), AllocError>
    ensures { OnOk result (parts pieces.new.items
        ≡ parts pieces.old.items ++ warnings_parts report.now (told_in told.entry)) }
{
    let warnings = warnings_by(alloc, report, told)?;
    add_each(pieces, warnings.as_slice())
}
