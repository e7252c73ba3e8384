// The map of the region: its zones to scale.
ghost use Rattle.std.specs.Prelude.{◌≡◌, ◌++◌, ◌<◌, ◌^◌, OnOk};
ghost use Rattle.std.specs.Option.{option_copied};
ghost use Rattle.report_html.specs.Pieces.{parts};
ghost use Rattle.report_html.specs.Pictures.{kind_words, zone_name, state_words, read_words, share as share_of};
ghost use Rattle.report_html.specs.Pictures.{label_opening as opening_of_label, fitting_parts, label_parts};
ghost use Rattle.report_html.specs.Pictures.{place_parts};

use crate::pieces::{Piece, add};
use prz_read::Reading;
use std::alloc::AllocError;
use zone_spec::{Kind, State, Zone};

fn kind_text(kind: Kind) -> &'static str
    ensures { result.now ≡ kind_words kind }
{
    match kind {
        Kind::Dump => "dump ",
        Kind::Console => "console ",
        Kind::Ftrace => "ftrace ",
        Kind::Pmsg => "pmsg ",
    }
}

/// Adds the name of a zone.
pub fn add_zone_name(pieces: &mut Vec<Piece<'_>>, zone: &Zone) -> Result<(), AllocError>
    ensures { OnOk result (parts pieces.new.items ≡ parts pieces.old.items ++ zone_name zone.now) }
{
    let kind = kind_text(zone.name.kind);
    let index = u64::from(zone.name.index);
    add(pieces, &[Piece::Own(kind), Piece::Number(index)])?;
    Ok(())
}

fn state_text(state: State) -> &'static str
    ensures { result.now ≡ state_words state }
{
    match state {
        State::Unsigned => "unsigned",
        State::Empty => "empty",
        State::Invalid => "invalid",
        State::Found => "found",
    }
}

/// What a zone was taken for.
pub fn read_text(reading: Option<&Reading>) -> &'static str
    ensures { result.now ≡ read_words (option_copied reading.entry) }
{
    match reading {
        Some(reading) => state_text(reading.state),
        None => "not read",
    }
}

/// A share in thousandths of a percent, rounded down.
fn share(part: u64, whole: u64) -> u64
    requires { part < 2 ^ 33 }
    ensures { result ≡ share_of part whole }
{
    if whole == 0 {
        0
    } else {
        part * 100_000 / whole
    }
}

fn label_opening(size: u64, whole: u64) -> &'static str
    requires { size < 2 ^ 32 }
    ensures { result.now ≡ opening_of_label size whole }
{
    if 8 * size < whole {
        "<g class=\"slim\"><text x=\"3\" y=\"13\">"
    } else {
        "<g><text x=\"3\" y=\"13\">"
    }
}

fn add_fitting(pieces: &mut Vec<Piece<'_>>, zone: &Zone, whole: u64) -> Result<(), AllocError>
    ensures { OnOk result (parts pieces.new.items ≡ parts pieces.old.items ++ fitting_parts zone.now whole) }
{
    let size = u64::from(zone.size);
    let opening = label_opening(size, whole);
    add(pieces, &[Piece::Own(opening)])?;
    add_zone_name(pieces, zone)?;
    add(
        pieces,
        &[
            Piece::Own("</text><text x=\"3\" y=\"27\">"),
            Piece::Number(size),
            Piece::Own("</text></g>"),
        ],
    )?;
    Ok(())
}

/// Adds a zone's name and size, where they fit.
pub fn add_label(pieces: &mut Vec<Piece<'_>>, zone: &Zone, whole: u64) -> Result<(), AllocError>
    ensures { OnOk result (parts pieces.new.items ≡ parts pieces.old.items ++ label_parts zone.now whole) }
{
    let size = u64::from(zone.size);
    if 16 * size < whole {
        Ok(())
    } else {
        add_fitting(pieces, zone, whole)
    }
}

/// Adds where a zone begins and ends.
pub fn add_place(pieces: &mut Vec<Piece<'_>>, zone: &Zone, whole: u64) -> Result<(), AllocError>
    ensures { OnOk result (parts pieces.new.items ≡ parts pieces.old.items ++ place_parts whole zone.now) }
{
    let at = share(u64::from(zone.at), whole);
    let width = share(u64::from(zone.size), whole);
    add(
        pieces,
        &[
            Piece::Own("<svg x=\""),
            Piece::Number(at),
            Piece::Own("e-3%\" width=\""),
            Piece::Number(width),
            Piece::Own("e-3%\"><title>"),
        ],
    )?;
    Ok(())
}
