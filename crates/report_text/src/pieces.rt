// The pieces of a text.
ghost use Rattle.std.specs.Prelude.{◌≡◌, ◌++◌, true, IfOk, OnOk};
ghost use Rattle.std.specs.List.{list_all};
ghost use Rattle.report_spec.specs.Moments.{moment_text, long_text};
ghost use Rattle.report_spec.specs.Visible.{is_visible, visible};
ghost use Rattle.report_spec.specs.Origins.{name_in};
ghost use Rattle.report_text.specs.Pieces.{filled, piece_text, parts, parts_text};

use crate::visible::push_visible;
use arrayvec::ArrayString;
use itoa::Buffer;
use region_report::{Origin, file_name, push_long, push_moment};
use std::alloc::{AllocError, Global};
use zone_spec::{Name, Time};

/// A piece of a text. The text's own words live as long as the program: they cannot be made of an image's bytes.
#[derive(Clone, Copy)]
pub enum Piece<'a> {
    Own(&'static str),
    /// A number, after blanks that fill so many columns.
    Number(usize, u64),
    Foreign(&'a [u8]),
    /// The date and time of day.
    Moment(Time),
    /// Seconds in larger units, from a minute on.
    Long(u64),
    /// The name of a record's file.
    Named(Name),
}

const BLANKS: &str = "                    ";

/// Appends a number after blanks.
fn push_filled(out: &mut Vec<u8>, columns: usize, n: u64) -> Result<(), AllocError>
    requires { list_all is_visible out.old.items ≡ true }
    ensures bytes { OnOk result (out.new.items ≡ out.old.items ++ visible (filled columns n)) }
    ensures visible { OnOk result (list_all is_visible out.new.items ≡ true) }
{
    let mut digits = Buffer::new();
    let digits = digits.format(n).as_bytes();
    let blanks = BLANKS.as_bytes();
    let wanted = columns.saturating_sub(digits.len()).min(blanks.len());
    push_visible(out, &blanks[..wanted])?;
    push_visible(out, digits)?;
    Ok(())
}

fn push_time(alloc: Global, out: &mut Vec<u8>, time: Time) -> Result<(), AllocError>
    requires { list_all is_visible out.old.items ≡ true }
    ensures bytes { OnOk result (out.new.items ≡ out.old.items ++ visible (moment_text time)) }
    ensures visible { OnOk result (list_all is_visible out.new.items ≡ true) }
{
    let mut text = Vec::new(alloc);
    push_moment(&mut text, time)?;
    push_visible(out, text.as_slice())
}

fn push_units(alloc: Global, out: &mut Vec<u8>, seconds: u64) -> Result<(), AllocError>
    requires { list_all is_visible out.old.items ≡ true }
    ensures bytes { OnOk result (out.new.items ≡ out.old.items ++ visible (long_text seconds)) }
    ensures visible { OnOk result (list_all is_visible out.new.items ≡ true) }
{
    let mut text = Vec::new(alloc);
    push_long(&mut text, seconds)?;
    push_visible(out, text.as_slice())
}

fn push_name(out: &mut Vec<u8>, origin: Origin, name: Name) -> Result<(), AllocError>
    requires { list_all is_visible out.old.items ≡ true }
    ensures bytes { OnOk result (out.new.items ≡ out.old.items ++ visible (name_in origin name)) }
    ensures visible { OnOk result (list_all is_visible out.new.items ≡ true) }
{
    let mut text = ArrayString::new();
    file_name(origin, name, &mut text);
    push_visible(out, text.as_bytes())
}

fn push_piece(
    alloc: Global,
    origin: Origin,
    out: &mut Vec<u8>,
    piece: Piece<'_>,
) -> Result<(), AllocError>
    requires { list_all is_visible out.old.items ≡ true }
    ensures bytes { OnOk result (out.new.items ≡ out.old.items ++ piece_text origin piece.entry) }
    ensures visible { OnOk result (list_all is_visible out.new.items ≡ true) }
{
    match piece {
        Piece::Own(text) => push_visible(out, text.as_bytes()),
        Piece::Number(columns, n) => push_filled(out, columns, n),
        Piece::Foreign(bytes) => push_visible(out, bytes),
        Piece::Moment(time) => push_time(alloc, out, time),
        Piece::Long(seconds) => push_units(alloc, out, seconds),
        Piece::Named(name) => push_name(out, origin, name),
    }
}

/// The text of the pieces, end to end, with the names that records have there.
pub fn render(alloc: Global, origin: Origin, pieces: &[Piece<'_>]) -> Result<Vec<u8>, AllocError>
    ensures text { IfOk result (λ text. text.items ≡ parts_text origin (parts pieces.now)) }
    ensures visible { IfOk result (λ text. list_all is_visible text.items ≡ true) }
{
    let mut out = Vec::new(alloc);
    for piece in pieces {
        push_piece(alloc, origin, &mut out, *piece)?;
    }
    Ok(out)
}

/// Adds pieces.
pub fn add<'a>(pieces: &mut Vec<Piece<'a>>, more: &[Piece<'a>]) -> Result<(), AllocError>
    ensures { OnOk result (parts pieces.new.items ≡ parts pieces.old.items ++ parts more.now) }
{
    pieces.extend_from_slice(more)
}
