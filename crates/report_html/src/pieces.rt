// The pieces of a page.
ghost use Rattle.std.specs.Prelude.{◌≡◌, ◌++◌, IfOk, OnOk};
ghost use Rattle.report_html.specs.Pieces.{piece_text, parts, parts_text};

use crate::escaping::push_escaped;
use crate::logs::push_log;
use crate::names::{push_link, push_name};
use itoa::Buffer;
use region_report::{Origin, push_long, push_moment};
use std::alloc::{AllocError, Global};
use zone_spec::{Name, Time};

/// A piece of a page. The page's own text lives as long as the program: it cannot be made of an image's bytes.
#[derive(Clone, Copy)]
pub enum Piece<'a> {
    Own(&'static str),
    Number(u64),
    Foreign(&'a [u8]),
    /// The date and time of day.
    Moment(Time),
    /// Seconds in larger units, from a minute on.
    Long(u64),
    /// A log, line by line, with the doubts of its bytes.
    Log(&'a [bool], &'a [u8]),
    /// The name of a record's file, which is also its anchor.
    Named(Name),
    /// A link to a record, in its name.
    Link(Name),
}

fn push_piece(out: &mut Vec<u8>, origin: Origin, piece: Piece<'_>) -> Result<(), AllocError>
    ensures { OnOk result (out.new.items ≡ out.old.items ++ piece_text origin piece.entry) }
{
    match piece {
        Piece::Own(text) => out.extend_from_slice(text.as_bytes()),
        Piece::Number(n) => {
            let mut digits = Buffer::new();
            out.extend_from_slice(digits.format(n).as_bytes())
        }
        Piece::Foreign(bytes) => push_escaped(out, bytes),
        Piece::Moment(time) => push_moment(out, time),
        Piece::Long(seconds) => push_long(out, seconds),
        Piece::Log(doubts, text) => push_log(out, doubts, text),
        Piece::Named(name) => push_name(out, origin, name),
        Piece::Link(name) => push_link(out, origin, name),
    }
}

/// About as many bytes as a piece will take.
fn piece_len(piece: Piece<'_>) -> usize {
    match piece {
        Piece::Own(text) => text.len(),
        Piece::Foreign(bytes) | Piece::Log(_, bytes) => bytes.len().saturating_add(bytes.len() / 8),
        Piece::Number(_) | Piece::Moment(_) | Piece::Long(_) | Piece::Named(_) | Piece::Link(_) =>
            16,
    }
}

/// About as many bytes as the pieces will take.
fn expected_len(pieces: &[Piece<'_>]) -> usize {
    let mut len = 0usize;
    for piece in pieces {
        len = len.saturating_add(piece_len(*piece));
    }
    len
}

/// The text of the pieces, end to end, with the names that records have there.
pub fn render(alloc: Global, origin: Origin, pieces: &[Piece<'_>]) -> Result<Vec<u8>, AllocError>
    ensures { IfOk result (λ text. text.items ≡ parts_text origin (parts pieces.now)) }
{
    let mut out = Vec::with_capacity(alloc, expected_len(pieces))?;
    for piece in pieces {
        push_piece(&mut out, origin, *piece)?;
    }
    Ok(out)
}

/// Adds pieces.
pub fn add<'a>(pieces: &mut Vec<Piece<'a>>, more: &[Piece<'a>]) -> Result<(), AllocError>
    ensures { OnOk result (parts pieces.new.items ≡ parts pieces.old.items ++ parts more.now) }
{
    pieces.extend_from_slice(more)
}
