// Lines in rows that fit a terminal.
ghost use Rattle.std.specs.Prelude.{◌≡◌, ◌≤◌, ◌++◌, OnOk};
ghost use Rattle.report_text.specs.Pieces.{parts};
ghost use Rattle.report_text.specs.Tails.{row_parts, lines_parts, columns};

use crate::pieces::{Piece, add};
use crate::visible::is_plain;
use std::alloc::AllocError;

const COLUMNS: usize = 76;

/// The columns that a byte takes at most.
fn columns(b: u8) -> usize
    ensures columns { result ≡ columns b }
    ensures few { result ≤ 8 }
{
    match b {
        b'\t' => 8,
        _ if is_plain(b) => 1,
        _ => 4,
    }
}

fn add_row<'a>(
    pieces: &mut Vec<Piece<'a>>,
    lead: &'static str,
    row: &'a [u8],
) -> Result<(), AllocError>
    ensures { OnOk result (parts pieces.new.items
        ≡ parts pieces.old.items ++ row_parts lead.entry.now row.entry.now) }
{
    add(
        pieces,
        &[Piece::Own(lead), Piece::Foreign(row), Piece::Own("\n")],
    )
}

/// Adds the lines of these bytes in rows that fit a terminal, each behind two columns.
pub fn add_rows<'a>(
    pieces: &mut Vec<Piece<'a>>,
    lead: &'static str,
    bytes: &'a [u8],
) -> Result<(), AllocError>
    ensures { OnOk result (parts pieces.new.items
        ≡ parts pieces.old.items ++ lines_parts lead.entry.now bytes.entry.now) }
{
    let mut from = 0;
    let mut taken = 0;
    for (i, b) in bytes.iter().enumerate() {
        let next = columns(*b);
        if *b == b'\n' {
            add_row(pieces, lead, &bytes[from..i])?;
            from = i + 1;
            taken = 0;
        } else if taken + next > COLUMNS {
            add_row(pieces, lead, &bytes[from..i])?;
            from = i;
            taken = next;
        } else {
            taken += next;
        }
    }
    if from < bytes.len() {
        add_row(pieces, lead, &bytes[from..])?;
    }
    Ok(())
}
