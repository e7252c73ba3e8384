// Rows of what is known of a death, or of the end of a log.
ghost use Rattle.std.specs.Prelude.{◌≡◌, ◌++◌, OnOk};
ghost use Rattle.zone_spec.specs.Parts.{AreBytes};
ghost use Rattle.region_report.specs.Machines.{as_machine};
ghost use Rattle.report_html.specs.Pieces.{parts};
ghost use Rattle.report_html.specs.Facts.{when_parts, up_parts, bytes_parts, machine_parts};
ghost use Rattle.report_html.specs.Escaping.{AreMachineBytes};

use crate::pieces::{Piece, add};
use region_report::{Machine, seconds};
use std::alloc::AllocError;
use zone_spec::Time;

/// Adds the head of the table, and the time of the record that tells.
pub fn add_when(pieces: &mut Vec<Piece<'_>>, time: Option<Time>) -> Result<(), AllocError>
    ensures { OnOk result (parts pieces.new.items ≡ parts pieces.old.items ++ when_parts time) }
{
    match time {
        Some(time) => add(
            pieces,
            &[
                Piece::Own("<table class=\"fact\">\n<tr><th scope=\"row\">When</th><td><b>"),
                Piece::Moment(time),
                Piece::Own("</b>"),
            ],
        ),
        None => add(
            pieces,
            &[Piece::Own("<table class=\"fact\">\n<tr><th scope=\"row\">When</th><td>no date")],
        ),
    }
}

/// Adds to that row how long the machine had been up, if a line tells it.
pub fn add_up<'a>(pieces: &mut Vec<Piece<'a>>, uptime: &'a [u8]) -> Result<(), AllocError>
    ensures bytes { AreBytes uptime.entry.now }
    ensures parts { OnOk result (parts pieces.new.items ≡ parts pieces.old.items ++ up_parts uptime.entry.now) }
{
    if uptime.is_empty() {
        return add(pieces, &[Piece::Own("</td></tr>\n")]);
    }
    add(
        pieces,
        &[
            Piece::Own(", "),
            Piece::Foreign(uptime),
            Piece::Own(" s after boot"),
            Piece::Long(seconds(uptime)),
            Piece::Own("</td></tr>\n"),
        ],
    )
}

/// Adds a row of bytes, if there are any.
pub fn add_bytes<'a>(
    pieces: &mut Vec<Piece<'a>>,
    label: &'static str,
    bytes: &'a [u8],
) -> Result<(), AllocError>
    ensures bytes { AreBytes bytes.entry.now }
    ensures parts { OnOk result (parts pieces.new.items
        ≡ parts pieces.old.items ++ bytes_parts label.entry.now bytes.entry.now) }
{
    if bytes.is_empty() {
        return Ok(());
    }
    add(
        pieces,
        &[
            Piece::Own("<tr><th scope=\"row\">"),
            Piece::Own(label),
            Piece::Own("</th><td>"),
            Piece::Foreign(bytes),
            Piece::Own("</td></tr>\n"),
        ],
    )
}

/// Adds what a log says of the machine.
pub fn add_machine<'a>(pieces: &mut Vec<Piece<'a>>, machine: Machine<'a>) -> Result<(), AllocError>
    ensures bytes { OnOk result (AreMachineBytes (as_machine machine.entry)) }
    ensures parts { OnOk result (parts pieces.new.items
        ≡ parts pieces.old.items ++ machine_parts (as_machine machine.entry)) }
{
    add_bytes(pieces, "Hardware", machine.hardware)?;
    add_bytes(pieces, "Modules", machine.modules)?;
    add_bytes(pieces, "Version", machine.version)?;
    add_bytes(pieces, "Kernel offset", machine.offset)?;
    add_bytes(pieces, "Command line", machine.cmdline)?;
    Ok(())
}
