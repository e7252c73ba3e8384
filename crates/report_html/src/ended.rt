// How a log ends that tells of no death.
ghost use Rattle.std.specs.Prelude.{◌≡◌, ◌++◌, OnOk};
ghost use Rattle.zone_spec.specs.Parts.{AreBytes};
ghost use Rattle.prz_read.specs.Saving.{saved};
ghost use Rattle.region_report.specs.Tellers.{as_ended, end_in};
ghost use Rattle.report_html.specs.Pieces.{parts};
ghost use Rattle.report_html.specs.Ended.{words_of, ended_parts, last_parts, told_parts, end_facts, end_parts};
ghost use Rattle.report_html.specs.Escaping.{AreEndBytes, EndsBytes};

use crate::facts::{add_machine, add_up, add_when};
use crate::pieces::{Piece, add};
use crate::reads::add_read;
use crate::words::READ;
use death::part;
use death_spec::Line;
use prz_read::Logs;
use region_report::{End, RecordReport, end_text, machine_ended, uptime};
use std::alloc::AllocError;
use zone_spec::Name;

/// How the log ends, in words.
pub fn words(end: Option<End<'_>>) -> &'static str
    ensures { result.now ≡ words_of (end_in end.entry) }
{
    match end {
        Some(end) => end_text(&end),
        None => "no death: no record tells of the kernel",
    }
}

/// Adds how the log ends, in words.
pub fn add_ended(pieces: &mut Vec<Piece<'_>>, end: Option<End<'_>>) -> Result<(), AllocError>
    ensures { OnOk result (parts pieces.new.items ≡ parts pieces.old.items ++ ended_parts (end_in end.entry)) }
{
    add(
        pieces,
        &[
            Piece::Own("<pre class=\"why\">"),
            Piece::Own(words(end)),
            Piece::Own("</pre>\n"),
        ],
    )
}

fn add_last<'a>(pieces: &mut Vec<Piece<'a>>, text: &'a [u8], line: Line) -> Result<(), AllocError>
    ensures bytes { AreBytes text.entry.now }
    ensures parts { OnOk result (parts pieces.new.items ≡ parts pieces.old.items ++ last_parts text.entry.now line) }
{
    add(
        pieces,
        &[
            Piece::Own("<tr><th scope=\"row\">Last line</th><td>"),
            Piece::Foreign(part(text, line.text, line.end)),
            Piece::Own("</td></tr>\n"),
        ],
    )
}

/// Adds which record tells, and how it read.
fn add_told(pieces: &mut Vec<Piece<'_>>, logs: &Logs, name: Name) -> Result<(), AllocError>
    ensures { OnOk result (parts pieces.new.items ≡ parts pieces.old.items ++ told_parts (saved logs.now) name) }
{
    add(
        pieces,
        &[
            Piece::Own("<tr><th scope=\"row\">Told by</th><td>"),
            Piece::Link(name),
            Piece::Own(READ),
        ],
    )?;
    add_read(pieces, logs, name)?;
    add(
        pieces,
        &[Piece::Own("</td></tr>\n</table>\n</header>\n<main>\n")],
    )?;
    Ok(())
}

fn add_facts<'a>(pieces: &mut Vec<Piece<'a>>, logs: &Logs, end: &End<'a>) -> Result<(), AllocError>
    ensures bytes { OnOk result (AreEndBytes (as_ended end.now)) }
    ensures parts { OnOk result (parts pieces.new.items ≡ parts pieces.old.items
        ++ end_facts (saved logs.now) (as_ended end.now)) }
{
    let teller: &'a RecordReport = end.teller;
    let text = teller.readable();
    add_when(pieces, teller.time)?;
    add_up(pieces, uptime(text, end.ended.line))?;
    add_last(pieces, text, end.ended.line)?;
    add_machine(pieces, machine_ended(end))?;
    add_told(pieces, logs, teller.name)?;
    Ok(())
}

/// Adds what is known of the end of a log.
pub fn add_end<'a>(
    pieces: &mut Vec<Piece<'a>>,
    logs: &Logs,
    end: Option<End<'a>>,
) -> Result<(), AllocError>
    ensures bytes { OnOk result (EndsBytes (end_in end.entry)) }
    ensures parts { OnOk result (parts pieces.new.items ≡ parts pieces.old.items
        ++ end_parts (saved logs.now) (end_in end.entry)) }
{
    match end {
        Some(end) => add_facts(pieces, logs, &end),
        None => add(pieces, &[Piece::Own("</header>\n<main>\n")]),
    }
}
