// Why the machine died, or how the log ends.
ghost use Rattle.std.specs.Prelude.{◌≡◌, ◌++◌, OnOk};
ghost use Rattle.std.specs.Option.{option_copied};
ghost use Rattle.region_report.specs.Tellers.{as_told, told_in, as_ended, end_in};
ghost use Rattle.report_text.specs.Pieces.{parts};
ghost use Rattle.report_text.specs.Facts.{second_parts, reason_parts, shared_words, console_words, death_parts};
ghost use Rattle.report_text.specs.Facts.{ended_parts, end_parts, unknown_parts};
ghost use Rattle.report_text.specs.Facts.{unless_ended, first_parts};

use crate::facts::{add_bytes, add_function, add_machine, add_named, add_source, add_up, add_when};
use crate::pieces::{Piece, add};
use death::part;
use death_spec::{Death, Line};
use region_report::{
    End, RecordReport, Telling, console, death_time, end_text, end_told, has_telling_line,
    is_console, machine_ended, machine_told, newest_dump, uptime,
};
use std::alloc::AllocError;

fn add_second<'a>(
    pieces: &mut Vec<Piece<'a>>,
    text: &'a [u8],
    second: Option<Line>,
) -> Result<(), AllocError>
    ensures { OnOk result (parts pieces.new.items ≡ parts pieces.old.items ++ second_parts text.entry.now second) }
{
    match second {
        Some(line) => add(
            pieces,
            &[
                Piece::Own("  led to     "),
                Piece::Foreign(part(text, line.text, line.end)),
                Piece::Own("\n"),
            ],
        ),
        None => Ok(()),
    }
}

/// Adds the telling line, the panic that it was the cause of, the function, and the signature.
fn add_reason<'a>(
    pieces: &mut Vec<Piece<'a>>,
    signature: &'a [u8],
    text: &'a [u8],
    death: Death,
) -> Result<(), AllocError>
    ensures { OnOk result (parts pieces.new.items ≡ parts pieces.old.items
        ++ reason_parts signature.entry.now text.entry.now death) }
{
    add(
        pieces,
        &[
            Piece::Own("died: "),
            Piece::Foreign(part(text, death.telling.text, death.telling.end)),
            Piece::Own("\n"),
        ],
    )?;
    add_second(pieces, text, death.second)?;
    add_function(pieces, text, death.is_next, death.function)?;
    add_bytes(pieces, "  signature  ", signature)
}

fn shared_text(is_shared: bool) -> &'static str
    ensures { result.now ≡ shared_words is_shared }
{
    if is_shared {
        "; the console has the same line"
    } else {
        "; the console lacks this line: it can be of another boot"
    }
}

/// Whether the console has the telling line too.
fn console_text(told: &Telling<'_>, console: Option<&RecordReport>) -> &'static str
    ensures { result.now ≡ console_words (as_told told.now) (option_copied console.entry) }
{
    let Some(console) = console else {
        return "";
    };
    if is_console(told.teller) {
        return "";
    }
    shared_text(has_telling_line(console, told))
}

fn add_death<'a>(
    pieces: &mut Vec<Piece<'a>>,
    title: &'a [u8],
    signature: &'a [u8],
    told: &Telling<'a>,
    dump: Option<&RecordReport>,
    console: Option<&'a RecordReport>,
) -> Result<(), AllocError>
    ensures { OnOk result (parts pieces.new.items ≡ parts pieces.old.items
        ++ death_parts title.entry.now signature.entry.now (as_told told.now) (option_copied dump.entry)
        (option_copied console.entry)) }
{
    let teller: &'a RecordReport = told.teller;
    let text = teller.readable();
    add_reason(pieces, signature, text, told.death)?;
    add_when(pieces, death_time(told, dump))?;
    add_up(pieces, uptime(text, told.death.telling))?;
    add_named(pieces, text, told.death)?;
    add_machine(pieces, machine_told(told, console))?;
    add_source(pieces, teller, console_text(told, console), title)
}

fn add_ending<'a>(
    pieces: &mut Vec<Piece<'a>>,
    words: &'static str,
    text: &'a [u8],
    line: Line,
) -> Result<(), AllocError>
    ensures { OnOk result (parts pieces.new.items ≡ parts pieces.old.items
        ++ ended_parts words.entry.now text.entry.now line) }
{
    add(
        pieces,
        &[
            Piece::Own(words),
            Piece::Own("\n  last line  "),
            Piece::Foreign(part(text, line.text, line.end)),
            Piece::Own("\n"),
        ],
    )
}

fn add_end<'a>(
    pieces: &mut Vec<Piece<'a>>,
    title: &'a [u8],
    end: &End<'a>,
) -> Result<(), AllocError>
    ensures { OnOk result (parts pieces.new.items
        ≡ parts pieces.old.items ++ end_parts title.entry.now (as_ended end.now)) }
{
    let teller: &'a RecordReport = end.teller;
    let text = teller.readable();
    add_ending(pieces, end_text(end), text, end.ended.line)?;
    add_when(pieces, teller.time)?;
    add_up(pieces, uptime(text, end.ended.line))?;
    add_machine(pieces, machine_ended(end))?;
    add_source(pieces, teller, "", title)
}

fn add_unknown<'a>(pieces: &mut Vec<Piece<'a>>, title: &'a [u8]) -> Result<(), AllocError>
    ensures { OnOk result (parts pieces.new.items ≡ parts pieces.old.items ++ unknown_parts title.entry.now) }
{
    add(
        pieces,
        &[
            Piece::Own("no death: no record tells of the kernel\n  image      "),
            Piece::Foreign(title),
            Piece::Own("\n"),
        ],
    )
}

/// Adds how the log ends, if no record tells why the machine died.
fn add_no_death<'a>(
    pieces: &mut Vec<Piece<'a>>,
    title: &'a [u8],
    end: Option<End<'a>>,
) -> Result<(), AllocError>
    ensures { OnOk result (parts pieces.new.items
        ≡ parts pieces.old.items ++ unless_ended title.entry.now (end_in end.entry)) }
{
    match end {
        Some(end) => add_end(pieces, title, &end),
        None => add_unknown(pieces, title),
    }
}

/// Adds why the machine died, or how the log ends, with what is known of it.
pub fn add_first<'a>(
    pieces: &mut Vec<Piece<'a>>,
    title: &'a [u8],
    signature: &'a [u8],
    records: &'a [RecordReport],
    told: Option<Telling<'a>>,
) -> Result<(), AllocError>
    ensures { OnOk result (parts pieces.new.items ≡ parts pieces.old.items
        ++ first_parts title.entry.now signature.entry.now records.entry.now (told_in told.entry)) }
{
    match told {
        Some(told) => add_death(
            pieces,
            title,
            signature,
            &told,
            newest_dump(records),
            console(records),
        ),
        None => add_no_death(pieces, title, end_told(records)),
    }
}
