// Why the machine died: the line that tells it, what is known of it, and the lines around it.
ghost use Rattle.std.specs.Prelude.{◌≡◌, ◌++◌, length, OnOk};
ghost use Rattle.zone_spec.specs.Parts.{AreBytes};
ghost use Rattle.std.specs.Option.{option_copied};
ghost use Rattle.prz_read.specs.Saving.{saved};
ghost use Rattle.region_report.specs.Tellers.{as_told, told_in};
ghost use Rattle.report_html.specs.Pieces.{parts};
ghost use Rattle.report_html.specs.Died.{second_parts, said_parts, why_parts, fact_parts};
ghost use Rattle.report_html.specs.Died.{context_parts, log_parts};
ghost use Rattle.report_html.specs.Died.{marked_parts, rest_parts, rest_end, excerpt_parts, folded_parts, before_folded};
ghost use Rattle.report_html.specs.Died.{after_folded, shown_opening, around_parts, shared_words, console_words};
ghost use Rattle.report_html.specs.Died.{mended_parts, teller_parts, death_parts, died_parts};
ghost use Rattle.report_html.specs.Escaping.{AreDeathBytes, AllTellBytes};

use crate::before::add_before;
use crate::ended::{add_end, add_ended};
use crate::facts::{add_bytes, add_machine, add_up, add_when};
use crate::listed::is_console;
use crate::pieces::{Piece, add};
use crate::reads::add_read;
use crate::words::{NO_CPU, NO_FUNCTION, READ, TOLD};
use death::part;
use death_spec::{Death, Line, Span};
use outside::Bytes;
use prz_read::Logs;
use region_report::{
    Mended, RecordReport, Telling, below, console, death_time, doubts_between, end_told,
    has_telling_line, machine_told, newest_dump, place_above, uptime,
};
use std::alloc::AllocError;
use zone_spec::Name;

/// The lines that are shown above the telling line.
const ABOVE: usize = 8;

/// The lines that are shown below the last line that tells.
const BELOW: usize = 16;

fn add_second<'a>(
    pieces: &mut Vec<Piece<'a>>,
    text: &'a [u8],
    second: Option<Line>,
) -> Result<(), AllocError>
    ensures { OnOk result (parts pieces.new.items ≡ parts pieces.old.items ++ second_parts text.entry.now second) }
{
    match second {
        Some(line) => add(
            pieces,
            &[
                Piece::Own("\n"),
                Piece::Foreign(part(text, line.text, line.end)),
            ],
        ),
        None => Ok(()),
    }
}

/// Adds what the telling line says, and the panic below it.
fn add_said<'a>(pieces: &mut Vec<Piece<'a>>, text: &'a [u8], death: Death) -> Result<(), AllocError>
    ensures { OnOk result (parts pieces.new.items ≡ parts pieces.old.items ++ said_parts text.entry.now death) }
{
    add(
        pieces,
        &[
            Piece::Own("<pre class=\"why\">"),
            Piece::Foreign(part(text, death.telling.text, death.telling.end)),
        ],
    )?;
    add_second(pieces, text, death.second)?;
    add(pieces, &[Piece::Own("</pre>\n")])?;
    Ok(())
}

/// Adds what a record tells, or how the log ends.
pub fn add_why<'a>(
    pieces: &mut Vec<Piece<'a>>,
    records: &[RecordReport],
    told: Option<Telling<'a>>,
) -> Result<(), AllocError>
    ensures { OnOk result (parts pieces.new.items
        ≡ parts pieces.old.items ++ why_parts records.now (told_in told.entry)) }
{
    match told {
        Some(told) => {
            let teller: &'a RecordReport = told.teller;
            add_said(pieces, teller.readable(), told.death)
        }
        None => add_ended(pieces, end_told(records)),
    }
}

/// Adds a row of the table, or what stands in its place if there is no such part.
fn add_fact<'a>(
    pieces: &mut Vec<Piece<'a>>,
    label: &'static str,
    missing: &'static str,
    text: &'a [u8],
    span: Option<Span>,
) -> Result<(), AllocError>
    ensures { OnOk result (parts pieces.new.items
        ≡ parts pieces.old.items ++ fact_parts label.entry.now missing.entry.now text.entry.now span) }
{
    match span {
        Some(span) => add(
            pieces,
            &[
                Piece::Own("<tr><th scope=\"row\">"),
                Piece::Own(label),
                Piece::Own("</th><td>"),
                Piece::Foreign(part(text, span.start, span.end)),
                Piece::Own("</td></tr>\n"),
            ],
        ),
        None => add(pieces, &[Piece::Own(missing)]),
    }
}

/// Adds what the report below the telling line names.
fn add_context<'a>(
    pieces: &mut Vec<Piece<'a>>,
    text: &'a [u8],
    death: Death,
) -> Result<(), AllocError>
    ensures { OnOk result (parts pieces.new.items ≡ parts pieces.old.items ++ context_parts text.entry.now death) }
{
    add_fact(pieces, "CPU", NO_CPU, text, death.cpu)?;
    add_fact(pieces, "Task", "", text, death.task)?;
    add_fact(pieces, "Kernel", "", text, death.kernel)?;
    add_fact(pieces, "Function", NO_FUNCTION, text, death.function)
}

fn add_marked<'a>(
    pieces: &mut Vec<Piece<'a>>,
    doubts: &'a [bool],
    text: &'a [u8],
    line: Line,
) -> Result<(), AllocError>
    ensures { OnOk result (parts pieces.new.items
        ≡ parts pieces.old.items ++ marked_parts doubts.entry.now text.entry.now line) }
{
    add(
        pieces,
        &[
            Piece::Own("<mark>"),
            Piece::Log(
                doubts_between(doubts, line.start, line.next),
                part(text, line.start, line.next),
            ),
            Piece::Own("</mark>"),
        ],
    )
}

fn add_log<'a>(
    pieces: &mut Vec<Piece<'a>>,
    doubts: &'a [bool],
    text: &'a [u8],
    from: usize,
    to: usize,
) -> Result<(), AllocError>
    ensures { OnOk result (parts pieces.new.items
        ≡ parts pieces.old.items ++ log_parts doubts.entry.now text.entry.now from to) }
{
    add(
        pieces,
        &[Piece::Log(doubts_between(doubts, from, to), part(text, from, to))],
    )
}

/// Adds the lines below the telling line.
fn add_rest<'a>(
    pieces: &mut Vec<Piece<'a>>,
    doubts: &'a [bool],
    text: &'a [u8],
    at: usize,
    second: Option<Line>,
) -> Result<(), AllocError>
    ensures { OnOk result (parts pieces.new.items
        ≡ parts pieces.old.items ++ rest_parts doubts.entry.now text.entry.now at second) }
{
    match second {
        Some(line) => {
            add_log(pieces, doubts, text, at, line.start)?;
            add_marked(pieces, doubts, text, line)?;
            let end = below(text, line.next, BELOW);
            add_log(pieces, doubts, text, line.next, end)
        }
        None => add_log(pieces, doubts, text, at, below(text, at, BELOW)),
    }
}

/// Where the lines end that are shown below the telling line.
fn rest_end(text: &[u8], at: usize, second: Option<Line>) -> usize
    ensures { result ≡ rest_end text.now at second }
{
    match second {
        Some(line) => below(text, line.next, BELOW),
        None => below(text, at, BELOW),
    }
}

/// Adds the lines around those that tell.
fn add_excerpt<'a>(
    pieces: &mut Vec<Piece<'a>>,
    doubts: &'a [bool],
    text: &'a [u8],
    death: Death,
) -> Result<(), AllocError>
    ensures { OnOk result (parts pieces.new.items
        ≡ parts pieces.old.items ++ excerpt_parts doubts.entry.now text.entry.now death) }
{
    let telling = death.telling;
    let from = place_above(text, telling.start, ABOVE);
    add_log(pieces, doubts, text, from, telling.start)?;
    add_marked(pieces, doubts, text, telling)?;
    add_rest(pieces, doubts, text, telling.next, death.second)
}

/// Adds lines that are folded, if there are any.
fn add_folded<'a>(
    pieces: &mut Vec<Piece<'a>>,
    words: &'static str,
    doubts: &'a [bool],
    bytes: &'a [u8],
) -> Result<(), AllocError>
    ensures { OnOk result (parts pieces.new.items
        ≡ parts pieces.old.items ++ folded_parts words.entry.now doubts.entry.now bytes.entry.now) }
{
    if bytes.is_empty() {
        return Ok(());
    }
    add(
        pieces,
        &[
            Piece::Own("<details>\n<summary>"),
            Piece::Own(words),
            Piece::Own("</summary>\n<pre class=\"log\">\n"),
            Piece::Log(doubts, bytes),
            Piece::Own("</pre>\n</details>\n"),
        ],
    )
}

fn add_front<'a>(
    pieces: &mut Vec<Piece<'a>>,
    doubts: &'a [bool],
    text: &'a [u8],
    to: usize,
) -> Result<(), AllocError>
    ensures { OnOk result (parts pieces.new.items
        ≡ parts pieces.old.items ++ before_folded doubts.entry.now text.entry.now to) }
{
    let (doubts, front) = (doubts_between(doubts, 0, to), part(text, 0, to));
    add_folded(pieces, "Lines before", doubts, front)
}

fn add_back<'a>(
    pieces: &mut Vec<Piece<'a>>,
    doubts: &'a [bool],
    text: &'a [u8],
    from: usize,
) -> Result<(), AllocError>
    ensures { OnOk result (parts pieces.new.items
        ≡ parts pieces.old.items ++ after_folded doubts.entry.now text.entry.now from) }
{
    let end = text.len();
    let (doubts, back) = (doubts_between(doubts, from, end), part(text, from, end));
    add_folded(pieces, "Lines after", doubts, back)
}

/// Begins the lines that are not folded.
fn add_shown_opening(pieces: &mut Vec<Piece<'_>>, name: Name) -> Result<(), AllocError>
    ensures { OnOk result (parts pieces.new.items ≡ parts pieces.old.items ++ shown_opening name) }
{
    add(
        pieces,
        &[
            Piece::Own("<pre class=\"log\" id=\""),
            Piece::Named(name),
            Piece::Own("\">\n"),
        ],
    )
}

/// Adds all lines of the record that tells: those around the telling line, and those before and after, folded.
fn add_around<'a>(
    pieces: &mut Vec<Piece<'a>>,
    name: Name,
    doubts: &'a [bool],
    text: &'a [u8],
    death: Death,
) -> Result<(), AllocError>
    ensures bytes { OnOk result (AreBytes text.entry.now) }
    ensures parts { OnOk result (parts pieces.new.items
        ≡ parts pieces.old.items ++ around_parts name doubts.entry.now text.entry.now death) }
{
    let from = place_above(text, death.telling.start, ABOVE);
    let to = rest_end(text, death.telling.next, death.second);
    add_front(pieces, doubts, text, from)?;
    add_shown_opening(pieces, name)?;
    add_excerpt(pieces, doubts, text, death)?;
    add(pieces, &[Piece::Own("</pre>\n")])?;
    add_back(pieces, doubts, text, to)?;
    Ok(())
}

fn shared_text(is_shared: bool) -> &'static str
    ensures { result.now ≡ shared_words is_shared }
{
    if is_shared {
        "\nthe console has the same line"
    } else {
        "\nthe console lacks this line: it can be of another boot"
    }
}

/// Whether the console has the telling line too.
fn console_text(told: &Telling<'_>, console: Option<&RecordReport>) -> &'static str
    ensures { result.now ≡ console_words (as_told told.now) (option_copied console.entry) }
{
    let Some(console) = console else {
        return "";
    };
    let teller: &RecordReport = told.teller;
    if is_console(teller.name) {
        return "";
    }
    shared_text(has_telling_line(console, told))
}

/// Adds by which record a text is mended.
fn add_mended(pieces: &mut Vec<Piece<'_>>, mended: Option<&Mended<Bytes>>) -> Result<(), AllocError>
    ensures { OnOk result (parts pieces.new.items
        ≡ parts pieces.old.items ++ mended_parts (option_copied mended.entry)) }
{
    match mended {
        Some(mended) => add(
            pieces,
            &[
                Piece::Own(", with bytes of "),
                Piece::Link(mended.by),
                Piece::Own(" where its own are bad"),
            ],
        ),
        None => Ok(()),
    }
}

/// Adds which record tells, by which it is mended, these words, and how it read.
fn add_teller(
    pieces: &mut Vec<Piece<'_>>,
    logs: &Logs,
    name: Name,
    mended: Option<&Mended<Bytes>>,
    words: &'static str,
) -> Result<(), AllocError>
    ensures { OnOk result (parts pieces.new.items ≡ parts pieces.old.items
        ++ teller_parts (saved logs.now) name (option_copied mended.entry) words.entry.now) }
{
    add(
        pieces,
        &[
            Piece::Own("<tr><th scope=\"row\">Told by</th><td>"),
            Piece::Link(name),
        ],
    )?;
    add_mended(pieces, mended)?;
    add(pieces, &[Piece::Own(words), Piece::Own(READ)])?;
    add_read(pieces, logs, name)?;
    add(
        pieces,
        &[Piece::Own(TOLD), Piece::Named(name), Piece::Own("</h2>\n")],
    )?;
    Ok(())
}

fn add_death<'a>(
    pieces: &mut Vec<Piece<'a>>,
    signature: &'a [u8],
    logs: &Logs,
    told: &Telling<'a>,
    records: &'a [RecordReport],
) -> Result<(), AllocError>
    ensures bytes { OnOk result (AreDeathBytes signature.entry.now records.entry.now (as_told told.now)) }
    ensures parts { OnOk result (parts pieces.new.items ≡ parts pieces.old.items
        ++ death_parts signature.entry.now (saved logs.now) records.entry.now (as_told told.now)) }
{
    let teller: &'a RecordReport = told.teller;
    let text = teller.readable();
    add_when(pieces, death_time(told, newest_dump(records)))?;
    add_up(pieces, uptime(text, told.death.telling))?;
    add_context(pieces, text, told.death)?;
    add_bytes(pieces, "Signature", signature)?;
    add_machine(pieces, machine_told(told, console(records)))?;
    add_before(pieces, teller.name, records)?;
    let words = console_text(told, console(records));
    add_teller(pieces, logs, teller.name, teller.mended.as_ref(), words)?;
    add_around(
        pieces,
        teller.name,
        teller.doubts.as_slice(),
        text,
        told.death,
    )?;
    Ok(())
}

/// Adds what is known of the death that one of these records tells, and the lines around it; or of the log's end.
pub fn add_died<'a>(
    pieces: &mut Vec<Piece<'a>>,
    signature: &'a [u8],
    logs: &Logs,
    records: &'a [RecordReport],
    told: Option<Telling<'a>>,
) -> Result<(), AllocError>
    ensures tells { OnOk result (AllTellBytes signature.entry.now records.entry.now (told_in told.entry)) }
    ensures parts { OnOk result (parts pieces.new.items
        ≡ parts pieces.old.items
        ++ died_parts signature.entry.now (saved logs.now) records.entry.now (told_in told.entry)) }
{
    match told {
        Some(told) => add_death(pieces, signature, logs, &told, records),
        None => add_end(pieces, logs, end_told(records)),
    }
}
