// What is known of a death besides its line.
ghost use Rattle.std.specs.Prelude.{◌≡◌, ◌++◌, length, nat_lt, if◌then◌else◌, codes, OnOk};
ghost use Rattle.std.specs.Option.{option_copied};
ghost use Rattle.region_report.specs.Machines.{as_machine};
ghost use Rattle.report_text.specs.Pieces.{parts};
ghost use Rattle.report_text.specs.Facts.{fact_parts, next_words, function_parts, when_parts, up_parts};
ghost use Rattle.report_text.specs.Facts.{named_parts, bytes_fact, machine_parts};
ghost use Rattle.report_text.specs.Facts.{packing_words, mended_parts, name_parts, teller_parts, image_parts};
ghost use Rattle.report_text.specs.Facts.{source_parts};

use crate::pieces::{Piece, add};
use death::part;
use death_spec::{Death, Span};
use outside::Bytes;
use region_report::{Machine, Mended, Packing, RecordReport, seconds};
use std::alloc::AllocError;
use zone_spec::Time;

/// How many bytes of a fact are shown.
const MOST: usize = 160;

fn add_fact<'a>(
    pieces: &mut Vec<Piece<'a>>,
    label: &'static str,
    text: &'a [u8],
    span: Option<Span>,
) -> Result<(), AllocError>
    ensures { OnOk result (parts pieces.new.items
        ≡ parts pieces.old.items ++ fact_parts label.entry.now text.entry.now span) }
{
    match span {
        Some(span) => add(
            pieces,
            &[
                Piece::Own(label),
                Piece::Foreign(part(text, span.start, span.end)),
                Piece::Own("\n"),
            ],
        ),
        None => Ok(()),
    }
}

fn next_text(is_next: bool) -> &'static str
    ensures { result.now ≡ next_words is_next }
{
    if is_next {
        " (mostly the function just before it)\n"
    } else {
        "\n"
    }
}

/// Adds the function that the report below the telling line names.
pub fn add_function<'a>(
    pieces: &mut Vec<Piece<'a>>,
    text: &'a [u8],
    is_next: bool,
    span: Option<Span>,
) -> Result<(), AllocError>
    ensures { OnOk result (parts pieces.new.items
        ≡ parts pieces.old.items ++ function_parts text.entry.now is_next span) }
{
    match span {
        Some(span) => add(
            pieces,
            &[
                Piece::Own("  in         "),
                Piece::Foreign(part(text, span.start, span.end)),
                Piece::Own(next_text(is_next)),
            ],
        ),
        None => Ok(()),
    }
}

/// Adds the time of the record that tells.
pub fn add_when(pieces: &mut Vec<Piece<'_>>, time: Option<Time>) -> Result<(), AllocError>
    ensures { OnOk result (parts pieces.new.items ≡ parts pieces.old.items ++ when_parts time) }
{
    match time {
        Some(time) => add(
            pieces,
            &[
                Piece::Own("  when       "),
                Piece::Moment(time),
                Piece::Own("\n"),
            ],
        ),
        None => Ok(()),
    }
}

/// Adds how long the machine had been up.
pub fn add_up<'a>(pieces: &mut Vec<Piece<'a>>, uptime: &'a [u8]) -> Result<(), AllocError>
    ensures { OnOk result (parts pieces.new.items ≡ parts pieces.old.items ++ up_parts uptime.entry.now) }
{
    if uptime.is_empty() {
        return Ok(());
    }
    add(
        pieces,
        &[
            Piece::Own("  up         "),
            Piece::Foreign(uptime),
            Piece::Own(" s"),
            Piece::Long(seconds(uptime)),
            Piece::Own("\n"),
        ],
    )
}

/// Adds what else that report names.
pub fn add_named<'a>(
    pieces: &mut Vec<Piece<'a>>,
    text: &'a [u8],
    death: Death,
) -> Result<(), AllocError>
    ensures { OnOk result (parts pieces.new.items ≡ parts pieces.old.items ++ named_parts text.entry.now death) }
{
    add_fact(pieces, "  task       ", text, death.task)?;
    add_fact(pieces, "  cpu        ", text, death.cpu)?;
    add_fact(pieces, "  kernel     ", text, death.kernel)
}

fn end_text(bytes: &[u8]) -> &'static str
    ensures { result.now ≡ (if nat_lt 160 (length bytes.now) then codes " ..\n" else codes "\n") }
{
    if bytes.len() > MOST { " ..\n" } else { "\n" }
}

/// Adds a fact of bytes, unless there are none.
pub fn add_bytes<'a>(
    pieces: &mut Vec<Piece<'a>>,
    label: &'static str,
    bytes: &'a [u8],
) -> Result<(), AllocError>
    ensures { OnOk result (parts pieces.new.items
        ≡ parts pieces.old.items ++ bytes_fact label.entry.now bytes.entry.now) }
{
    if bytes.is_empty() {
        return Ok(());
    }
    add(
        pieces,
        &[
            Piece::Own(label),
            Piece::Foreign(part(bytes, 0, MOST)),
            Piece::Own(end_text(bytes)),
        ],
    )
}

/// Adds what the log says of the machine.
pub fn add_machine<'a>(pieces: &mut Vec<Piece<'a>>, machine: Machine<'a>) -> Result<(), AllocError>
    ensures { OnOk result (parts pieces.new.items
        ≡ parts pieces.old.items ++ machine_parts (as_machine machine.entry)) }
{
    add_bytes(pieces, "  hardware   ", machine.hardware)?;
    add_bytes(pieces, "  modules    ", machine.modules)?;
    add_bytes(pieces, "  version    ", machine.version)?;
    add_bytes(pieces, "  offset     ", machine.offset)?;
    add_bytes(pieces, "  cmdline    ", machine.cmdline)
}

fn packing_text(packing: &Packing<Bytes>) -> &'static str
    ensures { result.now ≡ packing_words packing.now }
{
    match packing {
        Packing::Plain => "",
        Packing::Whole { .. } => ", inflated",
        Packing::Part { .. } => ", inflated in part",
    }
}

/// Adds by which record a text is mended.
fn add_mended(pieces: &mut Vec<Piece<'_>>, mended: Option<&Mended<Bytes>>) -> Result<(), AllocError>
    ensures { OnOk result (parts pieces.new.items
        ≡ parts pieces.old.items ++ mended_parts (option_copied mended.entry)) }
{
    match mended {
        Some(mended) => add(
            pieces,
            &[
                Piece::Own(", with bytes of "),
                Piece::Named(mended.by),
                Piece::Own(" where its own are bad"),
            ],
        ),
        None => Ok(()),
    }
}

/// Adds the name of the record that tells, and whether it was packed.
fn add_name(pieces: &mut Vec<Piece<'_>>, entry: &RecordReport) -> Result<(), AllocError>
    ensures { OnOk result (parts pieces.new.items ≡ parts pieces.old.items ++ name_parts entry.now) }
{
    add(
        pieces,
        &[
            Piece::Own("  told by    "),
            Piece::Named(entry.name),
            Piece::Own(packing_text(&entry.packing)),
        ],
    )
}

/// Adds the record that tells.
fn add_teller(pieces: &mut Vec<Piece<'_>>, entry: &RecordReport) -> Result<(), AllocError>
    ensures { OnOk result (parts pieces.new.items ≡ parts pieces.old.items ++ teller_parts entry.now) }
{
    add_name(pieces, entry)?;
    add_mended(pieces, entry.mended.as_ref())
}

/// Adds words on the record that tells, and the image.
fn add_image<'a>(
    pieces: &mut Vec<Piece<'a>>,
    words: &'static str,
    title: &'a [u8],
) -> Result<(), AllocError>
    ensures { OnOk result (parts pieces.new.items
        ≡ parts pieces.old.items ++ image_parts words.entry.now title.entry.now) }
{
    add(
        pieces,
        &[
            Piece::Own(words),
            Piece::Own("\n  image      "),
            Piece::Foreign(title),
            Piece::Own("\n"),
        ],
    )
}

/// Adds the record that tells, with these words, and the image.
pub fn add_source<'a>(
    pieces: &mut Vec<Piece<'a>>,
    entry: &RecordReport,
    words: &'static str,
    title: &'a [u8],
) -> Result<(), AllocError>
    ensures { OnOk result (parts pieces.new.items
        ≡ parts pieces.old.items ++ source_parts entry.now words.entry.now title.entry.now) }
{
    add_teller(pieces, entry)?;
    add_image(pieces, words, title)
}
