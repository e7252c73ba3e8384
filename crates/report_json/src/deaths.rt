// Why the machine died, put onto a line.
ghost use Rattle.std.specs.Prelude.{◌≡◌, ◌∷◌, map, codes, OnOk};
ghost use Rattle.std.specs.Option.{option_copied};
ghost use Rattle.json.specs.Token.{key};
ghost use Rattle.report_spec.specs.Facts.{uptime_of};
ghost use Rattle.region_report.specs.Tellers.{as_told, told_in};
ghost use Rattle.report_json.specs.Schema.{span_data, named_data, said_data, second_data, trace_data};
ghost use Rattle.report_json.specs.Schema.{bytes_data, mended_data, death_with, told_data, death_data};
ghost use Rattle.report_json.specs.Tokens.{onto, all_onto};

use crate::records::{put_front, put_name, utf8_front};
use crate::tokens::Line;
use death::{part, trace};
use death_spec::{Death, Line as LogLine, Span};
use outside::Bytes;
use region_report::{Mended, Origin, RecordReport, Telling, uptime};
use std::alloc::{AllocError, Global};
use zone_spec::Name;

fn put_named(line: &mut Line, name: &str, text: &[u8], span: Option<Span>) -> Result<(), AllocError>
    ensures { OnOk result (line.new ≡ onto (named_data text.now span) (key name.now ∷ line.old)) }
{
    match span {
        Some(span) => put_front(line, name, part(text, span.start, span.end)),
        None => line.none(name),
    }
}

/// A member that is what a line of a log says.
pub fn put_said(line: &mut Line, name: &str, text: &[u8], said: LogLine) -> Result<(), AllocError>
    ensures { OnOk result (line.new ≡ onto (said_data text.now said) (key name.now ∷ line.old)) }
{
    put_front(line, name, part(text, said.text, said.end))
}

fn put_second(line: &mut Line, text: &[u8], second: Option<LogLine>) -> Result<(), AllocError>
    ensures { OnOk result (line.new ≡ onto (second_data text.now second) (key (codes "second") ∷ line.old)) }
{
    match second {
        Some(second) => put_said(line, "second", text, second),
        None => line.none("second"),
    }
}

fn put_spans(line: &mut Line, text: &[u8], spans: &[Span]) -> Result<(), AllocError>
    ensures { OnOk result (line.new ≡ all_onto (map (span_data text.now) spans.now) line.old) }
{
    for span in spans {
        line.string(utf8_front(part(text, span.start, span.end)))?;
    }
    Ok(())
}

/// The functions of the call trace.
#[tactic(auto, using(crate::proofs::Onto::arrays))]
fn put_trace(alloc: Global, line: &mut Line, text: &[u8]) -> Result<(), AllocError>
    ensures { OnOk result (line.new ≡ onto (trace_data text.now) (key (codes "trace") ∷ line.old)) }
{
    let spans = trace(alloc, text)?;
    line.key("trace")?;
    line.begin_array()?;
    put_spans(line, text, spans.as_slice())?;
    line.end_array()
}

/// A member that is bytes as far as they are UTF-8, or null if there are none.
pub fn put_bytes(line: &mut Line, name: &str, bytes: &[u8]) -> Result<(), AllocError>
    ensures { OnOk result (line.new ≡ onto (bytes_data bytes.now) (key name.now ∷ line.old)) }
{
    if bytes.is_empty() {
        return line.none(name);
    }
    put_front(line, name, bytes)
}

fn put_uptime(line: &mut Line, text: &[u8], telling: LogLine) -> Result<(), AllocError>
    ensures { OnOk result (line.new ≡ onto (bytes_data (uptime_of text.now telling)) (key (codes "uptime") ∷ line.old)) }
{
    put_bytes(line, "uptime", uptime(text, telling))
}

fn put_mended(
    line: &mut Line,
    origin: Origin,
    mended: Option<&Mended<Bytes>>,
) -> Result<(), AllocError>
    ensures { OnOk result (line.new
        ≡ onto (mended_data origin (option_copied mended.entry)) (key (codes "mended_by") ∷ line.old)) }
{
    match mended {
        Some(mended) => put_name(line, "mended_by", origin, mended.by),
        None => line.none("mended_by"),
    }
}

fn put_told(
    alloc: Global,
    line: &mut Line,
    origin: Origin,
    text: &[u8],
    name: Name,
    mended: Option<&Mended<Bytes>>,
    death: Death,
) -> Result<(), AllocError>
    ensures { OnOk result (line.new ≡ onto (death_with origin text.now name
        (mended_data origin (option_copied mended.entry)) death (trace_data text.now)) line.old) }
{
    line.begin_object()?;
    put_named(line, "cpu", text, death.cpu)?;
    put_named(line, "function", text, death.function)?;
    line.flag("is_next", death.is_next)?;
    put_named(line, "kernel", text, death.kernel)?;
    put_said(line, "line", text, death.telling)?;
    put_mended(line, origin, mended)?;
    put_name(line, "record", origin, name)?;
    put_second(line, text, death.second)?;
    put_named(line, "task", text, death.task)?;
    put_trace(alloc, line, text)?;
    put_uptime(line, text, death.telling)?;
    line.end_object()
}

fn put_telling(
    alloc: Global,
    line: &mut Line,
    origin: Origin,
    told: &Telling<'_>,
) -> Result<(), AllocError>
    ensures { OnOk result (line.new ≡ onto (told_data origin (as_told told.now)) line.old) }
{
    let teller: &RecordReport = told.teller;
    put_told(
        alloc,
        line,
        origin,
        teller.readable(),
        teller.name,
        teller.mended.as_ref(),
        told.death,
    )
}

/// Why the machine died, as one of the records tells it, or null. Text that is no UTF-8 is cut before the first byte
/// that isn't.
pub fn put_death(
    alloc: Global,
    line: &mut Line,
    origin: Origin,
    told: Option<Telling<'_>>,
) -> Result<(), AllocError>
    ensures { OnOk result (line.new ≡ onto (death_data origin (told_in told.entry)) (key (codes "death") ∷ line.old)) }
{
    line.key("death")?;
    match told {
        Some(told) => put_telling(alloc, line, origin, &told),
        None => line.null(),
    }
}
