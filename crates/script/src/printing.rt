// Lines, printed.
ghost use Rattle.std.specs.Prelude.{◌≡◌, ◌++◌, ◌∷◌, [], decimal, IfOk, OnOk, Ok};
ghost use Rattle.grammar_spec.specs.Lines.{script_of};
ghost use Rattle.grammar_spec.specs.Printed.{AllHaveFields, PrintedIsRead, zone_text, payload_text, flag_text};
ghost use Rattle.grammar_spec.specs.Printed.{reason_text, line_text, script_text};
ghost use Rattle.script.specs.Writing.{word_text, tail_text};

use crate::{Line, Lines};
use itoa::Buffer;
use outside::Bytes;
use std::alloc::{AllocError, Global};
use zone_spec::{Kind, Time, ZoneName};

fn put_field(out: &mut Vec<u8>, text: &[u8]) -> Result<(), AllocError>
    ensures { OnOk result (out.new.items ≡ out.old.items ++ 0x20 ∷ text.now) }
{
    out.push(b' ')?;
    out.extend_from_slice(text)
}

fn put_number(out: &mut Vec<u8>, number: u64) -> Result<(), AllocError>
    ensures { OnOk result (out.new.items ≡ out.old.items ++ 0x20 ∷ decimal number) }
{
    let mut buffer = Buffer::new();
    put_field(out, buffer.format(number).as_bytes())
}

fn put_index(out: &mut Vec<u8>, kind: &[u8], index: u32) -> Result<(), AllocError>
    ensures { OnOk result (out.new.items ≡ out.old.items ++ 0x20 ∷ (kind.now ++ decimal index)) }
{
    put_field(out, kind)?;
    let mut buffer = Buffer::new();
    out.extend_from_slice(buffer.format(index).as_bytes())
}

fn put_zone(out: &mut Vec<u8>, zone: ZoneName) -> Result<(), AllocError>
    ensures { OnOk result (out.new.items ≡ out.old.items ++ 0x20 ∷ zone_text zone) }
{
    match zone.kind {
        Kind::Console => put_field(out, b"console"),
        Kind::Pmsg => put_field(out, b"pmsg"),
        Kind::Ftrace => put_index(out, b"ftrace-", zone.index),
        Kind::Dump => put_index(out, b"dump-", zone.index),
    }
}

fn put_payload(out: &mut Vec<u8>, alloc: Global, bytes: &[u8]) -> Result<(), AllocError>
    ensures { OnOk result (out.new.items ≡ out.old.items ++ 0x20 ∷ payload_text bytes.now) }
{
    if bytes.is_empty() {
        return put_field(out, b"-");
    }
    let digits = hex::encode(alloc, bytes)?;
    put_field(out, digits.as_bytes())
}

fn flag(packed: bool) -> &'static [u8]
    ensures { result.now ≡ flag_text packed }
{
    if packed { b"C" } else { b"D" }
}

fn reason(number: u32) -> &'static [u8]
    ensures { result.now ≡ reason_text number }
{
    match number {
        1 => b"Panic",
        2 => b"Oops",
        3 => b"Emergency",
        _ => b"Shutdown",
    }
}

// The word of a line, and what stands before its fields.
fn word(line: &Line) -> &'static [u8]
    ensures { result.now ≡ word_text line.now }
{
    match line {
        Line::Blank => b"",
        Line::Write(..) => b"write",
        Line::Dump(..) => b"dump",
        Line::BeginWrite(..) => b"begin write",
        Line::BeginErase(..) => b"begin erase",
        Line::BeginDump(..) => b"begin dump",
        Line::Step(..) => b"step",
        Line::Finish(..) => b"finish",
        Line::Stop => b"stop",
        Line::Flip(..) => b"flip",
        Line::Boot | Line::BootPart(..) => b"boot",
        Line::List => b"list",
        Line::Extract(..) => b"extract",
        Line::Erase(..) => b"erase",
        Line::KDump(..) => b"kdump",
        Line::CutAfter(..) => b"cut",
        Line::KMsg(..) => b"kmsg",
        Line::Crash(..) => b"crash",
        Line::Reserve(..) => b"reserve",
        Line::StoreNext(..) => b"store",
    }
}

fn put_dump(
    out: &mut Vec<u8>,
    alloc: Global,
    time: Time,
    packed: bool,
    bytes: &[u8],
) -> Result<(), AllocError>
    ensures { OnOk result (out.new.items ≡ out.old.items
        ++ (0x20 ∷ decimal time.secs) ++ (0x20 ∷ decimal time.micros)
        ++ (0x20 ∷ flag_text packed) ++ (0x20 ∷ payload_text bytes.now)) }
{
    put_number(out, time.secs)?;
    put_number(out, u64::from(time.micros))?;
    put_field(out, flag(packed))?;
    put_payload(out, alloc, bytes)
}

fn put_tail(out: &mut Vec<u8>, alloc: Global, line: &Line) -> Result<(), AllocError>
    ensures { OnOk result (out.new.items ≡ out.old.items ++ tail_text line.now) }
{
    match line {
        Line::Blank | Line::Stop | Line::Boot | Line::List => Ok(()),
        Line::Write(zone, bytes) | Line::BeginWrite(zone, bytes) => {
            put_zone(out, *zone)?;
            put_payload(out, alloc, bytes.as_slice())
        }
        Line::Dump(time, packed, bytes) | Line::BeginDump(time, packed, bytes) => {
            put_dump(out, alloc, *time, *packed, bytes.as_slice())
        }
        Line::BeginErase(zone) | Line::Finish(zone) => put_zone(out, *zone),
        Line::Step(zone, stores) => {
            put_zone(out, *zone)?;
            put_number(out, u64::from(*stores))
        }
        Line::Flip(place, mask) => {
            put_number(out, u64::from(*place))?;
            put_number(out, u64::from(*mask))
        }
        Line::BootPart(number) | Line::CutAfter(number) => put_number(out, u64::from(*number)),
        Line::Extract(name) | Line::Erase(name) => put_field(out, name.as_slice()),
        Line::KDump(secs, nanos, packed, number, body) => {
            put_number(out, *secs)?;
            put_number(out, u64::from(*nanos))?;
            put_field(out, flag(*packed))?;
            put_field(out, reason(*number))?;
            put_payload(out, alloc, body.as_slice())
        }
        Line::KMsg(bytes) | Line::Reserve(bytes) => put_payload(out, alloc, bytes.as_slice()),
        Line::Crash(number, time) => {
            put_field(out, reason(*number))?;
            put_number(out, time.secs)?;
            put_number(out, u64::from(time.micros))
        }
        Line::StoreNext(ticket, count) => {
            put_number(out, u64::from(*ticket))?;
            put_number(out, u64::from(*count))
        }
    }
}

fn put_line(out: &mut Vec<u8>, alloc: Global, line: &Line) -> Result<(), AllocError>
    ensures { OnOk result (out.new.items ≡ out.old.items ++ (line_text line.now ++ 0x0a ∷ [])) }
{
    out.extend_from_slice(word(line))?;
    put_tail(out, alloc, line)?;
    Ok(out.push(b'\n')?)
}

/// A line per item: a blank line as an empty one, payloads in lower case, no bytes as `-`.
pub fn print(alloc: Global, lines: &Lines) -> Result<Bytes, AllocError>
    requires { AllHaveFields lines.now }
    ensures text { IfOk result (λ text. text ≡ script_text lines.now) }
    ensures read { IfOk result (λ text. script_of text ≡ Ok lines.now) }
{
    let mut out = Vec::new(alloc);
    for line in lines.as_slice() {
        put_line(&mut out, alloc, line)?;
    }
    Ok(Bytes::from_vec(out))
}

/// What is printed is read as the lines that it was printed from, and as no others.
pub fn printed_is_read()
    ensures { PrintedIsRead }
{}
