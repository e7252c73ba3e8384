// The lines of entries.
ghost use Rattle.std.specs.Prelude.{◌≡◌, ◌++◌, ◌∷◌, [], ◌<◌, ◌≤◌, ◌+◌, ◌^◌, All, length, IfOk, OnOk};
ghost use Rattle.pmsg_spec.specs.declared.Entry.{Entry as EntryValue};
ghost use Rattle.pmsg_spec.specs.Payloads.{payload as payload_of};
ghost use Rattle.pmsg_spec.specs.Lines.{digit as digit_of, digit_or_blank as blank_or_digit, date_text as text_of_date};
ghost use Rattle.pmsg_spec.specs.Lines.{clock_text as text_of_clock, column_text, when_text, head_text, tabbed_byte};
ghost use Rattle.pmsg_spec.specs.Lines.{tabbed, line_by, line_text, lines_text};

use crate::calendar::date_of;
use crate::payloads::split_payload;
use pmsg_spec::{Date, Entry};
use std::alloc::{AllocError, Global};

/// A digit of a number: that of the units, the tens ..
pub fn digit(n: u32, units: u32) -> u8
    requires { 0 < units }
    ensures { result ≡ digit_of n units }
{
    b'0' + (n / units % 10) as u8
}

fn digit_or_blank(n: u32, units: u32) -> u8
    requires { 0 < units }
    ensures { result ≡ blank_or_digit n units }
{
    if n < units { b' ' } else { digit(n, units) }
}

/// A date such as `2025-11-27`.
#[tactic(auto, unfolding(pmsg_spec::specs::Lines::date_text))]
pub fn date_text(date: Date) -> [u8; 10]
    ensures { result ≡ text_of_date date }
{
    [
        digit(date.year, 1000),
        digit(date.year, 100),
        digit(date.year, 10),
        digit(date.year, 1),
        b'-',
        digit(date.month, 10),
        digit(date.month, 1),
        b'-',
        digit(date.day, 10),
        digit(date.day, 1),
    ]
}

/// The time of the day, of seconds of it and nanoseconds, to the millisecond, such as `00:04:18.836`.
#[tactic(auto, unfolding(pmsg_spec::specs::Lines::clock_text))]
pub fn clock_text(secs: u32, nanos: u32) -> [u8; 12]
    ensures { result ≡ text_of_clock secs nanos }
{
    let (hour, minute, second) = (secs / 3600, secs / 60 % 60, secs % 60);
    let milli = nanos / 1_000_000;
    [
        digit(hour, 10),
        digit(hour, 1),
        b':',
        digit(minute, 10),
        digit(minute, 1),
        b':',
        digit(second, 10),
        digit(second, 1),
        b'.',
        digit(milli, 100),
        digit(milli, 10),
        digit(milli, 1),
    ]
}

#[tactic(auto, unfolding(pmsg_spec::specs::Lines::column_text))]
fn number_text(n: u16) -> [u8; 5]
    ensures { result ≡ column_text n }
{
    let n = u32::from(n);
    [
        digit_or_blank(n, 10_000),
        digit_or_blank(n, 1000),
        digit_or_blank(n, 100),
        digit_or_blank(n, 10),
        digit(n, 1),
    ]
}

fn push(out: &mut Vec<u8>, bytes: &[u8]) -> Result<(), AllocError>
    ensures { OnOk result (out.new.items ≡ out.old.items ++ bytes.now) }
{
    out.extend_from_slice(bytes)
}

fn push_when(out: &mut Vec<u8>, entry: &Entry) -> Result<(), AllocError>
    ensures { OnOk result (out.new.items ≡ out.old.items ++ when_text entry.now) }
{
    push(out, &date_text(date_of(entry.secs / 86_400)))?;
    push(out, b" ")?;
    push(out, &clock_text(entry.secs % 86_400, entry.nanos))
}

fn push_head(out: &mut Vec<u8>, entry: &Entry, priority: u8) -> Result<(), AllocError>
    ensures { OnOk result (out.new.items ≡ out.old.items ++ head_text entry.now priority) }
{
    push_when(out, entry)?;
    push(out, b" ")?;
    push(out, &number_text(entry.pid))?;
    push(out, b" ")?;
    push(out, &number_text(entry.tid))?;
    push(out, &[b' ', priority, b' '])
}

fn push_tabbed_byte(out: &mut Vec<u8>, b: u8) -> Result<(), AllocError>
    ensures { OnOk result (out.new.items ≡ out.old.items ++ tabbed_byte b) }
{
    if b == b'\n' {
        push(out, b"\n\t")
    } else {
        push(out, &[b])
    }
}

fn push_tabbed(out: &mut Vec<u8>, bytes: &[u8]) -> Result<(), AllocError>
    ensures { OnOk result (out.new.items ≡ out.old.items ++ tabbed bytes.now) }
{
    for b in bytes {
        push_tabbed_byte(out, *b)?;
    }
    Ok(())
}

fn push_line(out: &mut Vec<u8>, entry: &Entry, payload: &[u8]) -> Result<(), AllocError>
    ensures { OnOk result (out.new.items ≡ out.old.items ++ line_by entry.now payload.now) }
{
    let message = split_payload(payload);
    push_head(out, entry, message.priority)?;
    push_tabbed(out, message.tag)?;
    push(out, b": ")?;
    push_tabbed(out, message.text)?;
    push(out, b"\n")
}

/// The payload of an entry, as far as the bytes have it.
pub fn payload<'a>(bytes: &'a [u8], entry: &Entry) -> &'a [u8]
    ensures { result.now ≡ payload_of bytes.entry.now entry.now }
{
    let end = entry.end.min(bytes.len());
    if entry.start < end {
        &bytes[entry.start..end]
    } else {
        &[]
    }
}

/// The lines of these entries of a pmsg's bytes, as `logcat -v threadtime` shows them, with the year, in UTC.
pub fn shown_lines(alloc: Global, bytes: &[u8], entries: &[Entry]) -> Result<Vec<u8>, AllocError>
    ensures { IfOk result (λ text. text.items ≡ lines_text bytes.now entries.now) }
{
    let mut out = Vec::new(alloc);
    for entry in entries {
        push_line(&mut out, entry, payload(bytes, entry))?;
    }
    Ok(out)
}
