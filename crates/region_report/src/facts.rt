// What is known of a death besides its line.
ghost use Rattle.std.specs.Prelude.{◌≡◌, ◌<◌, nat_eq, IfOk};
ghost use Rattle.std.specs.List.{starts_with};
ghost use Rattle.std.specs.Option.{option_copied};
ghost use Rattle.death_spec.specs.Lines.{lines_from};
ghost use Rattle.report_spec.specs.Said.{said_after as said_after_words};
ghost use Rattle.report_spec.specs.Facts.{or_bytes, machine_in, machine_or};
ghost use Rattle.report_spec.specs.Facts.{model_in, shared_text as text_shared, machine_of, machine_ended};
ghost use Rattle.report_spec.specs.Facts.{signature_told};
ghost use Rattle.region_report.specs.Machines.{as_machine};
ghost use Rattle.region_report.specs.Tellers.{as_told, told_in, as_ended};
ghost use Rattle.report_spec.specs.Facts.{trimmed as trimmed_of, uptime_of, is_digit as is_digit_byte};
ghost use Rattle.report_spec.specs.Facts.{with_digit as with_digit_byte, seconds_from};

use crate::deaths::{Telling, has_telling_line};
use crate::ends::End;
use crate::shown::RecordReport;
use death::{next_line, part, said, signature};
use death_spec::Line;
use std::alloc::{AllocError, Global};

/// What a log says of the machine; each is empty if the log does not say it.
#[derive(Clone, Copy)]
pub struct Machine<'a> {
    pub hardware: &'a [u8],
    pub modules: &'a [u8],
    pub cmdline: &'a [u8],
    pub version: &'a [u8],
    /// As `0x2ee00000 from 0xffffffff81000000`, or `disabled`.
    pub offset: &'a [u8],
}

#[tactic(auto, using(std::proofs::lemmas::Str::Ascii::trim_ascii_start_is))]
fn trimmed(bytes: &[u8]) -> &[u8]
    ensures { result.now ≡ trimmed_of bytes.now }
{
    bytes.trim_ascii_start()
}

/// The seconds since boot in a line's stamp; none if it has no stamp.
pub fn uptime(text: &[u8], line: Line) -> &[u8]
    ensures { result.now ≡ uptime_of text.now line }
{
    if line.stamp < line.caller {
        trimmed(part(text, line.stamp + 1, line.caller - 1))
    } else {
        &[]
    }
}

pub fn is_digit(b: u8) -> bool
    ensures { result ≡ is_digit_byte b }
{
    b'0' <= b && b <= b'9'
}

/// One digit more, of which the last twelve are kept.
pub fn with_digit(seconds: u64, b: u8) -> u64
    requires { seconds < 1_000_000_000_000 }
    ensures digit { result ≡ with_digit_byte seconds b }
    ensures few { result < 1_000_000_000_000 }
{
    (10 * seconds + u64::from(b.saturating_sub(b'0'))) % 1_000_000_000_000
}

/// The whole seconds in such bytes.
pub fn seconds(bytes: &[u8]) -> u64
    ensures { result ≡ seconds_from 0 bytes.now }
{
    let mut seconds = 0;
    let mut at = 0;
    'digits: while at < bytes.len() {
        let b = bytes[at];
        if !is_digit(b) {
            return seconds;
        }
        seconds = with_digit(seconds, b);
        at += 1;
    }
    seconds
}

fn begins(text: &[u8], words: &[u8]) -> bool
    ensures { result ≡ starts_with nat_eq text.now words.now }
{
    text.starts_with(words)
}

/// What follows these words in the first line from a place on in which the kernel says them.
pub fn said_after<'a>(text: &'a [u8], words: &[u8], at: usize) -> &'a [u8]
    ensures { result.now ≡ said_after_words text.entry.now words.now (lines_from text.entry.now at) }
{
    let mut place = at;
    'lines: while let Some(line) = next_line(text, place) {
        let says = said(text, line);
        if begins(says, words) {
            return part(says, words.len(), says.len());
        }
        place = line.next;
    }
    &[]
}

fn or_bytes<'a>(bytes: &'a [u8], other: &'a [u8]) -> &'a [u8]
    ensures { result.now ≡ or_bytes bytes.entry.now other.entry.now }
{
    if bytes.is_empty() { other } else { bytes }
}

// The machine's name by the lines of its boot.
fn model_in(text: &[u8]) -> &[u8]
    ensures { result.now ≡ model_in text.entry.now (lines_from text.entry.now 0) }
{
    or_bytes(
        said_after(text, b"Machine model: ", 0),
        or_bytes(
            said_after(text, b"OF: fdt: Machine model: ", 0),
            said_after(text, b"DMI: ", 0),
        ),
    )
}

fn machine_in(text: &[u8], at: usize) -> Machine<'_>
    ensures { as_machine result ≡ machine_in text.now at }
{
    Machine {
        hardware: or_bytes(said_after(text, b"Hardware name: ", at), model_in(text)),
        modules: said_after(text, b"Modules linked in: ", at),
        cmdline: or_bytes(
            said_after(text, b"Kernel command line: ", 0),
            said_after(text, b"Command line: ", 0),
        ),
        version: said_after(text, b"Linux version ", 0),
        offset: said_after(text, b"Kernel Offset: ", at),
    }
}

fn machine_or<'a>(machine: Machine<'a>, other: Machine<'a>) -> Machine<'a>
    ensures { as_machine result ≡ machine_or (as_machine machine.entry) (as_machine other.entry) }
{
    Machine {
        hardware: or_bytes(machine.hardware, other.hardware),
        modules: or_bytes(machine.modules, other.modules),
        cmdline: or_bytes(machine.cmdline, other.cmdline),
        version: or_bytes(machine.version, other.version),
        offset: or_bytes(machine.offset, other.offset),
    }
}

// The console's text, if it has the telling line too.
fn shared_text<'a>(told: &Telling<'a>, console: Option<&'a RecordReport>) -> &'a [u8]
    ensures { result.now ≡ text_shared (as_told told.now) (option_copied console.entry) }
{
    match console {
        Some(console) if has_telling_line(console, told) => console.readable(),
        _ => &[],
    }
}

/// What the record that tells says of the machine, and what it does not say, by the console of the same boot.
pub fn machine_told<'a>(told: &Telling<'a>, console: Option<&'a RecordReport>) -> Machine<'a>
    ensures { as_machine result ≡ machine_of (as_told told.now) (option_copied console.entry) }
{
    let teller: &'a RecordReport = told.teller;
    machine_or(
        machine_in(teller.readable(), told.death.telling.next),
        machine_in(shared_text(told, console), 0),
    )
}

/// What the record says of the machine that tells how a log ends without a death.
pub fn machine_ended<'a>(end: &End<'a>) -> Machine<'a>
    ensures { as_machine result ≡ machine_ended (as_ended end.now) }
{
    let teller: &'a RecordReport = end.teller;
    machine_in(teller.readable(), 0)
}

/// A name for a death, the same on each machine that dies so; empty if no record tells why the machine died.
pub fn signature_of(alloc: Global, told: Option<Telling<'_>>) -> Result<Vec<u8>, AllocError>
    ensures { IfOk result (λ signature. signature.items ≡ signature_told (told_in told.entry)) }
{
    match told {
        Some(told) => {
            let teller: &RecordReport = told.teller;
            signature(alloc, teller.readable(), &told.death)
        }
        None => Ok(Vec::new(alloc)),
    }
}
