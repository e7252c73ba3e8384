// The last lines of runs.
ghost use Rattle.std.specs.Prelude.{◌≡◌, ◌+◌, ◌≤◌, ◌++◌, length, decimal, MatchResult};
ghost use Rattle.arrayvec.specs.ArrayString.{array_string_len};
ghost use Rattle.command_spec.specs.Ends.{cause_text, param_text, last_line, status_of, stop_of, end_of};
ghost use Rattle.command_line.specs.Ends.{Finished};

use crate::{Cause, Stop};
use arrayvec::ArrayString;
use itoa::Buffer;
use outside::{Failed, Sink};
use ramoops_layout::{LayoutFault, ParamFault};
use script_spec::LineStop;

fn push_number(text: &mut ArrayString<128>, n: u64)
    requires { array_string_len text.old + 20 ≤ 128 }
    ensures bytes { text.new.bytes ≡ text.old.bytes ++ decimal n }
    ensures len { array_string_len text.new ≤ array_string_len text.old + 20 }
{
    let mut buffer = Buffer::new();
    text.push_str(buffer.format(n));
}

fn cause_name(cause: Cause) -> &'static str
    ensures name { result.now ≡ cause_text cause }
    ensures short { length result.now ≤ 12 }
{
    match cause {
        Cause::IsOff => "is off",
        Cause::IsLive => "is live",
        Cause::NoZone => "no zone",
        Cause::Busy => "busy",
        Cause::Idle => "idle",
        Cause::OutOfImage => "out of image",
        Cause::NoRecord => "no record",
        Cause::NotHere => "not here",
        Cause::TooLong => "too long",
        Cause::NoSeat => "no seat",
        Cause::Crowded => "crowded",
        Cause::NoRing => "no ring",
    }
}

fn push_param(text: &mut ArrayString<128>, fault: ParamFault, before: u32)
    requires { array_string_len text.old + 30 ≤ 128 }
    ensures bytes { text.new.bytes ≡ text.old.bytes ++ param_text fault before }
    ensures len { array_string_len text.new ≤ array_string_len text.old + 30 }
{
    let place = match fault {
        ParamFault::UnknownKey(place) => {
            text.push_str("1 at word ");
            place
        }
        ParamFault::Twice(place) => {
            text.push_str("2 at word ");
            place
        }
        ParamFault::NotANumber(place) => {
            text.push_str("3 at word ");
            place
        }
    };
    push_number(text, u64::from(before) + u64::from(place) + 1);
}

fn param_line(fault: ParamFault, before: u32) -> ArrayString<128>
    ensures { result.bytes ≡ last_line (Stop.Param fault before) }
{
    let mut text = ArrayString::new();
    text.push_str("parameter fault ");
    push_param(&mut text, fault, before);
    text.push_str("\n");
    text
}

fn layout_line(fault: LayoutFault) -> ArrayString<128>
    ensures { result.bytes ≡ last_line (Stop.Layout fault) }
{
    let mut text = ArrayString::new();
    text.push_str("layout fault ");
    push_number(&mut text, u64::from(fault.number()));
    text.push_str("\n");
    text
}

fn short_line(has: u64, needed: u32) -> ArrayString<128>
    ensures { result.bytes ≡ last_line (Stop.Short has needed) }
{
    let mut text = ArrayString::new();
    text.push_str("image has ");
    push_number(&mut text, has);
    text.push_str(" bytes, ");
    push_number(&mut text, u64::from(needed));
    text.push_str(" needed\n");
    text
}

fn bad_line(line: u32) -> ArrayString<128>
    ensures { result.bytes ≡ last_line (Stop.BadLine line) }
{
    let mut text = ArrayString::new();
    text.push_str("bad line ");
    push_number(&mut text, u64::from(line));
    text.push_str("\n");
    text
}

fn refused_line(line: u32, cause: Cause) -> ArrayString<128>
    ensures { result.bytes ≡ last_line (Stop.Refused line cause) }
{
    let mut text = ArrayString::new();
    text.push_str("line ");
    push_number(&mut text, u64::from(line));
    text.push_str(" refused: ");
    text.push_str(cause_name(cause));
    text.push_str("\n");
    text
}

fn plain_line(words: &str) -> ArrayString<128>
    requires { length words.now ≤ 128 }
    ensures { result.bytes ≡ words.now }
{
    let mut text = ArrayString::new();
    text.push_str(words);
    text
}

fn last_line(stop: Stop) -> ArrayString<128>
    ensures { result.bytes ≡ last_line stop }
{
    match stop {
        Stop::Memory => plain_line("no memory\n"),
        Stop::Usage => plain_line("usage: oopsbox IMAGE COMMAND key=value ..\n"),
        Stop::Param { fault, before } => param_line(fault, before),
        Stop::Layout(fault) => layout_line(fault),
        Stop::NoSharedZone => plain_line("layout fault 12\n"),
        Stop::Short { has, needed } => short_line(has, needed),
        Stop::ScriptFault => plain_line("script fault\n"),
        Stop::ImageFault => plain_line("image fault\n"),
        Stop::SinkFault => plain_line(""),
        Stop::TooLong => plain_line("script too long\n"),
        Stop::BadLine(line) => bad_line(line),
        Stop::Refused { line, cause } => refused_line(line, cause),
    }
}

fn status(stop: Stop) -> u8
    ensures { result ≡ status_of (Err stop) }
{
    match stop {
        Stop::Memory => 1,
        Stop::Usage => 2,
        Stop::Param { .. } => 3,
        Stop::Layout(_) => 3,
        Stop::NoSharedZone => 3,
        Stop::Short { .. } => 4,
        Stop::ScriptFault => 5,
        Stop::ImageFault => 6,
        Stop::SinkFault => 7,
        Stop::TooLong => 8,
        Stop::BadLine(_) => 9,
        Stop::Refused { .. } => 10,
    }
}

/// The end of a run whose lines stopped.
pub fn stop_of(stop: LineStop) -> Stop
    ensures { result ≡ stop_of stop }
{
    match stop {
        LineStop::Memory => Stop::Memory,
        LineStop::StoreFault => Stop::ImageFault,
        LineStop::SinkFault => Stop::SinkFault,
        LineStop::Refused { line, cause } => Stop::Refused { line, cause },
    }
}

/// The end of a run that ends with its lines.
pub fn end_of(end: Result<(), LineStop>) -> Result<(), Stop>
    ensures { result ≡ end_of end }
{
    match end {
        Ok(()) => Ok(()),
        Err(stop) => Err(stop_of(stop)),
    }
}

/// Puts the last line of a run, and answers its status.
pub fn finish<O: Sink>(end: Result<(), Stop>, out: &mut O) -> u8
    ensures { Finished end (O.given out.old) (O.given out.new) (O.faults out.old) (O.faults out.new) result }
{
    let stop = match end {
        Ok(()) => return 0,
        Err(Stop::SinkFault) => return 7,
        Err(stop) => stop,
    };
    match out.put(last_line(stop).as_bytes()) {
        Ok(()) => status(stop),
        Err(Failed) => 7,
    }
}
