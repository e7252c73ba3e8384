//! The time line that a dump begins with, written and read, and the cursor over the dump zones.
#![tactic(auto)]

ghost use Rattle.std.specs.Prelude.{◌≡◌, ◌<◌, ◌≤◌, ◌^◌, IfSome};
ghost use Rattle.zone_spec.specs.TimeLines.{begins_with, line_text, read_line};
ghost use Rattle.dump_records.specs.Parts.{ending_at, number_at};
ghost use Rattle.dump_records.specs.RoundTrip.{LinesAreShort, LinesReadBack};

mod cursor;

use arrayvec::ArrayString;
pub use cursor::Cursor;
use itoa::Buffer;
pub use zone_spec::{Time, TimeLine};

/// Writes the line of a time of at most 2^63 - 1 seconds and fewer than 1,000,000 microseconds. `packed` says that
/// the dump is compressed (`fs/pstore/ram.c`, `ramoops_write_kmsg_hdr`).
pub fn line(time: Time, packed: bool, out: &mut ArrayString<36>)
    requires secs { time.secs < 2 ^ 63 }
    requires micros { time.micros < 1000000 }
    ensures { out.new.bytes ≡ line_text time packed }
{
    let mut digits = Buffer::new();
    out.clear();
    out.push_str("====");
    out.push_str(digits.format(time.secs));
    out.push_str(".");
    out.push_str(&digits.format(1_000_000 + time.micros)[1..]);
    out.push_str(if packed { "-C\n" } else { "-D\n" });
}

/// A number and how many digits it was read from.
#[derive(Clone, Copy)]
struct Number {
    value: u64,
    len: usize,
}

/// The number that a text begins with, where it has 1 to `most` digits.
fn leading_number(text: &[u8], most: usize) -> Option<Number>
    requires { most ≤ 19 }
    ensures number { result ≡ number_at most text.now }
    ensures small { IfSome result (λ n. n.value < 10 ^ n.len) }
{
    let mut value = 0;
    let mut len = 0;
    while len < text.len() && text[len].is_ascii_digit() {
        if len == most {
            return None;
        }
        value = 10 * value + u64::from(text[len] - b'0');
        len += 1;
    }
    if len == 0 {
        return None;
    }
    Some(Number { value, len })
}

fn starts_with(text: &[u8], front: &[u8]) -> bool
    ensures { result ≡ begins_with front.now text.now }
{
    text.len() >= front.len() && &text[..front.len()] == front
}

/// What ends a line: whether it says that the dump is compressed, and its bytes with the newline.
#[derive(Clone, Copy)]
struct Ending {
    packed: bool,
    len: usize,
}

fn line_end(text: &[u8]) -> Option<Ending>
    ensures { result ≡ ending_at text.now }
{
    if starts_with(text, b"\n") {
        return Some(Ending {
            packed: false,
            len: 1,
        });
    }
    if starts_with(text, b"-D\n") {
        return Some(Ending {
            packed: false,
            len: 3,
        });
    }
    if starts_with(text, b"-C\n") {
        return Some(Ending {
            packed: true,
            len: 3,
        });
    }
    None
}

/// Reads the time line that a log begins with, from its first 36 bytes at most. It is stricter than
/// `ramoops_read_kmsg_hdr` of `fs/pstore/ram.c`.
pub fn read_line(log: &[u8]) -> Option<TimeLine>
    ensures { result ≡ read_line log.now }
{
    if !starts_with(log, b"====") {
        return None;
    }
    let secs = leading_number(&log[4..], 19)?;
    if secs.value > i64::MAX as u64 {
        return None;
    }
    if !starts_with(&log[4 + secs.len..], b".") {
        return None;
    }
    let from = 5 + secs.len;
    let micros = leading_number(&log[from..], 9)?;
    let ending = line_end(&log[from + micros.len..])?;
    Some(TimeLine {
        time: Time {
            secs: secs.value,
            micros: micros.value as u32,
        },
        packed: ending.packed,
        len: (from + micros.len + ending.len) as u32,
    })
}

/// A time line reads back as itself.
pub fn lines_read_back()
    ensures read_back { LinesReadBack }
    ensures short { LinesAreShort }
{}
