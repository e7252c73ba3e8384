// The line above a head that says what was wrong.
ghost use Rattle.std.specs.Prelude.{◌≡◌, ◌<◌, nat_lt, if◌then◌else◌, length, None};
ghost use Rattle.death_spec.specs.Lines.{lines_from, said};
ghost use Rattle.death_spec.specs.Reports.{last_two, above, kind_if, message_in, message_of};

use crate::lines::{kind, next_line, part, said};
use crate::marks::is_mark;
use death_spec::{Above, Line, Mark};

// The last two lines, by one more.
fn with_line(text: &[u8], found: Above, line: Line) -> Above
    ensures { result ≡ (if nat_lt 0 (length (said text.now line))
        then record { upper = found.lower; lower = Some line } else found) }
{
    if 0 < said(text, line).len() {
        Above {
            upper: found.lower,
            lower: Some(line),
        }
    } else {
        found
    }
}

fn last_two(text: &[u8]) -> Above
    ensures { result ≡ last_two text.now (record { upper = None; lower = None }) (lines_from text.now 0) }
{
    let mut found = Above {
        upper: None,
        lower: None,
    };
    let mut at = 0;
    'lines: while let Some(line) = next_line(text, at) {
        found = with_line(text, found, line);
        at = line.next;
    }
    found
}

fn above(text: &[u8], line: Line) -> Above
    ensures { result ≡ above text.now line }
{
    last_two(part(text, 0, line.start))
}

fn kind_if(text: &[u8], line: Option<Line>) -> Option<Mark>
    ensures { result ≡ kind_if text.now line }
{
    kind(text, line?)
}

fn message_in(text: &[u8], head: Option<Mark>, found: Above) -> Option<Line>
    ensures { result ≡ message_in text.now head found }
{
    let upper = kind_if(text, found.upper);
    let lower = kind_if(text, found.lower);
    if is_mark(head, Mark::Warning) && is_mark(upper, Mark::Cut) && !is_mark(lower, Mark::Cut) {
        found.lower
    } else if is_mark(head, Mark::Fault)
        && is_mark(upper, Mark::Message)
        && is_mark(lower, Mark::Cut)
    {
        found.upper
    } else {
        None
    }
}

/// The message that stands above a head.
pub fn message_of(text: &[u8], telling: Line) -> Option<Line>
    ensures { result ≡ message_of text.now telling }
{
    message_in(text, kind(text, telling), above(text, telling))
}
