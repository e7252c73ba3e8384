// How a log ends that tells of no death.
ghost use Rattle.std.specs.Prelude.{◌≡◌, ◌<◌, nat_lt, length};
ghost use Rattle.death_spec.specs.Lines.{lines_from, said};
ghost use Rattle.death_spec.specs.Endings.{ending_in, last_said, ended_at, ended_unless, ending_of};
ghost use Rattle.death.specs.Rows.{plain};

use crate::lines::{next_line, said};
use crate::marks::starts_with;
use crate::telling::{later, telling_line};
use death_spec::{ENDS, Ended, Ending, Line};

fn ending_in(rows: &[(Ending, &[u8])], text: &[u8]) -> Ending
    ensures { result ≡ ending_in (plain rows.now) text.now }
{
    for row in rows {
        if starts_with(text, row.1) {
            return row.0;
        }
    }
    Ending::BrokenOff
}

fn says(text: &[u8], line: Line) -> bool
    ensures { result ≡ nat_lt 0 (length (said text.now line)) }
{
    0 < said(text, line).len()
}

fn last_said(text: &[u8]) -> Option<Line>
    ensures { result ≡ last_said text.now (lines_from text.now 0) }
{
    let mut last = None;
    let mut at = 0;
    'lines: while let Some(line) = next_line(text, at) {
        last = later(says(text, line), line, last);
        at = line.next;
    }
    last
}

fn ended_at(text: &[u8], line: Line) -> Ended
    ensures { result ≡ ended_at text.now line }
{
    let ending = ending_in(ENDS, said(text, line));
    Ended { ending, line }
}

/// How a log ends in which no line tells of a death; `None` if one does, or if the kernel says nothing at all.
#[tactic(auto, unfolding(death_spec::specs::Endings::ending_of))]
pub fn ending(text: &[u8]) -> Option<Ended>
    ensures { result ≡ ending_of text.now }
{
    if telling_line(text).is_some() {
        return None;
    }
    let line = last_said(text)?;
    Some(ended_at(text, line))
}
