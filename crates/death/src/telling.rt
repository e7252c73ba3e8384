// The line that tells why the machine died.
ghost use Rattle.std.specs.Prelude.{◌≡◌, if◌then◌else◌, Some};
ghost use Rattle.death_spec.specs.Telling.{last_in, is_panic, is_fault, is_warning, is_of_oops, opens, ends_report};
ghost use Rattle.death_spec.specs.Telling.{open_behind, last_oops, telling_line};

use crate::lines::{kind_by, next_line};
use crate::marks::{firsts, is_mark};
use death_spec::{Line, Mark};

pub fn is_panic(kind: Option<Mark>) -> bool
    ensures { result ≡ is_panic kind }
{
    is_mark(kind, Mark::Panic)
}

pub fn is_fault(kind: Option<Mark>) -> bool
    ensures { result ≡ is_fault kind }
{
    is_mark(kind, Mark::Fault)
        || is_mark(kind, Mark::SoftLockup)
        || is_mark(kind, Mark::HardLockup)
        || is_mark(kind, Mark::StackOverflow)
        || is_mark(kind, Mark::SystemError)
}

pub fn is_warning(kind: Option<Mark>) -> bool
    ensures { result ≡ is_warning kind }
{
    is_mark(kind, Mark::Warning) || is_mark(kind, Mark::HungTask) || is_mark(kind, Mark::Stall)
}

pub fn is_of_oops(kind: Option<Mark>) -> bool
    ensures { result ≡ is_of_oops kind }
{
    is_fault(kind) || is_mark(kind, Mark::Oops)
}

pub fn opens(is_open: bool, kind: Option<Mark>) -> bool
    ensures { result ≡ opens is_open kind }
{
    is_fault(kind) || (is_mark(kind, Mark::Oops) && !is_open)
}

pub fn ends_report(is_open: bool, kind: Option<Mark>) -> bool
    ensures { result ≡ ends_report is_open kind }
{
    opens(is_open, kind) || is_panic(kind) || is_warning(kind) || is_mark(kind, Mark::End)
}

fn open_behind(is_open: bool, kind: Option<Mark>) -> bool
    ensures { result ≡ open_behind is_open kind }
{
    is_of_oops(kind) || (is_open && !ends_report(is_open, kind))
}

// The lines that can tell.
#[derive(Clone, Copy)]
struct LastLines {
    panic: Option<Line>,
    // It opens the report of an oops.
    oops: Option<Line>,
    warning: Option<Line>,
}

// The later of two lines, the first of them if it counts.
pub fn later(counts: bool, line: Line, found: Option<Line>) -> Option<Line>
    ensures { result ≡ (if counts then Some line else found) }
{
    if counts { Some(line) } else { found }
}

// The last line of each kind that can tell.
fn last_of_each(text: &[u8]) -> LastLines
    ensures panic { result.panic ≡ last_in text.now is_panic }
    ensures oops { result.oops ≡ last_oops text.now }
    ensures warning { result.warning ≡ last_in text.now is_warning }
{
    let firsts = firsts();
    let mut panic = None;
    let mut oops = None;
    let mut warning = None;
    let mut is_open = false;
    let mut at = 0;
    'lines: while let Some(line) = next_line(text, at) {
        let mark = kind_by(&firsts, text, line);
        panic = later(is_panic(mark), line, panic);
        oops = later(opens(is_open, mark), line, oops);
        warning = later(is_warning(mark), line, warning);
        is_open = open_behind(is_open, mark);
        at = line.next;
    }
    LastLines {
        panic,
        oops,
        warning,
    }
}

#[tactic(auto, unfolding(death_spec::specs::Telling::telling_line))]
pub fn telling_line(text: &[u8]) -> Option<Line>
    ensures { result ≡ telling_line text.now }
{
    let last = last_of_each(text);
    match last.panic {
        Some(line) => Some(line),
        None => match last.oops {
            Some(line) => Some(line),
            None => last.warning,
        },
    }
}
