// What a panic is about, if something else caused it.
ghost use Rattle.std.specs.Prelude.{◌≡◌, if◌then◌else◌, None};
ghost use Rattle.death_spec.specs.Lines.{lines_from};
ghost use Rattle.death_spec.specs.Causes.{stand_in, cause_in, is_sought, is_open_only, is_of_init, in_oops, open_after};
ghost use Rattle.death_spec.specs.Causes.{open_below, head_of, names_init, opens_sought, found, last_found, report_of};
ghost use Rattle.death_spec.specs.Causes.{report_above, cause_of};
ghost use Rattle.death.specs.Rows.{plain};

use crate::lines::{kind, kind_by, next_line, part, said};
use crate::marks::{firsts, is_mark, starts_with, tail};
use crate::telling::{ends_report, is_fault, is_of_oops, is_panic, is_warning, opens};
use death_spec::{CAUSES, Cause, FIRST_PROCESS, Line, Mark, Opened};

fn stand_in(words: &[u8], text: &[u8]) -> bool
    ensures { result ≡ stand_in words.now text.now }
{
    let mut at = 0;
    'bytes: while at < text.len() {
        if starts_with(tail(text, at), words) {
            return true;
        }
        at += 1;
    }
    false
}

fn cause_in(rows: &[(Cause, &[u8])], text: &[u8]) -> Option<Cause>
    ensures { result ≡ cause_in (plain rows.now) text.now }
{
    for row in rows {
        if stand_in(row.1, text) {
            return Some(row.0);
        }
    }
    None
}

fn is_sought(cause: Cause, kind: Option<Mark>) -> bool
    ensures { result ≡ is_sought cause kind }
{
    match cause {
        Cause::LastOops => is_of_oops(kind),
        Cause::OopsOfInit => is_of_oops(kind),
        Cause::LastSoftLockup => is_mark(kind, Mark::SoftLockup),
        Cause::LastHardLockup => is_mark(kind, Mark::HardLockup),
        Cause::LastHungTask => is_mark(kind, Mark::HungTask),
        Cause::LastStall => is_mark(kind, Mark::Stall),
        Cause::OpenFault => is_fault(kind),
        Cause::OpenWarning => is_warning(kind),
        Cause::OpenStackOverflow => is_mark(kind, Mark::StackOverflow),
        Cause::OpenSystemError => is_mark(kind, Mark::SystemError),
    }
}

fn is_open_only(cause: Cause) -> bool
    ensures { result ≡ is_open_only cause }
{
    matches!(
        cause,
        Cause::OpenFault | Cause::OpenWarning | Cause::OpenStackOverflow | Cause::OpenSystemError
    )
}

fn is_of_init(cause: Cause) -> bool
    ensures { result ≡ is_of_init cause }
{
    matches!(cause, Cause::OopsOfInit)
}

fn in_oops(opened: Option<Opened>) -> bool
    ensures { result ≡ in_oops opened }
{
    match opened {
        Some(report) => is_of_oops(Some(report.mark)),
        None => false,
    }
}

fn open_after(opened: Option<Opened>, kind: Option<Mark>, line: Line) -> Option<Opened>
    ensures { result ≡ open_after opened kind line }
{
    let Some(mark) = kind else {
        return opened;
    };
    let in_oops = in_oops(opened);
    if opens(in_oops, Some(mark)) || is_warning(Some(mark)) {
        Some(Opened { head: line, mark })
    } else {
        if ends_report(in_oops, Some(mark)) {
            None
        } else {
            opened
        }
    }
}

fn head_of(cause: Cause, opened: Option<Opened>) -> Option<Line>
    ensures { result ≡ head_of cause opened }
{
    let report = opened?;
    if is_sought(cause, Some(report.mark)) {
        Some(report.head)
    } else {
        None
    }
}

fn names_init(text: &[u8], kind: Option<Mark>, line: Line) -> bool
    ensures { result ≡ names_init text.now kind line }
{
    is_mark(kind, Mark::Processor) && stand_in(FIRST_PROCESS, said(text, line))
}

fn opens_sought(cause: Cause, opened: Option<Opened>, kind: Option<Mark>) -> bool
    ensures { result ≡ opens_sought cause opened kind }
{
    (opens(in_oops(opened), kind) || is_warning(kind)) && is_sought(cause, kind)
}

fn of_init(
    text: &[u8],
    cause: Cause,
    opened: Option<Opened>,
    kind: Option<Mark>,
    line: Line,
) -> Option<Line>
    ensures { result ≡ (if names_init text.now kind line then head_of cause opened else None) }
{
    if names_init(text, kind, line) {
        head_of(cause, opened)
    } else {
        None
    }
}

// The report that a line adds to those found.
fn found(
    text: &[u8],
    cause: Cause,
    opened: Option<Opened>,
    kind: Option<Mark>,
    line: Line,
) -> Option<Line>
    ensures { result ≡ found text.now cause opened kind line }
{
    if is_of_init(cause) {
        of_init(text, cause, opened, kind, line)
    } else {
        if opens_sought(cause, opened, kind) {
            Some(line)
        } else {
            None
        }
    }
}

/// What the lines of a text leave.
#[derive(Clone, Copy)]
struct Walked {
    // The report that is open at the end.
    opened: Option<Opened>,
    // The last report that counts.
    last: Option<Line>,
}

fn walk(text: &[u8], cause: Cause) -> Walked
    ensures opened { result.opened ≡ open_below text.now None (lines_from text.now 0) }
    ensures last { result.last ≡ last_found text.now cause None (lines_from text.now 0) }
{
    let firsts = firsts();
    let mut opened = None;
    let mut last = None;
    let mut at = 0;
    'lines: while let Some(line) = next_line(text, at) {
        let mark = kind_by(&firsts, text, line);
        last = found(text, cause, opened, mark, line).or(last);
        opened = open_after(opened, mark, line);
        at = line.next;
    }
    Walked { opened, last }
}

fn report_of(text: &[u8], cause: Cause) -> Option<Line>
    ensures { result ≡ report_of text.now cause (lines_from text.now 0) }
{
    let walked = walk(text, cause);
    if is_open_only(cause) {
        head_of(cause, walked.opened)
    } else {
        walked.last
    }
}

fn report_above(text: &[u8], line: Line, cause: Option<Cause>) -> Option<Line>
    ensures { result ≡ report_above text.now line cause }
{
    let cause = cause?;
    report_of(part(text, 0, line.start), cause)
}

/// What a line is about: of a panic, by its words, the report above it.
#[tactic(auto, unfolding(death_spec::specs::Causes::cause_of))]
pub fn cause_of(text: &[u8], line: Line) -> Option<Line>
    ensures { result ≡ cause_of text.now line }
{
    if is_panic(kind(text, line)) {
        report_above(text, line, cause_in(CAUSES, said(text, line)))
    } else {
        None
    }
}
