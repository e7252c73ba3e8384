// What the report below the telling line names.
ghost use Rattle.std.specs.Prelude.{◌≡◌, ◌≤◌, ◌<◌, ◌+◌, ◌||◌, ◌==◌, if◌then◌else◌, length, drop, map};
ghost use Rattle.std.specs.Prelude.{IfOk, IfSome, Some, None, false};
ghost use Rattle.std.specs.Option.{option_or, option_map, option_map_or};
ghost use Rattle.death_spec.specs.Marks.{is_blank};
ghost use Rattle.death_spec.specs.Lines.{lines_from, said, kind, is_a};
ghost use Rattle.death_spec.specs.Traces.{is_entry, name_in};
ghost use Rattle.death_spec.specs.Reports.{report, first_where, first_in, own_in, trace_in, span, number_end, task_at};
ghost use Rattle.death_spec.specs.Reports.{task_end, cpu_in, task_in, kernel_in, hung_in, task_of, named_from, place_end};
ghost use Rattle.death_spec.specs.Reports.{name_from, blamed_at, place_in, entry_end, entry_in, traced_in, is_next_at};
ghost use Rattle.death_spec.specs.Reports.{own_kernel_in, kernel_of, message_of, is_lockup, locked_at, locked_in};
ghost use Rattle.death_spec.specs.Reports.{listed_end, listed_in, stuck_of, cpu_of, are_same, is_own_number};
ghost use Rattle.death_spec.specs.Reports.{is_other_number, is_own, is_of_other, ends_below, below, begin_of};
ghost use Rattle.death_spec.specs.Reports.{sure, by_call, of_place};
ghost use Rattle.death_spec.specs.Reports.{of_calls, function_in, death_with, death_at};
ghost use Rattle.death_spec.specs.declared.Mark.TheVariants.{HungTask, Processor, Place, Link, Own};

use crate::lines::{is_a, kind, kind_by, next_line, part, said};
use crate::marks::{
    begins, byte_at, firsts, front_len, is_blank, is_mark, place_of, run, run_from, starts_with,
    tail,
};
use crate::messages::message_of;
use crate::telling::{ends_report, is_of_oops, is_panic};
use crate::traces;
use death_spec::{Class, Death, Function, Line, Mark, Span};
use std::alloc::{AllocError, Global};

// The part of a line between two places of what it says, if it has a byte.
fn span(line: Line, from: usize, to: usize) -> Option<Span>
    requires { from < to → line.text + to ≤ line.end }
    ensures { result ≡ span line from to }
{
    if from < to {
        Some(Span {
            start: line.text + from,
            end: line.text + to,
        })
    } else {
        None
    }
}

// Where the processor's number ends.
fn number_end(words: &[u8]) -> usize
    ensures end { result ≡ number_end words.now }
    ensures within { 5 ≤ length words.now → result ≤ length words.now }
    ensures short { length words.now < 5 → result ≡ 5 }
{
    run_from(words, 5, Class::Digit)
}

fn cpu_in(text: &[u8], line: Option<Line>) -> Option<Span>
    ensures { result ≡ cpu_in text.now line }
{
    let line = line?;
    span(line, 5, number_end(said(text, line)))
}

fn is_lockup(kind: Option<Mark>) -> bool
    ensures { result ≡ is_lockup kind }
{
    is_mark(kind, Mark::SoftLockup) || is_mark(kind, Mark::HardLockup)
}

// Where the number begins of the processor that a lockup's line names.
fn locked_at(words: &[u8]) -> usize
    ensures at { result ≡ locked_at words.now }
    ensures within { result ≤ length words.now }
{
    let place = place_of(words, Mark::Locked);
    place + front_len(tail(words, place))
}

fn locked_in(text: &[u8], line: Line) -> Option<Span>
    ensures { result ≡ locked_in text.now line }
{
    let words = said(text, line);
    let from = locked_at(words);
    span(line, from, run_from(words, from, Class::Digit))
}

fn listed_end(words: &[u8]) -> usize
    ensures end { result ≡ listed_end words.now }
    ensures within { result ≤ length words.now }
{
    run_from(words, front_len(words), Class::Digit)
}

// The first processor that a stall lists, in the line at a place.
fn listed_at(text: &[u8], at: usize) -> Option<Span>
    ensures { result ≡ listed_in text.now (lines_from text.now at) }
{
    let line = next_line(text, at)?;
    let words = said(text, line);
    let end = listed_end(words);
    if byte_at(words, end) == b'-' {
        span(line, front_len(words), end)
    } else {
        None
    }
}

// The processor that is stuck, if the report names it.
fn stuck_of(text: &[u8], telling: Line) -> Option<Span>
    ensures { result ≡ stuck_of text.now telling }
{
    let kind = kind(text, telling);
    if is_lockup(kind) {
        locked_in(text, telling)
    } else if is_mark(kind, Mark::Stall) {
        listed_at(text, telling.next)
    } else {
        None
    }
}

// That one, else the report's.
fn cpu_of(text: &[u8], telling: Line, processor: Option<Line>) -> Option<Span>
    ensures { result ≡ cpu_of text.now telling processor }
{
    stuck_of(text, telling).or(cpu_in(text, processor))
}

fn are_same(text: &[u8], a: Span, b: Span) -> bool
    ensures { result ≡ are_same text.now a b }
{
    part(text, a.start, a.end) == part(text, b.start, b.end)
}

fn is_own_number(text: &[u8], stuck: Span, number: Option<Span>) -> bool
    ensures { result ≡ is_own_number text.now stuck number }
{
    match number {
        Some(number) => are_same(text, stuck, number),
        None => false,
    }
}

fn is_other_number(text: &[u8], stuck: Option<Span>, number: Option<Span>) -> bool
    ensures { result ≡ is_other_number text.now stuck number }
{
    match (stuck, number) {
        (Some(stuck), Some(number)) => !are_same(text, stuck, number),
        _ => false,
    }
}

// Whether a line is the `CPU: ` of the processor that is stuck.
fn is_own(text: &[u8], stuck: Span, mark: Option<Mark>, line: Line) -> bool
    ensures { result ≡ is_own text.now stuck mark line }
{
    is_mark(mark, Mark::Processor) && is_own_number(text, stuck, cpu_in(text, Some(line)))
}

// Whether a line begins what is told of another task, or of another processor than the one that is stuck.
fn is_of_other(
    text: &[u8],
    head: Option<Mark>,
    stuck: Option<Span>,
    mark: Option<Mark>,
    line: Line,
) -> bool
    ensures { result ≡ is_of_other text.now head stuck mark line }
{
    let is_processor = is_mark(mark, Mark::Processor);
    (is_mark(head, Mark::HungTask) && (is_mark(mark, Mark::OnTask) || is_processor))
        || (is_processor && is_other_number(text, stuck, cpu_in(text, Some(line))))
}

// Whether a line ends the report below a head.
fn ends_below(
    text: &[u8],
    head: Option<Mark>,
    stuck: Option<Span>,
    mark: Option<Mark>,
    line: Line,
) -> bool
    ensures { result ≡ ends_below text.now head stuck mark line }
{
    ends_report(is_of_oops(head), mark) || is_of_other(text, head, stuck, mark, line)
}

// The first `CPU: ` line of the processor that is stuck, up to the next report.
fn first_own(text: &[u8], telling: Line, stuck: Span) -> Option<Line>
    ensures { result ≡ first_where (λ line. is_own text.now stuck (kind text.now line) line) (below text.now telling) }
{
    let firsts = firsts();
    let is_oops = is_of_oops(kind_by(&firsts, text, telling));
    let mut at = telling.next;
    'lines: while let Some(line) = next_line(text, at) {
        let mark = kind_by(&firsts, text, line);
        if ends_report(is_oops, mark) {
            return None;
        }
        if is_own(text, stuck, mark, line) {
            return Some(line);
        }
        at = line.next;
    }
    None
}

// Where the report begins.
fn begin_of(text: &[u8], telling: Line) -> usize
    ensures { result ≡ begin_of text.now telling }
{
    match stuck_of(text, telling) {
        Some(stuck) => match first_own(text, telling, stuck) {
            Some(line) => line.start,
            None => telling.next,
        },
        None => telling.next,
    }
}

/// The lines of a report that name something, each the first of its kind.
#[derive(Clone, Copy)]
struct Named {
    processor: Option<Line>,
    place: Option<Line>,
    link: Option<Line>,
    // Of a call trace.
    entry: Option<Line>,
    // The kernel's line in the report of a task that hangs.
    own: Option<Line>,
}

// The earlier of two lines, the second of them if it counts.
fn earlier(found: Option<Line>, counts: bool, line: Line) -> Option<Line>
    ensures { result ≡ option_or found (if counts then Some line else None) }
{
    match found {
        Some(found) => Some(found),
        None => { if counts { Some(line) } else { None } }
    }
}

// The heads in the report below the telling line.
fn heads(text: &[u8], telling: Line) -> Named
    ensures processor { result.processor ≡ first_in text.now Processor telling }
    ensures place { result.place ≡ first_in text.now Place telling }
    ensures link { result.link ≡ first_in text.now Link telling }
    ensures entry { result.entry ≡ first_where (λ line. is_entry (said text.now line)) (report text.now telling) }
    ensures own { result.own ≡ first_in text.now Own telling }
{
    let firsts = firsts();
    let head = kind_by(&firsts, text, telling);
    let stuck = stuck_of(text, telling);
    let mut processor = None;
    let mut place = None;
    let mut link = None;
    let mut entry = None;
    let mut own = None;
    let mut at = begin_of(text, telling);
    'lines: while let Some(line) = next_line(text, at) {
        let mark = kind_by(&firsts, text, line);
        if ends_below(text, head, stuck, mark, line) {
            break;
        }
        let is_processor = is_mark(mark, Mark::Processor);
        let is_place = is_mark(mark, Mark::Place);
        let is_link = is_mark(mark, Mark::Link);
        let is_own = is_mark(mark, Mark::Own);
        let words = said(text, line);
        let is_entry = traces::is_entry(words);
        processor = earlier(processor, is_processor, line);
        place = earlier(place, is_place, line);
        link = earlier(link, is_link, line);
        entry = earlier(entry, is_entry, line);
        own = earlier(own, is_own, line);
        at = line.next;
    }
    Named {
        processor,
        place,
        link,
        entry,
        own,
    }
}

fn unless(hangs: bool, line: Option<Line>) -> Option<Line>
    ensures { result ≡ (if hangs then None else line) }
{
    if hangs { None } else { line }
}

// The heads that are of the telling line's own task.
fn own_heads(text: &[u8], telling: Line) -> Named
    ensures processor { result.processor ≡ own_in text.now Processor telling }
    ensures place { result.place ≡ own_in text.now Place telling }
    ensures link { result.link ≡ own_in text.now Link telling }
    ensures entry { result.entry ≡ first_where (λ line. is_entry (said text.now line)) (report text.now telling) }
    ensures own { result.own ≡ first_in text.now Own telling }
{
    let heads = heads(text, telling);
    let hangs = is_a(text, Mark::HungTask, telling);
    Named {
        processor: unless(hangs, heads.processor),
        place: unless(hangs, heads.place),
        link: unless(hangs, heads.link),
        entry: heads.entry,
        own: heads.own,
    }
}

// Where the task ends.
fn task_end(words: &[u8]) -> usize
    ensures end { result ≡ task_end words.now }
    ensures within { 5 ≤ length words.now → result ≤ length words.now }
    ensures short { length words.now < 5 → result ≡ 5 }
    ensures small { result ≤ 5 + length words.now }
{
    let from = number_end(words);
    if from <= words.len() {
        from + place_of(&words[from..], Mark::Kernel)
    } else {
        from
    }
}

fn task_in(text: &[u8], line: Option<Line>) -> Option<Span>
    ensures { result ≡ task_in text.now line }
{
    let line = line?;
    let words = said(text, line);
    let from = run_from(words, number_end(words), Class::Blank);
    span(line, from, task_end(words))
}

fn kernel_in(text: &[u8], line: Option<Line>) -> Option<Span>
    ensures { result ≡ kernel_in text.now line }
{
    let line = line?;
    let words = said(text, line);
    span(line, task_end(words) + 1, words.len())
}

fn own_kernel_in(text: &[u8], line: Option<Line>) -> Option<Span>
    ensures { result ≡ own_kernel_in text.now line }
{
    let line = line?;
    span(line, 0, said(text, line).len())
}

fn kernel_of(text: &[u8], telling: Line, named: Named) -> Option<Span>
    requires processor { named.processor ≡ own_in text.now Processor telling }
    requires own { named.own ≡ first_in text.now Own telling }
    ensures { result ≡ kernel_of text.now telling }
{
    if is_a(text, Mark::HungTask, telling) {
        own_kernel_in(text, named.own)
    } else {
        kernel_in(text, named.processor)
    }
}

// The task that hangs.
fn hung_in(text: &[u8], line: Line) -> Option<Span>
    ensures { result ≡ hung_in text.now line }
{
    let words = said(text, line);
    span(line, front_len(words), place_of(words, Mark::Blocked))
}

fn task_of(text: &[u8], telling: Line, processor: Option<Line>) -> Option<Span>
    requires { processor ≡ own_in text.now Processor telling }
    ensures { result ≡ task_of text.now telling }
{
    if is_a(text, Mark::HungTask, telling) {
        hung_in(text, telling)
    } else {
        task_in(text, processor)
    }
}

// Where a name begins, by the byte at a place.
fn start_at(b: u8, at: usize, start: usize) -> usize
    requires { at < 18446744073709551615 }
    ensures { result ≡ (if is_blank b || b == 40 then at + 1 else start) }
{
    if is_blank(b) || b == b'(' {
        at + 1
    } else {
        start
    }
}

fn named_from(words: &[u8], from: usize) -> Option<usize>
    ensures from { result ≡ named_from from from (drop from words.now) }
    ensures within { IfSome result (λ at. at ≤ length words.now) }
{
    let mut start = from;
    let mut at = from;
    'bytes: while at < words.len() {
        if begins(tail(words, at), Mark::Offset) {
            return Some(start);
        }
        start = start_at(words[at], at, start);
        at += 1;
    }
    None
}

fn name_from(words: &[u8]) -> Option<usize>
    ensures from { result ≡ name_from words.now }
    ensures within { IfSome result (λ at. at ≤ length words.now) }
{
    named_from(words, front_len(words))
}

fn place_end(words: &[u8]) -> usize
    ensures end { result ≡ place_end words.now }
    ensures within { result ≤ length words.now }
{
    let last = words.len().saturating_sub(1);
    if byte_at(words, last) == b')' {
        last
    } else {
        words.len()
    }
}

fn blamed_at(text: &[u8], line: Line, at: Option<usize>) -> Option<Span>
    requires { IfSome at (λ at. at ≤ length (said text.now line)) }
    ensures { result ≡ blamed_at text.now line at }
{
    let at = at?;
    let words = said(text, line);
    if traces::is_helper(tail(words, at), false) {
        None
    } else {
        span(line, at, place_end(words))
    }
}

pub fn place_in(text: &[u8], line: Option<Line>) -> Option<Span>
    ensures { result ≡ place_in text.now line }
{
    let line = line?;
    blamed_at(text, line, name_from(said(text, line)))
}

fn entry_end(words: &[u8]) -> usize
    ensures end { result ≡ entry_end words.now }
    ensures within { result ≤ length words.now }
{
    let at = traces::name_at(words);
    let end = at + run(traces::unplaced(words), Class::Name);
    if byte_at(words, end) == b'+' {
        words.len()
    } else {
        end
    }
}

fn entry_in(text: &[u8], line: Option<Line>) -> Option<Span>
    ensures { result ≡ entry_in text.now line }
{
    let line = line?;
    let words = said(text, line);
    span(line, traces::name_at(words), entry_end(words))
}

// The function to blame in the trace.
fn traced_in(text: &[u8], telling: Line, entry: Option<Line>) -> Option<Span>
    requires { entry ≡ first_where (λ line. is_entry (said text.now line)) (report text.now telling) }
    ensures { result ≡ traced_in text.now telling }
{
    let hangs = is_a(text, Mark::HungTask, telling);
    entry_in(text, traces::to_blame(text, hangs, entry))
}

fn is_next_at(text: &[u8], span: Span) -> bool
    ensures { result ≡ is_next_at text.now span }
{
    let end = run_from(text, span.start, Class::Name);
    starts_with(part(text, end, text.len()), b"+0x0/".as_slice())
}

fn sure(span: Option<Span>) -> Option<Function>
    ensures { result ≡ option_map sure span }
{
    let span = span?;
    Some(Function {
        span,
        is_next: false,
    })
}

fn by_call(text: &[u8], span: Option<Span>) -> Option<Function>
    ensures { result ≡ option_map (by_call text.now) span }
{
    let span = span?;
    let is_next = is_next_at(text, span);
    Some(Function { span, is_next })
}

fn function_in(text: &[u8], telling: Line, named: Named) -> Option<Function>
    requires place { named.place ≡ own_in text.now Place telling }
    requires link { named.link ≡ own_in text.now Link telling }
    requires entry { named.entry ≡ first_where (λ line. is_entry (said text.now line)) (report text.now telling) }
    ensures { result ≡ function_in text.now telling }
{
    let place = sure(place_in(text, named.place));
    let traced = traced_in(text, telling, named.entry);
    if is_panic(kind(text, telling)) {
        by_call(text, traced).or(place)
    } else {
        place.or(by_call(text, place_in(text, named.link).or(traced)))
    }
}

fn span_of(function: Option<Function>) -> Option<Span>
    ensures { result ≡ option_map (λ f. f.span) function }
{
    let function = function?;
    Some(function.span)
}

fn is_next(function: Option<Function>) -> bool
    ensures { result ≡ option_map_or (λ f. f.is_next) function false }
{
    match function {
        Some(function) => function.is_next,
        None => false,
    }
}

/// What the report below the telling line names; `second` is the panic that this line was the cause of.
pub fn death_at(text: &[u8], telling: Line, second: Option<Line>) -> Death
    ensures { result ≡ death_at text.now telling second }
{
    let named = own_heads(text, telling);
    let function = function_in(text, telling, named);
    Death {
        telling,
        second,
        message: message_of(text, telling),
        cpu: cpu_of(text, telling, named.processor),
        task: task_of(text, telling, named.processor),
        kernel: kernel_of(text, telling, named),
        function: span_of(function),
        is_next: is_next(function),
    }
}

/// The functions of the call trace in the report below the telling line.
pub fn trace_in(alloc: Global, text: &[u8], telling: Line) -> Result<Vec<Span>, AllocError>
    ensures { IfOk result (λ v. v.items ≡ map (name_in text.now) (trace_in text.now telling)) }
{
    traces::names(alloc, text, heads(text, telling).entry)
}
