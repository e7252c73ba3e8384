// The entries of a call trace, and which of them is to blame.
ghost use Rattle.std.specs.Prelude.{◌≡◌, ◌≤◌, ◌<◌, ◌&&◌, [], ◌∷◌, length, map, IfSome, IfNone, IfOk, None};
ghost use Rattle.death_spec.specs.Marks.{run};
ghost use Rattle.death_spec.specs.Lines.{said};
ghost use Rattle.death_spec.specs.Traces.{past_address, past_addresses, name_at, unplaced, is_named, is_entry};
ghost use Rattle.death_spec.specs.Traces.{is_of_trace, name_in, entries, entries_of, fits, counts, is_passed};
ghost use Rattle.death_spec.specs.Traces.{is_helper, to_blame};
ghost use Rattle.death_spec.specs.declared.Class.TheVariants.{Name};
ghost use Rattle.death.specs.Rows.{plain};

use crate::lines::{next_line, said};
use crate::marks::{begins, byte_at, run, starts_with};
use death_spec::{Class, FRAMES, Line, Mark, Span, Way};
use std::alloc::{AllocError, Global};

fn past_address(words: &[u8]) -> usize
    ensures past { result ≡ past_address words.now }
    ensures within { result ≤ length words.now }
{
    if !begins(words, Mark::Address) {
        return 0;
    }
    let end = run(words, Class::Word);
    end + run(&words[end..], Class::Blank)
}

fn past_addresses(words: &[u8]) -> usize
    ensures past { result ≡ past_addresses words.now }
    ensures within { result ≤ length words.now }
{
    let one = past_address(words);
    one + past_address(&words[one..])
}

/// Where the name of an entry begins.
pub fn name_at(words: &[u8]) -> usize
    ensures at { result ≡ name_at words.now }
    ensures within { result ≤ length words.now }
{
    let at = past_addresses(words);
    if 0 < at && byte_at(words, at) == b'(' {
        at + 1
    } else {
        at
    }
}

pub fn unplaced(words: &[u8]) -> &[u8]
    ensures { result.now ≡ unplaced words.now }
{
    &words[name_at(words)..]
}

fn is_named(words: &[u8]) -> bool
    ensures { result ≡ is_named words.now }
{
    let len = run(words, Class::Name);
    0 < len && begins(&words[len..], Mark::Offset) && !begins(words, Mark::Bare)
}

pub fn is_entry(words: &[u8]) -> bool
    ensures { result ≡ is_entry words.now }
{
    is_named(unplaced(words))
}

fn is_of_trace(words: &[u8]) -> bool
    ensures { result ≡ is_of_trace words.now }
{
    words.is_empty()
        || begins(words, Mark::Stack)
        || begins(unplaced(words), Mark::Unsure)
        || begins(unplaced(words), Mark::Bare)
        || is_entry(words)
}

fn name_in(text: &[u8], line: Line) -> Span
    ensures { result ≡ name_in text.now line }
{
    let words = said(text, line);
    let at = name_at(words);
    let start = line.text + at;
    Span {
        start,
        end: start + run(&words[at..], Class::Name),
    }
}

fn fits(words: &[u8], name: &[u8]) -> bool
    ensures { result ≡ fits words.now name.now }
{
    let front = words.len().saturating_sub(1);
    if byte_at(words, front) == b'*' {
        starts_with(name, &words[..front])
    } else {
        words == name
    }
}

fn counts(hangs: bool, way: Way) -> bool
    ensures { result ≡ counts hangs way }
{
    match way {
        Way::Dying => true,
        Way::Waiting => hangs,
    }
}

fn passes(hangs: bool, way: Way, words: &[u8], name: &[u8]) -> bool
    ensures { result ≡ (counts hangs way && fits words.now name.now) }
{
    counts(hangs, way) && fits(words, name)
}

fn is_passed(rows: &[(Way, &[u8])], hangs: bool, name: &[u8]) -> bool
    ensures { result ≡ is_passed (plain rows.now) hangs name.now }
{
    for row in rows {
        if passes(hangs, row.0, row.1, name) {
            return true;
        }
    }
    false
}

/// Whether the function that words begin with is not to blame.
pub fn is_helper(words: &[u8], hangs: bool) -> bool
    ensures { result ≡ is_helper hangs words.now }
{
    is_passed(FRAMES, hangs, &words[..run(words, Class::Symbol)])
}

// The first entry of the trace whose first line is at a place.
fn first_entry(text: &[u8], from: usize) -> Option<Line>
    ensures rest { IfSome result (λ line. entries text.now from ≡ line ∷ entries text.now line.next) }
    ensures none { IfNone result (entries text.now from ≡ []) }
    ensures next { IfSome result (λ line. (from < line.next) × (from ≤ length text.now)) }
{
    let mut at = from;
    'lines: while let Some(line) = next_line(text, at) {
        let words = said(text, line);
        if is_entry(words) {
            return Some(line);
        }
        if !is_of_trace(words) {
            return None;
        }
        at = line.next;
    }
    None
}

fn is_innocent(text: &[u8], hangs: bool, line: Line) -> bool
    ensures { result ≡ is_helper hangs (unplaced (said text.now line)) }
{
    is_helper(unplaced(said(text, line)), hangs)
}

fn blamed_below(text: &[u8], hangs: bool, from: usize) -> Option<Line>
    ensures { result ≡ to_blame text.now hangs (entries text.now from) }
{
    let mut at = from;
    'entries: while let Some(line) = first_entry(text, at) {
        if !is_innocent(text, hangs, line) {
            return Some(line);
        }
        at = line.next;
    }
    None
}

/// The entry to blame, of a trace by its first one.
#[tactic(auto, unfolding(death_spec::specs::Traces::to_blame))]
pub fn to_blame(text: &[u8], hangs: bool, entry: Option<Line>) -> Option<Line>
    ensures { result ≡ to_blame text.now hangs (entries_of text.now entry) }
{
    let line = entry?;
    if is_innocent(text, hangs, line) {
        blamed_below(text, hangs, line.next)
    } else {
        Some(line)
    }
}

fn names_from(alloc: Global, text: &[u8], entry: Line) -> Result<Vec<Span>, AllocError>
    ensures { IfOk result (λ v. v.items
        ≡ name_in text.now entry ∷ map (name_in text.now) (entries text.now entry.next)) }
{
    let mut spans = Vec::new(alloc);
    spans.push(name_in(text, entry))?;
    let mut at = entry.next;
    'entries: while let Some(line) = first_entry(text, at) {
        spans.push(name_in(text, line))?;
        at = line.next;
    }
    Ok(spans)
}

/// The names of the entries, of a trace by its first one.
pub fn names(alloc: Global, text: &[u8], entry: Option<Line>) -> Result<Vec<Span>, AllocError>
    ensures { IfOk result (λ v. v.items ≡ map (name_in text.now) (entries_of text.now entry)) }
{
    match entry {
        Some(entry) => names_from(alloc, text, entry),
        None => Ok(Vec::new(alloc)),
    }
}
