// The lines of another text that a line can be, and the line that it is.
ghost use Rattle.std.specs.Prelude.{◌≡◌, ◌<◌, ◌++◌, ◌&&◌, ℕ, Some, None, true, length, slice_index, if◌then◌else◌, map};
ghost use Rattle.std.specs.Prelude.{nat_eq, IfOk, OnOk};
ghost use Rattle.std.specs.List.{find, list_all, range_with_len};
ghost use Rattle.std.specs.Option.{option_or};
ghost use Rattle.std.specs.HashMap.{get};
ghost use Rattle.death_spec.specs.Lines.{lines_from};
ghost use Rattle.report_spec.specs.Mending.{is_doubted as is_doubted_at, stamped_in, has_stamp as is_stamped};
ghost use Rattle.report_spec.specs.Mending.{number_and as number_and_digit, digits_from, key_of as key_of_line};
ghost use Rattle.report_spec.specs.Mending.{is_keyed};
ghost use Rattle.report_spec.specs.Mending.{agree as do_agree, can_be as can_be_line, partner_if as partner_of};
ghost use Rattle.report_spec.specs.Mending.{partner as partner_in};
ghost use Rattle.region_report.specs.Mendings.{as_seen, is_same_key};

use crate::doubts::{doubts_between, has_doubt};
use crate::facts::{is_digit, with_digit};
use death::{next_line, part};
use death_spec::Line;
use std::alloc::{AllocError, Global};
use std::collections::HashMap;

/// A text, and of each of its bytes whether it is doubtful.
#[derive(Clone, Copy)]
pub struct Seen<'a> {
    pub text: &'a [u8],
    pub doubts: &'a [bool],
}

/// The first lines of a text by the number of their stamp and their length from it on.
pub type Places = HashMap<(u64, usize), Line>;

pub fn is_doubted(seen: &Seen<'_>, k: usize) -> bool
    ensures { result ≡ is_doubted_at (as_seen seen.now) k }
{
    seen.doubts.get(k).copied().unwrap_or(false)
}

/// A line from its stamp on, with its newline.
pub fn stamped<'a>(seen: &Seen<'a>, line: Line) -> Seen<'a>
    ensures { as_seen result ≡ stamped_in (as_seen seen.now) line }
{
    Seen {
        text: part(seen.text, line.stamp, line.next),
        doubts: doubts_between(seen.doubts, line.stamp, line.next),
    }
}

fn has_stamp(line: Line) -> bool
    ensures { result ≡ is_stamped line }
{
    line.stamp < line.caller
}

fn number_and(number: u64, b: u8) -> u64
    requires { number < 1_000_000_000_000 }
    ensures digit { result ≡ number_and_digit number b }
    ensures few { result < 1_000_000_000_000 }
{
    if is_digit(b) {
        with_digit(number, b)
    } else {
        number
    }
}

/// The number that the digits of a stamp spell.
fn stamp_number(stamp: &[u8]) -> u64
    ensures { result ≡ digits_from 0 stamp.now }
{
    let mut number = 0;
    let mut at = 0;
    'digits: while at < stamp.len() {
        number = number_and(number, stamp[at]);
        at += 1;
    }
    number
}

fn key_of(text: &[u8], line: Line) -> (u64, usize)
    ensures { result ≡ key_of_line text.now line }
{
    (
        stamp_number(part(text, line.stamp, line.caller)),
        line.next.saturating_sub(line.stamp),
    )
}

/// Notes a line, unless one of its key is noted.
fn note_line(places: &mut Places, text: &[u8], line: Line) -> Result<(), AllocError>
    ensures { OnOk result ((q : ℕ × ℕ) → get is_same_key places.new q
        ≡ option_or (get is_same_key places.old q) (if is_keyed text.now q line then Some line else None)) }
{
    if has_stamp(line) {
        let key = key_of(text, line);
        if !places.contains_key(&key) {
            places.insert(key, line)?;
        }
    }
    Ok(())
}

/// The first line of a text by each key.
pub fn places_of(alloc: Global, text: &[u8]) -> Result<Places, AllocError>
    ensures { IfOk result (λ places. (q : ℕ × ℕ) → get is_same_key places q
        ≡ find (is_keyed text.now q) (lines_from text.now 0)) }
{
    let mut places = HashMap::new(alloc);
    let mut at = 0;
    'lines: while let Some(line) = next_line(text, at) {
        note_line(&mut places, text, line)?;
        at = line.next;
    }
    Ok(places)
}

fn agree(x: &Seen<'_>, y: &Seen<'_>, k: usize) -> bool
    ensures { result ≡ do_agree (as_seen x.now) (as_seen y.now) k }
{
    is_doubted(x, k) || is_doubted(y, k) || byte_at(x.text, k) == byte_at(y.text, k)
}

/// The byte at a place, or 0 past the end.
pub fn byte_at(text: &[u8], k: usize) -> u8
    ensures { result ≡ slice_index text.now k }
{
    match text.get(k) {
        Some(b) => *b,
        None => 0,
    }
}

fn all_agree(x: &Seen<'_>, y: &Seen<'_>, len: usize) -> bool
    ensures { result ≡ list_all (do_agree (as_seen x.now) (as_seen y.now)) (range_with_len 0 len) }
{
    for k in 0..len {
        if !agree(x, y, k) {
            return false;
        }
    }
    true
}

/// Whether two lines are one.
fn can_be(x: &Seen<'_>, y: &Seen<'_>) -> bool
    ensures { result ≡ can_be_line (as_seen x.now) (as_seen y.now) }
{
    x.text.len() == y.text.len() && all_agree(x, y, x.text.len())
}

fn partner_if(a: &Seen<'_>, b: &Seen<'_>, line: Line, other: Option<Line>) -> Option<Line>
    ensures { result ≡ partner_of (as_seen a.now) (as_seen b.now) line other }
{
    let other = other?;
    if can_be(&stamped(a, line), &stamped(b, other)) {
        Some(other)
    } else {
        None
    }
}

fn place(places: &Places, key: (u64, usize)) -> Option<Line>
    ensures { result ≡ get is_same_key places.now key }
{
    places.get(&key).copied()
}

/// The line of another text, whose first lines these are, that a line with doubtful bytes is.
pub fn partner(a: &Seen<'_>, b: &Seen<'_>, places: &Places, line: Line) -> Option<Line>
    requires { (q : ℕ × ℕ) → get is_same_key places.now q
        ≡ find (is_keyed b.now.text.now q) (lines_from b.now.text.now 0) }
    ensures { result ≡ partner_in (as_seen a.now) (as_seen b.now) line }
{
    if has_stamp(line) && has_doubt(a.doubts, line.stamp, line.next) {
        partner_if(a, b, line, place(places, key_of(a.text, line)))
    } else {
        None
    }
}
