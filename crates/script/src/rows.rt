// The lines of the table, by their fields.
ghost use Rattle.std.specs.Prelude.{◌≡◌, ◌<◌, ◌==◌, ℕ, List, ◌++◌, ◌∷◌, [], length, nat_le, MatchOption, IfSome, IfNone};
ghost use Rattle.std.specs.List.{slice_split, list_all};
ghost use Rattle.grammar_spec.specs.Groups.{one, two, three, four, five, ring_hex, time_flag_hex, one_zone, one_number};
ghost use Rattle.grammar_spec.specs.Groups.{one_name, one_message, one_some_bytes};
ghost use Rattle.grammar_spec.specs.Rows.{step_line, flip_line, kdump_line, crash_line, store_line, begin_row};
ghost use Rattle.grammar_spec.specs.Rows.{begin_line, plain_row, row, lone_word};
ghost use Rattle.grammar_spec.specs.Lines.{fields_of, is_blank, line_of};
ghost use Rattle.script.specs.Reading.{Gives};
ghost use Rattle.script.specs.declared.rows.LineFault.TheVariants.{Memory};

use crate::{Line, fields};
use memchr::memchr;
use outside::Bytes;
use std::alloc::{AllocError, Global};
use zone_spec::{Time, ZoneName};

/// Why a line was not read.
#[derive(Clone, Copy, Debug, PartialEq, Eq)]
pub enum LineFault {
    Bad,
    Memory,
}

impl From<AllocError> for LineFault {
    ghost from_gives = { λ _ e. e ≡ Memory };

    fn from(_e: AllocError) -> LineFault {
        LineFault::Memory
    }
}

/// What stands before the first mark, and what stands after it.
pub fn cut(text: &[u8], mark: u8) -> Option<(&[u8], &[u8])>
    ensures none { IfNone result (slice_split (λ b. b == mark) text.now ≡ text.now ∷ []) }
    ensures parts { IfSome result (λ parts. slice_split (λ b. b == mark) text.now
        ≡ parts.0.now ∷ slice_split (λ b. b == mark) parts.1.now) }
    ensures further { IfSome result (λ parts. (more : List ℕ) → slice_split (λ b. b == mark) (text.now ++ more)
        ≡ parts.0.now ∷ slice_split (λ b. b == mark) (parts.1.now ++ more)) }
    ensures shorter { IfSome result (λ parts. length parts.1.now < length text.now) }
{
    let at = memchr(mark, text)?;
    let (front, _) = text.split_at(at);
    let (_, back) = text.split_at(at + 1);
    Some((front, back))
}

fn one(text: &[u8]) -> Option<&[u8]>
    ensures { MatchOption result (one (fields_of text.now) ≡ None) (λ a. one (fields_of text.now) ≡ Some a.now) }
{
    match cut(text, b' ') {
        Some(_) => None,
        None => Some(text),
    }
}

fn two(text: &[u8]) -> Option<(&[u8], &[u8])>
    ensures { MatchOption result (two (fields_of text.now) ≡ None)
        (λ f. two (fields_of text.now) ≡ Some (f.0.now, f.1.now)) }
{
    let (a, rest) = cut(text, b' ')?;
    let b = one(rest)?;
    Some((a, b))
}

fn three(text: &[u8]) -> Option<(&[u8], &[u8], &[u8])>
    ensures { MatchOption result (three (fields_of text.now) ≡ None)
        (λ f. three (fields_of text.now) ≡ Some (f.0.now, f.1.now, f.2.now)) }
{
    let (a, rest) = cut(text, b' ')?;
    let (b, c) = two(rest)?;
    Some((a, b, c))
}

fn four(text: &[u8]) -> Option<(&[u8], &[u8], &[u8], &[u8])>
    ensures { MatchOption result (four (fields_of text.now) ≡ None)
        (λ f. four (fields_of text.now) ≡ Some (f.0.now, f.1.now, f.2.now, f.3.now)) }
{
    let (a, rest) = cut(text, b' ')?;
    let (b, rest) = cut(rest, b' ')?;
    let (c, d) = two(rest)?;
    Some((a, b, c, d))
}

fn five(text: &[u8]) -> Option<(&[u8], &[u8], &[u8], &[u8], &[u8])>
    ensures { MatchOption result (five (fields_of text.now) ≡ None)
        (λ f. five (fields_of text.now) ≡ Some (f.0.now, f.1.now, f.2.now, f.3.now, f.4.now)) }
{
    let (a, rest) = cut(text, b' ')?;
    let (b, c, d, e) = four(rest)?;
    Some((a, b, c, d, e))
}

#[tactic(auto, unfolding(grammar_spec::specs::Groups::ring_hex))]
fn ring_hex(alloc: Global, text: &[u8]) -> Result<(ZoneName, Bytes), LineFault>
    ensures { Gives (λ x. (x.0, x.1)) result (ring_hex (fields_of text.now)) }
{
    let (ring, digits) = two(text).ok_or(LineFault::Bad)?;
    let zone = fields::ring(ring).ok_or(LineFault::Bad)?;
    let bytes = fields::payload(alloc, digits)?;
    Ok((zone, bytes))
}

#[tactic(auto, unfolding(grammar_spec::specs::Groups::time_flag_hex))]
fn time_flag_hex(alloc: Global, text: &[u8]) -> Result<(Time, bool, Bytes), LineFault>
    ensures { Gives (λ x. (x.0, x.1, x.2)) result (time_flag_hex (fields_of text.now)) }
{
    let (secs, micros, flag, digits) = four(text).ok_or(LineFault::Bad)?;
    let secs = fields::seconds(secs).ok_or(LineFault::Bad)?;
    let micros = fields::microseconds(micros).ok_or(LineFault::Bad)?;
    let packed = fields::flag(flag).ok_or(LineFault::Bad)?;
    let bytes = fields::payload(alloc, digits)?;
    Ok((Time { secs, micros }, packed, bytes))
}

#[tactic(auto, unfolding(grammar_spec::specs::Rows::step_line))]
fn step_line(text: &[u8]) -> Option<Line>
    ensures { result ≡ step_line (fields_of text.now) }
{
    let (zone, stores) = two(text)?;
    let zone = fields::zone(zone)?;
    let stores = fields::number(stores)?;
    Some(Line::Step(zone, stores))
}

#[tactic(auto, unfolding(grammar_spec::specs::Rows::flip_line))]
fn flip_line(text: &[u8]) -> Option<Line>
    ensures { result ≡ flip_line (fields_of text.now) }
{
    let (place, mask) = two(text)?;
    let place = fields::number(place)?;
    let mask = fields::mask(mask)?;
    Some(Line::Flip(place, mask))
}

#[tactic(auto, unfolding(grammar_spec::specs::Rows::kdump_line))]
fn kdump_line(alloc: Global, text: &[u8]) -> Result<Line, LineFault>
    ensures { Gives (λ x. x) result (kdump_line (fields_of text.now)) }
{
    let (secs, nanos, flag, reason, digits) = five(text).ok_or(LineFault::Bad)?;
    let secs = fields::seconds(secs).ok_or(LineFault::Bad)?;
    let nanos = fields::nanoseconds(nanos).ok_or(LineFault::Bad)?;
    let packed = fields::flag(flag).ok_or(LineFault::Bad)?;
    let reason = fields::reason(reason).ok_or(LineFault::Bad)?;
    let body = fields::payload(alloc, digits)?;
    Ok(Line::KDump(secs, nanos, packed, reason, body))
}

#[tactic(auto, unfolding(grammar_spec::specs::Rows::crash_line))]
fn crash_line(text: &[u8]) -> Option<Line>
    ensures { result ≡ crash_line (fields_of text.now) }
{
    let (reason, secs, micros) = three(text)?;
    let reason = fields::reason(reason)?;
    let secs = fields::seconds(secs)?;
    let micros = fields::microseconds(micros)?;
    Some(Line::Crash(reason, Time { secs, micros }))
}

#[tactic(auto, unfolding(grammar_spec::specs::Rows::store_line))]
fn store_line(text: &[u8]) -> Option<Line>
    ensures { result ≡ store_line (fields_of text.now) }
{
    let (ticket, count) = two(text)?;
    let ticket = fields::number(ticket)?;
    let count = fields::number(count)?;
    Some(Line::StoreNext(ticket, count))
}

#[tactic(auto, unfolding(grammar_spec::specs::Groups::one_zone))]
fn one_zone(text: &[u8]) -> Option<ZoneName>
    ensures { result ≡ one_zone (fields_of text.now) }
{
    let zone = one(text)?;
    fields::zone(zone)
}

#[tactic(auto, unfolding(grammar_spec::specs::Groups::one_number))]
fn one_number(text: &[u8]) -> Option<u32>
    ensures { result ≡ one_number (fields_of text.now) }
{
    let number = one(text)?;
    fields::number(number)
}

#[tactic(auto, unfolding(grammar_spec::specs::Groups::one_name))]
fn one_name(alloc: Global, text: &[u8]) -> Result<Bytes, LineFault>
    ensures { Gives (λ x. x) result (one_name (fields_of text.now)) }
{
    let name = one(text).ok_or(LineFault::Bad)?;
    fields::name(alloc, name)
}

#[tactic(auto, unfolding(grammar_spec::specs::Groups::one_message))]
fn one_message(alloc: Global, text: &[u8]) -> Result<Bytes, LineFault>
    ensures { Gives (λ x. x) result (one_message (fields_of text.now)) }
{
    let digits = one(text).ok_or(LineFault::Bad)?;
    fields::message(alloc, digits)
}

#[tactic(auto, unfolding(grammar_spec::specs::Groups::one_some_bytes))]
fn one_some_bytes(alloc: Global, text: &[u8]) -> Result<Bytes, LineFault>
    ensures { Gives (λ x. x) result (one_some_bytes (fields_of text.now)) }
{
    let digits = one(text).ok_or(LineFault::Bad)?;
    fields::some_bytes(alloc, digits)
}

// What stands after `begin`.
#[tactic(auto, unfolding(grammar_spec::specs::Rows::begin_row))]
fn begin_row(alloc: Global, word: &[u8], text: &[u8]) -> Result<Line, LineFault>
    ensures { Gives (λ x. x) result (begin_row word.now (fields_of text.now)) }
{
    if word == b"write".as_slice() {
        let (zone, bytes) = ring_hex(alloc, text)?;
        return Ok(Line::BeginWrite(zone, bytes));
    }
    if word == b"erase".as_slice() {
        let zone = one_zone(text).ok_or(LineFault::Bad)?;
        return Ok(Line::BeginErase(zone));
    }
    if word == b"dump".as_slice() {
        let (time, packed, bytes) = time_flag_hex(alloc, text)?;
        return Ok(Line::BeginDump(time, packed, bytes));
    }
    Err(LineFault::Bad)
}

fn begin_line(alloc: Global, text: &[u8]) -> Result<Line, LineFault>
    ensures { Gives (λ x. x) result (begin_line (fields_of text.now)) }
{
    match cut(text, b' ') {
        Some((word, rest)) => begin_row(alloc, word, rest),
        None => Err(LineFault::Bad),
    }
}

// A word and the fields after it, of which none has bytes.
#[tactic(auto, unfolding(grammar_spec::specs::Rows::plain_row))]
fn plain_row(word: &[u8], text: &[u8]) -> Option<Line>
    ensures { result ≡ plain_row word.now (fields_of text.now) }
{
    if word == b"step".as_slice() {
        return step_line(text);
    }
    if word == b"finish".as_slice() {
        return Some(Line::Finish(one_zone(text)?));
    }
    if word == b"flip".as_slice() {
        return flip_line(text);
    }
    if word == b"boot".as_slice() {
        return Some(Line::BootPart(one_number(text)?));
    }
    if word == b"cut".as_slice() {
        return Some(Line::CutAfter(one_number(text)?));
    }
    if word == b"crash".as_slice() {
        return crash_line(text);
    }
    if word == b"store".as_slice() {
        return store_line(text);
    }
    None
}

// A word and the fields after it.
#[tactic(auto, unfolding(grammar_spec::specs::Rows::row))]
fn row(alloc: Global, word: &[u8], text: &[u8]) -> Result<Line, LineFault>
    ensures { Gives (λ x. x) result (row word.now (fields_of text.now)) }
{
    if word == b"write".as_slice() {
        let (zone, bytes) = ring_hex(alloc, text)?;
        return Ok(Line::Write(zone, bytes));
    }
    if word == b"dump".as_slice() {
        let (time, packed, bytes) = time_flag_hex(alloc, text)?;
        return Ok(Line::Dump(time, packed, bytes));
    }
    if word == b"begin".as_slice() {
        return begin_line(alloc, text);
    }
    if word == b"extract".as_slice() {
        return Ok(Line::Extract(one_name(alloc, text)?));
    }
    if word == b"erase".as_slice() {
        return Ok(Line::Erase(one_name(alloc, text)?));
    }
    if word == b"kdump".as_slice() {
        return kdump_line(alloc, text);
    }
    if word == b"kmsg".as_slice() {
        return Ok(Line::KMsg(one_message(alloc, text)?));
    }
    if word == b"reserve".as_slice() {
        return Ok(Line::Reserve(one_some_bytes(alloc, text)?));
    }
    plain_row(word, text).ok_or(LineFault::Bad)
}

#[tactic(auto, unfolding(grammar_spec::specs::Rows::lone_word))]
fn lone_word(word: &[u8]) -> Option<Line>
    ensures { result ≡ lone_word word.now }
{
    if word == b"stop".as_slice() {
        Some(Line::Stop)
    } else if word == b"boot".as_slice() {
        Some(Line::Boot)
    } else if word == b"list".as_slice() {
        Some(Line::List)
    } else {
        None
    }
}

fn has_no_control(text: &[u8]) -> bool
    ensures { result ≡ list_all (λ b. nat_le 0x20 b) text.now }
{
    text.iter().all(|b| *b >= b' ')
}

fn is_blank(text: &[u8]) -> bool
    ensures { result ≡ is_blank text.now }
{
    text.is_empty() || text[0] == b'#' && has_no_control(text)
}

/// A line without its newline.
#[tactic(auto, unfolding(grammar_spec::specs::Lines::line_of))]
pub fn line_of(alloc: Global, text: &[u8]) -> Result<Line, LineFault>
    ensures { Gives (λ x. x) result (line_of text.now) }
{
    if is_blank(text) {
        return Ok(Line::Blank);
    }
    match cut(text, b' ') {
        Some((word, rest)) => row(alloc, word, rest),
        None => lone_word(text).ok_or(LineFault::Bad),
    }
}
