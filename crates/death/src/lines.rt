// Lines of a text, and their parts.
ghost use Rattle.std.specs.Prelude.{◌≡◌, ◌≤◌, ◌<◌, ◌+◌, ◌^◌, ℕ, [], ◌∷◌, length, IfSome, IfNone};
ghost use Rattle.death_spec.specs.Marks.{rows};
ghost use Rattle.death.specs.Rows.{Covers};
ghost use Rattle.death_spec.specs.Lines.{bracket_end, level_len, stamp_len, caller_len, unreturned_len, uncoloured_len};
ghost use Rattle.death_spec.specs.Lines.{content, line_of};
ghost use Rattle.death_spec.specs.Lines.{lines_from, part, digits_level, level_of, is_kernels, said, kind, is_a};
ghost use Rattle.death_spec.specs.Lines.{unnumbered, has, task_mark, warning_mark, mark_in};

use crate::marks::{
    byte_at, front_len, is_mark, line_len, mark_by, mark_of, place_of, run_from, starts_with, tail,
};
use crate::prefixes::past_pieces;
use death_spec::{Class, Line, Mark};

fn bracket_end(text: &[u8], opening: u8, from: usize, to: usize, close: u8) -> usize
    requires { 0 < close }
    ensures end { result ≡ bracket_end opening from to close text.now }
    ensures within { result ≤ length text.now }
{
    if byte_at(text, 0) == opening && from < to && byte_at(text, to) == close {
        to + 1
    } else {
        0
    }
}

fn level_len(text: &[u8]) -> usize
    ensures len { result ≡ level_len text.now }
    ensures within { result ≤ length text.now }
{
    bracket_end(text, b'<', 1, run_from(text, 1, Class::Digit), b'>')
}

fn stamp_len(text: &[u8]) -> usize
    ensures len { result ≡ stamp_len text.now }
    ensures within { result ≤ length text.now }
{
    let from = run_from(text, 1, Class::Blank);
    bracket_end(text, b'[', from, run_from(text, from, Class::Number), b']')
}

fn caller_len(text: &[u8]) -> usize
    ensures len { result ≡ caller_len text.now }
    ensures within { result ≤ length text.now }
{
    let letter = run_from(text, 1, Class::Blank);
    let b = byte_at(text, letter);
    if b == b'T' || b == b'C' {
        let end = run_from(text, letter + 1, Class::Digit);
        bracket_end(text, b'[', letter + 1, end, b']')
    } else {
        0
    }
}

fn unreturned_len(piece: &[u8]) -> usize
    ensures len { result ≡ unreturned_len piece.now }
    ensures within { result ≤ length piece.now }
{
    let len = piece.len();
    if byte_at(piece, len.saturating_sub(1)) == b'\r' {
        len - 1
    } else {
        len
    }
}

fn uncoloured_len(piece: &[u8]) -> usize
    ensures len { result ≡ uncoloured_len piece.now }
    ensures within { result ≤ length piece.now }
{
    let len = piece.len().saturating_sub(4);
    if starts_with(tail(piece, len), b"\x1b[0m".as_slice()) {
        len
    } else {
        piece.len()
    }
}

fn content(piece: &[u8]) -> &[u8]
    ensures content { result.now ≡ content piece.now }
    ensures within { length result.now ≤ length piece.now }
{
    let unreturned = &piece[..unreturned_len(piece)];
    &unreturned[..uncoloured_len(unreturned)]
}

#[tactic(auto, unfolding(death_spec::specs::Lines::line_of))]
fn line_of(at: usize, piece: &[u8]) -> Line
    requires { at + length piece.now < 2 ^ 63 }
    ensures { result ≡ line_of at piece.now }
{
    let bytes = content(piece);
    let level = past_pieces(bytes, true, 0);
    let stamp = level + level_len(tail(bytes, level));
    let caller = stamp + stamp_len(tail(bytes, stamp));
    let behind = caller + caller_len(tail(bytes, caller));
    Line {
        start: at,
        level: at + level,
        stamp: at + stamp,
        caller: at + caller,
        text: at + past_pieces(bytes, false, behind),
        end: at + bytes.len(),
        next: at + piece.len() + 1,
    }
}

/// The line that begins at a place of the text. The next one begins at its `next`.
pub fn next_line(text: &[u8], at: usize) -> Option<Line>
    ensures line { IfSome result (λ line. lines_from text.now at ≡ line ∷ lines_from text.now line.next) }
    ensures next { IfSome result (λ line. (at < line.next) × (at ≤ length text.now)) }
    ensures none { IfNone result (lines_from text.now at ≡ []) }
{
    if text.len() < at {
        return None;
    }
    let rest = tail(text, at);
    Some(line_of(at, &rest[..line_len(rest)]))
}

/// The bytes between two places, as far as the text has them.
pub fn part(text: &[u8], from: usize, to: usize) -> &[u8]
    ensures part { result.now ≡ part text.now from to }
    ensures within { 0 < length result.now → from + length result.now ≤ to }
{
    let end = to.min(text.len());
    if from < end { &text[from..end] } else { &[] }
}

fn digits_level(digits: &[u8]) -> u8
    ensures { result ≡ digits_level 0 digits.now }
{
    let mut level = 0;
    let mut at = 0;
    'digits: while at < digits.len() {
        level = (10 * level + u32::from(digits[at].saturating_sub(b'0'))) % 8;
        at += 1;
    }
    level as u8
}

/// The level of a line, from 0, the gravest, to 7; `None` if it has none.
pub fn level(text: &[u8], line: Line) -> Option<u8>
    ensures { result ≡ level_of text.now line }
{
    if line.level < line.stamp {
        Some(digits_level(part(text, line.level + 1, line.stamp - 1)))
    } else {
        None
    }
}

fn is_kernels(text: &[u8], line: Line) -> bool
    ensures { result ≡ is_kernels text.now line }
{
    if line.stamp < line.level {
        return false;
    }
    let len = line.stamp - line.level;
    len == 0 || (len == 3 && byte_at(text, line.level + 1) < b'8')
}

/// What the kernel says in a line.
pub fn said(text: &[u8], line: Line) -> &[u8]
    ensures said { result.now ≡ said text.now line }
    ensures within { 0 < length result.now → line.text + length result.now ≤ line.end }
{
    if is_kernels(text, line) {
        part(text, line.text, line.end)
    } else {
        &[]
    }
}

pub fn unnumbered(words: &[u8]) -> &[u8]
    ensures { result.now ≡ unnumbered words.now }
{
    let end = run_from(words, front_len(words), Class::Digit);
    if byte_at(words, end) == b':' {
        part(words, end + 2, words.len())
    } else {
        part(words, end + 1, words.len())
    }
}

// Whether words of a mark stand anywhere in a text.
fn has(words: &[u8], mark: Mark) -> bool
    ensures { result ≡ has mark words.now }
{
    place_of(words, mark) < words.len()
}

fn task_mark(words: &[u8]) -> Mark
    ensures { result ≡ task_mark words.now }
{
    if has(words, Mark::Blocked) {
        Mark::HungTask
    } else {
        Mark::OnTask
    }
}

fn warning_mark(words: &[u8]) -> Mark
    ensures { result ≡ warning_mark words.now }
{
    if has(words, Mark::Warned) {
        Mark::Warning
    } else {
        Mark::Caution
    }
}

// A processor's number can stand before the words that count. A line on a task counts only if it says how long, and one
// that warns only if it names its processor.
fn mark_in(words: &[u8], mark: Option<Mark>) -> Option<Mark>
    ensures { result ≡ mark_in words.now mark }
{
    if is_mark(mark, Mark::Numbered) {
        mark_of(unnumbered(words))
    } else {
        if is_mark(mark, Mark::OnTask) {
            Some(task_mark(words))
        } else {
            if is_mark(mark, Mark::Caution) {
                Some(warning_mark(words))
            } else {
                mark
            }
        }
    }
}

/// What `kind` answers, faster where most lines begin with no words.
pub fn kind_by(firsts: &[bool; 256], text: &[u8], line: Line) -> Option<Mark>
    requires { Covers rows firsts.now }
    ensures { result ≡ kind text.now line }
{
    let words = said(text, line);
    mark_in(words, mark_by(firsts, words))
}

/// What a line is, by the words at its front.
pub fn kind(text: &[u8], line: Line) -> Option<Mark>
    ensures { result ≡ kind text.now line }
{
    let words = said(text, line);
    mark_in(words, mark_of(words))
}

/// Whether the kernel says words of a mark at the front of a line.
pub fn is_a(text: &[u8], mark: Mark, line: Line) -> bool
    ensures { result ≡ is_a text.now mark line }
{
    is_mark(kind(text, line), mark)
}
