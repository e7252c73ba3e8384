// What others write before a line of the kernel.
ghost use Rattle.std.specs.Prelude.{◌≡◌, ◌≤◌, ◌+◌, true, length, drop};
ghost use Rattle.death_spec.specs.Fronts.{is_clock, begins_with_clock, landmark_len, past_word, landmark_end};
ghost use Rattle.death_spec.specs.Fronts.{escape_len, bracketed_len, begins_date, date_len, host_len, worded_len};
ghost use Rattle.death_spec.specs.Fronts.{piece_len, past_pieces};
ghost use Rattle.death_spec.specs.Marks.{is_digit};
ghost use Rattle.death_spec.specs.declared.Landmark.TheVariants.{Clock};

use crate::marks::{byte_at, is_blank, run, run_from, starts_with, tail};
use death_spec::{Class, Landmark};

pub fn is_digit(b: u8) -> bool
    ensures { result ≡ is_digit b }
{
    48 <= b && b <= 57
}

// Whether `22:45` stands at a place.
fn is_clock(text: &[u8], at: usize) -> bool
    requires { at ≤ 11 }
    ensures { result ≡ is_clock text.now at }
{
    is_digit(byte_at(text, at))
        && is_digit(byte_at(text, at + 1))
        && byte_at(text, at + 2) == b':'
        && is_digit(byte_at(text, at + 3))
        && is_digit(byte_at(text, at + 4))
}

fn begins_with_clock(text: &[u8]) -> bool
    ensures { result ≡ begins_with_clock text.now }
{
    is_clock(text, 0)
        || (16 <= run(text, Class::Word) && byte_at(text, 10) == b'T' && is_clock(text, 11))
}

// How long a landmark at the front is.
fn landmark_len(text: &[u8], landmark: Landmark) -> usize
    ensures len { result ≡ landmark_len landmark text.now }
    ensures within { result ≤ length text.now }
{
    match landmark {
        Landmark::Clock => {
            if begins_with_clock(text) {
                run(text, Class::Word)
            } else {
                0
            }
        }
        Landmark::Kernel => {
            if starts_with(text, b"kernel:".as_slice()) {
                7
            } else {
                0
            }
        }
    }
}

// Behind a word and the blanks after it.
fn past_word(text: &[u8]) -> usize
    ensures past { result ≡ past_word text.now }
    ensures within { result ≤ length text.now }
{
    let word = run(text, Class::Colonless);
    let end = run_from(text, word, Class::Blank);
    if word < end { end } else { 0 }
}

// Where a landmark ends that is one of the words from a place on.
fn landmark_end(text: &[u8], landmark: Landmark, words: u8, from: usize) -> usize
    requires { from ≤ length text.now }
    ensures end { result ≡ landmark_end landmark words text.now from }
    ensures within { result ≤ length text.now }
{
    let mut left = words;
    let mut at = from;
    'words: while left > 0 {
        let rest = tail(text, at);
        let len = landmark_len(rest, landmark);
        if len > 0 {
            return at + len;
        }
        let word = past_word(rest);
        if word == 0 {
            return 0;
        }
        at += word;
        left -= 1;
    }
    0
}

fn escape_len(text: &[u8]) -> usize
    ensures len { result ≡ escape_len text.now }
    ensures within { result ≤ length text.now }
{
    let end = run_from(text, 2, Class::Parameter);
    if byte_at(text, 1) == b'[' && end < text.len() {
        end + 1
    } else {
        0
    }
}

fn bracketed_len(text: &[u8]) -> usize
    ensures len { result ≡ bracketed_len text.now }
    ensures within { result ≤ length text.now }
{
    let close = run(text, Class::Bracketed);
    if 0 < close && close < text.len() && 0 < landmark_end(&text[..close], Landmark::Clock, 5, 1) {
        close + 1
    } else {
        0
    }
}

fn begins_date(text: &[u8]) -> bool
    ensures { result ≡ begins_date text.now }
{
    let first = byte_at(text, 0);
    is_digit(first) || (65 <= first && first <= 90 && is_blank(byte_at(text, 3)))
}

fn date_len(text: &[u8]) -> usize
    ensures len { result ≡ date_len text.now }
    ensures within { result ≤ length text.now }
{
    if begins_date(text) {
        landmark_end(text, Landmark::Clock, 4, 0)
    } else {
        0
    }
}

fn host_len(text: &[u8], is_first: bool) -> usize
    ensures len { result ≡ host_len is_first text.now }
    ensures within { result ≤ length text.now }
{
    landmark_end(text, Landmark::Kernel, if is_first { 3 } else { 2 }, 0)
}

fn worded_len(text: &[u8], is_first: bool) -> usize
    ensures len { result ≡ worded_len is_first text.now }
    ensures within { result ≤ length text.now }
{
    let host = host_len(text, is_first);
    if 0 < host {
        host
    } else if is_first {
        date_len(text)
    } else {
        0
    }
}

// How long a piece at the front is that is none of the kernel's.
#[tactic(auto, unfolding(death_spec::specs::Fronts::piece_len))]
fn piece_len(text: &[u8], is_first: bool) -> usize
    ensures len { result ≡ piece_len is_first text.now }
    ensures within { result ≤ length text.now }
{
    let first = byte_at(text, 0);
    if is_blank(first) {
        run(text, Class::Blank)
    } else if first == 0x1b {
        escape_len(text)
    } else if first == b'\r' {
        1
    } else if first == b'<' {
        0
    } else if first == b'[' {
        if is_first { bracketed_len(text) } else { 0 }
    } else {
        worded_len(text, is_first)
    }
}

/// Behind the pieces from a place on, eight at most.
pub fn past_pieces(text: &[u8], is_first: bool, from: usize) -> usize
    requires { from ≤ length text.now }
    ensures past { result ≡ past_pieces is_first 8 text.now from }
    ensures within { result ≤ length text.now }
{
    let mut left = 8u8;
    let mut at = from;
    'pieces: while left > 0 {
        let len = piece_len(tail(text, at), is_first);
        if len == 0 {
            return at;
        }
        at += len;
        left -= 1;
    }
    at
}
