// The colour of a line.
ghost use Rattle.std.specs.Prelude.{◌≡◌, ◌≤◌, true, length, Option, Some, None};
ghost use Rattle.std.specs.Option.{option_copied};
ghost use Rattle.std.specs.List.{position, position_or_len};
ghost use Rattle.report_colours.specs.Colours.{is_bracket, level_field, has_level, level_of, tells_death, has_bad, level_colour};
ghost use Rattle.report_colours.specs.Colours.{colour_of, is_newline};

use kernel_line::long_digits;

const RED: &[u8] = b"\x1b[31m";

const BOLD_RED: &[u8] = b"\x1b[1;31m";

const YELLOW: &[u8] = b"\x1b[33m";

fn bracket(field: &[u8]) -> Option<usize>
    ensures { result ≡ position is_bracket field.now }
{
    field.iter().position(|b| *b == b'>')
}

fn level_field(line: &[u8]) -> &[u8]
    requires { 3 ≤ length line.now }
    ensures { result.now ≡ level_field line.now }
{
    let field = &line[3..];
    if field.len() > 4 { &field[..4] } else { field }
}

// Whether a line begins as `  <4>[` does, or as `> <4>[`.
fn has_level(line: &[u8]) -> bool
    ensures has { result ≡ has_level line.now }
    ensures within { result ≡ true → 3 ≤ length line.now }
{
    line.starts_with(b"  <") || line.starts_with(b"> <")
}

// The level of such a line.
fn level(line: &[u8]) -> Option<u64>
    ensures { result ≡ level_of line.now }
{
    if !has_level(line) {
        return None;
    }
    let field = level_field(line);
    let end = bracket(field)?;
    Some(long_digits(&field[..end], 10)? % 8)
}

fn tells_death(line: &[u8]) -> bool
    ensures { result ≡ tells_death line.now }
{
    line.starts_with(b"died: ")
}

fn has_bad(line: &[u8]) -> bool
    ensures { result ≡ has_bad line.now }
{
    (line.starts_with(b"dump ")
        || line.starts_with(b"console ")
        || line.starts_with(b"ftrace ")
        || line.starts_with(b"pmsg "))
        && !line.ends_with(b" 0")
}

fn level_colour(level: Option<u64>) -> Option<&'static [u8]>
    ensures { option_copied result ≡ level_colour level }
{
    match level? {
        0..=3 => Some(RED),
        4 => Some(YELLOW),
        _ => None,
    }
}

/// The colour in which a line begins, if it has one.
pub fn colour_of(line: &[u8]) -> Option<&'static [u8]>
    ensures { option_copied result ≡ colour_of line.now }
{
    if tells_death(line) {
        return Some(BOLD_RED);
    }
    if has_bad(line) {
        return Some(RED);
    }
    level_colour(level(line))
}

fn newline_at(text: &[u8]) -> Option<usize>
    ensures { result ≡ position is_newline text.now }
{
    text.iter().position(|b| *b == b'\n')
}

/// The place of the first newline, or the length.
#[tactic(auto, using(kernel_line::proofs::Places::place_or_len, kernel_line::proofs::Places::place_within))]
pub fn line_end(text: &[u8]) -> usize
    ensures place { result ≡ position_or_len is_newline text.now }
    ensures within { result ≤ length text.now }
{
    newline_at(text).unwrap_or(text.len())
}
