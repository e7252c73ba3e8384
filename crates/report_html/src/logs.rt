// Logs, line by line, each in its level's colour, with a mark if a byte of it is doubtful.
ghost use Rattle.std.specs.Prelude.{◌≡◌, ◌++◌, true, slice_index, OnOk};
ghost use Rattle.death_spec.specs.Lines.{is_kernels};
ghost use Rattle.report_html.specs.Logs.{line_bytes, level_words, level_shown, marked, line_by, line_text as text_of_line};
ghost use Rattle.report_html.specs.Logs.{log_text};

use crate::escaping::push_escaped;
use death::{level, next_line, part};
use death_spec::Line;
use region_report::has_doubt;
use std::alloc::AllocError;

fn level_tag(level: u8) -> &'static str
    ensures { result.now ≡ level_words level }
{
    match level {
        0 => "<i class=\"l0\">",
        1 => "<i class=\"l1\">",
        2 => "<i class=\"l2\">",
        3 => "<i class=\"l3\">",
        4 => "<i class=\"l4\">",
        5 => "<i class=\"l5\">",
        _ => "<i class=\"l7\">",
    }
}

/// The byte at a place, or 0 past the end.
fn byte_at(text: &[u8], at: usize) -> u8
    ensures { result ≡ slice_index text.now at }
{
    if at < text.len() { text[at] } else { 0 }
}

/// Whether the kernel wrote a line, and not a program.
fn is_kernels(text: &[u8], line: Line) -> bool
    ensures { result ≡ is_kernels text.now line }
{
    if line.stamp < line.level {
        return false;
    }
    let len = line.stamp - line.level;
    len == 0 || (len == 3 && byte_at(text, line.level + 1) < b'8')
}

/// The level of a line that the kernel wrote.
fn level_shown(text: &[u8], line: Line) -> Option<u8>
    ensures { result ≡ level_shown text.now line }
{
    if is_kernels(text, line) {
        level(text, line)
    } else {
        None
    }
}

/// Appends bytes of which one is doubtful.
fn push_doubtful(out: &mut Vec<u8>, bytes: &[u8]) -> Result<(), AllocError>
    ensures { OnOk result (out.new.items ≡ out.old.items ++ marked true bytes.now) }
{
    out.extend_from_slice(b"<u title=\"in a bad block\">")?;
    push_escaped(out, bytes)?;
    out.extend_from_slice(b"</u>")
}

/// Appends bytes, marked if one of them is doubtful.
fn push_marked(out: &mut Vec<u8>, doubtful: bool, bytes: &[u8]) -> Result<(), AllocError>
    ensures { OnOk result (out.new.items ≡ out.old.items ++ marked doubtful bytes.now) }
{
    if doubtful {
        push_doubtful(out, bytes)
    } else {
        push_escaped(out, bytes)
    }
}

/// Appends a line in its level's colour.
fn push_coloured(
    out: &mut Vec<u8>,
    doubtful: bool,
    level: u8,
    bytes: &[u8],
) -> Result<(), AllocError>
    ensures { OnOk result (out.new.items ≡ out.old.items ++ line_by doubtful (Some level) bytes.now) }
{
    if level == 6 {
        return push_marked(out, doubtful, bytes);
    }
    out.extend_from_slice(level_tag(level).as_bytes())?;
    push_marked(out, doubtful, bytes)?;
    out.extend_from_slice(b"</i>")
}

fn push_line(out: &mut Vec<u8>, doubts: &[bool], text: &[u8], line: Line) -> Result<(), AllocError>
    ensures { OnOk result (out.new.items ≡ out.old.items ++ text_of_line doubts.now text.now line) }
{
    let bytes = part(text, line.start, line.next);
    let doubtful = has_doubt(doubts, line.start, line.next);
    match level_shown(text, line) {
        Some(level) => push_coloured(out, doubtful, level, bytes),
        None => push_marked(out, doubtful, bytes),
    }
}

/// Appends the lines of a log with the doubts of its bytes.
pub fn push_log(out: &mut Vec<u8>, doubts: &[bool], text: &[u8]) -> Result<(), AllocError>
    ensures { OnOk result (out.new.items ≡ out.old.items ++ log_text doubts.now text.now) }
{
    let mut at = 0;
    'lines: while let Some(line) = next_line(text, at) {
        push_line(out, doubts, text, line)?;
        at = line.next;
    }
    Ok(())
}
