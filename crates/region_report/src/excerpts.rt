// Places of lines above and below one.
ghost use Rattle.std.specs.Prelude.{◌≡◌};
ghost use Rattle.death_spec.specs.Lines.{lines_from};
ghost use Rattle.report_spec.specs.Excerpts.{is_found as is_line_found, fewer as lines_fewer};
ghost use Rattle.report_spec.specs.Excerpts.{place_above as place_before, next_at, below as place_below};

use death::next_line;

/// Whether this is the newline before the line that is looked for.
fn is_found(b: u8, left: usize) -> bool
    ensures { result ≡ is_line_found b left }
{
    b == b'\n' && left == 0
}

/// The lines that are left above a byte.
fn fewer(b: u8, left: usize) -> usize
    ensures { result ≡ lines_fewer b left }
{
    if b == b'\n' {
        left.saturating_sub(1)
    } else {
        left
    }
}

/// The place of the line so many lines above the one at a place, or of the first.
pub fn place_above(text: &[u8], at: usize, lines: usize) -> usize
    ensures { result ≡ place_before text.now at lines }
{
    let mut place = at.min(text.len());
    let mut left = lines;
    'bytes: while place > 0 {
        let b = text[place - 1];
        if is_found(b, left) {
            return place;
        }
        left = fewer(b, left);
        place -= 1;
    }
    0
}

/// The place of the next line, or this place if there is none.
fn next_place(text: &[u8], place: usize) -> usize
    ensures { result ≡ next_at place (lines_from text.now place) }
{
    match next_line(text, place) {
        Some(line) => line.next,
        None => place,
    }
}

/// The place so many lines below one at which a line begins, or the end.
pub fn below(text: &[u8], at: usize, lines: usize) -> usize
    ensures { result ≡ place_below text.now at lines }
{
    let mut place = at;
    let mut left = lines;
    'lines: while left > 0 {
        place = next_place(text, place);
        left -= 1;
    }
    place
}
