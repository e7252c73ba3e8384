// A sink that colours a text.
ghost use Rattle.std.specs.Prelude.{◌≡◌, ◌+◌, ◌<◌, length, drop, None, MatchResult};
ghost use Rattle.std.specs.Io.KnownBytes.{Appends};
ghost use Rattle.outside.specs.Outside.{HasCause, AppendsFront};
ghost use Rattle.report_colours.specs.Colours.{coloured_line, coloured};

use crate::colours::{colour_of, line_end};
use outside::{Failed, Sink};

const PLAIN: &[u8] = b"\x1b[0m";

/// A sink that gives a report's text on with colours. It tells no content: `put` says what the sink below is given.
#[derive(Drop)]
pub struct ColourSink<W> {
    inner: W,
}

impl<W> ColourSink<W> {
    pub fn new(inner: W) -> ColourSink<W>
        ensures { result ≡ record { inner = inner } }
    {
        ColourSink { inner }
    }

    /// The sink below.
    pub fn into_inner(self) -> W
        ensures { result ≡ self.inner }
    {
        self.inner
    }
}

fn put_line<W: Sink>(out: &mut W, line: &[u8]) -> Result<(), Failed>
    ensures bytes { MatchResult result (λ _. Appends (W.given out.old) (W.given out.new) (coloured_line line.now))
        (λ _. AppendsFront (W.given out.old) (W.given out.new) (coloured_line line.now)) }
    ensures cause { HasCause (W.faults out.old) (W.faults out.new) result }
{
    let Some(colour) = colour_of(line) else {
        return out.put(line);
    };
    out.put(colour)?;
    out.put(line)?;
    out.put(PLAIN)
}

// What stands behind a place.
fn behind(text: &[u8], at: usize) -> &[u8]
    requires { at < length text.now }
    ensures { result.now ≡ drop (at + 1) text.now }
{
    &text[at + 1..]
}

fn put_coloured<W: Sink>(out: &mut W, text: &[u8]) -> Result<(), Failed>
    ensures bytes { MatchResult result (λ _. Appends (W.given out.old) (W.given out.new) (coloured text.now))
        (λ _. AppendsFront (W.given out.old) (W.given out.new) (coloured text.now)) }
    ensures cause { HasCause (W.faults out.old) (W.faults out.new) result }
{
    let mut rest = text;
    'lines: loop {
        let end = line_end(rest);
        put_line(out, &rest[..end])?;
        if end == rest.len() {
            return Ok(());
        }
        out.put(b"\n")?;
        rest = behind(rest, end);
    }
}

impl<W: Sink> Sink for ColourSink<W> {
    ghost given = { λ _. None };

    ghost faults = { λ s. W.faults s.inner };

    fn put(&mut self, bytes: &[u8]) -> Result<(), Failed>
        ensures bytes { MatchResult result (λ _. Appends None None bytes.now) (λ _. AppendsFront None None bytes.now) }
        ensures cause { HasCause (W.faults self.old.inner) (W.faults self.new.inner) result }
        ensures coloured { MatchResult result
            (λ _. Appends (W.given self.old.inner) (W.given self.new.inner) (coloured bytes.now))
            (λ _. AppendsFront (W.given self.old.inner) (W.given self.new.inner) (coloured bytes.now)) }
    {
        put_coloured(&mut self.inner, bytes)
    }
}
