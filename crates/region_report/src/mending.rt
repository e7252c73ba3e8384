// A text, whose doubtful bytes are taken from the same lines of another.
ghost use Rattle.std.specs.Prelude.{◌≡◌, ◌++◌, ℕ, length, map, IfOk, OnOk};
ghost use Rattle.std.specs.List.{find, range_with_len};
ghost use Rattle.std.specs.HashMap.{get};
ghost use Rattle.death_spec.specs.Lines.{lines_from, part as part_of};
ghost use Rattle.report_spec.specs.Doubts.{doubts_between as doubts_in};
ghost use Rattle.report_spec.specs.Mending.{mended_byte as byte_mended, still_doubted as is_still_doubted, is_keyed};
ghost use Rattle.report_spec.specs.Mending.{mended_text, doubts_left};
ghost use Rattle.region_report.specs.Mendings.{as_seen, is_same_key};

use crate::doubts::doubts_between;
use crate::same_lines::{Places, Seen, byte_at, is_doubted, partner, places_of, stamped};
use death::{next_line, part};
use death_spec::Line;
use std::alloc::{AllocError, Global};

/// A text as it is mended, and the doubts that are left of its bytes.
#[derive(Drop)]
pub struct MendedText {
    pub text: Vec<u8>,
    pub doubts: Vec<bool>,
}

fn mended_byte(x: &Seen<'_>, y: &Seen<'_>, k: usize) -> u8
    ensures { result ≡ byte_mended (as_seen x.now) (as_seen y.now) k }
{
    if is_doubted(x, k) && !is_doubted(y, k) {
        byte_at(y.text, k)
    } else {
        byte_at(x.text, k)
    }
}

fn still_doubted(x: &Seen<'_>, y: &Seen<'_>, k: usize) -> bool
    ensures { result ≡ is_still_doubted (as_seen x.now) (as_seen y.now) k }
{
    is_doubted(x, k) && is_doubted(y, k)
}

impl MendedText {
    ghost use Rattle.region_report.specs.Mendings.{Mends};

    // Adds this part of a line that the other text does not have.
    fn add_own(&mut self, a: &Seen<'_>, from: usize, to: usize) -> Result<(), AllocError>
        ensures text { OnOk result (self.new.text.items
            ≡ self.old.text.items ++ part_of a.now.text.now from to) }
        ensures doubts { OnOk result (self.new.doubts.items
            ≡ self.old.doubts.items ++ doubts_in a.now.doubts.now from to) }
    {
        self.text.extend_from_slice(part(a.text, from, to))?;
        self.doubts
            .extend_from_slice(doubts_between(a.doubts, from, to))
    }

    // Adds the bytes of a line that both have.
    fn add_shared(&mut self, x: &Seen<'_>, y: &Seen<'_>, len: usize) -> Result<(), AllocError>
        ensures text { OnOk result (self.new.text.items ≡ self.old.text.items
            ++ map (byte_mended (as_seen x.now) (as_seen y.now)) (range_with_len 0 len)) }
        ensures doubts { OnOk result (self.new.doubts.items ≡ self.old.doubts.items
            ++ map (is_still_doubted (as_seen x.now) (as_seen y.now)) (range_with_len 0 len)) }
    {
        for k in 0..len {
            self.text.push(mended_byte(x, y, k))?;
            self.doubts.push(still_doubted(x, y, k))?;
        }
        Ok(())
    }

    // Adds a line of a text, of which another has these lines.
    fn add(
        &mut self,
        a: &Seen<'_>,
        b: &Seen<'_>,
        places: &Places,
        line: Line,
    ) -> Result<(), AllocError>
        requires { (q : ℕ × ℕ) → get is_same_key places.now q
            ≡ find (is_keyed b.now.text.now q) (lines_from b.now.text.now 0) }
        ensures { IfOk result (λ _. Mends (as_seen a.now) (as_seen b.now) line self.old self.new) }
    {
        let Some(other) = partner(a, b, places, line) else {
            return self.add_own(a, line.start, line.next);
        };
        let (x, y) = (stamped(a, line), stamped(b, other));
        self.add_own(a, line.start, line.stamp)?;
        self.add_shared(&x, &y, x.text.len())
    }
}

/// A text, each byte of it that is doubtful taken from the same line of another that vouches for it, and the doubts
/// that are left. Takes time linear in both texts.
pub fn mended(alloc: Global, a: &Seen<'_>, b: &Seen<'_>) -> Result<MendedText, AllocError>
    ensures text { IfOk result (λ m. m.text.items ≡ mended_text (as_seen a.now) (as_seen b.now)) }
    ensures doubts { IfOk result (λ m. m.doubts.items ≡ doubts_left (as_seen a.now) (as_seen b.now)) }
{
    let places = places_of(alloc, b.text)?;
    let mut out = MendedText {
        text: Vec::with_capacity(alloc, a.text.len())?,
        doubts: Vec::with_capacity(alloc, a.doubts.len())?,
    };
    let mut at = 0;
    'lines: while let Some(line) = next_line(a.text, at) {
        out.add(a, b, &places, line)?;
        at = line.next;
    }
    Ok(out)
}
