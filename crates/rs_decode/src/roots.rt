// The places of a word at which its locator is zero.
ghost use Rattle.std.specs.Prelude.{◌≡◌, ◌+◌, ◌-◌, ◌/◌, ◌≤◌, ◌<◌, ℕ, ◌++◌, length};
ghost use Rattle.std.specs.Prelude.{take, List};
ghost use Rattle.rs_decode.specs.Decoding.{within};
ghost use Rattle.decoder_laws.specs.Chien.{roots_of};
ghost use Rattle.rs_decode.specs.Fixes.{AreValues};

use crate::lanes::{move_on, scale, value_bytes};
use arrayvec::ArrayVec;
use gf_poly::rising_values;

/// As [`own_roots`], for a locator of any length: by Horner's rule on 64 places at once.
#[inline(never)]
fn many_roots(locator: &[u8], places: usize, powers: &mut ArrayVec<u8, 63>)
    requires some { 0 < length locator.now }
    requires fits { length locator.now ≤ 64 }
    requires places { places ≤ 255 }
    ensures { powers.new.items ≡ take (length locator.now - 1) (roots_of locator.now places) }
{
    powers.clear();
    let degree = locator.len() - 1;
    let mut values = [0u8; 64];
    for place in 0..places {
        if powers.len() == degree {
            return;
        }
        if place % 64 == 0 {
            rising_values(locator, 256 - places + place, &mut values);
        }
        let power = (places - 1 - place) as u8;
        if values[place % 64] == 0 {
            powers.push(power);
        }
    }
}

/// Adds to the first `count` of `found` the powers below `left` at whose reciprocals a polynomial is zero, from the highest
/// on, of as many as there are values of it, and returns how many there are then. It stores before it counts, with no
/// branch that a root would turn.
fn take_roots(values: &[u8], left: usize, found: &mut [u8], count: usize) -> usize
    requires some { length values.now ≤ left }
    requires few { left ≤ 255 }
    requires room { count + length values.now ≤ length found.old }
    ensures more { result ≤ count + length values.now }
    ensures roots { (v : List ℕ) → AreValues v left values.now
        → take result found.new ++ roots_of v (left - length values.now) ≡ take count found.old ++ roots_of v left }
{
    let mut n = count;
    for k in 0..values.len() {
        found[n] = (left - 1 - k) as u8;
        if values[k] == 0 {
            n += 1;
        }
    }
    n
}

/// As [`own_roots`], for a locator of few symbols: its values at 16 places at once, by a table.
#[inline(never)]
fn few_roots(locator: &[u8], places: usize, powers: &mut ArrayVec<u8, 63>)
    requires some { 0 < length locator.now }
    requires few { length locator.now ≤ 16 }
    requires places { places ≤ 255 }
    ensures { powers.new.items ≡ take (length locator.now - 1) (roots_of locator.now places) }
{
    let degree = locator.len() - 1;
    let mut buffer = [0u8; 16];
    let terms = &mut buffer[..locator.len()];
    scale(locator, 256 - places, terms);
    let mut found = [0u8; 32];
    let mut count = 0usize;
    for block in 0..places / 16 {
        if count >= degree {
            take_front(&found, degree, powers);
            return;
        }
        count = take_roots(&value_bytes(terms), places - 16 * block, &mut found, count);
        move_on(terms);
    }
    if count < degree {
        let left = places % 16;
        count = take_roots(&value_bytes(terms)[..left], left, &mut found, count);
    }
    take_front(&found, count.min(degree), powers);
}

/// Makes `powers` the first `count` of `found`.
fn take_front(found: &[u8], count: usize, powers: &mut ArrayVec<u8, 63>)
    requires few { count ≤ 63 }
    requires within { count ≤ length found.now }
    ensures { powers.new.items ≡ take count found.now }
{
    powers.clear();
    let _room = powers.try_extend_from_slice(&found[..count]);
}

/// The powers of the word's own places at which the locator is zero, from the highest on: Chien's search.
pub(crate) fn own_roots(locator: &[u8], places: usize, powers: &mut ArrayVec<u8, 63>)
    requires some { 0 < length locator.now }
    requires fits { length locator.now ≤ 64 }
    requires places { places ≤ 255 }
    ensures { powers.new.items ≡ take (length locator.now - 1) (roots_of locator.now places) }
{
    if locator.len() <= 16 {
        few_roots(locator, places, powers);
    } else {
        many_roots(locator, places, powers);
    }
}
