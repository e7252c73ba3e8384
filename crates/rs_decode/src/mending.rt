// A word as its fixes mend it: whether it is a codeword, and the word in its place.
ghost use Rattle.std.specs.Prelude.{◌≡◌, ◌+◌, ◌-◌, ◌≤◌, ◌<◌, ◌↔◌, ℕ, ◌++◌, length, slice_index, slice_set};
ghost use Rattle.std.specs.Prelude.{true, false, IsTrue, None};
ghost use Rattle.code_spec.specs.Field.{gf_add, gf_mul, gf_pow};
ghost use Rattle.code_spec.specs.Code.{value_of, distance, nearest};
ghost use Rattle.code_laws.proofs.Symbols.{HasRoots};
ghost use Rattle.rs_encode.specs.Lanes.{IsLent};
ghost use Rattle.rs_decode.specs.Decoding.{within};
ghost use Rattle.rs_decode.specs.Fixes.{AllInside, applied, fixes_between, fix_sum};
ghost use Rattle.decoder_laws.specs.Damage.{IsWithin};

use crate::Fix;
use crate::excess::all_zero;
use crate::forney::candidate;
use arrayvec::ArrayVec;
use gf256::{add, alpha_pow, antilog, log, mul};
use rs_encode::is_parity_by;

/// The logarithm of a product, by those of its factors.
fn log_product(a: u8, b: u8) -> u8
    requires a { a < 255 }
    requires b { b < 255 }
    ensures below { result < 255 }
    ensures value { gf_pow 2 result ≡ gf_mul (gf_pow 2 a) (gf_pow 2 b) }
{
    let sum = a as u16 + b as u16;
    if sum < 255 {
        sum as u8
    } else {
        (sum - 255) as u8
    }
}

/// Adds to the values those of a mask at one power: the mask has the logarithm `mask_log`.
fn add_terms(values: &mut [u8], mask_log: u8, power: u8)
    requires mask_log { mask_log < 255 }
    requires power { power < 255 }
    ensures { (k : ℕ) → k < length values.new → slice_index values.new k
        ≡ gf_add (slice_index values.old k) (gf_mul (gf_pow 2 mask_log) (gf_pow (gf_pow 2 power) k)) }
{
    let mut term = mask_log;
    for k in 0..values.len() {
        values[k] = add(values[k], alpha_pow(term));
        term = log_product(term, power);
    }
}

/// Adds to values at 2 to the `first`, to the next and so on those of the mask at one power.
fn add_fix(values: &mut [u8], first: usize, mask: u8, power: u8)
    requires first { first ≤ 127 }
    requires power { power < 255 }
    ensures { (k : ℕ) → k < length values.new → slice_index values.new k
        ≡ gf_add (slice_index values.old k) (gf_mul mask (gf_pow (gf_pow 2 power) (first + k))) }
{
    let term = mul(mask, antilog(power as usize * first));
    if term == 0 {
        return;
    }
    add_terms(values, log(term), power);
}

/// Adds to the values of a word, at 2 to the `first`, to the next and so on, those of its fixes: they become those of the
/// fixed word.
fn add_fixes(values: &mut [u8], first: usize, fixes: &[Fix], places: usize)
    requires first { first ≤ 127 }
    requires places { places ≤ 255 }
    requires inside { AllInside places fixes.now }
    ensures { (k : ℕ) → k < length values.new → slice_index values.new k
        ≡ gf_add (slice_index values.old k) (fix_sum places fixes.now (gf_pow 2 (first + k))) }
{
    for fix in fixes {
        add_fix(
            values,
            first,
            fix.mask,
            (places - 1 - fix.place as usize) as u8,
        );
    }
}

/// Adds the mask to its place, where the word has it.
fn apply_fix(word: &mut [u8], place: u8, mask: u8)
    ensures { word.new ≡ slice_set word.old place (gf_add (slice_index word.old place) mask) }
{
    let place = place as usize;
    if place < word.len() {
        word[place] = add(word[place], mask);
    }
}

/// Adds the masks of the places that the word has.
pub(crate) fn apply(word: &mut [u8], fixes: &[Fix])
    ensures { word.new ≡ applied fixes.now word.old }
{
    for fix in fixes {
        apply_fix(word, fix.place, fix.mask);
    }
}

fn extend(word: &mut ArrayVec<u8, 255>, more: &[u8])
    requires { length word.old.items + length more.now ≤ 255 }
    ensures { word.new.items ≡ word.old.items ++ more.now }
{
    match word.try_extend_from_slice(more) {
        Ok(()) => {}
        Err(_) => unreachable!(),
    }
}

fn joined(msg: &[u8], par: &[u8]) -> ArrayVec<u8, 255>
    requires { length msg.now + length par.now ≤ 255 }
    ensures { result.items ≡ msg.now ++ par.now }
{
    let mut word: ArrayVec<u8, 255> = ArrayVec::new();
    extend(&mut word, msg);
    extend(&mut word, par);
    word
}

/// Tells whether the word with the fixes is a codeword, by its parity.
#[inline(never)]
fn is_mended_by_parity(rows: &[u128], msg: &[u8], par: &[u8], fixes: &[Fix]) -> bool
    requires few { length par.now ≤ 127 }
    requires fits { length msg.now + length par.now ≤ 255 }
    requires table { IsLent (length par.now) rows.now }
    ensures { IsTrue result ↔ HasRoots (length par.now) (applied fixes.now (msg.now ++ par.now)) }
{
    let mut word = joined(msg, par);
    apply(word.as_mut_slice(), fixes);
    let (front, back) = word.as_slice().split_at(msg.len());
    is_parity_by(rows, front, back)
}

/// Tells whether the word with these values, and with the fixes, is a codeword, where its first values are then zero. The
/// values of few fixes take less time than the parity of a word by a table.
fn is_mended(
    rows: &[u128],
    first: usize,
    msg: &[u8],
    par: &[u8],
    values: &mut [u8],
    fixes: &[Fix],
) -> bool
    requires few { length par.now ≤ 127 }
    requires fits { length msg.now + length par.now ≤ 255 }
    requires table { IsLent (length par.now) rows.now }
    requires first { first ≤ length par.now }
    requires len { length values.old ≡ length par.now }
    requires values { (k : ℕ) → k < length par.now → slice_index values.old k
        ≡ value_of (msg.now ++ par.now) (gf_pow 2 k) }
    requires inside { AllInside (length msg.now + length par.now) fixes.now }
    requires short { length fixes.now ≤ 63 }
    requires sums { (k : ℕ) → k < first
        → fix_sum (length msg.now + length par.now) fixes.now (gf_pow 2 k) ≡ slice_index values.old k }
    ensures { IsTrue result ↔ HasRoots (length par.now) (applied fixes.now (msg.now ++ par.now)) }
{
    let left = par.len() - first;
    if left == 0 {
        return true;
    }
    if left * fixes.len() > 160 && !rows.is_empty() {
        return is_mended_by_parity(rows, msg, par, fixes);
    }
    let rest = &mut values[first..];
    add_fixes(rest, first, fixes, msg.len() + par.len());
    all_zero(rest)
}

/// Finds the fixes that make the codeword within `most` places of the word with these values, where there is one.
pub(crate) fn corrected(
    rows: &[u128],
    most: usize,
    msg: &[u8],
    par: &[u8],
    values: &mut [u8],
    fixes: &mut ArrayVec<Fix, 63>,
) -> bool
    requires some { 1 ≤ length par.now }
    requires few { length par.now ≤ 127 }
    requires fits { length msg.now + length par.now ≤ 255 }
    requires table { IsLent (length par.now) rows.now }
    requires most { most + most ≤ length par.now }
    requires len { length values.old ≡ length par.now }
    requires values { (k : ℕ) → k < length par.now → slice_index values.old k
        ≡ value_of (msg.now ++ par.now) (gf_pow 2 k) }
    requires wrong { ¬ HasRoots (length par.now) (msg.now ++ par.now) }
    ensures near { result ≡ true → let word = msg.now ++ par.now in
        IsWithin most (length par.now) word (applied fixes.new.items word) }
    ensures fixes { result ≡ true → let word = msg.now ++ par.now in
        fixes.new.items ≡ fixes_between word (applied fixes.new.items word) }
    ensures some { result ≡ true → let word = msg.now ++ par.now in 0 < distance word (applied fixes.new.items word) }
    ensures nearest { result ≡ true → let word = msg.now ++ par.now in
        nearest (length par.now) word ≡ Some (applied fixes.new.items word) }
    ensures nowhere { result ≡ false → let word = msg.now ++ par.now in
        within most word (nearest (length par.now) word) ≡ None }
{
    if most == 0 {
        return false;
    }
    let places = msg.len() + par.len();
    let found = candidate(most, &values[..most + most], places, fixes);
    if !found {
        return false;
    }
    is_mended(rows, most + most, msg, par, values, fixes.as_slice())
}
