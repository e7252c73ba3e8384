// Forney's masks: from the locator and the evaluator to the places of a word and what corrects them.
ghost use Rattle.std.specs.Prelude.{◌≡◌, ◌≢◌, ◌+◌, ◌-◌, ◌≤◌, ◌<◌, ℕ, length, slice_index};
ghost use Rattle.std.specs.Prelude.{List, true, false};
ghost use Rattle.code_spec.specs.Field.{gf_add, gf_mul, gf_pow};
ghost use Rattle.code_spec.specs.Code.{value_of};
ghost use Rattle.decoder_laws.specs.Polynomials.{poly};
ghost use Rattle.decoder_laws.specs.Chien.{PowersBelow};
ghost use Rattle.decoder_laws.specs.Forney.{gap_ratio, Below255};
ghost use Rattle.rs_decode.specs.Fixes.{AreFixes, AllInside, fixes_from, fix_sum};
ghost use Rattle.decoder_laws.specs.Damage.{IsDamage};

use crate::Fix;
use crate::euclid::solve;
use crate::roots::own_roots;
use arrayvec::ArrayVec;
use gf_poly::values_at;
use gf256::{add, inv, log, mul, mul_pow, pow_ratio};

/// The logarithm of 1 + Y / X for two locators.
fn log_gap(other: u8, power: u8) -> u8
    requires below { other < 255 }
    requires own { power < 255 }
    requires differ { other ≢ power }
    ensures below { result < 255 }
    ensures value { gf_pow 2 result ≡ gf_add 1 (gf_mul (gf_pow 2 other) (gf_pow 2 (255 - power))) }
{
    log(add(1, pow_ratio(other, power)))
}

/// The logarithm of the product of 1 + Y / X over the other locators Y.
fn ratio(powers: &[u8], power: u8) -> u8
    requires few { length powers.now ≤ 63 }
    requires own { power < 255 }
    requires below { Below255 powers.now }
    ensures below { result < 255 }
    ensures value { gf_pow 2 result ≡ gap_ratio powers.now power }
{
    let mut sum = 0usize;
    for i in powers {
        if *i != power {
            sum += log_gap(*i, power) as usize;
        }
    }
    (sum % 255) as u8
}

/// Forney's mask at a place where the evaluator has this value.
fn fix_of(value: u8, scale: u8, powers: &[u8], power: u8, places: usize) -> Fix
    requires own { power < places }
    requires places { places ≤ 255 }
    requires few { length powers.now ≤ 63 }
    requires below { Below255 powers.now }
    ensures place { result.place + power + 1 ≡ places }
    ensures mask_byte { result.mask < 256 }
    ensures mask { gf_mul result.mask (gap_ratio powers.now power) ≡ gf_mul scale value }
{
    let over = mul(scale, value);
    let under = ratio(powers, power);
    Fix {
        place: (places - 1 - power as usize) as u8,
        mask: mul_pow(over, 255 - under),
    }
}

/// The logarithms of the reciprocals.
fn reciprocals(powers: &[u8], logs: &mut [u8])
    requires { length logs.old ≡ length powers.now }
    ensures { (k : ℕ) → k < length logs.new → slice_index logs.new k ≡ 255 - slice_index powers.now k }
{
    for k in 0..logs.len() {
        logs[k] = 255 - powers[k];
    }
}

/// The values of the evaluator at the reciprocals of the locators.
fn evaluated(evaluator: &[u8], powers: &[u8], values: &mut [u8])
    requires few { length powers.now ≤ 63 }
    requires len { length values.old ≡ length powers.now }
    ensures { (k : ℕ) → k < length values.new
        → slice_index values.new k ≡ value_of evaluator.now (gf_pow 2 (255 - slice_index powers.now k)) }
{
    let mut buffer = [0u8; 63];
    let logs = &mut buffer[..powers.len()];
    reciprocals(powers, logs);
    values_at(evaluator, logs, values);
}

#[inline(never)]
fn fill(evaluator: &[u8], scale: u8, powers: &[u8], places: usize, fixes: &mut ArrayVec<Fix, 63>)
    requires places { places ≤ 255 }
    requires few { length powers.now ≤ 63 }
    requires inside { PowersBelow places powers.now }
    ensures { AreFixes places scale evaluator.now powers.now powers.now fixes.new.items }
{
    fixes.clear();
    let mut buffer = [0u8; 63];
    let values = &mut buffer[..powers.len()];
    evaluated(evaluator, powers, values);
    for k in 0..powers.len() {
        let fix = fix_of(values[k], scale, powers, powers[k], places);
        fixes.push(fix);
    }
}

fn last(word: &[u8]) -> u8
    requires { 0 < length word.now }
    ensures { result ≡ poly word.now 0 }
{
    word[word.len() - 1]
}

/// The only places and masks that at most t wrong symbols with these syndromes can have.
pub(crate) fn candidate(
    t: usize,
    syndromes: &[u8],
    places: usize,
    fixes: &mut ArrayVec<Fix, 63>,
) -> bool
    requires some { 0 < t }
    requires fits { t ≤ 63 }
    requires len { length syndromes.now ≡ t + t }
    requires places { places ≤ 255 }
    ensures few { length fixes.new.items ≤ t }
    ensures inside { AllInside places fixes.new.items }
    ensures found { (D : List ℕ) → IsDamage t places syndromes.now D
        → (result ≡ true) × (fixes.new.items ≡ fixes_from places D) }
    ensures sums { result ≡ true → (k : ℕ) → k < t + t
        → fix_sum places fixes.new.items (gf_pow 2 k) ≡ slice_index syndromes.now k }
{
    fixes.clear();
    let solution = solve(t, syndromes);
    let constant = last(solution.locator.as_slice());
    if constant == 0 {
        return false;
    }
    if solution.evaluator.len() >= solution.locator.len() {
        return false;
    }
    let mut powers: ArrayVec<u8, 63> = ArrayVec::new();
    own_roots(solution.locator.as_slice(), places, &mut powers);
    if powers.len() + 1 < solution.locator.len() {
        return false;
    }
    fill(
        solution.evaluator.as_slice(),
        inv(constant),
        powers.as_slice(),
        places,
        fixes,
    );
    true
}
