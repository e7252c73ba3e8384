// Euclid's algorithm on the syndromes: the locator and the evaluator of a word's errors.
ghost use Rattle.std.specs.Prelude.{◌≡◌, ◌≢◌, ◌+◌, ◌-◌, ◌≤◌, ◌<◌, ℕ, length, slice_index};
ghost use Rattle.std.specs.Prelude.{drop, reverse};
ghost use Rattle.code_spec.specs.Field.{gf_add, gf_mul, gf_pow};
ghost use Rattle.decoder_laws.specs.Polynomials.{poly, LeadingZeros};
ghost use Rattle.decoder_laws.specs.Series.{shift, one, Bytes};
ghost use Rattle.rs_decode.specs.Decoding.{within};
ghost use Rattle.decoder_laws.specs.Euclid.{IsStep, IsSolution};

use arrayvec::ArrayVec;
use gf256::{add, inv, log, mul, mul_pow, mul_pow_by_bits};

/// What Euclid's algorithm finds, up to a factor: the locator, and the evaluator with no leading zeros.
#[derive(Drop)]
pub(crate) struct Solution {
    pub(crate) locator: ArrayVec<u8, 64>,
    pub(crate) evaluator: ArrayVec<u8, 64>,
}

/// The place of the first symbol that is not zero, after `start` zeros, or the length.
fn leading(word: &[u8], start: usize) -> usize
    requires start { start ≤ length word.now }
    requires zeros { LeadingZeros start word.now }
    ensures after { start ≤ result }
    ensures within { result ≤ length word.now }
    ensures zeros { LeadingZeros result word.now }
    ensures some { result < length word.now → slice_index word.now result ≢ 0 }
{
    for i in start..word.len() {
        if word[i] != 0 {
            return i;
        }
    }
    word.len()
}

/// Adds 2 to the `power` times `other`, shifted to the left by `shift`, to `word`; `other` has `start` leading zeros.
fn add_shifted_multiple(word: &mut [u8], shift: usize, power: u8, other: &[u8], start: usize)
    requires len { length other.now ≡ length word.old }
    requires inside { start ≤ length other.now }
    requires room { shift + 15 ≤ start }
    requires zeros { LeadingZeros start other.now }
    ensures { (k : ℕ) → k < length word.new → slice_index word.new k
        ≡ gf_add (slice_index word.old k) (gf_mul (slice_index other.now (k + shift)) (gf_pow 2 power)) }
{
    // whole vectors of 16 symbols
    let lanes = (other.len() - start).div_ceil(16) * 16;
    for i in other.len() - lanes..other.len() {
        word[i - shift] = add(word[i - shift], mul_pow_by_bits(other[i], power as usize));
    }
}

/// As [`add_shifted_multiple`], symbol by symbol: faster where few are left.
fn add_shifted_few(word: &mut [u8], shift: usize, power: u8, other: &[u8], start: usize)
    requires len { length other.now ≡ length word.old }
    requires inside { start ≤ length other.now }
    requires room { shift ≤ start }
    requires zeros { LeadingZeros start other.now }
    ensures { (k : ℕ) → k < length word.new → slice_index word.new k
        ≡ gf_add (slice_index word.old k) (gf_mul (slice_index other.now (k + shift)) (gf_pow 2 power)) }
{
    for i in start..other.len() {
        word[i - shift] = add(word[i - shift], mul_pow(other[i], power));
    }
}

/// Adds `factor` times `other`, shifted to the left by `shift`, to `word`; `other` has `start` leading zeros.
fn add_shifted(word: &mut [u8], shift: usize, factor: u8, other: &[u8], start: usize)
    requires len { length other.now ≡ length word.old }
    requires inside { start ≤ length other.now }
    requires room { shift + 15 ≤ start }
    requires zeros { LeadingZeros start other.now }
    ensures { (k : ℕ) → k < length word.new → slice_index word.new k
        ≡ gf_add (slice_index word.old k) (gf_mul factor (slice_index other.now (k + shift))) }
{
    if factor == 0 {
        return;
    }
    if other.len() - start <= 16 {
        add_shifted_few(word, shift, log(factor), other, start);
    } else {
        add_shifted_multiple(word, shift, log(factor), other, start);
    }
}

fn symbol(word: &[u8], place: usize) -> u8
    requires { place < length word.now }
    ensures { result ≡ slice_index word.now place }
{
    word[place]
}

/// Divides the rest of the old row, which begins at `from`, by that of the new row, which begins at `to`, and takes the
/// quotient's multiple of the new factor from the old one. Each row has 15 zeros more in front than it needs, room for
/// whole vectors.
fn reduce(
    old_rest: &mut [u8],
    old_factor: &mut [u8],
    new_rest: &[u8],
    new_factor: &[u8],
    from: usize,
    to: usize,
)
    requires rests { length new_rest.now ≡ length old_rest.old }
    requires factors { length new_factor.now ≡ length old_factor.old }
    requires padded { 15 ≤ from }
    requires order { from ≤ to }
    requires inside { to < length new_rest.now }
    requires room { to < length new_factor.now }
    requires leading { slice_index new_rest.now to ≢ 0 }
    requires old_zeros { LeadingZeros from old_rest.old }
    requires new_zeros { LeadingZeros to new_rest.now }
    requires old_room { LeadingZeros (length new_factor.now + 14 - from) old_factor.old }
    requires new_room { LeadingZeros (length new_factor.now + 14 - from) new_factor.now }
    ensures step { IsStep (poly old_rest.old) (poly old_factor.old) (poly new_rest.now) (poly new_factor.now)
        (poly old_rest.new) (poly old_factor.new) }
    ensures zeros { LeadingZeros (to + 1) old_rest.new }
    ensures room { LeadingZeros (length new_factor.now + 14 - to) old_factor.new }
{
    let inverse = inv(new_rest[to]);
    let start = new_factor.len() + 14 - from;
    for k in from..to + 1 {
        let factor = mul(symbol(old_rest, k), inverse);
        add_shifted(old_rest, to - k, factor, new_rest, to);
        add_shifted(old_factor, to - k, factor, new_factor, start);
    }
}

/// Makes a word of zeros zero but for a 1 at `place`.
fn single(word: &mut [u8], place: usize)
    requires inside { place < length word.old }
    requires zeros { (k : ℕ) → k < length word.old → slice_index word.old k ≡ 0 }
    ensures one { slice_index word.new place ≡ 1 }
    ensures zeros { (k : ℕ) → k < length word.new → k ≢ place → slice_index word.new k ≡ 0 }
{
    word[place] = 1;
}

/// Stores the symbols of `word`, the last one first, after 16 zeros.
fn reverse_into(word: &[u8], out: &mut [u8])
    requires len { length out.old ≡ length word.now + 16 }
    requires zeros { LeadingZeros 16 out.old }
    ensures zeros { LeadingZeros 16 out.new }
    ensures rest { drop 16 out.new ≡ reverse word.now }
{
    for i in 0..word.len() {
        out[16 + i] = word[word.len() - 1 - i];
    }
}

fn tail(word: &[u8], start: usize) -> ArrayVec<u8, 64>
    requires start { start ≤ length word.now }
    requires fits { length word.now ≤ start + 64 }
    ensures { result.items ≡ drop start word.now }
{
    let mut out: ArrayVec<u8, 64> = ArrayVec::new();
    for i in start..word.len() {
        out.push(word[i]);
    }
    out
}

/// The solution in a row whose rest begins at `to`. The rest of the row before it begins at `from`.
fn trimmed(factor: &[u8], rest: &[u8], from: usize, to: usize) -> Solution
    requires padded { 15 ≤ from }
    requires from { from < length factor.now }
    requires fits { length factor.now ≤ 79 }
    requires to { to ≤ length rest.now }
    requires short { length rest.now ≤ to + 64 }
    ensures locator { result.locator.items ≡ drop (length factor.now + 14 - from) factor.now }
    ensures evaluator { result.evaluator.items ≡ drop to rest.now }
{
    Solution {
        locator: tail(factor, factor.len() + 14 - from),
        evaluator: tail(rest, to),
    }
}

/// Euclid's algorithm, in place, on two rows, each of a rest and the factor of the syndromes in it.
fn euclid(
    t: usize,
    rest_a: &mut [u8],
    factor_a: &mut [u8],
    rest_b: &mut [u8],
    factor_b: &mut [u8],
) -> Solution
    requires some { 0 < t }
    requires fits { t ≤ 63 }
    requires len_a { length rest_a.old ≡ t + t + 16 }
    requires len_b { length rest_b.old ≡ t + t + 16 }
    requires len_factor_a { length factor_a.old ≡ t + 16 }
    requires len_factor_b { length factor_b.old ≡ t + 16 }
    requires power { poly rest_a.old ≡ shift (t + t) one }
    requires power_zeros { LeadingZeros 15 rest_a.old }
    requires syndromes { LeadingZeros 16 rest_b.old }
    requires bytes { Bytes (poly rest_b.old) }
    requires none { LeadingZeros (t + 16) factor_a.old }
    requires one { poly factor_b.old ≡ one }
    requires one_zeros { LeadingZeros (t + 15) factor_b.old }
    ensures { IsSolution t (poly rest_b.old) result.locator.items result.evaluator.items }
{
    let mut a = 15;
    let mut b = leading(rest_b, 16);
    while b <= t + 15 {
        reduce(rest_a, factor_a, rest_b, factor_b, a, b);
        a = leading(rest_a, b + 1);
        if a > t + 15 {
            return trimmed(factor_a, rest_a, b, a);
        }
        reduce(rest_b, factor_b, rest_a, factor_a, b, a);
        b = leading(rest_b, a + 1);
    }
    trimmed(factor_b, rest_b, a, b)
}

/// The locator and the evaluator, up to a factor, where at most t places differ from a codeword.
#[inline(never)]
pub(crate) fn solve(t: usize, syndromes: &[u8]) -> Solution
    requires len { length syndromes.now ≡ t + t }
    requires some { 0 < t }
    requires fits { t ≤ 63 }
    ensures { IsSolution t (poly (reverse syndromes.now)) result.locator.items result.evaluator.items }
{
    let mut rests = [0u8; 142];
    let rest_a = &mut rests[..t + t + 16];
    single(rest_a, 15);
    let mut factors = [0u8; 79];
    let factor_a = &mut factors[..t + 16];
    let mut more_rests = [0u8; 142];
    let rest_b = &mut more_rests[..t + t + 16];
    reverse_into(syndromes, rest_b);
    let mut more_factors = [0u8; 79];
    let factor_b = &mut more_factors[..t + 16];
    single(factor_b, t + 15);
    euclid(t, rest_a, factor_a, rest_b, factor_b)
}
