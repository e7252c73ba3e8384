//! Polynomials over the field of 256 elements, as lists of coefficients with that of the highest power first, and the
//! values of words.
#![tactic(auto)]

ghost use Rattle.std.specs.Prelude.{◌≡◌, ◌≢◌, ◌+◌, ◌≤◌, ◌<◌, ℕ, ◌++◌, [], length, slice_index};
ghost use Rattle.code_spec.specs.Field.{gf_add, gf_mul, gf_pow};
ghost use Rattle.code_spec.specs.Code.{value_of};

pub mod laws;
mod products;

use gf256::{add, log, mul, mul_pow, mul_pow_by_bits};
pub use products::{divide, product};

/// The value of `word` at `x`.
pub fn value(word: &[u8], x: u8) -> u8
    ensures { result ≡ value_of word.now x }
{
    let mut sum = 0u8;
    for c in word {
        sum = add(mul(sum, x), *c);
    }
    sum
}

/// Adds 2 to the `power` times `other` to the last symbols of `word`, from `start` on.
fn add_multiple(word: &mut [u8], start: usize, power: u8, other: &[u8])
    requires { start + length other.now ≡ length word.old }
    ensures front { (k : ℕ) → k < start → slice_index word.new k ≡ slice_index word.old k }
    ensures rest { (k : ℕ) → k < length other.now →
        slice_index word.new (start + k)
        ≡ gf_add (slice_index word.old (start + k)) (gf_mul (slice_index other.now k) (gf_pow 2 power)) }
{
    for i in 0..other.len() {
        word[start + i] = add(word[start + i], mul_pow(other[i], power));
    }
}

/// Adds `factor` times `other` to the last symbols of `word`, from `start` on.
pub fn add_scaled(word: &mut [u8], start: usize, factor: u8, other: &[u8])
    requires { start + length other.now ≡ length word.old }
    ensures front { (k : ℕ) → k < start → slice_index word.new k ≡ slice_index word.old k }
    ensures rest { (k : ℕ) → k < length other.now →
        slice_index word.new (start + k)
        ≡ gf_add (slice_index word.old (start + k)) (gf_mul factor (slice_index other.now k)) }
{
    if factor == 0 {
        return;
    }
    add_multiple(word, start, log(factor), other);
}

/// The values of a word at 2 to each of `logs` become those of the word followed by `symbol`.
fn horner_step(values: &mut [u8], logs: &[u8], symbol: u8)
    requires { length logs.now ≡ length values.old }
    ensures { (k : ℕ) → k < length values.new → slice_index values.new k
        ≡ gf_add (gf_mul (slice_index values.old k) (gf_pow 2 (slice_index logs.now k))) symbol }
{
    for k in 0..values.len() {
        values[k] = add(mul_pow(values[k], logs[k]), symbol);
    }
}

/// The values of a word at 2 to each of `logs` become those of the word followed by `more`.
fn values_on(more: &[u8], logs: &[u8], values: &mut [u8])
    requires { length logs.now ≡ length values.old }
    ensures { (k : ℕ) → k < length values.new → let x = gf_pow 2 (slice_index logs.now k) in slice_index values.new k
        ≡ gf_add (gf_mul (slice_index values.old k) (gf_pow x (length more.now))) (value_of more.now x) }
{
    for c in more {
        horner_step(values, logs, *c);
    }
}

/// The values of `word` at 2 to each of `logs`.
pub fn values_at(word: &[u8], logs: &[u8], out: &mut [u8])
    requires { length logs.now ≡ length out.old }
    ensures { (k : ℕ) → k < length out.new
        → slice_index out.new k ≡ value_of word.now (gf_pow 2 (slice_index logs.now k)) }
{
    out.fill(0);
    values_on(word, logs, out);
}

/// The values of a word at 2 to the `log`, the next power and so on become those of the word followed by `symbol`.
fn rising_step(values: &mut [u8], log: usize, symbol: u8)
    requires { log + length values.old ≤ 502 }
    ensures { (k : ℕ) → k < length values.new → slice_index values.new k
        ≡ gf_add (gf_mul (slice_index values.old k) (gf_pow 2 (log + k))) symbol }
{
    for k in 0..values.len() {
        values[k] = add(mul_pow_by_bits(values[k], log + k), symbol);
    }
}

/// The values of a word at 2 to the `log`, the next power and so on become those of the word followed by `more`.
fn rising_values_on(more: &[u8], log: usize, values: &mut [u8])
    requires { log + length values.old ≤ 502 }
    ensures { (k : ℕ) → k < length values.new → let x = gf_pow 2 (log + k) in slice_index values.new k
        ≡ gf_add (gf_mul (slice_index values.old k) (gf_pow x (length more.now))) (value_of more.now x) }
{
    for c in more {
        rising_step(values, log, *c);
    }
}

/// The values of `word` at 2 to the `log`, the next power and so on. A multiple of 16 values is fastest.
pub fn rising_values(word: &[u8], log: usize, out: &mut [u8])
    requires { log + length out.old ≤ 502 }
    ensures { (k : ℕ) → k < length out.new → slice_index out.new k ≡ value_of word.now (gf_pow 2 (log + k)) }
{
    out.fill(0);
    rising_values_on(word, log, out);
}

/// The values of `msg` and then `par`, as one word, at 2 to the 0, 1 and so on: `out[i]` is that at 2 to the i.
pub fn syndromes(msg: &[u8], par: &[u8], out: &mut [u8])
    requires lengths { length out.old ≡ length par.now }
    requires fits { length msg.now + length par.now ≤ 255 }
    ensures { (i : ℕ) → i < length out.new → slice_index out.new i ≡ value_of (msg.now ++ par.now) (gf_pow 2 i) }
{
    // the loop over values works on vectors of 16
    let lanes = out.len().div_ceil(16) * 16;
    let mut buffer = [0u8; 256];
    let values = &mut buffer[..lanes];
    rising_values(msg, 0, values);
    rising_values_on(par, 0, values);
    let count = out.len();
    out.copy_from_slice(&values[..count]);
}
