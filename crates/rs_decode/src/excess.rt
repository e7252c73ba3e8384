// The excess of a word, its parity beside the one that its data ask for, and whether a word is damaged.
ghost use Rattle.std.specs.Prelude.{◌≡◌, ◌+◌, ◌-◌, ◌≤◌, ◌<◌, ◌↔◌, ℕ, ◌++◌, length, slice_index};
ghost use Rattle.std.specs.Prelude.{true, false, IsTrue};
ghost use Rattle.code_spec.specs.Field.{gf_add, gf_pow};
ghost use Rattle.code_spec.specs.Code.{IsCodeword, value_of};
ghost use Rattle.code_laws.proofs.Symbols.{HasRoots};
ghost use Rattle.rs_encode.specs.Lanes.{IsLent};
ghost use Rattle.rs_decode.specs.Decoding.{IsExcess};

use crate::lanes::value_bytes;
use gf_poly::syndromes;
use gf256::add;
use rs_encode::{parity_by, parity_pair_by};

pub(crate) fn all_zero(values: &[u8]) -> bool
    ensures { IsTrue result ↔ ((k : ℕ) → k < length values.now → slice_index values.now k ≡ 0) }
{
    values.iter().all(|x| *x == 0)
}

fn add_symbols(word: &mut [u8], other: &[u8])
    requires { length other.now ≡ length word.old }
    ensures { (k : ℕ) → k < length word.new
        → slice_index word.new k ≡ gf_add (slice_index word.old k) (slice_index other.now k) }
{
    for i in 0..word.len() {
        word[i] = add(word[i], other[i]);
    }
}

/// Makes `out` the sum of `par` and the parity of `msg`, all zeros where the two are a codeword.
pub(crate) fn excess(rows: &[u128], msg: &[u8], par: &[u8], out: &mut [u8])
    requires some { 1 ≤ length par.now }
    requires few { length par.now ≤ 127 }
    requires fits { length msg.now + length par.now ≤ 255 }
    requires table { IsLent (length par.now) rows.now }
    requires len { length out.old ≡ length par.now }
    ensures { IsExcess msg.now par.now out.new }
{
    parity_by(rows, msg, out);
    add_symbols(out, par);
}

/// Makes `out_a` the sum of `par_a` and the parity of `a`, and `out_b` that of `par_b` and the parity of `b`, and tells of
/// each whether all is zero: the two are a codeword. [`decode_excess`] goes on from there. Up to 16 parity symbols, and
/// by a table, the two are worked out side by side.
pub fn excess_pair_by(
    rows: &[u128],
    a: &[u8],
    par_a: &[u8],
    b: &[u8],
    par_b: &[u8],
    out_a: &mut [u8],
    out_b: &mut [u8],
) -> (bool, bool)
    requires some { 1 ≤ length par_a.now }
    requires few { length par_a.now ≤ 127 }
    requires same_par { length par_b.now ≡ length par_a.now }
    requires same { length b.now ≡ length a.now }
    requires fits { length a.now + length par_a.now ≤ 255 }
    requires table { IsLent (length par_a.now) rows.now }
    requires len_a { length out_a.old ≡ length par_a.now }
    requires len_b { length out_b.old ≡ length par_a.now }
    ensures a { IsTrue result.0 ↔ IsCodeword (length par_a.now) (a.now ++ par_a.now) }
    ensures b { IsTrue result.1 ↔ IsCodeword (length par_a.now) (b.now ++ par_b.now) }
    ensures excess_a { IsExcess a.now par_a.now out_a.new }
    ensures excess_b { IsExcess b.now par_b.now out_b.new }
{
    parity_pair_by(rows, a, b, out_a, out_b);
    add_symbols(out_a, par_a);
    add_symbols(out_b, par_b);
    let is_a = all_zero(out_a);
    let is_b = all_zero(out_b);
    (is_a, is_b)
}

/// The values of the excess: few by a table.
fn excess_values(excess: &[u8], values: &mut [u8])
    requires few { length excess.now ≤ 127 }
    requires len { length values.old ≡ length excess.now }
    ensures { (k : ℕ) → k < length values.new → slice_index values.new k ≡ value_of excess.now (gf_pow 2 k) }
{
    if excess.len() <= 16 {
        values.copy_from_slice(&value_bytes(excess)[..excess.len()]);
    } else {
        syndromes(&excess[..0], excess, values);
    }
}

/// Tells whether the word with this excess is no codeword, and then makes `values` its syndromes, which are those of the
/// excess alone.
pub(crate) fn has_values_of(excess: &[u8], msg: &[u8], par: &[u8], values: &mut [u8]) -> bool
    requires some { 1 ≤ length par.now }
    requires few { length par.now ≤ 127 }
    requires fits { length msg.now + length par.now ≤ 255 }
    requires excess { IsExcess msg.now par.now excess.now }
    requires len { length values.old ≡ length par.now }
    ensures clean { result ≡ false → HasRoots (length par.now) (msg.now ++ par.now) }
    ensures damaged { result ≡ true → ¬ HasRoots (length par.now) (msg.now ++ par.now) }
    ensures values { result ≡ true → (k : ℕ) → k < length par.now
        → slice_index values.new k ≡ value_of (msg.now ++ par.now) (gf_pow 2 k) }
{
    if all_zero(excess) {
        return false;
    }
    excess_values(excess, values);
    true
}

/// Tells whether the word is no codeword, and then makes `values` its syndromes: by a table.
#[inline(never)]
fn has_excess(rows: &[u128], msg: &[u8], par: &[u8], values: &mut [u8]) -> bool
    requires some { 1 ≤ length par.now }
    requires few { length par.now ≤ 127 }
    requires fits { length msg.now + length par.now ≤ 255 }
    requires table { IsLent (length par.now) rows.now }
    requires len { length values.old ≡ length par.now }
    ensures clean { result ≡ false → HasRoots (length par.now) (msg.now ++ par.now) }
    ensures damaged { result ≡ true → ¬ HasRoots (length par.now) (msg.now ++ par.now) }
    ensures values { result ≡ true → (k : ℕ) → k < length par.now
        → slice_index values.new k ≡ value_of (msg.now ++ par.now) (gf_pow 2 k) }
{
    let mut buffer = [0u8; 127];
    let out = &mut buffer[..par.len()];
    excess(rows, msg, par, out);
    has_values_of(out, msg, par, values)
}

/// Tells whether the word is no codeword, and makes `values` its syndromes: without a table.
fn has_values(msg: &[u8], par: &[u8], values: &mut [u8]) -> bool
    requires fits { length msg.now + length par.now ≤ 255 }
    requires len { length values.old ≡ length par.now }
    ensures clean { result ≡ false → HasRoots (length par.now) (msg.now ++ par.now) }
    ensures damaged { result ≡ true → ¬ HasRoots (length par.now) (msg.now ++ par.now) }
    ensures values { (k : ℕ) → k < length par.now
        → slice_index values.new k ≡ value_of (msg.now ++ par.now) (gf_pow 2 k) }
{
    syndromes(msg, par, values);
    !all_zero(values)
}

/// Tells whether the word is no codeword, and then makes `values` its syndromes.
pub(crate) fn is_damaged(rows: &[u128], msg: &[u8], par: &[u8], values: &mut [u8]) -> bool
    requires some { 1 ≤ length par.now }
    requires few { length par.now ≤ 127 }
    requires fits { length msg.now + length par.now ≤ 255 }
    requires table { IsLent (length par.now) rows.now }
    requires len { length values.old ≡ length par.now }
    ensures clean { result ≡ false → HasRoots (length par.now) (msg.now ++ par.now) }
    ensures damaged { result ≡ true → ¬ HasRoots (length par.now) (msg.now ++ par.now) }
    ensures values { result ≡ true → (k : ℕ) → k < length par.now
        → slice_index values.new k ≡ value_of (msg.now ++ par.now) (gf_pow 2 k) }
{
    if rows.is_empty() {
        has_values(msg, par, values)
    } else {
        has_excess(rows, msg, par, values)
    }
}
