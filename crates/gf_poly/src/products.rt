// Products and quotients of polynomials.
ghost use Rattle.std.specs.Prelude.{◌≡◌, ◌≢◌, ◌+◌, ◌≤◌, ◌<◌, [], length, replicate, slice_index};
ghost use Rattle.code_spec.specs.Field.{gf_mul};
ghost use Rattle.decoder_laws.specs.Polynomials.{poly};
ghost use Rattle.decoder_laws.specs.Series.{times, plus, scale};

use crate::add_scaled;
use arrayvec::ArrayVec;
use gf256::{inv, mul};

/// The product of `a` and `b`.
pub fn product(a: &[u8], b: &[u8], out: &mut ArrayVec<u8, 255>)
    requires some_a { 0 < length a.now }
    requires some_b { 0 < length b.now }
    requires fits { length a.now + length b.now ≤ 256 }
    ensures len { length out.new.items + 1 ≡ length a.now + length b.now }
    ensures product { poly out.new.items ≡ times (poly a.now) (poly b.now) }
{
    zeros(b.len() - 1, out);
    for (i, c) in a.iter().enumerate() {
        out.push(0);
        add_scaled(out.as_mut_slice(), i, *c, b);
    }
}

/// Makes `out` this many zeros.
fn zeros(count: usize, out: &mut ArrayVec<u8, 255>)
    requires { count ≤ 255 }
    ensures { out.new.items ≡ replicate count 0 }
{
    out.clear();
    for _ in 0..count {
        out.push(0);
    }
}

/// Makes `out` the symbols of `word`.
fn copy_to(word: &[u8], out: &mut ArrayVec<u8, 255>)
    requires { length word.now ≤ 255 }
    ensures { out.new.items ≡ word.now }
{
    out.clear();
    for c in word {
        out.push(*c);
    }
}

fn first(word: &[u8]) -> u8
    requires { 0 < length word.now }
    ensures { result ≡ slice_index word.now 0 }
{
    word[0]
}

/// Takes from `rest` as many times `b` as its first coefficient asks for, and answers how many: the quotient's
/// coefficient.
fn divide_step(b: &[u8], inverse: u8, rest: &mut ArrayVec<u8, 255>) -> u8
    requires some { 0 < length b.now }
    requires inverse { gf_mul (slice_index b.now 0) inverse ≡ 1 }
    requires len { length rest.old.items ≡ length b.now }
    ensures len { length rest.new.items + 1 ≡ length b.now }
    ensures rest { poly rest.new.items ≡ plus (poly rest.old.items) (scale result (poly b.now)) }
{
    let leading = first(rest.as_slice());
    let factor = mul(leading, inverse);
    add_scaled(rest.as_mut_slice(), 0, factor, b);
    rest.remove(0);
    factor
}

/// Divides `a` by `b`, whose first coefficient is not 0: `a` is `b` times `quotient`, plus `rest`.
/// If `a` is the shorter, `quotient` becomes empty and `rest` is `a`; else `rest` has one coefficient less than `b`.
pub fn divide(a: &[u8], b: &[u8], quotient: &mut ArrayVec<u8, 255>, rest: &mut ArrayVec<u8, 255>)
    requires fits { length a.now ≤ 255 }
    requires some_a { 0 < length a.now }
    requires some_b { 0 < length b.now }
    requires leading { slice_index b.now 0 ≢ 0 }
    ensures short { length a.now < length b.now → (quotient.new.items ≡ []) × (rest.new.items ≡ a.now) }
    ensures long { length b.now ≤ length a.now → length quotient.new.items + length b.now ≡ length a.now + 1 }
    ensures long_rest { length b.now ≤ length a.now → length rest.new.items + 1 ≡ length b.now }
    ensures value { poly a.now ≡ plus (times (poly b.now) (poly quotient.new.items)) (poly rest.new.items) }
{
    quotient.clear();
    if a.len() < b.len() {
        copy_to(a, rest);
        return;
    }
    let inverse = inv(b[0]);
    let start = b.len() - 1;
    copy_to(&a[..start], rest);
    for i in start..a.len() {
        rest.push(a[i]);
        let factor = divide_step(b, inverse, rest);
        quotient.push(factor);
    }
}
