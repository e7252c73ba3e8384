ghost use Rattle.std.specs.Prelude.{◌≤◌, ◌<◌, length};

use arrayvec::ArrayVec;
use gf_poly::*;
use std::process::Abort;

/// 2^2 + 3 * 2 + 2 by hand, and the two values of a header whose start word was changed.
#[test]
fn values_of_words(rt: HostRuntime) {
    assert!(rt; value(&[1, 3, 2], 2) == 0);
    assert!(rt; value(&[1, 3, 2], 1) == 0);
    assert!(rt; value(&[], 7) == 0);
    let header = [0x44, 0x42, 0x47, 0x43, 5, 6, 0, 0, 178, 15, 0, 0];
    let mut out = [0u8; 2];
    syndromes(&header, &[155, 36], &mut out);
    assert!(rt; out == [3, 0x9c]);
}

/// The generators of two and of four parity symbols, which (x + 1)(x + 2) and two more factors make.
#[test]
fn products_of_polynomials(rt: HostRuntime) {
    let mut out = ArrayVec::new();
    out.push(9);
    product(&[1, 1], &[1, 2], &mut out);
    assert!(rt; out.as_slice() == [1, 3, 2].as_slice());
    product(&[1, 3, 2], &[1, 12, 32], &mut out);
    assert!(rt; out.as_slice() == [1, 15, 54, 120, 64].as_slice());
    product(&[0, 2], &[7], &mut out);
    assert!(rt; out.as_slice() == [0, 14].as_slice());
}

/// Divides `a` by x^2 + 3 x + 2, and tells the quotient and the rest; both lists have had another content.
fn assert_divided(rt: &impl Abort, a: &[u8], quotient: &[u8], rest: &[u8])
    requires some { 0 < length a.now }
    requires fits { length a.now ≤ 255 }
{
    let mut found = ArrayVec::new();
    let mut left = ArrayVec::new();
    found.push(7);
    left.push(9);
    divide(a, &[1, 3, 2], &mut found, &mut left);
    assert!(rt; found.as_slice() == quotient, "another quotient");
    assert!(rt; left.as_slice() == rest, "another rest");
}

#[test]
fn quotients_of_polynomials(rt: HostRuntime) {
    assert_divided(&rt, &[1, 15, 54, 120, 65], &[1, 12, 32], &[0, 1]);
    assert_divided(&rt, &[2, 6, 5], &[2], &[0, 1]);
    assert_divided(&rt, &[5], &[], &[5]);
    assert_divided(&rt, &[0, 5], &[], &[0, 5]);
}
