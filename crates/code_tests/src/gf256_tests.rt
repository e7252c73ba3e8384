use gf256::*;

/// As powers of 2 stand in tables of this field.
#[test]
fn powers_of_two(rt: HostRuntime) {
    for (n, want) in [
        (0, 1),
        (1, 2),
        (8, 29),
        (16, 76),
        (25, 3),
        (64, 95),
        (127, 204),
        (128, 133),
        (255, 1),
    ] {
        assert!(rt; alpha_pow(n) == want);
    }
}

#[test]
fn products_with_powers(rt: HostRuntime) {
    assert!(rt; (mul_pow(0, 7), mul_pow(128, 1), mul_pow(133, 255)) == (0, 29, 133));
    assert!(rt; mul_pow_by_bits(128, 1) == 29);
    assert!(rt; antilog(1000) == 235);
    assert!(rt; pow_ratio(1, 2) == 142);
}

#[test]
fn worked_products(rt: HostRuntime) {
    assert!(rt; add(0x53, 0xca) == 0x99);
    for (a, b, want) in [
        (0, 7, 0),
        (2, 128, 29),
        (3, 3, 5),
        (76, 76, 157),
        (29, 131, 1),
    ] {
        assert!(rt; mul(a, b) == want);
    }
    assert!(rt; (inv(29), log(133)) == (131, 128));
}
