// The parts of a line.
use death::*;
use std::process::Abort;

// Where level, stamp, caller, text and end of the first line are, and the next line.
fn assert_parts(rt: &impl Abort, text: &[u8], wanted: [usize; 6]) {
    let [level, stamp, caller, words, end, next] = wanted;
    let line = Line {
        start: 0,
        level,
        stamp,
        caller,
        text: words,
        end,
        next,
    };
    assert!(rt; next_line(text, 0) == Some(line));
}

#[test]
fn parts_of_a_line(rt: HostRuntime) {
    assert_parts(
        &rt,
        b"<4>[    2.973642][   T12] Oops: a\nb",
        [0, 3, 17, 26, 33, 34],
    );
    assert_parts(
        &rt,
        b"<12>[    2.973642] peer line 1\n",
        [0, 4, 18, 19, 30, 31],
    );
    assert_parts(&rt, b"[    2.973642][    C3] a\n", [0, 0, 14, 23, 24, 25]);
    assert_parts(&rt, b"<6>a", [0, 3, 3, 3, 4, 5]);
    assert_parts(&rt, b"  a\r\n", [2, 2, 2, 2, 3, 5]);
    assert_parts(&rt, b"", [0, 0, 0, 0, 0, 1]);
    assert_parts(&rt, b"\r\n", [0, 0, 0, 0, 0, 2]);
    assert_parts(&rt, b"a\rb\n", [0, 0, 0, 0, 3, 4]);
    // brackets without a stamp or a caller in them
    assert_parts(&rt, b"[<c0a81234>] a\n", [0, 0, 0, 0, 14, 15]);
    assert_parts(&rt, b"[    1.0][ D5]\n", [0, 0, 9, 9, 14, 15]);
    assert_parts(&rt, b"<>[]\n", [0, 0, 0, 0, 4, 5]);
    assert_parts(&rt, b"<6[1]\n", [0, 0, 0, 0, 5, 6]);
    assert_parts(&rt, b"<6>[1][T", [0, 3, 6, 6, 8, 9]);
}

#[test]
fn lines_of_a_text(rt: HostRuntime) {
    let text = b"a\n\nb";
    let second = Line {
        start: 2,
        level: 2,
        stamp: 2,
        caller: 2,
        text: 2,
        end: 2,
        next: 3,
    };
    assert!(rt; next_line(text, 2) == Some(second));
    assert!(rt; next_line(text, 5).is_none());
    assert!(rt; next_line(text, 4).is_some());
}

#[test]
fn levels_of_lines(rt: HostRuntime) {
    for (text, wanted) in [
        (b"<0>a".as_slice(), Some(0)),
        (b"<7>a", Some(7)),
        // the facility 1, and 176 with the level 6
        (b"<12>a", Some(4)),
        (b"<1414>a", Some(6)),
        (b"a", None),
        (b"[    1.0] a", None),
    ] {
        match next_line(text, 0) {
            Some(line) => assert!(rt; level(text, line) == wanted),
            None => panic!(rt; "no line"),
        }
    }
}

#[test]
fn parts_of_a_text(rt: HostRuntime) {
    let text = b"abcd";
    assert!(rt; part(text, 1, 3) == b"bc".as_slice());
    assert!(rt; part(text, 2, 9) == b"cd".as_slice());
    assert!(rt; part(text, 3, 1) == b"".as_slice());
    assert!(rt; part(text, 9, 12) == b"".as_slice());
}

// Lines as people hold them: each says `BUG: a`, and the panic's line `Kernel panic - not syncing: b`.
#[test]
fn lines_that_others_wrote(rt: HostRuntime) {
    for text in [
        // journalctl -k, -o short, short-precise, short-monotonic, short-iso, short-full
        b"Nov 29 22:45:01 host kernel: BUG: a".as_slice(),
        b"Nov  9 22:45:01.123456 host kernel: BUG: a",
        b"[    1.234567] host kernel: BUG: a",
        b"2026-11-29T22:45:01+0100 host kernel: BUG: a",
        b"Sun 2026-11-29 22:45:01 UTC host kernel: BUG: a",
        // --no-hostname
        b"Nov 29 22:45:01 kernel: BUG: a",
        // syslog's files
        b"Nov 29 22:45:01 host kernel: [    1.234567] BUG: a",
        b"2026-11-29T22:45:01.123456+01:00 host kernel: [    1.234567] BUG: a",
        // dmesg, dmesg -r, -T, --color; with the caller
        b"[    1.234567] BUG: a",
        b"<6>[    1.234567] BUG: a",
        b"[Sun Nov 29 22:45:01 2026] BUG: a",
        b"\x1b[32m[    1.234567] \x1b[0m\x1b[31mBUG: a\x1b[0m",
        b"[    1.234567][    T1] BUG: a",
        b"[    1.234567][    C0] BUG: a",
        b"[    T1] BUG: a",
        // captures of a serial line: a date in brackets or without, and carriage returns
        b"[2026-11-29 22:45:01.123] [    1.234567] BUG: a\r",
        b"[22:45:01] <6>[    1.234567][    T1] BUG: a",
        b"[22:45:01.123456 0.000012] [    1.234567] BUG: a",
        b"2026-11-29 22:45:01.123 [    1.234567] BUG: a",
        b"22:45:01.123 [    1.234567] BUG: a",
        b"Nov 29 22:45:01 [    1.234567] BUG: a",
        b"\r[    1.234567] BUG: a",
        b"\x1b[K\x1b[1;31m[2026-11-29T22:45:01] BUG: a",
    ] {
        assert!(rt; says_bug(text));
    }
}

// These are the kernel's own words.
#[test]
fn fronts_that_stay(rt: HostRuntime) {
    for text in [
        b"pnp 00:06: BUG: a".as_slice(),
        b"[drm] BUG: a",
        b"[drm:a_b] BUG: a",
        b"[<c0a81234>] BUG: a",
        b"[c0a81234] BUG: a",
        b"INFO: kernel: BUG: a",
        b"a b c kernel: BUG: a",
        b"kworker/0:1 22:45 BUG: a",
        b"Nov 29 host kernel: BUG: a",
        b"[    1.0] 22:45:01 BUG: a",
        b"[    1.0] a b kernel: BUG: a",
        b"\x1b[3",
        b"\x1bBUG: a",
        b"<12>Nov 29 22:45:01 host kernel: BUG: a",
    ] {
        assert!(rt; !says_bug(text));
    }
}

fn says_bug(text: &[u8]) -> bool {
    match death(text) {
        Some(found) => part(text, found.telling.text, found.telling.end) == b"BUG: a".as_slice(),
        None => false,
    }
}

#[test]
fn parts_behind_a_front(rt: HostRuntime) {
    assert_parts(
        &rt,
        b"Nov 29 22:45:01 host kernel: [    1.234567] BUG: a\n",
        [29, 29, 43, 44, 50, 51],
    );
    assert_parts(
        &rt,
        b"[    1.234567] host kernel: BUG: a\n",
        [0, 0, 14, 28, 34, 35],
    );
    assert_parts(
        &rt,
        b"[22:45:01] <6>[    1.0][    T1] a\x1b[0m\r\n",
        [11, 14, 23, 32, 33, 39],
    );
}
