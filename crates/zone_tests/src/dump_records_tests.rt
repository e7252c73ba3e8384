use arrayvec::ArrayString;
use dump_records::{Cursor, Time, TimeLine, line, read_line};
use std::test::Fail;

// A line's seconds, microseconds, flag and length.
fn parts(line: TimeLine) -> (u64, u32, bool, u32) {
    (line.time.secs, line.time.micros, line.packed, line.len)
}

const WRITTEN: &[(u64, u32, bool, &str)] = &[
    (1700000000, 123, false, "====1700000000.000123-D\n"),
    (0, 0, true, "====0.000000-C\n"),
    (9, 999999, false, "====9.999999-D\n"),
    (
        9223372036854775807,
        5,
        true,
        "====9223372036854775807.000005-C\n",
    ),
];

#[test]
fn lines_are_written(rt: HostRuntime) -> Result<(), Fail> {
    for (secs, micros, packed, text) in WRITTEN.iter().copied() {
        let mut out = ArrayString::zero_filled();
        line(Time { secs, micros }, packed, &mut out);
        assert!(rt; out.as_str() == text);
    }
    Ok(())
}

const READ: &[(&[u8], Option<(u64, u32, bool, u32)>)] = &[
    (
        b"====1700000000.000123-D\nabc",
        Some((1700000000, 123, false, 24)),
    ),
    (
        b"====1700000000.000123-C\n",
        Some((1700000000, 123, true, 24)),
    ),
    (b"====7.5-D\n", Some((7, 5, false, 10))),
    (b"====7.5\n", Some((7, 5, false, 8))),
    (b"====007.000005-D\n", Some((7, 5, false, 17))),
    (b"====1.999999999-D\n", Some((1, 999999999, false, 18))),
    (b"====1.0000000001-D\n", None),
    (
        b"====9223372036854775807.0\n",
        Some((9223372036854775807, 0, false, 26)),
    ),
    (b"====9223372036854775808.0\n", None),
    (b"====9999999999999999999.0\n", None),
    (b"====00000000000000000001.0\n", None),
    (b"====1.2-D\n\n x", Some((1, 2, false, 10))),
    (b"====1.2-D", None),
    (b"====1.2-D x\n", None),
    (b"====1.2-E\n", None),
    (b"====1.2-d\n", None),
    (b"====1.2 \n", None),
    (b"====-1.2-D\n", None),
    (b"====+1.2-D\n", None),
    (b"====1.-D\n", None),
    (b"====.2-D\n", None),
    (b"===1.2-D\n", None),
    (b" ====1.2-D\n", None),
    (b"", None),
];

#[test]
fn lines_are_read(rt: HostRuntime) -> Result<(), Fail> {
    for (log, answer) in READ.iter().copied() {
        assert!(rt; read_line(log).map(parts) == answer);
    }
    Ok(())
}

#[test]
fn a_cursor_turns(rt: HostRuntime) -> Result<(), Fail> {
    let mut cursor = Cursor::new(3);
    for at in [0, 1, 2, 0, 1] {
        assert!(rt; cursor.at() == at);
        cursor.advance();
    }
    let mut alone = Cursor::new(1);
    alone.advance();
    assert!(rt; alone.at() == 0);
    Ok(())
}
