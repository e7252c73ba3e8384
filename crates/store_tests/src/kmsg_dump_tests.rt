// What the clauses do not say: that a log and a body find memory, and worked bodies.

use kmsg_dump::*;
use memchr::memchr;
use std::process::Abort;
use std::test::Fail;

// Pushes a line if it has no newline, and answers whether it was kept.
fn kept(log: &mut KLog, line: &[u8]) -> bool {
    match memchr(b'\n', line) {
        Some(_) => false,
        None => log.push(line),
    }
}

// Looks at how long the body of a crash is.
fn assert_size(rt: &impl Abort, log: &KLog, reason: Reason, count: u32, room: u32, size: usize) {
    let body = log.body(reason, count, room).expect(rt, "no memory");
    assert!(rt; body.len() == size);
}

// Looks at the body of a crash.
fn assert_body(rt: &impl Abort, log: &KLog, reason: Reason, count: u32, room: u32, text: &[u8]) {
    let body = log.body(reason, count, room).expect(rt, "no memory");
    assert!(rt; body.as_slice() == text);
}

#[test]
fn a_first_crash(rt: HostRuntime) -> Result<(), Fail> {
    let mut log = KLog::new(rt.alloc(), 131_072)?;
    assert!(rt; kept(&mut log, b"one") && kept(&mut log, b"two"));
    assert_body(
        &rt,
        &log,
        Reason::Panic,
        1,
        4060,
        b"Panic#1 Part1\none\ntwo\n",
    );
    Ok(())
}

#[test]
fn a_log_longer_than_its_room(rt: HostRuntime) -> Result<(), Fail> {
    let mut log = KLog::new(rt.alloc(), 131_072)?;
    for _ in 0..100 {
        assert!(rt; kept(&mut log, b"xxxxxxxxx"));
    }
    assert_size(&rt, &log, Reason::Panic, 1, 569, 564);
    assert_body(&rt, &log, Reason::Emergency, 4_294_967_295, 5, b"Emerg");
    Ok(())
}

#[test]
fn old_lines_go(rt: HostRuntime) -> Result<(), Fail> {
    let mut log = KLog::new(rt.alloc(), 256)?;
    assert!(rt; kept(&mut log, b"first") && kept(&mut log, b"") && kept(&mut log, &[b'a'; 249]));
    // The first line goes, the empty one stays.
    assert_size(&rt, &log, Reason::Oops, 2, 4060, 13 + 1 + 250);
    // A line as long as the limit is not kept.
    assert!(rt; kept(&mut log, &[b'b'; 255]) && !kept(&mut log, &[b'c'; 256]));
    // The last line alone.
    assert_size(&rt, &log, Reason::Shutdown, 3, 4060, 17 + 256);
    Ok(())
}
