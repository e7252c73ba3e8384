// Lines as consoles, syslog and the journal write them, and the boots of logs.
use std::process::Abort;
use text_log::*;

#[test]
fn the_lines_by_which_boots_begin(rt: HostRuntime) {
    for line in [
        b"Linux version 6.12.0".as_slice(),
        b"[    0.000000] Linux version 6.12.0",
        b"[    0.000000][    T0] Linux version 6.12.0",
        b"<5>[    0.000000] Linux version 6.12.0",
        b"\r[    0.000000] Linux version 6.12.0",
        b"\x1b[0m[    0.000000] Linux version 6.12.0",
        b"\x1b[32m[    0.000000] \x1b[0m\x1b[33mLinux version 6.12.0",
        b"Nov 30 03:10:00 host kernel: Linux version 6.12.0",
        b"Nov 30 03:10:00 host kernel: [    0.000000] Linux version 6.12.0",
        b"2026-11-30T03:10:00+00:00 host kernel: Linux version 6.12.0",
        b"[    0.000000] host kernel: Linux version 6.12.0",
        b"[Mon Nov 30 03:10:00 2026] Linux version 6.12.0",
    ] {
        assert!(rt; head_of(line) == Some(Head::Version));
    }
}

#[test]
fn other_lines(rt: HostRuntime) {
    assert!(rt;
        head_of(b"[    0.000000] Booting Linux on physical CPU 0x0000000000") == Some(Head::Booting)
    );
    for line in [
        b"".as_slice(),
        b"[    1.000000] usb: Linux version 6.12.0",
        b"Panic#1 Part1",
        b"[    0.000000 Linux version 6.12.0",
    ] {
        assert!(rt; head_of(line).is_none());
    }
}

fn assert_boots(rt: &(impl Abort + AllocGlobal), text: &[u8], ends: &[usize]) {
    let Ok(boots) = boots(rt.alloc(), text) else {
        return;
    };
    assert!(rt; boots.len() == ends.len());
    for (boot, end) in boots.iter().zip(ends) {
        assert!(rt; boot.end == *end);
    }
}

#[test]
fn boots_of_logs(rt: HostRuntime) {
    assert_boots(&rt, b"", &[]);
    assert_boots(&rt, b"no head\nof a boot", &[17]);
    assert_boots(
        &rt,
        b"U-Boot\nLinux version 1\na\nLinux version 2\nb\n",
        &[7, 25, 43],
    );
    // Arm writes two such lines
    assert_boots(
        &rt,
        b"Booting Linux on physical CPU 0\nLinux version 1\na\nBooting Linux on physical CPU 0\nb",
        &[50, 83],
    );
    assert_boots(&rt, b"Linux version 1\nLinux version 2", &[16, 31]);
}

#[test]
fn texts_and_others(rt: HostRuntime) {
    assert!(rt; is_text_log(b"[    0.000000] Linux"));
    assert!(rt; !is_text_log(b""));
    assert!(rt; !is_text_log(b"DBGC\x00\x00\x00\x00"));
    // erased flash, and a text behind it
    assert!(rt; !is_text_log(b"\xff\xff\xff\xff"));
    assert!(rt; is_text_log(b"\xff\xff\xffa"));
}
