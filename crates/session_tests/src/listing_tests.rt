// Records of saved readings that are made here: their list, and their contents by name.
use outside::Bytes;
use prz_read::{Logs, Reading, State, Words};
use ram_session::{LineError, content_of, listing};
use ramoops_layout::types::Layout;
use ramoops_layout::{ByteOrder, Order, Params, layout};
use script_spec::Cause;
use std::alloc::{AllocError, Global};
use std::test::Fail;

fn params(mem: u64, dump: u64, pmsg: u64, ecc: u64) -> Params {
    Params {
        mem,
        dump,
        console: 4096,
        ftrace: 0,
        pmsg,
        ecc,
        cpus: 2,
        ftrace_sig: 0,
        block: 128,
        ecc_dump: ecc,
        ecc_console: ecc,
        ecc_ftrace: ecc,
        ecc_pmsg: ecc,
        order: Order::FtracePmsg,
        byte_order: ByteOrder::Little,
    }
}

// What a zone reads: its state, start and size, its log, and the bytes corrected and parts unread.
#[derive(Clone, Copy)]
struct Seen<'a> {
    state: State,
    start: u32,
    size: u32,
    log: &'a [u8],
    corrected: u32,
    bad: u32,
}

const EMPTY: Seen<'static> = Seen {
    state: State::Empty,
    start: 0,
    size: 0,
    log: &[],
    corrected: 0,
    bad: 0,
};

fn found(start: u32, size: u32, log: &[u8]) -> Seen<'_> {
    Seen {
        state: State::Found,
        start,
        size,
        log,
        ..EMPTY
    }
}

fn reading(alloc: Global, seen: Seen) -> Result<Reading, AllocError> {
    Ok(Reading {
        state: seen.state,
        words: Words {
            sig: 0x4347_4244,
            start: seen.start,
            size: seen.size,
        },
        log: Bytes::copy_of(alloc, seen.log)?,
        corrected: seen.corrected,
        bad: seen.bad,
    })
}

fn laid(alloc: Global, p: &Params) -> Result<Layout, AllocError> {
    match layout(alloc, p) {
        Ok(layout) => Ok(layout),
        Err(_) => Err(AllocError),
    }
}

// The saved reading of one console zone with this parity.
fn console_logs(alloc: Global, ecc: u64, seen: Seen) -> Result<Logs, AllocError> {
    let layout = laid(alloc, &params(4096, 0, 0, ecc))?;
    let mut logs = Logs::new(alloc, &layout)?;
    if layout.zones().len() != 1 {
        return Err(AllocError);
    }
    logs.push(reading(alloc, seen)?);
    Ok(logs)
}

// The saved readings of two dump zones, console and pmsg with this parity.
fn four_logs(alloc: Global, ecc: u64, zones: [Seen; 4]) -> Result<Logs, AllocError> {
    let layout = laid(alloc, &params(16384, 4096, 4096, ecc))?;
    let mut logs = Logs::new(alloc, &layout)?;
    if layout.zones().len() != 4 {
        return Err(AllocError);
    }
    logs.push(reading(alloc, zones[0])?);
    logs.push(reading(alloc, zones[1])?);
    logs.push(reading(alloc, zones[2])?);
    logs.push(reading(alloc, zones[3])?);
    Ok(logs)
}

fn lists(alloc: Global, logs: &Logs, text: &str) -> bool {
    match listing(alloc, logs) {
        Ok(list) => list.as_slice() == text.as_bytes(),
        Err(_) => false,
    }
}

// Whether the record of this name has this content.
fn holds(alloc: Global, logs: &Logs, name: &[u8], content: &[u8]) -> bool {
    match content_of(alloc, logs, name) {
        Ok(bytes) => bytes.as_slice() == content,
        Err(_) => false,
    }
}

fn is_unlisted(alloc: Global, logs: &Logs, name: &[u8]) -> bool {
    match content_of(alloc, logs, name) {
        Ok(_) => false,
        Err(fault) => fault == LineError::Refused(Cause::NoRecord),
    }
}

const ABC: Seen<'static> = Seen {
    state: State::Found,
    start: 3,
    size: 3,
    log: b"abc",
    ..EMPTY
};

const CORRECTED: Seen<'static> = Seen {
    corrected: 1,
    ..ABC
};

const CUT: Seen<'static> = Seen {
    size: 6,
    log: b"\0\0\0abc",
    ..ABC
};

// The parity of a console and what it reads, its list, and its record's content.
const CONSOLES: &[(u64, Seen<'static>, &str, &[u8])] = &[
    (0, ABC, "records 1\nconsole-ramoops-0 3\n", b"abc"),
    (0, CUT, "records 1\nconsole-ramoops-0 6\n", b"\0\0\0abc"),
    (
        16,
        CORRECTED,
        "records 1\nconsole-ramoops-0 51\n",
        b"abc\nECC: 1 Corrected bytes, 0 unrecoverable blocks\n",
    ),
];

#[test]
fn a_console_record(rt: HostRuntime) -> Result<(), Fail> {
    let alloc = rt.alloc();
    for (ecc, seen, list, content) in CONSOLES.iter().copied() {
        let logs = console_logs(alloc, ecc, seen)?;
        assert!(rt; lists(alloc, &logs, list));
        assert!(rt; holds(alloc, &logs, b"console-ramoops-0", content));
    }
    Ok(())
}

#[test]
fn a_forgotten_console_is_not_listed(rt: HostRuntime) -> Result<(), Fail> {
    let alloc = rt.alloc();
    let mut logs = console_logs(alloc, 0, ABC)?;
    if logs.len() == 1 {
        logs.forget(0);
    }
    assert!(rt; lists(alloc, &logs, "records 0\n"));
    assert!(rt; is_unlisted(alloc, &logs, b"console-ramoops-0"));
    Ok(())
}

#[test]
fn dumps_with_a_kept_zone(rt: HostRuntime) -> Result<(), Fail> {
    let alloc = rt.alloc();
    let first = found(26, 26, b"====1700000000.000123-D\none");
    let second = found(27, 27, b"====1700000001.000000-D\ntwo");
    let mut logs = four_logs(alloc, 0, [first, second, EMPTY, EMPTY])?;
    let text =
        "records 2\ndmesg-ramoops-0 3 1700000000.000123\ndmesg-ramoops-1 3 1700000001.000000\n";
    assert!(rt; lists(alloc, &logs, text));
    if logs.len() == 4 {
        logs.forget(0);
    }
    let text = "records 1\ndmesg-ramoops-1 3 1700000001.000000\n";
    assert!(rt; lists(alloc, &logs, text));
    assert!(rt; holds(alloc, &logs, b"dmesg-ramoops-1", b"two"));
    assert!(rt; is_unlisted(alloc, &logs, b"dmesg-ramoops-0"));
    Ok(())
}

// A microsecond number of more than six digits, of six and of one.
const TIMES: &[(&[u8], &str)] = &[
    (b"====5.5-D\nx", "dmesg-ramoops-0 1 5.000005\n"),
    (b"====5.999999-C\nx", "dmesg-ramoops-0.enc.z 1 5.999999\n"),
    (b"====5.1000000-D\nx", "dmesg-ramoops-0 1 5.1000000\n"),
    (b"====0.999999999-D\nx", "dmesg-ramoops-0 1 0.999999999\n"),
];

#[test]
fn microseconds_have_six_digits_or_more(rt: HostRuntime) -> Result<(), Fail> {
    let alloc = rt.alloc();
    for (log, line) in TIMES.iter().copied() {
        let logs = four_logs(alloc, 0, [found(0, 0, log), EMPTY, EMPTY, EMPTY])?;
        let text = format!(in alloc; "records 1\n{line}")?;
        assert!(rt; lists(alloc, &logs, &text));
    }
    Ok(())
}

#[test]
fn a_dump_and_a_console_cut_together(rt: HostRuntime) -> Result<(), Fail> {
    let alloc = rt.alloc();
    let dump = found(15, 15, &[0; 15]);
    let console = found(3, 3, b"a\0\0");
    let logs = four_logs(alloc, 0, [dump, EMPTY, console, found(1, 1, b"p")])?;
    let text = "records 2\nconsole-ramoops-0 3\npmsg-ramoops-0 1\n";
    assert!(rt; lists(alloc, &logs, text));
    assert!(rt; holds(alloc, &logs, b"console-ramoops-0", b"a\0\0"));
    Ok(())
}
