// Worked readings: the names that they list, and the contents, lengths and times.
use arrayvec::ArrayString;
use outside::Bytes;
use prz_read::{Logs, Reading, State, Words};
use pstore_records::*;
use ramoops_layout::types::Layout;
use ramoops_layout::{ByteOrder, Order, Params, layout};
use std::alloc::{AllocError, Global};
use std::process::Abort;
use std::test::Fail;

fn params(dump: u64, console: u64, ftrace: u64, pmsg: u64, ecc: u64) -> Params {
    Params {
        mem: 16384,
        dump,
        console,
        ftrace,
        pmsg,
        ecc,
        cpus: 2,
        ftrace_sig: 0,
        block: 128,
        ecc_dump: ecc,
        ecc_console: ecc,
        ecc_ftrace: ecc,
        ecc_pmsg: ecc,
        order: Order::FtracePmsg,
        byte_order: ByteOrder::Little,
    }
}

// Dump zones 0 and 1, console and pmsg, with this parity.
fn dumps(ecc: u64) -> Params {
    params(4096, 4096, 0, 4096, ecc)
}

// A console zone, two ftrace zones and a pmsg zone, with this parity.
fn rings(ecc: u64) -> Params {
    params(0, 4096, 4096, 4096, ecc)
}

// What a zone reads: its state, its log, and the bytes corrected and parts unread.
#[derive(Clone, Copy)]
struct Seen<'a> {
    state: State,
    log: &'a [u8],
    corrected: u32,
    bad: u32,
}

fn zone_of(state: State, log: &[u8], corrected: u32, bad: u32) -> Seen<'_> {
    Seen {
        state,
        log,
        corrected,
        bad,
    }
}

fn found(log: &[u8]) -> Seen<'_> {
    zone_of(State::Found, log, 0, 0)
}

fn empty() -> Seen<'static> {
    zone_of(State::Empty, &[], 0, 0)
}

fn reading(alloc: Global, seen: Seen) -> Result<Reading, AllocError> {
    Ok(Reading {
        state: seen.state,
        words: Words {
            sig: 0x4347_4244,
            start: 0,
            size: 0,
        },
        log: Bytes::copy_of(alloc, seen.log)?,
        corrected: seen.corrected,
        bad: seen.bad,
    })
}

fn laid(alloc: Global, p: &Params) -> Result<Layout, AllocError> {
    match layout(alloc, p) {
        Ok(layout) => Ok(layout),
        Err(_) => Err(AllocError),
    }
}

// The saved readings of a layout of four zones.
fn saved(alloc: Global, p: &Params, zones: [Seen; 4]) -> Result<Logs, AllocError> {
    let layout = laid(alloc, p)?;
    let mut logs = Logs::new(alloc, &layout)?;
    if layout.zones().len() != 4 {
        return Err(AllocError);
    }
    logs.push(reading(alloc, zones[0])?);
    logs.push(reading(alloc, zones[1])?);
    logs.push(reading(alloc, zones[2])?);
    logs.push(reading(alloc, zones[3])?);
    Ok(logs)
}

// Whether these names are listed, in this order, alone and in the table.
fn lists(alloc: Global, logs: &Logs, wanted: &[Name]) -> bool {
    let Ok(found) = names(alloc, logs) else {
        return false;
    };
    let Ok(table) = listed(alloc, logs) else {
        return false;
    };
    let mut are_same = found.as_slice() == wanted && table.len() == wanted.len();
    for (entry, name) in table.iter().zip(wanted) {
        are_same &= entry.name == *name;
    }
    are_same
}

// Whether the content of this name is these bytes, with their length.
fn shows(alloc: Global, logs: &Logs, name: Name, bytes: &[u8]) -> bool {
    match content(alloc, logs, name) {
        Ok(shown) => {
            shown.as_slice() == bytes && length(logs, name) == Some(bytes.len() as u128)
        }
        Err(_) => false,
    }
}

// Looks at the content of a name where the zones read so.
fn assert_shows(
    rt: &(impl Abort + AllocGlobal),
    p: &Params,
    zones: [Seen; 4],
    name: Name,
    bytes: &[u8],
) {
    let logs = saved(rt.alloc(), p, zones).expect(rt, "no memory");
    assert!(rt; shows(rt.alloc(), &logs, name, bytes));
}

fn is_unlisted(alloc: Global, logs: &Logs, name: Name) -> bool {
    match content(alloc, logs, name) {
        Err(ContentFault::NoRecord) => {
            length(logs, name).is_none() && time(logs, name).is_none()
        }
        Ok(_) | Err(ContentFault::Memory) => false,
    }
}

fn dump(index: u32, packed: bool) -> Name {
    Name::Dump { index, packed }
}

const UNLISTED: &[Name] = &[
    Name::Dump {
        index: 1,
        packed: true,
    },
    Name::Dump {
        index: 0,
        packed: false,
    },
    Name::Dump {
        index: 2,
        packed: false,
    },
    Name::Console,
    Name::Pmsg,
    Name::Ftrace,
];

fn assert_unlisted(rt: &(impl Abort + AllocGlobal), logs: &Logs, names: &[Name]) {
    for name in names.iter().copied() {
        assert!(rt; is_unlisted(rt.alloc(), logs, name));
    }
}

#[test]
fn a_kept_dump_is_listed(rt: HostRuntime) -> Result<(), Fail> {
    let alloc = rt.alloc();
    let kept = found(b"====1700000001.000000-D\ntwo");
    let logs = saved(alloc, &dumps(0), [empty(), kept, empty(), empty()])?;
    let name = dump(1, false);
    assert!(rt; lists(alloc, &logs, &[name]) && shows(alloc, &logs, name, b"two"));
    let at = Time {
        secs: 1_700_000_001,
        micros: 0,
    };
    assert!(rt; time(&logs, name) == Some(at));
    assert_unlisted(&rt, &logs, UNLISTED);
    Ok(())
}

#[test]
fn a_dump_without_its_line_is_not_listed(rt: HostRuntime) -> Result<(), Fail> {
    let alloc = rt.alloc();
    let zones = [found(&[0; 15]), empty(), found(&[0x61, 0, 0]), found(b"p")];
    let logs = saved(alloc, &dumps(0), zones)?;
    assert!(rt; lists(alloc, &logs, &[Name::Console, Name::Pmsg]));
    assert!(rt; shows(alloc, &logs, Name::Console, &[0x61, 0, 0]));
    assert!(rt; shows(alloc, &logs, Name::Pmsg, b"p"));
    assert!(rt; time(&logs, Name::Console).is_none());
    Ok(())
}

#[test]
fn a_compressed_dump_has_its_suffix(rt: HostRuntime) -> Result<(), Fail> {
    let alloc = rt.alloc();
    let zones = [
        found(b"====5.000000-C\n\n x"),
        found(b"====7.5\nabc"),
        zone_of(State::Unsigned, b"abc", 0, 0),
        empty(),
    ];
    let logs = saved(alloc, &dumps(0), zones)?;
    assert!(rt; lists(alloc, &logs, &[dump(0, true), dump(1, false)]));
    assert!(rt; shows(alloc, &logs, dump(0, true), b"\n x"));
    assert!(rt; shows(alloc, &logs, dump(1, false), b"abc"));
    assert!(rt; time(&logs, dump(1, false)) == Some(Time { secs: 7, micros: 5 }));
    assert!(rt; is_unlisted(alloc, &logs, dump(0, false)));
    assert!(rt; is_unlisted(alloc, &logs, Name::Console));
    Ok(())
}

// The bytes of an entry of the addresses 1 and 2.
fn push_entry(bytes: &mut Vec<u8>, word: u64) -> Result<(), AllocError> {
    bytes.extend_from_slice(&[1, 0, 0, 0, 0, 0, 0, 0, 2, 0, 0, 0, 0, 0, 0, 0])?;
    bytes.extend_from_slice(&word.to_le_bytes())
}

fn entries(alloc: Global, words: &[u64]) -> Result<Vec<u8>, AllocError> {
    let mut bytes = Vec::new(alloc);
    for word in words {
        push_entry(&mut bytes, *word)?;
    }
    Ok(bytes)
}

// The saved readings of two ftrace zones with entries of these words, and of pmsg.
fn traced(alloc: Global, first: &[u64], second: &[u64]) -> Result<Logs, AllocError> {
    let first = entries(alloc, first)?;
    let second = entries(alloc, second)?;
    let zones = [empty(), found(&first), found(&second), found(b"p")];
    saved(alloc, &rings(0), zones)
}

#[test]
fn ftrace_zones_make_one_record_behind_pmsg(rt: HostRuntime) -> Result<(), Fail> {
    let alloc = rt.alloc();
    let logs = traced(alloc, &[0x500, 0x700], &[0x501])?;
    let merged = entries(alloc, &[0x501, 0x500, 0x700])?;
    assert!(rt; lists(alloc, &logs, &[Name::Pmsg, Name::Ftrace]));
    assert!(rt; merged.len() == 72 && shows(alloc, &logs, Name::Ftrace, &merged));
    assert!(rt; time(&logs, Name::Ftrace).is_none());
    Ok(())
}

#[test]
fn bytes_of_no_whole_entry_are_dropped(rt: HostRuntime) -> Result<(), Fail> {
    let alloc = rt.alloc();
    let mut all = Vec::new(alloc);
    for i in 0..85_u64 {
        push_entry(&mut all, 256 * i)?;
    }
    assert!(rt; all.len() == 2040);
    let log = &all.as_slice()[4..];
    let kept = &all.as_slice()[24..];
    assert!(rt; (log.len(), kept.len()) == (2036, 2016));
    let zones = [empty(), found(log), empty(), empty()];
    assert_shows(&rt, &rings(0), zones, Name::Ftrace, kept);
    Ok(())
}

const NOTICES: &[(u32, u32, &[u8])] = &[
    (0, 0, b"abc\nECC: No errors detected\n"),
    (
        1,
        0,
        b"abc\nECC: 1 Corrected bytes, 0 unrecoverable blocks\n",
    ),
    (
        8,
        0,
        b"abc\nECC: 8 Corrected bytes, 0 unrecoverable blocks\n",
    ),
    (
        0,
        1,
        b"abc\nECC: 0 Corrected bytes, 1 unrecoverable blocks\n",
    ),
];

#[test]
fn a_notice_follows_where_there_is_parity(rt: HostRuntime) {
    for (corrected, bad, text) in NOTICES.iter().copied() {
        let console = zone_of(State::Found, b"abc", corrected, bad);
        let zones = [empty(), empty(), console, empty()];
        assert_shows(&rt, &dumps(16), zones, Name::Console, text);
    }
}

#[test]
fn a_notice_counts_the_zones_that_were_found(rt: HostRuntime) {
    let console = zone_of(State::Found, &[], 5, 0);
    let first = zone_of(State::Found, &[], 1, 2);
    let rows: [(Seen, &[u8]); 2] = [
        (
            zone_of(State::Invalid, &[], 9, 9),
            b"\nECC: 1 Corrected bytes, 2 unrecoverable blocks\n",
        ),
        (
            zone_of(State::Found, &[], 3, 4),
            b"\nECC: 4 Corrected bytes, 6 unrecoverable blocks\n",
        ),
    ];
    for (second, text) in rows {
        let zones = [console, first, second, empty()];
        assert_shows(&rt, &rings(16), zones, Name::Ftrace, text);
    }
}

#[test]
fn a_kind_without_parity_has_no_notice(rt: HostRuntime) -> Result<(), Fail> {
    let alloc = rt.alloc();
    let p = Params {
        block: 32,
        ecc_dump: 0,
        ..dumps(16)
    };
    let zones = [found(b"====5.000000-D\nx"), empty(), found(b"abc"), empty()];
    let logs = saved(alloc, &p, zones)?;
    assert!(rt; lists(alloc, &logs, &[dump(0, false), Name::Console]));
    assert!(rt; shows(alloc, &logs, dump(0, false), b"x"));
    assert!(rt; time(&logs, dump(0, false)) == Some(Time { secs: 5, micros: 0 }));
    let text = b"abc\nECC: No errors detected\n";
    assert!(rt; shows(alloc, &logs, Name::Console, text));
    Ok(())
}

#[test]
fn a_forgotten_log_is_not_listed(rt: HostRuntime) -> Result<(), Fail> {
    let alloc = rt.alloc();
    let zones = [empty(), empty(), found(b"abc"), found(b"p")];
    let mut logs = saved(alloc, &dumps(0), zones)?;
    if logs.len() == 4 {
        logs.forget(2);
    }
    assert!(rt; lists(alloc, &logs, &[Name::Pmsg]));
    assert!(rt; is_unlisted(alloc, &logs, Name::Console));
    Ok(())
}

const TEXTS: &[(Name, &str)] = &[
    (
        Name::Dump {
            index: 0,
            packed: false,
        },
        "dmesg-ramoops-0",
    ),
    (
        Name::Dump {
            index: 12,
            packed: false,
        },
        "dmesg-ramoops-12",
    ),
    (
        Name::Dump {
            index: 0,
            packed: true,
        },
        "dmesg-ramoops-0.enc.z",
    ),
    (
        Name::Dump {
            index: 4294967295,
            packed: true,
        },
        "dmesg-ramoops-4294967295.enc.z",
    ),
    (Name::Console, "console-ramoops-0"),
    (Name::Pmsg, "pmsg-ramoops-0"),
    (Name::Ftrace, "ftrace-ramoops-0"),
];

fn is_written(name: Name, text: &str) -> bool {
    let mut out = ArrayString::zero_filled();
    name_text(name, &mut out);
    out.as_str() == text
}

#[test]
fn names_are_written_and_found(rt: HostRuntime) {
    for (name, text) in TEXTS.iter().copied() {
        assert!(rt; is_written(name, text) && find(text) == Some(name));
    }
}

const NO_NAMES: &[&str] = &[
    "",
    "dmesg-ramoops-",
    "dmesg-ramoops-00",
    "dmesg-ramoops-01",
    "dmesg-ramoops-+1",
    "dmesg-ramoops--1",
    "dmesg-ramoops-4294967296",
    "dmesg-ramoops-1.",
    "dmesg-ramoops-1.enc",
    "dmesg-ramoops-1.enc.zz",
    "dmesg-ramoops-.enc.z",
    "dmesg-ramoops-1.enc.z.enc.z",
    "dmesg-ramoops-1 ",
    " dmesg-ramoops-1",
    "Dmesg-ramoops-1",
    "console-ramoops-1",
    "console-ramoops",
    "ftrace-ramoops-00",
    "pmsg-ramoops-0.enc.z",
];

#[test]
fn other_texts_are_no_names(rt: HostRuntime) {
    for text in NO_NAMES.iter().copied() {
        assert!(rt; find(text).is_none());
    }
}

#[test]
fn a_table_has_each_zone_of_a_record(rt: HostRuntime) -> Result<(), Fail> {
    let alloc = rt.alloc();
    let kept = found(b"====1700000001.000000-D\ntwo");
    let logs = saved(alloc, &dumps(16), [empty(), kept, found(b"abc"), empty()])?;
    let table = listed(alloc, &logs)?;
    let at = Time {
        secs: 1_700_000_001,
        micros: 0,
    };
    let wanted = [
        Entry {
            name: dump(1, false),
            len: 28,
            time: Some(at),
        },
        Entry {
            name: Name::Console,
            len: 28,
            time: None,
        },
    ];
    assert!(rt; table.as_slice() == wanted.as_slice());
    Ok(())
}
