// Calls and lines in a store of one console zone.
ghost use Rattle.std.specs.Prelude.{◌≡◌};

use crate::stores::off;
use outside::{Bytes, Calls, MemSink};
use prz_read::Logs;
use ram_session::{LineError, Machine, begin, content_of, finish, make, play, step};
use ramoops::{Ask, Live, Refusal};
use script::parse;
use script_spec::{Cause, LineStop};
use std::process::Abort;
use std::test::Fail;
use zone_spec::{Kind, ZoneName};

const ONE: &str = "mem_size=4096 record_size=0 ftrace_size=0 pmsg_size=0";

const CONSOLE: ZoneName = ZoneName {
    kind: Kind::Console,
    index: 0,
};

const PMSG: ZoneName = ZoneName {
    kind: Kind::Pmsg,
    index: 0,
};

fn booted(rt: &(impl Abort + AllocGlobal)) -> Live {
    match off(rt.alloc(), ONE) {
        Ok(off) => match off.boot() {
            Ok((live, _, _)) => live,
            Err(_) => panic!(rt; "no memory"),
        },
        Err(_) => panic!(rt; "no memory"),
    }
}

fn copied(rt: &(impl Abort + AllocGlobal), bytes: &[u8]) -> Bytes
    ensures { result ≡ bytes.now }
{
    Bytes::copy_of(rt.alloc(), bytes).expect(rt, "no memory")
}

fn append(rt: &(impl Abort + AllocGlobal), live: &mut Live, bytes: &[u8]) {
    assert!(rt; make(live, Ask::Append(CONSOLE, copied(rt, bytes))) == Ok(()));
    assert!(rt; live.left(CONSOLE) == Ok(0));
}

fn begin_append(rt: &(impl Abort + AllocGlobal), live: &mut Live, bytes: &[u8]) {
    assert!(rt; begin(live, Ask::Append(CONSOLE, copied(rt, bytes))) == Ok(CONSOLE));
}

// Whether the console's told list has so many bytes.
fn has_told(live: &Live, count: u32) -> bool {
    match live.told(CONSOLE) {
        Ok(told) => told.len() == count,
        Err(_) => false,
    }
}

#[test]
fn calls_are_made_by_their_stores(rt: HostRuntime) {
    let mut live = booted(&rt);
    append(&rt, &mut live, b"abc");
    begin_append(&rt, &mut live, b"def");
    assert!(rt; live.left(CONSOLE) == Ok(5));
    assert!(rt; step(&mut live, CONSOLE, 1) == Ok(()) && step(&mut live, CONSOLE, 0) == Ok(()));
    assert!(rt; live.left(CONSOLE) == Ok(4));
    assert!(rt; finish(&mut live, CONSOLE) == Ok(()) && has_told(&live, 6));
    append(&rt, &mut live, b"");
}

#[test]
fn calls_are_refused(rt: HostRuntime) {
    let mut live = booted(&rt);
    assert!(rt; step(&mut live, CONSOLE, 0) == Err(Refusal::Idle));
    assert!(rt; finish(&mut live, CONSOLE) == Err(Refusal::Idle));
    assert!(rt; step(&mut live, PMSG, 1) == Err(Refusal::NoZone));
    begin_append(&rt, &mut live, b"abc");
    assert!(rt; begin(&mut live, Ask::Erase(CONSOLE)) == Err(Refusal::Busy));
}

// What a script on zeros leaves or why it ends, and what it puts.
fn played(
    rt: &(impl Abort + AllocGlobal),
    script: &[u8],
) -> Result<(Result<Machine, LineStop>, Vec<u8>), Fail> {
    let alloc = rt.alloc();
    let off = off(alloc, ONE)?;
    let lines = match parse(alloc, script) {
        Ok(lines) => lines,
        Err(_) => panic!(rt; "a bad line"),
    };
    assert!(rt; lines.as_slice().len() < 100);
    let mut out = MemSink::new(alloc, 1000, Calls::new(alloc, &[])?)?;
    let end = play(alloc, off, lines, &mut out);
    Ok((end, Vec::from_slice(alloc, out.bytes())?))
}

const UNSIGNED: &[u8] = b"boot console unsigned start 0 size 0 corrected 0 bad 0 nothing told\n";

// The logs that a script's last boot saved. It puts the line of a boot of zeros, and this text.
fn logs_after(rt: &(impl Abort + AllocGlobal), script: &[u8], wanted: &[u8]) -> Result<Logs, Fail> {
    let (end, text) = played(rt, script)?;
    assert!(rt; text.strip_prefix(UNSIGNED) == Some(wanted));
    match end {
        Ok(Machine::Live(_, logs, _)) => Ok(logs),
        Ok(Machine::Off(_)) => Err(Fail::from("the machine is off")),
        Err(_) => Err(Fail::from("the script is refused")),
    }
}

const DONE: &[u8] = b"boot\nwrite console 616263\nstop\nboot\nlist\nextract console-ramoops-0\n";

const DONE_TEXT: &[u8] = b"boot console found start 3 size 3 corrected 0 bad 0 as told\n\
    records 1\nconsole-ramoops-0 3\nconsole-ramoops-0 3\nabc\n";

// A script, why its last line is refused, and what it puts after the first boot's line.
const REFUSED: &[(&[u8], LineStop, &[u8])] = &[
    (
        b"boot\nwrite pmsg 616263\n",
        LineStop::Refused {
            line: 2,
            cause: Cause::NoZone,
        },
        b"",
    ),
    (
        b"boot\nextract console-ramoops-0\n",
        LineStop::Refused {
            line: 2,
            cause: Cause::NoRecord,
        },
        b"",
    ),
    (
        b"boot\nwrite console 616263\nstop\nboot\nextract pmsg-ramoops-0\n",
        LineStop::Refused {
            line: 5,
            cause: Cause::NoRecord,
        },
        b"boot console found start 3 size 3 corrected 0 bad 0 as told\n",
    ),
    (
        b"boot\nwrite console 616263\nstop\nboot\nextract console-ramoops-1\n",
        LineStop::Refused {
            line: 5,
            cause: Cause::NoRecord,
        },
        b"boot console found start 3 size 3 corrected 0 bad 0 as told\n",
    ),
];

#[test]
fn lines_are_refused(rt: HostRuntime) -> Result<(), Fail> {
    for (script, why, wanted) in REFUSED.iter().copied() {
        let (end, text) = played(&rt, script)?;
        assert!(rt; text.strip_prefix(UNSIGNED) == Some(wanted) && end.err() == Some(why));
    }
    Ok(())
}

#[test]
fn a_flip_is_made(rt: HostRuntime) -> Result<(), Fail> {
    let mut off = off(rt.alloc(), ONE)?;
    assert!(rt; off.flip(7, 3) == Ok(()) && off.flip(4096, 1) == Err(Refusal::OutOfImage));
    assert!(rt; off.image().first() == Some(&0) && off.image().get(7) == Some(&3));
    Ok(())
}

const NO_NAMES: &[&[u8]] = &[
    b"pmsg-ramoops-0",
    b"console-ramoops-1",
    b"console-ramoops-0 ",
    b"\xffconsole",
    b"",
];

fn is_unlisted(rt: &(impl Abort + AllocGlobal), logs: &Logs, name: &[u8]) -> bool {
    match content_of(rt.alloc(), logs, name) {
        Ok(_) => false,
        Err(fault) => fault == LineError::Refused(Cause::NoRecord),
    }
}

// Whether the record of this name has this content.
fn holds(rt: &(impl Abort + AllocGlobal), logs: &Logs, name: &[u8], wanted: &[u8]) -> bool {
    match content_of(rt.alloc(), logs, name) {
        Ok(content) => content.as_slice() == wanted,
        Err(_) => false,
    }
}

#[test]
fn a_record_is_found_by_its_name(rt: HostRuntime) -> Result<(), Fail> {
    let logs = logs_after(&rt, DONE, DONE_TEXT)?;
    assert!(rt; holds(&rt, &logs, b"console-ramoops-0", b"abc"));
    for name in NO_NAMES.iter().copied() {
        assert!(rt; is_unlisted(&rt, &logs, name));
    }
    Ok(())
}

#[test]
fn a_blank_store_has_no_record(rt: HostRuntime) -> Result<(), Fail> {
    let blank = logs_after(&rt, b"boot\n", b"")?;
    assert!(rt; is_unlisted(&rt, &blank, b"console-ramoops-0"));
    Ok(())
}
