// Worked sessions, and sessions in which the store or the output fails.
ghost use Rattle.std.specs.Prelude.{Some, IfOk};
ghost use Rattle.outside.specs.Memory.{store_holds};
ghost use Rattle.blk_spec.specs.Answers.{HasRoom};

use blk_session::play;
use outside::{Bytes, Calls, MemSink, MemStore};
use script::parse;
use script_spec::{Cause, LineStop};
use std::alloc::{AllocError, Global};
use std::process::Abort;
use std::test::Fail;
use zone_blk::BlkLayout;

const LAYOUT: BlkLayout = BlkLayout {
    total: 16384,
    kmsg: 4096,
    console: 4096,
    pmsg: 4096,
    dumps: 2,
};

const FIRST: &str =
    "boot\nwrite console 616263\nkdump 5 6000 D Panic 78\nboot\nlist\nextract dmesg-pstore_blk-0\n";

const FIRST_TEXT: &str =
    "records 2\ndmesg-pstore_blk-0 22 5.000006000\nconsole-pstore_blk-0 3\ndmesg-pstore_blk-0 22\nPanic: Total 1 times\nx\n";

// A store of so many zeros that fails at these calls.
fn zeros(alloc: Global, len: u32, fails: &[u32]) -> Result<MemStore, AllocError>
    ensures { IfOk result (λ s. HasRoom len (Some (store_holds s))) }
{
    let bytes = vec![in alloc; 0u8; len as usize]?;
    MemStore::new(Bytes::from_vec(bytes), len, Calls::new(alloc, fails)?)
}

fn was_put(out: &MemSink, text: &str) -> bool {
    out.bytes() == text.as_bytes()
}

// A script's end.
fn played(
    alloc: Global,
    store: &mut MemStore,
    script: &str,
    out: &mut MemSink,
) -> Result<Result<(), LineStop>, Fail>
    requires { HasRoom 16384 (Some (store_holds store.old)) }
{
    if script.len() > 1000 {
        return Err(Fail::from(AllocError));
    }
    let lines = parse(alloc, script.as_bytes())?;
    if lines.as_slice().len() > 1000 {
        return Err(Fail::from(AllocError));
    }
    Ok(play(alloc, LAYOUT, store, lines.as_slice(), out))
}

// Scripts on zeros, and what they put.
const DONE: &[(&str, &str)] = &[
    (FIRST, FIRST_TEXT),
    ("# nothing\n\n", ""),
    (
        "boot\nwrite console 616263\ncut 5\nwrite console 6465666768\nboot\nextract console-pstore_blk-0\n",
        "console-pstore_blk-0 3\nabc\n",
    ),
    (
        "boot\nwrite console 616263\ncut 17\nwrite console 6465666768\nboot\nextract console-pstore_blk-0\n",
        "console-pstore_blk-0 8\nabcdefgh\n",
    ),
    (
        "boot\ncut 15\nwrite console 616263\ncut 100\nwrite console 64\nboot\nextract console-pstore_blk-0\n",
        "console-pstore_blk-0 4\nabcd\n",
    ),
    (
        "boot\ncut 14\nwrite console 616263\ncut 100\nwrite console 64\nboot\nextract console-pstore_blk-0\n",
        "console-pstore_blk-0 3\nabc\n",
    ),
    (
        "boot\nkdump 5 6000 D Panic 78\nboot\nkdump 9 0 D Oops 7a\nextract dmesg-pstore_blk-0\nboot\nlist\n",
        "dmesg-pstore_blk-0 22\nPanic: Total 1 times\nx\nrecords 1\ndmesg-pstore_blk-0 21 9.000000000\n",
    ),
    (
        "boot\nwrite pmsg 61\ncut 0\nboot\nerase pmsg-pstore_blk-0\nlist\nwrite pmsg 62\nboot\nlist\n",
        "records 0\nrecords 1\npmsg-pstore_blk-0 1\n",
    ),
    (
        "boot\nkdump 7 999999999 C Oops 7879\nboot\nlist\nextract dmesg-pstore_blk-0.enc.z\nerase dmesg-pstore_blk-0.enc.z\nboot\nlist\n",
        "records 1\ndmesg-pstore_blk-0.enc.z 2 7.999999999\ndmesg-pstore_blk-0.enc.z 2\nxy\nrecords 0\n",
    ),
];

// Scripts with a line that is refused, what they put before, the line's number, and why.
const REFUSED: &[(&str, &str, u32, Cause)] = &[
    ("write console 61\n", "", 1, Cause::IsOff),
    ("\nlist\n", "", 2, Cause::IsOff),
    ("cut 1\n", "", 1, Cause::IsOff),
    ("stop\n", "", 1, Cause::NotHere),
    ("boot\nlist\nflip 0 1\n", "records 0\n", 3, Cause::NotHere),
    ("boot\nwrite ftrace-0 61\n", "", 2, Cause::NoZone),
    ("boot\nextract dmesg-pstore_blk-0\n", "", 2, Cause::NoRecord),
    ("boot\nerase pmsg-pstore_blk-0\n", "", 2, Cause::NoRecord),
];

// Plays a script on zeros, and looks at its end and its text.
fn assert_played(
    rt: &(impl Abort + AllocGlobal),
    script: &str,
    text: &str,
    end: Result<(), LineStop>,
) -> Result<(), Fail> {
    let mut store = zeros(rt.alloc(), 16384, &[])?;
    let mut out = MemSink::new(rt.alloc(), 1000, Calls::new(rt.alloc(), &[])?)?;
    let ended = played(rt.alloc(), &mut store, script, &mut out)?;
    assert!(rt; ended == end && was_put(&out, text), "{script}");
    Ok(())
}

#[test]
fn worked_sessions(rt: HostRuntime) -> Result<(), Fail> {
    for (script, text) in DONE.iter().copied() {
        assert_played(&rt, script, text, Ok(()))?;
    }
    for (script, text, line, cause) in REFUSED.iter().copied() {
        assert_played(&rt, script, text, Err(LineStop::Refused { line, cause }))?;
    }
    Ok(())
}

fn holds_at(store: &MemStore, at: usize, bytes: &[u8]) -> bool {
    match store.bytes().get(at..) {
        Some(rest) => rest.starts_with(bytes),
        None => false,
    }
}

// Whether the store has the console and the dump of the first session.
fn holds_first(store: &MemStore) -> bool {
    holds_at(store, 4096, b"\x46\x42\x47\x43\x03\0\0\0\x03\0\0\0abc")
        && holds_at(store, 8192, b"\x44\x42\x47\x43\x29\0\0\0\0\0\0\0")
        && store.bytes().get(8244) == Some(&0x78)
}

#[test]
fn bytes_of_the_first_session(rt: HostRuntime) -> Result<(), Fail> {
    let alloc = rt.alloc();
    let mut store = zeros(alloc, 16384, &[])?;
    let mut out = MemSink::new(alloc, 0, Calls::new(alloc, &[])?)?;
    let script = "boot\nwrite console 616263\nkdump 5 6000 D Panic 78\n";
    assert!(rt; played(alloc, &mut store, script, &mut out)? == Ok(()));
    assert!(rt; holds_first(&store));
    Ok(())
}

// How the first session ends where these calls of the store and of the output fail. If it fails, it puts this text.
fn first_end(
    rt: &(impl Abort + AllocGlobal),
    store_fails: &[u32],
    out_fails: &[u32],
    text: &str,
) -> Result<Result<(), LineStop>, Fail> {
    let mut store = zeros(rt.alloc(), 16384, store_fails)?;
    let mut out = MemSink::new(rt.alloc(), 1000, Calls::new(rt.alloc(), out_fails)?)?;
    let end = played(rt.alloc(), &mut store, FIRST, &mut out)?;
    assert!(rt; end.is_ok() || was_put(&out, text));
    Ok(end)
}

#[test]
fn each_call_of_the_store_fails(rt: HostRuntime) -> Result<(), Fail> {
    let mut failed = 0;
    for call in 1..100u32 {
        match first_end(&rt, &[call], &[], "")? {
            Ok(()) => break,
            Err(stop) => assert!(rt; stop == LineStop::StoreFault, "call {call}"),
        }
        failed = call;
    }
    assert!(rt; failed > 4 && failed < 99);
    Ok(())
}

#[test]
fn each_put_fails(rt: HostRuntime) -> Result<(), Fail> {
    for (call, text) in [(1, ""), (4, ""), (5, "records 2\ndmesg-pstore_blk-0 22 5")] {
        let end = first_end(&rt, &[], &[call], text)?;
        assert!(rt; end == Err(LineStop::SinkFault), "put {call}");
    }
    Ok(())
}
