// Worked sessions: their bytes, and what a loading lists after each stop.
ghost use Rattle.std.specs.Prelude.{◌≡◌, ◌<◌, Some, IfOk};
ghost use Rattle.outside.specs.Memory.{store_holds};
ghost use Rattle.blk_spec.specs.Answers.{HasRoom};
ghost use Rattle.blk_spec.specs.Layout.{IsLayout};

use outside::{Bytes, Calls, MemStore};
use std::alloc::{AllocError, Global};
use std::process::Abort;
use std::test::Fail;
use zone_blk::*;

const LAYOUT: BlkLayout = BlkLayout {
    total: 16384,
    kmsg: 4096,
    console: 4096,
    pmsg: 4096,
    dumps: 2,
};

const TIME: BlkTime = BlkTime {
    secs: 5,
    nanos: 6000,
};

const DUMP: BlkName = BlkName::Dump {
    index: 0,
    packed: false,
};

// A store of so many zeros that fails at these calls.
fn zeros(alloc: Global, len: u32, fails: &[u32]) -> Result<MemStore, AllocError>
    ensures { IfOk result (λ s. HasRoom len (Some (store_holds s))) }
{
    let bytes = vec![in alloc; 0u8; len as usize]?;
    MemStore::new(Bytes::from_vec(bytes), len, Calls::new(alloc, fails)?)
}

fn is_all(bytes: Option<&[u8]>, byte: u8) -> bool {
    match bytes {
        Some(bytes) => bytes.iter().all(|b| *b == byte),
        None => false,
    }
}

// A full ring of one byte.
fn filled(alloc: Global, byte: u8, len: usize) -> Result<Vec<u8>, AllocError> {
    vec![in alloc; byte; len]
}

// Loads a layout of 16384 bytes.
fn load(alloc: Global, store: &mut MemStore, layout: BlkLayout) -> Result<Blk, BlkFault>
    requires layout { IsLayout layout }
    requires total { layout.total ≡ 16384 }
    requires room { HasRoom 16384 (Some (store_holds store.old)) }
    ensures total { IfOk result (λ b. b.layout.total ≡ 16384) }
    ensures room { HasRoom 16384 (Some (store_holds store.new)) }
{
    Blk::load(alloc, store, layout)
}

// Appends, and looks at the answer.
fn append(
    rt: &impl Abort,
    blk: &mut Blk,
    store: &mut MemStore,
    ring: BlkRing,
    payload: &[u8],
    answer: Result<(), BlkFault>,
)
    requires total { blk.old.layout.total ≡ 16384 }
    requires room { HasRoom 16384 (Some (store_holds store.old)) }
    ensures total { blk.new.layout.total ≡ 16384 }
    ensures room { HasRoom 16384 (Some (store_holds store.new)) }
{
    assert!(rt; blk.append(store, ring, payload) == answer);
}

fn erase(
    rt: &impl Abort,
    blk: &mut Blk,
    store: &mut MemStore,
    name: BlkName,
    answer: Result<(), BlkFault>,
)
    requires total { blk.old.layout.total ≡ 16384 }
    requires room { HasRoom 16384 (Some (store_holds store.old)) }
    ensures total { blk.new.layout.total ≡ 16384 }
    ensures room { HasRoom 16384 (Some (store_holds store.new)) }
{
    assert!(rt; blk.erase(store, name) == answer);
}

fn dump(blk: &mut Blk, store: &mut MemStore, reason: Reason, body: &[u8]) -> Result<(), BlkFault>
    requires total { blk.old.layout.total ≡ 16384 }
    requires room { HasRoom 16384 (Some (store_holds store.old)) }
    ensures total { blk.new.layout.total ≡ 16384 }
    ensures room { HasRoom 16384 (Some (store_holds store.new)) }
{
    blk.dump(store, TIME, false, reason, body)
}

// A console append and a dump.
fn write_both(blk: &mut Blk, store: &mut MemStore) -> Result<(), BlkFault>
    requires total { blk.old.layout.total ≡ 16384 }
    requires room { HasRoom 16384 (Some (store_holds store.old)) }
    ensures total { blk.new.layout.total ≡ 16384 }
    ensures room { HasRoom 16384 (Some (store_holds store.new)) }
{
    match blk.append(store, BlkRing::Console, b"abc") {
        Ok(()) => dump(blk, store, Reason::Panic, b"x"),
        Err(fault) => Err(fault),
    }
}

// A store of zeros that fails at these calls.
fn fresh(rt: &(impl Abort + AllocGlobal), fails: &[u32]) -> MemStore
    ensures { HasRoom 16384 (Some (store_holds result)) }
{
    match zeros(rt.alloc(), 16384, fails) {
        Ok(store) => store,
        Err(_) => panic!(rt; "no memory"),
    }
}

// Loads the layout that all but one of the tests have.
fn reload(rt: &(impl Abort + AllocGlobal), store: &mut MemStore) -> Blk
    requires { HasRoom 16384 (Some (store_holds store.old)) }
    ensures total { result.layout.total ≡ 16384 }
    ensures room { HasRoom 16384 (Some (store_holds store.new)) }
{
    match load(rt.alloc(), store, LAYOUT) {
        Ok(blk) => blk,
        Err(_) => panic!(rt; "not loaded"),
    }
}

// Whether the store has these bytes from here on.
fn holds_at(store: &MemStore, at: usize, bytes: &[u8]) -> bool {
    match store.bytes().get(at..) {
        Some(rest) => rest.starts_with(bytes),
        None => false,
    }
}

// Whether this record is listed with this content.
fn lists(rt: &impl Abort, blk: &Blk, name: BlkName, content: &str) -> bool {
    match blk.content(name) {
        Ok(bytes) => bytes.as_slice() == content.as_bytes(),
        Err(fault) => {
            assert!(rt; fault == BlkFault::NoRecord);
            false
        }
    }
}

// Loads again, and looks at the content of a record.
fn assert_reloads(
    rt: &(impl Abort + AllocGlobal),
    store: &mut MemStore,
    name: BlkName,
    content: &str,
)
    requires { HasRoom 16384 (Some (store_holds store.old)) }
{
    let blk = reload(rt, store);
    assert!(rt; lists(rt, &blk, name, content));
}

// Whether these records are listed, and no other.
fn names(rt: &impl Abort, blk: &Blk, names: &[BlkName]) -> bool {
    match blk.names() {
        Ok(listed) => listed.as_slice() == names,
        Err(_) => panic!(rt; "no memory"),
    }
}

// A store of zeros after a console append and a dump.
fn written(rt: &(impl Abort + AllocGlobal)) -> MemStore
    ensures { HasRoom 16384 (Some (store_holds result)) }
{
    let mut store = fresh(rt, &[]);
    let mut blk = reload(rt, &mut store);
    assert!(rt; write_both(&mut blk, &mut store) == Ok(()));
    store
}

#[test]
fn first_session_is_stored(rt: HostRuntime) {
    let store = written(&rt);
    let console = b"\x46\x42\x47\x43\x03\0\0\0\x03\0\0\0abc";
    let dump = b"\x44\x42\x47\x43\x29\0\0\0\0\0\0\0\
\xe5\x3a\xfc\x4d\0\0\0\0\x05\0\0\0\0\0\0\0\
\x70\x17\0\0\0\0\0\0\0\0\0\0\x01\0\0\0\
\x01\0\0\0\0\0\0\0\x78";
    assert!(rt; holds_at(&store, 0, b"\x43\x42\x47\x43\0\0\0\0\0\0\0\0"));
    assert!(rt; holds_at(&store, 4096, console) && holds_at(&store, 8192, dump));
    assert!(rt; is_all(store.bytes().get(8245..12288), 0));
}

#[test]
fn first_session_is_listed(rt: HostRuntime) {
    let mut store = written(&rt);
    let blk = reload(&rt, &mut store);
    assert!(rt; names(&rt, &blk, &[DUMP, BlkName::Console]));
    assert!(rt; lists(&rt, &blk, BlkName::Console, "abc"));
    assert!(rt; lists(&rt, &blk, DUMP, "Panic: Total 1 times\nx"));
    assert!(rt; blk.content_len(BlkName::Console) == Some(3) && blk.content_len(DUMP) == Some(22));
    assert!(rt; blk.content_len(BlkName::Pmsg) == None);
}

// The store as it is loaded again once only so many bytes of the first session reached it.
fn loaded_after(rt: &(impl Abort + AllocGlobal), bytes: u64) -> Blk {
    let mut store = fresh(rt, &[]);
    let mut blk = reload(rt, &mut store);
    blk.cut_after(bytes);
    assert!(rt; write_both(&mut blk, &mut store) == Ok(()));
    reload(rt, &mut store)
}

// From how many to below how many bytes, whether the console is listed, and the dump's time and content, which a
// loading lists after a stop after so many bytes.
const STOPS: &[(u64, u64, bool, Option<(u64, u32)>, &str)] = &[
    (0, 8, false, None, ""),
    (8, 31, true, None, ""),
    (31, 36, true, Some((0, 0)), "Unknown: Total 0 times\n\0"),
    (36, 44, true, Some((5, 0)), "Unknown: Total 0 times\n\0"),
    (44, 45, true, Some((5, 112)), "Unknown: Total 0 times\n\0"),
    (45, 56, true, Some((5, 6000)), "Unknown: Total 0 times\n\0"),
    (56, 60, true, Some((5, 6000)), "Unknown: Total 1 times\n\0"),
    (60, 68, true, Some((5, 6000)), "Panic: Total 1 times\n\0"),
    (68, 201, true, Some((5, 6000)), "Panic: Total 1 times\nx"),
];

// Whether the console is listed or not, and a dump of this time and content, or none.
fn lists_both(
    rt: &impl Abort,
    blk: &Blk,
    console: bool,
    time: Option<(u64, u32)>,
    content: &str,
) -> bool {
    lists(rt, blk, BlkName::Console, "abc") == console
        && blk.time(0).map(|at| (at.secs, at.nanos)) == time
        && lists(rt, blk, DUMP, content) == time.is_some()
}

#[test]
fn stopped_after_each_byte(rt: HostRuntime) {
    for (from, to, console, time, content) in STOPS.iter().copied() {
        for k in from..to {
            let blk = loaded_after(&rt, k);
            assert!(rt; lists_both(&rt, &blk, console, time, content), "after {k}");
        }
    }
}

#[test]
fn cut_within_data(rt: HostRuntime) {
    let mut store = fresh(&rt, &[]);
    let mut blk = reload(&rt, &mut store);
    append(&rt, &mut blk, &mut store, BlkRing::Console, b"abc", Ok(()));
    blk.cut_after(5);
    append(
        &rt,
        &mut blk,
        &mut store,
        BlkRing::Console,
        b"defgh",
        Ok(()),
    );
    assert!(rt;
        holds_at(
            &store,
            4096,
            b"\x46\x42\x47\x43\x03\0\0\0\x03\0\0\0abcdefgh\0"
        )
    );
    assert_reloads(&rt, &mut store, BlkName::Console, "abc");
}

#[test]
fn cut_before_further_header(rt: HostRuntime) -> Result<(), Fail> {
    let full = filled(rt.alloc(), b'a', 4084)?;
    let mut store = fresh(&rt, &[]);
    let mut blk = reload(&rt, &mut store);
    append(&rt, &mut blk, &mut store, BlkRing::Console, &full, Ok(()));
    assert!(rt; holds_at(&store, 4096, b"\x46\x42\x47\x43\xf4\x0f\0\0\0\0\0\0a"));
    blk.cut_after(13);
    append(&rt, &mut blk, &mut store, BlkRing::Console, b"!", Ok(()));
    assert!(rt; holds_at(&store, 4096, b"\x46\x42\x47\x43\x01\0\0\0\x01\0\0\0!a"));
    assert_reloads(&rt, &mut store, BlkName::Console, "!");
    Ok(())
}

// Whether a full log has one byte behind all others.
fn is_round(log: &[u8]) -> bool {
    log.len() == 4084 && log.last().copied() == Some(b'!') && is_all(log.get(0..4083), b'a')
}

#[test]
fn full_ring_goes_round(rt: HostRuntime) -> Result<(), Fail> {
    let full = filled(rt.alloc(), b'a', 4084)?;
    let mut store = fresh(&rt, &[]);
    let mut blk = reload(&rt, &mut store);
    append(&rt, &mut blk, &mut store, BlkRing::Pmsg, &full, Ok(()));
    append(&rt, &mut blk, &mut store, BlkRing::Pmsg, b"!", Ok(()));
    assert!(rt; holds_at(&store, 0, b"\x43\x42\x47\x43\xf4\x0f\0\0\x01\0\0\0!"));
    let blk = reload(&rt, &mut store);
    let log = blk.content(BlkName::Pmsg)?;
    assert!(rt; is_round(log.as_slice()));
    Ok(())
}

#[test]
fn refusals(rt: HostRuntime) {
    let mut store = fresh(&rt, &[]);
    let layout = BlkLayout {
        total: 16384,
        kmsg: 0,
        console: 4096,
        pmsg: 0,
        dumps: 0,
    };
    let mut blk = match load(rt.alloc(), &mut store, layout) {
        Ok(blk) => blk,
        Err(_) => panic!(rt; "not loaded"),
    };
    append(
        &rt,
        &mut blk,
        &mut store,
        BlkRing::Pmsg,
        b"a",
        Err(BlkFault::NoZone),
    );
    assert!(rt; dump(&mut blk, &mut store, Reason::Oops, b"a").err() == Some(BlkFault::NoZone));
    erase(
        &rt,
        &mut blk,
        &mut store,
        BlkName::Console,
        Err(BlkFault::NoRecord),
    );
    assert!(rt; names(&rt, &blk, &[]));
}

#[test]
fn erasures_are_listed_no_more(rt: HostRuntime) {
    let mut store = written(&rt);
    let mut blk = reload(&rt, &mut store);
    erase(&rt, &mut blk, &mut store, DUMP, Ok(()));
    assert!(rt; names(&rt, &blk, &[BlkName::Console]));
    assert!(rt;
        holds_at(
            &store,
            8192,
            b"\x44\x42\x47\x43\0\0\0\0\0\0\0\0\xe5\x3a\xfc\x4d"
        )
    );
    erase(&rt, &mut blk, &mut store, BlkName::Console, Ok(()));
    assert!(rt; names(&rt, &blk, &[]));
    let blk = reload(&rt, &mut store);
    assert!(rt; names(&rt, &blk, &[]));
}

const TEXTS: &[(&str, Option<BlkName>)] = &[
    ("console-pstore_blk-0", Some(BlkName::Console)),
    ("pmsg-pstore_blk-0", Some(BlkName::Pmsg)),
    ("dmesg-pstore_blk-0", Some(DUMP)),
    (
        "dmesg-pstore_blk-12.enc.z",
        Some(BlkName::Dump {
            index: 12,
            packed: true,
        }),
    ),
    (
        "dmesg-pstore_blk-4294967295",
        Some(BlkName::Dump {
            index: 4294967295,
            packed: false,
        }),
    ),
    ("dmesg-pstore_blk-4294967296", None),
    ("dmesg-pstore_blk-00", None),
    ("dmesg-pstore_blk-+1", None),
    ("dmesg-pstore_blk-", None),
    ("dmesg-pstore_blk-.enc.z", None),
    ("dmesg-pstore_blk-1.enc.z.enc.z", None),
    ("dmesg-ramoops-0", None),
    ("console-pstore_blk-1", None),
    ("", None),
];

#[test]
fn names_have_one_text(rt: HostRuntime) {
    for (text, name) in TEXTS.iter().copied() {
        assert!(rt; blk_find(text) == name, "of {text}");
    }
}

// Runs the first session on a store that fails at this call, and answers whether it was done.
fn is_done(rt: &(impl Abort + AllocGlobal), call: u32) -> bool {
    let mut store = fresh(rt, &[call]);
    match load(rt.alloc(), &mut store, LAYOUT) {
        Ok(loaded) => {
            let mut blk = loaded;
            write_both(&mut blk, &mut store) == Ok(())
        }
        Err(fault) => {
            assert!(rt; fault == BlkFault::StoreFault);
            false
        }
    }
}

// A load reads four zones' headers and writes two, an append writes two pieces, a dump three and its zeros in one.
#[test]
fn a_failing_store_is_told(rt: HostRuntime) {
    for call in 1..13 {
        assert!(rt; !is_done(&rt, call), "of call {call}");
    }
    assert!(rt; is_done(&rt, 13));
}

// The header of the second append is torn: its new length stands beside the old start.
#[test]
fn append_that_fails_in_its_header(rt: HostRuntime) {
    let mut store = fresh(&rt, &[10]);
    let mut blk = reload(&rt, &mut store);
    append(&rt, &mut blk, &mut store, BlkRing::Console, b"abc", Ok(()));
    append(
        &rt,
        &mut blk,
        &mut store,
        BlkRing::Console,
        b"de",
        Err(BlkFault::StoreFault),
    );
    assert!(rt; holds_at(&store, 4096, b"\x46\x42\x47\x43\x05\0\0\0\x03\0\0\0abcde\0"));
    assert_reloads(&rt, &mut store, BlkName::Console, "deabc");
}

// Of 13 bytes the failed write of three has three, the next data two, and their header eight.
#[test]
fn cut_after_a_failed_write(rt: HostRuntime) {
    let mut store = fresh(&rt, &[7]);
    let mut blk = reload(&rt, &mut store);
    blk.cut_after(13);
    append(
        &rt,
        &mut blk,
        &mut store,
        BlkRing::Console,
        b"abc",
        Err(BlkFault::StoreFault),
    );
    assert!(rt; holds_at(&store, 4096, b"\x46\x42\x47\x43\0\0\0\0\0\0\0\0a\0\0"));
    append(&rt, &mut blk, &mut store, BlkRing::Console, b"de", Ok(()));
    assert!(rt; holds_at(&store, 4096, b"\x46\x42\x47\x43\x02\0\0\0\0\0\0\0de\0"));
    assert_reloads(&rt, &mut store, BlkName::Console, "de");
}

// The first header is written, the second torn; what was loaded before goes on. The second load reads two logs too.
#[test]
fn load_that_fails_in_its_second_write(rt: HostRuntime) {
    let mut store = fresh(&rt, &[18]);
    let mut blk = reload(&rt, &mut store);
    append(&rt, &mut blk, &mut store, BlkRing::Console, b"abc", Ok(()));
    append(&rt, &mut blk, &mut store, BlkRing::Pmsg, b"de", Ok(()));
    assert!(rt; load(rt.alloc(), &mut store, LAYOUT).err() == Some(BlkFault::StoreFault));
    assert!(rt; holds_at(&store, 0, b"\x43\x42\x47\x43\0\0\0\0\0\0\0\0de"));
    assert!(rt; holds_at(&store, 4096, b"\x46\x42\x47\x43\0\0\0\0\x03\0\0\0abc"));
    append(&rt, &mut blk, &mut store, BlkRing::Console, b"f", Ok(()));
    let blk = reload(&rt, &mut store);
    assert!(rt; lists(&rt, &blk, BlkName::Console, "abcf"));
    assert!(rt; blk.content_len(BlkName::Pmsg) == None);
}

// Whether the store has a pmsg append, a console append and a dump.
fn holds_written(store: &MemStore) -> bool {
    holds_at(store, 0, b"\x43\x42\x47\x43\x02\0\0\0\x02\0\0\0de")
        && holds_at(store, 4096, b"\x46\x42\x47\x43\x03\0\0\0\x03\0\0\0abc")
        && holds_at(store, 8192, b"\x44\x42\x47\x43\x29\0\0\0\0\0\0\0")
}

// A load whose growth is refused says so and leaves the store; one that finds memory lists what was written.
#[test]
fn a_refused_growth_leaves_the_store(rt: HostRuntime) {
    let mut store = fresh(&rt, &[]);
    let mut blk = reload(&rt, &mut store);
    assert!(rt; write_both(&mut blk, &mut store) == Ok(()));
    append(&rt, &mut blk, &mut store, BlkRing::Pmsg, b"de", Ok(()));
    match load(rt.alloc(), &mut store, LAYOUT) {
        Ok(blk) => {
            let erased = b"\x46\x42\x47\x43\0\0\0\0\0\0\0\0abc";
            assert!(rt; blk.time(0) == Some(TIME) && holds_at(&store, 4096, erased));
        }
        Err(fault) => assert!(rt; fault == BlkFault::Memory && holds_written(&store)),
    }
}
