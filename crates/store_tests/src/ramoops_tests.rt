// Worked sessions: what a boot reports of cut and damaged zones, which calls are refused, and what a stopped boot
// leaves.
ghost use Rattle.ramoops.specs.Asks.{CanBeAsked};

use arrayvec::ArrayVec;
use outside::Bytes;
use prz_read::Logs;
use ramoops::*;
use ramoops_layout::layout;
use std::alloc::{AllocError, Global};
use std::process::Abort;
use std::test::Fail;
use zone_spec::{ByteOrder, Kind, Order, Params, Time, ZoneName};

const CONSOLE: ZoneName = ZoneName {
    kind: Kind::Console,
    index: 0,
};

const PMSG: ZoneName = ZoneName {
    kind: Kind::Pmsg,
    index: 0,
};

const FTRACE: ZoneName = ZoneName {
    kind: Kind::Ftrace,
    index: 0,
};

fn dump_zone(index: u32) -> ZoneName {
    ZoneName {
        kind: Kind::Dump,
        index,
    }
}

fn params(mem: u64, dump: u64, console: u64, pmsg: u64, ecc: u64) -> Params {
    Params {
        mem,
        dump,
        console,
        ftrace: 0,
        pmsg,
        ecc,
        cpus: 1,
        ftrace_sig: 0,
        block: 128,
        ecc_dump: ecc,
        ecc_console: ecc,
        ecc_ftrace: ecc,
        ecc_pmsg: ecc,
        order: Order::FtracePmsg,
        byte_order: ByteOrder::Little,
    }
}

// One console zone of 4096 bytes, with this parity.
fn console(ecc: u64) -> Params {
    params(4096, 0, 4096, 0, ecc)
}

// Dump zones 0 and 1, console 2 and pmsg 3, each of 4096 bytes, with this parity.
fn four(ecc: u64) -> Params {
    params(16384, 4096, 4096, 4096, ecc)
}

// A store of zeros.
fn zeros(rt: &(impl Abort + AllocGlobal), params: &Params) -> Off {
    match layout(rt.alloc(), params) {
        Ok(layout) => {
            let mem = layout.mem() as usize;
            let image = Vec::from_elem(rt.alloc(), 0u8, mem).expect(rt, "no memory");
            Off::fresh(rt.alloc(), layout, Bytes::from_vec(image)).expect(rt, "no memory")
        }
        Err(_) => panic!(rt; "no layout"),
    }
}

fn boot(rt: &impl Abort, off: Off) -> (Live, Logs, Report) {
    match off.boot() {
        Ok(booted) => booted,
        Err(_) => panic!(rt; "no memory"),
    }
}

fn boot_part(rt: &impl Abort, off: Off, limit: u64) -> (Off, u64) {
    match off.boot_part(limit) {
        Ok(parted) => parted,
        Err(_) => panic!(rt; "no memory"),
    }
}

// A live store that was zeros.
fn live(rt: &(impl Abort + AllocGlobal), params: &Params) -> Live {
    let (live, _, _) = boot(rt, zeros(rt, params));
    live
}

fn append(rt: &(impl Abort + AllocGlobal), zone: ZoneName, bytes: &[u8]) -> Ask
    ensures { CanBeAsked result }
{
    Ask::Append(
        zone,
        Bytes::copy_of(rt.alloc(), bytes).expect(rt, "no memory"),
    )
}

fn begin_append(rt: &(impl Abort + AllocGlobal), live: &mut Live, zone: ZoneName, bytes: &[u8]) {
    assert!(rt; begun(live.begin(append(rt, zone, bytes)), zone));
}

// Begins an append of so many bytes of one value to the console.
fn begin_append_of(rt: &(impl Abort + AllocGlobal), live: &mut Live, byte: u8, count: usize) {
    let bytes = Vec::from_elem(rt.alloc(), byte, count).expect(rt, "no memory");
    begin_append(rt, live, CONSOLE, &bytes);
}

// Begins a dump that is not compressed, and gives the zone that it goes to.
fn begin_dump(
    rt: &(impl Abort + AllocGlobal),
    live: &mut Live,
    secs: u64,
    micros: u32,
    body: &[u8],
) -> ZoneName {
    assert!(rt; secs < 9_223_372_036_854_775_808);
    assert!(rt; micros < 1_000_000);
    let time = Time { secs, micros };
    let body = Bytes::copy_of(rt.alloc(), body).expect(rt, "no memory");
    match live.begin(Ask::Dump(time, false, body)) {
        Ok(zone) => zone,
        Err(_) => panic!(rt; "refused"),
    }
}

fn begun(answer: Result<ZoneName, Refused>, zone: ZoneName) -> bool {
    match answer {
        Ok(name) => name == zone,
        Err(_) => false,
    }
}

fn refused(answer: Result<ZoneName, Refused>, why: Refusal) -> Option<Ask> {
    match answer {
        Ok(_) => None,
        Err(refused) => {
            if refused.why == why {
                Some(refused.ask)
            } else {
                None
            }
        }
    }
}

// Makes the next `count` stores of a zone's flight, none of them the last.
fn steps(rt: &impl Abort, live: &mut Live, zone: ZoneName, count: u32) {
    for _ in 0..count {
        assert!(rt; matches!(live.step(zone), Ok(Step::Stored)));
        assert!(rt; live.flies(zone) == Ok(true));
    }
}

// Makes all stores of a zone's flight, and tells how many, or 0 where they do not end.
fn finish(live: &mut Live, zone: ZoneName) -> u64 {
    for made in 1u64..10000 {
        match live.step(zone) {
            Ok(Step::Stored) => (),
            Ok(Step::Done) => return made,
            Err(_) => return 0,
        }
    }
    0
}

// Makes a whole append.
fn write(rt: &(impl Abort + AllocGlobal), live: &mut Live, zone: ZoneName, bytes: &[u8]) -> u64 {
    begin_append(rt, live, zone, bytes);
    let made = finish(live, zone);
    assert!(rt; live.flies(zone) == Ok(false));
    made
}

fn flip_all(rt: &impl Abort, off: &mut Off, at: u32, masks: &[u8]) {
    let mut i = at;
    for mask in masks {
        assert!(rt; off.flip(i, *mask).is_ok());
        i = i.wrapping_add(1);
    }
}

// Whether the image has these bytes at a place.
fn has(off: &Off, at: usize, bytes: &[u8]) -> bool {
    match off.image().get(at..) {
        Some(rest) => rest.starts_with(bytes),
        None => false,
    }
}

// Whether the log of place i is this.
fn reads(logs: &Logs, i: u32, log: &[u8]) -> bool {
    if i >= logs.len() {
        return false;
    }
    match logs.reading(i) {
        Some(reading) => reading.log.as_slice() == log,
        None => false,
    }
}

// Whether the first bytes of the log of place i are these, and the others all one byte.
fn reads_front(logs: &Logs, i: u32, len: usize, front: &[u8], byte: u8) -> bool {
    if i >= logs.len() {
        return false;
    }
    match logs.reading(i) {
        Some(reading) => {
            let log = reading.log.as_slice();
            log.len() == len
                && log.starts_with(front)
                && log.iter().skip(front.len()).all(|b| *b == byte)
        }
        None => false,
    }
}

// Whether the report of place i has this verdict and no cut.
fn tells(report: &Report, i: usize, verdict: Verdict) -> bool {
    match report.as_slice().get(i) {
        Some(told) => told.verdict == verdict && told.cut.is_none(),
        None => false,
    }
}

// Whether the report of place i has this verdict and this cut.
fn tells_cut(report: &Report, i: usize, verdict: Verdict, cut: &Cut) -> bool {
    match report.as_slice().get(i) {
        Some(told) => match &told.cut {
            Some(seen) => told.verdict == verdict && is_same(seen, cut),
            None => false,
        },
        None => false,
    }
}

fn is_same(a: &Cut, b: &Cut) -> bool {
    a.kind == b.kind
        && a.made == b.made
        && a.total == b.total
        && a.header == b.header
        && a.runs.as_slice() == b.runs.as_slice()
}

// Boots a store, looks at what is told and read of a place, and gives the live store.
fn boots_as(rt: &impl Abort, off: Off, place: u32, verdict: Verdict, log: &[u8]) -> Live {
    let (live, logs, report) = boot(rt, off);
    assert!(rt; tells(&report, place as usize, verdict) && reads(&logs, place, log));
    live
}

// The same where a call was cut there.
fn boots_cut(rt: &impl Abort, off: Off, place: u32, verdict: Verdict, cut: &Cut, log: &[u8]) {
    let (_, logs, report) = boot(rt, off);
    assert!(rt; tells_cut(&report, place as usize, verdict, cut) && reads(&logs, place, log));
}

// Boots a store, and looks at the verdict of a place, and at its log: these bytes first, and all others one byte.
fn boots_front(
    rt: &impl Abort,
    off: Off,
    place: u32,
    verdict: Verdict,
    len: usize,
    front: &[u8],
    byte: u8,
) {
    let (_, logs, report) = boot(rt, off);
    assert!(rt; tells(&report, place as usize, verdict));
    assert!(rt; reads_front(&logs, place, len, front, byte));
}

fn differs(told: u32, seen: u32, first: u32) -> Verdict {
    Verdict::Differs { told, seen, first }
}

fn cut(kind: CallKind, made: u64, total: u64, header: HeaderSeen, runs: &[(u32, u32)]) -> Cut {
    let mut all = ArrayVec::new();
    let _room = all.try_extend_from_slice(runs);
    Cut {
        kind,
        made,
        total,
        header,
        runs: all,
    }
}

// The live store of a first boot of one console, which tells nothing.
fn first_live(rt: &(impl Abort + AllocGlobal)) -> Live {
    let (live, logs, report) = boot(rt, zeros(rt, &console(0)));
    assert!(rt; (logs.len(), report.as_slice().len()) == (1, 1));
    assert!(rt; tells(&report, 0, Verdict::NothingTold));
    live
}

// Whether the console's told list is `abc`, in a ring of 4084 bytes.
fn has_told_abc(live: &Live) -> bool {
    match live.told(CONSOLE) {
        Ok(told) => {
            (told.len(), told.ring().capacity()) == (3, 4084) && told.ring().get(2) == Some(&0x63)
        }
        Err(_) => false,
    }
}

#[test]
fn an_append_reads_after_a_stop(rt: HostRuntime) {
    let mut live = first_live(&rt);
    assert!(rt; write(&rt, &mut live, CONSOLE, b"abc") == 5);
    assert!(rt; has_told_abc(&live));
    let off = live.stop();
    assert!(rt; has(&off, 0, b"DBGC\x03\0\0\0\x03\0\0\0abc"));
    let live = boots_as(&rt, off, 0, Verdict::AsTold, b"abc");
    let image = live.stop().into_image();
    assert!(rt; image.as_slice().starts_with(b"DBGC\0\0\0\0\0\0\0\0a"));
}

#[derive(Clone, Copy)]
enum Zones {
    Console(u64),
    Four(u64),
}

// The zones with their parity, the place of the console, how many stores are made, what the next boot tells if the log
// differs, of the call and of the header, and the log that it reads.
const CUT_APPENDS: &[(
    Zones,
    u32,
    u32,
    Option<(u32, u32, u32)>,
    (u64, HeaderSeen),
    &[u8],
)] = &[
    (
        Zones::Console(0),
        0,
        1,
        Some((3, 6, 0)),
        (5, HeaderSeen::Pair(1)),
        b"\0\0\0abc",
    ),
    (
        Zones::Four(16),
        2,
        1,
        None,
        (37, HeaderSeen::Pair(0)),
        b"abc",
    ),
    (
        Zones::Four(16),
        2,
        21,
        None,
        (37, HeaderSeen::Pair(0)),
        b"abc",
    ),
    (
        Zones::Console(2),
        0,
        2,
        Some((3, 6, 3)),
        (9, HeaderSeen::Pair(2)),
        b"abc\0\0\0",
    ),
];

// A store that stops after so many stores of its console's second append.
fn cut_append(rt: &(impl Abort + AllocGlobal), zones: Zones, made: u32) -> Off {
    let params = match zones {
        Zones::Console(ecc) => console(ecc),
        Zones::Four(ecc) => four(ecc),
    };
    let mut live = live(rt, &params);
    let _made = write(rt, &mut live, CONSOLE, b"abc");
    begin_append(rt, &mut live, CONSOLE, b"def");
    steps(rt, &mut live, CONSOLE, made);
    live.stop()
}

#[test]
fn a_cut_append_is_reported(rt: HostRuntime) {
    for (zones, place, made, told, (total, header), log) in CUT_APPENDS.iter().copied() {
        let wanted = cut(CallKind::Append, made as u64, total, header, &[(0, 0)]);
        let verdict = match told {
            Some((told, seen, first)) => differs(told, seen, first),
            None => Verdict::AsTold,
        };
        boots_cut(
            &rt,
            cut_append(&rt, zones, made),
            place,
            verdict,
            &wanted,
            log,
        );
    }
}

#[test]
fn a_full_ring_keeps_the_last_bytes(rt: HostRuntime) -> Result<(), Fail> {
    let mut wanted = Vec::from_elem(rt.alloc(), 0x61u8, 4083)?;
    wanted.push(0x62)?;
    let mut live = live(&rt, &console(0));
    begin_append_of(&rt, &mut live, 0x61, 4084);
    assert!(rt; finish(&mut live, CONSOLE) == 4086);
    assert!(rt; write(&rt, &mut live, CONSOLE, b"b") == 2);
    let off = live.stop();
    assert!(rt; has(&off, 4, b"\x01\0\0\0\xf4\x0f\0\0ba"));
    let _live = boots_as(&rt, off, 0, Verdict::AsTold, &wanted);
    Ok(())
}

// The letters from `a` to `z`, over and over, 4084 in all.
fn letters(alloc: Global) -> Result<Vec<u8>, AllocError> {
    let mut bytes = Vec::with_capacity(alloc, 4084)?;
    for i in 0u32..4084 {
        bytes.push(0x61 + (i % 26) as u8)?;
    }
    Ok(bytes)
}

// A store that wrote these bytes and `!` to its console, and stops within that zone's erasure.
fn cut_erasure(rt: &(impl Abort + AllocGlobal), bytes: &[u8]) -> Off {
    let mut live = live(rt, &console(0));
    let _made = write(rt, &mut live, CONSOLE, bytes);
    let _made = write(rt, &mut live, CONSOLE, b"!");
    assert!(rt; begun(live.begin(Ask::Erase(CONSOLE)), CONSOLE));
    steps(rt, &mut live, CONSOLE, 1);
    live.stop()
}

#[test]
fn a_cut_erasure_is_reported(rt: HostRuntime) -> Result<(), Fail> {
    let mut bytes = letters(rt.alloc())?;
    let off = cut_erasure(&rt, &bytes);
    if let Some(first) = bytes.get_mut(0) {
        *first = 0x21;
    }
    let wanted = cut(CallKind::Erase, 1, 2, HeaderSeen::Pair(1), &[]);
    boots_cut(&rt, off, 0, differs(4084, 4084, 0), &wanted, &bytes);
    Ok(())
}

#[test]
fn a_cut_header_can_be_foreign(rt: HostRuntime) {
    let mut live = live(&rt, &console(2));
    begin_append_of(&rt, &mut live, 0x61, 4018);
    let _made = finish(&mut live, CONSOLE);
    begin_append_of(&rt, &mut live, 0x62, 1541);
    steps(&rt, &mut live, CONSOLE, 1);
    let wanted = cut(CallKind::Append, 1, 1570, HeaderSeen::Foreign, &[(0, 12)]);
    boots_cut(&rt, live.stop(), 0, differs(4018, 0, 0), &wanted, &[]);
}

// A store that stops within an append to the console and a dump, after one to pmsg.
fn cut_in_two(rt: &(impl Abort + AllocGlobal)) -> Off {
    let mut live = live(rt, &four(0));
    let _made = write(rt, &mut live, PMSG, b"p");
    begin_append(rt, &mut live, CONSOLE, b"abc");
    assert!(rt; begin_dump(rt, &mut live, 5, 6, b"x") == dump_zone(0));
    steps(rt, &mut live, CONSOLE, 3);
    steps(rt, &mut live, dump_zone(0), 4);
    live.stop()
}

// Whether both cuts are told, and the other zones are as told.
fn tells_both_cuts(report: &Report) -> bool {
    let dump = cut(CallKind::Dump, 4, 22, HeaderSeen::Pair(4), &[(0, 0)]);
    let append = cut(CallKind::Append, 3, 5, HeaderSeen::Pair(2), &[(0, 0)]);
    tells_cut(report, 0, differs(0, 15, 0), &dump)
        && tells(report, 1, Verdict::AsTold)
        && tells_cut(report, 2, differs(0, 3, 0), &append)
        && tells(report, 3, Verdict::AsTold)
}

#[test]
fn calls_in_two_zones_are_cut_together(rt: HostRuntime) {
    let (live, logs, report) = boot(&rt, cut_in_two(&rt));
    assert!(rt; tells_both_cuts(&report));
    assert!(rt; reads(&logs, 2, b"a\0\0") && reads(&logs, 3, b"p") && reads(&logs, 0, &[0; 15]));
    // A dump without its line is erased, and pmsg too.
    let off = live.stop();
    assert!(rt; has(&off, 0, b"DBGC\0\0\0\0\0\0\0\0"));
    assert!(rt; has(&off, 12288, b"DBGC\0\0\0\0\0\0\0\0p"));
}

// What an append of three bytes to an empty ring without parity tells at a boot after so many of its five stores.
fn tells_append(report: &Report, i: usize, made: u64) -> bool {
    let header = match made {
        0 => HeaderSeen::Pair(0),
        1 => HeaderSeen::Pair(1),
        _ => HeaderSeen::Pair(2),
    };
    let told = cut(CallKind::Append, made, 5, header, &[(0, 0)]);
    match made {
        0 => tells_cut(report, i, Verdict::AsTold, &told),
        1..=4 => tells_cut(report, i, differs(0, 3, 0), &told),
        _ => tells(report, i, Verdict::AsTold),
    }
}

// Makes the first `stop` stores of an order of two appends, and tells how many each made.
fn interleave(
    rt: &(impl Abort + AllocGlobal),
    live: &mut Live,
    order: [ZoneName; 10],
    stop: usize,
) -> (u64, u64) {
    begin_append(rt, live, CONSOLE, b"abc");
    begin_append(rt, live, PMSG, b"xyz");
    for zone in order.iter().take(stop) {
        assert!(rt; live.step(*zone).is_ok());
    }
    let console = order
        .iter()
        .take(stop)
        .filter(|zone| **zone == CONSOLE)
        .count();
    (console as u64, (stop as u64).saturating_sub(console as u64))
}

const ORDERS: &[[ZoneName; 10]] = &[
    [
        CONSOLE, CONSOLE, CONSOLE, CONSOLE, CONSOLE, PMSG, PMSG, PMSG, PMSG, PMSG,
    ],
    [
        PMSG, PMSG, PMSG, PMSG, PMSG, CONSOLE, CONSOLE, CONSOLE, CONSOLE, CONSOLE,
    ],
    [
        CONSOLE, PMSG, CONSOLE, PMSG, CONSOLE, PMSG, CONSOLE, PMSG, CONSOLE, PMSG,
    ],
];

fn assert_interleaved(rt: &(impl Abort + AllocGlobal), order: [ZoneName; 10], stop: usize) {
    let mut live = live(rt, &params(8192, 0, 4096, 4096, 0));
    let (console, pmsg) = interleave(rt, &mut live, order, stop);
    let (_, logs, report) = boot(rt, live.stop());
    assert!(rt; tells_append(&report, 0, console) && tells_append(&report, 1, pmsg));
    assert!(rt; console < 5 || reads(&logs, 0, b"abc"));
    assert!(rt; pmsg < 5 || reads(&logs, 1, b"xyz"));
}

#[test]
fn interleaved_appends_stop_after_each_store(rt: HostRuntime) {
    for order in ORDERS.iter().copied() {
        for stop in 0..11 {
            assert_interleaved(&rt, order, stop);
        }
    }
}

#[test]
fn damage_within_half_the_parity_reads_as_told(rt: HostRuntime) {
    for (at, masks) in [(8204, [1; 8]), (8192, [255; 8])] {
        let mut live = live(&rt, &four(16));
        let _made = write(&rt, &mut live, CONSOLE, b"abc");
        let mut off = live.stop();
        flip_all(&rt, &mut off, at, &masks);
        let _live = boots_as(&rt, off, 2, Verdict::AsTold, b"abc");
    }
}

#[test]
fn damage_beyond_it_is_told(rt: HostRuntime) {
    let mut live = live(&rt, &four(16));
    begin_append_of(&rt, &mut live, 0x61, 200);
    let _made = finish(&mut live, CONSOLE);
    let mut off = live.stop();
    let masks = [1, 255, 11, 81, 54, 239, 173, 200, 24];
    flip_all(&rt, &mut off, 8204, &masks);
    let front = [0x60, 0x9e, 0x6a, 0x30, 0x57, 0x8e, 0xcc, 0xa9, 0x79];
    boots_front(&rt, off, 2, differs(200, 200, 0), 200, &front, 0x61);
}

const DUMPS: &[(u64, u32, &[u8], u32)] = &[
    (1_700_000_000, 123, b"one", 0),
    (1_700_000_001, 0, b"two", 1),
    (1_700_000_002, 0, b"six", 0),
];

// Whether a dump of no bytes is refused for this cause, and handed back.
fn refuses_dump(live: &mut Live, alloc: Global, why: Refusal) -> bool {
    let time = Time { secs: 0, micros: 0 };
    let asked = Ask::Dump(time, false, Bytes::empty(alloc));
    matches!(refused(live.begin(asked), why), Some(Ask::Dump(_, _, _)))
}

// Makes the three dumps, and stops.
fn dumped(rt: &(impl Abort + AllocGlobal)) -> Off {
    let mut live = live(rt, &four(0));
    for (secs, micros, body, zone) in DUMPS.iter().copied() {
        assert!(rt; begin_dump(rt, &mut live, secs, micros, body) == dump_zone(zone));
        // The cursor stays until the last store.
        assert!(rt; refuses_dump(&mut live, rt.alloc(), Refusal::Busy));
        assert!(rt; finish(&mut live, dump_zone(zone)) > 27);
    }
    live.stop()
}

#[test]
fn dumps_take_the_dump_zones_in_turn(rt: HostRuntime) {
    let off = dumped(&rt);
    assert!(rt; has(&off, 0, b"DBGC\x1b\0\0\0\x1b\0\0\0"));
    assert!(rt; has(&off, 12, b"====1700000002.000000-D\nsix"));
    assert!(rt; has(&off, 4096, b"DBGC\x1b\0\0\0\x1b\0\0\0"));
    assert!(rt; has(&off, 4108, b"====1700000001.000000-D\ntwo"));
    let (_, logs, report) = boot(&rt, off);
    assert!(rt;
        tells(&report, 0, Verdict::AsTold) && reads(&logs, 1, b"====1700000001.000000-D\ntwo")
    );
}

#[test]
fn a_long_dump_keeps_its_front(rt: HostRuntime) -> Result<(), Fail> {
    let mut body = Vec::from_elem(rt.alloc(), 0x78u8, 5000)?;
    if let Some(first) = body.get_mut(0) {
        *first = 0x79;
    }
    let mut live = live(&rt, &four(0));
    let zone = begin_dump(&rt, &mut live, 1_700_000_000, 123, &body);
    assert!(rt; zone == dump_zone(0));
    let _made = finish(&mut live, zone);
    let front = b"====1700000000.000123-D\ny";
    boots_front(&rt, live.stop(), 0, Verdict::AsTold, 4084, front, 0x78);
    Ok(())
}

// Whether an append to this zone is refused as to none, and handed back.
fn refuses_append(rt: &(impl Abort + AllocGlobal), live: &mut Live, zone: ZoneName) -> bool {
    match refused(live.begin(append(rt, zone, b"abc")), Refusal::NoZone) {
        Some(Ask::Append(name, payload)) => {
            name == zone && payload.as_slice() == b"abc".as_slice()
        }
        _ => false,
    }
}

// Whether an erasure of this zone is refused for this cause, and handed back.
fn refuses_erase(live: &mut Live, zone: ZoneName, why: Refusal) -> bool {
    matches!(
        refused(live.begin(Ask::Erase(zone)), why),
        Some(Ask::Erase(_))
    )
}

// Whether a step of this zone is refused for this cause.
fn refuses_step(live: &mut Live, zone: ZoneName, why: Refusal) -> bool {
    match live.step(zone) {
        Ok(_) => false,
        Err(refused) => refused == why,
    }
}

#[test]
fn refusals_hand_back_what_was_asked(rt: HostRuntime) {
    let mut live = live(&rt, &four(0));
    for zone in [FTRACE, dump_zone(2), dump_zone(0)] {
        assert!(rt; refuses_append(&rt, &mut live, zone));
    }
    begin_append(&rt, &mut live, CONSOLE, b"abc");
    assert!(rt; refuses_erase(&mut live, CONSOLE, Refusal::Busy));
    assert!(rt; refuses_erase(&mut live, FTRACE, Refusal::NoZone));
    assert!(rt; refuses_step(&mut live, PMSG, Refusal::Idle));
    assert!(rt; refuses_step(&mut live, FTRACE, Refusal::NoZone));
    assert!(rt; matches!(live.told(FTRACE), Err(Refusal::NoZone)));
    assert!(rt; live.flies(FTRACE) == Err(Refusal::NoZone));
    assert!(rt; finish(&mut live, CONSOLE) == 5);
    assert!(rt; refuses_step(&mut live, CONSOLE, Refusal::Idle));
}

// Whether a dump of `x`, compressed, is refused as busy, and handed back.
fn hands_back_dump(live: &mut Live, body: Bytes) -> bool {
    let time = Time { secs: 5, micros: 6 };
    match refused(live.begin(Ask::Dump(time, true, body)), Refusal::Busy) {
        Some(Ask::Dump(asked, packed, body)) => {
            asked == time && packed && body.as_slice() == b"x".as_slice()
        }
        _ => false,
    }
}

#[test]
fn a_dump_waits_for_each_dump_zone(rt: HostRuntime) -> Result<(), Fail> {
    let body = Bytes::copy_of(rt.alloc(), b"x")?;
    let mut live = live(&rt, &four(0));
    assert!(rt; begun(live.begin(Ask::Erase(dump_zone(1))), dump_zone(1)));
    assert!(rt; hands_back_dump(&mut live, body));
    assert!(rt; finish(&mut live, dump_zone(1)) == 2);
    assert!(rt; begin_dump(&rt, &mut live, 5, 6, b"x") == dump_zone(0));
    Ok(())
}

#[test]
fn a_dump_needs_a_dump_zone(rt: HostRuntime) {
    let mut live = live(&rt, &console(0));
    assert!(rt; refuses_dump(&mut live, rt.alloc(), Refusal::NoZone));
}

#[test]
fn an_append_of_no_bytes_does_not_fly(rt: HostRuntime) {
    let mut live = live(&rt, &console(0));
    begin_append(&rt, &mut live, CONSOLE, b"");
    assert!(rt; live.flies(CONSOLE) == Ok(false));
    let (_, _, report) = boot(&rt, live.stop());
    assert!(rt; tells(&report, 0, Verdict::AsTold));
}

#[test]
fn a_flip_lies_within_the_image(rt: HostRuntime) {
    let mut off = zeros(&rt, &console(0));
    assert!(rt; off.flip(4095, 0x81) == Ok(()));
    assert!(rt; has(&off, 4094, &[0, 0x81]));
    assert!(rt; off.flip(4096, 1) == Err(Refusal::OutOfImage));
    assert!(rt; off.flip(4095, 0x81) == Ok(()));
    assert!(rt; off.image().iter().all(|b| *b == 0));
}

// How many stores are asked for, how many are made, and what the next boot tells and reads.
const STOPPED_BOOTS: &[(u64, u64, Option<HeaderSeen>, &[u8])] = &[
    (0, 0, None, b"abc"),
    (1, 1, Some(HeaderSeen::Pair(1)), b"abc"),
    (2, 2, None, b""),
    (9, 2, None, b""),
];

// Whether the first zone is as told, and its erasure was cut if the boot saw such a header.
fn tells_erasure(report: &Report, header: Option<HeaderSeen>) -> bool {
    match header {
        Some(header) => {
            let erasure = cut(CallKind::Erase, 1, 2, header, &[]);
            tells_cut(report, 0, Verdict::AsTold, &erasure)
        }
        None => tells(report, 0, Verdict::AsTold),
    }
}

#[test]
fn a_boot_stops_within_its_erasure(rt: HostRuntime) {
    for (limit, stores, header, log) in STOPPED_BOOTS.iter().copied() {
        let mut live = live(&rt, &console(0));
        let _made = write(&rt, &mut live, CONSOLE, b"abc");
        let (off, made) = boot_part(&rt, live.stop(), limit);
        assert!(rt; made == stores);
        let (_, logs, report) = boot(&rt, off);
        assert!(rt; tells_erasure(&report, header) && (log.is_empty() || reads(&logs, 0, log)));
    }
}

const ENTRY: &[u8] = &[
    1, 0, 0, 0, 0, 0, 0, 0, 2, 0, 0, 0, 0, 0, 0, 0, 0, 5, 0, 0, 0, 0, 0, 0,
];

// Two ftrace zones of 2048 bytes.
fn two_processors() -> Params {
    Params {
        console: 0,
        ftrace: 4096,
        cpus: 2,
        ..console(0)
    }
}

// The same as it stops with two entries in the first ring and one in the second.
fn traced(rt: &(impl Abort + AllocGlobal)) -> Off {
    let mut live = live(rt, &two_processors());
    let _made = write(rt, &mut live, FTRACE, ENTRY);
    let _made = write(rt, &mut live, FTRACE, ENTRY);
    let second = ZoneName {
        kind: Kind::Ftrace,
        index: 1,
    };
    let _made = write(rt, &mut live, second, ENTRY);
    live.stop()
}

// What the second ftrace ring tells at a boot, where a boot before made so many stores in it: its start was damaged, so
// that boot erases it with two stores.
fn tells_erased_ring(report: &Report, made: u64) -> bool {
    match made {
        0 => tells(report, 1, differs(24, 0, 0)),
        1 => {
            let erasure = cut(CallKind::Erase, 1, 2, HeaderSeen::Pair(1), &[]);
            tells_cut(report, 1, Verdict::AsTold, &erasure)
        }
        _ => tells(report, 1, Verdict::AsTold),
    }
}

// What a zone tells at a boot, where a first boot before made so many of its three stores there.
fn tells_first(report: &Report, i: usize, made: u64) -> bool {
    match made {
        0 => tells(report, i, Verdict::NothingTold),
        1 | 2 => {
            let erasure = cut(CallKind::Erase, made, 3, HeaderSeen::Pair(0), &[]);
            tells_cut(report, i, Verdict::NothingTold, &erasure)
        }
        _ => tells(report, i, Verdict::AsTold),
    }
}

// Rings that are kept have no stores in a boot, so it stops as a whole one.
#[test]
fn a_boot_keeps_the_rings_of_two_processors(rt: HostRuntime) -> Result<(), Fail> {
    let two = ENTRY.repeat(rt.alloc(), 2)?;
    for limit in [0, 1, 9] {
        let (off, made) = boot_part(&rt, traced(&rt), limit);
        assert!(rt; made == 0);
        let (_, logs, report) = boot(&rt, off);
        assert!(rt; tells(&report, 0, Verdict::AsTold) && tells(&report, 1, Verdict::AsTold));
        assert!(rt; reads(&logs, 0, &two) && reads(&logs, 1, ENTRY));
    }
    Ok(())
}

#[test]
fn a_first_boot_of_two_processors_stops_after_each_store(rt: HostRuntime) {
    for limit in 0u64..8 {
        let (off, made) = boot_part(&rt, zeros(&rt, &two_processors()), limit);
        assert!(rt; made == limit.min(6));
        let (_, logs, report) = boot(&rt, off);
        assert!(rt;
            tells_first(&report, 0, made) && tells_first(&report, 1, made.saturating_sub(3))
        );
        assert!(rt; reads(&logs, 0, &[]) && reads(&logs, 1, &[]));
    }
}

#[test]
fn a_boot_of_two_processors_stops_after_each_store(rt: HostRuntime) -> Result<(), Fail> {
    let two = ENTRY.repeat(rt.alloc(), 2)?;
    for limit in 0u64..4 {
        let mut off = traced(&rt);
        flip_all(&rt, &mut off, 2052, &[1]);
        let (off, made) = boot_part(&rt, off, limit);
        assert!(rt; made == limit.min(2));
        let (_, logs, report) = boot(&rt, off);
        assert!(rt; tells(&report, 0, Verdict::AsTold) && tells_erased_ring(&report, made));
        let second = if made == 1 { ENTRY } else { &[] };
        assert!(rt; reads(&logs, 0, &two) && reads(&logs, 1, second));
    }
    Ok(())
}

// A live store of four zones with a record in each, the third cut.
fn recorded(rt: &(impl Abort + AllocGlobal)) -> Live {
    let mut live = live(rt, &four(16));
    for zone in [dump_zone(0), dump_zone(1)] {
        assert!(rt; begin_dump(rt, &mut live, 5, 6, b"x") == zone);
        assert!(rt; finish(&mut live, zone) > 16);
    }
    let _made = write(rt, &mut live, PMSG, b"xyz");
    let _made = write(rt, &mut live, CONSOLE, b"abc");
    begin_append(rt, &mut live, CONSOLE, b"def");
    steps(rt, &mut live, CONSOLE, 21);
    live
}

fn is_recorded(logs: &Logs, report: &Report) -> bool {
    let append = cut(CallKind::Append, 21, 37, HeaderSeen::Pair(0), &[(0, 0)]);
    reads(logs, 0, b"====5.000006-D\nx")
        && reads(logs, 1, b"====5.000006-D\nx")
        && reads(logs, 2, b"abc")
        && reads(logs, 3, b"xyz")
        && tells(report, 0, Verdict::AsTold)
        && tells(report, 1, Verdict::AsTold)
        && tells_cut(report, 2, Verdict::AsTold, &append)
        && tells(report, 3, Verdict::AsTold)
}

// A boot whose memory is refused can be asked for again, with the same answer. Run with each allocation refused in
// turn.
#[test]
fn a_refused_boot_can_be_asked_for_again(rt: HostRuntime) -> Result<(), Fail> {
    let off = recorded(&rt).stop();
    let (_, logs, report) = match off.boot() {
        Ok(booted) => booted,
        Err((off, _refused)) => {
            println!(rt; "boot refused")?;
            boot(&rt, off)
        }
    };
    assert!(rt; is_recorded(&logs, &report));
    Ok(())
}

// The same for a boot that is stopped before its first store.
#[test]
fn a_refused_stopped_boot_leaves_all(rt: HostRuntime) -> Result<(), Fail> {
    let off = recorded(&rt).stop();
    let off = match off.boot_part(0) {
        Ok((off, made)) => {
            assert!(rt; made == 0);
            off
        }
        Err((off, _refused)) => {
            println!(rt; "boot refused")?;
            off
        }
    };
    let (_, logs, report) = boot(&rt, off);
    assert!(rt; is_recorded(&logs, &report));
    Ok(())
}

// The same for the first boot of a store, which is made without memory.
#[test]
fn a_refused_first_boot_can_be_asked_for_again(rt: HostRuntime) -> Result<(), Fail> {
    let off = zeros(&rt, &four(16));
    let (_, logs, report) = match off.boot() {
        Ok(booted) => booted,
        Err((off, _refused)) => {
            println!(rt; "boot refused")?;
            boot(&rt, off)
        }
    };
    for i in 0u8..4 {
        let place = usize::from(i);
        assert!(rt; tells(&report, place, Verdict::NothingTold) && reads(&logs, u32::from(i), &[]));
    }
    Ok(())
}
