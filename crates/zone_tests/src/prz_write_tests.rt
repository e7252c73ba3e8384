ghost use Rattle.std.specs.Prelude.{◌≡◌, ◌<◌, ◌≤◌, length};
ghost use Rattle.zone_spec.specs.Zones.{IsValidZone};
ghost use Rattle.prz_region.specs.CutRegion.{span};

use arrayvec::ArrayString;
use outside::Bytes;
use prz_region::{Region, RingWords, Spans};
use prz_write::{Call, CallKind, Flight, Line36, Step};
use ramoops_layout::layout;
use std::process::Abort;
use zone_spec::{ByteOrder, Kind, Order, Params, Words, Zone, ZoneName};

const SIG: u32 = 0x4347_4244;

// A zone of 4096 bytes with blocks of 128 bytes.
fn zone(rt: &impl Abort, parity: u32) -> Zone
    requires { parity ≤ 127 }
    ensures valid { IsValidZone result }
    ensures size { result.size ≡ 4096 }
{
    let blocks = (4084 - parity + (128 + parity) - 1) / (128 + parity);
    let parities = (blocks + 1) * parity;
    assert!(rt; parities <= 4020);
    Zone {
        name: ZoneName {
            kind: Kind::Console,
            index: 0,
        },
        at: 0,
        size: 4096,
        cap: 4084 - parities,
        blocks,
        parity,
        sig: SIG,
        block: 128,
        byte_order: ByteOrder::Little,
    }
}

// Two spans of 4096 bytes, each with the signature and else zeros.
fn signed_spans(rt: &(impl Abort + AllocGlobal)) -> Spans {
    let params = Params {
        mem: 8192,
        dump: 0,
        console: 4096,
        ftrace: 0,
        pmsg: 4096,
        ecc: 0,
        cpus: 1,
        ftrace_sig: 0,
        block: 128,
        ecc_dump: 0,
        ecc_console: 0,
        ecc_ftrace: 0,
        ecc_pmsg: 0,
        order: Order::FtracePmsg,
        byte_order: ByteOrder::Little,
    };
    let layout = match layout(rt.alloc(), &params) {
        Ok(layout) => layout,
        Err(_) => panic!(rt; "no layout"),
    };
    let bytes = Vec::from_elem(rt.alloc(), 0u8, layout.mem() as usize).expect(rt, "no memory");
    match Region::from_bytes(Bytes::from_vec(bytes)).cut(&layout) {
        Ok(mut spans) => {
            put_word(rt, &mut spans, 0, 0, SIG);
            put_word(rt, &mut spans, 1, 0, SIG);
            spans
        }
        Err(_) => panic!(rt; "no spans"),
    }
}

fn has_span(rt: &impl Abort, spans: &Spans, i: u32)
    ensures has { i < length spans.now.spans }
    ensures len { length (span spans.now i) ≡ 4096 }
{
    assert!(rt; (i as usize) < spans.all().len());
    assert!(rt; spans.all()[i as usize].len() == 4096);
}

fn put_word(rt: &impl Abort, spans: &mut Spans, i: u32, at: u32, word: u32)
    requires { at ≤ 8 }
{
    has_span(rt, spans, i);
    spans.store_word(i, at, ByteOrder::Little, word);
}

fn words(rt: &impl Abort, spans: &Spans, i: u32) -> (u32, u32, u32) {
    has_span(rt, spans, i);
    let words = Words::read(ByteOrder::Little, &spans.all()[i as usize]);
    (words.sig, words.start, words.size)
}

// Whether these bytes stand from `at` on.
fn stands(spans: &Spans, i: u32, at: usize, bytes: &[u8]) -> bool {
    match spans.all().get(i as usize) {
        Some(span) => match span.bytes().get(at..) {
            Some(rest) => rest.starts_with(bytes),
            None => false,
        },
        None => false,
    }
}

fn begin(rt: &impl Abort, zone: Zone, spans: &Spans, i: u32, call: Call) -> Flight
    requires valid { IsValidZone zone }
    requires size { zone.size ≡ 4096 }
    ensures { result.zone.size ≡ 4096 }
{
    has_span(rt, spans, i);
    let span = &spans.all()[i as usize];
    let words = Words::read(zone.byte_order, span);
    assert!(rt; words.is_ring(zone.cap));
    assert!(rt; words.start < zone.cap);
    assert!(rt; words.size == zone.cap || words.start == words.size);
    Flight::begin(zone, span, call)
}

// Makes the next store, and tells whether it was the last.
fn step(rt: &impl Abort, flight: &mut Flight, spans: &mut Spans, i: u32) -> bool
    requires { flight.old.zone.size ≡ 4096 }
    ensures { flight.new.zone.size ≡ 4096 }
{
    has_span(rt, spans, i);
    assert!(rt; flight.left() > 0);
    match flight.step(spans, i) {
        Step::Done => true,
        Step::Stored => false,
    }
}

// Makes the next `count` stores, of which only the call's last one is done.
fn steps(rt: &impl Abort, flight: &mut Flight, spans: &mut Spans, i: u32, count: u64)
    requires { flight.old.zone.size ≡ 4096 }
    ensures { flight.new.zone.size ≡ 4096 }
{
    for _ in 0..count {
        let last = flight.left() == 1;
        assert!(rt; step(rt, flight, spans, i) == last);
    }
}

// Makes a whole call.
fn make(rt: &impl Abort, zone: Zone, spans: &mut Spans, i: u32, call: Call)
    requires valid { IsValidZone zone }
    requires size { zone.size ≡ 4096 }
{
    let mut flight = begin(rt, zone, spans, i, call);
    let total = flight.total();
    steps(rt, &mut flight, spans, i, total);
    assert!(rt; flight.left() == 0);
    assert!(rt; flight.made() == total);
}

fn append(rt: &(impl Abort + AllocGlobal), bytes: &[u8]) -> Call {
    Call::Append(Bytes::copy_of(rt.alloc(), bytes).expect(rt, "no memory"))
}

// So many times one byte.
fn bytes_of(rt: &(impl Abort + AllocGlobal), byte: u8, count: usize) -> Bytes {
    Bytes::from_vec(Vec::from_elem(rt.alloc(), byte, count).expect(rt, "no memory"))
}

fn append_of(rt: &(impl Abort + AllocGlobal), byte: u8, count: usize) -> Call {
    Call::Append(bytes_of(rt, byte, count))
}

// A dump with a line of 15 bytes.
fn dump(rt: &(impl Abort + AllocGlobal), count: usize) -> Call {
    let mut line = ArrayString::new();
    line.push_str("====5.000006-D\n");
    Call::Dump(Line36::from_text(&line), bytes_of(rt, 0x78, count))
}

// Whether these are the flight's pairs of start and size.
fn has_pairs(flight: &Flight, pairs: &[(u32, u32)]) -> bool {
    let all = flight.pairs();
    all.len() == pairs.len()
        && all
            .iter()
            .zip(pairs)
            .all(|(pair, wanted)| (pair.start, pair.size) == *wanted)
}

// A call that was stopped after so many of its stores, with these pairs.
fn assert_stopped(rt: &impl Abort, flight: &Flight, made: u64, total: u64, pairs: &[(u32, u32)]) {
    assert!(rt; (flight.made(), flight.total()) == (made, total) && has_pairs(flight, pairs));
}

fn assert_call(rt: &impl Abort, flight: &Flight, kind: CallKind, runs: &[(u32, u32)]) {
    assert!(rt; flight.kind() == kind && flight.runs().as_slice() == runs);
}

// The start and the size of the first span.
fn assert_words(rt: &impl Abort, spans: &Spans, start: u32, size: u32) {
    assert!(rt; words(rt, spans, 0) == (SIG, start, size));
}

// These bytes stand in the first span from `at` on.
fn assert_stands(rt: &impl Abort, spans: &Spans, at: usize, bytes: &[u8]) {
    assert!(rt; stands(spans, 0, at, bytes));
}

#[test]
fn a_first_record_has_its_parity(rt: HostRuntime) {
    let mut spans = signed_spans(&rt);
    make(&rt, zone(&rt, 2), &mut spans, 0, Call::Erase);
    assert_stands(&rt, &spans, 0, b"DBGC\0\0\0\0\0\0\0\0");
    assert_stands(&rt, &spans, 4094, b"\xe1\xe3");
    make(&rt, zone(&rt, 2), &mut spans, 0, append(&rt, b"abc"));
    assert_stands(&rt, &spans, 0, b"DBGC\x03\0\0\0\x03\0\0\0abc\0");
    assert_stands(&rt, &spans, 4030, b"\xe3\x83");
    assert_stands(&rt, &spans, 4094, b"\xfb\xf9");
}

#[test]
fn an_append_is_stopped_behind_its_size_word(rt: HostRuntime) {
    let mut spans = signed_spans(&rt);
    make(&rt, zone(&rt, 0), &mut spans, 0, append(&rt, b"abc"));
    let mut flight = begin(&rt, zone(&rt, 0), &spans, 0, append(&rt, b"def"));
    steps(&rt, &mut flight, &mut spans, 0, 1);
    assert_words(&rt, &spans, 3, 6);
    assert_stopped(&rt, &flight, 1, 5, &[(3, 3), (3, 6), (6, 6)]);
    assert_call(&rt, &flight, CallKind::Append, &[(0, 0)]);
    assert_stands(&rt, &spans, 12, b"abc\0\0\0");
}

#[test]
fn an_append_with_parity_is_stopped_behind_its_words(rt: HostRuntime) {
    let mut spans = signed_spans(&rt);
    make(&rt, zone(&rt, 2), &mut spans, 0, append(&rt, b"abc"));
    let mut flight = begin(&rt, zone(&rt, 2), &spans, 0, append(&rt, b"def"));
    steps(&rt, &mut flight, &mut spans, 0, 2);
    assert_words(&rt, &spans, 6, 6);
    assert_stopped(&rt, &flight, 2, 9, &[(3, 3), (3, 6), (6, 6)]);
    assert_stands(&rt, &spans, 12, b"abc\0\0\0");
    assert_stands(&rt, &spans, 4030, b"\xe3\x83");
    assert_stands(&rt, &spans, 4094, b"\xfb\xf9");
}

#[test]
fn an_append_is_stopped_before_the_parity_of_the_header(rt: HostRuntime) {
    let mut spans = signed_spans(&rt);
    make(&rt, zone(&rt, 16), &mut spans, 0, append(&rt, b"abc"));
    let mut flight = begin(&rt, zone(&rt, 16), &spans, 0, append(&rt, b"def"));
    let mut old = [0; 16];
    old.copy_from_slice(&header_parity(&rt, &spans));
    steps(&rt, &mut flight, &mut spans, 0, 21);
    assert!(rt; (flight.total(), flight.left()) == (37, 16));
    assert_words(&rt, &spans, 6, 6);
    assert_stands(&rt, &spans, 12, b"abcdef");
    assert!(rt; header_parity(&rt, &spans) == old);
    steps(&rt, &mut flight, &mut spans, 0, 16);
    assert!(rt; header_parity(&rt, &spans) != old);
}

// The last 16 bytes of the first span.
fn header_parity(rt: &impl Abort, spans: &Spans) -> [u8; 16] {
    has_span(rt, spans, 0);
    let mut bytes = [0; 16];
    bytes.copy_from_slice(&spans.all()[0].bytes()[4080..4096]);
    bytes
}

#[test]
fn an_erasure_is_stopped_between_its_words(rt: HostRuntime) {
    let mut spans = signed_spans(&rt);
    make(&rt, zone(&rt, 0), &mut spans, 0, append_of(&rt, 0x61, 4084));
    assert_words(&rt, &spans, 0, 4084);
    make(&rt, zone(&rt, 0), &mut spans, 0, append(&rt, b"!"));
    assert_words(&rt, &spans, 1, 4084);
    let mut flight = begin(&rt, zone(&rt, 0), &spans, 0, Call::Erase);
    steps(&rt, &mut flight, &mut spans, 0, 1);
    assert_words(&rt, &spans, 0, 4084);
    assert_stopped(&rt, &flight, 1, 2, &[(1, 4084), (0, 4084), (0, 0)]);
    assert_call(&rt, &flight, CallKind::Erase, &[]);
    assert_stands(&rt, &spans, 12, b"!a");
}

#[test]
fn an_append_to_a_full_ring_makes_a_foreign_header(rt: HostRuntime) {
    let mut spans = signed_spans(&rt);
    make(&rt, zone(&rt, 2), &mut spans, 0, append_of(&rt, 0x61, 4018));
    let mut flight = begin(&rt, zone(&rt, 2), &spans, 0, append_of(&rt, 0x62, 1541));
    steps(&rt, &mut flight, &mut spans, 0, 1);
    assert_words(&rt, &spans, 1541, 4018);
    assert_stopped(&rt, &flight, 1, 1570, &[(0, 4018), (1541, 4018)]);
    assert_call(&rt, &flight, CallKind::Append, &[(0, 12)]);
}

#[test]
fn a_dump_is_stopped_behind_its_line_s_words(rt: HostRuntime) {
    let mut spans = signed_spans(&rt);
    let mut flight = begin(&rt, zone(&rt, 0), &spans, 0, dump(&rt, 1));
    steps(&rt, &mut flight, &mut spans, 0, 4);
    assert_words(&rt, &spans, 15, 15);
    assert!(rt; flight.total() == 22);
    assert_call(&rt, &flight, CallKind::Dump, &[(0, 0)]);
    steps(&rt, &mut flight, &mut spans, 0, 18);
    assert_words(&rt, &spans, 16, 16);
    assert_stands(&rt, &spans, 12, b"====5.000006-D\nx\0");
}

// The bytes of a dump's body, its pairs, and its blocks.
const DUMPS: &[(usize, &[(u32, u32)], (u32, u32))] = &[
    (
        1,
        &[
            (3, 3),
            (0, 3),
            (0, 0),
            (0, 15),
            (15, 15),
            (15, 16),
            (16, 16),
        ],
        (0, 0),
    ),
    (
        4069,
        &[
            (3, 3),
            (0, 3),
            (0, 0),
            (0, 15),
            (15, 15),
            (15, 4084),
            (0, 4084),
        ],
        (0, 31),
    ),
    (
        5000,
        &[
            (3, 3),
            (0, 3),
            (0, 0),
            (0, 15),
            (15, 15),
            (15, 4084),
            (0, 4084),
        ],
        (0, 31),
    ),
];

// A dump of so many bytes on the first span, and its pairs.
fn dump_with(
    rt: &(impl Abort + AllocGlobal),
    spans: &Spans,
    count: usize,
    pairs: &[(u32, u32)],
) -> Flight {
    let flight = begin(rt, zone(rt, 0), spans, 0, dump(rt, count));
    assert!(rt; has_pairs(&flight, pairs));
    flight
}

#[test]
fn a_dump_has_seven_pairs(rt: HostRuntime) {
    let mut spans = signed_spans(&rt);
    make(&rt, zone(&rt, 0), &mut spans, 0, append(&rt, b"abc"));
    for (count, pairs, run) in DUMPS.iter().copied() {
        let flight = dump_with(&rt, &spans, count, pairs);
        assert_call(&rt, &flight, CallKind::Dump, &[run]);
    }
    let no_body = [(3, 3), (0, 3), (0, 0), (0, 15), (15, 15)];
    let _flight = dump_with(&rt, &spans, 0, &no_body);
}

// Makes a call of so many stores in the first span.
fn takes(rt: &impl Abort, parity: u32, spans: &mut Spans, call: Call, total: u64) {
    assert!(rt; parity <= 127);
    let mut flight = begin(rt, zone(rt, parity), spans, 0, call);
    assert!(rt; (flight.total(), flight.left()) == (total, total));
    steps(rt, &mut flight, spans, 0, total);
    assert!(rt; flight.left() == 0);
}

// Parity bytes; the stores of an erasure, of an append of 3 bytes, of one of 300 bytes, and of a dump of 15 and 1.
const STORES: &[(u32, u64, u64, u64, u64)] = &[
    (0, 2, 5, 302, 22),
    (1, 3, 7, 306, 27),
    (2, 4, 9, 310, 32),
    (5, 7, 15, 322, 47),
    (16, 18, 37, 366, 102),
    (127, 129, 259, 810, 657),
];

#[test]
fn each_call_makes_its_number_of_stores(rt: HostRuntime) {
    for (parity, erasure, short, long, dumped) in STORES.iter().copied() {
        let mut spans = signed_spans(&rt);
        takes(&rt, parity, &mut spans, Call::Erase, erasure);
        takes(&rt, parity, &mut spans, append(&rt, b"abc"), short);
        takes(&rt, parity, &mut spans, Call::Erase, erasure);
        takes(&rt, parity, &mut spans, append_of(&rt, 0x61, 300), long);
        takes(&rt, parity, &mut spans, dump(&rt, 1), dumped);
    }
}

#[test]
fn an_append_of_no_bytes_has_no_stores(rt: HostRuntime) {
    let spans = signed_spans(&rt);
    let flight = begin(&rt, zone(&rt, 2), &spans, 0, append(&rt, b""));
    assert_stopped(&rt, &flight, 0, 0, &[(0, 0)]);
    assert_call(&rt, &flight, CallKind::Append, &[]);
    assert!(rt; flight.left() == 0 && matches!(flight.call(), Call::Append(_)));
}

// How far an append of the three bytes to an empty ring without parity came after so many stores.
fn came_so_far(spans: &Spans, i: u32, made: u64, bytes: [u8; 3]) -> bool {
    let mut wanted = [0x44, 0x42, 0x47, 0x43, 0, 0, 0, 0, 0, 0, 0, 0, 0, 0, 0, 0];
    if made > 0 {
        wanted[8] = 3;
    }
    if made > 1 {
        wanted[4] = 3;
    }
    if made > 2 {
        wanted[12] = bytes[0];
    }
    if made > 3 {
        wanted[13] = bytes[1];
    }
    if made > 4 {
        wanted[14] = bytes[2];
    }
    stands(spans, i, 0, &wanted)
}

// The span of each store.
const ORDERS: &[[u32; 10]] = &[
    [0, 0, 0, 0, 0, 1, 1, 1, 1, 1],
    [1, 1, 1, 1, 1, 0, 0, 0, 0, 0],
    [0, 1, 0, 1, 0, 1, 0, 1, 0, 1],
];

// One store of `abc` in the first span, or of `xyz` in the second.
fn store_one(rt: &impl Abort, console: &mut Flight, pmsg: &mut Flight, spans: &mut Spans, i: u32)
    requires console { console.old.zone.size ≡ 4096 }
    requires pmsg { pmsg.old.zone.size ≡ 4096 }
    ensures console { console.new.zone.size ≡ 4096 }
    ensures pmsg { pmsg.new.zone.size ≡ 4096 }
{
    if i == 0 {
        steps(rt, console, spans, 0, 1);
    } else {
        steps(rt, pmsg, spans, 1, 1);
    }
    assert!(rt; came_so_far(spans, 0, console.made(), *b"abc"));
    assert!(rt; came_so_far(spans, 1, pmsg.made(), *b"xyz"));
}

#[test]
fn two_appends_interleave(rt: HostRuntime) {
    for order in ORDERS.iter().copied() {
        let mut spans = signed_spans(&rt);
        let mut console = begin(&rt, zone(&rt, 0), &spans, 0, append(&rt, b"abc"));
        let mut pmsg = begin(&rt, zone(&rt, 0), &spans, 1, append(&rt, b"xyz"));
        for i in order {
            store_one(&rt, &mut console, &mut pmsg, &mut spans, i);
        }
    }
}
