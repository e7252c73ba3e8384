// Calls handed out store by store on a zone of 4096 bytes with two parity bytes: capacity 4018, 32 blocks of 128 bytes,
// the parity of block 0 at 4030 and of block 31 at 4092, the header's at 4094.
ghost use Rattle.std.specs.Prelude.{◌≡◌, ◌<◌, ◌≤◌, ◌⊎◌, [], length};
ghost use Rattle.zone_spec.specs.Zones.{IsValidZone};
ghost use Rattle.store_steps.specs.Flying.{flying};
ghost use Rattle.store_steps.specs.Machine.{IsKept};
ghost use Rattle.rs_encode.specs.Lanes.{IsLent};

use prz_ecc::Coder;
use std::process::Abort;
use store_steps::{CallKind, Given, Leg, Phase, Place, Steps, Store, Zone};
use zone_spec::{ByteOrder, Kind, ZoneName};

const SIG: u32 = 0x4347_4244;

const MOST: u32 = 0xFFFF_FFFF;

const LINE: &[u8] = b"====5.000006-D\n";

// What is handed out: whose bytes, from which place on, how many, and the word or the first byte's number.
type Handed = (Given, u32, u32, u64);

fn zone(rt: &impl Abort) -> Zone
    ensures valid { IsValidZone result }
    ensures size { result.size ≡ 4096 }
    ensures parity { result.parity ≡ 2 }
{
    let zone = Zone {
        name: ZoneName {
            kind: Kind::Console,
            index: 0,
        },
        at: 0,
        size: 4096,
        cap: 4018,
        blocks: 32,
        parity: 2,
        sig: SIG,
        block: 128,
        byte_order: ByteOrder::Little,
    };
    let _ = rt;
    zone
}

// The zone with these words, and zeros.
fn image(start: u32, size: u32) -> [u8; 4096] {
    let mut image = [0u8; 4096];
    image[..4].copy_from_slice(&SIG.to_le_bytes());
    image[4..8].copy_from_slice(&start.to_le_bytes());
    image[8..12].copy_from_slice(&size.to_le_bytes());
    image
}

fn put(rt: &impl Abort, image: &mut [u8], at: u32, bytes: &[u8]) {
    let at = at as usize;
    assert!(rt; at <= image.len() && bytes.len() <= image.len() - at);
    image[at..at + bytes.len()].copy_from_slice(bytes);
}

fn part<'a>(rt: &impl Abort, bytes: &'a [u8], from: u64, len: u32) -> &'a [u8] {
    let (from, len) = (from as usize, len as usize);
    assert!(rt; from <= bytes.len() && len <= bytes.len() - from);
    &bytes[from..from + len]
}

// Makes the stores, and tells what they were.
fn make(rt: &impl Abort, image: &mut [u8], line: &[u8], payload: &[u8], store: &Store) -> Handed {
    let number = match store.given {
        Given::Word => {
            put(rt, image, store.place, &store.word.to_le_bytes());
            u64::from(store.word)
        }
        Given::Line => {
            put(
                rt,
                image,
                store.place,
                part(rt, line, store.from, store.len),
            );
            store.from
        }
        Given::Payload => {
            put(
                rt,
                image,
                store.place,
                part(rt, payload, store.from, store.len),
            );
            store.from
        }
        Given::Parity => {
            let parity = store.parity.as_slice();
            put(
                rt,
                image,
                store.place,
                part(rt, parity, store.from, store.len),
            );
            store.from
        }
        Given::Nothing => 0,
    };
    (store.given, store.place, store.len, number)
}

// Makes a call as it is handed out, at most `most` stores at a time: just these, and then none.
fn plays(
    rt: &impl Abort,
    zone: Zone,
    kind: CallKind,
    image: &mut [u8; 4096],
    line: &[u8],
    payload: &[u8],
    table: &[u128],
    most: u32,
    expected: &[Handed],
)
    requires valid { IsValidZone zone }
    requires size { zone.size ≡ 4096 }
    requires line { length line.now ≤ 36 }
    requires table { IsLent zone.parity table.now }
    requires some { 0 < most }
{
    let Some(mut steps) = Steps::try_begin(zone, kind, image, line, payload) else {
        panic!(rt; "refused");
    };
    let mut store = Store::new();
    for wanted in expected {
        assert!(rt; !steps.is_finished() && steps.is_kept(line, payload));
        steps.next(table, image, line, payload, most, &mut store);
        assert!(rt; make(rt, image, line, payload, &store) == *wanted);
    }
    assert!(rt; steps.is_finished() && steps.is_kept(line, payload));
    assert!(rt; steps.made == steps.total(line, payload));
    steps.next(table, image, line, payload, most, &mut store);
    assert!(rt; matches!(store.given, Given::Nothing));
}

#[test]
fn an_append_is_size_start_bytes_parity(rt: HostRuntime) {
    let (zone, mut image) = (zone(&rt), image(0, 0));
    let expected = [
        (Given::Word, 8, 4, 3),
        (Given::Word, 4, 4, 3),
        (Given::Payload, 12, 3, 0),
        (Given::Parity, 4030, 2, 0),
        (Given::Parity, 4094, 2, 0),
    ];
    plays(
        &rt,
        zone,
        CallKind::Append,
        &mut image,
        b"",
        b"abc",
        &[],
        MOST,
        &expected,
    );
    assert!(rt; &image[4..15] == b"\x03\0\0\0\x03\0\0\0abc".as_slice());
    assert_parities(&rt, &image);
}

#[test]
fn a_lent_table_makes_the_same_parity(rt: HostRuntime) {
    let (zone, mut image) = (zone(&rt), image(0, 0));
    let coder = Coder::new(&zone);
    let expected = [
        (Given::Word, 8, 4, 3),
        (Given::Word, 4, 4, 3),
        (Given::Payload, 12, 3, 0),
        (Given::Parity, 4030, 2, 0),
        (Given::Parity, 4094, 2, 0),
    ];
    plays(
        &rt,
        zone,
        CallKind::Append,
        &mut image,
        b"",
        b"abc",
        coder.table(),
        MOST,
        &expected,
    );
    assert_parities(&rt, &image);
}

// The parities of a record of `abc`, of its block and of its header.
fn assert_parities(rt: &impl Abort, image: &[u8; 4096]) {
    assert!(rt; &image[4030..4032] == b"\xe3\x83".as_slice());
    assert!(rt; &image[4094..4096] == b"\xfb\xf9".as_slice());
}

// The next store of an append is a word or a run, and wants no image.
fn assert_data(
    rt: &impl Abort,
    steps: &mut Steps,
    payload: &[u8],
    image: &mut [u8],
    store: &mut Store,
    wanted: Handed,
)
    requires kept { IsKept (flying steps.old [] payload.now) }
    ensures kept { IsKept (flying steps.new [] payload.now) }
{
    assert!(rt; !steps.is_parity());
    steps.next_data(b"", payload, MOST, store);
    assert!(rt; make(rt, image, b"", payload, store) == wanted);
}

// The next store is a parity of the bytes that stand.
fn assert_parity(
    rt: &impl Abort,
    steps: &mut Steps,
    payload: &[u8],
    stands: &[u8; 4096],
    image: &mut [u8],
    store: &mut Store,
    wanted: Handed,
)
    requires kept { IsKept (flying steps.old [] payload.now) }
    ensures kept { IsKept (flying steps.new [] payload.now) }
{
    assert!(rt; steps.is_parity() && steps.zone.size == 4096);
    steps.next_parity(&[], stands, b"", payload, MOST, store);
    assert!(rt; make(rt, image, b"", payload, store) == wanted);
}

#[test]
fn words_and_runs_want_no_image_and_parities_no_parity(rt: HostRuntime) {
    let (zone, mut image) = (zone(&rt), image(0, 0));
    let Some(mut steps) = Steps::try_begin(zone, CallKind::Append, &image, b"", b"abc") else {
        panic!(rt; "refused");
    };
    let mut store = Store::new();
    let (size, start) = ((Given::Word, 8, 4, 3), (Given::Word, 4, 4, 3));
    assert_data(&rt, &mut steps, b"abc", &mut image, &mut store, size);
    assert_data(&rt, &mut steps, b"abc", &mut image, &mut store, start);
    let run = (Given::Payload, 12, 3, 0);
    assert_data(&rt, &mut steps, b"abc", &mut image, &mut store, run);
    let stands = image;
    let block = (Given::Parity, 4030, 2, 0);
    assert_parity(
        &rt, &mut steps, b"abc", &stands, &mut image, &mut store, block,
    );
    let header = (Given::Parity, 4094, 2, 0);
    assert_parity(
        &rt, &mut steps, b"abc", &stands, &mut image, &mut store, header,
    );
    assert!(rt; steps.is_finished());
    assert_parities(&rt, &image);
}

#[test]
fn one_store_at_a_time(rt: HostRuntime) {
    let (zone, mut image) = (zone(&rt), image(0, 0));
    let expected = [
        (Given::Word, 8, 4, 3),
        (Given::Word, 4, 4, 3),
        (Given::Payload, 12, 1, 0),
        (Given::Payload, 13, 1, 1),
        (Given::Payload, 14, 1, 2),
        (Given::Parity, 4030, 1, 0),
        (Given::Parity, 4031, 1, 1),
        (Given::Parity, 4094, 1, 0),
        (Given::Parity, 4095, 1, 1),
    ];
    plays(
        &rt,
        zone,
        CallKind::Append,
        &mut image,
        b"",
        b"abc",
        &[],
        1,
        &expected,
    );
    assert!(rt; &image[12..15] == b"abc".as_slice());
    assert!(rt; &image[4094..4096] == b"\xfb\xf9".as_slice());
}

#[test]
fn a_wrapped_append_has_two_runs(rt: HostRuntime) {
    let (zone, mut image) = (zone(&rt), image(4017, 4017));
    let expected = [
        (Given::Word, 8, 4, 4018),
        (Given::Word, 4, 4, 2),
        (Given::Payload, 4029, 1, 0),
        (Given::Parity, 4092, 2, 0),
        (Given::Payload, 12, 2, 1),
        (Given::Parity, 4030, 2, 0),
        (Given::Parity, 4094, 2, 0),
    ];
    plays(
        &rt,
        zone,
        CallKind::Append,
        &mut image,
        b"",
        b"abc",
        &[],
        MOST,
        &expected,
    );
    assert!(rt; &image[12..14] == b"bc".as_slice() && image[4029] == b'a');
}

#[test]
fn a_full_ring_keeps_its_size_word(rt: HostRuntime) {
    let (zone, mut image) = (zone(&rt), image(5, 4018));
    let expected = [
        (Given::Word, 4, 4, 6),
        (Given::Payload, 17, 1, 0),
        (Given::Parity, 4030, 2, 0),
        (Given::Parity, 4094, 2, 0),
    ];
    plays(
        &rt,
        zone,
        CallKind::Append,
        &mut image,
        b"",
        b"x",
        &[],
        MOST,
        &expected,
    );
    assert!(rt; &image[4..12] == b"\x06\0\0\0\xb2\x0f\0\0".as_slice());
}

// The next stores of an append of these bytes, as many as are handed out at once.
fn assert_next(
    rt: &impl Abort,
    steps: &mut Steps,
    image: &mut [u8; 4096],
    payload: &[u8],
    wanted: Handed,
)
    requires kept { IsKept (flying steps.old [] payload.now) }
    ensures kept { IsKept (flying steps.new [] payload.now) }
{
    assert!(rt; steps.zone.size == 4096);
    let mut store = Store::new();
    steps.next(&[], image, b"", payload, MOST, &mut store);
    assert!(rt; make(rt, image, b"", payload, &store) == wanted);
}

#[test]
fn of_a_long_append_the_last_bytes_are_stored(rt: HostRuntime) {
    let (zone, mut image) = (zone(&rt), image(0, 0));
    let long = [7u8; 4020];
    let Some(mut steps) = Steps::try_begin(zone, CallKind::Append, &image, b"", &long) else {
        panic!(rt; "refused");
    };
    let (size, start) = ((Given::Word, 8, 4, 4018), (Given::Word, 4, 4, 0));
    assert_next(&rt, &mut steps, &mut image, &long, size);
    assert_next(&rt, &mut steps, &mut image, &long, start);
    let run = (Given::Payload, 12, 4018, 2);
    assert_next(&rt, &mut steps, &mut image, &long, run);
}

#[test]
fn an_append_of_nothing_has_no_store(rt: HostRuntime) {
    let (zone, mut image) = (zone(&rt), image(0, 0));
    plays(
        &rt,
        zone,
        CallKind::Append,
        &mut image,
        b"",
        b"",
        &[],
        MOST,
        &[],
    );
    assert!(rt; &image[4..12] == [0u8; 8].as_slice());
}

#[test]
fn an_erasure_is_start_size_parity(rt: HostRuntime) {
    let (zone, mut image) = (zone(&rt), image(3, 3));
    let expected = [
        (Given::Word, 4, 4, 0),
        (Given::Word, 8, 4, 0),
        (Given::Parity, 4094, 2, 0),
    ];
    plays(
        &rt,
        zone,
        CallKind::Erase,
        &mut image,
        b"",
        b"",
        &[],
        MOST,
        &expected,
    );
    assert!(rt; &image[4..12] == [0u8; 8].as_slice());
}

#[test]
fn a_dump_erases_and_appends_twice(rt: HostRuntime) {
    let (zone, mut image) = (zone(&rt), image(3, 9));
    let expected = [
        (Given::Word, 4, 4, 0),
        (Given::Word, 8, 4, 0),
        (Given::Parity, 4094, 2, 0),
        (Given::Word, 8, 4, 15),
        (Given::Word, 4, 4, 15),
        (Given::Line, 12, 15, 0),
        (Given::Parity, 4030, 2, 0),
        (Given::Parity, 4094, 2, 0),
        (Given::Word, 8, 4, 16),
        (Given::Word, 4, 4, 16),
        (Given::Payload, 27, 1, 0),
        (Given::Parity, 4030, 2, 0),
        (Given::Parity, 4094, 2, 0),
    ];
    plays(
        &rt,
        zone,
        CallKind::Dump,
        &mut image,
        LINE,
        b"x",
        &[],
        MOST,
        &expected,
    );
    assert!(rt; &image[12..28] == b"====5.000006-D\nx".as_slice());
}

#[test]
fn rings_that_no_call_can_write_are_refused(rt: HostRuntime) {
    let zone = zone(&rt);
    // start, size, append, erasure
    let rows = [
        (0, 0, true, true),
        (9, 9, true, true),
        (9, 4018, true, true),
        (3, 9, false, true),
        (4018, 4018, false, true),
        (9, 3, false, false),
        (0, 4019, false, false),
    ];
    for (start, size, append, erase) in rows {
        let image = image(start, size);
        assert!(rt;
            Steps::try_begin(zone, CallKind::Append, &image, b"", b"x").is_some() == append
        );
        assert!(rt; Steps::try_begin(zone, CallKind::Erase, &image, b"", b"").is_some() == erase);
        assert!(rt; Steps::try_begin(zone, CallKind::Dump, &image, LINE, b"x").is_some() == erase);
    }
}

// The places of an append of three bytes, and others: its part, the ring, the phase, the block, the number within the
// phase, how many stores are made, and whether it is one of them.
#[test]
fn numbers_that_are_no_steps_are_seen(rt: HostRuntime) {
    let (zone, image) = (zone(&rt), image(0, 0));
    let Some(begun) = Steps::try_begin(zone, CallKind::Append, &image, b"", b"abc") else {
        panic!(rt; "refused");
    };
    let rows = [
        (Leg::Payload, 0, Phase::Size, 0, 0, 0, true),
        (Leg::Payload, 0, Phase::Size, 0, 0, 1, false),
        (Leg::Payload, 0, Phase::Start, 0, 0, 0, false),
        (Leg::Payload, 0, Phase::Start, 0, 0, 1, true),
        (Leg::Payload, 0, Phase::First, 0, 1, 3, true),
        (Leg::Payload, 0, Phase::First, 0, 4, 3, false),
        (Leg::Payload, 0, Phase::FirstParity, 0, 0, 5, true),
        (
            Leg::Payload,
            0,
            Phase::FirstParity,
            0xFFFF_FFFF,
            0,
            5,
            false,
        ),
        (Leg::Payload, 7, Phase::Size, 0, 0, 0, false),
        (Leg::Payload, 4018, Phase::Size, 0, 0, 0, false),
        (Leg::Line, 0, Phase::Size, 0, 0, 0, false),
        (Leg::Payload, 0, Phase::ZeroStart, 0, 0, 5, false),
        (Leg::Payload, 0, Phase::ZeroSize, 0, 0, 6, false),
    ];
    for (leg, start, phase, block, number, made, is_kept) in rows {
        let mut steps = begun;
        steps.place = Place {
            leg,
            start,
            size: start,
            phase,
            block,
            number,
        };
        steps.made = made;
        assert!(rt; steps.is_kept(b"", b"abc") == is_kept);
    }
}

#[test]
fn steps_of_another_call_are_seen(rt: HostRuntime) {
    let (zone, image) = (zone(&rt), image(0, 0));
    let Some(mut steps) = Steps::try_begin(zone, CallKind::Append, &image, b"", b"abc") else {
        panic!(rt; "refused");
    };
    assert!(rt; steps.is_kept(b"", b"abc"));
    assert!(rt; !steps.is_kept(b"", b""));
    steps.kind = CallKind::Dump;
    assert!(rt; !steps.is_kept(b"", b"abc"));
}
