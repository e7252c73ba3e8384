// What no clause says: that the calls find memory, worked cases, and three calls in four orders, stopped after every
// step.
ghost use Rattle.std.specs.Prelude.{◌≡◌, length, IfOk};
ghost use Rattle.ramoops_layout.specs.Laid.{params_of};

use outside::Bytes;
use ramoops_layout::types::Layout;
use ramoops_layout::{Params, layout};
use shared_ring::{Next, OpenCall, Shared, SharedRefusal, can_open};
use std::alloc::{AllocError, Global};
use std::process::Abort;
use std::test::Fail;
use zone_spec::{ByteOrder, Kind, Order, ZoneName};

const FTRACE: ZoneName = ZoneName {
    kind: Kind::Ftrace,
    index: 0,
};

// One ftrace zone of so many bytes, without parity, and a pmsg zone behind it.
fn params(size: u64) -> Params {
    Params {
        mem: 8192,
        dump: 0,
        console: 0,
        ftrace: size,
        pmsg: 4096,
        ecc: 0,
        cpus: 1,
        ftrace_sig: 0,
        block: 128,
        ecc_dump: 0,
        ecc_console: 0,
        ecc_ftrace: 0,
        ecc_pmsg: 0,
        order: Order::FtracePmsg,
        byte_order: ByteOrder::Little,
    }
}

fn zeros(alloc: Global, count: u32) -> Result<Bytes, AllocError>
    ensures { IfOk result (λ bytes. length bytes ≡ count) }
{
    let mut bytes = Vec::new(alloc);
    bytes.resize(count as usize, 0)?;
    Ok(Bytes::from_vec(bytes))
}

// The image of an ftrace zone whose words are a start, which is also its size.
fn image(alloc: Global, layout: &Layout, start: u8) -> Result<Bytes, AllocError>
    ensures { IfOk result (λ bytes. length bytes ≡ (params_of layout.now).mem) }
{
    let mut image = zeros(alloc, layout.mem())?;
    if image.len() < 12 {
        return Ok(image);
    }
    image.set(0, 0x44);
    image.set(1, 0x42);
    image.set(2, 0x47);
    image.set(3, 0x43);
    image.set(4, start);
    image.set(8, start);
    Ok(image)
}

fn opened(rt: &impl Abort, alloc: Global, size: u64, start: u8) -> Result<Shared, Fail> {
    let layout = match layout(alloc, &params(size)) {
        Ok(layout) => layout,
        Err(_) => panic!(rt; "no layout"),
    };
    let image = image(alloc, &layout, start)?;
    if !can_open(&image, &layout, FTRACE) {
        panic!(rt; "the zone cannot be opened");
    }
    match Shared::open(image, layout, FTRACE) {
        Ok(shared) => Ok(shared),
        Err((_image, refused)) => Err(Fail::from(refused)),
    }
}

fn reserve(
    rt: &impl Abort,
    alloc: Global,
    shared: &mut Shared,
    payload: &[u8],
) -> Option<SharedRefusal> {
    let bytes = Bytes::copy_of(alloc, payload).expect(rt, "no memory");
    let before = shared.reserved();
    assert!(rt; bytes.len() != 0);
    assert!(rt; before < 1000);
    match shared.reserve(bytes) {
        Ok(ticket) => {
            assert!(rt; ticket == before);
            None
        }
        Err((why, back)) => {
            assert!(rt; back.as_slice() == payload);
            Some(why)
        }
    }
}

// Whether this call is open, and no other.
fn is_open_alone(shared: &Shared, ticket: u64, place: u32, length: u32, stored: u32) -> bool {
    let open = OpenCall {
        ticket,
        place,
        length,
        stored,
    };
    shared.open_calls().as_slice() == [open].as_slice()
}

// Whether so many calls were reserved, and the ring has this start and size.
fn stands(shared: &Shared, reserved: u64, start: u32, size: u32) -> bool {
    let words = shared.words();
    (shared.reserved(), words.start, words.size) == (reserved, start, size)
}

#[test]
fn two_reservations(rt: HostRuntime) -> Result<(), Fail> {
    let alloc = rt.alloc();
    let mut shared = opened(&rt, alloc, 4096, 0)?;
    assert!(rt; reserve(&rt, alloc, &mut shared, b"aa") == None);
    assert!(rt; reserve(&rt, alloc, &mut shared, b"bb") == None);
    assert!(rt; shared.step(1) == Ok(Next::Stored));
    assert!(rt; shared.step(1) == Ok(Next::Done));
    assert!(rt; shared.step(0) == Ok(Next::Stored));
    assert!(rt; shared.step(1).is_err(), "a finished call");
    assert!(rt; shared.step(2).is_err(), "a ticket that was never given");
    assert!(rt; is_open_alone(&shared, 0, 0, 2, 1));
    assert!(rt; stands(&shared, 2, 4, 4));
    let image = shared.close();
    assert!(rt; image.len() == 8192);
    assert!(rt;
        image
            .as_slice()
            .starts_with(b"DBGC\x04\0\0\0\x04\0\0\0a\0bb")
    );
    Ok(())
}

// A ring of 4084 places, of which the first byte is reserved and not stored.
#[test]
fn a_crowded_ring(rt: HostRuntime) -> Result<(), Fail> {
    let alloc = rt.alloc();
    let mut shared = opened(&rt, alloc, 4096, 0)?;
    assert!(rt; reserve(&rt, alloc, &mut shared, b"x") == None);
    assert!(rt; reserve(&rt, alloc, &mut shared, &[0x2e; 4083]) == None);
    for _ in 0..4082 {
        assert!(rt; shared.step(1) == Ok(Next::Stored));
    }
    assert!(rt; shared.step(1) == Ok(Next::Done));
    let crowded = SharedRefusal::Crowded { held: 4084 };
    assert!(rt; reserve(&rt, alloc, &mut shared, b"a") == Some(crowded));
    assert!(rt; shared.step(0) == Ok(Next::Done));
    assert!(rt; reserve(&rt, alloc, &mut shared, b"a") == None);
    assert!(rt; is_open_alone(&shared, 2, 0, 1, 0));
    assert!(rt; stands(&shared, 3, 1, 4084));
    let image = shared.close();
    assert!(rt; image.len() == 8192);
    assert!(rt;
        image.as_slice()[12] == b'x',
        "the reservation stored no data"
    );
    Ok(())
}

#[test]
fn seats_run_out(rt: HostRuntime) -> Result<(), Fail> {
    let alloc = rt.alloc();
    let mut shared = opened(&rt, alloc, 4096, 0)?;
    for _ in 0..64 {
        assert!(rt; reserve(&rt, alloc, &mut shared, b"ab") == None);
    }
    let seatless = Some(SharedRefusal::NoSeat);
    assert!(rt;
        reserve(&rt, alloc, &mut shared, &[1; 4096]) == seatless,
        "before crowded"
    );
    assert!(rt; shared.step(7) == Ok(Next::Stored));
    assert!(rt; reserve(&rt, alloc, &mut shared, b"a") == seatless);
    assert!(rt; shared.step(7) == Ok(Next::Done));
    assert!(rt; reserve(&rt, alloc, &mut shared, b"a") == None);
    assert!(rt; shared.open_calls().len() == 64);
    let image = shared.close();
    assert!(rt; image.len() == 8192);
    Ok(())
}

const IN_TURN: [u64; 8] = [0, 0, 0, 1, 1, 2, 2, 2];

const BACKWARDS: [u64; 8] = [2, 2, 2, 1, 1, 0, 0, 0];

const BY_BYTES: [u64; 8] = [0, 1, 2, 0, 1, 2, 0, 2];

const MIDDLE_LAST: [u64; 8] = [2, 0, 2, 0, 2, 0, 1, 1];

// After so many steps of an order, how many bytes each call has stored, and the data places 240 to 243 and 0 to 4, with
// `.` for one that no call has stored. The ring has 244 places and begins at 241; the calls are `abc`, `de` and `fgh`.
const ROWS: &[([u64; 8], usize, [u32; 3], &[u8])] = &[
    (IN_TURN, 1, [1, 0, 0], b".a......."),
    (IN_TURN, 2, [2, 0, 0], b".ab......"),
    (IN_TURN, 3, [3, 0, 0], b".abc....."),
    (IN_TURN, 4, [3, 1, 0], b".abcd...."),
    (IN_TURN, 5, [3, 2, 0], b".abcde..."),
    (IN_TURN, 6, [3, 2, 1], b".abcdef.."),
    (IN_TURN, 7, [3, 2, 2], b".abcdefg."),
    (IN_TURN, 8, [3, 2, 3], b".abcdefgh"),
    (BACKWARDS, 1, [0, 0, 1], b"......f.."),
    (BACKWARDS, 2, [0, 0, 2], b"......fg."),
    (BACKWARDS, 3, [0, 0, 3], b"......fgh"),
    (BACKWARDS, 4, [0, 1, 3], b"....d.fgh"),
    (BACKWARDS, 5, [0, 2, 3], b"....defgh"),
    (BACKWARDS, 6, [1, 2, 3], b".a..defgh"),
    (BACKWARDS, 7, [2, 2, 3], b".ab.defgh"),
    (BACKWARDS, 8, [3, 2, 3], b".abcdefgh"),
    (BY_BYTES, 1, [1, 0, 0], b".a......."),
    (BY_BYTES, 2, [1, 1, 0], b".a..d...."),
    (BY_BYTES, 3, [1, 1, 1], b".a..d.f.."),
    (BY_BYTES, 4, [2, 1, 1], b".ab.d.f.."),
    (BY_BYTES, 5, [2, 2, 1], b".ab.def.."),
    (BY_BYTES, 6, [2, 2, 2], b".ab.defg."),
    (BY_BYTES, 7, [3, 2, 2], b".abcdefg."),
    (BY_BYTES, 8, [3, 2, 3], b".abcdefgh"),
    (MIDDLE_LAST, 1, [0, 0, 1], b"......f.."),
    (MIDDLE_LAST, 2, [1, 0, 1], b".a....f.."),
    (MIDDLE_LAST, 3, [1, 0, 2], b".a....fg."),
    (MIDDLE_LAST, 4, [2, 0, 2], b".ab...fg."),
    (MIDDLE_LAST, 5, [2, 0, 3], b".ab...fgh"),
    (MIDDLE_LAST, 6, [3, 0, 3], b".abc..fgh"),
    (MIDDLE_LAST, 7, [3, 1, 3], b".abcd.fgh"),
    (MIDDLE_LAST, 8, [3, 2, 3], b".abcdefgh"),
];

const PAYLOADS: [&[u8]; 3] = [b"abc", b"de", b"fgh"];

const PLACES: [u32; 3] = [241, 0, 2];

fn check_open(rt: &impl Abort, shared: &Shared, stored: [u32; 3]) {
    let calls = shared.open_calls();
    let mut seen = 0;
    for (i, payload) in PAYLOADS.iter().enumerate() {
        let length = payload.len() as u32;
        if stored[i] < length {
            let wanted = OpenCall {
                ticket: i as u64,
                place: PLACES[i],
                length,
                stored: stored[i],
            };
            assert!(rt; calls.as_slice().get(seen) == Some(&wanted));
            seen += 1;
        }
    }
    assert!(rt; calls.len() == seen);
}

fn reserve_all(rt: &impl Abort, alloc: Global, shared: &mut Shared) {
    for payload in PAYLOADS {
        assert!(rt; reserve(rt, alloc, shared, payload) == None);
    }
}

fn step_all(rt: &impl Abort, shared: &mut Shared, tickets: &[u64]) {
    for ticket in tickets.iter().copied() {
        assert!(rt; shared.step(ticket).is_ok());
    }
}

fn check_places(rt: &impl Abort, image: &[u8], places: &[u8], done: usize) {
    for (i, wanted) in places.iter().enumerate() {
        let stands = image.get(12 + (240 + i) % 244).copied();
        let byte = if *wanted == b'.' { 0 } else { *wanted };
        assert!(rt; stands == Some(byte), "place {i} after {done}");
    }
}

#[test]
fn three_calls_in_four_orders(rt: HostRuntime) -> Result<(), Fail> {
    let alloc = rt.alloc();
    for (order, done, stored, places) in ROWS.iter().copied() {
        let mut shared = opened(&rt, alloc, 256, 241)?;
        reserve_all(&rt, alloc, &mut shared);
        step_all(
            &rt,
            &mut shared,
            order.get(..done).expect(&rt, "at most eight steps"),
        );
        check_open(&rt, &shared, stored);
        assert!(rt; stands(&shared, 3, 5, 244));
        check_places(&rt, shared.close().as_slice(), places, done);
    }
    Ok(())
}
