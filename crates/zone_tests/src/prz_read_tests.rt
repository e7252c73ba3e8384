// Worked images: how they read, which readings are kept, and what a boot cut after each number of stores leaves.
use outside::Bytes;
use prz_read::*;
use prz_region::{Region, Spans};
use ramoops_layout::types::Layout;
use ramoops_layout::{Params, layout};
use std::alloc::{AllocError, Global};
use std::process::Abort;
use std::test::Fail;
use zone_spec::{ByteOrder, Kind, Order, PartState, Zone, ZoneName};

const SIGNATURE: [u8; 4] = [0x44, 0x42, 0x47, 0x43];

// With 16 parity bytes: of the header with start 0 and size 0, with 3 and 3, with 200 and 200, of a block that is
// `abc` and zeros, of one of 128 bytes 61, and of one of 72 bytes 61 and zeros.
const PARITY_OF_0: [u8; 16] = [
    0xaa, 0x25, 0xd5, 0x21, 0x32, 0xe2, 0x35, 0x3a, 0x38, 0x55, 0x19, 0xc0, 0x2b, 0xcb, 0xad, 0x5f,
];

const PARITY_OF_3: [u8; 16] = [
    0xc2, 0xf9, 0xf8, 0x14, 0x2e, 0x2d, 0x27, 0xfa, 0x23, 0x8b, 0x36, 0x44, 0x1e, 0xcb, 0xbb, 0xbf,
];

const PARITY_OF_200: [u8; 16] = [
    0x63, 0xad, 0x82, 0x78, 0xca, 0x5d, 0xb1, 0x4a, 0xfe, 0xa6, 0x35, 0x9d, 0x72, 0xcb, 0xdf, 0xcc,
];

const PARITY_OF_ABC: [u8; 16] = [
    0x1f, 0x26, 0x9b, 0x69, 0xe2, 0x69, 0x57, 0x21, 0x4c, 0x75, 0xf6, 0x85, 0xb7, 0xc5, 0x2c, 0x42,
];

const PARITY_OF_128: [u8; 16] = [
    0x66, 0x5b, 0x81, 0xd6, 0x0b, 0x59, 0xd8, 0x74, 0x3b, 0x40, 0x7d, 0x5e, 0x6a, 0xd1, 0xc6, 0xb1,
];

const PARITY_OF_72: [u8; 16] = [
    0xcf, 0xf4, 0x98, 0x73, 0x61, 0x41, 0x8c, 0xaf, 0xf9, 0xde, 0xf0, 0x56, 0xb1, 0xe6, 0xba, 0xbf,
];

pub(crate) fn params(
    mem: u64,
    dump: u64,
    console: u64,
    ftrace: u64,
    pmsg: u64,
    ecc: u64,
) -> Params {
    Params {
        mem,
        dump,
        console,
        ftrace,
        pmsg,
        ecc,
        cpus: 2,
        ftrace_sig: 0,
        block: 128,
        ecc_dump: ecc,
        ecc_console: ecc,
        ecc_ftrace: ecc,
        ecc_pmsg: ecc,
        order: Order::FtracePmsg,
        byte_order: ByteOrder::Little,
    }
}

// One console zone of 4096 bytes, with this parity.
pub(crate) fn console(ecc: u64) -> Params {
    params(4096, 0, 4096, 0, 0, ecc)
}

// Dump zones 0 and 1, console 2 and pmsg 3, each of 4096 bytes, with this parity.
pub(crate) fn four(ecc: u64) -> Params {
    params(16384, 4096, 4096, 0, 4096, ecc)
}

// Two ftrace zones of 2048 bytes.
pub(crate) fn two_cpus() -> Params {
    params(4096, 0, 0, 4096, 0, 0)
}

fn zeros(alloc: Global, p: &Params) -> Result<(Layout, Spans), AllocError> {
    let layout = match layout(alloc, p) {
        Ok(layout) => layout,
        Err(_) => return Err(AllocError),
    };
    let mem = layout.mem() as usize;
    let bytes = Bytes::from_vec(Vec::from_elem(alloc, 0u8, mem)?);
    match Region::from_bytes(bytes).cut(&layout) {
        Ok(spans) => Ok((layout, spans)),
        Err((_region, refused)) => Err(refused),
    }
}

fn store_byte(spans: &mut Spans, i: usize, at: usize, b: u8) {
    let all = spans.all();
    if i < all.len() && i < 4 && at < 4096 {
        if (at as u32) < all[i].len() {
            spans.store(i as u32, at as u32, b);
        }
    }
}

// The layout's region of zeros, but for these bytes at the front of zone i.
pub(crate) fn image(
    alloc: Global,
    p: &Params,
    i: usize,
    bytes: &[u8],
) -> Result<(Layout, Spans), AllocError> {
    let (layout, mut spans) = zeros(alloc, p)?;
    for (at, b) in bytes.iter().enumerate() {
        store_byte(&mut spans, i, at, *b);
    }
    Ok((layout, spans))
}

// The reading of zone i.
pub(crate) fn read(
    alloc: Global,
    layout: &Layout,
    spans: &Spans,
    i: usize,
) -> Result<Reading, AllocError> {
    let zones = layout.zones();
    let all = spans.all();
    if i < zones.len() && i < all.len() {
        if all[i].len() == zones[i].size {
            return read_zone(alloc, &all[i], &zones[i]);
        }
    }
    Err(AllocError)
}

// The reading of zone i and its parts.
fn read_with_parts(
    alloc: Global,
    layout: &Layout,
    spans: &Spans,
    i: usize,
) -> Result<(Reading, ZoneParts), AllocError> {
    let zones = layout.zones();
    let all = spans.all();
    if i < zones.len() && i < all.len() {
        if all[i].len() == zones[i].size {
            return read_parts(alloc, &all[i], &zones[i]);
        }
    }
    Err(AllocError)
}

fn reading_of(alloc: Global, p: &Params, i: usize, bytes: &[u8]) -> Result<Reading, AllocError> {
    let (layout, spans) = image(alloc, p, i, bytes)?;
    read(alloc, &layout, &spans, i)
}

// Settles zone i of these spans.
fn settle_zone(
    alloc: Global,
    layout: &Layout,
    spans: &mut Spans,
    i: usize,
    limit: u64,
) -> Result<Settled, AllocError> {
    let zones = layout.zones();
    if i < zones.len() && i < 4 && i < spans.all().len() {
        let zone = zones[i];
        if spans.all()[i].len() == zone.size {
            let reading = read_zone(alloc, &spans.all()[i], &zone)?;
            return Ok(settle(spans, i as u32, &zone, &reading, limit));
        }
    }
    Err(AllocError)
}

// Settles zone i, and gives its bytes then.
pub(crate) fn settled(
    alloc: Global,
    p: &Params,
    i: usize,
    bytes: &[u8],
    limit: u64,
) -> Result<(Settled, Vec<u8>), AllocError> {
    let (layout, mut spans) = image(alloc, p, i, bytes)?;
    let settled = settle_zone(alloc, &layout, &mut spans, i, limit)?;
    match spans.all().get(i) {
        Some(span) => Ok((settled, Vec::from_slice(alloc, span.bytes())?)),
        None => Err(AllocError),
    }
}

pub(crate) fn put(image: &mut [u8], at: usize, bytes: &[u8]) {
    for (j, b) in bytes.iter().enumerate() {
        if let Some(place) = image.get_mut(at.wrapping_add(j)) {
            *place = *b;
        }
    }
}

// A zone of 4096 bytes with a signature, these words and these data.
pub(crate) fn ring(
    alloc: Global,
    start: u32,
    size: u32,
    data: &[u8],
) -> Result<Vec<u8>, AllocError> {
    let mut image = Vec::from_elem(alloc, 0u8, 4096)?;
    put(image.as_mut_slice(), 0, SIGNATURE.as_slice());
    put(image.as_mut_slice(), 4, start.to_le_bytes().as_slice());
    put(image.as_mut_slice(), 8, size.to_le_bytes().as_slice());
    put(image.as_mut_slice(), 12, data);
    Ok(image)
}

// The same of 3 bytes, with the parity of a zone of 16 parity bytes.
pub(crate) fn abc(alloc: Global) -> Result<Vec<u8>, AllocError> {
    let mut image = ring(alloc, 3, 3, b"abc".as_slice())?;
    put(image.as_mut_slice(), 3616, PARITY_OF_ABC.as_slice());
    put(image.as_mut_slice(), 4080, PARITY_OF_3.as_slice());
    Ok(image)
}

// Whether a reading is one of this state, start and size, corrected and bad, and log.
fn is_reading(
    reading: &Reading,
    state: State,
    words: (u32, u32),
    counts: (u32, u32),
    log: &[u8],
) -> bool {
    reading.state == state
        && reading.words.start == words.0
        && reading.words.size == words.1
        && reading.corrected == counts.0
        && reading.bad == counts.1
        && reading.log.as_slice() == log
}

// Looks at how zone i of these bytes reads: its state, start and size, corrected and bad, and log.
fn assert_reads(
    rt: &(impl Abort + AllocGlobal),
    (p, i, bytes): (&Params, usize, &[u8]),
    state: State,
    words: (u32, u32),
    counts: (u32, u32),
    log: &[u8],
) {
    match reading_of(rt.alloc(), p, i, bytes) {
        Ok(reading) => assert!(rt; is_reading(&reading, state, words, counts, log)),
        Err(_) => panic!(rt; "no reading"),
    }
}

#[test]
fn a_first_record_reads(rt: HostRuntime) -> Result<(), Fail> {
    let image = ring(rt.alloc(), 3, 3, b"abc".as_slice())?;
    let bytes = image.as_slice();
    assert_reads(
        &rt,
        (&console(0), 0, bytes),
        State::Found,
        (3, 3),
        (0, 0),
        b"abc",
    );
    assert_reads(
        &rt,
        (&four(0), 3, bytes),
        State::Found,
        (3, 3),
        (0, 0),
        b"abc",
    );
    let bytes = SIGNATURE.as_slice();
    assert_reads(
        &rt,
        (&console(0), 0, bytes),
        State::Empty,
        (0, 0),
        (0, 0),
        &[],
    );
    Ok(())
}

#[test]
fn rings_are_turned(rt: HostRuntime) -> Result<(), Fail> {
    let image = ring(rt.alloc(), 2, 5, b"\x01\x02\x03\x04\x05")?;
    let log = b"\x03\x04\x05\x01\x02";
    assert_reads(
        &rt,
        (&two_cpus(), 0, &image),
        State::Found,
        (2, 5),
        (0, 0),
        log,
    );
    Ok(())
}

#[test]
fn a_full_ring_is_turned(rt: HostRuntime) -> Result<(), Fail> {
    let mut log = [0x61; 4084];
    log[4083] = 0x62;
    let mut image = ring(rt.alloc(), 1, 4084, b"b")?;
    put(image.as_mut_slice(), 13, &log[..4083]);
    let zone = (&console(0), 0, image.as_slice());
    assert_reads(&rt, zone, State::Found, (1, 4084), (0, 0), &log);
    Ok(())
}

pub(crate) const NO_RINGS: &[(u32, u32)] = &[(1, 0), (4, 3), (0, 4085), (0xffff_ffff, 0xffff_ffff)];

#[test]
fn words_that_are_no_ring_are_invalid(rt: HostRuntime) -> Result<(), Fail> {
    for (start, size) in NO_RINGS.iter().copied() {
        let image = ring(rt.alloc(), start, size, b"abc".as_slice())?;
        let zone = (&console(0), 0, image.as_slice());
        assert_reads(&rt, zone, State::Invalid, (start, size), (0, 0), &[]);
    }
    Ok(())
}

#[test]
fn a_zone_without_its_signature_reads_unsigned(rt: HostRuntime) -> Result<(), Fail> {
    assert_reads(
        &rt,
        (&console(0), 0, &[]),
        State::Unsigned,
        (0, 0),
        (0, 0),
        &[],
    );
    let most = 0xffff_ffff;
    let ones = (&console(0), 0, [0xff; 12].as_slice());
    assert_reads(&rt, ones, State::Unsigned, (most, most), (0, 0), &[]);
    // With the parity of start 0 the nearest codeword has another signature.
    let mut image = ring(rt.alloc(), 1541, 4018, &[])?;
    put(image.as_mut_slice(), 4094, b"\x9b\x24");
    let zone = (&console(2), 0, image.as_slice());
    assert_reads(&rt, zone, State::Unsigned, (1541, 4018), (1, 0), &[]);
    Ok(())
}

#[test]
fn damage_within_half_the_parity_is_corrected(rt: HostRuntime) -> Result<(), Fail> {
    // Eight flips in a block, eight in a header, a cut after the size word, and one data and three parity flips.
    let header = [0xbb, 0xbd, 0xb8, 0xbc, 0xfc, 0xff, 0xff, 0xff];
    let block = [0x60, 0x63, 0x62, 1, 1, 1, 1, 1];
    let size = [3, 0, 0, 0, 6, 0, 0, 0];
    let data = [0x60, 0x62, 0x63, 0, 0, 0, 0, 0];
    for (at, bytes, par, corrected) in [
        (0, header, 0x1f, 8),
        (12, block, 0x1f, 8),
        (4, size, 0x1f, 1),
        (12, data, 0x1e, 2),
    ] {
        let mut image = abc(rt.alloc())?;
        put(image.as_mut_slice(), at, bytes.as_slice());
        put(image.as_mut_slice(), 3616, &[par]);
        let zone = (&four(16), 2, image.as_slice());
        assert_reads(&rt, zone, State::Found, (3, 3), (corrected, 0), b"abc");
    }
    Ok(())
}

// A zone with a log of 200 bytes 61, and their parities; then these bytes at the log's front.
fn damaged_200(alloc: Global, log: &[u8], damaged: &[u8]) -> Result<Vec<u8>, AllocError> {
    let mut image = ring(alloc, 200, 200, log)?;
    put(image.as_mut_slice(), 3616, PARITY_OF_128.as_slice());
    put(image.as_mut_slice(), 3632, PARITY_OF_72.as_slice());
    put(image.as_mut_slice(), 4080, PARITY_OF_200.as_slice());
    put(image.as_mut_slice(), 12, damaged);
    Ok(image)
}

#[test]
fn nine_flips_in_a_block_are_not_corrected(rt: HostRuntime) -> Result<(), Fail> {
    let mut log = [0x61; 200];
    let damaged = [0x60, 0x9e, 0x6a, 0x30, 0x57, 0x8e, 0xcc, 0xa9, 0x79];
    let image = damaged_200(rt.alloc(), &log, damaged.as_slice())?;
    put(log.as_mut_slice(), 0, damaged.as_slice());
    let zone = (&four(16), 2, image.as_slice());
    assert_reads(&rt, zone, State::Found, (200, 200), (0, 1), &log);
    Ok(())
}

// How zone i of these bytes reads, and its parts.
fn parts_of(
    alloc: Global,
    p: &Params,
    i: usize,
    bytes: &[u8],
) -> Result<(Reading, ZoneParts), AllocError> {
    let (layout, spans) = image(alloc, p, i, bytes)?;
    read_with_parts(alloc, &layout, &spans, i)
}

// Two blocks that read, the first with one wrong byte; the header as it stands.
#[test]
fn parts_as_they_read(rt: HostRuntime) -> Result<(), Fail> {
    let log = [0x61; 200];
    let bytes = damaged_200(rt.alloc(), &log, &[0x60])?;
    let (reading, parts) = parts_of(rt.alloc(), &four(16), 2, bytes.as_slice())?;
    let blocks = [PartState::Read(1), PartState::Read(0)];
    assert!(rt;
        is_reading(&reading, State::Found, (200, 200), (1, 0), &log)
            && parts.header == PartState::Read(0)
            && parts.blocks.as_slice() == blocks.as_slice()
    );
    Ok(())
}

fn is_kept(
    alloc: Global,
    kind: Kind,
    state: State,
    start: u32,
    size: u32,
    log: &[u8],
) -> Result<bool, AllocError> {
    let zone = Zone {
        name: ZoneName { kind, index: 0 },
        at: 0,
        size: 4096,
        cap: 4084,
        blocks: 32,
        parity: 0,
        sig: 0x4347_4244,
        block: 128,
        byte_order: ByteOrder::Little,
    };
    let words = Words {
        sig: 0x4347_4244,
        start,
        size,
    };
    let reading = Reading {
        state,
        words,
        log: Bytes::copy_of(alloc, log)?,
        corrected: 0,
        bad: 0,
    };
    Ok(keeps(&zone, &reading))
}

fn assert_kept(
    rt: &(impl Abort + AllocGlobal),
    kind: Kind,
    state: State,
    (start, size): (u32, u32),
    log: &[u8],
    kept: bool,
) {
    assert!(rt; is_kept(rt.alloc(), kind, state, start, size, log).expect(rt, "no memory") == kept);
}

#[test]
fn a_dump_with_its_line_is_kept(rt: HostRuntime) {
    let line = b"====1700000001.000000-D\ntwo".as_slice();
    assert_kept(&rt, Kind::Dump, State::Found, (27, 27), line, true);
    assert_kept(&rt, Kind::Dump, State::Found, (4084, 4084), line, true);
    assert_kept(&rt, Kind::Dump, State::Found, (15, 15), &[0; 15], false);
    assert_kept(&rt, Kind::Dump, State::Invalid, (4, 3), &[], false);
    assert_kept(&rt, Kind::Console, State::Found, (27, 27), line, false);
    assert_kept(&rt, Kind::Pmsg, State::Found, (27, 27), line, false);
}

const FTRACE_RINGS: &[(u32, u32, bool)] = &[
    (48, 48, true),
    (7, 4084, true),
    (2, 5, false),
    (4084, 4084, false),
];

#[test]
fn an_ftrace_ring_that_is_open_is_kept(rt: HostRuntime) {
    for (start, size, kept) in FTRACE_RINGS.iter().copied() {
        assert_kept(&rt, Kind::Ftrace, State::Found, (start, size), &[], kept);
    }
    for kind in [Kind::Dump, Kind::Console, Kind::Ftrace, Kind::Pmsg] {
        assert_kept(&rt, kind, State::Empty, (0, 0), &[], true);
        assert_kept(&rt, kind, State::Unsigned, (0, 0), &[], false);
    }
}

// One store of up to four bytes.
#[derive(Clone, Copy)]
struct Store {
    at: usize,
    bytes: [u8; 4],
    len: usize,
}

fn word(at: usize, bytes: [u8; 4]) -> Store {
    Store { at, bytes, len: 4 }
}

fn byte(at: usize, b: u8) -> Store {
    Store {
        at,
        bytes: [b, 0, 0, 0],
        len: 1,
    }
}

// These stores, and then an erasure's: its words, and the parity of the header, 16 bytes or none.
fn erased_behind(
    alloc: Global,
    first: &[Store],
    has_parity: bool,
) -> Result<Vec<Store>, AllocError> {
    let mut stores = Vec::from_slice(alloc, first)?;
    stores.push(word(4, [0; 4]))?;
    stores.push(word(8, [0; 4]))?;
    if has_parity {
        for (k, b) in PARITY_OF_0.iter().enumerate() {
            stores.push(byte(4080_usize.wrapping_add(k), *b))?;
        }
    }
    Ok(stores)
}

// The image after the first `limit` of these stores.
fn after(alloc: Global, bytes: &[u8], stores: &[Store], limit: u64) -> Result<Vec<u8>, AllocError> {
    let mut image = Vec::from_slice(alloc, bytes)?;
    for (k, store) in stores.iter().enumerate() {
        if (k as u64) < limit && store.len <= 4 {
            put(image.as_mut_slice(), store.at, &store.bytes[..store.len]);
        }
    }
    Ok(image)
}

// Whether zone i, of these 4096 bytes, has these stores, the first of them corrections, at each limit.
fn boots_with(
    alloc: Global,
    p: &Params,
    i: usize,
    bytes: &[u8],
    fixes: u64,
    stores: &[Store],
) -> Result<bool, AllocError> {
    let all = stores.len() as u64;
    for limit in 0..30 {
        let (settled, image) = settled(alloc, p, i, bytes, limit)?;
        let wanted = after(alloc, bytes, stores, limit)?;
        if settled.made != limit.min(all)
            || settled.all != all
            || settled.erase_at != fixes
            || image.as_slice() != wanted.as_slice()
        {
            return Ok(false);
        }
    }
    Ok(true)
}

fn assert_boots(
    rt: &(impl Abort + AllocGlobal),
    (p, i, bytes): (&Params, usize, &[u8]),
    fixes: u64,
    stores: &[Store],
) {
    assert!(rt; boots_with(rt.alloc(), p, i, bytes, fixes, stores).expect(rt, "no zone"));
}

#[test]
fn boots_without_parity_are_cut(rt: HostRuntime) -> Result<(), Fail> {
    let alloc = rt.alloc();
    let signed = erased_behind(alloc, &[word(0, SIGNATURE)], false)?;
    assert_boots(&rt, (&console(0), 0, &[0; 4096]), 0, signed.as_slice());
    let erased = erased_behind(alloc, &[], false)?;
    let found = ring(alloc, 3, 3, b"abc".as_slice())?;
    assert_boots(
        &rt,
        (&console(0), 0, found.as_slice()),
        0,
        erased.as_slice(),
    );
    let empty = ring(alloc, 0, 0, b"abc".as_slice())?;
    assert_boots(&rt, (&console(0), 0, empty.as_slice()), 0, &[]);
    Ok(())
}

#[test]
fn a_kept_dump_has_no_stores(rt: HostRuntime) -> Result<(), Fail> {
    let alloc = rt.alloc();
    let kept = ring(alloc, 27, 27, b"====1700000001.000000-D\ntwo".as_slice())?;
    assert_boots(&rt, (&four(0), 1, kept.as_slice()), 0, &[]);
    let erased = erased_behind(alloc, &[], false)?;
    let lineless = ring(alloc, 15, 15, &[0; 15])?;
    assert_boots(
        &rt,
        (&four(0), 0, lineless.as_slice()),
        0,
        erased.as_slice(),
    );
    Ok(())
}

#[test]
fn boots_with_parity_are_cut(rt: HostRuntime) -> Result<(), Fail> {
    let alloc = rt.alloc();
    let erased = erased_behind(alloc, &[], true)?;
    assert!(rt; erased.len() == 18);
    let mut image = abc(alloc)?;
    assert_boots(&rt, (&four(16), 2, image.as_slice()), 0, erased.as_slice());
    put(image.as_mut_slice(), 8, &[6]);
    let stores = erased_behind(alloc, &[byte(8, 3)], true)?;
    assert_boots(&rt, (&four(16), 2, image.as_slice()), 1, stores.as_slice());
    Ok(())
}

#[test]
fn eight_flips_are_stored_and_parity_is_not(rt: HostRuntime) -> Result<(), Fail> {
    let mut flipped = abc(rt.alloc())?;
    put(flipped.as_mut_slice(), 12, &[0x60, 0x63, 0x62, 1, 1, 1, 1]);
    put(flipped.as_mut_slice(), 3616, &[0]);
    let corrected = [
        byte(12, 0x61),
        byte(13, 0x62),
        byte(14, 0x63),
        byte(15, 0),
        byte(16, 0),
        byte(17, 0),
        byte(18, 0),
    ];
    let stores = erased_behind(rt.alloc(), &corrected, true)?;
    assert_boots(
        &rt,
        (&four(16), 2, flipped.as_slice()),
        7,
        stores.as_slice(),
    );
    Ok(())
}

// The readings of the first three zones of four.
fn first_three(rt: &(impl Abort + AllocGlobal), layout: &Layout, spans: &Spans) -> Logs {
    let mut logs = Logs::new(rt.alloc(), layout).expect(rt, "no memory");
    assert!(rt; logs.len() == 0 && layout.zones().len() == 4);
    logs.push(read(rt.alloc(), layout, spans, 0).expect(rt, "zone 0"));
    logs.push(read(rt.alloc(), layout, spans, 1).expect(rt, "zone 1"));
    logs.push(read(rt.alloc(), layout, spans, 2).expect(rt, "zone 2"));
    logs
}

fn forget_the_third(rt: &impl Abort, logs: &mut Logs) {
    assert!(rt; logs.len() == 3 && logs.parity(0) == 16);
    assert!(rt; logs.name(1).index == 1 && logs.reading(2).is_some());
    logs.forget(2);
    assert!(rt; logs.len() == 3 && logs.reading(2).is_none() && logs.reading(1).is_some());
}

#[test]
fn readings_are_saved(rt: HostRuntime) -> Result<(), Fail> {
    let (layout, spans) = zeros(rt.alloc(), &four(16))?;
    let mut logs = first_three(&rt, &layout, &spans);
    forget_the_third(&rt, &mut logs);
    Ok(())
}
