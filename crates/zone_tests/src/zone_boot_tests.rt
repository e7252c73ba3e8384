// Zones read in place, and a boot's stores made one by one, against the readings and the stores of `prz_read`.
ghost use Rattle.std.specs.Prelude.{◌+◌, ◌≤◌, length};
ghost use Rattle.zone_spec.specs.Zones.{IsValidZone};
ghost use Rattle.rs_encode.specs.Lanes.{IsLent};

use crate::prz_read_tests::{
    NO_RINGS, abc, console, four, image, put, read, ring, settled, two_cpus,
};
use prz_ecc::Coder;
use prz_read::Reading;
use prz_region::Spans;
use ramoops_layout::Params;
use ramoops_layout::types::Layout;
use std::process::Abort;
use std::test::Fail;
use zone_boot::{Boot, BootStore, Given, copy_log, read_summary};
use zone_spec::Zone;

fn assert_summary(rt: &impl Abort, table: &[u128], image: &[u8], zone: &Zone, reading: &Reading)
    requires table { IsLent zone.now.parity table.now }
    requires valid { IsValidZone zone.now }
{
    assert!(rt; image.len() == zone.size as usize);
    let summary = read_summary(table, image, zone);
    assert!(rt; summary.state == reading.state && summary.words == reading.words);
    assert!(rt; summary.len as usize == reading.log.as_slice().len());
    assert!(rt; (summary.corrected, summary.bad) == (reading.corrected, reading.bad));
}

// Copies up to `piece` bytes of the log from this place on, and tells how many they were.
fn assert_piece(
    rt: &impl Abort,
    table: &[u128],
    image: &[u8],
    zone: &Zone,
    log: &[u8],
    from: usize,
    piece: usize,
) -> usize
    requires table { IsLent zone.now.parity table.now }
    requires valid { IsValidZone zone.now }
    ensures { from + result ≤ length log.now }
{
    assert!(rt; image.len() == zone.size as usize && piece <= 4096);
    let mut out = [0xee; 4096];
    let count = copy_log(table, image, zone, from as u64, &mut out[..piece]);
    assert!(rt; count <= piece && from <= log.len() && count <= log.len() - from);
    assert!(rt; out[..count] == log[from..from + count]);
    assert!(rt; out[count..].iter().all(|b| *b == 0xee));
    count
}

// Copies the log in pieces of this length, and once from behind its end.
fn assert_log(rt: &impl Abort, table: &[u128], image: &[u8], zone: &Zone, log: &[u8], piece: usize)
    requires table { IsLent zone.now.parity table.now }
    requires valid { IsValidZone zone.now }
{
    assert!(rt; image.len() == zone.size as usize && 0 < piece);
    let mut from = 0usize;
    for _ in 0..4100 {
        let count = assert_piece(rt, table, image, zone, log, from, piece);
        if count == 0 {
            break;
        }
        from += count;
    }
    assert!(rt; from == log.len());
    let mut out = [0xee; 16];
    assert!(rt; copy_log(table, image, zone, u64::MAX, &mut out) == 0);
}

fn hand_out(
    rt: &impl Abort,
    table: &[u128],
    image: &[u8],
    zone: &Zone,
    boot: &mut Boot,
    out: &mut BootStore,
)
    requires table { IsLent zone.now.parity table.now }
    requires valid { IsValidZone zone.now }
{
    assert!(rt; image.len() == zone.size as usize);
    boot.zone = *zone;
    assert!(rt; boot.is_kept());
    boot.next(table, image, out);
}

fn store(rt: &impl Abort, image: &mut [u8], at: usize, byte: u8) {
    assert!(rt; at < image.len());
    image[at] = byte;
}

// The zone's bytes after the first `limit` stores of the boot are these.
fn assert_settled(
    rt: &(impl Abort + AllocGlobal),
    (p, i, bytes): (&Params, usize, &[u8]),
    limit: u64,
    image: &[u8],
) {
    let (done, left) = settled(rt.alloc(), p, i, bytes, limit).expect(rt, "no zone");
    assert!(rt; done.made == limit && left.as_slice() == image);
}

// Makes the stores of an answer one by one, and looks at the zone after each.
fn make(
    rt: &(impl Abort + AllocGlobal),
    zone: (&Params, usize, &[u8]),
    image: &mut [u8],
    out: &BootStore,
    made: u64,
) {
    let place = out.place as usize;
    assert!(rt; made < 10000 && place < 5000);
    match out.given {
        Given::Word => {
            for (k, b) in out.word.to_le_bytes().iter().enumerate() {
                store(rt, image, place + k, *b);
            }
            assert_settled(rt, zone, made + 1, image);
        }
        Given::Bytes => {
            assert!(rt; !out.bytes.is_empty());
            for (k, b) in out.bytes.as_slice().iter().enumerate() {
                assert!(rt; k < 128);
                store(rt, image, place + k, *b);
                assert_settled(rt, zone, made + k as u64 + 1, image);
            }
        }
        Given::Nothing => {}
    }
}

// All stores of a boot: how many they are, and how many times some were handed out.
fn boot_whole(
    rt: &(impl Abort + AllocGlobal),
    whole: (&Params, usize, &[u8]),
    table: &[u128],
    zone: &Zone,
    image: &mut [u8],
) -> (u64, u32)
    requires table { IsLent zone.now.parity table.now }
    requires valid { IsValidZone zone.now }
{
    assert!(rt; image.len() == zone.size as usize);
    let mut boot = Boot::begin(table, image, zone);
    let mut out = BootStore::new();
    for answers in 0..400u32 {
        let made = boot.made;
        hand_out(rt, table, image, zone, &mut boot, &mut out);
        if out.is_empty() {
            assert!(rt; matches!(out.given, Given::Nothing));
            return (made, answers);
        }
        assert!(rt; boot.made >= made);
        assert!(rt; boot.made - made == out.count());
        make(rt, whole, image, &out, made);
    }
    panic!(rt; "more than 400 answers");
}

// Reads the zone, and its log in pieces of each of these lengths.
fn assert_reads(
    rt: &impl Abort,
    table: &[u128],
    now: &[u8],
    zone: &Zone,
    reading: &Reading,
    pieces: &[usize],
)
    requires table { IsLent zone.now.parity table.now }
    requires valid { IsValidZone zone.now }
{
    assert_summary(rt, table, now, zone, reading);
    for piece in pieces {
        assert_log(rt, table, now, zone, reading.log.as_slice(), *piece);
    }
}

// The length of the pieces of a short log, which is read byte by byte without a table.
fn bytewise(reading: &Reading) -> &'static [usize] {
    if reading.log.as_slice().len() < 600 {
        &[1]
    } else {
        &[]
    }
}

// Boots a copy of these bytes.
fn boot_copy(
    rt: &(impl Abort + AllocGlobal),
    whole: (&Params, usize, &[u8]),
    table: &[u128],
    zone: &Zone,
    now: &[u8],
) -> (u64, u32)
    requires table { IsLent zone.now.parity table.now }
    requires valid { IsValidZone zone.now }
{
    let mut booted = Vec::from_slice(rt.alloc(), now).expect(rt, "no memory");
    boot_whole(rt, whole, table, zone, &mut booted)
}

// Reads the zone and boots it, with and without a table. Answers how many stores the boot has, and how many times some
// were handed out.
fn same_at(
    rt: &(impl Abort + AllocGlobal),
    whole: (&Params, usize, &[u8]),
    zone: &Zone,
    now: &[u8],
    reading: &Reading,
) -> (u64, u32)
    requires { IsValidZone zone.now }
{
    let coder = Coder::new(zone);
    assert_reads(rt, &[], now, zone, reading, bytewise(reading));
    assert_reads(rt, coder.table(), now, zone, reading, &[7, 128, 4096]);
    let answer = boot_copy(rt, whole, coder.table(), zone, now);
    assert!(rt; boot_copy(rt, whole, &[], zone, now) == answer);
    answer
}

// The same of zone i.
fn same_in(
    rt: &(impl Abort + AllocGlobal),
    whole: (&Params, usize, &[u8]),
    layout: &Layout,
    spans: &Spans,
    i: usize,
    reading: &Reading,
) -> (u64, u32) {
    let zones = layout.zones();
    let all = spans.all();
    if i < zones.len() && i < all.len() {
        return same_at(rt, whole, &zones[i], all[i].bytes(), reading);
    }
    panic!(rt; "no zone");
}

// The same of zone i of this layout with these bytes at its front.
fn same(rt: &(impl Abort + AllocGlobal), p: &Params, i: usize, bytes: &[u8]) -> (u64, u32) {
    let (layout, spans) = image(rt.alloc(), p, i, bytes).expect(rt, "no image");
    let reading = read(rt.alloc(), &layout, &spans, i).expect(rt, "no reading");
    let answer = same_in(rt, (p, i, bytes), &layout, &spans, i, &reading);
    let (done, _left) = settled(rt.alloc(), p, i, bytes, u64::MAX).expect(rt, "no zone");
    assert!(rt; done.all == answer.0);
    answer
}

// The same of a ring of these words and data, whose boot has so many stores, handed out so many times.
fn assert_ring(
    rt: &(impl Abort + AllocGlobal),
    (p, i): (&Params, usize),
    (start, size): (u32, u32),
    data: &[u8],
    wanted: (u64, u32),
) {
    let image = ring(rt.alloc(), start, size, data).expect(rt, "no memory");
    assert!(rt; same(rt, p, i, &image) == wanted);
}

#[test]
fn zones_without_parity(rt: HostRuntime) {
    // A console that was found is erased by two words; an empty one is kept; one without a signature has it stored.
    let zone = (&console(0), 0);
    assert_ring(&rt, zone, (3, 3), b"abc", (2, 2));
    assert_ring(&rt, zone, (0, 0), &[], (0, 0));
    assert!(rt; same(&rt, &console(0), 0, &[]) == (3, 3));
    for words in NO_RINGS.iter().copied() {
        assert_ring(&rt, zone, words, b"abc", (2, 2));
    }
}

#[test]
fn dumps_and_traces(rt: HostRuntime) -> Result<(), Fail> {
    let line = b"====1234567890123456789.123456789-C\nxyz".as_slice();
    assert_ring(&rt, (&four(0), 0), (39, 39), line, (0, 0));
    assert_ring(&rt, (&four(0), 0), (35, 35), line, (2, 2));
    let turned = b"-C\nxy====1234567890123456789.123456789".as_slice();
    let image = ring(rt.alloc(), 5, 39, turned)?;
    same(&rt, &four(0), 1, &image);
    let entry = b"\x01\x02\x03\x04\x05".as_slice();
    assert_ring(&rt, (&two_cpus(), 0), (2, 5), entry, (2, 2));
    assert_ring(&rt, (&two_cpus(), 1), (5, 5), entry, (0, 0));
    Ok(())
}

#[test]
fn wrapped_rings(rt: HostRuntime) {
    let mut data = [0; 4084];
    for (k, b) in data.iter_mut().enumerate() {
        *b = (k % 251) as u8;
    }
    for start in [1, 127, 128, 129, 3000, 4083] {
        assert_ring(&rt, (&console(0), 0), (start, 4084), &data, (2, 2));
    }
}

#[test]
fn corrected_zones(rt: HostRuntime) -> Result<(), Fail> {
    // Eight bytes of the block that are changed, in runs; one of the header, and both.
    let mut image = abc(rt.alloc())?;
    put(&mut image, 12, b"ABC".as_slice());
    put(&mut image, 20, &[1, 2]);
    put(&mut image, 139, &[3]);
    let whole = same(&rt, &console(16), 0, &image);
    assert!(rt; whole == (6 + 2 + 16, 3 + 2 + 1));
    put(&mut image, 1, &[0xff]);
    put(&mut image, 6, &[1, 1]);
    let whole = same(&rt, &four(16), 0, &image);
    assert!(rt; whole == (9 + 2 + 16, 5 + 2 + 1));
    let whole = same(&rt, &four(16), 3, &image);
    assert!(rt; whole == (9 + 2 + 16, 5 + 2 + 1));
    Ok(())
}

#[test]
fn zones_that_cannot_be_corrected(rt: HostRuntime) -> Result<(), Fail> {
    let mut image = abc(rt.alloc())?;
    put(&mut image, 12, b"ABCABCABC".as_slice());
    let whole = same(&rt, &console(16), 0, &image);
    assert!(rt; whole == (2 + 16, 3));
    // A full ring whose blocks have no parity: few bytes are corrected to zeros, and many are not.
    let mut image = ring(rt.alloc(), 700, 3604, &[])?;
    put(&mut image, 500, b"few".as_slice());
    put(&mut image, 1300, [0x77; 300].as_slice());
    put(&mut image, 3600, &[9, 0, 9]);
    same(&rt, &console(16), 0, &image);
    // The nearest header has another signature: it is corrected, signed, and erased.
    let mut image = ring(rt.alloc(), 1541, 4018, &[])?;
    put(&mut image, 4094, b"\x9b\x24".as_slice());
    same(&rt, &console(2), 0, &image);
    // No header is near.
    assert!(rt; same(&rt, &console(16), 0, [0xff; 12].as_slice()) == (3 + 16, 4));
    Ok(())
}
