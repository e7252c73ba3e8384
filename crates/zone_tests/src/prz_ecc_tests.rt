// The worked parities of a header and a block, read back from a console zone of 4096 bytes with two parity bytes:
// capacity 4018, 32 blocks of 128 bytes, the block's parity at 4030, the header's at 4094.
ghost use Rattle.std.specs.Prelude.{◌≡◌, ◌<◌, IfSome};
ghost use Rattle.zone_spec.specs.Zones.{IsValidZone};
ghost use Rattle.rs_encode.specs.Lanes.{IsLent};

use arrayvec::ArrayVec;
use prz_ecc::{
    Coder, Decoded, Fix, block_parity, excess_pair, header_parity, read_block, read_header,
};
use ramoops_layout::types::Layout;
use ramoops_layout::{Params, layout};
use std::process::Abort;
use zone_spec::{ByteOrder, Order, Zone};

const PARAMS: Params = Params {
    mem: 4096,
    dump: 0,
    console: 4096,
    ftrace: 0,
    pmsg: 0,
    ecc: 2,
    cpus: 1,
    ftrace_sig: 0,
    block: 128,
    ecc_dump: 2,
    ecc_console: 2,
    ecc_ftrace: 2,
    ecc_pmsg: 2,
    order: Order::FtracePmsg,
    byte_order: ByteOrder::Little,
};

// A record of `abc` with its parities, under this start and size.
fn image(count: u8) -> [u8; 4096] {
    let mut image = [0; 4096];
    image[..4].copy_from_slice(b"DBGC".as_slice());
    (image[4], image[8]) = (count, count);
    image[12..15].copy_from_slice(b"abc".as_slice());
    (image[4030], image[4031]) = (0xe3, 0x83);
    (image[4094], image[4095]) = (0xfb, 0xf9);
    image
}

fn zone_of(layout: &Layout) -> Option<Zone>
    ensures { IfSome result IsValidZone }
{
    match layout.zones() {
        [zone, ..] => Some(*zone),
        [] => None,
    }
}

// The console zone that these parameters lay out.
fn console(rt: &(impl Abort + AllocGlobal)) -> Zone
    ensures valid { IsValidZone result }
    ensures size { result.size ≡ 4096 }
    ensures cap { result.cap ≡ 4018 }
    ensures block { result.block ≡ 128 }
{
    let layout = match layout(rt.alloc(), &PARAMS) {
        Ok(layout) => layout,
        Err(_) => panic!(rt; "no layout"),
    };
    let zone = zone_of(&layout).expect(rt, "no zone");
    assert!(rt; (zone.size, zone.cap, zone.block) == (4096, 4018, 128));
    zone
}

fn assert_header_parity(
    rt: &impl Abort,
    table: &[u128],
    image: &[u8; 4096],
    zone: &Zone,
    out: &mut ArrayVec<u8, 127>,
    wanted: [u8; 2],
)
    requires table { IsLent zone.now.parity table.now }
    requires valid { IsValidZone zone.now }
    requires size { zone.now.size ≡ 4096 }
{
    header_parity(table, image, zone, out);
    assert!(rt; out.as_slice() == wanted.as_slice());
}

// The parity of the first block.
fn assert_block_parity(
    rt: &impl Abort,
    table: &[u128],
    image: &[u8; 4096],
    zone: &Zone,
    out: &mut ArrayVec<u8, 127>,
    wanted: [u8; 2],
)
    requires table { IsLent zone.now.parity table.now }
    requires valid { IsValidZone zone.now }
    requires size { zone.now.size ≡ 4096 }
    requires some { 0 < zone.now.cap }
{
    block_parity(table, image, zone, 0, out);
    assert!(rt; out.as_slice() == wanted.as_slice());
}

#[test]
fn parities_of_a_first_record(rt: HostRuntime) {
    let zone = console(&rt);
    let mut out = ArrayVec::new();
    let coder = Coder::new(&zone);
    let written = image(3);
    assert_header_parity(&rt, coder.table(), &written, &zone, &mut out, [0xfb, 0xf9]);
    assert_header_parity(&rt, &[], &written, &zone, &mut out, [0xfb, 0xf9]);
    assert_block_parity(&rt, coder.table(), &written, &zone, &mut out, [0xe3, 0x83]);
    assert_block_parity(&rt, &[], &written, &zone, &mut out, [0xe3, 0x83]);
    assert_header_parity(&rt, &[], &image(0), &zone, &mut out, [0xe1, 0xe3]);
}

// One place of the first block is corrected, so that it begins with `abc`.
fn assert_corrected(
    rt: &impl Abort,
    table: &[u128],
    image: &[u8; 4096],
    zone: &Zone,
    block: &mut ArrayVec<u8, 255>,
    fixes: &mut ArrayVec<Fix, 63>,
)
    requires table { IsLent zone.now.parity table.now }
    requires valid { IsValidZone zone.now }
    requires size { zone.now.size ≡ 4096 }
    requires some { 0 < zone.now.cap }
{
    let outcome = read_block(table, image, zone, 0, block, fixes);
    assert!(rt; outcome == Decoded::Fixed(1) && block.as_slice().starts_with(b"abc".as_slice()));
}

#[test]
fn a_changed_byte_is_read_as_it_was(rt: HostRuntime) {
    let zone = console(&rt);
    let mut image = image(3);
    image[13] = b'-';
    let coder = Coder::new(&zone);
    let mut fixes: ArrayVec<Fix, 63> = ArrayVec::new();
    let mut block = ArrayVec::new();
    assert_corrected(&rt, coder.table(), &image, &zone, &mut block, &mut fixes);
    block.clear();
    assert_corrected(&rt, &[], &image, &zone, &mut block, &mut fixes);
    let reading = read_header(&[], &image, &zone, &mut fixes);
    let words = (reading.words.start, reading.words.size);
    assert!(rt; reading.outcome == Decoded::Clean && words == (3, 3));
}

// Of the first three blocks only the first is no codeword.
fn assert_codewords(rt: &impl Abort, table: &[u128], image: &[u8; 4096], zone: &Zone)
    requires table { IsLent zone.now.parity table.now }
    requires valid { IsValidZone zone.now }
    requires size { zone.now.size ≡ 4096 }
    requires cap { zone.now.cap ≡ 4018 }
    requires block { zone.now.block ≡ 128 }
{
    let mut one = [0u8; 127];
    let mut other = [0u8; 127];
    let parity = zone.parity as usize;
    let (first, second) = excess_pair(
        table,
        image,
        zone,
        0,
        &mut one[..parity],
        &mut other[..parity],
    );
    assert!(rt; !first && second);
    let (first, second) = excess_pair(
        table,
        image,
        zone,
        1,
        &mut one[..parity],
        &mut other[..parity],
    );
    assert!(rt; first && second);
}

#[test]
fn a_changed_block_is_no_codeword(rt: HostRuntime) {
    let zone = console(&rt);
    let mut image = image(3);
    image[13] = b'-';
    assert_codewords(&rt, Coder::new(&zone).table(), &image, &zone);
    assert_codewords(&rt, &[], &image, &zone);
}
