ghost use Rattle.std.specs.Prelude.{◌≡◌, length};
ghost use Rattle.prz_region.specs.CutRegion.{span};

use outside::Bytes;
use prz_region::{Probe, Region, RingWords, Spans};
use ramoops_layout::{Params, layout};
use std::process::Abort;
use std::test::Fail;
use zone_spec::{ByteOrder, Kind, Order, Words, Zone, ZoneName};

fn zone(index: u32, at: u32, size: u32) -> Zone
    ensures at { result.at ≡ at }
    ensures size { result.size ≡ size }
{
    Zone {
        name: ZoneName {
            kind: Kind::Dump,
            index,
        },
        at,
        size,
        cap: 0,
        blocks: 0,
        parity: 0,
        sig: 0,
        block: 128,
        byte_order: ByteOrder::Little,
    }
}

// Three dump zones of 596 bytes, a console zone of 256 bytes, and 4 bytes of rest.
fn params() -> Params {
    Params {
        mem: 2048,
        dump: 512,
        console: 256,
        ftrace: 0,
        pmsg: 0,
        ecc: 0,
        cpus: 1,
        ftrace_sig: 0,
        block: 128,
        ecc_dump: 0,
        ecc_console: 0,
        ecc_ftrace: 0,
        ecc_pmsg: 0,
        order: Order::FtracePmsg,
        byte_order: ByteOrder::Little,
    }
}

#[test]
fn cuts_stores_and_joins(rt: HostRuntime) -> Result<(), Fail> {
    let layout = match layout(rt.alloc(), &params()) {
        Ok(layout) => layout,
        Err(_) => panic!(rt; "no layout"),
    };
    let mem = layout.mem() as usize;
    let bytes = Bytes::from_vec(Vec::from_elem(rt.alloc(), 7u8, mem)?);
    match Region::from_bytes(bytes).cut(&layout) {
        Ok(mut spans) => {
            assert_lengths(&rt, &spans);
            store_in_all(&mut spans);
            assert_stored(&rt, &spans);
            assert_joined(&rt, spans.join().into_bytes().as_slice());
        }
        Err((region, _refused)) => {
            assert!(rt; region.into_bytes().as_slice() == [7; 2048].as_slice());
            println!(rt; "cut refused")?;
        }
    }
    Ok(())
}

// The spans of the three dump zones and of the console zone.
fn assert_lengths(rt: &impl Abort, spans: &Spans)
    ensures spans { length spans.now.spans ≡ 4 }
    ensures first { length (span spans.now 0) ≡ 596 }
    ensures second { length (span spans.now 1) ≡ 596 }
    ensures third { length (span spans.now 2) ≡ 596 }
    ensures fourth { length (span spans.now 3) ≡ 256 }
{
    let all = spans.all();
    assert!(rt; all.len() == 4);
    assert!(rt; all[0].len() == 596 && all[1].len() == 596);
    assert!(rt; all[2].len() == 596 && all[3].len() == 256);
}

fn assert_stored(rt: &impl Abort, spans: &Spans)
    requires spans { length spans.now.spans ≡ 4 }
    requires second { length (span spans.now 1) ≡ 596 }
    requires fourth { length (span spans.now 3) ≡ 256 }
{
    let all = spans.all();
    assert!(rt; all[1].load(0) == 2 && all[3].word(ByteOrder::Little, 0) == 0x1234_5678);
    assert!(rt; all[3].word(ByteOrder::Big, 0) == 0x7856_3412);
    assert!(rt; all[3].bytes()[..5] == [0x78, 0x56, 0x34, 0x12, 7]);
}

fn assert_joined(rt: &impl Abort, joined: &[u8]) {
    let mut wanted = [7; 2048];
    wanted[595] = 1;
    wanted[596] = 2;
    wanted[1787] = 3;
    wanted[1788] = 0x78;
    wanted[1789] = 0x56;
    wanted[1790] = 0x34;
    wanted[1791] = 0x12;
    assert!(rt; joined == wanted.as_slice());
}

#[tactic(auto, using(prz_region::proofs::Cuts::stores))]
fn store_in_all(spans: &mut Spans)
    requires spans { length spans.old.spans ≡ 4 }
    requires first { length (span spans.old 0) ≡ 596 }
    requires second { length (span spans.old 1) ≡ 596 }
    requires third { length (span spans.old 2) ≡ 596 }
    requires fourth { length (span spans.old 3) ≡ 256 }
    ensures spans { length spans.new.spans ≡ 4 }
    ensures second { length (span spans.new 1) ≡ 596 }
    ensures fourth { length (span spans.new 3) ≡ 256 }
{
    spans.store(0, 595, 1);
    spans.store(1, 0, 2);
    spans.store(2, 595, 3);
    spans.store_word(3, 0, ByteOrder::Little, 0x1234_5678);
}

#[test]
fn cuts_an_empty_region(rt: HostRuntime) -> Result<(), Fail> {
    match Region::from_bytes(Bytes::empty(rt.alloc())).cut_zones(&[zone(0, 0, 0)]) {
        Ok(spans) => {
            assert!(rt; spans.all()[0].bytes().is_empty());
            assert!(rt; spans.join().into_bytes().as_slice().is_empty());
        }
        Err((region, _refused)) => assert!(rt; region.into_bytes().as_slice().is_empty()),
    }
    Ok(())
}

#[test]
fn fills_a_probe(rt: HostRuntime) -> Result<(), Fail> {
    let mut probe = Probe::new(rt.alloc(), 8)?;
    probe.fill(2, b"abc");
    assert!(rt; probe.span().bytes() == [0, 0, 97, 98, 99, 0, 0, 0].as_slice());
    assert!(rt; probe.span().word(ByteOrder::Little, 1) == 0x6362_6100);
    let empty = Probe::new(rt.alloc(), 0)?;
    assert!(rt; empty.span().bytes().is_empty());
    Ok(())
}

#[test]
fn log_places_wrap(rt: HostRuntime) -> Result<(), Fail> {
    let rows: [(u32, u32, &[u32]); 5] = [
        (0, 0, &[]),
        (0, 3, &[0, 1, 2]),
        (3, 3, &[0, 1, 2]),
        (2, 5, &[2, 3, 4, 0, 1]),
        (5, 5, &[0, 1, 2, 3, 4]),
    ];
    for (start, size, places) in rows {
        let words = Words {
            sig: 0,
            start,
            size,
        };
        assert!(rt; words.is_ring(5));
        let log: Vec<u32> = words.places(5).collect(rt.alloc())?;
        assert!(rt; log.as_slice() == places);
    }
    Ok(())
}
