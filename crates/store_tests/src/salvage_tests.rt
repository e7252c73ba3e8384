use outside::Bytes;
use ramoops_layout::{Params, layout};
use salvage::*;
use std::alloc::{AllocError, Global};
use std::process::Abort;
use std::test::Fail;
use zone_spec::{ByteOrder, Kind, Order, Words, ZoneName};

// Parameters with these sizes of dump, console and pmsg zones and this parity.
fn params(dump: u64, console: u64, pmsg: u64, ecc: u64) -> Params {
    Params {
        mem: 16384,
        dump,
        console,
        ftrace: 0,
        pmsg,
        ecc,
        cpus: 1,
        ftrace_sig: 0,
        block: 128,
        ecc_dump: ecc,
        ecc_console: ecc,
        ecc_ftrace: ecc,
        ecc_pmsg: ecc,
        order: Order::FtracePmsg,
        byte_order: ByteOrder::Little,
    }
}

// One console zone of 4096 bytes.
fn console(ecc: u64) -> Params {
    params(0, 4096, 0, ecc)
}

// Puts bytes at a place.
fn put(bytes: &mut [u8], at: usize, patch: &[u8]) {
    for (i, b) in patch.iter().enumerate() {
        if let Some(place) = bytes.get_mut(at.saturating_add(i)) {
            *place = *b;
        }
    }
}

// Zeros, but for these bytes at these places.
fn dump(alloc: Global, len: usize, patches: &[(usize, &[u8])]) -> Result<Bytes, AllocError> {
    let mut bytes = Vec::from_elem(alloc, 0u8, len)?;
    for (at, patch) in patches {
        put(&mut bytes, *at, patch);
    }
    Ok(Bytes::from_vec(bytes))
}

fn scan(rt: &(impl Abort + AllocGlobal), p: &Params, image: Bytes) -> Result<Scan, AllocError> {
    let layout = match layout(rt.alloc(), p) {
        Ok(layout) => layout,
        Err(_) => panic!(rt; "no layout"),
    };
    assert!(rt; image.len() <= 16_777_216, "a small dump");
    Scan::new(rt.alloc(), image, layout)
}

// A found ring of index 0 with start and size 3.
fn ring(at: u32, kind: Kind, corrected: u8) -> FoundRing {
    FoundRing {
        at,
        zone: ZoneName { kind, index: 0 },
        words: Words {
            sig: 0x43474244,
            start: 3,
            size: 3,
        },
        corrected,
    }
}

fn assert_rings(
    rt: &(impl Abort + AllocGlobal),
    p: &Params,
    len: usize,
    patches: &[(usize, &[u8])],
    want: &[FoundRing],
) {
    let image = dump(rt.alloc(), len, patches).expect(rt, "no memory");
    let mut scan = scan(rt, p, image).expect(rt, "no memory");
    for wanted in want {
        assert!(rt; scan.next() == Some(*wanted), "another ring");
    }
    assert!(rt; scan.next() == None, "more rings");
    assert!(rt; scan.next() == None, "a ring after the end");
}

const HEADER: &[u8] = &[0x44, 0x42, 0x47, 0x43, 3, 0, 0, 0, 3, 0, 0, 0];

#[test]
fn rings_without_parity(rt: HostRuntime) {
    let p = params(4096, 4096, 4096, 0);
    let empty: &[u8] = &[0x44, 0x42, 0x47, 0x43, 0, 0, 0, 0, 0, 0, 0, 0];
    let image: &[(usize, &[u8])] = &[(100, empty), (4196, empty), (8292, HEADER), (12388, empty)];
    assert_rings(&rt, &p, 16484, image, &[ring(8292, Kind::Dump, 0)]);
    // no byte, and too few for a zone
    assert_rings(&rt, &p, 0, &[], &[]);
    assert_rings(&rt, &p, 4095, &[(0, HEADER)], &[]);
    // the last even place, one past it, and an odd one
    assert_rings(&rt, &p, 4103, &[(6, HEADER)], &[ring(6, Kind::Dump, 0)]);
    assert_rings(&rt, &p, 4103, &[(8, HEADER)], &[]);
    assert_rings(&rt, &p, 4103, &[(7, HEADER)], &[]);
    // a start above the size, and a size above the capacity
    let start: &[u8] = &[0x44, 0x42, 0x47, 0x43, 4, 0, 0, 0, 3, 0, 0, 0];
    let size: &[u8] = &[0x44, 0x42, 0x47, 0x43, 3, 0, 0, 0, 0xf5, 0x0f, 0, 0];
    assert_rings(&rt, &p, 8192, &[(0, start), (512, size)], &[]);
}

#[test]
fn rings_of_two_shapes(rt: HostRuntime) {
    let p = params(0, 4096, 2048, 0);
    let both = [ring(0, Kind::Console, 0), ring(0, Kind::Pmsg, 0)];
    assert_rings(&rt, &p, 4096, &[(0, HEADER)], &both);
    // only the smaller one has room
    let small = [ring(2, Kind::Pmsg, 0)];
    assert_rings(&rt, &p, 4096, &[(2, HEADER)], &small);
}

// With two parity bytes one place is corrected.
#[test]
fn rings_with_parity(rt: HostRuntime) {
    let p = console(2);
    let parity: (usize, &[u8]) = (4094, &[0xfb, 0xf9]);
    for (at, other, corrected) in [(0usize, 0x44u8, 0u8), (0, 0x45, 1), (4, 5, 1), (6, 1, 1)] {
        let wanted = [ring(0, Kind::Console, corrected)];
        assert_rings(
            &rt,
            &p,
            4096,
            &[(0, HEADER), (at, &[other]), parity],
            &wanted,
        );
    }
    // its own parity damaged
    let wanted = [ring(0, Kind::Console, 1)];
    assert_rings(
        &rt,
        &p,
        4096,
        &[(0, HEADER), (4094, &[0xfb, 0xf8])],
        &wanted,
    );
    // two places
    for patch in [(0usize, [0x45u8, 0x43]), (3, [0x42, 2]), (4, [5, 6])] {
        assert_rings(
            &rt,
            &p,
            4096,
            &[(0, HEADER), (patch.0, &patch.1), parity],
            &[],
        );
    }
}

// The nearest codeword changes the signature.
#[test]
fn a_foreign_header_is_no_ring(rt: HostRuntime) {
    let header: &[u8] = &[0x44, 0x42, 0x47, 0x43, 5, 6, 0, 0, 178, 15, 0, 0];
    assert_rings(
        &rt,
        &console(2),
        4096,
        &[(0, header), (4094, &[155, 36])],
        &[],
    );
}

// The log of a place, or why there is none.
fn log_at(
    rt: &(impl Abort + AllocGlobal),
    scan: &Scan,
    at: u32,
    kind: Kind,
) -> Result<Reading, RingFault> {
    scan.ring_at(rt.alloc(), at, ZoneName { kind, index: 0 })
}

fn has_log(answer: Result<Reading, RingFault>, log: &[u8]) -> bool {
    match answer {
        Ok(reading) => reading.log.as_slice() == log,
        Err(_) => false,
    }
}

#[test]
fn a_place_is_read(rt: HostRuntime) -> Result<(), Fail> {
    let p = params(4096, 4096, 4096, 0);
    let image = dump(rt.alloc(), 16484, &[(8292, HEADER), (8304, b"abc")])?;
    let mut scan = scan(&rt, &p, image)?;
    assert!(rt; scan.next() == Some(ring(8292, Kind::Dump, 0)), "the ring");
    assert!(rt;
        has_log(log_at(&rt, &scan, 8292, Kind::Console), b"abc"),
        "its log"
    );
    for at in [8294, 8293, 16484, 4294967295] {
        let is_none = matches!(
            log_at(&rt, &scan, at, Kind::Console),
            Err(RingFault::NoRing)
        );
        assert!(rt; is_none, "no ring");
    }
    let is_none = matches!(
        log_at(&rt, &scan, 8292, Kind::Ftrace),
        Err(RingFault::NoZone)
    );
    assert!(rt; is_none, "no zone");
    Ok(())
}
