// Regions of two and four fresh zones in memories of zeros.
use layout_search::Known;
use memory_regions::{Unread, Watch, best, larger, marked_pages, readings, window};
use outside::{Bytes, Calls, MemStore};
use std::alloc::{AllocError, Global};
use std::test::Fail;
use zone_spec::ByteOrder;

// The 16 parity bytes of a header with nothing in its ring, as Linux wrote them.
const FRESH_PARITY: [u8; 16] = [
    170, 37, 213, 33, 50, 226, 53, 58, 56, 85, 25, 192, 43, 203, 173, 95,
];

// The same of a big-endian machine.
const BIG_FRESH_PARITY: [u8; 16] = [
    152, 185, 121, 61, 14, 182, 245, 176, 62, 230, 59, 183, 151, 70, 126, 97,
];

const PAGE: usize = 4096;

const MARK: &[u8] = b"DBGC";

#[derive(Drop)]
struct Nobody;

impl Watch for Nobody {
    fn reached(&mut self, _: u64, _: u64) {}
}

fn add_zeros(memory: &mut Vec<u8>, count: usize) -> Result<(), AllocError> {
    for _ in 0..count {
        memory.push(0)?;
    }
    Ok(())
}

// A page of zeros, so many zones of a page each, with this signature and this parity, and a page of zeros.
fn memory_of(
    alloc: Global,
    zones: usize,
    signature: &[u8; 4],
    parity: &[u8; 16],
) -> Result<Vec<u8>, AllocError> {
    let mut memory = Vec::new(alloc);
    add_zeros(&mut memory, PAGE)?;
    for _ in 0..zones {
        memory.extend_from_slice(signature)?;
        add_zeros(&mut memory, PAGE - 20)?;
        memory.extend_from_slice(parity)?;
    }
    add_zeros(&mut memory, PAGE)?;
    Ok(memory)
}

// A zone that begins with these bytes, and zeros.
fn add_zone(memory: &mut Vec<u8>, front: &[u8], size: usize) -> Result<(), AllocError> {
    let end = memory.len().saturating_add(size);
    memory.extend_from_slice(front)?;
    memory.resize(end, 0)
}

// Three dumps of 5,376 bytes, as a kernel makes them of 16,128, and a console of 256: only the first begins at a page.
fn uneven_memory(alloc: Global, fronts: &[&[u8]; 4]) -> Result<Vec<u8>, AllocError> {
    let mut memory = Vec::new(alloc);
    add_zone(&mut memory, fronts[0], 5_376)?;
    add_zone(&mut memory, fronts[1], 5_376)?;
    add_zone(&mut memory, fronts[2], 5_376)?;
    add_zone(&mut memory, fronts[3], 256)?;
    Ok(memory)
}

// The sizes that were read, and the best.
fn sizes_read(
    alloc: Global,
    known: &Known,
    bytes: &[u8],
) -> Result<(Vec<u64>, Option<u64>), AllocError> {
    let readings = readings(alloc, known, bytes)?;
    let mut sizes = Vec::new(alloc);
    for reading in &readings {
        sizes.push(reading.size)?;
    }
    let first = match best(&readings) {
        Some(reading) => Some(reading.size),
        None => None,
    };
    Ok((sizes, first))
}

fn memory(alloc: Global, zones: usize) -> Result<Vec<u8>, AllocError> {
    memory_of(alloc, zones, b"DBGC", &FRESH_PARITY)
}

fn store(alloc: Global, bytes: Vec<u8>, fails: &[u32]) -> Result<MemStore, AllocError> {
    let bytes = Bytes::from_vec(bytes);
    match u32::try_from(bytes.len()) {
        Ok(len) => MemStore::new(bytes, len, Calls::new(alloc, fails)?),
        Err(_) => Err(AllocError),
    }
}

// The pages of the four zones, told by one question for the size and one read.
#[test]
fn pages_of_zones(rt: HostRuntime) -> Result<(), Fail> {
    let mut store = store(rt.alloc(), memory(rt.alloc(), 4)?, &[3])?;
    match marked_pages(rt.alloc(), &mut store, &mut Nobody) {
        Ok(pages) => assert_eq!(rt; pages.as_slice(), [1, 2, 3, 4].as_slice()),
        Err(_) => return Err("unread".into()),
    }
    Ok(())
}

// A header at the very end counts if it is whole.
#[test]
fn a_cut_header_is_none(rt: HostRuntime) -> Result<(), Fail> {
    for (header, count) in [
        (b"DB".as_slice(), 0),
        (b"DBGC\0\0\0\0\0\0\0\0".as_slice(), 1),
    ] {
        let mut bytes = Vec::new(rt.alloc());
        add_zone(&mut bytes, &[], PAGE)?;
        bytes.extend_from_slice(header)?;
        let mut store = store(rt.alloc(), bytes, &[])?;
        match marked_pages(rt.alloc(), &mut store, &mut Nobody) {
            Ok(pages) => assert!(rt; pages.len() == count),
            Err(_) => return Err("unread".into()),
        }
    }
    Ok(())
}

// A read that fails is told.
#[test]
fn a_fault_is_told(rt: HostRuntime) -> Result<(), Fail> {
    let mut store = store(rt.alloc(), memory(rt.alloc(), 4)?, &[2])?;
    let unread = marked_pages(rt.alloc(), &mut store, &mut Nobody).err();
    assert_eq!(rt; unread, Some(Unread::Fault));
    Ok(())
}

// Two zones explain more than one, and no larger size is tried.
#[test]
fn a_region_of_two_zones(rt: HostRuntime) -> Result<(), Fail> {
    let mut store = store(rt.alloc(), memory(rt.alloc(), 2)?, &[])?;
    let Ok(bytes) = window(rt.alloc(), &mut store, PAGE as u64, 1 << 24) else {
        return Err("unread".into());
    };
    let known = Known {
        dump: Some(0),
        ftrace: Some(0),
        parity: Some(16),
        ..Known::default()
    };
    let readings = readings(rt.alloc(), &known, &bytes)?;
    let first = best(&readings).ok_or("none")?;
    assert_eq!(rt; (readings.len(), first.size), (2, 8192));
    assert!(rt; larger(&readings, &first).is_none());
    Ok(())
}

// The pages of a big-endian machine's zones are marked, and they are read in its order of bytes.
#[test]
fn a_big_endian_region(rt: HostRuntime) -> Result<(), Fail> {
    let bytes = memory_of(rt.alloc(), 2, b"CGBD", &BIG_FRESH_PARITY)?;
    let mut store = store(rt.alloc(), bytes, &[])?;
    match marked_pages(rt.alloc(), &mut store, &mut Nobody) {
        Ok(pages) => assert_eq!(rt; pages.as_slice(), [1, 2].as_slice()),
        Err(_) => return Err("unread".into()),
    }
    let Ok(bytes) = window(rt.alloc(), &mut store, PAGE as u64, 1 << 24) else {
        return Err("unread".into());
    };
    let known = Known {
        dump: Some(0),
        ftrace: Some(0),
        parity: Some(16),
        ..Known::default()
    };
    let readings = readings(rt.alloc(), &known, &bytes)?;
    let first = best(&readings).ok_or("none")?;
    assert_eq!(rt; (readings.len(), first.size), (2, 8192));
    let found = first.found.ok_or("none")?;
    assert!(rt; found.candidate.byte_order == ByteOrder::Big);
    assert_eq!(rt; (found.tally.faults, found.tally.fits), (0, 2));
    Ok(())
}

const UNEVEN: Known = Known {
    mem: None,
    dump: Some(4096),
    console: Some(256),
    ftrace: Some(0),
    pmsg: Some(0),
    parity: Some(0),
    cpus: None,
    tag: None,
    order: None,
    byte_order: None,
};

// Zones need not begin at a page: their headers tell of the size all the same.
#[test]
fn zones_that_begin_at_no_page(rt: HostRuntime) -> Result<(), Fail> {
    let bytes = uneven_memory(rt.alloc(), &[MARK, MARK, MARK, MARK])?;
    let mut store = store(rt.alloc(), Vec::from_slice(rt.alloc(), &bytes)?, &[])?;
    match marked_pages(rt.alloc(), &mut store, &mut Nobody) {
        Ok(pages) => assert!(rt; pages.as_slice() == [0].as_slice()),
        Err(_) => return Err("unread".into()),
    }
    let (sizes, first) = sizes_read(rt.alloc(), &UNEVEN, &bytes)?;
    assert!(rt; sizes.as_slice() == [4096, 8192, 16384].as_slice());
    assert!(rt; first == Some(16384));
    Ok(())
}

// The one header in the second half has a start above its size, or a damaged signature, or both.
#[test]
fn damaged_headers_at_no_page(rt: HostRuntime) -> Result<(), Fail> {
    for (console, sizes) in [
        (b"DBGC\x09".as_slice(), [4096, 8192, 16384].as_slice()),
        (b"DxxC".as_slice(), [4096, 8192, 16384].as_slice()),
        (b"DxxC\x09".as_slice(), [4096, 8192].as_slice()),
    ] {
        let bytes = uneven_memory(rt.alloc(), &[MARK, MARK, &[], console])?;
        let (read, _) = sizes_read(rt.alloc(), &UNEVEN, &bytes)?;
        assert!(rt; read.as_slice() == sizes);
    }
    Ok(())
}

// A zone that begins in the first half and whose ring ends in the second: 20,000 bytes of a console of 64 KiB.
#[test]
fn a_ring_beyond_the_half(rt: HostRuntime) -> Result<(), Fail> {
    let known = Known {
        console: None,
        dump: Some(0),
        ..UNEVEN
    };
    let mut bytes = Vec::new(rt.alloc());
    add_zone(&mut bytes, b"DBGC\x20\x4e\0\0\x20\x4e\0\0", 65_536)?;
    let (sizes, first) = sizes_read(rt.alloc(), &known, &bytes)?;
    assert!(rt; sizes.as_slice() == [4096, 32768].as_slice());
    assert!(rt; first == Some(32768));
    Ok(())
}
