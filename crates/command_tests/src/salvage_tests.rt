// Rings in memory dumps.
use crate::run_tests::{Fails, NONE, assert_untouched, left_by};
use std::alloc::{AllocError, Global};
use std::process::Abort;
use std::test::Fail;

const PLAIN: &str = "mem_size=16384 ftrace_size=0";

const PARITY: &str = "mem_size=4096 record_size=0 ftrace_size=0 pmsg_size=0 ecc=2";

const TWO_SHAPES: &str = "mem_size=8192 record_size=0 ftrace_size=0 pmsg_size=2048";

const RING: &[u8] = b"DBGC\x03\0\0\0\x03\0\0\0abc";

const EMPTY: &[u8] = b"DBGC\0\0\0\0\0\0\0\0";

const USAGE: &str = "usage: oopsbox IMAGE COMMAND key=value ..\n";

// Puts bytes at a place.
fn put(bytes: &mut [u8], at: usize, patch: &[u8]) {
    for (i, b) in patch.iter().enumerate() {
        if let Some(place) = bytes.get_mut(at.saturating_add(i)) {
            *place = *b;
        }
    }
}

// Zeros, but for these bytes at these places.
fn dump(alloc: Global, len: usize, patches: &[(usize, &[u8])]) -> Result<Vec<u8>, AllocError> {
    let mut bytes = Vec::from_elem(alloc, 0u8, len)?;
    for (at, patch) in patches {
        put(&mut bytes, *at, patch);
    }
    Ok(bytes)
}

// Looks at the rings that are found in a dump.
fn assert_salvaged(rt: &(impl Abort + AllocGlobal), params: &str, image: &[u8], text: &str) {
    let line = format!(in rt.alloc(); "image salvage {params}").expect(rt, "no memory");
    assert_untouched(rt, &line, "wipe", image, 0, text);
}

// Looks at what a place of a dump reads as.
fn assert_rescued(
    rt: &(impl Abort + AllocGlobal),
    place: &str,
    params: &str,
    image: &[u8],
    status: u8,
    text: &str,
) {
    let line = format!(in rt.alloc(); "image rescue {place} {params}").expect(rt, "no memory");
    assert_untouched(rt, &line, "wipe", image, status, text);
}

const RESCUES: &[(&str, u8, &str)] = &[
    ("8292 console", 0, "abc"),
    ("8294 console", 10, "line 1 refused: no ring\n"),
    ("8293 console", 10, "line 1 refused: no ring\n"),
    ("16484 console", 10, "line 1 refused: no ring\n"),
    ("4294967295 console", 10, "line 1 refused: no ring\n"),
    ("8292 ftrace-0", 10, "line 1 refused: no zone\n"),
    ("8294 dump-2", 10, "line 1 refused: no zone\n"),
    ("08292 console", 2, USAGE),
    ("4294967296 console", 2, USAGE),
    ("8292 dump", 2, USAGE),
    ("8292 console-0", 2, USAGE),
];

// An image that stands 100 bytes behind the beginning of the dump.
#[test]
fn a_ring_at_an_odd_distance(rt: HostRuntime) -> Result<(), Fail> {
    let alloc = rt.alloc();
    let image = dump(
        alloc,
        16484,
        &[(100, EMPTY), (4196, EMPTY), (8292, RING), (12388, EMPTY)],
    )?;
    let text = "salvage rings 1\nring at 8292 shape dump-0 start 3 size 3 corrected 0\n";
    assert_salvaged(&rt, PLAIN, &image, text);
    for (place, status, text) in RESCUES.iter().copied() {
        assert_rescued(&rt, place, PLAIN, &image, status, text);
    }
    Ok(())
}

// One damaged byte is corrected, two are not.
#[test]
fn a_ring_with_a_damaged_header(rt: HostRuntime) -> Result<(), Fail> {
    let alloc = rt.alloc();
    let parity: (usize, &[u8]) = (4094, &[0xfb, 0xf9]);
    let image = dump(alloc, 4096, &[(0, RING), (0, b"E".as_slice()), parity])?;
    let text = "salvage rings 1\nring at 0 shape console start 3 size 3 corrected 1\n";
    assert_salvaged(&rt, PARITY, &image, text);
    let image = dump(alloc, 4096, &[(0, RING), (0, b"EC".as_slice()), parity])?;
    assert_salvaged(&rt, PARITY, &image, "salvage rings 0\n");
    Ok(())
}

const NONE_FOUND: &str = "salvage rings 0\n";

const LAST: &str = "salvage rings 1\nring at 2 shape pmsg start 3 size 3 corrected 0\n";

const BOTH: &str = "salvage rings 2\nring at 0 shape console start 3 size 3 corrected 0\n\
    ring at 0 shape pmsg start 3 size 3 corrected 0\n";

const SALVAGES: &[(usize, usize, &str)] = &[
    (0, 0, NONE_FOUND),
    (2047, 0, NONE_FOUND),
    (2050, 2, LAST),
    (4096, 0, BOTH),
];

#[test]
fn short_files_and_last_places(rt: HostRuntime) -> Result<(), Fail> {
    for (len, at, text) in SALVAGES.iter().copied() {
        let image = dump(rt.alloc(), len, &[(at, RING)])?;
        assert_salvaged(&rt, TWO_SHAPES, &image, text);
    }
    let place = "0 console";
    assert_rescued(&rt, place, PLAIN, &[], 10, "line 1 refused: no ring\n");
    assert_rescued(
        &rt,
        place,
        "mem_size=x",
        &[],
        3,
        "parameter fault 3 at word 5\n",
    );
    assert_untouched(&rt, "image rescue 0", "wipe", &[], 2, USAGE);
    Ok(())
}

// The file is read before anything else is looked at.
#[test]
fn a_dump_that_fails(rt: HostRuntime) -> Result<(), Fail> {
    let line = format!(in rt.alloc(); "image rescue 1 ftrace-0 {PLAIN}")?;
    for image in [[1].as_slice(), &[2]] {
        let fails = Fails { image, ..NONE };
        let _image = left_by(&rt, &line, &[], RING, fails, 6, b"image fault\n");
    }
    Ok(())
}
