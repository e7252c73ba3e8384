// Layouts found from the bytes of small images.
use layout_search::{Known, search, search_within};
use std::alloc::{AllocError, Global};
use std::test::Fail;
use zone_spec::{ByteOrder, Order};

// The 16 parity bytes of a header with nothing in its ring, as Linux wrote them.
const FRESH_PARITY: [u8; 16] = [
    170, 37, 213, 33, 50, 226, 53, 58, 56, 85, 25, 192, 43, 203, 173, 95,
];

// The same of a big-endian machine.
const BIG_FRESH_PARITY: [u8; 16] = [
    152, 185, 121, 61, 14, 182, 245, 176, 62, 230, 59, 183, 151, 70, 126, 97,
];

/// Adds a zone of this size with this signature, nothing in its ring, and these bytes at its end.
fn add_zone(
    image: &mut Vec<u8>,
    signature: &[u8],
    size: usize,
    end: &[u8],
) -> Result<(), AllocError> {
    image.extend_from_slice(signature)?;
    for _ in 0..size.saturating_sub(end.len()).saturating_sub(4) {
        image.push(0)?;
    }
    image.extend_from_slice(end)
}

fn zones(alloc: Global, count: usize, size: usize, end: &[u8]) -> Result<Vec<u8>, AllocError> {
    let mut image = Vec::new(alloc);
    for _ in 0..count {
        add_zone(&mut image, b"DBGC", size, end)?;
    }
    Ok(image)
}

fn big_zones(alloc: Global, count: usize, size: usize, end: &[u8]) -> Result<Vec<u8>, AllocError> {
    let mut image = Vec::new(alloc);
    for _ in 0..count {
        add_zone(&mut image, b"CGBD", size, end)?;
    }
    Ok(image)
}

fn filled(alloc: Global, len: usize, text: &[u8]) -> Result<Vec<u8>, AllocError> {
    let mut image = Vec::new(alloc);
    for _ in 0..len {
        image.extend_from_slice(text)?;
    }
    Ok(image)
}

// Two zones without parity are a console and a pmsg. Two dump zones explain as much, and this is told.
#[test]
fn two_empty_zones(rt: HostRuntime) -> Result<(), Fail> {
    let image = zones(rt.alloc(), 2, 256, &[])?;
    let found = search(rt.alloc(), &image, &Known::default())?.ok_or("none")?;
    let layout = found.candidate;
    assert_eq!(rt; (layout.mem, layout.dump, layout.ftrace), (512, 0, 0));
    assert_eq!(rt; (layout.console, layout.pmsg, layout.parity), (256, 256, 0));
    assert_eq!(rt; (found.tally.faults, found.tally.fits), (0, 2));
    assert!(rt; found.taken && found.whole && found.rival.is_some());
    Ok(())
}

// Four zones of 512 bytes with 16 parity bytes: two dump zones, a console and a pmsg.
#[test]
fn parity_is_found(rt: HostRuntime) -> Result<(), Fail> {
    let image = zones(rt.alloc(), 4, 512, &FRESH_PARITY)?;
    let found = search(rt.alloc(), &image, &Known::default())?.ok_or("none")?;
    let layout = found.candidate;
    assert_eq!(rt; (layout.mem, layout.dump, layout.ftrace), (2048, 512, 0));
    assert_eq!(rt;
        (layout.console, layout.pmsg, layout.parity),
        (512, 512, 16)
    );
    assert!(rt; found.taken && found.whole);
    Ok(())
}

// What is known is kept: without a pmsg there is one dump zone more.
#[test]
fn known_words_are_kept(rt: HostRuntime) -> Result<(), Fail> {
    let image = zones(rt.alloc(), 4, 512, &FRESH_PARITY)?;
    let known = Known {
        pmsg: Some(0),
        ..Known::default()
    };
    let found = search(rt.alloc(), &image, &known)?.ok_or("none")?;
    let layout = found.candidate;
    assert_eq!(rt; (layout.dump, layout.console, layout.pmsg), (512, 512, 0));
    assert_eq!(rt; layout.parity, 16);
    Ok(())
}

// A console and a pmsg, and behind them an ftrace zone with the tag of Linux 6.12.
fn newer(alloc: Global) -> Result<Vec<u8>, AllocError> {
    let mut image = zones(alloc, 2, 256, &[])?;
    image.extend_from_slice(b"1NAC")?;
    for _ in 0..252 {
        image.push(0)?;
    }
    Ok(image)
}

// Pmsg before ftrace, as Linux 6.12 has it.
#[test]
fn pmsg_before_ftrace(rt: HostRuntime) -> Result<(), Fail> {
    let image = newer(rt.alloc())?;
    let found = search(rt.alloc(), &image, &Known::default())?.ok_or("none")?;
    let layout = found.candidate;
    assert_eq!(rt; (layout.dump, layout.console), (0, 256));
    assert_eq!(rt; (layout.ftrace, layout.pmsg), (256, 256));
    assert!(rt; layout.order == Order::PmsgFtrace);
    assert_eq!(rt; (layout.tag, layout.cpus), (0x60c75, 1));
    assert_eq!(rt; (found.tally.faults, found.tally.fits), (0, 3));
    Ok(())
}

// The known order is kept: then the zone before ftrace is the console, and that before it a dump zone.
#[test]
fn the_known_order_is_kept(rt: HostRuntime) -> Result<(), Fail> {
    let image = newer(rt.alloc())?;
    let known = Known {
        order: Some(Order::FtracePmsg),
        ..Known::default()
    };
    let found = search(rt.alloc(), &image, &known)?.ok_or("none")?;
    let layout = found.candidate;
    assert_eq!(rt; (layout.dump, layout.console), (256, 256));
    assert_eq!(rt; (layout.ftrace, layout.pmsg), (256, 0));
    assert!(rt; layout.order == Order::FtracePmsg);
    assert_eq!(rt; (found.tally.faults, found.tally.fits), (0, 3));
    Ok(())
}

// Two zones of a big-endian machine are found as those of a little-endian one are.
#[test]
fn a_big_endian_region(rt: HostRuntime) -> Result<(), Fail> {
    let image = big_zones(rt.alloc(), 2, 256, &[])?;
    let found = search(rt.alloc(), &image, &Known::default())?.ok_or("none")?;
    let layout = found.candidate;
    assert!(rt; layout.byte_order == ByteOrder::Big);
    assert_eq!(rt; (layout.mem, layout.dump, layout.ftrace), (512, 0, 0));
    assert_eq!(rt; (layout.console, layout.pmsg, layout.parity), (256, 256, 0));
    assert_eq!(rt; (found.tally.faults, found.tally.fits), (0, 2));
    assert!(rt; found.taken && found.whole && found.rival.is_some());
    Ok(())
}

// The parity of such a region is over its bytes as they stand. Without the first signature, the next tells the order.
#[test]
fn a_big_endian_region_with_parity(rt: HostRuntime) -> Result<(), Fail> {
    let mut image = big_zones(rt.alloc(), 4, 512, &BIG_FRESH_PARITY)?;
    for byte in image.iter_mut().take(4) {
        *byte = 0xff;
    }
    let found = search(rt.alloc(), &image, &Known::default())?.ok_or("none")?;
    let layout = found.candidate;
    assert!(rt; layout.byte_order == ByteOrder::Big);
    assert_eq!(rt; (layout.mem, layout.dump, layout.ftrace), (2048, 512, 0));
    assert_eq!(rt;
        (layout.console, layout.pmsg, layout.parity),
        (512, 512, 16)
    );
    assert_eq!(rt; (found.tally.faults, found.tally.fits), (1, 3));
    assert!(rt; found.taken && found.whole);
    Ok(())
}

// The tag of Linux 6.1.192 in such a region, whose ftrace zone is before the pmsg.
#[test]
fn a_big_endian_ftrace_zone(rt: HostRuntime) -> Result<(), Fail> {
    let mut image = big_zones(rt.alloc(), 1, 256, &[])?;
    add_zone(&mut image, b"\x43\x41\x43\x84", 256, &[])?;
    add_zone(&mut image, b"CGBD", 256, &[])?;
    let found = search(rt.alloc(), &image, &Known::default())?.ok_or("none")?;
    let layout = found.candidate;
    assert!(rt; layout.byte_order == ByteOrder::Big);
    assert!(rt; layout.order == Order::FtracePmsg);
    assert_eq!(rt; (layout.ftrace, layout.pmsg), (256, 256));
    assert_eq!(rt; (layout.tag, layout.cpus), (0x601c0, 1));
    assert_eq!(rt; (found.tally.faults, found.tally.fits), (0, 3));
    Ok(())
}

// The known order of bytes is kept, though nothing fits by it.
#[test]
fn the_known_order_of_bytes_is_kept(rt: HostRuntime) -> Result<(), Fail> {
    let image = big_zones(rt.alloc(), 2, 256, &[])?;
    let known = Known {
        byte_order: Some(ByteOrder::Little),
        ..Known::default()
    };
    let found = search(rt.alloc(), &image, &known)?.ok_or("none")?;
    assert!(rt; found.candidate.byte_order == ByteOrder::Little);
    assert!(rt; found.tally.fits == 0 && !found.taken);
    Ok(())
}

// Two signatures within the first zone's log are no headers of zones: two faults.
#[test]
fn two_faults_are_found(rt: HostRuntime) -> Result<(), Fail> {
    let mut image = zones(rt.alloc(), 4, 512, &FRESH_PARITY)?;
    for (at, letter) in [(100, b'D'), (101, b'B'), (200, b'D'), (201, b'B')] {
        if at < image.len() {
            image[at] = letter;
        }
    }
    let known = Known {
        ftrace: Some(0),
        parity: Some(16),
        ..Known::default()
    };
    let found = search(rt.alloc(), &image, &known)?.ok_or("none")?;
    let layout = found.candidate;
    assert_eq!(rt; (layout.mem, layout.dump, layout.console), (2048, 512, 512));
    assert_eq!(rt; (found.tally.faults, found.tally.fits), (2, 4));
    assert!(rt; found.taken && found.whole);
    Ok(())
}

// Where the words leave one layout it is the answer, and whole, though no zone of it fits.
#[test]
fn the_only_layout_is_told(rt: HostRuntime) -> Result<(), Fail> {
    let zeros = filled(rt.alloc(), 2048, &[0])?;
    let known = Known {
        mem: Some(2048),
        dump: Some(512),
        console: Some(512),
        ftrace: Some(0),
        pmsg: Some(0),
        parity: Some(16),
        ..Known::default()
    };
    let found = search(rt.alloc(), &zeros, &known)?.ok_or("none")?;
    assert_eq!(rt; (found.candidate.dump, found.candidate.parity), (512, 16));
    assert_eq!(rt; (found.tally.faults, found.tally.fits), (4, 0));
    assert!(rt; found.whole && !found.taken && found.rival.is_none());
    Ok(())
}

// A layout with more faults is no rival: without parity the last header, which has a wrong letter, is no zone's.
#[test]
fn more_faults_make_no_rival(rt: HostRuntime) -> Result<(), Fail> {
    let mut image = zones(rt.alloc(), 1, 512, &FRESH_PARITY)?;
    add_zone(&mut image, b"DBGX", 512, &FRESH_PARITY)?;
    let known = Known {
        dump: Some(0),
        console: Some(512),
        ftrace: Some(0),
        pmsg: Some(512),
        ..Known::default()
    };
    let found = search(rt.alloc(), &image, &known)?.ok_or("none")?;
    assert_eq!(rt; (found.candidate.parity, found.tally.faults), (16, 0));
    assert!(rt; found.whole && found.rival.is_none());
    Ok(())
}

// Nothing is a header, or text is full of the signature: no layout is taken.
#[test]
fn what_no_one_can_read_is_refused(rt: HostRuntime) -> Result<(), Fail> {
    let zeros = filled(rt.alloc(), 2048, &[0])?;
    let found = search(rt.alloc(), &zeros, &Known::default())?.ok_or("none")?;
    assert!(rt; !found.taken);
    let text = filled(rt.alloc(), 512, b"DBGC")?;
    let found = search(rt.alloc(), &text, &Known::default())?.ok_or("none")?;
    assert!(rt; !found.taken);
    Ok(())
}

// A file that is too short for any zone has no layout.
#[test]
fn a_short_file_has_none(rt: HostRuntime) -> Result<(), Fail> {
    let short = zones(rt.alloc(), 1, 128, &[])?;
    assert!(rt; search(rt.alloc(), &short, &Known::default())?.is_none());
    Ok(())
}

// Headers in a row, more than any layout of 1032 bytes has zones: a search with little work gives up, and one with all
// of it does not.
#[test]
fn a_little_work(rt: HostRuntime) -> Result<(), Fail> {
    let image = filled(rt.alloc(), 86, b"DBGC\0\0\0\0\0\0\0\0")?;
    let known = Known::default();
    let few = search_within(rt.alloc(), &image, &known, 1)?.ok_or("none")?;
    let all = search(rt.alloc(), &image, &known)?.ok_or("none")?;
    assert!(rt; !few.whole && all.whole);
    Ok(())
}
