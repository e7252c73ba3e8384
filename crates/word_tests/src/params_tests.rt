use ramoops_layout::*;
use std::alloc::{AllocError, Global};
use std::test::Fail;

fn split_words(alloc: Global, line: &str) -> Result<Vec<String>, AllocError> {
    let mut words = Vec::new(alloc);
    for word in line.split(' ') {
        if !word.is_empty() {
            words.push(String::from_str(alloc, word)?)?;
        }
    }
    Ok(words)
}

// The number of the layout's fault, 0 for none.
fn layout_fault_of(alloc: Global, line: &str) -> Result<u32, AllocError> {
    let words = split_words(alloc, line)?;
    Ok(match read_words(&words) {
        Ok(p) => match layout(alloc, &p) {
            Ok(_) => 0,
            Err(LayoutError::Fault(fault)) => fault.number(),
            Err(LayoutError::Memory) => 99,
        },
        Err(_) => 98,
    })
}

fn laid(alloc: Global, line: &str) -> Result<Option<types::Layout>, AllocError> {
    let words = split_words(alloc, line)?;
    Ok(match read_words(&words) {
        Ok(p) => layout(alloc, &p).ok(),
        Err(_) => None,
    })
}

// A zone's place, size, capacity and blocks.
fn shape(l: &types::Layout, kind: Kind, index: u32) -> Option<(u32, u32, u32, u32)> {
    let place = l.find(ZoneName { kind, index })?;
    let zone = l.zones().get(place as usize)?;
    Some((zone.at, zone.size, zone.cap, zone.blocks))
}

#[test]
fn keys_have_their_defaults(rt: HostRuntime) {
    let words = split_words(
        rt.alloc(),
        "ramoops.ecc_console=0 ramoops.ftrace_sig=0x43474244 ecc=5",
    )
    .expect(&rt, "there is memory");
    let p = read_words(&words)
        .ok()
        .expect(&rt, "the words are parameters");
    assert!(rt; (p.mem, p.dump, p.console, p.ftrace, p.pmsg) == (0, 4096, 4096, 4096, 4096));
    assert!(rt; (p.ecc, p.ecc_dump, p.ecc_console, p.ecc_ftrace, p.ecc_pmsg) == (5, 5, 0, 5, 5));
    assert!(rt; (p.cpus, p.block, p.ftrace_sig) == (1, 128, 0x43474244));
}

#[test]
fn zones_with_parity_are_laid_out(rt: HostRuntime) {
    let l = laid(rt.alloc(), "mem_size=16384 ftrace_size=0 ecc=1")
        .expect(&rt, "there is memory")
        .expect(&rt, "there is a layout");
    assert!(rt; (l.mem(), l.parity(), l.zones().len()) == (16384, 16, 4));
    assert!(rt; shape(&l, Kind::Dump, 0) == Some((0, 4096, 3604, 29)));
    assert!(rt; shape(&l, Kind::Dump, 1) == Some((4096, 4096, 3604, 29)));
    assert!(rt; shape(&l, Kind::Console, 0) == Some((8192, 4096, 3604, 29)));
    assert!(rt; shape(&l, Kind::Pmsg, 0) == Some((12288, 4096, 3604, 29)));
    assert!(rt; shape(&l, Kind::Ftrace, 0) == None);
    assert!(rt; l.zones().get(2).map(|z| z.sig) == Some(0x43474244));
    let plain = laid(rt.alloc(), "mem_size=16384 ftrace_size=0")
        .expect(&rt, "there is memory")
        .expect(&rt, "there is a layout");
    assert!(rt; shape(&plain, Kind::Console, 0) == Some((8192, 4096, 4084, 32)));
}

#[test]
fn one_mebibyte_is_laid_out(rt: HostRuntime) {
    for line in [
        "mem_size=0x100000 ecc=1",
        "ramoops.mem_size=1048576 ramoops.ecc=1",
    ] {
        let l = laid(rt.alloc(), line)
            .expect(&rt, "there is memory")
            .expect(&rt, "there is a layout");
        assert!(rt; l.zones().len() == 256);
        assert!(rt; shape(&l, Kind::Dump, 252).map(|s| s.0) == Some(1032192));
        assert!(rt; shape(&l, Kind::Console, 0).map(|s| s.0) == Some(1036288));
        assert!(rt; shape(&l, Kind::Ftrace, 0).map(|s| s.0) == Some(1040384));
        assert!(rt; shape(&l, Kind::Pmsg, 0).map(|s| s.0) == Some(1044480));
    }
}

// The region of 64 KiB of a kernel 6.12, and the same of 6.1.
#[test]
fn ftrace_and_pmsg_lie_in_the_order_given(rt: HostRuntime) {
    let sizes = "mem_size=65536 ecc=1";
    for (order, ftrace, pmsg) in [
        ("order=console,pmsg,ftrace", 61440, 57344),
        ("order=console,ftrace,pmsg", 57344, 61440),
        ("ecc_dump=16", 57344, 61440),
    ] {
        let line = format!(in rt.alloc(); "{sizes} {order}").expect(&rt, "there is memory");
        let l = laid(rt.alloc(), line.as_str())
            .expect(&rt, "there is memory")
            .expect(&rt, "there is a layout");
        assert!(rt;
            shape(&l, Kind::Console, 0).map(|s| s.0) == Some(53248),
            "by {order}"
        );
        assert!(rt;
            shape(&l, Kind::Ftrace, 0).map(|s| s.0) == Some(ftrace),
            "by {order}"
        );
        assert!(rt;
            shape(&l, Kind::Pmsg, 0).map(|s| s.0) == Some(pmsg),
            "by {order}"
        );
    }
}

#[test]
fn words_are_of_the_byte_order_given(rt: HostRuntime) {
    for (order, wanted) in [
        ("byte_order=big", ByteOrder::Big),
        ("ramoops.byte_order=little", ByteOrder::Little),
        ("ecc=2", ByteOrder::Little),
    ] {
        let line = format!(in rt.alloc(); "mem_size=16384 {order}").expect(&rt, "there is memory");
        let l = laid(rt.alloc(), line.as_str())
            .expect(&rt, "there is memory")
            .expect(&rt, "there is a layout");
        assert!(rt;
            l.zones().iter().all(|z| z.byte_order == wanted),
            "by {order}"
        );
    }
    for order in ["byte_order=BIG", "byte_order=1", "byte_order="] {
        let line = format!(in rt.alloc(); "mem_size=16384 {order}").expect(&rt, "there is memory");
        assert!(rt;
            layout_fault_of(rt.alloc(), line.as_str()) == Ok(98),
            "by {order}"
        );
    }
}

#[test]
fn odd_sizes_are_laid_out(rt: HostRuntime) {
    let l = laid(
        rt.alloc(),
        "mem_size=2048 record_size=512 console_size=256 ftrace_size=0 pmsg_size=0",
    )
    .expect(&rt, "there is memory")
    .expect(&rt, "there is a layout");
    assert!(rt; shape(&l, Kind::Dump, 0) == Some((0, 596, 584, 5)));
    assert!(rt; shape(&l, Kind::Dump, 1) == Some((596, 596, 584, 5)));
    assert!(rt; shape(&l, Kind::Dump, 2) == Some((1192, 596, 584, 5)));
    assert!(rt; shape(&l, Kind::Console, 0) == Some((1788, 256, 244, 2)));
    let whole = laid(
        rt.alloc(),
        "mem_size=2048 record_size=0 console_size=2048 ftrace_size=0 pmsg_size=0 ecc=1",
    )
    .expect(&rt, "there is memory")
    .expect(&rt, "there is a layout");
    assert!(rt; shape(&whole, Kind::Console, 0) == Some((0, 2048, 1780, 15)));
}

#[test]
fn kinds_have_their_own_parity(rt: HostRuntime) {
    let l = laid(
        rt.alloc(),
        "mem_size=16384 ftrace_size=0 ecc=1 block_size=32 ecc_dump=0",
    )
    .expect(&rt, "there is memory")
    .expect(&rt, "there is a layout");
    assert!(rt;
        (
            l.parity(),
            l.parity_of(Kind::Dump),
            l.parity_of(Kind::Ftrace)
        ) == (16, 0, 16)
    );
    assert!(rt; shape(&l, Kind::Dump, 0) == Some((0, 4096, 4084, 128)));
    assert!(rt; shape(&l, Kind::Dump, 1) == Some((4096, 4096, 4084, 128)));
    assert!(rt; shape(&l, Kind::Console, 0) == Some((8192, 4096, 2708, 85)));
    assert!(rt; shape(&l, Kind::Pmsg, 0) == Some((12288, 4096, 2708, 85)));
    assert!(rt; l.zones().first().map(|z| z.block) == Some(32));
}

#[test]
fn ftrace_zones_have_the_tag(rt: HostRuntime) {
    let l = laid(
        rt.alloc(),
        "mem_size=4096 record_size=0 console_size=0 ftrace_size=4096 cpus=2 pmsg_size=0 ftrace_sig=1",
    )
    .expect(&rt, "there is memory")
    .expect(&rt, "there is a layout");
    assert!(rt; shape(&l, Kind::Ftrace, 1) == Some((2048, 2048, 2036, 16)));
    assert!(rt; l.zones().get(1).map(|z| z.sig) == Some(0x43474245));
    assert!(rt; l.parity_of(Kind::Ftrace) == 0);
}

// `mem_size` is rounded down, unless it is taken as given: the kernel makes 11 dump zones of 141870 bytes of one and a
// half mebibytes.
#[test]
fn memory_is_rounded_or_as_given(rt: HostRuntime) -> Result<(), Fail> {
    let words = split_words(rt.alloc(), "mem_size=0x180000 record_size=0x20000")?;
    let rounded = read_words(&words).map_err(|_| "no parameters")?;
    assert!(rt; rounded.mem == 0x100000);
    let given = read_words_over(&words, &DEFAULTS).map_err(|_| "no parameters")?;
    assert!(rt; given.mem == 0x180000);
    let l = layout(rt.alloc(), &given)?;
    assert!(rt; (l.mem(), l.zones().len()) == (0x180000, 14));
    for i in 0..11u32 {
        let at = 141870u32.wrapping_mul(i);
        assert!(rt; shape(&l, Kind::Dump, i).map(|s| (s.0, s.1)) == Some((at, 141870)));
    }
    assert!(rt; shape(&l, Kind::Console, 0).map(|s| (s.0, s.1)) == Some((1560570, 4096)));
    Ok(())
}

// `ecc=1` is 16 parity bytes, and so is a kind's own 1.
#[test]
fn one_is_sixteen(rt: HostRuntime) -> Result<(), Fail> {
    let words = split_words(rt.alloc(), "ecc=1 ecc_dump=2 ecc_pmsg=1")?;
    let p = read_words(&words).map_err(|_| "no parameters")?;
    assert!(rt;
        (p.ecc, p.ecc_dump, p.ecc_console, p.ecc_ftrace, p.ecc_pmsg) == (16, 2, 16, 16, 16)
    );
    let words = split_words(rt.alloc(), "ecc=2 ecc_dump=1")?;
    let p = read_words(&words).map_err(|_| "no parameters")?;
    assert!(rt; (p.ecc, p.ecc_dump, p.ecc_pmsg) == (2, 16, 2));
    Ok(())
}

const FAULTS: &[(&str, u32)] = &[
    ("mem_size=0 console_size=0", 1),
    ("mem_size=0 console_size=0 ftrace_size=0 pmsg_size=0", 1),
    (
        "mem_size=0 record_size=0 console_size=0 ftrace_size=0 pmsg_size=0",
        1,
    ),
    (
        "mem_size=4096 record_size=0 console_size=0 ftrace_size=0 pmsg_size=0",
        2,
    ),
    (
        "mem_size=16777217 record_size=0 console_size=0 ftrace_size=0 pmsg_size=0",
        2,
    ),
    ("mem_size=16777217", 3),
    ("mem_size=16777217 ecc=128", 3),
    ("mem_size=16777216 ecc_pmsg=128 pmsg_size=0", 4),
    ("mem_size=65536 ecc=128 block_size=33", 4),
    ("mem_size=65536 block_size=33 cpus=0", 11),
    ("mem_size=16384 ftrace_size=0 ecc=1 block_size=100", 11),
    ("mem_size=65536 cpus=0 console_size=131072", 8),
    ("mem_size=65536 cpus=65", 8),
    (
        "mem_size=4096 console_size=4294967295 ftrace_size=4294967295 pmsg_size=4294967295",
        5,
    ),
    ("mem_size=16384 record_size=8192 console_size=128", 5),
    ("mem_size=16777216 record_size=1", 6),
    (
        "mem_size=4096 record_size=0 console_size=128 ftrace_size=0 pmsg_size=0",
        6,
    ),
    (
        "mem_size=4096 record_size=0 console_size=0 ftrace_size=32 cpus=64 pmsg_size=0",
        6,
    ),
    (
        "mem_size=256 record_size=0 console_size=256 ftrace_size=0 pmsg_size=0 ecc=127",
        7,
    ),
    ("mem_size=4096", 5),
    ("mem_size=16384", 0),
];

#[test]
fn each_layout_fault_comes_in_its_order(rt: HostRuntime) {
    for (line, want) in FAULTS.iter().copied() {
        assert!(rt; layout_fault_of(rt.alloc(), line) == Ok(want), "of {line}");
    }
}
