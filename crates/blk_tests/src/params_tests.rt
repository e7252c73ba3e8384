use std::alloc::{AllocError, Global};
use zone_blk::*;

fn split_words(alloc: Global, line: &str) -> Result<Vec<String>, AllocError> {
    let mut words = Vec::new(alloc);
    for word in line.split(' ') {
        if !word.is_empty() {
            words.push(String::from_str(alloc, word)?)?;
        }
    }
    Ok(words)
}

// The number of the layout's fault, 0 for none, and 99 for words that are no parameters.
fn layout_fault_of(alloc: Global, line: &str) -> Result<u32, AllocError> {
    let words = split_words(alloc, line)?;
    Ok(match read_blk_words(&words) {
        Ok(p) => match blk_layout(&p) {
            Ok(_) => 0,
            Err(fault) => fault.number(),
        },
        Err(_) => 99,
    })
}

#[test]
fn keys_have_their_defaults(rt: HostRuntime) {
    let words = split_words(rt.alloc(), "console_size=0").expect(&rt, "there is memory");
    let p = read_blk_words(&words)
        .ok()
        .expect(&rt, "the words are parameters");
    assert!(rt;
        p == BlkParams {
            total: 0,
            kmsg: 65536,
            console: 0,
            pmsg: 65536,
        }
    );
}

#[test]
fn zones_lie_in_order(rt: HostRuntime) {
    let words = split_words(
        rt.alloc(),
        "total_size=16384 kmsg_size=4096 console_size=4096 pmsg_size=4096",
    )
    .expect(&rt, "there is memory");
    let p = read_blk_words(&words)
        .ok()
        .expect(&rt, "the words are parameters");
    assert!(rt;
        blk_layout(&p)
            == Ok(BlkLayout {
                total: 16384,
                kmsg: 4096,
                console: 4096,
                pmsg: 4096,
                dumps: 2,
            })
    );
}

const FAULTS: &[(&str, u32)] = &[
    ("total_size=262144", 0),
    ("total_size=131072", 0),
    ("total_size=135168", 5),
    ("total_size=0 kmsg_size=1", 1),
    ("total_size=16777217", 3),
    ("total_size=16777216", 0),
    ("total_size=4097", 9),
    ("total_size=65536 kmsg_size=4095", 9),
    ("total_size=4096 kmsg_size=0 console_size=0 pmsg_size=0", 2),
    (
        "total_size=4096 kmsg_size=0 console_size=4096 pmsg_size=4096",
        5,
    ),
    (
        "total_size=8192 kmsg_size=0 console_size=4096 pmsg_size=0",
        0,
    ),
    (
        "total_size=8192 kmsg_size=8192 console_size=4096 pmsg_size=0",
        5,
    ),
    (
        "total_size=8192 kmsg_size=8192 console_size=4096 pmsg_size=4096",
        0,
    ),
];

#[test]
fn faults_come_in_order(rt: HostRuntime) {
    for (line, want) in FAULTS.iter().copied() {
        assert!(rt; layout_fault_of(rt.alloc(), line) == Ok(want), "of {line}");
    }
}
