// Images that are moved to other parameters.
use crate::run_tests::{NONE, assert_untouched, left_by, outcome};
use std::process::Abort;
use std::test::Fail;

const PLAIN: &str = "mem_size=16384 ftrace_size=0";

const USAGE: &str = "usage: oopsbox IMAGE COMMAND key=value ..\n";

const WITH_PARITY: &str = "mem_size=16384 ftrace_size=0 ecc=1";

// The image that a script leaves on zeros.
fn told(rt: &(impl Abort + AllocGlobal), params: &str, script: &[u8]) -> Vec<u8> {
    let line = format!(in rt.alloc(); "image run {params}").expect(rt, "no memory");
    match outcome(rt.alloc(), &line, script, &[0; 16384], NONE) {
        Ok(ran) => ran.image,
        Err(_) => panic!(rt; "no memory"),
    }
}

// The image that a move leaves, which tells this text.
fn moved(
    rt: &(impl Abort + AllocGlobal),
    from: &str,
    to: &str,
    image: &[u8],
    text: &str,
) -> Vec<u8> {
    let line = format!(in rt.alloc(); "image move {from} to {to}").expect(rt, "no memory");
    left_by(
        rt,
        &line,
        b"wipe".as_slice(),
        image,
        NONE,
        0,
        text.as_bytes(),
    )
}

// Looks at what an image lists.
fn assert_lists(rt: &(impl Abort + AllocGlobal), params: &str, image: &[u8], text: &str) {
    let line = format!(in rt.alloc(); "image list {params}").expect(rt, "no memory");
    let _image = left_by(rt, &line, &[], image, NONE, 0, text.as_bytes());
}

// To more parity and back: the same records.
#[test]
fn records_are_moved_to_parity_and_back(rt: HostRuntime) {
    let image = told(
        &rt,
        PLAIN,
        b"boot\nwrite console 616263\ndump 5 6 D 78\nstop\n".as_slice(),
    );
    let text = "move 16384 to 16384 records 2\n\
        moved dmesg-ramoops-0 1 corrected 0 bad 0\n\
        moved console-ramoops-0 3 corrected 0 bad 0\n";
    let list = "records 2\ndmesg-ramoops-0 26 5.000006\nconsole-ramoops-0 28\n";
    let image = moved(&rt, PLAIN, WITH_PARITY, &image, text);
    assert_lists(&rt, WITH_PARITY, &image, list);
    let list = "records 2\ndmesg-ramoops-0 1 5.000006\nconsole-ramoops-0 3\n";
    let image = moved(&rt, WITH_PARITY, PLAIN, &image, text);
    assert_lists(&rt, PLAIN, &image, list);
}

// A console of all its bytes has no room where there is parity.
#[test]
fn a_record_that_does_not_fit_is_left(rt: HostRuntime) -> Result<(), Fail> {
    let full = "61".repeat(rt.alloc(), 4084)?;
    let script = format!(in rt.alloc(); "boot\nwrite console {full}\nstop\n")?;
    let image = told(&rt, PLAIN, script.as_bytes());
    let text = "move 16384 to 16384 records 1\nleft console-ramoops-0 4084 corrected 0 bad 0\n";
    let image = moved(&rt, PLAIN, WITH_PARITY, &image, text);
    assert_lists(&rt, WITH_PARITY, &image, "records 0\n");
    Ok(())
}

// Nine wrong bytes in a block of the console under parity: it is bad, and its bytes are moved as they stand.
const NINE_FLIPS: &str = "boot\nwrite console 616161616161616161616161\nstop\n\
    flip 8204 1\nflip 8205 255\nflip 8206 11\nflip 8207 81\nflip 8208 54\n\
    flip 8209 239\nflip 8210 173\nflip 8211 200\nflip 8212 24\n";

const FIRST: &str = "boot\nwrite ftrace-0 010000000000000002000000000000000005000000000000\nstop\n";

const BOTH: &str = "boot\nwrite ftrace-0 010000000000000002000000000000000005000000000000\n\
    write ftrace-1 010000000000000002000000000000000005000000000000\nstop\n";

const TWO_CPUS: &str =
    "mem_size=4096 record_size=0 console_size=0 ftrace_size=4096 pmsg_size=0 cpus=2";

const ONE_CPU: &str = "mem_size=4096 record_size=0 console_size=0 ftrace_size=4096 pmsg_size=0";

const MOVES: &[(&str, &str, &str, &str, &str)] = &[
    (
        "boot\ndump 1 0 D 61\ndump 2 0 D 62\nstop\n",
        PLAIN,
        "mem_size=16384 record_size=8192 ftrace_size=0",
        "move 16384 to 16384 records 2\nmoved dmesg-ramoops-0 1 corrected 0 bad 0\n\
                left dmesg-ramoops-1 1 corrected 0 bad 0\n",
        "records 1\ndmesg-ramoops-0 1 1.000000\n",
    ),
    (
        BOTH,
        TWO_CPUS,
        ONE_CPU,
        "move 4096 to 4096 records 1\nleft ftrace-ramoops-0 48 corrected 0 bad 0\n",
        "records 0\n",
    ),
    (
        FIRST,
        TWO_CPUS,
        ONE_CPU,
        "move 4096 to 4096 records 1\nmoved ftrace-ramoops-0 24 corrected 0 bad 0\n",
        "records 1\nftrace-ramoops-0 24\n",
    ),
    (
        NINE_FLIPS,
        WITH_PARITY,
        PLAIN,
        "move 16384 to 16384 records 1\nmoved console-ramoops-0 12 corrected 0 bad 1\n",
        "records 1\nconsole-ramoops-0 12\n",
    ),
    (
        "boot\nwrite pmsg 7071\nstop\n",
        "mem_size=8192 record_size=0 ftrace_size=0",
        PLAIN,
        "move 8192 to 16384 records 1\nmoved pmsg-ramoops-0 2 corrected 0 bad 0\n",
        "records 1\npmsg-ramoops-0 2\n",
    ),
    (
        "boot\nwrite pmsg 7071\ndump 1 0 D 61\nstop\n",
        PLAIN,
        "mem_size=8192 record_size=0 ftrace_size=0",
        "move 16384 to 8192 records 2\nleft dmesg-ramoops-0 1 corrected 0 bad 0\n\
                moved pmsg-ramoops-0 2 corrected 0 bad 0\n",
        "records 1\npmsg-ramoops-0 2\n",
    ),
];

// What is told of each record, and what a boot then lists: to fewer dump zones, from two ftrace zones to one, a bad
// block, and a larger and a smaller memory.
#[test]
fn records_follow_their_zones(rt: HostRuntime) {
    for (script, from, to, text, list) in MOVES.iter().copied() {
        let image = told(&rt, from, script.as_bytes());
        let image = moved(&rt, from, to, &image, text);
        assert_lists(&rt, to, &image, list);
    }
}

const FAULTS: &[(&str, u8, &str)] = &[
    ("x move mem_size=4096", 2, USAGE),
    ("x move to to", 2, USAGE),
    ("x move mem_size=4096 to ecc=1 to", 2, USAGE),
    (
        "x move mem_size=16777217 to ecc=x",
        3,
        "parameter fault 3 at word 5\n",
    ),
    ("x move ecc=x to ecc=y", 3, "parameter fault 3 at word 3\n"),
    (
        "x move mem_size=0 to mem_size=16777217",
        3,
        "layout fault 1\n",
    ),
    (
        "x move mem_size=16384 to mem_size=16777217",
        3,
        "layout fault 3\n",
    ),
    (
        "x move mem_size=32768 to mem_size=16384",
        4,
        "image has 16384 bytes, 32768 needed\n",
    ),
];

// Words and parameters at fault, by their places over all words, and the image untouched.
#[test]
fn both_lists_are_read_first(rt: HostRuntime) {
    for (line, status, text) in FAULTS.iter().copied() {
        assert_untouched(&rt, line, "", &[0x55; 16384], status, text);
    }
}
