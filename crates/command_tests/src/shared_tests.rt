// Scripts on a shared zone.
use crate::run_tests::{NONE, left_by};
use std::alloc::{AllocError, Global};
use std::process::Abort;
use std::test::Fail;

const PLAIN: &str = "mem_size=4096 record_size=0 console_size=0 ftrace_size=4096 pmsg_size=0";

// Runs a script on an image of zeros, which only status 0 changes.
fn assert_ends(
    rt: &(impl Abort + AllocGlobal),
    words: &str,
    script: &[u8],
    status: u8,
    text: &str,
    front: &[u8],
) {
    let line = format!(in rt.alloc(); "image shared-run {words}").expect(rt, "no memory");
    let image = left_by(rt, &line, script, &[0; 4096], NONE, status, text.as_bytes());
    assert!(rt; image.starts_with(front), "the image");
}

const PARITY: &str =
    "mem_size=4096 record_size=0 console_size=0 ftrace_size=4096 pmsg_size=0 ecc_ftrace=2";

const WITHOUT: &str = "mem_size=4096 record_size=0 ftrace_size=0 pmsg_size=0";

const REFUSALS: &[(&str, &[u8], u8, &str)] = &[
    (PLAIN, b"store 0 1\n", 10, "line 1 refused: idle\n"),
    (PLAIN, b"\nboot\n", 10, "line 2 refused: not here\n"),
    (
        PLAIN,
        b"reserve 61\nstore 0 9\nstore 0 0\n",
        10,
        "line 3 refused: idle\n",
    ),
    (PLAIN, b"reserve\n", 9, "bad line 1\n"),
    (WITHOUT, b"", 3, "layout fault 12\n"),
    (PARITY, b"", 3, "layout fault 12\n"),
    ("mem_size=0", b"", 3, "layout fault 1\n"),
];

#[test]
fn two_writers_and_refusals(rt: HostRuntime) {
    let done = "shared calls 2 done 1 open 1 start 4 size 4\nopen 0 place 0 length 2 stored 1\n";
    let script = b"reserve 6161\nreserve 6262\nstore 1 2\nstore 0 1\n".as_slice();
    let front = b"DBGC\x04\0\0\0\x04\0\0\0a\0bb\0\0".as_slice();
    assert_ends(&rt, PLAIN, script, 0, done, front);
    let zeros = [0u8; 16];
    for (words, script, status, text) in REFUSALS.iter().copied() {
        assert_ends(&rt, words, script, status, text, &zeros);
    }
}

// One open byte, and all others of the ring stored.
fn crowd(alloc: Global, last: &[u8]) -> Result<Vec<u8>, AllocError> {
    let mut script = Vec::from_slice(alloc, b"reserve 61\nreserve ".as_slice())?;
    let digits = Vec::from_elem(alloc, b'6', 8166)?;
    script.extend_from_slice(&digits)?;
    script.extend_from_slice(b"\nstore 1 4083\n")?;
    script.extend_from_slice(last)?;
    Ok(script)
}

#[test]
fn a_crowded_ring(rt: HostRuntime) -> Result<(), Fail> {
    let full = crowd(rt.alloc(), b"reserve 61\n".as_slice())?;
    assert_ends(
        &rt,
        PLAIN,
        &full,
        10,
        "line 4 refused: crowded\n",
        &[0u8; 16],
    );
    let freed = crowd(rt.alloc(), b"store 0 1\nreserve 61\n".as_slice())?;
    let text = "shared calls 3 done 2 open 1 start 1 size 4084\nopen 2 place 0 length 1 stored 0\n";
    assert_ends(
        &rt,
        PLAIN,
        &freed,
        0,
        text,
        b"DBGC\x01\0\0\0\xf4\x0f\0\0af".as_slice(),
    );
    Ok(())
}
