// Whole runs over the objects in memory: what is put, what is stored and what is answered.

use commands::run;
use outside::{Bytes, Calls, MemSink, MemSource, MemStore};
use std::alloc::{AllocError, Global};
use std::process::Abort;
use std::test::Fail;

pub(crate) const CONSOLE: &str = "image run mem_size=4096 record_size=0 ftrace_size=0 pmsg_size=0";

pub(crate) const FIRST_RECORD: &str =
    "boot\nwrite console 616263\nstop\nboot\nlist\nextract console-ramoops-0\n";

pub(crate) const FIRST_TEXT: &str =
    "boot console unsigned start 0 size 0 corrected 0 bad 0 nothing told\n\
    boot console found start 3 size 3 corrected 0 bad 0 as told\n\
    records 1\nconsole-ramoops-0 3\nconsole-ramoops-0 3\nabc\n";

/// The calls that fail, of the script, the image and the output.
#[derive(Clone, Copy)]
pub(crate) struct Fails<'a> {
    pub(crate) script: &'a [u32],
    pub(crate) image: &'a [u32],
    pub(crate) out: &'a [u32],
}

pub(crate) const NONE: Fails<'static> = Fails {
    script: &[],
    image: &[],
    out: &[],
};

/// What a run answered, put and left.
#[derive(Drop)]
pub(crate) struct Ended {
    pub(crate) status: u8,
    pub(crate) text: Vec<u8>,
    pub(crate) image: Vec<u8>,
}

/// Bytes that stand so many times, one group after the other.
pub(crate) type Groups = &'static [(&'static [u8], usize)];

pub(crate) fn joined(alloc: Global, groups: Groups) -> Result<Vec<u8>, AllocError> {
    let mut bytes = Vec::new(alloc);
    for (group, times) in groups.iter().copied() {
        let all = group.repeat(alloc, times)?;
        bytes.extend_from_slice(&all)?;
    }
    Ok(bytes)
}

/// Whether these bytes stand at a place.
pub(crate) fn has_at(image: &[u8], at: usize, bytes: &[u8]) -> bool {
    match image.get(at..) {
        Some(rest) => rest.starts_with(bytes),
        None => false,
    }
}

/// Whether all bytes from a place on are this one.
pub(crate) fn is_all(image: &[u8], from: usize, byte: u8) -> bool {
    image.iter().skip(from).all(|other| *other == byte)
}

fn split_words(alloc: Global, line: &str) -> Result<Vec<String>, AllocError> {
    let mut words = Vec::new(alloc);
    for word in line.split(' ') {
        words.push(String::from_str(alloc, word)?)?;
    }
    Ok(words)
}

pub(crate) fn outcome(
    alloc: Global,
    line: &str,
    script: &[u8],
    image: &[u8],
    fails: Fails,
) -> Result<Ended, Fail> {
    outcome_by(alloc, line, script, 7, image, fails)
}

// A script that gives so many bytes a call, at least one.
fn source_of(
    alloc: Global,
    script: &[u8],
    per_call: u32,
    fails: &[u32],
) -> Result<MemSource, AllocError> {
    let text = Bytes::copy_of(alloc, script)?;
    let per_call = if per_call == 0 { 1 } else { per_call };
    Ok(MemSource::new(text, per_call, Calls::new(alloc, fails)?))
}

fn store_of(alloc: Global, image: &[u8], fails: &[u32]) -> Result<MemStore, Fail> {
    let limit = u32::try_from(image.len())?;
    let held = Bytes::copy_of(alloc, image)?;
    Ok(MemStore::new(held, limit, Calls::new(alloc, fails)?)?)
}

fn sink_of(alloc: Global, fails: &[u32]) -> Result<MemSink, AllocError> {
    MemSink::new(alloc, 100_000, Calls::new(alloc, fails)?)
}

fn gathered(alloc: Global, status: u8, text: &[u8], image: &[u8]) -> Result<Ended, Fail> {
    Ok(Ended {
        status,
        text: Vec::from_slice(alloc, text)?,
        image: Vec::from_slice(alloc, image)?,
    })
}

// The same with a script that gives so many bytes a call.
pub(crate) fn outcome_by(
    alloc: Global,
    line: &str,
    script: &[u8],
    per_call: u32,
    image: &[u8],
    fails: Fails,
) -> Result<Ended, Fail> {
    let words = split_words(alloc, line)?;
    let mut script = source_of(alloc, script, per_call, fails.script)?;
    let mut image = store_of(alloc, image, fails.image)?;
    let mut out = sink_of(alloc, fails.out)?;
    let status = run(alloc, &words, &mut script, &mut image, &mut out);
    gathered(alloc, status, out.bytes(), image.bytes())
}

fn run_to_end(
    rt: &(impl Abort + AllocGlobal),
    line: &str,
    script: &[u8],
    image: &[u8],
    fails: Fails,
) -> Ended {
    match outcome(rt.alloc(), line, script, image, fails) {
        Ok(ran) => ran,
        Err(_) => panic!(rt; "no memory"),
    }
}

/// Runs a line, looks at its status and its text, and gives the image that it leaves.
pub(crate) fn left_by(
    rt: &(impl Abort + AllocGlobal),
    line: &str,
    script: &[u8],
    image: &[u8],
    fails: Fails,
    status: u8,
    text: &[u8],
) -> Vec<u8> {
    let ran = run_to_end(rt, line, script, image, fails);
    assert!(rt;
        ran.status == status && ran.text.as_slice() == text,
        "{line}"
    );
    ran.image
}

/// The same where the image stays as it is.
pub(crate) fn assert_untouched(
    rt: &(impl Abort + AllocGlobal),
    line: &str,
    script: &str,
    image: &[u8],
    status: u8,
    text: &str,
) {
    let left = left_by(
        rt,
        line,
        script.as_bytes(),
        image,
        NONE,
        status,
        text.as_bytes(),
    );
    assert!(rt; left.as_slice() == image, "{line}");
}

#[test]
fn the_first_console_record_is_listed(rt: HostRuntime) {
    let script = FIRST_RECORD.as_bytes();
    let image = left_by(
        &rt,
        CONSOLE,
        script,
        &[0; 4096],
        NONE,
        0,
        FIRST_TEXT.as_bytes(),
    );
    assert!(rt; image.starts_with(b"DBGC\0\0\0\0\0\0\0\0abc\0".as_slice()));
}

const BIG_CONSOLE: &str =
    "image run mem_size=4096 record_size=0 ftrace_size=0 pmsg_size=0 byte_order=big";

// As the first console record, on a big-endian machine.
#[test]
fn a_big_endian_console_is_listed(rt: HostRuntime) {
    let image = left_by(
        &rt,
        BIG_CONSOLE,
        FIRST_RECORD.as_bytes(),
        &[0; 4096],
        NONE,
        0,
        FIRST_TEXT.as_bytes(),
    );
    assert!(rt; image.starts_with(b"CGBD\0\0\0\0\0\0\0\0abc\0".as_slice()));
}

// What a script and its full ring put.
fn put_by_wrapped(rt: &(impl Abort + AllocGlobal), script: &str, words: &str, last: &str) {
    let log = "a".repeat(rt.alloc(), 4083).expect(rt, "no memory");
    let text = format!(in rt.alloc();
        "boot console unsigned start 0 size 0 corrected 0 bad 0 nothing told\nboot console found {words} corrected 0 bad 0 as told\nconsole-ramoops-0 4084\n{log}{last}\n"
    ).expect(rt, "no memory");
    let _image = left_by(
        rt,
        CONSOLE,
        script.as_bytes(),
        &[0; 4096],
        NONE,
        0,
        text.as_bytes(),
    );
}

// A full ring and one byte more; and one append of more bytes than the ring holds.
#[test]
fn a_ring_wraps(rt: HostRuntime) -> Result<(), Fail> {
    let alloc = rt.alloc();
    let full = "61".repeat(alloc, 4084)?;
    let script = format!(in alloc;
        "boot\nwrite console {full}\nwrite console 62\nstop\nboot\nextract console-ramoops-0\n"
    )?;
    put_by_wrapped(&rt, &script, "start 1 size 4084", "b");
    let front = "78".repeat(alloc, 916)?;
    let long = format!(in alloc;
        "boot\nwrite console {front}{full}\nstop\nboot\nextract console-ramoops-0\n"
    )?;
    put_by_wrapped(&rt, &long, "start 0 size 4084", "a");
    Ok(())
}

const REFUSALS: &[(&str, &str, u8, &str)] = &[
    (
        "image",
        "",
        2,
        "usage: oopsbox IMAGE COMMAND key=value ..\n",
    ),
    (
        "image walk mem_size=4096",
        "",
        2,
        "usage: oopsbox IMAGE COMMAND key=value ..\n",
    ),
    (
        "x run mem_size=4096 mem_size=1",
        "",
        3,
        "parameter fault 2 at word 4\n",
    ),
    ("x run mem_size=16777217", "", 3, "layout fault 3\n"),
    (
        "x extract run mem_size=4096 mem_size=1",
        "",
        3,
        "parameter fault 2 at word 5\n",
    ),
    (
        "x make 01 mem_size=4096",
        "",
        2,
        "usage: oopsbox IMAGE COMMAND key=value ..\n",
    ),
    ("x run", "", 3, "layout fault 1\n"),
    (CONSOLE, "boot", 9, "bad line 1\n"),
    (CONSOLE, "boot\nwipe\n", 9, "bad line 2\n"),
    (
        CONSOLE,
        "write console 61\n",
        10,
        "line 1 refused: is off\n",
    ),
    (CONSOLE, "list\n", 10, "line 1 refused: is off\n"),
    (
        "x run mem_size=8192 console_size=8192 record_size=0 ftrace_size=0 pmsg_size=0",
        "",
        4,
        "image has 4096 bytes, 8192 needed\n",
    ),
];

// Words, parameters, images and scripts that are refused: the status and the last line, and the image untouched.
#[test]
fn each_refusal_is_told(rt: HostRuntime) {
    for (line, script, status, text) in REFUSALS.iter().copied() {
        assert_untouched(&rt, line, script, &[0; 4096], status, text);
    }
}

#[test]
fn a_refused_line_follows_the_finished_ones(rt: HostRuntime) {
    let script = b"boot\nextract pmsg-ramoops-0\n".as_slice();
    let text =
        b"boot console unsigned start 0 size 0 corrected 0 bad 0 nothing told\nline 2 refused: no record\n".as_slice();
    let _image = left_by(&rt, CONSOLE, script, &[0; 4096], NONE, 10, text);
}

const LAYOUTS: &[(&str, &str)] = &[
    (
        "x layout mem_size=16384 ftrace_size=0 ecc=1",
        "mem 16384 parity 16 zones 4\n\
             dump-0 at 0 size 4096 cap 3604 blocks 29\n\
             dump-1 at 4096 size 4096 cap 3604 blocks 29\n\
             console at 8192 size 4096 cap 3604 blocks 29\n\
             pmsg at 12288 size 4096 cap 3604 blocks 29\n",
    ),
    (
        "x layout mem_size=16384 ftrace_size=0 ecc=1 block_size=32 ecc_dump=0",
        "mem 16384 parity 16 zones 4\n\
             dump-0 at 0 size 4096 cap 4084 blocks 128 parity 0 block 32\n\
             dump-1 at 4096 size 4096 cap 4084 blocks 128 parity 0 block 32\n\
             console at 8192 size 4096 cap 2708 blocks 85 parity 16 block 32\n\
             pmsg at 12288 size 4096 cap 2708 blocks 85 parity 16 block 32\n",
    ),
];

// The worked layouts, each on an image of no bytes and with a script that would be refused.
#[test]
fn layouts_are_shown(rt: HostRuntime) {
    for (line, text) in LAYOUTS.iter().copied() {
        assert_untouched(&rt, line, "wipe", &[], 0, text);
    }
}

// Whether an image of sevens is zeros up to a place.
fn is_made(image: &[u8], size: usize) -> bool {
    match image.get(..size) {
        Some(front) => image.len() == 4100 && is_all(front, 0, 0) && is_all(image, size, 7),
        None => false,
    }
}

// A blank image over another, of which the bytes after stay; and one whose write fails.
#[test]
fn an_image_is_made_blank(rt: HostRuntime) {
    let line = "x blank mem_size=4096 record_size=0 ftrace_size=0 pmsg_size=0";
    let image = left_by(&rt, line, b"wipe".as_slice(), &[7; 4100], NONE, 0, &[]);
    assert!(rt; is_made(&image, 4096));
    let fails = Fails {
        image: &[1],
        ..NONE
    };
    let image = left_by(
        &rt,
        line,
        &[],
        &[7; 4100],
        fails,
        6,
        b"image fault\n".as_slice(),
    );
    assert!(rt; is_made(&image, 2048));
}
