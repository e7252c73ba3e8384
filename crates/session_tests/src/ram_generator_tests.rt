// Numbers that are drawn, and the sessions of numbers.
use crate::stores::layout_of;
use ram_generator::{Draws, generate};
use std::process::Abort;
use std::test::Fail;

#[test]
fn first_draws(rt: HostRuntime) -> Result<(), Fail> {
    let mut draws = Draws::new(0);
    let drawn = [draws.draw(1000), draws.draw(1000), draws.draw(1000)];
    assert!(rt; drawn == [563, 577, 494]);
    let bytes = draws.draw_bytes(rt.alloc(), 3)?;
    assert!(rt; bytes.len() == 3);
    Ok(())
}

const CONSOLE: &str = "mem_size=16384 record_size=0 console_size=4096 ftrace_size=0 pmsg_size=0";

const BOTH: &str = "mem_size=16384 record_size=0 console_size=4096 ftrace_size=0 pmsg_size=4096";

// A layout, a number, and the summary of its session.
const SUMMARIES: &[(&str, u32, &str)] = &[
    (
        CONSOLE,
        0,
        "make 0 zones 1 calls 95 stores 32642 flips 0 as-told 6 differs 2\n",
    ),
    (
        CONSOLE,
        1,
        "make 1 zones 1 calls 96 stores 34861 flips 0 as-told 5 differs 3\n",
    ),
    (
        BOTH,
        1,
        "make 1 zones 2 calls 134 stores 47404 flips 0 as-told 13 differs 3\n",
    ),
    (
        BOTH,
        4_294_967_295,
        "make 4294967295 zones 2 calls 125 stores 45379 flips 0 as-told 11 differs 5\n",
    ),
];

fn assert_summary(
    rt: &(impl Abort + AllocGlobal),
    line: &str,
    n: u32,
    wanted: &str,
) -> Result<(), Fail> {
    let (image, text) = generate(rt.alloc(), layout_of(rt.alloc(), line)?, n)?;
    assert!(rt; image.len() == 16384 && text.as_slice() == wanted.as_bytes());
    Ok(())
}

#[test]
fn small_sessions_are_summed_up(rt: HostRuntime) -> Result<(), Fail> {
    for (line, n, wanted) in SUMMARIES.iter().copied() {
        assert_summary(&rt, line, n, wanted)?;
    }
    Ok(())
}

// The number after a word of a summary.
fn count_of(text: &[u8], word: &str) -> Result<u32, Fail> {
    let mut is_next = false;
    for part in str::from_utf8(text)?.trim_end().split(' ') {
        if is_next {
            return Ok(part.parse::<u32>()?);
        }
        is_next = part == word;
    }
    Err(Fail::from("no such word"))
}

// A layout, the least calls of its session, and its least flips. With dump zones each of 24 turns in 8 rounds is a
// call.
const SESSIONS: &[(&str, u32, u32)] = &[
    ("mem_size=16384 ftrace_size=0 ecc=1", 192, 1),
    (
        "mem_size=4096 record_size=0 console_size=0 ftrace_size=4096 cpus=2 pmsg_size=0",
        1,
        0,
    ),
    ("mem_size=65536 record_size=4096 ecc=16", 192, 1),
];

// The summary of a session, which is the same each time.
fn summary_of(rt: &(impl Abort + AllocGlobal), line: &str) -> Result<Vec<u8>, Fail> {
    let alloc = rt.alloc();
    let (image, text) = generate(alloc, layout_of(alloc, line)?, 1)?;
    let (again, same) = generate(alloc, layout_of(alloc, line)?, 1)?;
    assert!(rt; image.as_slice() == again.as_slice() && text.as_slice() == same.as_slice());
    Ok(text)
}

// Each of eight boots has a verdict of each zone; each of eight cut appends may count.
fn assert_counts(
    rt: &impl Abort,
    text: &[u8],
    zones: usize,
    calls: u32,
    flips: u32,
) -> Result<(), Fail> {
    let named = count_of(text, "zones")?;
    let made = count_of(text, "calls")?;
    let flipped = count_of(text, "flips")?;
    let told = count_of(text, "as-told")?;
    let others = count_of(text, "differs")?;
    assert!(rt; named as usize == zones && calls <= made && made <= 200 && flips <= flipped);
    assert!(rt; told.checked_add(others) == named.checked_mul(8));
    Ok(())
}

#[test]
fn a_number_makes_one_session(rt: HostRuntime) -> Result<(), Fail> {
    for (line, calls, flips) in SESSIONS.iter().copied() {
        let text = summary_of(&rt, line)?;
        let zones = layout_of(rt.alloc(), line)?.zones().len();
        assert_counts(&rt, &text, zones, calls, flips)?;
    }
    Ok(())
}
