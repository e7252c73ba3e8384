// Whole runs of scripts on the block store, over the objects in memory.
use crate::run_tests::{Fails, NONE, assert_untouched, has_at, is_all, left_by, outcome};
use std::process::Abort;
use std::test::Fail;

// A page of pmsg, one of console, and two of dumps.
const WORDS: &str =
    "image blk-run total_size=16384 kmsg_size=4096 console_size=4096 pmsg_size=4096";

const FIRST: &str =
    "boot\nwrite console 616263\nkdump 5 6000 D Panic 78\nboot\nlist\nextract dmesg-pstore_blk-0\n";

const FIRST_TEXT: &str = "records 2\ndmesg-pstore_blk-0 22 5.000006000\nconsole-pstore_blk-0 3\n\
    dmesg-pstore_blk-0 22\nPanic: Total 1 times\nx\n";

const SESSIONS: &[(&str, &str)] = &[
    (FIRST, FIRST_TEXT),
    ("", ""),
    (
        "boot\nwrite console 616263\ncut 5\nwrite console 6465666768\nboot\nextract console-pstore_blk-0\n",
        "console-pstore_blk-0 3\nabc\n",
    ),
    (
        "boot\nwrite console 616263\ncut 17\nwrite console 6465666768\nboot\nextract console-pstore_blk-0\n",
        "console-pstore_blk-0 8\nabcdefgh\n",
    ),
];

// Sessions with all that they put: a first one, and a write that is cut within its data and after its header.
#[test]
fn worked_sessions(rt: HostRuntime) {
    for (script, text) in SESSIONS.iter().copied() {
        let script = script.as_bytes();
        let _image = left_by(&rt, WORDS, script, &[0; 16384], NONE, 0, text.as_bytes());
    }
}

// An append to a full ring, cut after so many bytes, and what is listed.
const FULL_CUTS: &[(&str, &str)] = &[
    ("13", "records 1\nconsole-pstore_blk-0 1\n"),
    ("25", "records 1\nconsole-pstore_blk-0 4084\n"),
];

// An append to a full ring, cut after its shorter header and after its last one.
#[test]
fn a_full_ring_is_cut(rt: HostRuntime) -> Result<(), Fail> {
    let full = "61".repeat(rt.alloc(), 4084)?;
    for (cut, text) in FULL_CUTS.iter().copied() {
        let script = format!(in rt.alloc();
            "boot\nwrite console {full}\ncut {cut}\nwrite console 21\nboot\nlist\n"
        )?;
        let script = script.as_bytes();
        let _image = left_by(&rt, WORDS, script, &[0; 16384], NONE, 0, text.as_bytes());
    }
    Ok(())
}

// The bytes of each zone over an image of other bytes, and those after the store's size, which stay.
#[test]
fn zones_are_written_in_place(rt: HostRuntime) {
    let script = b"boot\nwrite console 616263\nkdump 5 6000 D Panic 78\n".as_slice();
    let dump = b"DBGC\x29\0\0\0\0\0\0\0\xe5\x3a\xfc\x4d\0\0\0\0\x05\0\0\0\0\0\0\0\
        \x70\x17\0\0\0\0\0\0\0\0\0\0\x01\0\0\0\x01\0\0\0\0\0\0\0x\0"
        .as_slice();
    let image = left_by(&rt, WORDS, script, &[0xee; 16400], NONE, 0, &[]);
    assert!(rt; has_at(&image, 0, b"CBGC\0\0\0\0\0\0\0\0\xee\xee"));
    assert!(rt; has_at(&image, 4096, b"FBGC\x03\0\0\0\x03\0\0\0abc\xee"));
    assert!(rt; has_at(&image, 8192, dump) && is_all(&image, 12288, 0xee));
}

const REFUSALS: &[(&str, &str, u8, &str)] = &[
    (
        "blk-run total_size=16384",
        "",
        2,
        "usage: oopsbox IMAGE COMMAND key=value ..\n",
    ),
    (
        "x blk-runs total_size=16384",
        "",
        2,
        "usage: oopsbox IMAGE COMMAND key=value ..\n",
    ),
    (
        "x blk-run total_size=16384 mem_size=4096",
        "",
        3,
        "parameter fault 1 at word 4\n",
    ),
    (
        "x blk-run kmsg_size=4096 kmsg_size=4096",
        "",
        3,
        "parameter fault 2 at word 4\n",
    ),
    (
        "x blk-run total_size=-1",
        "",
        3,
        "parameter fault 3 at word 3\n",
    ),
    ("x blk-run", "", 3, "layout fault 1\n"),
    ("x blk-run total_size=16777217", "", 3, "layout fault 3\n"),
    ("x blk-run total_size=4095", "", 3, "layout fault 9\n"),
    (
        "x blk-run total_size=4096 kmsg_size=0 console_size=0 pmsg_size=0",
        "",
        3,
        "layout fault 2\n",
    ),
    ("x blk-run total_size=4096", "", 3, "layout fault 5\n"),
    (
        "x blk-run total_size=20480 kmsg_size=4096 console_size=4096 pmsg_size=4096",
        "boot",
        4,
        "image has 16384 bytes, 20480 needed\n",
    ),
    (WORDS, "boot\nwrite console 61\nboot", 9, "bad line 3\n"),
    (WORDS, "list\n", 10, "line 1 refused: is off\n"),
    (WORDS, "\nstop\n", 10, "line 2 refused: not here\n"),
];

// Words, parameters, images and scripts that are refused: the status and the last line, and the image untouched.
#[test]
fn each_refusal_is_told(rt: HostRuntime) {
    for (line, script, status, text) in REFUSALS.iter().copied() {
        assert_untouched(&rt, line, script, &[0; 16384], status, text);
    }
}

// What the lines before a refused one put and wrote stays.
#[test]
fn a_refused_line_leaves_the_finished_ones(rt: HostRuntime) {
    let script =
        b"boot\nwrite console 616263\nlist\nwrite ftrace-0 64\nwrite console 65\n".as_slice();
    let text = b"records 0\nline 4 refused: no zone\n".as_slice();
    let image = left_by(&rt, WORDS, script, &[0; 16384], NONE, 10, text);
    assert!(rt; has_at(&image, 4096, b"FBGC\x03\0\0\0\x03\0\0\0abc\0"));
}

// Runs the first session where this call of the image fails, and tells whether there was such a call.
fn fails_at(rt: &(impl Abort + AllocGlobal), call: u32) -> Result<bool, Fail> {
    let fails = Fails {
        image: &[call],
        ..NONE
    };
    let ran = outcome(rt.alloc(), WORDS, FIRST.as_bytes(), &[0; 16384], fails)?;
    let failed = ran.status != 0;
    let (status, text) = if failed {
        (6, "image fault\n")
    } else {
        (0, FIRST_TEXT)
    };
    assert!(rt; ran.status == status && ran.text.as_slice() == text.as_bytes());
    Ok(failed)
}

// The image fails at each of its calls, until none is left that could.
#[test]
fn each_call_of_the_image_can_fail(rt: HostRuntime) -> Result<(), Fail> {
    let mut failed = 0;
    for call in 1..40 {
        if !fails_at(&rt, call)? {
            break;
        }
        failed = call;
    }
    assert!(rt; failed > 10 && failed < 39);
    Ok(())
}

// A script that fails leaves the image, and a put that fails ends the run after its line.
#[test]
fn faults_of_the_script_and_the_output_are_told(rt: HostRuntime) {
    let fails = Fails {
        script: &[3],
        ..NONE
    };
    let text = b"script fault\n".as_slice();
    let image = left_by(&rt, WORDS, FIRST.as_bytes(), &[0; 16384], fails, 5, text);
    assert!(rt; is_all(&image, 0, 0));
    let script = b"boot\nlist\nwrite console 616263\n".as_slice();
    let fails = Fails { out: &[2], ..NONE };
    let image = left_by(
        &rt,
        WORDS,
        script,
        &[0; 16384],
        fails,
        7,
        b"recor".as_slice(),
    );
    let console = b"FBGC\0\0\0\0\0\0\0\0\0\0";
    assert!(rt; has_at(&image, 0, b"CBGC") && has_at(&image, 4096, console));
}
