// Crashes of a script's kernel, and its message log.
use crate::run_tests::{Ended, Groups, NONE, joined, outcome};
use std::alloc::Global;
use std::process::Abort;
use std::test::Fail;

/// The parameters, the size of an image of zeros, the script, the status, and what the text ends with.
#[derive(Clone, Copy)]
struct Crash {
    params: &'static str,
    size: usize,
    script: Groups,
    status: u8,
    ending: &'static [u8],
}

const FOUR: &str = "mem_size=16384 ftrace_size=0";

const SMALL: &str = "mem_size=2048 record_size=512 console_size=256 ftrace_size=0 pmsg_size=0";

const CONSOLE: &str = "mem_size=4096 record_size=0 ftrace_size=0 pmsg_size=0";

const CRASHES: &[Crash] = &[
    // The first crash.
    Crash {
        params: FOUR,
        size: 16384,
        script: &[(
            b"boot\nkmsg 6f6e65\nkmsg 74776f\ncrash Panic 7 0\nstop\nboot\nlist\nextract dmesg-ramoops-0\n",
            1,
        )],
        status: 0,
        ending: b"records 1\ndmesg-ramoops-0 22 7.000000\ndmesg-ramoops-0 22\nPanic#1 Part1\none\ntwo\n\n",
    },
    // A log longer than its room: 55 lines of 10 bytes fit with the heading in 569 bytes.
    Crash {
        params: SMALL,
        size: 2048,
        script: &[
            (b"boot\n", 1),
            (b"kmsg 787878787878787878\n", 100),
            (b"crash Panic 7 0\nstop\nboot\nlist\n", 1),
        ],
        status: 0,
        ending: b"as told\nrecords 1\ndmesg-ramoops-0 564 7.000000\n",
    },
    // Lines of just the log, and one byte longer.
    Crash {
        params: FOUR,
        size: 16384,
        script: &[(b"boot\nkmsg ", 1), (b"78", 131_071), (b"\nlist\n", 1)],
        status: 0,
        ending: b"records 0\n",
    },
    Crash {
        params: FOUR,
        size: 16384,
        script: &[(b"boot\nkmsg ", 1), (b"78", 131_072), (b"\nlist\n", 1)],
        status: 10,
        ending: b"line 2 refused: too long\n",
    },
    // The second crash counts on, and has an empty line of the log too.
    Crash {
        params: FOUR,
        size: 16384,
        script: &[(
            b"boot\ncrash Emergency 1 2\nkmsg -\ncrash Oops 3 4\nstop\nboot\nextract dmesg-ramoops-1\n",
            1,
        )],
        status: 0,
        ending: b"dmesg-ramoops-1 14\nOops#2 Part1\n\n\n",
    },
    // A boot begins anew: the log is empty, and the next crash is the first.
    Crash {
        params: FOUR,
        size: 16384,
        script: &[(
            b"boot\nkmsg 61\ncrash Panic 1 0\nstop\nboot\ncrash Shutdown 2 0\nstop\nboot\nextract dmesg-ramoops-0\n",
            1,
        )],
        status: 0,
        ending: b"dmesg-ramoops-0 17\nShutdown#1 Part1\n\n",
    },
    // The causes of refusal.
    Crash {
        params: FOUR,
        size: 16384,
        script: &[(b"kmsg 61\n", 1)],
        status: 10,
        ending: b"line 1 refused: is off\n",
    },
    Crash {
        params: FOUR,
        size: 16384,
        script: &[(b"crash Panic 0 0\n", 1)],
        status: 10,
        ending: b"line 1 refused: is off\n",
    },
    Crash {
        params: CONSOLE,
        size: 4096,
        script: &[(b"boot\ncrash Panic 0 0\n", 1)],
        status: 10,
        ending: b"line 2 refused: no zone\n",
    },
    Crash {
        params: FOUR,
        size: 16384,
        script: &[(b"boot\nbegin dump 0 0 D 61\ncrash Panic 0 0\n", 1)],
        status: 10,
        ending: b"line 3 refused: busy\n",
    },
    // Lines of a shared zone.
    Crash {
        params: FOUR,
        size: 16384,
        script: &[(b"boot\nreserve 61\n", 1)],
        status: 10,
        ending: b"line 2 refused: not here\n",
    },
    Crash {
        params: FOUR,
        size: 16384,
        script: &[(b"store 0 1\n", 1)],
        status: 10,
        ending: b"line 1 refused: not here\n",
    },
];

// What the run of a crash answered, put and left.
fn outcome_of(alloc: Global, crash: &Crash) -> Result<Ended, Fail> {
    let line = format!(in alloc; "image run {}", crash.params)?;
    let script = joined(alloc, crash.script)?;
    let image = Vec::from_elem(alloc, 0u8, crash.size)?;
    outcome(alloc, &line, &script, &image, NONE)
}

fn assert_crash(rt: &(impl Abort + AllocGlobal), i: usize, crash: &Crash) -> Result<(), Fail> {
    let ran = outcome_of(rt.alloc(), crash)?;
    assert!(rt;
        ran.status == crash.status && ran.text.ends_with(crash.ending),
        "crash {i}"
    );
    Ok(())
}

#[test]
fn worked_crashes(rt: HostRuntime) -> Result<(), Fail> {
    for (i, crash) in CRASHES.iter().enumerate() {
        assert_crash(&rt, i, crash)?;
    }
    Ok(())
}
