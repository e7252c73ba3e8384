use script::{Line, Lines, ParseFault, parse, print};
use std::alloc::Global;
use zone_spec::{Kind, Time, ZoneName};

// What is printed of a script that is read, or the number of its bad line, or 0 where memory ran out.
fn printed(alloc: Global, script: &[u8]) -> Result<Vec<u8>, u32> {
    match parse(alloc, script) {
        Ok(lines) => match print(alloc, &lines) {
            Ok(text) => Ok(text.into_vec()),
            Err(_) => Err(0),
        },
        Err(ParseFault::BadLine(number)) => Err(number),
        Err(ParseFault::Memory) => Err(0),
    }
}

// The number of the bad line of a script, or 0 where it has none.
fn bad_line(alloc: Global, script: &[u8]) -> u32 {
    match parse(alloc, script) {
        Err(ParseFault::BadLine(number)) => number,
        _ => 0,
    }
}

#[test]
fn first_console_record(rt: HostRuntime) {
    let script = b"boot\nwrite console 616263\nstop\nboot\nlist\nextract console-ramoops-0\n";
    let text = printed(rt.alloc(), script).unwrap_or(Vec::new(rt.alloc()));
    assert!(rt; text.as_slice() == script.as_slice());
}

const FORMS: &[&str] = &[
    "",
    "write console 00ff",
    "write pmsg -",
    "write ftrace-0 61",
    "write ftrace-4294967295 61",
    "dump 0 0 D -",
    "dump 9223372036854775807 999999 C 61",
    "begin write console 61",
    "begin erase console",
    "begin erase dump-0",
    "begin erase ftrace-7",
    "begin dump 1 2 D 6162",
    "step console 0",
    "step dump-4294967295 4294967295",
    "finish pmsg",
    "stop",
    "flip 0 1",
    "flip 4294967295 255",
    "boot",
    "boot 0",
    "boot 4294967295",
    "list",
    "extract !~",
    "extract console-ramoops-0",
    "erase dmesg-ramoops-0",
    "kdump 5 6000 D Panic 78",
    "kdump 0 999999999 C Oops -",
    "kdump 0 0 D Emergency 00",
    "kdump 9223372036854775807 0 D Shutdown 00",
    "cut 0",
    "cut 4294967295",
    "kmsg -",
    "kmsg 6f6e65",
    "kmsg 00090b0dff",
    "crash Panic 0 0",
    "crash Oops 7 1",
    "crash Emergency 9223372036854775807 999999",
    "crash Shutdown 1 2",
    "reserve 00",
    "reserve 6161",
    "store 0 0",
    "store 4294967295 4294967295",
];

#[test]
fn every_form_is_printed_as_it_stands(rt: HostRuntime) {
    for line in FORMS.iter().copied() {
        let script = format!(in rt.alloc(); "{line}\n").unwrap_or(String::new(rt.alloc()));
        let text = printed(rt.alloc(), script.as_bytes()).unwrap_or(Vec::new(rt.alloc()));
        assert!(rt; text.as_slice() == script.as_bytes(), "{line}");
    }
}

const OTHERWISE: &[(&str, &str)] = &[
    ("", ""),
    ("#\n# a note, \x7e\x7f\n\n", "\n\n\n"),
    ("#write console 6\n", "\n"),
    ("write console 0aFfB0\n", "write console 0affb0\n"),
    (
        "write pmsg 0123456789abcdefABCDEF\n",
        "write pmsg 0123456789abcdefabcdef\n",
    ),
    ("kdump 1 2 C Oops AB\n", "kdump 1 2 C Oops ab\n"),
    ("kmsg 0B0d\nreserve 0A\n", "kmsg 0b0d\nreserve 0a\n"),
];

#[test]
fn what_is_printed_otherwise(rt: HostRuntime) {
    for (script, want) in OTHERWISE.iter().copied() {
        let text = printed(rt.alloc(), script.as_bytes()).unwrap_or(Vec::new(rt.alloc()));
        assert!(rt; text.as_slice() == want.as_bytes(), "{script}");
    }
}

const BAD_LINES: &[&str] = &[
    "wipe",
    " ",
    " boot",
    "boot ",
    "stop 1",
    "list 0",
    "Boot",
    "# a\ttab",
    "#\x1f",
    "write",
    "write console",
    "write  console 61",
    "write console  61",
    "write console 61 ",
    "write console ",
    "write console 6",
    "write console 616",
    "write console 6g",
    "write console g6",
    "write console /0",
    "write console 0:",
    "write console @0",
    "write console 0G",
    "write console `0",
    "write console 00000000000000000000000000000000000000000000000000000000000000000x",
    "write console x00000000000000000000000000000000000000000000000000000000000000000",
    "write console --",
    "write dump-0 61",
    "write ftrace 61",
    "write ftrace- 61",
    "write ftrace-00 61",
    "write ftrace-01 61",
    "write ftrace-+1 61",
    "write ftrace-4294967296 61",
    "write console-0 61",
    "write Console 61",
    "dump 01 0 D -",
    "dump 9223372036854775808 0 D -",
    "dump 18446744073709551616 0 D -",
    "dump 0 1000000 D -",
    "dump 0 00 D -",
    "dump 0 0 d -",
    "dump 0 0 E -",
    "dump 0 0 D",
    "dump -1 0 D -",
    "begin",
    "begin write",
    "begin write dump-0 61",
    "begin erase",
    "begin erase dump-",
    "begin erase dump-4294967296",
    "begin stop",
    "begin dump 0 1000000 D -",
    "step console",
    "step console 01",
    "step console 4294967296",
    "step dump 0",
    "finish",
    "finish console 1",
    "flip 0",
    "flip 0 0",
    "flip 0 256",
    "flip 0 01",
    "flip 0 0x1",
    "flip 00 1",
    "flip 4294967296 1",
    "boot 01",
    "boot 4294967296",
    "boot x",
    "boot 1 2",
    "extract",
    "extract ",
    "extract a b",
    "extract \x7f",
    "erase a\tb",
    "kdump 5 6000 D Panic",
    "kdump 5 1000000000 D Panic 78",
    "kdump 5 6000 D panic 78",
    "kdump 5 6000 D Unknown 78",
    "kdump 9223372036854775808 0 D Panic 78",
    "cut",
    "cut -",
    "cut 4294967296",
    "kmsg",
    "kmsg ",
    "kmsg 6",
    "kmsg 0a",
    "kmsg 610a",
    "kmsg 0a61",
    "kmsg 61 62",
    "crash",
    "crash Panic",
    "crash Panic 0",
    "crash 1 0 0",
    "crash panic 0 0",
    "crash Unknown 0 0",
    "crash Panic 0 1000000",
    "crash Panic 9223372036854775808 0",
    "crash Panic 0 00",
    "crash Panic 0 0 0",
    "reserve",
    "reserve -",
    "reserve 6",
    "reserve 61 62",
    "store",
    "store 0",
    "store 0 01",
    "store 00 1",
    "store 4294967296 0",
    "store 0 4294967296",
    "store 0 0 0",
    "boot\r",
];

// Each line stands second, after `boot`.
#[test]
fn bad_fields(rt: HostRuntime) {
    for line in BAD_LINES.iter().copied() {
        let script = format!(in rt.alloc(); "boot\n{line}\nwipe\n").unwrap_or(String::new(
            rt.alloc(),
        ));
        assert!(rt; bad_line(rt.alloc(), script.as_bytes()) == 2, "{line}");
    }
}

const BAD_NUMBERS: &[(&str, u32)] = &[
    ("boot", 1),
    ("#", 1),
    ("boot\nstop", 2),
    ("boot\n#", 2),
    ("boot\nwipe", 2),
    ("wipe\nwipe\n", 1),
    ("\n\n\n \n", 4),
    ("\n\n#\nboot", 4),
    ("boot\n", 0),
    ("\n", 0),
    ("", 0),
];

#[test]
fn which_line_is_bad(rt: HostRuntime) {
    for (script, want) in BAD_NUMBERS.iter().copied() {
        assert!(rt; bad_line(rt.alloc(), script.as_bytes()) == want, "{script}");
    }
}

#[test]
fn values_of_fields(rt: HostRuntime) {
    let script =
        b"write ftrace-3 -\ndump 7 8 C 41\nstep dump-2 9\nflip 10 255\nkdump 5 6000 D Emergency 78\ncut 4\n";
    let Ok(lines) = parse(rt.alloc(), script) else {
        assert!(rt; false);
        return;
    };
    let as_listed = match lines.as_slice() {
        [
            Line::Write(ring, nothing),
            Line::Dump(time, true, body),
            Line::Step(zone, 9),
            Line::Flip(10, 255),
            Line::KDump(5, 6000, false, 3, _),
            Line::CutAfter(4),
        ] => {
            *ring
                == ZoneName {
                    kind: Kind::Ftrace,
                    index: 3,
                }
                && nothing.as_slice().is_empty()
                && *time == Time { secs: 7, micros: 8 }
                && body.as_slice() == b"A".as_slice()
                && *zone
                    == ZoneName {
                        kind: Kind::Dump,
                        index: 2,
                    }
        }
        _ => false,
    };
    assert!(rt; as_listed);
}

#[test]
fn values_of_messages_and_reservations(rt: HostRuntime) {
    let Ok(lines) = parse(
        rt.alloc(),
        b"kmsg 6f6e65\ncrash Oops 7 8\nreserve 6162\nstore 3 9\n",
    ) else {
        assert!(rt; false);
        return;
    };
    let as_listed = match lines.as_slice() {
        [
            Line::KMsg(message),
            Line::Crash(2, at),
            Line::Reserve(bytes),
            Line::StoreNext(3, 9),
        ] => {
            message.as_slice() == b"one".as_slice()
                && *at == Time { secs: 7, micros: 8 }
                && bytes.as_slice() == b"ab".as_slice()
        }
        _ => false,
    };
    assert!(rt; as_listed);
}

#[test]
fn lines_of_a_list(rt: HostRuntime) {
    let lines = Lines::from_vec(Vec::new(rt.alloc()));
    let text = print(rt.alloc(), &lines);
    assert!(rt; text.is_ok_and(|text| text.as_slice().is_empty()));
}
