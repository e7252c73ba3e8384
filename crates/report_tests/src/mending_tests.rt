// A dump and a console that hold the same lines, each damaged elsewhere.
use crate::whole_reports::{self, BARE, has, line_of, page_of, text_on};
use ramoops_layout::Params;
use region_report::{RecordReport, Report, console, newest_dump};
use std::alloc::Global;
use std::process::Abort;
use std::test::Fail;
use zone_spec::Name;

// A dump and a console of 2048 bytes, with 16 bytes of parity.
const BOTH: Params = Params {
    dump: 2048,
    console: 2048,
    ecc: 16,
    ecc_dump: 16,
    ecc_console: 16,
    ecc_ftrace: 16,
    ecc_pmsg: 16,
    ..BARE
};

// The time line of a dump, and its text. Block 1 begins within `Trace`.
const TIME: &[u8] = b"====1764201858.836908-D\n";

const DUMP: &[u8] = b"Panic#1 Part1\n\
<0>[    2.500000] Kernel panic - not syncing: sysrq triggered crash\n\
<4>[    2.700000] Call Trace:\n\
<4>[    2.800000]  panic+0x101/0x2f3\n\
<4>[    2.900000]  sysrq_handle_crash+0x16/0x20\n";

const BAD_DUMP: &[u8] = b"Panic#1 Part1\n\
<0>[    2.500000] Kernel panic - not syncing: sysrq triggered crash\n\
<4>[    2.700000] Call ?????:\n\
<4>[    2.800000]  ?????????????????\n\
<4>[    2.900000]  ????????????????????????????\n";

const LESS_BAD_DUMP: &[u8] = b"Panic#1 Part1\n\
<0>[    2.500000] Kernel panic - not syncing: sysrq triggered crash\n\
<4>[    2.700000] Call Trace:\n\
<4>[    2.800000]  ?????????????????\n\
<4>[    2.900000]  ????????????????????????????\n";

// The console of the same boot. Block 1 begins with the colon behind `Trace`.
const CONSOLE: &[u8] = b"[    2.400000] sysrq: Trigger a crash\n\
[    2.500000] Kernel panic - not syncing: sysrq triggered crash\n\
[    2.700000] Call Trace:\n\
[    2.800000]  panic+0x101/0x2f3\n\
[    2.900000]  sysrq_handle_crash+0x16/0x20\n";

const BAD_CONSOLE: &[u8] = b"[    2.400000] sysrq: Trigger a crash\n\
[    2.500000] Kernel panic - not syncing: sysrq triggered crash\n\
[    2.700000] Call Trace:\n\
[    2.800000]  !!!!!!!!!!!!!!!!!\n\
[    2.900000]  !!!!!!!!!!!!!!!!!!!!!!!!!!!!\n";

// Of the whole logs: the parity of both blocks, and of the header.
const DUMP_PARITY: [u8; 48] = [
    0xba, 0x44, 0xae, 0x81, 0xe7, 0x8d, 0x30, 0x0d, 0x40, 0x02, 0x3c, 0x67, 0xcb, 0x6d, 0x04, 0x38,
    0x7e, 0x84, 0x36, 0xb7, 0xee, 0xfc, 0x2b, 0x32, 0x0a, 0x56, 0x07, 0x96, 0x83, 0xc6, 0x41, 0xd5,
    0x6a, 0xeb, 0x58, 0x0a, 0xa5, 0x35, 0x67, 0x63, 0x43, 0x0d, 0x02, 0x9f, 0x00, 0xcb, 0xce, 0x93,
];

const CONSOLE_PARITY: [u8; 48] = [
    0xa4, 0x52, 0x36, 0x58, 0x1a, 0x03, 0x82, 0x11, 0xcf, 0x46, 0x75, 0x90, 0xd2, 0x90, 0xe3, 0x91,
    0x13, 0x1c, 0xb6, 0x58, 0x8a, 0xfd, 0x05, 0xe5, 0x64, 0x25, 0x42, 0x77, 0xed, 0x11, 0x55, 0xa6,
    0xd7, 0xbc, 0xec, 0xde, 0xd5, 0x2e, 0x2f, 0x44, 0x2f, 0x52, 0xbe, 0xb5, 0xd4, 0xcb, 0x96, 0x34,
];

// The header of a log of so many bytes.
fn push_header(bytes: &mut Vec<u8>, len: u8) -> Result<(), Fail> {
    bytes.extend_from_slice(b"DBGC")?;
    bytes.extend_from_slice(&[len, 0, 0, 0, len, 0, 0, 0])?;
    Ok(())
}

// The end of a zone, with the parity of its 15 blocks from one place on, and of its header from another.
fn push_parity(
    bytes: &mut Vec<u8>,
    blocks: usize,
    header: usize,
    parity: &[u8; 48],
) -> Result<(), Fail> {
    bytes.resize(blocks, 0)?;
    bytes.extend_from_slice(&parity[..32])?;
    bytes.resize(header, 0)?;
    bytes.extend_from_slice(&parity[32..])?;
    Ok(())
}

// The image with these texts.
fn image_of(alloc: Global, dump: &[u8], console: &[u8]) -> Result<Vec<u8>, Fail> {
    let mut bytes = Vec::new(alloc);
    push_header(&mut bytes, 221)?;
    bytes.extend_from_slice(TIME)?;
    bytes.extend_from_slice(dump)?;
    push_parity(&mut bytes, 1792, 2032, &DUMP_PARITY)?;
    push_header(&mut bytes, 209)?;
    bytes.extend_from_slice(console)?;
    push_parity(&mut bytes, 3840, 4080, &CONSOLE_PARITY)?;
    Ok(bytes)
}

fn report_with(alloc: Global, dump: &[u8], console: &[u8]) -> Result<Report, Fail> {
    whole_reports::report_on(alloc, &BOTH, image_of(alloc, dump, console)?)
}

fn dump_in<'a>(rt: &impl Abort, report: &'a Report) -> &'a RecordReport {
    match newest_dump(report.records()) {
        Some(dump) => dump,
        None => panic!(rt; "there is a dump"),
    }
}

fn console_in<'a>(rt: &impl Abort, report: &'a Report) -> &'a RecordReport {
    match console(report.records()) {
        Some(console) => console,
        None => panic!(rt; "there is a console"),
    }
}

fn doubtful(entry: &RecordReport) -> usize {
    entry.doubts.iter().filter(|doubt| **doubt).count()
}

// Which record mended it.
fn mended_by(entry: &RecordReport) -> Option<Name> {
    match &entry.mended {
        Some(mended) => Some(mended.by),
        None => None,
    }
}

#[test]
fn a_dump_is_mended(rt: HostRuntime) -> Result<(), Fail> {
    let report = report_with(rt.alloc(), BAD_DUMP, CONSOLE)?;
    let dump = dump_in(&rt, &report);
    assert!(rt; mended_by(dump) == Some(Name::Console));
    assert!(rt; dump.said() == DUMP);
    assert!(rt; dump.content.as_slice().starts_with(BAD_DUMP));
    assert!(rt; dump.doubts.len() == 197 && doubtful(dump) == 6);
    assert!(rt; mended_by(console_in(&rt, &report)).is_none());
    Ok(())
}

#[test]
fn a_console_is_mended(rt: HostRuntime) -> Result<(), Fail> {
    let report = report_with(rt.alloc(), DUMP, BAD_CONSOLE)?;
    let console = console_in(&rt, &report);
    assert!(rt;
        mended_by(console)
            == Some(Name::Dump {
                index: 0,
                packed: false
            })
    );
    assert!(rt; console.said() == CONSOLE);
    assert!(rt; console.content.as_slice().starts_with(BAD_CONSOLE));
    assert!(rt; console.doubts.len() == 209 && doubtful(console) == 0);
    assert!(rt; mended_by(dump_in(&rt, &report)).is_none());
    Ok(())
}

// `Trace` alone is vouched for by one of both.
#[test]
fn both_are_bad(rt: HostRuntime) -> Result<(), Fail> {
    let report = report_with(rt.alloc(), BAD_DUMP, BAD_CONSOLE)?;
    let dump = dump_in(&rt, &report);
    assert!(rt; mended_by(dump) == Some(Name::Console));
    assert!(rt; dump.said() == LESS_BAD_DUMP);
    assert!(rt; doubtful(dump) == 87);
    let console = console_in(&rt, &report);
    assert!(rt; mended_by(console).is_none());
    assert!(rt; console.said() == BAD_CONSOLE && doubtful(console) == 81);
    Ok(())
}

#[test]
fn none_is_bad(rt: HostRuntime) -> Result<(), Fail> {
    let report = report_with(rt.alloc(), DUMP, CONSOLE)?;
    assert!(rt; mended_by(dump_in(&rt, &report)).is_none());
    assert!(rt; mended_by(console_in(&rt, &report)).is_none());
    Ok(())
}

#[test]
fn a_text_says_so(rt: HostRuntime) -> Result<(), Fail> {
    let image = image_of(rt.alloc(), BAD_DUMP, CONSOLE)?;
    let text = text_on(rt.alloc(), b"a", &BOTH, image)?;
    for lines in [
        "\n  in         sysrq_handle_crash+0x16/0x20\n",
        "\n  told by    dmesg-ramoops-0, with bytes of console-ramoops-0 where its own are bad; the console has the same line\n",
        "\n  <4>[    2.700000] Call Trace:\n",
        "\n~ <4>[    2.900000]  sysrq_handle_crash+0x16/0x20\n",
    ] {
        assert!(rt; has(text.as_slice(), lines)?, "{lines}");
    }
    Ok(())
}

#[test]
fn a_page_says_so(rt: HostRuntime) -> Result<(), Fail> {
    let report = report_with(rt.alloc(), BAD_DUMP, CONSOLE)?;
    let page = page_of(rt.alloc(), b"a", &BOTH, &report)?;
    let told =
        "<th scope=\"row\">Told by</th><td><a href=\"#dmesg-ramoops-0\">dmesg-ramoops-0</a>, with bytes of \
<a href=\"#console-ramoops-0\">console-ramoops-0</a> where its own are bad\nthe console has the same line";
    assert!(rt; has(page.as_slice(), told)?);
    Ok(())
}

#[test]
fn a_line_says_so(rt: HostRuntime) -> Result<(), Fail> {
    let report = report_with(rt.alloc(), BAD_DUMP, CONSOLE)?;
    let line = line_of(rt.alloc(), "a", &BOTH, &report)?;
    let told =
        "\"line\":\"Kernel panic - not syncing: sysrq triggered crash\",\"mended_by\":\"console-ramoops-0\",\
\"record\":\"dmesg-ramoops-0\",";
    assert!(rt; line.as_str().contains(told), "{told}");
    Ok(())
}
