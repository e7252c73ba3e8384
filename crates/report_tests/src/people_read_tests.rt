// Android's log and an ftrace log, as people read them.
use crate::whole_reports::{BARE, has, line_of, page_of, report_by, text_on};
use ramoops_layout::{ByteOrder, Params};
use region_report::{RecordReport, Report};
use std::alloc::Global;
use std::process::Abort;
use std::test::Fail;
use symbols::Symbols;
use zone_spec::Name;

// The end of an entry that was overwritten, and two entries.
const PMSG: &[u8] =
    b"of an entry\0l4\0\xe8\x03\xd2\x04\0\xd8\x04\x82\x95'i\x945\xe21\x06app\0FATAL EXCEPTION: main\nat run\0l\x1d\0\0\0\x0c\0\x03n\xb2\0\x0c\xbb8@KL\0\x04boot\0done\0";

// The lines that `logcat -v threadtime -v year -v UTC` shows, with one header for an entry.
const LINES: &str = "\
last lines of Android's log
  2025-11-27 00:04:18.836  1234  1240 E app: FATAL EXCEPTION: main
  \tat run
  2000-02-29 00:00:00.005    12 45678 I boot: done
";

const ENTRIES: &str =
    "\"entries\":[{\"log\":0,\"nanoseconds\":836908436,\"pid\":1234,\"priority\":\"E\",\"seconds\":1764201858,\
\"tag\":\"app\",\"text\":\"FATAL EXCEPTION: main\\nat run\",\"tid\":1240,\"uid\":1000},{\"log\":3,\"nanoseconds\":5000000,\"pid\":12,\
\"priority\":\"I\",\"seconds\":951782400,\"tag\":\"boot\",\"text\":\"done\",\"tid\":45678,\"uid\":0}]";

const FTRACE: &[u8] =
    b"\0\x10\0\x81\xff\xff\xff\xff\x1f \0\x81\xff\xff\xff\xff\0g\x12\0\0\0\0\0\x10\0\0\0\0\0\0\0\0\0\0\0\0\0\0\0\x03h\x12\0\0\0\0\0\
\xff\x1f\x10\x81\xff\xff\xff\xff\0 \x10\x81\xff\xff\xff\xff\0\x01\0\0\0\0\0\0\
\x01\x10\0\x81\xff\xff\xff\xff\xfe\x1f\0\x81\xff\xff\xff\xff\0\x02\0\0\0\0\0\0";

const MAP: &[u8] = b"ffffffff81002000 t run_work\n0000000000000010 D data\n\
ffffffff81001000 T do_work\t[usbcore]\nffffffff81001000 T alias\n";

// As the kernel prints it (`CPU:%d ts:%llu %08lx  %08lx  %ps <- %pS`), but for the size of the caller.
const TRACE: &str = "\
CPU:0 ts:4711 ffffffff81001000  ffffffff8100201f  do_work [usbcore] <- run_work+0x1f
CPU:3 ts:4712 00000010  00000000  0x10 <- 0x0
CPU:0 ts:1 ffffffff81101fff  ffffffff81102000  run_work <- 0xffffffff81102000
CPU:0 ts:2 ffffffff81001001  ffffffff81001ffe  do_work [usbcore] <- do_work+0xffe [usbcore]
";

// What Linux 6.1 left on a 32-bit ARM and on a big-endian MIPS of 32 bits: entries of 16 bytes.
const ARM: &[u8] = b"\x34\xfa\x20\xc0\x28\xfd\x20\xc0\0\0\0\0\0\0\0\0";

const MIPS: &[u8] = b"\x80\x21\x9d\x28\x80\x21\xa0\xa0\0\0\0\0\0\0\0\0";

fn params(pmsg: u64, ftrace: u64) -> Params {
    Params {
        ftrace,
        pmsg,
        ftrace_sig: 0x601c0,
        ..BARE
    }
}

// The image of one zone that begins with this signature and holds this log.
fn image_of(alloc: Global, signature: u32, log: &[u8]) -> Result<Vec<u8>, Fail> {
    let len = u8::try_from(log.len())?;
    let mut bytes = Vec::new(alloc);
    bytes.extend_from_slice(&signature.to_le_bytes())?;
    bytes.extend_from_slice(&[0, 0, 0, 0, len, 0, 0, 0])?;
    bytes.extend_from_slice(log)?;
    bytes.resize(4096, 0)?;
    Ok(bytes)
}

// The report of that image.
fn reported(alloc: Global, params: &Params, signature: u32, log: &[u8]) -> Result<Report, Fail> {
    let symbols = Symbols::read(alloc, Vec::from_slice(alloc, MAP)?)?;
    report_by(alloc, params, image_of(alloc, signature, log)?, &symbols)
}

#[test]
fn lines_of_android(rt: HostRuntime) -> Result<(), Fail> {
    let params = params(4096, 0);
    let image = image_of(rt.alloc(), 0x4347_4244, PMSG)?;
    let text = text_on(rt.alloc(), b"a", &params, image)?;
    assert!(rt; str::from_utf8(text.as_slice())?.ends_with(LINES));
    Ok(())
}

#[test]
fn log_of_android(rt: HostRuntime) -> Result<(), Fail> {
    let params = params(4096, 0);
    let report = reported(rt.alloc(), &params, 0x4347_4244, PMSG)?;
    let line = line_of(rt.alloc(), "a", &params, &report)?;
    assert!(rt; line.as_str().contains(ENTRIES));
    Ok(())
}

// The first record of a report.
fn first<'a>(rt: &impl Abort, report: &'a Report) -> &'a RecordReport {
    report.records().first().expect(rt, "a record")
}

// Text that is no log of Android's is read as it stands.
#[test]
fn other_pmsg(rt: HostRuntime) -> Result<(), Fail> {
    let report = reported(rt.alloc(), &params(4096, 0), 0x4347_4244, b"lll\x12\0")?;
    let record = first(&rt, &report);
    assert!(rt; record.entries.is_empty() && record.readable() == b"lll\x12\0".as_slice());
    Ok(())
}

#[test]
fn trace_with_functions(rt: HostRuntime) -> Result<(), Fail> {
    let report = reported(rt.alloc(), &params(0, 4096), 0x4341_4384, FTRACE)?;
    let record = first(&rt, &report);
    assert!(rt; record.name == Name::Ftrace && record.content.as_slice() == TRACE.as_bytes());
    Ok(())
}

// A kernel that runs 16 MiB above its map, as its console says: an entry of it, and one of an address below that.
const MOVED: &[u8] =
    b"\0\x10\0\x82\xff\xff\xff\xff\x1f \0\x82\xff\xff\xff\xff\0g\x12\0\0\0\0\0\x10\0\0\0\0\0\0\0\0\0\0\0\0\0\0\0\x03h\x12\0\0\0\0\0";

const LINKED: &[u8] =
    b"ffffffff81000000 T _text\nffffffff81001000 T do_work\nffffffff81002000 t run_work\n\
0000000000000000 T start\n";

const RUNNING: &[u8] =
    b"ffffffff82000000 T _text\nffffffff82001000 T do_work\nffffffff82002000 t run_work\n";

const NAMED: &str = "CPU:0 ts:4711 ffffffff82001000  ffffffff8200201f  do_work <- run_work+0x1f
CPU:3 ts:4712 00000010  00000000  0x10 <- 0x0\n";

const UNNAMED: &str =
    "CPU:0 ts:4711 ffffffff82001000  ffffffff8200201f  0xffffffff82001000 <- 0xffffffff8200201f\n";

/// The lines of the trace of `MOVED` by a map and a console.
fn moved(alloc: Global, map: &[u8], console: &[u8]) -> Result<Report, Fail> {
    let params = Params {
        mem: 8192,
        console: 4096,
        ..params(0, 4096)
    };
    let mut image = image_of(alloc, 0x4347_4244, console)?;
    image.extend_from_slice(&image_of(alloc, 0x4341_4384, MOVED)?)?;
    let symbols = Symbols::read(alloc, Vec::from_slice(alloc, map)?)?;
    report_by(alloc, &params, image, &symbols)
}

fn begins_trace(report: &Report, lines: &str) -> bool {
    for record in report.records() {
        if record.name == Name::Ftrace {
            return record.content.as_slice().starts_with(lines.as_bytes());
        }
    }
    false
}

// An offset that is applied; that is not, since the map is of the running kernel; that is said otherwise; or not at all.
#[test]
fn trace_of_a_moved_kernel(rt: HostRuntime) -> Result<(), Fail> {
    for (map, console, lines) in [
        (
            LINKED,
            &b"[    3.0] Kernel Offset: 0x1000000 from 0xffffffff81000000 (relocation range: 0xffffffff80000000-0xffffffffbfffffff)\n"[..],
            NAMED,
        ),
        (
            LINKED,
            &b"[    3.0] Kernel Offset: 0x1000000 from 0xFFFFFFFF81000000\n"[..],
            NAMED,
        ),
        (
            RUNNING,
            &b"[    3.0] Kernel Offset: 0x1000000 from 0xffffffff81000000\n"[..],
            NAMED,
        ),
        (
            LINKED,
            &b"[    3.0] Kernel Offset: 0x1000000 from 0xffffffff81000010\n"[..],
            UNNAMED,
        ),
        (LINKED, &b"[    3.0] Kernel Offset: disabled\n"[..], UNNAMED),
        (
            LINKED,
            &b"[    3.0] Kernel Offset: 0x1000z00 from 0xffffffff81000000\n"[..],
            UNNAMED,
        ),
        (
            LINKED,
            &b"[    3.0] Kernel Offset: 0x1000000 from 0x\n"[..],
            UNNAMED,
        ),
        (LINKED, &b"[    3.0] Kernel panic\n"[..], UNNAMED),
    ] {
        let report = moved(rt.alloc(), map, console)?;
        assert!(rt; begins_trace(&report, lines), "{lines}");
    }
    Ok(())
}

#[test]
fn trace_of_an_arm(rt: HostRuntime) -> Result<(), Fail> {
    let report = reported(rt.alloc(), &params(0, 4096), 0x4341_4384, ARM)?;
    let line = b"CPU:0 ts:0 c020fa34  c020fd28  0xc020fa34 <- 0xc020fd28\n".as_slice();
    assert!(rt; first(&rt, &report).content.as_slice() == line);
    Ok(())
}

// The image of an ftrace zone of 4096 bytes that a big-endian machine wrote, with a log of 16 bytes.
fn big_image(alloc: Global, log: &[u8]) -> Result<Vec<u8>, Fail> {
    let mut bytes = Vec::from_slice(alloc, b"\x43\x41\x43\x84\0\0\0\x10\0\0\0\x10")?;
    bytes.extend_from_slice(log)?;
    bytes.resize(4096, 0)?;
    Ok(bytes)
}

#[test]
fn trace_of_a_mips(rt: HostRuntime) -> Result<(), Fail> {
    let params = Params {
        byte_order: ByteOrder::Big,
        ..params(0, 4096)
    };
    let image = big_image(rt.alloc(), MIPS)?;
    let report = report_by(rt.alloc(), &params, image, &Symbols::none(rt.alloc()))?;
    let line = b"CPU:0 ts:0 80219d28  8021a0a0  0x80219d28 <- 0x8021a0a0\n".as_slice();
    assert!(rt; first(&rt, &report).content.as_slice() == line);
    Ok(())
}

fn page(alloc: Global, params: &Params, signature: u32, log: &[u8]) -> Result<Vec<u8>, Fail> {
    let report = reported(alloc, params, signature, log)?;
    page_of(alloc, b"a", params, &report)
}

// The page of such an image says what a pmsg and an ftrace log are, whatever stands in them.
#[test]
fn above_other_records(rt: HostRuntime) -> Result<(), Fail> {
    let panic = b"Kernel panic - not syncing: x\n";
    for (params, signature, log, above) in [
        (
            params(4096, 0),
            0x4347_4244,
            &panic[..],
            "<summary><span class=\"say\">messages of user space</span>\n<b>pmsg-ramoops-0</b>",
        ),
        (
            params(0, 4096),
            0x4341_4384,
            FTRACE,
            "<summary><span class=\"say\">function trace</span>\n<b>ftrace-ramoops-0</b>",
        ),
    ] {
        let page = page(rt.alloc(), &params, signature, log)?;
        assert!(rt; has(&page, above)?, "{above}");
    }
    Ok(())
}
