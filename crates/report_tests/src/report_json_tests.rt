// Lines of worked images.
use crate::packed_dumps::{self, DAMAGED, WHOLE};
use crate::whole_reports::{console, line_of, report_on};
use crate::worked_deaths::{self, CONSOLE, FATAL, NAMED, NONE, OOPS, PANIC};
use outside::Bytes;
use prz_read::{Logs, Reading, ZoneParts};
use ramoops_layout::layout;
use region_report::{Origin, PartState, Report};
use std::alloc::Global;
use std::test::Fail;
use zone_spec::{State, Words};

// The line of an image of one console zone, whose record is this text.
fn line_of_console(alloc: Global, text: &[u8]) -> Result<String, Fail> {
    let params = console(0);
    let mut bytes = Vec::new(alloc);
    bytes.extend_from_slice(&[0x44, 0x42, 0x47, 0x43, 3, 0, 0, 0, 3, 0, 0, 0])?;
    bytes.extend_from_slice(text)?;
    bytes.resize(4096, 0)?;
    let report = report_on(alloc, &params, bytes)?;
    line_of(alloc, "a\"b", &params, &report)
}

#[test]
fn record_as_text_and_in_base64(rt: HostRuntime) -> Result<(), Fail> {
    let line = line_of_console(rt.alloc(), b"abc")?;
    let front =
        "{\"better\":null,\"death\":null,\"end\":{\"ending\":\"broken_off\",\"line\":\"abc\",\"reason\":null,\"record\":\"console-ramoops-0\"},\"machine\":{\"cmdline\":null,\"hardware\":null,\"kernel_offset\":null,\"modules\":null,\"version\":null},\"parameters\":{\"block_size\":128,\"byte_order\":\"little\",\"console_size\":4096,\"cpus\":1,\"ecc\":0,\"ecc_console\":0,\
\"ecc_dump\":0,\"ecc_ftrace\":0,\"ecc_pmsg\":0,\"ftrace_sig\":0,\"ftrace_size\":0,\"mem_size\":4096,\"order\":\"console,ftrace,pmsg\",\"pmsg_size\":0,\
\"record_size\":0},\"path\":\"a\\\"b\",\"records\":[{\"bad\":0,\"base64\":null,\"compressed\":false,\
\"corrected\":0,\"entries\":null,\"fault\":null,\"name\":\"console-ramoops-0\",\"taken\":null,\"text\":\"abc\",\"time\":null}],\"schema\":2,\"signature\":null,\"warnings\":[],\"zones\":[{\"bad\":0,\"blocks\":[0,null";
    assert!(rt; line.as_str().starts_with(front));
    let raw = line_of_console(rt.alloc(), &[0xff, 0xfe, 0xfd])?;
    assert!(rt;
        raw.as_str().contains(
            "\"base64\":\"//79\",\"compressed\":false,\"corrected\":0,\"entries\":null,\"fault\":null,\"name\":\"console-ramoops-0\",\
\"taken\":null,\"text\":null"
        )
    );
    Ok(())
}

// A part's text ends before the first byte of a letter of two, and its bytes are in base64.
#[test]
fn compressed_dumps(rt: HostRuntime) -> Result<(), Fail> {
    for (packed, record) in [
        (
            &WHOLE[..],
            "{\"bad\":0,\"base64\":null,\"compressed\":true,\"corrected\":0,\"entries\":null,\"fault\":null,\"name\":\"dmesg-ramoops-0\",\
\"taken\":26,\"text\":\"Panic#1 Part1\\nred \\u001b\\\\<b>\\n\",",
        ),
        (
            &DAMAGED,
            "{\"bad\":0,\"base64\":\"AAYA+f8KcmVkIMMH\",\"compressed\":true,\"corrected\":0,\
\"entries\":null,\"fault\":\"reserved block type\",\"name\":\"dmesg-ramoops-0.enc.z\",\"taken\":null,\"text\":\"\\nred \",",
        ),
        (
            b"",
            "{\"bad\":0,\"base64\":\"\",\"compressed\":true,\"corrected\":0,\"entries\":null,\"fault\":\"end of input\",\
\"name\":\"dmesg-ramoops-0.enc.z\",\"taken\":null,\"text\":\"\",",
        ),
        // A stored block of one byte that is no UTF-8, the last.
        (
            &[1, 1, 0, 0xfe, 0xff, 0xff],
            "{\"bad\":0,\"base64\":\"/w==\",\"compressed\":true,\"corrected\":0,\"entries\":null,\"fault\":null,\
\"name\":\"dmesg-ramoops-0\",\"taken\":6,\"text\":null,",
        ),
    ] {
        let report = packed_dumps::report_on(rt.alloc(), packed)?;
        let line = line_of(rt.alloc(), "a", &packed_dumps::PARAMS, &report)?;
        assert!(rt; line.as_str().contains(record), "{record}");
    }
    Ok(())
}

// A line ends before the first byte that is no UTF-8. A part that is not named is null.
#[test]
fn why_it_died(rt: HostRuntime) -> Result<(), Fail> {
    for (logs, death) in [
        (
            [NAMED, NONE, NONE, NONE],
            "{\"better\":null,\"death\":{\"cpu\":\"0\",\"function\":\"sysrq_handle_crash+0x16/0x20\",\"is_next\":false,\"kernel\":\"Not tainted 6.1.0 #1\",\
\"line\":\"Kernel panic - not syncing: <b>\",\"mended_by\":null,\"record\":\"dmesg-ramoops-0\",\"second\":null,\
\"task\":\"PID: 1 Comm: init\",\"trace\":[\"panic\",\"sysrq_handle_crash\"],\"uptime\":\"2.500000\"},\"end\":null,\
\"machine\":{\"cmdline\":null,\"hardware\":null,\"kernel_offset\":null,\"modules\":null,\"version\":null},\"parameters\":",
        ),
        (
            [NONE, PANIC, NONE, CONSOLE],
            "{\"better\":null,\"death\":{\"cpu\":null,\"function\":null,\"is_next\":false,\"kernel\":null,\
\"line\":\"Kernel panic - not syncing: sysrq triggered crash\",\"mended_by\":null,\"record\":\"dmesg-ramoops-1\",\"second\":null,\
\"task\":null,\"trace\":[],\"uptime\":\"3.034971\"},\"end\":null,\
\"machine\":{\"cmdline\":null,\"hardware\":null,\"kernel_offset\":\"disabled\",\"modules\":null,\"version\":null},\"parameters\":",
        ),
        (
            [NONE, NONE, NONE, FATAL],
            "{\"better\":null,\"death\":{\"cpu\":null,\"function\":null,\"is_next\":false,\"kernel\":null,\"line\":\"Oops: a\",\
\"mended_by\":null,\"record\":\"console-ramoops-0\",\"second\":\"Kernel panic - not syncing: Fatal exception\",\
\"task\":null,\"trace\":[],\"uptime\":\"3.0\"},\"end\":null,\
\"machine\":{\"cmdline\":null,\"hardware\":null,\"kernel_offset\":null,\"modules\":null,\"version\":null},\"parameters\":",
        ),
    ] {
        let report = worked_deaths::report_on(rt.alloc(), logs)?;
        let line = line_of(rt.alloc(), "a", &worked_deaths::PARAMS, &report)?;
        assert!(rt; line.as_str().starts_with(death), "{death}");
    }
    Ok(())
}

// What follows the records of a line: schema, signature and warnings.
#[test]
fn warnings(rt: HostRuntime) -> Result<(), Fail> {
    for (logs, told) in [
        (
            [OOPS, NONE, NONE, CONSOLE],
            "\"schema\":2,\"signature\":\"kernel panic: sysrq triggered crash\",\"warnings\":\
[{\"code\":\"console_tells\",\"count\":null,\"record\":\"dmesg-ramoops-0\"}],\"zones\":",
        ),
        (
            [NONE, NONE, NONE, NONE],
            "\"schema\":2,\"signature\":null,\"warnings\":[{\"code\":\"no_log\",\"count\":null,\"record\":null}],\"zones\":",
        ),
    ] {
        let report = worked_deaths::report_on(rt.alloc(), logs)?;
        let line = line_of(rt.alloc(), "a", &worked_deaths::PARAMS, &report)?;
        assert!(rt; line.as_str().contains(told), "{told}");
    }
    Ok(())
}

// What a boot reads of an empty zone, and how its header reads.
fn empty_zone(alloc: Global) -> (Reading, ZoneParts) {
    let reading = Reading {
        state: State::Empty,
        words: Words {
            sig: 0x43474244,
            start: 0,
            size: 0,
        },
        log: Bytes::from_vec(Vec::new(alloc)),
        corrected: 0,
        bad: 0,
    };
    let parts = ZoneParts {
        header: PartState::Read(0),
        blocks: Vec::new(alloc),
    };
    (reading, parts)
}

// A report without records on a console whose reading was forgotten.
fn forgotten(alloc: Global) -> Result<Report, Fail> {
    let layout = layout(alloc, &console(0))?;
    if layout.zones().is_empty() {
        return Err(Fail::from("no zone"));
    }
    let (reading, parts) = empty_zone(alloc);
    let mut logs = Logs::new(alloc, &layout)?;
    logs.push(reading);
    logs.forget(0);
    let mut all = Vec::new(alloc);
    all.push(parts)?;
    Ok(Report::of_zones(Origin::Region, logs, all, Vec::new(alloc)))
}

// A zone without a reading is null.
#[test]
fn zone_without_a_reading(rt: HostRuntime) -> Result<(), Fail> {
    let report = forgotten(rt.alloc())?;
    let line = line_of(rt.alloc(), "a", &console(0), &report)?;
    assert!(rt; line.as_str().ends_with("\"zones\":[null]}"));
    Ok(())
}
