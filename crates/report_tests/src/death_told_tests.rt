// Which record tells why a machine died, and by which line.
use crate::worked_deaths::{CONSOLE, OOPS, PANIC, SILENT, report_on};
use region_report::{RecordReport, death_told};
use std::alloc::Global;
use std::process::Abort;
use std::test::Fail;
use zone_spec::Name;

const fn dump(index: u32) -> Name {
    Name::Dump {
        index,
        packed: false,
    }
}

fn assert_told(
    rt: &impl Abort,
    alloc: Global,
    logs: [&[u8]; 4],
    name: Name,
    line: &[u8],
) -> Result<(), Fail> {
    let report = report_on(alloc, logs)?;
    assert_teller(rt, report.records(), name, line);
    Ok(())
}

fn assert_teller(rt: &impl Abort, records: &[RecordReport], name: Name, line: &[u8]) {
    let told = death_told(records).expect(rt, "a record tells");
    let teller: &RecordReport = told.teller;
    let telling = told.death.telling;
    let text = teller.readable().get(telling.text..telling.end);
    assert!(rt; teller.name == name && text == Some(line));
}

fn assert_none(rt: &impl Abort, alloc: Global, logs: [&[u8]; 4]) -> Result<(), Fail> {
    let report = report_on(alloc, logs)?;
    assert!(rt; death_told(report.records()).is_none());
    Ok(())
}

const SYSRQ: &[u8] = b"Kernel panic - not syncing: sysrq triggered crash";

const FAULT: &[u8] = b"BUG: kernel NULL pointer dereference, address: 0000000000000000";

#[test]
fn the_newest_dump_tells(rt: HostRuntime) -> Result<(), Fail> {
    assert_told(&rt, rt.alloc(), [OOPS, PANIC, b"", CONSOLE], dump(1), SYSRQ)?;
    assert_told(&rt, rt.alloc(), [PANIC, OOPS, b"", b""], dump(0), SYSRQ)?;
    assert_told(
        &rt,
        rt.alloc(),
        [b"", OOPS, b"", b"[    1.000000] a\n"],
        dump(1),
        FAULT,
    )?;
    // an oops on the console is no panic, whatever the dump has
    let oops = b"[    9.000000] BUG: kernel NULL pointer dereference\n";
    assert_told(&rt, rt.alloc(), [OOPS, PANIC, b"", oops], dump(1), SYSRQ)
}

// The report below the line names nothing: the place in the code is of the oops before.
#[test]
fn no_place_of_an_older_oops(rt: HostRuntime) -> Result<(), Fail> {
    let report = report_on(rt.alloc(), [OOPS, PANIC, b"", CONSOLE])?;
    let told = death_told(report.records()).expect(&rt, "a record tells");
    assert!(rt; told.death.function.is_none() && told.death.cpu.is_none());
    Ok(())
}

#[test]
fn the_console_tells(rt: HostRuntime) -> Result<(), Fail> {
    // without a dump
    assert_told(
        &rt,
        rt.alloc(),
        [b"", b"", b"", CONSOLE],
        Name::Console,
        SYSRQ,
    )?;
    // the newest dump does not tell
    assert_told(
        &rt,
        rt.alloc(),
        [PANIC, SILENT, b"", CONSOLE],
        Name::Console,
        SYSRQ,
    )?;
    // the newest dump has the oops before the panic
    assert_told(
        &rt,
        rt.alloc(),
        [OOPS, b"", b"", CONSOLE],
        Name::Console,
        SYSRQ,
    )?;
    // the panic is of another time
    let later = b"[    3.034972] Kernel panic - not syncing: sysrq triggered crash\r\n";
    assert_told(
        &rt,
        rt.alloc(),
        [OOPS, PANIC, b"", later],
        Name::Console,
        SYSRQ,
    )?;
    // the dump has the line, and an end that a serial console adds counts for nothing
    let same = b"[    3.034971] Kernel panic - not syncing: sysrq triggered crash\r\n";
    assert_told(&rt, rt.alloc(), [OOPS, PANIC, b"", same], dump(1), SYSRQ)
}

// A fatal oops: the line that tells is its cause, and the panic below decides.
#[test]
fn a_panic_after_its_cause(rt: HostRuntime) -> Result<(), Fail> {
    let fatal = b"[    3.000000] BUG: unable to handle page fault for address: 10\n\
[    3.100000] Kernel panic - not syncing: Fatal exception\n";
    let cause = b"BUG: unable to handle page fault for address: 10";
    assert_told(
        &rt,
        rt.alloc(),
        [OOPS, b"", b"", fatal],
        Name::Console,
        cause,
    )
}

#[test]
fn no_record_tells(rt: HostRuntime) -> Result<(), Fail> {
    assert_none(&rt, rt.alloc(), [b"", b"", b"", b""])?;
    // an older dump tells nothing
    assert_none(&rt, rt.alloc(), [PANIC, SILENT, b"", b"[    1.000000] a\n"])
}
