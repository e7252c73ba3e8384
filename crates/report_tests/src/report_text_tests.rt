// Texts of worked images, and dates in them.
use crate::packed_dumps::{self, DAMAGED, WHOLE};
use crate::whole_reports::{BARE, console, has, text_on};
use crate::worked_deaths::{self, CONSOLE, FATAL, LONG, NAMED, NONE, OOPS, ORDERLY, PANIC};
use outside::Bytes;
use ramoops_layout::Params;
use report_text::brief;
use std::alloc::Global;
use std::test::Fail;

// A dump of 4096 bytes, and a console.
const PARAMS: Params = Params {
    mem: 8192,
    dump: 4096,
    console: 4096,
    ..BARE
};

const TEXT: &str = "died: of a panic; its line is not in the dump
  last line  Panic#1 Part1
  when       2025-11-27 00:04:18.836908 UTC
  told by    dmesg-ramoops-0
  image      a\\x1bb

  Panic#1 Part1

zones 2, records 2

zone          state        place     size      start       used corrected   bad
dump        0 found            0     4096         38         38         0     0
console     0 found         4096     4096         15         15         0     0

     bytes  time                            record
        14  2025-11-27 00:04:18.836908 UTC  dmesg-ramoops-0
        15                                  console-ramoops-0

last lines of the console
  \\x1b[31mred
  one\\x5c\\xff
";

// The image of the two zones, with this time line and an escape sequence in the console.
fn image_of(alloc: Global, line: &[u8]) -> Result<Vec<u8>, Fail> {
    let used = u8::try_from(line.len().saturating_add(14))?;
    let mut bytes = Vec::new(alloc);
    bytes.extend_from_slice(&[0x44, 0x42, 0x47, 0x43, used, 0, 0, 0, used, 0, 0, 0])?;
    bytes.extend_from_slice(line)?;
    bytes.extend_from_slice(b"Panic#1 Part1\n")?;
    bytes.resize(4096, 0)?;
    bytes.extend_from_slice(&[0x44, 0x42, 0x47, 0x43, 15, 0, 0, 0, 15, 0, 0, 0])?;
    bytes.extend_from_slice(b"\x1b[31mred\none\\\xff\n")?;
    bytes.resize(8192, 0)?;
    Ok(bytes)
}

// Its text.
fn shown(alloc: Global, line: &[u8]) -> Result<Bytes, Fail> {
    text_on(alloc, b"a\x1bb", &PARAMS, image_of(alloc, line)?)
}

#[test]
fn two_records(rt: HostRuntime) -> Result<(), Fail> {
    let text = shown(rt.alloc(), b"====1764201858.836908-D\n")?;
    assert!(rt; text.as_slice() == TEXT.as_bytes());
    Ok(())
}

// The text of a report on a compressed dump.
fn shown_packed(alloc: Global, packed: &[u8]) -> Result<Bytes, Fail> {
    let image = packed_dumps::image_of(alloc, packed)?;
    text_on(alloc, b"a", &packed_dumps::PARAMS, image)
}

#[test]
fn compressed_dumps(rt: HostRuntime) -> Result<(), Fail> {
    for (packed, lines) in [
        (
            &WHOLE[..],
            "  told by    dmesg-ramoops-0, inflated
  image      a

  Panic#1 Part1
  red \\x1b\\x5c<b>

zones 1, records 1
",
        ),
        (
            &WHOLE[..22],
            "  told by    dmesg-ramoops-0.enc.z, inflated in part
  image      a

  Panic#1 Part1
  red \\x1b\\x5c<
  (breaks off: end of input)

zones 1, records 1
",
        ),
        (
            &DAMAGED,
            "  last line  red \\xc3
  when       2025-11-27 00:04:18.836908 UTC
  told by    dmesg-ramoops-0.enc.z, inflated in part
  image      a

  
  red \\xc3
  (breaks off: reserved block type)

zones 1, records 1
",
        ),
        (
            b"\x07",
            "no death: no record tells of the kernel
  image      a

  (breaks off: reserved block type)

zones 1, records 1
",
        ),
    ] {
        let text = shown_packed(rt.alloc(), packed)?;
        assert!(rt; has(text.as_slice(), lines)?, "{lines}");
    }
    Ok(())
}

// The text of a report on these logs.
fn shown_deaths(alloc: Global, logs: [&[u8]; 4]) -> Result<Bytes, Fail> {
    let image = worked_deaths::image_of(alloc, logs)?;
    text_on(alloc, b"a", &worked_deaths::PARAMS, image)
}

#[test]
fn why_it_died(rt: HostRuntime) -> Result<(), Fail> {
    for (logs, died) in [
        (
            [NAMED, NONE, NONE, NONE],
            "died: Kernel panic - not syncing: <b>\\xff
  in         sysrq_handle_crash+0x16/0x20
  signature  kernel panic: <b>\\xff
  when       2025-11-27 00:04:18.836908 UTC
  up         2.500000 s
  task       PID: 1 Comm: init
  cpu        0
  kernel     Not tainted 6.1.0 #1
  told by    dmesg-ramoops-0
  image      a

  Panic#1 Part1
> <0>[    2.500000] Kernel panic - not syncing: <b>\\xff
  <4>[    2.600000] CPU: 0 PID: 1 Comm: init Not tainted 6.1.0 #1
  <4>[    2.700000] Call Trace:
  <4>[    2.800000]  panic+0x1/0x2
  <4>[    2.900000]  sysrq_handle_crash+0x16/0x20

zones 4, records 1
",
        ),
        (
            [OOPS, PANIC, NONE, CONSOLE],
            "died: Kernel panic - not syncing: sysrq triggered crash
  signature  kernel panic: sysrq triggered crash
  when       2026-11-26 23:44:14.688627 UTC
  up         3.034971 s
  offset     disabled
  told by    dmesg-ramoops-1; the console has the same line
  image      a

  Panic#8 Part1
  <4>[    2.989466] ---[ end trace 0000000000000000 ]---
  <4>[    3.014227] RIP: 0010:lkdtm_EXCEPTION+0x8/0x14 [lkdtm]
  <6>[    3.034160] sysrq: Trigger a crash
> <0>[    3.034971] Kernel panic - not syncing: sysrq triggered crash
  <0>[    3.036072] Kernel Offset: disabled

earlier deaths
  2026-11-26 23:44:14.642000 UTC  dmesg-ramoops-0  \
BUG: kernel NULL pointer dereference, address: 0000000000000000

zones 4, records 3
",
        ),
        (
            [NONE, NONE, NONE, FATAL],
            "died: Oops: a
  led to     Kernel panic - not syncing: Fatal exception
  signature  Oops
  up         3.0 s
  told by    console-ramoops-0
  image      a

> [    3.0] Oops: a
> [    3.1] Kernel panic - not syncing: Fatal exception

zones 4, records 1
",
        ),
        (
            [
                b"====1795736654.642000-D\nOops#7 Part1\n<4>[    3.0] Oops: a\n",
                NONE,
                NONE,
                FATAL,
            ],
            "died: Oops: a
  led to     Kernel panic - not syncing: Fatal exception
  signature  Oops
  when       2026-11-26 23:44:14.642000 UTC
  up         3.0 s
  told by    console-ramoops-0
  image      a
  careful    the newest dump, dmesg-ramoops-0, does not have all of this
",
        ),
    ] {
        let text = shown_deaths(rt.alloc(), logs)?;
        assert!(rt;
            str::from_utf8(text.as_slice())?.starts_with(died),
            "{died}"
        );
    }
    Ok(())
}

#[test]
fn what_is_known(rt: HostRuntime) -> Result<(), Fail> {
    let text = shown_deaths(rt.alloc(), [NONE, NONE, NONE, LONG])?;
    let facts = "died: BUG: kernel NULL pointer dereference, address: 0000000000000018
  in         boom_deref+0x5/0x20 [boom]
  signature  BUG: kernel NULL pointer dereference in boom_deref
  up         93784.500000 s (1 d 2 h)
  task       PID: 40 Comm: init
  cpu        1
  kernel     Tainted: G O 6.1.0 #1
  hardware   QEMU Standard PC
  modules    boom(O) lkdtm
  version    6.1.0 (gcc 12) #1 SMP
  cmdline    console=ttyS0 panic=5
  told by    console-ramoops-0
";
    assert!(rt; str::from_utf8(text.as_slice())?.starts_with(facts));
    Ok(())
}

// The console of a machine that a device tree describes.
const BOOTED: &[u8] = b"[    0.000000] Linux version 6.12.1 (gcc 12) #1 SMP\n\
[    0.000000] Machine model: linux,dummy-virt\n[    0.000000] Kernel command line: quiet\n\
[  312.9] eth0: link up\n";

// Logs of which no line tells of a death, and the first lines of their texts.
#[test]
fn no_death(rt: HostRuntime) -> Result<(), Fail> {
    for (logs, first) in [
        (
            [NONE, NONE, NONE, ORDERLY],
            "no death: an orderly restart
  last line  reboot: Restarting system
  up         312.884310 s (5 min 12 s)
  told by    console-ramoops-0
  image      a

  [  312.884310] reboot: Restarting system

zones 4, records 1
",
        ),
        (
            [
                b"====1764201858.836908-D\nEmergency#1 Part1\n<6>[ 7325.000000] sysrq: Resetting\n",
                NONE,
                NONE,
                NONE,
            ],
            "no panic: the kernel was told to restart in an emergency
  last line  sysrq: Resetting
  when       2025-11-27 00:04:18.836908 UTC
  up         7325.000000 s (2 h 2 min)
  told by    dmesg-ramoops-0
",
        ),
        (
            [NONE, NONE, NONE, BOOTED],
            "no death: the log breaks off; the machine hung, lost power or was reset
  last line  eth0: link up
  up         312.9 s (5 min 12 s)
  hardware   linux,dummy-virt
  version    6.12.1 (gcc 12) #1 SMP
  cmdline    quiet
  told by    console-ramoops-0
  image      a
",
        ),
        (
            [NONE, NONE, NONE, NONE],
            "no death: no record tells of the kernel
  image      a
  careful    no zone has a log: the region is blank, or the place or the parameters are wrong

zones 4, records 0
",
        ),
    ] {
        let text = shown_deaths(rt.alloc(), logs)?;
        assert!(rt;
            str::from_utf8(text.as_slice())?.starts_with(first),
            "{first}"
        );
    }
    Ok(())
}

#[test]
fn the_console_tells_and_not_the_dump(rt: HostRuntime) -> Result<(), Fail> {
    let text = shown_deaths(rt.alloc(), [OOPS, NONE, NONE, CONSOLE])?;
    let warned = "  told by    console-ramoops-0
  image      a
  careful    the newest dump, dmesg-ramoops-0, does not have all of this
";
    assert!(rt; has(text.as_slice(), warned)?);
    Ok(())
}

// Nine of the header's parity bytes are lost, and all of the first block. Both are read as they stand.
#[test]
fn warnings_of_bad_parts(rt: HostRuntime) -> Result<(), Fail> {
    let mut bytes = Vec::new(rt.alloc());
    bytes.extend_from_slice(&[0x44, 0x42, 0x47, 0x43, 0xe8, 3, 0, 0, 0xe8, 3, 0, 0])?;
    bytes.extend_from_slice(b"Kernel panic - not syncing: a\n")?;
    bytes.resize(4089, 0)?;
    bytes.extend_from_slice(&[249, 61, 125, 1, 138, 99, 55])?;
    let text = text_on(rt.alloc(), b"a", &console(16), bytes)?;
    let warned = "  image      a
  careful    bad parts in the record that tells: 2; its lines can be wrong
  careful    bad headers: 1; a log lost there may be newer
  careful    zones with bad parts: 1; the place or the parameters may be wrong
";
    assert!(rt; has(text.as_slice(), warned)?);
    Ok(())
}

#[test]
fn one_line_an_image(rt: HostRuntime) -> Result<(), Fail> {
    for (logs, line) in [
        (
            [NAMED, NONE, NONE, NONE],
            "a  2025-11-27 00:04:18.836908 UTC  kernel panic: <b>\\xff\n",
        ),
        (
            [NONE, NONE, NONE, LONG],
            "a  -  BUG: kernel NULL pointer dereference in boom_deref\n",
        ),
        (
            [NONE, NONE, NONE, b"[  1.0] a\n"],
            "a  -  no death: the log breaks off; the machine hung, lost power or was reset\n",
        ),
        (
            [NONE, NONE, NONE, NONE],
            "a  -  no death: no record tells of the kernel\n",
        ),
    ] {
        let report = worked_deaths::report_on(rt.alloc(), logs)?;
        let text = brief(rt.alloc(), b"a", &report)?;
        assert!(rt; text.as_slice() == line.as_bytes(), "{line}");
    }
    Ok(())
}

// Time lines, and the date of each.
const DATES: &[(&[u8], &str)] = &[
    (b"====0.5-D\n", "1970-01-01 00:00:00.000005 UTC"),
    (
        b"====951827696.999999999-D\n",
        "2000-02-29 12:34:56.999999999 UTC",
    ),
    (b"====253402300800.0-D\n", "253402300800.000000 s"),
    (
        b"====9223372036854775807.0-D\n",
        "9223372036854775807.000000 s",
    ),
];

#[test]
fn dates(rt: HostRuntime) -> Result<(), Fail> {
    for (line, date) in DATES.iter().copied() {
        let row = format!(in rt.alloc(); "        14  {date}  dmesg-ramoops-0\n")?;
        let text = shown(rt.alloc(), line)?;
        assert!(rt; has(text.as_slice(), row.as_str())?, "{date}");
    }
    Ok(())
}
