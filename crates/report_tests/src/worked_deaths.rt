// Images of three dumps and a console, for the tests of why a machine died.
use crate::whole_reports::{self, BARE};
use ramoops_layout::Params;
use region_report::Report;
use std::alloc::Global;
use std::test::Fail;

/// Lines of a dump that a real kernel made after an oops. It names a place in the code, which is of that oops.
pub const PANIC: &[u8] = b"====1795736654.688627-D\nPanic#8 Part1\n\
<4>[    2.989466] ---[ end trace 0000000000000000 ]---\n\
<4>[    3.014227] RIP: 0010:lkdtm_EXCEPTION+0x8/0x14 [lkdtm]\n\
<6>[    3.034160] sysrq: Trigger a crash\n\
<0>[    3.034971] Kernel panic - not syncing: sysrq triggered crash\n\
<0>[    3.036072] Kernel Offset: disabled\n";

/// Lines of the dump before it.
pub const OOPS: &[u8] = b"====1795736654.642000-D\nOops#7 Part1\n\
<1>[    2.971909] BUG: kernel NULL pointer dereference, address: 0000000000000000\n\
<4>[    2.973642] Oops: 0002 [#7] SMP\n\
<4>[    2.973949] CPU: 0 PID: 40 Comm: init Tainted: G      D            6.1.192 #4 \n\
<4>[    2.974496] RIP: 0010:lkdtm_EXCEPTION+0x8/0x14 [lkdtm]\n";

/// A dump later than the others, without a telling line.
pub const SILENT: &[u8] =
    b"====1795736655.0-D\nPanic#9 Part1\n<6>[    4.000000] sysrq: Trigger a crash\n";

/// A dump earlier than the others, without a telling line.
pub const QUIET: &[u8] =
    b"====1795736650.0-D\nPanic#1 Part1\n<6>[    1.000000] sysrq: Trigger a crash\n";

/// Lines of the console of the same run.
pub const CONSOLE: &[u8] = b"[    3.034160] sysrq: Trigger a crash\n\
[    3.034971] Kernel panic - not syncing: sysrq triggered crash\n[    3.036072] Kernel Offset: disabled\n";

/// A console of a fatal oops.
pub const FATAL: &[u8] =
    b"[    3.0] Oops: a\n[    3.1] Kernel panic - not syncing: Fatal exception\n";

/// The log of an empty zone.
pub const NONE: &[u8] = b"";

/// A dump with all that a report names.
pub const NAMED: &[u8] = b"====1764201858.836908-D\nPanic#1 Part1\n\
<0>[    2.500000] Kernel panic - not syncing: <b>\xff\n\
<4>[    2.600000] CPU: 0 PID: 1 Comm: init Not tainted 6.1.0 #1\n<4>[    2.700000] Call Trace:\n\
<4>[    2.800000]  panic+0x1/0x2\n<4>[    2.900000]  sysrq_handle_crash+0x16/0x20\n";

/// A console that tells of a boot and of a death a day later.
pub const LONG: &[u8] = b"[    0.000000] Linux version 6.1.0 (gcc 12) #1 SMP\n\
[    0.000000] Command line: console=ttyS0 panic=5\n\
[93784.500000] BUG: kernel NULL pointer dereference, address: 0000000000000018\n\
[93784.510000] Modules linked in: boom(O) lkdtm\n\
[93784.520000] CPU: 1 PID: 40 Comm: init Tainted: G O 6.1.0 #1\n\
[93784.530000] Hardware name: QEMU Standard PC\n\
[93784.540000] RIP: 0010:boom_deref+0x5/0x20 [boom]\n";

/// A dump of Linux 6.12.
pub const NEWER: &[u8] = b"====1764201858.836908-D\nPanic#1 Part1\n\
<0>[    2.500000] Kernel panic - not syncing: sysrq triggered crash\n\
<4>[    2.600000] CPU: 0 UID: 0 PID: 1 Comm: init Not tainted 6.12.117 #1\n";

/// A console that ends in order.
pub const ORDERLY: &[u8] = b"[  312.884310] reboot: Restarting system\n";

// Three dumps of 1024 bytes and a console of 1024.
pub const PARAMS: Params = Params {
    dump: 1024,
    console: 1024,
    ..BARE
};

/// The image of zones with these logs.
pub fn image_of(alloc: Global, logs: [&[u8]; 4]) -> Result<Vec<u8>, Fail> {
    let mut bytes = Vec::new(alloc);
    let mut end = 0usize;
    for log in logs {
        let used = u32::try_from(log.len())?.to_le_bytes();
        bytes.extend_from_slice(b"DBGC")?;
        bytes.extend_from_slice(&used)?;
        bytes.extend_from_slice(&used)?;
        bytes.extend_from_slice(log)?;
        end = end.saturating_add(1024);
        bytes.resize(end, 0)?;
    }
    Ok(bytes)
}

pub fn report_on(alloc: Global, logs: [&[u8]; 4]) -> Result<Report, Fail> {
    whole_reports::report_on(alloc, &PARAMS, image_of(alloc, logs)?)
}
