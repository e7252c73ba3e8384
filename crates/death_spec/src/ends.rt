// The words with which a log ends that tells of no death.

use crate::Ending;

/// Words at the front of the last line, and how the log ends. The kernel writes them in kernel/reboot.c,
/// arch/x86/kernel/reboot.c, kernel/kexec_core.c, drivers/tty/sysrq.c and fs/sync.c.
pub const ENDS: &[(Ending, &[u8])] = &[
    (Ending::Restarted, b"reboot: Restarting system"),
    (Ending::Restarted, b"reboot: machine restart"),
    (Ending::Restarted, b"kexec_core: Starting new kernel"),
    (Ending::SwitchedOff, b"reboot: Power down"),
    (Ending::SwitchedOff, b"reboot: Power off"),
    (Ending::SwitchedOff, b"reboot: System halted"),
    (Ending::Reset, b"sysrq: Resetting"),
    (Ending::Reset, b"sysrq: Emergency Sync"),
    (Ending::Reset, b"Emergency Sync complete"),
];
