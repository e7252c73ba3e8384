// The panics that something else caused.

use crate::Cause;

/// Words of a panic, wherever they stand in it, and what above it the panic is about. The first row that fits decides.
/// The kernel writes them in kernel/panic.c, kernel/exit.c, kernel/watchdog.c, kernel/hung_task.c, kernel/rcu and
/// arch/*/kernel/traps.c.
pub const CAUSES: &[(Cause, &[u8])] = &[
    (Cause::LastOops, b"Fatal exception"),
    (Cause::OopsOfInit, b"Attempted to kill init!"),
    (Cause::LastSoftLockup, b"softlockup: hung tasks"),
    (Cause::LastHardLockup, b"Hard LOCKUP"),
    (Cause::LastHardLockup, b"detected hard LOCKUP"),
    (Cause::LastHungTask, b"hung_task: blocked tasks"),
    (Cause::LastStall, b"RCU Stall"),
    (Cause::OpenFault, b"KASAN: panic_on_warn set"),
    (Cause::OpenFault, b"KCSAN: panic_on_warn set"),
    (Cause::OpenFault, b"KFENCE: panic_on_warn set"),
    (Cause::OpenFault, b"kasan.fault=panic set"),
    (Cause::OpenFault, b"scheduling while atomic"),
    (Cause::OpenWarning, b"panic_on_warn set"),
    (Cause::OpenWarning, b"Fatal machine check"),
    (Cause::OpenWarning, b"Fatal Machine check"),
    (Cause::OpenWarning, b"Machine halted."),
    (Cause::OpenStackOverflow, b"kernel stack overflow"),
    (Cause::OpenSystemError, b"Asynchronous SError Interrupt"),
];

/// What the processor's line of a report says of the first process.
pub const FIRST_PROCESS: &[u8] = b"PID: 1 ";
