//! The words of the message log: the reasons of a crash, and in `specs/` the definition of the body that a crash dump
//! has (`fs/pstore/platform.c`, `pstore_dump`; `kernel/printk/printk.c`, `kmsg_dump_get_buffer`).
#![tactic(auto)]

ghost use Rattle.std.specs.Prelude.{◌≡◌};
ghost use Rattle.kmsg_spec.specs.Reasons.{reason_number, reason_of};

/// Why a machine dumps its message log (`include/linux/kmsg_dump.h`, `enum kmsg_dump_reason`).
#[derive(Clone, Copy, Debug, PartialEq, Eq)]
pub enum Reason {
    Panic,
    Oops,
    Emergency,
    Shutdown,
}

impl Reason {
    /// The reason's number.
    pub fn number(self) -> u32
        ensures { result ≡ reason_number self }
    {
        match self {
            Reason::Panic => 1,
            Reason::Oops => 2,
            Reason::Emergency => 3,
            Reason::Shutdown => 4,
        }
    }

    /// The reason of this number; a shutdown for each other one.
    pub fn of_number(number: u32) -> Reason
        ensures { result ≡ reason_of number }
    {
        match number {
            1 => Reason::Panic,
            2 => Reason::Oops,
            3 => Reason::Emergency,
            _ => Reason::Shutdown,
        }
    }
}
