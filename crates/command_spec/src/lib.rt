//! The image tool's commands: the words that name them, what each wants, what a run answers, and how it ends. Plain
//! types that definitions and code share, and in `specs/` the definitions that contracts cite.
#![tactic(auto)]

use grammar_spec::ParamFault;
use script_spec::Cause;
use std::alloc::AllocError;
use zone_spec::LayoutFault;

/// Why a run ends before its work is done.
#[derive(Clone, Copy, Debug, PartialEq, Eq)]
pub enum Stop {
    Memory,
    Usage,
    /// A faulty parameter, and how many words stand before the first parameter.
    Param { fault: ParamFault, before: u32 },
    Layout(LayoutFault),
    /// A layout without fault, in which the zone that is to be shared is missing or has parity.
    NoSharedZone,
    /// The image has fewer bytes than the layout needs.
    Short { has: u64, needed: u32 },
    ScriptFault,
    ImageFault,
    SinkFault,
    TooLong,
    /// The first line outside the grammar, counted from 1.
    BadLine(u32),
    Refused { line: u32, cause: Cause },
}

impl From<AllocError> for Stop {
    ghost use Rattle.std.specs.Prelude.{◌≡◌};
    ghost use Rattle.command_spec.specs.declared.Stop.TheVariants.{Memory};

    ghost from_gives = { λ _ e. e ≡ Memory };

    fn from(_e: AllocError) -> Stop {
        Stop::Memory
    }
}
