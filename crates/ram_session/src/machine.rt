// A script's machine.
ghost use Rattle.std.specs.Prelude.{◌≡◌, ℕ, List};
ghost use Rattle.zone_spec.specs.declared.Zone.{Zone};
ghost use Rattle.machine_spec.specs.States.{Session};
ghost use Rattle.machine_spec.specs.Stop.{session_image};
ghost use Rattle.ram_session.specs.Sessions.{Stands};
ghost use Rattle.ram_session.specs.Machines.{store_of};

use crate::Kernel;
use outside::Bytes;
use prz_read::Logs;
use ramoops::{Live, Off};
use script_spec::Cause;
use std::alloc::AllocError;

/// The machine of a script: off, or live, with the logs that its last boot saved and its kernel.
#[derive(Drop)]
pub enum Machine {
    Off(Off),
    Live(Live, Logs, Kernel),
}

impl Machine {
    /// The bytes of the image, of a live store as a stop would leave it.
    #[tactic(auto, using(crate::proofs::Images::off_image, crate::proofs::Images::live_image))]
    pub fn into_image(self) -> Bytes
        ensures { (layout : List Zone) (mem : ℕ) (s : Session) → Stands layout mem (store_of self) s
            → result ≡ session_image s }
    {
        match self {
            Machine::Off(off) => off.into_image(),
            Machine::Live(live, _, _) => live.into_image(),
        }
    }
}

/// Why a line was not done.
#[derive(Clone, Copy, Debug, PartialEq, Eq)]
pub enum LineError {
    Memory,
    Refused(Cause),
}

impl From<AllocError> for LineError {
    ghost use Rattle.std.specs.Prelude.{◌≡◌};
    ghost use Rattle.ram_session.specs.declared.machine.LineError.TheVariants.{Memory};

    ghost from_gives = { λ _ e. e ≡ Memory };

    fn from(_e: AllocError) -> LineError {
        LineError::Memory
    }
}
