// Why a line was not done.
ghost use Rattle.std.specs.Prelude.{◌≡◌};
ghost use Rattle.blk_session.specs.Lines.{error_of};

use script_spec::Cause;
use std::alloc::AllocError;
use zone_blk::BlkFault;

/// Why a line was not done.
#[derive(Clone, Copy, Debug, PartialEq, Eq)]
pub enum LineError {
    Memory,
    StoreFault,
    Refused(Cause),
}

impl From<AllocError> for LineError {
    ghost use Rattle.blk_session.specs.declared.errors.LineError.TheVariants.{Memory};

    ghost from_gives = { λ _ e. e ≡ Memory };

    fn from(_e: AllocError) -> LineError {
        LineError::Memory
    }
}

/// A call that was not done, as a line tells it.
pub fn line_error(fault: BlkFault) -> LineError
    ensures { result ≡ error_of fault }
{
    match fault {
        BlkFault::NoZone => LineError::Refused(Cause::NoZone),
        BlkFault::NoRecord => LineError::Refused(Cause::NoRecord),
        BlkFault::StoreFault => LineError::StoreFault,
        BlkFault::Memory => LineError::Memory,
    }
}
