// Where a boot is, as numbers that C sees, and back.
ghost use Rattle.std.specs.Prelude.{◌≡◌, ◌≤◌};
ghost use Rattle.oopsbox_c.specs.BootNumbers.{phase_number, phase_in, erasure_number, erasure_in};

use zone_boot::{Erasure, Phase};

pub(crate) fn phase_number(phase: Phase) -> u32
    ensures value { result ≡ phase_number phase }
    ensures most { result ≤ 6 }
{
    match phase {
        Phase::Header => 0,
        Phase::Blocks => 1,
        Phase::Signature => 2,
        Phase::Start => 3,
        Phase::Size => 4,
        Phase::Parity => 5,
        Phase::Finished => 6,
    }
}

/// The phase of a number up to 6.
pub(crate) fn phase_in(number: u32) -> Phase
    ensures { result ≡ phase_in number }
{
    match number {
        0 => Phase::Header,
        1 => Phase::Blocks,
        2 => Phase::Signature,
        3 => Phase::Start,
        4 => Phase::Size,
        5 => Phase::Parity,
        _ => Phase::Finished,
    }
}

pub(crate) fn erasure_number(erasure: Erasure) -> u32
    ensures value { result ≡ erasure_number erasure }
    ensures most { result ≤ 2 }
{
    match erasure {
        Erasure::Kept => 0,
        Erasure::Erased => 1,
        Erasure::Signed => 2,
    }
}

/// The erasure of a number up to 2.
pub(crate) fn erasure_in(number: u32) -> Erasure
    ensures { result ≡ erasure_in number }
{
    match number {
        0 => Erasure::Kept,
        1 => Erasure::Erased,
        _ => Erasure::Signed,
    }
}
