// Where a call is, as numbers that C sees, and back.
ghost use Rattle.std.specs.Prelude.{◌≡◌, ◌≤◌};
ghost use Rattle.oopsbox_c.specs.Numbers.{call_number, call_in, leg_number, leg_in, phase_number, phase_in};

use store_steps::{CallKind, Leg, Phase};

pub(crate) fn call_number(kind: CallKind) -> u32
    ensures value { result ≡ call_number kind }
    ensures most { result ≤ 2 }
{
    match kind {
        CallKind::Append => 0,
        CallKind::Erase => 1,
        CallKind::Dump => 2,
    }
}

/// The call of a number up to 2.
pub(crate) fn call_in(number: u32) -> CallKind
    ensures { result ≡ call_in number }
{
    match number {
        0 => CallKind::Append,
        1 => CallKind::Erase,
        _ => CallKind::Dump,
    }
}

pub(crate) fn leg_number(leg: Leg) -> u32
    ensures value { result ≡ leg_number leg }
    ensures most { result ≤ 3 }
{
    match leg {
        Leg::Erasure => 0,
        Leg::Payload => 1,
        Leg::Line => 2,
        Leg::Body => 3,
    }
}

/// The part of a number up to 3.
pub(crate) fn leg_in(number: u32) -> Leg
    ensures { result ≡ leg_in number }
{
    match number {
        0 => Leg::Erasure,
        1 => Leg::Payload,
        2 => Leg::Line,
        _ => Leg::Body,
    }
}

pub(crate) fn phase_number(phase: Phase) -> u32
    ensures value { result ≡ phase_number phase }
    ensures most { result ≤ 9 }
{
    match phase {
        Phase::ZeroStart => 0,
        Phase::ZeroSize => 1,
        Phase::Size => 2,
        Phase::Start => 3,
        Phase::First => 4,
        Phase::FirstParity => 5,
        Phase::Second => 6,
        Phase::SecondParity => 7,
        Phase::Header => 8,
        Phase::Finished => 9,
    }
}

/// The phase of a number up to 9.
pub(crate) fn phase_in(number: u32) -> Phase
    ensures { result ≡ phase_in number }
{
    match number {
        0 => Phase::ZeroStart,
        1 => Phase::ZeroSize,
        2 => Phase::Size,
        3 => Phase::Start,
        4 => Phase::First,
        5 => Phase::FirstParity,
        6 => Phase::Second,
        7 => Phase::SecondParity,
        8 => Phase::Header,
        _ => Phase::Finished,
    }
}
