// Where a call is.

/// What a part of a call does: it erases, or appends the bytes of an append, a dump's line or its body's front.
#[derive(Clone, Copy, Debug, PartialEq, Eq)]
pub enum Leg {
    Erasure,
    Payload,
    Line,
    Body,
}

/// What the next store belongs to.
#[derive(Clone, Copy, Debug, PartialEq, Eq)]
pub enum Phase {
    ZeroStart,
    ZeroSize,
    Size,
    Start,
    First,
    FirstParity,
    Second,
    SecondParity,
    Header,
    Finished,
}

/// Where a call is: its part, the ring at the part's begin, the phase, the block whose parity is stored, and the number
/// within the phase.
#[derive(Clone, Copy, Debug, PartialEq, Eq)]
pub struct Place {
    pub leg: Leg,
    pub start: u32,
    pub size: u32,
    pub phase: Phase,
    pub block: u32,
    pub number: u32,
}
