//! Scripts: what their lines do and put on the ram store, on the block store and on a shared zone, and why they stop.
//! The session of a number stands beside them. Plain types that definitions and code share, and in `specs/` the
//! definitions that contracts cite.
#![tactic(auto)]

/// Why a line of a script was refused.
#[derive(Clone, Copy, Debug, PartialEq, Eq)]
pub enum Cause {
    IsOff,
    IsLive,
    NoZone,
    Busy,
    Idle,
    OutOfImage,
    NoRecord,
    NotHere,
    /// A line of the message log that does not fit in it.
    TooLong,
    /// All seats of a shared zone are taken.
    NoSeat,
    /// The open appends of a shared zone leave no place for this one.
    Crowded,
    /// No ring stands at the place.
    NoRing,
}

/// Why the lines of a script stop before all are done.
#[derive(Clone, Copy, Debug, PartialEq, Eq)]
pub enum LineStop {
    Memory,
    /// The store that the lines write as they are done.
    StoreFault,
    SinkFault,
    /// The line, counted from 1.
    Refused { line: u32, cause: Cause },
}
