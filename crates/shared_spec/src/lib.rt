//! The words of a zone that several writers share: the plain types that code and definitions share, and in `specs/`
//! the definitions that contracts cite.
#![tactic(auto)]

/// Why a payload gets no reservation.
#[derive(Clone, Copy, Debug, PartialEq, Eq)]
pub enum SharedRefusal {
    /// 64 calls are open.
    NoSeat,
    /// With this many bytes held the payload does not fit.
    Crowded { held: u32 },
}

/// What a step did: it stored a byte of its call, or the call's last one.
#[derive(Clone, Copy, Debug, PartialEq, Eq)]
pub enum Next {
    Stored,
    Done,
}

/// No open call has the ticket.
#[derive(Clone, Copy, Debug, PartialEq, Eq)]
pub struct NoCall;

/// An open call: the number of reservations before it, the data place of its first byte, its length, and how many of
/// its bytes are stored.
#[derive(Clone, Copy, Debug, Default, PartialEq, Eq)]
pub struct OpenCall {
    pub ticket: u64,
    pub place: u32,
    pub length: u32,
    pub stored: u32,
}
