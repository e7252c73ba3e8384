//! The words of Android's log in a pmsg zone, and in `specs/` the definitions of its entries
//! (Android's liblog, `pmsg_writer.cpp` and `private/android_logger.h`).
#![tactic(auto)]

/// An entry of Android's log.
#[derive(Clone, Copy, Debug, PartialEq, Eq)]
pub struct Entry {
    /// The log that it was written to: 0 main, 1 radio, 2 events, 3 system, 4 crash, 5 stats, 6 security, 7 kernel.
    pub log: u8,
    pub uid: u16,
    pub pid: u16,
    pub tid: u16,
    /// Seconds since 1970.
    pub secs: u32,
    pub nanos: u32,
    /// Where its payload begins and ends in the pmsg's bytes: a priority, a tag and a text.
    pub start: usize,
    pub end: usize,
}

/// A date; the months and the days of a month count from 1.
#[derive(Clone, Copy, Debug, PartialEq, Eq)]
pub struct Date {
    pub year: u32,
    pub month: u32,
    pub day: u32,
}
