//! The words of a text log, such as a serial capture or what `dmesg` printed, and in `specs/` the definition of the
//! boots that it holds.
#![tactic(auto)]

/// A line by which a boot begins.
#[derive(Clone, Copy, Debug, PartialEq, Eq)]
pub enum Head {
    /// `Booting Linux on physical CPU`, which Arm writes before its version.
    Booting,
    /// `Linux version`.
    Version,
}

/// Bytes that belong together in a line.
#[derive(Clone, Copy, Debug, PartialEq, Eq)]
pub enum Class {
    /// All but a newline.
    Line,
    /// A space, a tab or a carriage return.
    Blank,
    /// All but these.
    Word,
    /// All but `]`.
    Bracketed,
    /// All but `>`.
    Angled,
    /// A digit, a semicolon or what else may stand in a terminal's escape sequence before its last byte.
    Parameter,
}

/// The part of a log that one boot wrote, in bytes from 0; it is never empty.
#[derive(Clone, Copy, Debug, PartialEq, Eq)]
pub struct Boot {
    pub start: usize,
    pub end: usize,
}

/// What the two lines begin with.
pub const BOOTING: &[u8] = b"Booting Linux on physical CPU";

pub const VERSION: &[u8] = b"Linux version ";

/// The last word of what syslog and the journal write before a line of the kernel.
pub const KERNEL: &[u8] = b"kernel:";
