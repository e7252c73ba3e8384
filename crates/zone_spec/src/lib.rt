//! The words of the crash log store: the plain types that code and definitions share, and in `specs/` the
//! definitions that contracts cite.
#![tactic(auto)]

mod params;

pub use params::{ByteOrder, LayoutFault, Order, Params, Row};

/// What a zone is for (`include/linux/pstore.h`: `dmesg`, `console`, `ftrace` and `pmsg`).
#[derive(Clone, Copy, Debug, PartialEq, Eq)]
pub enum Kind {
    Dump,
    Console,
    Ftrace,
    Pmsg,
}

/// A zone's kind and its place among the zones of that kind, from 0.
#[derive(Clone, Copy, Debug, PartialEq, Eq)]
pub struct ZoneName {
    pub kind: Kind,
    pub index: u32,
}

/// Where a zone lies in the image, and how it is divided (`fs/pstore/ram_core.c`, `persistent_ram_zone`).
///
/// All lengths are in bytes: `at` is the zone's place in the image, `size` its length, `cap` that of its data,
/// `block` the data of one parity block, `parity` the parity bytes of each part. `blocks` is the number of parity
/// blocks, and `sig` the whole signature, 0x43474244 exclusive-or the zone's tag. `byte_order` is that of the header's
/// words.
#[derive(Clone, Copy, Debug, PartialEq, Eq)]
pub struct Zone {
    pub name: ZoneName,
    pub at: u32,
    pub size: u32,
    pub cap: u32,
    pub blocks: u32,
    pub parity: u32,
    pub sig: u32,
    pub block: u32,
    pub byte_order: ByteOrder,
}

/// The three words of a zone's header, each 32 bits, in the zone's byte order (`struct persistent_ram_buffer`).
#[derive(Clone, Copy, Debug, PartialEq, Eq)]
pub struct Words {
    pub sig: u32,
    pub start: u32,
    pub size: u32,
}

/// What a boot takes a zone for.
#[derive(Clone, Copy, Debug, PartialEq, Eq)]
pub enum State {
    /// The header reads without the zone's signature.
    Unsigned,
    /// Start and size are 0.
    Empty,
    /// Size is above the capacity, or start above size.
    Invalid,
    /// The words are a ring.
    Found,
}

/// How the header or a block reads.
#[derive(Clone, Copy, Debug, PartialEq, Eq)]
pub enum PartState {
    /// As the nearest codeword, which differs in so many bytes, of parity too; 0 where the part is clean.
    Read(u32),
    /// No codeword is near enough: the bytes are taken as they stand.
    Bad,
}

/// The calls that store into a zone.
#[derive(Clone, Copy, Debug, PartialEq, Eq)]
pub enum CallKind {
    Append,
    Erase,
    Dump,
}

/// A start word and a size word.
#[derive(Clone, Copy, Debug, Default, PartialEq, Eq)]
pub struct Pair {
    pub start: u32,
    pub size: u32,
}

/// A boot's log against what the zone was told.
#[derive(Clone, Copy, Debug, PartialEq, Eq)]
pub enum Verdict {
    /// No told list is known.
    NothingTold,
    /// The log is the told list.
    AsTold,
    /// The lengths of told list and log, and that of their longest common prefix.
    Differs { told: u32, seen: u32, first: u32 },
}

/// Which pair of a cut call the header reads.
#[derive(Clone, Copy, Debug, PartialEq, Eq)]
pub enum HeaderSeen {
    /// The least number of a pair that it reads with the zone's signature.
    Pair(u8),
    /// No pair of the call, or another signature.
    Foreign,
}

/// A moment, as seconds and microseconds. A dump is written at a time of at most 2^63 - 1 seconds and fewer than
/// 1,000,000 microseconds; one that is read can have up to 999,999,999 microseconds.
#[derive(Clone, Copy, Debug, PartialEq, Eq)]
pub struct Time {
    pub secs: u64,
    pub micros: u32,
}

/// The line that a dump's log begins with: its time, whether the dump is compressed, and the line's bytes with their
/// newline (`fs/pstore/ram.c`, `ramoops_write_kmsg_hdr`).
#[derive(Clone, Copy, Debug, PartialEq, Eq)]
pub struct TimeLine {
    pub time: Time,
    pub packed: bool,
    pub len: u32,
}

/// The name of a record (`fs/pstore/inode.c`, `pstore_mkfile`). `index` is the dump zone's, `packed` says that the
/// dump is compressed.
#[derive(Clone, Copy, Debug, PartialEq, Eq)]
pub enum Name {
    Dump { index: u32, packed: bool },
    Console,
    Pmsg,
    Ftrace,
}

/// Why the store refuses an operation.
#[derive(Clone, Copy, Debug, PartialEq, Eq)]
pub enum Refusal {
    /// The layout has no such zone, an append names a dump zone, or there is no dump zone for a dump.
    NoZone,
    /// A call is in flight there; for a dump, in any dump zone.
    Busy,
    /// No call is in flight there.
    Idle,
    /// The place is at or past the image's end.
    OutOfImage,
}
