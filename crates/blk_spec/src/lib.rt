//! The words of the block store: the plain types that code and definitions share, and in `specs/` the definitions that
//! contracts cite. The store is a project's own, on the model of `fs/pstore/blk.c` and `fs/pstore/zone.c`.
#![tactic(auto)]

ghost use Rattle.std.specs.Prelude.{◌≡◌};

pub use kmsg_spec::Reason;
use std::alloc::AllocError;
use thiserror::Error;

/// The parameters of a block store as they are given. All are in bytes: `total` is the store's size, `kmsg` that of a
/// dump zone, `console` and `pmsg` those of the two rings.
#[derive(Clone, Copy, Debug, PartialEq, Eq)]
pub struct BlkParams {
    pub total: u64,
    pub kmsg: u64,
    pub console: u64,
    pub pmsg: u64,
}

/// The zones of a block store: pmsg at 0, the console after it, then `dumps` dump zones of `kmsg` bytes each. Sizes
/// are in bytes; 0 is no zone.
#[derive(Clone, Copy, Debug, PartialEq, Eq)]
pub struct BlkLayout {
    pub total: u32,
    pub kmsg: u32,
    pub console: u32,
    pub pmsg: u32,
    pub dumps: u32,
}

/// The zones that are appended to.
#[derive(Clone, Copy, Debug, PartialEq, Eq)]
pub enum BlkRing {
    Console,
    Pmsg,
}

/// Where a zone lies in the store, its bytes, and the signature of its header.
#[derive(Clone, Copy, Debug, PartialEq, Eq)]
pub struct BlkZone {
    pub at: u32,
    pub size: u32,
    pub sig: u32,
}

/// The words of a ring: how many data bytes it has, and the data place of the next one.
#[derive(Clone, Copy, Debug, PartialEq, Eq)]
pub struct BlkWords {
    pub size: u32,
    pub start: u32,
}

/// A moment, as seconds of at most 2^63 - 1 and nanoseconds below 1,000,000,000.
#[derive(Clone, Copy, Debug, PartialEq, Eq)]
pub struct BlkTime {
    pub secs: u64,
    pub nanos: u32,
}

/// The name of a record. `index` is the dump zone's, `packed` says that the dump is compressed.
#[derive(Clone, Copy, Debug, PartialEq, Eq)]
pub enum BlkName {
    Dump { index: u32, packed: bool },
    Console,
    Pmsg,
}

/// How many of the next bytes still reach the store.
#[derive(Clone, Copy, Debug, PartialEq, Eq)]
pub enum BlkCut {
    /// All do.
    Uncut,
    /// So many do, and none was dropped.
    After(u64),
    /// None does: a byte was dropped.
    Dropped,
}

/// Why a call on the block store was not done.
#[derive(Clone, Copy, Debug, PartialEq, Eq, Error)]
pub enum BlkFault {
    #[error("no zone of this kind")]
    NoZone,
    #[error("no record of this name")]
    NoRecord,
    #[error("the store failed")]
    StoreFault,
    #[error("no memory")]
    Memory,
}

impl From<AllocError> for BlkFault {
    ghost use Rattle.blk_spec.specs.declared.BlkFault.TheVariants.{Memory};

    ghost from_gives = { λ _ fault. fault ≡ Memory };

    fn from(_cause: AllocError) -> BlkFault {
        BlkFault::Memory
    }
}
