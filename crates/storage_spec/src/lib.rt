//! What a report shows of a storage that the kernel's pstore_zone wrote: its zones as those of a region, the records that
//! the next boot lists, and what the bytes of a file show of a storage.
#![tactic(auto)]

use psz_spec::{Machine, Sizes};

/// How a storage is read.
#[derive(Clone, Copy, Debug, PartialEq, Eq)]
pub struct Storage {
    pub sizes: Sizes,
    /// The machine that wrote it.
    pub machine: Machine,
    /// One dump alone stands there: other sizes of dump zones show the same.
    pub tied: bool,
}
