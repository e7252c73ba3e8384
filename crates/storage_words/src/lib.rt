//! The sizes of a storage that the kernel's pstore_zone wrote, in words as pstore_blk takes them (`fs/pstore/blk.c`), and
//! why some divide no storage.
#![tactic(auto)]

mod division;
mod laws;
mod words;

pub use division::{size_fault_number, size_fault_text};
pub use laws::words_compute;
use psz_spec::Sizes;
pub use words::{is_of_storage, storages_by};

/// Which files are storages.
#[derive(Clone, Copy, Debug, PartialEq, Eq)]
pub enum Storages {
    /// None.
    Never,
    /// Those in which a dump stands.
    Shown,
    /// Each, divided by these sizes. The file's length takes the place of `total`.
    All(Sizes),
}
