//! A storage that the kernel's pstore_zone wrote (`fs/pstore/zone.c`), read as a region is: its zones with what a boot
//! takes them for, the records that the next boot lists, and the storage of the sizes that its headers show.
#![tactic(auto)]

mod contents;
mod finding;
mod laws;
mod listing;
mod records;
mod telling;
mod traces;
mod zones;

pub use finding::storage_by;
pub use laws::few_bytes_are_a_report;
pub use listing::held_records;
pub use storage_spec::Storage;
pub use telling::storage_lines;
pub use zones::{ZonesRead, lying_zones, read_zones};
