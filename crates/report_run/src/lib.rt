//! One file of `oopsreport` after another, an image or a whole memory: what is given to standard output and to standard
//! error, which files are made, and the status. The files, the two outputs and the folder are the caller's.
#![tactic(auto)]

mod boots;
mod choosing;
mod failures;
mod images;
mod logs;
mod memories;
mod messages;
mod packed;
mod places;
mod plans;
mod read_only;
mod records;
mod regions;
mod running;
mod storages;

pub use failures::Failure;
pub use found_regions::Watch;
pub use messages::Messages;
pub use plans::{Asked, Logs, Wanted, WholeMemory, dressed, format_for};
pub use read_only::ReadOnly;
pub use records::Records;
pub use running::{FileEnd, Images, NamedFile, is_counted, run, status_of};
pub use storage_words::Storages;
