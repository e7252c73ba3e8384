//! The report of a storage that the kernel's pstore_zone wrote: found in an image by the headers that stand there, read
//! by its zones, and shown as the report of a region is.
#![tactic(auto)]

mod filling;
mod laws;
mod loading;
mod reading;
mod scanning;
mod showing;
mod storage;

pub use laws::copy_is_enough;
pub use loading::held_storage;
pub use reading::{StorageRead, read};
pub use showing::report;
pub use storage::{HeldStorage, NoStorage};
