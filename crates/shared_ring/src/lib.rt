//! One zone that many writers share: calls reserve their places in it and then store their bytes one by one, in any
//! order (`fs/pstore/ram_core.c`, `persistent_ram_write`).
//!
//! A `Shared` is left by a history: the image as it was opened, and the reservations and steps since. Each call's
//! clauses hold of every history that leaves it, and so do the laws of shared zones.
#![tactic(auto)]

mod opening;
mod seats;
mod shared;

pub use opening::can_open;
pub use shared::Shared;
pub use shared_spec::{Next, NoCall, OpenCall, SharedRefusal};
