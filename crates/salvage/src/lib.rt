//! Rings found at unknown places in a memory dump, under the parameters of a layout.
//!
//! Each even place of the dump may be the beginning of a ring of each shape that the layout's zones have. Most places
//! hold none, so the header's known bytes decide first, and the decoder runs only where few of them differ.
#![tactic(auto)]

mod header;
mod scan;
mod shape;
mod sieve;

pub use prz_read::Reading;
pub use salvage_spec::{FoundRing, RingFault};
pub use scan::Scan;
