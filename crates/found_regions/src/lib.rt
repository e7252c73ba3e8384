//! The regions in a copy of all of a machine's memory: which marked pages are looked at, and what is found there.
#![tactic(auto)]

mod places;
mod region;
mod search;

pub use memory_regions::{Unread, Watch};
pub use places::{first_address, place_asked};
pub use region::{Region, region_at};
pub use search::{Finding, findings};
