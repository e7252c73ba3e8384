//! Regions in a copy of a machine's memory: the pages at which a header seems to stand, and the size and layout of the
//! region that begins at a place.
#![tactic(auto)]

mod choosing;
mod pages;
mod rings;
mod sizes;

pub use choosing::{Reading, best, larger, readings};
pub use pages::{Unread, Watch, marked_pages, window};
