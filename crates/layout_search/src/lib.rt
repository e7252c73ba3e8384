//! The layout of a region, found from its bytes alone.
#![tactic(auto)]

mod counting;
mod laying;
mod levels;
mod lists;
mod looking;
mod marks;
mod order;
mod peeking;
mod progress;
mod refusing;
mod rows;
mod searching;
mod seeing;
mod sights;
mod sweeping;
mod tagging;
mod trying;

pub use laying::params;
pub use layout_spec::{Candidate, Known, Tally};
pub use looking::PLAIN_SIGNATURE;
pub use marks::is_mark;
pub use searching::{FEW, Found, search, search_within};
