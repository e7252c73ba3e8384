//! A region of bytes in one allocation, cut into one span for each zone of a layout, and the words of a zone's header.
//!
//! A span points to its bytes in the region: cutting and joining copy none. All `unsafe` code of the repository is in
//! the module `block`.
#![tactic(auto)]

mod block;
mod header;
mod pieces;
mod probe;
mod spans;

pub use header::{Places, RingWords};
pub use probe::Probe;
pub use spans::{Region, Span, Spans};
