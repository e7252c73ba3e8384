//! A report's text with colours for a terminal. A colour begins before a line and ends behind it, and changes no byte of
//! it.
#![tactic(auto)]

mod colours;
pub mod laws;
mod sink;

pub use sink::ColourSink;
