//! Scripts: the lines that a session is made of, read from text and printed.
#![tactic(auto)]

mod digits;
mod fields;
mod lines;
pub mod pieces;
mod printing;
mod reading;
mod rows;

pub use fields::{number, zone};
pub use grammar_spec::Line;
pub use lines::Lines;
pub use printing::{print, printed_is_read};
pub use reading::{ParseFault, Reading, parse};
