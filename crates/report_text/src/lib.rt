//! The text of a report for people at a terminal: why the machine died, what is known of it, the lines that tell it,
//! earlier deaths, the zones, the records with their times as dates, and last lines.
//!
//! A text is a list of pieces: its own words, numbers, times, names, and foreign bytes. Whatever the bytes are, no more
//! than printable ASCII, tabs and newlines reach the terminal.
#![tactic(auto, using(crate::proofs::PartSums::split))]

mod around;
mod died;
mod earlier;
mod facts;
pub mod laws;
mod lines;
mod pieces;
mod records;
mod rows;
mod seen;
mod visible;
mod warned;
mod whole;
mod zones;

pub use pieces::Piece;
pub use whole::{brief, text};
