//! The frame of a run of the image tool: its words, what it reads and writes, and its last line.
#![tactic(auto)]

mod asked;
mod ending;
mod stages;
mod words;

pub use command_spec::Stop;
pub use ending::{end_of, finish, stop_of};
pub use script_spec::Cause;
pub use stages::read_lines;
pub use words::{Plan, RamCommand, read_plan};
