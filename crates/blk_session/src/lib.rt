//! A script's session on the block store: lines of a script as they are done, and what each prints.
#![tactic(auto)]

mod calls;
mod errors;
mod lines;
mod playing;
mod records;
mod texts;

pub use errors::LineError;
pub use lines::do_line;
pub use playing::play;
