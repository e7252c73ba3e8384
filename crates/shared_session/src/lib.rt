//! A script's session on a shared zone: the lines of a script as they are done, and the text at its end.
#![tactic(auto)]

mod lines;
mod playing;
mod texts;

pub use lines::do_line;
pub use playing::play;
pub use texts::shared_text;
