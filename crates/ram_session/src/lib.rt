//! A script's session on the store: calls made by their stores, lines of a script as they are done, and their texts.
#![tactic(auto)]

mod calls;
mod erasing;
mod kernel;
mod kernel_lines;
mod lines;
mod live_lines;
mod machine;
mod off_lines;
mod playing;
mod record_lines;
mod state_lines;
mod texts;

pub use calls::{begin, finish, make, step};
pub use erasing::erase;
pub use kernel::Kernel;
pub use lines::do_line;
pub use machine::{LineError, Machine};
pub use playing::play;
pub use record_lines::content_of;
pub use texts::{listing, move_text};
