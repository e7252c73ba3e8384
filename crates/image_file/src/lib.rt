//! An image in a file: read from its front, and written there, in rising pieces.
#![tactic(auto)]

mod loading;
mod saving;

pub use command_spec::Stop;
pub use loading::{check_size, load, load_front};
pub use saving::{fill, save};

// How many bytes are read or written at once.
const PIECE: usize = 65_536;
