//! The image tool: a command with its parameters, a script or none, an image, and the text that comes of them.
#![tactic(auto)]

mod blk_script;
mod images;
mod layout_text;
mod making;
mod moving;
mod records;
mod salvaging;
mod scripts;
mod sharing;
mod stores;
mod work;

pub use command_line::{Cause, Stop};
pub use ram_generator::Draws;
pub use work::run;
