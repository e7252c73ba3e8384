//! The session of a number: calls, an append that is cut, and damage, drawn by the numbers that it begins, in eight
//! rounds.
#![tactic(auto)]

mod calls;
mod counts;
mod damage;
mod draws;
mod generating;
mod rounds;
mod turns;

use damage::{draw_all, make_damage};
pub use draws::Draws;
pub use generating::generate;
use turns::{CutAppend, Targets};
