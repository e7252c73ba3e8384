//! What people write: the words of parameters and the lines of scripts. Plain types that definitions and code share,
//! and in `specs/` the definitions that contracts cite.
#![tactic(auto)]

mod faults;
mod line;

pub use faults::ParamFault;
pub use line::Line;
