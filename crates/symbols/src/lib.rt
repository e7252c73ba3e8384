//! The functions of a kernel's symbol map, and which one an address is of.
#![tactic(auto)]

mod map;
mod named;
mod shifts;
mod table;

pub use named::Symbols;
pub use symbol_spec::Symbol;
