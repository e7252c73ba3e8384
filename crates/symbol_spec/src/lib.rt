//! The words of a kernel's symbol map, and in `specs/` the definitions of its functions: which one an address is of.
#![tactic(auto)]

/// A function of a map.
#[derive(Clone, Copy, Debug, PartialEq, Eq)]
pub struct Symbol {
    pub address: u64,
    /// The place in the map at which its name begins.
    pub name: usize,
}
