//! Tests of memory_regions: small memories by hand, read from a store that fails where it is told to.
#![tactic(auto)]

#[cfg(test)]
mod memory_regions_tests;
