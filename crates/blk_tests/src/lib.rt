//! Tests of the block store, a module for each crate.
#![tactic(auto)]

#[cfg(test)]
mod blk_session_tests;
#[cfg(test)]
mod params_tests;
#[cfg(test)]
mod zone_blk_tests;
