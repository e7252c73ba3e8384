//! Tests of sessions, a module for each crate: a script on the machine, the session of a number.
#![tactic(auto)]

#[cfg(test)]
mod listing_tests;
#[cfg(test)]
mod ram_generator_tests;
#[cfg(test)]
mod ram_session_tests;
#[cfg(test)]
mod stores;
