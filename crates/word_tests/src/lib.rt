//! Tests of words and lines, a module for each crate: parameters, layouts and scripts.
#![tactic(auto)]

#[cfg(test)]
mod cmdline_tests;
#[cfg(test)]
mod colours_tests;
#[cfg(test)]
mod keys_tests;
#[cfg(test)]
mod outside_tests;
#[cfg(test)]
mod params_tests;
#[cfg(test)]
mod script_tests;
