//! Tests of layout_search: small images by hand, with the parity of a fresh header as a kernel wrote it, and worked rows
//! of layout_spec.
#![tactic(auto)]

#[cfg(test)]
mod layout_search_tests;
mod rows;

pub use rows::{one_damaged_header, two_byte_orders, two_empty_zones, two_orders};
