//! Tests of the codes, a module for each crate: vectors of other programs.
#![tactic(auto)]

#[cfg(test)]
mod gf256_tests;
#[cfg(test)]
mod gf_poly_tests;
#[cfg(test)]
mod inflate_tests;
#[cfg(test)]
mod rs_decode_tests;
#[cfg(test)]
mod rs_encode_tests;
