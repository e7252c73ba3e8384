//! Tests of dtb: trees that dtc wrote, and trees by hand, one for each fault and for each rule of the kernel.
#![tactic(auto)]

#[cfg(test)]
mod dtb_tests;
#[cfg(test)]
mod trees;
#[cfg(test)]
mod writer;
