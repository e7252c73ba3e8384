//! Tests of death: logs by hand, in the forms of the kernel's architectures, and records that real kernels left.
#![tactic(auto)]

#[cfg(test)]
mod cause_tests;
#[cfg(test)]
mod death_tests;
#[cfg(test)]
mod ending_tests;
#[cfg(test)]
mod form_tests;
#[cfg(test)]
mod frame_tests;
#[cfg(test)]
mod hang_tests;
#[cfg(test)]
mod lines_tests;
#[cfg(test)]
mod records;
#[cfg(test)]
mod row_tests;
#[cfg(test)]
mod signature_tests;
#[cfg(test)]
mod trace_tests;
