//! Tests of one zone, a module for each crate: its region, parts, calls, readings and records.
#![tactic(auto)]

#[cfg(test)]
mod dump_records_tests;
#[cfg(test)]
mod ftrace_zone_tests;
#[cfg(test)]
mod prz_ecc_tests;
#[cfg(test)]
mod prz_read_tests;
#[cfg(test)]
mod prz_region_tests;
#[cfg(test)]
mod prz_write_tests;
#[cfg(test)]
#[cfg(test)]
mod store_steps_tests;
#[cfg(test)]
mod zone_boot_tests;
