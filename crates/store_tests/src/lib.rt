//! Tests of the ram store, a module for each crate: all zones, their records, a shared zone, and rings of a dump.
#![tactic(auto)]

#[cfg(test)]
mod kmsg_dump_tests;
#[cfg(test)]
mod pstore_records_tests;
#[cfg(test)]
mod ramoops_tests;
#[cfg(test)]
mod salvage_tests;
#[cfg(test)]
mod shared_ring_tests;
