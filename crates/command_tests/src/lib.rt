//! Tests of the image tool: whole runs over the objects in memory.
#![tactic(auto)]

#[cfg(test)]
mod blk_tests;
#[cfg(test)]
mod crash_tests;
#[cfg(test)]
mod fault_tests;
#[cfg(test)]
mod generator_tests;
#[cfg(test)]
mod move_tests;
#[cfg(test)]
mod record_tests;
#[cfg(test)]
mod run_tests;
#[cfg(test)]
mod salvage_tests;
#[cfg(test)]
mod session_tests;
#[cfg(test)]
mod shared_tests;
