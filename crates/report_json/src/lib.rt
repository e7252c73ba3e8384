//! A report as one line of JSON, for programs: why the machine died, or how the log ends, schema number, path,
//! parameters, warnings, zones with the state of each block, and records with their contents.
#![tactic(auto)]

mod deaths;
mod ends;
mod line;
mod machines;
mod records;
mod tokens;
mod warned;
mod zones;

pub use line::json;
