//! The library for C: calls on numbers and slices of bytes, with no state between them. docs/LIBRARY.md says what a
//! caller owes, and include/oopsbox.h declares each call.
#![tactic(auto)]

mod boot_numbers;
mod boots;
mod calls;
mod codes;
mod ends;
mod flights;
mod laws;
mod layouts;
mod memory;
mod numbers;
mod places;
mod readings;
mod reporting;
mod running;
mod stores;
mod tables;
mod zones;

pub use boots::{ZoneBoot, oopsbox_boot_begin, oopsbox_boot_next};
pub use calls::{oopsbox_layout, oopsbox_run, oopsbox_zone};
pub use codes::{oopsbox_rs_decode, oopsbox_rs_encode};
pub use ends::End;
pub use flights::{
    Flight, oopsbox_append, oopsbox_append_begin, oopsbox_dump_begin, oopsbox_erase_begin,
    oopsbox_flight_next,
};
pub use laws::flights_are_whole;
pub use layouts::{LayoutParams, oopsbox_zone_at};
pub use places::{LayoutAnswer, ZoneAnswer, ZonePlace};
pub use readings::{oopsbox_zone_log, oopsbox_zone_read};
pub use report_entry::ReportAnswer;
pub use reporting::oopsbox_report;
pub use running::Lengths;
pub use stores::{StoreRow, Stores};
pub use tables::{TableRow, oopsbox_table};

#[cfg(test)]
mod place_tests;
#[cfg(test)]
mod report_tests;
#[cfg(test)]
mod tests;
