//! The library for a web page: one call that makes a report of an image in memory. Nothing is kept between calls, and
//! all memory that a call took is free again when it returns.
#![tactic(auto)]

mod calls;
mod words;

pub use calls::oopsbox_page_report;

#[cfg(test)]
mod tests;
