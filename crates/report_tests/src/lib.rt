//! Tests of reports, a module for each crate.
#![tactic(auto)]

#[cfg(test)]
mod death_told_tests;
#[cfg(test)]
mod doubts_tests;
#[cfg(test)]
mod mending_tests;
#[cfg(test)]
mod packed_dumps;
#[cfg(test)]
mod people_read_tests;
#[cfg(test)]
mod region_report_tests;
#[cfg(test)]
mod report_html_tests;
#[cfg(test)]
mod report_json_tests;
#[cfg(test)]
mod report_run_tests;
#[cfg(test)]
mod report_text_tests;
#[cfg(test)]
mod report_tool_tests;
#[cfg(test)]
mod tree_tests;
#[cfg(test)]
mod whole_reports;
#[cfg(test)]
mod worked_deaths;
