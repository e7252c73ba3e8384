//! Tests of what a report may be given in place of a region: gzip files, other compressions, text logs.
#![tactic(auto)]

#[cfg(test)]
mod compression_tests;
#[cfg(test)]
mod folder_files_tests;
#[cfg(test)]
mod gzip_tests;
#[cfg(test)]
mod text_log_tests;
