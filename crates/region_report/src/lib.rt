//! What an image holds: each zone as it reads, its parts, and the records that the next boot would list,
//! compressed dumps inflated, and why the machine died.
#![tactic(auto)]

mod counted;
mod deaths;
mod doubts;
mod ends;
mod excerpts;
mod facts;
mod laws;
mod mended;
mod mending;
mod moments;
mod naming;
mod newest;
mod report;
mod same_lines;
mod shifts;
mod shown;
mod traced;
mod warnings;

pub use counted::counts;
pub use deaths::{Telling, death_time, death_told, has_telling_line, other_told, others_told};
pub use doubts::{doubts_between, has_doubt};
pub use ends::{End, dump_reason, end_text, end_told};
pub use excerpts::{below, place_above};
pub use facts::{Machine, machine_ended, machine_told, seconds, signature_of, uptime};
pub use ftrace_text::EntryForm;
pub use laws::one_shown;
pub use moments::{push_long, push_moment};
pub use naming::file_name;
pub use newest::{android_log, console, is_console, is_newer, newest_dump};
pub use prz_read::ZoneParts;
pub use report::{Report, report_of, report_of_zones};
pub use report_spec::{Division, DumpReason, Mended, Origin, Packing, TextFault, Warning};
pub use shown::{RecordReport, shown_records};
pub use warnings::warnings_by;
pub use zone_spec::PartState;
