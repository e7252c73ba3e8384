//! How images are laid out, by words and a device tree, and which layout is taken that an image shows: decided once,
//! for the calls for C, the page's export and the program `oopsreport`. And the report of an image in memory, for the
//! first two.
#![tactic(auto)]

mod answers;
mod hints;
mod laying;
mod memory;
mod reports;
mod storages;
mod words;

pub use answers::{Asked, ReportAnswer, ReportEnd, report_in};
pub use hints::{best_hint, taken_hint};
pub use laying::{Layouts, LayoutsFault, NoLayouts, Place, Said, layouts_by, tree_fault};
pub use memory::{Image, Text};
pub use reports::{HintedPlan, Refusal, plan_found};
pub use storages::{add_each, storages_in, with_storage_words};
pub use words::{WordsFault, fill, read_some_words, read_words_of};
