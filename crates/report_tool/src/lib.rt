//! Reports of images: the plan by which images are read, the report of an image written as text, JSON or HTML, and its
//! records saved as files.
//!
//! Nothing here writes an image: what holds it has no call to write.
#![tactic(auto)]

mod better;
mod finding;
mod images;
mod ordering;
mod plan;
mod release;
mod reordered;
mod saving;
mod showing;
mod tree;
mod version;
mod words;

pub use command_spec::Stop;
pub use finding::{find, known};
pub use images::report;
pub use layout_search::{Candidate, Found, Known};
pub use plan::{Plan, PlanFault};
pub use saving::{Folder, save};
pub use showing::{Format, shown_zones};
pub use tree::{TreeFault, tree_address};
pub use version::{add_order, add_tag, ftrace_tag, zone_order};
pub use words::{layout_words, push_number};
