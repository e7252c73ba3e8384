//! The texts of zones and records: what a boot reports, the list of records, and a record's content.

mod boots;
mod moves;
mod records;

pub use boots::{boot_text, part_text};
pub use moves::move_text;
pub use records::{extract_text, listing};
