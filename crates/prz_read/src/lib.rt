//! What a boot reads of a zone, what it stores there, and the readings that it saves (`fs/pstore/ram_core.c`,
//! `persistent_ram_post_init` and `persistent_ram_save_old`).
#![tactic(auto)]

mod logs;
mod parts;
mod reading;
mod settling;
mod span_parts;

pub use logs::Logs;
pub use parts::ZoneParts;
pub use reading::{Reading, keeps, read_parts, read_parts_by, read_zone, read_zone_by};
pub use settling::{Settled, settle, settle_by};
pub use zone_spec::{State, Words};
