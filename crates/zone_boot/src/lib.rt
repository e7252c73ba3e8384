//! A zone read in place, and a boot's stores in it handed out as data (`fs/pstore/ram_core.c`,
//! `persistent_ram_post_init` and `persistent_ram_save_old`). The zone's bytes are lent for reading, and no memory is
//! taken.
#![tactic(auto)]

mod boots;
mod copying;
mod deciding;
mod handing;
mod summaries;

pub use boots::{Boot, Phase};
pub use copying::copy_log;
pub use deciding::{Erasure, keeps};
pub use handing::{BootStore, Given};
pub use summaries::{Counts, Summary, counts_of, read_summary, state_of};
pub use zone_spec::{State, Words};
