//! The records that a boot's saved logs list: their names, their times, and their contents with notices
//! (`fs/pstore/ram.c` and `fs/pstore/inode.c`).
#![tactic(auto)]

mod fitting;
mod holding;
mod listing;
mod merging;
mod moving;
mod naming;
mod notices;
mod records;
mod table;
mod traces;
pub mod types;
mod walk;
mod zones;

pub use fitting::{fits, forget_unfit};
pub use holding::{HeldRecord, held_records};
pub use listing::names;
pub use moving::{Move, moves};
pub use naming::{find, name_text};
pub use notices::{Counts, counts_at, counts_of, is_in};
pub use records::{ContentFault, content, length, time};
pub use table::{Entry, listed};
pub use traces::ftrace_logs;
pub use zone_spec::{Name, Time};
