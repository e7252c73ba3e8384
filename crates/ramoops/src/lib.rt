//! The crash log store as a machine (`fs/pstore/ram.c`): off, with what is known of each zone, and live, with calls in
//! flight in its zones.
//!
//! A machine *stands for* states of the definitions: its bytes, told lists and cuts are theirs, and each flight stands
//! with its zone for one of theirs. Each call's clause holds of every state that the machine stands for.
#![tactic(auto)]

mod ask;
mod booting;
mod coders;
mod known;
mod live;
mod off;
mod rebuilding;
mod report;
mod told;
mod zones;

pub use ask::{Ask, Refused};
pub use live::Live;
pub use off::Off;
pub use prz_write::Step;
pub use report::{Cut, Report, ZoneReport};
pub use told::Told;
pub use zone_spec::{CallKind, HeaderSeen, Pair, Refusal, Verdict};
