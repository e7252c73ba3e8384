//! Reads Android's log from the bytes of a pmsg zone, and makes its lines.
#![tactic(auto)]

mod calendar;
mod listing;
mod payloads;
mod shown;

pub use calendar::date_of;
pub use listing::entries;
pub use payloads::{Message, split_payload};
pub use pmsg_spec::{Date, Entry};
pub use shown::{clock_text, date_text, digit, payload, shown_lines};
