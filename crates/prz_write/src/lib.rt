//! One call on one zone of a region, made one store at a time as `store_steps` hands them out, so that it can be stopped
//! after any of them.
#![tactic(auto)]

mod call;
mod flight;
mod progress;
mod putting;

pub use call::{Call, Line36, Step};
pub use flight::Flight;
pub use zone_spec::{CallKind, Pair};
