//! The stores of a call on a zone, handed out one after another: the caller makes each in its own way before it asks
//! for the next. Nothing here takes memory or keeps a byte of the zone or of the payload.
#![tactic(auto)]

mod counts;
mod kept;
mod place;
mod plain;
mod steps;
mod store;

pub use place::{Leg, Phase, Place};
pub use plain::Whole;
pub use steps::Steps;
pub use store::{Given, Store};
pub use zone_spec::{CallKind, Words, Zone};
