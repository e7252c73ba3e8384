//! The parameters of a store, read from words, and the layout of its zones.
#![tactic(auto)]

mod faults;
mod finding;
pub mod laws;
mod laying;
mod numbers;
mod params;
pub mod rows;
pub mod types;
mod words;

pub use faults::LayoutError;
pub use finding::{Found, find};
pub use grammar_spec::ParamFault;
pub use laying::{layout, list_zones};
pub use numbers::number;
pub use params::{
    DEFAULTS, byte_order_at, given, order_at, parity_given, read_words, read_words_over,
};
pub use words::{Choice, Keys};
pub use zone_spec::{ByteOrder, Kind, LayoutFault, Order, Params, Zone, ZoneName};
