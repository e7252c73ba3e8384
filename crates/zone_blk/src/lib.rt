//! The block store: its parameters, read from words, and its layout; loading, appends, dumps, erasures, and the records
//! that a loading lists.
#![tactic(auto)]

mod appending;
mod blk;
mod dumping;
mod layout;
mod names;
mod reading;
mod words;
mod writing;
mod zones;

pub use blk::Blk;
pub use blk_spec::{BlkFault, BlkLayout, BlkName, BlkParams, BlkRing, BlkTime, Reason};
pub use grammar_spec::ParamFault;
pub use layout::blk_layout;
pub use names::{BlkNames, blk_find};
pub use words::read_blk_words;
pub use zone_spec::LayoutFault;
