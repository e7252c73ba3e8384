//! Rings in a memory dump whose region's place is not known, as definitions in `specs/`.
#![tactic(auto)]

use thiserror::Error;
use zone_spec::{Words, ZoneName};

/// A ring that stands in a dump.
///
/// `at` is its place in bytes, `zone` the first zone of its shape, `words` what its header reads, and `corrected` how
/// many bytes of the header and its parity were corrected.
#[derive(Clone, Copy, Debug, PartialEq, Eq)]
pub struct FoundRing {
    pub at: u32,
    pub zone: ZoneName,
    pub words: Words,
    pub corrected: u8,
}

/// Why a place of a dump is not read as a zone.
#[derive(Clone, Copy, Debug, PartialEq, Eq, Error)]
pub enum RingFault {
    #[error("the layout has no such zone")]
    NoZone,
    #[error("no ring of the zone's shape is there")]
    NoRing,
    #[error("no memory")]
    Memory,
}
