//! The words of a search for a region's layout: the layouts that are looked through, and in `specs/` what fits, which
//! layout comes first, and when it is taken.
#![tactic(auto)]

use zone_spec::{ByteOrder, Order};

/// A layout that is tried. Sizes are in bytes: `mem` of the region, `dump` as wanted for a dump zone, `console`,
/// `ftrace` (of all ftrace zones together) and `pmsg` of the other zones. `parity` is the parity bytes of each part,
/// the same for all kinds; `cpus` the number of ftrace zones, and `tag` theirs; `order` that of ftrace and pmsg zones,
/// and `byte_order` that of a word's bytes. A block has 128 data bytes.
#[derive(Clone, Copy, Debug, PartialEq, Eq)]
pub struct Candidate {
    pub mem: u64,
    pub dump: u64,
    pub console: u64,
    pub ftrace: u64,
    pub pmsg: u64,
    pub parity: u64,
    pub cpus: u64,
    pub tag: u32,
    pub order: Order,
    pub byte_order: ByteOrder,
}

/// What of a layout is known: `None` is looked for, the rest is kept. Units as in [`Candidate`].
#[derive(Clone, Copy, Debug, Default, PartialEq, Eq)]
pub struct Known {
    pub mem: Option<u64>,
    pub dump: Option<u64>,
    pub console: Option<u64>,
    pub ftrace: Option<u64>,
    pub pmsg: Option<u64>,
    pub parity: Option<u64>,
    pub cpus: Option<u64>,
    pub tag: Option<u32>,
    pub order: Option<Order>,
    pub byte_order: Option<ByteOrder>,
}

/// What is counted over a layout's zones. `faults` are the zones that do not fit and the marks where no zone begins;
/// `fits` the zones that fit, `logs` those of them with a log, `odd` the logs that are not as their kind writes them;
/// `corrected` the corrected bytes of the headers that fit, and `behind` the file's bytes behind the zones.
#[derive(Clone, Copy, Debug, PartialEq, Eq)]
pub struct Tally {
    pub faults: u64,
    pub zones: u64,
    pub fits: u64,
    pub logs: u64,
    pub odd: u64,
    pub corrected: u64,
    pub behind: u64,
}
