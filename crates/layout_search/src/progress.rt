// How far a search has come.
use crate::levels::Reached;
use layout_spec::{Candidate, Tally};

/// A layout with its tally and its key.
#[derive(Clone, Copy)]
pub struct Best {
    pub candidate: Candidate,
    pub tally: Tally,
    pub key: [u64; 19],
}

/// When a search ends.
#[derive(Clone, Copy)]
pub enum Effort {
    /// With the first layout.
    First,
    /// When all were tried.
    All,
    /// When all were tried, or as much work was done as it may do.
    Bounded,
}

/// The best so far, and how much more work may be done. At 0 the search has ended before all were tried, and the layouts
/// with at most `limit` faults were tried that come before the place that it `reached`.
#[derive(Clone, Copy)]
pub struct Progress {
    pub best: Option<Best>,
    pub effort: Effort,
    pub work: u64,
    pub reached: Reached,
    pub limit: u64,
}

/// What is looked for: at most so many faults in an image with so many marks, and not this candidate.
#[derive(Clone, Copy)]
pub struct Aim {
    pub marks: u64,
    pub limit: u64,
    pub besides: Option<Candidate>,
}
