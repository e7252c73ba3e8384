//! Numbers of stores, and the words that calls go through.

ghost use Rattle.zone_examples.specs.Counts.{StoresOfErasure, StoresOfAppend, StoresOfDump, PairsOfDump};
ghost use Rattle.zone_examples.specs.Counts.{PairsOfErasureAndAppend, PayloadLongerThanRing, FullRingOverwritten};
ghost use Rattle.zone_examples.specs.Counts.{RunsOfBlocks, PairSeen, StartAtCap};

/// How many stores an erasure makes.
pub fn stores_of_erasure()
    ensures { StoresOfErasure }
{}

/// How many stores an append makes.
pub fn stores_of_append()
    ensures { StoresOfAppend }
{}

/// How many stores a dump makes.
pub fn stores_of_dump()
    ensures { StoresOfDump }
{}

/// The words that a dump goes through.
pub fn pairs_of_dump()
    ensures { PairsOfDump }
{}

/// The words that an erasure and an append go through.
pub fn pairs_of_erasure_and_append()
    ensures { PairsOfErasureAndAppend }
{}

/// A payload longer than the ring is its last bytes.
pub fn payload_longer_than_ring()
    ensures { PayloadLongerThanRing }
{}

/// All bytes of a full ring written anew.
pub fn full_ring_overwritten()
    ensures { FullRingOverwritten }
{}

/// Numbers of blocks as runs.
pub fn runs_of_blocks()
    ensures { RunsOfBlocks }
{}

/// Which pair a header reads.
pub fn pair_seen()
    ensures { PairSeen }
{}

/// What may begin on a ring whose start is its capacity.
pub fn start_at_cap()
    ensures { StartAtCap }
{}
