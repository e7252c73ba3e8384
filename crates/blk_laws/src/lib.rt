//! Laws of the block store over its definitions alone: what rings stand for, and what a loading lists after a cut.
#![tactic(auto)]

ghost use Rattle.blk_laws.specs.Rows.{FirstAppend, FullRingAppend, FirstDump, FirstRingRead};
ghost use Rattle.blk_laws.specs.Laws.{LoadingListsReading, StandingRingIsListed, ErasedRingIsEmpty};
ghost use Rattle.blk_laws.specs.Laws.{AppendKeepsLastBytes, CutAppendListsBefore, CallsWriteWithin, OtherZonesStay};
ghost use Rattle.blk_laws.specs.Laws.{DumpPiecesAreOneWrite};
ghost use Rattle.blk_laws.specs.Sessions.{EveryLoadingListsReading, WholeSessionListsTold, EarlyCutListsBefore};
ghost use Rattle.blk_laws.specs.Sessions.{HarmlessFaultsListTold, SessionIsCalls};
ghost use Rattle.blk_laws.specs.Ends.{AnswersAreCalls, FirstWriteFaultsAreHarmless};

/// Every loading lists the reading of the store's bytes, whatever was done before it.
pub fn loading_lists_reading()
    ensures { LoadingListsReading }
{}

/// A ring that stands for a list is listed as that list, or not at all where the list is empty.
pub fn standing_ring_is_listed()
    ensures { StandingRingIsListed }
{}

/// An erasure leaves a ring that stands for the empty list.
pub fn erased_ring_is_empty()
    ensures { ErasedRingIsEmpty }
{}

/// An append to a ring that stands for a list leaves one that stands for the last bytes of that list and the payload,
/// as many as the ring holds.
pub fn append_keeps_last_bytes()
    ensures { AppendKeepsLastBytes }
{}

/// An append to a ring that was not full, cut among its data bytes before its first header, leaves what the ring stood
/// for.
pub fn cut_append_lists_before()
    ensures { CutAppendListsBefore }
{}

/// An append, a dump and an erasure write within their own zone alone.
pub fn calls_write_within()
    ensures { CallsWriteWithin }
{}

/// Writes within a zone, whole or cut after any byte, leave the bytes of every zone that shares none with it.
pub fn other_zones_stay()
    ensures { OtherZonesStay }
{}

/// The pieces of a dump, written one behind the other, leave what its one write leaves, also where the store stops
/// within them.
pub fn dump_pieces_are_one_write()
    ensures { DumpPiecesAreOneWrite }
{}

/// After any calls, done, refused or failed, a loading lists the reading of the store's bytes as they then stand.
pub fn every_loading_lists_reading()
    ensures { EveryLoadingListsReading }
{}

/// Where no call was cut or met a fault of the store since the last loading that was done, the next one lists of each
/// ring the last bytes that it was told since then, or since its erasure where that came later, as many as the ring
/// holds.
pub fn whole_session_lists_told()
    ensures { WholeSessionListsTold }
{}

/// The same where the store failed within calls that write a dump zone, or within appends to rings that were not full,
/// of which it has data bytes from before the first header alone. Such calls tell nothing.
pub fn harmless_faults_list_told()
    ensures { HarmlessFaultsListTold }
{}

/// Where the first call that is cut since the last loading is an append to a ring that is not full, and the cut falls
/// among its data bytes before its first header, the next loading lists of that ring what it would have listed before
/// the append.
pub fn early_cut_lists_before()
    ensures { EarlyCutListsBefore }
{}

/// The lines of a session that meet no fault are calls that are all done.
pub fn session_is_calls()
    ensures { SessionIsCalls }
{}

/// What a loading, an append, a dump and an erasure answer and leave is what a session's call leaves, with some
/// outcome.
pub fn answers_are_calls()
    ensures { AnswersAreCalls }
{}

/// Where an append to a ring that is not full answers a fault within its first write, that is a harmless call of a
/// session.
pub fn first_write_faults_are_harmless()
    ensures { FirstWriteFaultsAreHarmless }
{}

/// Worked: the writes of a first append of three bytes.
pub fn first_append()
    ensures { FirstAppend }
{}

/// Worked: one byte more to a full ring is a data byte, a shorter header and the full one.
pub fn full_ring_append()
    ensures { FullRingAppend }
{}

/// Worked: the bytes of a first dump.
pub fn first_dump()
    ensures { FirstDump }
{}

/// Worked: the log that is saved of a first append.
pub fn first_ring_read()
    ensures { FirstRingRead }
{}
