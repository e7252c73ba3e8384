//! Worked rows of the tool's definitions: each function's contract is a row, whose expected values stand in `specs/`.
#![tactic(auto)]

ghost use Rattle.command_examples.specs.Rows.{FirstDraws, FirstConsoleRecord, CutAfterSizeWord, StoppedBoots};
ghost use Rattle.command_examples.specs.Rows.{DumpsWithKeptZone, FirstCrash, WorkedLayouts, WorkedRefusals};
ghost use Rattle.command_examples.specs.Rows.{WorkedFaults, CommandsWithoutScript, FirstBlockSession, CutBlockWrite};
ghost use Rattle.command_examples.specs.Rows.{BlockRefusals, FirstMove, MoveToParity, MoveOfTwoZones};
ghost use Rattle.command_examples.specs.Rows.{MoveOfUnlistedDump, MoveRefusals, TwoWriters, LaterWriter};
ghost use Rattle.command_examples.specs.Rows.{SharedRefusals, RingInDump, TwoShapesAtOnePlace, NoRingInDump};
ghost use Rattle.command_examples.specs.Rows.{CorrectedRing, CutAtTheEnd, OverwrittenDump};
ghost use Rattle.command_examples.specs.Blocks.{AppendToTheEnd, RaisedCounters, CountedDumps, CountersRead};

/// The first draws of a generated session.
pub fn first_draws()
    ensures { FirstDraws }
{}

/// A record that is listed and extracted.
pub fn first_console_record()
    ensures { FirstConsoleRecord }
{}

/// A write that is stopped after its first store.
pub fn cut_after_size_word()
    ensures { CutAfterSizeWord }
{}

/// Boots that are stopped.
pub fn stopped_boots()
    ensures { StoppedBoots }
{}

/// Dumps, of which one is erased.
pub fn dumps_with_kept_zone()
    ensures { DumpsWithKeptZone }
{}

/// The first crash: a record of the message log.
pub fn first_crash()
    ensures { FirstCrash }
{}

/// Layouts with and without parity, of odd sizes, and with small blocks.
pub fn worked_layouts()
    ensures { WorkedLayouts }
{}

/// Lines that are bad or refused.
pub fn worked_refusals()
    ensures { WorkedRefusals }
{}

/// Words, parameters, layouts and images that are refused.
pub fn worked_faults()
    ensures { WorkedFaults }
{}

/// Commands that read no script.
pub fn commands_without_script()
    ensures { CommandsWithoutScript }
{}

/// A console record and a dump of the block store.
pub fn first_block_session()
    ensures { FirstBlockSession }
{}

/// A write to the block store that is cut within its data.
pub fn cut_block_write()
    ensures { CutBlockWrite }
{}

/// A write to the block store that is cut exactly at its end, and one byte before.
pub fn cut_at_the_end()
    ensures { CutAtTheEnd }
{}

/// A dump that overwrites a listed one.
pub fn overwritten_dump()
    ensures { OverwrittenDump }
{}

/// An append of the block store that ends with the ring, and the counters of its dumps.
pub fn block_calls()
    ensures append_to_the_end { AppendToTheEnd }
    ensures raised { RaisedCounters }
    ensures counted { CountedDumps }
    ensures counters { CountersRead }
{}

/// Lines that the block store refuses.
pub fn block_refusals()
    ensures { BlockRefusals }
{}

/// A move of a dump and of a console that runs round its ring; pmsg is left.
pub fn first_move()
    ensures { FirstMove }
{}

/// A move to zones with parity: the longest log that fits, and one byte more.
pub fn move_to_parity()
    ensures { MoveToParity }
{}

/// A move of a record of two zones.
pub fn move_of_two_zones()
    ensures { MoveOfTwoZones }
{}

/// A move of a dump zone without a time line.
pub fn move_of_unlisted_dump()
    ensures { MoveOfUnlistedDump }
{}

/// Words, parameters, layouts and images that a move refuses.
pub fn move_refusals()
    ensures { MoveRefusals }
{}

/// Two writers of a shared zone, of which one is not done.
pub fn two_writers()
    ensures { TwoWriters }
{}

/// A writer of a shared zone that has a log.
pub fn later_writer()
    ensures { LaterWriter }
{}

/// Lines and layouts that `shared-run` refuses, and lines that it does not.
pub fn shared_refusals()
    ensures { SharedRefusals }
{}

/// A ring between the places of a dump, and its log.
pub fn ring_in_dump()
    ensures { RingInDump }
{}

/// A place of a dump at which two shapes fit.
pub fn two_shapes_at_one_place()
    ensures { TwoShapesAtOnePlace }
{}

/// Dumps with what is almost a ring.
pub fn no_ring_in_dump()
    ensures { NoRingInDump }
{}

/// A ring of a dump whose header and log are corrected.
pub fn corrected_ring()
    ensures { CorrectedRing }
{}
