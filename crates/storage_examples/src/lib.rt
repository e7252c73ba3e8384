//! Worked rows on what a report shows of a storage of pstore_zone, with values typed by hand.
#![tactic(auto)]

ghost use Rattle.storage_examples.specs.Records.{HeldRow, AllHeldRow, TimeRow, NoTimeRow, EarlyRow, ErasedRow, FoundRow};
ghost use Rattle.storage_examples.specs.Told.{SizesRow, CpusRow, TiedRow, NotTiedRow, OopsesRow, FaultRow, StartRow};
ghost use Rattle.storage_examples.specs.Told.{FaultLinesRow, HasDumpRow, NoPanicRow, BigSizesRow, BigHasDumpRow};
ghost use Rattle.storage_examples.specs.Told.{OtherOrderRow};
ghost use Rattle.storage_examples.specs.Records.{BigHeldRow, BigFoundRow, BigZoneRow};
ghost use Rattle.storage_examples.specs.Found.{OddDumpRow};

/// The records of small storages, their times, and how zones read.
pub fn records()
    ensures held { HeldRow }
    ensures all_held { AllHeldRow }
    ensures time { TimeRow }
    ensures no_time { NoTimeRow }
    ensures early { EarlyRow }
    ensures erased { ErasedRow }
    ensures found { FoundRow }
    ensures big_held { BigHeldRow }
    ensures big_found { BigFoundRow }
    ensures big_zone { BigZoneRow }
{}

/// A storage that its bytes do not show.
pub fn found()
    ensures { OddDumpRow }
{}

/// The lines on storages.
pub fn told()
    ensures sizes { SizesRow }
    ensures cpus { CpusRow }
    ensures tied { TiedRow }
    ensures not_tied { NotTiedRow }
    ensures oopses { OopsesRow }
    ensures fault { FaultRow }
    ensures start { StartRow }
    ensures fault_lines { FaultLinesRow }
    ensures has_dump { HasDumpRow }
    ensures no_panic { NoPanicRow }
    ensures big_sizes { BigSizesRow }
    ensures big_has_dump { BigHasDumpRow }
    ensures other_order { OtherOrderRow }
{}
