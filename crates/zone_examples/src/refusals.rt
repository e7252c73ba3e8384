//! Refused operations, and records.

ghost use Rattle.zone_examples.specs.Refusals.{WorkedRefusals, WrongStates, NoSuchZone, IdleAndEmpty, RecordsInOrder};
ghost use Rattle.zone_examples.specs.Refusals.{EraseRecordIsBusy, EraseFtraceErasesAll};

/// Refusals with their causes.
pub fn worked_refusals()
    ensures { WorkedRefusals }
{}

/// What a state has not.
pub fn wrong_states()
    ensures { WrongStates }
{}

/// Zones that the layout lacks, and appends to dump zones.
pub fn no_such_zone()
    ensures { NoSuchZone }
{}

/// Steps without a flight, and appends of no bytes.
pub fn idle_and_empty()
    ensures { IdleAndEmpty }
{}

/// The order of records.
pub fn records_in_order()
    ensures { RecordsInOrder }
{}

/// The erasure of a record beside flights.
pub fn erase_record_is_busy()
    ensures { EraseRecordIsBusy }
{}

/// The erasure of the ftrace record.
pub fn erase_ftrace_erases_all()
    ensures { EraseFtraceErasesAll }
{}
