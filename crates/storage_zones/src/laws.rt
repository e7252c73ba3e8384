// What a reader of a few bytes may rest on.
ghost use Rattle.storage_zones.specs.Laws.{SameReadings, SameRecords, SameLines};

/// The readings, the records and the lines of a storage depend on each zone's first 52 bytes and on the logs of the
/// listed records alone.
pub fn few_bytes_are_a_report()
    ensures readings { SameReadings }
    ensures records { SameRecords }
    ensures lines { SameLines }
{}
