//! What was written to a zone after each front of some operations.

ghost use Rattle.zone_examples.specs.Histories.{AppendsWritten, DumpWritten, CutBootsWritten, OtherZonesWritten};
ghost use Rattle.zone_examples.specs.Histories.{FlippedLogKept};

/// Appends made, begun, finished and cut.
pub fn appends_written()
    ensures { AppendsWritten }
{}

/// A dump that a boot keeps, and its erasure.
pub fn dump_written()
    ensures { DumpWritten }
{}

/// Two boots that are cut.
pub fn cut_boots_written()
    ensures { CutBootsWritten }
{}

/// Calls in other zones, a dump onto a dump, and an erasure.
pub fn other_zones_written()
    ensures { OtherZonesWritten }
{}

/// A flip, and two boots that are cut.
pub fn flipped_log_kept()
    ensures { FlippedLogKept }
{}
