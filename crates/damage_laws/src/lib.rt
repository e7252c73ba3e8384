//! The laws of damage: what a zone reads after a stop, a cut call or a cut boot, and damage since. Each law is a
//! function whose contract it is.
#![tactic(auto)]

ghost use Rattle.damage_laws.specs.Idle.{PartReadsAsAtStop, IdleZoneReadsTold};
ghost use Rattle.damage_laws.specs.CutCalls.{CutZoneReads, CutReportIsExact};
ghost use Rattle.damage_laws.specs.CutErasures.{CorrectionsKeepReading, BootCutZoneReads, BootCutReportIsExact};

/// A header or block that is within bounds reads as at its zone's stop.
pub fn part_reads_as_at_stop()
    ensures { PartReadsAsAtStop }
{}

/// A zone that held what it was told, and whose header is within bounds, reads it but for blocks out of bounds.
pub fn idle_zone_reads_told()
    ensures { IdleZoneReadsTold }
{}

/// What a zone reads whose call a stop cut, and whose header is not damaged further.
pub fn cut_zone_reads()
    ensures { CutZoneReads }
{}

/// What a boot reports of a cut call is the flight's, and the runs are the touched blocks.
pub fn cut_report_is_exact()
    ensures { CutReportIsExact }
{}

/// Wherever a boot is cut within a zone's corrections, the zone reads the same.
pub fn corrections_keep_reading()
    ensures { CorrectionsKeepReading }
{}

/// What a zone reads whose erasure by a boot was cut.
pub fn boot_cut_zone_reads()
    ensures { BootCutZoneReads }
{}

/// What a boot reports of an earlier boot's cut erasure is that erasure's.
pub fn boot_cut_report_is_exact()
    ensures { BootCutReportIsExact }
{}
