//! The laws of a crash and the next boot. Each law is a function whose contract it is.
#![tactic(auto)]

ghost use Rattle.crash_laws.specs.Listings.{CrashTellsZone, LinesKeepTold, LaterBootListsCrash, NextBootListsCrash};

use script_laws::crashes_are_told_whole;

/// A crash that is done leaves its zone idle, and told its time line and its whole body.
pub fn crash_tells_zone()
    ensures { CrashTellsZone }
{
    crashes_are_told_whole();
}

/// A line that leaves a dump zone alone keeps what the zone was told; a stop and a boot do too.
pub fn lines_keep_told()
    ensures { LinesKeepTold }
{}

/// After a crash, lines that leave its zone alone, and a boot, none of them refused, the crash is listed with its whole
/// body.
pub fn later_boot_lists_crash()
    ensures { LaterBootListsCrash }
{
    crashes_are_told_whole();
}

/// After a crash that is done, a stop and a boot, the crash is listed with its whole body.
pub fn next_boot_lists_crash()
    ensures { NextBootListsCrash }
{
    crashes_are_told_whole();
}
