//! The laws of a session's history: what a zone was told, and what the next boot reads of it, by what was done. Each
//! law is a function whose contract it is.
#![tactic(auto)]

ghost use Rattle.history_laws.specs.Laws.{ToldIsWritten, NextBootReadsWritten};
ghost use Rattle.history_laws.specs.Headline.{Headline, CutsAreReported};

/// In every state of a session each zone is told the last bytes that were written to it since its erasure, as many as
/// it holds.
pub fn told_is_written()
    ensures { ToldIsWritten }
{}

/// The headline. When a session's machine is off, the next boot reads of each idle zone within bounds the last bytes that
/// were written to it since its erasure, as many as it holds, in order; in a zone whose call a stop cut only touched
/// blocks and the header, both reported, make a difference.
pub fn headline()
    ensures written { Headline }
    ensures reported { CutsAreReported }
{}

/// The same without told lists, cuts and stops: after a session, a stop, flips and boots that are cut before they come to
/// the zone's erasure or its end, the next boot's reading of the zone is by what was written, and by the zone's bytes and
/// flight at the stop.
pub fn next_boot_reads_written()
    ensures { NextBootReadsWritten }
{}
