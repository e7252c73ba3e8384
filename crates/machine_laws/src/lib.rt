//! The laws of sessions: what holds of every state, what logs and records are made of, what a cut boot leaves, and the
//! headline. Each law is a function whose contract it is.
#![tactic(auto)]

ghost use Rattle.machine_laws.specs.Sessions.{ImageIsZonesAndRest, FreshIsSound, OperationsKeepStatesSound};
ghost use Rattle.machine_laws.specs.Sessions.{StatesAreSound, AppendsTellLastBytes, UndamagedReadsTold};
ghost use Rattle.machine_laws.specs.Sessions.{FlipChangesOneByte};
ghost use Rattle.machine_laws.specs.Logs.{LogBytesCome, UnsignedAddsNothing, NotFoundAddsNothing, MergedEntriesCome};
ghost use Rattle.machine_laws.specs.Listed.{ListedIsFound};
ghost use Rattle.machine_laws.specs.Boots.{VerdictIsExact, ReportIsExact, CutZonesRead};
ghost use Rattle.machine_laws.specs.ZoneReads.{SoundStateReadsZones};
ghost use Rattle.machine_laws.specs.CutBoots.{CutBootMakesStores, CutBootLeavesRest, CutBootHolds, CutBootReads};
ghost use Rattle.machine_laws.specs.CutBoots.{CutBootKeepsStops};
ghost use Rattle.machine_laws.specs.Headline.{Headline, SoundStateReadsLastWritten};

/// An image is its zones' bytes end to end, and the bytes after them.
pub fn image_is_zones_and_rest()
    ensures { ImageIsZonesAndRest }
{}

/// An image of which nothing is known makes a sound state.
pub fn fresh_is_sound()
    ensures { FreshIsSound }
{}

/// Every operation leaves a sound state sound.
pub fn operations_keep_states_sound()
    ensures { OperationsKeepStatesSound }
{}

/// Every state that a session reaches is sound: live zones hold what they were told or a flight's image, and so did
/// each zone at its stop.
pub fn states_are_sound()
    ensures { StatesAreSound }
{}

/// Appends tell the last bytes of all that they wrote.
pub fn appends_tell_last_bytes()
    ensures { AppendsTellLastBytes }
{}

/// Zones whose bytes stand as at their stops read what they were told.
pub fn undamaged_reads_told()
    ensures { UndamagedReadsTold }
{}

/// A flip changes one byte, and nothing of what is known of a zone.
pub fn flip_changes_one_byte()
    ensures { FlipChangesOneByte }
{}

/// Where each byte of a log comes from.
pub fn log_bytes_come()
    ensures { LogBytesCome }
{}

/// A zone whose header reads without its signature has no log.
pub fn unsigned_adds_nothing()
    ensures { UnsignedAddsNothing }
{}

/// A zone that was not found adds nothing to the records.
pub fn not_found_adds_nothing()
    ensures { NotFoundAddsNothing }
{}

/// Each entry of merged ftrace logs is a group of 24 bytes of one of the logs.
pub fn merged_entries_come()
    ensures { MergedEntriesCome }
{}

/// A name is listed exactly where a record is found by it.
pub fn listed_is_found()
    ensures { ListedIsFound }
{}

/// A verdict says whether a told list is known, whether it is the log, and else where the two first differ.
pub fn verdict_is_exact()
    ensures { VerdictIsExact }
{}

/// What a boot reports of a zone and its cut is exact.
pub fn report_is_exact()
    ensures { ReportIsExact }
{}

/// What a boot reads of a zone whose call a stop cut, or whose erasure an earlier boot's stop cut.
pub fn cut_zones_read()
    ensures { CutZonesRead }
{}

/// All that a boot reads and reports of the zones of a sound state.
pub fn sound_state_reads_zones()
    ensures { SoundStateReadsZones }
{}

/// Of the stores that a cut boot made, each zone has its own, and no other.
pub fn cut_boot_makes_stores()
    ensures { CutBootMakesStores }
{}

/// A cut boot leaves the bytes after the last zone.
pub fn cut_boot_leaves_rest()
    ensures { CutBootLeavesRest }
{}

/// The told list, the cut and the stop of each zone after a cut boot.
pub fn cut_boot_holds()
    ensures { CutBootHolds }
{}

/// After a cut boot a zone reads the same until its erasure has begun, and what the boot kept once it has finished.
pub fn cut_boot_reads()
    ensures { CutBootReads }
{}

/// A cut boot leaves what is held of a zone, or its end becomes the zone's stop.
pub fn cut_boot_keeps_stops()
    ensures { CutBootKeepsStops }
{}

/// When a session's machine is off, each idle zone within bounds reads what it was told, and in a zone whose call a stop
/// cut only touched blocks and the header, both reported, make a difference.
pub fn headline()
    ensures { Headline }
{}

/// The same of every sound state.
pub fn sound_state_reads_last_written()
    ensures { SoundStateReadsLastWritten }
{}
