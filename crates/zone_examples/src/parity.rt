//! Zones with parity, and their boots.

ghost use Rattle.zone_examples.specs.Parity.{ParityOfFirstBoot, ParityOfFirstRecord, PartsOfZones};
ghost use Rattle.zone_examples.specs.Parity.{StoppedErasureWithParity, CorrectionsAreOfData, BootOfForeignHeader};
ghost use Rattle.zone_examples.specs.Parity.{CutOfForeignHeader, SessionWithParity};

/// The header's parity after a first boot.
pub fn parity_of_first_boot()
    ensures { ParityOfFirstBoot }
{}

/// The parity of block and header after a first record.
pub fn parity_of_first_record()
    ensures { ParityOfFirstRecord }
{}

/// Where the parts of a zone lie.
pub fn parts_of_zones()
    ensures { PartsOfZones }
{}

/// A boot with parity, cut within the erasure of a console.
pub fn stopped_erasure_with_parity()
    ensures { StoppedErasureWithParity }
{}

/// What a boot corrects in a block.
pub fn corrections_are_of_data()
    ensures { CorrectionsAreOfData }
{}

/// The stores of a boot in a zone that reads as another zone's.
pub fn boot_of_foreign_header()
    ensures { BootOfForeignHeader }
{}

/// The cut that such a boot leaves after the signature.
pub fn cut_of_foreign_header()
    ensures { CutOfForeignHeader }
{}

/// A whole session with one parity byte.
pub fn session_with_parity()
    ensures { SessionWithParity }
{}
