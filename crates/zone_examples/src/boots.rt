//! Boots, whole and stopped.

ghost use Rattle.zone_examples.specs.Boots.{StoppedErasure, StoppedFirstBoot, BootNotStopped, StoppedBeforeFirstStore};
ghost use Rattle.zone_examples.specs.Boots.{StoppedWithinSecondZone, StoppedBehindSecondZone, StoppedBehindLastStore};
ghost use Rattle.zone_examples.specs.Boots.{BootWithoutStores, UnsignedAsTold, UnknownHeaders, StopsOfCutBoots};

/// A boot cut within the erasure of a console that was found.
pub fn stopped_erasure()
    ensures { StoppedErasure }
{}

/// A boot cut after the signature of a zone of zeros.
pub fn stopped_first_boot()
    ensures { StoppedFirstBoot }
{}

/// A boot with fewer stores than its limit is whole.
pub fn boot_not_stopped()
    ensures { BootNotStopped }
{}

/// A boot cut before its first store leaves what was told.
pub fn stopped_before_first_store()
    ensures { StoppedBeforeFirstStore }
{}

/// A boot cut within its second zone.
pub fn stopped_within_second_zone()
    ensures { StoppedWithinSecondZone }
{}

/// A boot cut after the last store of its second zone.
pub fn stopped_behind_second_zone()
    ensures { StoppedBehindSecondZone }
{}

/// A boot cut after its last store is whole.
pub fn stopped_behind_last_store()
    ensures { StoppedBehindLastStore }
{}

/// A boot without stores, cut after none.
pub fn boot_without_stores()
    ensures { BootWithoutStores }
{}

/// Zones without signature, or with a size above the capacity, that were told nothing.
pub fn unsigned_as_told()
    ensures { UnsignedAsTold }
{}

/// Headers of images of which nothing is known.
pub fn unknown_headers()
    ensures { UnknownHeaders }
{}

/// The stops of zones after cut boots.
pub fn stops_of_cut_boots()
    ensures { StopsOfCutBoots }
{}
