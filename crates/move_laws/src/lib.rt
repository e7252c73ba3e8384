//! The laws of the move: an image under new parameters reads as the old one did. Each law is a function whose contract
//! it is.
#![tactic(auto)]

ghost use Rattle.move_laws.specs.Moves.{BlankZoneIsToldNothing, MovedImageIsSound, MovedZonesAreTold, MovedImageReads};
ghost use Rattle.move_laws.specs.Moves.{MovedZonesRead};
ghost use Rattle.move_laws.specs.Listed.{FittingListsWhatFits, FittingLogsFit, FittingTakesInOrder, MovedImageLists};
ghost use Rattle.move_laws.specs.Listed.{MoveListsWhatFits, BootsHaveBytes, ImageLogsFit, MoveKeepsRecords};
ghost use Rattle.move_laws.specs.Listed.{LayoutsComeInOrder, LayoutsAreNamed, LayoutsKeepRecords};

/// A zone of zeros is sound after a boot, in no flight, and told nothing.
pub fn blank_zone_is_told_nothing()
    ensures { BlankZoneIsToldNothing }
{}

/// A moved image makes a sound state.
pub fn moved_image_is_sound()
    ensures { MovedImageIsSound }
{}

/// Each zone of a moved image is told the log that was found of it, or nothing, and stands as at its stop, with no cut.
pub fn moved_zones_are_told()
    ensures { MovedZonesAreTold }
{}

/// Each zone of a moved image reads the log that was found of it, or nothing, with nothing corrected and nothing bad.
pub fn moved_image_reads()
    ensures { MovedImageReads }
{}

/// After damage each zone of a moved image that is within bounds reads the log that was found of it, or nothing.
pub fn moved_zones_read()
    ensures { MovedZonesRead }
{}

/// The saved logs that a move carries over list the records that fit, as they were listed, and no other.
pub fn fitting_lists_what_fits()
    ensures { FittingListsWhatFits }
{}

/// The logs that a move carries over fit the zones of their names.
pub fn fitting_logs_fit()
    ensures { FittingLogsFit }
{}

/// They come to those zones, those of each kind in their order, at most one to a zone.
pub fn fitting_takes_in_order()
    ensures { FittingTakesInOrder }
{}

/// A boot of a moved image lists the records of the logs that its zones were told.
pub fn moved_image_lists()
    ensures { MovedImageLists }
{}

/// A boot after a move lists the records that fit, as they were listed, and no other.
pub fn move_lists_what_fits()
    ensures { MoveListsWhatFits }
{}

/// The logs that a boot finds are of bytes, and of one at least.
pub fn boots_have_bytes()
    ensures { BootsHaveBytes }
{}

/// The logs of an image that a move carries over fit the zones of their names.
pub fn image_logs_fit()
    ensures { ImageLogsFit }
{}

/// A boot of what a move makes of an image lists the records of that image that fit, and no other.
pub fn move_keeps_records()
    ensures { MoveKeepsRecords }
{}

/// The zones of a kind come in one order under any two lists of parameters.
pub fn layouts_come_in_order()
    ensures { LayoutsComeInOrder }
{}

/// Each zone of a list of parameters is the one that its name finds.
pub fn layouts_are_named()
    ensures { LayoutsAreNamed }
{}

/// A boot after a move from any parameters to others lists the records that fit, and no other.
pub fn layouts_keep_records()
    ensures { LayoutsKeepRecords }
{}
