//! Bounds of damage, and windows.

ghost use Rattle.zone_examples.specs.Bounds.{EightFlipsWithinBounds, NineFlipsOutOfBounds, WindowsOfDump};

/// Damage of half the parity is within bounds.
pub fn eight_flips_within_bounds()
    ensures { EightFlipsWithinBounds }
{}

/// One flip more is not.
pub fn nine_flips_out_of_bounds()
    ensures { NineFlipsOutOfBounds }
{}

/// The words before and after each part of a dump.
pub fn windows_of_dump()
    ensures { WindowsOfDump }
{}
