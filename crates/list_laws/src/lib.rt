//! Laws of lists, slices, ranges and numbers in the words of the standard library alone: what several crates need and
//! the library does not have. Each law is a function whose contract it is; proofs cite the lemmas in `proofs/`.
#![tactic(auto)]

ghost use Rattle.list_laws.specs.Laws.{FrontOfTwo, ZerosAreARun, AllOfTwo, RangesEndToEnd, SliceWithin, PairsBySide};
ghost use Rattle.list_laws.specs.Laws.{RoundedUp};

/// A front of two lists end to end is a front of each.
pub fn front_of_two()
    ensures { FrontOfTwo }
{}

/// A list with zeros at all its places is a run of zeros.
pub fn zeros_are_a_run()
    ensures { ZerosAreARun }
{}

/// What a test tells of all elements of two lists it tells of all of both end to end.
pub fn all_of_two()
    ensures { AllOfTwo }
{}

/// Numbers in a row are their first ones and then the others.
pub fn ranges_end_to_end()
    ensures { RangesEndToEnd }
{}

/// A slice within a list has its length, and the list's elements.
pub fn slice_within()
    ensures { SliceWithin }
{}

/// Two lists side by side hold the elements of each.
pub fn pairs_by_side()
    ensures { PairsBySide }
{}

/// Rounding up is a division with the divisor less one added.
pub fn rounded_up()
    ensures { RoundedUp }
{}
