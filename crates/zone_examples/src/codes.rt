//! The code's vectors.

ghost use Rattle.zone_examples.specs.Codes.{Powers, Parities, NearestOfTwo, NearestOfOdd};

/// Powers of the primitive element.
pub fn powers()
    ensures { Powers }
{}

/// Parities of short messages.
pub fn parities()
    ensures { Parities }
{}

/// Words with two parity bytes.
pub fn nearest_of_two()
    ensures { NearestOfTwo }
{}

/// Words with one and with three parity bytes.
pub fn nearest_of_odd()
    ensures { NearestOfOdd }
{}
