//! The laws of rings in a dump: what of a header's word tells whether a ring is there. Each law is a function whose
//! contract it is.
#![tactic(auto)]

ghost use Rattle.salvage_laws.specs.Laws.{RingByKnown, CorrectedByKnown, ManyAmends, AllAmends, RingInIs};
ghost use Rattle.salvage_laws.specs.Rows.{ListedBetweenPlaces};

/// A ring is there exactly where the word with its known bytes put in has a nearest codeword with a ring's words that
/// is no further away than is left of half the parity.
pub fn ring_by_known()
    ensures { RingByKnown }
{}

/// Its distance is the known bytes that differ and that of the amended word.
pub fn corrected_by_known()
    ensures { CorrectedByKnown }
{}

/// Where more known bytes differ than half the parity there is none.
pub fn many_amends()
    ensures { ManyAmends }
{}

/// Where as many differ there is one exactly where the amended word is a codeword with a ring's words: its parity is
/// that of its twelve bytes.
pub fn all_amends()
    ensures { AllAmends }
{}

/// The ring that the definitions find is the one of such a codeword.
pub fn ring_in_is()
    ensures { RingInIs }
{}

/// A worked dump: a ring without parity two bytes after the dump's beginning is listed there alone, and once for two
/// zones of one shape.
pub fn listed_between_places()
    ensures { ListedBetweenPlaces }
{}
