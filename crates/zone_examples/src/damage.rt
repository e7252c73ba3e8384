//! Damaged zones, and cuts with parity.

ghost use Rattle.zone_examples.specs.Damage.{EightFlipsInBlock, NineFlipsInBlock, EightFlipsInHeader};
ghost use Rattle.zone_examples.specs.Damage.{CutWithParityAfterFirstStore, CutBeforeHeaderParity, CutBetweenWords};
ghost use Rattle.zone_examples.specs.Damage.{ForeignHeader};

/// Eight flips in a block are corrected.
pub fn eight_flips_in_block()
    ensures { EightFlipsInBlock }
{}

/// Nine flips in a block that no codeword is near to: it reads as it stands.
pub fn nine_flips_in_block()
    ensures { NineFlipsInBlock }
{}

/// Eight flips in a header are corrected.
pub fn eight_flips_in_header()
    ensures { EightFlipsInHeader }
{}

/// An append with parity, cut after its first store.
pub fn cut_with_parity_after_first_store()
    ensures { CutWithParityAfterFirstStore }
{}

/// The same, cut before the header's parity.
pub fn cut_before_header_parity()
    ensures { CutBeforeHeaderParity }
{}

/// An append with two parity bytes, cut after its words.
pub fn cut_between_words()
    ensures { CutBetweenWords }
{}

/// A cut header that reads as another zone's.
pub fn foreign_header()
    ensures { ForeignHeader }
{}
