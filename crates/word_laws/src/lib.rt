//! The laws of a word's bytes, in either order. Each law is a function whose contract it is; proofs cite the lemmas in
//! `proofs/`.
#![tactic(auto)]

ghost use Rattle.word_laws.specs.Laws.{WordIsItsBytes, BytesAreTheirWord, BigIsHighestFirst};

/// A word that was stored is read.
pub fn word_is_its_bytes()
    ensures { WordIsItsBytes }
{}

/// The word that four bytes are has these bytes.
pub fn bytes_are_their_word()
    ensures { BytesAreTheirWord }
{}

/// A big-endian machine stores the highest byte first.
pub fn big_is_highest_first()
    ensures { BigIsHighestFirst }
{}
