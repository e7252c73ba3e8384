//! The laws of the decoder of the Reed-Solomon code, on words alone: from the key equation by Euclid's algorithm to the
//! places by Chien's search and their symbols by Forney's formula. Each law is a function whose contract it is.
#![tactic(auto)]

ghost use Rattle.decoder_laws.specs.Laws.{KeyEquation, NearLeavesDamage, EuclidFindsLocator, ChienFindsPlaces};
ghost use Rattle.decoder_laws.specs.Laws.{ForneyFindsSymbols};

/// The locator times the power sums is the evaluator.
pub fn key_equation()
    ensures { KeyEquation }
{}

/// A codeword near a word leaves damage with the word's syndromes.
pub fn near_leaves_damage()
    ensures { NearLeavesDamage }
{}

/// Euclid's algorithm stops at the locator and the evaluator of the damage, up to a factor.
pub fn euclid_finds_locator()
    ensures { EuclidFindsLocator }
{}

/// Chien's search finds the places of the damage.
pub fn chien_finds_places()
    ensures { ChienFindsPlaces }
{}

/// Forney's formula finds the symbols of the damage.
pub fn forney_finds_symbols()
    ensures { ForneyFindsSymbols }
{}
