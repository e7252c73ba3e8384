//! The laws of the field and of the code, each the contract of a function that does nothing.
#![tactic(auto)]

ghost use Rattle.code_laws.specs.Statements.{LawOfDistance, NearestIs, ParityIs, ProductByShifts, TowardTheNearest};
ghost use Rattle.code_laws.specs.Laws.{IsField, TwoHasOrder255};

/// The bytes are a field.
pub fn bytes_are_a_field()
    ensures { IsField }
{}

/// 2 has order 255: its powers are all bytes but 0.
pub fn order_of_two()
    ensures { TwoHasOrder255 }
{}

/// The product of the definitions is the one by shifts.
pub fn product_by_shifts()
    ensures { ProductByShifts }
{}

/// Different codewords differ in more places than there is parity.
pub fn law_of_distance()
    ensures { LawOfDistance }
{}

/// The nearest codeword is near, is the only one, and is there where one is near.
pub fn nearest_is()
    ensures { NearestIs }
{}

/// Parity is the one list that makes a codeword.
pub fn parity_is()
    ensures { ParityIs }
{}

/// A word that went towards its nearest codeword keeps it.
pub fn toward_the_nearest()
    ensures { TowardTheNearest }
{}
