//! The law of the code over this field, which code_laws proves from the definitions of value, codeword and distance.

/// The law of distance: two different codewords of one length, at most 255, with r parity symbols differ in at least
/// r + 1 places. `LawOfDistance` in code_laws' Statements says it.
pub use code_laws::law_of_distance;
