//! The Reed-Solomon code of `lib/reed_solomon` with the polynomial 0x11d, as definitions in `specs/`.
#![tactic(auto)]
