//! Worked rows of the store's definitions: each function's contract is a row, whose expected values stand in `specs/`.
#![tactic(auto)]

pub mod big_endian;
pub mod boots;
pub mod bounds;
pub mod calls;
pub mod codes;
pub mod counts;
pub mod damage;
pub mod dumps;
pub mod ftrace;
pub mod histories;
pub mod layouts;
pub mod lines;
pub mod notices;
pub mod parity;
pub mod refusals;
