//! The decoder of the Reed-Solomon code: the nearest codeword within half the parity, by Euclid's algorithm on the
//! syndromes, a search of the word's own places, and Forney's masks.
//!
//! The steps with buffers of their own are not inlined, so that they take turns on the stack.
#![tactic(auto)]

ghost use Rattle.std.specs.Prelude.{◌≡◌, ◌+◌, ◌-◌, ◌/◌, ◌≤◌, ◌<◌, ℕ, ◌++◌, length, slice_index};
ghost use Rattle.std.specs.Prelude.{take, true, false, unwrap_or};
ghost use Rattle.code_spec.specs.Field.{gf_pow};
ghost use Rattle.code_spec.specs.Code.{value_of, nearest};
ghost use Rattle.code_laws.proofs.Symbols.{HasRoots};
ghost use Rattle.rs_encode.specs.Lanes.{IsLent};
ghost use Rattle.rs_decode.specs.Decoding.{decoded_by, fixes_by, within, IsExcess};

mod euclid;
mod excess;
mod forney;
mod lanes;
mod mending;
mod roots;

use arrayvec::ArrayVec;
pub use excess::excess_pair_by;
use excess::{has_values_of, is_damaged};
use mending::{apply, corrected};
use rs_encode::Parity;

/// A place of a word, from 0 at its first symbol on, and the mask that corrects it by exclusive-or, which is not 0.
#[derive(Clone, Copy, Debug, Default, PartialEq, Eq)]
pub struct Fix {
    pub place: u8,
    pub mask: u8,
}

/// What a word reads as.
#[derive(Clone, Copy, Debug, PartialEq, Eq)]
pub enum Decoded {
    /// It is a codeword.
    Clean,
    /// The nearest codeword differs in this many places, of parity too.
    Fixed(u8),
    /// No codeword differs in at most half as many places as there is parity.
    Bad,
}

/// Corrects `msg`, read with the parity `par`, to the nearest codeword's data; `fixes` becomes the places of the whole
/// word that differ, in rising order. No table is made, and at most 2 KiB of the stack are taken; with a table, as by
/// [`decode_by`], most words take less time.
pub fn decode(msg: &mut [u8], par: &[u8], fixes: &mut ArrayVec<Fix, 63>) -> Decoded
    requires some_par { 1 ≤ length par.now }
    requires few_par { length par.now ≤ 127 }
    requires some_msg { 1 ≤ length msg.old }
    requires fits { length msg.old + length par.now ≤ 255 }
    ensures answer { let word = msg.old ++ par.now in result ≡ decoded_by word (nearest (length par.now) word) }
    ensures data { let word = msg.old ++ par.now in msg.new
        ≡ take (length msg.old) (unwrap_or (nearest (length par.now) word) word) }
    ensures fixes { let word = msg.old ++ par.now in fixes.new.items ≡ fixes_by word (nearest (length par.now) word) }
{
    decode_by(&[], msg, par, fixes)
}

/// As [`decode`], by the rows of the table for as many symbols as `par` has, or by none.
pub fn decode_by(
    rows: &[u128],
    msg: &mut [u8],
    par: &[u8],
    fixes: &mut ArrayVec<Fix, 63>,
) -> Decoded
    requires some_par { 1 ≤ length par.now }
    requires few_par { length par.now ≤ 127 }
    requires some_msg { 1 ≤ length msg.old }
    requires fits { length msg.old + length par.now ≤ 255 }
    requires table { IsLent (length par.now) rows.now }
    ensures answer { let word = msg.old ++ par.now in result ≡ decoded_by word (nearest (length par.now) word) }
    ensures data { let word = msg.old ++ par.now in msg.new
        ≡ take (length msg.old) (unwrap_or (nearest (length par.now) word) word) }
    ensures fixes { let word = msg.old ++ par.now in fixes.new.items ≡ fixes_by word (nearest (length par.now) word) }
{
    decode_within_by(rows, par.len() / 2, msg, par, fixes)
}

/// As [`decode`], with an encoder for as many symbols as `par` has.
pub fn decode_with(
    coder: &Parity,
    msg: &mut [u8],
    par: &[u8],
    fixes: &mut ArrayVec<Fix, 63>,
) -> Decoded
    requires coder { coder.now ≡ length par.now }
    requires some_par { 1 ≤ length par.now }
    requires few_par { length par.now ≤ 127 }
    requires some_msg { 1 ≤ length msg.old }
    requires fits { length msg.old + length par.now ≤ 255 }
    ensures answer { let word = msg.old ++ par.now in result ≡ decoded_by word (nearest (length par.now) word) }
    ensures data { let word = msg.old ++ par.now in msg.new
        ≡ take (length msg.old) (unwrap_or (nearest (length par.now) word) word) }
    ensures fixes { let word = msg.old ++ par.now in fixes.new.items ≡ fixes_by word (nearest (length par.now) word) }
{
    decode_by(coder.rows(), msg, par, fixes)
}

/// As [`decode_with`], but no more than `most` places are corrected: `Bad` where the nearest codeword differs in more.
/// The fewer, the faster.
pub fn decode_within(
    coder: &Parity,
    most: usize,
    msg: &mut [u8],
    par: &[u8],
    fixes: &mut ArrayVec<Fix, 63>,
) -> Decoded
    requires coder { coder.now ≡ length par.now }
    requires some_par { 1 ≤ length par.now }
    requires few_par { length par.now ≤ 127 }
    requires some_msg { 1 ≤ length msg.old }
    requires fits { length msg.old + length par.now ≤ 255 }
    requires most { most + most ≤ length par.now }
    ensures answer { let word = msg.old ++ par.now in
        result ≡ decoded_by word (within most word (nearest (length par.now) word)) }
    ensures data { let word = msg.old ++ par.now in msg.new
        ≡ take (length msg.old) (unwrap_or (within most word (nearest (length par.now) word)) word) }
    ensures fixes { let word = msg.old ++ par.now in
        fixes.new.items ≡ fixes_by word (within most word (nearest (length par.now) word)) }
{
    decode_within_by(coder.rows(), most, msg, par, fixes)
}

/// Corrects `msg` where `damaged` tells that the word is no codeword, whose values are given.
fn decode_values(
    rows: &[u128],
    most: usize,
    msg: &mut [u8],
    par: &[u8],
    damaged: bool,
    values: &mut [u8],
    fixes: &mut ArrayVec<Fix, 63>,
) -> Decoded
    requires some_par { 1 ≤ length par.now }
    requires few_par { length par.now ≤ 127 }
    requires some_msg { 1 ≤ length msg.old }
    requires fits { length msg.old + length par.now ≤ 255 }
    requires table { IsLent (length par.now) rows.now }
    requires most { most + most ≤ length par.now }
    requires clean { damaged ≡ false → HasRoots (length par.now) (msg.old ++ par.now) }
    requires wrong { damaged ≡ true → ¬ HasRoots (length par.now) (msg.old ++ par.now) }
    requires len { length values.old ≡ length par.now }
    requires values { damaged ≡ true → (k : ℕ) → k < length par.now
        → slice_index values.old k ≡ value_of (msg.old ++ par.now) (gf_pow 2 k) }
    ensures answer { let word = msg.old ++ par.now in
        result ≡ decoded_by word (within most word (nearest (length par.now) word)) }
    ensures data { let word = msg.old ++ par.now in msg.new
        ≡ take (length msg.old) (unwrap_or (within most word (nearest (length par.now) word)) word) }
    ensures fixes { let word = msg.old ++ par.now in
        fixes.new.items ≡ fixes_by word (within most word (nearest (length par.now) word)) }
{
    fixes.clear();
    if !damaged {
        return Decoded::Clean;
    }
    if corrected(rows, most, msg, par, values, fixes) {
        apply(msg, fixes.as_slice());
        let count = fixes.len() as u8;
        Decoded::Fixed(count)
    } else {
        fixes.clear();
        Decoded::Bad
    }
}

/// As [`decode_by`], from the sum of `par` and the parity of `msg`, as [`excess_pair_by`] makes it: nothing is encoded
/// again.
pub fn decode_excess(
    rows: &[u128],
    excess: &[u8],
    msg: &mut [u8],
    par: &[u8],
    fixes: &mut ArrayVec<Fix, 63>,
) -> Decoded
    requires some_par { 1 ≤ length par.now }
    requires few_par { length par.now ≤ 127 }
    requires some_msg { 1 ≤ length msg.old }
    requires fits { length msg.old + length par.now ≤ 255 }
    requires table { IsLent (length par.now) rows.now }
    requires excess { IsExcess msg.old par.now excess.now }
    ensures answer { let word = msg.old ++ par.now in result ≡ decoded_by word (nearest (length par.now) word) }
    ensures data { let word = msg.old ++ par.now in msg.new
        ≡ take (length msg.old) (unwrap_or (nearest (length par.now) word) word) }
    ensures fixes { let word = msg.old ++ par.now in fixes.new.items ≡ fixes_by word (nearest (length par.now) word) }
{
    let mut buffer = [0u8; 127];
    let values = &mut buffer[..par.len()];
    let damaged = has_values_of(excess, msg, par, values);
    decode_values(rows, par.len() / 2, msg, par, damaged, values, fixes)
}

/// As [`decode_by`], but no more than `most` places are corrected.
fn decode_within_by(
    rows: &[u128],
    most: usize,
    msg: &mut [u8],
    par: &[u8],
    fixes: &mut ArrayVec<Fix, 63>,
) -> Decoded
    requires some_par { 1 ≤ length par.now }
    requires few_par { length par.now ≤ 127 }
    requires some_msg { 1 ≤ length msg.old }
    requires fits { length msg.old + length par.now ≤ 255 }
    requires table { IsLent (length par.now) rows.now }
    requires most { most + most ≤ length par.now }
    ensures answer { let word = msg.old ++ par.now in
        result ≡ decoded_by word (within most word (nearest (length par.now) word)) }
    ensures data { let word = msg.old ++ par.now in msg.new
        ≡ take (length msg.old) (unwrap_or (within most word (nearest (length par.now) word)) word) }
    ensures fixes { let word = msg.old ++ par.now in
        fixes.new.items ≡ fixes_by word (within most word (nearest (length par.now) word)) }
{
    let mut buffer = [0u8; 127];
    let values = &mut buffer[..par.len()];
    let damaged = is_damaged(rows, msg, par, values);
    decode_values(rows, most, msg, par, damaged, values, fixes)
}
