//! Parity of a message in the Reed-Solomon code whose generator has the roots 2^0 .. 2^(r-1).
#![tactic(auto)]

ghost use Rattle.std.specs.Prelude.{◌≡◌, ◌≢◌, ◌+◌, ◌*◌, ◌/◌, ◌%◌, ◌^◌, ◌≤◌, ◌<◌, ℕ, ◌++◌, ◌∷◌, [], length, slice_index};
ghost use Rattle.std.specs.Prelude.{drop, bit_xor, ◌↔◌, IsTrue};
ghost use Rattle.code_spec.specs.Field.{gf_add, gf_mul, gf_pow};
ghost use Rattle.code_spec.specs.Code.{IsCodeword, parity_of};
ghost use Rattle.rs_encode.specs.Generator.{IsGenerator};
ghost use Rattle.rs_encode.specs.Lanes.{IsMultiple, IsColumn, IsRest, IsTable, IsLent, HoldLanes, HoldsLane};

use arrayvec::ArrayVec;
use gf_poly::{add_scaled, syndromes};
use gf256::{add, mul, mul_pow_by_bits};
use std::marker::Model;

/// Multiplies the polynomial, whose last coefficient is 0, by x plus 2^power, and divides it by x.
fn times_root(word: &mut [u8], power: usize)
    requires some { 0 < length word.old }
    requires power { power ≤ 126 }
    ensures front { slice_index word.new 0 ≡ slice_index word.old 0 }
    ensures rest { (k : ℕ) → k + 1 < length word.new →
        slice_index word.new (k + 1)
        ≡ gf_add (slice_index word.old (k + 1)) (gf_mul (slice_index word.old k) (gf_pow 2 power)) }
{
    for i in (1..word.len()).rev() {
        word[i] = add(word[i], mul_pow_by_bits(word[i - 1], power));
    }
}

/// The product of 2^j + x for each j below `r`.
fn generator_of(r: usize) -> ArrayVec<u8, 128>
    requires some { 1 ≤ r }
    requires fits { r ≤ 127 }
    ensures len { length result.items ≡ r + 1 }
    ensures generator { IsGenerator result.items }
{
    let mut generator: ArrayVec<u8, 128> = ArrayVec::new();
    generator.push(1);
    for j in 0..r {
        generator.push(0);
        times_root(generator.as_mut_slice(), j);
    }
    generator
}

/// The symbol at `k`, or 0 past the end.
fn symbol_or_zero(symbols: &[u8], k: usize) -> u8
    ensures { result ≡ slice_index symbols.now k }
{
    if k < symbols.len() { symbols[k] } else { 0 }
}

/// The lane of `factor` times the first 16 of `symbols`.
fn lane_of(factor: u8, symbols: &[u8]) -> u128
    ensures { IsMultiple factor symbols.now result }
{
    let mut lane = 0u128;
    for k in 0..16usize {
        lane = (lane << 8u32) ^ u128::from(mul(factor, symbol_or_zero(symbols, k)));
    }
    lane
}

/// Stores the sums of `row` and each of the `count` rows from `start` on, after those rows.
fn double_rows(table: &mut [u128], start: usize, count: usize, row: u128)
    requires count { count ≤ 128 }
    requires fits { start + 2 * count ≤ length table.old }
    ensures sums { (f : ℕ) → f < count →
        slice_index table.new (start + count + f) ≡ bit_xor (slice_index table.old (start + f)) row }
    ensures before { (k : ℕ) → k < start + count → slice_index table.new k ≡ slice_index table.old k }
    ensures after { (k : ℕ) → start + 2 * count ≤ k → slice_index table.new k ≡ slice_index table.old k }
{
    for f in 0..count {
        table[start + count + f] = table[start + f] ^ row;
    }
}

/// Stores the multiples of `symbols` by each number below 2^bits times 2^shift, from `start` on, where a 0 stands.
fn fill_column(table: &mut [u128], start: usize, bits: u32, shift: u32, symbols: &[u8])
    requires byte { bits + shift ≤ 8 }
    requires fits { start + 2 ^ bits ≤ length table.old }
    requires zero { slice_index table.old start ≡ 0 }
    ensures column { IsColumn start (2 ^ bits) shift symbols.now table.new }
    ensures before { (k : ℕ) → k < start → slice_index table.new k ≡ slice_index table.old k }
    ensures after { (k : ℕ) → start + 2 ^ bits ≤ k → slice_index table.new k ≡ slice_index table.old k }
{
    for bit in 0..bits {
        let row = lane_of(1u8 << (bit + shift), symbols);
        double_rows(table, start, 1usize << bit, row);
    }
}

/// Makes the zeros the generator's multiples by each byte.
fn byte_table(generator: &[u8], rows: &mut [u128])
    requires some { 0 < length generator.now }
    requires len { length rows.old ≡ 256 }
    requires zeros { (k : ℕ) → slice_index rows.old k ≡ 0 }
    ensures { IsColumn 0 256 0 (drop 1 generator.now) rows.new }
{
    fill_column(rows, 0, 8, 0, &generator[1..]);
}

/// Makes the zeros, for each 16 of the generator's coefficients after the first, their multiples by low and by high
/// halves of bytes.
fn half_table(generator: &[u8], rows: &mut [u128])
    requires some { 0 < length generator.now }
    requires fits { length generator.now ≤ 128 }
    requires len { length rows.old ≡ 256 }
    requires zeros { (k : ℕ) → slice_index rows.old k ≡ 0 }
    ensures low { (j : ℕ) → 16 * j + 1 < length generator.now →
        IsColumn (32 * j) 16 0 (drop (16 * j + 1) generator.now) rows.new }
    ensures high { (j : ℕ) → 16 * j + 1 < length generator.now →
        IsColumn (32 * j + 16) 16 4 (drop (16 * j + 1) generator.now) rows.new }
{
    let count = (generator.len() - 1).div_ceil(16);
    for j in 0..count {
        let symbols = &generator[16 * j + 1..];
        fill_column(rows, 32 * j, 4, 0, symbols);
        fill_column(rows, 32 * j + 16, 4, 4, symbols);
    }
}

/// Makes the zeros the table of the generator.
fn table_of(generator: &[u8], rows: &mut [u128])
    requires generator { IsGenerator generator.now }
    requires len { length rows.old ≡ 256 }
    requires zeros { (k : ℕ) → slice_index rows.old k ≡ 0 }
    ensures { (r : ℕ) → length generator.now ≡ r + 1 → IsTable r rows.new }
{
    if generator.len() <= 17 {
        byte_table(generator, rows);
    } else {
        half_table(generator, rows);
    }
}

/// Makes `rows` the table for `r` parity symbols, in place.
///
/// The rest of a message stands in lanes of 16 symbols, the first symbol in the highest byte. Up to 16 symbols are one
/// lane, and the table has the generator's multiple by each byte. More symbols are several lanes, and for each of them
/// the table has the multiples by each low and by each high half of a byte.
pub fn fill_table(r: usize, rows: &mut [u128])
    requires some { 1 ≤ r }
    requires fits { r ≤ 127 }
    requires len { length rows.old ≡ 256 }
    ensures { IsTable r rows.new }
{
    let generator = generator_of(r);
    rows.fill(0);
    table_of(generator.as_slice(), rows);
}

/// `lane` moved on by one byte, then the first byte of `next`; `row` is added.
fn moved_lane(lane: u128, next: u128, row: u128) -> u128
    ensures { result ≡ bit_xor (bit_xor (lane * 2 ^ 8 % 2 ^ 128) (next / 2 ^ 120)) row }
{
    ((lane << 8u32) ^ (next >> 120u32)) ^ row
}

/// Moves the first `count` lanes on by one byte, and adds the rows of `factor`.
fn move_lanes(table: &[u128], factor: u8, count: usize, lanes: &mut [u128])
    requires table { length table.now ≡ 256 }
    requires count { count ≤ 8 }
    requires fits { count < length lanes.old }
    ensures moved { (j : ℕ) → j < count → slice_index lanes.new j
        ≡ bit_xor (bit_xor (slice_index lanes.old j * 2 ^ 8 % 2 ^ 128) (slice_index lanes.old (j + 1) / 2 ^ 120))
        (bit_xor (slice_index table.now (32 * j + factor % 16)) (slice_index table.now (32 * j + 16 + factor / 16))) }
    ensures rest { (j : ℕ) → count ≤ j → slice_index lanes.new j ≡ slice_index lanes.old j }
    ensures fits { (j : ℕ) → slice_index lanes.new j < 2 ^ 128 }
{
    let low = (factor % 16) as usize;
    let high = (factor / 16) as usize;
    for j in 0..count {
        let row = table[32 * j + low] ^ table[32 * j + 16 + high];
        lanes[j] = moved_lane(lanes[j], lanes[j + 1], row);
    }
}

/// Stores the bytes of `lane`, the highest first, from `start` on, as far as there is room.
fn write_lane(lane: u128, start: usize, out: &mut [u8])
    requires { start ≤ length out.old }
    ensures bytes { HoldsLane lane start out.new }
    ensures before { (k : ℕ) → k < start → slice_index out.new k ≡ slice_index out.old k }
{
    let bytes = lane.to_be_bytes();
    let count = (out.len() - start).min(16);
    for k in 0..count {
        out[start + k] = bytes[k];
    }
}

/// Makes `out` the bytes of the lanes, as far as there is room.
fn write_lanes(lanes: &[u128], out: &mut [u8])
    requires { length out.old ≤ 16 * length lanes.now }
    ensures { HoldLanes lanes.now out.new }
{
    for j in 0..out.len().div_ceil(16) {
        write_lane(lanes[j], 16 * j, out);
    }
}

/// Whether the bytes of `lane`, the highest first, stand in `symbols` from `start` on, as far as there is room.
fn has_lane(lane: u128, start: usize, symbols: &[u8]) -> bool
    requires { start ≤ length symbols.now }
    ensures { IsTrue result ↔ HoldsLane lane start symbols.now }
{
    let bytes = lane.to_be_bytes();
    let count = (symbols.len() - start).min(16);
    for k in 0..count {
        if symbols[start + k] != bytes[k] {
            return false;
        }
    }
    true
}

/// Whether `symbols` are the bytes of the lanes, as far as there is room.
fn has_lanes(lanes: &[u128], symbols: &[u8]) -> bool
    requires { length symbols.now ≤ 16 * length lanes.now }
    ensures { IsTrue result ↔ HoldLanes lanes.now symbols.now }
{
    for j in 0..symbols.len().div_ceil(16) {
        if !has_lane(lanes[j], 16 * j, symbols) {
            return false;
        }
    }
    true
}

/// The rest of `msg` in one lane, by the rows of a table.
fn rest_in_lane(rows: &[u128], msg: &[u8]) -> u128
    requires { length rows.now ≡ 256 }
    ensures { (r : ℕ) → r ≤ 16 → IsTable r rows.now → IsRest r msg.now (result ∷ []) }
{
    let mut rest = 0u128;
    for c in msg {
        let factor = add(*c, (rest >> 120u32) as u8);
        rest = (rest << 8u32) ^ rows[factor as usize];
    }
    rest
}

/// The rests of two messages, each in one lane. The two chains of work run side by side.
fn rest_pair(rows: &[u128], a: &[u8], b: &[u8]) -> (u128, u128)
    requires len { length rows.now ≡ 256 }
    requires same { length b.now ≡ length a.now }
    ensures a { (r : ℕ) → r ≤ 16 → IsTable r rows.now → IsRest r a.now (result.0 ∷ []) }
    ensures b { (r : ℕ) → r ≤ 16 → IsTable r rows.now → IsRest r b.now (result.1 ∷ []) }
{
    let mut rest_a = 0u128;
    let mut rest_b = 0u128;
    for i in 0..a.len() {
        let factor_a = add(a[i], (rest_a >> 120u32) as u8);
        rest_a = (rest_a << 8u32) ^ rows[factor_a as usize];
        let factor_b = add(b[i], (rest_b >> 120u32) as u8);
        rest_b = (rest_b << 8u32) ^ rows[factor_b as usize];
    }
    (rest_a, rest_b)
}

/// The rest of `msg` in `count` lanes. It is inlined so that a fixed number of lanes stays in registers.
#[inline(always)]
fn rest_by(rows: &[u128], msg: &[u8], count: usize) -> [u128; 9]
    requires len { length rows.now ≡ 256 }
    requires fits { count ≤ 8 }
    ensures { (r : ℕ) → 16 < r → r ≤ 16 * count → 16 * count < r + 16 → IsTable r rows.now → IsRest r msg.now result }
{
    let mut lanes = [0u128; 9];
    for c in msg {
        let factor = add(*c, (lanes[0] >> 120u32) as u8);
        move_lanes(rows, factor, count, &mut lanes);
    }
    lanes
}

/// The rest of `msg` for `r` parity symbols, in as many lanes as it needs.
fn rest_in_lanes(rows: &[u128], r: usize, msg: &[u8]) -> [u128; 9]
    requires more { 16 < r }
    requires fits { r ≤ 127 }
    requires table { IsTable r rows.now }
    ensures { IsRest r msg.now result }
{
    if r <= 32 {
        rest_by(rows, msg, 2)
    } else if r <= 48 {
        rest_by(rows, msg, 3)
    } else if r <= 64 {
        rest_by(rows, msg, 4)
    } else if r <= 112 {
        rest_by(rows, msg, r.div_ceil(16))
    } else {
        rest_by(rows, msg, 8)
    }
}

/// Makes `out` the parity of `msg`, by the rows of a table.
fn table_parity(rows: &[u128], msg: &[u8], out: &mut [u8])
    requires table { IsTable (length out.old) rows.now }
    requires few { length out.old ≤ 127 }
    requires fits { length msg.now + length out.old ≤ 255 }
    ensures { out.new ≡ parity_of (length out.old) msg.now }
{
    if out.len() <= 16 {
        write_lanes(&[rest_in_lane(rows, msg)], out);
    } else {
        write_lanes(&rest_in_lanes(rows, out.len(), msg), out);
    }
}

/// Whether `par` is the parity of `msg`, by the rows of a table.
fn has_parity(rows: &[u128], msg: &[u8], par: &[u8]) -> bool
    requires table { IsTable (length par.now) rows.now }
    requires few { length par.now ≤ 127 }
    requires fits { length msg.now + length par.now ≤ 255 }
    ensures { IsTrue result ↔ IsCodeword (length par.now) (msg.now ++ par.now) }
{
    if par.len() <= 16 {
        has_lanes(&[rest_in_lane(rows, msg)], par)
    } else {
        has_lanes(&rest_in_lanes(rows, par.len(), msg), par)
    }
}

fn all_zero(values: &[u8]) -> bool
    ensures { IsTrue result ↔ ((k : ℕ) → k < length values.now → slice_index values.now k ≡ 0) }
{
    values.iter().all(|x| *x == 0)
}

/// Whether `par` is the parity of `msg`, by the values of the word, without a table.
fn has_roots(msg: &[u8], par: &[u8]) -> bool
    requires few { length par.now ≤ 127 }
    requires fits { length msg.now + length par.now ≤ 255 }
    ensures { IsTrue result ↔ IsCodeword (length par.now) (msg.now ++ par.now) }
{
    let mut buffer = [0u8; 127];
    let values = &mut buffer[..par.len()];
    syndromes(msg, par, values);
    all_zero(values)
}

/// Moves a rest on by one symbol.
fn move_on(rest: &mut [u8])
    ensures { (k : ℕ) → k < length rest.new → slice_index rest.new k ≡ slice_index rest.old (k + 1) }
{
    for k in 0..rest.len() {
        rest[k] = symbol_or_zero(rest, k + 1);
    }
}

/// Moves a rest on by one symbol, and adds the multiple of the generator's lower coefficients by `factor`.
fn move_rest(rest: &mut [u8], factor: u8, low: &[u8])
    requires { length low.now ≡ length rest.old }
    ensures { (k : ℕ) → k < length rest.new → slice_index rest.new k
        ≡ gf_add (slice_index rest.old (k + 1)) (gf_mul factor (slice_index low.now k)) }
{
    move_on(rest);
    add_scaled(rest, 0, factor, low);
}

/// Makes `out` the parity of `msg` without a table: slower, and with less than a KiB of the stack.
pub fn bare_parity(msg: &[u8], out: &mut [u8])
    requires some { 1 ≤ length out.old }
    requires few { length out.old ≤ 127 }
    requires fits { length msg.now + length out.old ≤ 255 }
    ensures { out.new ≡ parity_of (length out.old) msg.now }
{
    let generator = generator_of(out.len());
    let low = &generator.as_slice()[1..];
    out.fill(0);
    for c in msg {
        let factor = add(*c, out[0]);
        move_rest(out, factor, low);
    }
}

/// Makes `out` the parity of `msg`, as many symbols as it has: by the rows of their table, or slower by none.
pub fn parity_by(rows: &[u128], msg: &[u8], out: &mut [u8])
    requires some { 1 ≤ length out.old }
    requires few { length out.old ≤ 127 }
    requires fits { length msg.now + length out.old ≤ 255 }
    requires table { IsLent (length out.old) rows.now }
    ensures { out.new ≡ parity_of (length out.old) msg.now }
{
    if rows.is_empty() {
        bare_parity(msg, out);
    } else {
        table_parity(rows, msg, out);
    }
}

/// Whether `par` is the parity of `msg`: by the rows of a table for as many symbols, or slower by none.
pub fn is_parity_by(rows: &[u128], msg: &[u8], par: &[u8]) -> bool
    requires few { length par.now ≤ 127 }
    requires fits { length msg.now + length par.now ≤ 255 }
    requires table { IsLent (length par.now) rows.now }
    ensures { IsTrue result ↔ IsCodeword (length par.now) (msg.now ++ par.now) }
{
    if rows.is_empty() {
        has_roots(msg, par)
    } else {
        has_parity(rows, msg, par)
    }
}

/// Whether `par_a` is the parity of `a`, and `par_b` that of `b`. Up to 16 parity symbols, and by a table, this is
/// faster than two calls of [`is_parity_by`].
pub fn are_parity_pair_by(
    rows: &[u128],
    a: &[u8],
    par_a: &[u8],
    b: &[u8],
    par_b: &[u8],
) -> (bool, bool)
    requires few { length par_a.now ≤ 127 }
    requires same_par { length par_b.now ≡ length par_a.now }
    requires same { length b.now ≡ length a.now }
    requires fits { length a.now + length par_a.now ≤ 255 }
    requires table { IsLent (length par_a.now) rows.now }
    ensures a { IsTrue result.0 ↔ IsCodeword (length par_a.now) (a.now ++ par_a.now) }
    ensures b { IsTrue result.1 ↔ IsCodeword (length par_a.now) (b.now ++ par_b.now) }
{
    if !rows.is_empty() && par_a.len() <= 16 {
        let rests = rest_pair(rows, a, b);
        let is_a = has_lanes(&[rests.0], par_a);
        let is_b = has_lanes(&[rests.1], par_b);
        (is_a, is_b)
    } else {
        (is_parity_by(rows, a, par_a), is_parity_by(rows, b, par_b))
    }
}

/// Makes `out_a` the parity of `a` and `out_b` that of `b`. Up to 16 parity symbols, and by a table, this is faster than
/// two calls of [`parity_by`].
pub fn parity_pair_by(rows: &[u128], a: &[u8], b: &[u8], out_a: &mut [u8], out_b: &mut [u8])
    requires some { 1 ≤ length out_a.old }
    requires few { length out_a.old ≤ 127 }
    requires same_out { length out_b.old ≡ length out_a.old }
    requires same { length b.now ≡ length a.now }
    requires fits { length a.now + length out_a.old ≤ 255 }
    requires table { IsLent (length out_a.old) rows.now }
    ensures a { out_a.new ≡ parity_of (length out_a.old) a.now }
    ensures b { out_b.new ≡ parity_of (length out_b.old) b.now }
{
    if !rows.is_empty() && out_a.len() <= 16 {
        let rests = rest_pair(rows, a, b);
        write_lanes(&[rests.0], out_a);
        write_lanes(&[rests.1], out_b);
    } else {
        parity_by(rows, a, out_a);
        parity_by(rows, b, out_b);
    }
}

/// The encoder for `r` parity symbols: the owner of their table. It holds 4 KiB; a caller with many messages keeps one.
#[derive(Drop)]
pub struct Parity {
    r: usize,
    table: [u128; 256],
}

impl Model for Parity {
    ghost use Rattle.std.specs.Prelude.{ℕ};
    ghost use Rattle.rs_encode.specs.Lanes.{IsTable};

    ghost Value = { ℕ };

    ghost view = { λ p. p.r };

    ghost invariant = { λ p. IsTable p.r p.table };
}

impl Parity {
    /// The encoder for `r` parity symbols.
    pub fn new(r: usize) -> Parity
        requires some { 1 ≤ r }
        requires fits { r ≤ 127 }
        ensures { result ≡ r }
    {
        let mut table = [0u128; 256];
        fill_table(r, &mut table);
        Parity { r, table }
    }

    /// The table, to be lent.
    pub fn rows(&self) -> &[u128]
        ensures { IsTable self.now result.now }
    {
        &self.table
    }

    /// Makes `out` the parity of `msg`.
    pub fn parity(&self, msg: &[u8], out: &mut [u8])
        requires len { length out.old ≡ self.now }
        requires fits { length msg.now + self.now ≤ 255 }
        ensures { out.new ≡ parity_of self.now msg.now }
    {
        parity_by(self.rows(), msg, out);
    }

    /// Makes `out_a` the parity of `a` and `out_b` that of `b`. Up to 16 parity symbols this is faster than two calls.
    pub fn parity_pair(&self, a: &[u8], b: &[u8], out_a: &mut [u8], out_b: &mut [u8])
        requires len_a { length out_a.old ≡ self.now }
        requires len_b { length out_b.old ≡ self.now }
        requires same { length b.now ≡ length a.now }
        requires fits { length a.now + self.now ≤ 255 }
        ensures a { out_a.new ≡ parity_of self.now a.now }
        ensures b { out_b.new ≡ parity_of self.now b.now }
    {
        parity_pair_by(self.rows(), a, b, out_a, out_b);
    }

    /// Whether `par` is the parity of `msg`.
    pub fn is_parity(&self, msg: &[u8], par: &[u8]) -> bool
        requires len { length par.now ≡ self.now }
        requires fits { length msg.now + self.now ≤ 255 }
        ensures { IsTrue result ↔ IsCodeword self.now (msg.now ++ par.now) }
    {
        is_parity_by(self.rows(), msg, par)
    }

    /// Whether `par_a` is the parity of `a`, and `par_b` that of `b`. Up to 16 parity symbols this is faster than two
    /// calls of [`Parity::is_parity`].
    pub fn are_parity_pair(&self, a: &[u8], par_a: &[u8], b: &[u8], par_b: &[u8]) -> (bool, bool)
        requires len_a { length par_a.now ≡ self.now }
        requires len_b { length par_b.now ≡ self.now }
        requires same { length b.now ≡ length a.now }
        requires fits { length a.now + self.now ≤ 255 }
        ensures a { IsTrue result.0 ↔ IsCodeword self.now (a.now ++ par_a.now) }
        ensures b { IsTrue result.1 ↔ IsCodeword self.now (b.now ++ par_b.now) }
    {
        are_parity_pair_by(self.rows(), a, par_a, b, par_b)
    }
}
