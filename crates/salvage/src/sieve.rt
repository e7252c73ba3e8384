// A sieve of headers' words: most words that are far from each ring's codeword are told so without a decoder.
//
// The places of a word that are not known before stand in blocks. A block's weights are the values, at the block's
// places, of a polynomial that is 0 at the unknown places outside the block. Its degree is so low that the weighted
// symbols of a codeword add up to 0. So the weighted sum of a word tells of the errors in the block alone. The sums with
// one, two and more powers of the place's locator as a further weight follow a recurrence that has a term for each
// error. So 2e - 1 sums tell whether there are fewer than e errors.
//
// Three sums tell more than whether there is one error. Two errors at given places determine the third sum by the first
// two. So for each pair of a block's places and each ratio of the first two sums the third is marked. Sums that are not
// marked are of three errors at least.
ghost use Rattle.std.specs.Prelude.{◌≡◌, ◌+◌, ◌*◌, ◌-◌, ◌≤◌, ◌<◌, ◌↔◌, ℕ, slice_index, ◌^◌, bit_xor, ◌++◌, length};
ghost use Rattle.std.specs.Prelude.{replicate, drop, slice_index_or, List, true, false, IsTrue, Option, None, All};
ghost use Rattle.std.specs.Prelude.{IfSome, IfOk, ◌≢◌};
ghost use Rattle.code_spec.specs.Field.{gf_add, gf_mul, gf_pow};
ghost use Rattle.code_spec.specs.Code.{distance};
ghost use Rattle.rs_encode.specs.Lanes.{IsMultiple, digit};
ghost use Rattle.salvage_laws.specs.Known.{put_in};
ghost use Rattle.salvage.specs.Sieves.{AreFactors, AreRows, factor_of, IsBlock, IsKnownWord, IsOutside, IsWeight, dot};
ghost use Rattle.salvage.specs.Sieves.{none, product, sum_at, third, pair_sum, AreMarks, AreMarked};

use crate::header::amend;
use arrayvec::ArrayVec;
use gf256::{add, alpha_pow, inv, mul};
use rs_encode::Parity;
use std::alloc::{AllocError, Global};
use std::marker::Model;

/// What a place's symbol counts in each of a block's sums.
#[derive(Clone, Copy)]
pub struct Weight {
    pub counts: [u8; 7],
}

/// The places from `from` up to `to`, and for each the multiples of its weight by the halves of a byte. Their sums tell
/// of `least` errors. Where that is two they tell of a third by marks: those of two errors' sums. A mark's index is the
/// ratio of the second sum to the first one times 256, and the ratio of the third one.
#[derive(Drop)]
pub struct Block {
    pub from: usize,
    pub to: usize,
    pub least: usize,
    pub rows: Vec<u128>,
    pub marks: Vec<bool>,
}

/// Blocks of the places of a header's word, and a codeword with the known bytes.
#[derive(Drop)]
pub struct Sieve {
    known: [Option<u8>; 12],
    parity: usize,
    base: ArrayVec<u8, 139>,
    blocks: Vec<Block>,
}

impl Model for Sieve {
    ghost use Rattle.salvage.specs.Sieves.{Sifted, IsSieve};

    ghost Value = { Sifted };

    ghost view = { λ s. record {
      known = s.known;
      parity = s.parity;
    } };

    ghost invariant = { λ s. IsSieve s.known s.parity s.base.items s.blocks.items };
}

/// Whether the byte at `place` is not known.
fn is_unknown(known: &[Option<u8>], place: usize) -> bool
    ensures { IsTrue result ↔ (slice_index_or known.now place None ≡ None) }
{
    place >= known.len() || known[place].is_none()
}

/// Whether the place is outside a block, and its byte not known.
fn is_other(known: &[Option<u8>], from: usize, to: usize, place: usize) -> bool
    ensures { IsTrue result ↔ (IsOutside from to place × (slice_index_or known.now place None ≡ None)) }
{
    (place < from || to <= place) && is_unknown(known, place)
}

/// The powers of the unknown places outside a block.
fn powers_outside(known: &[Option<u8>], places: usize, from: usize, to: usize) -> ArrayVec<u8, 139>
    requires { places ≤ 139 }
    ensures { (j : ℕ) → j < places → IsOutside from to j → slice_index_or known.now j None ≡ None
        → product result.items (places - 1 - j) ≡ 0 }
{
    let mut powers: ArrayVec<u8, 139> = ArrayVec::new();
    for j in 0..places {
        if is_other(known, from, to, j) {
            powers.push((places - 1 - j) as u8);
        }
    }
    powers
}

/// The product of 2^power + 2^other over the other powers.
fn product_at(others: &[u8], power: u8) -> u8
    ensures { result ≡ product others.now power }
{
    let mut value = 1u8;
    for other in others {
        value = mul(value, add(alpha_pow(power), alpha_pow(*other)));
    }
    value
}

/// What no place counts.
fn nothing() -> Weight
    ensures { result ≡ none }
{
    Weight { counts: [0; 7] }
}

/// What a place of this power counts.
fn weight_at(others: &[u8], power: u8) -> Weight
    ensures { IsWeight others.now power result }
{
    let mut counts = [0u8; 7];
    let mut count = product_at(others, power);
    for i in 0..7usize {
        counts[i] = count;
        count = mul(count, alpha_pow(power));
    }
    Weight { counts }
}

/// The weights of `count` places, the first of which has this power.
fn weights_of(others: &[u8], power: usize, count: usize) -> [Weight; 16]
    requires power { power < 139 }
    requires count { count ≤ 16 }
    requires within { count ≤ power + 1 }
    ensures weights { (k : ℕ) → k < count → IsWeight others.now (power - k) (slice_index_or result k none) }
    ensures len { length result ≡ 16 }
{
    let mut weights = [nothing(); 16];
    for k in 0..count {
        weights[k] = weight_at(others, (power - k) as u8);
    }
    weights
}

/// The count at `k`, or 0 past the end.
fn count_or_zero(counts: &[u8], k: usize) -> u8
    ensures { result ≡ slice_index counts.now k }
{
    if k < counts.len() { counts[k] } else { 0 }
}

/// The lane of `factor` times the counts.
fn lane_of(factor: u8, counts: &[u8]) -> u128
    ensures { IsMultiple factor counts.now result }
{
    let mut lane = 0u128;
    for k in 0..16usize {
        lane = (lane << 8u32) ^ u128::from(mul(factor, count_or_zero(counts, k)));
    }
    lane
}

/// The low or high half of a byte whose multiple stands in a row.
fn factor_of(row: usize) -> u8
    ensures { result ≡ factor_of row }
{
    let half = row % 32;
    if half < 16 {
        half as u8
    } else {
        ((half - 16) * 16) as u8
    }
}

/// The rows for the places of these weights, 8 KiB.
fn rows_of(alloc: Global, weights: &[Weight]) -> Result<Vec<u128>, AllocError>
    requires { length weights.now ≡ 16 }
    ensures rows { IfOk result (λ rows. AreRows weights.now rows.items) }
    ensures len { IfOk result (λ rows. length rows.items ≡ 512) }
{
    let mut rows = Vec::from_elem(alloc, 0u128, 512)?;
    for i in 0..512usize {
        rows[i] = lane_of(factor_of(i), &weights[i / 32].counts);
    }
    Ok(rows)
}

/// Where the mark of two ratios of sums stands.
fn mark_place(second: u8, third: u8) -> usize
    ensures { result ≡ 256 * second + third }
{
    256 * second as usize + third as usize
}

/// The third sum of two errors at places of these powers, where the first sum is 1.
fn third(low: u8, high: u8, second: u8) -> u8
    ensures { result ≡ third low high second }
{
    let x = alpha_pow(low);
    add(mul(x, second), mul(alpha_pow(high), add(second, x)))
}

/// Marks the sums of two errors at places of these powers.
fn mark_pair(marks: &mut [bool], low: u8, high: u8)
    requires { length marks.old ≡ 65536 }
    ensures len { length marks.new ≡ 65536 }
    ensures kept { (j : ℕ) → slice_index_or marks.old j false ≡ true → slice_index_or marks.new j false ≡ true }
    ensures pair { AreMarked marks.new low high }
{
    for i in 0..256usize {
        let place = mark_place(i as u8, third(low, high, i as u8));
        marks[place] = true;
    }
}

/// Marks the sums of errors at a place of power `high` and at one of a lower power, from `low` on.
fn mark_below(marks: &mut [bool], low: u8, high: u8)
    requires { length marks.old ≡ 65536 }
    ensures len { length marks.new ≡ 65536 }
    ensures kept { (j : ℕ) → slice_index_or marks.old j false ≡ true → slice_index_or marks.new j false ≡ true }
    ensures pairs { (x : ℕ) → low ≤ x → x < high → AreMarked marks.new x high }
{
    for x in low..high {
        mark_pair(marks, x, high);
    }
}

/// Marks the sums of errors at each two places of powers from `low` up to `end`.
fn mark_all(marks: &mut [bool], low: u8, end: u8)
    requires { length marks.old ≡ 65536 }
    ensures len { length marks.new ≡ 65536 }
    ensures all { AreMarks low end marks.new }
{
    for y in low..end {
        mark_below(marks, low, y);
    }
}

/// The marks of a block whose places have the powers from `low` up to `end`, 64 KiB.
fn marks_of(alloc: Global, low: u8, end: u8) -> Result<Vec<bool>, AllocError>
    ensures marks { IfOk result (λ marks. AreMarks low end marks.items) }
    ensures len { IfOk result (λ marks. length marks.items ≡ 65536) }
{
    let mut marks = Vec::from_elem(alloc, false, 65536)?;
    mark_all(&mut marks, low, end);
    Ok(marks)
}

/// The marks where two errors are told of, and none otherwise.
fn marks_for(alloc: Global, least: usize, low: u8, end: u8) -> Result<Vec<bool>, AllocError>
    ensures marks { IfOk result (λ marks. least ≡ 2 → AreMarks low end marks.items) }
    ensures len { IfOk result (λ marks. least ≡ 2 → length marks.items ≡ 65536) }
{
    if least == 2 {
        marks_of(alloc, low, end)
    } else {
        Ok(Vec::new(alloc))
    }
}

/// The block of these places that tells of so many errors, where there is parity for its sums.
fn block_of(
    alloc: Global,
    known: &[Option<u8>],
    parity: usize,
    from: usize,
    to: usize,
    least: usize,
) -> Result<Option<Block>, AllocError>
    requires { parity ≤ 127 }
    ensures { IfOk result (λ block. IfSome block (IsBlock known.now parity)) }
{
    let places = 12 + parity;
    if to <= from || to - from < 2 || to - from > 16 || places < to || least < 1 || least > 4 {
        return Ok(None);
    }
    let others = powers_outside(known, places, from, to);
    if parity + 1 < others.len() + 2 * least {
        return Ok(None);
    }
    let weights = weights_of(others.as_slice(), places - 1 - from, to - from);
    let rows = rows_of(alloc, &weights)?;
    let marks = marks_for(alloc, least, (places - to) as u8, (places - from) as u8)?;
    Ok(Some(Block {
        from,
        to,
        least,
        rows,
        marks,
    }))
}

/// How many unknown places a block has beside two for each error that it tells of: one less than the unknown bytes of
/// a header.
fn spare(known: &[Option<u8>; 12]) -> usize
    ensures { result ≤ 5 }
{
    if known[5].is_some() || known[6].is_some() {
        3
    } else {
        5
    }
}

/// Where the block ends that begins at `from` and tells of so many errors. The first block has a header's known bytes
/// besides.
fn end_of(from: usize, least: usize, spare: usize) -> usize
    requires from { from ≤ 1000 }
    requires least { least ≤ 4 }
    requires spare { spare ≤ 5 }
    ensures { result ≤ from + 20 }
{
    let inside = if from == 4 { 7 - spare } else { 0 };
    from + 2 * least + spare + inside
}

/// Of how many errors the block from `from` on tells, so many at most: the last block has fewer places.
fn least_from(from: usize, places: usize, most: usize, spare: usize) -> usize
    ensures { result ≤ most }
{
    let left = places.saturating_sub(from).saturating_sub(spare) / 2;
    left.min(most)
}

/// The blocks of a word, from place 4 on: each tells of so many errors, but the last one of what its places allow.
fn blocks_of(
    alloc: Global,
    known: &[Option<u8>; 12],
    parity: usize,
    most: usize,
) -> Result<Vec<Block>, AllocError>
    requires parity { parity ≤ 127 }
    requires most { most ≤ 4 }
    ensures { IfOk result (λ blocks. All (IsBlock known.now parity) blocks.items) }
{
    let mut blocks = Vec::new(alloc);
    let mut from = 4;
    for i in 0..12usize {
        let least = least_from(from, 12 + parity, most, spare(known));
        let to = end_of(from, least, spare(known));
        if let Some(block) = block_of(alloc, known, parity, from, to, least)? {
            blocks.push(block)?;
        }
        from = to;
    }
    Ok(blocks)
}

fn extend(word: &mut ArrayVec<u8, 139>, more: &[u8])
    requires { length word.old.items + length more.now ≤ 139 }
    ensures { word.new.items ≡ word.old.items ++ more.now }
{
    match word.try_extend_from_slice(more) {
        Ok(()) => {}
        Err(_) => unreachable!(),
    }
}

/// A header's bytes and their parity as one word.
pub fn joined(bytes: &[u8], parity: &[u8]) -> ArrayVec<u8, 139>
    requires { length bytes.now + length parity.now ≤ 139 }
    ensures { result.items ≡ bytes.now ++ parity.now }
{
    let mut word: ArrayVec<u8, 139> = ArrayVec::new();
    extend(&mut word, bytes);
    extend(&mut word, parity);
    word
}

/// A header of the known bytes, and of zeros where a byte is not known.
fn known_header(known: &[Option<u8>]) -> [u8; 12]
    requires { length known.now ≡ 12 }
    ensures { result ≡ put_in known.now (replicate 12 0) }
{
    let mut header = [0u8; 12];
    amend(known, &mut header);
    header
}

/// The codeword of a header of the known bytes.
fn codeword_of(
    coder: &Parity,
    known: &[Option<u8>],
    header: &[u8],
    parity: usize,
) -> ArrayVec<u8, 139>
    requires coder { coder.now ≡ parity }
    requires few { parity ≤ 127 }
    requires len { length known.now ≡ 12 }
    requires twelve { length header.now ≡ 12 }
    requires header { header.now ≡ put_in known.now (replicate 12 0) }
    ensures { IsKnownWord known.now parity result.items }
{
    let mut buffer = [0u8; 127];
    let symbols = &mut buffer[..parity];
    coder.parity(header, symbols);
    joined(header, symbols)
}

/// The lane of a symbol's products with the counts of place `k`.
fn row_for(rows: &[u128], k: usize, symbol: u8) -> u128
    requires { 32 * k + 32 ≤ length rows.now }
    ensures { (gs : List Weight) → k < length gs → AreRows gs rows.now
        → IsMultiple symbol (slice_index_or gs k none).counts result }
{
    let low = rows[32 * k + (symbol % 16) as usize];
    let high = rows[32 * k + 16 + (symbol / 16) as usize];
    low ^ high
}

/// The sums of the symbols' sums, by the rows, in one lane.
fn sums_of(rows: &[u128], word: &[u8], base: &[u8]) -> u128
    requires word { 32 * length word.now ≤ length rows.now }
    requires base { length base.now ≡ length word.now }
    ensures { (gs : List Weight) → length gs ≡ length word.now → AreRows gs rows.now → (i p : ℕ) → i + p ≡ 15
        → digit result p ≡ sum_at i gs word.now base.now }
{
    let mut sums = 0u128;
    for k in 0..word.len() {
        sums ^= row_for(rows, k, add(word[k], base[k]));
    }
    sums
}

/// The sum of the products of the factors and the sums from `start` on.
fn dot_at(factors: &[u8], sums: &[u8], start: usize) -> u8
    requires { start + length factors.now ≤ length sums.now }
    ensures { result ≡ dot factors.now (slice_index sums.now) start }
{
    let mut sum = 0u8;
    for j in 0..factors.len() {
        sum = add(sum, mul(factors[j], sums[start + j]));
    }
    sum
}

/// Whether the factors make zeros of the sums from each of the first places on, and something else from the last on.
fn are_factors(factors: &[u8], sums: &[u8]) -> bool
    requires some { 1 ≤ length factors.now }
    requires sums { 2 * length factors.now ≤ length sums.now + 1 }
    ensures { IsTrue result → AreFactors factors.now sums.now }
{
    let last = factors.len() - 1;
    for l in 0..last {
        if dot_at(factors, sums, l) != 0 {
            return false;
        }
    }
    dot_at(factors, sums, last) != 0
}

/// The determinant of two rows of two.
fn cross(a: u8, b: u8, c: u8, d: u8) -> u8 {
    add(mul(a, d), mul(b, c))
}

/// The sum of three products.
fn three(a: (u8, u8), b: (u8, u8), c: (u8, u8)) -> u8 {
    add(add(mul(a.0, a.1), mul(b.0, b.1)), mul(c.0, c.1))
}

/// The determinants of the sums' first three rows of four, each without one column.
fn four_factors(s: &[u8; 16]) -> [u8; 4]
    ensures { length result ≡ 4 }
{
    let front = cross(s[0], s[1], s[1], s[2]);
    let outer = cross(s[0], s[2], s[1], s[3]);
    let far = cross(s[0], s[3], s[1], s[4]);
    let inner = cross(s[1], s[2], s[2], s[3]);
    let wide = cross(s[1], s[3], s[2], s[4]);
    let back = cross(s[2], s[3], s[3], s[4]);
    [
        three((s[3], back), (s[4], wide), (s[5], inner)),
        three((s[2], back), (s[4], far), (s[5], outer)),
        three((s[2], wide), (s[3], far), (s[5], front)),
        three((s[2], inner), (s[3], outer), (s[4], front)),
    ]
}

/// Factors for sums of so many errors at least. Which they are is no matter of proof: they are tested.
fn factors_of(s: &[u8; 16], count: usize) -> [u8; 4]
    ensures { length result ≡ 4 }
{
    if count == 4 {
        four_factors(s)
    } else if count == 3 {
        [
            cross(s[1], s[2], s[2], s[3]),
            cross(s[0], s[1], s[2], s[3]),
            cross(s[0], s[1], s[1], s[2]),
            0,
        ]
    } else if count == 2 {
        [s[1], s[0], 0, 0]
    } else {
        [1, 0, 0, 0]
    }
}

/// The byte of a lane that is worth 256 to the `place`.
fn byte_of(lane: u128, place: u32) -> u8
    requires { place ≤ 15 }
    ensures { result ≡ digit lane place }
{
    ((lane >> (8 * place)) % 256) as u8
}

/// Whether the sums of this lane may be of two errors, by marks of a block's pairs.
fn may_be_two(marks: &[bool], lane: u128) -> bool
    requires { length marks.now ≡ 65536 }
    ensures { result ≡ false → (low end x y : ℕ) → AreMarks low end marks.now → low ≤ x → x < y → y < end
        → pair_sum x y (λ i. digit lane (15 - i)) ≢ 0 }
{
    let first = byte_of(lane, 15);
    if first == 0 {
        return true;
    }
    let scale = inv(first);
    let second = mul(scale, byte_of(lane, 14));
    marks[mark_place(second, mul(scale, byte_of(lane, 13)))]
}

/// In how many places of the block at least each codeword with the known bytes differs from the word. It may tell of
/// fewer than there are.
fn told(block: &Block, word: &[u8], base: &[u8]) -> usize
    requires order { block.now.from ≤ block.now.to }
    requires short { block.now.to ≤ block.now.from + 16 }
    requires one { 1 ≤ block.now.least }
    requires four { block.now.least ≤ 4 }
    requires within { block.now.to ≤ length word.now }
    requires base { length base.now ≡ length word.now }
    requires rows { length block.now.rows.items ≡ 512 }
    requires marks { block.now.least ≡ 2 → length block.now.marks.items ≡ 65536 }
    ensures few { result ≤ 4 }
    ensures told { (ks : List (Option ℕ)) (r : ℕ) (c : List ℕ) → length word.now ≡ 12 + r
        → IsBlock ks r block.now → IsKnownWord ks r base.now → IsKnownWord ks r c
        → result + distance (drop block.now.to word.now) (drop block.now.to c)
        ≤ distance (drop block.now.from word.now) (drop block.now.from c) }
{
    let lane = sums_of(
        block.rows.as_slice(),
        &word[block.from..block.to],
        &base[block.from..block.to],
    );
    if block.least == 2 && !may_be_two(block.marks.as_slice(), lane) {
        return 3;
    }
    let sums = lane.to_be_bytes();
    let factors = factors_of(&sums, block.least);
    if are_factors(&factors[..block.least], &sums) {
        block.least
    } else {
        0
    }
}

/// The fewest errors of which a sieve must tell: one more than the decoder may mend where all known bytes differed, as
/// those of random bytes mostly do.
fn wanted(known: &[Option<u8>; 12], parity: usize) -> usize {
    (parity / 2 + spare(known)).saturating_sub(10)
}

/// Of how many errors a block tells by its sums alone, such that the blocks tell of as many as are wanted: two, where a
/// third by marks is enough.
fn most_told(known: &[Option<u8>; 12], parity: usize) -> usize
    ensures { result ≤ 4 }
{
    if spare(known) == 3 || parity < 32 {
        2
    } else {
        4
    }
}

/// Of how many errors the block may tell.
fn most_of(block: &Block) -> usize {
    if block.least == 2 { 3 } else { block.least }
}

/// Of how many errors the blocks tell together.
fn all_told(blocks: &[Block]) -> usize {
    let mut told = 0usize;
    for block in blocks {
        told = told.saturating_add(most_of(block));
    }
    told
}

impl Sieve {
    /// A sieve for headers with these known bytes, by the encoder of their parity. None where its blocks would tell of
    /// no word.
    pub fn new(
        alloc: Global,
        coder: &Parity,
        known: [Option<u8>; 12],
        parity: usize,
    ) -> Result<Option<Sieve>, AllocError>
        requires coder { coder.now ≡ parity }
        requires few { parity ≤ 127 }
        ensures { IfOk result (λ sieve. IfSome sieve (λ s. (s.known ≡ known) × (s.parity ≡ parity))) }
    {
        let blocks = blocks_of(alloc, &known, parity, most_told(&known, parity))?;
        if all_told(blocks.as_slice()) < wanted(&known, parity) {
            return Ok(None);
        }
        Ok(Some(Sieve {
            known,
            parity,
            base: codeword_of(coder, &known, &known_header(&known), parity),
            blocks,
        }))
    }

    /// Whether each codeword with the known bytes differs from the word in more than `most` places. Not all words of
    /// which this is true are told.
    pub fn is_far(&self, word: &[u8], most: usize) -> bool
        requires { length word.now ≡ 12 + self.now.parity }
        ensures { IsTrue result → (c : List ℕ) → IsKnownWord self.now.known self.now.parity c
            → most < distance word.now c }
    {
        let mut count = 0usize;
        let mut end = 0usize;
        for block in self.blocks.as_slice() {
            if block.from < end {
                return false;
            }
            count += told(block, word, self.base.as_slice());
            if most < count {
                return true;
            }
            end = block.to;
        }
        false
    }
}
