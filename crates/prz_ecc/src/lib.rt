//! The header and the blocks of a zone with their parity: how each reads, and the parity of what stands
//! (`fs/pstore/ram_core.c`, `persistent_ram_decode_rs8` and `persistent_ram_encode_rs8`).
#![tactic(auto)]

ghost use Rattle.std.specs.Prelude.{◌≡◌, ◌+◌, ◌*◌, ◌-◌, ◌<◌, ◌≤◌, ◌↔◌, ℕ, ◌++◌, length, take, min, slice_range};
ghost use Rattle.std.specs.Prelude.{unwrap_or, IsTrue};
ghost use Rattle.code_spec.specs.Code.{IsCodeword, nearest, parity_of};
ghost use Rattle.rs_encode.specs.Lanes.{IsLent};
ghost use Rattle.rs_decode.specs.Decoding.{decoded_by, fixes_by, IsExcess};
ghost use Rattle.zone_spec.specs.Zones.{IsValidZone};
ghost use Rattle.zone_spec.specs.Parts.{Header, Block, part_at, part_len, part_parity_at, part_bytes, part_word};
ghost use Rattle.zone_spec.specs.Parts.{words_in};
ghost use Rattle.zone_spec.specs.WordBytes.{word_bytes};
ghost use Rattle.zone_spec.specs.PartReadings.{part_reading, words_read};
ghost use Rattle.prz_ecc.specs.Outcomes.{outcome, part_word_fixes, CountsAre, IsPartExcess};

use arrayvec::ArrayVec;
use rs_decode::{decode_by, decode_excess, excess_pair_by};
pub use rs_decode::{Decoded, Fix};
use rs_encode::{Parity, parity_by};
use std::marker::Model;
use zone_spec::{ByteOrder, Words, Zone};

/// What a header reads.
#[derive(Clone, Copy, Debug, PartialEq, Eq)]
pub struct HeaderReading {
    /// The nearest codeword's words, else those that stand.
    pub words: Words,
    pub outcome: Decoded,
}

/// Where a part's bytes and its parity lie in a zone.
#[derive(Clone, Copy)]
struct PartPlace {
    at: u32,
    len: u32,
    parity_at: u32,
}

fn header_place(zone: &Zone) -> PartPlace
    requires { IsValidZone zone.now }
    ensures at { result.at ≡ part_at zone.now Header }
    ensures len { result.len ≡ part_len zone.now Header }
    ensures parity_at { result.parity_at ≡ part_parity_at zone.now Header }
    ensures within { result.at + result.len ≤ zone.now.size }
    ensures parity_within { result.parity_at + zone.now.parity ≤ zone.now.size }
{
    PartPlace {
        at: 0,
        len: 12,
        parity_at: 12 + zone.cap + zone.blocks * zone.parity,
    }
}

fn block_place(zone: &Zone, b: u32) -> PartPlace
    requires valid { IsValidZone zone.now }
    requires block { zone.now.block * b < zone.now.cap }
    ensures at { result.at ≡ part_at zone.now (Block b) }
    ensures len { result.len ≡ part_len zone.now (Block b) }
    ensures parity_at { result.parity_at ≡ part_parity_at zone.now (Block b) }
    ensures within { result.at + result.len ≤ zone.now.size }
    ensures some { 1 ≤ result.len }
    ensures few { result.len ≤ 128 }
    ensures parity_within { result.parity_at + zone.now.parity ≤ zone.now.size }
{
    let start = zone.block * b;
    PartPlace {
        at: 12 + start,
        len: zone.block.min(zone.cap - start),
        parity_at: 12 + zone.cap + b * zone.parity,
    }
}

fn bytes_at(image: &[u8], at: u32, len: u32) -> &[u8]
    requires { at + len ≤ length image.now }
    ensures { result.now ≡ slice_range image.now at (at + len) }
{
    &image[at as usize..at as usize + len as usize]
}

fn copy(bytes: &[u8], out: &mut ArrayVec<u8, 255>)
    requires { length bytes.now ≤ 255 }
    ensures { out.new.items ≡ bytes.now }
{
    out.clear();
    let _room = out.try_extend_from_slice(bytes);
}

/// The words in a header's 12 bytes, each in this order of its bytes.
pub fn words_of(order: ByteOrder, bytes: &[u8]) -> Words
    requires { length bytes.now ≡ 12 }
    ensures { result ≡ words_in order bytes.now }
{
    Words {
        sig: order.word(&bytes[0..4]),
        start: order.word(&bytes[4..8]),
        size: order.word(&bytes[8..12]),
    }
}

/// The header's 12 bytes of these words, each in this order of its bytes.
pub fn bytes_of(order: ByteOrder, words: Words) -> ArrayVec<u8, 12>
    ensures { result.items ≡ word_bytes order words.sig ++ word_bytes order words.start ++ word_bytes order words.size }
{
    let mut bytes: ArrayVec<u8, 12> = ArrayVec::new();
    let _room = bytes.try_extend_from_slice(&order.bytes(words.sig));
    let _room = bytes.try_extend_from_slice(&order.bytes(words.start));
    let _room = bytes.try_extend_from_slice(&order.bytes(words.size));
    bytes
}

/// The owner of the table for a zone's parts, which is none where the zone has no parity. It holds some 4 KiB; a caller
/// with many parts keeps one.
#[derive(Drop)]
pub struct Coder(Option<Parity>);

impl Model for Coder {
    ghost use Rattle.std.specs.Prelude.{ℕ, ◌≤◌, IfSome, unwrap_or};

    ghost Value = { ℕ };

    ghost view = { λ c. unwrap_or c.0 0 };

    ghost invariant = { λ c. IfSome c.0 (λ r. (1 ≤ r) × (r ≤ 127)) };
}

impl Coder {
    pub fn new(zone: &Zone) -> Coder
        requires { IsValidZone zone.now }
        ensures { result ≡ zone.now.parity }
    {
        if zone.parity == 0 {
            Coder(None)
        } else {
            Coder(Some(Parity::new(zone.parity as usize)))
        }
    }

    /// The table, to be lent.
    pub fn table(&self) -> &[u128]
        ensures { IsLent self.now result.now }
    {
        match &self.0 {
            Some(parity) => parity.rows(),
            None => &[],
        }
    }
}

/// Corrects the bytes in `out` by their parity. Without parity they are as they should be.
fn correct(
    table: &[u128],
    out: &mut ArrayVec<u8, 255>,
    par: &[u8],
    fixes: &mut ArrayVec<Fix, 63>,
) -> Decoded
    requires table { IsLent (length par.now) table.now }
    requires few_par { length par.now ≤ 127 }
    requires some { 1 ≤ length out.old.items }
    requires few { length out.old.items ≤ 128 }
    ensures len { length out.new.items ≡ length out.old.items }
    ensures answer { let word = out.old.items ++ par.now in
        result ≡ decoded_by word (nearest (length par.now) word) }
    ensures data { let word = out.old.items ++ par.now in
        out.new.items ≡ take (length out.old.items) (unwrap_or (nearest (length par.now) word) word) }
    ensures fixes { let word = out.old.items ++ par.now in
        fixes.new.items ≡ fixes_by word (nearest (length par.now) word) }
{
    if par.is_empty() {
        fixes.clear();
        Decoded::Clean
    } else {
        decode_by(table, out.as_mut_slice(), par, fixes)
    }
}

/// The `r` parity bytes of the bytes.
fn parity(table: &[u128], bytes: &[u8], r: u32, out: &mut ArrayVec<u8, 127>)
    requires table { IsLent r table.now }
    requires few { r ≤ 127 }
    requires fits { length bytes.now ≤ 128 }
    ensures { out.new.items ≡ parity_of r bytes.now }
{
    out.clear();
    if r > 0 {
        let _room = out.try_extend_from_slice(&[0; 127][..r as usize]);
        parity_by(table, bytes, out.as_mut_slice());
    }
}

/// As [`correct`], from the sum of `par` and the parity of the bytes.
fn correct_by(
    table: &[u128],
    excess: &[u8],
    out: &mut ArrayVec<u8, 255>,
    par: &[u8],
    fixes: &mut ArrayVec<Fix, 63>,
) -> Decoded
    requires table { IsLent (length par.now) table.now }
    requires few_par { length par.now ≤ 127 }
    requires some { 1 ≤ length out.old.items }
    requires few { length out.old.items ≤ 128 }
    requires excess { IsExcess out.old.items par.now excess.now }
    ensures len { length out.new.items ≡ length out.old.items }
    ensures answer { let word = out.old.items ++ par.now in
        result ≡ decoded_by word (nearest (length par.now) word) }
    ensures data { let word = out.old.items ++ par.now in
        out.new.items ≡ take (length out.old.items) (unwrap_or (nearest (length par.now) word) word) }
    ensures fixes { let word = out.old.items ++ par.now in
        fixes.new.items ≡ fixes_by word (nearest (length par.now) word) }
{
    if excess.is_empty() {
        fixes.clear();
        Decoded::Clean
    } else {
        decode_excess(table, excess, out.as_mut_slice(), par, fixes)
    }
}

/// Makes `out_a` and `out_b` the sums of each parity and that of its bytes, and tells of each whether all is zero: the
/// bytes have their parity. Without parity they have.
fn sum_pair(
    table: &[u128],
    a: &[u8],
    par_a: &[u8],
    b: &[u8],
    par_b: &[u8],
    out_a: &mut [u8],
    out_b: &mut [u8],
) -> (bool, bool)
    requires table { IsLent (length par_a.now) table.now }
    requires few { length par_a.now ≤ 127 }
    requires same_par { length par_b.now ≡ length par_a.now }
    requires same { length b.now ≡ length a.now }
    requires fits { length a.now + length par_a.now ≤ 255 }
    requires len_a { length out_a.old ≡ length par_a.now }
    requires len_b { length out_b.old ≡ length par_a.now }
    ensures a { IsTrue result.0 ↔ IsCodeword (length par_a.now) (a.now ++ par_a.now) }
    ensures b { IsTrue result.1 ↔ IsCodeword (length par_a.now) (b.now ++ par_b.now) }
    ensures excess_a { IsExcess a.now par_a.now out_a.new }
    ensures excess_b { IsExcess b.now par_b.now out_b.new }
{
    if par_a.is_empty() {
        (true, true)
    } else {
        excess_pair_by(table, a, par_a, b, par_b, out_a, out_b)
    }
}

/// Reads a zone's header. `fixes` becomes the places of its 12 bytes and their parity that differ from the nearest
/// codeword, rising: those below 12 are of the header's bytes.
pub fn read_header(
    table: &[u128],
    image: &[u8],
    zone: &Zone,
    fixes: &mut ArrayVec<Fix, 63>,
) -> HeaderReading
    requires table { IsLent zone.now.parity table.now }
    requires valid { IsValidZone zone.now }
    requires size { length image.now ≡ zone.now.size }
    ensures words { result.words ≡ words_read zone.now image.now }
    ensures outcome { result.outcome ≡ outcome zone.now image.now Header }
    ensures counts { CountsAre result.outcome (part_reading zone.now image.now Header) }
    ensures fixes { fixes.new.items ≡ part_word_fixes zone.now image.now Header }
{
    let place = header_place(zone);
    let mut out: ArrayVec<u8, 255> = ArrayVec::new();
    copy(bytes_at(image, place.at, place.len), &mut out);
    let par = bytes_at(image, place.parity_at, zone.parity);
    let outcome = correct(table, &mut out, par, fixes);
    HeaderReading {
        words: words_of(zone.byte_order, out.as_slice()),
        outcome,
    }
}

/// Reads block `b`: `out` becomes its bytes. `fixes` becomes the places of the bytes and their parity that differ from
/// the nearest codeword, rising: those below the number of bytes are of the bytes.
pub fn read_block(
    table: &[u128],
    image: &[u8],
    zone: &Zone,
    b: u32,
    out: &mut ArrayVec<u8, 255>,
    fixes: &mut ArrayVec<Fix, 63>,
) -> Decoded
    requires table { IsLent zone.now.parity table.now }
    requires valid { IsValidZone zone.now }
    requires size { length image.now ≡ zone.now.size }
    requires block { zone.now.block * b < zone.now.cap }
    ensures data { out.new.items ≡ (part_reading zone.now image.now (Block b)).bytes }
    ensures outcome { result ≡ outcome zone.now image.now (Block b) }
    ensures counts { CountsAre result (part_reading zone.now image.now (Block b)) }
    ensures fixes { fixes.new.items ≡ part_word_fixes zone.now image.now (Block b) }
{
    let place = block_place(zone, b);
    copy(bytes_at(image, place.at, place.len), out);
    let par = bytes_at(image, place.parity_at, zone.parity);
    correct(table, out, par, fixes)
}

/// As [`read_block`], from the block's excess, as [`excess_pair`] makes it.
pub fn read_block_by(
    table: &[u128],
    excess: &[u8],
    image: &[u8],
    zone: &Zone,
    b: u32,
    out: &mut ArrayVec<u8, 255>,
    fixes: &mut ArrayVec<Fix, 63>,
) -> Decoded
    requires table { IsLent zone.now.parity table.now }
    requires valid { IsValidZone zone.now }
    requires size { length image.now ≡ zone.now.size }
    requires block { zone.now.block * b < zone.now.cap }
    requires excess { IsPartExcess zone.now image.now (Block b) excess.now }
    ensures data { out.new.items ≡ (part_reading zone.now image.now (Block b)).bytes }
    ensures outcome { result ≡ outcome zone.now image.now (Block b) }
    ensures counts { CountsAre result (part_reading zone.now image.now (Block b)) }
    ensures fixes { fixes.new.items ≡ part_word_fixes zone.now image.now (Block b) }
{
    let place = block_place(zone, b);
    copy(bytes_at(image, place.at, place.len), out);
    let par = bytes_at(image, place.parity_at, zone.parity);
    correct_by(table, excess, out, par, fixes)
}

/// Whether block `b` and the one after it, two whole blocks, stand as codewords: such a block reads as it stands. `first`
/// and `second` become their excesses, from which [`read_block_by`] goes on. Up to 16 parity bytes, and by a table, this
/// is faster than two reads.
pub fn excess_pair(
    table: &[u128],
    image: &[u8],
    zone: &Zone,
    b: u32,
    first: &mut [u8],
    second: &mut [u8],
) -> (bool, bool)
    requires table { IsLent zone.now.parity table.now }
    requires valid { IsValidZone zone.now }
    requires size { length image.now ≡ zone.now.size }
    requires blocks { zone.now.block * (b + 2) ≤ zone.now.cap }
    requires len_first { length first.old ≡ zone.now.parity }
    requires len_second { length second.old ≡ zone.now.parity }
    ensures first { IsTrue result.0 ↔ IsCodeword zone.now.parity (part_word zone.now image.now (Block b)) }
    ensures second { IsTrue result.1
        ↔ IsCodeword zone.now.parity (part_word zone.now image.now (Block (b + 1))) }
    ensures first_excess { IsPartExcess zone.now image.now (Block b) first.new }
    ensures second_excess { IsPartExcess zone.now image.now (Block (b + 1)) second.new }
{
    let one = block_place(zone, b);
    let other = block_place(zone, b + 1);
    sum_pair(
        table,
        bytes_at(image, one.at, one.len),
        bytes_at(image, one.parity_at, zone.parity),
        bytes_at(image, other.at, other.len),
        bytes_at(image, other.parity_at, zone.parity),
        first,
        second,
    )
}

/// The parity of block `b` as its bytes stand.
pub fn block_parity(table: &[u128], image: &[u8], zone: &Zone, b: u32, out: &mut ArrayVec<u8, 127>)
    requires table { IsLent zone.now.parity table.now }
    requires valid { IsValidZone zone.now }
    requires size { length image.now ≡ zone.now.size }
    requires block { zone.now.block * b < zone.now.cap }
    ensures { out.new.items ≡ parity_of zone.now.parity (part_bytes zone.now image.now (Block b)) }
{
    let place = block_place(zone, b);
    parity(
        table,
        bytes_at(image, place.at, place.len),
        zone.parity,
        out,
    );
}

/// The parity of the header's 12 bytes as they stand.
pub fn header_parity(table: &[u128], image: &[u8], zone: &Zone, out: &mut ArrayVec<u8, 127>)
    requires table { IsLent zone.now.parity table.now }
    requires valid { IsValidZone zone.now }
    requires size { length image.now ≡ zone.now.size }
    ensures { out.new.items ≡ parity_of zone.now.parity (part_bytes zone.now image.now Header) }
{
    let header = header_place(zone);
    parity(
        table,
        bytes_at(image, header.at, header.len),
        zone.parity,
        out,
    );
}
