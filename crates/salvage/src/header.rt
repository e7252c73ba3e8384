// Whether a header's word is a ring: the known bytes are put in first, and most words are decided without a decoder.
ghost use Rattle.std.specs.Prelude.{◌≡◌, ◌↔◌, ◌+◌, ◌-◌, ◌/◌, ◌<◌, ◌≤◌, ℕ, ◌++◌, length, slice_index, unwrap_or, IsTrue};
ghost use Rattle.std.specs.Prelude.{Some, None, if◌then◌else◌, ◌==◌};
ghost use Rattle.code_spec.specs.Code.{distance, nearest};
ghost use Rattle.rs_decode.specs.Decoding.{within};
ghost use Rattle.zone_spec.specs.Zones.{IsValidZone};
ghost use Rattle.zone_spec.specs.Parts.{words_in};
ghost use Rattle.salvage_spec.specs.Rings.{ring_in};
ghost use Rattle.salvage_laws.specs.Known.{known, known_by, put_in};
ghost use Rattle.salvage.specs.Headers.{ring_if, ring_near};
ghost use Rattle.salvage.specs.Sieves.{IsSieveOf};

use crate::sieve::{Sieve, joined};
use arrayvec::ArrayVec;
use rs_decode::{Decoded, Fix, decode_within};
use rs_encode::Parity;
use salvage_spec::FoundRing;
use zone_spec::{ByteOrder, Words, Zone};

fn zero_where(is_known: bool) -> Option<u8>
    ensures { result ≡ if is_known then Some 0 else None }
{
    if is_known { Some(0) } else { None }
}

/// The one in the little-endian order, or the other.
fn known_by(order: ByteOrder, one: Option<u8>, other: Option<u8>) -> Option<u8>
    ensures { result ≡ known_by order one other }
{
    match order {
        ByteOrder::Little => one,
        ByteOrder::Big => other,
    }
}

/// The bytes of a ring's header that are known before it is read.
pub fn known_bytes(zone: &Zone) -> [Option<u8>; 12]
    ensures { result ≡ known zone.now }
{
    let order = zone.byte_order;
    let sig = order.bytes(zone.sig);
    let third = zero_where(zone.cap < 65536);
    let a = known_by(order, None, Some(0));
    let b = known_by(order, None, third);
    let c = known_by(order, third, None);
    let d = known_by(order, Some(0), None);
    [
        Some(sig[0]),
        Some(sig[1]),
        Some(sig[2]),
        Some(sig[3]),
        a,
        b,
        c,
        d,
        a,
        b,
        c,
        d,
    ]
}

fn put(expected: Option<u8>, byte: u8) -> u8
    ensures { result ≡ unwrap_or expected byte }
{
    match expected {
        Some(k) => k,
        None => byte,
    }
}

fn differs(a: u8, b: u8) -> u8
    ensures { result ≡ if a == b then 0 else 1 }
{
    if a == b { 0 } else { 1 }
}

/// Puts the known bytes into `bytes`, and tells how many differed.
pub fn amend(expected: &[Option<u8>], bytes: &mut [u8]) -> u8
    requires len { length expected.now ≡ length bytes.old }
    requires few { length bytes.old ≤ 12 }
    ensures bytes { bytes.new ≡ put_in expected.now bytes.old }
    ensures count { result ≡ distance bytes.old bytes.new }
    ensures most { result ≤ length bytes.old }
{
    let mut count = 0u8;
    for i in 0..bytes.len() {
        let byte = put(expected[i], bytes[i]);
        count += differs(bytes[i], byte);
        bytes[i] = byte;
    }
    count
}

/// The words in a header's 12 bytes.
fn words_of(order: ByteOrder, bytes: &[u8]) -> Words
    requires { length bytes.now ≡ 12 }
    ensures { result ≡ words_in order bytes.now }
{
    Words {
        sig: order.word(&bytes[0..4]),
        start: order.word(&bytes[4..8]),
        size: order.word(&bytes[8..12]),
    }
}

/// The ring of a header's 12 bytes, where its words are one of the zone's shape that is not empty.
pub fn ring_with(zone: &Zone, at: u32, bytes: &[u8], corrected: u8) -> Option<FoundRing>
    requires { length bytes.now ≡ 12 }
    ensures { result ≡ ring_if zone.now at (words_in zone.now.byte_order bytes.now) corrected }
{
    let words = words_of(zone.byte_order, bytes);
    if words.sig == zone.sig
        && words.start <= words.size
        && words.size <= zone.cap
        && 0 < words.size
    {
        Some(FoundRing {
            at,
            zone: zone.name,
            words,
            corrected,
        })
    } else {
        None
    }
}

/// The ring of the amended bytes, of which `amends` differed, where they stand as a codeword.
fn ring_as_amended(
    coder: &Parity,
    zone: &Zone,
    at: u32,
    bytes: &[u8],
    amends: u8,
    parity: &[u8],
) -> Option<FoundRing>
    requires coder { coder.now ≡ length parity.now }
    requires few { length parity.now ≤ 127 }
    requires len { length bytes.now ≡ 12 }
    ensures { let word = bytes.now ++ parity.now in
        result ≡ ring_near zone.now at amends word (within 0 word (nearest (length parity.now) word)) }
{
    let ring = ring_with(zone, at, bytes, amends)?;
    if coder.is_parity(bytes, parity) {
        Some(ring)
    } else {
        None
    }
}

/// The ring of the codeword within `most` places of the amended bytes, of which `amends` differed.
fn ring_within(
    coder: &Parity,
    most: usize,
    zone: &Zone,
    at: u32,
    bytes: &mut [u8],
    amends: u8,
    parity: &[u8],
) -> Option<FoundRing>
    requires coder { coder.now ≡ length parity.now }
    requires some { 1 ≤ length parity.now }
    requires few { length parity.now ≤ 127 }
    requires most { most + most ≤ length parity.now }
    requires amends { amends ≤ 12 }
    requires len { length bytes.old ≡ 12 }
    ensures { let word = bytes.old ++ parity.now in
        result ≡ ring_near zone.now at amends word (within most word (nearest (length parity.now) word)) }
{
    let mut fixes: ArrayVec<Fix, 63> = ArrayVec::new();
    match decode_within(coder, most, bytes, parity, &mut fixes) {
        Decoded::Clean => ring_with(zone, at, bytes, amends),
        Decoded::Fixed(count) => ring_with(zone, at, bytes, amends + count),
        Decoded::Bad => None,
    }
}

/// Whether all bytes are 0. Zeros are a codeword, of an empty ring.
fn are_zeros(bytes: &[u8]) -> bool
    ensures { IsTrue result ↔ ((k : ℕ) → k < length bytes.now → slice_index bytes.now k ≡ 0) }
{
    bytes.iter().all(|b| *b == 0)
}

/// The ring at `at` by its header's bytes and their parity, where it is one of the zone's shape.
pub fn ring_by(
    coder: &Parity,
    zone: &Zone,
    expected: &[Option<u8>],
    sieve: &Option<Sieve>,
    at: u32,
    header: &[u8],
    parity: &[u8],
) -> Option<FoundRing>
    requires valid { IsValidZone zone.now }
    requires expected { expected.now ≡ known zone.now }
    requires coder { coder.now ≡ zone.now.parity }
    requires sieve { IsSieveOf zone.now sieve.now }
    requires some { 1 ≤ zone.now.parity }
    requires len { length header.now ≡ 12 }
    requires parity { length parity.now ≡ zone.now.parity }
    ensures { result ≡ ring_in zone.now at (header.now ++ parity.now) }
{
    let mut bytes = [0u8; 12];
    bytes.copy_from_slice(header);
    let amends = amend(expected, &mut bytes);
    let most = (zone.parity / 2) as u8;
    if most < amends {
        return None;
    }
    if most == amends {
        return ring_as_amended(coder, zone, at, &bytes, amends, parity);
    }
    if are_zeros(header) && are_zeros(parity) {
        return None;
    }
    let left = (most - amends) as usize;
    if let Some(sieve) = sieve {
        if sieve.is_far(joined(&bytes, parity).as_slice(), left) {
            return None;
        }
    }
    ring_within(coder, left, zone, at, &mut bytes, amends, parity)
}
