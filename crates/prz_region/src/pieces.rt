// The pieces of a block. All that is stored into one goes through `store_array` or `store_run`, which add it to the list.
ghost use Rattle.std.specs.Prelude.{◌≡◌, ◌+◌, ◌≤◌, ◌++◌, ◌∷◌, [], length};
ghost use Rattle.core.specs.Mem.Slots.{IsFull};
ghost use Rattle.zone_spec.specs.Parts.{AreBytes};
ghost use Rattle.zone_spec.specs.Stores.{put, byte_stores};
ghost use Rattle.prz_region.specs.Row.{IsRow};
ghost use Rattle.prz_region.specs.Made.{in_span};

use crate::block::{Stores, store_array, store_run};
use core::slots::Slots;

/// A part of a block: where it begins, and its places, which it owns. Each store into it is listed.
#[repr(C)]
pub struct Piece {
    base: *mut u8,
    slots: Slots<u8>,
    ghost row: { IsRow base slots },
}

impl Piece {
    ghost use Rattle.prz_region.specs.Chain.{piece_bytes, SamePlace};

    pub(crate) fn over(base: *mut u8, slots: Slots<u8>) -> Piece
        requires { IsRow base slots }
        ensures { result.slots ≡ slots }
    {
        Piece { base, slots }
    }

    pub(crate) fn into_slots(self) -> Slots<u8>
        ensures { (result ≡ self.slots) × IsFull result }
    {
        let Piece { base: _, slots } = self;
        slots
    }

    /// Stores bytes from `at` on, in one store. The piece is the span with this number.
    pub(crate) fn store<const N: usize>(
        &mut self,
        at: u32,
        bytes: [u8; N],
        span: u32,
        stores: &mut Stores<u8>,
    )
        requires place { at + N ≤ length (piece_bytes self.old) }
        requires bytes { AreBytes bytes }
        ensures bytes { piece_bytes self.new ≡ put (piece_bytes self.old) at bytes.entry }
        ensures place { SamePlace self.old self.new }
        ensures made { stores.new.made ≡ stores.old.made ++ in_span span (record { place = at; bytes = bytes.entry } ∷ []) }
    {
        store_array(&mut self.slots, self.base, at as usize, bytes, span, stores);
    }

    // Stores sixteen bytes from `at` on, rising, in a store for each.
    fn store_sixteen(&mut self, at: u32, bytes: [u8; 16], span: u32, stores: &mut Stores<u8>)
        requires place { at + 16 ≤ length (piece_bytes self.old) }
        requires bytes { AreBytes bytes }
        ensures bytes { piece_bytes self.new ≡ put (piece_bytes self.old) at bytes }
        ensures place { SamePlace self.old self.new }
        ensures made { stores.new.made ≡ stores.old.made ++ in_span span (byte_stores at bytes) }
    {
        store_run(&mut self.slots, self.base, at as usize, bytes, span, stores);
    }

    // Stores sixteen bytes after sixteen, as long as there are so many. Tells where the rest is to be stored, and the rest.
    fn store_sixteens<'a>(
        &mut self,
        at: u32,
        bytes: &'a [u8],
        span: u32,
        stores: &mut Stores<u8>,
    ) -> (u32, &'a [u8])
        requires { at + length bytes.now ≤ length (piece_bytes self.old) }
        ensures fits { result.0 + length result.1.now ≡ at + length bytes.now }
        ensures bytes { put (piece_bytes self.new) result.0 result.1.now ≡ put (piece_bytes self.old) at bytes.now }
        ensures place { SamePlace self.old self.new }
        ensures made { stores.new.made ++ in_span span (byte_stores result.0 result.1.now)
            ≡ stores.old.made ++ in_span span (byte_stores at bytes.now) }
    {
        let mut place = at;
        let mut rest = bytes;
        'sixteens: while let Some((front, back)) = rest.split_first_chunk::<16>() {
            self.store_sixteen(place, *front, span, stores);
            place += 16;
            rest = back;
        }
        (place, rest)
    }

    // Stores bytes from `at` on, rising, in a store for each, one after another.
    fn store_each(&mut self, at: u32, bytes: &[u8], span: u32, stores: &mut Stores<u8>)
        requires { at + length bytes.now ≤ length (piece_bytes self.old) }
        ensures bytes { piece_bytes self.new ≡ put (piece_bytes self.old) at bytes.now }
        ensures place { SamePlace self.old self.new }
        ensures made { stores.new.made ≡ stores.old.made ++ in_span span (byte_stores at bytes.now) }
    {
        let mut place = at;
        for byte in bytes {
            let byte = *byte;
            self.store(place, [byte], span, stores);
            place += 1;
        }
    }

    /// Stores bytes from `at` on, rising, in a store for each.
    pub(crate) fn store_bytes(&mut self, at: u32, bytes: &[u8], span: u32, stores: &mut Stores<u8>)
        requires { at + length bytes.now ≤ length (piece_bytes self.old) }
        ensures bytes { piece_bytes self.new ≡ put (piece_bytes self.old) at bytes.now }
        ensures place { SamePlace self.old self.new }
        ensures made { stores.new.made ≡ stores.old.made ++ in_span span (byte_stores at bytes.now) }
    {
        let (place, rest) = self.store_sixteens(at, bytes, span, stores);
        self.store_each(place, rest, span, stores);
    }
}
