// A region, and the spans that it is cut into.
ghost use Rattle.std.specs.Prelude.{◌≡◌, ℕ, ◌+◌, ◌<◌, ◌≤◌, ◌++◌, ◌∷◌, [], List, length, drop, slice_index, slice_range};
ghost use Rattle.std.specs.Prelude.{slice_set, Some, MatchResult};
ghost use Rattle.zone_spec.specs.WordBytes.{word_of, word_bytes};
ghost use Rattle.std.proofs.Common.{w32};
ghost use Rattle.std.specs.List.{concat};
ghost use Rattle.core.specs.Mem.Slots.{IsFull, slots_items};
ghost use Rattle.zone_spec.specs.Parts.{AreBytes};
ghost use Rattle.zone_spec.specs.Stores.{byte_stores, word_store};
ghost use Rattle.prz_region.specs.Row.{IsRow};

use crate::block::{Shell, Stores, as_spans, based, close, glue, lend, open, split};
use crate::pieces::Piece;
use core::slots::Slots;
use outside::Bytes;
use ramoops_layout::types::Layout;
use std::alloc::{AllocError, Global};
use std::marker::Model;
use zone_spec::{ByteOrder, Zone};

/// A zone's bytes in a region's block, as they are lent for reading.
#[repr(C)]
pub struct Span {
    base: *mut u8,
    slots: Slots<u8>,
}

impl Model for Span {
    ghost use Rattle.std.specs.Prelude.{ℕ, List};
    ghost use Rattle.core.specs.Mem.Slots.{slots_items};
    ghost use Rattle.prz_region.specs.Row.{IsRow};

    ghost Value = { List ℕ };

    ghost view = { λ s. slots_items s.slots };

    ghost invariant = { λ s. IsRow s.base s.slots };
}

impl Span {
    /// The number of bytes.
    pub fn len(&self) -> u32
        ensures len { result ≡ length self.now }
        ensures bytes { AreBytes self.now }
    {
        self.slots.len() as u32
    }

    /// All bytes, without a copy.
    pub fn bytes(&self) -> &[u8]
        ensures { result.now ≡ self.now }
    {
        let len = self.slots.len();
        if len == 0 {
            return &[];
        }
        lend(&self.slots, self.base, len)
    }

    /// The byte at `at`, counted from 0.
    pub fn load(&self, at: u32) -> u8
        requires { at < length self.now }
        ensures { result ≡ slice_index self.now at }
    {
        self.bytes()[at as usize]
    }

    /// The word in the four bytes from `at` on, in this order of its bytes.
    pub fn word(&self, order: ByteOrder, at: u32) -> u32
        requires { at + 4 ≤ length self.now }
        ensures { result ≡ word_of order (slice_range self.now at (at + 4)) }
    {
        let at = at as usize;
        order.word(&self.bytes()[at..at + 4])
    }
}

/// A region of bytes in one allocation.
#[derive(Drop)]
pub struct Region {
    bytes: Bytes,
}

impl Model for Region {
    ghost use Rattle.std.specs.Prelude.{ℕ, List};

    ghost Value = { List ℕ };

    ghost view = { λ r. r.bytes };
}

/// A region that is cut into spans, with the stores made into it. It owns the allocation, and frees it where it is
/// dropped. The list of stores is for proofs alone, and takes no room.
pub struct Spans {
    list: Vec<Piece>,
    rest: Slots<u8>,
    shell: Shell<u8, Global>,
    stores: Stores<u8>,
}

impl Model for Spans {
    ghost use Rattle.core.specs.Mem.Slots.{slots_items};
    ghost use Rattle.std.specs.Vec.{vec_ptr, vec_len};
    ghost use Rattle.prz_region.specs.CutRegion.{CutRegion};

    ghost Value = { CutRegion };

    ghost use Rattle.prz_region.specs.Chain.{all_bytes, Laid};

    ghost view = { λ s. record {
      spans = all_bytes s.list.items;
      rest = slots_items s.rest;
      made = s.stores.made;
    } };

    ghost invariant = { λ s. Laid (vec_ptr s.shell) (vec_len s.shell) s.list.items s.rest };
}

impl Region {
    ghost use Rattle.ramoops_layout.specs.Laid.{params_of, zones_of};
    ghost use Rattle.zone_spec.specs.Layouts.{zones_end};
    ghost use Rattle.prz_region.specs.CutRegion.{cut_at};
    ghost use Rattle.prz_region.specs.Chain.{AreSideBySide};

    /// Takes no memory.
    pub fn from_bytes(bytes: Bytes) -> Region
        ensures { result ≡ bytes }
    {
        Region { bytes }
    }

    /// Takes no memory.
    pub fn into_bytes(self) -> Bytes
        ensures { result ≡ self }
    {
        self.bytes
    }

    /// Cuts the region, which has the layout's `mem` bytes, into a span for each zone. On a refusal the unchanged
    /// region comes back. The list of spans is the only memory taken.
    pub fn cut(self, layout: &Layout) -> Result<Spans, (Region, AllocError)>
        requires { length self ≡ (params_of layout.now).mem }
        ensures { MatchResult result (λ s. s ≡ cut_at (zones_of layout.now) self) (λ e. e.0 ≡ self) }
    {
        self.cut_zones(layout.zones())
    }

    /// Cuts the region, which has room for the zones, each directly behind the one before it, into a span for each of
    /// them. On a refusal the unchanged region comes back. The list of spans is the only memory taken.
    pub fn cut_zones(self, zones: &[Zone]) -> Result<Spans, (Region, AllocError)>
        requires side_by_side { AreSideBySide zones.now }
        requires room { zones_end zones.now ≤ length self }
        ensures { MatchResult result (λ s. s ≡ cut_at zones.now self) (λ e. e.0 ≡ self) }
    {
        let mut bytes = self.bytes.into_vec();
        let mut list = match Vec::with_capacity(*bytes.allocator(), zones.len()) {
            Ok(list) => list,
            Err(refused) => return Err((Region::from_bytes(Bytes::from_vec(bytes)), refused)),
        };
        let (ptr, len) = (bytes.as_mut_ptr(), bytes.len());
        let (mut rest, shell, stores) = open(bytes, ptr, len);
        for zone in zones {
            let (front, back) = split(rest, zone.size as usize);
            let (slots, base) = based(front);
            list.push_reserved(Piece::over(base, slots));
            rest = back;
        }
        Ok(Spans {
            list,
            rest,
            shell,
            stores,
        })
    }
}

impl Spans {
    ghost use Rattle.prz_region.specs.CutRegion.{span, stored};

    /// The spans in the order of the zones.
    pub fn all(&self) -> &[Span]
        ensures { result.now ≡ self.now.spans }
    {
        as_spans(self.list.as_slice())
    }

    /// Stores a byte at `at` of span `i`.
    pub fn store(&mut self, i: u32, at: u32, b: u8)
        requires span { i < length self.old.spans }
        requires place { at < length (span self.old i) }
        ensures { self.new ≡ stored self.old i (record { place = at; bytes = b ∷ [] } ∷ []) }
    {
        self.store_array(i, at, [b]);
    }

    /// Stores a word, in this order of its bytes, from `at` of span `i` on, in one store.
    pub fn store_word(&mut self, i: u32, at: u32, order: ByteOrder, w: u32)
        requires span { i < length self.old.spans }
        requires place { at + 4 ≤ length (span self.old i) }
        ensures { self.new ≡ stored self.old i (word_store order at w) }
    {
        self.store_array(i, at, order.bytes(w));
    }

    /// Stores two words, each in this order of its bytes, from `at` of span `i` on, in one store of eight bytes.
    pub fn store_pair(&mut self, i: u32, at: u32, order: ByteOrder, first: u32, second: u32)
        requires span { i < length self.old.spans }
        requires place { at + 8 ≤ length (span self.old i) }
        ensures { self.new ≡ stored self.old i
            (record { place = at; bytes = word_bytes order first ++ word_bytes order second } ∷ []) }
    {
        let [a, b, c, d] = order.bytes(first);
        let [e, f, g, h] = order.bytes(second);
        self.store_array(i, at, [a, b, c, d, e, f, g, h]);
    }

    fn store_array<const N: usize>(&mut self, i: u32, at: u32, bytes: [u8; N])
        requires span { i < length self.old.spans }
        requires place { at + N ≤ length (span self.old i) }
        requires bytes { AreBytes bytes }
        ensures { self.new ≡ stored self.old i (record { place = at; bytes = bytes.entry } ∷ []) }
    {
        self.list[i as usize].store(at, bytes, i, &mut self.stores);
    }

    /// Stores bytes from `at` of span `i` on, rising, in a store for each.
    pub fn store_bytes(&mut self, i: u32, at: u32, bytes: &[u8])
        requires span { i < length self.old.spans }
        requires place { at + length bytes.now ≤ length (span self.old i) }
        ensures { self.new ≡ stored self.old i (byte_stores at bytes.now) }
    {
        self.list[i as usize].store_bytes(at, bytes, i, &mut self.stores);
    }

    /// The whole region again. Takes no memory.
    pub fn join(self) -> Region
        ensures { result ≡ concat self.spans ++ self.rest }
    {
        let Spans {
            mut list,
            mut rest,
            shell,
            stores: _,
        } = self;
        while let Some(piece) = list.pop() {
            rest = glue(piece.into_slots(), rest);
        }
        list.destroy_empty();
        Region::from_bytes(Bytes::from_vec(close(rest, shell)))
    }
}

impl Drop for Spans {
    fn drop(self) {
        let _region = self.join();
    }
}
