// The words of a zone's header as they stand, and the places of a ring's log in their order.
ghost use Rattle.std.specs.Prelude.{◌≡◌, ◌≤◌, ◌↔◌, ℕ, length, slice_range, IsTrue};
ghost use Rattle.std.specs.Iterator.{YieldsFirst, item_count};
ghost use Rattle.zone_spec.specs.Parts.{words_in};
ghost use Rattle.zone_spec.specs.Reading.{IsRing, log_places};

use crate::spans::Span;
use std::iter::FusedIterator;
use std::marker::Model;
use zone_spec::{ByteOrder, Words};

/// What the words of a header say (`fs/pstore/ram_core.c`).
pub trait RingWords {
    /// Words that are a ring of a capacity.
    ghost is_ring_of: { Self → ℕ → Type 0 };

    /// The words that stand in the first 12 bytes of a zone, in this order of their bytes.
    fn read(order: ByteOrder, span: &Span) -> Self
        requires { 12 ≤ length span.now };

    /// Tells whether start is at most size, and size at most `cap`.
    fn is_ring(&self, cap: u32) -> bool;

    /// The data places of the log, oldest first.
    fn places(&self, cap: u32) -> Places
        requires { Self.is_ring_of self.now cap };
}

impl RingWords for Words {
    ghost is_ring_of = { λ w cap. IsRing w cap };

    #[tactic(auto, using(crate::proofs::Headers::front_word))]
    fn read(order: ByteOrder, span: &Span) -> Words
        requires { 12 ≤ length span.now }
        ensures { result ≡ words_in order (slice_range span.now 0 12) }
    {
        Words {
            sig: span.word(order, 0),
            start: span.word(order, 4),
            size: span.word(order, 8),
        }
    }

    fn is_ring(&self, cap: u32) -> bool
        ensures { IsTrue result ↔ IsRing self.now cap }
    {
        self.start <= self.size && self.size <= cap
    }

    fn places(&self, cap: u32) -> Places
        requires { IsRing self.now cap }
        ensures { result ≡ log_places self.now.start self.now.size }
    {
        let _ = cap;
        Places {
            next: self.start,
            end: self.size,
            wrapped: self.start,
        }
    }
}

/// The data places of a ring's log in their order, seen as the list of those that are left.
#[derive(Drop)]
pub struct Places {
    next: u32,
    end: u32,
    wrapped: u32,
}

impl Model for Places {
    ghost use Rattle.std.specs.Prelude.{ℕ, ◌-◌, ◌≤◌, ◌++◌, List};
    ghost use Rattle.std.specs.List.{range_with_len};

    ghost Value = { List ℕ };

    ghost view = { λ p. range_with_len p.next (p.end - p.next) ++ range_with_len 0 p.wrapped };

    ghost invariant = { λ p. p.next ≤ p.end };
}

impl Iterator for Places {
    type Item = u32;

    ghost next_gives = { YieldsFirst (λ left. left) };

    ghost remaining = { item_count (λ left. left) };

    #[tactic(auto, using(crate::proofs::Headers::places_left))]
    fn next(&mut self) -> Option<u32> {
        if self.next < self.end {
            let place = self.next;
            self.next += 1;
            return Some(place);
        }
        if self.wrapped == 0 {
            return None;
        }
        self.next = 1;
        self.end = self.wrapped;
        self.wrapped = 0;
        Some(0)
    }
}

impl FusedIterator for Places {}
