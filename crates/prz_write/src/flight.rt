// One call on one zone.
ghost use Rattle.std.specs.Prelude.{◌≡◌, ◌+◌, ◌-◌, ◌<◌, ◌≤◌, List, ℕ, length, min, take, drop, ◌↔◌};
ghost use Rattle.std.specs.Option.{ForSome};
ghost use Rattle.zone_spec.specs.Zones.{IsValidZone};
ghost use Rattle.zone_spec.specs.Parts.{standing_words};
ghost use Rattle.zone_spec.specs.Reading.{IsRing};
ghost use Rattle.zone_spec.specs.Told.{kind_of};
ghost use Rattle.zone_spec.specs.Calls.{call_stores, image_after};
ghost use Rattle.prz_region.specs.CutRegion.{span, stored};
ghost use Rattle.prz_write.specs.Made.{HasStored};
ghost use Rattle.store_steps.specs.Calls.{IsOpenFor};
ghost use Rattle.store_steps.specs.Counts.{pairs_of, touched_runs, total_of};
ghost use Rattle.store_steps.specs.Machine.{StandsFor};
ghost use Rattle.store_steps.specs.Flying.{IsSameCall};
ghost use Rattle.rs_encode.specs.Lanes.{IsLent};
ghost use Rattle.prz_write.specs.Calls.{call_seen};

use crate::call::{Call, Step};
use crate::progress::Progress;
use arrayvec::ArrayVec;
use prz_ecc::Coder;
use prz_region::{Span, Spans};
use std::marker::Model;
use zone_spec::{CallKind, Pair, Zone};

/// A call on a zone, of which some stores are made. It keeps no bytes of the zone, and takes no memory.
#[derive(Drop)]
pub struct Flight {
    progress: Progress,
}

impl Model for Flight {
    ghost use Rattle.store_steps.specs.Flying.{Flying};
    ghost use Rattle.prz_write.specs.Seen.{seen, IsHeld};

    ghost Value = { Flying };

    ghost view = { λ f. seen f.progress };

    ghost invariant = { λ f. IsHeld f.progress };
}

impl Flight {
    /// Begins the call on a zone whose bytes are the span's. Makes no store. An append of no bytes has none at all.
    pub fn begin(zone: Zone, span: &Span, call: Call) -> Flight
        requires valid { IsValidZone zone }
        requires len { length span.now ≡ zone.size }
        requires ring { IsRing (standing_words zone span.now) zone.cap }
        requires is_open { IsOpenFor (call_seen call) (standing_words zone span.now) zone.cap }
        ensures zone { result.zone ≡ zone }
        ensures words { result.words ≡ standing_words zone span.now }
        ensures call { result.call ≡ call_seen call }
        ensures made { result.made ≡ 0 }
        ensures stands { StandsFor result span.now span.now }
    {
        Flight {
            progress: Progress::begin(zone, span, call),
        }
    }

    /// Makes the next store of the call in span `i`.
    pub fn step(&mut self, spans: &mut Spans, i: u32) -> Step
        requires left { self.old.made < total_of self.old }
        requires has { i < length spans.old.spans }
        requires len { length (span spans.old i) ≡ self.old.zone.size }
        ensures same { IsSameCall self.old self.new }
        ensures made { self.new.made ≡ self.old.made + 1 }
        ensures stands { (before : List ℕ) → StandsFor self.old (span spans.old i) before
            → StandsFor self.new (span spans.new i) before }
        ensures stores { (before : List ℕ) → StandsFor self.old (span spans.old i) before
            → spans.new ≡ stored spans.old i
            (take 1 (drop self.old.made (call_stores self.old.zone self.old.call before))) }
        ensures count { HasStored i 1 spans.old spans.new }
        ensures done { (result ≡ Step.Done) ↔ (self.new.made ≡ total_of self.new) }
    {
        self.advance(spans, i, 1, None)
    }

    /// Makes the next `count` stores of the call in span `i`, or all that are left. They are made with this encoder of
    /// as many parity bytes as the zone's parts have, else with one made for each part.
    pub fn advance(&mut self, spans: &mut Spans, i: u32, count: u64, coder: Option<&Coder>) -> Step
        requires has { i < length spans.old.spans }
        requires len { length (span spans.old i) ≡ self.old.zone.size }
        requires coder { ForSome coder (λ c. c.now ≡ self.old.zone.parity) }
        ensures same { IsSameCall self.old self.new }
        ensures made { self.new.made ≡ min (self.old.made + count) (total_of self.old) }
        ensures stands { (before : List ℕ) → StandsFor self.old (span spans.old i) before
            → StandsFor self.new (span spans.new i) before }
        ensures stores { (before : List ℕ) → StandsFor self.old (span spans.old i) before
            → spans.new ≡ stored spans.old i
            (take count (drop self.old.made (call_stores self.old.zone self.old.call before))) }
        ensures count { HasStored i (self.new.made - self.old.made) spans.old spans.new }
        ensures done { (result ≡ Step.Done) ↔ (self.new.made ≡ total_of self.new) }
    {
        let zone = self.progress.steps.zone;
        self.progress
            .advance(table_of(coder, &zone), spans, i, count);
        if self.progress.steps.is_finished() {
            Step::Done
        } else {
            Step::Stored
        }
    }

    pub fn kind(&self) -> CallKind
        ensures { result ≡ kind_of self.now.call }
    {
        self.progress.call.kind()
    }

    /// The stores made. After them the zone's bytes are the image before with just these stores of the call, and where
    /// all are made the call has no more.
    pub fn made(&self) -> u64
        ensures value { result ≡ self.now.made }
        ensures most { result ≤ total_of self.now }
        ensures image { (now before : List ℕ) → StandsFor self.now now before
            → now ≡ image_after self.now.zone self.now.call before result }
        ensures last { (now before : List ℕ) → StandsFor self.now now before → result ≡ total_of self.now
            → result ≡ length (call_stores self.now.zone self.now.call before) }
    {
        self.progress.steps.made
    }

    /// The stores that are left.
    pub fn left(&self) -> u64
        ensures { result + self.now.made ≡ total_of self.now }
    {
        self.total() - self.made()
    }

    /// All stores of the call, made or not.
    pub fn total(&self) -> u64
        ensures value { result ≡ total_of self.now }
        ensures stores { (now before : List ℕ) → StandsFor self.now now before
            → result ≡ length (call_stores self.now.zone self.now.call before) }
    {
        let call = &self.progress.call;
        self.progress.steps.total(call.line(), call.payload())
    }

    /// Pair 0 is the words before the call, pair j those after its j-th store of a start or size word, made or not.
    pub fn pairs(&self) -> ArrayVec<Pair, 8>
        ensures { result.items ≡ pairs_of self.now }
    {
        let call = &self.progress.call;
        self.progress.steps.pairs(call.line(), call.payload())
    }

    /// The first and the last of each run of blocks that the data stores of the whole call meet, rising.
    pub fn runs(&self) -> ArrayVec<(u32, u32), 2>
        ensures { result.items ≡ touched_runs self.now }
    {
        let call = &self.progress.call;
        self.progress.steps.runs(call.line(), call.payload())
    }

    /// The call that was begun.
    pub fn call(&self) -> &Call
        ensures { call_seen result.now ≡ self.now.call }
    {
        &self.progress.call
    }
}

/// The table of an encoder that is lent, or none.
fn table_of<'a>(coder: Option<&'a Coder>, zone: &Zone) -> &'a [u128]
    requires { ForSome coder (λ c. c.now ≡ zone.now.parity) }
    ensures { IsLent zone.now.parity result.now }
{
    match coder {
        Some(coder) => coder.table(),
        None => &[],
    }
}
