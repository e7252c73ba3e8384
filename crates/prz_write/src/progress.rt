// A call with its steps, and the loop over them.
ghost use Rattle.std.specs.Prelude.{◌≡◌, ◌+◌, ◌-◌, ◌<◌, ◌≤◌, List, ℕ, length, min, take, drop};
ghost use Rattle.zone_spec.specs.Parts.{standing_words};
ghost use Rattle.zone_spec.specs.Zones.{IsValidZone};
ghost use Rattle.zone_spec.specs.Reading.{IsRing};
ghost use Rattle.zone_spec.specs.Calls.{call_stores};
ghost use Rattle.prz_region.specs.CutRegion.{span, stored};
ghost use Rattle.prz_write.specs.Made.{HasStored};
ghost use Rattle.rs_encode.specs.Lanes.{IsLent};
ghost use Rattle.store_steps.specs.Calls.{IsOpenFor};
ghost use Rattle.prz_write.specs.Calls.{call_seen};

use crate::call::Call;
use crate::putting::{make, make_whole};
use prz_region::{Span, Spans};
use store_steps::{Steps, Store};
use zone_spec::Zone;

/// A call, and where it is.
#[derive(Drop)]
pub struct Progress {
    pub steps: Steps,
    pub call: Call,
}

impl Progress {
    ghost use Rattle.store_steps.specs.Flying.{IsSameCall};
    ghost use Rattle.store_steps.specs.Machine.{StandsFor};
    ghost use Rattle.store_steps.specs.Counts.{total_of};
    ghost use Rattle.prz_write.specs.Seen.{seen, IsHeld};

    /// The call before its first store.
    pub fn begin(zone: Zone, span: &Span, call: Call) -> Progress
        requires valid { IsValidZone zone }
        requires len { length span.now ≡ zone.size }
        requires ring { IsRing (standing_words zone span.now) zone.cap }
        requires is_open { IsOpenFor (call_seen call) (standing_words zone span.now) zone.cap }
        ensures held { IsHeld result }
        ensures zone { result.steps.zone ≡ zone }
        ensures words { result.steps.words ≡ standing_words zone span.now }
        ensures call { call_seen result.call ≡ call_seen call }
        ensures made { result.steps.made ≡ 0 }
        ensures stands { StandsFor (seen result) span.now span.now }
    {
        let kind = call.kind();
        let steps = Steps::begin(zone, kind, span.bytes(), call.line(), call.payload());
        Progress { steps, call }
    }

    /// Makes the next stores, at most `most`, of one word, run or parity, and tells how many. `out` is room for them.
    fn make_next(
        &mut self,
        table: &[u128],
        spans: &mut Spans,
        i: u32,
        most: u64,
        out: &mut Store,
    ) -> u64
        requires held { IsHeld self.old }
        requires table { IsLent self.old.steps.zone.parity table.now }
        requires left { self.old.steps.made < total_of (seen self.old) }
        requires some { 0 < most }
        requires has { i < length spans.old.spans }
        requires len { length (span spans.old i) ≡ self.old.steps.zone.size }
        ensures some { 0 < result }
        ensures most { result ≤ most }
        ensures held { IsHeld self.new }
        ensures same { IsSameCall (seen self.old) (seen self.new) }
        ensures made { self.new.steps.made ≡ self.old.steps.made + result }
        ensures stands { (before : List ℕ) → StandsFor (seen self.old) (span spans.old i) before
            → StandsFor (seen self.new) (span spans.new i) before }
        ensures stores { (before : List ℕ) → StandsFor (seen self.old) (span spans.old i) before
            → spans.new ≡ stored spans.old i (take result
            (drop self.old.steps.made (call_stores self.old.steps.zone (seen self.old).call before))) }
        ensures count { HasStored i result spans.old spans.new }
    {
        let made = self.steps.made;
        let line = self.call.line();
        let payload = self.call.payload();
        let image = spans.all()[i as usize].bytes();
        let most = most.min(u32::MAX as u64) as u32;
        self.steps.next(table, image, line, payload, most, out);
        make(out, line, payload, spans, i);
        self.steps.made - made
    }

    // Makes the next `count` stores, or all that are left, one word, run or parity after another.
    fn make_stores(&mut self, table: &[u128], spans: &mut Spans, i: u32, count: u64)
        requires held { IsHeld self.old }
        requires table { IsLent self.old.steps.zone.parity table.now }
        requires has { i < length spans.old.spans }
        requires len { length (span spans.old i) ≡ self.old.steps.zone.size }
        ensures held { IsHeld self.new }
        ensures same { IsSameCall (seen self.old) (seen self.new) }
        ensures made { self.new.steps.made ≡ min (self.old.steps.made + count) (total_of (seen self.old)) }
        ensures stands { (before : List ℕ) → StandsFor (seen self.old) (span spans.old i) before
            → StandsFor (seen self.new) (span spans.new i) before }
        ensures stores { (before : List ℕ) → StandsFor (seen self.old) (span spans.old i) before
            → spans.new ≡ stored spans.old i (take count
            (drop self.old.steps.made (call_stores self.old.steps.zone (seen self.old).call before))) }
        ensures count { HasStored i (self.new.steps.made - self.old.steps.made) spans.old spans.new }
    {
        let mut out = Store::new();
        let mut left = count;
        'stores: while left > 0 && !self.steps.is_finished() {
            left -= self.make_next(table, spans, i, left, &mut out);
        }
    }

    /// Makes the next `count` stores, or all that are left.
    pub fn advance(&mut self, table: &[u128], spans: &mut Spans, i: u32, count: u64)
        requires held { IsHeld self.old }
        requires table { IsLent self.old.steps.zone.parity table.now }
        requires has { i < length spans.old.spans }
        requires len { length (span spans.old i) ≡ self.old.steps.zone.size }
        ensures held { IsHeld self.new }
        ensures same { IsSameCall (seen self.old) (seen self.new) }
        ensures made { self.new.steps.made ≡ min (self.old.steps.made + count) (total_of (seen self.old)) }
        ensures stands { (before : List ℕ) → StandsFor (seen self.old) (span spans.old i) before
            → StandsFor (seen self.new) (span spans.new i) before }
        ensures stores { (before : List ℕ) → StandsFor (seen self.old) (span spans.old i) before
            → spans.new ≡ stored spans.old i (take count
            (drop self.old.steps.made (call_stores self.old.steps.zone (seen self.old).call before))) }
        ensures count { HasStored i (self.new.steps.made - self.old.steps.made) spans.old spans.new }
    {
        let line = self.call.line();
        let payload = self.call.payload();
        match self.steps.take_whole(line, payload, count) {
            Some(whole) => make_whole(&whole, payload, spans, i),
            None => self.make_stores(table, spans, i, count),
        }
    }
}
