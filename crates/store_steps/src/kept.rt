// Whether numbers are the steps of a call.
ghost use Rattle.std.specs.Prelude.{◌≡◌, ◌+◌, ◌-◌, ◌*◌, ◌/◌, ◌<◌, ◌≤◌, ◌^◌, ◌⊎◌, ◌↔◌, IsTrue, List, ℕ, length, sum_by};
ghost use Rattle.zone_spec.specs.Zones.{IsValidZone};
ghost use Rattle.zone_spec.specs.Stages.{stage_count};
ghost use Rattle.zone_spec.specs.Reading.{IsRing};
ghost use Rattle.store_steps.specs.Calls.{call_of, IsOpenFor};

use crate::counts::{append_stores, call_total, front_len, line_len, whole_blocks};
use crate::place::{Leg, Phase};
use crate::steps::{Steps, first_place, is_open};
use zone_spec::CallKind;

impl Steps {
    ghost use Rattle.store_steps.specs.Flying.{flying, later};
    ghost use Rattle.store_steps.specs.Phases.{IsSound, IsPlaced, IsWithin, IsFinished, phase_len, first_end};
    ghost use Rattle.store_steps.specs.Phases.{second_end};
    ghost use Rattle.store_steps.specs.Machine.{IsKept, IsFresh, count_left};
    ghost use Rattle.store_steps.specs.LeftCounts.{second_count, runs_count, behind_count};

    /// The parity bytes of the blocks from `first` up to `end`.
    fn parities(&self, first: u32, end: u32) -> u64
        requires valid { IsValidZone self.now.zone }
        requires end { end ≤ self.now.zone.blocks }
        ensures value { result ≡ (end - first) * self.now.zone.parity }
        ensures small { result < 2 ^ 31 }
    {
        end.saturating_sub(first) as u64 * self.zone.parity as u64
    }

    /// The stores of the second run and of its parity.
    fn second_count(&self, line: &[u8], payload: &[u8]) -> u64
        requires valid { IsValidZone self.now.zone }
        requires below { self.now.place.start < self.now.zone.cap }
        requires line { length line.now ≤ 36 }
        ensures value { result ≡ second_count (flying self.now line.now payload.now) }
        ensures small { result < 2 ^ 32 }
    {
        let end = self.second_end(line, payload);
        self.second_len(line, payload) as u64 + self.parities(0, end)
    }

    /// The stores of both runs and of their parity.
    fn runs_count(&self, line: &[u8], payload: &[u8]) -> u64
        requires valid { IsValidZone self.now.zone }
        requires below { self.now.place.start < self.now.zone.cap }
        requires line { length line.now ≤ 36 }
        ensures value { result ≡ runs_count (flying self.now line.now payload.now) }
        ensures small { result < 2 ^ 34 }
    {
        let first = whole_blocks(&self.zone, self.place.start);
        let end = self.first_end(line, payload);
        self.first_len(line, payload) as u64
            + self.parities(first, end)
            + self.second_count(line, payload)
    }

    /// The stores of the parts after this one.
    fn later_count(&self, line: &[u8], payload: &[u8]) -> u64
        requires valid { IsValidZone self.now.zone }
        requires line { length line.now ≤ 36 }
        ensures value { result ≡ sum_by (stage_count self.now.zone) (later (flying self.now line.now payload.now)) }
        ensures small { result < 2 ^ 30 }
    {
        let head = line_len(self.kind, line, payload);
        let front = front_len(self.kind, line, payload, self.zone.cap);
        let body = append_stores(&self.zone, head, head, front);
        match self.place.leg {
            Leg::Erasure => append_stores(&self.zone, 0, 0, head) + body,
            Leg::Payload => 0,
            Leg::Line => body,
            Leg::Body => 0,
        }
    }

    /// The stores after those of this phase.
    fn behind_count(&self, line: &[u8], payload: &[u8], later: u64) -> u64
        requires valid { IsValidZone self.now.zone }
        requires below { self.now.place.start < self.now.zone.cap }
        requires line { length line.now ≤ 36 }
        requires within { IsWithin (flying self.now line.now payload.now) self.now.place.phase }
        requires small { later < 2 ^ 30 }
        ensures value { result ≡ behind_count (flying self.now line.now payload.now) later self.now.place.phase }
        ensures small { result < 2 ^ 36 }
    {
        let closing = self.zone.parity as u64 + later;
        match self.place.phase {
            Phase::ZeroStart => 1 + closing,
            Phase::ZeroSize => closing,
            Phase::Size => 1 + (self.runs_count(line, payload) + closing),
            Phase::Start => self.runs_count(line, payload) + closing,
            Phase::First => {
                let first = whole_blocks(&self.zone, self.place.start);
                let end = self.first_end(line, payload);
                self.parities(first, end) + (self.second_count(line, payload) + closing)
            }
            Phase::FirstParity => {
                let end = self.first_end(line, payload);
                self.parities(self.place.block + 1, end)
                    + (self.second_count(line, payload) + closing)
            }
            Phase::Second => {
                let end = self.second_end(line, payload);
                self.parities(0, end) + closing
            }
            Phase::SecondParity => {
                let end = self.second_end(line, payload);
                self.parities(self.place.block + 1, end) + closing
            }
            Phase::Header => later,
            Phase::Finished => 0,
        }
    }

    /// The stores that are left.
    fn count_left(&self, line: &[u8], payload: &[u8]) -> u64
        requires sound { IsSound (flying self.now line.now payload.now) }
        requires line { length line.now ≤ 36 }
        ensures { result ≡ count_left (flying self.now line.now payload.now) }
    {
        let later = self.later_count(line, payload);
        let behind = self.behind_count(line, payload, later);
        let of_phase = self.phase_len(line, payload) - self.place.number;
        of_phase as u64 + behind
    }

    fn is_erasing(&self) -> bool
        ensures { IsTrue result ↔ (self.now.place.leg ≡ Leg.Erasure) }
    {
        match self.place.leg {
            Leg::Erasure => true,
            _ => false,
        }
    }

    /// Whether the part has this phase, and the block, or the run, is one of the part's.
    fn is_within(&self, line: &[u8], payload: &[u8]) -> bool
        requires valid { IsValidZone self.now.zone }
        requires below { self.now.place.start < self.now.zone.cap }
        requires line { length line.now ≤ 36 }
        ensures { IsTrue result ↔ IsWithin (flying self.now line.now payload.now) self.now.place.phase }
    {
        match self.place.phase {
            Phase::ZeroStart => self.is_erasing(),
            Phase::ZeroSize => self.is_erasing(),
            Phase::Size => 0 < self.payload_len(line, payload),
            Phase::Start => 0 < self.payload_len(line, payload),
            Phase::First => 0 < self.payload_len(line, payload),
            Phase::FirstParity => {
                let first = whole_blocks(&self.zone, self.place.start);
                first <= self.place.block && self.place.block < self.first_end(line, payload)
            }
            Phase::Second => 0 < self.second_len(line, payload),
            Phase::SecondParity => self.place.block < self.second_end(line, payload),
            Phase::Header => true,
            Phase::Finished => true,
        }
    }

    fn is_sound(&self, line: &[u8], payload: &[u8]) -> bool
        requires valid { IsValidZone self.now.zone }
        requires line { length line.now ≤ 36 }
        ensures { IsTrue result ↔ IsSound (flying self.now line.now payload.now) }
    {
        if self.place.start >= self.zone.cap || self.place.size > self.zone.cap {
            return false;
        }
        let phase = self.phase_len(line, payload);
        self.place.number <= phase && self.is_within(line, payload)
    }

    fn is_at(&self, start: u32, size: u32) -> bool
        ensures { IsTrue result ↔ ((self.now.place.start ≡ start) × (self.now.place.size ≡ size)) }
    {
        self.place.start == start && self.place.size == size
    }

    /// Whether the call has this part, and the ring is that at which the part begins.
    fn is_placed(&self, line: &[u8]) -> bool
        requires { length line.now ≤ 36 }
        ensures { (payload : List ℕ) → IsTrue result ↔ IsPlaced (flying self.now line.now payload) }
    {
        match (self.kind, self.place.leg) {
            (CallKind::Append, Leg::Payload) => self.is_at(self.words.start, self.words.size),
            (CallKind::Erase, Leg::Erasure) => self.is_at(0, 0),
            (CallKind::Dump, Leg::Erasure) => self.is_at(0, 0),
            (CallKind::Dump, Leg::Line) => self.is_at(0, 0),
            (CallKind::Dump, Leg::Body) => self.is_at(line.len() as u32, line.len() as u32),
            _ => false,
        }
    }

    /// Whether the call is at its end, or a store of this phase is left.
    fn is_ready(&self, line: &[u8], payload: &[u8]) -> bool
        requires sound { IsSound (flying self.now line.now payload.now) }
        requires line { length line.now ≤ 36 }
        ensures { IsTrue result ↔ (IsFinished (flying self.now line.now payload.now)
            ⊎ (self.now.place.number < phase_len (flying self.now line.now payload.now) self.now.place.phase)) }
    {
        self.is_finished() || self.place.number < self.phase_len(line, payload)
    }

    /// Whether the words before the call are a ring, and one that the call can be made on.
    fn is_open(&self) -> bool
        ensures { (line payload : List ℕ) → IsTrue result ↔ (IsRing self.now.words self.now.zone.cap
            × IsOpenFor (call_of self.now.kind line payload) self.now.words self.now.zone.cap) }
    {
        self.words.start <= self.words.size
            && self.words.size <= self.zone.cap
            && is_open(self.kind, &self.words, self.zone.cap)
    }

    /// Whether these are the steps that a begin makes: a test that is cheaper than that of others.
    fn is_fresh(&self, line: &[u8], payload: &[u8]) -> bool
        requires valid { IsValidZone self.now.zone }
        requires line { length line.now ≤ 36 }
        ensures value { IsTrue result ↔ IsFresh (flying self.now line.now payload.now) }
        ensures kept { IsFresh (flying self.now line.now payload.now) → IsKept (flying self.now line.now payload.now) }
    {
        if self.made != 0 || !self.is_open() {
            return false;
        }
        self.place == first_place(&self.zone, &self.words, self.kind, line, payload)
    }

    /// Whether these numbers can be the steps of a call with this line and this payload. Steps that were begun with
    /// them, and moved on with them alone, always are. A caller that got its steps back from elsewhere asks it first.
    pub fn is_kept(&self, line: &[u8], payload: &[u8]) -> bool
        requires valid { IsValidZone self.now.zone }
        requires line { length line.now ≤ 36 }
        ensures { IsTrue result ↔ IsKept (flying self.now line.now payload.now) }
    {
        if self.is_fresh(line, payload) {
            return true;
        }
        if !self.is_open() || !self.is_placed(line) {
            return false;
        }
        if !self.is_sound(line, payload) || !self.is_ready(line, payload) {
            return false;
        }
        let total = call_total(&self.zone, &self.words, self.kind, line, payload);
        let left = self.count_left(line, payload);
        left <= total && self.made == total - left
    }
}
