// The machine of phases: what the next store of a call is.
ghost use Rattle.std.specs.Prelude.{◌≡◌, ◌+◌, ◌-◌, ◌*◌, ◌/◌, ◌%◌, ◌<◌, ◌≤◌, ◌^◌, false, List, ℕ, length, take, drop};
ghost use Rattle.std.specs.Prelude.{IsTrue, ◌↔◌, ◌++◌, min};
ghost use Rattle.std.specs.Prelude.{IfSome, IsSome};
ghost use Rattle.rs_encode.specs.Lanes.{IsLent};
ghost use Rattle.zone_spec.specs.Parts.{AreBytes, Header, Block, standing_words};
ghost use Rattle.zone_spec.specs.Zones.{IsValidZone};
ghost use Rattle.zone_spec.specs.Stores.{after_stores, byte_stores};
ghost use Rattle.zone_spec.specs.Stages.{ParityOf, stage_stores};
ghost use Rattle.zone_spec.specs.Reading.{IsRing};
ghost use Rattle.store_steps.specs.Calls.{call_of, line_of, front_of, last_of, IsOpenFor};
ghost use Rattle.store_steps.specs.First.{first_place, append_phase, erasure};

use crate::counts::{
    call_pairs, call_runs, call_total, front_len, last_len, line_len, skipped, whole_blocks,
};
use crate::place::{Leg, Phase, Place};
use crate::store::{Given, Store};
use arrayvec::ArrayVec;
use prz_ecc::{block_parity, header_parity, words_of};
use zone_spec::{CallKind, Pair, Words, Zone};

/// A call on a zone with these words at its begin, and the number of stores that were handed out. It is numbers alone:
/// the zone's bytes, the line and the payload are lent to each call.
#[derive(Clone, Copy, Debug, PartialEq, Eq)]
pub struct Steps {
    pub zone: Zone,
    pub words: Words,
    pub kind: CallKind,
    pub made: u64,
    pub place: Place,
}

impl Steps {
    ghost use Rattle.store_steps.specs.Flying.{flying, payload as leg_payload, later, IsSameCall};
    ghost use Rattle.store_steps.specs.Calls.{call_of, body_stages};
    ghost use Rattle.store_steps.specs.Phases.{IsSound, IsPlaced, IsFinished, IsDone, first_len, second_len, first_end};
    ghost use Rattle.store_steps.specs.Phases.{second_end, phase_len};
    ghost use Rattle.store_steps.specs.Machine.{Enters, next_stores, IsKept, StandsFor, IsSettled, IsParity};
    ghost use Rattle.store_steps.specs.Machine.{IsSameData, IsAlike, stores_left};
    ghost use Rattle.store_steps.specs.Counts.{pairs_of, total_of, touched_runs};
    ghost use Rattle.store_steps.specs.Handed.{handed, handed_count, IsInside};
    ghost use Rattle.zone_spec.specs.Calls.{call_stores};

    /// The call before its first store. `image` is the zone's bytes. An append takes `payload` alone, an erasure
    /// neither, and a dump `line` and, as its body, `payload`.
    pub fn begin(zone: Zone, kind: CallKind, image: &[u8], line: &[u8], payload: &[u8]) -> Steps
        requires valid { IsValidZone zone }
        requires len { length image.now ≡ zone.size }
        requires line { length line.now ≤ 36 }
        requires ring { IsRing (standing_words zone image.now) zone.cap }
        requires is_open { IsOpenFor (call_of kind line.now payload.now) (standing_words zone image.now) zone.cap }
        ensures kept { IsKept (flying result line.now payload.now) }
        ensures zone { result.zone ≡ zone }
        ensures words { result.words ≡ standing_words zone image.now }
        ensures kind { result.kind ≡ kind }
        ensures made { result.made ≡ 0 }
        ensures stands { StandsFor (flying result line.now payload.now) image.now image.now }
    {
        let words = words_of(zone.byte_order, &image[..12]);
        let place = first_place(&zone, &words, kind, line, payload);
        Steps {
            zone,
            words,
            kind,
            made: 0,
            place,
        }
    }

    /// As [`Steps::begin`], where the zone's words are a ring, and for an append one that can be appended to.
    pub fn try_begin(
        zone: Zone,
        kind: CallKind,
        image: &[u8],
        line: &[u8],
        payload: &[u8],
    ) -> Option<Steps>
        requires valid { IsValidZone zone }
        requires len { length image.now ≡ zone.size }
        requires line { length line.now ≤ 36 }
        ensures begins { IsRing (standing_words zone image.now) zone.cap
            → IsOpenFor (call_of kind line.now payload.now) (standing_words zone image.now) zone.cap → IsSome result }
        ensures begun { IfSome result (λ steps. (IsKept (flying steps line.now payload.now)) × (steps.zone ≡ zone)
            × (steps.kind ≡ kind) × (steps.made ≡ 0)
            × StandsFor (flying steps line.now payload.now) image.now image.now) }
    {
        let words = words_of(zone.byte_order, &image[..12]);
        if words.start > words.size || words.size > zone.cap {
            return None;
        }
        if !is_open(kind, &words, zone.cap) {
            return None;
        }
        Some(Steps::begin(zone, kind, image, line, payload))
    }

    /// All stores of the call, handed out or not.
    pub fn total(&self, line: &[u8], payload: &[u8]) -> u64
        requires kept { IsKept (flying self.now line.now payload.now) }
        requires line { length line.now ≤ 36 }
        ensures value { result ≡ total_of (flying self.now line.now payload.now) }
        ensures stores { (now before : List ℕ) → StandsFor (flying self.now line.now payload.now) now before
            → result ≡ length (call_stores self.now.zone (call_of self.now.kind line.now payload.now) before) }
    {
        call_total(&self.zone, &self.words, self.kind, line, payload)
    }

    /// Pair 0 is the words before the call, pair j those after its j-th store of a start or size word, handed out or
    /// not.
    pub fn pairs(&self, line: &[u8], payload: &[u8]) -> ArrayVec<Pair, 8>
        requires kept { IsKept (flying self.now line.now payload.now) }
        requires line { length line.now ≤ 36 }
        ensures { result.items ≡ pairs_of (flying self.now line.now payload.now) }
    {
        call_pairs(&self.zone, &self.words, self.kind, line, payload)
    }

    /// The first and the last of each run of blocks that the data stores of the whole call meet, rising.
    pub fn runs(&self, line: &[u8], payload: &[u8]) -> ArrayVec<(u32, u32), 2>
        requires kept { IsKept (flying self.now line.now payload.now) }
        requires line { length line.now ≤ 36 }
        ensures { result.items ≡ touched_runs (flying self.now line.now payload.now) }
    {
        call_runs(&self.zone, &self.words, self.kind, line, payload)
    }

    pub(crate) fn payload_len(&self, line: &[u8], payload: &[u8]) -> u32
        requires room { 36 ≤ self.now.zone.cap }
        requires line { length line.now ≤ 36 }
        ensures value { result ≡ length (leg_payload (flying self.now line.now payload.now)) }
        ensures short { result ≤ self.now.zone.cap }
    {
        match self.place.leg {
            Leg::Erasure => 0,
            Leg::Payload => last_len(self.kind, line, payload, self.zone.cap),
            Leg::Line => line_len(self.kind, line, payload),
            Leg::Body => front_len(self.kind, line, payload, self.zone.cap),
        }
    }

    pub(crate) fn first_len(&self, line: &[u8], payload: &[u8]) -> u32
        requires valid { IsValidZone self.now.zone }
        requires below { self.now.place.start < self.now.zone.cap }
        requires line { length line.now ≤ 36 }
        ensures { result ≡ first_len (flying self.now line.now payload.now) }
    {
        let room = self.zone.cap - self.place.start;
        room.min(self.payload_len(line, payload))
    }

    pub(crate) fn second_len(&self, line: &[u8], payload: &[u8]) -> u32
        requires valid { IsValidZone self.now.zone }
        requires below { self.now.place.start < self.now.zone.cap }
        requires line { length line.now ≤ 36 }
        ensures value { result ≡ second_len (flying self.now line.now payload.now) }
        ensures short { result ≤ self.now.zone.cap }
    {
        self.payload_len(line, payload) - self.first_len(line, payload)
    }

    /// The first block after the first run.
    pub(crate) fn first_end(&self, line: &[u8], payload: &[u8]) -> u32
        requires valid { IsValidZone self.now.zone }
        requires below { self.now.place.start < self.now.zone.cap }
        requires line { length line.now ≤ 36 }
        ensures value { result ≡ first_end (flying self.now line.now payload.now) }
        ensures within { result ≤ self.now.zone.blocks }
    {
        let end = self.place.start + self.first_len(line, payload);
        whole_blocks(&self.zone, end + self.zone.block - 1)
    }

    pub(crate) fn second_end(&self, line: &[u8], payload: &[u8]) -> u32
        requires valid { IsValidZone self.now.zone }
        requires below { self.now.place.start < self.now.zone.cap }
        requires line { length line.now ≤ 36 }
        ensures value { result ≡ second_end (flying self.now line.now payload.now) }
        ensures within { result ≤ self.now.zone.blocks }
    {
        let end = self.second_len(line, payload);
        whole_blocks(&self.zone, end + self.zone.block - 1)
    }

    /// How many stores the phase has. It is inlined: each turn of a call asks for it three times.
    #[inline(always)]
    pub(crate) fn phase_len(&self, line: &[u8], payload: &[u8]) -> u32
        requires valid { IsValidZone self.now.zone }
        requires below { self.now.place.start < self.now.zone.cap }
        requires line { length line.now ≤ 36 }
        ensures { result ≡ phase_len (flying self.now line.now payload.now) self.now.place.phase }
    {
        match self.place.phase {
            Phase::ZeroStart => 1,
            Phase::ZeroSize => 1,
            Phase::Size => 1,
            Phase::Start => 1,
            Phase::First => self.first_len(line, payload),
            Phase::FirstParity => self.zone.parity,
            Phase::Second => self.second_len(line, payload),
            Phase::SecondParity => self.zone.parity,
            Phase::Header => self.zone.parity,
            Phase::Finished => 0,
        }
    }

    /// Whether the next store is one of parity, and so of the zone's bytes.
    pub fn is_parity(&self) -> bool
        ensures { IsTrue result ↔ IsParity self.now.place.phase }
    {
        match self.place.phase {
            Phase::ZeroStart => false,
            Phase::ZeroSize => false,
            Phase::Size => false,
            Phase::Start => false,
            Phase::First => false,
            Phase::FirstParity => true,
            Phase::Second => false,
            Phase::SecondParity => true,
            Phase::Header => true,
            Phase::Finished => false,
        }
    }

    pub fn is_finished(&self) -> bool
        ensures { IsTrue result ↔ (self.now.place.phase ≡ Phase.Finished) }
    {
        match self.place.phase {
            Phase::Finished => true,
            _ => false,
        }
    }

    fn enter_block(&mut self, phase: Phase, block: u32)
        ensures { self.new ≡ record self.old { place = record self.old.place { phase = phase; block = block; number = 0 } } }
    {
        self.place.phase = phase;
        self.place.block = block;
        self.place.number = 0;
    }

    /// Begins a later part, at the ring of this start and size.
    fn enter_leg(&mut self, leg: Leg, at: u32)
        ensures place { self.new ≡ record self.old
            { place = record { leg = leg; start = at; size = at; phase = Phase.Size; block = 0; number = 0 } } }
    {
        self.place = Place {
            leg,
            start: at,
            size: at,
            phase: Phase::Size,
            block: 0,
            number: 0,
        };
    }

    fn enter_phase(&mut self, phase: Phase)
        ensures place { self.new ≡ record self.old { place = record self.old.place { phase = phase; number = 0 } } }
    {
        self.place.phase = phase;
        self.place.number = 0;
    }

    /// Goes on after a dump's line, or after its erasure where the line is empty.
    fn enter_body(&mut self, line: &[u8], payload: &[u8])
        requires sound { IsSound (flying self.old line.now payload.now) }
        requires line { length line.now ≤ 36 }
        requires done { IsDone (flying self.old line.now payload.now) }
        requires header { self.old.place.phase ≡ Phase.Header }
        requires behind { later (flying self.old line.now payload.now)
            ≡ body_stages self.old.zone (call_of self.old.kind line.now payload.now) }
        ensures sound { IsSound (flying self.new line.now payload.now) }
        ensures enters { Enters (flying self.old line.now payload.now) (flying self.new line.now payload.now) }
        ensures placed { IsPlaced (flying self.old line.now payload.now)
            → IsPlaced (flying self.new line.now payload.now) }
        ensures kind { self.new.kind ≡ self.old.kind }
    {
        let head = line_len(self.kind, line, payload);
        if front_len(self.kind, line, payload, self.zone.cap) == 0 {
            self.enter_phase(Phase::Finished);
        } else {
            self.enter_leg(Leg::Body, head);
        }
    }

    /// Goes on after the header's parity: to the next part that has bytes, or to the end.
    fn enter_next_leg(&mut self, line: &[u8], payload: &[u8])
        requires sound { IsSound (flying self.old line.now payload.now) }
        requires line { length line.now ≤ 36 }
        requires done { IsDone (flying self.old line.now payload.now) }
        requires header { self.old.place.phase ≡ Phase.Header }
        ensures sound { IsSound (flying self.new line.now payload.now) }
        ensures enters { Enters (flying self.old line.now payload.now) (flying self.new line.now payload.now) }
        ensures placed { IsPlaced (flying self.old line.now payload.now)
            → IsPlaced (flying self.new line.now payload.now) }
        ensures kind { self.new.kind ≡ self.old.kind }
    {
        match self.place.leg {
            Leg::Erasure => {
                if line_len(self.kind, line, payload) == 0 {
                    self.enter_body(line, payload);
                } else {
                    self.enter_leg(Leg::Line, 0);
                }
            }
            Leg::Line => self.enter_body(line, payload),
            Leg::Payload => self.enter_phase(Phase::Finished),
            Leg::Body => self.enter_phase(Phase::Finished),
        }
    }

    /// Goes on to the next phase.
    fn enter(&mut self, line: &[u8], payload: &[u8])
        requires sound { IsSound (flying self.old line.now payload.now) }
        requires line { length line.now ≤ 36 }
        requires done { IsDone (flying self.old line.now payload.now) }
        requires more { IsFinished (flying self.old line.now payload.now) → ⊥ }
        ensures sound { IsSound (flying self.new line.now payload.now) }
        ensures enters { Enters (flying self.old line.now payload.now) (flying self.new line.now payload.now) }
        ensures placed { IsPlaced (flying self.old line.now payload.now)
            → IsPlaced (flying self.new line.now payload.now) }
        ensures kind { self.new.kind ≡ self.old.kind }
    {
        match self.place.phase {
            Phase::ZeroStart => self.enter_phase(Phase::ZeroSize),
            Phase::ZeroSize => self.enter_phase(Phase::Header),
            Phase::Size => self.enter_phase(Phase::Start),
            Phase::Start => self.enter_phase(Phase::First),
            Phase::First => {
                let block = whole_blocks(&self.zone, self.place.start);
                self.enter_block(Phase::FirstParity, block);
            }
            Phase::FirstParity => {
                let block = self.place.block + 1;
                if block < self.first_end(line, payload) {
                    self.enter_block(Phase::FirstParity, block);
                } else if self.second_len(line, payload) > 0 {
                    self.enter_phase(Phase::Second);
                } else {
                    self.enter_phase(Phase::Header);
                }
            }
            Phase::Second => self.enter_block(Phase::SecondParity, 0),
            Phase::SecondParity => {
                let block = self.place.block + 1;
                if block < self.second_end(line, payload) {
                    self.enter_block(Phase::SecondParity, block);
                } else {
                    self.enter_phase(Phase::Header);
                }
            }
            Phase::Header => self.enter_next_leg(line, payload),
            Phase::Finished => {}
        }
    }

    /// Hands out the next `count` stores of a phase that is no parity.
    fn give_data(&self, line: &[u8], payload: &[u8], count: u32, out: &mut Store)
        requires sound { IsSound (flying self.now line.now payload.now) }
        requires line { length line.now ≤ 36 }
        requires data { IsParity self.now.place.phase → ⊥ }
        requires some { 0 < count }
        requires ready { self.now.place.number + count
            ≤ phase_len (flying self.now line.now payload.now) self.now.place.phase }
        ensures stores { (image : List ℕ) → handed out.new line.now payload.now
            ≡ next_stores (flying self.now line.now payload.now) image count }
        ensures inside { IsInside self.now.zone.size out.new line.now payload.now }
    {
        let number = self.place.number;
        match self.place.phase {
            Phase::ZeroStart => out.set_word(self.zone.byte_order, 4, 0),
            Phase::ZeroSize => out.set_word(self.zone.byte_order, 8, 0),
            Phase::Size => {
                let size = self
                    .zone
                    .cap
                    .min(self.place.size + self.payload_len(line, payload));
                out.set_word(self.zone.byte_order, 8, size);
            }
            Phase::Start => {
                let start = (self.place.start + self.payload_len(line, payload)) % self.zone.cap;
                out.set_word(self.zone.byte_order, 4, start);
            }
            Phase::First => {
                let at = 12 + self.place.start + number;
                self.give_payload(line, payload, at, number, count, out);
            }
            Phase::FirstParity => {}
            Phase::Second => {
                let first = self.first_len(line, payload);
                self.give_payload(line, payload, 12 + number, first + number, count, out);
            }
            Phase::SecondParity => {}
            Phase::Header => {}
            Phase::Finished => {}
        }
    }

    /// Hands out the next `count` stores of a phase that is parity.
    fn give_parities(
        &self,
        table: &[u128],
        image: &[u8],
        line: &[u8],
        payload: &[u8],
        count: u32,
        out: &mut Store,
    )
        requires sound { IsSound (flying self.now line.now payload.now) }
        requires line { length line.now ≤ 36 }
        requires table { IsLent self.now.zone.parity table.now }
        requires len { length image.now ≡ self.now.zone.size }
        requires parity { IsParity self.now.place.phase }
        requires ready { self.now.place.number + count
            ≤ phase_len (flying self.now line.now payload.now) self.now.place.phase }
        ensures stores { handed out.new line.now payload.now
            ≡ next_stores (flying self.now line.now payload.now) image.now count }
        ensures inside { IsInside self.now.zone.size out.new line.now payload.now }
        ensures given { out.new.given ≡ Given.Parity }
    {
        let _ = line;
        let _ = payload;
        match self.place.phase {
            Phase::ZeroStart => {}
            Phase::ZeroSize => {}
            Phase::Size => {}
            Phase::Start => {}
            Phase::First => {}
            Phase::FirstParity => self.give_block_parity(table, image, count, out),
            Phase::Second => {}
            Phase::SecondParity => self.give_block_parity(table, image, count, out),
            Phase::Header => self.give_header_parity(table, image, count, out),
            Phase::Finished => {}
        }
    }

    /// Hands out `count` bytes of the payload, those from `from` on.
    fn give_payload(
        &self,
        line: &[u8],
        payload: &[u8],
        at: u32,
        from: u32,
        count: u32,
        out: &mut Store,
    )
        requires from { from + count ≤ length (leg_payload (flying self.now line.now payload.now)) }
        requires at { at + count ≤ self.now.zone.size }
        ensures stores { handed out.new line.now payload.now ≡ byte_stores at
            (take count (drop from (leg_payload (flying self.now line.now payload.now)))) }
        ensures inside { IsInside self.now.zone.size out.new line.now payload.now }
    {
        match self.place.leg {
            Leg::Erasure => out.set_bytes(Given::Line, at, from as u64, count),
            Leg::Line => out.set_bytes(Given::Line, at, from as u64, count),
            Leg::Payload => {
                let skipped = skipped(self.kind, payload, self.zone.cap);
                out.set_bytes(Given::Payload, at, skipped + from as u64, count);
            }
            Leg::Body => out.set_bytes(Given::Payload, at, from as u64, count),
        }
    }

    /// Hands out the next `count` parity bytes of the block as it stands.
    fn give_block_parity(&self, table: &[u128], image: &[u8], count: u32, out: &mut Store)
        requires valid { IsValidZone self.now.zone }
        requires table { IsLent self.now.zone.parity table.now }
        requires len { length image.now ≡ self.now.zone.size }
        requires block { self.now.zone.block * self.now.place.block < self.now.zone.cap }
        requires within { self.now.place.block < self.now.zone.blocks }
        requires number { self.now.place.number + count ≤ self.now.zone.parity }
        ensures stores { (line payload : List ℕ) → handed out.new line payload ≡ take count
            (drop self.now.place.number (stage_stores self.now.zone (ParityOf (Block self.now.place.block)) image.now)) }
        ensures inside { (line payload : List ℕ) → IsInside self.now.zone.size out.new line payload }
        ensures given { out.new.given ≡ Given.Parity }
    {
        block_parity(table, image, &self.zone, self.place.block, &mut out.parity);
        let at = 12 + self.zone.cap + self.place.block * self.zone.parity;
        self.give_parity(at, count, out);
    }

    /// Hands out the next `count` parity bytes of the header as it stands.
    fn give_header_parity(&self, table: &[u128], image: &[u8], count: u32, out: &mut Store)
        requires valid { IsValidZone self.now.zone }
        requires table { IsLent self.now.zone.parity table.now }
        requires len { length image.now ≡ self.now.zone.size }
        requires number { self.now.place.number + count ≤ self.now.zone.parity }
        ensures stores { (line payload : List ℕ) → handed out.new line payload ≡ take count
            (drop self.now.place.number (stage_stores self.now.zone (ParityOf Header) image.now)) }
        ensures inside { (line payload : List ℕ) → IsInside self.now.zone.size out.new line payload }
        ensures given { out.new.given ≡ Given.Parity }
    {
        header_parity(table, image, &self.zone, &mut out.parity);
        let at = 12 + self.zone.cap + self.zone.blocks * self.zone.parity;
        self.give_parity(at, count, out);
    }

    /// Hands out the next `count` bytes of the parity that `out` has, of which the first is stored at `at`.
    fn give_parity(&self, at: u32, count: u32, out: &mut Store)
        requires at { at + self.now.place.number + count ≤ self.now.zone.size }
        requires small { self.now.zone.size < 2 ^ 32 }
        requires number { self.now.place.number + count ≤ length out.old.parity.items }
        ensures stores { (line payload : List ℕ) → handed out.new line payload ≡ byte_stores (at + self.now.place.number)
            (take count (drop self.now.place.number out.old.parity.items)) }
        ensures inside { (line payload : List ℕ) → IsInside self.now.zone.size out.new line payload }
        ensures given { out.new.given ≡ Given.Parity }
    {
        let number = self.place.number;
        out.set_bytes(Given::Parity, at + number, number as u64, count);
    }

    /// Goes on to the phase of the next store.
    fn settle(&mut self, line: &[u8], payload: &[u8])
        requires sound { IsSound (flying self.old line.now payload.now) }
        requires line { length line.now ≤ 36 }
        ensures sound { IsSound (flying self.new line.now payload.now) }
        ensures settled { IsSettled (flying self.old line.now payload.now) (flying self.new line.now payload.now) }
        ensures placed { IsPlaced (flying self.old line.now payload.now)
            → IsPlaced (flying self.new line.now payload.now) }
        ensures kind { self.new.kind ≡ self.old.kind }
    {
        while !self.is_finished() && self.place.number == self.phase_len(line, payload) {
            self.enter(line, payload);
        }
    }

    /// How many of the next stores are of this phase, at most `most`.
    fn next_count(&self, line: &[u8], payload: &[u8], most: u32) -> u32
        requires sound { IsSound (flying self.now line.now payload.now) }
        requires line { length line.now ≤ 36 }
        requires some { 0 < most }
        requires ready { self.now.place.number
            < phase_len (flying self.now line.now payload.now) self.now.place.phase }
        ensures some { 0 < result }
        ensures most { result ≤ most }
        ensures ready { self.now.place.number + result
            ≤ phase_len (flying self.now line.now payload.now) self.now.place.phase }
    {
        most.min(self.phase_len(line, payload) - self.place.number)
    }

    /// Goes past the next `count` stores of this phase, to where the store after them is.
    fn move_on(&mut self, line: &[u8], payload: &[u8], count: u32)
        requires kept { IsKept (flying self.old line.now payload.now) }
        requires line { length line.now ≤ 36 }
        requires ready { self.old.place.number + count
            ≤ phase_len (flying self.old line.now payload.now) self.old.place.phase }
        ensures kept { IsKept (flying self.new line.now payload.now) }
        ensures same { IsSameCall (flying self.old line.now payload.now) (flying self.new line.now payload.now) }
        ensures kind { self.new.kind ≡ self.old.kind }
        ensures made { self.new.made ≡ self.old.made + count }
        ensures stands { (now before : List ℕ) → AreBytes now
            → StandsFor (flying self.old line.now payload.now) now before
            → StandsFor (flying self.new line.now payload.now)
            (after_stores now (next_stores (flying self.old line.now payload.now) now count)) before }
        ensures coming { (now : List ℕ) → AreBytes now → stores_left (flying self.old line.now payload.now) now
            ≡ next_stores (flying self.old line.now payload.now) now count
            ++ stores_left (flying self.new line.now payload.now)
            (after_stores now (next_stores (flying self.old line.now payload.now) now count)) }
    {
        self.place.number += count;
        self.made += count as u64;
        self.settle(line, payload);
    }

    /// Hands out the next stores, at most `most`, all of one word or run; or tells that the call is finished. Words and
    /// runs are the same whatever the zone's bytes are.
    pub fn next_data(&mut self, line: &[u8], payload: &[u8], most: u32, out: &mut Store)
        requires kept { IsKept (flying self.old line.now payload.now) }
        requires line { length line.now ≤ 36 }
        requires data { IsParity self.old.place.phase → ⊥ }
        requires some { 0 < most }
        ensures kept { IsKept (flying self.new line.now payload.now) }
        ensures same { IsSameCall (flying self.old line.now payload.now) (flying self.new line.now payload.now) }
        ensures kind { self.new.kind ≡ self.old.kind }
        ensures made { self.new.made ≡ self.old.made + handed_count out.new line.now payload.now }
        ensures most { handed_count out.new line.now payload.now ≤ most }
        ensures inside { IsInside self.old.zone.size out.new line.now payload.now }
        ensures some { self.old.made < total_of (flying self.old line.now payload.now)
            → 0 < handed_count out.new line.now payload.now }
        ensures bytes { (now : List ℕ) → AreBytes now
            → AreBytes (after_stores now (handed out.new line.now payload.now)) }
        ensures handed { (now before : List ℕ) → StandsFor (flying self.old line.now payload.now) now before
            → handed out.new line.now payload.now ≡ take (handed_count out.new line.now payload.now)
            (drop self.old.made (call_stores self.old.zone (call_of self.old.kind line.now payload.now) before)) }
        ensures stands { (now before : List ℕ) → AreBytes now
            → StandsFor (flying self.old line.now payload.now) now before
            → StandsFor (flying self.new line.now payload.now)
            (after_stores now (handed out.new line.now payload.now)) before }
        ensures coming { (now : List ℕ) → AreBytes now → stores_left (flying self.old line.now payload.now) now
            ≡ handed out.new line.now payload.now ++ stores_left (flying self.new line.now payload.now)
            (after_stores now (handed out.new line.now payload.now)) }
        ensures finished { (out.new.given ≡ Given.Nothing)
            ↔ (self.old.made ≡ total_of (flying self.old line.now payload.now)) }
    {
        if self.is_finished() {
            out.set_nothing();
            return;
        }
        let count = self.next_count(line, payload, most);
        self.give_data(line, payload, count, out);
        self.move_on(line, payload, count);
    }

    /// Hands out the next stores, at most `most`, all of the parity of one part. `image` is the zone's bytes as they
    /// stand, but for parity, which may be any; `table` is an encoder's for the zone's parity, or empty, which is
    /// slower.
    pub fn next_parity(
        &mut self,
        table: &[u128],
        image: &[u8],
        line: &[u8],
        payload: &[u8],
        most: u32,
        out: &mut Store,
    )
        requires kept { IsKept (flying self.old line.now payload.now) }
        requires line { length line.now ≤ 36 }
        requires table { IsLent self.old.zone.parity table.now }
        requires len { length image.now ≡ self.old.zone.size }
        requires parity { IsParity self.old.place.phase }
        requires some { 0 < most }
        ensures kept { IsKept (flying self.new line.now payload.now) }
        ensures same { IsSameCall (flying self.old line.now payload.now) (flying self.new line.now payload.now) }
        ensures kind { self.new.kind ≡ self.old.kind }
        ensures made { self.new.made ≡ self.old.made + handed_count out.new line.now payload.now }
        ensures most { handed_count out.new line.now payload.now ≤ most }
        ensures inside { IsInside self.old.zone.size out.new line.now payload.now }
        ensures given { out.new.given ≡ Given.Parity }
        ensures left { self.old.made < total_of (flying self.old line.now payload.now) }
        ensures some { 0 < handed_count out.new line.now payload.now }
        ensures bytes { (now : List ℕ) → AreBytes now
            → AreBytes (after_stores now (handed out.new line.now payload.now)) }
        ensures apart { (now : List ℕ)
            → IsSameData self.old.zone (after_stores now (handed out.new line.now payload.now)) now }
        ensures handed { (now before : List ℕ) → IsSameData self.old.zone now image.now
            → StandsFor (flying self.old line.now payload.now) now before
            → handed out.new line.now payload.now ≡ take (handed_count out.new line.now payload.now)
            (drop self.old.made (call_stores self.old.zone (call_of self.old.kind line.now payload.now) before)) }
        ensures stands { (now before : List ℕ) → AreBytes now → IsSameData self.old.zone now image.now
            → StandsFor (flying self.old line.now payload.now) now before
            → StandsFor (flying self.new line.now payload.now)
            (after_stores now (handed out.new line.now payload.now)) before }
        ensures coming { stores_left (flying self.old line.now payload.now) image.now
            ≡ handed out.new line.now payload.now ++ stores_left (flying self.new line.now payload.now)
            (after_stores image.now (handed out.new line.now payload.now)) }
    {
        let count = self.next_count(line, payload, most);
        self.give_parities(table, image, line, payload, count, out);
        self.move_on(line, payload, count);
    }

    /// Hands out the next stores, at most `most`, all of one word, run or parity; or tells that the call is finished.
    /// `image` is the zone's bytes with all stores made that were handed out before: words and runs are the same
    /// whatever it is, parity is of its header and data. `table` is an encoder's for the zone's parity, or empty, which
    /// is slower.
    pub fn next(
        &mut self,
        table: &[u128],
        image: &[u8],
        line: &[u8],
        payload: &[u8],
        most: u32,
        out: &mut Store,
    )
        requires kept { IsKept (flying self.old line.now payload.now) }
        requires line { length line.now ≤ 36 }
        requires table { IsLent self.old.zone.parity table.now }
        requires len { length image.now ≡ self.old.zone.size }
        requires some { 0 < most }
        ensures kept { IsKept (flying self.new line.now payload.now) }
        ensures same { IsSameCall (flying self.old line.now payload.now) (flying self.new line.now payload.now) }
        ensures kind { self.new.kind ≡ self.old.kind }
        ensures made { self.new.made ≡ self.old.made + handed_count out.new line.now payload.now }
        ensures most { handed_count out.new line.now payload.now ≤ most }
        ensures inside { IsInside self.old.zone.size out.new line.now payload.now }
        ensures some { self.old.made < total_of (flying self.old line.now payload.now)
            → 0 < handed_count out.new line.now payload.now }
        ensures handed { (now before : List ℕ) → IsAlike (flying self.old line.now payload.now) image.now now
            → StandsFor (flying self.old line.now payload.now) now before
            → handed out.new line.now payload.now ≡ take (handed_count out.new line.now payload.now)
            (drop self.old.made (call_stores self.old.zone (call_of self.old.kind line.now payload.now) before)) }
        ensures stands { (now before : List ℕ) → IsAlike (flying self.old line.now payload.now) image.now now
            → StandsFor (flying self.old line.now payload.now) now before
            → StandsFor (flying self.new line.now payload.now)
            (after_stores now (handed out.new line.now payload.now)) before }
        ensures apart { IsParity self.old.place.phase → (now : List ℕ)
            → IsSameData self.old.zone (after_stores now (handed out.new line.now payload.now)) now }
        ensures coming { stores_left (flying self.old line.now payload.now) image.now
            ≡ handed out.new line.now payload.now ++ stores_left (flying self.new line.now payload.now)
            (after_stores image.now (handed out.new line.now payload.now)) }
        ensures finished { (out.new.given ≡ Given.Nothing)
            ↔ (self.old.made ≡ total_of (flying self.old line.now payload.now)) }
    {
        if self.is_parity() {
            self.next_parity(table, image, line, payload, most, out);
        } else {
            self.next_data(line, payload, most, out);
        }
    }
}

/// Whether a call of this kind can be made on a ring with these words.
pub(crate) fn is_open(kind: CallKind, words: &Words, cap: u32) -> bool
    ensures { (line payload : List ℕ) → IsTrue result ↔ IsOpenFor (call_of kind line payload) words.now cap }
{
    match kind {
        CallKind::Append => words.start < cap && (words.size >= cap || words.start == words.size),
        CallKind::Erase => true,
        CallKind::Dump => true,
    }
}

/// Where the call begins.
pub(crate) fn first_place(
    zone: &Zone,
    words: &Words,
    kind: CallKind,
    line: &[u8],
    payload: &[u8],
) -> Place
    ensures { result ≡ first_place zone.now words.now (call_of kind line.now payload.now) }
{
    match kind {
        CallKind::Append => Place {
            leg: Leg::Payload,
            start: words.start,
            size: words.size,
            phase: append_phase(zone, words, last_len(kind, line, payload, zone.cap)),
            block: 0,
            number: 0,
        },
        CallKind::Erase => erasure(),
        CallKind::Dump => erasure(),
    }
}

fn append_phase(zone: &Zone, words: &Words, len: u32) -> Phase
    ensures { result ≡ append_phase len words.now.size zone.now.cap }
{
    if len == 0 {
        Phase::Finished
    } else if words.size == zone.cap {
        Phase::Start
    } else {
        Phase::Size
    }
}

fn erasure() -> Place
    ensures { result ≡ erasure }
{
    Place {
        leg: Leg::Erasure,
        start: 0,
        size: 0,
        phase: Phase::ZeroStart,
        block: 0,
        number: 0,
    }
}
