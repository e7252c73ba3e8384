// The reading of a zone, and whether a boot keeps the zone that has it.
ghost use Rattle.std.specs.Prelude.{◌≡◌, ◌+◌, ◌*◌, ◌≤◌, ◌<◌, ◌↔◌, length, true, IsTrue, IfOk};
ghost use Rattle.code_spec.specs.Code.{IsCodeword};
ghost use Rattle.zone_spec.specs.Parts.{Block, part_word};
ghost use Rattle.zone_spec.specs.PartReadings.{part_reading};
ghost use Rattle.prz_ecc.specs.Outcomes.{CountsAre, IsPartExcess};
ghost use Rattle.zone_spec.specs.Zones.{IsValidZone};
ghost use Rattle.zone_spec.specs.Reading.{zone_reading, log_read, IsRing};
ghost use Rattle.zone_spec.specs.Boot.{keeps as keeps_zone};
ghost use Rattle.zone_spec.specs.PartStates.{part_states};
ghost use Rattle.prz_read.specs.Reads.{bytes_read, corrected_below, bad_below, states_below};

use crate::parts::{BlockStates, ZoneParts, part_state};
use crate::span_parts::{excess_pair, read_block, read_block_by, read_header};
use arrayvec::ArrayVec;
use dump_records::read_line;
use outside::Bytes;
use prz_ecc::{Coder, Decoded, Fix};
use prz_region::Span;
use std::alloc::{AllocError, Global};
use std::marker::Model;
use zone_boot::{Counts, counts_of, state_of};
use zone_spec::{PartState, State, Words, Zone};

/// What a boot reads of a zone: its state, the words of its header, its log, and how many bytes of header and blocks
/// were corrected (of their parity too) and how many of these parts could not be.
#[derive(Drop)]
pub struct Reading {
    pub state: State,
    pub words: Words,
    /// Empty but for a zone that was found.
    pub log: Bytes,
    pub corrected: u32,
    pub bad: u32,
}

impl Model for Reading {
    ghost use Rattle.zone_spec.specs.Reading.{ZoneReading};

    ghost Value = { ZoneReading };

    ghost view = { λ r. record {
      state = r.state;
      words = r.words;
      log = r.log;
      corrected = r.corrected;
      bad = r.bad;
    } };
}

/// The front of a zone's data as its blocks read, what these blocks count, and their states if they are wanted.
#[derive(Drop)]
struct Front {
    bytes: Vec<u8>,
    counts: Counts,
    states: BlockStates,
}

impl Front {
    ghost use Rattle.prz_read.specs.Fronts.{ReadsTo};

    /// Appends block `b`, a codeword, as it stands after the blocks before it, as far as it lies below `size`.
    fn push_standing(
        &mut self,
        span: &Span,
        zone: &Zone,
        b: u32,
        size: u32,
    ) -> Result<(), AllocError>
        requires valid { IsValidZone zone.now }
        requires len { length span.now ≡ zone.now.size }
        requires within { size ≤ zone.now.cap }
        requires block { zone.now.block * b < size }
        requires clean { IsCodeword zone.now.parity (part_word zone.now span.now (Block b)) }
        requires before { ReadsTo zone.now span.now size b self.old }
        ensures reads { IfOk result (λ _. ReadsTo zone.now span.now size (b + 1) self.new) }
        ensures wanted { IfOk result (λ _. self.new.states.are_wanted ≡ self.old.states.are_wanted) }
    {
        let _len = span.len();
        let at = 12 + zone.block * b;
        let len = zone.block.min(size - zone.block * b);
        let bytes = &span.bytes()[at as usize..at as usize + len as usize];
        self.bytes.extend_from_slice(bytes)?;
        self.states.push(PartState::Read(0))?;
        Ok(())
    }

    /// Appends block `b`, which reads as these bytes with this outcome, after the blocks before it, as far as it lies below
    /// `size`.
    fn push_decoded(
        &mut self,
        span: &Span,
        zone: &Zone,
        b: u32,
        size: u32,
        block: &[u8],
        outcome: Decoded,
    ) -> Result<(), AllocError>
        requires valid { IsValidZone zone.now }
        requires len { length span.now ≡ zone.now.size }
        requires within { size ≤ zone.now.cap }
        requires block { zone.now.block * b < size }
        requires data { block.now ≡ (part_reading zone.now span.now (Block b)).bytes }
        requires counts { CountsAre outcome (part_reading zone.now span.now (Block b)) }
        requires before { ReadsTo zone.now span.now size b self.old }
        ensures reads { IfOk result (λ _. ReadsTo zone.now span.now size (b + 1) self.new) }
        ensures wanted { IfOk result (λ _. self.new.states.are_wanted ≡ self.old.states.are_wanted) }
    {
        let _len = span.len();
        let len = zone.block.min(size - zone.block * b);
        self.bytes.extend_from_slice(&block[..len as usize])?;
        let more = counts_of(outcome);
        self.counts.corrected += more.corrected;
        self.counts.bad += more.bad;
        self.states.push(part_state(outcome))?;
        Ok(())
    }

    /// Appends block `b` as it reads after the blocks before it, as far as it lies below `size`.
    fn push_read(
        &mut self,
        coder: &Coder,
        span: &Span,
        zone: &Zone,
        b: u32,
        size: u32,
    ) -> Result<(), AllocError>
        requires coder { coder.now ≡ zone.now.parity }
        requires valid { IsValidZone zone.now }
        requires len { length span.now ≡ zone.now.size }
        requires within { size ≤ zone.now.cap }
        requires block { zone.now.block * b < size }
        requires before { ReadsTo zone.now span.now size b self.old }
        ensures reads { IfOk result (λ _. ReadsTo zone.now span.now size (b + 1) self.new) }
        ensures wanted { IfOk result (λ _. self.new.states.are_wanted ≡ self.old.states.are_wanted) }
    {
        let mut block: ArrayVec<u8, 255> = ArrayVec::new();
        let mut fixes: ArrayVec<Fix, 63> = ArrayVec::new();
        let outcome = read_block(coder, span, zone, b, &mut block, &mut fixes);
        self.push_decoded(span, zone, b, size, block.as_slice(), outcome)
    }

    /// As [`Front::push_read`], from the block's excess.
    fn push_damaged(
        &mut self,
        coder: &Coder,
        excess: &[u8],
        span: &Span,
        zone: &Zone,
        b: u32,
        size: u32,
    ) -> Result<(), AllocError>
        requires coder { coder.now ≡ zone.now.parity }
        requires valid { IsValidZone zone.now }
        requires len { length span.now ≡ zone.now.size }
        requires within { size ≤ zone.now.cap }
        requires block { zone.now.block * b < size }
        requires excess { IsPartExcess zone.now span.now (Block b) excess.now }
        requires before { ReadsTo zone.now span.now size b self.old }
        ensures reads { IfOk result (λ _. ReadsTo zone.now span.now size (b + 1) self.new) }
        ensures wanted { IfOk result (λ _. self.new.states.are_wanted ≡ self.old.states.are_wanted) }
    {
        let mut block: ArrayVec<u8, 255> = ArrayVec::new();
        let mut fixes: ArrayVec<Fix, 63> = ArrayVec::new();
        let outcome = read_block_by(coder, excess, span, zone, b, &mut block, &mut fixes);
        self.push_decoded(span, zone, b, size, block.as_slice(), outcome)
    }

    /// Appends block `b`, of which `is_clean` tells whether it stands as a codeword.
    fn push(
        &mut self,
        coder: &Coder,
        excess: &[u8],
        span: &Span,
        zone: &Zone,
        b: u32,
        size: u32,
        is_clean: bool,
    ) -> Result<(), AllocError>
        requires coder { coder.now ≡ zone.now.parity }
        requires valid { IsValidZone zone.now }
        requires len { length span.now ≡ zone.now.size }
        requires within { size ≤ zone.now.cap }
        requires block { zone.now.block * b < size }
        requires clean { IsTrue is_clean ↔ IsCodeword zone.now.parity (part_word zone.now span.now (Block b)) }
        requires excess { IsPartExcess zone.now span.now (Block b) excess.now }
        requires before { ReadsTo zone.now span.now size b self.old }
        ensures reads { IfOk result (λ _. ReadsTo zone.now span.now size (b + 1) self.new) }
        ensures wanted { IfOk result (λ _. self.new.states.are_wanted ≡ self.old.states.are_wanted) }
    {
        if is_clean {
            self.push_standing(span, zone, b, size)
        } else {
            self.push_damaged(coder, excess, span, zone, b, size)
        }
    }

    /// Puts the first `count` pairs of blocks, which lie whole below `size`. Two are tested at once.
    fn push_pairs(
        &mut self,
        coder: &Coder,
        span: &Span,
        zone: &Zone,
        count: u32,
        size: u32,
    ) -> Result<(), AllocError>
        requires coder { coder.now ≡ zone.now.parity }
        requires valid { IsValidZone zone.now }
        requires len { length span.now ≡ zone.now.size }
        requires within { size ≤ zone.now.cap }
        requires whole { zone.now.block * (2 * count) ≤ size }
        requires none { ReadsTo zone.now span.now size 0 self.old }
        ensures reads { IfOk result (λ _. ReadsTo zone.now span.now size (2 * count) self.new) }
        ensures wanted { IfOk result (λ _. self.new.states.are_wanted ≡ self.old.states.are_wanted) }
    {
        let mut one = [0u8; 127];
        let mut other = [0u8; 127];
        let parity = zone.parity as usize;
        for pair in 0..count {
            let b = 2 * pair;
            let (first, second) = excess_pair(
                coder,
                span,
                zone,
                b,
                &mut one[..parity],
                &mut other[..parity],
            );
            self.push(coder, &one[..parity], span, zone, b, size, first)?;
            self.push(coder, &other[..parity], span, zone, b + 1, size, second)?;
        }
        Ok(())
    }
}

/// The first `size` data bytes as their blocks read, what these blocks count, and their states if they are wanted.
fn read_bytes(
    alloc: Global,
    coder: &Coder,
    span: &Span,
    zone: &Zone,
    size: u32,
    with_states: bool,
) -> Result<Front, AllocError>
    requires coder { coder.now ≡ zone.now.parity }
    requires valid { IsValidZone zone.now }
    requires len { length span.now ≡ zone.now.size }
    requires within { size ≤ zone.now.cap }
    ensures bytes { IfOk result (λ r. r.bytes.items ≡ bytes_read zone.now span.now size) }
    ensures corrected { IfOk result (λ r. r.counts.corrected ≡ corrected_below zone.now span.now size) }
    ensures bad { IfOk result (λ r. r.counts.bad ≡ bad_below zone.now span.now size) }
    ensures few { IfOk result (λ r. (r.counts.corrected ≤ 255 * size) × (r.counts.bad ≤ size)) }
    ensures states { IfOk result (λ r. with_states ≡ true → r.states.kept.items
        ≡ states_below zone.now span.now size) }
{
    let bytes = Vec::with_capacity(alloc, size as usize)?;
    let counts = Counts {
        corrected: 0,
        bad: 0,
    };
    let count = size.div_ceil(zone.block);
    let states = BlockStates::new(alloc, with_states, count)?;
    let mut front = Front {
        bytes,
        counts,
        states,
    };
    let pairs = size / zone.block / 2;
    front.push_pairs(coder, span, zone, pairs, size)?;
    for b in 2 * pairs..count {
        front.push_read(coder, span, zone, b, size)?;
    }
    Ok(front)
}

/// The log of a ring, what its blocks count, and their states if they are wanted. No other memory is taken.
fn read_log(
    alloc: Global,
    coder: &Coder,
    span: &Span,
    zone: &Zone,
    words: Words,
    with_states: bool,
) -> Result<(Bytes, Counts, Vec<PartState>), AllocError>
    requires coder { coder.now ≡ zone.now.parity }
    requires valid { IsValidZone zone.now }
    requires len { length span.now ≡ zone.now.size }
    requires ring { IsRing words zone.now.cap }
    ensures log { IfOk result (λ r. r.0 ≡ log_read zone.now span.now words) }
    ensures corrected { IfOk result (λ r. r.1.corrected ≡ corrected_below zone.now span.now words.size) }
    ensures bad { IfOk result (λ r. r.1.bad ≡ bad_below zone.now span.now words.size) }
    ensures few { IfOk result (λ r. (r.1.corrected ≤ 255 * words.size) × (r.1.bad ≤ words.size)) }
    ensures states { IfOk result (λ r. with_states ≡ true → r.2.items ≡ states_below zone.now span.now words.size) }
{
    let front = read_bytes(alloc, coder, span, zone, words.size, with_states)?;
    let Front {
        bytes: mut log,
        counts,
        states,
    } = front;
    log.rotate_left(words.start as usize);
    Ok((Bytes::from_vec(log), counts, states.kept))
}

/// The reading of a zone, and how its parts read if that is wanted.
fn read_whole(
    alloc: Global,
    coder: &Coder,
    span: &Span,
    zone: &Zone,
    with_states: bool,
) -> Result<(Reading, ZoneParts), AllocError>
    requires coder { coder.now ≡ zone.now.parity }
    requires valid { IsValidZone zone.now }
    requires size { length span.now ≡ zone.now.size }
    ensures reading { IfOk result (λ r. r.0 ≡ zone_reading zone.now span.now) }
    ensures parts { IfOk result (λ r. with_states ≡ true → r.1 ≡ part_states zone.now span.now) }
{
    let mut fixes: ArrayVec<Fix, 63> = ArrayVec::new();
    let front = read_header(coder, span, zone, &mut fixes);
    let counts = counts_of(front.outcome);
    let header = part_state(front.outcome);
    let words = front.words;
    match state_of(zone, words) {
        State::Found => {
            let (log, more, blocks) = read_log(alloc, coder, span, zone, words, with_states)?;
            let reading = Reading {
                state: State::Found,
                words,
                log,
                corrected: counts.corrected + more.corrected,
                bad: counts.bad + more.bad,
            };
            Ok((reading, ZoneParts { header, blocks }))
        }
        state => {
            let reading = Reading {
                state,
                words,
                log: Bytes::empty(alloc),
                corrected: counts.corrected,
                bad: counts.bad,
            };
            let blocks = Vec::new(alloc);
            Ok((reading, ZoneParts { header, blocks }))
        }
    }
}

/// Reads a zone as a boot does, and stores nothing. The log is the only memory taken. A caller with many zones makes
/// one encoder for those with the same parity.
pub fn read_zone_by(
    alloc: Global,
    coder: &Coder,
    span: &Span,
    zone: &Zone,
) -> Result<Reading, AllocError>
    requires coder { coder.now ≡ zone.now.parity }
    requires valid { IsValidZone zone.now }
    requires size { length span.now ≡ zone.now.size }
    ensures { IfOk result (λ r. r ≡ zone_reading zone.now span.now) }
{
    let (reading, _parts) = read_whole(alloc, coder, span, zone, false)?;
    Ok(reading)
}

/// The same, and how the header and each used block read. Each part is decoded once.
pub fn read_parts_by(
    alloc: Global,
    coder: &Coder,
    span: &Span,
    zone: &Zone,
) -> Result<(Reading, ZoneParts), AllocError>
    requires coder { coder.now ≡ zone.now.parity }
    requires valid { IsValidZone zone.now }
    requires size { length span.now ≡ zone.now.size }
    ensures reading { IfOk result (λ r. r.0 ≡ zone_reading zone.now span.now) }
    ensures parts { IfOk result (λ r. r.1 ≡ part_states zone.now span.now) }
{
    read_whole(alloc, coder, span, zone, true)
}

/// Reads a zone as a boot does, with an encoder of its own.
pub fn read_zone(alloc: Global, span: &Span, zone: &Zone) -> Result<Reading, AllocError>
    requires valid { IsValidZone zone.now }
    requires size { length span.now ≡ zone.now.size }
    ensures { IfOk result (λ r. r ≡ zone_reading zone.now span.now) }
{
    read_zone_by(alloc, &Coder::new(zone), span, zone)
}

/// Reads a zone and its parts, with an encoder of its own.
pub fn read_parts(
    alloc: Global,
    span: &Span,
    zone: &Zone,
) -> Result<(Reading, ZoneParts), AllocError>
    requires valid { IsValidZone zone.now }
    requires size { length span.now ≡ zone.now.size }
    ensures reading { IfOk result (λ r. r.0 ≡ zone_reading zone.now span.now) }
    ensures parts { IfOk result (λ r. r.1 ≡ part_states zone.now span.now) }
{
    read_parts_by(alloc, &Coder::new(zone), span, zone)
}

/// Whether a boot leaves the zone with this reading without erasing it.
pub fn keeps(zone: &Zone, reading: &Reading) -> bool
    ensures { result ≡ keeps_zone zone.now reading.now }
{
    let is_timed = read_line(reading.log.as_slice()).is_some();
    zone_boot::keeps(zone, reading.words, reading.state, is_timed)
}
