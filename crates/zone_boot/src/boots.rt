// A boot between its stores.
ghost use Rattle.std.specs.Prelude.{◌≡◌, ◌+◌, ◌-◌, ◌*◌, ◌/◌, ◌≤◌, ◌<◌, ◌^◌, ◌↔◌, ◌++◌, List, ℕ, [], length, take, drop};
ghost use Rattle.std.specs.Prelude.{slice_range, sum_by, if◌then◌else◌, IsTrue};
ghost use Rattle.zone_spec.specs.Zones.{IsValidZone};
ghost use Rattle.zone_spec.specs.Stores.{after_stores};
ghost use Rattle.zone_spec.specs.Boot.{boot_fixes, boot_stores, signing, keeps as keeps_zone};
ghost use Rattle.zone_spec.specs.Reading.{zone_reading, state_of as state_for};
ghost use Rattle.zone_spec.specs.Stages.{stage_count};
ghost use Rattle.zone_spec.specs.Calls.{erase_stages};
ghost use Rattle.std.proofs.Common.{w32};
ghost use Rattle.rs_encode.specs.Lanes.{IsLent};
ghost use Rattle.zone_spec.specs.Parts.{Header as HeaderPart, Block};
ghost use Rattle.zone_spec.specs.PartReadings.{part_reading, words_read};
ghost use Rattle.zone_boot.specs.Handed.{handed, handed_len, IsPlain};

use crate::deciding::{Erasure, block_count, erasure_of, keeps_in_place};
use crate::handing::BootStore;
use crate::summaries::state_of;
use arrayvec::ArrayVec;
use prz_ecc::{Fix, bytes_of, header_parity, read_block, read_header};
use zone_spec::{State, Words, Zone};

/// Where a boot is: it corrects the header, and the blocks that hold the log; then it may store the signature, the
/// start word, the size word and the header's parity.
#[derive(Clone, Copy, Debug, PartialEq, Eq)]
pub enum Phase {
    Header,
    Blocks,
    Signature,
    Start,
    Size,
    Parity,
    Finished,
}

/// A boot of a zone. It is numbers alone: the zone's bytes are lent to each call. `made` is the number of stores that
/// were handed out, `count` that of the blocks that it corrects, `block` the one that it has come to, and `within` how
/// many bytes of header or block it has compared.
#[derive(Clone, Copy, Debug, PartialEq, Eq)]
pub struct Boot {
    pub zone: Zone,
    pub made: u64,
    pub phase: Phase,
    pub erasure: Erasure,
    pub block: u32,
    pub within: u32,
    pub count: u32,
}

fn bytes_at(image: &[u8], at: u32, len: usize) -> &[u8]
    requires { at + len ≤ length image.now }
    ensures { result.now ≡ slice_range image.now at (at + len) }
{
    &image[at as usize..at as usize + len]
}

impl Boot {
    ghost use Rattle.zone_boot.specs.Booting.{left_of, IsKept, IsBooting, Gives, KeepsReadings};
    ghost use Rattle.zone_boot.specs.declared.boots.Phase.TheVariants.{Header, Blocks, Parity, Finished};
    ghost use Rattle.zone_boot.specs.Left.{stages_of};
    ghost use Rattle.zone_boot.specs.declared.handing.Given.TheVariants.{Nothing};
    ghost use Rattle.zone_spec.specs.declared.State.TheVariants.{Found};

    /// A boot of the zone before its first store.
    pub fn begin(table: &[u128], image: &[u8], zone: &Zone) -> Boot
        requires table { IsLent zone.now.parity table.now }
        requires valid { IsValidZone zone.now }
        requires size { length image.now ≡ zone.now.size }
        ensures zone { result.zone ≡ zone.now }
        ensures made { result.made ≡ 0 }
        ensures kept { IsKept result }
        ensures stands { IsBooting result image.now image.now }
    {
        let mut fixes: ArrayVec<Fix, 63> = ArrayVec::new();
        let header = read_header(table, image, zone, &mut fixes);
        let words = header.words;
        let state = state_of(zone, words);
        Boot::of_reading(
            zone,
            words,
            state,
            keeps_in_place(table, image, zone, words, state),
        )
    }

    /// A boot before its first store, of a zone whose header reads as these words.
    pub fn of_reading(zone: &Zone, words: Words, state: State, is_kept: bool) -> Boot
        requires valid { IsValidZone zone.now }
        requires state { state ≡ state_for zone.now words }
        ensures zone { result.zone ≡ zone.now }
        ensures made { result.made ≡ 0 }
        ensures kept { IsKept result }
        ensures erasure { stages_of zone.now result.erasure
            ≡ (if is_kept then [] else signing zone.now state ++ erase_stages) }
        ensures stands { (image : List ℕ) → words ≡ words_read zone.now image
            → is_kept ≡ keeps_zone zone.now (zone_reading zone.now image) → IsBooting result image image }
        ensures found { state ≡ Found → result.count ≡ (words.size + zone.now.block - 1) / zone.now.block }
        ensures none { (state ≡ Found → ⊥) → result.count ≡ 0 }
        ensures phase { result.phase ≡ Header }
    {
        Boot {
            zone: *zone,
            made: 0,
            phase: Phase::Header,
            erasure: erasure_of(zone, state, is_kept),
            block: 0,
            within: 0,
            count: block_count(zone, words, state),
        }
    }

    /// A boot of a zone without corrections, in this state, before its first store.
    pub fn of_clean(zone: &Zone, state: State, is_kept: bool) -> Boot
        requires valid { IsValidZone zone.now }
        ensures zone { result.zone ≡ zone.now }
        ensures made { result.made ≡ 0 }
        ensures kept { IsKept result }
        ensures erasure { stages_of zone.now result.erasure
            ≡ (if is_kept then [] else signing zone.now state ++ erase_stages) }
        ensures stands { (image : List ℕ) → state ≡ (zone_reading zone.now image).state
            → is_kept ≡ keeps_zone zone.now (zone_reading zone.now image)
            → boot_fixes zone.now image ≡ [] → IsBooting result image image }
        ensures count { result.count ≡ 0 }
        ensures phase { result.phase ≡ Blocks }
    {
        Boot {
            zone: *zone,
            made: 0,
            phase: Phase::Blocks,
            erasure: erasure_of(zone, state, is_kept),
            block: 0,
            within: 0,
            count: 0,
        }
    }

    /// Tests the numbers of a boot in a valid zone: that the blocks which it corrects have data in the zone, that
    /// `within` is no more than the header or a block has, in the phase that corrects it, and `block` no more than
    /// `count`, and that `made` is no more than the bytes and words that were passed until there. A boot that is kept
    /// hands out no store outside the zone, whatever the zone's bytes are.
    pub fn is_kept(&self) -> bool
        requires { IsValidZone self.now.zone }
        ensures { IsTrue result ↔ IsKept self.now }
    {
        let zone = &self.zone;
        if self.count > (zone.cap + zone.block - 1) / zone.block {
            return false;
        }
        let base = u64::from(zone.cap + 2 * zone.block);
        match self.phase {
            Phase::Header => self.within <= 12 && self.made <= u64::from(self.within),
            Phase::Blocks => {
                self.block <= self.count
                    && self.within <= zone.block
                    && self.made <= u64::from(12 + zone.block * self.block + self.within)
            }
            Phase::Signature => self.made <= 12 + base,
            Phase::Start => self.made <= 13 + base,
            Phase::Size => self.made <= 14 + base,
            Phase::Parity => self.made <= 15 + base,
            Phase::Finished => self.made <= 15 + base + u64::from(zone.parity),
        }
    }

    /// Hands out the next stores. `image` is the zone's bytes after all stores that were handed out before: the caller
    /// makes those of `out` before it asks again. With any other bytes of this length too the boot comes to its end.
    pub fn next(&mut self, table: &[u128], image: &[u8], out: &mut BootStore)
        requires table { IsLent self.old.zone.parity table.now }
        requires valid { IsValidZone self.old.zone }
        requires kept { IsKept self.old }
        requires size { length image.now ≡ self.old.zone.size }
        ensures zone { self.new.zone ≡ self.old.zone }
        ensures kept { IsKept self.new }
        ensures made { self.new.made ≡ self.old.made + length (handed out.new) }
        ensures inside { out.new.place + handed_len out.new ≤ self.old.zone.size }
        ensures stands { (before : List ℕ) → IsBooting self.old before image.now
            → IsBooting self.new before (after_stores image.now (handed out.new)) }
        ensures handed { (before : List ℕ) → IsBooting self.old before image.now → handed out.new
            ≡ take (length (handed out.new)) (drop self.old.made (boot_stores self.old.zone before)) }
        ensures some { (before : List ℕ) → IsBooting self.old before image.now
            → self.old.made < length (boot_stores self.old.zone before) → 0 < length (handed out.new) }
        ensures finished { (before : List ℕ) → IsBooting self.old before image.now
            → (out.new.given ≡ Nothing) ↔ (self.old.made ≡ length (boot_stores self.old.zone before)) }
        ensures left { left_of self.old image.now
            ≡ handed out.new ++ left_of self.new (after_stores image.now (handed out.new)) }
        ensures plain { IsPlain out.new }
        ensures last { handed out.new ≡ [] → left_of self.old image.now ≡ [] }
        ensures ends { handed out.new ≡ [] → self.new.phase ≡ Finished }
    {
        self.go_on(table, image, out);
    }

    fn go_on(&mut self, table: &[u128], image: &[u8], out: &mut BootStore)
        requires table { IsLent self.old.zone.parity table.now }
        requires valid { IsValidZone self.old.zone }
        requires kept { IsKept self.old }
        requires size { length image.now ≡ self.old.zone.size }
        ensures gives { Gives self.old image.now self.new out.new }
        ensures some { handed out.new ≡ [] → left_of self.old image.now ≡ [] }
        ensures ends { handed out.new ≡ [] → self.new.phase ≡ Finished }
    {
        match self.phase {
            Phase::Header => self.correct_header(table, image, out),
            Phase::Blocks => self.correct_blocks(table, image, out),
            _ => self.erase(table, image, out),
        }
    }

    /// Hands out the next run of the header's corrections, or nothing and goes on to the blocks. `reads` are the twelve
    /// bytes that the header reads.
    pub fn fix_header(&mut self, image: &[u8], reads: &[u8], out: &mut BootStore)
        requires valid { IsValidZone self.old.zone }
        requires kept { IsKept self.old }
        requires size { length image.now ≡ self.old.zone.size }
        requires phase { self.old.phase ≡ Header }
        requires reads { reads.now ≡ (part_reading self.old.zone image.now HeaderPart).bytes }
        ensures gives { Gives self.old image.now self.new out.new }
        ensures keeps { KeepsReadings self.old.zone image.now (handed out.new) }
        ensures erasure { self.new.erasure ≡ self.old.erasure }
        ensures next { handed out.new ≡ [] → self.new.phase ≡ Blocks }
        ensures phase { (handed out.new ≡ [] → ⊥) → self.new.phase ≡ Header }
        ensures count { self.new.count ≡ self.old.count }
    {
        let stands = bytes_at(image, 0, 12);
        let end = out.set_run(0, stands, reads, self.within);
        if out.is_empty() {
            self.phase = Phase::Blocks;
            self.block = 0;
            self.within = 0;
        } else {
            self.made += out.count();
            self.within = end;
        }
    }

    /// Hands out the next run of the corrections of the block that it has come to, or nothing and goes on to the next
    /// block. `reads` are the bytes that the block reads.
    pub fn fix_block(&mut self, image: &[u8], reads: &[u8], out: &mut BootStore)
        requires valid { IsValidZone self.old.zone }
        requires kept { IsKept self.old }
        requires size { length image.now ≡ self.old.zone.size }
        requires phase { self.old.phase ≡ Blocks }
        requires block { self.old.block < self.old.count }
        requires reads { reads.now ≡ (part_reading self.old.zone image.now (Block self.old.block)).bytes }
        ensures gives { Gives self.old image.now self.new out.new }
        ensures keeps { KeepsReadings self.old.zone image.now (handed out.new) }
        ensures erasure { self.new.erasure ≡ self.old.erasure }
        ensures phase { self.new.phase ≡ Blocks }
        ensures count { self.new.count ≡ self.old.count }
        ensures rising { self.old.block ≤ self.new.block }
        ensures next { handed out.new ≡ [] → self.new.block ≡ self.old.block + 1 }
    {
        let zone = self.zone;
        let at = 12 + zone.block * self.block;
        let stands = bytes_at(image, at, reads.len());
        let from = self.within.min(reads.len() as u32);
        let end = out.set_run(at, stands, reads, from);
        if out.is_empty() {
            self.block += 1;
            self.within = 0;
        } else {
            self.made += out.count();
            self.within = end;
        }
    }

    /// Decodes the header and corrects it, and then what follows.
    fn correct_header(&mut self, table: &[u128], image: &[u8], out: &mut BootStore)
        requires table { IsLent self.old.zone.parity table.now }
        requires valid { IsValidZone self.old.zone }
        requires kept { IsKept self.old }
        requires size { length image.now ≡ self.old.zone.size }
        requires phase { self.old.phase ≡ Header }
        ensures gives { Gives self.old image.now self.new out.new }
        ensures some { handed out.new ≡ [] → left_of self.old image.now ≡ [] }
        ensures ends { handed out.new ≡ [] → self.new.phase ≡ Finished }
    {
        let mut fixes: ArrayVec<Fix, 63> = ArrayVec::new();
        let header = read_header(table, image, &self.zone, &mut fixes);
        let reads = bytes_of(self.zone.byte_order, header.words);
        self.fix_header(image, reads.as_slice(), out);
        if out.is_empty() {
            self.correct_blocks(table, image, out);
        }
    }

    /// Decodes the block that it has come to, and corrects it. It is not inlined, and takes turns on the stack with the
    /// parity.
    #[inline(never)]
    fn correct_block(&mut self, table: &[u128], image: &[u8], out: &mut BootStore)
        requires table { IsLent self.old.zone.parity table.now }
        requires valid { IsValidZone self.old.zone }
        requires kept { IsKept self.old }
        requires size { length image.now ≡ self.old.zone.size }
        requires phase { self.old.phase ≡ Blocks }
        requires block { self.old.block < self.old.count }
        ensures gives { Gives self.old image.now self.new out.new }
        ensures phase { self.new.phase ≡ Blocks }
        ensures count { self.new.count ≡ self.old.count }
        ensures next { handed out.new ≡ [] → self.new.block ≡ self.old.block + 1 }
    {
        let zone = self.zone;
        let mut block: ArrayVec<u8, 255> = ArrayVec::new();
        let mut fixes: ArrayVec<Fix, 63> = ArrayVec::new();
        let _outcome = read_block(table, image, &zone, self.block, &mut block, &mut fixes);
        self.fix_block(image, block.as_slice(), out);
    }

    /// Corrects the blocks, and then erases.
    fn correct_blocks(&mut self, table: &[u128], image: &[u8], out: &mut BootStore)
        requires table { IsLent self.old.zone.parity table.now }
        requires valid { IsValidZone self.old.zone }
        requires kept { IsKept self.old }
        requires size { length image.now ≡ self.old.zone.size }
        requires phase { self.old.phase ≡ Blocks }
        ensures gives { Gives self.old image.now self.new out.new }
        ensures some { handed out.new ≡ [] → left_of self.old image.now ≡ [] }
        ensures ends { handed out.new ≡ [] → self.new.phase ≡ Finished }
    {
        while self.block < self.count {
            self.correct_block(table, image, out);
            if !out.is_empty() {
                return;
            }
        }
        self.finish(table, image, out);
    }

    /// Hands out the next store of the erasure, or the header's parity, once no correction is left.
    pub fn finish(&mut self, table: &[u128], image: &[u8], out: &mut BootStore)
        requires table { IsLent self.old.zone.parity table.now }
        requires valid { IsValidZone self.old.zone }
        requires kept { IsKept self.old }
        requires size { length image.now ≡ self.old.zone.size }
        requires not_header { self.old.phase ≡ Header → ⊥ }
        requires done { self.old.phase ≡ Blocks → self.old.count ≤ self.old.block }
        ensures gives { Gives self.old image.now self.new out.new }
        ensures some { handed out.new ≡ [] → left_of self.old image.now ≡ [] }
        ensures ends { handed out.new ≡ [] → self.new.phase ≡ Finished }
        ensures erasure { self.new.erasure ≡ self.old.erasure }
        ensures count { self.new.count ≡ self.old.count }
        ensures not_header { self.new.phase ≡ Header → ⊥ }
        ensures not_blocks { self.new.phase ≡ Blocks → ⊥ }
    {
        match self.phase {
            Phase::Blocks => {
                self.enter_erasure();
                self.erase(table, image, out);
            }
            _ => self.erase(table, image, out),
        }
    }

    /// Whether the boot is at its end. A boot without stores comes there by its first answer, and not before.
    pub fn is_finished(&self) -> bool
        ensures { IsTrue result ↔ (self.now.phase ≡ Finished) }
    {
        matches!(self.phase, Phase::Finished)
    }

    /// How many stores the erasure has.
    pub fn erasure_len(&self) -> u64
        ensures { result ≡ sum_by (stage_count self.now.zone) (stages_of self.now.zone self.now.erasure) }
    {
        match self.erasure {
            Erasure::Kept => 0,
            Erasure::Erased => 2 + u64::from(self.zone.parity),
            Erasure::Signed => 3 + u64::from(self.zone.parity),
        }
    }

    /// Goes on from the corrections, all of which are made, to the erasure.
    fn enter_erasure(&mut self)
        requires kept { IsKept self.old }
        requires phase { self.old.phase ≡ Blocks }
        requires done { self.old.count ≤ self.old.block }
        ensures left { (image : List ℕ) → left_of self.new image ≡ left_of self.old image }
        ensures zone { self.new.zone ≡ self.old.zone }
        ensures made { self.new.made ≡ self.old.made }
        ensures kept { IsKept self.new }
        ensures erasure { self.new.erasure ≡ self.old.erasure }
        ensures count { self.new.count ≡ self.old.count }
        ensures not_header { self.new.phase ≡ Header → ⊥ }
        ensures not_blocks { self.new.phase ≡ Blocks → ⊥ }
    {
        match self.erasure {
            Erasure::Kept => self.phase = Phase::Finished,
            Erasure::Erased => self.phase = Phase::Start,
            Erasure::Signed => self.phase = Phase::Signature,
        }
    }

    /// Hands out the next store of the erasure, or the header's parity.
    fn erase(&mut self, table: &[u128], image: &[u8], out: &mut BootStore)
        requires table { IsLent self.old.zone.parity table.now }
        requires valid { IsValidZone self.old.zone }
        requires kept { IsKept self.old }
        requires size { length image.now ≡ self.old.zone.size }
        requires not_header { self.old.phase ≡ Header → ⊥ }
        requires not_blocks { self.old.phase ≡ Blocks → ⊥ }
        ensures gives { Gives self.old image.now self.new out.new }
        ensures some { handed out.new ≡ [] → left_of self.old image.now ≡ [] }
        ensures ends { handed out.new ≡ [] → self.new.phase ≡ Finished }
        ensures erasure { self.new.erasure ≡ self.old.erasure }
        ensures count { self.new.count ≡ self.old.count }
        ensures not_header { self.new.phase ≡ Header → ⊥ }
        ensures not_blocks { self.new.phase ≡ Blocks → ⊥ }
    {
        match self.phase {
            Phase::Signature => {
                out.set_word(self.zone.byte_order, 0, self.zone.sig);
                self.phase = Phase::Start;
                self.made += 1;
            }
            Phase::Start => {
                out.set_word(self.zone.byte_order, 4, 0);
                self.phase = Phase::Size;
                self.made += 1;
            }
            Phase::Size => {
                out.set_word(self.zone.byte_order, 8, 0);
                self.phase = Phase::Parity;
                self.made += 1;
            }
            Phase::Parity => self.give_parity(table, image, out),
            _ => out.set_nothing(),
        }
    }

    #[inline(never)]
    fn give_parity(&mut self, table: &[u128], image: &[u8], out: &mut BootStore)
        requires table { IsLent self.old.zone.parity table.now }
        requires valid { IsValidZone self.old.zone }
        requires kept { IsKept self.old }
        requires size { length image.now ≡ self.old.zone.size }
        requires phase { self.old.phase ≡ Parity }
        ensures gives { Gives self.old image.now self.new out.new }
        ensures some { handed out.new ≡ [] → left_of self.old image.now ≡ [] }
        ensures phase { self.new.phase ≡ Finished }
        ensures erasure { self.new.erasure ≡ self.old.erasure }
        ensures count { self.new.count ≡ self.old.count }
    {
        let mut parity: ArrayVec<u8, 127> = ArrayVec::new();
        header_parity(table, image, &self.zone, &mut parity);
        let at = 12 + self.zone.cap + self.zone.blocks * self.zone.parity;
        out.set_bytes(at, parity.as_slice());
        self.phase = Phase::Finished;
        self.made += out.count();
    }
}
