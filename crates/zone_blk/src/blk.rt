// A loaded block store.
ghost use Rattle.std.specs.Prelude.{◌≡◌, ℕ, ◌+◌, ◌-◌, ◌^◌, ◌<◌, ◌≤◌, bytes_eq, length, IfOk, IfSome, Err, Some, None};
ghost use Rattle.std.specs.Prelude.{is_some, IsTrue, OnOk};
ghost use Rattle.std.specs.List.{find};
ghost use Rattle.std.specs.Option.{option_map};
ghost use Rattle.outside.specs.Outside.{HasCause, Rose};
ghost use Rattle.blk_spec.specs.Layout.{IsLayout};
ghost use Rattle.blk_spec.specs.Answers.{HasRoom, device, Answers, Loads, KeptUnlessFault};
ghost use Rattle.blk_spec.specs.States.{append_refusal, append_of, appended, dump_refusal, dump_of, dump_pieces_of};
ghost use Rattle.blk_spec.specs.States.{dumped, erase_refusal, erase_of, erased, cut_after as cut_state, names_of};
ghost use Rattle.blk_spec.specs.States.{content_of, time_of, is_listed, zone_of, loaded, load_writes, clearing};
ghost use Rattle.blk_spec.specs.Rings.{empty_words};
ghost use Rattle.blk_spec.specs.Writes.{limited as limited_to};
ghost use Rattle.blk_spec.specs.Reading.{BlkDump};
ghost use Rattle.blk_spec.specs.Names.{is_name as is_same, name_text, dump_name as name_of_dump};
ghost use Rattle.blk_spec.specs.Names.{dump_content as content_of_dump};
ghost use Rattle.blk_spec.specs.Dumps.{counter_for as counter_of, counted as counted_of};
ghost use Rattle.zone_blk.specs.Outcomes.{Ends};
ghost use Rattle.zone_blk.specs.Loading.{ReadEnds};
ghost use Rattle.zone_blk.specs.Answering.{IsContent, IsLoadedState};
ghost use Rattle.blk_spec.specs.declared.BlkFault.TheVariants.{StoreFault};
ghost use Rattle.zone_blk.specs.Fits.{IsZone, IsWithin};
ghost use Rattle.zone_blk.specs.Calls.{RingAnswers, counters_seen};

use crate::appending::append_ring;
use crate::dumping::{DumpHeader, write_dump};
use crate::names::{
    BlkNames, add_name, dump_content, dump_len, dump_names, find_dump, find_time, forget_dump,
    named,
};
use crate::reading::{Dump, greatest_counter, read_dumps, read_ring};
use crate::writing::write_header;
use crate::zones::{dump_zone, ring_zone};
use blk_spec::{BlkCut, BlkFault, BlkLayout, BlkName, BlkRing, BlkTime, BlkWords, BlkZone, Reason};
use outside::{Bytes, Failed, Load, Store};
use std::alloc::{AllocError, Global};
use std::marker::Model;

const EMPTY: BlkWords = BlkWords { size: 0, start: 0 };

/// A ring: its words, and the log that was saved of it.
#[derive(Drop)]
struct Ring {
    words: BlkWords,
    saved: Option<Bytes>,
}

/// How often a panic and an oops were dumped.
#[derive(Clone, Copy)]
struct Counters {
    panics: u32,
    oopses: u32,
}

/// A loaded block store: its rings as they are appended to, and the records that the loading listed.
#[derive(Drop)]
pub struct Blk {
    alloc: Global,
    layout: BlkLayout,
    console: Ring,
    pmsg: Ring,
    dumps: Vec<Dump>,
    cursor: u32,
    counters: Counters,
    cut: BlkCut,
}

impl Model for Blk {
    ghost use Rattle.blk_spec.specs.States.{BlkState};
    ghost use Rattle.zone_blk.specs.Loaded.{IsLoaded};

    ghost Value = { BlkState };

    ghost view = { λ b. record {
      layout = b.layout;
      console = record { words = b.console.words; saved = b.console.saved };
      pmsg = record { words = b.pmsg.words; saved = b.pmsg.saved };
      dumps = b.dumps.items;
      cursor = b.cursor;
      counters = record { panics = b.counters.panics; oopses = b.counters.oopses };
      cut = b.cut;
    } };

    ghost invariant = { λ b. IsLoaded b.layout (record { words = b.console.words; saved = b.console.saved })
        (record { words = b.pmsg.words; saved = b.pmsg.saved })
        b.dumps.items b.cursor };
}

// The counter that a dump with this reason carries.
fn counter_for(reason: Reason, counters: Counters) -> u32
    ensures { result ≡ counter_of reason (counters_seen counters) }
{
    match reason {
        Reason::Panic => counters.panics.saturating_add(1),
        Reason::Oops => counters.oopses.saturating_add(1),
        Reason::Emergency | Reason::Shutdown => 0,
    }
}

// The counters after a dump with this reason.
fn counted(reason: Reason, counters: Counters) -> Counters
    ensures { counters_seen result ≡ counted_of reason (counters_seen counters) }
{
    match reason {
        Reason::Panic => Counters {
            panics: counters.panics.saturating_add(1),
            oopses: counters.oopses,
        },
        Reason::Oops => Counters {
            panics: counters.panics,
            oopses: counters.oopses.saturating_add(1),
        },
        Reason::Emergency | Reason::Shutdown => counters,
    }
}

/// Appends to the ring of a zone, where there is one.
fn append_to<M: Store>(
    store: &mut M,
    cut: &mut BlkCut,
    zone: BlkZone,
    ring: &mut Ring,
    payload: &[u8],
) -> Result<(), BlkFault>
    requires zone { IsZone zone }
    requires within { IsWithin zone ring.old.words }
    requires room { HasRoom (zone.at + zone.size) (M.holds store.old) }
    ensures answer { let a = device (M.holds store.old) (M.writes store.old) (M.read_faults store.old) in
        let b = device (M.holds store.new) (M.writes store.new) (M.read_faults store.new) in
        RingAnswers result zone payload.now ring.old ring.new cut.old cut.new a b }
    ensures within { IsWithin zone ring.new.words }
    ensures room { (n : ℕ) → HasRoom n (M.holds store.old) → HasRoom n (M.holds store.new) }
    ensures later { M.faults store.old ≤ M.faults store.new }
    ensures cause { result ≡ Err StoreFault → Rose (M.faults store.old) (M.faults store.new) }
    ensures kept { KeptUnlessFault result (M.faults store.old) (M.faults store.new) }
{
    if zone.size == 0 {
        return Err(BlkFault::NoZone);
    }
    match append_ring(store, cut, zone, ring.words, payload) {
        Ok(words) => {
            ring.words = words;
            Ok(())
        }
        Err(Failed) => Err(BlkFault::StoreFault),
    }
}

// The content of a saved ring.
fn saved_content(alloc: Global, saved: &Option<Bytes>) -> Result<Bytes, BlkFault>
    ensures { IsContent result saved.now }
{
    match saved {
        Some(log) => Ok(Bytes::copy_of(alloc, log.as_slice())?),
        None => Err(BlkFault::NoRecord),
    }
}

fn saved_len(saved: &Option<Bytes>) -> Option<u64>
    ensures { result ≡ option_map length saved.now }
{
    match saved {
        Some(log) => Some(log.len() as u64),
        None => None,
    }
}

fn named_len(dumps: &[Dump], name: BlkName) -> Option<u64>
    ensures { result ≡ option_map length (option_map content_of_dump
        (find (λ (d : BlkDump). is_same name (name_of_dump d)) dumps.now)) }
{
    match find_dump(dumps, name) {
        Some(dump) => Some(dump_len(dump)),
        None => None,
    }
}

// The content of a dump of this name.
fn named_content(alloc: Global, dumps: &[Dump], name: BlkName) -> Result<Bytes, BlkFault>
    ensures { IsContent result (option_map content_of_dump
        (find (λ (d : BlkDump). is_same name (name_of_dump d)) dumps.now)) }
{
    match find_dump(dumps, name) {
        Some(dump) => Ok(dump_content(alloc, dump)?),
        None => Err(BlkFault::NoRecord),
    }
}

/// Writes the empty header of a ring, where there is one.
fn clear_ring<M: Store>(store: &mut M, cut: &mut BlkCut, zone: BlkZone) -> Result<(), Failed>
    requires zone { IsZone zone }
    requires room { HasRoom (zone.at + zone.size) (M.holds store.old) }
    ensures ends { let a = device (M.holds store.old) (M.writes store.old) (M.read_faults store.old) in
        let b = device (M.holds store.new) (M.writes store.new) (M.read_faults store.new) in
        Ends result (clearing zone) cut.old cut.new a b }
    ensures more { (n : ℕ) → HasRoom n (M.holds store.old) → HasRoom n (M.holds store.new) }
    ensures cause { HasCause (M.faults store.old) (M.faults store.new) result }
{
    if zone.size == 0 {
        return Ok(());
    }
    write_header(store, cut, zone, EMPTY)
}

/// Writes the empty headers of both rings: pmsg, then the console.
fn clear_rings<M: Store>(store: &mut M, cut: &mut BlkCut, layout: BlkLayout) -> Result<(), Failed>
    requires layout { IsLayout layout }
    requires room { HasRoom layout.total (M.holds store.old) }
    ensures ends { let a = device (M.holds store.old) (M.writes store.old) (M.read_faults store.old) in
        let b = device (M.holds store.new) (M.writes store.new) (M.read_faults store.new) in
        Ends result (load_writes layout) cut.old cut.new a b }
    ensures cause { HasCause (M.faults store.old) (M.faults store.new) result }
{
    match clear_ring(store, cut, ring_zone(layout, BlkRing::Pmsg)) {
        Ok(()) => clear_ring(store, cut, ring_zone(layout, BlkRing::Console)),
        Err(Failed) => Err(Failed),
    }
}

/// Reads all zones.
fn read_all<M: Load>(alloc: Global, store: &mut M, layout: BlkLayout) -> Result<Blk, BlkFault>
    requires layout { IsLayout layout }
    requires room { HasRoom layout.total (M.holds store.old) }
    ensures layout { IfOk result (λ b. b.layout ≡ layout) }
    ensures read { IfOk result (λ b. IfSome (M.holds store.old) (λ bs. b ≡ loaded layout bs)) }
    ensures ends { ReadEnds result (M.faults store.old) (M.faults store.new) (M.read_faults store.old)
        (M.read_faults store.new) }
    ensures same { M.holds store.new ≡ M.holds store.old }
    ensures unwritten { M.writes store.new ≡ M.writes store.old }
    ensures later { M.faults store.old ≤ M.faults store.new }
{
    let pmsg = match read_ring(alloc, store, ring_zone(layout, BlkRing::Pmsg)) {
        Ok(saved) => saved,
        Err(fault) => return Err(fault),
    };
    let console = match read_ring(alloc, store, ring_zone(layout, BlkRing::Console)) {
        Ok(saved) => saved,
        Err(fault) => return Err(fault),
    };
    let dumps = match read_dumps(alloc, store, layout) {
        Ok(dumps) => dumps,
        Err(fault) => return Err(fault),
    };
    let counters = Counters {
        panics: greatest_counter(&dumps, 1),
        oopses: greatest_counter(&dumps, 2),
    };
    Ok(Blk {
        alloc,
        layout,
        console: Ring {
            words: EMPTY,
            saved: console,
        },
        pmsg: Ring {
            words: EMPTY,
            saved: pmsg,
        },
        dumps,
        cursor: 0,
        counters,
        cut: BlkCut::Uncut,
    })
}

impl Blk {
    /// Reads all zones, and then erases the rings. All memory is taken before the first write.
    pub fn load<M: Store>(alloc: Global, store: &mut M, layout: BlkLayout) -> Result<Blk, BlkFault>
        requires layout { IsLayout layout }
        requires room { HasRoom layout.total (M.holds store.old) }
        ensures answer { let a = device (M.holds store.old) (M.writes store.old) (M.read_faults store.old) in
            let b = device (M.holds store.new) (M.writes store.new) (M.read_faults store.new) in
            Loads result layout a b }
        ensures unread { OnOk result (M.read_faults store.new ≡ M.read_faults store.old) }
        ensures room { (n : ℕ) → HasRoom n (M.holds store.old) → HasRoom n (M.holds store.new) }
        ensures later { M.faults store.old ≤ M.faults store.new }
        ensures cause { result ≡ Err StoreFault → Rose (M.faults store.old) (M.faults store.new) }
        ensures kept { KeptUnlessFault result (M.faults store.old) (M.faults store.new) }
    {
        let blk = match read_all(alloc, store, layout) {
            Ok(blk) => blk,
            Err(fault) => return Err(fault),
        };
        let mut cut = BlkCut::Uncut;
        match clear_rings(store, &mut cut, layout) {
            Ok(()) => Ok(blk),
            Err(Failed) => Err(BlkFault::StoreFault),
        }
    }

    /// Of all bytes that are written from now on only the first `bytes` reach the store; the rest is dropped and
    /// answered as written, and so is every byte after a dropped one. The bytes of a write that failed count as
    /// written. A later limit replaces an earlier one as long as no byte was dropped.
    pub fn cut_after(&mut self, bytes: u64)
        ensures { self.new ≡ cut_state self.old bytes }
    {
        self.cut = limited(self.cut, bytes);
    }

    /// Appends the payload to a ring; its last bytes where it has more than the ring holds. Takes no memory.
    pub fn append<M: Store>(
        &mut self,
        store: &mut M,
        ring: BlkRing,
        payload: &[u8],
    ) -> Result<(), BlkFault>
        requires { HasRoom self.old.layout.total (M.holds store.old) }
        ensures answer { let a = device (M.holds store.old) (M.writes store.old) (M.read_faults store.old) in
            let b = device (M.holds store.new) (M.writes store.new) (M.read_faults store.new) in
            Answers result (append_refusal self.old ring) (append_of self.old ring payload.now)
            (append_of self.old ring payload.now) (appended self.old ring payload.now)
            self.old self.new a b }
        ensures layout { self.new.layout ≡ self.old.layout }
        ensures room { (n : ℕ) → HasRoom n (M.holds store.old) → HasRoom n (M.holds store.new) }
        ensures later { M.faults store.old ≤ M.faults store.new }
        ensures cause { result ≡ Err StoreFault → Rose (M.faults store.old) (M.faults store.new) }
        ensures kept { KeptUnlessFault result (M.faults store.old) (M.faults store.new) }
    {
        match ring {
            BlkRing::Console => {
                let zone = ring_zone(self.layout, BlkRing::Console);
                append_to(store, &mut self.cut, zone, &mut self.console, payload)
            }
            BlkRing::Pmsg => {
                let zone = ring_zone(self.layout, BlkRing::Pmsg);
                append_to(store, &mut self.cut, zone, &mut self.pmsg, payload)
            }
        }
    }

    /// Writes a dump into the cursor's zone: the front of its body that fits. Takes no memory. It is listed after the
    /// next loading.
    pub fn dump<M: Store>(
        &mut self,
        store: &mut M,
        time: BlkTime,
        packed: bool,
        reason: Reason,
        body: &[u8],
    ) -> Result<(), BlkFault>
        requires secs { time.secs < 2 ^ 63 }
        requires nanos { time.nanos < 1000000000 }
        requires room { HasRoom self.old.layout.total (M.holds store.old) }
        ensures answer { let a = device (M.holds store.old) (M.writes store.old) (M.read_faults store.old) in
            let b = device (M.holds store.new) (M.writes store.new) (M.read_faults store.new) in
            Answers result (dump_refusal self.old) (dump_of self.old time packed reason body.now)
            (dump_pieces_of self.old time packed reason body.now)
            (dumped self.old reason)
            self.old self.new a b }
        ensures layout { self.new.layout ≡ self.old.layout }
        ensures room { (n : ℕ) → HasRoom n (M.holds store.old) → HasRoom n (M.holds store.new) }
        ensures later { M.faults store.old ≤ M.faults store.new }
        ensures cause { result ≡ Err StoreFault → Rose (M.faults store.old) (M.faults store.new) }
        ensures kept { KeptUnlessFault result (M.faults store.old) (M.faults store.new) }
    {
        if self.layout.dumps == 0 {
            return Err(BlkFault::NoZone);
        }
        let zone = dump_zone(self.layout, self.cursor);
        let counter = counter_for(reason, self.counters);
        let header = DumpHeader {
            time,
            packed,
            counter,
            reason,
        };
        match write_dump(store, &mut self.cut, zone, header, body) {
            Ok(()) => {
                self.cursor = (self.cursor + 1) % self.layout.dumps;
                self.counters = counted(reason, self.counters);
                Ok(())
            }
            Err(Failed) => Err(BlkFault::StoreFault),
        }
    }

    /// The names of the listed records: dumps by rising number, console, pmsg.
    pub fn names(&self) -> Result<BlkNames, AllocError>
        ensures { IfOk result (λ names. names ≡ names_of self.now) }
    {
        let mut names = dump_names(self.alloc, &self.dumps)?;
        add_name(&mut names, BlkName::Console, &self.console.saved)?;
        add_name(&mut names, BlkName::Pmsg, &self.pmsg.saved)?;
        Ok(BlkNames::from_vec(names))
    }

    /// The content of a listed record.
    pub fn content(&self, name: BlkName) -> Result<Bytes, BlkFault>
        ensures { IsContent result (content_of self.now name) }
    {
        match name {
            BlkName::Dump { .. } => named_content(self.alloc, &self.dumps, name),
            BlkName::Console => saved_content(self.alloc, &self.console.saved),
            BlkName::Pmsg => saved_content(self.alloc, &self.pmsg.saved),
        }
    }

    /// The length in bytes of the content of a listed record. Takes no memory.
    pub fn content_len(&self, name: BlkName) -> Option<u64>
        ensures { result ≡ option_map length (content_of self.now name) }
    {
        match name {
            BlkName::Dump { .. } => named_len(&self.dumps, name),
            BlkName::Console => saved_len(&self.console.saved),
            BlkName::Pmsg => saved_len(&self.pmsg.saved),
        }
    }

    /// The time of the listed dump of this number.
    pub fn time(&self, index: u32) -> Option<BlkTime>
        ensures { result ≡ time_of self.now index }
    {
        find_time(&self.dumps, index)
    }

    fn lists(&self, name: BlkName) -> bool
        ensures listed { result ≡ is_listed self.now name }
        ensures loaded { IsLoadedState self.now }
    {
        match name {
            BlkName::Dump { .. } => find_dump(&self.dumps, name).is_some(),
            BlkName::Console => self.console.saved.is_some(),
            BlkName::Pmsg => self.pmsg.saved.is_some(),
        }
    }

    /// The listed record whose name has this text. Takes no memory.
    pub fn find(&self, text: &[u8]) -> Option<BlkName>
        ensures { result ≡ find (λ name. bytes_eq (name_text name) text.now) (names_of self.now) }
    {
        // The invariant of a loaded store bounds the numbers of its dumps.
        let _loaded = &self.layout;
        let name = named(text)?;
        if self.lists(name) { Some(name) } else { None }
    }

    fn zone_named(&self, name: BlkName) -> BlkZone
        requires listed { IsTrue (is_listed self.now name) }
        ensures zone { result ≡ zone_of self.now.layout name }
        ensures valid { IsZone result }
        ensures sized { 12 ≤ result.size }
        ensures inside { result.at + result.size ≤ self.now.layout.total }
    {
        match name {
            BlkName::Dump { index, .. } => dump_zone(self.layout, index),
            BlkName::Console => ring_zone(self.layout, BlkRing::Console),
            BlkName::Pmsg => ring_zone(self.layout, BlkRing::Pmsg),
        }
    }

    fn forget(&mut self, name: BlkName)
        ensures { self.new ≡ erased self.old name }
    {
        match name {
            BlkName::Dump { .. } => forget_dump(&mut self.dumps, name),
            BlkName::Console => empty_ring(&mut self.console),
            BlkName::Pmsg => empty_ring(&mut self.pmsg),
        }
    }

    /// Erases a listed record: its zone's header becomes empty, and it is listed no more. A ring is erased as it now
    /// stands, a dump's zone with what was written there since. Takes no memory.
    pub fn erase<M: Store>(&mut self, store: &mut M, name: BlkName) -> Result<(), BlkFault>
        requires { HasRoom self.old.layout.total (M.holds store.old) }
        ensures answer { let a = device (M.holds store.old) (M.writes store.old) (M.read_faults store.old) in
            let b = device (M.holds store.new) (M.writes store.new) (M.read_faults store.new) in
            Answers result (erase_refusal self.old name) (erase_of self.old name) (erase_of self.old name)
            (erased self.old name)
            self.old self.new a b }
        ensures layout { self.new.layout ≡ self.old.layout }
        ensures room { (n : ℕ) → HasRoom n (M.holds store.old) → HasRoom n (M.holds store.new) }
        ensures later { M.faults store.old ≤ M.faults store.new }
        ensures cause { result ≡ Err StoreFault → Rose (M.faults store.old) (M.faults store.new) }
        ensures kept { KeptUnlessFault result (M.faults store.old) (M.faults store.new) }
    {
        if !self.lists(name) {
            return Err(BlkFault::NoRecord);
        }
        let zone = self.zone_named(name);
        match write_header(store, &mut self.cut, zone, EMPTY) {
            Ok(()) => {
                self.forget(name);
                Ok(())
            }
            Err(Failed) => Err(BlkFault::StoreFault),
        }
    }
}

fn limited(cut: BlkCut, bytes: u64) -> BlkCut
    ensures { result ≡ limited_to bytes cut }
{
    match cut {
        BlkCut::Dropped => BlkCut::Dropped,
        BlkCut::Uncut | BlkCut::After(_) => BlkCut::After(bytes),
    }
}

fn empty_ring(ring: &mut Ring)
    ensures words { ring.new.words ≡ empty_words }
    ensures saved { ring.new.saved ≡ None }
{
    ring.words = EMPTY;
    ring.saved = None;
}
