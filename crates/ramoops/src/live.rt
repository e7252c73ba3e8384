// The machine while it is live.
ghost use Rattle.std.specs.Prelude.{◌≡◌, ◌<◌, ℕ, true, false, List, [], map, ◌≤◌, ◌^◌, Some, None, length, slice_get};
ghost use Rattle.std.specs.Prelude.{is_some, ◌||◌, ◌+◌, Ok, Err, IfOk, IfErr, IfSome, OnOk, OnErr, ◌↔◌};
ghost use Rattle.zone_spec.specs.Layouts.{zone_place};
ghost use Rattle.ramoops_layout.specs.Laid.{zones_of, NamesDiffer};
ghost use Rattle.machine_spec.specs.States.{LiveState};
ghost use Rattle.machine_spec.specs.LiveCalls.{asked_name, begin as begins, step as steps, finish as finishes};
ghost use Rattle.machine_spec.specs.LiveCalls.{make as makes};
ghost use Rattle.ramoops.specs.Asks.{ask_seen, CanBeAsked};
ghost use Rattle.zone_spec.specs.Records.{is_of};
ghost use Rattle.zone_spec.specs.declared.Kind.TheVariants.{Dump as DumpKind};
ghost use Rattle.ramoops.specs.Places.{ring_at, name_of, place_asked, dump_flies, dump_flight, dump_flights, barred};
ghost use Rattle.ramoops.specs.Places.{flies_at, flies_in};
ghost use Rattle.std.specs.Option.{option_map};
ghost use Rattle.machine_spec.specs.Zones.{dump_zones};
ghost use Rattle.machine_spec.specs.LiveZones.{Target, target};
ghost use Rattle.ramoops.specs.Storing.{is_next, is_last_of_dump, stores_left_of};
ghost use Rattle.machine_spec.specs.ZoneCalls.{stores_left, finished};
ghost use Rattle.ramoops.specs.Cursors.{cursor_at, cursor_after, IsTurning};
ghost use Rattle.zone_spec.specs.declared.Zone.{Zone as AZone};
ghost use Rattle.machine_spec.specs.Stop.{stopped as stopped_state, live_image};
ghost use Rattle.std.specs.Vec.{vec_capacity};
ghost use Rattle.ramoops.specs.Stopped.{stop_zone};
ghost use Rattle.ramoops.specs.OffSeen.{StandsOff};
ghost use Rattle.ramoops.specs.Running.{IsRunning};
ghost use Rattle.zone_spec.specs.Calls.{call_stores};
ghost use Rattle.machine_spec.specs.LiveCalls.{call_of, asked_zone};
ghost use Rattle.ramoops.specs.Made.{MakesStores, MadeAt, next_stores, left_stores};
ghost use Rattle.ramoops.specs.LiveSeen.{StandsLive, Leaves, ChangesZone, StoresNext, IsLeftAt, RingOf};

use crate::coders::Coders;
use crate::known::KnownZone;
use crate::zones::{HeldZone, Stored, advance, start};
use crate::{Ask, Off, Refused, Told};
use dump_records::Cursor;
use outside::Bytes;
use prz_region::Spans;
use prz_write::Step;
use ramoops_layout::types::Layout;
use std::alloc::Global;
use std::marker::Model;
use zone_spec::{CallKind, Kind, Refusal, Zone, ZoneName};

/// A live store: calls are begun in its zones, and made one store at a time in any order.
#[derive(Drop)]
pub struct Live {
    pub(crate) alloc: Global,
    pub(crate) layout: Layout,
    pub(crate) spans: Spans,
    pub(crate) zones: Vec<HeldZone>,
    pub(crate) cursor: Option<Cursor>,
    // How many dump zones have a flight.
    pub(crate) flying_dumps: usize,
    pub(crate) coders: Coders,
    // Room for what a stop tells of the zones, so that a stop takes no memory.
    pub(crate) stopped: Vec<KnownZone>,
}

impl Model for Live {
    ghost use Rattle.ramoops_layout.specs.Laid.{params_of, zones_of};
    ghost use Rattle.ramoops.specs.LiveSeen.{LiveSeen};

    ghost Value = { LiveSeen };

    ghost use Rattle.ramoops.specs.Cursors.{cursor_at, IsTurning};
    ghost use Rattle.ramoops.specs.Running.{IsRunning};
    ghost use Rattle.ramoops.specs.Stopped.{HasRoom};
    ghost use Rattle.ramoops.specs.Places.{dump_flights};
    ghost use Rattle.std.specs.Prelude.{◌≡◌};

    ghost view = { λ l. record {
      layout = zones_of l.layout;
      mem = (params_of l.layout).mem;
      spans = l.spans;
      zones = l.zones.items;
      cursor = cursor_at l.cursor;
    } };

    ghost invariant = { λ l. IsRunning (record {
      layout = zones_of l.layout;
      mem = (params_of l.layout).mem;
      spans = l.spans;
      zones = l.zones.items;
      cursor = cursor_at l.cursor;
    })
        × IsTurning (zones_of l.layout) l.cursor × HasRoom (zones_of l.layout) l.stopped
        × (l.flying_dumps ≡ dump_flights (zones_of l.layout) l.zones.items) };
}

// The place of a console, ftrace or pmsg zone.
fn ring_place(layout: &Layout, name: ZoneName) -> Option<u32>
    ensures { result ≡ ring_at (zones_of layout.now) (zone_place (zones_of layout.now) name) }
{
    let i = layout.find(name)?;
    match layout.zones()[i as usize].name.kind {
        Kind::Dump => None,
        Kind::Console | Kind::Ftrace | Kind::Pmsg => Some(i),
    }
}

// How many dump zones have a flight.
pub(crate) fn count_dump_flights(zones: &[Zone], held: &[HeldZone]) -> usize
    ensures { result ≡ dump_flights zones.now held.now }
{
    zones
        .iter()
        .zip(held)
        .filter(|(zone, held)| is_of_dump(zone) && held.flight.is_some())
        .count()
}

fn is_of_dump(zone: &Zone) -> bool
    ensures { result ≡ is_of DumpKind zone.now.name.kind }
{
    match zone.name.kind {
        Kind::Dump => true,
        Kind::Console | Kind::Ftrace | Kind::Pmsg => false,
    }
}

// A cursor at the first dump zone, if there is one.
pub(crate) fn first_dump(zones: &[Zone]) -> Option<Cursor>
    requires { length zones.now < 2 ^ 32 }
    ensures turning { IsTurning zones.now result }
    ensures first { cursor_at result ≡ 0 }
{
    match zones.iter().filter(|zone| is_of_dump(zone)).count() {
        0 => None,
        count => Some(Cursor::new(count as u32)),
    }
}

// The dump zone that the next dump goes to.
fn next_dump(cursor: &Option<Cursor>) -> u32
    ensures { result ≡ cursor_at cursor.now }
{
    match cursor {
        Some(cursor) => cursor.at(),
        None => 0,
    }
}

// Goes to the next dump zone after a dump's last store.
fn turn(cursor: &mut Option<Cursor>, stored: Option<Stored>)
    ensures { (layout : List Zone) → IsTurning layout cursor.old
        → (is_last_of_dump stored ≡ true → 0 < dump_zones layout)
        → (cursor_at cursor.new ≡ cursor_after layout stored (cursor_at cursor.old)) × IsTurning layout cursor.new }
{
    if let Some(Stored::Last(CallKind::Dump)) = stored {
        if let Some(cursor) = cursor {
            cursor.advance();
        }
    }
}

// One dump zone, if the zone is one and has a flight.
pub(crate) fn dump_flight(zone: &Zone, flies: bool) -> usize
    ensures { result ≡ dump_flight zone.now flies }
{
    if is_of_dump(zone) && flies { 1 } else { 0 }
}

// How many dump zones have a flight after a store in the zone, with `flying` before it.
fn still_flying(flying: usize, zone: &Zone, stored: Option<Stored>) -> usize
    requires { dump_flight zone.now (is_some stored) ≤ flying }
    ensures { result + dump_flight zone.now (is_some stored) ≡ flying + dump_flight zone.now (is_next stored) }
{
    match stored {
        Some(Stored::Last(_)) => flying - dump_flight(zone, true),
        Some(Stored::Next) => flying,
        None => flying,
    }
}

// What is known of the zones after a stop, put where there is room for it.
fn stop_all(zones: Vec<HeldZone>, mut stopped: Vec<KnownZone>) -> Vec<KnownZone>
    requires none { stopped.items ≡ [] }
    requires room { length zones.items ≤ vec_capacity stopped }
    ensures { result.items ≡ map stop_zone zones.items }
{
    for zone in zones {
        stopped.push_reserved(zone.stopped());
    }
    stopped
}

fn stores_left(held: &HeldZone) -> u64
    ensures { result ≡ stores_left_of held.now.flight }
{
    match &held.flight {
        Some(flight) => flight.left(),
        None => 0,
    }
}

impl Live {
    // The name of the zone that the call goes to.
    fn name_asked(&self, ask: &Ask) -> ZoneName
        ensures { result ≡ name_of self.now.cursor (ask_seen ask.now) }
    {
        match ask {
            Ask::Append(name, _) | Ask::Erase(name) => *name,
            Ask::Dump(_, _, _) => ZoneName {
                kind: Kind::Dump,
                index: next_dump(&self.cursor),
            },
        }
    }

    // Its place.
    fn place_asked(&self, ask: &Ask) -> Option<u32>
        ensures place { result ≡ place_asked self.now.layout self.now.cursor (ask_seen ask.now) }
        ensures within { IfSome result (λ i. (i < length self.now.layout) × (i < length self.now.zones)) }
    {
        let name = self.name_asked(ask);
        match ask {
            Ask::Append(_, _) => ring_place(&self.layout, name),
            Ask::Erase(_) | Ask::Dump(_, _, _) => self.layout.find(name),
        }
    }

    // Tells whether a flight stands in a dump zone.
    fn dump_flies(&self) -> bool
        ensures { result ≡ dump_flies self.now.layout self.now.zones }
    {
        self.flying_dumps > 0
    }

    // Tells whether a flight is in the call's way, in zone `i` or, for a dump, in a dump zone.
    fn is_busy(&self, i: u32, ask: &Ask) -> bool
        requires { i < length self.now.zones }
        ensures { result ≡ (barred self.now.layout self.now.zones (ask_seen ask.now)
            || flies_at (slice_get self.now.zones i)) }
    {
        let is_barred = match ask {
            Ask::Dump(_, _, _) => self.dump_flies(),
            Ask::Append(_, _) | Ask::Erase(_) => false,
        };
        is_barred || self.zones[i as usize].flight.is_some()
    }

    // Begins the call in zone `i`, where nothing is in its way.
    fn start(&mut self, i: u32, ask: Ask)
        requires asked { CanBeAsked ask }
        requires place { place_asked self.old.layout self.old.cursor (ask_seen ask) ≡ Some i }
        requires within { i < length self.old.layout }
        requires free { (barred self.old.layout self.old.zones (ask_seen ask)
            || flies_at (slice_get self.old.zones i)) ≡ false }
        ensures layout { self.new.layout ≡ self.old.layout }
        ensures begun { (layout : List Zone) (mem : ℕ) (s : LiveState) → StandsLive layout mem self.old s
            → Leaves layout mem (begins layout s (ask_seen ask)) self.new }
        ensures stores { self.new.spans ≡ self.old.spans }
    {
        ask.check();
        let zone = self.layout.zones()[i as usize];
        let span = &self.spans.all()[i as usize];
        let _len = span.len();
        let flies = start(zone, span, &mut self.zones[i as usize], ask.into_call());
        self.flying_dumps += dump_flight(&zone, flies);
    }

    /// The zones of the layout, in the order in which they lie.
    pub fn zones(&self) -> &[Zone]
        ensures value { result.now ≡ self.now.layout }
        ensures names { NamesDiffer result.now }
    {
        self.layout.zones()
    }

    // Begins a call, and tells the place of its zone.
    fn begin_at(&mut self, ask: Ask) -> Result<u32, Refused>
        requires { CanBeAsked ask }
        ensures place { IfOk result (λ i. (place_asked self.old.layout self.old.cursor (ask_seen ask) ≡ Some i)
            × (i < length self.old.layout)) }
        ensures layout { self.new.layout ≡ self.old.layout }
        ensures begun { OnOk result ((layout : List Zone) (mem : ℕ) (s : LiveState)
            → StandsLive layout mem self.old s → Leaves layout mem (begins layout s (ask_seen ask)) self.new) }
        ensures stores { self.new.spans ≡ self.old.spans }
        ensures refused { IfErr result (λ r. (layout : List Zone) (mem : ℕ) (s : LiveState)
            → StandsLive layout mem self.old s → begins layout s (ask_seen ask) ≡ Err r.why) }
        ensures unchanged { IfErr result (λ r. (r.ask ≡ ask) × (self.new ≡ self.old)) }
    {
        let Some(i) = self.place_asked(&ask) else {
            return Err(Refused {
                why: Refusal::NoZone,
                ask,
            });
        };
        if self.is_busy(i, &ask) {
            return Err(Refused {
                why: Refusal::Busy,
                ask,
            });
        }
        self.start(i, ask);
        Ok(i)
    }

    /// Begins a call, and makes no store. An append of no bytes is finished at once. A refusal changes nothing, and
    /// hands back what was asked. Takes no memory.
    pub fn begin(&mut self, ask: Ask) -> Result<ZoneName, Refused>
        requires { CanBeAsked ask }
        ensures begun { IfOk result (λ name. (layout : List Zone) (mem : ℕ) (s : LiveState)
            → StandsLive layout mem self.old s
            → (name ≡ asked_name s (ask_seen ask)) × Leaves layout mem (begins layout s (ask_seen ask)) self.new) }
        ensures stores { self.new.spans ≡ self.old.spans }
        ensures refused { IfErr result (λ r. (layout : List Zone) (mem : ℕ) (s : LiveState)
            → StandsLive layout mem self.old s → begins layout s (ask_seen ask) ≡ Err r.why) }
        ensures unchanged { IfErr result (λ r. (r.ask ≡ ask) × (self.new ≡ self.old)) }
    {
        let name = self.name_asked(&ask);
        match self.begin_at(ask) {
            Ok(_) => Ok(name),
            Err(refused) => Err(refused),
        }
    }

    /// Begins a call, and makes all its stores. A refusal changes nothing, and hands back what was asked. Takes no
    /// memory.
    pub fn make(&mut self, ask: Ask) -> Result<(), Refused>
        requires { CanBeAsked ask }
        ensures made { OnOk result ((layout : List Zone) (mem : ℕ) (s : LiveState)
            → StandsLive layout mem self.old s → Leaves layout mem (makes layout s (ask_seen ask)) self.new) }
        ensures stores { OnOk result ((layout : List Zone) (mem : ℕ) (s : LiveState)
            → StandsLive layout mem self.old s → MadeAt (asked_zone layout s (ask_seen ask))
            (λ z live. call_stores z (call_of (ask_seen ask)) live.image) self.old.spans self.new.spans) }
        ensures refused { IfErr result (λ r. (layout : List Zone) (mem : ℕ) (s : LiveState)
            → StandsLive layout mem self.old s → makes layout s (ask_seen ask) ≡ Err r.why) }
        ensures unchanged { IfErr result (λ r. (r.ask ≡ ask) × (self.new ≡ self.old)) }
    {
        match self.begin_at(ask) {
            Ok(i) => {
                let _stored = self.store_all(i);
                Ok(())
            }
            Err(refused) => Err(refused),
        }
    }

    // Makes the next `count` stores of the flight in zone `i`, or all that are left, if one stands there.
    fn store(&mut self, i: u32, count: u64) -> Option<Stored>
        requires { i < length self.old.layout }
        ensures layout { self.new.layout ≡ self.old.layout }
        ensures idle { result ≡ None → self.new ≡ self.old }
        ensures flies { flies_at (slice_get self.old.zones i) ≡ is_some result }
        ensures goes_on { flies_at (slice_get self.new.zones i) ≡ is_next result }
        ensures stored { StoresNext count i self.old self.new }
        ensures stores { MakesStores (next_stores count) i self.old self.new }
    {
        let zone = self.layout.zones()[i as usize];
        let coder = self.coders.for_zone(&zone);
        let stored = advance(
            &mut self.spans,
            i,
            &mut self.zones[i as usize],
            count,
            coder,
        );
        turn(&mut self.cursor, stored);
        self.flying_dumps = still_flying(self.flying_dumps, &zone, stored);
        stored
    }

    // Makes all stores that are left of the flight in zone `i`, if one stands there.
    pub(crate) fn store_all(&mut self, i: u32) -> Option<Stored>
        requires { i < length self.old.layout }
        ensures idle { result ≡ None → self.new ≡ self.old }
        ensures flies { flies_at (slice_get self.old.zones i) ≡ is_some result }
        ensures stored { ChangesZone (λ z live. finished z live) i self.old self.new }
        ensures stores { MakesStores left_stores i self.old self.new }
    {
        let left = self.left_at(i);
        self.store(i, left)
    }

    // How many stores are left of the flight in zone `i`.
    fn left_at(&self, i: u32) -> u64
        requires { i < length self.now.layout }
        ensures { IsLeftAt i self.now result }
    {
        stores_left(&self.zones[i as usize])
    }

    // The place of the zone of this name.
    pub(crate) fn place(&self, zone: ZoneName) -> Option<u32>
        ensures place { result ≡ zone_place self.now.layout zone }
        ensures within { IfSome result (λ i. (i < length self.now.layout) × (i < length self.now.zones)) }
    {
        self.layout.find(zone)
    }

    /// Makes the next store of a zone's flight. It is done with the last one: then no flight stands there, the told
    /// list is what the call means, and a dump's moves the cursor. Takes no memory.
    pub fn step(&mut self, zone: ZoneName) -> Result<Step, Refusal>
        ensures stepped { IfOk result (λ step. (layout : List Zone) (mem : ℕ) (s : LiveState)
            → StandsLive layout mem self.old s → Leaves layout mem (steps layout s zone 1) self.new) }
        ensures stores { IfOk result (λ step. (layout : List Zone) (mem : ℕ) (s : LiveState)
            → StandsLive layout mem self.old s
            → MadeAt (target layout s zone) (next_stores 1) self.old.spans self.new.spans) }
        ensures done { IfOk result (λ step. (step ≡ Step.Done) ↔ (flies_in self.new zone ≡ false)) }
        ensures refused { IfErr result (λ why. (layout : List Zone) (mem : ℕ) (s : LiveState)
            → StandsLive layout mem self.old s → steps layout s zone 1 ≡ Err why) }
        ensures unchanged { OnErr result (self.new ≡ self.old) }
    {
        let Some(i) = self.place(zone) else {
            return Err(Refusal::NoZone);
        };
        match self.store(i, 1) {
            None => Err(Refusal::Idle),
            Some(Stored::Next) => Ok(Step::Stored),
            Some(Stored::Last(_)) => Ok(Step::Done),
        }
    }

    /// Makes the next `count` stores of a zone's flight, or all that are left. Takes no memory.
    pub fn advance(&mut self, zone: ZoneName, count: u64) -> Result<(), Refusal>
        ensures advanced { OnOk result ((layout : List Zone) (mem : ℕ) (s : LiveState)
            → StandsLive layout mem self.old s → Leaves layout mem (steps layout s zone count) self.new) }
        ensures stores { OnOk result ((layout : List Zone) (mem : ℕ) (s : LiveState)
            → StandsLive layout mem self.old s
            → MadeAt (target layout s zone) (next_stores count) self.old.spans self.new.spans) }
        ensures refused { IfErr result (λ why. (layout : List Zone) (mem : ℕ) (s : LiveState)
            → StandsLive layout mem self.old s → steps layout s zone count ≡ Err why) }
        ensures unchanged { OnErr result (self.new ≡ self.old) }
    {
        let Some(i) = self.place(zone) else {
            return Err(Refusal::NoZone);
        };
        match self.store(i, count) {
            None => Err(Refusal::Idle),
            Some(_) => Ok(()),
        }
    }

    /// Makes all stores that are left of a zone's flight. Takes no memory.
    pub fn finish(&mut self, zone: ZoneName) -> Result<(), Refusal>
        ensures finished { OnOk result ((layout : List Zone) (mem : ℕ) (s : LiveState)
            → StandsLive layout mem self.old s → Leaves layout mem (finishes layout s zone) self.new) }
        ensures stores { OnOk result ((layout : List Zone) (mem : ℕ) (s : LiveState)
            → StandsLive layout mem self.old s
            → MadeAt (target layout s zone) left_stores self.old.spans self.new.spans) }
        ensures refused { IfErr result (λ why. (layout : List Zone) (mem : ℕ) (s : LiveState)
            → StandsLive layout mem self.old s → finishes layout s zone ≡ Err why) }
        ensures unchanged { OnErr result (self.new ≡ self.old) }
    {
        let Some(i) = self.place(zone) else {
            return Err(Refusal::NoZone);
        };
        match self.store_all(i) {
            None => Err(Refusal::Idle),
            Some(_) => Ok(()),
        }
    }

    /// The list that a zone was told; during a flight the one from before it.
    pub fn told(&self, zone: ZoneName) -> Result<&Told, Refusal>
        ensures told { IfOk result (λ told. (layout : List Zone) (mem : ℕ) (s : LiveState)
            → StandsLive layout mem self.now s
            → option_map (λ (t : Target). t.live.told) (target layout s zone) ≡ Some told.now.items) }
        ensures ring { IfOk result (λ told. RingOf self.now zone told.now) }
        ensures refused { IfErr result (λ why. (why ≡ Refusal.NoZone) × (zone_place self.now.layout zone ≡ None)) }
    {
        let _layout = &self.layout;
        match self.place(zone) {
            Some(i) => Ok(&self.zones[i as usize].told),
            None => Err(Refusal::NoZone),
        }
    }

    /// Tells whether a flight stands in a zone. A live machine stands for a sound state, whatever was done with it.
    pub fn flies(&self, zone: ZoneName) -> Result<bool, Refusal>
        ensures sound { IsRunning self.now }
        ensures flies { IfOk result (λ flies. (layout : List Zone) (mem : ℕ) (s : LiveState)
            → StandsLive layout mem self.now s
            → option_map (λ (t : Target). is_some t.live.flight) (target layout s zone) ≡ Some flies) }
        ensures refused { IfErr result (λ why. (why ≡ Refusal.NoZone) × (zone_place self.now.layout zone ≡ None)) }
    {
        let _layout = &self.layout;
        match self.place(zone) {
            Some(i) => Ok(self.zones[i as usize].flight.is_some()),
            None => Err(Refusal::NoZone),
        }
    }

    /// How many stores are left of a zone's flight; none where no flight stands.
    pub fn left(&self, zone: ZoneName) -> Result<u64, Refusal>
        ensures left { IfOk result (λ left. (layout : List Zone) (mem : ℕ) (s : LiveState)
            → StandsLive layout mem self.now s
            → option_map (λ (t : Target). stores_left t.live.flight t.zone) (target layout s zone) ≡ Some left) }
        ensures refused { IfErr result (λ why. (why ≡ Refusal.NoZone) × (zone_place self.now.layout zone ≡ None)) }
    {
        let _layout = &self.layout;
        match self.place(zone) {
            Some(i) => Ok(stores_left(&self.zones[i as usize])),
            None => Err(Refusal::NoZone),
        }
    }

    /// The bytes of the image, as a stop would leave it. Takes no memory.
    pub fn into_image(self) -> Bytes
        ensures { (layout : List AZone) (mem : ℕ) (s : LiveState) → StandsLive layout mem self s
            → result ≡ live_image s }
    {
        self.spans.join().into_bytes()
    }

    /// The machine is off: this moment is the stop of every zone, and each flight becomes a cut, also with no store
    /// made. Takes no memory.
    pub fn stop(self) -> Off
        ensures { (layout : List AZone) (mem : ℕ) (s : LiveState) → StandsLive layout mem self s
            → StandsOff layout mem result (stopped_state layout s) }
    {
        let _zones = self.layout.zones();
        let Live {
            alloc,
            layout,
            spans,
            zones,
            cursor: _,
            flying_dumps: _,
            coders: _,
            stopped,
        } = self;
        Off {
            alloc,
            layout,
            image: spans.join().into_bytes(),
            zones: stop_all(zones, stopped),
        }
    }
}
