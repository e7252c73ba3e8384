// The zones of a live machine: the told list of each, and its flight.
ghost use Rattle.std.specs.Prelude.{◌≡◌, ◌<◌, ◌≤◌, ◌&&◌, not, is_some, length, Some, None};
ghost use Rattle.zone_spec.specs.Zones.{IsValidZone};
ghost use Rattle.zone_spec.specs.Parts.{IsImage};
ghost use Rattle.zone_spec.specs.Ring.{IsRingForm};
ghost use Rattle.zone_spec.specs.Calls.{CanBegin};
ghost use Rattle.prz_write.specs.Calls.{call_seen};
ghost use Rattle.store_steps.specs.Flying.{Flying};
ghost use Rattle.prz_region.specs.CutRegion.{span, stored as stored_in};
ghost use Rattle.machine_spec.specs.States.{LiveZone};
ghost use Rattle.machine_spec.specs.ZoneCalls.{begun, stepped};
ghost use Rattle.machine_spec.specs.LiveZones.{flies_dump};
ghost use Rattle.ramoops.specs.LiveSeen.{StandsForZone};
ghost use Rattle.ramoops.specs.Made.{StoresIn, next_stores};
ghost use Rattle.ramoops.specs.Storing.{CanStore, HasParity, is_next, is_last_of_dump};
ghost use Rattle.std.specs.Option.{ForSome};

use crate::Told;
use crate::known::{HeldCut, KnownZone};
use prz_ecc::Coder;
use prz_region::{Span, Spans};
use prz_write::{Call, Flight, Step};
use zone_spec::{CallKind, Zone};

/// What is kept of a zone: the list that it was told, and its flight, where one stands.
#[derive(Drop)]
pub struct HeldZone {
    pub(crate) told: Told,
    pub(crate) flight: Option<Flight>,
}

impl HeldZone {
    ghost use Rattle.ramoops.specs.Stopped.{stop_zone};

    pub(crate) fn into_told(self) -> Told
        ensures { result ≡ self.told }
    {
        self.told
    }

    /// What is known of the zone after a stop: its flight is a cut, also with no store made. Takes no memory.
    pub(crate) fn stopped(self) -> KnownZone
        ensures { result ≡ stop_zone self }
    {
        let cut = match &self.flight {
            Some(flight) => Some(HeldCut::of_flight(flight)),
            None => None,
        };
        KnownZone {
            told: Some(self.told),
            cut,
        }
    }
}

/// Begins a call in a zone without a flight, and tells whether it flies. One that has no store is finished at once.
pub(crate) fn start(zone: Zone, span: &Span, held: &mut HeldZone, call: Call) -> bool
    requires valid { IsValidZone zone }
    requires image { IsImage zone span.now }
    requires ring { IsRingForm zone span.now held.old.told.items }
    requires idle { held.old.flight ≡ None }
    requires can { CanBegin zone span.now (call_seen call) }
    ensures told { held.new.told ≡ held.old.told }
    ensures started { result ≡ is_some held.new.flight }
    ensures flies { (f : Flying) → held.new.flight ≡ Some f → f.call ≡ call_seen call }
    ensures begun { (live : LiveZone) → StandsForZone zone span.now held.old live
        → StandsForZone zone span.now held.new (begun zone (call_seen call) live) }
{
    let flight = Flight::begin(zone, span, call);
    if flight.left() > 0 {
        held.flight = Some(flight);
        true
    } else {
        false
    }
}

/// What the last of some stores of a flight was.
#[derive(Clone, Copy)]
pub enum Stored {
    /// A store that others follow.
    Next,
    /// The last store of a call.
    Last(CallKind),
}

/// Makes the next `count` stores of the flight of a zone, whose bytes are span `i`, or all that are left. With the last
/// one the flight is gone, and the list is told what the call means.
pub(crate) fn advance(
    spans: &mut Spans,
    i: u32,
    held: &mut HeldZone,
    count: u64,
    coder: Option<&Coder>,
) -> Option<Stored>
    requires has { i < length spans.old.spans }
    requires can { CanStore (span spans.old i) held.old.flight }
    requires room { 36 ≤ held.old.told.capacity }
    requires coder { ForSome coder (λ k. HasParity k.now held.old.flight) }
    ensures idle { result ≡ None → (spans.new ≡ spans.old) × (held.new ≡ held.old) }
    ensures flies { is_some held.old.flight ≡ is_some result }
    ensures goes_on { is_some held.new.flight ≡ is_next result }
    ensures same_call { (f g : Flying) → held.old.flight ≡ Some f → held.new.flight ≡ Some g → g.call ≡ f.call }
    ensures capacity { held.new.told.capacity ≡ held.old.told.capacity }
    ensures others { StoresIn i spans.old spans.new }
    ensures stores { (zone : Zone) (live : LiveZone) → StandsForZone zone (span spans.old i) held.old live
        → spans.new ≡ stored_in spans.old i (next_stores count zone live) }
    ensures stored { (zone : Zone) (live : LiveZone) → held.old.told.capacity ≡ zone.cap
        → StandsForZone zone (span spans.old i) held.old live
        → StandsForZone zone (span spans.new i) held.new (stepped zone count live) }
    ensures last { (zone : Zone) (live : LiveZone) → StandsForZone zone (span spans.old i) held.old live
        → (flies_dump live.flight && not (is_some (stepped zone count live).flight)) ≡ is_last_of_dump result }
{
    let Some(flight) = &mut held.flight else {
        return None;
    };
    let Step::Done = flight.advance(spans, i, count, coder) else {
        return Some(Stored::Next);
    };
    let kind = flight.kind();
    held.told.tell(flight.call());
    held.flight = None;
    Some(Stored::Last(kind))
}
