// The calls of a generated session.
ghost use Rattle.std.specs.Prelude.{◌≡◌, ℕ, ◌^◌, if◌then◌else◌, nat_lt, min, List, filter, fold, IfOk};
ghost use Rattle.std.specs.List.{All};
ghost use Rattle.zone_spec.specs.declared.Zone.{Zone as AZone};
ghost use Rattle.zone_spec.specs.Layouts.{IsLayout};
ghost use Rattle.machine_spec.specs.States.{LiveState, Live as LiveOf};
ghost use Rattle.machine_spec.specs.LiveZones.{target};
ghost use Rattle.machine_spec.specs.Operations.{Begin, Make, Step};
ghost use Rattle.machine_spec.specs.Sound.{IsState, IsAsk};
ghost use Rattle.ramoops.specs.Asks.{ask_seen, CanBeAsked};
ghost use Rattle.ramoops.specs.LiveSeen.{StandsLive};
ghost use Rattle.script_spec.specs.Generated.{Generated, left_in, rests as rests_in, with_call, with_cut};
ghost use Rattle.ram_generator.specs.Turns.{cut_of, turn_of, TurnCanBeAsked};
ghost use Rattle.ram_generator.specs.Damage.{IsWithin};
ghost use Rattle.ram_generator.specs.Counting.{AreBelow, Grows, calls_added};
ghost use Rattle.ram_generator.specs.Sessions.{IsCalled, IsLeft, Runs};

use crate::CutAppend;
use crate::counts::Counts;
use ram_session::{begin, finish, step};
use ramoops::{Ask, Live};
use std::alloc::{AllocError, Global};
use zone_spec::{Zone, ZoneName};

// Tells that the payload is of bytes.
fn check(ask: &Ask)
    requires { CanBeAsked ask.now }
    ensures { IsAsk (ask_seen ask.now) }
{
    match ask {
        Ask::Append(_, payload) | Ask::Dump(_, _, payload) => {
            let _len = payload.len();
        }
        Ask::Erase(_) => {}
    }
}

// How many stores are left of a zone's flight, none where there is no such zone.
fn left(live: &Live, zone: ZoneName) -> u64
    ensures { (layout : List AZone) (mem : ℕ) (s : LiveState) → StandsLive layout mem live.now s
        → result ≡ left_in (target layout s zone) }
{
    match live.left(zone) {
        Ok(left) => left,
        Err(_) => 0,
    }
}

// Makes a call, and tells how many stores it has: none if it is refused.
fn make_stores(live: &mut Live, ask: Ask) -> u64
    requires can { CanBeAsked ask }
    ensures { (layout : List AZone) (mem : ℕ) (s : LiveState) → IsLayout layout mem
        → StandsLive layout mem live.old s → IsState layout mem (LiveOf s)
        → IsCalled layout mem s (Make (ask_seen ask)) (ask_seen ask) live.new result }
{
    check(&ask);
    let zone = match begin(live, ask) {
        Ok(zone) => zone,
        Err(_) => return 0,
    };
    let stores = left(live, zone);
    match finish(live, zone) {
        Ok(()) => stores,
        Err(_) => stores,
    }
}

// Makes a call, and counts it with its stores.
fn make_call(live: &mut Live, counts: &mut Counts, ask: Ask)
    requires can { CanBeAsked ask }
    requires room { AreBelow counts.old (2 ^ 32) }
    ensures made { (layout : List AZone) (mem : ℕ) (g : Generated) → IsLayout layout mem
        → Runs layout mem live.old counts.old g
        → Runs layout mem live.new counts.new (with_call layout g (ask_seen ask)) }
    ensures grows { Grows counts.old counts.new 1 }
{
    let stores = make_stores(live, ask);
    counts.add_calls(1, stores);
}

/// Makes a turn's call, where it has one, and counts it.
pub fn make_turn(live: &mut Live, counts: &mut Counts, turn: Option<Ask>)
    requires can { TurnCanBeAsked turn }
    requires room { AreBelow counts.old (2 ^ 32) }
    ensures made { (layout : List AZone) (mem : ℕ) (g : Generated) → IsLayout layout mem
        → Runs layout mem live.old counts.old g
        → Runs layout mem live.new counts.new (fold (with_call layout) g (turn_of turn)) }
    ensures grows { Grows counts.old counts.new 1 }
{
    let Some(ask) = turn else {
        return;
    };
    make_call(live, counts, ask);
}

// Begins a call, and tells how many stores it has: none if it is refused.
fn begin_stores(live: &mut Live, ask: Ask) -> u64
    requires can { CanBeAsked ask }
    ensures { (layout : List AZone) (mem : ℕ) (s : LiveState) → IsLayout layout mem
        → StandsLive layout mem live.old s → IsState layout mem (LiveOf s)
        → IsCalled layout mem s (Begin (ask_seen ask)) (ask_seen ask) live.new result }
{
    check(&ask);
    match begin(live, ask) {
        Ok(zone) => left(live, zone),
        Err(_) => 0,
    }
}

// Makes the next stores of a zone's flight, so many or all, where one stands.
fn step_stores(live: &mut Live, zone: ZoneName, count: u64)
    ensures { (layout : List AZone) (mem : ℕ) (s : LiveState) → IsLayout layout mem
        → StandsLive layout mem live.old s → IsState layout mem (LiveOf s)
        → IsLeft layout mem s (Step zone count) live.new }
{
    match step(live, zone, count) {
        Ok(()) => {}
        Err(_) => {}
    }
}

// Counts the stores made of an append, so many or all; with all it is a finished call.
fn count_cut(counts: &mut Counts, count: u64, all: u64)
    requires { AreBelow counts.old (2 ^ 32) }
    ensures added { counts.new ≡ calls_added counts.old (if nat_lt count all then 0 else 1) (min count all) }
    ensures grows { Grows counts.old counts.new 1 }
{
    if count < all {
        counts.add_calls(0, count);
    } else {
        counts.add_calls(1, all);
    }
}

/// Makes the first stores of an append, or all, and counts them.
pub fn make_cut(live: &mut Live, counts: &mut Counts, cut: Option<CutAppend>)
    requires room { AreBelow counts.old (2 ^ 32) }
    ensures cut { (layout : List AZone) (mem : ℕ) (g : Generated) → IsLayout layout mem
        → Runs layout mem live.old counts.old g
        → Runs layout mem live.new counts.new (fold (with_cut layout) g (cut_of cut)) }
    ensures grows { Grows counts.old counts.new 1 }
{
    let Some(
        CutAppend {
            ring,
            bytes,
            stores,
        },
    ) = cut
    else {
        return;
    };
    let count = u64::from(stores);
    let all = begin_stores(live, Ask::Append(ring, bytes));
    step_stores(live, ring, count);
    count_cut(counts, count, all);
}

// Whether no call stands in a zone, also where there is no such zone.
fn rests(live: &Live, zone: ZoneName) -> bool
    ensures { (layout : List AZone) (mem : ℕ) (s : LiveState) → StandsLive layout mem live.now s
        → result ≡ rests_in (target layout s zone) }
{
    match live.flies(zone) {
        Ok(flies) => !flies,
        Err(_) => true,
    }
}

/// The zones where no call stands.
pub fn resting(alloc: Global, live: &Live, zones: &[Zone]) -> Result<Vec<Zone>, AllocError>
    requires within { All IsWithin zones.now }
    ensures resting { IfOk result (λ rest. (layout : List AZone) (mem : ℕ) (s : LiveState)
        → StandsLive layout mem live.now s
        → rest.items ≡ filter (λ (z : AZone). rests_in (target layout s z.name)) zones.now) }
    ensures within { IfOk result (λ rest. All IsWithin rest.items) }
{
    let mut rest = Vec::new(alloc);
    'zones: for zone in zones {
        if rests(live, zone.name) {
            rest.push(*zone)?;
        }
    }
    Ok(rest)
}
