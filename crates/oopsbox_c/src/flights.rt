// Calls on a zone, in structs of the caller's. They take no memory.
ghost use Rattle.std.specs.Prelude.{◌≡◌, ◌+◌, ◌^◌, ◌≤◌, ◌↔◌, ◌⊎◌, ◌<◌, [], List, ℕ, length, IsTrue};
ghost use Rattle.zone_spec.specs.Parts.{standing_words};
ghost use Rattle.zone_spec.specs.Stores.{Store as DefinedStore};
ghost use Rattle.rs_encode.specs.Lanes.{IsLent};
ghost use Rattle.store_steps.specs.Flying.{Flying, flying};
ghost use Rattle.store_steps.specs.Machine.{IsKept, IsParity, IsSameData};
ghost use Rattle.store_steps.specs.declared.place.Phase.TheVariants.{Finished};
ghost use Rattle.oopsbox_c.specs.Gathered.{IsGathered, IsComing, HasGone};
ghost use Rattle.oopsbox_c.specs.Ends.{status_of};
ghost use Rattle.oopsbox_c.specs.Numbers.{call_in};
ghost use Rattle.oopsbox_c.specs.Places.{zone_in};
ghost use Rattle.oopsbox_c.specs.Tables.{IsOwed, IsLendable};
ghost use Rattle.oopsbox_c.specs.Flights.{steps_of, IsFlight, BeginEnds, IsAsked, IsNext, ComesNext, NextEnds};
ghost use Rattle.oopsbox_c.specs.Flights.{AppendEnds};
ghost use Rattle.zone_spec.specs.declared.CallKind.TheVariants.{Append, Erase, Dump};

use crate::End;
use crate::numbers::{call_in, call_number, leg_in, leg_number, phase_in, phase_number};
use crate::places::{ZonePlace, byte_order_in, is_place, zone_in};
use crate::stores::Stores;
use crate::tables::{TableRow, is_lendable, lend};
use prz_ecc::words_of;
use store_steps::{CallKind, Phase, Place, Steps, Store, Words};

/// A call that was begun. The caller keeps it, and changes nothing in it.
#[repr(C)]
#[derive(Clone, Copy, Debug, Default, PartialEq, Eq)]
pub struct Flight {
    pub made: u64,
    pub payload: u64,
    pub zone: ZonePlace,
    pub line: u32,
    pub kind: u32,
    pub old_sig: u32,
    pub old_start: u32,
    pub old_size: u32,
    pub leg: u32,
    pub start: u32,
    pub size: u32,
    pub phase: u32,
    pub block: u32,
    pub number: u32,
}

fn steps_of(flight: &Flight) -> Steps
    ensures { result ≡ steps_of flight.now }
{
    Steps {
        zone: zone_in(&flight.zone),
        words: Words {
            sig: flight.old_sig,
            start: flight.old_start,
            size: flight.old_size,
        },
        kind: call_in(flight.kind),
        made: flight.made,
        place: Place {
            leg: leg_in(flight.leg),
            start: flight.start,
            size: flight.size,
            phase: phase_in(flight.phase),
            block: flight.block,
            number: flight.number,
        },
    }
}

// The flight of these steps, of a line and a payload of these lengths.
fn flight_of(place: &ZonePlace, line: u32, payload: u64, steps: &Steps) -> Flight
    requires { steps.now.zone ≡ zone_in place.now }
    ensures steps { steps_of result ≡ steps.now }
    ensures zone { result.zone ≡ place.now }
    ensures line { result.line ≡ line }
    ensures payload { result.payload ≡ payload }
    ensures kind { result.kind ≤ 2 }
    ensures leg { result.leg ≤ 3 }
    ensures phase { result.phase ≤ 9 }
{
    Flight {
        made: steps.made,
        payload,
        zone: *place,
        line,
        kind: call_number(steps.kind),
        old_sig: steps.words.sig,
        old_start: steps.words.start,
        old_size: steps.words.size,
        leg: leg_number(steps.place.leg),
        start: steps.place.start,
        size: steps.place.size,
        phase: phase_number(steps.place.phase),
        block: steps.place.block,
        number: steps.place.number,
    }
}

// Whether a call with this line can be asked for.
fn is_asked(place: &ZonePlace, image: &[u8], line: &[u8]) -> bool
    ensures { IsTrue result ↔ IsAsked place.now image.now line.now }
{
    is_place(place) && image.len() == place.size as usize && line.len() <= 36
}

// Whether this is a flight with this line and this payload.
fn is_flight(flight: &Flight, line: &[u8], payload: &[u8]) -> bool
    ensures { IsTrue result ↔ IsFlight flight.now line.now payload.now }
{
    if flight.kind > 2 || flight.leg > 3 || flight.phase > 9 || !is_place(&flight.zone) {
        return false;
    }
    if flight.line as usize != line.len() || flight.payload != payload.len() as u64 {
        return false;
    }
    line.len() <= 36 && steps_of(flight).is_kept(line, payload)
}

fn signature(place: &ZonePlace, image: &[u8]) -> u32
    requires { 12 ≤ length image.now }
    ensures { result ≡ (standing_words (zone_in place.now) image.now).sig }
{
    words_of(byte_order_in(place.byte_order), &image[0..12]).sig
}

fn begin(
    place: &ZonePlace,
    kind: CallKind,
    image: &[u8],
    line: &[u8],
    payload: &[u8],
    flight: &mut Flight,
) -> End
    ensures { BeginEnds result place.now kind image.now line.now payload.now flight.old flight.new }
{
    if !is_asked(place, image, line) {
        return End::Argument;
    }
    if signature(place, image) != place.sig {
        return End::Closed;
    }
    match Steps::try_begin(zone_in(place), kind, image, line, payload) {
        Some(steps) => {
            *flight = flight_of(place, line.len() as u32, payload.len() as u64, &steps);
            End::Done
        }
        None => End::Closed,
    }
}

/// Begins to append `payload` to the zone that stands as `image`.
#[unsafe(no_mangle)]
pub extern "C" fn oopsbox_append_begin(
    place: &ZonePlace,
    image: &[u8],
    payload: &[u8],
    flight: &mut Flight,
) -> u32
    ensures { (end : End) × (result ≡ status_of end)
        × BeginEnds end place.now Append image.now [] payload.now flight.old flight.new }
{
    let end = begin(place, CallKind::Append, image, &[], payload, flight);
    end.status()
}

/// Begins to erase the zone that stands as `image`.
#[unsafe(no_mangle)]
pub extern "C" fn oopsbox_erase_begin(place: &ZonePlace, image: &[u8], flight: &mut Flight) -> u32
    ensures { (end : End) × (result ≡ status_of end)
        × BeginEnds end place.now Erase image.now [] [] flight.old flight.new }
{
    let end = begin(place, CallKind::Erase, image, &[], &[], flight);
    end.status()
}

/// Begins a dump of `line` and, as its body, `payload` in the zone that stands as `image`.
#[unsafe(no_mangle)]
pub extern "C" fn oopsbox_dump_begin(
    place: &ZonePlace,
    image: &[u8],
    line: &[u8],
    payload: &[u8],
    flight: &mut Flight,
) -> u32
    ensures { (end : End) × (result ≡ status_of end)
        × BeginEnds end place.now Dump image.now line.now payload.now flight.old flight.new }
{
    let end = begin(place, CallKind::Dump, image, line, payload, flight);
    end.status()
}

// Takes parities into the answer, those that come next: up to a word or a run, the end, or an answer of four rows. The
// parity of a part is of its header and data, and so the same whether that of others is stored or not.
fn take_parities(
    steps: &mut Steps,
    rows: &[u128],
    image: &[u8],
    line: &[u8],
    payload: &[u8],
    until: u64,
    stores: &mut Stores,
)
    requires kept { IsKept (flying steps.old line.now payload.now) }
    requires line { length line.now ≤ 36 }
    requires table { IsLent steps.old.zone.parity rows.now }
    requires len { length image.now ≡ steps.old.zone.size }
    requires empty { stores.old.count ≡ 0 }
    requires near { until < steps.old.made + 2 ^ 32 }
    requires most { steps.old.made ≤ until }
    ensures gathered { (f : Flying) (now : List ℕ) → IsSameData steps.old.zone now image.now
        → IsGathered f now line.now payload.now steps.old stores.old
        → IsGathered f now line.now payload.now steps.new stores.new }
    ensures coming { (all : List DefinedStore) → IsComing all image.now line.now payload.now steps.old stores.old
        → IsComing all image.now line.now payload.now steps.new stores.new }
    ensures idle { (IsParity steps.old.place.phase → ⊥) → (steps.new ≡ steps.old) × (stores.new ≡ stores.old) }
    ensures kept { IsKept (flying steps.new line.now payload.now) }
    ensures room { stores.new.count ≤ 4 }
    ensures most { steps.new.made ≤ until }
    ensures later { HasGone steps.old steps.new stores.old stores.new }
    ensures some { IsParity steps.old.place.phase → steps.old.made < until → steps.old.made < steps.new.made }
    ensures kind { steps.new.kind ≡ steps.old.kind }
{
    let mut store = Store::new();
    while steps.made < until && !stores.is_full() && steps.is_parity() {
        let most = (until - steps.made) as u32;
        steps.next_parity(rows, image, line, payload, most, &mut store);
        stores.push(&store);
    }
}

// Takes words and runs into the answer, those that come next: up to a parity, the end, or an answer of four rows.
fn take_data(steps: &mut Steps, line: &[u8], payload: &[u8], until: u64, stores: &mut Stores)
    requires kept { IsKept (flying steps.old line.now payload.now) }
    requires line { length line.now ≤ 36 }
    requires near { until < steps.old.made + 2 ^ 32 }
    requires most { steps.old.made ≤ until }
    requires room { stores.old.count ≤ 4 }
    ensures gathered { (f : Flying) (image : List ℕ) → IsGathered f image line.now payload.now steps.old stores.old
        → IsGathered f image line.now payload.now steps.new stores.new }
    ensures coming { (all : List DefinedStore) (image : List ℕ)
        → IsComing all image line.now payload.now steps.old stores.old
        → IsComing all image line.now payload.now steps.new stores.new }
    ensures most { steps.new.made ≤ until }
    ensures later { HasGone steps.old steps.new stores.old stores.new }
    ensures some { (IsParity steps.old.place.phase → ⊥) → (steps.old.place.phase ≡ Finished → ⊥)
        → stores.old.count < 4 → steps.old.made < until → steps.old.made < steps.new.made }
    ensures stops { (until ≤ steps.new.made) ⊎ (4 ≤ stores.new.count) ⊎ IsParity steps.new.place.phase
        ⊎ (steps.new.place.phase ≡ Finished) }
    ensures kind { steps.new.kind ≡ steps.old.kind }
{
    let mut store = Store::new();
    while steps.made < until && !stores.is_full() && !steps.is_parity() && !steps.is_finished() {
        let most = (until - steps.made) as u32;
        steps.next_data(line, payload, most, &mut store);
        stores.push(&store);
    }
}

fn flag(is: bool) -> u32
    ensures value { (result ≡ 1) ↔ IsTrue is }
    ensures most { result ≤ 1 }
{
    if is { 1 } else { 0 }
}

// The next stores of a flight: parities, and then words and runs.
fn go_on(
    flight: &mut Flight,
    image: &[u8],
    line: &[u8],
    payload: &[u8],
    rows: &[u128],
    most: u32,
    stores: &mut Stores,
)
    requires flight { IsFlight flight.old line.now payload.now }
    requires len { length image.now ≡ flight.old.zone.size }
    requires table { IsLent flight.old.zone.parity rows.now }
    requires some { 0 < most }
    ensures next { IsNext flight.old flight.new image.now line.now payload.now most stores.new }
    ensures coming { ComesNext flight.old flight.new image.now line.now payload.now stores.new }
{
    let mut steps = steps_of(flight);
    let until = steps.made + most as u64;
    stores.clear();
    take_parities(&mut steps, rows, image, line, payload, until, stores);
    take_data(&mut steps, line, payload, until, stores);
    stores.is_last = flag(steps.is_finished());
    let place = flight.zone;
    *flight = flight_of(&place, flight.line, flight.payload, &steps);
}

// The next stores of a flight, by the caller's table.
#[inline(never)]
fn go_on_by(
    flight: &mut Flight,
    image: &[u8],
    line: &[u8],
    payload: &[u8],
    table: &[TableRow],
    most: u32,
    stores: &mut Stores,
)
    requires flight { IsFlight flight.old line.now payload.now }
    requires len { length image.now ≡ flight.old.zone.size }
    requires lendable { IsLendable table.now }
    requires table { IsOwed flight.old.zone.parity table.now }
    requires some { 0 < most }
    ensures next { IsNext flight.old flight.new image.now line.now payload.now most stores.new }
    ensures coming { ComesNext flight.old flight.new image.now line.now payload.now stores.new }
{
    let mut rows = [0u128; 256];
    let rows = lend(table, &mut rows);
    go_on(flight, image, line, payload, rows, most, stores);
}

// Whether stores of this phase are parity: the table is read for these alone.
fn is_parity(phase: Phase) -> bool {
    match phase {
        Phase::FirstParity | Phase::SecondParity | Phase::Header => true,
        _ => false,
    }
}

fn next(
    flight: &mut Flight,
    image: &[u8],
    line: &[u8],
    payload: &[u8],
    table: &[TableRow],
    most: u32,
    stores: &mut Stores,
) -> End
    requires { IsOwed flight.old.zone.parity table.now }
    ensures { NextEnds result flight.old flight.new image.now line.now payload.now table.now most stores.old
        stores.new }
{
    if !is_flight(flight, line, payload) || image.len() != flight.zone.size as usize {
        return End::Argument;
    }
    if !is_lendable(table) || most == 0 {
        return End::Argument;
    }
    if is_parity(phase_in(flight.phase)) {
        go_on_by(flight, image, line, payload, table, most, stores);
    } else {
        go_on(flight, image, line, payload, &[], most, stores);
    }
    End::Done
}

/// Hands out the next stores, at most `most` of them, up to the next parity. `image` is the zone's bytes with all stores
/// made that were handed out before; line and payload are those of the call's begin.
#[unsafe(no_mangle)]
pub extern "C" fn oopsbox_flight_next(
    flight: &mut Flight,
    image: &[u8],
    line: &[u8],
    payload: &[u8],
    table: &[TableRow],
    most: u32,
    stores: &mut Stores,
) -> u32
    requires { IsOwed flight.old.zone.parity table.now }
    ensures { (end : End) × (result ≡ status_of end)
        × NextEnds end flight.old flight.new image.now line.now payload.now table.now most stores.old stores.new }
{
    let end = next(flight, image, line, payload, table, most, stores);
    end.status()
}

// Hands out the first stores of an append that was begun: without parity all of them.
fn first_stores(flight: &mut Flight, image: &[u8], payload: &[u8], stores: &mut Stores)
    requires flight { IsFlight flight.old [] payload.now }
    requires len { length image.now ≡ flight.old.zone.size }
    ensures next { IsNext flight.old flight.new image.now [] payload.now 4294967295 stores.new }
    ensures whole { call_in flight.old.kind ≡ Append → flight.old.zone.parity ≡ 0 → flight.old.made ≡ 0
        → stores.new.is_last ≡ 1 }
{
    let mut steps = steps_of(flight);
    match steps.take_whole(&[], payload, u64::from(u32::MAX)) {
        Some(whole) => {
            stores.set_whole(&whole);
            stores.is_last = 1;
            let place = flight.zone;
            *flight = flight_of(&place, flight.line, flight.payload, &steps);
        }
        None => go_on(flight, image, &[], payload, &[], u32::MAX, stores),
    }
}

// Begins an append, and hands out its first stores.
fn append(
    place: &ZonePlace,
    image: &[u8],
    payload: &[u8],
    flight: &mut Flight,
    stores: &mut Stores,
) -> End
    ensures { AppendEnds result place.now image.now payload.now flight.old flight.new stores.old stores.new }
{
    let end = begin(place, CallKind::Append, image, &[], payload, flight);
    if let End::Done = end {
        first_stores(flight, image, payload, stores);
    }
    end
}

/// Begins to append `payload` to the zone that stands as `image`, and hands out the first stores, up to the first
/// parity: without parity all of them.
#[unsafe(no_mangle)]
pub extern "C" fn oopsbox_append(
    place: &ZonePlace,
    image: &[u8],
    payload: &[u8],
    flight: &mut Flight,
    stores: &mut Stores,
) -> u32
    ensures { (end : End) × (result ≡ status_of end)
        × AppendEnds end place.now image.now payload.now flight.old flight.new stores.old stores.new }
{
    let end = append(place, image, payload, flight, stores);
    end.status()
}
