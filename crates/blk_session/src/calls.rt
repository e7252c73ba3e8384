// Lines that load, append, dump, cut or erase.
ghost use Rattle.std.specs.Prelude.{◌≡◌, ℕ, ◌≤◌, ◌<◌, ◌^◌, [], Option, Some, IfOk, IfSome, MatchResult};
ghost use Rattle.blk_spec.specs.Layout.{IsLayout};
ghost use Rattle.blk_spec.specs.Answers.{HasRoom, device};
ghost use Rattle.blk_spec.specs.States.{BlkState};
ghost use Rattle.blk_spec.specs.Session.{Append, Dump as DumpNow, Erase as EraseRecord};
ghost use Rattle.grammar_spec.specs.declared.line.Line.TheVariants.{Write, KDump, Boot, Erase};
ghost use Rattle.script_spec.specs.BlkScripts.{ring_for as ring_of_kind};
ghost use Rattle.blk_session.specs.Lines.{LineDone, LineFails, OperationDone, OperationFails, KeptUnlessFault};

use crate::errors::{LineError, line_error};
use outside::{Bytes, Store};
use script_spec::Cause;
use std::alloc::Global;
use zone_blk::{Blk, BlkLayout, BlkName, BlkRing, BlkTime, Reason};
use zone_spec::{Kind, ZoneName};

fn ring_for(kind: Kind) -> Option<BlkRing>
    ensures { result ≡ ring_of_kind kind }
{
    match kind {
        Kind::Console => Some(BlkRing::Console),
        Kind::Pmsg => Some(BlkRing::Pmsg),
        Kind::Dump | Kind::Ftrace => None,
    }
}

/// Loads the store, whatever was loaded before.
pub fn load<S: Store>(alloc: Global, layout: BlkLayout, store: &mut S) -> Result<Blk, LineError>
    requires layout { IsLayout layout }
    requires room { HasRoom layout.total (S.holds store.old) }
    ensures layout { IfOk result (λ b. b.layout ≡ layout) }
    ensures room { (n : ℕ) → HasRoom n (S.holds store.old) → HasRoom n (S.holds store.new) }
    ensures later { S.faults store.old ≤ S.faults store.new }
    ensures kept { KeptUnlessFault result (S.faults store.old) (S.faults store.new) }
    ensures done { let before = device (S.holds store.old) (S.writes store.old) (S.read_faults store.old) in
        let now = device (S.holds store.new) (S.writes store.new) (S.read_faults store.new) in
        (old : Option BlkState) → IfSome old (λ b. b.layout ≡ layout) → MatchResult result
        (λ b. LineDone layout old Boot (Some b) [] before now)
        (λ e. LineFails e layout old Boot before now (S.faults store.old) (S.faults store.new)) }
{
    match Blk::load(alloc, store, layout) {
        Ok(blk) => Ok(blk),
        Err(fault) => Err(line_error(fault)),
    }
}

fn append<S: Store>(
    blk: &mut Blk,
    store: &mut S,
    ring: BlkRing,
    payload: &[u8],
) -> Result<(), LineError>
    requires { HasRoom blk.old.layout.total (S.holds store.old) }
    ensures layout { blk.new.layout ≡ blk.old.layout }
    ensures room { (n : ℕ) → HasRoom n (S.holds store.old) → HasRoom n (S.holds store.new) }
    ensures later { S.faults store.old ≤ S.faults store.new }
    ensures kept { KeptUnlessFault result (S.faults store.old) (S.faults store.new) }
    ensures done { let before = device (S.holds store.old) (S.writes store.old) (S.read_faults store.old) in
        let now = device (S.holds store.new) (S.writes store.new) (S.read_faults store.new) in
        MatchResult result
        (λ _. OperationDone blk.old.layout (Some blk.old) (Append ring payload.now) (Some blk.new) [] before now)
        (λ e. OperationFails e blk.old.layout (Some blk.old) (Append ring payload.now) before now
        (S.faults store.old) (S.faults store.new)) }
{
    match blk.append(store, ring, payload) {
        Ok(()) => Ok(()),
        Err(fault) => Err(line_error(fault)),
    }
}

fn dump<S: Store>(
    blk: &mut Blk,
    store: &mut S,
    time: BlkTime,
    packed: bool,
    reason: Reason,
    body: &[u8],
) -> Result<(), LineError>
    requires secs { time.secs < 2 ^ 63 }
    requires nanos { time.nanos < 1000000000 }
    requires room { HasRoom blk.old.layout.total (S.holds store.old) }
    ensures layout { blk.new.layout ≡ blk.old.layout }
    ensures room { (n : ℕ) → HasRoom n (S.holds store.old) → HasRoom n (S.holds store.new) }
    ensures later { S.faults store.old ≤ S.faults store.new }
    ensures kept { KeptUnlessFault result (S.faults store.old) (S.faults store.new) }
    ensures done { let before = device (S.holds store.old) (S.writes store.old) (S.read_faults store.old) in
        let now = device (S.holds store.new) (S.writes store.new) (S.read_faults store.new) in
        MatchResult result
        (λ _. OperationDone blk.old.layout (Some blk.old) (DumpNow time packed reason body.now)
        (Some blk.new) [] before now)
        (λ e. OperationFails e blk.old.layout (Some blk.old) (DumpNow time packed reason body.now) before now
        (S.faults store.old) (S.faults store.new)) }
{
    match blk.dump(store, time, packed, reason, body) {
        Ok(()) => Ok(()),
        Err(fault) => Err(line_error(fault)),
    }
}

fn erase_named<S: Store>(blk: &mut Blk, store: &mut S, name: BlkName) -> Result<(), LineError>
    requires { HasRoom blk.old.layout.total (S.holds store.old) }
    ensures layout { blk.new.layout ≡ blk.old.layout }
    ensures room { (n : ℕ) → HasRoom n (S.holds store.old) → HasRoom n (S.holds store.new) }
    ensures later { S.faults store.old ≤ S.faults store.new }
    ensures kept { KeptUnlessFault result (S.faults store.old) (S.faults store.new) }
    ensures done { let before = device (S.holds store.old) (S.writes store.old) (S.read_faults store.old) in
        let now = device (S.holds store.new) (S.writes store.new) (S.read_faults store.new) in
        MatchResult result
        (λ _. OperationDone blk.old.layout (Some blk.old) (EraseRecord (Some name)) (Some blk.new) [] before now)
        (λ e. OperationFails e blk.old.layout (Some blk.old) (EraseRecord (Some name)) before now
        (S.faults store.old) (S.faults store.new)) }
{
    match blk.erase(store, name) {
        Ok(()) => Ok(()),
        Err(fault) => Err(line_error(fault)),
    }
}

/// An append to the ring of a zone.
pub fn write<S: Store>(
    blk: &mut Blk,
    store: &mut S,
    zone: ZoneName,
    bytes: &Bytes,
) -> Result<(), LineError>
    requires { HasRoom blk.old.layout.total (S.holds store.old) }
    ensures layout { blk.new.layout ≡ blk.old.layout }
    ensures room { (n : ℕ) → HasRoom n (S.holds store.old) → HasRoom n (S.holds store.new) }
    ensures later { S.faults store.old ≤ S.faults store.new }
    ensures kept { KeptUnlessFault result (S.faults store.old) (S.faults store.new) }
    ensures done { let before = device (S.holds store.old) (S.writes store.old) (S.read_faults store.old) in
        let now = device (S.holds store.new) (S.writes store.new) (S.read_faults store.new) in
        MatchResult result
        (λ _. LineDone blk.old.layout (Some blk.old) (Write zone bytes.now) (Some blk.new) [] before now)
        (λ e. LineFails e blk.old.layout (Some blk.old) (Write zone bytes.now) before now
        (S.faults store.old) (S.faults store.new)) }
{
    match ring_for(zone.kind) {
        Some(ring) => append(blk, store, ring, bytes.as_slice()),
        None => Err(LineError::Refused(Cause::NoZone)),
    }
}

/// A dump with a reason by its number.
pub fn kdump<S: Store>(
    blk: &mut Blk,
    store: &mut S,
    time: BlkTime,
    packed: bool,
    reason: u32,
    body: &Bytes,
) -> Result<(), LineError>
    requires secs { time.secs < 2 ^ 63 }
    requires nanos { time.nanos < 1000000000 }
    requires room { HasRoom blk.old.layout.total (S.holds store.old) }
    ensures layout { blk.new.layout ≡ blk.old.layout }
    ensures room { (n : ℕ) → HasRoom n (S.holds store.old) → HasRoom n (S.holds store.new) }
    ensures later { S.faults store.old ≤ S.faults store.new }
    ensures kept { KeptUnlessFault result (S.faults store.old) (S.faults store.new) }
    ensures done { let before = device (S.holds store.old) (S.writes store.old) (S.read_faults store.old) in
        let now = device (S.holds store.new) (S.writes store.new) (S.read_faults store.new) in
        MatchResult result
        (λ _. LineDone blk.old.layout (Some blk.old) (KDump time.secs time.nanos packed reason body.now)
        (Some blk.new) [] before now)
        (λ e. LineFails e blk.old.layout (Some blk.old) (KDump time.secs time.nanos packed reason body.now) before now
        (S.faults store.old) (S.faults store.new)) }
{
    dump(
        blk,
        store,
        time,
        packed,
        Reason::of_number(reason),
        body.as_slice(),
    )
}

/// An erasure of the record whose name has this text.
pub fn erase<S: Store>(blk: &mut Blk, store: &mut S, name: &Bytes) -> Result<(), LineError>
    requires { HasRoom blk.old.layout.total (S.holds store.old) }
    ensures layout { blk.new.layout ≡ blk.old.layout }
    ensures room { (n : ℕ) → HasRoom n (S.holds store.old) → HasRoom n (S.holds store.new) }
    ensures later { S.faults store.old ≤ S.faults store.new }
    ensures kept { KeptUnlessFault result (S.faults store.old) (S.faults store.new) }
    ensures done { let before = device (S.holds store.old) (S.writes store.old) (S.read_faults store.old) in
        let now = device (S.holds store.new) (S.writes store.new) (S.read_faults store.new) in
        MatchResult result
        (λ _. LineDone blk.old.layout (Some blk.old) (Erase name.now) (Some blk.new) [] before now)
        (λ e. LineFails e blk.old.layout (Some blk.old) (Erase name.now) before now
        (S.faults store.old) (S.faults store.new)) }
{
    match blk.find(name.as_slice()) {
        Some(name) => erase_named(blk, store, name),
        None => Err(LineError::Refused(Cause::NoRecord)),
    }
}
