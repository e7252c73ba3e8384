// The lines of a script, whatever is loaded.
ghost use Rattle.std.specs.Prelude.{◌≡◌, ℕ, ◌≤◌, List, [], Option, Some, None, IfOk, IfSome, MatchResult};
ghost use Rattle.blk_spec.specs.Layout.{IsLayout};
ghost use Rattle.blk_spec.specs.Answers.{HasRoom, Device, device};
ghost use Rattle.grammar_spec.specs.Printed.{HasFields};
ghost use Rattle.blk_session.specs.Lines.{LineDone, LineFails, KeptUnlessFault, IsCall, IsShown};

use crate::errors::LineError;
use crate::texts::listing;
use crate::{calls, records};
use outside::Store;
use script::Line;
use script_spec::Cause;
use std::alloc::{AllocError, Global};
use zone_blk::{Blk, BlkLayout, BlkTime};

// A line that puts nothing, and may change what is loaded.
fn do_call<S: Store>(blk: &mut Blk, store: &mut S, line: &Line) -> Result<(), LineError>
    requires call { IsCall line.now }
    requires fields { HasFields line.now }
    requires room { HasRoom blk.old.layout.total (S.holds store.old) }
    ensures layout { blk.new.layout ≡ blk.old.layout }
    ensures room { (n : ℕ) → HasRoom n (S.holds store.old) → HasRoom n (S.holds store.new) }
    ensures later { S.faults store.old ≤ S.faults store.new }
    ensures kept { KeptUnlessFault result (S.faults store.old) (S.faults store.new) }
    ensures done { let before = device (S.holds store.old) (S.writes store.old) (S.read_faults store.old) in
        let now = device (S.holds store.new) (S.writes store.new) (S.read_faults store.new) in
        MatchResult result
        (λ _. LineDone blk.old.layout (Some blk.old) line.now (Some blk.new) [] before now)
        (λ e. LineFails e blk.old.layout (Some blk.old) line.now before now
        (S.faults store.old) (S.faults store.new)) }
{
    match line {
        Line::Write(zone, bytes) => calls::write(blk, store, *zone, bytes),
        Line::KDump(secs, nanos, packed, reason, body) => {
            let time = BlkTime {
                secs: *secs,
                nanos: *nanos,
            };
            calls::kdump(blk, store, time, *packed, *reason, body)
        }
        Line::CutAfter(limit) => {
            blk.cut_after(u64::from(*limit));
            Ok(())
        }
        Line::Erase(name) => calls::erase(blk, store, name),
        _ => unreachable!(),
    }
}

// A line that puts a text, and leaves the store.
fn show(alloc: Global, blk: &Blk, line: &Line) -> Result<Vec<u8>, LineError>
    requires { IsShown line.now }
    ensures { (store : Device) (faults : ℕ) → MatchResult result
        (λ text. LineDone blk.now.layout (Some blk.now) line.now (Some blk.now) text.items store store)
        (λ e. LineFails e blk.now.layout (Some blk.now) line.now store store faults faults) }
{
    match line {
        Line::List => match listing(alloc, blk) {
            Ok(text) => Ok(text),
            Err(AllocError) => Err(LineError::Memory),
        },
        Line::Extract(name) => records::extract(alloc, blk, name),
        _ => unreachable!(),
    }
}

fn do_loaded<S: Store>(
    alloc: Global,
    layout: BlkLayout,
    blk: Blk,
    store: &mut S,
    line: &Line,
) -> Result<(Option<Blk>, Vec<u8>), LineError>
    requires layout { IsLayout layout }
    requires fields { HasFields line.now }
    requires loaded { blk.layout ≡ layout }
    requires room { HasRoom layout.total (S.holds store.old) }
    ensures loaded { IfOk result (λ r. IfSome r.0 (λ b. b.layout ≡ layout)) }
    ensures room { (n : ℕ) → HasRoom n (S.holds store.old) → HasRoom n (S.holds store.new) }
    ensures later { S.faults store.old ≤ S.faults store.new }
    ensures kept { KeptUnlessFault result (S.faults store.old) (S.faults store.new) }
    ensures done { let before = device (S.holds store.old) (S.writes store.old) (S.read_faults store.old) in
        let now = device (S.holds store.new) (S.writes store.new) (S.read_faults store.new) in
        MatchResult result
        (λ r. LineDone layout (Some blk) line.now r.0 r.1.items before now)
        (λ e. LineFails e layout (Some blk) line.now before now (S.faults store.old) (S.faults store.new)) }
{
    let mut blk = blk;
    match line {
        Line::Blank => Ok((Some(blk), Vec::new(alloc))),
        Line::Boot => match calls::load(alloc, layout, store) {
            Ok(blk) => Ok((Some(blk), Vec::new(alloc))),
            Err(e) => Err(e),
        },
        Line::List | Line::Extract(_) => match show(alloc, &blk, line) {
            Ok(text) => Ok((Some(blk), text)),
            Err(e) => Err(e),
        },
        Line::Write(_, _) | Line::KDump(_, _, _, _, _) | Line::CutAfter(_) | Line::Erase(_) => {
            match do_call(&mut blk, store, line) {
                Ok(()) => Ok((Some(blk), Vec::new(alloc))),
                Err(e) => Err(e),
            }
        }
        _ => Err(LineError::Refused(Cause::NotHere)),
    }
}

#[tactic(auto, using(crate::proofs::OtherLines::waits_line))]
fn do_unloaded<S: Store>(
    alloc: Global,
    layout: BlkLayout,
    store: &mut S,
    line: &Line,
) -> Result<(Option<Blk>, Vec<u8>), LineError>
    requires layout { IsLayout layout }
    requires room { HasRoom layout.total (S.holds store.old) }
    ensures loaded { IfOk result (λ r. IfSome r.0 (λ b. b.layout ≡ layout)) }
    ensures room { (n : ℕ) → HasRoom n (S.holds store.old) → HasRoom n (S.holds store.new) }
    ensures later { S.faults store.old ≤ S.faults store.new }
    ensures kept { KeptUnlessFault result (S.faults store.old) (S.faults store.new) }
    ensures done { let before = device (S.holds store.old) (S.writes store.old) (S.read_faults store.old) in
        let now = device (S.holds store.new) (S.writes store.new) (S.read_faults store.new) in
        MatchResult result
        (λ r. LineDone layout None line.now r.0 r.1.items before now)
        (λ e. LineFails e layout None line.now before now (S.faults store.old) (S.faults store.new)) }
{
    match line {
        Line::Blank => Ok((None, Vec::new(alloc))),
        Line::Boot => match calls::load(alloc, layout, store) {
            Ok(blk) => Ok((Some(blk), Vec::new(alloc))),
            Err(e) => Err(e),
        },
        Line::Write(_, _)
        | Line::KDump(_, _, _, _, _)
        | Line::CutAfter(_)
        | Line::List
        | Line::Extract(_)
        | Line::Erase(_) => Err(LineError::Refused(Cause::IsOff)),
        _ => Err(LineError::Refused(Cause::NotHere)),
    }
}

/// Does a line, and gives what is then loaded and what the line prints. A line that is refused, that finds no memory or
/// within which the store fails ends the session.
pub fn do_line<S: Store>(
    alloc: Global,
    layout: BlkLayout,
    blk: Option<Blk>,
    store: &mut S,
    line: &Line,
) -> Result<(Option<Blk>, Vec<u8>), LineError>
    requires layout { IsLayout layout }
    requires fields { HasFields line.now }
    requires loaded { IfSome blk (λ b. b.layout ≡ layout) }
    requires room { HasRoom layout.total (S.holds store.old) }
    ensures loaded { IfOk result (λ r. IfSome r.0 (λ b. b.layout ≡ layout)) }
    ensures room { (n : ℕ) → HasRoom n (S.holds store.old) → HasRoom n (S.holds store.new) }
    ensures later { S.faults store.old ≤ S.faults store.new }
    ensures kept { KeptUnlessFault result (S.faults store.old) (S.faults store.new) }
    ensures done { let before = device (S.holds store.old) (S.writes store.old) (S.read_faults store.old) in
        let now = device (S.holds store.new) (S.writes store.new) (S.read_faults store.new) in
        MatchResult result
        (λ r. LineDone layout blk line.now r.0 r.1.items before now)
        (λ e. LineFails e layout blk line.now before now (S.faults store.old) (S.faults store.new)) }
{
    match blk {
        Some(blk) => do_loaded(alloc, layout, blk, store, line),
        None => do_unloaded(alloc, layout, store, line),
    }
}
