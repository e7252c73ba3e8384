// The lines of a script, in order.
ghost use Rattle.std.specs.Prelude.{◌≡◌, ◌⊎◌, ℕ, ◌<◌, ◌≤◌, ◌^◌, List, length, OnOk, IfOk, IfSome, MatchResult};
ghost use Rattle.blk_spec.specs.Layout.{IsLayout};
ghost use Rattle.blk_spec.specs.Answers.{HasRoom, device, further};
ghost use Rattle.grammar_spec.specs.Printed.{HasFields, AllHaveFields};
ghost use Rattle.script_spec.specs.BlkScripts.{WriteNothing};
ghost use Rattle.script_spec.specs.BlkStops.{EndsAt};
ghost use Rattle.script_spec.specs.declared.LineStop.TheVariants.{StoreFault, SinkFault};
ghost use Rattle.script_spec.specs.Playing.{KeptUnless, PutsText, BlkPlayCaused};
ghost use Rattle.blk_session.specs.Asked.{lines_ask};
ghost use Rattle.blk_session.specs.Stops.{stop_of};
ghost use Rattle.blk_session.specs.Playing.{seen, Puts, LineStops, Later, StopsLoading};

use crate::errors::LineError;
use crate::lines::do_line;
use outside::{Failed, Sink, Store};
use script::Line;
use script_spec::LineStop;
use std::alloc::Global;
use zone_blk::{Blk, BlkLayout};

// The stop of a script at the line of this number.
fn stop_at(number: u32, error: LineError) -> LineStop
    ensures { result ≡ stop_of number error }
{
    match error {
        LineError::Memory => LineStop::Memory,
        LineError::StoreFault => LineStop::StoreFault,
        LineError::Refused(cause) => LineStop::Refused {
            line: number,
            cause,
        },
    }
}

// Does the line of this number, and puts its text.
fn play_line<S: Store, O: Sink>(
    alloc: Global,
    layout: BlkLayout,
    blk: Option<Blk>,
    store: &mut S,
    line: &Line,
    number: u32,
    out: &mut O,
) -> Result<Option<Blk>, LineStop>
    requires layout { IsLayout layout }
    requires fields { HasFields line.now }
    requires loaded { IfSome blk (λ b. b.layout ≡ layout) }
    requires room { HasRoom layout.total (S.holds store.old) }
    ensures loaded { IfOk result (λ next. IfSome next (λ b. b.layout ≡ layout)) }
    ensures room { (n : ℕ) → HasRoom n (S.holds store.old) → HasRoom n (S.holds store.new) }
    ensures later { Later
        (seen (device (S.holds store.old) (S.writes store.old) (S.read_faults store.old)) (S.faults store.old)
        (O.given out.old) (O.faults out.old))
        (seen (device (S.holds store.new) (S.writes store.new) (S.read_faults store.new)) (S.faults store.new)
        (O.given out.new) (O.faults out.new)) }
    ensures kept_store { KeptUnless StoreFault result (S.faults store.old) (S.faults store.new) }
    ensures kept_sink { KeptUnless SinkFault result (O.faults out.old) (O.faults out.new) }
    ensures played { let before = device (S.holds store.old) (S.writes store.old) (S.read_faults store.old) in
        let now = device (S.holds store.new) (S.writes store.new) (S.read_faults store.new) in
        let a = seen before (S.faults store.old) (O.given out.old) (O.faults out.old) in
        let b = seen now (S.faults store.new) (O.given out.new) (O.faults out.new) in
        MatchResult result (λ next. Puts layout blk line.now next a b)
        (λ stop. LineStops stop layout blk line.now number a b) }
{
    let (next, text) = match do_line(alloc, layout, blk, store, line) {
        Ok(done) => done,
        Err(error) => return Err(stop_at(number, error)),
    };
    match out.put(&text) {
        Ok(()) => Ok(next),
        Err(Failed) => Err(LineStop::SinkFault),
    }
}

/// Does the lines in order on a store that isn't loaded yet, and prints the text of each as it is done. The store is
/// written as the lines are done.
pub fn play<S: Store, O: Sink>(
    alloc: Global,
    layout: BlkLayout,
    store: &mut S,
    lines: &[Line],
    out: &mut O,
) -> Result<(), LineStop>
    requires layout { IsLayout layout }
    requires fields { AllHaveFields lines.now }
    requires few { length lines.now < 2 ^ 32 }
    requires room { HasRoom layout.total (S.holds store.old) }
    ensures later { (S.faults store.old ≤ S.faults store.new) × (O.faults out.old ≤ O.faults out.new) }
    ensures caused { BlkPlayCaused result (S.faults store.old) (S.faults store.new) (O.faults out.old)
        (O.faults out.new) }
    ensures kept_store { KeptUnless StoreFault result (S.faults store.old) (S.faults store.new) }
    ensures kept_sink { KeptUnless SinkFault result (O.faults out.old) (O.faults out.new) }
    ensures put { PutsText (O.given out.old) (O.given out.new) }
    ensures played { (bytes : List ℕ) → S.holds store.old ≡ Some bytes
        → EndsAt result layout bytes lines.now (O.given out.old) (O.given out.new) (S.holds store.new) }
    ensures unwritten { (bytes : List ℕ) → S.holds store.old ≡ Some bytes → WriteNothing layout bytes lines.now
        → S.writes store.new ≡ S.writes store.old }
    ensures asked { OnOk result ((bytes : List ℕ) → S.holds store.old ≡ Some bytes
        → S.writes store.new ≡ further (lines_ask layout bytes lines.now) (S.writes store.old)) }
    ensures unread { let before = device (S.holds store.old) (S.writes store.old) (S.read_faults store.old) in
        let now = device (S.holds store.new) (S.writes store.new) (S.read_faults store.new) in
        (bytes : List ℕ) → before.holds ≡ Some bytes
        → (now.read_faults ≡ before.read_faults) ⊎ StopsLoading layout bytes lines.now before now }
{
    let mut blk: Option<Blk> = None;
    for (i, line) in lines.iter().enumerate() {
        blk = match play_line(alloc, layout, blk, store, line, i as u32 + 1, out) {
            Ok(next) => next,
            Err(stop) => return Err(stop),
        };
    }
    Ok(())
}
