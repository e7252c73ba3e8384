// The lines of a script, in order.
ghost use Rattle.std.specs.Prelude.{◌≡◌, ◌+◌, ◌≤◌, ◌<◌, ◌^◌, ℕ, List, length, Option, IsTrue, ◌↔◌, IfOk, MatchResult};
ghost use Rattle.grammar_spec.specs.Printed.{HasFields, AllHaveFields};
ghost use Rattle.script_spec.specs.Playing.{KeptUnless};
ghost use Rattle.ram_session.specs.Sessions.{IsCall};
ghost use Rattle.ram_session.specs.Machines.{IsLive, crashes_of};
ghost use Rattle.ram_session.specs.Playing.{Puts, LineStops, Plays};

use crate::lines::{do_call, do_line, is_call};
use crate::machine::{LineError, Machine};
use outside::{Failed, Sink};
use ramoops::Off;
use script::{Line, Lines};
use script_spec::LineStop;
use std::alloc::Global;

fn is_live(machine: &Machine) -> bool
    ensures { IsTrue result ↔ IsLive machine.now }
{
    match machine {
        Machine::Off(_) => false,
        Machine::Live(_, _, _) => true,
    }
}

// Does the line of this number, one of a call, which prints nothing.
#[tactic(auto, using(crate::proofs::CallLines::call_puts))]
fn play_call(machine: &mut Machine, line: Line, number: u32) -> Result<(), LineStop>
    requires fields { HasFields line }
    requires call { IsCall line }
    requires live { IsLive machine.old }
    ensures count { crashes_of machine.new ≡ crashes_of machine.old }
    ensures played { (given : Option (List ℕ)) (faults : ℕ) → MatchResult result
        (λ _. Puts machine.old line machine.new given given)
        (λ stop. LineStops stop machine.old line number given given faults faults) }
{
    let Machine::Live(live, _, _) = machine else {
        unreachable!();
    };
    match do_call(live, line) {
        Ok(()) => Ok(()),
        Err(LineError::Memory) => Err(LineStop::Memory),
        Err(LineError::Refused(cause)) => Err(LineStop::Refused {
            line: number,
            cause,
        }),
    }
}

// Does the line of this number, and puts its text.
fn play_line<O: Sink>(
    alloc: Global,
    machine: Machine,
    line: Line,
    number: u32,
    out: &mut O,
) -> Result<Machine, LineStop>
    requires fields { HasFields line }
    requires few { crashes_of machine + 1 < 2 ^ 32 }
    ensures count { IfOk result (λ next. crashes_of next ≤ crashes_of machine + 1) }
    ensures later { O.faults out.old ≤ O.faults out.new }
    ensures counts { KeptUnless LineStop.SinkFault result (O.faults out.old) (O.faults out.new) }
    ensures played { MatchResult result (λ next. Puts machine line next (O.given out.old) (O.given out.new))
        (λ stop. LineStops stop machine line number (O.given out.old) (O.given out.new) (O.faults out.old)
        (O.faults out.new)) }
{
    let (next, text) = match do_line(alloc, machine, line) {
        Ok(done) => done,
        Err(LineError::Memory) => return Err(LineStop::Memory),
        Err(LineError::Refused(cause)) => {
            return Err(LineStop::Refused {
                line: number,
                cause,
            });
        }
    };
    match out.put(&text) {
        Ok(()) => Ok(next),
        Err(Failed) => Err(LineStop::SinkFault),
    }
}

/// Does the lines in order on a store that is off, and prints the text of each as it is done. The machine is large: a
/// call is made where it lies.
pub fn play<O: Sink>(
    alloc: Global,
    off: Off,
    lines: Lines,
    out: &mut O,
) -> Result<Machine, LineStop>
    requires fields { AllHaveFields lines }
    requires few { length lines < 2 ^ 32 }
    ensures later { O.faults out.old ≤ O.faults out.new }
    ensures counts { KeptUnless LineStop.SinkFault result (O.faults out.old) (O.faults out.new) }
    ensures played { Plays off lines (O.given out.old) (O.given out.new) (O.faults out.old) (O.faults out.new)
        result }
{
    let mut machine = Machine::Off(off);
    let mut number = 0u32;
    for line in lines.into_vec() {
        number += 1;
        if is_live(&machine) && is_call(&line) {
            match play_call(&mut machine, line, number) {
                Ok(()) => {}
                Err(stop) => return Err(stop),
            }
        } else {
            machine = match play_line(alloc, machine, line, number, out) {
                Ok(next) => next,
                Err(stop) => return Err(stop),
            };
        }
    }
    Ok(machine)
}
