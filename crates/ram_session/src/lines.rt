// The lines of a script, whatever the machine's state.
ghost use Rattle.std.specs.Prelude.{◌≡◌, ◌+◌, ◌<◌, ◌≤◌, ◌^◌, ◌↔◌, IsTrue, [], IfOk, MatchResult};
ghost use Rattle.prz_read.specs.Saving.{SavedLogs};
ghost use Rattle.grammar_spec.specs.Printed.{HasFields};
ghost use Rattle.grammar_spec.specs.declared.line.Line.TheVariants.{Boot};
ghost use Rattle.ram_session.specs.Sessions.{Live as LiveStore, LineDone, LineFails, IsCall, KeepsKernel};
ghost use Rattle.ram_session.specs.Machines.{crashes_of, MachineDone, MachineFails};
ghost use Rattle.ram_session.specs.declared.machine.Machine.TheVariants.{Off as OffMachine, Live as LiveMachine};

use crate::erasing::erase;
use crate::machine::{LineError, Machine};
use crate::{Kernel, kernel_lines, live_lines, off_lines, record_lines, state_lines};
use prz_read::Logs;
use ramoops::{Live, Off};
use script::Line;
use script_spec::Cause;
use std::alloc::Global;

/// Whether the line is one of a call.
pub(crate) fn is_call(line: &Line) -> bool
    ensures { IsTrue result ↔ IsCall line.now }
{
    match line {
        Line::Write(_, _) | Line::Dump(_, _, _) => true,
        Line::BeginWrite(_, _) | Line::BeginErase(_) | Line::BeginDump(_, _, _) => true,
        Line::Step(_, _) | Line::Finish(_) => true,
        _ => false,
    }
}

/// A line of a call.
#[tactic(auto, using(crate::proofs::AnyLines::dump_time, crate::proofs::AnyLines::begin_dump_time))]
pub(crate) fn do_call(live: &mut Live, line: Line) -> Result<(), LineError>
    requires fields { HasFields line }
    requires call { IsCall line }
    ensures { (logs : SavedLogs) → MatchResult result (λ _. LineDone (LiveStore live.old logs) line
        (LiveStore live.new logs) []) (LineFails (LiveStore live.old logs) line) }
{
    match line {
        Line::Write(zone, payload) => live_lines::write(live, zone, payload),
        Line::Dump(time, packed, body) => live_lines::dump(live, time, packed, body),
        Line::BeginWrite(zone, payload) => live_lines::begin_write(live, zone, payload),
        Line::BeginErase(zone) => live_lines::begin_erase(live, zone),
        Line::BeginDump(time, packed, body) => live_lines::begin_dump(live, time, packed, body),
        Line::Step(zone, count) => live_lines::step(live, zone, count),
        Line::Finish(zone) => live_lines::finish(live, zone),
        _ => unreachable!(),
    }
}

// A line of a live store that leaves the kernel as it is.
#[tactic(auto, using(crate::proofs::AnyLines::waits_for_stop, crate::proofs::AnyLines::elsewhere_live, crate::proofs::StateLines::blank_done, crate::proofs::StateLines::list_takes, crate::proofs::EraseLines::erase_done, crate::proofs::EraseLines::erase_refused))]
fn do_store(
    alloc: Global,
    live: &mut Live,
    logs: &mut Logs,
    line: Line,
) -> Result<Vec<u8>, LineError>
    requires fields { HasFields line }
    requires keeps { KeepsKernel line }
    ensures { MatchResult result (λ text. LineDone (LiveStore live.old logs.old) line
        (LiveStore live.new logs.new) text.items) (LineFails (LiveStore live.old logs.old) line) }
{
    match line {
        Line::Flip(_, _) | Line::BootPart(_) => Err(LineError::Refused(Cause::IsLive)),
        Line::KDump(_, _, _, _, _) | Line::CutAfter(_) | Line::Reserve(_) | Line::StoreNext(_, _) =>
            Err(LineError::Refused(Cause::NotHere)),
        Line::Blank => Ok(Vec::new(alloc)),
        Line::List => Ok(state_lines::list(alloc, logs)?),
        Line::Extract(name) => record_lines::extract(alloc, logs, &name),
        Line::Erase(name) => match erase(live, logs, name.as_slice()) {
            Ok(()) => Ok(Vec::new(alloc)),
            Err(e) => Err(e),
        },
        _ => match do_call(live, line) {
            Ok(()) => Ok(Vec::new(alloc)),
            Err(e) => Err(e),
        },
    }
}

#[tactic(auto, using(crate::proofs::Machines::stop_done, crate::proofs::Machines::booted_refused, crate::proofs::KernelLines::kmsg_line, crate::proofs::KernelLines::crash_time))]
fn do_live(
    alloc: Global,
    live: Live,
    logs: Logs,
    kernel: Kernel,
    line: Line,
) -> Result<(Machine, Vec<u8>), LineError>
    requires fields { HasFields line }
    requires few { kernel.crashes + 1 < 2 ^ 32 }
    ensures done { MatchResult result (λ r. MachineDone (LiveMachine live logs kernel) line r.0 r.1.items)
        (MachineFails (LiveMachine live logs kernel) line) }
    ensures count { IfOk result (λ r. crashes_of r.0 ≤ kernel.crashes + 1) }
{
    let (mut live, mut logs, mut kernel) = (live, logs, kernel);
    match line {
        Line::Boot => Err(LineError::Refused(Cause::IsLive)),
        Line::Stop => Ok((Machine::Off(state_lines::stop(live, logs)), Vec::new(alloc))),
        Line::KMsg(text) => match kernel_lines::print(&mut kernel, text.as_slice()) {
            Ok(()) => Ok((Machine::Live(live, logs, kernel), Vec::new(alloc))),
            Err(e) => Err(e),
        },
        Line::Crash(reason, time) => {
            match kernel_lines::crash(alloc, &mut live, &mut kernel, reason, time) {
                Ok(()) => Ok((Machine::Live(live, logs, kernel), Vec::new(alloc))),
                Err(e) => Err(e),
            }
        }
        _ => match do_store(alloc, &mut live, &mut logs, line) {
            Ok(text) => Ok((Machine::Live(live, logs, kernel), text)),
            Err(e) => Err(e),
        },
    }
}

// A boot of the store and its kernel.
#[tactic(auto, using(crate::proofs::Machines::boot_done, crate::proofs::Machines::boot_fails, crate::proofs::Machines::kernel_takes))]
fn boot(alloc: Global, off: Off) -> Result<(Machine, Vec<u8>), LineError>
    ensures done { MatchResult result (λ r. MachineDone (OffMachine off) Boot r.0 r.1.items)
        (MachineFails (OffMachine off) Boot) }
    ensures count { IfOk result (λ r. crashes_of r.0 ≡ 0) }
{
    let kernel = Kernel::new(alloc)?;
    match state_lines::boot(alloc, off) {
        Ok((live, logs, text)) => Ok((Machine::Live(live, logs, kernel), text)),
        Err(e) => Err(e),
    }
}

#[tactic(auto, using(crate::proofs::Machines::off_done, crate::proofs::Machines::off_refused, crate::proofs::Machines::off_fails, crate::proofs::AnyLines::waits_for_boot, crate::proofs::AnyLines::elsewhere_off, crate::proofs::StateLines::blank_done))]
fn do_off(alloc: Global, off: Off, line: Line) -> Result<(Machine, Vec<u8>), LineError>
    ensures done { MatchResult result (λ r. MachineDone (OffMachine off) line r.0 r.1.items)
        (MachineFails (OffMachine off) line) }
    ensures count { IfOk result (λ r. crashes_of r.0 ≡ 0) }
{
    match line {
        Line::Blank => Ok((Machine::Off(off), Vec::new(alloc))),
        Line::Flip(place, mask) => match off_lines::flip(off, place, mask) {
            Ok(off) => Ok((Machine::Off(off), Vec::new(alloc))),
            Err(cause) => Err(LineError::Refused(cause)),
        },
        Line::Boot => boot(alloc, off),
        Line::BootPart(limit) => match state_lines::boot_part(alloc, off, limit) {
            Ok((off, text)) => Ok((Machine::Off(off), text)),
            Err(e) => Err(e),
        },
        Line::KDump(_, _, _, _, _) | Line::CutAfter(_) | Line::Reserve(_) | Line::StoreNext(_, _) =>
            Err(LineError::Refused(Cause::NotHere)),
        _ => Err(LineError::Refused(Cause::IsOff)),
    }
}

/// Does a line, and gives what it prints. A line that is refused ends the session.
pub fn do_line(alloc: Global, machine: Machine, line: Line) -> Result<(Machine, Vec<u8>), LineError>
    requires fields { HasFields line }
    requires few { crashes_of machine + 1 < 2 ^ 32 }
    ensures done { MatchResult result (λ r. MachineDone machine line r.0 r.1.items) (MachineFails machine line) }
    ensures count { IfOk result (λ r. crashes_of r.0 ≤ crashes_of machine + 1) }
{
    match machine {
        Machine::Off(off) => do_off(alloc, off, line),
        Machine::Live(live, logs, kernel) => do_live(alloc, live, logs, kernel, line),
    }
}
