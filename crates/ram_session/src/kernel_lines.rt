// Lines of the kernel: what it prints, and its crashes.
ghost use Rattle.std.specs.Prelude.{◌≡◌, ℕ, ◌+◌, ◌<◌, ◌≤◌, ◌^◌, [], OnErr, MatchResult};
ghost use Rattle.std.specs.List.{find};
ghost use Rattle.zone_spec.specs.declared.Zone.{Zone as AZone};
ghost use Rattle.zone_spec.specs.Records.{is_of};
ghost use Rattle.zone_spec.specs.declared.Kind.TheVariants.{Dump as DumpKind};
ghost use Rattle.machine_spec.specs.Sound.{IsTime};
ghost use Rattle.prz_read.specs.Saving.{SavedLogs};
ghost use Rattle.ramoops.specs.LiveSeen.{LiveSeen};
ghost use Rattle.kmsg_dump.specs.Kept.{IsLine};
ghost use Rattle.grammar_spec.specs.declared.line.Line.TheVariants.{KMsg, Crash};
ghost use Rattle.ram_session.specs.Kernels.{first_room};
ghost use Rattle.ram_session.specs.Machines.{MachineDone, MachineFails};
ghost use Rattle.ram_session.specs.declared.kernel.Kernel.{Kernel as AKernel};
ghost use Rattle.ram_session.specs.declared.machine.Machine.TheVariants.{Live as LiveMachine};

use crate::Kernel;
use crate::live_lines::{begin_dump, dump};
use crate::machine::LineError;
use arrayvec::ArrayString;
use dump_records::line;
use kmsg_dump::Reason;
use outside::Bytes;
use ramoops::Live;
use script_spec::Cause;
use std::alloc::Global;
use zone_spec::{Kind, Time, Zone};

/// A line that the kernel prints, given without its newline.
#[tactic(auto, using(crate::proofs::KernelLines::print_done, crate::proofs::KernelLines::print_refused))]
pub fn print(kernel: &mut Kernel, text: &[u8]) -> Result<(), LineError>
    requires { IsLine text.now }
    ensures done { (live : LiveSeen) (logs : SavedLogs) → MatchResult result
        (λ _. MachineDone (LiveMachine live logs kernel.old) (KMsg text.now) (LiveMachine live logs kernel.new) [])
        (MachineFails (LiveMachine live logs kernel.old) (KMsg text.now)) }
    ensures count { kernel.new.crashes ≡ kernel.old.crashes }
    ensures unchanged { OnErr result (kernel.new ≡ kernel.old) }
{
    if kernel.log.push(text) {
        Ok(())
    } else {
        Err(LineError::Refused(Cause::TooLong))
    }
}

fn is_dump(zone: &Zone) -> bool
    ensures { result ≡ is_of DumpKind zone.now.name.kind }
{
    match zone.name.kind {
        Kind::Dump => true,
        Kind::Console | Kind::Ftrace | Kind::Pmsg => false,
    }
}

fn first_dump(zones: &[Zone]) -> Option<Zone>
    ensures { result ≡ find (λ (z : AZone). is_of DumpKind z.name.kind) zones.now }
{
    zones.iter().copied().find(|zone| is_dump(zone))
}

// The bytes that a dump zone has after the time line, or 0 if there is none; all dump zones are alike.
fn body_room(zones: &[Zone], time: Time) -> u32
    requires { IsTime time }
    ensures { result ≡ first_room zones.now time }
{
    let mut text = ArrayString::new();
    line(time, false, &mut text);
    match first_dump(zones) {
        Some(zone) => zone.cap.saturating_sub(text.len() as u32),
        None => 0,
    }
}

// Why a crash is not done if its body finds no memory. A dump is refused or not whatever its body is, so one that is
// begun without a body tells.
fn no_body(alloc: Global, live: &mut Live, time: Time) -> LineError
    requires { IsTime time }
    ensures { (logs : SavedLogs) (kernel : AKernel) (reason : ℕ)
        → MachineFails (LiveMachine live.old logs kernel) (Crash reason time) result }
{
    match begin_dump(live, time, false, Bytes::empty(alloc)) {
        Ok(()) => LineError::Memory,
        Err(e) => e,
    }
}

/// A crash: a dump of the message log, made whole. A refused one is not counted; it is refused also if there is no memory
/// for its body.
pub fn crash(
    alloc: Global,
    live: &mut Live,
    kernel: &mut Kernel,
    reason: u32,
    time: Time,
) -> Result<(), LineError>
    requires time { IsTime time }
    requires few { kernel.old.crashes + 1 < 2 ^ 32 }
    ensures done { (logs : SavedLogs) → MatchResult result
        (λ _. MachineDone (LiveMachine live.old logs kernel.old) (Crash reason time)
        (LiveMachine live.new logs kernel.new) [])
        (MachineFails (LiveMachine live.old logs kernel.old) (Crash reason time)) }
    ensures count { kernel.new.crashes ≤ kernel.old.crashes + 1 }
    ensures unchanged { OnErr result (kernel.new ≡ kernel.old) }
{
    let count = kernel.crashes + 1;
    let room = body_room(live.zones(), time);
    let body = match kernel.log.body(Reason::of_number(reason), count, room) {
        Ok(body) => body,
        Err(_) => return Err(no_body(alloc, live, time)),
    };
    match dump(live, time, false, body) {
        Ok(()) => {
            kernel.crashes = count;
            Ok(())
        }
        Err(e) => Err(e),
    }
}
