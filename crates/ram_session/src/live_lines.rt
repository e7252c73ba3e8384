// Lines while the machine is live: calls.
ghost use Rattle.std.specs.Prelude.{◌≡◌, [], MatchResult};
ghost use Rattle.prz_read.specs.Saving.{SavedLogs};
ghost use Rattle.machine_spec.specs.Sound.{IsTime};
ghost use Rattle.ram_session.specs.Sessions.{Live as LiveStore, LineDone, LineFails};
ghost use Rattle.grammar_spec.specs.declared.line.Line.TheVariants.{Write, Dump, BeginWrite, BeginErase, BeginDump};
ghost use Rattle.grammar_spec.specs.declared.line.Line.TheVariants.{Step, Finish};
ghost use Rattle.script_spec.specs.Scripts.{refusal_cause};

use crate::calls;
use crate::machine::LineError;
use outside::Bytes;
use ramoops::{Ask, Live, Refusal};
use script_spec::Cause;
use zone_spec::{Time, ZoneName};

fn cause(why: Refusal) -> Cause
    ensures { result ≡ refusal_cause why }
{
    match why {
        Refusal::NoZone => Cause::NoZone,
        Refusal::Busy => Cause::Busy,
        Refusal::Idle => Cause::Idle,
        Refusal::OutOfImage => Cause::OutOfImage,
    }
}

/// An append, made whole.
#[tactic(auto, using(crate::proofs::LiveLines::write_done, crate::proofs::LiveLines::write_refused))]
pub fn write(live: &mut Live, zone: ZoneName, payload: Bytes) -> Result<(), LineError>
    ensures { (logs : SavedLogs) → MatchResult result (λ _. LineDone (LiveStore live.old logs)
        (Write zone payload) (LiveStore live.new logs) [])
        (LineFails (LiveStore live.old logs) (Write zone payload)) }
{
    match calls::make(live, Ask::Append(zone, payload)) {
        Ok(()) => Ok(()),
        Err(why) => Err(LineError::Refused(cause(why))),
    }
}

/// So many stores of a flight, or all that are left.
#[tactic(auto, using(crate::proofs::LiveLines::step_done, crate::proofs::LiveLines::step_refused))]
pub fn step(live: &mut Live, zone: ZoneName, count: u32) -> Result<(), LineError>
    ensures { (logs : SavedLogs) → MatchResult result (λ _. LineDone (LiveStore live.old logs) (Step zone count)
        (LiveStore live.new logs) [])
        (LineFails (LiveStore live.old logs) (Step zone count)) }
{
    match calls::step(live, zone, u64::from(count)) {
        Ok(()) => Ok(()),
        Err(why) => Err(LineError::Refused(cause(why))),
    }
}

/// All stores that are left of a flight.
#[tactic(auto, using(crate::proofs::LiveLines::finish_done, crate::proofs::LiveLines::finish_refused))]
pub fn finish(live: &mut Live, zone: ZoneName) -> Result<(), LineError>
    ensures { (logs : SavedLogs) → MatchResult result (λ _. LineDone (LiveStore live.old logs) (Finish zone)
        (LiveStore live.new logs) [])
        (LineFails (LiveStore live.old logs) (Finish zone)) }
{
    match calls::finish(live, zone) {
        Ok(()) => Ok(()),
        Err(why) => Err(LineError::Refused(cause(why))),
    }
}

/// A dump, made whole.
#[tactic(auto, using(crate::proofs::LiveLines::dump_done, crate::proofs::LiveLines::dump_refused))]
pub fn dump(live: &mut Live, time: Time, packed: bool, body: Bytes) -> Result<(), LineError>
    requires { IsTime time }
    ensures { (logs : SavedLogs) → MatchResult result (λ _. LineDone (LiveStore live.old logs)
        (Dump time packed body) (LiveStore live.new logs) [])
        (LineFails (LiveStore live.old logs) (Dump time packed body)) }
{
    match calls::make(live, Ask::Dump(time, packed, body)) {
        Ok(()) => Ok(()),
        Err(why) => Err(LineError::Refused(cause(why))),
    }
}

/// An append that is begun.
#[tactic(auto, using(crate::proofs::LiveLines::begin_write_done, crate::proofs::LiveLines::begin_write_refused))]
pub fn begin_write(live: &mut Live, zone: ZoneName, payload: Bytes) -> Result<(), LineError>
    ensures { (logs : SavedLogs) → MatchResult result (λ _. LineDone (LiveStore live.old logs)
        (BeginWrite zone payload) (LiveStore live.new logs) [])
        (LineFails (LiveStore live.old logs) (BeginWrite zone payload)) }
{
    match calls::begin(live, Ask::Append(zone, payload)) {
        Ok(_) => Ok(()),
        Err(why) => Err(LineError::Refused(cause(why))),
    }
}

/// An erasure that is begun.
#[tactic(auto, using(crate::proofs::LiveLines::begin_erase_done, crate::proofs::LiveLines::begin_erase_refused))]
pub fn begin_erase(live: &mut Live, zone: ZoneName) -> Result<(), LineError>
    ensures { (logs : SavedLogs) → MatchResult result (λ _. LineDone (LiveStore live.old logs) (BeginErase zone)
        (LiveStore live.new logs) [])
        (LineFails (LiveStore live.old logs) (BeginErase zone)) }
{
    match calls::begin(live, Ask::Erase(zone)) {
        Ok(_) => Ok(()),
        Err(why) => Err(LineError::Refused(cause(why))),
    }
}

/// A dump that is begun.
#[tactic(auto, using(crate::proofs::LiveLines::begin_dump_done, crate::proofs::LiveLines::begin_dump_refused))]
pub fn begin_dump(live: &mut Live, time: Time, packed: bool, body: Bytes) -> Result<(), LineError>
    requires { IsTime time }
    ensures { (logs : SavedLogs) → MatchResult result (λ _. LineDone (LiveStore live.old logs)
        (BeginDump time packed body) (LiveStore live.new logs) [])
        (LineFails (LiveStore live.old logs) (BeginDump time packed body)) }
{
    match calls::begin(live, Ask::Dump(time, packed, body)) {
        Ok(_) => Ok(()),
        Err(why) => Err(LineError::Refused(cause(why))),
    }
}
