// Lines that boot, stop or list.
ghost use Rattle.std.specs.Prelude.{[], IfOk, MatchResult};
ghost use Rattle.ram_session.specs.Sessions.{Off as OffStore, Live as LiveStore, LineDone, LineFails};
ghost use Rattle.grammar_spec.specs.declared.line.Line.TheVariants.{Boot, BootPart, Stop, List as ListLine};
ghost use Rattle.ramoops.specs.LiveSeen.{LiveSeen};

use crate::machine::LineError;
use crate::texts::{boot_text, listing, part_text};
use prz_read::Logs;
use ramoops::{Live, Off};
use std::alloc::{AllocError, Global};

/// A boot, with the text of what it reads.
#[tactic(auto, using(crate::proofs::StateLines::boot_done, crate::proofs::StateLines::boot_takes))]
pub fn boot(alloc: Global, off: Off) -> Result<(Live, Logs, Vec<u8>), LineError>
    ensures { MatchResult result (λ r. LineDone (OffStore off) Boot (LiveStore r.0 r.1) r.2.items)
        (LineFails (OffStore off) Boot) }
{
    let (live, logs, report) = match off.boot() {
        Ok(booted) => booted,
        Err(_) => return Err(LineError::Memory),
    };
    let text = boot_text(alloc, &logs, &report)?;
    Ok((live, logs, text))
}

/// A boot that is stopped after so many stores, or after its last.
#[tactic(auto, using(crate::proofs::StateLines::part_done, crate::proofs::StateLines::part_takes))]
pub fn boot_part(alloc: Global, off: Off, limit: u32) -> Result<(Off, Vec<u8>), LineError>
    ensures { MatchResult result (λ r. LineDone (OffStore off) (BootPart limit) (OffStore r.0) r.1.items)
        (LineFails (OffStore off) (BootPart limit)) }
{
    let (off, made) = match off.boot_part(u64::from(limit)) {
        Ok(parted) => parted,
        Err(_) => return Err(LineError::Memory),
    };
    let text = part_text(alloc, made)?;
    Ok((off, text))
}

/// A stop.
#[tactic(auto, using(crate::proofs::StateLines::stop_done))]
pub fn stop(live: Live, logs: Logs) -> Off
    ensures { LineDone (LiveStore live logs) Stop (OffStore result) [] }
{
    let _numbered = logs.len(); // what a list of logs keeps, for the proof
    live.stop()
}

/// The listing of the last boot's records.
#[tactic(auto, using(crate::proofs::StateLines::list_done))]
pub fn list(alloc: Global, logs: &Logs) -> Result<Vec<u8>, AllocError>
    ensures { IfOk result (λ text. (live : LiveSeen) → LineDone (LiveStore live logs.now) ListLine
        (LiveStore live logs.now) text.items) }
{
    listing(alloc, logs)
}
