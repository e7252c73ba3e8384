// A record that pstore left packed: the report of its text.
ghost use Rattle.std.specs.Prelude.{◌≡◌, ◌≤◌, IfOk, IfErr, OnOk, MatchResult};
ghost use Rattle.report_run.specs.Messages.{seen};
ghost use Rattle.report_run.specs.Packed.{takes_logs, is_packed, IsPackedLog, IsUninflated, IsPackedReport};
ghost use Rattle.report_run.specs.Packed.{IsNoPackedReport};

use crate::boots::{HeldLog, held_text, report_log};
use crate::failures::{Failure, stop_failure};
use crate::logs::MOST_LOG;
use crate::messages::Messages;
use crate::plans::{Asked, Logs};
use image_file::load_front;
use outside::{Load, Sink};
use packed_record::{PackedText, is_packed_name, packed_text};
use region_report::{Report, TextFault};
use std::alloc::Global;

fn takes_logs(logs: Logs) -> bool
    ensures { result ≡ takes_logs logs }
{
    match logs {
        Logs::Never => false,
        Logs::Texts => true,
        Logs::All => true,
    }
}

/// Whether the file at a path is taken as a packed record.
pub fn is_packed(logs: Logs, path: &str) -> bool
    ensures { result ≡ is_packed logs path.now }
{
    takes_logs(logs) && is_packed_name(path)
}

/// A packed record's text as a log, and why no more of it inflates.
#[derive(Drop)]
pub struct PackedLog {
    pub log: HeldLog,
    pub fault: Option<TextFault>,
}

fn packed_log<M: Load>(alloc: Global, image: &mut M) -> Result<PackedLog, Failure>
    ensures held { IfOk result (IsPackedLog (M.holds image.old)) }
    ensures unheld { IfErr result (IsUninflated (M.holds image.old) (M.faults image.old) (M.faults image.new)) }
    ensures no_fault { OnOk result (M.faults image.new ≡ M.faults image.old) }
    ensures same { M.holds image.new ≡ M.holds image.old }
    ensures later { M.faults image.old ≤ M.faults image.new }
{
    let bytes = match load_front(alloc, image, MOST_LOG) {
        Ok(bytes) => bytes,
        Err(stop) => return Err(stop_failure(stop)),
    };
    let PackedText { text, fault } = packed_text(alloc, &bytes, MOST_LOG as usize)?;
    if text.is_empty() {
        return Err(Failure::NoText);
    }
    let log = held_text(alloc, text, 0)?;
    Ok(PackedLog { log, fault })
}

/// The report of a packed record's text.
pub fn report_packed<M: Load, O: Sink, E: Sink>(
    alloc: Global,
    asked: &Asked,
    path: &str,
    image: &mut M,
    out: &mut O,
    messages: &mut Messages<E>,
) -> Result<Report, Failure>
    ensures reported { MatchResult result
        (IsPackedReport asked.now path.now (M.holds image.old) (O.given out.old) (O.given out.new)
        (seen (E.given messages.old.errors) (E.faults messages.old.errors) messages.old.is_lost)
        (seen (E.given messages.new.errors) (E.faults messages.new.errors) messages.new.is_lost))
        (IsNoPackedReport asked.now path.now (M.holds image.old) (M.faults image.old) (M.faults image.new)
        (O.given out.old) (O.given out.new) (O.faults out.old) (O.faults out.new)
        (seen (E.given messages.old.errors) (E.faults messages.old.errors) messages.old.is_lost)
        (seen (E.given messages.new.errors) (E.faults messages.new.errors) messages.new.is_lost)) }
    ensures no_fault { OnOk result (M.faults image.new ≡ M.faults image.old) }
    ensures faultless { OnOk result (O.faults out.new ≡ O.faults out.old) }
    ensures same { M.holds image.new ≡ M.holds image.old }
    ensures later { M.faults image.old ≤ M.faults image.new }
{
    let PackedLog { log, fault } = packed_log(alloc, image)?;
    messages.tell_part(path, fault);
    report_log(alloc, asked, &log, path, out)
}
