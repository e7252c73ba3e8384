// One image, from what holds it to the two outputs.
ghost use Rattle.std.specs.Prelude.{◌≡◌, ◌≤◌, OnOk, MatchResult};
ghost use Rattle.report_run.specs.Messages.{seen};
ghost use Rattle.report_run.specs.Images.{TellsLayout, IsNotTold, IsStopped, IsSoughtReport, IsNoSoughtReport};
ghost use Rattle.report_run.specs.Storages.{IsUnloggedReport, IsNoUnloggedReport};
ghost use Rattle.report_run.specs.Reports.{IsUnknownReport, IsNoUnknownReport, IsReport, IsNoReport};
ghost use Rattle.report_run.specs.Reports.{IsUnlaidReport, IsNoUnlaidReport};
ghost use Rattle.report_run.specs.Packed.{is_packed};
ghost use Rattle.report_tool.specs.Images.{IsReported};

use crate::boots::report_log;
use crate::failures::{Failure, stop_failure};
use crate::logs::held_log;
use crate::messages::Messages;
use crate::packed::{is_packed, report_packed};
use crate::plans::{Asked, sought_plan};
use crate::storages::{report_storage, storage_of};
use outside::{Failed, Load, Sink};
use region_report::Report;
use report_entry::Layouts;
use report_tool::{Format, Known, Plan, report};
use std::alloc::Global;

/// Lines on the layout: with a text, and to standard error for JSON and a page, so that none of them takes a layout in
/// silence.
pub fn tell_layout<O: Sink, E: Sink>(
    format: Format,
    lines: &str,
    out: &mut O,
    messages: &mut Messages<E>,
) -> Result<(), Failure>
    ensures told { MatchResult result
        (λ _. TellsLayout format lines.now (O.given out.old) (O.given out.new)
        (seen (E.given messages.old.errors) (E.faults messages.old.errors) messages.old.is_lost)
        (seen (E.given messages.new.errors) (E.faults messages.new.errors) messages.new.is_lost))
        (IsNotTold format lines.now (O.given out.old) (O.given out.new) (O.faults out.old) (O.faults out.new)
        (seen (E.given messages.old.errors) (E.faults messages.old.errors) messages.old.is_lost)
        (seen (E.given messages.new.errors) (E.faults messages.new.errors) messages.new.is_lost)) }
    ensures faultless { OnOk result (O.faults out.new ≡ O.faults out.old) }
{
    match format {
        Format::Text => match out.put(lines.as_bytes()) {
            Ok(()) => Ok(()),
            Err(Failed) => Err(Failure::Unwritten),
        },
        Format::Brief => Ok(()),
        _ => {
            messages.tell(lines.as_bytes());
            Ok(())
        }
    }
}

/// The report of an image by a plan.
pub fn report_by<M: Load, O: Sink>(
    alloc: Global,
    plan: &Plan,
    format: Format,
    path: &str,
    image: &mut M,
    out: &mut O,
) -> Result<Report, Failure>
    ensures reported { MatchResult result
        (IsReported format path.now plan.now (M.holds image.old) (O.given out.old) (O.given out.new))
        (IsStopped format path.now plan.now (M.holds image.old) (M.faults image.old) (M.faults image.new)
        (O.given out.old) (O.given out.new) (O.faults out.old) (O.faults out.new)) }
    ensures no_fault { OnOk result (M.faults image.new ≡ M.faults image.old) }
    ensures same { M.holds image.new ≡ M.holds image.old }
    ensures later { M.faults image.old ≤ M.faults image.new }
    ensures faultless { OnOk result (O.faults out.new ≡ O.faults out.old) }
{
    match report(alloc, plan, format, path, image, out) {
        Ok(report) => Ok(report),
        Err(stop) => Err(stop_failure(stop)),
    }
}

// The report of an image whose layout is looked for.
fn sought_report<M: Load, O: Sink, E: Sink>(
    alloc: Global,
    asked: &Asked,
    known: &Known,
    path: &str,
    image: &mut M,
    out: &mut O,
    messages: &mut Messages<E>,
) -> Result<Report, Failure>
    ensures reported { MatchResult result
        (IsSoughtReport asked.now known.now path.now (M.holds image.old) (O.given out.old) (O.given out.new)
        (seen (E.given messages.old.errors) (E.faults messages.old.errors) messages.old.is_lost)
        (seen (E.given messages.new.errors) (E.faults messages.new.errors) messages.new.is_lost))
        (IsNoSoughtReport asked.now known.now path.now (M.holds image.old) (M.faults image.old) (M.faults image.new)
        (O.given out.old) (O.given out.new) (O.faults out.old) (O.faults out.new)
        (seen (E.given messages.old.errors) (E.faults messages.old.errors) messages.old.is_lost)
        (seen (E.given messages.new.errors) (E.faults messages.new.errors) messages.new.is_lost)) }
    ensures no_fault { OnOk result (M.faults image.new ≡ M.faults image.old) }
    ensures faultless { OnOk result (O.faults out.new ≡ O.faults out.old) }
    ensures same { M.holds image.new ≡ M.holds image.old }
    ensures later { M.faults image.old ≤ M.faults image.new }
{
    let told = sought_plan(alloc, asked, known, path, image, messages)?;
    let report = report_by(alloc, &told.plan, asked.format, path, image, out)?;
    tell_layout(asked.format, &told.hint, out, messages)?;
    Ok(report)
}

// The report of an image that is no text log: as a storage, or by a layout that is looked for.
fn unlogged_report<M: Load, O: Sink, E: Sink>(
    alloc: Global,
    asked: &Asked,
    known: &Known,
    path: &str,
    image: &mut M,
    out: &mut O,
    messages: &mut Messages<E>,
) -> Result<Report, Failure>
    ensures reported { MatchResult result
        (IsUnloggedReport asked.now known.now path.now (M.holds image.old) (O.given out.old) (O.given out.new)
        (seen (E.given messages.old.errors) (E.faults messages.old.errors) messages.old.is_lost)
        (seen (E.given messages.new.errors) (E.faults messages.new.errors) messages.new.is_lost))
        (IsNoUnloggedReport asked.now known.now path.now (M.holds image.old) (M.faults image.old)
        (M.faults image.new) (O.given out.old) (O.given out.new) (O.faults out.old) (O.faults out.new)
        (seen (E.given messages.old.errors) (E.faults messages.old.errors) messages.old.is_lost)
        (seen (E.given messages.new.errors) (E.faults messages.new.errors) messages.new.is_lost)) }
    ensures no_fault { OnOk result (M.faults image.new ≡ M.faults image.old) }
    ensures faultless { OnOk result (O.faults out.new ≡ O.faults out.old) }
    ensures same { M.holds image.new ≡ M.holds image.old }
    ensures later { M.faults image.old ≤ M.faults image.new }
{
    match storage_of(alloc, asked.storages, image) {
        Ok(Some(storage)) => report_storage(alloc, asked, &storage, path, out, messages),
        Ok(None) => sought_report(alloc, asked, known, path, image, out, messages),
        Err(why) => Err(why),
    }
}

// The report of an image of which no layout is known: as a text log, as a storage, or by a layout that is looked for.
fn unknown_report<M: Load, O: Sink, E: Sink>(
    alloc: Global,
    asked: &Asked,
    known: &Known,
    path: &str,
    image: &mut M,
    out: &mut O,
    messages: &mut Messages<E>,
) -> Result<Report, Failure>
    ensures reported { MatchResult result
        (IsUnknownReport asked.now known.now path.now (M.holds image.old) (O.given out.old) (O.given out.new)
        (seen (E.given messages.old.errors) (E.faults messages.old.errors) messages.old.is_lost)
        (seen (E.given messages.new.errors) (E.faults messages.new.errors) messages.new.is_lost))
        (IsNoUnknownReport asked.now known.now path.now (M.holds image.old) (M.faults image.old)
        (M.faults image.new) (O.given out.old) (O.given out.new) (O.faults out.old) (O.faults out.new)
        (seen (E.given messages.old.errors) (E.faults messages.old.errors) messages.old.is_lost)
        (seen (E.given messages.new.errors) (E.faults messages.new.errors) messages.new.is_lost)) }
    ensures no_fault { OnOk result (M.faults image.new ≡ M.faults image.old) }
    ensures faultless { OnOk result (O.faults out.new ≡ O.faults out.old) }
    ensures same { M.holds image.new ≡ M.holds image.old }
    ensures later { M.faults image.old ≤ M.faults image.new }
{
    match held_log(alloc, asked.logs, image) {
        Ok(Some(log)) => report_log(alloc, asked, &log, path, out),
        Ok(None) => unlogged_report(alloc, asked, known, path, image, out, messages),
        Err(why) => Err(why),
    }
}

// The report of an image whose layout is not given: of a packed record its text.
fn unlaid_report<M: Load, O: Sink, E: Sink>(
    alloc: Global,
    asked: &Asked,
    known: &Known,
    path: &str,
    image: &mut M,
    out: &mut O,
    messages: &mut Messages<E>,
) -> Result<Report, Failure>
    ensures reported { let by = is_packed asked.now.logs path.now in
        MatchResult result
        (IsUnlaidReport by asked.now known.now path.now (M.holds image.old) (O.given out.old) (O.given out.new)
        (seen (E.given messages.old.errors) (E.faults messages.old.errors) messages.old.is_lost)
        (seen (E.given messages.new.errors) (E.faults messages.new.errors) messages.new.is_lost))
        (IsNoUnlaidReport by asked.now known.now path.now (M.holds image.old) (M.faults image.old)
        (M.faults image.new) (O.given out.old) (O.given out.new) (O.faults out.old) (O.faults out.new)
        (seen (E.given messages.old.errors) (E.faults messages.old.errors) messages.old.is_lost)
        (seen (E.given messages.new.errors) (E.faults messages.new.errors) messages.new.is_lost)) }
    ensures no_fault { OnOk result (M.faults image.new ≡ M.faults image.old) }
    ensures faultless { OnOk result (O.faults out.new ≡ O.faults out.old) }
    ensures same { M.holds image.new ≡ M.holds image.old }
    ensures later { M.faults image.old ≤ M.faults image.new }
{
    if is_packed(asked.logs, path) {
        report_packed(alloc, asked, path, image, out, messages)
    } else {
        unknown_report(alloc, asked, known, path, image, out, messages)
    }
}

/// The report of an image: what the format shows, and then the lines on its layout, where that is looked for. A text has
/// the lines below it; for JSON and a page standard error is given them. A text log is reported as the region that holds
/// its last boot, and then the boots before it, as is the text of a packed record, and a storage of the kernel's
/// pstore_zone as such.
pub fn report_image<M: Load, O: Sink, E: Sink>(
    alloc: Global,
    asked: &Asked,
    path: &str,
    image: &mut M,
    out: &mut O,
    messages: &mut Messages<E>,
) -> Result<Report, Failure>
    ensures reported { MatchResult result
        (IsReport asked.now.layouts asked.now path.now (M.holds image.old) (O.given out.old) (O.given out.new)
        (seen (E.given messages.old.errors) (E.faults messages.old.errors) messages.old.is_lost)
        (seen (E.given messages.new.errors) (E.faults messages.new.errors) messages.new.is_lost))
        (IsNoReport asked.now.layouts asked.now path.now (M.holds image.old) (M.faults image.old)
        (M.faults image.new) (O.given out.old) (O.given out.new) (O.faults out.old) (O.faults out.new)
        (seen (E.given messages.old.errors) (E.faults messages.old.errors) messages.old.is_lost)
        (seen (E.given messages.new.errors) (E.faults messages.new.errors) messages.new.is_lost)) }
    ensures no_fault { OnOk result (M.faults image.new ≡ M.faults image.old) }
    ensures faultless { OnOk result (O.faults out.new ≡ O.faults out.old) }
    ensures same { M.holds image.new ≡ M.holds image.old }
    ensures later { M.faults image.old ≤ M.faults image.new }
{
    match &asked.layouts {
        Layouts::Given(plan) => report_by(alloc, plan, asked.format, path, image, out),
        Layouts::Sought(known) => unlaid_report(alloc, asked, known, path, image, out, messages),
    }
}
