// The report of a region in a whole memory.
ghost use Rattle.std.specs.Prelude.{◌≡◌, ◌≤◌, string_bytes, IfOk, IfErr, OnOk, Some, MatchResult};
ghost use Rattle.report_tool.specs.Images.{IsReported};
ghost use Rattle.report_run.specs.Images.{IsStoppedAt, TellsLayout, IsNotTold};
ghost use Rattle.report_run.specs.Messages.{seen};
ghost use Rattle.report_run.specs.States.{folder, state};
ghost use Rattle.report_run.specs.Regions.{IsHeld, IsUnheld, IsPlaceDone, IsPlaceUndone, AreRegionLines, IsRegionPlan};
ghost use Rattle.report_run.specs.Regions.{IsRegionTold, IsRegionDone, IsRegionUndone};

use crate::failures::{Failure, unread_failure};
use crate::images::{report_by, tell_layout};
use crate::messages::Messages;
use crate::places::larger_line;
use crate::plans::{Asked, dressed};
use crate::read_only::ReadOnly;
use crate::records::{Records, save_asked};
use found_regions::Region;
use memory_regions::window;
use outside::{Load, Sink};
use region_report::Report;
use report_entry::taken_hint;
use report_tool::{Format, Found, Plan};
use std::alloc::{AllocError, Global};

// So many bytes of a memory from a place on.
fn bytes_at<M: Load>(
    alloc: Global,
    memory: &mut M,
    place: u64,
    size: u32,
) -> Result<Vec<u8>, Failure>
    ensures held { IfOk result (λ v. IsHeld place size (M.holds memory.old) v.items) }
    ensures unheld { IfErr result (IsUnheld place size (M.holds memory.old) (M.faults memory.old) (M.faults memory.new)) }
    ensures no_fault { OnOk result (M.faults memory.new ≡ M.faults memory.old) }
    ensures same { M.holds memory.new ≡ M.holds memory.old }
    ensures later { M.faults memory.old ≤ M.faults memory.new }
{
    let Ok(has) = memory.size() else {
        return Err(Failure::Unread);
    };
    if place > has || u64::from(size) > has - place {
        return Err(Failure::Beyond { has, size, place });
    }
    match window(alloc, memory, place, size) {
        Ok(bytes) => Ok(bytes),
        Err(unread) => Err(unread_failure(unread)),
    }
}

// The report of bytes by a plan.
fn report_bytes<O: Sink>(
    alloc: Global,
    asked: &Asked,
    plan: &Plan,
    name: &str,
    bytes: Vec<u8>,
    out: &mut O,
) -> Result<Report, Failure>
    ensures reported { MatchResult result
        (IsReported asked.now.format name.now plan.now (Some bytes.items) (O.given out.old) (O.given out.new))
        (IsStoppedAt asked.now.format name.now plan.now bytes.items (O.given out.old) (O.given out.new)
        (O.faults out.old) (O.faults out.new)) }
    ensures faultless { OnOk result (O.faults out.new ≡ O.faults out.old) }
{
    let mut image = ReadOnly::new(bytes);
    report_by(alloc, plan, asked.format, name, &mut image, out)
}

/// The report of the region at a place of a memory by a plan, and its records saved, if that is asked for.
pub fn report_place<M: Load, O: Sink, F: Records>(
    alloc: Global,
    asked: &Asked,
    plan: &Plan,
    name: &str,
    place: u64,
    memory: &mut M,
    out: &mut O,
    records: &mut F,
) -> Result<(), Failure>
    ensures done { MatchResult result
        (λ _. IsPlaceDone asked.now plan.now name.now place (M.holds memory.old) (O.given out.old) (O.given out.new)
        (folder (F.made records.old) (F.faults records.old)) (folder (F.made records.new) (F.faults records.new)))
        (IsPlaceUndone asked.now plan.now name.now place (M.holds memory.old) (M.faults memory.old)
        (M.faults memory.new) (O.given out.old) (O.given out.new) (O.faults out.old) (O.faults out.new)
        (folder (F.made records.old) (F.faults records.old)) (folder (F.made records.new) (F.faults records.new))) }
    ensures no_fault { OnOk result (M.faults memory.new ≡ M.faults memory.old) }
    ensures same { M.holds memory.new ≡ M.holds memory.old }
    ensures later { M.faults memory.old ≤ M.faults memory.new }
    ensures faultless { OnOk result (O.faults out.new ≡ O.faults out.old) }
{
    let bytes = bytes_at(alloc, memory, place, plan.mem())?;
    let report = report_bytes(alloc, asked, plan, name, bytes, out)?;
    save_asked(asked.saves, &report, records)?;
    Ok(())
}

/// What is told of a region that was found: the lines on it, and the plan by which it is read.
#[derive(Drop)]
pub struct RegionTold {
    pub lines: String,
    pub plan: Plan,
}

fn region_lines(alloc: Global, name: &str, region: &Region) -> Result<String, AllocError>
    ensures { IfOk result (λ lines. AreRegionLines name.now region.now (string_bytes lines)) }
{
    let mut lines = taken_hint(alloc, name, region.found.candidate.mem, &region.found)?;
    let larger = larger_line(alloc, region.larger)?;
    lines.push_str(&larger)?;
    Ok(lines)
}

fn region_plan(alloc: Global, asked: &Asked, found: &Found) -> Result<Plan, AllocError>
    ensures { IfOk result (IsRegionPlan asked.now found.now) }
{
    match Plan::of_candidate(alloc, &found.candidate) {
        Ok(plan) => {
            let plan = dressed(alloc, plan, asked.lines, &asked.map)?;
            Ok(plan)
        }
        Err(_) => Err(AllocError),
    }
}

fn region_told(
    alloc: Global,
    asked: &Asked,
    name: &str,
    region: &Region,
) -> Result<RegionTold, AllocError>
    ensures { IfOk result (IsRegionTold asked.now name.now region.now) }
{
    let plan = region_plan(alloc, asked, &region.found)?;
    let lines = region_lines(alloc, name, region)?;
    Ok(RegionTold { lines, plan })
}

fn tell_region<O: Sink, E: Sink>(
    format: Format,
    told: &RegionTold,
    out: &mut O,
    messages: &mut Messages<E>,
) -> Result<(), Failure>
    ensures told { MatchResult result
        (λ _. TellsLayout format (string_bytes told.now.lines) (O.given out.old) (O.given out.new)
        (seen (E.given messages.old.errors) (E.faults messages.old.errors) messages.old.is_lost)
        (seen (E.given messages.new.errors) (E.faults messages.new.errors) messages.new.is_lost))
        (IsNotTold format (string_bytes told.now.lines) (O.given out.old) (O.given out.new) (O.faults out.old)
        (O.faults out.new)
        (seen (E.given messages.old.errors) (E.faults messages.old.errors) messages.old.is_lost)
        (seen (E.given messages.new.errors) (E.faults messages.new.errors) messages.new.is_lost)) }
    ensures faultless { OnOk result (O.faults out.new ≡ O.faults out.old) }
{
    tell_layout(format, &told.lines, out, messages)
}

/// A region that was found, under a name: its report, its records saved, if that is asked for, and the lines on it.
pub fn report_region<M: Load, O: Sink, E: Sink, F: Records>(
    alloc: Global,
    asked: &Asked,
    name: &str,
    region: &Region,
    memory: &mut M,
    out: &mut O,
    messages: &mut Messages<E>,
    records: &mut F,
) -> Result<(), Failure>
    ensures done { let before = state (O.given out.old) (O.faults out.old)
        (seen (E.given messages.old.errors) (E.faults messages.old.errors) messages.old.is_lost)
        (folder (F.made records.old) (F.faults records.old)) in
        let after = state (O.given out.new) (O.faults out.new)
        (seen (E.given messages.new.errors) (E.faults messages.new.errors) messages.new.is_lost)
        (folder (F.made records.new) (F.faults records.new)) in
        MatchResult result
        (λ _. IsRegionDone asked.now name.now region.now (M.holds memory.old) before after)
        (IsRegionUndone asked.now name.now region.now (M.holds memory.old) (M.faults memory.old) (M.faults memory.new)
        before after) }
    ensures no_fault { OnOk result (M.faults memory.new ≡ M.faults memory.old) }
    ensures same { M.holds memory.new ≡ M.holds memory.old }
    ensures later { M.faults memory.old ≤ M.faults memory.new }
{
    let told = region_told(alloc, asked, name, region)?;
    report_place(
        alloc,
        asked,
        &told.plan,
        name,
        region.place,
        memory,
        out,
        records,
    )?;
    tell_region(asked.format, &told, out, messages)?;
    Ok(())
}
