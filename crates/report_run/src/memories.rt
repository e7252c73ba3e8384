// A whole memory: the regions in it, one after another.
ghost use Rattle.std.specs.Prelude.{◌≡◌, ◌≤◌, ◌<◌, length, slice_get, Some, OnOk, MatchResult};
ghost use Rattle.report_run.specs.Messages.{seen};
ghost use Rattle.report_run.specs.States.{folder, state};
ghost use Rattle.report_run.specs.Memories.{IsNamedDone, IsNamedUndone, AreRegionsDone, AreRegionsUndone};
ghost use Rattle.report_run.specs.Memories.{IsByGiven, IsNotByGiven, IsBySearch};
ghost use Rattle.report_run.specs.Memories.{IsNotBySearch, IsMemoryDone, IsMemoryUndone};

use crate::choosing::regions_asked;
use crate::failures::Failure;
use crate::messages::Messages;
use crate::places::region_name;
use crate::plans::{Asked, WholeMemory};
use crate::records::Records;
use crate::regions::{report_place, report_region};
use found_regions::{Region, Watch};
use outside::{Load, Sink};
use report_entry::Layouts;
use report_tool::{Known, Plan};
use std::alloc::Global;

// A region, under the name that its place gives it.
fn report_named<M: Load, O: Sink, E: Sink, F: Records>(
    alloc: Global,
    asked: &Asked,
    path: &str,
    base: u64,
    region: &Region,
    memory: &mut M,
    out: &mut O,
    messages: &mut Messages<E>,
    records: &mut F,
) -> Result<(), Failure>
    ensures done { let before = state (O.given out.old) (O.faults out.old)
        (seen (E.given messages.old.errors) (E.faults messages.old.errors) messages.old.is_lost)
        (folder (F.made records.old) (F.faults records.old)) in
        let after = state (O.given out.new) (O.faults out.new)
        (seen (E.given messages.new.errors) (E.faults messages.new.errors) messages.new.is_lost)
        (folder (F.made records.new) (F.faults records.new)) in
        MatchResult result
        (λ _. IsNamedDone asked.now path.now base region.now (M.holds memory.old) before after)
        (IsNamedUndone asked.now path.now base region.now (M.holds memory.old) (M.faults memory.old)
        (M.faults memory.new) before after) }
    ensures no_fault { OnOk result (M.faults memory.new ≡ M.faults memory.old) }
    ensures same { M.holds memory.new ≡ M.holds memory.old }
    ensures later { M.faults memory.old ≤ M.faults memory.new }
{
    let name = region_name(alloc, path, base, region.place)?;
    report_region(alloc, asked, &name, region, memory, out, messages, records)
}

fn nth_region(regions: &[Region], i: usize) -> Region
    requires { i < length regions.now }
    ensures { slice_get regions.now i ≡ Some result }
{
    regions[i]
}

// Regions, one after another. The first that fails ends it.
fn report_regions<M: Load, O: Sink, E: Sink, F: Records>(
    alloc: Global,
    asked: &Asked,
    path: &str,
    base: u64,
    regions: &[Region],
    memory: &mut M,
    out: &mut O,
    messages: &mut Messages<E>,
    records: &mut F,
) -> Result<(), Failure>
    ensures done { let before = state (O.given out.old) (O.faults out.old)
        (seen (E.given messages.old.errors) (E.faults messages.old.errors) messages.old.is_lost)
        (folder (F.made records.old) (F.faults records.old)) in
        let after = state (O.given out.new) (O.faults out.new)
        (seen (E.given messages.new.errors) (E.faults messages.new.errors) messages.new.is_lost)
        (folder (F.made records.new) (F.faults records.new)) in
        MatchResult result
        (λ _. AreRegionsDone asked.now path.now base (M.holds memory.old) regions.now before after)
        (AreRegionsUndone asked.now path.now base (M.holds memory.old) (M.faults memory.old) (M.faults memory.new)
        regions.now before after) }
    ensures no_fault { OnOk result (M.faults memory.new ≡ M.faults memory.old) }
    ensures same { M.holds memory.new ≡ M.holds memory.old }
    ensures later { M.faults memory.old ≤ M.faults memory.new }
{
    for i in 0..regions.len() {
        let region = nth_region(regions, i);
        report_named(
            alloc, asked, path, base, &region, memory, out, messages, records,
        )?;
    }
    Ok(())
}

// The region at the place that is named, by a plan that is given.
fn report_given<M: Load, O: Sink, F: Records>(
    alloc: Global,
    asked: &Asked,
    plan: &Plan,
    path: &str,
    whole: WholeMemory,
    memory: &mut M,
    out: &mut O,
    records: &mut F,
) -> Result<(), Failure>
    ensures done { MatchResult result
        (λ _. IsByGiven whole.place asked.now plan.now path.now whole.base (M.holds memory.old) (O.given out.old)
        (O.given out.new) (folder (F.made records.old) (F.faults records.old))
        (folder (F.made records.new) (F.faults records.new)))
        (IsNotByGiven whole.place asked.now plan.now path.now whole.base (M.holds memory.old) (M.faults memory.old)
        (M.faults memory.new) (O.given out.old) (O.given out.new) (O.faults out.old) (O.faults out.new)
        (folder (F.made records.old) (F.faults records.old)) (folder (F.made records.new) (F.faults records.new))) }
    ensures no_fault { OnOk result (M.faults memory.new ≡ M.faults memory.old) }
    ensures faultless { OnOk result (O.faults out.new ≡ O.faults out.old) }
    ensures same { M.holds memory.new ≡ M.holds memory.old }
    ensures later { M.faults memory.old ≤ M.faults memory.new }
{
    let Some(place) = whole.place else {
        return Err(Failure::NoPlace);
    };
    let name = region_name(alloc, path, whole.base, place)?;
    report_place(alloc, asked, plan, &name, place, memory, out, records)
}

// The regions that are chosen, by layouts that are looked for.
fn report_sought<M: Load, W: Watch, O: Sink, E: Sink, F: Records>(
    alloc: Global,
    asked: &Asked,
    known: &Known,
    path: &str,
    whole: WholeMemory,
    memory: &mut M,
    watch: &mut W,
    out: &mut O,
    messages: &mut Messages<E>,
    records: &mut F,
) -> Result<(), Failure>
    ensures done { let before = state (O.given out.old) (O.faults out.old)
        (seen (E.given messages.old.errors) (E.faults messages.old.errors) messages.old.is_lost)
        (folder (F.made records.old) (F.faults records.old)) in
        let after = state (O.given out.new) (O.faults out.new)
        (seen (E.given messages.new.errors) (E.faults messages.new.errors) messages.new.is_lost)
        (folder (F.made records.new) (F.faults records.new)) in
        MatchResult result
        (λ _. IsBySearch asked.now whole known.now path.now (M.holds memory.old) before after)
        (IsNotBySearch asked.now whole known.now path.now (M.holds memory.old) (M.faults memory.old)
        (M.faults memory.new) before after) }
    ensures no_fault { OnOk result (M.faults memory.new ≡ M.faults memory.old) }
    ensures same { M.holds memory.new ≡ M.holds memory.old }
    ensures later { M.faults memory.old ≤ M.faults memory.new }
{
    let regions = regions_asked(alloc, asked, known, path, whole, memory, watch, messages)?;
    report_regions(
        alloc, asked, path, whole.base, &regions, memory, out, messages, records,
    )?;
    Ok(())
}

/// The regions of a whole memory: the one at the place that is named, or all that are found, and their records saved, if
/// that is asked for.
pub fn report_memory<M: Load, W: Watch, O: Sink, E: Sink, F: Records>(
    alloc: Global,
    asked: &Asked,
    path: &str,
    whole: WholeMemory,
    memory: &mut M,
    watch: &mut W,
    out: &mut O,
    messages: &mut Messages<E>,
    records: &mut F,
) -> Result<(), Failure>
    ensures done { let before = state (O.given out.old) (O.faults out.old)
        (seen (E.given messages.old.errors) (E.faults messages.old.errors) messages.old.is_lost)
        (folder (F.made records.old) (F.faults records.old)) in
        let after = state (O.given out.new) (O.faults out.new)
        (seen (E.given messages.new.errors) (E.faults messages.new.errors) messages.new.is_lost)
        (folder (F.made records.new) (F.faults records.new)) in
        MatchResult result
        (λ _. IsMemoryDone asked.now.layouts asked.now whole path.now (M.holds memory.old) before after)
        (IsMemoryUndone asked.now.layouts asked.now whole path.now (M.holds memory.old) (M.faults memory.old)
        (M.faults memory.new) before after) }
    ensures no_fault { OnOk result (M.faults memory.new ≡ M.faults memory.old) }
    ensures same { M.holds memory.new ≡ M.holds memory.old }
    ensures later { M.faults memory.old ≤ M.faults memory.new }
{
    match &asked.layouts {
        Layouts::Given(plan) => report_given(alloc, asked, plan, path, whole, memory, out, records),
        Layouts::Sought(known) => report_sought(
            alloc, asked, known, path, whole, memory, watch, out, messages, records,
        ),
    }
}
