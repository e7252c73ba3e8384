// Which regions of a whole memory are reported.
ghost use Rattle.std.specs.Prelude.{◌≡◌, ◌≤◌, [], ◌∷◌, string_bytes, IfOk, OnOk, MatchResult};
ghost use Rattle.report_run.specs.Failures.{IsUnread};
ghost use Rattle.report_run.specs.Places.{regions_in, finding_lines};
ghost use Rattle.report_run.specs.Messages.{seen};
ghost use Rattle.report_run.specs.Choice.{IsThere, IsNotThere, is_html, must_choose, AreTaken, AreRefused, IsFoundBy};
ghost use Rattle.report_run.specs.Choice.{AreFound, AreNotFound, AreChosen, AreUnchosen};

use crate::failures::{Failure, unread_failure};
use crate::messages::Messages;
use crate::places::{finding_lines, places_text, regions_in};
use crate::plans::{Asked, WholeMemory};
use found_regions::{Finding, Region, Watch, findings, region_at};
use outside::{Load, Sink};
use report_tool::{Format, Known};
use std::alloc::{AllocError, Global};

fn only(alloc: Global, region: Region) -> Result<Vec<Region>, AllocError>
    ensures { IfOk result (λ regions. regions.items ≡ region ∷ []) }
{
    Ok(vec![in alloc; region]?)
}

// The region at the place that is named.
fn region_there<M: Load>(
    alloc: Global,
    known: &Known,
    place: u64,
    memory: &mut M,
) -> Result<Vec<Region>, Failure>
    ensures there { MatchResult result (λ regions. IsThere known.now place (M.holds memory.old) regions.items)
        (IsNotThere known.now place (M.holds memory.old) (M.faults memory.old) (M.faults memory.new)) }
    ensures no_fault { OnOk result (M.faults memory.new ≡ M.faults memory.old) }
    ensures same { M.holds memory.new ≡ M.holds memory.old }
    ensures later { M.faults memory.old ≤ M.faults memory.new }
{
    match region_at(alloc, memory, known, place) {
        Ok(Some(region)) => Ok(only(alloc, region)?),
        Ok(None) => Err(Failure::NotThere),
        Err(unread) => Err(unread_failure(unread)),
    }
}

fn is_html(format: Format) -> bool
    ensures { result ≡ is_html format }
{
    matches!(format, Format::Html)
}

// Whether one of several regions must be chosen.
fn must_choose(asked: &Asked, regions: &[Region]) -> bool
    ensures { result ≡ must_choose asked.now regions.now }
{
    (is_html(asked.format) || asked.saves) && regions.len() > 1
}

// Whether the regions that were found are reported.
fn judge(alloc: Global, asked: &Asked, base: u64, regions: &[Region]) -> Result<(), Failure>
    ensures { MatchResult result (λ _. AreTaken asked.now regions.now) (AreRefused asked.now base regions.now) }
{
    if regions.is_empty() {
        return Err(Failure::NoRegion);
    }
    if must_choose(asked, regions) {
        let places = places_text(alloc, base, regions)?;
        return Err(Failure::Several(places));
    }
    Ok(())
}

// What was found: the regions, and the lines on what is none.
#[derive(Drop)]
struct Survey {
    lines: String,
    regions: Vec<Region>,
}

fn survey_of(
    alloc: Global,
    path: &str,
    base: u64,
    findings: &[Finding],
) -> Result<Survey, AllocError>
    ensures lines { IfOk result (λ s. string_bytes s.lines ≡ finding_lines path.now base findings.now) }
    ensures regions { IfOk result (λ s. s.regions.items ≡ regions_in findings.now) }
{
    let regions = regions_in(alloc, findings)?;
    let lines = finding_lines(alloc, path, base, findings)?;
    Ok(Survey { lines, regions })
}

// What was found in the memory.
fn searched<M: Load, W: Watch>(
    alloc: Global,
    known: &Known,
    path: &str,
    base: u64,
    memory: &mut M,
    watch: &mut W,
) -> Result<Survey, Failure>
    ensures found { MatchResult result (IsFoundBy known.now path.now base (M.holds memory.old))
        (IsUnread (M.faults memory.old) (M.faults memory.new)) }
    ensures no_fault { OnOk result (M.faults memory.new ≡ M.faults memory.old) }
    ensures same { M.holds memory.new ≡ M.holds memory.old }
    ensures later { M.faults memory.old ≤ M.faults memory.new }
{
    let findings = match findings(alloc, memory, known, watch) {
        Ok(findings) => findings,
        Err(unread) => return Err(unread_failure(unread)),
    };
    let survey = survey_of(alloc, path, base, &findings)?;
    Ok(survey)
}

// All regions that are found. What is no region is told.
fn regions_found<M: Load, W: Watch, E: Sink>(
    alloc: Global,
    asked: &Asked,
    known: &Known,
    path: &str,
    base: u64,
    memory: &mut M,
    watch: &mut W,
    messages: &mut Messages<E>,
) -> Result<Vec<Region>, Failure>
    ensures found { MatchResult result (λ regions. AreFound asked.now known.now path.now base (M.holds memory.old)
        (seen (E.given messages.old.errors) (E.faults messages.old.errors) messages.old.is_lost)
        (seen (E.given messages.new.errors) (E.faults messages.new.errors) messages.new.is_lost)
        regions.items)
        (AreNotFound asked.now known.now path.now base (M.holds memory.old) (M.faults memory.old) (M.faults memory.new)
        (seen (E.given messages.old.errors) (E.faults messages.old.errors) messages.old.is_lost)
        (seen (E.given messages.new.errors) (E.faults messages.new.errors) messages.new.is_lost)) }
    ensures no_fault { OnOk result (M.faults memory.new ≡ M.faults memory.old) }
    ensures same { M.holds memory.new ≡ M.holds memory.old }
    ensures later { M.faults memory.old ≤ M.faults memory.new }
{
    let Survey { lines, regions } = searched(alloc, known, path, base, memory, watch)?;
    messages.tell(lines.as_bytes());
    judge(alloc, asked, base, &regions)?;
    Ok(regions)
}

/// The regions that are reported: the one at the place that is named, or all that are found.
pub fn regions_asked<M: Load, W: Watch, E: Sink>(
    alloc: Global,
    asked: &Asked,
    known: &Known,
    path: &str,
    whole: WholeMemory,
    memory: &mut M,
    watch: &mut W,
    messages: &mut Messages<E>,
) -> Result<Vec<Region>, Failure>
    ensures chosen { MatchResult result (λ regions. AreChosen whole.place asked.now known.now path.now whole.base
        (M.holds memory.old)
        (seen (E.given messages.old.errors) (E.faults messages.old.errors) messages.old.is_lost)
        (seen (E.given messages.new.errors) (E.faults messages.new.errors) messages.new.is_lost)
        regions.items)
        (AreUnchosen whole.place asked.now known.now path.now whole.base (M.holds memory.old) (M.faults memory.old)
        (M.faults memory.new)
        (seen (E.given messages.old.errors) (E.faults messages.old.errors) messages.old.is_lost)
        (seen (E.given messages.new.errors) (E.faults messages.new.errors) messages.new.is_lost)) }
    ensures no_fault { OnOk result (M.faults memory.new ≡ M.faults memory.old) }
    ensures same { M.holds memory.new ≡ M.holds memory.old }
    ensures later { M.faults memory.old ≤ M.faults memory.new }
{
    match whole.place {
        Some(place) => region_there(alloc, known, place, memory),
        None => regions_found(
            alloc, asked, known, path, whole.base, memory, watch, messages,
        ),
    }
}
