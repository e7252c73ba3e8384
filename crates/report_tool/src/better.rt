// Another layout that explains an image better than the one that was given.
ghost use Rattle.std.specs.Prelude.{◌≡◌, ◌≤◌, length, take, string_bytes, IfOk, IfErr};
ghost use Rattle.std.specs.List.{list_any, count_by};
ghost use Rattle.command_spec.specs.declared.Stop.TheVariants.{ImageFault};
ghost use Rattle.script_spec.specs.Playing.{KeptUnless};
ghost use Rattle.image_file.specs.Loading.{FrontStop};
ghost use Rattle.region_report.specs.Reports.{IsReport};
ghost use Rattle.report_tool.specs.LayoutWords.{layout_words};
ghost use Rattle.report_spec.specs.Warnings.{is_bad as is_bad_state, has_bad_part};
ghost use Rattle.report_tool.specs.Better.{doubts_layout, reads_badly, tells_death, bad_zones, any_parity, has_parity};
ghost use Rattle.report_tool.specs.Better.{is_vouched, leaves_doubt, checks_more, explains_more, words_if, AreWordsOf, AreTakenWords};
ghost use Rattle.report_tool.specs.Better.{AreOtherWords, AreSoughtWords, is_doubted, IsBetter, IsWordsStop};

use crate::finding::{MOST, known};
use crate::images::report_of_bytes;
use crate::words::layout_words;
use crate::{Plan, Stop};
use image_file::load_front;
use layout_search::{Candidate, Found, search};
use outside::{Bytes, Load};
use region_report::{PartState, Report, Warning, ZoneParts, death_told, warnings_by};
use std::alloc::{AllocError, Global};
use zone_spec::Zone;

fn doubts_layout(warning: Warning) -> bool
    ensures { result ≡ doubts_layout warning }
{
    matches!(warning, Warning::NoLog | Warning::ManyBad(_))
}

fn any_doubts(warnings: &[Warning]) -> bool
    ensures { result ≡ list_any doubts_layout warnings.now }
{
    warnings.iter().any(|warning| doubts_layout(*warning))
}

// Whether no zone has a log, or more than half of them have bad parts.
fn reads_badly(alloc: Global, report: &Report) -> Result<bool, AllocError>
    ensures { IfOk result (λ badly. badly ≡ reads_badly report.now) }
{
    let warnings = warnings_by(alloc, report, None)?;
    Ok(any_doubts(warnings.as_slice()))
}

fn tells_death(report: &Report) -> bool
    ensures { result ≡ tells_death report.now }
{
    death_told(report.records()).is_some()
}

fn is_bad(state: PartState) -> bool
    ensures { result ≡ is_bad_state state }
{
    match state {
        PartState::Read(_) => false,
        PartState::Bad => true,
    }
}

fn any_bad(blocks: &[PartState]) -> bool
    ensures { result ≡ list_any is_bad_state blocks.now }
{
    blocks.iter().any(|block| is_bad(*block))
}

fn has_bad_part(zone: &ZoneParts) -> bool
    ensures { result ≡ has_bad_part zone.now }
{
    is_bad(zone.header) || any_bad(zone.blocks.as_slice())
}

fn count_bad(zones: &[ZoneParts]) -> usize
    ensures { result ≡ count_by has_bad_part zones.now }
{
    zones.iter().filter(|zone| has_bad_part(zone)).count()
}

// How many zones have bad parts.
fn bad_zones(report: &Report) -> usize
    ensures { result ≡ bad_zones report.now }
{
    count_bad(report.parts())
}

fn any_parity(zones: &[Zone]) -> bool
    ensures { result ≡ any_parity zones.now }
{
    zones.iter().any(|zone| zone.parity > 0)
}

// Whether a zone has parity.
fn has_parity(plan: &Plan) -> bool
    ensures { result ≡ has_parity plan.now }
{
    any_parity(&plan.zones)
}

// Whether parity vouches for the layout.
fn is_vouched(plan: &Plan, report: &Report) -> bool
    ensures { result ≡ is_vouched plan.now report.now }
{
    has_parity(plan) && bad_zones(report) == 0
}

fn leaves_doubt(alloc: Global, plan: &Plan, report: &Report) -> Result<bool, AllocError>
    ensures { IfOk result (λ is. is ≡ leaves_doubt plan.now report.now) }
{
    let badly = reads_badly(alloc, report)?;
    Ok(badly || plan.is_rounded || !is_vouched(plan, report))
}

// Whether another layout has parity, and fewer zones are bad by it, or the plan has none.
fn checks_more(plan: &Plan, report: &Report, other: &Plan, told: &Report) -> bool
    ensures { result ≡ checks_more plan.now report.now other.now told.now }
{
    has_parity(other) && (bad_zones(told) < bad_zones(report) || !has_parity(plan))
}

// Whether another layout explains the image better.
fn explains_more(
    alloc: Global,
    plan: &Plan,
    report: &Report,
    other: &Plan,
    told: &Report,
) -> Result<bool, AllocError>
    ensures { IfOk result (λ is. is ≡ explains_more plan.now report.now other.now told.now) }
{
    let other_badly = reads_badly(alloc, told)?;
    let badly = reads_badly(alloc, report)?;
    let is_told = tells_death(told)
        && (!tells_death(report) || checks_more(plan, report, other, told));
    Ok(!other_badly && (badly || is_told))
}

fn words_if(
    alloc: Global,
    is_better: bool,
    candidate: &Candidate,
    size: u64,
) -> Result<String, AllocError>
    ensures { IfOk result (λ words. string_bytes words ≡ words_if is_better (layout_words candidate.now size)) }
{
    if is_better {
        layout_words(alloc, candidate, size)
    } else {
        Ok(String::new(alloc))
    }
}

// The report of an image's front by a plan.
fn front_report(alloc: Global, plan: &Plan, image: &[u8]) -> Result<Report, AllocError>
    requires { plan.now.mem ≤ length image.now }
    ensures { IfOk result (IsReport plan.now.zones.items plan.now.symbols plan.now.entries (take plan.now.mem image.now)) }
{
    let front = Bytes::copy_of(alloc, &image[..plan.mem as usize])?;
    let (report, _front) = report_of_bytes(alloc, plan, front)?;
    Ok(report)
}

// The words of a layout, if it explains the image better than the plan.
fn words_of(
    alloc: Global,
    plan: &Plan,
    report: &Report,
    candidate: &Candidate,
    image: &[u8],
) -> Result<String, AllocError>
    requires { candidate.now.mem ≤ length image.now }
    ensures { IfOk result (λ words. AreWordsOf plan.now report.now candidate.now image.now (string_bytes words)) }
{
    let other = match Plan::of_candidate(alloc, candidate) {
        Ok(other) => other,
        Err(_) => return Err(AllocError),
    };
    let told = front_report(alloc, &other, image)?;
    let is_better = explains_more(alloc, plan, report, &other, &told)?;
    words_if(alloc, is_better, candidate, image.len() as u64)
}

fn found_words(
    alloc: Global,
    plan: &Plan,
    report: &Report,
    found: &Found,
    image: &[u8],
) -> Result<String, AllocError>
    requires { found.now.candidate.mem ≤ length image.now }
    ensures { IfOk result (λ words. AreTakenWords found.now.taken plan.now report.now found.now.candidate image.now
        (string_bytes words)) }
{
    if found.taken {
        words_of(alloc, plan, report, &found.candidate, image)
    } else {
        Ok(String::new(alloc))
    }
}

// The words of the layout that the search takes, knowing nothing, if it explains the image better than the plan.
fn other_words(
    alloc: Global,
    plan: &Plan,
    report: &Report,
    image: &[u8],
) -> Result<String, AllocError>
    ensures { IfOk result (λ words. AreOtherWords plan.now report.now image.now (string_bytes words)) }
{
    match search(alloc, image, &known(&[]))? {
        Some(found) => found_words(alloc, plan, report, &found, image),
        None => Ok(String::new(alloc)),
    }
}

// The same of an image's first 16 MiB.
fn sought_words<M: Load>(
    alloc: Global,
    plan: &Plan,
    report: &Report,
    image: &mut M,
) -> Result<String, Stop>
    ensures words { IfOk result (λ words. AreSoughtWords plan.now report.now (M.holds image.old) (string_bytes words)) }
    ensures err { IfErr result (λ s. FrontStop s (M.faults image.old) (M.faults image.new)) }
    ensures same { M.holds image.new ≡ M.holds image.old }
    ensures counts { KeptUnless ImageFault result (M.faults image.old) (M.faults image.new) }
    ensures later { M.faults image.old ≤ M.faults image.new }
{
    let front = load_front(alloc, image, MOST)?;
    let words = other_words(alloc, plan, report, &front)?;
    Ok(words)
}

// Whether the plan was given, and leaves doubt.
fn is_doubted(alloc: Global, plan: &Plan, report: &Report) -> Result<bool, AllocError>
    ensures { IfOk result (λ is. is ≡ is_doubted plan.now report.now) }
{
    if plan.is_given {
        leaves_doubt(alloc, plan, report)
    } else {
        Ok(false)
    }
}

/// The words of a layout that explains the image better than the plan, if that was given and its report leaves doubt:
/// it reads badly, tells of no death, has bad parts or no parity. Else none. The image is searched only then.
pub fn better_words<M: Load>(
    alloc: Global,
    plan: &Plan,
    report: &Report,
    image: &mut M,
) -> Result<String, Stop>
    ensures words { IfOk result (λ words. IsBetter plan.now report.now (M.holds image.old) (string_bytes words)) }
    ensures err { IfErr result (λ s. IsWordsStop (is_doubted plan.now report.now) s (M.faults image.old)
        (M.faults image.new)) }
    ensures same { M.holds image.new ≡ M.holds image.old }
    ensures counts { KeptUnless ImageFault result (M.faults image.old) (M.faults image.new) }
    ensures later { M.faults image.old ≤ M.faults image.new }
{
    if is_doubted(alloc, plan, report)? {
        sought_words(alloc, plan, report, image)
    } else {
        Ok(String::new(alloc))
    }
}
