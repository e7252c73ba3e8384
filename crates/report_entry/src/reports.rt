// The report of an image in memory.
ghost use Rattle.std.specs.Prelude.{◌≡◌, IfOk, MatchResult};
ghost use Rattle.report_entry.specs.declared.reports.Refusal.TheVariants.{Memory};
ghost use Rattle.report_entry.specs.Memory.{image_bytes};
ghost use Rattle.report_entry.specs.Reports.{IsUntaken, IsTakenPlan, IsPlanFound, IsNotTaken, IsFoundPlan, IsNotFound};
ghost use Rattle.report_entry.specs.Reports.{IsPlanOf, IsNotPlanned, IsReportBy, IsNotReportedBy, IsRegionReport};
ghost use Rattle.report_entry.specs.Reports.{IsRegionRefused, IsReportOf, IsRefused};

use crate::hints::{best_hint, taken_hint};
use crate::laying::{Layouts, NoLayouts, layout_by};
use crate::memory::{Image, Text};
use crate::storages::{storage_in, storage_report, storages_in};
use layout_search::Found;
use outside::Bytes;
use psz_spec::SizeFault;
use report_tool::{Format, Known, Plan, Stop, find, report};
use std::alloc::{AllocError, Global};

/// The plan by which an image is read, and what is told of it: lines, or nothing.
#[derive(Drop)]
pub struct HintedPlan {
    pub plan: Plan,
    pub hint: String,
}

/// A report: a text, whose first `hint` bytes are the lines on a layout that was looked for.
#[derive(Drop)]
pub struct Reported {
    pub hint: u64,
    pub text: Text,
}

/// Why there is no report.
#[derive(Drop)]
pub enum Refusal {
    NoLayout(NoLayouts),
    Memory,
    /// The layout needs so many bytes, and the image has fewer.
    Short(u32),
    /// No layout was found.
    NotFound,
    /// The line on the best layout, which does not explain the image.
    Unexplained(String),
    /// The line on the best layout of those that were tried, which are not all.
    Unfinished(String),
    /// The image is a storage, by words, and no kernel divides it by their sizes.
    Undivided(SizeFault),
}

impl From<AllocError> for Refusal {
    ghost use Rattle.report_entry.specs.declared.reports.Refusal.TheVariants.{Memory};

    ghost from_gives = { λ _ e. e ≡ Memory };

    fn from(_: AllocError) -> Refusal {
        Refusal::Memory
    }
}

// Why a layout that was found is not taken.
fn untaken(alloc: Global, name: &str, size: u64, found: &Found) -> Result<Refusal, AllocError>
    ensures { IfOk result (IsUntaken name.now size found.now) }
{
    let hint = best_hint(alloc, name, size, found)?;
    if found.whole {
        Ok(Refusal::Unexplained(hint))
    } else {
        Ok(Refusal::Unfinished(hint))
    }
}

// The plan of a layout that is taken.
fn taken(alloc: Global, name: &str, size: u64, found: &Found) -> Result<HintedPlan, Refusal>
    ensures { MatchResult result (IsTakenPlan name.now size found.now) (λ why. why ≡ Memory) }
{
    let hint = taken_hint(alloc, name, size, found)?;
    match Plan::of_candidate(alloc, &found.candidate) {
        Ok(plan) => Ok(HintedPlan { plan, hint }),
        Err(_) => Err(Refusal::Memory),
    }
}

/// The plan of a layout that was found, with the lines on it, if it explains the image; else why it is not taken. A
/// layout that explains itself is taken though others were not tried: a line says so.
pub fn plan_found(
    alloc: Global,
    name: &str,
    size: u64,
    found: &Found,
) -> Result<HintedPlan, Refusal>
    ensures { MatchResult result (IsPlanFound name.now size found.now) (IsNotTaken name.now size found.now) }
{
    if found.taken {
        return taken(alloc, name, size, found);
    }
    Err(untaken(alloc, name, size, found)?)
}

// The plan of the layout that the image shows.
fn found_plan(
    alloc: Global,
    known: &Known,
    name: &str,
    image: &mut Image,
) -> Result<HintedPlan, Refusal>
    ensures planned { MatchResult result (IsFoundPlan known.now name.now (image_bytes image.old))
        (IsNotFound known.now name.now (image_bytes image.old)) }
    ensures same { image_bytes image.new ≡ image_bytes image.old }
{
    let size = image.bytes().len() as u64;
    let found = match find(alloc, image, known) {
        Ok(Some(found)) => found,
        Ok(None) => return Err(Refusal::NotFound),
        Err(_) => return Err(Refusal::Memory),
    };
    plan_found(alloc, name, size, &found)
}

// The plan by which the image is read.
fn plan_of(
    alloc: Global,
    layouts: Layouts,
    name: &str,
    image: &mut Image,
) -> Result<HintedPlan, Refusal>
    ensures planned { MatchResult result (IsPlanOf layouts name.now (image_bytes image.old))
        (IsNotPlanned layouts name.now (image_bytes image.old)) }
    ensures same { image_bytes image.new ≡ image_bytes image.old }
{
    match layouts {
        Layouts::Given(plan) => Ok(HintedPlan {
            plan,
            hint: String::new(alloc),
        }),
        Layouts::Sought(known) => found_plan(alloc, &known, name, image),
    }
}

// The report by a plan, behind what is told of it.
fn report_by(
    alloc: Global,
    told: HintedPlan,
    format: Format,
    name: &str,
    image: &mut Image,
) -> Result<Reported, Refusal>
    ensures { MatchResult result (IsReportBy told format name.now (image_bytes image.old))
        (IsNotReportedBy told (image_bytes image.old)) }
{
    let HintedPlan { plan, hint } = told;
    let len = hint.len() as u64;
    let mut text = Text::of(hint);
    match report(alloc, &plan, format, name, image, &mut text) {
        Ok(_) => Ok(Reported { hint: len, text }),
        Err(Stop::Short { has: _, needed }) => Err(Refusal::Short(needed)),
        Err(_) => Err(Refusal::Memory),
    }
}

// The report of a region by words and a device tree.
fn region_report(
    alloc: Global,
    words: &[String],
    tree: &[u8],
    format: Format,
    name: &str,
    image: &[u8],
) -> Result<Reported, Refusal>
    ensures { MatchResult result (IsRegionReport words.now tree.now format name.now image.now)
        (IsRegionRefused words.now tree.now name.now image.now) }
{
    let layouts = match layout_by(alloc, words, tree) {
        Ok(layouts) => layouts,
        Err(fault) => return Err(Refusal::NoLayout(fault)),
    };
    let mut image = Image::new(Bytes::copy_of(alloc, image)?);
    let told = plan_of(alloc, layouts, name, &mut image)?;
    report_by(alloc, told, format, name, &mut image)
}

/// The report of an image by words and a device tree, as `oopsreport` makes it of a file at the path `name`, but with the
/// lines on a layout that was looked for in front: of the storage that it is, by words of `pstore_blk` or, without words
/// and tree, by a dump that stands in it; else of a region.
pub fn report_of(
    alloc: Global,
    words: &[String],
    tree: &[u8],
    format: Format,
    name: &str,
    image: &[u8],
) -> Result<Reported, Refusal>
    ensures { MatchResult result (IsReportOf words.now tree.now format name.now image.now)
        (IsRefused words.now tree.now name.now image.now) }
{
    let storages = match storages_in(words, tree) {
        Ok(storages) => storages,
        Err(fault) => return Err(Refusal::NoLayout(NoLayouts::Word(fault))),
    };
    match storage_in(alloc, storages, image) {
        Ok(Some(held)) => Ok(storage_report(alloc, &held, format, name)?),
        Ok(None) => region_report(alloc, words, tree, format, name, image),
        Err(why) => Err(why),
    }
}
