// The plan by which an image is read whose layout is looked for.
ghost use Rattle.std.specs.Prelude.{◌≡◌, ◌≤◌, take, IfOk, IfErr, IfSome, OnOk, MatchResult};
ghost use Rattle.std.specs.Option.{option_copied};
ghost use Rattle.zone_spec.specs.Numbers.{most_memory};
ghost use Rattle.layout_search.specs.Answers.{IsSearched};
ghost use Rattle.report_run.specs.Messages.{seen};
ghost use Rattle.report_run.specs.Looking.{is_unfinished, IsLook, MayLookAt, IsLooking, MayLook};
ghost use Rattle.report_run.specs.Failures.{IsUnread};
ghost use Rattle.report_run.specs.Plans.{format_for, dressed, map_of};
ghost use Rattle.report_run.specs.Plans.{untaken_failure, IsSoughtPlan, IsNotSought, IsAskedPlan};

use crate::failures::{Failure, stop_failure};
use crate::messages::Messages;
use image_file::load_front;
use layout_search::{FEW, Found, search, search_within};
use outside::{Load, Sink};
use report_entry::{HintedPlan, Layouts, Refusal, plan_found};
use report_tool::{Format, Known, Plan};
use std::alloc::{AllocError, Global};
use storage_words::Storages;
use symbols::Symbols;

/// A layout has at most so many bytes.
const MOST: u32 = 16_777_216;

/// A copy of all of a machine's memory.
#[derive(Clone, Copy)]
pub struct WholeMemory {
    /// The address of its first byte; 0 if that is not known.
    pub base: u64,
    /// The place of the region in it, if one is named.
    pub place: Option<u64>,
}

/// How much of a file is wanted.
#[derive(Clone, Copy)]
pub enum Wanted {
    /// The first bytes of the image in it, so many. What follows doesn't matter.
    Front(u32),
    /// The image in it, which has no more than so many bytes.
    UpTo(u32),
    /// All of it, as it stands.
    Whole,
}

/// Which images of which no layout is known are text logs.
#[derive(Clone, Copy)]
pub enum Logs {
    /// None.
    Never,
    /// Those that are a text.
    Texts,
    /// Each.
    All,
}

/// How images are reported.
#[derive(Drop)]
pub struct Asked {
    /// How they are laid out. A plan that is given has the lines and the functions that are asked for.
    pub layouts: Layouts,
    pub format: Format,
    /// How many of the newest dump's last lines a text has.
    pub lines: usize,
    /// The map of the kernel's functions.
    pub map: Option<Vec<u8>>,
    /// Which images are text logs, where no layout is known.
    pub logs: Logs,
    /// Which images of which no layout is known, and that are no text logs, are storages of the kernel's pstore_zone.
    pub storages: Storages,
    /// If the files are whole memories, in which the regions are reported.
    pub memory: Option<WholeMemory>,
    /// Whether the records are saved.
    pub saves: bool,
    /// Whether standard error is told how many of several images are done.
    pub counts: bool,
}

/// The format in which files are reported: of a folder's files a text has one line each.
pub fn format_for(has_folder: bool, format: Format) -> Format
    ensures { result ≡ format_for has_folder format }
{
    match format {
        Format::Text if has_folder => Format::Brief,
        format => format,
    }
}

/// A plan with so many lines, and with the functions of this map.
pub fn dressed(
    alloc: Global,
    plan: Plan,
    lines: usize,
    map: &Option<Vec<u8>>,
) -> Result<Plan, AllocError>
    ensures { IfOk result (λ p. p ≡ dressed plan lines (map_of map.now)) }
{
    let plan = plan.with_lines(lines);
    match map {
        Some(map) => Ok(plan.with_symbols(Symbols::read(alloc, Vec::from_slice(alloc, map)?)?)),
        None => Ok(plan),
    }
}

fn untaken_failure(why: Refusal) -> Failure
    ensures { result ≡ untaken_failure why }
{
    match why {
        Refusal::Unexplained(best) => Failure::Unexplained(best),
        Refusal::Unfinished(best) => Failure::Unfinished(best),
        _ => Failure::Memory,
    }
}

fn is_unfinished(found: &Option<Found>) -> bool
    ensures { result ≡ is_unfinished found.now }
{
    match found {
        Some(found) => !found.whole,
        None => false,
    }
}

// The layout that bytes show. A search that is not at its end after a little work is told, and begun again with more.
fn layout_of<E: Sink>(
    alloc: Global,
    known: &Known,
    path: &str,
    bytes: &[u8],
    messages: &mut Messages<E>,
) -> Result<Option<Found>, AllocError>
    ensures found { IfOk result (IsSearched known.now bytes.now) }
    ensures looked { MatchResult result
        (λ _. IsLook known.now path.now bytes.now
        (seen (E.given messages.old.errors) (E.faults messages.old.errors) messages.old.is_lost)
        (seen (E.given messages.new.errors) (E.faults messages.new.errors) messages.new.is_lost))
        (λ _. MayLookAt known.now path.now bytes.now
        (seen (E.given messages.old.errors) (E.faults messages.old.errors) messages.old.is_lost)
        (seen (E.given messages.new.errors) (E.faults messages.new.errors) messages.new.is_lost)) }
{
    let few = search_within(alloc, bytes, known, FEW)?;
    if is_unfinished(&few) {
        messages.tell_slow(path);
        search(alloc, bytes, known)
    } else {
        Ok(few)
    }
}

// The layout that the image's first 16 MiB show.
fn layout_in<M: Load, E: Sink>(
    alloc: Global,
    known: &Known,
    path: &str,
    image: &mut M,
    messages: &mut Messages<E>,
) -> Result<Option<Found>, Failure>
    ensures found { IfOk result (λ found. IfSome (M.holds image.old) (λ bs.
        IsSearched known.now (take most_memory bs) found)) }
    ensures unfound { IfErr result (IsUnread (M.faults image.old) (M.faults image.new)) }
    ensures looked { MatchResult result
        (λ _. IsLooking known.now path.now (M.holds image.old)
        (seen (E.given messages.old.errors) (E.faults messages.old.errors) messages.old.is_lost)
        (seen (E.given messages.new.errors) (E.faults messages.new.errors) messages.new.is_lost))
        (λ _. MayLook known.now path.now (M.holds image.old)
        (seen (E.given messages.old.errors) (E.faults messages.old.errors) messages.old.is_lost)
        (seen (E.given messages.new.errors) (E.faults messages.new.errors) messages.new.is_lost)) }
    ensures no_fault { OnOk result (M.faults image.new ≡ M.faults image.old) }
    ensures same { M.holds image.new ≡ M.holds image.old }
    ensures later { M.faults image.old ≤ M.faults image.new }
{
    let bytes = match load_front(alloc, image, MOST) {
        Ok(bytes) => bytes,
        Err(stop) => return Err(stop_failure(stop)),
    };
    match layout_of(alloc, known, path, &bytes, messages) {
        Ok(found) => Ok(found),
        Err(_) => Err(Failure::Memory),
    }
}

// The plan of the layout that the image shows.
fn found_plan<M: Load, E: Sink>(
    alloc: Global,
    known: &Known,
    path: &str,
    image: &mut M,
    messages: &mut Messages<E>,
) -> Result<HintedPlan, Failure>
    ensures planned { MatchResult result (IsSoughtPlan known.now path.now (M.holds image.old))
        (IsNotSought known.now path.now (M.holds image.old) (M.faults image.old) (M.faults image.new)) }
    ensures looked { MatchResult result
        (λ _. IsLooking known.now path.now (M.holds image.old)
        (seen (E.given messages.old.errors) (E.faults messages.old.errors) messages.old.is_lost)
        (seen (E.given messages.new.errors) (E.faults messages.new.errors) messages.new.is_lost))
        (λ _. MayLook known.now path.now (M.holds image.old)
        (seen (E.given messages.old.errors) (E.faults messages.old.errors) messages.old.is_lost)
        (seen (E.given messages.new.errors) (E.faults messages.new.errors) messages.new.is_lost)) }
    ensures no_fault { OnOk result (M.faults image.new ≡ M.faults image.old) }
    ensures same { M.holds image.new ≡ M.holds image.old }
    ensures later { M.faults image.old ≤ M.faults image.new }
{
    let Ok(size) = image.size() else {
        return Err(Failure::Unread);
    };
    let Some(found) = layout_in(alloc, known, path, image, messages)? else {
        return Err(Failure::NotFound);
    };
    match plan_found(alloc, path, size, &found) {
        Ok(told) => Ok(told),
        Err(why) => Err(untaken_failure(why)),
    }
}

/// The plan of the layout that the image shows, with the lines and the functions that are asked for. A search that
/// takes long is told on standard error, once.
pub fn sought_plan<M: Load, E: Sink>(
    alloc: Global,
    asked: &Asked,
    known: &Known,
    path: &str,
    image: &mut M,
    messages: &mut Messages<E>,
) -> Result<HintedPlan, Failure>
    ensures planned { MatchResult result (IsAskedPlan asked.now known.now path.now (M.holds image.old))
        (IsNotSought known.now path.now (M.holds image.old) (M.faults image.old) (M.faults image.new)) }
    ensures looked { MatchResult result
        (λ _. IsLooking known.now path.now (M.holds image.old)
        (seen (E.given messages.old.errors) (E.faults messages.old.errors) messages.old.is_lost)
        (seen (E.given messages.new.errors) (E.faults messages.new.errors) messages.new.is_lost))
        (λ _. MayLook known.now path.now (M.holds image.old)
        (seen (E.given messages.old.errors) (E.faults messages.old.errors) messages.old.is_lost)
        (seen (E.given messages.new.errors) (E.faults messages.new.errors) messages.new.is_lost)) }
    ensures no_fault { OnOk result (M.faults image.new ≡ M.faults image.old) }
    ensures same { M.holds image.new ≡ M.holds image.old }
    ensures later { M.faults image.old ≤ M.faults image.new }
{
    let HintedPlan { plan, hint } = found_plan(alloc, known, path, image, messages)?;
    let plan = dressed(alloc, plan, asked.lines, &asked.map)?;
    Ok(HintedPlan { plan, hint })
}
