// Which candidates cannot have few enough faults, before all their words are known.
ghost use Rattle.std.specs.Prelude.{◌≡◌, ◌≤◌, ◌||◌, ◌==◌, nat_lt, true, false, length, ℕ, ◌<◌, ◌∷◌, [], IfOk, OnOk, Some};
ghost use Rattle.layout_spec.specs.declared.Known.{Known as KnownValue};
ghost use Rattle.layout_spec.specs.Family.{is_told_once};
ghost use Rattle.layout_search.specs.Levels.{after, next};
ghost use Rattle.layout_search.specs.declared.levels.Level.TheVariants.{Order, Cpus, Parity};
ghost use Rattle.layout_search.specs.Placed.{IsPlaced, IsPassed};
ghost use Rattle.layout_search.specs.Rows.{IsRoomy};
ghost use Rattle.layout_search.specs.Sights.{AreSeen};
ghost use Rattle.layout_search.specs.Tried.{IsAim, Advances, SettledOver};
ghost use Rattle.layout_search.specs.declared.progress.Progress.{Progress as ProgressValue};
ghost use Rattle.layout_spec.specs.Laid.{zones_of};
ghost use Rattle.layout_spec.specs.Order.{faults};

use crate::levels::Level;
use crate::peeking::first_fits;
use crate::progress::{Aim, Effort, Progress};
use crate::rows::{console_row, dump_memory, dump_row, ftrace_row, has_room, last_rows, pmsg_row};
use crate::seeing::{may_begin, may_fit};
use crate::sights::Sights;
use layout_spec::{Candidate, Known};
use std::alloc::{AllocError, Global};

/// So much less work may be done, where it is bounded.
pub fn spend(state: &mut Progress, work: u64)
    ensures advances { Advances state.old state.new }
    ensures best { state.new.best ≡ state.old.best }
{
    match state.effort {
        Effort::Bounded => state.work = state.work.saturating_sub(work),
        Effort::First | Effort::All => (),
    }
}

/// Whether the first dump zone does not fit, and this alone makes too many faults.
fn first_misses(
    alloc: Global,
    image: &[u8],
    aim: &Aim,
    c: &Candidate,
    sights: &mut Sights,
    looked: &mut u64,
) -> Result<bool, AllocError>
    requires aim { IsAim image.now aim.now }
    requires roomy { IsRoomy c.now }
    requires some { 1 ≤ c.now.cpus }
    requires few { c.now.cpus ≤ 64 }
    requires seen { AreSeen image.now sights.old }
    ensures seen { OnOk result (AreSeen image.now sights.new) }
    ensures faults { IfOk result (λ misses. misses ≡ true
        → (t : ℕ) → aim.now.limit < faults image.now (zones_of (record c.now { tag = t }))) }
{
    let dumps = dump_row(c);
    let others = console_row(c).count + ftrace_row(c).count + pmsg_row(c).count;
    if dumps.count == 0 || dumps.size > image.len() as u64 {
        return Ok(false);
    }
    if aim.marks.saturating_sub(dumps.count + others) < aim.limit {
        return Ok(false);
    }
    let fits = first_fits(alloc, image, c, dumps.size, sights, looked)?;
    Ok(!fits)
}

fn is_bad(cpus: u64) -> bool
    ensures { result ≡ ((cpus == 0) || nat_lt 64 cpus) }
{
    cpus == 0 || cpus > 64
}

/// Whether a candidate's zones seem to begin at enough marks, whatever its parity.
fn processors_may_hold(image: &[u8], aim: &Aim, c: &Candidate, looked: &mut u64) -> bool
    requires aim { IsAim image.now aim.now }
    requires roomy { IsRoomy c.now }
    ensures some { result ≡ true → 1 ≤ c.now.cpus }
    ensures few { result ≡ true → c.now.cpus ≤ 64 }
    ensures refused { result ≡ false → (known : KnownValue) (s : ProgressValue)
        → SettledOver known image.now aim.now (Parity ∷ []) c.now s }
{
    if is_bad(c.cpus) {
        return false;
    }
    let dumps = dump_row(c);
    let console = console_row(c);
    let (next, last) = last_rows(c);
    may_fit(
        image, aim.marks, aim.limit, dumps, console, next, last, looked,
    )
}

fn is_told(known: &Known, len: u64, c: &Candidate) -> bool
    ensures { result ≡ is_told_once known.now len c.now }
{
    if c.dump == 0 {
        c.mem == len || known.mem.is_some()
    } else {
        dump_memory(c) > 0
    }
}

/// Whether a candidate's sizes fit the file, and its dump zones and console seem to begin at enough marks, whatever its
/// order, processors and parity.
fn sizes_may_hold(image: &[u8], known: &Known, aim: &Aim, c: &Candidate, looked: &mut u64) -> bool
    requires aim { IsAim image.now aim.now }
    ensures placed { result ≡ true → IsPlaced known.now (length image.now) c.now }
    ensures refused { result ≡ false → (s : ProgressValue)
        → SettledOver known.now image.now aim.now (Order ∷ Cpus ∷ Parity ∷ []) c.now s }
{
    if !is_told(known, image.len() as u64, c) {
        return false;
    }
    if c.mem > image.len() as u64 {
        return false;
    }
    if !has_room(c) {
        return false;
    }
    let dumps = dump_row(c);
    let console = console_row(c);
    may_begin(image, aim.marks, aim.limit, dumps, console, 65, looked)
}

/// Whether a candidate may have few enough faults, by its words up to this one. `looked` grows by what looking costs.
fn may_hold(
    alloc: Global,
    image: &[u8],
    known: &Known,
    level: Level,
    aim: &Aim,
    c: &Candidate,
    sights: &mut Sights,
    looked: &mut u64,
) -> Result<bool, AllocError>
    requires aim { IsAim image.now aim.now }
    requires seen { AreSeen image.now sights.old }
    requires passed { IsPassed (Some level) known.now (length image.now) c.now }
    ensures seen { OnOk result (AreSeen image.now sights.new) }
    ensures passed { IfOk result (λ may. may ≡ true → IsPassed (next level) known.now (length image.now) c.now) }
    ensures refused { IfOk result (λ may. may ≡ false → (s : ProgressValue)
        → SettledOver known.now image.now aim.now (after level) c.now s) }
{
    match level {
        Level::Mem | Level::Dump | Level::Console | Level::Ftrace | Level::Order => Ok(true),
        Level::Pmsg => Ok(sizes_may_hold(image, known, aim, c, looked)),
        Level::Cpus => Ok(processors_may_hold(image, aim, c, looked)),
        Level::Parity => {
            let misses = first_misses(alloc, image, aim, c, sights, looked)?;
            Ok(!misses)
        }
    }
}

/// Whether a candidate may have few enough faults, by its words up to this one. What looking costs is spent.
pub fn weigh(
    alloc: Global,
    image: &[u8],
    known: &Known,
    level: Level,
    aim: &Aim,
    c: &Candidate,
    sights: &mut Sights,
    state: &mut Progress,
) -> Result<bool, AllocError>
    requires aim { IsAim image.now aim.now }
    requires seen { AreSeen image.now sights.old }
    requires passed { IsPassed (Some level) known.now (length image.now) c.now }
    ensures advances { OnOk result (Advances state.old state.new) }
    ensures best { OnOk result (state.new.best ≡ state.old.best) }
    ensures seen { OnOk result (AreSeen image.now sights.new) }
    ensures passed { IfOk result (λ may. may ≡ true → IsPassed (next level) known.now (length image.now) c.now) }
    ensures refused { IfOk result (λ may. may ≡ false → (s : ProgressValue)
        → SettledOver known.now image.now aim.now (after level) c.now s) }
{
    let mut looked = 4;
    let may = may_hold(alloc, image, known, level, aim, c, sights, &mut looked)?;
    spend(state, looked);
    Ok(may)
}
