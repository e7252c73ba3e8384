// The search.
ghost use Rattle.std.specs.Prelude.{◌≡◌, ◌≢◌, ◌<◌, ◌≤◌, ◌^◌, true, false, None, Some, length, option_map, IfOk, OnOk};
ghost use Rattle.std.specs.Prelude.{ℕ, List, [], ◌∷◌};
ghost use Rattle.std.specs.Prelude.{MatchOption, IfSome};
ghost use Rattle.layout_spec.specs.declared.Candidate.{Candidate as CandidateValue};
ghost use Rattle.layout_spec.specs.declared.Known.{Known as KnownValue};
ghost use Rattle.layout_spec.specs.Family.{is_of_family, is_one_of};
ghost use Rattle.layout_spec.specs.Marks.{marks as marks_of};
ghost use Rattle.layout_spec.specs.Order.{key as key_of, faults, is_before as is_before_by};
ghost use Rattle.layout_search.specs.Placed.{AreLists};
ghost use Rattle.layout_search.specs.Sights.{AreSeen};
ghost use Rattle.layout_search.specs.Tried.{IsKept, IsSound, Advances, IsBestSoFar, HasFew, HasMore, is_ahead};
ghost use Rattle.layout_search.specs.Tried.{with_few as with_few_by};
ghost use Rattle.layout_search.specs.declared.progress.Best.{Best as BestValue};
ghost use Rattle.layout_search.specs.declared.progress.Effort.TheVariants.{All};
ghost use Rattle.layout_spec.specs.Laid.{zones_of};
ghost use Rattle.layout_spec.specs.Taken.{is_taken};
ghost use Rattle.layout_search.specs.Answers.{IsEmpty, IsSearched, AreFaulty, MayGiveUp, is_narrow};
ghost use Rattle.layout_search.specs.Answers.{usual as usual_by, IsBestUsual, IsOnly};

use crate::levels::{Reached, nowhere};
use crate::lists::{Lists, make_lists};
use crate::marks::count_marks;
use crate::order::is_before;
use crate::progress::{Aim, Best, Effort, Progress};
use crate::sights::{Sights, no_sights};
use crate::sweeping::sweep;
use layout_spec::{Candidate, Known, Tally};
use std::alloc::{AllocError, Global};

// How much work a search may do where it may give up: looking at a place costs 1, laying out a zone 16, decoding a header
// 8192.
const WORK: u64 = 1 << 29;

/// So much of it is a look of some two seconds, an eighth of what `search` may take.
pub const FEW: u64 = 1 << 26;

// No layout has more faults.
const LAST: u64 = (1 << 62) + (1 << 32);

/// The layout that comes first.
#[derive(Clone, Copy, Debug, PartialEq, Eq)]
pub struct Found {
    pub candidate: Candidate,
    pub tally: Tally,
    /// Whether it explains the image well enough.
    pub taken: bool,
    /// Another layout with as few faults. If the search came to its end, the first of them.
    pub rival: Option<Candidate>,
    /// Whether the search came to its end. If not, another layout may come first.
    pub whole: bool,
    /// If not: of the layouts with at most so many faults, the walk had come so far, and none of those comes first.
    pub limit: u64,
    pub reached: Reached,
}

// In a file of at most so many bytes the usual layouts are all tried.
const SMALL: usize = 1 << 20;

fn begin(best: Option<Best>, effort: Effort, work: u64) -> Progress
    ensures best { result.best ≡ best }
    ensures effort { result.effort ≡ effort }
    ensures work { result.work ≡ work }
{
    Progress {
        best,
        effort,
        work,
        reached: nowhere(),
        limit: 0,
    }
}

fn is_done(best: &Option<Best>, limit: u64) -> bool
    ensures done { result ≡ true → HasFew limit best.now }
    ensures more { result ≡ false → HasMore limit best.now }
{
    match best {
        Some(best) => best.tally.faults <= limit,
        None => false,
    }
}

/// Tries all layouts with at most so many faults, and tells whether the best has no more.
fn try_limit(
    alloc: Global,
    image: &[u8],
    known: &Known,
    lists: &Lists,
    marks: u64,
    limit: u64,
    sights: &mut Sights,
    state: &mut Progress,
) -> Result<bool, AllocError>
    requires seen { AreSeen image.now sights.old }
    requires marks { marks ≡ marks_of image.now }
    requires few { marks < 2 ^ 63 }
    requires limit { limit < 2 ^ 63 }
    requires lists { AreLists known.now (length image.now) lists.now }
    requires sound { IsSound known.now image.now None state.old.best }
    ensures seen { OnOk result (AreSeen image.now sights.new) }
    ensures sound { OnOk result (IsSound known.now image.now None state.new.best) }
    ensures advances { OnOk result (Advances state.old state.new) }
    ensures first { IfOk result (λ done. done ≡ true → 0 < state.new.work → (d : CandidateValue)
        → is_of_family known.now image.now d ≡ true → is_ahead (key_of image.now d) state.new.best ≡ false) }
    ensures more { IfOk result (λ done. done ≡ false → 0 < state.new.work → AreFaulty known.now image.now limit) }
    ensures so_far { OnOk result (IsBestSoFar known.now image.now state.new) }
{
    let aim = Aim {
        marks,
        limit,
        besides: None,
    };
    sweep(alloc, image, known, lists, &aim, sights, state)?;
    state.limit = limit;
    Ok(is_done(&state.best, limit))
}

/// Some layout, if there is one.
fn find_some(
    alloc: Global,
    image: &[u8],
    known: &Known,
    lists: &Lists,
    marks: u64,
    sights: &mut Sights,
) -> Result<Option<Best>, AllocError>
    requires seen { AreSeen image.now sights.old }
    requires marks { marks ≡ marks_of image.now }
    requires few { marks < 2 ^ 62 }
    requires lists { AreLists known.now (length image.now) lists.now }
    ensures seen { OnOk result (AreSeen image.now sights.new) }
    ensures some { IfOk result (λ best. MatchOption best (IsEmpty known.now image.now) (IsKept known.now image.now None)) }
{
    let mut state = begin(None, Effort::First, 1);
    try_limit(alloc, image, known, lists, marks, LAST, sights, &mut state)?;
    Ok(state.best)
}

/// Finds the first layout of those with more than one fault. At no work left it may be another.
fn find_faulty(
    alloc: Global,
    image: &[u8],
    known: &Known,
    lists: &Lists,
    marks: u64,
    sights: &mut Sights,
    state: &mut Progress,
) -> Result<(), AllocError>
    requires seen { AreSeen image.now sights.old }
    requires marks { marks ≡ marks_of image.now }
    requires few { marks < 2 ^ 62 }
    requires lists { AreLists known.now (length image.now) lists.now }
    requires sound { IsSound known.now image.now None state.old.best }
    ensures seen { OnOk result (AreSeen image.now sights.new) }
    ensures sound { OnOk result (IsSound known.now image.now None state.new.best) }
    ensures advances { OnOk result (Advances state.old state.new) }
    ensures first { OnOk result (0 < state.new.work → (d : CandidateValue) → is_of_family known.now image.now d ≡ true
        → is_ahead (key_of image.now d) state.new.best ≡ false) }
    ensures so_far { OnOk result (IsBestSoFar known.now image.now state.new) }
{
    let mut limit = 3;
    while limit < LAST {
        if try_limit(alloc, image, known, lists, marks, limit, sights, state)? {
            return Ok(());
        }
        if state.work == 0 {
            return Ok(());
        }
        limit = LAST.min(2 * limit + 1);
    }
    try_limit(alloc, image, known, lists, marks, LAST, sights, state)?;
    Ok(())
}

fn is_narrow(known: &Known) -> bool
    ensures { result ≡ is_narrow known.now }
{
    known.dump.is_some()
        && known.console.is_some()
        && known.ftrace.is_some()
        && known.pmsg.is_some()
        && known.parity.is_some()
}

// Where few layouts are looked for, all are tried.
fn effort_for(known: &Known) -> Effort
    ensures { is_narrow known.now ≡ true → result ≡ All }
{
    if is_narrow(known) {
        Effort::All
    } else {
        Effort::Bounded
    }
}

/// Finds the first layout of all, from some layout on. At no work left it may be another.
fn find_first(
    alloc: Global,
    image: &[u8],
    known: &Known,
    lists: &Lists,
    marks: u64,
    some: Best,
    work: u64,
    sights: &mut Sights,
) -> Result<Progress, AllocError>
    requires seen { AreSeen image.now sights.old }
    requires marks { marks ≡ marks_of image.now }
    requires few { marks < 2 ^ 62 }
    requires lists { AreLists known.now (length image.now) lists.now }
    requires sound { IsKept known.now image.now None some }
    requires work { 0 < work }
    ensures seen { OnOk result (AreSeen image.now sights.new) }
    ensures sound { IfOk result (λ state. IsSound known.now image.now None state.best) }
    ensures some { IfOk result (λ state. state.best ≢ None) }
    ensures first { IfOk result (λ state. 0 < state.work → (d : CandidateValue) → is_of_family known.now image.now d ≡ true
        → is_ahead (key_of image.now d) state.best ≡ false) }
    ensures given_up { IfOk result (λ state. state.work ≡ 0 → MayGiveUp known.now image.now) }
    ensures so_far { IfOk result (IsBestSoFar known.now image.now) }
{
    let mut state = begin(Some(some), Effort::All, work);
    if try_limit(alloc, image, known, lists, marks, 0, sights, &mut state)? {
        return Ok(state);
    }
    if try_limit(alloc, image, known, lists, marks, 1, sights, &mut state)? {
        return Ok(state);
    }
    let mut rest = begin(state.best, effort_for(known), work);
    find_faulty(alloc, image, known, lists, marks, sights, &mut rest)?;
    Ok(rest)
}

// With at most one fault too.
fn effort_beside(known: &Known, best: &Best) -> Effort
    ensures narrow { is_narrow known.now ≡ true → result ≡ All }
    ensures few { best.now.tally.faults ≤ 1 → result ≡ All }
{
    if best.tally.faults <= 1 {
        Effort::All
    } else {
        effort_for(known)
    }
}

/// The best, if it has at most so many faults.
fn with_few(best: Option<Best>, limit: u64) -> Option<Best>
    ensures { result ≡ with_few_by limit best }
{
    match best {
        Some(best) => {
            if best.tally.faults <= limit {
                Some(best)
            } else {
                None
            }
        }
        None => None,
    }
}

/// Finds the first layout of those that have at most as many faults as the best, but for that one.
fn find_rival(
    alloc: Global,
    image: &[u8],
    known: &Known,
    lists: &Lists,
    marks: u64,
    best: &Best,
    work: u64,
    sights: &mut Sights,
) -> Result<Progress, AllocError>
    requires seen { AreSeen image.now sights.old }
    requires marks { marks ≡ marks_of image.now }
    requires few { marks < 2 ^ 62 }
    requires lists { AreLists known.now (length image.now) lists.now }
    requires sound { IsKept known.now image.now None best.now }
    requires first { (d : CandidateValue) → is_of_family known.now image.now d ≡ true
        → is_ahead (key_of image.now d) (Some best.now) ≡ false }
    requires work { 0 < work }
    ensures seen { OnOk result (AreSeen image.now sights.new) }
    ensures sound { IfOk result (λ state. IsSound known.now image.now (Some best.now.candidate) state.best) }
    ensures few { IfOk result (λ state. IfSome state.best (λ (b : BestValue). b.tally.faults ≤ best.now.tally.faults)) }
    ensures settled { IfOk result (λ state. 0 < state.work → (d : CandidateValue)
        → is_of_family known.now image.now d ≡ true → best.now.candidate ≢ d
        → faults image.now (zones_of d) ≤ best.now.tally.faults
        → is_ahead (key_of image.now d) state.best ≡ false) }
    ensures given_up { IfOk result (λ state. state.work ≡ 0 → MayGiveUp known.now image.now) }
{
    let mut state = begin(None, effort_beside(known, best), work);
    let aim = Aim {
        marks,
        limit: best.tally.faults,
        besides: Some(best.candidate),
    };
    sweep(alloc, image, known, lists, &aim, sights, &mut state)?;
    state.best = with_few(state.best, best.tally.faults);
    Ok(state)
}

/// What is known, and for the rest what kernels have by default: so many parity bytes, and one ftrace zone.
fn usual(known: &Known, parity: u64) -> Known
    ensures { result ≡ usual_by known.now parity }
{
    Known {
        parity: Some(known.parity.unwrap_or(parity)),
        cpus: Some(known.cpus.unwrap_or(1)),
        ..*known
    }
}

/// The one of the two that comes first.
fn first_of(one: Best, other: Best) -> Best
    ensures one { (k : List ℕ) → is_before_by k one.key ≡ false → is_before_by k result.key ≡ false }
    ensures other { (k : List ℕ) → is_before_by k other.key ≡ false → is_before_by k result.key ≡ false }
    ensures kept { (known : KnownValue) (image : List ℕ) → IsKept known image None one → IsKept known image None other
        → IsKept known image None result }
{
    if is_before(&one.key, &other.key) {
        one
    } else {
        other
    }
}

/// The first of this layout and the usual ones with so many parity bytes.
fn try_usual(
    alloc: Global,
    image: &[u8],
    known: &Known,
    marks: u64,
    parity: u64,
    best: Best,
    sights: &mut Sights,
) -> Result<Best, AllocError>
    requires seen { AreSeen image.now sights.old }
    requires marks { marks ≡ marks_of image.now }
    requires few { marks < 2 ^ 62 }
    requires parity { is_one_of parity (0 ∷ 16 ∷ []) ≡ true }
    requires kept { IsKept known.now image.now None best }
    ensures seen { OnOk result (AreSeen image.now sights.new) }
    ensures kept { IfOk result (IsKept known.now image.now None) }
    ensures first { IfOk result (λ b. (k : List ℕ) → is_before_by k best.key ≡ false → is_before_by k b.key ≡ false) }
    ensures usual { IfOk result (λ b. (d : CandidateValue) → is_of_family (usual_by known.now parity) image.now d ≡ true
        → is_before_by (key_of image.now d) b.key ≡ false) }
{
    let usual = usual(known, parity);
    let lists = make_lists(alloc, &usual, image.len() as u64)?;
    let aim = Aim {
        marks,
        limit: best.tally.faults,
        besides: None,
    };
    let mut state = begin(None, Effort::All, 1);
    sweep(alloc, image, &usual, &lists, &aim, sights, &mut state)?;
    match state.best {
        Some(other) => Ok(first_of(other, best)),
        None => Ok(best),
    }
}

/// The first of this layout and all usual ones, in a file that is not too long.
fn try_all_usual(
    alloc: Global,
    image: &[u8],
    known: &Known,
    marks: u64,
    best: Best,
    sights: &mut Sights,
) -> Result<Best, AllocError>
    requires seen { AreSeen image.now sights.old }
    requires marks { marks ≡ marks_of image.now }
    requires few { marks < 2 ^ 62 }
    requires kept { IsKept known.now image.now None best }
    ensures seen { OnOk result (AreSeen image.now sights.new) }
    ensures kept { IfOk result (IsKept known.now image.now None) }
    ensures first { IfOk result (λ b. (k : List ℕ) → is_before_by k best.key ≡ false → is_before_by k b.key ≡ false) }
    ensures usual { IfOk result (λ b. length image.now ≤ 2 ^ 20 → IsBestUsual known.now image.now b.candidate) }
{
    if image.len() > SMALL {
        return Ok(best);
    }
    let bare = try_usual(alloc, image, known, marks, 0, best, sights)?;
    try_usual(alloc, image, known, marks, 16, bare, sights)
}

/// Whether there is any other layout.
fn has_other(
    alloc: Global,
    image: &[u8],
    known: &Known,
    lists: &Lists,
    marks: u64,
    best: &Best,
    sights: &mut Sights,
) -> Result<bool, AllocError>
    requires seen { AreSeen image.now sights.old }
    requires marks { marks ≡ marks_of image.now }
    requires few { marks < 2 ^ 62 }
    requires lists { AreLists known.now (length image.now) lists.now }
    ensures other { IfOk result (λ other. other ≡ true → IsOnly known.now image.now best.now.candidate → ⊥) }
    ensures only { IfOk result (λ other. other ≡ false → (d : CandidateValue) → is_of_family known.now image.now d ≡ true
        → best.now.candidate ≢ d → ⊥) }
{
    let mut state = begin(None, Effort::First, 1);
    let aim = Aim {
        marks,
        limit: LAST,
        besides: Some(best.candidate),
    };
    sweep(alloc, image, known, lists, &aim, sights, &mut state)?;
    Ok(state.best.is_some())
}

/// The layout of the family that comes first for these bytes, of those that agree with what is known. `None` only if
/// none agrees. It does not write. Where it may give up it does so after so much work, and says so. In a file of at most
/// 1 MiB the usual layouts are tried then too: none of them is before the answer.
pub fn search(alloc: Global, image: &[u8], known: &Known) -> Result<Option<Found>, AllocError>
    ensures { IfOk result (IsSearched known.now image.now) }
{
    search_within(alloc, image, known, WORK)
}

/// The same, where it may do so much work. With less it is sooner at an end that is no whole one.
pub fn search_within(
    alloc: Global,
    image: &[u8],
    known: &Known,
    work: u64,
) -> Result<Option<Found>, AllocError>
    requires { 0 < work }
    ensures { IfOk result (IsSearched known.now image.now) }
{
    let lists = make_lists(alloc, known, image.len() as u64)?;
    let marks = count_marks(image);
    let mut sights = no_sights(alloc, image)?;
    let Some(some) = find_some(alloc, image, known, &lists, marks, &mut sights)? else {
        return Ok(None);
    };
    let state = find_first(alloc, image, known, &lists, marks, some, work, &mut sights)?;
    let Some(best) = state.best else {
        return Ok(None);
    };
    if state.work == 0 {
        let best = try_all_usual(alloc, image, known, marks, best, &mut sights)?;
        let other = has_other(alloc, image, known, &lists, marks, &best, &mut sights)?;
        return Ok(Some(answer(&best, None, !other, &state)));
    }
    let others = find_rival(
        alloc,
        image,
        known,
        &lists,
        marks,
        &best,
        state.work,
        &mut sights,
    )?;
    let rival = candidate_of(&others.best);
    if others.work > 0 {
        return Ok(Some(answer(&best, rival, true, &state)));
    }
    let other = has_other(alloc, image, known, &lists, marks, &best, &mut sights)?;
    Ok(Some(answer(&best, rival, !other, &state)))
}

fn candidate_of(best: &Option<Best>) -> Option<Candidate>
    ensures { result ≡ option_map (λ (b : BestValue). b.candidate) best.now }
{
    match best {
        Some(best) => Some(best.candidate),
        None => None,
    }
}

fn answer(best: &Best, rival: Option<Candidate>, whole: bool, state: &Progress) -> Found
    ensures { result ≡ record {
      candidate = best.now.candidate;
      tally = best.now.tally;
      taken = is_taken best.now.tally;
      rival = rival;
      whole = whole;
      limit = state.now.limit;
      reached = state.now.reached;
    } }
{
    Found {
        candidate: best.candidate,
        tally: best.tally,
        taken: best.tally.faults <= best.tally.fits,
        rival,
        whole,
        limit: state.limit,
        reached: state.reached,
    }
}
