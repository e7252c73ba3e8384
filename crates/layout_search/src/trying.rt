// One candidate tried.
ghost use Rattle.std.specs.Prelude.{◌≡◌, ◌≢◌, ◌≤◌, ℕ, List, true, false, length, Option, None, Some, OnOk};
ghost use Rattle.layout_spec.specs.declared.Known.{Known as KnownValue};
ghost use Rattle.layout_spec.specs.declared.Candidate.{Candidate as CandidateValue};
ghost use Rattle.layout_spec.specs.Laid.{zones_of as zones_as_laid, has_layout};
ghost use Rattle.layout_spec.specs.Order.{faults, key as key_of};
ghost use Rattle.layout_spec.specs.Family.{is_of_family};
ghost use Rattle.layout_search.specs.Laid.{IsLaid};
ghost use Rattle.layout_search.specs.Sights.{AreSeen};
ghost use Rattle.layout_search.specs.declared.progress.Effort.TheVariants.{First, All};
ghost use Rattle.layout_search.specs.Tried.{IsAim, IsKept, IsSound, Advances, IsSettled, is_ahead as is_ahead_of};

use crate::counting::count_zones;
use crate::laying::zones_of;
use crate::order::{is_before, key, tally};
use crate::progress::{Aim, Best, Effort, Progress};
use crate::sights::Sights;
use layout_spec::Candidate;
use std::alloc::{AllocError, Global};
use zone_spec::Zone;

fn is_ahead(key: &[u64; 19], best: &Option<Best>) -> bool
    ensures { result ≡ is_ahead_of key.now best.now }
{
    match best {
        Some(best) => is_before(key, &best.key),
        None => true,
    }
}

/// The better of the best so far and this one.
fn better(this: Best, best: Option<Best>) -> Option<Best>
    ensures kept { (k : List ℕ) → is_ahead_of k best ≡ false → is_ahead_of k result ≡ false }
    ensures this { is_ahead_of this.key result ≡ false }
    ensures some { result ≡ None → best ≡ None }
    ensures sound { (known : KnownValue) (image : List ℕ) (besides : Option CandidateValue)
        → IsKept known image besides this → IsSound known image besides best → IsSound known image besides result }
{
    if is_ahead(&this.key, &best) {
        Some(this)
    } else {
        best
    }
}

/// The better of the best so far and a candidate with these zones. One with too many faults may be passed by.
fn judge(
    image: &[u8],
    aim: &Aim,
    c: &Candidate,
    zones: &[Zone],
    best: Option<Best>,
    sights: &mut Sights,
    looked: &mut u64,
) -> Option<Best>
    requires seen { AreSeen image.now sights.old }
    requires laid { IsLaid c.now zones.now }
    requires aim { IsAim image.now aim.now }
    requires within { c.now.mem ≤ length image.now }
    ensures seen { AreSeen image.now sights.new }
    ensures kept { (k : List ℕ) → is_ahead_of k best ≡ false → is_ahead_of k result ≡ false }
    ensures some { result ≡ None → best ≡ None }
    ensures settled { faults image.now (zones_as_laid c.now) ≤ aim.now.limit
        → is_ahead_of (key_of image.now c.now) result ≡ false }
    ensures sound { (known : KnownValue) (besides : Option CandidateValue)
        → is_of_family known image.now c.now ≡ true → besides ≢ Some c.now
        → IsSound known image.now besides best → IsSound known image.now besides result }
{
    let fewest = aim.marks.saturating_sub(zones.len() as u64);
    if fewest > aim.limit {
        return best;
    }
    let Some(counts) = count_zones(image, zones, aim.limit - fewest, sights, looked) else {
        return best;
    };
    let tally = tally(image, aim.marks, c, zones, &counts);
    let this = Best {
        candidate: *c,
        tally,
        key: key(&tally, c),
    };
    better(this, best)
}

fn is_left_out(besides: &Option<Candidate>, c: &Candidate) -> bool
    ensures yes { result ≡ true → besides.now ≡ Some c.now }
    ensures no { result ≡ false → besides.now ≢ Some c.now }
{
    match besides {
        Some(besides) => besides == c,
        None => false,
    }
}

// What a candidate costs that has so many zones, with what looking at their headers costs.
fn price(zones: usize, looked: u64) -> u64 {
    (zones as u64).saturating_mul(16).saturating_add(looked)
}

/// How far a search has come with this best, for so much work more.
fn after(state: &Progress, best: Option<Best>, spent: u64) -> Progress
    ensures best { result.best ≡ best }
    ensures effort { result.effort ≡ state.now.effort }
    ensures work { result.work ≤ state.now.work }
    ensures all { state.now.effort ≡ All → result.work ≡ state.now.work }
    ensures first { state.now.effort ≡ First → best ≡ None → result.work ≡ state.now.work }
{
    let work = match (state.effort, best) {
        (Effort::Bounded, _) => state.work.saturating_sub(spent),
        (Effort::First, Some(_)) => 0,
        (Effort::First, None) | (Effort::All, _) => state.work,
    };
    Progress {
        best,
        work,
        ..*state
    }
}

/// Tries one candidate.
pub fn try_candidate(
    alloc: Global,
    image: &[u8],
    aim: &Aim,
    c: &Candidate,
    sights: &mut Sights,
    state: &mut Progress,
) -> Result<(), AllocError>
    requires aim { IsAim image.now aim.now }
    requires seen { AreSeen image.now sights.old }
    requires within { c.now.mem ≤ length image.now }
    ensures seen { OnOk result (AreSeen image.now sights.new) }
    ensures advances { OnOk result (Advances state.old state.new) }
    ensures settled { OnOk result ((known : KnownValue) → IsSettled known image.now aim.now c.now state.new) }
    ensures sound { OnOk result ((known : KnownValue)
        → (has_layout c.now ≡ true → is_of_family known image.now c.now ≡ true)
        → IsSound known image.now aim.now.besides state.old.best
        → IsSound known image.now aim.now.besides state.new.best) }
{
    if is_left_out(&aim.besides, c) {
        return Ok(());
    }
    let Some(zones) = zones_of(alloc, c)? else {
        return Ok(());
    };
    let mut looked = 0;
    let best = judge(image, aim, c, &zones, state.best, sights, &mut looked);
    *state = after(state, best, price(zones.len(), looked));
    Ok(())
}
