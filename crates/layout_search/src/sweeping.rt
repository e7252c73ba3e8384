// The walk: all layouts of the family, one word after another.
ghost use Rattle.std.specs.Prelude.{◌≡◌, ◌<◌, true, length, None, IfOk, OnOk, MatchOption};
ghost use Rattle.layout_spec.specs.declared.Candidate.{Candidate as CandidateValue};
ghost use Rattle.layout_spec.specs.Family.{byte_order_for};
ghost use Rattle.layout_search.specs.Levels.{Over, IsListed, levels_from};
ghost use Rattle.layout_search.specs.Placed.{IsPassed, AreLists};
ghost use Rattle.layout_search.specs.Sights.{AreSeen};
ghost use Rattle.layout_search.specs.Narrowed.{IsNarrowed};
ghost use Rattle.layout_search.specs.Tried.{IsAim, IsSound, Advances, IsSettled, SettledOver, SettledBefore};
ghost use Rattle.layout_search.specs.Walked.{is_walked, all_levels};

use crate::levels::{Level, Reached, counted, having, next, nowhere, values};
use crate::lists::Lists;
use crate::progress::{Aim, Best, Progress};
use crate::refusing::weigh;
use crate::sights::Sights;
use crate::tagging::try_tags;
use layout_spec::{Candidate, Known};
use std::alloc::{AllocError, Global};
use zone_spec::Order;

// The same aim, but for layouts with more faults than the best so far: none of those comes before it.
fn narrowed(aim: &Aim, best: &Option<Best>) -> Aim
    ensures { IsNarrowed aim.now best.now result }
{
    match best {
        Some(best) => Aim {
            limit: aim.limit.min(best.tally.faults),
            ..*aim
        },
        None => *aim,
    }
}

/// Tries a candidate with each value of this word and of those after it, and with each tag. Tells what it reached if
/// it ended before.
fn walk(
    alloc: Global,
    image: &[u8],
    known: &Known,
    lists: &Lists,
    level: Option<Level>,
    aim: &Aim,
    c: &Candidate,
    sights: &mut Sights,
    state: &mut Progress,
) -> Result<Option<Reached>, AllocError>
    requires aim { IsAim image.now aim.now }
    requires lists { AreLists known.now (length image.now) lists.now }
    requires listed { Over known.now (length image.now) (levels_from level) (IsListed known.now (length image.now))
        c.now }
    requires passed { IsPassed level known.now (length image.now) c.now }
    requires ordered { c.now.byte_order ≡ byte_order_for known.now image.now }
    requires sound { IsSound known.now image.now aim.now.besides state.old.best }
    requires seen { AreSeen image.now sights.old }
    ensures seen { OnOk result (AreSeen image.now sights.new) }
    ensures advances { OnOk result (Advances state.old state.new) }
    ensures settled { IfOk result (λ stop. MatchOption stop
        (SettledOver known.now image.now aim.now (levels_from level) c.now state.new)
        (SettledBefore known.now image.now aim.now (levels_from level) c.now state.new)) }
    ensures whole { IfOk result (λ stop. 0 < state.new.work → stop ≡ None) }
    ensures sound { OnOk result (IsSound known.now image.now aim.now.besides state.new.best) }
{
    let Some(level) = level else {
        try_tags(alloc, image, known, aim, c, sights, state)?;
        return Ok(None);
    };
    let list = values(lists, level, c);
    for k in 0..list.len() {
        let candidate = having(c, level, list[k]);
        let near = narrowed(aim, &state.best);
        let may = weigh(alloc, image, known, level, &near, &candidate, sights, state)?;
        if state.work == 0 {
            return Ok(Some(counted(&nowhere(), level, k as u64)));
        }
        if !may {
            continue;
        }
        let stop = walk(
            alloc,
            image,
            known,
            lists,
            next(level),
            &near,
            &candidate,
            sights,
            state,
        )?;
        if let Some(inner) = stop {
            return Ok(Some(counted(&inner, level, k as u64)));
        }
    }
    Ok(None)
}

/// Tries all layouts of the family.
pub fn sweep(
    alloc: Global,
    image: &[u8],
    known: &Known,
    lists: &Lists,
    aim: &Aim,
    sights: &mut Sights,
    state: &mut Progress,
) -> Result<(), AllocError>
    requires seen { AreSeen image.now sights.old }
    requires aim { IsAim image.now aim.now }
    requires lists { AreLists known.now (length image.now) lists.now }
    requires sound { IsSound known.now image.now aim.now.besides state.old.best }
    ensures seen { OnOk result (AreSeen image.now sights.new) }
    ensures advances { OnOk result (Advances state.old state.new) }
    ensures settled { OnOk result (0 < state.new.work
        → (c : CandidateValue) → IsSettled known.now image.now aim.now c state.new) }
    ensures part { OnOk result ((c : CandidateValue)
        → is_walked known.now (length image.now) all_levels state.new.reached c ≡ true
        → IsSettled known.now image.now aim.now c state.new) }
    ensures sound { OnOk result (IsSound known.now image.now aim.now.besides state.new.best) }
{
    let start = Candidate {
        mem: 0,
        dump: 0,
        console: 0,
        ftrace: 0,
        pmsg: 0,
        parity: 0,
        cpus: 1,
        tag: 0,
        order: Order::FtracePmsg,
        byte_order: known.byte_order.unwrap_or(sights.byte_order),
    };
    let stop = walk(
        alloc,
        image,
        known,
        lists,
        Some(Level::Mem),
        aim,
        &start,
        sights,
        state,
    )?;
    state.reached = stop.unwrap_or(nowhere());
    Ok(())
}
