// A candidate tried with each tag.
ghost use Rattle.std.specs.Prelude.{◌≡◌, ◌+◌, ◌-◌, ◌<◌, ◌≤◌, ◌++◌, ℕ, Some, true, false, map, filter, length};
ghost use Rattle.std.specs.Prelude.{slice_get, slice_index, OnOk, IfOk, MatchOption};
ghost use Rattle.zone_spec.specs.declared.Zone.{Zone as ZoneValue};
ghost use Rattle.layout_spec.specs.Laid.{has_layout};
ghost use Rattle.layout_spec.specs.Family.{is_chosen, is_tagged, tag_read, tags_for, byte_order_for};
ghost use Rattle.layout_search.specs.Looks.{IsInside};
ghost use Rattle.layout_search.specs.Sights.{AreSeen};
ghost use Rattle.layout_search.specs.Tried.{IsAim, IsSound, Advances, TagsSettled};

use crate::laying::zones_of;
use crate::looking::tag_of;
use crate::progress::{Aim, Progress};
use crate::sights::Sights;
use crate::trying::try_candidate;
use layout_spec::{Candidate, Known};
use std::alloc::{AllocError, Global};
use zone_spec::Zone;

const SECOND_VERSION: u32 = 0x20000;

/// Adds the tags that headers read.
fn read_tags(image: &[u8], zones: &[Zone], tags: &mut Vec<u32>) -> Result<(), AllocError>
    requires { (i : ℕ) (z : ZoneValue) → slice_get zones.now i ≡ Some z → IsInside image.now z }
    ensures { OnOk result (tags.new.items ≡ tags.old.items
        ++ map (tag_read image.now) (filter (is_tagged image.now) zones.now)) }
{
    for zone in zones {
        if let Some(tag) = tag_of(image, zone) {
            tags.push(tag)?;
        }
    }
    Ok(())
}

/// The tags to be tried, or `None` if there is no layout, whatever the tag.
fn tags(
    alloc: Global,
    image: &[u8],
    known: &Known,
    c: &Candidate,
) -> Result<Option<Vec<u32>>, AllocError>
    requires { c.now.mem ≤ length image.now }
    ensures { IfOk result (λ found. MatchOption found (has_layout (record c.now { tag = 0 }) ≡ false)
        (λ tags. tags.items ≡ tags_for known.now image.now c.now)) }
{
    if c.ftrace == 0 {
        let none = vec![in alloc; 0]?;
        return Ok(Some(none));
    }
    if let Some(tag) = known.tag {
        let one = vec![in alloc; tag]?;
        return Ok(Some(one));
    }
    let untagged = Candidate { tag: 0, ..*c };
    let Some(zones) = zones_of(alloc, &untagged)? else {
        return Ok(None);
    };
    let mut tags = vec![in alloc; SECOND_VERSION]?;
    read_tags(image, &zones, &mut tags)?;
    Ok(Some(tags))
}

// Whether the tag before is the same.
fn is_repeated(tags: &[u32], k: usize) -> bool
    requires { k < length tags.now }
    ensures { result ≡ true → (0 < k) × (slice_index tags.now k ≡ slice_index tags.now (k - 1)) }
{
    k > 0 && tags[k] == tags[k - 1]
}

/// Tries a candidate with each tag.
pub fn try_tags(
    alloc: Global,
    image: &[u8],
    known: &Known,
    aim: &Aim,
    c: &Candidate,
    sights: &mut Sights,
    state: &mut Progress,
) -> Result<(), AllocError>
    requires aim { IsAim image.now aim.now }
    requires seen { AreSeen image.now sights.old }
    requires within { c.now.mem ≤ length image.now }
    requires chosen { is_chosen known.now (length image.now) c.now ≡ true }
    requires ordered { c.now.byte_order ≡ byte_order_for known.now image.now }
    requires sound { IsSound known.now image.now aim.now.besides state.old.best }
    ensures seen { OnOk result (AreSeen image.now sights.new) }
    ensures advances { OnOk result (Advances state.old state.new) }
    ensures settled { OnOk result (TagsSettled known.now image.now aim.now state.new c.now) }
    ensures sound { OnOk result (IsSound known.now image.now aim.now.besides state.new.best) }
{
    let Some(tags) = tags(alloc, image, known, c)? else {
        return Ok(());
    };
    let list = tags.as_slice();
    for k in 0..list.len() {
        if is_repeated(list, k) {
            continue;
        }
        let tagged = Candidate { tag: list[k], ..*c };
        try_candidate(alloc, image, aim, &tagged, sights, state)?;
    }
    Ok(())
}
