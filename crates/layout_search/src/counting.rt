// Counts over the zones of a layout.
ghost use Rattle.std.specs.Prelude.{◌≡◌, ◌<◌, ◌≤◌, ◌+◌, ◌^◌, ℕ, if◌then◌else◌, Some, length, slice_get, MatchOption};
ghost use Rattle.zone_spec.specs.declared.Zone.{Zone as ZoneValue};
ghost use Rattle.layout_spec.specs.Order.{misses};
ghost use Rattle.layout_search.specs.Looks.{IsInside};
ghost use Rattle.layout_search.specs.Sights.{AreSeen};
ghost use Rattle.layout_search.specs.Counted.{AreCounts, AreBelow, AreAtMost, added};

use crate::looking::Look;
use crate::sights::{Sights, see};
use zone_spec::Zone;

/// What is counted over the zones of a layout: those that do not fit, those that do, with a log, with an odd one, the
/// corrected bytes, the zones that begin at a mark, and their bytes.
#[derive(Clone, Copy, Default)]
pub struct Counts {
    pub misses: u64,
    pub fits: u64,
    pub found: u64,
    pub odd: u64,
    pub corrected: u64,
    pub marked: u64,
    pub bytes: u64,
}

fn bit(b: bool) -> u64
    ensures value { result ≡ (if b then 1 else 0) }
    ensures small { result ≤ 1 }
{
    if b { 1 } else { 0 }
}

fn with(counts: &Counts, look: Look, size: u32) -> Counts
    requires below { AreBelow (2 ^ 62) counts.now }
    requires size { size ≤ 2 ^ 24 }
    ensures value { result ≡ added counts.now look size }
    ensures grows { (n : ℕ) → AreAtMost n counts.now → AreAtMost (n + 1) result }
{
    Counts {
        misses: counts.misses + bit(!look.fits),
        fits: counts.fits + bit(look.fits),
        found: counts.found + bit(look.found),
        odd: counts.odd + bit(look.odd),
        corrected: counts.corrected + u64::from(look.corrected),
        marked: counts.marked + bit(look.marked),
        bytes: counts.bytes + u64::from(size),
    }
}

/// The counts over the zones. `None` only if more than `most` do not fit. `looked` grows by what looking at their
/// headers costs.
pub fn count_zones(
    image: &[u8],
    zones: &[Zone],
    most: u64,
    sights: &mut Sights,
    looked: &mut u64,
) -> Option<Counts>
    requires inside { (i : ℕ) (z : ZoneValue) → slice_get zones.now i ≡ Some z → IsInside image.now z }
    requires few { length zones.now < 2 ^ 32 }
    requires seen { AreSeen image.now sights.old }
    ensures seen { AreSeen image.now sights.new }
    ensures counts { MatchOption result (most < misses image.now zones.now)
        (λ counts. AreCounts image.now zones.now counts × AreBelow (2 ^ 62) counts) }
{
    let mut counts = Counts::default();
    for zone in zones {
        if counts.misses > most {
            return None;
        }
        let look = see(image, zone, sights, looked);
        counts = with(&counts, look, zone.size);
    }
    Some(counts)
}
