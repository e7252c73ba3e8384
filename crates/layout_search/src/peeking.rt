// The first zone of a candidate, before all are laid out.
ghost use Rattle.std.specs.Prelude.{◌≡◌, ◌+◌, ◌*◌, ◌<◌, ◌≤◌, ◌^◌, ℕ, true, false, length, IfOk, OnOk, Some, slice_get};
ghost use Rattle.zone_spec.specs.declared.Zone.{Zone as ZoneValue};
ghost use Rattle.layout_search.specs.Looks.{IsInside};
ghost use Rattle.layout_search.specs.Sights.{AreSeen};
ghost use Rattle.zone_spec.specs.declared.Kind.TheVariants.{Dump};
ghost use Rattle.zone_spec.specs.Layout.{zone_at};
ghost use Rattle.layout_spec.specs.Laid.{params_of};
ghost use Rattle.layout_spec.specs.Marks.{fits};

use crate::laying::{params, zones_of};
use crate::looking::PLAIN_SIGNATURE;
use crate::sights::{Sights, see};
use layout_spec::Candidate;
use ramoops_layout::rows::parity;
use std::alloc::{AllocError, Global};
use zone_spec::{Kind, Zone, ZoneName};

// The first dump zone, if the dump zones have this size.
fn first_zone(c: &Candidate, size: u64) -> Zone
    requires parity { c.now.parity ≤ 127 }
    requires size { size ≤ 2 ^ 24 }
    ensures { result ≡ zone_at (params_of c.now) Dump size 0 (0 + 0 * size) }
{
    let parity = parity(&params(c), Kind::Dump);
    let part = 128 + parity;
    let blocks = (size.saturating_sub(12).saturating_sub(parity) + part - 1) / part;
    let cap = size
        .saturating_sub(12)
        .saturating_sub((blocks + 1) * parity);
    Zone {
        name: ZoneName {
            kind: Kind::Dump,
            index: 0,
        },
        at: 0,
        size: size as u32,
        cap: cap as u32,
        blocks: blocks as u32,
        parity: parity as u32,
        sig: PLAIN_SIGNATURE,
        block: 128,
        byte_order: c.byte_order,
    }
}

/// Whether the first of the dump zones of this size fits. If that is not easily told, it is said to.
pub fn first_fits(
    alloc: Global,
    image: &[u8],
    c: &Candidate,
    size: u64,
    sights: &mut Sights,
    looked: &mut u64,
) -> Result<bool, AllocError>
    requires size { size ≤ 2 ^ 24 }
    requires within { size ≤ length image.now }
    requires seen { AreSeen image.now sights.old }
    ensures seen { OnOk result (AreSeen image.now sights.new) }
    ensures fits { IfOk result (λ found. found ≡ false
        → fits image.now (zone_at (params_of c.now) Dump size 0 (0 + 0 * size)) ≡ false) }
{
    if c.parity > 127 {
        return Ok(true);
    }
    let alone = Candidate {
        mem: size,
        dump: size,
        console: 0,
        ftrace: 0,
        pmsg: 0,
        ..*c
    };
    let Some(zones) = zones_of(alloc, &alone)? else {
        return Ok(true);
    };
    let first = first_zone(c, size);
    Ok(is_first_or_unlike(image, &zones, &first, sights, looked))
}

// Whether the zone fits, if it is the only one.
fn is_first_or_unlike(
    image: &[u8],
    zones: &[Zone],
    zone: &Zone,
    sights: &mut Sights,
    looked: &mut u64,
) -> bool
    requires seen { AreSeen image.now sights.old }
    requires inside { (i : ℕ) (z : ZoneValue) → slice_get zones.now i ≡ Some z → IsInside image.now z }
    ensures seen { AreSeen image.now sights.new }
    ensures fits { result ≡ false → fits image.now zone.now ≡ false }
{
    if zones.len() == 1 && zones[0] == *zone {
        return see(image, &zones[0], sights, looked).fits;
    }
    true
}
