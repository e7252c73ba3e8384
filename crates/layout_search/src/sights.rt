// What was seen of zones, kept for the next layout that has the same.
ghost use Rattle.std.specs.Prelude.{◌≡◌, ◌<◌, ℕ, List, true, IfOk, IfSome, length};
ghost use Rattle.layout_search.specs.Looks.{IsInside, IsLook};
ghost use Rattle.layout_search.specs.Sights.{AreSeen};

use crate::looking::{Look, look_at};
use crate::marks::{first_order, seems_to_begin};
use std::alloc::{AllocError, Global};
use zone_spec::{ByteOrder, Zone};

/// A zone, and what was seen of it.
#[derive(Clone, Copy)]
pub struct Sight {
    pub zone: Zone,
    pub look: Look,
}

/// What was seen of an image: the order of bytes of its first mark, and its zones with parity. A zone has one slot,
/// which holds the last zone that was seen of those that share it.
#[derive(Drop)]
pub struct Sights {
    pub byte_order: ByteOrder,
    pub slots: Vec<Option<Sight>>,
}

const MOST_SLOTS: usize = 1 << 17;

// Decoding a header costs as much as looking at so many places.
const DECODING: u64 = 8192;

/// No zone was seen yet of this image.
pub fn no_sights(alloc: Global, image: &[u8]) -> Result<Sights, AllocError>
    ensures { IfOk result (AreSeen image.now) }
{
    let slots = Vec::from_elem(alloc, None, image.len().saturating_mul(4).min(MOST_SLOTS))?;
    Ok(Sights {
        byte_order: first_order(image),
        slots,
    })
}

// The slot of a zone, of at least one.
fn slot_of(zone: &Zone, slots: usize) -> usize
    requires { 0 < slots }
    ensures { result < slots }
{
    let mixed = zone.at.wrapping_mul(0x9e37_79b1)
        ^ zone.size.wrapping_mul(0x85eb_ca6b)
        ^ zone.parity.wrapping_mul(0xc2b2_ae35);
    (mixed >> 12) as usize % slots
}

fn is_of(sight: &Sight, zone: &Zone) -> bool
    ensures { result ≡ true → sight.now.zone ≡ zone.now }
{
    sight.zone == *zone
}

// What was seen of this zone, if its slot holds it.
fn kept(sights: &Sights, zone: &Zone) -> Option<Look>
    ensures { (image : List ℕ) → AreSeen image sights.now → IfSome result (IsLook image zone.now) }
{
    let slots = sights.slots.len();
    if slots == 0 {
        return None;
    }
    match &sights.slots[slot_of(zone, slots)] {
        Some(sight) if is_of(sight, zone) => Some(sight.look),
        _ => None,
    }
}

fn keep(sights: &mut Sights, zone: &Zone, look: Look)
    ensures { (image : List ℕ) → AreSeen image sights.old → IsLook image zone.now look → AreSeen image sights.new }
{
    let slots = sights.slots.len();
    if slots > 0 {
        sights.slots[slot_of(zone, slots)] = Some(Sight { zone: *zone, look });
    }
}

/// What is seen of a zone, from what is kept if its header would have to be decoded. `looked` grows by what it costs.
pub fn see(image: &[u8], zone: &Zone, sights: &mut Sights, looked: &mut u64) -> Look
    requires inside { IsInside image.now zone.now }
    requires seen { AreSeen image.now sights.old }
    ensures look { IsLook image.now zone.now result }
    ensures seen { AreSeen image.now sights.new }
{
    *looked = looked.saturating_add(1);
    if zone.parity == 0 || !seems_to_begin(zone.name.kind, image, zone.at as usize) {
        return look_at(image, zone);
    }
    if let Some(look) = kept(sights, zone) {
        return look;
    }
    *looked = looked.saturating_add(DECODING);
    let look = look_at(image, zone);
    keep(sights, zone, look);
    look
}
