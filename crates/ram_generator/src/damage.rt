// The damage of the zones that no call was cut in.
ghost use Rattle.std.specs.Prelude.{ℕ, List, [], length, ◌≡◌, ◌<◌, ◌+◌, ◌^◌, IfOk, OnOk};
ghost use Rattle.std.specs.List.{All};
ghost use Rattle.zone_spec.specs.declared.Zone.{Zone as AZone};
ghost use Rattle.zone_spec.specs.Zones.{IsValidZone};
ghost use Rattle.zone_spec.specs.Parts.{Part, part_at, part_len};
ghost use Rattle.machine_spec.specs.States.{OffState, Off as OffOf};
ghost use Rattle.ramoops.specs.OffSeen.{StandsOff};
ghost use Rattle.script_spec.specs.Generated.{Generated, draw_over, drawn_flips, drawn_damage};
ghost use Rattle.ram_generator.specs.Damage.{blocks_of, IsWithin, IsFlipped, IsDamaged};

use crate::Draws;
use ramoops::Off;
use std::alloc::{AllocError, Global};
use zone_spec::Zone;

// Flips of at most so many bytes of a part more, all in a row.
fn draw_flips(
    draws: &mut Draws,
    most: u32,
    at: u32,
    len: u32,
    flips: &mut Vec<(u32, u8)>,
) -> Result<(), AllocError>
    requires within { at + len < 2 ^ 32 }
    requires short { len < 2 ^ 31 }
    ensures { OnOk result ((z : AZone) (part : Part) → at ≡ z.at + part_at z part → len ≡ part_len z part
        → (flips.new.items, draws.new) ≡ drawn_flips most z flips.old.items part draws.old) }
{
    let count = draws.draw(most.min(len) + 1);
    let place = draws.draw(len - count + 1);
    draws.draw_masks(at + place, count, flips)?;
    Ok(())
}

// Flips of a zone's blocks more.
fn draw_blocks(
    draws: &mut Draws,
    most: u32,
    zone: &Zone,
    flips: &mut Vec<(u32, u8)>,
) -> Result<(), AllocError>
    requires valid { IsValidZone zone.now }
    requires within { zone.now.at + zone.now.size < 2 ^ 32 }
    ensures { OnOk result ((flips.new.items, draws.new)
        ≡ draw_over (drawn_flips most zone.now) flips.old.items (blocks_of zone.now) draws.old) }
{
    let blocks = zone.cap.div_ceil(zone.block);
    'parts: for b in 0..blocks {
        let begin = zone.block * b;
        let end = (zone.block * (b + 1)).min(zone.cap);
        draw_flips(draws, most, zone.at + 12 + begin, end - begin, flips)?;
    }
    Ok(())
}

// Flips of a zone more: in each part at most half the parity.
fn draw_damage(draws: &mut Draws, zone: &Zone, flips: &mut Vec<(u32, u8)>) -> Result<(), AllocError>
    requires valid { IsValidZone zone.now }
    requires within { zone.now.at + zone.now.size < 2 ^ 32 }
    ensures { OnOk result ((flips.new.items, draws.new) ≡ drawn_damage flips.old.items zone.now draws.old) }
{
    let most = zone.parity / 2;
    draw_flips(draws, most, zone.at, 12, flips)?;
    draw_blocks(draws, most, zone, flips)?;
    Ok(())
}

/// Flips of zones, each with a mask: in the header and in each block with data at most half the parity, in a row.
pub fn draw_all(
    alloc: Global,
    draws: &mut Draws,
    zones: &[Zone],
) -> Result<Vec<(u32, u8)>, AllocError>
    requires { All IsWithin zones.now }
    ensures { IfOk result (λ flips. (flips.items, draws.new)
        ≡ draw_over drawn_damage [] zones.now draws.old) }
{
    let mut flips = Vec::new(alloc);
    'zones: for zone in zones {
        draw_damage(draws, zone, &mut flips)?;
    }
    Ok(flips)
}

/// Makes flips in their order. A flip beyond the image changes nothing.
pub fn make_damage(off: &mut Off, flips: &[(u32, u8)])
    ensures { (layout : List AZone) (mem : ℕ) (g : Generated) (s : OffState) → g.session ≡ OffOf s
        → StandsOff layout mem off.old s → length s.image ≡ mem → IsDamaged layout mem g flips.now off.new }
{
    'flips: for flip in flips {
        let (place, mask) = *flip;
        make_flip(off, place, mask);
    }
}

fn make_flip(off: &mut Off, place: u32, mask: u8)
    ensures { (layout : List AZone) (mem : ℕ) (g : Generated) (s : OffState) → g.session ≡ OffOf s
        → StandsOff layout mem off.old s → length s.image ≡ mem → IsFlipped layout mem g (place, mask) off.new }
{
    match off.flip(place, mask) {
        Ok(()) => {}
        Err(_) => {}
    }
}
