// A boot of a zone in place, in structs of the caller's. It takes no memory.
ghost use Rattle.std.specs.Prelude.{◌≡◌, ◌≤◌, ◌↔◌, length, IsTrue};
ghost use Rattle.oopsbox_c.specs.Ends.{status_of};
ghost use Rattle.oopsbox_c.specs.Places.{zone_in};
ghost use Rattle.oopsbox_c.specs.Boots.{boot_in, CanBoot, IsBoot, BootEnds, IsBootNext, BootNextEnds};

use crate::End;
use crate::boot_numbers::{erasure_in, erasure_number, phase_in, phase_number};
use crate::places::{ZonePlace, is_place, zone_in};
use crate::stores::Stores;
use zone_boot::{Boot, BootStore};

/// A boot that was begun. The caller keeps it, and changes nothing in it.
#[repr(C)]
#[derive(Clone, Copy, Debug, Default, PartialEq, Eq)]
pub struct ZoneBoot {
    pub made: u64,
    pub zone: ZonePlace,
    pub phase: u32,
    pub erasure: u32,
    pub block: u32,
    pub within: u32,
    pub count: u32,
}

fn boot_in(boot: &ZoneBoot) -> Boot
    ensures { result ≡ boot_in boot.now }
{
    Boot {
        zone: zone_in(&boot.zone),
        made: boot.made,
        phase: phase_in(boot.phase),
        erasure: erasure_in(boot.erasure),
        block: boot.block,
        within: boot.within,
        count: boot.count,
    }
}

fn boot_of(place: &ZonePlace, boot: &Boot) -> ZoneBoot
    requires { boot.now.zone ≡ zone_in place.now }
    ensures boot { boot_in result ≡ boot.now }
    ensures zone { result.zone ≡ place.now }
    ensures phase { result.phase ≤ 6 }
    ensures erasure { result.erasure ≤ 2 }
{
    ZoneBoot {
        made: boot.made,
        zone: *place,
        phase: phase_number(boot.phase),
        erasure: erasure_number(boot.erasure),
        block: boot.block,
        within: boot.within,
        count: boot.count,
    }
}

// Whether these are the numbers of a boot.
fn is_boot(boot: &ZoneBoot) -> bool
    ensures { IsTrue result ↔ IsBoot boot.now }
{
    if boot.phase > 6 || boot.erasure > 2 || !is_place(&boot.zone) {
        return false;
    }
    boot_in(boot).is_kept()
}

// Whether these can be the bytes of the zone at this place.
fn can_boot(place: &ZonePlace, image: &[u8]) -> bool
    ensures { IsTrue result ↔ CanBoot place.now image.now }
{
    is_place(place) && image.len() == place.size as usize
}

fn begin(place: &ZonePlace, image: &[u8], boot: &mut ZoneBoot) -> End
    ensures { BootEnds result place.now image.now boot.old boot.new }
{
    if !can_boot(place, image) {
        return End::Argument;
    }
    let begun = Boot::begin(&[], image, &zone_in(place));
    *boot = boot_of(place, &begun);
    End::Done
}

/// Begins a boot of the zone that stands as `image`.
#[unsafe(no_mangle)]
pub extern "C" fn oopsbox_boot_begin(place: &ZonePlace, image: &[u8], boot: &mut ZoneBoot) -> u32
    ensures { (end : End) × (result ≡ status_of end) × BootEnds end place.now image.now boot.old boot.new }
{
    let end = begin(place, image, boot);
    end.status()
}

// The next stores of a boot. No table is lent: a boot is rare, and a copy of its rows takes 4 KiB of the stack.
fn boot_on(boot: &mut ZoneBoot, image: &[u8], stores: &mut Stores)
    requires boot { IsBoot boot.old }
    requires len { length image.now ≡ boot.old.zone.size }
    ensures { IsBootNext boot.old boot.new image.now stores.new }
{
    let mut of = boot_in(boot);
    let mut store = BootStore::new();
    of.next(&[], image, &mut store);
    let place = boot.zone;
    *boot = boot_of(&place, &of);
    stores.set_boot(&store);
}

fn next(boot: &mut ZoneBoot, image: &[u8], stores: &mut Stores) -> End
    ensures { BootNextEnds result boot.old boot.new image.now stores.old stores.new }
{
    if !is_boot(boot) || image.len() != boot.zone.size as usize {
        return End::Argument;
    }
    boot_on(boot, image, stores);
    End::Done
}

/// Hands out the next stores. `image` is the zone's bytes with all stores made that were handed out before.
#[unsafe(no_mangle)]
pub extern "C" fn oopsbox_boot_next(boot: &mut ZoneBoot, image: &[u8], stores: &mut Stores) -> u32
    ensures { (end : End) × (result ≡ status_of end)
        × BootNextEnds end boot.old boot.new image.now stores.old stores.new }
{
    let end = next(boot, image, stores);
    end.status()
}
