// A storage in an image.
ghost use Rattle.std.specs.Prelude.{◌≡◌, ◌≤◌, List, ℕ, length, take, None, IfOk, IfErr, OnOk, IfSome, MatchResult};
ghost use Rattle.psz_spec.specs.Layouts.{size_fault};
ghost use Rattle.psz_spec.specs.Marks.{order_in, marks_in};
ghost use Rattle.storage_spec.specs.Found.{front_of, machine_of, storage_in};
ghost use Rattle.storage_words.specs.Division.{sized as sized_by};
ghost use Rattle.storage_report.specs.Faults.{IsUnread};
ghost use Rattle.storage_report.specs.Scans.{machine_by};
ghost use Rattle.storage_report.specs.Held.{ShowsTheSame, IsHeld, IsDivided, IsUndivided};
ghost use Rattle.storage_report.specs.Held.{IsLookedAt, IsNotLookedAt};

use crate::filling::copy_of;
use crate::scanning::{Seen, scan};
use crate::storage::{HeldStorage, NoStorage};
use command_spec::Stop;
use outside::{Failed, Load};
use psz_read::{shown_sizes, size_fault};
use psz_spec::Sizes;
use std::alloc::Global;
use storage_spec::Storage;
use storage_words::Storages;
use storage_zones::{few_bytes_are_a_report, storage_by};

/// The kernel uses no more of a storage.
const MOST: u64 = 134_217_728;

// How many bytes the whole pages at the front of an image have.
fn front_len<M: Load>(image: &mut M) -> Result<u32, Stop>
    ensures inside { IfOk result (λ n. IfSome (M.holds image.old) (λ bs. n ≤ length bs)) }
    ensures front { IfOk result (λ n. IfSome (M.holds image.old) (λ bs. take n bs ≡ front_of bs)) }
    ensures err { IfErr result (λ s. IsUnread s (M.faults image.old) (M.faults image.new)) }
    ensures done { OnOk result (M.faults image.new ≡ M.faults image.old) }
    ensures same { M.holds image.new ≡ M.holds image.old }
    ensures later { M.faults image.old ≤ M.faults image.new }
{
    match image.size() {
        Ok(has) => Ok((has.min(MOST) / 4096 * 4096) as u32),
        Err(Failed) => Err(Stop::ImageFault),
    }
}

// A storage with the bytes of an image that its report needs.
fn held<M: Load>(
    alloc: Global,
    image: &mut M,
    storage: Storage,
    total: u32,
) -> Result<HeldStorage, Stop>
    requires faultless { size_fault storage.sizes ≡ None }
    requires inside { IfSome (M.holds image.old) (λ bs. total ≤ length bs) }
    ensures storage { IfOk result (λ h. h.storage ≡ storage) }
    ensures shows { IfOk result (λ h. IfSome (M.holds image.old)
        (λ bs. ShowsTheSame storage (take total bs) h.bytes.items)) }
    ensures err { IfErr result (λ s. IsUnread s (M.faults image.old) (M.faults image.new)) }
    ensures no_fault { OnOk result (M.faults image.new ≡ M.faults image.old) }
    ensures same { M.holds image.new ≡ M.holds image.old }
    ensures later { M.faults image.old ≤ M.faults image.new }
{
    few_bytes_are_a_report();
    let bytes = copy_of(alloc, image, &storage, total)?;
    Ok(HeldStorage { storage, bytes })
}

// The storage that all headers show.
fn shown_by(total: u32, seen: &Seen) -> Option<Storage>
    ensures shown { (image : List ℕ) → total ≡ length image
        → machine_by seen.now.order seen.now.shown ≡ machine_of image
        → seen.now.marks.items ≡ marks_in (order_in image) image → result ≡ storage_in image }
    ensures faultless { IfSome result (λ s. size_fault s.sizes ≡ None) }
{
    storage_by(shown_sizes(total, &seen.marks), seen.machine())
}

// The storage that the front of an image shows: one dump at least must stand there.
fn shown_storage<M: Load>(alloc: Global, image: &mut M) -> Result<Option<HeldStorage>, Stop>
    ensures held { IfOk result (IsHeld (M.holds image.old)) }
    ensures err { IfErr result (λ s. IsUnread s (M.faults image.old) (M.faults image.new)) }
    ensures no_fault { OnOk result (M.faults image.new ≡ M.faults image.old) }
    ensures same { M.holds image.new ≡ M.holds image.old }
    ensures later { M.faults image.old ≤ M.faults image.new }
{
    let total = front_len(image)?;
    let seen = scan(alloc, image, total, true)?;
    let Some(storage) = shown_by(total, &seen) else {
        return Ok(None);
    };
    let held = held(alloc, image, storage, total)?;
    Ok(Some(held))
}

fn sized(total: u32, sizes: &Sizes) -> Sizes
    ensures { result ≡ sized_by total sizes.now }
{
    Sizes {
        total: u64::from(total),
        ..*sizes
    }
}

// The storage that sizes divide at the front of an image.
fn divided_storage<M: Load>(
    alloc: Global,
    sizes: &Sizes,
    image: &mut M,
) -> Result<HeldStorage, NoStorage>
    ensures divided { MatchResult result (IsDivided sizes.now (M.holds image.old))
        (IsUndivided sizes.now (M.holds image.old) (M.faults image.old) (M.faults image.new)) }
    ensures no_fault { OnOk result (M.faults image.new ≡ M.faults image.old) }
    ensures same { M.holds image.new ≡ M.holds image.old }
    ensures later { M.faults image.old ≤ M.faults image.new }
{
    let total = front_len(image)?;
    let sizes = sized(total, sizes);
    if let Some(fault) = size_fault(&sizes) {
        return Err(NoStorage::Undivided(fault));
    }
    let seen = scan(alloc, image, total, false)?;
    let storage = Storage {
        sizes,
        machine: seen.machine(),
        tied: false,
    };
    let held = held(alloc, image, storage, total)?;
    Ok(held)
}

/// The storage that the front of an image is, in whole pages of 4096 bytes and at most 128 MiB, if such are looked for.
/// Nothing is read where none is. To find the sizes all is read; if they are given, only up to the header that decides
/// the machine. Then each zone's front is read, and the logs of the listed records.
pub fn held_storage<M: Load>(
    alloc: Global,
    storages: Storages,
    image: &mut M,
) -> Result<Option<HeldStorage>, NoStorage>
    ensures looked { MatchResult result (IsLookedAt storages (M.holds image.old))
        (IsNotLookedAt storages (M.holds image.old) (M.faults image.old) (M.faults image.new)) }
    ensures no_fault { OnOk result (M.faults image.new ≡ M.faults image.old) }
    ensures same { M.holds image.new ≡ M.holds image.old }
    ensures later { M.faults image.old ≤ M.faults image.new }
{
    match storages {
        Storages::Never => Ok(None),
        Storages::Shown => Ok(shown_storage(alloc, image)?),
        Storages::All(sizes) => Ok(Some(divided_storage(alloc, &sizes, image)?)),
    }
}
