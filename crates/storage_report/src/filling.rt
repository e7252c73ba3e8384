// A copy of an image with the bytes that its report needs.
ghost use Rattle.std.specs.Prelude.{◌≡◌, ◌≤◌, length, take, None, IfOk, IfErr, OnOk, IfSome};
ghost use Rattle.psz_spec.specs.Layouts.{size_fault};
ghost use Rattle.storage_zones.specs.Laws.{ReadTheSame};
ghost use Rattle.storage_report.specs.Faults.{IsUnread};
ghost use Rattle.storage_report.specs.Copies.{IsFilled, IsLogFilled, Keeps, HasZone, HasZones, front_of as front_by};

use command_spec::Stop;
use outside::{Failed, Load};
use psz_read::{Part, part_of, zone_bytes};
use psz_spec::{Machine, Span, Zone};
use std::alloc::Global;
use storage_spec::Storage;
use storage_zones::lying_zones;

// Reads the bytes of a span into their places, as far as the copy has any.
fn fill<M: Load>(image: &mut M, copy: &mut [u8], span: Span) -> Result<(), Stop>
    requires { IfSome (M.holds image.old) (λ bs. length copy.old ≤ length bs) }
    ensures filled { OnOk result (IfSome (M.holds image.old)
        (λ bs. IsFilled (take (length copy.old) bs) span copy.old copy.new)) }
    ensures err { IfErr result (λ s. IsUnread s (M.faults image.old) (M.faults image.new)) }
    ensures done { OnOk result (M.faults image.new ≡ M.faults image.old) }
    ensures same { M.holds image.new ≡ M.holds image.old }
    ensures later { M.faults image.old ≤ M.faults image.new }
{
    let len = copy.len() as u64;
    if span.at >= len || span.len == 0 {
        return Ok(());
    }
    let from = span.at as usize;
    let count = u64::from(span.len).min(len - span.at) as usize;
    match image.read_at(span.at, &mut copy[from..from + count]) {
        Ok(()) => Ok(()),
        Err(Failed) => Err(Stop::ImageFault),
    }
}

// The front of a zone, by which it is listed or not.
fn front_of(zone: &Zone) -> Span
    ensures { result ≡ front_by zone.now }
{
    Span {
        at: u64::from(zone.at),
        len: zone.size.min(52),
    }
}

// Reads the log of a zone that is listed.
fn fill_log<M: Load>(image: &mut M, copy: &mut [u8], part: Option<Part>) -> Result<(), Stop>
    requires { IfSome (M.holds image.old) (λ bs. length copy.old ≤ length bs) }
    ensures filled { OnOk result (IfSome (M.holds image.old)
        (λ bs. IsLogFilled (take (length copy.old) bs) part copy.old copy.new)) }
    ensures err { IfErr result (λ s. IsUnread s (M.faults image.old) (M.faults image.new)) }
    ensures done { OnOk result (M.faults image.new ≡ M.faults image.old) }
    ensures same { M.holds image.new ≡ M.holds image.old }
    ensures later { M.faults image.old ≤ M.faults image.new }
{
    if let Some(part) = part {
        fill(image, copy, part.log.first)?;
        fill(image, copy, part.log.second)?;
    }
    Ok(())
}

// Reads the front of a zone, and its log if it is listed.
fn fill_zone<M: Load>(
    image: &mut M,
    machine: Machine,
    zone: &Zone,
    copy: &mut [u8],
) -> Result<(), Stop>
    requires { IfSome (M.holds image.old) (λ bs. length copy.old ≤ length bs) }
    ensures keeps { OnOk result (IfSome (M.holds image.old)
        (λ bs. Keeps (take (length copy.old) bs) copy.old copy.new)) }
    ensures has { OnOk result (IfSome (M.holds image.old)
        (λ bs. HasZone machine (take (length copy.old) bs) copy.new zone.now)) }
    ensures err { IfErr result (λ s. IsUnread s (M.faults image.old) (M.faults image.new)) }
    ensures done { OnOk result (M.faults image.new ≡ M.faults image.old) }
    ensures same { M.holds image.new ≡ M.holds image.old }
    ensures later { M.faults image.old ≤ M.faults image.new }
{
    fill(image, copy, front_of(zone))?;
    let part = part_of(machine, zone, zone_bytes(zone, copy));
    fill_log(image, copy, part)
}

fn fill_zones<M: Load>(
    image: &mut M,
    machine: Machine,
    zones: &[Zone],
    copy: &mut [u8],
) -> Result<(), Stop>
    requires { IfSome (M.holds image.old) (λ bs. length copy.old ≤ length bs) }
    ensures has { OnOk result (IfSome (M.holds image.old)
        (λ bs. HasZones machine zones.now (take (length copy.old) bs) copy.new)) }
    ensures err { IfErr result (λ s. IsUnread s (M.faults image.old) (M.faults image.new)) }
    ensures done { OnOk result (M.faults image.new ≡ M.faults image.old) }
    ensures same { M.holds image.new ≡ M.holds image.old }
    ensures later { M.faults image.old ≤ M.faults image.new }
{
    for zone in zones {
        fill_zone(image, machine, zone, copy)?;
    }
    Ok(())
}

/// A copy of the first `total` bytes of an image: each zone's front and the logs of the listed records are read, all
/// else is 0.
pub(crate) fn copy_of<M: Load>(
    alloc: Global,
    image: &mut M,
    storage: &Storage,
    total: u32,
) -> Result<Vec<u8>, Stop>
    requires faultless { size_fault storage.now.sizes ≡ None }
    requires inside { IfSome (M.holds image.old) (λ bs. total ≤ length bs) }
    ensures reads { IfOk result (λ copy. IfSome (M.holds image.old)
        (λ bs. ReadTheSame storage.now (take total bs) copy.items)) }
    ensures err { IfErr result (λ s. IsUnread s (M.faults image.old) (M.faults image.new)) }
    ensures no_fault { OnOk result (M.faults image.new ≡ M.faults image.old) }
    ensures same { M.holds image.new ≡ M.holds image.old }
    ensures later { M.faults image.old ≤ M.faults image.new }
{
    let mut copy = Vec::from_elem(alloc, 0u8, total as usize)?;
    let zones = lying_zones(alloc, &storage.sizes)?;
    fill_zones(image, storage.machine, &zones, &mut copy)?;
    Ok(copy)
}
