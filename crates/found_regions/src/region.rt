// The region that begins at a place.
ghost use Rattle.std.specs.Prelude.{◌≡◌, ◌≤◌, None, take, drop, IfOk, IfErr, IfSome, OnOk};
ghost use Rattle.memory_regions.specs.Choice.{best_from};
ghost use Rattle.memory_regions.specs.Faults.{IsUnread};
ghost use Rattle.found_regions.specs.Regions.{larger_size, region_found, region_by, IsRegionAt};

use layout_search::{Found, Known};
use memory_regions::{Reading, Unread, best, larger, readings, window};
use outside::Load;
use std::alloc::Global;

/// A region has at most so many bytes.
const MOST: u32 = 16_777_216;

/// A region, by its place in the memory.
#[derive(Clone, Copy, Debug, PartialEq, Eq)]
pub struct Region {
    pub place: u64,
    pub found: Found,
    /// A larger size that explains as much.
    pub larger: Option<u64>,
}

fn larger_size(readings: &[Reading], first: &Reading) -> Option<u64>
    ensures { result ≡ larger_size readings.now first.now }
{
    match larger(readings, first) {
        Some(reading) => Some(reading.size),
        None => None,
    }
}

fn region_found(place: u64, readings: &[Reading], first: &Reading) -> Option<Region>
    ensures { result ≡ region_found place readings.now first.now first.now.found }
{
    match first.found {
        Some(found) => Some(Region {
            place,
            found,
            larger: larger_size(readings, first),
        }),
        None => None,
    }
}

fn region_by(place: u64, readings: &[Reading]) -> Option<Region>
    ensures { result ≡ region_by place readings.now (best_from None readings.now) }
{
    match best(readings) {
        Some(first) => region_found(place, readings, &first),
        None => None,
    }
}

/// The region that begins at a place of the memory, if a layout explains what stands there.
pub fn region_at<M: Load>(
    alloc: Global,
    memory: &mut M,
    known: &Known,
    place: u64,
) -> Result<Option<Region>, Unread>
    ensures ok { IfOk result (λ region. IfSome (M.holds memory.old) (λ bs. IsRegionAt known.now bs place region)) }
    ensures err { IfErr result (λ e. IsUnread e (M.faults memory.old) (M.faults memory.new)) }
    ensures no_fault { OnOk result (M.faults memory.new ≡ M.faults memory.old) }
    ensures same { M.holds memory.new ≡ M.holds memory.old }
    ensures later { M.faults memory.old ≤ M.faults memory.new }
{
    let bytes = window(alloc, memory, place, MOST)?;
    let readings = readings(alloc, known, &bytes)?;
    Ok(region_by(place, &readings))
}
