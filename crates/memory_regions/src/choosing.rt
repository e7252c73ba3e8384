// The region that begins at a place.
ghost use Rattle.std.specs.Prelude.{◌≡◌, None, map, take, IfOk};
ghost use Rattle.std.specs.List.{AllByRecursion, find};
ghost use Rattle.memory_spec.specs.Sizes.{comes_first};
ghost use Rattle.memory_regions.specs.declared.choosing.Reading.{Reading as ReadingValue};
ghost use Rattle.memory_regions.specs.Choice.{IsReading, AreReadings, is_explained, is_first, is_better, better};
ghost use Rattle.memory_regions.specs.Choice.{best_from, has_few, is_rival};

use crate::sizes::sizes;
use layout_search::{Found, Known, Tally, search};
use std::alloc::{AllocError, Global};

/// The layout that so many bytes from a place on show, if one was found.
#[derive(Clone, Copy, Debug, PartialEq, Eq)]
pub struct Reading {
    pub size: u64,
    pub found: Option<Found>,
}

fn is_explained(found: &Option<Found>) -> bool
    ensures { result ≡ is_explained found.now }
{
    match found {
        Some(found) => found.taken && found.whole,
        None => false,
    }
}

// Of two layouts that are taken the first comes first.
fn comes_first(t: &Tally, u: &Tally) -> bool
    ensures { result ≡ comes_first t.now u.now }
{
    t.faults < u.faults
        || (t.faults == u.faults && (t.odd < u.odd || (t.odd == u.odd && u.fits < t.fits)))
}

fn is_first(f: &Option<Found>, g: &Option<Found>) -> bool
    ensures { result ≡ is_first f.now g.now }
{
    match (f, g) {
        (Some(f), Some(g)) => comes_first(&f.tally, &g.tally),
        _ => false,
    }
}

fn is_better(best: &Option<Reading>, reading: &Reading) -> bool
    ensures { result ≡ is_better best.now reading.now }
{
    match best {
        Some(best) => is_explained(&reading.found) && is_first(&reading.found, &best.found),
        None => is_explained(&reading.found),
    }
}

fn better(best: Option<Reading>, reading: &Reading) -> Option<Reading>
    ensures { result ≡ better best reading.now }
{
    if is_better(&best, reading) {
        Some(*reading)
    } else {
        best
    }
}

/// The reading that explains its bytes best, if one does: the one with the fewest faults, then with the fewest logs that
/// are not as their kind writes them, then with the most zones that fit, then the smallest.
pub fn best(readings: &[Reading]) -> Option<Reading>
    ensures { result ≡ best_from None readings.now }
{
    let mut best = None;
    for reading in readings {
        best = better(best, reading);
    }
    best
}

fn has_few(f: &Option<Found>, g: &Option<Found>) -> bool
    ensures { result ≡ has_few f.now g.now }
{
    match (f, g) {
        (Some(f), Some(g)) => f.tally.faults <= g.tally.faults,
        _ => false,
    }
}

fn is_rival(best: &Reading, reading: &Reading) -> bool
    ensures { result ≡ is_rival best.now reading.now }
{
    best.size < reading.size && is_explained(&reading.found) && has_few(&reading.found, &best.found)
}

/// The first reading that is larger than the best and explains its bytes with as few faults: what stands behind the
/// region could be of it.
pub fn larger(readings: &[Reading], best: &Reading) -> Option<Reading>
    ensures { result ≡ find (is_rival best.now) readings.now }
{
    for reading in readings {
        if is_rival(best, reading) {
            return Some(*reading);
        }
    }
    None
}

// The first `size` bytes, or as many as there are.
fn front(bytes: &[u8], size: u64) -> &[u8]
    ensures { result.now ≡ take size bytes.now }
{
    match bytes.get(..size as usize) {
        Some(front) => front,
        None => bytes,
    }
}

// The layout that the first `size` bytes show.
fn read_size(alloc: Global, known: &Known, bytes: &[u8], size: u64) -> Result<Reading, AllocError>
    ensures size { IfOk result (λ r. r.size ≡ size) }
    ensures answer { IfOk result (IsReading known.now bytes.now) }
{
    let found = search(alloc, front(bytes, size), known)?;
    Ok(Reading { size, found })
}

fn read_sizes(
    alloc: Global,
    known: &Known,
    bytes: &[u8],
    sizes: &[u64],
) -> Result<Vec<Reading>, AllocError>
    ensures sizes { IfOk result (λ list. map (λ (r : ReadingValue). r.size) list.items ≡ sizes.now) }
    ensures answers { IfOk result (λ list. AllByRecursion (IsReading known.now bytes.now) list.items) }
{
    let mut list = Vec::new(alloc);
    for size in sizes {
        list.push(read_size(alloc, known, bytes, *size)?)?;
    }
    Ok(list)
}

/// The layouts that the front of these bytes shows at each size that is tried, rising.
pub fn readings(alloc: Global, known: &Known, bytes: &[u8]) -> Result<Vec<Reading>, AllocError>
    ensures { IfOk result (λ list. AreReadings known.now bytes.now list.items) }
{
    let sizes = sizes(alloc, known.mem, bytes)?;
    let list = read_sizes(alloc, known, bytes, &sizes)?;
    Ok(list)
}
