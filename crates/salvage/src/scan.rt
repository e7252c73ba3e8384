// The scan of a dump.
ghost use Rattle.std.specs.Prelude.{◌≡◌, ◌+◌, ◌*◌, ◌/◌, ◌≤◌, ◌<◌, ◌^◌, ◌∷◌, [], length, drop, filter_map, slice_get};
ghost use Rattle.std.specs.Prelude.{Some, None, Ok, IfOk, is_some, ◌==◌, ◌&&◌, ◌%◌, MatchOption, MatchResult, IfSome};
ghost use Rattle.ramoops_layout.specs.Laid.{zones_of};
ghost use Rattle.zone_spec.specs.Zones.{IsValidZone};
ghost use Rattle.zone_spec.specs.Reading.{zone_reading};
ghost use Rattle.salvage_spec.specs.Rings.{bytes_at, ring_at, rings, read_at};
ghost use Rattle.salvage.specs.Scans.{rings_from, IsFault, IsFirst};

use crate::shape::{Shape, shapes_of};
use outside::Bytes;
use prz_read::{Reading, read_zone};
use prz_region::Probe;
use ramoops_layout::types::Layout;
use salvage_spec::{FoundRing, RingFault};
use std::alloc::{AllocError, Global};
use std::marker::Model;
use zone_spec::{Zone, ZoneName};

/// A scan of a dump for the rings of a layout's shapes: the rings that are left to be listed.
#[derive(Drop)]
pub struct Scan {
    image: Bytes,
    layout: Layout,
    shapes: Vec<Shape>,
    /// Half the present place.
    place: u32,
    /// The next shape there.
    index: usize,
}

impl Model for Scan {
    ghost use Rattle.ramoops_layout.specs.Laid.{zones_of};
    ghost use Rattle.salvage.specs.Scans.{Scanned, IsScan, rings_from};

    ghost Value = { Scanned };

    ghost view = { λ s. record {
      image = s.image;
      zones = zones_of s.layout;
      rest = rings_from s.image s.shapes.items s.place s.index;
    } };

    ghost invariant = { λ s. IsScan s.image (zones_of s.layout) s.shapes.items };
}

/// A ring that was found, half its place, and the number of its shape.
#[derive(Clone, Copy)]
struct Hit {
    place: u32,
    index: usize,
    ring: FoundRing,
}

/// The number of even places.
fn places(dump: &[u8]) -> u32
    requires { length dump.now ≤ 2 ^ 24 }
    ensures { result ≡ (length dump.now + 1) / 2 }
{
    dump.len().div_ceil(2) as u32
}

/// The first ring at a place among the shapes from `start` on.
fn first_at(dump: &[u8], place: u32, shapes: &[Shape], start: usize) -> Option<Hit>
    requires { place ≤ 2 ^ 24 }
    ensures place { IsFirst result place shapes.now }
    ensures first { MatchOption result (filter_map (ring_at dump.now (2 * place)) (drop start shapes.now) ≡ [])
        (λ hit. filter_map (ring_at dump.now (2 * place)) (drop start shapes.now)
        ≡ hit.ring ∷ filter_map (ring_at dump.now (2 * place)) (drop (hit.index + 1) shapes.now)) }
{
    for index in start..shapes.len() {
        if let Some(ring) = shapes[index].ring_at(dump, 2 * place) {
            return Some(Hit { place, index, ring });
        }
    }
    None
}

/// The first ring from a place and a shape there on.
fn first_from(dump: &[u8], shapes: &[Shape], place: u32, index: usize) -> Option<Hit>
    requires { length dump.now ≤ 2 ^ 24 }
    ensures first { MatchOption result (rings_from dump.now shapes.now place index ≡ [])
        (λ hit. rings_from dump.now shapes.now place index
        ≡ hit.ring ∷ rings_from dump.now shapes.now hit.place (hit.index + 1)) }
    ensures index { IfSome result (λ hit. hit.index < length shapes.now) }
{
    let mut start = index;
    for present in place..places(dump) {
        match first_at(dump, present, shapes, start) {
            Some(hit) => return Some(hit),
            None => start = 0,
        }
    }
    None
}

/// Whether the zone's shape has a ring at an even place `at`.
fn has_ring(dump: &[u8], at: u32, zone: &Zone) -> bool
    requires { IsValidZone zone.now }
    ensures { result ≡ ((at % 2 == 0) && is_some (ring_at dump.now at zone.now)) }
{
    let ring = Shape::bare(zone).ring_at(dump, at);
    at % 2 == 0 && ring.is_some()
}

/// The reading of the zone's size of bytes from `at` on.
fn read_place(alloc: Global, dump: &[u8], at: u32, zone: &Zone) -> Result<Reading, AllocError>
    requires valid { IsValidZone zone.now }
    requires within { at + zone.now.size ≤ length dump.now }
    ensures { IfOk result (λ r. r ≡ zone_reading zone.now (bytes_at zone.now dump.now at)) }
{
    let from = at as usize;
    let mut probe = Probe::new(alloc, zone.size)?;
    probe.fill(0, &dump[from..from + zone.size as usize]);
    read_zone(alloc, probe.span(), zone)
}

impl Scan {
    /// A scan of the image from its first byte on. It makes tables for each of the layout's shapes.
    pub fn new(alloc: Global, image: Bytes, layout: Layout) -> Result<Scan, AllocError>
        requires { length image ≤ 16777216 }
        ensures { IfOk result (λ scan. scan ≡ record {
          image = image;
          zones = zones_of layout;
          rest = rings image (zones_of layout);
        }) }
    {
        let shapes = shapes_of(alloc, layout.zones())?;
        Ok(Scan {
            image,
            layout,
            shapes,
            place: 0,
            index: 0,
        })
    }

    /// The next ring. Takes no memory.
    pub fn next(&mut self) -> Option<FoundRing>
        ensures ring { result ≡ slice_get self.old.rest 0 }
        ensures rest { self.new ≡ record self.old { rest = drop 1 self.old.rest } }
    {
        let dump = self.image.as_slice();
        match first_from(dump, self.shapes.as_slice(), self.place, self.index) {
            Some(hit) => {
                self.place = hit.place;
                self.index = hit.index + 1;
                Some(hit.ring)
            }
            None => {
                self.place = places(dump);
                None
            }
        }
    }

    /// Reads the bytes from `at` on as a boot reads the zone of this name, where a ring of the zone's shape is listed
    /// there.
    pub fn ring_at(&self, alloc: Global, at: u32, name: ZoneName) -> Result<Reading, RingFault>
        ensures { MatchResult result (λ r. read_at self.now.image self.now.zones at name ≡ Ok r)
            (IsFault (read_at self.now.image self.now.zones at name)) }
    {
        let Some(index) = self.layout.find(name) else {
            return Err(RingFault::NoZone);
        };
        let zone = &self.layout.zones()[index as usize];
        if !has_ring(self.image.as_slice(), at, zone) {
            return Err(RingFault::NoRing);
        }
        match read_place(alloc, self.image.as_slice(), at, zone) {
            Ok(reading) => Ok(reading),
            Err(_) => Err(RingFault::Memory),
        }
    }
}
