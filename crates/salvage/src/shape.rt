// The shapes that a layout's zones have, and the ring of a shape at a place.
ghost use Rattle.std.specs.Prelude.{◌≡◌, ◌+◌, ◌*◌, ◌≤◌, ◌<◌, ◌++◌, length, IfOk, OnOk};
ghost use Rattle.zone_spec.specs.Zones.{IsValidZone};
ghost use Rattle.zone_spec.specs.Parts.{Header, part_parity_at};
ghost use Rattle.salvage_spec.specs.Rings.{is_alike, ring_at, ring_in, shapes as shapes_of_zones};
ghost use Rattle.salvage_laws.specs.Known.{known as known_of_zone};
ghost use Rattle.salvage.specs.Sieves.{IsSieveOf};
ghost use Rattle.salvage.specs.Shapes.{AllValid, coder_for, has_shape, with_shape};

use crate::header::{known_bytes, ring_by, ring_with};
use crate::sieve::Sieve;
use rs_encode::Parity;
use salvage_spec::FoundRing;
use std::alloc::{AllocError, Global};
use std::marker::Model;
use zone_spec::Zone;

/// A shape, by its first zone. It holds the bytes of a ring's header that are known, and, where there is parity, its
/// encoder, some 4 KiB, and a sieve of the headers, up to 900 KiB on the heap.
#[derive(Drop)]
pub struct Shape {
    zone: Zone,
    known: [Option<u8>; 12],
    coder: Option<Parity>,
    sieve: Option<Sieve>,
}

impl Model for Shape {
    ghost use Rattle.zone_spec.specs.declared.Zone.{Zone};
    ghost use Rattle.salvage.specs.Shapes.{IsShape};

    ghost Value = { Zone };

    ghost view = { λ s. s.zone };

    ghost invariant = { λ s. IsShape s.zone s.known s.coder s.sieve };
}

fn coder_of(zone: &Zone) -> Option<Parity>
    requires { IsValidZone zone.now }
    ensures { result ≡ coder_for zone.now }
{
    if zone.parity == 0 {
        None
    } else {
        Some(Parity::new(zone.parity as usize))
    }
}

/// The sieve of a zone's headers, none without parity.
fn sieve_of(
    alloc: Global,
    zone: &Zone,
    coder: &Option<Parity>,
    known: [Option<u8>; 12],
) -> Result<Option<Sieve>, AllocError>
    requires valid { IsValidZone zone.now }
    requires coder { coder.now ≡ coder_for zone.now }
    requires known { known ≡ known_of_zone zone.now }
    ensures { IfOk result (IsSieveOf zone.now) }
{
    match coder {
        Some(coder) => Sieve::new(alloc, coder, known, zone.parity as usize),
        None => Ok(None),
    }
}

/// Where the parity of a zone's header begins.
fn header_parity(zone: &Zone) -> u32
    requires { IsValidZone zone.now }
    ensures at { result ≡ part_parity_at zone.now Header }
    ensures within { result + zone.now.parity ≤ zone.now.size }
    ensures header { 12 ≤ zone.now.size }
{
    12 + zone.cap + zone.blocks * zone.parity
}

impl Shape {
    /// A shape for a scan.
    pub fn new(alloc: Global, zone: &Zone) -> Result<Shape, AllocError>
        requires { IsValidZone zone.now }
        ensures { IfOk result (λ shape. shape ≡ zone.now) }
    {
        let known = known_bytes(zone);
        let coder = coder_of(zone);
        let sieve = sieve_of(alloc, zone, &coder, known)?;
        Ok(Shape {
            zone: *zone,
            known,
            coder,
            sieve,
        })
    }

    /// A shape for a single place, with no sieve. Takes no memory.
    pub fn bare(zone: &Zone) -> Shape
        requires { IsValidZone zone.now }
        ensures { result ≡ zone.now }
    {
        Shape {
            zone: *zone,
            known: known_bytes(zone),
            coder: coder_of(zone),
            sieve: None,
        }
    }

    fn is_alike(&self, zone: &Zone) -> bool
        ensures { result ≡ is_alike self.now zone.now }
    {
        let own = &self.zone;
        own.size == zone.size
            && own.cap == zone.cap
            && own.blocks == zone.blocks
            && own.parity == zone.parity
            && own.block == zone.block
            && own.sig == zone.sig
            && own.byte_order == zone.byte_order
    }

    /// The ring at `at` by its header's bytes and their parity, where it is one of this shape.
    fn ring_in(&self, at: u32, header: &[u8], parity: &[u8]) -> Option<FoundRing>
        requires len { length header.now ≡ 12 }
        requires parity { length parity.now ≡ self.now.parity }
        ensures { result ≡ ring_in self.now at (header.now ++ parity.now) }
    {
        match &self.coder {
            Some(coder) => ring_by(
                coder,
                &self.zone,
                &self.known,
                &self.sieve,
                at,
                header,
                parity,
            ),
            None => ring_with(&self.zone, at, header, 0),
        }
    }

    /// The ring of this shape at `at`, where one is there.
    pub fn ring_at(&self, dump: &[u8], at: u32) -> Option<FoundRing>
        ensures { result ≡ ring_at dump.now at self.now }
    {
        let zone = &self.zone;
        let from = at as usize;
        if from + zone.size as usize > dump.len() {
            return None;
        }
        let parity_at = from + header_parity(zone) as usize;
        let header = &dump[from..from + 12];
        let parity = &dump[parity_at..parity_at + zone.parity as usize];
        self.ring_in(at, header, parity)
    }
}

/// Whether a zone has one of the shapes.
fn has_shape(shapes: &[Shape], zone: &Zone) -> bool
    ensures { result ≡ has_shape shapes.now zone.now }
{
    shapes.iter().any(|shape| shape.is_alike(zone))
}

/// Adds the zone's shape, where it is not there.
fn add_shape(alloc: Global, shapes: &mut Vec<Shape>, zone: &Zone) -> Result<(), AllocError>
    requires { IsValidZone zone.now }
    ensures { OnOk result (shapes.new.items ≡ with_shape shapes.old.items zone.now) }
{
    if has_shape(shapes, zone) {
        return Ok(());
    }
    let shape = Shape::new(alloc, zone)?;
    shapes.push(shape)?;
    Ok(())
}

/// The shapes of the zones, each by its first zone.
pub fn shapes_of(alloc: Global, zones: &[Zone]) -> Result<Vec<Shape>, AllocError>
    requires { AllValid zones.now }
    ensures { IfOk result (λ shapes. shapes.items ≡ shapes_of_zones zones.now) }
{
    let mut shapes = Vec::new(alloc);
    for zone in zones {
        add_shape(alloc, &mut shapes, zone)?;
    }
    Ok(shapes)
}
