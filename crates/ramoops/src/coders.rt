// The encoders of the zones' parts.
ghost use Rattle.std.specs.Prelude.{◌≡◌};
ghost use Rattle.std.specs.Option.{ForSome};
ghost use Rattle.zone_spec.specs.Zones.{IsValidZone};

use prz_ecc::Coder;
use std::alloc::{AllocError, Global};
use zone_spec::Zone;

/// An encoder for parts with this many parity bytes.
#[derive(Drop)]
pub struct PartCoder {
    parity: u32,
    coder: Coder,
    ghost fits: { coder ≡ parity },
}

/// An encoder for each number of parity bytes that a zone's parts have, so that no call makes one.
#[derive(Drop)]
pub struct Coders {
    list: Vec<PartCoder>,
}

impl Coders {
    pub(crate) fn new(alloc: Global) -> Coders {
        Coders {
            list: Vec::new(alloc),
        }
    }

    /// Makes an encoder for the zone's parts, if there is none yet.
    pub(crate) fn add(&mut self, zone: &Zone) -> Result<(), AllocError>
        requires { IsValidZone zone.now }
    {
        if self.for_zone(zone).is_some() {
            return Ok(());
        }
        self.list.push(PartCoder {
            parity: zone.parity,
            coder: Coder::new(zone),
        })?;
        Ok(())
    }

    /// The encoder for the zone's parts, if it was made.
    pub(crate) fn for_zone(&self, zone: &Zone) -> Option<&Coder>
        ensures { ForSome result (λ c. c.now ≡ zone.now.parity) }
    {
        for made in self.list.as_slice() {
            if made.parity == zone.parity {
                return Some(&made.coder);
            }
        }
        None
    }
}
