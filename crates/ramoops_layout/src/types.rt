//! The layout of a store's zones.
ghost use Rattle.std.specs.Prelude.{◌≡◌, ◌^◌, ◌<◌, Ok};
ghost use Rattle.zone_spec.specs.Layouts.{zone_place, IsLayout};
ghost use Rattle.zone_spec.specs.Layout.{layout_of, ecc_of};

use crate::rows;
use zone_spec::{Kind, Params, Zone, ZoneName};

/// The zones of a parameter list, in the order in which they lie: dump zones, console, and then the ftrace zones and
/// pmsg in the order that the parameters say.
#[derive(Drop)]
pub struct Layout {
    params: Params,
    zones: Vec<Zone>,
    ghost laid: { layout_of params ≡ Ok zones.items },
    ghost tagged: { params.ftrace_sig < 2 ^ 32 },
}

impl Layout {
    ghost use Rattle.ramoops_layout.specs.Laid.{params_of, zones_of, NamesDiffer};

    pub(crate) fn new(params: Params, zones: Vec<Zone>) -> Layout
        requires { layout_of params ≡ Ok zones.items }
        ensures params { params_of result ≡ params }
        ensures zones { zones_of result ≡ zones.items }
    {
        Layout { params, zones }
    }

    /// The bytes of the image.
    pub fn mem(&self) -> u32
        ensures { result ≡ (params_of self.now).mem }
    {
        self.params.mem as u32
    }

    /// The parity bytes that kinds without a value of their own have, also where there is no such kind.
    pub fn parity(&self) -> u32
        ensures { result ≡ (params_of self.now).ecc }
    {
        self.params.ecc as u32
    }

    /// The parity bytes of each part of a zone of this kind, also where there is no such zone.
    pub fn parity_of(&self, kind: Kind) -> u32
        ensures { result ≡ ecc_of (params_of self.now) kind }
    {
        rows::parity(&self.params, kind) as u32
    }

    /// The data bytes of one parity block, also where no part has parity.
    pub fn block(&self) -> u32
        ensures { result ≡ (params_of self.now).block }
    {
        self.params.block as u32
    }

    /// The zones, in the order in which they lie.
    pub fn zones(&self) -> &[Zone]
        ensures value { result.now ≡ zones_of self.now }
        ensures laid_out { IsLayout result.now (params_of self.now).mem }
        ensures names { NamesDiffer result.now }
    {
        &self.zones
    }

    /// The zones alone.
    pub fn into_zones(self) -> Vec<Zone>
        ensures value { result.items ≡ zones_of self }
        ensures layout { layout_of (params_of self) ≡ Ok result.items }
        ensures laid_out { IsLayout result.items (params_of self).mem }
    {
        let Layout { params: _, zones } = self;
        zones
    }

    /// The place of the zone of this name in the list. Takes the same time in every layout.
    pub fn find(&self, name: ZoneName) -> Option<u32>
        ensures { result ≡ zone_place (zones_of self.now) name }
    {
        rows::place(&rows::rows(&self.params), name)
    }
}
