// The readings that a boot saves.
ghost use Rattle.std.specs.Prelude.{◌≡◌, ◌<◌, ◌^◌, ◌++◌, ◌∷◌, [], length, slice_get, slice_set, Some, None, IfOk};
ghost use Rattle.std.specs.Option.{option_map, option_copied};
ghost use Rattle.ramoops_layout.specs.Laid.{zones_of};
ghost use Rattle.zone_spec.specs.Records.{Saved};
ghost use Rattle.prz_read.specs.Saving.{saved};

use crate::Reading;
use ramoops_layout::types::Layout;
use std::alloc::{AllocError, Global};
use std::marker::Model;
use zone_spec::{Zone, ZoneName};

/// The saved readings of a layout's zones, in the zones' order: a reading, or none where it was forgotten.
#[derive(Drop)]
pub struct Logs {
    zones: Vec<Zone>,
    readings: Vec<Option<Reading>>,
}

impl Model for Logs {
    ghost use Rattle.prz_read.specs.Saving.{SavedLogs, HasRoom};

    ghost Value = { SavedLogs };

    ghost view = { λ l. record { zones = l.zones.items; readings = l.readings.items } };

    ghost invariant = { λ l. HasRoom l.zones l.readings };
}

impl Logs {
    ghost use Rattle.prz_read.specs.Saving.{AreNumbered};

    /// No reading yet, with room for those of all zones of the layout.
    pub fn new(alloc: Global, layout: &Layout) -> Result<Logs, AllocError>
        ensures { IfOk result (λ logs. logs ≡ record { zones = zones_of layout.now; readings = [] }) }
    {
        let _mem = layout.mem();
        Logs::of_zones(alloc, layout.zones())
    }

    /// No reading yet, with room for those of all these zones.
    pub fn of_zones(alloc: Global, zones: &[Zone]) -> Result<Logs, AllocError>
        requires few { length zones.now < 2 ^ 32 }
        requires numbered { AreNumbered zones.now }
        ensures { IfOk result (λ logs. logs ≡ record { zones = zones.now; readings = [] }) }
    {
        let zones = Vec::from_slice(alloc, zones)?;
        let readings = Vec::with_capacity(alloc, zones.len())?;
        Ok(Logs { zones, readings })
    }

    /// Saves the reading of the next zone. Takes no memory.
    pub fn push(&mut self, reading: Reading)
        requires { length self.old.readings < length self.old.zones }
        ensures { self.new ≡ record self.old { readings = self.old.readings ++ Some reading ∷ [] } }
    {
        self.readings.push_reserved(Some(reading));
    }

    /// The number of zones whose readings were saved, the forgotten ones too.
    pub fn len(&self) -> u32
        ensures readings { result ≡ length self.now.readings }
        ensures saved { result ≡ length (saved self.now) }
        ensures numbered { AreNumbered self.now.zones }
    {
        self.readings.len() as u32
    }

    /// The name of zone `i`.
    pub fn name(&self, i: u32) -> ZoneName
        requires { i < length self.now.readings }
        ensures { option_map (λ (s : Saved). s.0.name) (slice_get (saved self.now) i) ≡ Some result }
    {
        self.zones[i as usize].name
    }

    /// The parity bytes of each part of zone `i`.
    pub fn parity(&self, i: u32) -> u32
        requires { i < length self.now.readings }
        ensures { option_map (λ (s : Saved). s.0.parity) (slice_get (saved self.now) i) ≡ Some result }
    {
        self.zones[i as usize].parity
    }

    /// The reading of zone `i`, or `None` where it was forgotten.
    pub fn reading(&self, i: u32) -> Option<&Reading>
        requires { i < length self.now.readings }
        ensures { option_map (λ (s : Saved). s.1) (slice_get (saved self.now) i) ≡ Some (option_copied result) }
    {
        self.readings[i as usize].as_ref()
    }

    /// Forgets the reading of zone `i`.
    pub fn forget(&mut self, i: u32)
        requires { i < length self.old.readings }
        ensures { self.new ≡ record self.old { readings = slice_set self.old.readings i None } }
    {
        self.readings[i as usize] = None;
    }
}
