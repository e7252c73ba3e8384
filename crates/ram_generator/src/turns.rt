// The calls of a round, as they are drawn.
ghost use Rattle.std.specs.Prelude.{◌≡◌, List, ◌<◌, ◌≤◌, ◌^◌, length, IfOk};
ghost use Rattle.std.specs.List.{All};
ghost use Rattle.zone_spec.specs.Records.{is_of};
ghost use Rattle.zone_spec.specs.declared.Kind.TheVariants.{Dump as DumpKind};
ghost use Rattle.script_spec.specs.Generated.{rings as rings_in, drawn_dump, drawn_turn, drawn_cut};
ghost use Rattle.ramoops_layout.specs.Laid.{zones_of};
ghost use Rattle.ram_generator.specs.Damage.{IsWithin};
ghost use Rattle.ram_generator.specs.Turns.{turn_of, TurnCanBeAsked, cut_of, AreTargets};

use crate::Draws;
use outside::Bytes;
use ramoops::Ask;
use ramoops_layout::types::Layout;
use std::alloc::{AllocError, Global};
use zone_spec::{Kind, Time, Zone, ZoneName};

/// The zones that calls are drawn for: the rings, and whether there are dump zones.
#[derive(Drop)]
pub struct Targets {
    rings: Vec<ZoneName>,
    dumps: bool,
}

/// An append of which only the first stores are made, so many of them.
#[derive(Drop)]
pub struct CutAppend {
    pub ring: ZoneName,
    pub bytes: Bytes,
    pub stores: u32,
}

fn is_of_dump(zone: &Zone) -> bool
    ensures { result ≡ is_of DumpKind zone.now.name.kind }
{
    match zone.name.kind {
        Kind::Dump => true,
        Kind::Console | Kind::Ftrace | Kind::Pmsg => false,
    }
}

fn rings(alloc: Global, zones: &[Zone]) -> Result<Vec<ZoneName>, AllocError>
    ensures { IfOk result (λ names. names.items ≡ rings_in zones.now) }
{
    let mut names = Vec::new(alloc);
    'zones: for zone in zones {
        if !is_of_dump(zone) {
            names.push(zone.name)?;
        }
    }
    Ok(names)
}

impl Targets {
    /// Tells that a layout's zones are few, and lie within 32 bits.
    pub fn check(layout: &Layout)
        ensures few { length (zones_of layout.now) < 2 ^ 31 }
        ensures within { All IsWithin (zones_of layout.now) }
    {
        let _mem = layout.mem();
        let _zones = layout.zones();
    }

    /// The rings in the order of the zones, and whether there are dump zones.
    pub fn new(alloc: Global, zones: &[Zone]) -> Result<Targets, AllocError>
        ensures targets { IfOk result (λ t. AreTargets zones.now t) }
        ensures few { IfOk result (λ t. length t.rings.items ≤ length zones.now) }
    {
        let dumps = zones.iter().filter(|zone| is_of_dump(zone)).count();
        Ok(Targets {
            rings: rings(alloc, zones)?,
            dumps: dumps != 0,
        })
    }

    /// A turn of round q: an append to a ring, or a dump where there are dump zones. A dump has q for its seconds.
    pub fn draw_turn(
        &self,
        alloc: Global,
        draws: &mut Draws,
        q: u64,
    ) -> Result<Option<Ask>, AllocError>
        requires few { length self.now.rings.items < 2 ^ 31 }
        requires round { q < 2 ^ 63 }
        ensures turn { IfOk result (λ turn. (layout : List Zone) → AreTargets layout self.now
            → (turn_of turn, draws.new) ≡ drawn_turn layout q draws.old) }
        ensures can { IfOk result TurnCanBeAsked }
    {
        let c = draws.draw(self.rings.len() as u32 + 1) as usize;
        let count = 1 + draws.draw(700);
        if c < self.rings.len() {
            let bytes = draws.draw_bytes(alloc, count)?;
            return Ok(Some(Ask::Append(self.rings[c], bytes)));
        }
        let dump = self.draw_dump(alloc, draws, q, count)?;
        Ok(dump)
    }

    // A dump of so many bytes; without dump zones the same is drawn.
    fn draw_dump(
        &self,
        alloc: Global,
        draws: &mut Draws,
        q: u64,
        count: u32,
    ) -> Result<Option<Ask>, AllocError>
        requires { q < 2 ^ 63 }
        ensures turn { IfOk result (λ turn. (layout : List Zone) → AreTargets layout self.now
            → (turn_of turn, draws.new) ≡ drawn_dump layout q count draws.old) }
        ensures can { IfOk result TurnCanBeAsked }
    {
        let micros = draws.draw(1_000_000);
        let body = draws.draw_bytes(alloc, count)?;
        if !self.dumps {
            return Ok(None);
        }
        Ok(Some(Ask::Dump(Time { secs: q, micros }, false, body)))
    }

    /// The append that is cut, where there are rings.
    pub fn draw_cut(
        &self,
        alloc: Global,
        draws: &mut Draws,
    ) -> Result<Option<CutAppend>, AllocError>
        requires { length self.now.rings.items < 2 ^ 31 }
        ensures { IfOk result (λ cut. (cut_of cut, draws.new) ≡ drawn_cut self.now.rings.items draws.old) }
    {
        if self.rings.is_empty() {
            return Ok(None);
        }
        let c = draws.draw(self.rings.len() as u32) as usize;
        let count = 1 + draws.draw(700);
        let bytes = draws.draw_bytes(alloc, count)?;
        Ok(Some(CutAppend {
            ring: self.rings[c],
            bytes,
            stores: 1 + draws.draw(900),
        }))
    }
}
