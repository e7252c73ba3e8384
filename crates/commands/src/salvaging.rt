// The rings of a memory dump: all of them listed, and one read.
ghost use Rattle.std.specs.Prelude.{◌≡◌, ◌≤◌, ◌++◌, ℕ, List, Option, OnOk, IfOk, IfErr};
ghost use Rattle.ramoops_layout.specs.Laid.{zones_of};
ghost use Rattle.command_spec.specs.Texts.{ring_line, rings_text};
ghost use Rattle.command_spec.specs.Commands.{Salvage, Rescue};
ghost use Rattle.command_spec.specs.Answers.{outside};
ghost use Rattle.command_line.specs.Ended.{CausedAt, RamReadEnds};
ghost use Rattle.script_spec.specs.Playing.{KeptUnless};
ghost use Rattle.image_file.specs.Loading.{FrontStop};
ghost use Rattle.commands.specs.Plans.{plan_for};
ghost use Rattle.commands.specs.Due.{PutsNone};
ghost use Rattle.commands.specs.Dumps.{ScansFrom, ring_stop as stop_for};

use command_line::{Cause, Stop};
use image_file::load_front;
use outside::{Bytes, Failed, Load, Sink};
use ramoops_layout::types::Layout;
use salvage::{FoundRing, RingFault, Scan};
use script::pieces::{push_number, push_zone};
use std::alloc::{AllocError, Global};
use zone_spec::ZoneName;

// The bytes that a dump has at most.
const DUMP_LIMIT: u32 = 16_777_216;

fn push_ring(text: &mut Vec<u8>, ring: &FoundRing) -> Result<(), AllocError>
    ensures { OnOk result (text.new.items ≡ text.old.items ++ ring_line ring.now) }
{
    push_number(text, "ring at ", u64::from(ring.at))?;
    text.extend_from_slice(b" shape ")?;
    push_zone(text, ring.zone)?;
    push_number(text, " start ", u64::from(ring.words.start))?;
    push_number(text, " size ", u64::from(ring.words.size))?;
    push_number(text, " corrected ", u64::from(ring.corrected))?;
    text.push(b'\n')?;
    Ok(())
}

// The text of these rings: how many they are, and a line for each.
fn rings_text(alloc: Global, rings: &[FoundRing]) -> Result<Vec<u8>, AllocError>
    ensures { IfOk result (λ text. text.items ≡ rings_text rings.now) }
{
    let mut text = Vec::new(alloc);
    push_number(&mut text, "salvage rings ", rings.len() as u64)?;
    text.push(b'\n')?;
    for ring in rings {
        push_ring(&mut text, ring)?;
    }
    Ok(text)
}

// The rings that are left of a scan.
fn all_rings(alloc: Global, mut scan: Scan) -> Result<Vec<FoundRing>, AllocError>
    ensures { IfOk result (λ rings. rings.items ≡ scan.rest) }
{
    let mut rings = Vec::new(alloc);
    'rings: while let Some(ring) = scan.next() {
        rings.push(ring)?;
    }
    Ok(rings)
}

// Reads a dump, the first bytes of a store.
fn read_dump<M: Load>(alloc: Global, layout: Layout, image: &mut M) -> Result<Scan, Stop>
    ensures read { IfOk result (λ scan. ScansFrom (zones_of layout) (M.holds image.old) scan) }
    ensures stopped { IfErr result (λ s. FrontStop s (M.faults image.old) (M.faults image.new)) }
    ensures same { M.holds image.new ≡ M.holds image.old }
    ensures unwritten { M.writes image.new ≡ M.writes image.old }
    ensures image_count { KeptUnless Stop.ImageFault result (M.faults image.old) (M.faults image.new) }
    ensures later { M.faults image.old ≤ M.faults image.new }
{
    let dump = match load_front(alloc, image, DUMP_LIMIT) {
        Ok(dump) => dump,
        Err(stop) => return Err(stop),
    };
    match Scan::new(alloc, Bytes::from_vec(dump), layout) {
        Ok(scan) => Ok(scan),
        Err(AllocError) => Err(Stop::Memory),
    }
}

// A place that is not read, as the end of a command: its refusal is that of a first line.
fn ring_stop(fault: RingFault) -> Stop
    ensures { result ≡ stop_for fault }
{
    match fault {
        RingFault::NoZone => Stop::Refused {
            line: 1,
            cause: Cause::NoZone,
        },
        RingFault::NoRing => Stop::Refused {
            line: 1,
            cause: Cause::NoRing,
        },
        RingFault::Memory => Stop::Memory,
    }
}

/// Prints the rings of a dump.
pub fn salvage<M: Load, O: Sink>(
    alloc: Global,
    layout: Layout,
    image: &mut M,
    out: &mut O,
) -> Result<(), Stop>
    ensures later { (M.faults image.old ≤ M.faults image.new) × (O.faults out.old ≤ O.faults out.new) }
    ensures caused { (f f' : ℕ) → CausedAt f f' (M.faults image.old) (M.faults image.new) (O.faults out.old)
        (O.faults out.new) result }
    ensures same { M.holds image.new ≡ M.holds image.old }
    ensures unwritten { M.writes image.new ≡ M.writes image.old }
    ensures image_count { KeptUnless Stop.ImageFault result (M.faults image.old) (M.faults image.new) }
    ensures out_count { KeptUnless Stop.SinkFault result (O.faults out.old) (O.faults out.new) }
    ensures ended { (left : Option (List ℕ)) (f : ℕ) → RamReadEnds (plan_for Salvage layout)
        (outside left f (M.holds image.old) (M.faults image.old) (M.writes image.old)
        (O.given out.old) (O.faults out.old))
        (outside left f (M.holds image.new) (M.faults image.new) (M.writes image.new)
        (O.given out.new) (O.faults out.new)) result }
    ensures put { PutsNone (O.given out.old) (O.given out.new) result }
{
    let scan = match read_dump(alloc, layout, image) {
        Ok(scan) => scan,
        Err(stop) => return Err(stop),
    };
    let rings = match all_rings(alloc, scan) {
        Ok(rings) => rings,
        Err(AllocError) => return Err(Stop::Memory),
    };
    let text = match rings_text(alloc, &rings) {
        Ok(text) => text,
        Err(AllocError) => return Err(Stop::Memory),
    };
    match out.put(&text) {
        Ok(()) => Ok(()),
        Err(Failed) => Err(Stop::SinkFault),
    }
}

/// Prints the log of the ring at this place of a dump, read as this zone.
pub fn rescue<M: Load, O: Sink>(
    alloc: Global,
    layout: Layout,
    at: u32,
    name: ZoneName,
    image: &mut M,
    out: &mut O,
) -> Result<(), Stop>
    ensures later { (M.faults image.old ≤ M.faults image.new) × (O.faults out.old ≤ O.faults out.new) }
    ensures caused { (f f' : ℕ) → CausedAt f f' (M.faults image.old) (M.faults image.new) (O.faults out.old)
        (O.faults out.new) result }
    ensures same { M.holds image.new ≡ M.holds image.old }
    ensures unwritten { M.writes image.new ≡ M.writes image.old }
    ensures image_count { KeptUnless Stop.ImageFault result (M.faults image.old) (M.faults image.new) }
    ensures out_count { KeptUnless Stop.SinkFault result (O.faults out.old) (O.faults out.new) }
    ensures ended { (left : Option (List ℕ)) (f : ℕ) → RamReadEnds (plan_for (Rescue at name) layout)
        (outside left f (M.holds image.old) (M.faults image.old) (M.writes image.old)
        (O.given out.old) (O.faults out.old))
        (outside left f (M.holds image.new) (M.faults image.new) (M.writes image.new)
        (O.given out.new) (O.faults out.new)) result }
    ensures put { PutsNone (O.given out.old) (O.given out.new) result }
{
    let scan = match read_dump(alloc, layout, image) {
        Ok(scan) => scan,
        Err(stop) => return Err(stop),
    };
    let reading = match scan.ring_at(alloc, at, name) {
        Ok(reading) => reading,
        Err(fault) => return Err(ring_stop(fault)),
    };
    match out.put(reading.log.as_slice()) {
        Ok(()) => Ok(()),
        Err(Failed) => Err(Stop::SinkFault),
    }
}
