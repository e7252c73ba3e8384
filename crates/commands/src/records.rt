// The records of an image: all of them listed, and one extracted or erased.
ghost use Rattle.std.specs.Prelude.{◌≡◌, ◌≤◌, ℕ, List, Option, OnOk, IfOk, IfErr};
ghost use Rattle.blk_spec.specs.Answers.{device};
ghost use Rattle.ramoops_layout.specs.Laid.{params_of, zones_of};
ghost use Rattle.command_spec.specs.Commands.{ListRecords, Extract, Erase};
ghost use Rattle.command_spec.specs.Answers.{outside};
ghost use Rattle.command_line.specs.Ended.{CausedAt, KeptAt, RamReadEnds, RamImageEnds};
ghost use Rattle.commands.specs.Plans.{plan_for};
ghost use Rattle.commands.specs.Due.{PutsNone};
ghost use Rattle.script_spec.specs.Playing.{KeptUnless};
ghost use Rattle.image_file.specs.Loading.{LoadStop};
ghost use Rattle.commands.specs.Records.{SavedFrom, stop_for};
ghost use Rattle.commands.specs.Unread.{UnwrittenOrRead};

use crate::stores::{boot_store, fresh_store};
use command_line::Stop;
use image_file::{load, save};
use outside::{Failed, Load, Sink, Store};
use prz_read::Logs;
use ram_session::{LineError, content_of, listing};
use ramoops_layout::types::Layout;
use std::alloc::{AllocError, Global};

// The line that a command's refusal names: the one after the boot.
const LINE: u32 = 2;

// A record's refusal as the end of a command.
fn stop_of(e: LineError) -> Stop
    ensures { result ≡ stop_for e }
{
    match e {
        LineError::Memory => Stop::Memory,
        LineError::Refused(cause) => Stop::Refused { line: LINE, cause },
    }
}

/// Reads an image, and gives the logs that a boot of it would save.
pub fn read_logs<M: Load>(alloc: Global, layout: Layout, image: &mut M) -> Result<Logs, Stop>
    ensures read { IfOk result (λ logs. SavedFrom (zones_of layout) (params_of layout).mem
        (M.holds image.old) logs) }
    ensures stopped { IfErr result (λ s. LoadStop s (params_of layout).mem (M.holds image.old)
        (M.faults image.old) (M.faults image.new)) }
    ensures same { M.holds image.new ≡ M.holds image.old }
    ensures unwritten { M.writes image.new ≡ M.writes image.old }
    ensures image_count { KeptUnless Stop.ImageFault result (M.faults image.old) (M.faults image.new) }
    ensures read_count { OnOk result (M.read_faults image.new ≡ M.read_faults image.old) }
    ensures later { M.faults image.old ≤ M.faults image.new }
{
    let bytes = match load(alloc, image, layout.mem()) {
        Ok(bytes) => bytes,
        Err(stop) => return Err(stop),
    };
    let off = match fresh_store(alloc, layout, bytes) {
        Ok(off) => off,
        Err(AllocError) => return Err(Stop::Memory),
    };
    match off.logs() {
        Ok((_, logs)) => Ok(logs),
        Err(_) => Err(Stop::Memory),
    }
}

/// Prints the records of an image.
pub fn list<M: Load, O: Sink>(
    alloc: Global,
    layout: Layout,
    image: &mut M,
    out: &mut O,
) -> Result<(), Stop>
    ensures later { (M.faults image.old ≤ M.faults image.new) × (O.faults out.old ≤ O.faults out.new) }
    ensures caused { (f f' : ℕ) → CausedAt f f' (M.faults image.old) (M.faults image.new) (O.faults out.old)
        (O.faults out.new) result }
    ensures same { M.holds image.new ≡ M.holds image.old }
    ensures unwritten { M.writes image.new ≡ M.writes image.old }
    ensures image_count { KeptUnless Stop.ImageFault result (M.faults image.old) (M.faults image.new) }
    ensures out_count { KeptUnless Stop.SinkFault result (O.faults out.old) (O.faults out.new) }
    ensures ended { (left : Option (List ℕ)) (f : ℕ) → RamReadEnds (plan_for ListRecords layout)
        (outside left f (M.holds image.old) (M.faults image.old) (M.writes image.old)
        (O.given out.old) (O.faults out.old))
        (outside left f (M.holds image.new) (M.faults image.new) (M.writes image.new)
        (O.given out.new) (O.faults out.new)) result }
    ensures put { PutsNone (O.given out.old) (O.given out.new) result }
{
    let logs = match read_logs(alloc, layout, image) {
        Ok(logs) => logs,
        Err(stop) => return Err(stop),
    };
    let text = match listing(alloc, &logs) {
        Ok(text) => text,
        Err(AllocError) => return Err(Stop::Memory),
    };
    match out.put(&text) {
        Ok(()) => Ok(()),
        Err(Failed) => Err(Stop::SinkFault),
    }
}

/// Prints the content of the record of this name.
pub fn extract<M: Load, O: Sink>(
    alloc: Global,
    layout: Layout,
    name: &str,
    image: &mut M,
    out: &mut O,
) -> Result<(), Stop>
    ensures later { (M.faults image.old ≤ M.faults image.new) × (O.faults out.old ≤ O.faults out.new) }
    ensures caused { (f f' : ℕ) → CausedAt f f' (M.faults image.old) (M.faults image.new) (O.faults out.old)
        (O.faults out.new) result }
    ensures same { M.holds image.new ≡ M.holds image.old }
    ensures unwritten { M.writes image.new ≡ M.writes image.old }
    ensures image_count { KeptUnless Stop.ImageFault result (M.faults image.old) (M.faults image.new) }
    ensures out_count { KeptUnless Stop.SinkFault result (O.faults out.old) (O.faults out.new) }
    ensures ended { (left : Option (List ℕ)) (f : ℕ) → RamReadEnds (plan_for (Extract name.now) layout)
        (outside left f (M.holds image.old) (M.faults image.old) (M.writes image.old)
        (O.given out.old) (O.faults out.old))
        (outside left f (M.holds image.new) (M.faults image.new) (M.writes image.new)
        (O.given out.new) (O.faults out.new)) result }
    ensures put { PutsNone (O.given out.old) (O.given out.new) result }
{
    let logs = match read_logs(alloc, layout, image) {
        Ok(logs) => logs,
        Err(stop) => return Err(stop),
    };
    let content = match content_of(alloc, &logs, name.as_bytes()) {
        Ok(content) => content,
        Err(e) => return Err(stop_of(e)),
    };
    match out.put(content.as_slice()) {
        Ok(()) => Ok(()),
        Err(Failed) => Err(Stop::SinkFault),
    }
}

/// Erases the record of this name, and writes the image back.
pub fn erase<M: Store>(alloc: Global, layout: Layout, name: &str, image: &mut M) -> Result<(), Stop>
    ensures later { M.faults image.old ≤ M.faults image.new }
    ensures caused { (f f' h h' : ℕ) → CausedAt f f' (M.faults image.old) (M.faults image.new) h h' result }
    ensures kept { KeptAt (M.holds image.old) (M.holds image.new) result }
    ensures asks { KeptAt (M.writes image.old) (M.writes image.new) result }
    ensures image_count { KeptUnless Stop.ImageFault result (M.faults image.old) (M.faults image.new) }
    ensures unread { let before = device (M.holds image.old) (M.writes image.old) (M.read_faults image.old) in
        let now = device (M.holds image.new) (M.writes image.new) (M.read_faults image.new) in
        UnwrittenOrRead before now }
    ensures ended { (left given : Option (List ℕ)) (f h : ℕ)
        → RamImageEnds (plan_for (Erase name.now) layout)
        (outside left f (M.holds image.old) (M.faults image.old) (M.writes image.old) given h)
        (outside left f (M.holds image.new) (M.faults image.new) (M.writes image.new) given h) result }
{
    let (mut live, mut logs) = match boot_store(alloc, layout, image) {
        Ok(booted) => booted,
        Err(stop) => return Err(stop),
    };
    match ram_session::erase(&mut live, &mut logs, name.as_bytes()) {
        Ok(()) => {}
        Err(e) => return Err(stop_of(e)),
    }
    match save(image, live.into_image().as_slice()) {
        Ok(()) => Ok(()),
        Err(Failed) => Err(Stop::ImageFault),
    }
}
