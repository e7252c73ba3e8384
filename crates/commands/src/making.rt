// The image of a generated session.
ghost use Rattle.std.specs.Prelude.{◌≡◌, ◌≤◌, ℕ, List, Option};
ghost use Rattle.command_spec.specs.Commands.{Make};
ghost use Rattle.command_spec.specs.Answers.{outside};
ghost use Rattle.script_spec.specs.Playing.{KeptUnless};
ghost use Rattle.command_line.specs.Ended.{CausedAt, KeptAt, FailsAsked, MakeEnds};
ghost use Rattle.commands.specs.Plans.{plan_for};
ghost use Rattle.commands.specs.Due.{PutsFirst};

use command_line::Stop;
use image_file::save;
use outside::{Failed, Sink, Store};
use ram_generator::generate;
use ramoops_layout::types::Layout;
use std::alloc::{AllocError, Global};

/// Puts the summary of the session of n, and writes the image that it leaves.
pub fn make<M: Store, O: Sink>(
    alloc: Global,
    layout: Layout,
    n: u32,
    image: &mut M,
    out: &mut O,
) -> Result<(), Stop>
    ensures later { (M.faults image.old ≤ M.faults image.new) × (O.faults out.old ≤ O.faults out.new) }
    ensures caused { (f f' : ℕ) → CausedAt f f' (M.faults image.old) (M.faults image.new) (O.faults out.old)
        (O.faults out.new) result }
    ensures kept { KeptAt (M.holds image.old) (M.holds image.new) result }
    ensures asks { KeptAt (M.writes image.old) (M.writes image.new) result }
    ensures asked { FailsAsked (M.writes image.old) (M.writes image.new) result }
    ensures image_count { KeptUnless Stop.ImageFault result (M.faults image.old) (M.faults image.new) }
    ensures unread { M.read_faults image.new ≡ M.read_faults image.old }
    ensures out_count { KeptUnless Stop.SinkFault result (O.faults out.old) (O.faults out.new) }
    ensures ended { (left : Option (List ℕ)) (f : ℕ) → MakeEnds (plan_for (Make n) layout)
        (outside left f (M.holds image.old) (M.faults image.old) (M.writes image.old)
        (O.given out.old) (O.faults out.old))
        (outside left f (M.holds image.new) (M.faults image.new) (M.writes image.new)
        (O.given out.new) (O.faults out.new)) result }
    ensures put { PutsFirst (O.given out.old) (O.given out.new) result }
{
    let (made, text) = match generate(alloc, layout, n) {
        Ok(made) => made,
        Err(AllocError) => return Err(Stop::Memory),
    };
    match out.put(&text) {
        Ok(()) => {}
        Err(Failed) => return Err(Stop::SinkFault),
    }
    match save(image, made.as_slice()) {
        Ok(()) => Ok(()),
        Err(Failed) => Err(Stop::ImageFault),
    }
}
