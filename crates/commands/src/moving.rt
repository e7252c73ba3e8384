// The move of an image to other parameters.
ghost use Rattle.std.specs.Prelude.{◌≡◌, ◌≤◌, ℕ, List, Option, IfOk};
ghost use Rattle.blk_spec.specs.Answers.{device};
ghost use Rattle.ramoops_layout.specs.Laid.{params_of, zones_of};
ghost use Rattle.machine_spec.specs.Moved.{fitting, moved as moved_state};
ghost use Rattle.prz_read.specs.Saving.{saved};
ghost use Rattle.command_spec.specs.Commands.{OfMove, wanted_move};
ghost use Rattle.command_spec.specs.PlanAnswers.{statuses};
ghost use Rattle.command_spec.specs.Answers.{outside};
ghost use Rattle.command_line.specs.Words.{move_for};
ghost use Rattle.script_spec.specs.Playing.{KeptUnless};
ghost use Rattle.command_line.specs.Ended.{CausedAt, KeptAt, ImageEnds};
ghost use Rattle.commands.specs.Due.{PutsFirst};
ghost use Rattle.commands.specs.Asked.{FailsAt};
ghost use Rattle.commands.specs.Unread.{UnwrittenOrRead};

use crate::records::read_logs;
use command_line::Stop;
use image_file::save;
use outside::{Failed, Sink, Store};
use prz_read::Logs;
use pstore_records::forget_unfit;
use ram_session::move_text;
use ramoops::Off;
use ramoops_layout::types::Layout;
use std::alloc::{AllocError, Global};

// The image of this layout with the logs of the records that fit.
fn moved(alloc: Global, layout: Layout, mut logs: Logs) -> Result<Off, AllocError>
    ensures { IfOk result (λ off. off.image ≡ (moved_state (zones_of layout) (params_of layout).mem
        (fitting (zones_of layout) (saved logs))).image) }
{
    forget_unfit(alloc, &mut logs, &layout)?;
    Off::rebuilt(alloc, layout, &logs)
}

/// Prints what becomes of each record of an image of the first layout, and writes the image of the second one.
pub fn move_image<M: Store, O: Sink>(
    alloc: Global,
    from: Layout,
    to: Layout,
    image: &mut M,
    out: &mut O,
) -> Result<(), Stop>
    ensures later { (M.faults image.old ≤ M.faults image.new) × (O.faults out.old ≤ O.faults out.new) }
    ensures caused { (f f' : ℕ) → CausedAt f f' (M.faults image.old) (M.faults image.new) (O.faults out.old)
        (O.faults out.new) result }
    ensures kept { KeptAt (M.holds image.old) (M.holds image.new) result }
    ensures asks { KeptAt (M.writes image.old) (M.writes image.new) result }
    ensures image_count { KeptUnless Stop.ImageFault result (M.faults image.old) (M.faults image.new) }
    ensures out_count { KeptUnless Stop.SinkFault result (O.faults out.old) (O.faults out.new) }
    ensures ended { (left : Option (List ℕ)) (f : ℕ) → let plan = move_for from to in
        ImageEnds (statuses (OfMove plan)) (wanted_move plan)
        (outside left f (M.holds image.old) (M.faults image.old) (M.writes image.old)
        (O.given out.old) (O.faults out.old))
        (outside left f (M.holds image.new) (M.faults image.new) (M.writes image.new)
        (O.given out.new) (O.faults out.new)) result }
    ensures asked { (left : Option (List ℕ)) (f : ℕ) → FailsAt
        (outside left f (M.holds image.old) (M.faults image.old) (M.writes image.old)
        (O.given out.old) (O.faults out.old))
        (outside left f (M.holds image.new) (M.faults image.new) (M.writes image.new)
        (O.given out.new) (O.faults out.new)) result }
    ensures unread { let before = device (M.holds image.old) (M.writes image.old) (M.read_faults image.old) in
        let now = device (M.holds image.new) (M.writes image.new) (M.read_faults image.new) in
        UnwrittenOrRead before now }
    ensures put { PutsFirst (O.given out.old) (O.given out.new) result }
{
    let size = from.mem();
    let logs = match read_logs(alloc, from, image) {
        Ok(logs) => logs,
        Err(stop) => return Err(stop),
    };
    let text = match move_text(alloc, size, to.mem(), &to, &logs) {
        Ok(text) => text,
        Err(AllocError) => return Err(Stop::Memory),
    };
    let off = match moved(alloc, to, logs) {
        Ok(off) => off,
        Err(AllocError) => return Err(Stop::Memory),
    };
    match out.put(&text) {
        Ok(()) => {}
        Err(Failed) => return Err(Stop::SinkFault),
    }
    match save(image, off.image()) {
        Ok(()) => Ok(()),
        Err(Failed) => Err(Stop::ImageFault),
    }
}
