// A script on the block store.
ghost use Rattle.std.specs.Prelude.{Ok};
ghost use Rattle.blk_spec.specs.Layout.{IsLayout};
ghost use Rattle.blk_spec.specs.Answers.{device};
ghost use Rattle.command_spec.specs.Commands.{OfBlk};
ghost use Rattle.command_spec.specs.Answers.{outside};
ghost use Rattle.command_line.specs.Ended.{WorkDone};
ghost use Rattle.commands.specs.Due.{PutsLines};
ghost use Rattle.commands.specs.Unread.{PlanUnread};

use blk_session::play;
use command_line::{Stop, end_of, read_lines};
use image_file::check_size;
use outside::{Sink, Source, Store};
use std::alloc::Global;
use zone_blk::BlkLayout;

/// Does a script on the block store, which is written as the lines are done.
pub fn run_blk_script<S: Source, M: Store, O: Sink>(
    alloc: Global,
    layout: BlkLayout,
    script: &mut S,
    image: &mut M,
    out: &mut O,
) -> Result<(), Stop>
    requires { IsLayout layout }
    ensures work { let before = outside (S.left script.old) (S.faults script.old) (M.holds image.old)
        (M.faults image.old) (M.writes image.old) (O.given out.old) (O.faults out.old) in
        let after = outside (S.left script.new) (S.faults script.new) (M.holds image.new)
        (M.faults image.new) (M.writes image.new) (O.given out.new) (O.faults out.new) in
        WorkDone (Ok (OfBlk layout)) before after result }
    ensures unread { let before = device (M.holds image.old) (M.writes image.old) (M.read_faults image.old) in
        let now = device (M.holds image.new) (M.writes image.new) (M.read_faults image.new) in
        PlanUnread (Ok (OfBlk layout)) (S.left script.old) before now }
    ensures put { PutsLines (O.given out.old) (O.given out.new) result }
{
    match check_size(image, layout.total) {
        Ok(()) => {}
        Err(stop) => return Err(stop),
    }
    let lines = match read_lines(alloc, script) {
        Ok(lines) => lines,
        Err(stop) => return Err(stop),
    };
    end_of(play(alloc, layout, image, lines.as_slice(), out))
}
