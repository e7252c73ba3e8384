// The run of a command.
ghost use Rattle.std.specs.Prelude.{◌≡◌, ◌≤◌, Ok};
ghost use Rattle.outside.specs.Outside.{Rose};
ghost use Rattle.blk_spec.specs.Answers.{device};
ghost use Rattle.command_spec.specs.Commands.{OfRam, plan_of};
ghost use Rattle.command_spec.specs.Answers.{outside};
ghost use Rattle.command_line.specs.Words.{plan_for, ram_command_seen, texts};
ghost use Rattle.command_line.specs.Ended.{WorkDone};
ghost use Rattle.commands.specs.Runs.{Runs};
ghost use Rattle.commands.specs.Due.{PutsBefore, PutsByPlan};
ghost use Rattle.commands.specs.Asked.{PlanFails};
ghost use Rattle.commands.specs.Unread.{UnwrittenOrRead, PlanUnread};
ghost use Rattle.commands.specs.Taking.{PlanTakes};

use crate::blk_script::run_blk_script;
use crate::images::{blank, show_layout};
use crate::making::make;
use crate::moving::move_image;
use crate::records::{erase, extract, list};
use crate::salvaging::{rescue, salvage};
use crate::scripts::{Session, run_script};
use command_line::{Plan, RamCommand, Stop, finish, read_plan};
use crash_laws::later_boot_lists_crash;
use outside::{Sink, Source, Store};
use ramoops_layout::types::Layout;
use std::alloc::Global;

// Does a command on an image of this layout, but for the last line.
fn do_command<S: Source, M: Store, O: Sink>(
    alloc: Global,
    command: RamCommand<'_>,
    layout: Layout,
    script: &mut S,
    image: &mut M,
    out: &mut O,
) -> Result<(), Stop>
    ensures work { let before = outside (S.left script.old) (S.faults script.old) (M.holds image.old)
        (M.faults image.old) (M.writes image.old) (O.given out.old) (O.faults out.old) in
        let after = outside (S.left script.new) (S.faults script.new) (M.holds image.new)
        (M.faults image.new) (M.writes image.new) (O.given out.new) (O.faults out.new) in
        WorkDone (Ok (OfRam (plan_for (ram_command_seen command.entry) layout))) before after result }
    ensures asked { let before = outside (S.left script.old) (S.faults script.old) (M.holds image.old)
        (M.faults image.old) (M.writes image.old) (O.given out.old) (O.faults out.old) in
        let after = outside (S.left script.new) (S.faults script.new) (M.holds image.new)
        (M.faults image.new) (M.writes image.new) (O.given out.new) (O.faults out.new) in
        PlanFails (Ok (OfRam (plan_for (ram_command_seen command.entry) layout))) before after result }
    ensures unread { let before = device (M.holds image.old) (M.writes image.old) (M.read_faults image.old) in
        let now = device (M.holds image.new) (M.writes image.new) (M.read_faults image.new) in
        UnwrittenOrRead before now }
    ensures put { PutsBefore (ram_command_seen command.entry) (O.given out.old) (O.given out.new) result }
    ensures takes { let before = outside (S.left script.old) (S.faults script.old) (M.holds image.old)
        (M.faults image.old) (M.writes image.old) (O.given out.old) (O.faults out.old) in
        let after = outside (S.left script.new) (S.faults script.new) (M.holds image.new)
        (M.faults image.new) (M.writes image.new) (O.given out.new) (O.faults out.new) in
        PlanTakes (Ok (OfRam (plan_for (ram_command_seen command.entry) layout))) before after result }
{
    match command {
        RamCommand::Run => run_script(alloc, Session::Ram(layout), script, image, out),
        RamCommand::ListRecords => list(alloc, layout, image, out),
        RamCommand::Extract(name) => extract(alloc, layout, name, image, out),
        RamCommand::Erase(name) => erase(alloc, layout, name, image),
        RamCommand::ShowLayout => show_layout(alloc, &layout, out),
        RamCommand::Blank => blank(image, layout.mem()),
        RamCommand::Make(n) => make(alloc, layout, n, image, out),
        RamCommand::Salvage => salvage(alloc, layout, image, out),
        RamCommand::Rescue(at, name) => rescue(alloc, layout, at, name, image, out),
    }
}

// Does what the words ask for, but for the last line.
fn do_work<S: Source, M: Store, O: Sink>(
    alloc: Global,
    words: &[String],
    script: &mut S,
    image: &mut M,
    out: &mut O,
) -> Result<(), Stop>
    ensures work { let before = outside (S.left script.old) (S.faults script.old) (M.holds image.old)
        (M.faults image.old) (M.writes image.old) (O.given out.old) (O.faults out.old) in
        let after = outside (S.left script.new) (S.faults script.new) (M.holds image.new)
        (M.faults image.new) (M.writes image.new) (O.given out.new) (O.faults out.new) in
        WorkDone (plan_of (texts words.now)) before after result }
    ensures asked { let before = outside (S.left script.old) (S.faults script.old) (M.holds image.old)
        (M.faults image.old) (M.writes image.old) (O.given out.old) (O.faults out.old) in
        let after = outside (S.left script.new) (S.faults script.new) (M.holds image.new)
        (M.faults image.new) (M.writes image.new) (O.given out.new) (O.faults out.new) in
        PlanFails (plan_of (texts words.now)) before after result }
    ensures unread { let before = device (M.holds image.old) (M.writes image.old) (M.read_faults image.old) in
        let now = device (M.holds image.new) (M.writes image.new) (M.read_faults image.new) in
        PlanUnread (plan_of (texts words.now)) (S.left script.old) before now }
    ensures put { PutsByPlan (plan_of (texts words.now)) (O.given out.old) (O.given out.new) result }
    ensures takes { let before = outside (S.left script.old) (S.faults script.old) (M.holds image.old)
        (M.faults image.old) (M.writes image.old) (O.given out.old) (O.faults out.old) in
        let after = outside (S.left script.new) (S.faults script.new) (M.holds image.new)
        (M.faults image.new) (M.writes image.new) (O.given out.new) (O.faults out.new) in
        PlanTakes (plan_of (texts words.now)) before after result }
{
    match read_plan(alloc, words) {
        Ok(Plan::Ram(command, layout)) => do_command(alloc, command, layout, script, image, out),
        Ok(Plan::Blk(layout)) => run_blk_script(alloc, layout, script, image, out),
        Ok(Plan::Move(from, to)) => move_image(alloc, from, to, image, out),
        Ok(Plan::Share(booted, layout)) => {
            run_script(alloc, Session::Shared(booted, layout), script, image, out)
        }
        Err(stop) => Err(stop),
    }
}

/// Does what the arguments ask for, and answers the exit status: 0 if all was done, 1 if out of memory, 2 for arguments
/// outside the grammar, 3 for a fault of a parameter or of the layout, 4 for an image that is too short, 5, 6 and 7 for
/// a fault of the script, the image or the output, 8 for a script that is too long, 9 for a bad line, 10 for a refused
/// line.
///
/// `words` are the arguments after the program's own name. The parameters say how many bytes of the image are used,
/// from its first on. They are written back after the script's last line; under `blk-run` as the lines are done.
pub fn run<S: Source, M: Store, O: Sink>(
    alloc: Global,
    words: &[String],
    script: &mut S,
    image: &mut M,
    out: &mut O,
) -> u8
    ensures statuses { result ≤ 10 }
    ensures script_fault { result ≡ 5 → Rose (S.faults script.old) (S.faults script.new) }
    ensures image_fault { result ≡ 6 → Rose (M.faults image.old) (M.faults image.new) }
    ensures sink_fault { result ≡ 7 → Rose (O.faults out.old) (O.faults out.new) }
    ensures runs { let before = outside (S.left script.old) (S.faults script.old) (M.holds image.old)
        (M.faults image.old) (M.writes image.old) (O.given out.old) (O.faults out.old) in
        let after = outside (S.left script.new) (S.faults script.new) (M.holds image.new)
        (M.faults image.new) (M.writes image.new) (O.given out.new) (O.faults out.new) in
        Runs (texts words.now) before after result }
    ensures unread { let before = device (M.holds image.old) (M.writes image.old) (M.read_faults image.old) in
        let now = device (M.holds image.new) (M.writes image.new) (M.read_faults image.new) in
        PlanUnread (plan_of (texts words.now)) (S.left script.old) before now }
{
    later_boot_lists_crash(); // a law, for the proof of what boots list of crashes
    let end = do_work(alloc, words, script, image, out);
    finish(end, out)
}
