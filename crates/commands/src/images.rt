// The commands that read no image.
ghost use Rattle.std.specs.Prelude.{◌≡◌, ℕ, ◌≤◌, ◌<◌, ◌∷◌, [], List, Option, Err, replicate};
ghost use Rattle.outside.specs.Outside.{WritesFront};
ghost use Rattle.command_spec.specs.declared.Stop.TheVariants.{ImageFault};
ghost use Rattle.command_spec.specs.Texts.{layout_text};
ghost use Rattle.command_spec.specs.Ends.{status_of};
ghost use Rattle.command_spec.specs.Commands.{ShowLayout, Blank, shows, leaves};
ghost use Rattle.command_spec.specs.PlanAnswers.{ram_statuses, IsAmong};
ghost use Rattle.script_spec.specs.Playing.{KeptUnless};
ghost use Rattle.command_line.specs.Ended.{EndedAt, CausedAt, KeptAt, FailsAsked};
ghost use Rattle.ramoops_layout.specs.Laid.{params_of, zones_of};
ghost use Rattle.commands.specs.Due.{PutsNone};

use crate::layout_text::layout_text;
use command_line::Stop;
use image_file::fill;
use outside::{Failed, Sink, Store};
use ramoops_layout::types::Layout;
use std::alloc::{AllocError, Global};

/// Puts a layout.
#[tactic(auto, using(crate::proofs::PutTexts::put_all, crate::proofs::PutTexts::put_none, crate::proofs::PutTexts::put_front))]
pub fn show_layout<O: Sink>(alloc: Global, layout: &Layout, out: &mut O) -> Result<(), Stop>
    ensures later { O.faults out.old ≤ O.faults out.new }
    ensures out_count { KeptUnless Stop.SinkFault result (O.faults out.old) (O.faults out.new) }
    ensures caused { (f f' g g' : ℕ) → CausedAt f f' g g' (O.faults out.old) (O.faults out.new) result }
    ensures can { IsAmong (ram_statuses ShowLayout) (status_of result) }
    ensures ended { (holds : Option (List ℕ)) → EndedAt (shows
        (layout_text (params_of layout.now) (zones_of layout.now) ∷ [])) (O.given out.old) (O.given out.new)
        holds holds result }
    ensures put { PutsNone (O.given out.old) (O.given out.new) result }
{
    let text = match layout_text(alloc, layout) {
        Ok(text) => text,
        Err(AllocError) => return Err(Stop::Memory),
    };
    match out.put(&text) {
        Ok(()) => Ok(()),
        Err(Failed) => Err(Stop::SinkFault),
    }
}

/// Writes a blank image of so many bytes.
#[tactic(auto, using(crate::proofs::PutTexts::wrote_all, crate::proofs::PutTexts::wrote_front))]
pub fn blank<M: Store>(image: &mut M, mem: u32) -> Result<(), Stop>
    ensures later { M.faults image.old ≤ M.faults image.new }
    ensures caused { (f f' h h' : ℕ) → CausedAt f f' (M.faults image.old) (M.faults image.new) h h' result }
    ensures kept { KeptAt (M.holds image.old) (M.holds image.new) result }
    ensures asks { KeptAt (M.writes image.old) (M.writes image.new) result }
    ensures asked { FailsAsked (M.writes image.old) (M.writes image.new) result }
    ensures image_count { KeptUnless Stop.ImageFault result (M.faults image.old) (M.faults image.new) }
    ensures unread { M.read_faults image.new ≡ M.read_faults image.old }
    ensures can { IsAmong (ram_statuses Blank) (status_of result) }
    ensures ended { (given : Option (List ℕ)) → EndedAt (leaves (replicate mem 0)) given given (M.holds image.old)
        (M.holds image.new) result }
    ensures written { result ≡ Err ImageFault
        → WritesFront (M.holds image.old) (M.holds image.new) 0 (replicate mem 0) }
{
    match fill(image, mem) {
        Ok(()) => Ok(()),
        Err(Failed) => Err(Stop::ImageFault),
    }
}
