// A script on an image: one frame, whatever its lines are done on.
ghost use Rattle.std.specs.Prelude.{◌≡◌, ◌≤◌, ◌<◌, ◌^◌, length, vec_len, Ok, MatchResult};
ghost use Rattle.std.specs.Result.{IfErr};
ghost use Rattle.outside.specs.Outside.{HasCause, AppendsFront};
ghost use Rattle.std.specs.Io.KnownBytes.{Appends};
ghost use Rattle.blk_spec.specs.Answers.{device};
ghost use Rattle.ramoops_layout.specs.Laid.{params_of, zones_of};
ghost use Rattle.grammar_spec.specs.Printed.{AllHaveFields};
ghost use Rattle.command_spec.specs.Commands.{wanted_script, mem_of};
ghost use Rattle.command_spec.specs.Answers.{outside};
ghost use Rattle.script_spec.specs.Playing.{KeptUnless};
ghost use Rattle.commands.specs.Scripts.{session_plan, session_wants, CanRun, LinesLeave, IsSilent, ScriptDone};
ghost use Rattle.commands.specs.Taking.{SessionTakes};

use crate::sharing::share;
use crate::stores::fresh_store;
use command_line::{Stop, read_lines, stop_of};
use image_file::{load, save};
use outside::{Bytes, Failed, Sink, Source, Store};
use ram_session::play;
use ramoops_layout::types::Layout;
use script::Lines;
use std::alloc::{AllocError, Global};

/// What the lines of a script are done on.
#[derive(Drop)]
pub enum Session {
    /// The machine of an image of this layout.
    Ram(Layout),
    /// The zone ftrace-0 of an image that was booted and stopped: the layout of the boot, and the same for the zone.
    Shared(Layout, Layout),
}

impl Session {
    // The bytes of the image.
    fn mem(&self) -> u32
        ensures { result ≡ mem_of (session_plan self.now) }
    {
        match self {
            Session::Ram(layout) => layout.mem(),
            Session::Shared(booted, _) => booted.mem(),
        }
    }
}

// Does the lines on the machine of an image, and prints their texts. No text is left, and the image.
fn play_lines<O: Sink>(
    alloc: Global,
    layout: Layout,
    image: Vec<u8>,
    lines: Lines,
    out: &mut O,
) -> Result<(Vec<u8>, Bytes), Stop>
    requires size { vec_len image ≡ (params_of layout).mem }
    requires fields { AllHaveFields lines }
    requires few { length lines < 2 ^ 32 }
    ensures left { LinesLeave (wanted_script (zones_of layout) image.items (Ok lines)) (O.given out.old)
        (O.given out.new) (O.faults out.old) (O.faults out.new) result }
    ensures takes { IfErr result (λ stop. SessionTakes (Session.Ram layout) image.items lines (O.given out.old)
        (O.given out.new) stop) }
    ensures counts { KeptUnless Stop.SinkFault result (O.faults out.old) (O.faults out.new) }
    ensures later { O.faults out.old ≤ O.faults out.new }
{
    let off = match fresh_store(alloc, layout, image) {
        Ok(off) => off,
        Err(AllocError) => return Err(Stop::Memory),
    };
    match play(alloc, off, lines, out) {
        Ok(machine) => Ok((Vec::new(alloc), machine.into_image())),
        Err(stop) => Err(stop_of(stop)),
    }
}

// Does the lines of a session, and gives the text and the image that they leave.
fn do_lines<O: Sink>(
    alloc: Global,
    session: Session,
    image: Vec<u8>,
    lines: Lines,
    out: &mut O,
) -> Result<(Vec<u8>, Bytes), Stop>
    requires can { CanRun session }
    requires size { vec_len image ≡ mem_of (session_plan session) }
    requires fields { AllHaveFields lines }
    requires few { length lines < 2 ^ 32 }
    ensures left { LinesLeave (session_wants session image.items (Ok lines)) (O.given out.old) (O.given out.new)
        (O.faults out.old) (O.faults out.new) result }
    ensures takes { IfErr result (λ stop. SessionTakes session image.items lines (O.given out.old)
        (O.given out.new) stop) }
    ensures silent { IsSilent session (O.given out.old) (O.given out.new) }
    ensures counts { KeptUnless Stop.SinkFault result (O.faults out.old) (O.faults out.new) }
    ensures later { O.faults out.old ≤ O.faults out.new }
{
    match session {
        Session::Ram(layout) => play_lines(alloc, layout, image, lines, out),
        Session::Shared(booted, layout) => share(alloc, booted, layout, image, lines),
    }
}

// Prints a text, and asks nothing of the output where there is none.
fn put_text<O: Sink>(text: &[u8], out: &mut O) -> Result<(), Failed>
    ensures bytes { MatchResult result (λ _. Appends (O.given out.old) (O.given out.new) text.now)
        (λ _. AppendsFront (O.given out.old) (O.given out.new) text.now) }
    ensures cause { HasCause (O.faults out.old) (O.faults out.new) result }
{
    if text.is_empty() {
        Ok(())
    } else {
        out.put(text)
    }
}

/// Does a script: reads the image and the lines, does these, prints the text that they leave, and writes the image that
/// they leave.
pub fn run_script<S: Source, M: Store, O: Sink>(
    alloc: Global,
    session: Session,
    script: &mut S,
    image: &mut M,
    out: &mut O,
) -> Result<(), Stop>
    requires { CanRun session }
    ensures { let before = outside (S.left script.old) (S.faults script.old) (M.holds image.old)
        (M.faults image.old) (M.writes image.old) (O.given out.old) (O.faults out.old) in
        let after = outside (S.left script.new) (S.faults script.new) (M.holds image.new)
        (M.faults image.new) (M.writes image.new) (O.given out.new) (O.faults out.new) in
        let stood = device (M.holds image.old) (M.writes image.old) (M.read_faults image.old) in
        let stands = device (M.holds image.new) (M.writes image.new) (M.read_faults image.new) in
        ScriptDone (session_plan session) before after stood stands result }
{
    let bytes = match load(alloc, image, session.mem()) {
        Ok(bytes) => bytes,
        Err(stop) => return Err(stop),
    };
    let lines = match read_lines(alloc, script) {
        Ok(lines) => lines,
        Err(stop) => return Err(stop),
    };
    let (text, bytes) = match do_lines(alloc, session, bytes, lines, out) {
        Ok(left) => left,
        Err(stop) => return Err(stop),
    };
    match put_text(&text, out) {
        Ok(()) => {}
        Err(Failed) => return Err(Stop::SinkFault),
    }
    match save(image, bytes.as_slice()) {
        Ok(()) => Ok(()),
        Err(Failed) => Err(Stop::ImageFault),
    }
}
