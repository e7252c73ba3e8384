// Files, one after another.
ghost use Rattle.std.specs.Prelude.{◌≡◌, ◌≤◌, ℕ, List, Option, IfOk, IfErr, OnOk, MatchResult};
ghost use Rattle.std.specs.Prelude.{length, string_bytes};
ghost use Rattle.report_run.specs.Messages.{seen};
ghost use Rattle.report_run.specs.States.{folder, reads, state};
ghost use Rattle.report_run.specs.Runs.{wanted, IsUnopened, IsImageDone, IsImageUndone, IsContentDone, IsContentUndone};
ghost use Rattle.report_run.specs.declared.running.FileEnd.TheVariants.{Done};
ghost use Rattle.report_run.specs.Runs.{IsDone, IsUndone, IsPath, is_counted, IsStep, AreSteps, status_of};
ghost use Rattle.report_run.specs.Runs.{end_of, ends_run, with_end};

use crate::failures::Failure;
use crate::images::report_image;
use crate::memories::report_memory;
use crate::messages::Messages;
use crate::plans::{Asked, Wanted, WholeMemory};
use crate::records::{Records, save_asked};
use found_regions::Watch;
use outside::{Load, Sink};
use report_entry::Layouts;
use std::alloc::Global;

/// What is no file and whose layout is looked for has no more: it is the most that a storage has.
const MOST: u32 = 134_217_728;

/// Where files are opened.
pub trait Images {
    ghost use Rattle.report_run.specs.declared.plans.Wanted.{Wanted};

    type Image: Load + Drop;

    // What the file at a path holds, of which so much is wanted, where that is told.
    ghost content: { Self → List ℕ → Wanted → Option (List ℕ) };

    // How often `Unopened` was answered.
    ghost unopened: { Self → ℕ };

    // How often files that were closed have failed.
    ghost faults: { Self → ℕ };

    /// Opens the file at a path, of which so much is wanted, or answers why it is not opened. Its faults are counted on
    /// from those of the files before.
    fn open(&mut self, path: &str, wanted: Wanted) -> Result<Self::Image, Failure>
        ensures held { IfOk result (λ image. Self.Image.holds image ≡ content self.old path.now wanted) }
        ensures counted { IfOk result (λ image. Self.Image.faults image ≡ faults self.old) }
        ensures opened { OnOk result (unopened self.new ≡ unopened self.old) }
        ensures why { IfErr result (IsUnopened (unopened self.old) (unopened self.new)) }
        ensures same { content self.new ≡ content self.old }
        ensures no_fault { faults self.new ≡ faults self.old };

    /// Closes a file that was opened.
    fn close(&mut self, image: Self::Image)
        ensures counted { faults self.new ≡ Self.Image.faults image }
        ensures opened { unopened self.new ≡ unopened self.old }
        ensures same { content self.new ≡ content self.old };
}

/// A file, and the name that its report and messages give it.
#[derive(Debug, Drop)]
pub struct NamedFile {
    pub path: String,
    pub name: String,
}

/// How a file ended, or several: `Failed` if one of them did.
#[derive(Clone, Copy)]
pub enum FileEnd {
    Done,
    Failed,
    /// It failed, since standard output took no more.
    Unwritten,
}

fn end_of(failure: &Failure) -> FileEnd
    ensures { result ≡ end_of failure.now }
{
    match failure {
        Failure::Unwritten => FileEnd::Unwritten,
        _ => FileEnd::Failed,
    }
}

// How much of a file is wanted.
fn wanted(memory: Option<WholeMemory>, layouts: &Layouts) -> Wanted
    ensures { result ≡ wanted memory layouts.now }
{
    match (memory, layouts) {
        (Some(_), _) => Wanted::Whole,
        (None, Layouts::Given(plan)) => Wanted::Front(plan.mem()),
        (None, Layouts::Sought(_)) => Wanted::UpTo(MOST),
    }
}

// An image: its report, and its records saved, if that is asked for.
fn one_image<M: Load, O: Sink, E: Sink, F: Records>(
    alloc: Global,
    asked: &Asked,
    path: &str,
    image: &mut M,
    out: &mut O,
    messages: &mut Messages<E>,
    records: &mut F,
) -> Result<(), Failure>
    ensures done { let before = state (O.given out.old) (O.faults out.old)
        (seen (E.given messages.old.errors) (E.faults messages.old.errors) messages.old.is_lost)
        (folder (F.made records.old) (F.faults records.old)) in
        let after = state (O.given out.new) (O.faults out.new)
        (seen (E.given messages.new.errors) (E.faults messages.new.errors) messages.new.is_lost)
        (folder (F.made records.new) (F.faults records.new)) in
        MatchResult result (λ _. IsImageDone asked.now path.now (M.holds image.old) before after)
        (IsImageUndone asked.now path.now (M.holds image.old) (M.faults image.old) (M.faults image.new) before after) }
    ensures no_fault { OnOk result (M.faults image.new ≡ M.faults image.old) }
    ensures later { M.faults image.old ≤ M.faults image.new }
{
    let report = report_image(alloc, asked, path, image, out, messages)?;
    save_asked(asked.saves, &report, records)?;
    Ok(())
}

// What a file holds: an image, or a whole memory.
fn one_content<M: Load, W: Watch, O: Sink, E: Sink, F: Records>(
    alloc: Global,
    asked: &Asked,
    path: &str,
    image: &mut M,
    watch: &mut W,
    out: &mut O,
    messages: &mut Messages<E>,
    records: &mut F,
) -> Result<(), Failure>
    ensures done { let before = state (O.given out.old) (O.faults out.old)
        (seen (E.given messages.old.errors) (E.faults messages.old.errors) messages.old.is_lost)
        (folder (F.made records.old) (F.faults records.old)) in
        let after = state (O.given out.new) (O.faults out.new)
        (seen (E.given messages.new.errors) (E.faults messages.new.errors) messages.new.is_lost)
        (folder (F.made records.new) (F.faults records.new)) in
        MatchResult result
        (λ _. IsContentDone asked.now.memory asked.now path.now (M.holds image.old) before after)
        (IsContentUndone asked.now.memory asked.now path.now (M.holds image.old) (M.faults image.old)
        (M.faults image.new) before after) }
    ensures no_fault { OnOk result (M.faults image.new ≡ M.faults image.old) }
    ensures later { M.faults image.old ≤ M.faults image.new }
{
    match asked.memory {
        Some(whole) => report_memory(
            alloc, asked, path, whole, image, watch, out, messages, records,
        ),
        None => one_image(alloc, asked, path, image, out, messages, records),
    }
}

// One file, opened by its path. All else knows it by its name.
fn one_file<I: Images, W: Watch, O: Sink, E: Sink, F: Records>(
    alloc: Global,
    asked: &Asked,
    path: &str,
    name: &str,
    images: &mut I,
    watch: &mut W,
    out: &mut O,
    messages: &mut Messages<E>,
    records: &mut F,
) -> Result<(), Failure>
    ensures done { let before = state (O.given out.old) (O.faults out.old)
        (seen (E.given messages.old.errors) (E.faults messages.old.errors) messages.old.is_lost)
        (folder (F.made records.old) (F.faults records.old)) in
        let after = state (O.given out.new) (O.faults out.new)
        (seen (E.given messages.new.errors) (E.faults messages.new.errors) messages.new.is_lost)
        (folder (F.made records.new) (F.faults records.new)) in
        let holds = I.content images.old path.now (wanted asked.now.memory asked.now.layouts) in
        let reads_before = reads (I.unopened images.old) (I.faults images.old) in
        let reads_now = reads (I.unopened images.new) (I.faults images.new) in
        MatchResult result (λ _. IsDone asked.now name.now holds reads_before reads_now before after)
        (IsUndone asked.now name.now holds reads_before reads_now before after) }
    ensures same { I.content images.new ≡ I.content images.old }
    ensures later { I.faults images.old ≤ I.faults images.new }
{
    let mut image = images.open(path, wanted(asked.memory, &asked.layouts))?;
    let done = one_content(
        alloc, asked, name, &mut image, watch, out, messages, records,
    );
    images.close(image);
    done?;
    Ok(())
}

// One file, and the message on what went wrong with it.
fn one_path<I: Images, W: Watch, O: Sink, E: Sink, F: Records>(
    alloc: Global,
    asked: &Asked,
    path: &str,
    name: &str,
    images: &mut I,
    watch: &mut W,
    out: &mut O,
    messages: &mut Messages<E>,
    records: &mut F,
) -> FileEnd
    ensures done { let before = state (O.given out.old) (O.faults out.old)
        (seen (E.given messages.old.errors) (E.faults messages.old.errors) messages.old.is_lost)
        (folder (F.made records.old) (F.faults records.old)) in
        let after = state (O.given out.new) (O.faults out.new)
        (seen (E.given messages.new.errors) (E.faults messages.new.errors) messages.new.is_lost)
        (folder (F.made records.new) (F.faults records.new)) in
        let holds = I.content images.old path.now (wanted asked.now.memory asked.now.layouts) in
        IsPath result asked.now name.now holds (reads (I.unopened images.old) (I.faults images.old))
        (reads (I.unopened images.new) (I.faults images.new)) before after }
    ensures same { I.content images.new ≡ I.content images.old }
    ensures later { I.faults images.old ≤ I.faults images.new }
{
    match one_file(
        alloc, asked, path, name, images, watch, out, messages, records,
    ) {
        Ok(()) => FileEnd::Done,
        Err(failure) => {
            messages.tell_failure(name, &failure);
            end_of(&failure)
        }
    }
}

/// Whether it is told how many of so many files are done.
pub fn is_counted(asked: &Asked, all: usize) -> bool
    ensures { result ≡ is_counted asked.now all }
{
    asked.counts && all > 1
}

// Whether no other file is opened: there is nothing left to write to.
fn ends_run(end: FileEnd) -> bool
    ensures { result ≡ ends_run end }
{
    match end {
        FileEnd::Unwritten => true,
        _ => false,
    }
}

// How the files ended, with one more.
fn with_end(so_far: FileEnd, end: FileEnd) -> FileEnd
    ensures { result ≡ with_end so_far end }
{
    match end {
        FileEnd::Done => so_far,
        _ => end,
    }
}

// One file of `all`, of which `i` came before: its report, its records saved, if that is asked for, and the message
// on what went wrong.
fn report_file<I: Images, W: Watch, O: Sink, E: Sink, F: Records>(
    alloc: Global,
    asked: &Asked,
    i: usize,
    all: usize,
    file: &NamedFile,
    images: &mut I,
    watch: &mut W,
    out: &mut O,
    messages: &mut Messages<E>,
    records: &mut F,
) -> FileEnd
    ensures step { let before = state (O.given out.old) (O.faults out.old)
        (seen (E.given messages.old.errors) (E.faults messages.old.errors) messages.old.is_lost)
        (folder (F.made records.old) (F.faults records.old)) in
        let after = state (O.given out.new) (O.faults out.new)
        (seen (E.given messages.new.errors) (E.faults messages.new.errors) messages.new.is_lost)
        (folder (F.made records.new) (F.faults records.new)) in
        let holds = I.content images.old (string_bytes file.now.path) (wanted asked.now.memory asked.now.layouts) in
        IsStep asked.now i all (string_bytes file.now.name) holds (reads (I.unopened images.old) (I.faults images.old))
        (reads (I.unopened images.new) (I.faults images.new)) before after result }
    ensures same { I.content images.new ≡ I.content images.old }
{
    messages.tell_count(is_counted(asked, all), i, all);
    one_path(
        alloc, asked, &file.path, &file.name, images, watch, out, messages, records,
    )
}

/// The exit status: 0 if all images were done, and 1 if one failed, or something of a line on standard error was lost.
pub fn status_of(end: FileEnd, is_lost: bool) -> u8
    ensures { result ≡ status_of end is_lost }
{
    match (end, is_lost) {
        (FileEnd::Done, false) => 0,
        _ => 1,
    }
}

/// Reports these files, images or whole memories, one after another, and saves their records, if that is asked for. One
/// that fails is told on standard error, and ends nothing, unless standard output takes no more: then no other file is
/// opened. Answers how they ended.
pub fn run<I: Images, W: Watch, O: Sink, E: Sink, F: Records>(
    alloc: Global,
    asked: &Asked,
    files: &[NamedFile],
    images: &mut I,
    watch: &mut W,
    out: &mut O,
    messages: &mut Messages<E>,
    records: &mut F,
) -> FileEnd
    ensures { let before = state (O.given out.old) (O.faults out.old)
        (seen (E.given messages.old.errors) (E.faults messages.old.errors) messages.old.is_lost)
        (folder (F.made records.old) (F.faults records.old)) in
        let after = state (O.given out.new) (O.faults out.new)
        (seen (E.given messages.new.errors) (E.faults messages.new.errors) messages.new.is_lost)
        (folder (F.made records.new) (F.faults records.new)) in
        AreSteps asked.now (I.content images.old) (length files.now) 0 files.now
        (reads (I.unopened images.old) (I.faults images.old)) before Done
        (reads (I.unopened images.new) (I.faults images.new)) after result }
{
    let mut so_far = FileEnd::Done;
    for i in 0..files.len() {
        let end = report_file(
            alloc,
            asked,
            i,
            files.len(),
            &files[i],
            images,
            watch,
            out,
            messages,
            records,
        );
        if ends_run(end) {
            return end;
        }
        so_far = with_end(so_far, end);
    }
    so_far
}
