// An image that is a text log.
ghost use Rattle.std.specs.Prelude.{◌≡◌, ◌≤◌, length, drop, IfSome, IfOk, IfErr, OnOk};
ghost use Rattle.report_run.specs.Failures.{IsUnread};
ghost use Rattle.report_run.specs.Logs.{IsSeenLog, is_inside, line_len, whole_lines, text_in, IsLogOf, IsLooked};
ghost use Rattle.report_run.specs.Logs.{IsUnlooked};

use crate::boots::{HeldLog, held_text};
use crate::failures::{Failure, stop_failure, unread_failure};
use crate::plans::Logs;
use image_file::load_front;
use memory_regions::window;
use outside::Load;
use std::alloc::{AllocError, Global};
use text_log::is_text_log;

/// So many bytes tell whether an image is a text.
const FRONT: u32 = 65_536;

/// So many bytes of a log are read.
pub const MOST_LOG: u32 = 268_435_456;

const MOST: u64 = 268_435_456;

// Whether an image is a text, as its front shows.
#[tactic(auto, using(crate::proofs::LogEnds::text_seen))]
fn is_text<M: Load>(alloc: Global, image: &mut M) -> Result<bool, Failure>
    ensures seen { IfOk result (λ is. IsSeenLog is Logs.Texts (M.holds image.old)) }
    ensures unlooked { IfErr result (IsUnread (M.faults image.old) (M.faults image.new)) }
    ensures no_fault { OnOk result (M.faults image.new ≡ M.faults image.old) }
    ensures same { M.holds image.new ≡ M.holds image.old }
    ensures later { M.faults image.old ≤ M.faults image.new }
{
    match load_front(alloc, image, FRONT) {
        Ok(front) => Ok(is_text_log(&front)),
        Err(stop) => Err(stop_failure(stop)),
    }
}

fn is_log<M: Load>(alloc: Global, logs: Logs, image: &mut M) -> Result<bool, Failure>
    ensures seen { IfOk result (λ is. IsSeenLog is logs (M.holds image.old)) }
    ensures unlooked { IfErr result (IsUnlooked logs (M.faults image.old) (M.faults image.new)) }
    ensures no_fault { OnOk result (M.faults image.new ≡ M.faults image.old) }
    ensures same { M.holds image.new ≡ M.holds image.old }
    ensures later { M.faults image.old ≤ M.faults image.new }
{
    match logs {
        Logs::Never => Ok(false),
        Logs::Texts => is_text(alloc, image),
        Logs::All => Ok(true),
    }
}

fn is_inside(b: u8) -> bool
    ensures { result ≡ is_inside b }
{
    b != b'\n'
}

// How many bytes a text's first line has.
fn line_len(text: &[u8]) -> usize
    ensures len { result ≡ line_len text.now }
    ensures within { result ≤ length text.now }
{
    let mut len = 0;
    'bytes: while len < text.len() && is_inside(text[len]) {
        len += 1;
    }
    len
}

// What stands from a place on; nothing past the end.
fn tail(text: &[u8], at: usize) -> &[u8]
    ensures { result.now ≡ drop at text.now }
{
    if at < text.len() { &text[at..] } else { &[] }
}

// A text from the first line on that begins in it.
fn whole_lines(text: &[u8]) -> &[u8]
    ensures { result.now ≡ whole_lines text.now }
{
    let len = line_len(text);
    if len < text.len() {
        tail(text, len + 1)
    } else {
        text
    }
}

// The text in a log's last bytes, or in all of it.
fn text_in(alloc: Global, is_cut: bool, bytes: Vec<u8>) -> Result<Vec<u8>, AllocError>
    ensures { IfOk result (λ text. text.items ≡ text_in is_cut bytes.items) }
{
    if is_cut {
        Vec::from_slice(alloc, whole_lines(&bytes))
    } else {
        Ok(bytes)
    }
}

// A log, its place in the image, and its boots.
fn log_of<M: Load>(alloc: Global, image: &mut M) -> Result<HeldLog, Failure>
    ensures held { IfOk result (λ l. IfSome (M.holds image.old) (λ bs. IsLogOf bs l)) }
    ensures unlooked { IfErr result (IsUnread (M.faults image.old) (M.faults image.new)) }
    ensures no_fault { OnOk result (M.faults image.new ≡ M.faults image.old) }
    ensures same { M.holds image.new ≡ M.holds image.old }
    ensures later { M.faults image.old ≤ M.faults image.new }
{
    let Ok(size) = image.size() else {
        return Err(Failure::Unread);
    };
    let bytes = match window(alloc, image, size.saturating_sub(MOST), MOST_LOG) {
        Ok(bytes) => bytes,
        Err(unread) => return Err(unread_failure(unread)),
    };
    let text = text_in(alloc, size > MOST, bytes)?;
    let base = size.saturating_sub(text.len() as u64);
    let log = held_text(alloc, text, base)?;
    Ok(log)
}

/// The log that an image is, if logs are looked for.
pub fn held_log<M: Load>(
    alloc: Global,
    logs: Logs,
    image: &mut M,
) -> Result<Option<HeldLog>, Failure>
    ensures looked { IfOk result (IsLooked logs (M.holds image.old)) }
    ensures unlooked { IfErr result (IsUnlooked logs (M.faults image.old) (M.faults image.new)) }
    ensures no_fault { OnOk result (M.faults image.new ≡ M.faults image.old) }
    ensures same { M.holds image.new ≡ M.holds image.old }
    ensures later { M.faults image.old ≤ M.faults image.new }
{
    if !is_log(alloc, logs, image)? {
        return Ok(None);
    }
    let log = log_of(alloc, image)?;
    Ok(Some(log))
}
