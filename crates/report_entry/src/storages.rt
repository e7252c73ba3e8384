// Which images are storages of the kernel's pstore_zone, by words, and the report of one.
ghost use Rattle.std.specs.Prelude.{◌≡◌, ◌<◌, ◌++◌, length, Some, IfOk, IfErr, OnOk, OnErr, MatchResult};
ghost use Rattle.std.specs.List.{list_all};
ghost use Rattle.grammar_spec.specs.Words.{texts};
ghost use Rattle.storage_words.specs.Words.{is_of_storage as is_of, gives_size};
ghost use Rattle.storage_report.specs.Held.{IsLookedAt};
ghost use Rattle.report_entry.specs.Storages.{with_storage_words as with_words, IsLineFault, IsUnheld};
ghost use Rattle.report_entry.specs.Storages.{storages_in as storages_of};
ghost use Rattle.report_entry.specs.Memory.{image_bytes};
ghost use Rattle.report_entry.specs.Storages.{no_storage as no_storage_of, IsStorageReport};

use crate::memory::{Image, Text};
use crate::reports::{Refusal, Reported};
use grammar_spec::ParamFault;
use kernel_line::{KernelLine, LineFault, Module};
use outside::Bytes;
use report_tool::Format;
use std::alloc::{AllocError, Global};
use storage_report::{HeldStorage, NoStorage, held_storage, report};
use storage_words::{Storages, is_of_storage, storages_by};
use symbols::Symbols;

/// How many lines of the newest dump a text has.
const LINES: usize = 10;

// Whether each word gives a size of a storage.
fn give_sizes(words: &[String]) -> bool
    ensures { result ≡ list_all gives_size words.now }
{
    words.iter().all(|word| is_of_storage(word))
}

fn are_of_storage(words: &[String]) -> bool
    ensures { result ≡ list_all is_of (texts words.now) }
{
    give_sizes(words)
}

/// Appends words to others. Takes no memory if there are none.
pub fn add_each(words: &mut Vec<String>, mut more: Vec<String>) -> Result<(), AllocError>
    ensures ok { OnOk result (texts words.new.items ≡ texts words.old.items ++ texts more.items) }
    ensures some { OnErr result (0 < length (texts more.items)) }
{
    words.append(&mut more)?;
    Ok(())
}

/// The words of a kernel's command line that give the sizes of a storage, and then these, if these say nothing of a
/// region; else these alone.
#[tactic(auto, using(kernel_line::proofs::Among::before_others))]
pub fn with_storage_words(
    alloc: Global,
    line: &KernelLine,
    words: Vec<String>,
) -> Result<Vec<String>, LineFault>
    ensures ok { IfOk result (λ all. texts all.items ≡ with_words (texts words.items) line.now) }
    ensures err { IfErr result (IsLineFault (texts words.items) line.now) }
{
    if !are_of_storage(&words) {
        return Ok(words);
    }
    let mut all = Vec::new(alloc);
    line.add_layout_words(alloc, Module::PstoreBlk, &mut all)?;
    add_each(&mut all, words)?;
    Ok(all)
}

/// Which images are storages, by words and a device tree: none, if there is one.
pub fn storages_in(words: &[String], tree: &[u8]) -> Result<Storages, ParamFault>
    ensures { result ≡ storages_of words.now tree.now }
{
    if tree.is_empty() {
        storages_by(words)
    } else {
        Ok(Storages::Never)
    }
}

fn no_storage(none: NoStorage) -> Refusal
    ensures { result ≡ no_storage_of none }
{
    match none {
        NoStorage::Stopped(_) => Refusal::Memory,
        NoStorage::Undivided(fault) => Refusal::Undivided(fault),
    }
}

// The storage that a copy of the image is.
fn held_in(
    alloc: Global,
    storages: Storages,
    mut image: Image,
) -> Result<Option<HeldStorage>, Refusal>
    ensures { MatchResult result (IsLookedAt storages (Some (image_bytes image))) (IsUnheld storages (image_bytes image)) }
{
    match held_storage(alloc, storages, &mut image) {
        Ok(held) => Ok(held),
        Err(none) => Err(no_storage(none)),
    }
}

/// The storage that an image is, if such are looked for.
pub fn storage_in(
    alloc: Global,
    storages: Storages,
    image: &[u8],
) -> Result<Option<HeldStorage>, Refusal>
    ensures { MatchResult result (IsLookedAt storages (Some image.now)) (IsUnheld storages image.now) }
{
    if matches!(storages, Storages::Never) {
        return Ok(None);
    }
    let image = Image::new(Bytes::copy_of(alloc, image)?);
    held_in(alloc, storages, image)
}

/// The report of a storage, behind the lines on it. A text has ten lines of the newest dump.
pub fn storage_report(
    alloc: Global,
    held: &HeldStorage,
    format: Format,
    name: &str,
) -> Result<Reported, AllocError>
    ensures { IfOk result (IsStorageReport held.now format name.now) }
{
    let lines = held.lines(alloc, name)?;
    let hint = lines.len() as u64;
    let mut text = Text::of(lines);
    let symbols = Symbols::none(alloc);
    match report(alloc, held, &symbols, LINES, format, name, &mut text) {
        Ok(_) => Ok(Reported { hint, text }),
        Err(_) => Err(AllocError),
    }
}
