// The words of a kernel's command line and of a text.
ghost use Rattle.std.specs.Prelude.{◌≡◌, IfOk, IfErr, MatchResult};
ghost use Rattle.grammar_spec.specs.Words.{texts};
ghost use Rattle.kernel_line.specs.Line.{IsFaultBefore};
ghost use Rattle.oopsbox_page.specs.Words.{IsReadable, IsUnread, IsFaultBy, region_words as region_words_of};
ghost use Rattle.oopsbox_page.specs.Words.{words_by as words_of, no_words as no_words_of, asked_words};

use kernel_line::{KernelLine, LineFault, Module, is_closed};
use report_entry::{WordsFault, add_each, read_some_words, with_storage_words};
use std::alloc::Global;

/// Why there are no words.
#[derive(Clone, Copy, Debug, PartialEq, Eq)]
pub enum NoWords {
    Unreadable,
    Memory,
}

// The words of a line that lay a region out, and then these.
#[tactic(auto, using(kernel_line::proofs::Among::before_others))]
fn region_words(
    alloc: Global,
    line: &KernelLine,
    more: Vec<String>,
) -> Result<Vec<String>, LineFault>
    ensures ok { IfOk result (λ words. texts words.items ≡ region_words_of line.now (texts more.items)) }
    ensures err { IfErr result (IsFaultBefore Module.Ramoops line.now (texts more.items)) }
{
    let mut words = Vec::new(alloc);
    line.add_layout_words(alloc, Module::Ramoops, &mut words)?;
    add_each(&mut words, more)?;
    Ok(words)
}

// Behind those that give the sizes of a storage, where there is no device tree.
fn words_by(
    alloc: Global,
    line: &KernelLine,
    more: Vec<String>,
    tree: &[u8],
) -> Result<Vec<String>, LineFault>
    ensures { MatchResult result (λ words. texts words.items ≡ words_of tree.now line.now (texts more.items))
        (IsFaultBy tree.now line.now (texts more.items)) }
{
    let words = region_words(alloc, line, more)?;
    if !tree.is_empty() {
        return Ok(words);
    }
    with_storage_words(alloc, line, words)
}

fn no_words(fault: LineFault) -> NoWords
    ensures { result ≡ no_words_of fault }
{
    match fault {
        LineFault::Memory => NoWords::Memory,
        LineFault::OpenQuote | LineFault::NoText => NoWords::Unreadable,
    }
}

/// The words of a kernel's command line that say how ramoops lays its memory out, and then those of a text, each two
/// with one space between. If they say nothing of ramoops, and there is no device tree, first those of the line that give
/// the sizes of a storage. Memory is taken only if each quote of the line has its end and the text is UTF-8.
pub fn line_words(
    alloc: Global,
    line: &[u8],
    text: &[u8],
    tree: &[u8],
) -> Result<Vec<String>, NoWords>
    ensures { MatchResult result
        (λ words. IsReadable line.now text.now × (texts words.items ≡ asked_words tree.now line.now text.now))
        (IsUnread tree.now line.now text.now) }
{
    if !is_closed(line) {
        return Err(NoWords::Unreadable);
    }
    let more = match read_some_words(alloc, text) {
        Ok(more) => more,
        Err(WordsFault::NotText) => return Err(NoWords::Unreadable),
        Err(WordsFault::Memory) => return Err(NoWords::Memory),
    };
    let line = match KernelLine::read(alloc, line) {
        Ok(line) => line,
        Err(fault) => return Err(no_words(fault)),
    };
    match words_by(alloc, &line, more, tree) {
        Ok(words) => Ok(words),
        Err(fault) => Err(no_words(fault)),
    }
}
