// The words of a kernel's command line that lay out ramoops' memory, or a storage of pstore_blk.
ghost use Rattle.std.specs.Prelude.{◌≡◌, [], ◌∷◌, ◌++◌, IfErr, OnOk, OnErr};
ghost use Rattle.std.specs.List.{filter};
ghost use Rattle.grammar_spec.specs.Words.{texts};
ghost use Rattle.kernel_line.specs.Line.{is_of as is_of_module, IsWordFault, IsFaultAmong, StandsFirst};

use crate::words::{LineFault, name_end};
use outside::Bytes;
use std::alloc::{AllocError, Global};

/// A module of the kernel that keeps the log.
#[derive(Clone, Copy, Debug, PartialEq, Eq)]
pub enum Module {
    /// In memory.
    Ramoops,
    /// On a disk or on flash.
    PstoreBlk,
}

/// The parameters of ramoops that say nothing of the layout.
const OTHERS: [&[u8]; 5] = [
    b"mem_address",
    b"mem_name",
    b"mem_type",
    b"max_reason",
    b"dump_oops",
];

/// Those of pstore_blk.
const STORAGE_OTHERS: [&[u8]; 3] = [b"blkdev", b"best_effort", b"max_reason"];

fn is_of_ramoops(word: &[u8]) -> bool
    ensures { result ≡ is_of_module Module.Ramoops word.now }
{
    if !word.starts_with(b"ramoops.") {
        return false;
    }
    let parameter = &word[8..];
    !OTHERS.contains(&&parameter[..name_end(parameter)])
}

fn is_of_storage(word: &[u8]) -> bool
    ensures { result ≡ is_of_module Module.PstoreBlk word.now }
{
    if !word.starts_with(b"pstore_blk.") {
        return false;
    }
    let parameter = &word[11..];
    !STORAGE_OTHERS.contains(&&parameter[..name_end(parameter)])
}

fn is_of(which: Module, word: &[u8]) -> bool
    ensures { result ≡ is_of_module which word.now }
{
    match which {
        Module::Ramoops => is_of_ramoops(word),
        Module::PstoreBlk => is_of_storage(word),
    }
}

fn push_text(alloc: Global, words: &mut Vec<String>, text: &str) -> Result<(), AllocError>
    ensures ok { OnOk result (texts words.new.items ≡ texts words.old.items ++ text.now ∷ []) }
    ensures kept { OnErr result (words.new.items ≡ words.old.items) }
{
    words.push(String::from_str(alloc, text)?)?;
    Ok(())
}

fn add_word(
    alloc: Global,
    which: Module,
    words: &mut Vec<String>,
    word: &[u8],
) -> Result<(), LineFault>
    ensures ok { OnOk result (texts words.new.items
        ≡ texts words.old.items ++ filter (is_of_module which) (word.now ∷ [])) }
    ensures err { IfErr result (IsWordFault which word.now) }
    ensures kept { OnErr result (words.new.items ≡ words.old.items) }
{
    if !is_of(which, word) {
        return Ok(());
    }
    match std::str::from_utf8(word) {
        Ok(text) => Ok(push_text(alloc, words, text)?),
        Err(_) => Err(LineFault::NoText),
    }
}

/// Adds those of the words that are of a module's layout. After a fault those before it were added.
pub fn add_words(
    alloc: Global,
    which: Module,
    words: &mut Vec<String>,
    read: &[Bytes],
) -> Result<(), LineFault>
    ensures ok { OnOk result (texts words.new.items ≡ texts words.old.items ++ filter (is_of_module which) read.now) }
    ensures err { IfErr result (IsFaultAmong which read.now) }
    ensures kept { OnErr result (StandsFirst (texts words.old.items) (texts words.new.items)) }
{
    for word in read {
        add_word(alloc, which, words, word.as_slice())?;
    }
    Ok(())
}
