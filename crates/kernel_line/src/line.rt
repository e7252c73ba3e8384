// A kernel's command line, read once.
ghost use Rattle.std.specs.Prelude.{◌≡◌, ℕ, true, List, ◌++◌, IfOk, IfErr, OnOk, OnErr};
ghost use Rattle.std.specs.List.{filter};
ghost use Rattle.grammar_spec.specs.Words.{texts};
ghost use Rattle.kernel_line.specs.Line.{is_closed, is_of, line_words, IsFaultAmong, IsUnread, StandsFirst};
ghost use Rattle.kernel_line.specs.Region.{address_in, reserved_in};

use crate::layout::{Module, add_words};
use crate::region::{address, reserved_size};
use crate::words::{LineFault, kernel_words};
use outside::Bytes;
use std::alloc::Global;
use std::marker::Model;

/// The words of a kernel's command line.
#[derive(Drop)]
pub struct KernelLine {
    words: Vec<Bytes>,
}

impl Model for KernelLine {
    ghost Value = { List (List ℕ) };

    ghost view = { λ line. line.words.items };
}

impl KernelLine {
    /// Reads them as the kernel does. A quote without its end is refused, before any memory is taken.
    pub fn read(alloc: Global, line: &[u8]) -> Result<KernelLine, LineFault>
        ensures ok { IfOk result (λ read. read ≡ line_words line.now) }
        ensures closed { OnOk result (is_closed line.now ≡ true) }
        ensures err { IfErr result (IsUnread line.now) }
    {
        let words = kernel_words(alloc, line)?;
        Ok(KernelLine { words })
    }

    /// Adds those that say how a module lays its memory, or a storage, out: those that begin with `ramoops.`, but for
    /// `mem_address`, `mem_name`, `mem_type`, `max_reason` and `dump_oops`; or with `pstore_blk.`, but for `blkdev`,
    /// `best_effort` and `max_reason`. After a fault some of them were added.
    pub fn add_layout_words(
        &self,
        alloc: Global,
        which: Module,
        words: &mut Vec<String>,
    ) -> Result<(), LineFault>
        ensures ok { OnOk result (texts words.new.items ≡ texts words.old.items ++ filter (is_of which) self.now) }
        ensures err { IfErr result (IsFaultAmong which self.now) }
        ensures kept { OnErr result (StandsFirst (texts words.old.items) (texts words.new.items)) }
    {
        add_words(alloc, which, words, &self.words)
    }

    /// The address that they give the region, the last if they give several.
    pub fn address(&self) -> Option<u64>
        ensures { result ≡ address_in self.now }
    {
        address(&self.words)
    }

    /// The bytes that they reserve under the name that they give ramoops. The kernel picks their place at each boot, so no
    /// word tells it.
    pub fn reserved_size(&self) -> Option<u64>
        ensures { result ≡ reserved_in self.now }
    {
        reserved_size(&self.words)
    }
}
