// The pages at which a header seems to stand.
ghost use Rattle.std.specs.Prelude.{◌≡◌, ◌+◌, ◌/◌, ◌<◌, ◌≤◌, ◌^◌, ◌++◌, length, map, take, drop, IfOk, IfErr, OnOk};
ghost use Rattle.std.specs.Prelude.{IfSome};
ghost use Rattle.memory_regions.specs.Faults.{IsUnread};
ghost use Rattle.memory_spec.specs.Pages.{marked};

use layout_search::is_mark;
use outside::{Failed, Load};
use std::alloc::{AllocError, Global};

/// A region begins at a page.
const PAGE: usize = 4_096;

// How many bytes are read at once: whole pages.
const PIECE: u64 = 1_048_576;

/// Why a memory was not read.
#[derive(Clone, Copy, Debug, PartialEq, Eq)]
pub enum Unread {
    /// No memory.
    Memory,
    /// A read failed, or the size was not told.
    Fault,
}

impl From<AllocError> for Unread {
    ghost use Rattle.memory_regions.specs.declared.pages.Unread.TheVariants.{Memory};

    ghost from_gives = { λ _ e. e ≡ Memory };

    fn from(_: AllocError) -> Unread {
        Unread::Memory
    }
}

/// What is told how far a reading has come.
pub trait Watch {
    /// So many bytes of so many were read.
    fn reached(&mut self, done: u64, all: u64);
}

/// Adds the numbers of a piece's marked pages, the first page of which is `first`. A header that is cut is none.
#[tactic(auto, unfolding(memory_spec::specs::Pages::marked))]
pub(crate) fn add_marked(pages: &mut Vec<u64>, piece: &[u8], first: u64) -> Result<(), AllocError>
    requires { first < 2 ^ 53 }
    ensures { OnOk result (pages.new.items ≡ pages.old.items ++ map (λ page. first + page) (marked piece.now)) }
{
    for page in 0..piece.len().saturating_sub(11).div_ceil(PAGE) {
        if is_mark(piece, PAGE * page) {
            pages.push(first + page as u64)?;
        }
    }
    Ok(())
}

// Reads the next bytes, which fill a piece, and adds their marked pages.
fn add_piece<M: Load>(
    pages: &mut Vec<u64>,
    memory: &mut M,
    at: u64,
    piece: &mut [u8],
) -> Result<(), Unread>
    requires inside { IfSome (M.holds memory.old) (λ bs. at + length piece.old ≤ length bs) }
    ensures ok { OnOk result (IfSome (M.holds memory.old) (λ bs. pages.new.items ≡ pages.old.items
        ++ map (λ page. at / 4096 + page) (marked (take (length piece.old) (drop at bs))))) }
    ensures err { IfErr result (λ e. IsUnread e (M.faults memory.old) (M.faults memory.new)) }
    ensures no_fault { OnOk result (M.faults memory.new ≡ M.faults memory.old) }
    ensures same { M.holds memory.new ≡ M.holds memory.old }
    ensures later { M.faults memory.old ≤ M.faults memory.new }
{
    let Ok(()) = memory.read_at(at, piece) else {
        return Err(Unread::Fault);
    };
    add_marked(pages, piece, at / PAGE as u64)?;
    Ok(())
}

/// The numbers of the pages of 4,096 bytes at which a header seems to stand, rising. The memory is read once, from its
/// front to its end, in pieces of a mebibyte; each page found takes eight bytes.
pub fn marked_pages<M: Load, W: Watch>(
    alloc: Global,
    memory: &mut M,
    watch: &mut W,
) -> Result<Vec<u64>, Unread>
    ensures ok { IfOk result (λ pages. IfSome (M.holds memory.old) (λ bs. pages.items ≡ marked bs)) }
    ensures err { IfErr result (λ e. IsUnread e (M.faults memory.old) (M.faults memory.new)) }
    ensures no_fault { OnOk result (M.faults memory.new ≡ M.faults memory.old) }
    ensures same { M.holds memory.new ≡ M.holds memory.old }
    ensures later { M.faults memory.old ≤ M.faults memory.new }
{
    let Ok(size) = memory.size() else {
        return Err(Unread::Fault);
    };
    let mut pages = Vec::new(alloc);
    let mut piece = Vec::from_elem(alloc, 0u8, PIECE as usize)?;
    let mut left = size;
    'pieces: while left > 0 {
        let count = PIECE.min(left);
        match add_piece(
            &mut pages,
            memory,
            size - left,
            &mut piece[..count as usize],
        ) {
            Ok(()) => left -= count,
            Err(unread) => return Err(unread),
        }
        watch.reached(size - left, size);
    }
    Ok(pages)
}

/// The bytes from `at` on, `most` at most; none where the memory ends before.
pub fn window<M: Load>(alloc: Global, memory: &mut M, at: u64, most: u32) -> Result<Vec<u8>, Unread>
    ensures ok { IfOk result (λ v. IfSome (M.holds memory.old) (λ bs. v.items ≡ take most (drop at bs))) }
    ensures err { IfErr result (λ e. IsUnread e (M.faults memory.old) (M.faults memory.new)) }
    ensures no_fault { OnOk result (M.faults memory.new ≡ M.faults memory.old) }
    ensures same { M.holds memory.new ≡ M.holds memory.old }
    ensures later { M.faults memory.old ≤ M.faults memory.new }
{
    let Ok(size) = memory.size() else {
        return Err(Unread::Fault);
    };
    if size <= at {
        return Ok(Vec::new(alloc));
    }
    let count = (size - at).min(u64::from(most));
    let mut bytes = Vec::from_elem(alloc, 0u8, count as usize)?;
    match memory.read_at(at, &mut bytes) {
        Ok(()) => Ok(bytes),
        Err(Failed) => Err(Unread::Fault),
    }
}
