// The sizes of which a region is tried.
ghost use Rattle.std.specs.Prelude.{◌≡◌, ◌++◌, ◌∷◌, [], nat_le, ◌&&◌, None, IfOk, OnOk, length};
ghost use Rattle.std.specs.List.{filter, list_any};
ghost use Rattle.memory_spec.specs.Rings.{ends};
ghost use Rattle.memory_spec.specs.Sizes.{is_in_half, is_reached, sizes_of};

use crate::pages::add_marked;
use crate::rings::has_end_in_half;
use std::alloc::{AllocError, Global};

const POWERS: [u64; 13] = [
    4096, 8192, 16384, 32768, 65536, 131072, 262144, 524288, 1048576, 2097152, 4194304, 8388608,
    16777216,
];

fn is_in_half(size: u64, page: u64) -> bool
    ensures { result ≡ is_in_half size page }
{
    size / 8192 <= page && page < size / 4096
}

fn has_page_in_half(pages: &[u64], size: u64) -> bool
    ensures { result ≡ list_any (is_in_half size) pages.now }
{
    pages.iter().any(|page| is_in_half(size, *page))
}

// Whether a region of so many bytes reaches into its second half. The bytes are looked at only if no page tells it.
fn is_reached(pages: &[u64], bytes: &[u8], size: u64) -> bool
    ensures { result ≡ is_reached pages.now (ends bytes.now) size }
{
    size == 4096 || has_page_in_half(pages, size) || has_end_in_half(bytes, size)
}

// Adds the powers that are reached and of which there are so many bytes.
fn add_reached(
    list: &mut Vec<u64>,
    powers: &[u64],
    pages: &[u64],
    bytes: &[u8],
) -> Result<(), AllocError>
    ensures { OnOk result (list.new.items ≡ list.old.items
        ++ filter (λ n. nat_le n (length bytes.now) && is_reached pages.now (ends bytes.now) n) powers.now) }
{
    for n in powers {
        if *n <= bytes.len() as u64 && is_reached(pages, bytes, *n) {
            list.push(*n)?;
        }
    }
    Ok(())
}

// The sizes that these bytes reach. If no marked page tells a size, the bytes up to it are looked at. Each size is twice
// the one before, so these are at most twice as many bytes as there are.
#[tactic(auto, unfolding(memory_spec::specs::Sizes::powers))]
fn reached(alloc: Global, bytes: &[u8]) -> Result<Vec<u64>, AllocError>
    ensures { IfOk result (λ list. list.items ≡ sizes_of None bytes.now) }
{
    let mut pages = Vec::new(alloc);
    add_marked(&mut pages, bytes, 0)?;
    let mut list = Vec::new(alloc);
    add_reached(&mut list, &POWERS, &pages, bytes)?;
    Ok(list)
}

fn known_size(alloc: Global, size: u64, len: u64) -> Result<Vec<u64>, AllocError>
    ensures { IfOk result (λ list. list.items ≡ filter (λ n. nat_le n len) (size ∷ [])) }
{
    let mut list = Vec::new(alloc);
    if size <= len {
        list.push(size)?;
    }
    Ok(list)
}

/// The sizes of which a region is tried at the front of these bytes, rising: the one that is known, or those powers of
/// two from 4,096 to 16 MiB that headers and their rings reach, and 4,096. None is larger than there are bytes.
pub fn sizes(alloc: Global, known: Option<u64>, bytes: &[u8]) -> Result<Vec<u64>, AllocError>
    ensures { IfOk result (λ list. list.items ≡ sizes_of known bytes.now) }
{
    match known {
        Some(size) => known_size(alloc, size, bytes.len() as u64),
        None => reached(alloc, bytes),
    }
}
