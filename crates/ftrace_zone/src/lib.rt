//! The entries of an ftrace log, and the merge of two lists of them by their times.
#![tactic(auto)]

ghost use Rattle.std.specs.Prelude.{◌≡◌, ◌+◌, ◌/◌, ◌%◌, ◌≤◌, length, take, drop, map, flat_map, IfOk};
ghost use Rattle.std.specs.Int.{to_le_bytes};
ghost use Rattle.std.proofs.Common.{w64};
ghost use Rattle.zone_spec.specs.Ftrace.{entries, merge};
ghost use Rattle.ftrace_zone.specs.EntryBytes.{entry_bytes};

pub mod types;

use outside::Bytes;
use std::alloc::{AllocError, Global};
use types::Entries;

/// An entry of an ftrace log: the address of a function, that of its caller, and a word whose low 8 bits are the
/// processor and whose other bits are the time (`include/linux/pstore.h`, `struct pstore_ftrace_record`).
#[derive(Clone, Copy, Debug, PartialEq, Eq)]
pub struct Entry {
    pub addr: u64,
    pub parent: u64,
    pub word: u64,
}

impl Entry {
    ghost use Rattle.zone_spec.specs.Ftrace.{entry_time};

    /// A count of no unit: it orders the entries of all processors.
    pub fn time(&self) -> u64
        ensures word { result ≡ self.now.word / 256 }
        ensures time { result ≡ entry_time (entry_bytes self.now) }
    {
        self.word >> 8
    }

    /// The number of the processor that made the entry.
    pub fn cpu(&self) -> u8
        ensures { result ≡ self.now.word % 256 }
    {
        (self.word % 256) as u8
    }
}

/// The word of 64 bits, little-endian, in the eight bytes from `at` on.
fn word_at(log: &[u8], at: usize) -> u64
    requires { at + 8 ≤ length log.now }
    ensures { to_le_bytes w64 result ≡ take 8 (drop at log.now) }
{
    let bytes = &log[at..at + 8];
    u64::from_le_bytes([
        bytes[0], bytes[1], bytes[2], bytes[3], bytes[4], bytes[5], bytes[6], bytes[7],
    ])
}

/// The entry in the 24 bytes from `at` on.
fn entry_at(log: &[u8], at: usize) -> Entry
    requires { at + 24 ≤ length log.now }
    ensures { entry_bytes result ≡ take 24 (drop at log.now) }
{
    Entry {
        addr: word_at(log, at),
        parent: word_at(log, at + 8),
        word: word_at(log, at + 16),
    }
}

/// The entries of a zone's log. The log's first bytes, where they make no whole entry, are left out.
pub fn entries(alloc: Global, log: &[u8]) -> Result<Entries, AllocError>
    ensures { IfOk result (λ found. map entry_bytes found ≡ entries log.now) }
{
    let count = log.len() / 24;
    let first = log.len() % 24;
    let mut found = Vec::with_capacity(alloc, count)?;
    for i in 0..count {
        found.push(entry_at(log, first + 24 * i))?;
    }
    Ok(Entries::from_vec(found))
}

/// Merges an earlier zone's entries with a later one's, by their times. Of two equal times the later zone's entry
/// comes first (`fs/pstore/ftrace.c`, `pstore_ftrace_combine_log`).
pub fn merge(alloc: Global, earlier: &Entries, later: &Entries) -> Result<Entries, AllocError>
    ensures { IfOk result (λ merged.
        map entry_bytes merged ≡ merge (map entry_bytes earlier.now) (map entry_bytes later.now)) }
{
    let left = earlier.as_slice();
    let right = later.as_slice();
    let mut merged = Vec::with_capacity(alloc, left.len() + right.len())?;
    let mut i = 0;
    let mut j = 0;
    while i < left.len() && j < right.len() {
        if right[j].time() <= left[i].time() {
            merged.push(right[j])?;
            j += 1;
        } else {
            merged.push(left[i])?;
            i += 1;
        }
    }
    merged.extend_from_slice(&left[i..])?;
    merged.extend_from_slice(&right[j..])?;
    Ok(Entries::from_vec(merged))
}

/// The entries' bytes end to end.
pub fn to_bytes(alloc: Global, e: &Entries) -> Result<Bytes, AllocError>
    ensures { IfOk result (λ bytes. bytes ≡ flat_map entry_bytes e.now) }
{
    let entries = e.as_slice();
    let mut bytes = Vec::with_capacity(alloc, 24 * entries.len())?;
    for entry in entries {
        bytes.extend_from_slice(&entry.addr.to_le_bytes())?;
        bytes.extend_from_slice(&entry.parent.to_le_bytes())?;
        bytes.extend_from_slice(&entry.word.to_le_bytes())?;
    }
    Ok(Bytes::from_vec(bytes))
}
