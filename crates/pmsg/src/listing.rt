// The entries.
ghost use Rattle.std.specs.Prelude.{◌≡◌, ◌+◌, ◌^◌, ◌<◌, ◌≤◌, length, drop, replicate, true, IfOk};
ghost use Rattle.pmsg_spec.specs.Entries.{half as half_at, word as word_at, is_entry as is_entry_of};
ghost use Rattle.pmsg_spec.specs.Entries.{entry_len as len_of, entry_of as entry_is, are_entries, listed};
ghost use Rattle.pmsg_spec.specs.Entries.{entries as entries_are};
ghost use Rattle.pmsg.specs.Follow.{FollowFrom};

use crate::payloads::tail;
use pmsg_spec::Entry;
use std::alloc::{AllocError, Global};

const MAGIC: u8 = b'l';

const HEADER: usize = 18;

#[tactic(auto, unfolding(pmsg_spec::specs::Entries::half))]
fn half(bytes: &[u8], at: usize) -> u16
    requires { at + 2 ≤ length bytes.now }
    ensures { result ≡ half_at bytes.now at }
{
    u16::from_le_bytes([bytes[at], bytes[at + 1]])
}

#[tactic(auto, unfolding(pmsg_spec::specs::Entries::word))]
fn word(bytes: &[u8], at: usize) -> u32
    requires { at + 4 ≤ length bytes.now }
    ensures { result ≡ word_at bytes.now at }
{
    u32::from_le_bytes([bytes[at], bytes[at + 1], bytes[at + 2], bytes[at + 3]])
}

/// Whether a whole entry stands at the front.
#[tactic(auto, unfolding(pmsg_spec::specs::Entries::is_entry))]
fn is_entry(bytes: &[u8]) -> bool
    ensures { result ≡ is_entry_of bytes.now }
{
    if bytes.len() < HEADER {
        return false;
    }
    let len = usize::from(half(bytes, 1));
    bytes[0] == MAGIC
        && HEADER <= len
        && len <= bytes.len()
        && bytes[7] < 8
        && word(bytes, 14) < 1_000_000_000
}

/// The length of the entry at the front.
fn entry_len(bytes: &[u8]) -> usize
    requires { is_entry_of bytes.now ≡ true }
    ensures len { result ≡ len_of bytes.now }
    ensures least { 18 ≤ result }
    ensures within { result ≤ length bytes.now }
{
    usize::from(half(bytes, 1))
}

/// Whether whole entries follow one another from a place on, by what is known of the places behind it.
fn follow_from(bytes: &[u8], at: usize, follow: &[bool]) -> bool
    requires at { at < length bytes.now }
    requires len { length follow.now ≡ length bytes.now + 1 }
    requires known { FollowFrom bytes.now (at + 1) follow.now }
    ensures { result ≡ are_entries (drop at bytes.now) }
{
    let rest = tail(bytes, at);
    is_entry(rest) && follow[at + entry_len(rest)]
}

// As many places, from each of which nothing but the end follows.
fn all_follow(alloc: Global, places: usize) -> Result<Vec<bool>, AllocError>
    ensures { IfOk result (λ follow. follow.items ≡ replicate places true) }
{
    vec![in alloc; true; places]
}

/// Where the entries begin, or the end if there are none.
fn start_of(alloc: Global, bytes: &[u8]) -> Result<usize, AllocError>
    ensures within { IfOk result (λ at. at ≤ length bytes.now) }
    ensures follow { IfOk result (λ at. are_entries (drop at bytes.now) ≡ true) }
    ensures first { IfOk result (λ at. entries_are bytes.now ≡ listed at 0 (drop at bytes.now)) }
{
    let mut follow = all_follow(alloc, bytes.len() + 1)?;
    let mut start = bytes.len();
    let mut at = bytes.len();
    'places: while 0 < at {
        at -= 1;
        let is_start = follow_from(bytes, at, &follow);
        follow[at] = is_start;
        if is_start {
            start = at;
        }
    }
    Ok(start)
}

/// The entry at the front of what stands from a place on.
fn entry_at(at: usize, rest: &[u8]) -> Entry
    requires room { at + length rest.now < 2 ^ 63 }
    requires stands { is_entry_of rest.now ≡ true }
    ensures { result ≡ entry_is at rest.now }
{
    Entry {
        log: rest[7],
        uid: half(rest, 3),
        pid: half(rest, 5),
        tid: half(rest, 8),
        secs: word(rest, 10),
        nanos: word(rest, 14),
        start: at + HEADER,
        end: at + entry_len(rest),
    }
}

/// The entries of Android's log, if the bytes of a pmsg are such; else none. The bytes may begin within an entry, as
/// those of a full ring do; the entries are those from the first place on from which whole entries follow one another
/// up to the end. Takes time and memory linear in the bytes.
pub fn entries(alloc: Global, bytes: &[u8]) -> Result<Vec<Entry>, AllocError>
    ensures { IfOk result (λ all. all.items ≡ entries_are bytes.now) }
{
    let mut at = start_of(alloc, bytes)?;
    let mut all = Vec::new(alloc);
    'entries: while at < bytes.len() {
        let entry = entry_at(at, tail(bytes, at));
        all.push(entry)?;
        at = entry.end;
    }
    Ok(all)
}
