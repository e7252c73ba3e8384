use ftrace_zone::types::Entries;
use ftrace_zone::{Entry, entries, merge, to_bytes};
use std::alloc::{AllocError, Global};
use std::process::Abort;
use std::test::Fail;

fn entry(word: u64) -> Entry {
    Entry {
        addr: 1,
        parent: 2,
        word,
    }
}

fn list(alloc: Global, words: &[u64]) -> Result<Entries, AllocError> {
    let mut items = Vec::new(alloc);
    for word in words {
        items.push(entry(*word))?;
    }
    Ok(Entries::from_vec(items))
}

// The merged entries of two processors.
const TEXT: &[u8] = b"\x01\0\0\0\0\0\0\0\x02\0\0\0\0\0\0\0\x01\x05\0\0\0\0\0\0\
    \x01\0\0\0\0\0\0\0\x02\0\0\0\0\0\0\0\0\x05\0\0\0\0\0\0\
    \x01\0\0\0\0\0\0\0\x02\0\0\0\0\0\0\0\0\x07\0\0\0\0\0\0";

fn merged(alloc: Global, first: &[u64], second: &[u64]) -> Result<Entries, AllocError> {
    let first = list(alloc, first)?;
    let second = list(alloc, second)?;
    merge(alloc, &first, &second)
}

#[test]
fn two_processors_are_merged(rt: HostRuntime) -> Result<(), Fail> {
    let merged = merged(rt.alloc(), &[0x500, 0x700], &[0x501])?;
    let wanted = [entry(0x501), entry(0x500), entry(0x700)];
    assert!(rt; merged.as_slice() == wanted.as_slice());
    let bytes = to_bytes(rt.alloc(), &merged)?;
    assert!(rt; bytes.as_slice() == TEXT);
    let read = entries(rt.alloc(), TEXT)?;
    assert!(rt; read.as_slice() == wanted.as_slice());
    Ok(())
}

/// Entries at the times from `first` up to 84.
fn numbered(alloc: Global, first: u64) -> Result<Entries, AllocError> {
    let mut items = Vec::new(alloc);
    for time in first..85 {
        items.push(entry(256 * time))?;
    }
    Ok(Entries::from_vec(items))
}

// The entries of all but the first four of these 2040 bytes.
fn entries_behind_four(
    rt: &(impl Abort + AllocGlobal),
    appended: &[u8],
) -> Result<Entries, AllocError> {
    assert!(rt; appended.len() == 2040);
    entries(rt.alloc(), &appended[4..])
}

fn assert_entries(rt: &impl Abort, kept: &[Entry], wanted: &[Entry]) {
    assert!(rt; kept.len() == 84 && kept == wanted);
}

#[test]
fn a_ring_keeps_whole_entries(rt: HostRuntime) -> Result<(), Fail> {
    let all = numbered(rt.alloc(), 0)?;
    let appended = to_bytes(rt.alloc(), &all)?;
    let kept = entries_behind_four(&rt, appended.as_slice())?;
    let wanted = numbered(rt.alloc(), 1)?;
    assert_entries(&rt, kept.as_slice(), wanted.as_slice());
    Ok(())
}

const WORDS: &[(u64, u64, u8)] = &[
    (0x501, 5, 1),
    (0xff, 0, 255),
    (0xffffffffffffff03, 0xffffffffffffff, 3),
];

#[test]
fn a_word_is_a_time_and_a_processor(rt: HostRuntime) -> Result<(), Fail> {
    for (word, time, cpu) in WORDS.iter().copied() {
        assert!(rt; (entry(word).time(), entry(word).cpu()) == (time, cpu));
    }
    Ok(())
}
