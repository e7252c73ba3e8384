// A source, a sink and a store in memory, which fail where they are told to.
ghost use Rattle.std.specs.Prelude.{◌≡◌, ◌+◌, ◌-◌, ◌/◌, ◌<◌, ◌≤◌, min, [], ◌++◌, Some, length, take, drop, vec_len};
ghost use Rattle.std.specs.Prelude.{vec_capacity, is_err, IfOk, OnOk, MatchResult};
ghost use Rattle.std.specs.Io.{ReadsAtMost};
ghost use Rattle.std.specs.Io.KnownBytes.{Appends, ReadConsumes};
ghost use Rattle.outside.specs.Bytes.{AreBytes, AreBytes-drop};
ghost use Rattle.outside.specs.Calls.{is_to_fail, counted};
ghost use Rattle.outside.specs.Outside.{next_count, written, AppendsFront, HasCause, Writes, WritesFront};

use crate::calls::CallLog;
use crate::{Bytes, Calls, Failed, Load, Sink, Source, Store};
use std::alloc::{AllocError, Global};

/// A source over bytes in memory.
#[derive(Drop)]
pub struct MemSource {
    bytes: Bytes,
    at: usize,
    piece: u32,
    calls: CallLog,
    ghost inside: { at ≤ length bytes },
    ghost gives: { 1 ≤ piece },
    ghost of_bytes: { AreBytes bytes },
}

impl MemSource {
    ghost use Rattle.outside.specs.Memory.{source_left, source_piece, source_calls};

    /// Gives at most `piece` bytes a call, and fails at the calls named.
    pub fn new(bytes: Bytes, piece: u32, fails: Calls) -> MemSource
        requires { 1 ≤ piece }
        ensures left { source_left result ≡ bytes }
        ensures piece { source_piece result ≡ piece }
        ensures calls { source_calls result ≡ record { fails = fails; made = 0; faults = 0 } }
    {
        MemSource {
            bytes,
            at: 0,
            piece,
            calls: CallLog::new(fails),
        }
    }
}

// Copies as many bytes from `at` on as there are, as fit and as a piece has.
fn copy_piece(from: &[u8], at: usize, into: &mut [u8], piece: usize) -> usize
    requires inside { at ≤ length from.now }
    requires gives { 1 ≤ piece }
    ensures count { result ≡ min (min (length from.now - at) (length into.new)) piece }
    ensures within { at + result ≤ length from.now }
    ensures fits { result ≤ length into.new }
    ensures given { drop at from.now ≡ take result into.new ++ drop (at + result) from.now }
    ensures none { result ≡ 0 → 0 < length into.new → drop at from.now ≡ [] }
{
    let count = (from.len() - at).min(into.len()).min(piece);
    into[..count].copy_from_slice(&from[at..at + count]);
    count
}

impl Source for MemSource {
    ghost use Rattle.outside.specs.Memory.{source_left, source_piece, source_calls};

    ghost left = { λ s. Some (drop s.at s.bytes) };

    ghost faults = { λ s. s.calls.faults };

    ghost left_bytes = { λ s. AreBytes-drop s.at s.bytes s.of_bytes };

    fn take(&mut self, into: &mut [u8]) -> Result<usize, Failed>
        ensures bound { ReadsAtMost result into.new }
        ensures bytes { ReadConsumes (Some (source_left self.old)) (Some (source_left self.new)) result into.new }
        ensures cause { HasCause (source_calls self.old).faults (source_calls self.new).faults result }
        ensures fails { is_err result ≡ is_to_fail (source_calls self.old) }
        ensures counted { source_calls self.new ≡ counted (source_calls self.old) (is_err result) }
        ensures piece { source_piece self.new ≡ source_piece self.old }
        ensures count { IfOk result (λ n. n ≡ min (min (length (source_left self.old)) (length into.old))
            (source_piece self.old)) }
    {
        if self.calls.count_call() {
            return Err(self.calls.count_fault());
        }
        let count = copy_piece(self.bytes.as_slice(), self.at, into, self.piece as usize);
        self.at += count;
        Ok(count)
    }
}

/// A sink that keeps what it is given.
#[derive(Drop)]
pub struct MemSink {
    bytes: Vec<u8>,
    limit: u32,
    calls: CallLog,
    ghost within: { vec_len bytes ≤ limit },
    ghost room: { limit ≤ vec_capacity bytes },
}

impl MemSink {
    ghost use Rattle.outside.specs.Memory.{sink_given, sink_limit, sink_calls};

    /// Takes at most `limit` bytes in all, and fails at the calls named.
    pub fn new(alloc: Global, limit: u32, fails: Calls) -> Result<MemSink, AllocError>
        ensures given { IfOk result (λ s. sink_given s ≡ []) }
        ensures limit { IfOk result (λ s. sink_limit s ≡ limit) }
        ensures calls { IfOk result (λ s. sink_calls s ≡ record { fails = fails; made = 0; faults = 0 }) }
    {
        Ok(MemSink {
            bytes: Vec::with_capacity(alloc, limit as usize)?,
            limit,
            calls: CallLog::new(fails),
        })
    }

    pub fn bytes(&self) -> &[u8]
        ensures { result.now ≡ sink_given self.now }
    {
        &self.bytes
    }
}

impl Sink for MemSink {
    ghost use Rattle.outside.specs.Memory.{sink_given, sink_limit, sink_calls, fails_at, part_written};

    ghost given = { λ s. Some s.bytes.items };

    ghost faults = { λ s. s.calls.faults };

    fn put(&mut self, bytes: &[u8]) -> Result<(), Failed>
        ensures bytes { MatchResult result (λ _. Appends (Some (sink_given self.old)) (Some (sink_given self.new))
            bytes.now)
            (λ _. AppendsFront (Some (sink_given self.old)) (Some (sink_given self.new)) bytes.now) }
        ensures cause { HasCause (sink_calls self.old).faults (sink_calls self.new).faults result }
        ensures fails { is_err result ≡ fails_at (sink_limit self.old)
            (length (sink_given self.old) + length bytes.now) (sink_calls self.old) }
        ensures counted { sink_calls self.new ≡ counted (sink_calls self.old) (is_err result) }
        ensures limit { sink_limit self.new ≡ sink_limit self.old }
        ensures given { sink_given self.new ≡ sink_given self.old ++
            part_written (sink_limit self.old) (length (sink_given self.old) + length bytes.now) (sink_calls self.old)
            bytes.now }
    {
        let fails = self.calls.count_call();
        if bytes.len() > self.limit as usize - self.bytes.len() {
            return Err(self.calls.count_fault());
        }
        if fails {
            let half = &bytes[..bytes.len() / 2];
            self.bytes.extend_from_slice(half).unwrap();
            return Err(self.calls.count_fault());
        }
        self.bytes.extend_from_slice(bytes).unwrap();
        Ok(())
    }
}

/// A store that keeps its bytes in memory.
#[derive(Drop)]
pub struct MemStore {
    bytes: Vec<u8>,
    limit: u32,
    calls: CallLog,
    writes: u64,
    read_faults: u64,
    ghost within: { vec_len bytes ≤ limit },
    ghost room: { limit ≤ vec_capacity bytes },
    ghost of_bytes: { AreBytes bytes.items },
}

impl MemStore {
    ghost use Rattle.outside.specs.Memory.{store_holds, store_limit, store_calls, store_writes, store_read_faults};

    /// Holds at most `limit` bytes, and fails at the calls named.
    pub fn new(bytes: Bytes, limit: u32, fails: Calls) -> Result<MemStore, AllocError>
        requires { length bytes ≤ limit }
        ensures holds { IfOk result (λ s. store_holds s ≡ bytes) }
        ensures limit { IfOk result (λ s. store_limit s ≡ limit) }
        ensures calls { IfOk result (λ s. store_calls s ≡ record { fails = fails; made = 0; faults = 0 }) }
        ensures writes { IfOk result (λ s. store_writes s ≡ 0) }
        ensures read_faults { IfOk result (λ s. store_read_faults s ≡ 0) }
    {
        let mut bytes = bytes.into_vec();
        bytes.reserve_exact(limit as usize - bytes.len())?;
        Ok(MemStore {
            bytes,
            limit,
            calls: CallLog::new(fails),
            writes: 0,
            read_faults: 0,
        })
    }

    pub fn bytes(&self) -> &[u8]
        ensures { result.now ≡ store_holds self.now }
    {
        &self.bytes
    }
}

// Puts bytes in the place of those from `at` on, and after the end where they pass it.
fn overwrite(bytes: &mut Vec<u8>, at: usize, with: &[u8])
    requires inside { at ≤ vec_len bytes.old }
    requires room { at + length with.now ≤ vec_capacity bytes.old }
    ensures after { bytes.new.items ≡ written bytes.old.items at with.now }
    ensures room { vec_capacity bytes.old ≤ vec_capacity bytes.new }
    ensures of_bytes { AreBytes bytes.new.items }
{
    let over = with.len().min(bytes.len() - at);
    bytes[at..at + over].copy_from_slice(&with[..over]);
    bytes.extend_from_slice(&with[over..]).unwrap();
}

impl Load for MemStore {
    ghost use Rattle.outside.specs.Memory.{store_holds, store_limit, store_calls, store_writes, store_read_faults};

    ghost holds = { λ s. Some s.bytes.items };

    ghost faults = { λ s. s.calls.faults };

    ghost writes = { λ s. s.writes };

    ghost read_faults = { λ s. s.read_faults };

    ghost held_bytes = { λ s. s.of_bytes };

    fn size(&mut self) -> Result<u64, Failed>
        ensures bytes { IfOk result (λ n. n ≡ length (store_holds self.old)) }
        ensures same { Some (store_holds self.new) ≡ Some (store_holds self.old) }
        ensures unwritten { store_writes self.new ≡ store_writes self.old }
        ensures cause { HasCause (store_calls self.old).faults (store_calls self.new).faults result }
        ensures read_cause { HasCause (store_read_faults self.old) (store_read_faults self.new) result }
        ensures fails { is_err result ≡ is_to_fail (store_calls self.old) }
        ensures counted { store_calls self.new ≡ counted (store_calls self.old) (is_err result) }
        ensures limit { store_limit self.new ≡ store_limit self.old }
    {
        if self.calls.count_call() {
            self.read_faults = self.read_faults.saturating_add(1);
            return Err(self.calls.count_fault());
        }
        Ok(self.bytes.len() as u64)
    }

    fn read_at(&mut self, at: u64, into: &mut [u8]) -> Result<(), Failed>
        requires { at + length into.old ≤ length (store_holds self.old) }
        ensures bytes { OnOk result (into.new ≡ take (length into.old) (drop at (store_holds self.old))) }
        ensures same { Some (store_holds self.new) ≡ Some (store_holds self.old) }
        ensures unwritten { store_writes self.new ≡ store_writes self.old }
        ensures cause { HasCause (store_calls self.old).faults (store_calls self.new).faults result }
        ensures read_cause { HasCause (store_read_faults self.old) (store_read_faults self.new) result }
        ensures fails { is_err result ≡ is_to_fail (store_calls self.old) }
        ensures counted { store_calls self.new ≡ counted (store_calls self.old) (is_err result) }
        ensures limit { store_limit self.new ≡ store_limit self.old }
    {
        if self.calls.count_call() {
            self.read_faults = self.read_faults.saturating_add(1);
            return Err(self.calls.count_fault());
        }
        let at = at as usize;
        into.copy_from_slice(&self.bytes[at..at + into.len()]);
        Ok(())
    }
}

impl Store for MemStore {
    ghost use Rattle.outside.specs.Memory.{store_holds, store_limit, store_calls, store_writes, store_read_faults};
    ghost use Rattle.outside.specs.Memory.{fails_at, part_written};

    fn write_at(&mut self, at: u64, bytes: &[u8]) -> Result<(), Failed>
        requires { at ≤ length (store_holds self.old) }
        ensures bytes { MatchResult result (λ _. Writes (Some (store_holds self.old)) (Some (store_holds self.new))
            at bytes.now)
            (λ _. WritesFront (Some (store_holds self.old)) (Some (store_holds self.new)) at bytes.now) }
        ensures counted_writes { store_writes self.new ≡ next_count (store_writes self.old) }
        ensures unread { store_read_faults self.new ≡ store_read_faults self.old }
        ensures cause { HasCause (store_calls self.old).faults (store_calls self.new).faults result }
        ensures fails { is_err result ≡ fails_at (store_limit self.old) (at + length bytes.now) (store_calls self.old) }
        ensures counted { store_calls self.new ≡ counted (store_calls self.old) (is_err result) }
        ensures limit { store_limit self.new ≡ store_limit self.old }
        ensures holds { store_holds self.new ≡
            written (store_holds self.old) at
            (part_written (store_limit self.old) (at + length bytes.now) (store_calls self.old) bytes.now) }
    {
        self.writes = self.writes.saturating_add(1);
        let fails = self.calls.count_call();
        let at = at as usize;
        if bytes.len() > self.limit as usize - at {
            return Err(self.calls.count_fault());
        }
        if fails {
            overwrite(&mut self.bytes, at, &bytes[..bytes.len() / 2]);
            return Err(self.calls.count_fault());
        }
        overwrite(&mut self.bytes, at, bytes);
        Ok(())
    }
}
