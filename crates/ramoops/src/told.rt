// The list that a zone was told.
ghost use Rattle.std.specs.Prelude.{◌≡◌, ◌<◌, ◌≤◌, ◌-◌, [], ◌++◌, length, take, slice_index, IfOk};
ghost use Rattle.circular_buffer.specs.Buffer.{buffer};
ghost use Rattle.zone_spec.specs.Told.{last_items, told_after};
ghost use Rattle.prz_write.specs.Calls.{call_seen};

use circular_buffer::HeapCircularBuffer;
use prz_write::Call;
use std::alloc::{AllocError, Global};
use std::marker::Model;

/// The bytes that a zone was told since its erasure, the oldest first, in a ring of the zone's capacity.
#[derive(Drop)]
pub struct Told {
    ring: HeapCircularBuffer<u8>,
}

impl Model for Told {
    ghost use Rattle.std.specs.Prelude.{ℕ, ◌≤◌, ◌^◌, ◌<◌, length};
    ghost use Rattle.std.specs.Coded.{coded_ℕ};
    ghost use Rattle.circular_buffer.specs.Buffer.{Buffer, buffer_code};

    ghost Value = { Buffer ℕ };

    ghost coded = { buffer_code coded_ℕ };

    ghost view = { λ t. t.ring };

    ghost invariant = { λ t. t.ring.capacity < 2 ^ 32 };
}

impl Told {
    /// Nothing told yet, with room for `cap` bytes.
    pub(crate) fn with_capacity(alloc: Global, cap: u32) -> Result<Told, AllocError>
        ensures { IfOk result (λ told. told ≡ buffer [] cap) }
    {
        let ring = HeapCircularBuffer::with_capacity(alloc, cap as usize)?;
        Ok(Told { ring })
    }

    pub fn len(&self) -> u32
        ensures { result ≡ length self.now.items }
    {
        self.ring.len() as u32
    }

    /// The byte at `i`, counted from 0.
    pub fn at(&self, i: u32) -> u8
        requires { i < length self.now.items }
        ensures { result ≡ slice_index self.now.items i }
    {
        match self.ring.get(i as usize) {
            Some(b) => *b,
            None => unreachable!(),
        }
    }

    /// The ring that holds the list.
    pub fn ring(&self) -> &HeapCircularBuffer<u8>
        ensures { result.now ≡ self.now }
    {
        &self.ring
    }

    /// Of the list and then the payload the last bytes stay that fit. Takes no memory.
    pub(crate) fn append(&mut self, payload: &[u8])
        ensures { self.new ≡ buffer (last_items self.old.capacity (self.old.items ++ payload.now)) self.old.capacity }
    {
        self.ring.extend_from_slice(payload);
    }

    pub(crate) fn clear(&mut self)
        ensures { self.new ≡ buffer [] self.old.capacity }
    {
        self.ring.clear();
    }

    /// Of a line and then of a body the front that fits.
    fn become_dump(&mut self, line: &[u8], body: &[u8])
        requires { length line.now ≤ self.old.capacity }
        ensures { self.new ≡ buffer (line.now ++ take (self.old.capacity - length line.now) body.now)
            self.old.capacity }
    {
        let room = self.ring.capacity() - line.len();
        self.clear();
        self.append(line);
        self.append(&body[..room.min(body.len())]);
    }

    /// What the call means for the list. Takes no memory.
    pub(crate) fn tell(&mut self, call: &Call)
        requires { 36 ≤ self.old.capacity }
        ensures { self.new ≡ buffer (told_after self.old.capacity (call_seen call.now) self.old.items)
            self.old.capacity }
    {
        match call {
            Call::Append(payload) => self.append(payload.as_slice()),
            Call::Erase => self.clear(),
            Call::Dump(line, body) => self.become_dump(line.as_str().as_bytes(), body.as_slice()),
        }
    }
}
