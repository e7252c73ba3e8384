//! The message log of a kernel, and the body that a crash dump is made of: pstore's first part of a crash
//! (`fs/pstore/platform.c`, `pstore_dump`).
#![tactic(auto)]

ghost use Rattle.std.specs.Prelude.{◌≡◌, ◌+◌, ◌-◌, ◌<◌, ◌≤◌, nat_le, true, false, ℕ, List, [], ◌∷◌, ◌++◌, length, drop};
ghost use Rattle.std.specs.Prelude.{Some, IfOk};
ghost use Rattle.circular_buffer.specs.Buffer.{buffer};
ghost use Rattle.memchr.specs.Find.{IsFirst, Passes, is_byte};
ghost use Rattle.kmsg_spec.specs.Bodies.{newline, bytes_of, heading, last_lines, body as body_of};
ghost use Rattle.kmsg_dump.specs.Kept.{IsLine, Keeps, LastLinesFit};
ghost use Rattle.kmsg_dump.specs.Starts.{IsFirstStart};

use arrayvec::ArrayString;
use circular_buffer::HeapCircularBuffer;
use itoa::Buffer;
pub use kmsg_spec::Reason;
use memchr::memchr;
use outside::Bytes;
use std::alloc::{AllocError, Global};
use std::marker::Model;

/// The last whole lines that a kernel logged, as many as fit in its limit, each with its newline.
#[derive(Drop)]
pub struct KLog {
    alloc: Global,
    ring: HeapCircularBuffer<u8>,
}

impl Model for KLog {
    ghost use Rattle.std.specs.Prelude.{ℕ, ◌≤◌, ◌^◌};
    ghost use Rattle.std.specs.Coded.{coded_ℕ};
    ghost use Rattle.circular_buffer.specs.Buffer.{Buffer, buffer_code};

    ghost Value = { Buffer ℕ };

    ghost coded = { buffer_code coded_ℕ };

    ghost view = { λ log. log.ring };

    ghost invariant = { λ log. log.ring.capacity ≤ 1048576 };
}

// The first newline from a place on, in bytes that lie in two pieces.
fn newline_from(front: &[u8], back: &[u8], from: usize) -> Option<usize>
    requires { from ≤ length front.now + length back.now }
    ensures { IsFirst (Passes (is_byte newline) (front.now ++ back.now)) from (length (front.now ++ back.now)) result }
{
    if from < front.len() {
        match memchr(b'\n', &front[from..]) {
            Some(i) => Some(from + i),
            None => match memchr(b'\n', back) {
                Some(i) => Some(front.len() + i),
                None => None,
            },
        }
    } else {
        match memchr(b'\n', &back[from - front.len()..]) {
            Some(i) => Some(from + i),
            None => None,
        }
    }
}

// The first start of a line from a place on.
fn start_from(front: &[u8], back: &[u8], from: usize) -> usize
    requires { from ≤ length front.now + length back.now }
    ensures { IsFirstStart (front.now ++ back.now) from result }
{
    if from == 0 {
        return 0;
    }
    match newline_from(front, back, from - 1) {
        Some(i) => i + 1,
        None => front.len() + back.len(),
    }
}

// The bytes from a place on, of bytes that lie in two pieces.
fn tail<'a>(front: &'a [u8], back: &'a [u8], from: usize) -> (&'a [u8], &'a [u8])
    requires { from ≤ length front.now + length back.now }
    ensures { result.0.now ++ result.1.now ≡ drop from (front.now ++ back.now) }
{
    if from < front.len() {
        (&front[from..], back)
    } else {
        (&[], &back[from - front.len()..])
    }
}

fn heading_of(reason: Reason, count: u32) -> ArrayString<32>
    ensures { result.bytes ≡ heading reason count }
{
    let mut digits = Buffer::new();
    let mut text = ArrayString::new();
    text.push_str(match reason {
        Reason::Panic => "Panic",
        Reason::Oops => "Oops",
        Reason::Emergency => "Emergency",
        Reason::Shutdown => "Shutdown",
    });
    text.push_str("#");
    text.push_str(digits.format(count));
    text.push_str(" Part1\n");
    text
}

impl KLog {
    /// An empty log of at most `limit` bytes, from 256 to 1,048,576. All its memory is taken here.
    pub fn new(alloc: Global, limit: u32) -> Result<KLog, AllocError>
        requires some { 256 ≤ limit }
        requires few { limit ≤ 1048576 }
        ensures empty { IfOk result (λ log. log ≡ buffer [] limit) }
        ensures kept { IfOk result (λ log. Keeps log []) }
    {
        let ring = HeapCircularBuffer::with_capacity(alloc, limit as usize)?;
        Ok(KLog { alloc, ring })
    }

    // The first start of a line from a place on.
    fn start_from(&self, from: usize) -> usize
        requires { from ≤ length self.now.items }
        ensures { IsFirstStart self.now.items from result }
    {
        let (front, back) = self.ring.as_slices();
        start_from(front, back, from)
    }

    // Drops the oldest lines, so that so many bytes more fit.
    fn make_room(&mut self, size: usize)
        requires { size ≤ self.old.capacity }
        ensures kept { (given : List (List ℕ)) → Keeps self.old given
            → (self.new ≡ buffer (bytes_of (last_lines (self.old.capacity - size) given)) self.old.capacity) }
        ensures limit { self.new.capacity ≡ self.old.capacity }
    {
        let len = self.ring.len();
        let spare = self.ring.capacity() - len;
        if size > spare {
            let start = self.start_from(size - spare);
            self.ring.truncate_front(len - start);
        }
    }

    /// Adds a line, given without its newline. The oldest lines go where they are in its way. It answers false, and
    /// changes nothing, for a line that does not fit in the limit with its newline. Takes no memory.
    pub fn push(&mut self, text: &[u8]) -> bool
        requires { IsLine text.now }
        ensures answer { result ≡ nat_le (length text.now + 1) self.old.capacity }
        ensures kept { result ≡ true → (given : List (List ℕ)) → Keeps self.old given
            → Keeps self.new (given ++ text.now ∷ []) }
        ensures refused { result ≡ false → self.new ≡ self.old }
        ensures limit { self.new.capacity ≡ self.old.capacity }
    {
        let size = text.len() + 1;
        if size > self.ring.capacity() {
            return false;
        }
        self.make_room(size);
        self.ring.extend_from_slice(text);
        self.ring.extend_from_slice(b"\n");
        true
    }

    /// The body of crash number `count` in a room of so many bytes: a heading, and the last lines that fit after it.
    pub fn body(&self, reason: Reason, count: u32, room: u32) -> Result<Bytes, AllocError>
        ensures { (given : List (List ℕ)) → Keeps self.now given → IfOk result (λ bytes. bytes
            ≡ body_of reason count room (last_lines self.now.capacity given)) }
    {
        let text = heading_of(reason, count);
        let head = text.as_bytes();
        let room = room as usize;
        if head.len() > room {
            return Bytes::copy_of(self.alloc, &head[..room]);
        }
        let len = self.ring.len();
        let start = self.start_from(len - len.min(room - head.len()));
        let (front, back) = self.ring.as_slices();
        let (front, back) = tail(front, back, start);
        let mut bytes = Vec::with_capacity(self.alloc, head.len() + front.len() + back.len())?;
        bytes.extend_from_slice(head)?;
        bytes.extend_from_slice(front)?;
        bytes.extend_from_slice(back)?;
        Ok(Bytes::from_vec(bytes))
    }
}

/// The last lines of the definition are the longest suffix that fits.
pub fn last_lines_fit()
    ensures { LastLinesFit }
{}
