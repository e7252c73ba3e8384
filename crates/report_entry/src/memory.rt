// An image and a text in memory, for one call. Both grow as far as there is memory.
ghost use Rattle.std.specs.Prelude.{◌≡◌, ◌+◌, ◌-◌, ◌<◌, ◌≤◌, [], ◌++◌, Some, length, string_bytes, vec_len};
ghost use Rattle.std.specs.Prelude.{vec_capacity};
ghost use Rattle.outside.specs.Bytes.{AreBytes};
ghost use Rattle.outside.specs.Outside.{written};

use outside::{Bytes, Failed, Load, Sink, Store};
use std::alloc::Global;

/// The bytes of an image. It fails only where memory is refused.
#[derive(Drop)]
pub struct Image {
    bytes: Vec<u8>,
    faults: u64,
    writes: u64,
    ghost of_bytes: { AreBytes bytes.items },
}

impl Image {
    ghost use Rattle.report_entry.specs.Memory.{image_bytes, image_faults, image_writes};

    pub fn new(bytes: Bytes) -> Image
        ensures bytes { image_bytes result ≡ bytes }
        ensures faults { image_faults result ≡ 0 }
        ensures writes { image_writes result ≡ 0 }
    {
        Image {
            bytes: bytes.into_vec(),
            faults: 0,
            writes: 0,
        }
    }

    pub fn bytes(&self) -> &[u8]
        ensures { result.now ≡ image_bytes self.now }
    {
        &self.bytes
    }
}

// Puts bytes in the place of those from `at` on, and after the end where they pass it.
fn overwrite(bytes: &mut Vec<u8>, at: usize, with: &[u8])
    requires inside { at ≤ vec_len bytes.old }
    requires room { at + length with.now ≤ vec_capacity bytes.old }
    ensures after { bytes.new.items ≡ written bytes.old.items at with.now }
    ensures of_bytes { AreBytes bytes.new.items }
{
    let over = with.len().min(bytes.len() - at);
    bytes[at..at + over].copy_from_slice(&with[..over]);
    bytes.extend_from_slice(&with[over..]).unwrap();
}

impl Load for Image {
    ghost holds = { λ s. Some s.bytes.items };

    ghost faults = { λ s. s.faults };

    ghost writes = { λ s. s.writes };

    ghost read_faults = { λ _. 0 };

    ghost held_bytes = { λ s. s.of_bytes };

    fn size(&mut self) -> Result<u64, Failed> {
        Ok(self.bytes.len() as u64)
    }

    fn read_at(&mut self, at: u64, into: &mut [u8]) -> Result<(), Failed> {
        let at = at as usize;
        into.copy_from_slice(&self.bytes[at..at + into.len()]);
        Ok(())
    }
}

impl Store for Image {
    fn write_at(&mut self, at: u64, bytes: &[u8]) -> Result<(), Failed> {
        self.writes = self.writes.saturating_add(1);
        let at = at as usize;
        let over = bytes.len().min(self.bytes.len() - at);
        if self.bytes.reserve(bytes.len() - over).is_err() {
            self.faults = self.faults.saturating_add(1);
            return Err(Failed);
        }
        overwrite(&mut self.bytes, at, bytes);
        Ok(())
    }
}

/// The bytes of a text. It fails only where memory is refused.
#[derive(Drop)]
pub struct Text {
    bytes: Vec<u8>,
    faults: u64,
}

impl Text {
    ghost use Rattle.report_entry.specs.Memory.{text_bytes, text_faults};

    /// Takes no memory.
    pub fn new(alloc: Global) -> Text
        ensures bytes { text_bytes result ≡ [] }
        ensures faults { text_faults result ≡ 0 }
    {
        Text {
            bytes: Vec::new(alloc),
            faults: 0,
        }
    }

    /// A text that begins with these words.
    pub fn of(words: String) -> Text
        ensures bytes { text_bytes result ≡ string_bytes words }
        ensures faults { text_faults result ≡ 0 }
    {
        Text {
            bytes: words.into_bytes(),
            faults: 0,
        }
    }

    pub fn bytes(&self) -> &[u8]
        ensures { result.now ≡ text_bytes self.now }
    {
        &self.bytes
    }
}

impl Sink for Text {
    ghost given = { λ s. Some s.bytes.items };

    ghost faults = { λ s. s.faults };

    fn put(&mut self, bytes: &[u8]) -> Result<(), Failed> {
        if self.bytes.extend_from_slice(bytes).is_err() {
            self.faults = self.faults.saturating_add(1);
            return Err(Failed);
        }
        Ok(())
    }
}
