// Lists of bytes.
ghost use Rattle.std.specs.Prelude.{◌≡◌, ℕ, ◌<◌, List, [], ◌++◌, length, slice_set, IfOk, OnOk, OnErr};
ghost use Rattle.outside.specs.Bytes.{AreBytes};

use std::alloc::{AllocError, Global};
use std::marker::Model;

/// A list of bytes, such as an image, a payload or a log.
#[derive(Drop)]
pub struct Bytes {
    items: Vec<u8>,
}

impl Model for Bytes {
    ghost Value = { List ℕ };

    ghost view = { λ b. b.items.items };

    ghost invariant = { λ b. AreBytes b.items.items };
}

impl Bytes {
    /// Takes no memory.
    pub fn empty(alloc: Global) -> Bytes
        ensures { result ≡ [] }
    {
        Bytes {
            items: Vec::new(alloc),
        }
    }

    pub fn copy_of(alloc: Global, from: &[u8]) -> Result<Bytes, AllocError>
        ensures { IfOk result (λ b. b ≡ from.now) }
    {
        Ok(Bytes {
            items: Vec::from_slice(alloc, from)?,
        })
    }

    pub fn from_vec(v: Vec<u8>) -> Bytes
        ensures { result ≡ v.items }
    {
        Bytes { items: v }
    }

    pub fn into_vec(self) -> Vec<u8>
        ensures { result.items ≡ self }
    {
        self.items
    }

    pub fn as_slice(&self) -> &[u8]
        ensures { result.now ≡ self.now }
    {
        &self.items
    }

    /// The number of bytes.
    pub fn len(&self) -> usize
        ensures len { result ≡ length self.now }
        ensures bytes { AreBytes self.now }
    {
        self.items.len()
    }

    pub fn append(&mut self, more: &[u8]) -> Result<(), AllocError>
        ensures ok { OnOk result (self.new ≡ self.old ++ more.now) }
        ensures err { OnErr result (self.new ≡ self.old) }
    {
        self.items.extend_from_slice(more)
    }

    /// Changes the byte at `at`, counted from 0.
    pub fn set(&mut self, at: u32, b: u8)
        requires { at < length self.old }
        ensures { self.new ≡ slice_set self.old at b }
    {
        self.items[at as usize] = b;
    }
}
