// A script in memory, for one run.
ghost use Rattle.std.specs.Prelude.{◌≡◌, ◌+◌, ◌-◌, ◌<◌, ◌≤◌, min, [], ◌++◌, Some, length, take, drop};
ghost use Rattle.outside.specs.Bytes.{AreBytes, AreBytes-drop};

use outside::{Bytes, Failed, Source};

/// The bytes of a script. It never fails.
#[derive(Drop)]
pub struct Script {
    bytes: Bytes,
    at: usize,
    ghost inside: { at ≤ length bytes },
    ghost of_bytes: { AreBytes bytes },
}

impl Script {
    ghost use Rattle.oopsbox_c.specs.Memory.{script_left};

    pub fn new(bytes: Bytes) -> Script
        ensures { script_left result ≡ bytes }
    {
        let _len = bytes.len();
        Script { bytes, at: 0 }
    }
}

// Copies as many bytes from `at` on as there are and as fit.
fn copy_piece(from: &[u8], at: usize, into: &mut [u8]) -> usize
    requires inside { at ≤ length from.now }
    ensures count { result ≡ min (length from.now - at) (length into.new) }
    ensures within { at + result ≤ length from.now }
    ensures fits { result ≤ length into.new }
    ensures given { drop at from.now ≡ take result into.new ++ drop (at + result) from.now }
    ensures none { result ≡ 0 → 0 < length into.new → drop at from.now ≡ [] }
{
    let count = (from.len() - at).min(into.len());
    into[..count].copy_from_slice(&from[at..at + count]);
    count
}

impl Source for Script {
    ghost left = { λ s. Some (drop s.at s.bytes) };

    ghost faults = { λ _. 0 };

    ghost left_bytes = { λ s. AreBytes-drop s.at s.bytes s.of_bytes };

    fn take(&mut self, into: &mut [u8]) -> Result<usize, Failed> {
        let count = copy_piece(self.bytes.as_slice(), self.at, into);
        self.at += count;
        Ok(count)
    }
}
