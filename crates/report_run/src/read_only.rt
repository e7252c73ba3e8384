// Bytes in memory, of which no reading fails.
ghost use Rattle.std.specs.Prelude.{◌≡◌, Some};
ghost use Rattle.outside.specs.Bytes.{AreBytes};

use outside::{Failed, Load};

/// Bytes in memory that are read and not written.
#[derive(Drop)]
pub struct ReadOnly {
    bytes: Vec<u8>,
    ghost of_bytes: { AreBytes bytes.items },
}

impl ReadOnly {
    ghost use Rattle.report_run.specs.ReadOnly.{bytes_of};

    pub fn new(bytes: Vec<u8>) -> ReadOnly
        ensures { bytes_of result ≡ bytes.items }
    {
        ReadOnly { bytes }
    }
}

impl Load for ReadOnly {
    ghost holds = { λ s. Some s.bytes.items };

    ghost faults = { λ _. 0 };

    ghost writes = { λ _. 0 };

    ghost read_faults = { λ _. 0 };

    ghost held_bytes = { λ s. s.of_bytes };

    fn size(&mut self) -> Result<u64, Failed> {
        Ok(self.bytes.len() as u64)
    }

    fn read_at(&mut self, at: u64, into: &mut [u8]) -> Result<(), Failed> {
        let at = at as usize;
        into.copy_from_slice(&self.bytes[at..at + into.len()]);
        Ok(())
    }
}
