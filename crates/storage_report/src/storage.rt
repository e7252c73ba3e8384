// A storage with its bytes.
ghost use Rattle.std.specs.Prelude.{◌≡◌, None, string_bytes, IfOk};
ghost use Rattle.psz_spec.specs.Layouts.{size_fault};
ghost use Rattle.storage_spec.specs.Told.{storage_lines as lines_by};

use command_spec::Stop;
use psz_spec::SizeFault;
use std::alloc::{AllocError, Global};
use storage_spec::Storage;
use storage_zones::storage_lines;

/// Why it is not known whether an image is a storage, or why it is none of the sizes that are given.
#[derive(Clone, Copy, Debug, PartialEq, Eq)]
pub enum NoStorage {
    /// It was not read.
    Stopped(Stop),
    /// No kernel divides it by these sizes.
    Undivided(SizeFault),
}

impl From<Stop> for NoStorage {
    ghost use Rattle.storage_report.specs.declared.storage.NoStorage.TheVariants.{Stopped};

    ghost from_gives = { λ stop e. e ≡ Stopped stop };

    fn from(stop: Stop) -> NoStorage {
        NoStorage::Stopped(stop)
    }
}

impl From<AllocError> for NoStorage {
    ghost use Rattle.command_spec.specs.declared.Stop.TheVariants.{Memory};
    ghost use Rattle.storage_report.specs.declared.storage.NoStorage.TheVariants.{Stopped};

    ghost from_gives = { λ _ e. e ≡ Stopped Memory };

    fn from(_: AllocError) -> NoStorage {
        NoStorage::Stopped(Stop::Memory)
    }
}

/// A storage, and the bytes that its report needs: each zone's front and the logs of the listed records. The others
/// are 0.
#[derive(Drop)]
pub struct HeldStorage {
    pub(crate) storage: Storage,
    pub(crate) bytes: Vec<u8>,
    ghost faultless: { size_fault storage.sizes ≡ None },
}

impl HeldStorage {
    /// The lines on it under this name: its sizes, whether others show the same, whether it has oopses alone, and the
    /// zones at which the kernel's own listing fails.
    pub fn lines(&self, alloc: Global, name: &str) -> Result<String, AllocError>
        ensures { IfOk result (λ text. string_bytes text ≡ lines_by name.now self.now.storage self.now.bytes.items) }
    {
        storage_lines(alloc, name, &self.storage, &self.bytes)
    }
}
