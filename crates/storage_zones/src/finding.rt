// The storage that the bytes of a file show.
ghost use Rattle.std.specs.Prelude.{◌≡◌, None, IfSome};
ghost use Rattle.psz_spec.specs.Layouts.{size_fault};
ghost use Rattle.storage_spec.specs.Found.{storage_by as storage_with};

use psz_read::{Shown, size_fault};
use psz_spec::Machine;
use storage_spec::Storage;

/// The storage of the sizes that marks show, if a kernel divides a storage by them.
pub fn storage_by(shown: Option<Shown>, machine: Machine) -> Option<Storage>
    ensures shown { result ≡ storage_with shown machine }
    ensures faultless { IfSome result (λ s. size_fault s.sizes ≡ None) }
{
    let shown = shown?;
    if size_fault(&shown.sizes).is_some() {
        return None;
    }
    Some(Storage {
        sizes: shown.sizes,
        machine,
        tied: shown.tied,
    })
}
