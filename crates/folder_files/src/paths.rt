// Names and paths in a folder.
ghost use Rattle.std.specs.Prelude.{◌≡◌, string_bytes, IfOk};
ghost use Rattle.folder_files.specs.Trees.{is_shown, path_in};

use std::alloc::{AllocError, Global};

/// Whether a name is not hidden.
pub fn is_shown(name: &str) -> bool
    ensures { result ≡ is_shown name.now }
{
    !name.as_bytes().starts_with(b".")
}

/// The path of a name in a folder.
pub fn path_in(alloc: Global, folder: &str, name: &str) -> Result<String, AllocError>
    ensures { IfOk result (λ path. string_bytes path ≡ path_in folder.now name.now) }
{
    let mut path = String::from_str(alloc, folder)?;
    if !folder.as_bytes().ends_with(b"/") {
        path.push_str("/")?;
    }
    path.push_str(name)?;
    Ok(path)
}
