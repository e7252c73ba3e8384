//! The files that paths stand for: of a folder those in it, and, if that is asked for, those in the folders below.
#![tactic(auto)]

mod paths;
mod walk;

ghost use Rattle.std.specs.Prelude.{◌≡◌, ℕ, List, Option, IfOk, IfSome};
ghost use Rattle.std.specs.Option.{option_map};
ghost use Rattle.folder_files.specs.Trees.{texts_of};

use std::alloc::AllocError;
pub use walk::{Files, files_of};

/// What stands at a path.
#[derive(Clone, Copy, Debug, PartialEq, Eq)]
pub enum Kind {
    /// A file, or what cannot be looked at.
    File,
    Folder,
    /// A link to a folder.
    Link,
    /// None of these: a device, a pipe or a socket, or the name of standard input.
    Other,
}

/// Where files stand in folders.
pub trait Folders {
    ghost use Rattle.folder_files.specs.Trees.{Tree};

    // What stands where, if that is told.
    ghost tree: { Self → Option Tree };

    /// What stands at a path.
    fn kind(&mut self, path: &str) -> Kind
        ensures is { IfSome (tree self.old) (λ t. result ≡ t.kind path.now) }
        ensures same { tree self.new ≡ tree self.old };

    /// The names in a folder, in any order; `None` if they cannot be read.
    fn names(&mut self, folder: &str) -> Result<Option<Vec<String>>, AllocError>
        ensures are { IfOk result (λ names. IfSome (tree self.old)
            (λ t. t.names folder.now ≡ option_map texts_of names)) }
        ensures same { tree self.new ≡ tree self.old };
}
