// The system's folders.
ghost use Rattle.std.specs.Prelude.{None};

use folder_files::{Folders, Kind};
use std::alloc::{AllocError, Global};
use std::fs;
use std::io::{self, ErrorKind};
use std::rt::Runtime;

/// What stands at paths of the system, where `-` is standard input. It tells no content.
#[derive(Drop)]
pub struct Tree<R: Runtime> {
    rt: R,
    alloc: Global,
}

impl<R: Runtime> Tree<R> {
    pub fn new(rt: R, alloc: Global) -> Tree<R> {
        Tree { rt, alloc }
    }
}

// What a link leads to.
fn linked<R: Runtime>(rt: &R, path: &str) -> Kind {
    match fs::metadata(rt, path) {
        Ok(metadata) if metadata.is_dir() => Kind::Link,
        Ok(metadata) if !metadata.is_file() => Kind::Other,
        _ => Kind::File,
    }
}

/// Stands for a name that is not UTF-8. There is mostly no such file, so that opening it tells of it.
const NO_NAME: &str = "\u{fffd}";

// The names in a folder.
fn names_in<R: Runtime>(rt: &R, alloc: Global, folder: &str) -> io::Result<Vec<String>> {
    let mut names = Vec::new(alloc);
    for entry in fs::read_dir(rt, folder)? {
        let name = match entry {
            Ok(entry) => String::from_str(alloc, entry.file_name())?,
            Err(e) if e.kind() == ErrorKind::InvalidFilename => String::from_str(alloc, NO_NAME)?,
            Err(e) => return Err(e),
        };
        names.push(name)?;
    }
    Ok(names)
}

impl<R: Runtime> Folders for Tree<R> {
    ghost tree = { λ _. None };

    fn kind(&mut self, path: &str) -> Kind {
        if path == "-" {
            return Kind::Other;
        }
        match fs::symlink_metadata(&self.rt, path) {
            Ok(metadata) if metadata.is_symlink() => linked(&self.rt, path),
            Ok(metadata) if metadata.is_dir() => Kind::Folder,
            Ok(metadata) if !metadata.is_file() => Kind::Other,
            _ => Kind::File,
        }
    }

    fn names(&mut self, folder: &str) -> Result<Option<Vec<String>>, AllocError> {
        match names_in(&self.rt, self.alloc, folder) {
            Ok(names) => Ok(Some(names)),
            Err(e) if e.kind() == ErrorKind::OutOfMemory => Err(AllocError),
            Err(_) => Ok(None),
        }
    }
}
