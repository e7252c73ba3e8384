// The files of folders.
ghost use Rattle.std.specs.Prelude.{None};

use folder_files::*;
use std::alloc::{AllocError, Global};
use std::test::Fail;

// A folder `d` with files, a link, a socket, a hidden name, a folder that holds one file, and one that cannot be read.
#[derive(Drop)]
struct Shelf {
    alloc: Global,
}

impl Folders for Shelf {
    ghost tree = { λ _. None };

    fn kind(&mut self, path: &str) -> Kind {
        match path {
            "d" | "d/sub" | "d/shut" => Kind::Folder,
            "d/link" | "d/sub/link" => Kind::Link,
            "d/socket" | "-" => Kind::Other,
            _ => Kind::File,
        }
    }

    fn names(&mut self, folder: &str) -> Result<Option<Vec<String>>, AllocError> {
        let mut names = Vec::new(self.alloc);
        let held: &[&str] = match folder {
            "d" => &["z", "sub", ".hidden", "link", "socket", "shut", "a"],
            "d/sub" => &["x", "link"],
            _ => return Ok(None),
        };
        for name in held {
            names.push(String::from_str(self.alloc, name)?)?;
        }
        Ok(Some(names))
    }
}

fn found(alloc: Global, named: &[&str], all: bool) -> Result<Files, Fail> {
    let mut paths = Vec::new(alloc);
    for name in named {
        paths.push(String::from_str(alloc, name)?)?;
    }
    let files = files_of(alloc, &paths, all, &mut Shelf { alloc })?;
    Ok(files)
}

fn are(files: &Files, paths: &[&str]) -> bool {
    files.paths.len() == paths.len()
        && files
            .paths
            .iter()
            .zip(paths)
            .all(|(file, path)| file.as_str() == *path)
}

#[test]
fn files_of_folders(rt: HostRuntime) -> Result<(), Fail> {
    let files = found(rt.alloc(), &["-", "d"], false)?;
    assert!(rt; are(&files, &["-", "d/a", "d/z"]) && files.has_folder);
    let files = found(rt.alloc(), &["d"], true)?;
    assert!(rt; are(&files, &["d/a", "d/shut", "d/sub/x", "d/z"]));
    let files = found(rt.alloc(), &["f", "d/a"], true)?;
    assert!(rt; are(&files, &["f", "d/a"]) && !files.has_folder);
    Ok(())
}
