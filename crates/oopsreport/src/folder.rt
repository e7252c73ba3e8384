// A folder of the system in which records are saved.
ghost use Rattle.std.specs.Prelude.{None};

use anyhow::{Context, Result, anyhow, bail};
use outside::Failed;
use region_report::Report;
use report_run::{Failure, Records};
use report_tool::{Folder, save};
use std::alloc::Global;
use std::fs::{File, OpenFile};
use std::io::{ErrorKind, Write};
use std::rt::{Files, Runtime};
use std::{fs, io};

/// How many names are tried for a file of its own.
const NAMES: u32 = 100;

/// A folder by its path, and what went wrong last, with the name of the file.
#[derive(Drop)]
struct Dir<R: Files> {
    rt: R,
    alloc: Global,
    path: String,
    faults: u64,
    name: String,
    error: Option<io::Error>,
}

impl<R: Files + Drop> Dir<R> {
    /// The folder is made if it is missing.
    fn new(rt: R, alloc: Global, path: &str) -> io::Result<Dir<R>> {
        fs::create_dir_all(&rt, path)?;
        Ok(Dir {
            rt,
            alloc,
            path: String::from_str(alloc, path)?,
            faults: 0,
            name: String::new(alloc),
            error: None,
        })
    }

    /// Which file was not made, and why.
    fn fault(&self) -> anyhow::Error {
        match &self.error {
            Some(e) => anyhow!("{}/{} was not saved: {e}", self.path, self.name),
            None => anyhow!("{}/{} was not saved", self.path, self.name),
        }
    }
}

// A new file for what is to be written, under a name that no file had: a run that was killed may have left some.
fn own_file<R: Files>(
    rt: &R,
    alloc: Global,
    folder: &str,
    name: &str,
) -> io::Result<(String, R::File)> {
    for number in 0..NAMES {
        let path = format!(in alloc; "{folder}/.{name}.{number}")?;
        match File::create_new(rt, path.as_str()) {
            Ok(file) => return Ok((path, file)),
            Err(e) if e.kind() == ErrorKind::AlreadyExists => (),
            Err(e) => return Err(e),
        }
    }
    Err(io::Error::from(ErrorKind::AlreadyExists))
}

// The whole content, on the disk: a full disk may show as late as that.
fn write_whole<F: Write + OpenFile>(file: &mut F, content: &[u8]) -> io::Result<()> {
    file.write_all(content)?;
    file.sync_all()
}

// What a link answers on a file system without them, as FAT.
fn has_no_links(kind: ErrorKind) -> bool {
    matches!(kind, ErrorKind::PermissionDenied | ErrorKind::Unsupported)
}

// A new file under the record's name, for a file system without links. It goes again if it cannot be written whole.
fn new_file<R: Files>(rt: &R, path: &str, content: &[u8]) -> io::Result<()> {
    let mut file = File::create_new(rt, path)?;
    let written = write_whole(&mut file, content);
    if written.is_err() {
        let _gone = fs::remove_file(rt, path);
    }
    written
}

// A file is written under a name of its own and gets the record's name by a link, once it is whole. A link never takes
// the place of another file. The first name goes in each case; a failure there changes nothing of the record.
fn make_file<R: Files>(
    rt: &R,
    alloc: Global,
    folder: &str,
    name: &str,
    content: &[u8],
) -> io::Result<()> {
    let path = format!(in alloc; "{folder}/{name}")?;
    let (own, mut file) = own_file(rt, alloc, folder, name)?;
    let made = match write_whole(&mut file, content) {
        Ok(()) => fs::hard_link(rt, own.as_str(), path.as_str()),
        Err(e) => Err(e),
    };
    let _left = fs::remove_file(rt, own.as_str());
    match made {
        Err(e) if has_no_links(e.kind()) => new_file(rt, path.as_str(), content),
        made => made,
    }
}

impl<R: Files + Drop> Folder for Dir<R> {
    ghost made = { λ _. None };

    ghost faults = { λ s. s.faults };

    fn make(&mut self, name: &str, content: &[u8]) -> Result<(), Failed> {
        match make_file(&self.rt, self.alloc, self.path.as_str(), name, content) {
            Ok(()) => Ok(()),
            Err(e) => {
                self.name = String::from_str(self.alloc, name).unwrap_or(String::new(self.alloc));
                self.error = Some(e);
                self.faults = self.faults.saturating_add(1);
                Err(Failed)
            }
        }
    }
}

// Makes the files of a report's records, if a folder is named.
fn save_in<R: Runtime>(
    rt: &R,
    alloc: Global,
    folder: &Option<String>,
    report: &Report,
) -> Result<()> {
    let Some(folder) = folder else {
        bail!("no folder is named");
    };
    let mut dir = Dir::new(rt.clone()?, alloc, folder).context(format_args!("{folder}"))?;
    match save(&mut dir, report) {
        Ok(()) => Ok(()),
        Err(_) => Err(dir.fault()),
    }
}

/// The folder that the words name, if they name one. It is made when records are saved.
#[derive(Drop)]
pub struct Named<R: Runtime> {
    rt: R,
    alloc: Global,
    folder: Option<String>,
    faults: u64,
}

impl<R: Runtime> Named<R> {
    pub fn new(rt: R, alloc: Global, folder: Option<String>) -> Named<R> {
        Named {
            rt,
            alloc,
            folder,
            faults: 0,
        }
    }
}

impl<R: Runtime> Records for Named<R> {
    ghost made = { λ _. None };

    ghost faults = { λ s. s.faults };

    fn save(&mut self, report: &Report) -> Result<(), Failure> {
        match save_in(&self.rt, self.alloc, &self.folder, report) {
            Ok(()) => Ok(()),
            Err(error) => {
                let why = format!(in self.alloc; "{error:#}")?;
                self.faults = self.faults.saturating_add(1);
                Err(Failure::Unsaved(why))
            }
        }
    }
}
