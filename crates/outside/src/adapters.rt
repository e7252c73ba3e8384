// The edge: a reader, a writer and a file of the system, which tell no content.
ghost use Rattle.std.specs.Prelude.{◌≡◌, ◌+◌, ◌<◌, length, IfOk, OnOk, None, MatchResult};
ghost use Rattle.std.specs.Io.{ReadsAtMost};
ghost use Rattle.std.specs.Io.KnownBytes.{Appends, ReadConsumes};
ghost use Rattle.outside.specs.Outside.{HasCause, AppendsFront};
ghost use Rattle.outside.specs.Adapters.{source_reader, reader_faults, sink_writer, writer_faults, load_path};
ghost use Rattle.outside.specs.Adapters.{load_faults, file_path, file_faults, file_writes};

use crate::{Failed, Load, Sink, Source, Store};
use std::alloc::{AllocError, Global};
use std::fs::{File, OpenOptions};
use std::io::{ErrorKind, Read, Seek, SeekFrom, Write};
use std::rt::Files;
use std::{fs, io};

/// A source over a reader, which tells no content. A read that fails is a fault.
#[derive(Drop)]
pub struct ReaderSource<R> {
    reader: R,
    faults: u64,
}

impl<R> ReaderSource<R> {
    pub fn new(reader: R) -> ReaderSource<R>
        ensures reader { source_reader result ≡ reader }
        ensures faults { reader_faults result ≡ 0 }
    {
        ReaderSource { reader, faults: 0 }
    }
}

impl<R: Read> Source for ReaderSource<R> {
    ghost left = { λ _. None };

    ghost faults = { λ s. s.faults };

    ghost left_bytes = { λ _. tt };

    fn take(&mut self, into: &mut [u8]) -> Result<usize, Failed>
        requires { 0 < length into.old }
        ensures bound { ReadsAtMost result into.new }
        ensures bytes { ReadConsumes None None result into.new }
        ensures cause { HasCause (reader_faults self.old) (reader_faults self.new) result }
        ensures reader { ReadConsumes (R.remaining (source_reader self.old)) (R.remaining (source_reader self.new))
            result into.new }
    {
        match self.reader.read(into) {
            Ok(count) => Ok(count),
            Err(_) => {
                self.faults = self.faults.saturating_add(1);
                Err(Failed)
            }
        }
    }
}

/// A sink over a writer, which tells no content. A write that fails is a fault, and so is one that takes nothing of a
/// piece that is not empty.
#[derive(Drop)]
pub struct WriterSink<W> {
    writer: W,
    faults: u64,
}

impl<W> WriterSink<W> {
    pub fn new(writer: W) -> WriterSink<W>
        ensures writer { sink_writer result ≡ writer }
        ensures faults { writer_faults result ≡ 0 }
    {
        WriterSink { writer, faults: 0 }
    }
}

impl<W: Write> Sink for WriterSink<W> {
    ghost given = { λ _. None };

    ghost faults = { λ s. s.faults };

    fn put(&mut self, bytes: &[u8]) -> Result<(), Failed>
        ensures bytes { MatchResult result (λ _. Appends None None bytes.now) (λ _. AppendsFront None None bytes.now) }
        ensures cause { HasCause (writer_faults self.old) (writer_faults self.new) result }
        ensures writer { OnOk result (Appends (W.contents (sink_writer self.old)) (W.contents (sink_writer self.new))
            bytes.now) }
    {
        match self.writer.write_all(bytes) {
            Ok(()) => Ok(()),
            Err(_) => {
                self.faults = self.faults.saturating_add(1);
                Err(Failed)
            }
        }
    }
}

/// A file that is only read, and tells no content. A missing file has no bytes. It is opened at the first read, and
/// stays open.
#[derive(Drop)]
pub struct FileLoad<R: Files> {
    rt: R,
    path: String,
    reader: Option<R::File>,
    faults: u64,
}

impl<R: Files + Clone + Drop> FileLoad<R> {
    /// Opens nothing yet.
    pub fn new(rt: &R, alloc: Global, path: &str) -> Result<FileLoad<R>, AllocError>
        ensures path { IfOk result (λ s. load_path s ≡ path.now) }
        ensures faults { IfOk result (λ s. load_faults s ≡ 0) }
    {
        Ok(FileLoad {
            rt: rt.clone()?,
            path: String::from_str(alloc, path)?,
            reader: None,
            faults: 0,
        })
    }
}

/// A store over a file, which tells no content. A missing file has no bytes, and the first write makes it. The file is
/// opened to read at the first read and to write at the first write, and stays open.
#[derive(Drop)]
pub struct FileStore<R: Files> {
    file: FileLoad<R>,
    writer: Option<R::File>,
    writes: u64,
    write_faults: u64,
}

impl<R: Files + Clone + Drop> FileStore<R> {
    /// Opens nothing yet.
    pub fn new(rt: &R, alloc: Global, path: &str) -> Result<FileStore<R>, AllocError>
        ensures path { IfOk result (λ s. file_path s ≡ path.now) }
        ensures faults { IfOk result (λ s. file_faults s ≡ 0) }
        ensures writes { IfOk result (λ s. file_writes s ≡ 0) }
    {
        Ok(FileStore {
            file: FileLoad::new(rt, alloc, path)?,
            writer: None,
            writes: 0,
            write_faults: 0,
        })
    }
}

// The length of a file, and 0 where there is none.
fn file_size<R: Files>(rt: &R, path: &str) -> io::Result<u64> {
    match fs::metadata(rt, path) {
        Ok(metadata) => Ok(metadata.len()),
        Err(e) if e.kind() == ErrorKind::NotFound => Ok(0),
        Err(e) => Err(e),
    }
}

fn read_from<F: Read + Seek>(file: &mut F, at: u64, into: &mut [u8]) -> io::Result<()> {
    file.seek(SeekFrom::Start(at))?;
    file.read_exact(into)
}

// Reads from the file that was opened before, or opens it.
fn read_file<R: Files>(
    rt: &R,
    path: &str,
    reader: &mut Option<R::File>,
    at: u64,
    into: &mut [u8],
) -> io::Result<()> {
    let mut file = match reader.take() {
        Some(file) => file,
        None => File::open(rt, path)?,
    };
    let read = read_from(&mut file, at, into);
    *reader = Some(file);
    read
}

fn write_to<F: Write + Seek>(file: &mut F, at: u64, bytes: &[u8]) -> io::Result<()> {
    file.seek(SeekFrom::Start(at))?;
    file.write_all(bytes)
}

// Writes to the file that was opened before, or opens it.
fn write_file<R: Files>(
    rt: &R,
    path: &str,
    writer: &mut Option<R::File>,
    at: u64,
    bytes: &[u8],
) -> io::Result<()> {
    let mut file = match writer.take() {
        Some(file) => file,
        None => OpenOptions::new().write(true).create(true).open(rt, path)?,
    };
    let written = write_to(&mut file, at, bytes);
    *writer = Some(file);
    written
}

impl<R: Files + Clone + Drop> Load for FileLoad<R> {
    ghost holds = { λ _. None };

    ghost faults = { λ s. s.faults };

    ghost writes = { λ _. 0 };

    ghost read_faults = { λ s. s.faults };

    ghost held_bytes = { λ _. tt };

    fn size(&mut self) -> Result<u64, Failed> {
        match file_size(&self.rt, self.path.as_str()) {
            Ok(size) => Ok(size),
            Err(_) => {
                self.faults = self.faults.saturating_add(1);
                Err(Failed)
            }
        }
    }

    fn read_at(&mut self, at: u64, into: &mut [u8]) -> Result<(), Failed> {
        match read_file(&self.rt, self.path.as_str(), &mut self.reader, at, into) {
            Ok(()) => Ok(()),
            Err(_) => {
                self.faults = self.faults.saturating_add(1);
                Err(Failed)
            }
        }
    }
}

impl<R: Files + Clone + Drop> Load for FileStore<R> {
    ghost holds = { λ _. None };

    ghost faults = { λ s. s.file.faults + s.write_faults };

    ghost writes = { λ s. s.writes };

    ghost read_faults = { λ s. s.file.faults };

    ghost held_bytes = { λ _. tt };

    fn size(&mut self) -> Result<u64, Failed> {
        self.file.size()
    }

    fn read_at(&mut self, at: u64, into: &mut [u8]) -> Result<(), Failed> {
        self.file.read_at(at, into)
    }
}

impl<R: Files + Clone + Drop> Store for FileStore<R> {
    fn write_at(&mut self, at: u64, bytes: &[u8]) -> Result<(), Failed> {
        self.writes = self.writes.saturating_add(1);
        let path = self.file.path.as_str();
        match write_file(&self.file.rt, path, &mut self.writer, at, bytes) {
            Ok(()) => Ok(()),
            Err(_) => {
                self.write_faults = self.write_faults.saturating_add(1);
                Err(Failed)
            }
        }
    }
}
