// Images as the system has them: a file, or what comes one byte after the other.
ghost use Rattle.std.specs.Prelude.{None};

use crate::unpacking::{FRONT, MOST_PACKED, is_packed, packing_of, unpacked};
use anyhow::{Result, bail};
use outside::{Failed, FileLoad, Load};
use report_run::{Failure, Images, Wanted};
use std::alloc::Global;
use std::fs;
use std::io::{self, ErrorKind, Read, Seek, SeekFrom};
use std::rt::Runtime;

/// How many bytes are asked for at a time.
const PIECE: usize = 65_536;

/// The end of a device that does not tell it: no place is greater.
const NO_END: u64 = 0x7fff_ffff_ffff_ffff;

/// What an image is read from.
#[derive(Drop)]
enum Kind<R: Runtime> {
    File(FileLoad<R>),
    /// A device that is read at places, such as a disk's partition or `/dev/mem`, and how many bytes of it may be read.
    Device(R::File, u64),
    /// Of standard input or another device its front, of a compressed file all that it stands for.
    Front(Vec<u8>),
}

/// An image, opened. It tells no content.
#[derive(Drop)]
pub struct Image<R: Runtime> {
    kind: Kind<R>,
    faults: u64,
}

// Copies the bytes from a place on.
fn copy_from(bytes: &[u8], at: u64, into: &mut [u8]) -> Result<(), Failed> {
    let Ok(at) = usize::try_from(at) else {
        return Err(Failed);
    };
    let Some(end) = at.checked_add(into.len()) else {
        return Err(Failed);
    };
    match bytes.get(at..end) {
        Some(part) => {
            into.copy_from_slice(part);
            Ok(())
        }
        None => Err(Failed),
    }
}

fn read_from<F: Read + Seek>(file: &mut F, at: u64, into: &mut [u8]) -> Result<(), Failed> {
    if file.seek(SeekFrom::Start(at)).is_ok() && file.read_exact(into).is_ok() {
        Ok(())
    } else {
        Err(Failed)
    }
}

impl<R: Runtime> Load for Image<R> {
    ghost holds = { λ _. None };

    ghost faults = { λ s. s.faults };

    ghost writes = { λ _. 0 };

    ghost read_faults = { λ s. s.faults };

    ghost held_bytes = { λ _. tt };

    fn size(&mut self) -> Result<u64, Failed> {
        let size = match &mut self.kind {
            Kind::File(file) => file.size(),
            Kind::Device(_, size) => Ok(*size),
            Kind::Front(bytes) => Ok(bytes.len() as u64),
        };
        if size.is_err() {
            self.faults = self.faults.saturating_add(1);
        }
        size
    }

    fn read_at(&mut self, at: u64, into: &mut [u8]) -> Result<(), Failed> {
        let read = match &mut self.kind {
            Kind::File(file) => file.read_at(at, into),
            Kind::Device(file, _) => read_from(file, at, into),
            Kind::Front(bytes) => copy_from(bytes, at, into),
        };
        if read.is_err() {
            self.faults = self.faults.saturating_add(1);
        }
        read
    }
}

// Adds what a reader gives, until there are so many bytes. No more is asked for: a pipe may have none for long.
fn read_on<F: Read>(
    alloc: Global,
    reader: &mut F,
    front: &mut Vec<u8>,
    most: usize,
) -> io::Result<()> {
    let mut piece = vec![in alloc; 0u8; PIECE]?;
    for _ in 0..u64::MAX {
        let want = most.saturating_sub(front.len()).min(piece.len());
        let count = match reader.read(&mut piece[..want]) {
            Ok(count) => count.min(want),
            Err(e) if e.kind() == ErrorKind::Interrupted => continue,
            Err(e) => return Err(e),
        };
        if count == 0 {
            break;
        }
        if let Some(more) = piece.get(..count) {
            front.extend_from_slice(more)?;
        }
    }
    Ok(())
}

// The most bytes that are read of an image.
fn most_of(wanted: Wanted) -> u32 {
    match wanted {
        Wanted::Front(most) | Wanted::UpTo(most) => most,
        Wanted::Whole => u32::MAX,
    }
}

fn has_more<F: Read>(alloc: Global, reader: &mut F) -> io::Result<bool> {
    let mut next = Vec::new(alloc);
    read_on(alloc, reader, &mut next, 1)?;
    Ok(!next.is_empty())
}

// What a reader stands for: of a gzip file all of its text, else as much of it as is wanted.
fn front_of<F: Read>(alloc: Global, reader: &mut F, wanted: Wanted) -> Result<Vec<u8>> {
    let most = most_of(wanted) as usize;
    let mut front = Vec::new(alloc);
    read_on(alloc, reader, &mut front, FRONT.min(most))?;
    if packing_of(&front)? {
        read_on(alloc, reader, &mut front, MOST_PACKED)?;
        return unpacked(alloc, &front);
    }
    read_on(alloc, reader, &mut front, most)?;
    if let Wanted::UpTo(most) = wanted
        && front.len() >= most as usize
        && has_more(alloc, reader)?
    {
        bail!("it has more than {most} bytes: give it as a file, or say its layout");
    }
    Ok(front)
}

// The device at a path. One that tells its end is read at places.
fn open_device<R: Runtime>(rt: &R, alloc: Global, path: &str, wanted: Wanted) -> Result<Kind<R>> {
    let mut device = fs::File::open(rt, path)?;
    match device.seek(SeekFrom::End(0)) {
        Ok(size) if size > 0 => Ok(Kind::Device(device, size.min(u64::from(most_of(wanted))))),
        Ok(_) | Err(_) => Ok(Kind::Front(front_of(alloc, &mut device, wanted)?)),
    }
}

// A file. One whose length shows as 0, as in /proc, is read to its end, and so is one that is compressed.
fn open_file<R: Runtime>(
    rt: &R,
    alloc: Global,
    path: &str,
    len: u64,
    wanted: Wanted,
) -> Result<Kind<R>> {
    let mut reader = fs::File::open(rt, path)?;
    let mut file = FileLoad::new(rt, alloc, path)?;
    let Ok(is_packed) = is_packed(&mut file) else {
        bail!("it could not be read");
    };
    if is_packed || len == 0 {
        return Ok(Kind::Front(front_of(alloc, &mut reader, wanted)?));
    }
    Ok(Kind::File(file))
}

// Reads a folder's names. One that is no text does not matter.
fn read_names<R: Runtime>(rt: &R, path: &str) -> io::Result<()> {
    for entry in fs::read_dir(rt, path)? {
        match entry {
            Err(e) if e.kind() != ErrorKind::InvalidFilename => return Err(e),
            _ => (),
        }
    }
    Ok(())
}

// The image at a path.
fn open<R: Runtime, S: Read>(
    rt: &R,
    alloc: Global,
    input: &mut S,
    path: &str,
    wanted: Wanted,
) -> Result<Kind<R>> {
    if path == "-" {
        return Ok(Kind::Front(front_of(alloc, input, wanted)?));
    }
    let metadata = fs::metadata(rt, path)?;
    if metadata.is_dir() {
        // Why its names could not be read.
        read_names(rt, path)?;
        bail!("it is a folder");
    }
    if metadata.is_file() {
        return open_file(rt, alloc, path, metadata.len(), wanted);
    }
    open_device(rt, alloc, path, wanted)
}

// A file with a copy of a memory.
fn open_copy<R: Runtime>(rt: &R, alloc: Global, path: &str) -> Result<Kind<R>> {
    let _reader = fs::File::open(rt, path)?;
    let mut file = FileLoad::new(rt, alloc, path)?;
    let Ok(is_packed) = is_packed(&mut file) else {
        bail!("it could not be read");
    };
    if is_packed {
        bail!("it is compressed: unpack it first");
    }
    Ok(Kind::File(file))
}

// The device of a memory. It may not tell its end, as `/dev/mem`.
fn open_memory<R: Runtime>(rt: &R, path: &str) -> Result<Kind<R>> {
    let mut device = fs::File::open(rt, path)?;
    match device.seek(SeekFrom::End(0)) {
        Ok(size) if size > 0 => Ok(Kind::Device(device, size)),
        Ok(_) | Err(_) => Ok(Kind::Device(device, NO_END)),
    }
}

// The file at a path, as it stands; or a device, if it is known which place of it is read.
fn open_whole<R: Runtime>(rt: &R, alloc: Global, path: &str, is_placed: bool) -> Result<Kind<R>> {
    if path == "-" {
        bail!("it is no file");
    }
    let metadata = fs::metadata(rt, path)?;
    if metadata.is_dir() {
        bail!("it is no file");
    }
    if metadata.is_file() {
        return open_copy(rt, alloc, path);
    }
    if !is_placed {
        bail!("it is no file; a device needs a place, such as --at");
    }
    open_memory(rt, path)
}

/// The files of the system, by their paths; `-` is standard input. Of what is no regular file, such as a device or a
/// pipe, no more is read than is wanted. A whole memory can be a device only if a place in it is named.
#[derive(Drop)]
pub struct System<R: Runtime, S> {
    rt: R,
    alloc: Global,
    input: S,
    is_placed: bool,
    unopened: u64,
    faults: u64,
}

impl<R: Runtime, S> System<R, S> {
    pub fn new(rt: R, alloc: Global, input: S, is_placed: bool) -> System<R, S> {
        System {
            rt,
            alloc,
            input,
            is_placed,
            unopened: 0,
            faults: 0,
        }
    }
}

impl<R: Runtime, S: Read> Images for System<R, S> {
    type Image = Image<R>;

    ghost content = { λ _ _ _. None };

    ghost unopened = { λ s. s.unopened };

    ghost faults = { λ s. s.faults };

    fn open(&mut self, path: &str, wanted: Wanted) -> Result<Image<R>, Failure> {
        let opened = match wanted {
            Wanted::Whole => open_whole(&self.rt, self.alloc, path, self.is_placed),
            _ => open(&self.rt, self.alloc, &mut self.input, path, wanted),
        };
        match opened {
            Ok(kind) => Ok(Image {
                kind,
                faults: self.faults,
            }),
            Err(error) => {
                let why = format!(in self.alloc; "{error:#}")?;
                self.unopened = self.unopened.saturating_add(1);
                Err(Failure::Unopened(why))
            }
        }
    }

    fn close(&mut self, image: Image<R>) {
        self.faults = image.faults;
    }
}
