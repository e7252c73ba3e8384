//! Prints what the report of each storage beside it has: the lines on it, why the machine died, and of each record that
//! is saved its name, its length and its MD5. Then the same of a storage whose headers are damaged in one way after
//! another, and of one of a big-endian machine.
#![tactic(auto)]

ghost use Rattle.std.specs.Prelude.{None};

use md5::{Digest, Md5};
use outside::{Bytes, Calls, Failed, FileLoad, Load, MemSink, MemStore};
use psz_spec::Sizes;
use region_report::Report;
use report_tool::{Folder, Format, save};
use std::alloc::{AllocError, Global};
use std::{fs, io};
use storage_report::{HeldStorage, held_storage, report};
use storage_words::Storages;
use symbols::Symbols;

/// The most bytes of a report's text.
const MOST: u32 = 1_048_576;

/// Bytes of a storage of a big-endian machine, and their places: a pmsg that went round, a console, a dump of a machine
/// of 32 bits that is compressed to one stored block, and a newer one of a machine of 64.
const BIG: [(usize, &[u8]); 6] = [
    (0, b"CGBC\0\0\0\x04\0\0\0\x02yesa"),
    (512, b"CGBF\0\0\0\x07\0\0\0\x07booted\n"),
    (
        1024,
        b"CGBD\0\0\0\x84\0\0\0\0\x4d\xfc\x3a\xe5\0\0\0\0\0\0\0\0\x6b\x0b\xf7\xaf\
          \x12\x48\xcf\x2d\0\0\0\0\x01\0\0\0\0\0\0\x01\0\0\0\x02",
    ),
    (
        1076,
        b"\x01\x57\x00\xa8\xffOops#1 Part1\n<1>[    5.000000] BUG: kernel NULL pointer dereference, address: 00000008\n",
    ),
    (
        2048,
        b"CGBD\0\0\0\x74\0\0\0\0\x4d\xfc\x3a\xe5\0\0\0\0\0\0\0\0\x6b\x0b\xf7\xb0\
          \0\0\0\0\x12\x48\xcf\x2d\0\0\0\0\0\0\0\x02\0\0\0\x01",
    ),
    (
        2100,
        b"Panic#2 Part1\n<0>[    9.000000] Kernel panic - not syncing: Fatal exception\n",
    ),
];

/// A folder that keeps a line of each file.
#[derive(Drop)]
struct Lines {
    alloc: Global,
    text: String,
    faults: u64,
}

fn line(alloc: Global, name: &str, content: &[u8]) -> Result<String, AllocError> {
    let digest = hex::encode(alloc, Md5::digest(content))?;
    let len = content.len();
    format!(in alloc; "{name} {len} {digest}\n")
}

impl Folder for Lines {
    ghost made = { λ _. None };

    ghost faults = { λ s. s.faults };

    fn make(&mut self, name: &str, content: &[u8]) -> Result<(), Failed> {
        if let Ok(line) = line(self.alloc, name, content)
            && self.text.push_str(&line).is_ok()
        {
            return Ok(());
        }
        self.faults = self.faults.saturating_add(1);
        Err(Failed)
    }
}

/// An image that counts what is read of it.
#[derive(Drop)]
struct Counted<M> {
    image: M,
    reads: u32,
    bytes: u64,
}

impl<M: Load> Load for Counted<M> {
    ghost holds = { λ s. M.holds s.image };

    ghost faults = { λ s. M.faults s.image };

    ghost writes = { λ s. M.writes s.image };

    ghost read_faults = { λ s. M.read_faults s.image };

    ghost held_bytes = { λ s. M.held_bytes s.image };

    fn size(&mut self) -> Result<u64, Failed> {
        self.image.size()
    }

    fn read_at(&mut self, at: u64, into: &mut [u8]) -> Result<(), Failed> {
        self.reads = self.reads.saturating_add(1);
        self.bytes = self.bytes.saturating_add(into.len() as u64);
        self.image.read_at(at, into)
    }
}

// The lines of a text that begin so.
fn show_lines<R: Print>(rt: &R, text: &str, front: &str) -> io::Result<()> {
    for line in text.lines() {
        if line.starts_with(front) {
            println!(rt; "{line}")?;
        }
    }
    Ok(())
}

fn show_text<R: Print>(rt: &R, bytes: &[u8]) -> io::Result<()> {
    let Ok(text) = str::from_utf8(bytes) else {
        return println!(rt; "the text is no UTF-8");
    };
    show_lines(rt, text, "died: ")?;
    show_lines(rt, text, "  signature ")?;
    show_lines(rt, text, "  told by ")?;
    show_lines(rt, text, "zones ")
}

fn show_records<R: Print + AllocGlobal>(rt: &R, report: &Report) -> io::Result<()> {
    let mut lines = Lines {
        alloc: rt.alloc(),
        text: String::new(rt.alloc()),
        faults: 0,
    };
    match save(&mut lines, report) {
        Ok(()) => print!(rt; "{}", lines.text),
        Err(Failed) => println!(rt; "not saved"),
    }
}

fn show_held<R: Print + AllocGlobal>(rt: &R, name: &str, held: &HeldStorage) -> io::Result<()> {
    let alloc = rt.alloc();
    print!(rt; "{}", held.lines(alloc, name)?)?;
    let symbols = Symbols::none(alloc);
    let mut out = MemSink::new(alloc, MOST, Calls::new(alloc, &[])?)?;
    match report(alloc, held, &symbols, 0, Format::Text, name, &mut out) {
        Ok(report) => {
            show_text(rt, out.bytes())?;
            show_records(rt, &report)
        }
        Err(_) => println!(rt; "{name}: not reported"),
    }
}

fn show<R: Print + AllocGlobal, M: Load>(rt: &R, name: &str, image: &mut M) -> io::Result<()> {
    match held_storage(rt.alloc(), Storages::Shown, image) {
        Ok(Some(held)) => show_held(rt, name, &held),
        Ok(None) => println!(rt; "{name}: no storage"),
        Err(_) => println!(rt; "{name}: not read"),
    }
}

// The first bytes of a storage, so many at most, with some from a place on exchanged.
fn damaged(
    alloc: Global,
    bytes: &[u8],
    len: usize,
    at: usize,
    with: &[u8],
) -> Result<Vec<u8>, AllocError> {
    let mut copy = Vec::from_slice(alloc, bytes)?;
    if at <= copy.len() && with.len() <= copy.len() - at {
        copy[at..at + with.len()].copy_from_slice(with);
    }
    copy.truncate(len);
    Ok(copy)
}

// The storage of a big-endian machine.
fn big_storage(alloc: Global) -> Result<Vec<u8>, AllocError> {
    let mut bytes = vec![in alloc; 0; 8192]?;
    for (at, with) in BIG {
        bytes = damaged(alloc, &bytes, 8192, at, with)?;
    }
    Ok(bytes)
}

fn show_big<R: Print + AllocGlobal>(rt: &R) -> io::Result<()> {
    let alloc = rt.alloc();
    show_damaged(rt, "a big-endian machine", big_storage(alloc)?)?;
    let bytes = big_storage(alloc)?;
    let other = damaged(alloc, &bytes, 8192, 2048, b"DBGC")?;
    show_damaged(rt, "a dump of the other order", other)
}

fn show_damaged<R: Print + AllocGlobal>(rt: &R, name: &str, bytes: Vec<u8>) -> io::Result<()> {
    let bytes = Bytes::from_vec(bytes);
    if bytes.len() > MOST as usize {
        return println!(rt; "{name}: too long");
    }
    let mut image = MemStore::new(bytes, MOST, Calls::new(rt.alloc(), &[])?)?;
    show(rt, name, &mut image)
}

// How much of a storage is read.
fn show_reads<R: Print + AllocGlobal>(
    rt: &R,
    name: &str,
    storages: Storages,
    bytes: Vec<u8>,
) -> io::Result<()> {
    let bytes = Bytes::from_vec(bytes);
    if bytes.len() > MOST as usize {
        return println!(rt; "{name}: too long");
    }
    let mut image = Counted {
        image: MemStore::new(bytes, MOST, Calls::new(rt.alloc(), &[])?)?,
        reads: 0,
        bytes: 0,
    };
    match held_storage(rt.alloc(), storages, &mut image) {
        Ok(Some(_)) => println!(rt; "{name}: {} reads, {} bytes", image.reads, image.bytes),
        Ok(None) | Err(_) => println!(rt; "{name}: no storage"),
    }
}

// A storage of 1 MiB that begins so: by its dumps all of it is read, by given sizes a front of it, and in each case the
// headers and the listed logs.
fn show_large<R: Print + AllocGlobal>(rt: &R, front: &[u8]) -> io::Result<()> {
    let alloc = rt.alloc();
    let zeros = vec![in alloc; 0; MOST as usize]?;
    let given = Storages::All(Sizes {
        total: 0,
        pmsg: 0,
        console: 0,
        ftrace: 0,
        dump: 4096,
        cpus: 1,
    });
    let whole = damaged(alloc, &zeros, MOST as usize, 0, front)?;
    show_reads(rt, "by its dumps", Storages::Shown, whole)?;
    let whole = damaged(alloc, &zeros, MOST as usize, 0, front)?;
    show_reads(rt, "by given sizes", given, whole)?;
    let whole = damaged(alloc, &zeros, MOST as usize, 0, front)?;
    let erased = damaged(alloc, &whole, MOST as usize, 4100, b"\x00\x00\x00\x00")?;
    show_reads(rt, "without an erased dump", given, erased)
}

fn main(rt: HostRuntime) -> io::Result<()> {
    let alloc = rt.alloc();
    for name in ["stock-64", "stock-32"] {
        let mut image = FileLoad::new(&rt, alloc, name)?;
        show(&rt, name, &mut image)?;
    }
    let bytes = fs::read(&rt, "stock-64")?;
    for (name, len, at, with) in [
        (
            "a length beyond the zone",
            16384,
            4100,
            b"\xff\xff\xff\xff".as_slice(),
        ),
        (
            "a length below the header",
            16384,
            4100,
            b"\x0a\x00\x00\x00",
        ),
        ("an erased dump", 16384, 4100, b"\x00\x00\x00\x00"),
        ("no magic number", 16384, 12300, b"\x00\x00\x00\x00"),
        ("a start in a dump", 16384, 8, b"\x01\x00\x00\x00"),
        ("one dump", 4100, 0, b"DBGC"),
        ("less than a page", 4095, 0, b"DBGC"),
    ] {
        show_damaged(&rt, name, damaged(alloc, &bytes, len, at, with)?)?;
    }
    show_big(&rt)?;
    show_large(&rt, &bytes)
}
