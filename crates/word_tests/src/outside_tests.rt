// The objects in memory where they work and where they fail, and the adapters over real ones.
ghost use Rattle.std.specs.Prelude.{◌≡◌, ◌+◌, ◌≤◌, length, IfOk, IfSome};

use outside::*;
use std::alloc::{AllocError, Global};
use std::process::Abort;
use std::test::Fail;
use std::{fs, io};

fn bytes(alloc: Global, from: &[u8]) -> Result<Bytes, AllocError>
    ensures { IfOk result (λ b. b ≡ from.now) }
{
    Bytes::copy_of(alloc, from)
}

fn calls(alloc: Global, numbers: &[u32]) -> Result<Calls, AllocError> {
    Calls::new(alloc, numbers)
}

#[test]
fn bytes_are_kept(rt: HostRuntime) -> Result<(), Fail> {
    let alloc = rt.alloc();
    let mut list = bytes(alloc, b"abc".as_slice())?;
    list.set(1, b'-');
    list.append(Bytes::empty(alloc).as_slice())?;
    list.append(b"xyz".as_slice())?;
    let list = Bytes::from_vec(list.into_vec());
    assert!(rt; list.as_slice() == b"a-cxyz".as_slice());
    Ok(())
}

fn gives(rt: &impl Abort, source: &mut MemSource, answer: Result<usize, Failed>, piece: &[u8]) {
    let mut into = [0u8; 4];
    assert!(rt; source.take(&mut into) == answer);
    assert!(rt; into.starts_with(piece));
}

// What takes of at most four bytes give of `abc` in pieces of two, and nothing where a take fails.
#[test]
fn a_source_gives_pieces(rt: HostRuntime) -> Result<(), Fail> {
    let alloc = rt.alloc();
    let mut source = MemSource::new(bytes(alloc, b"abc".as_slice())?, 2, calls(alloc, &[2])?);
    gives(&rt, &mut source, Ok(2), b"ab\0\0");
    gives(&rt, &mut source, Err(Failed), b"\0\0\0\0");
    gives(&rt, &mut source, Ok(1), b"c\0\0\0");
    gives(&rt, &mut source, Ok(0), b"\0\0\0\0");
    Ok(())
}

fn puts(rt: &impl Abort, sink: &mut MemSink, bytes: &[u8], answer: Result<(), Failed>, all: &[u8]) {
    assert!(rt; sink.put(bytes) == answer);
    assert!(rt; sink.bytes() == all);
}

// A put that is to fail appends the first half, rounded down; one past the limit nothing, also where it is to fail.
#[test]
fn a_sink_fails_where_told(rt: HostRuntime) -> Result<(), Fail> {
    let alloc = rt.alloc();
    let mut sink = MemSink::new(alloc, 8, calls(alloc, &[2, 4])?)?;
    puts(&rt, &mut sink, b"abc", Ok(()), b"abc");
    puts(&rt, &mut sink, b"defgh", Err(Failed), b"abcde");
    puts(&rt, &mut sink, b"wxyz", Err(Failed), b"abcde");
    puts(&rt, &mut sink, b"wxyz", Err(Failed), b"abcde");
    puts(&rt, &mut sink, b"fgh", Ok(()), b"abcdefgh");
    Ok(())
}

// A write within what the store holds, and what it holds then.
fn writes(
    rt: &impl Abort,
    store: &mut MemStore,
    at: u64,
    bytes: &[u8],
    answer: Result<(), Failed>,
    all: &[u8],
) {
    assert!(rt; at <= store.bytes().len() as u64);
    assert!(rt; store.write_at(at, bytes) == answer);
    assert!(rt; store.bytes() == all);
}

// A write that is to fail writes the first half, rounded down; one past the limit nothing, also where it is to fail.
#[test]
fn a_store_fails_where_told(rt: HostRuntime) -> Result<(), Fail> {
    let alloc = rt.alloc();
    let fails = calls(alloc, &[1, 2, 3, 5])?;
    let mut store = MemStore::new(bytes(alloc, b"abcd".as_slice())?, 6, fails)?;
    assert!(rt; store.size() == Err(Failed));
    assert!(rt; store.read_at(0, &mut [7; 2]) == Err(Failed));
    writes(&rt, &mut store, 1, b"xyz", Err(Failed), b"axcd");
    writes(&rt, &mut store, 4, b"xyz", Err(Failed), b"axcd");
    writes(&rt, &mut store, 4, b"xyz", Err(Failed), b"axcd");
    writes(&rt, &mut store, 4, b"xy", Ok(()), b"axcdxy");
    Ok(())
}

// A reader that fails at its second read.
#[derive(Drop)]
struct Broken(usize);

impl io::Read for Broken {
    fn read(&mut self, buf: &mut [u8]) -> io::Result<usize> {
        self.0 = self.0.saturating_add(1);
        if self.0 == 2 {
            return Err(io::Error::from(io::ErrorKind::TimedOut));
        }
        buf.fill(b'r');
        Ok(buf.len())
    }
}

#[test]
fn a_reader_is_a_source(rt: HostRuntime) -> Result<(), Fail> {
    let mut source = ReaderSource::new(Broken(0));
    let mut into = [0u8; 2];
    assert!(rt; source.take(&mut into) == Ok(2));
    assert!(rt; into == [b'r', b'r']);
    assert!(rt; source.take(&mut into) == Err(Failed));
    let mut end = ReaderSource::new(b"".as_slice());
    assert!(rt; end.take(&mut into) == Ok(0));
    Ok(())
}

// A writer that takes one byte a write, and then none.
#[derive(Drop)]
struct Full(usize);

impl io::Write for Full {
    fn write(&mut self, buf: &[u8]) -> io::Result<usize> {
        let count = buf.len().min(1).min(self.0);
        self.0 -= count;
        Ok(count)
    }

    fn flush(&mut self) -> io::Result<()> {
        Ok(())
    }
}

#[test]
fn a_writer_is_a_sink(rt: HostRuntime) -> Result<(), Fail> {
    let mut sink = WriterSink::new(Full(3));
    assert!(rt; sink.put(b"ab".as_slice()) == Ok(()));
    assert!(rt; sink.put(b"cd".as_slice()) == Err(Failed));
    assert!(rt; sink.put(b"".as_slice()) == Ok(()));
    Ok(())
}

fn reads<L: Load>(rt: &impl Abort, file: &mut L, at: u64, bytes: [u8; 2])
    requires { IfSome (L.holds file.old) (λ bs. at + 2 ≤ length bs) }
{
    let mut into = [0u8; 2];
    assert!(rt; file.read_at(at, &mut into) == Ok(()));
    assert!(rt; into == bytes);
}

// The file stays open: a read after a fault, and of what was written since, goes on in it.
#[test]
fn a_file_is_a_store(rt: HostRuntime) -> Result<(), Fail> {
    let path = "/tmp/oopsbox_box_io_test_image";
    let _ = fs::remove_file(&rt, path);
    let mut store = FileStore::new(&rt, rt.alloc(), path)?;
    assert!(rt; store.size() == Ok(0));
    assert!(rt; store.read_at(0, &mut [0; 2]) == Err(Failed));
    assert!(rt; store.write_at(0, b"abcd".as_slice()) == Ok(()));
    assert!(rt; store.write_at(3, b"xy".as_slice()) == Ok(()));
    assert!(rt; store.size() == Ok(5));
    reads(&rt, &mut store, 3, [b'x', b'y']);
    assert!(rt; store.read_at(4, &mut [0; 2]) == Err(Failed));
    assert!(rt; store.write_at(5, b"z".as_slice()) == Ok(()));
    reads(&rt, &mut store, 4, [b'y', b'z']);
    fs::remove_file(&rt, path)?;
    Ok(())
}

// A file that may not be written is read all the same, and stays as it is; a missing one is not made.
#[test]
fn a_file_is_only_read(rt: HostRuntime) -> Result<(), Fail> {
    let path = "/tmp/oopsbox_box_io_test_region";
    let _ = fs::remove_file(&rt, path);
    let mut missing = FileLoad::new(&rt, rt.alloc(), path)?;
    assert!(rt; missing.size() == Ok(0));
    assert!(rt; missing.read_at(0, &mut [0; 2]) == Err(Failed));
    assert!(rt; fs::metadata(&rt, path).is_err());
    fs::write(&rt, path, b"abcd")?;
    let mut file = FileLoad::new(&rt, rt.alloc(), path)?;
    assert!(rt; file.size() == Ok(4));
    reads(&rt, &mut file, 1, [b'b', b'c']);
    reads(&rt, &mut file, 2, [b'c', b'd']);
    assert!(rt; file.read_at(3, &mut [0; 2]) == Err(Failed));
    assert!(rt; file.size() == Ok(4));
    fs::remove_file(&rt, path)?;
    Ok(())
}

#[test]
fn a_file_in_no_folder_fails(rt: HostRuntime) -> Result<(), Fail> {
    let mut lost = FileStore::new(&rt, rt.alloc(), "/tmp/no_such_folder_of_oopsbox/image")?;
    assert!(rt; lost.write_at(0, b"a".as_slice()) == Err(Failed));
    Ok(())
}
