// Runs over files: whole memories, and text logs.
ghost use Rattle.std.specs.Prelude.{Some, None};

use outside::{Bytes, Calls, MemSink};
use region_report::Report;
use report_entry::Layouts;
use report_run::*;
use report_tool::{Format, Known, known};
use std::alloc::Global;
use std::test::Fail;

// One file, whatever its path, or none.
#[derive(Drop)]
struct Held {
    alloc: Global,
    bytes: Bytes,
    is_missing: bool,
    unopened: u64,
}

impl Images for Held {
    type Image = ReadOnly;

    ghost content = { λ s _ _. Some s.bytes };

    ghost unopened = { λ s. s.unopened };

    ghost faults = { λ _. 0 };

    fn open(&mut self, _path: &str, _wanted: Wanted) -> Result<ReadOnly, Failure> {
        if self.is_missing {
            let why = String::from_str(self.alloc, "it is missing")?;
            self.unopened = self.unopened.saturating_add(1);
            return Err(Failure::Unopened(why));
        }
        Ok(ReadOnly::new(Vec::from_slice(self.alloc, self.bytes.as_slice())?))
    }

    fn close(&mut self, _image: ReadOnly) {}
}

// A folder that takes every record, or none.
#[derive(Drop)]
struct Taken {
    alloc: Global,
    is_full: bool,
    faults: u64,
}

impl Records for Taken {
    ghost made = { λ _. None };

    ghost faults = { λ s. s.faults };

    fn save(&mut self, _report: &Report) -> Result<(), Failure> {
        if self.is_full {
            let why = String::from_str(self.alloc, "the folder is full")?;
            self.faults = self.faults.saturating_add(1);
            return Err(Failure::Unsaved(why));
        }
        Ok(())
    }
}

// Nobody looks how far a reading has come.
#[derive(Drop)]
struct Unwatched;

impl Watch for Unwatched {
    fn reached(&mut self, _done: u64, _all: u64) {}
}

// What these words say of the layout.
fn known_by(alloc: Global, given: &[&str]) -> Result<Known, Fail> {
    let mut words = Vec::new(alloc);
    for word in given.iter().copied() {
        words.push(String::from_str(alloc, word)?)?;
    }
    Ok(known(&words))
}

// What is known of the layout: a console of a page, and no other zone.
fn one_console(alloc: Global) -> Result<Known, Fail> {
    known_by(
        alloc,
        &[
            "record_size=0",
            "console_size=4096",
            "ftrace_size=0",
            "pmsg_size=0",
            "ecc=0",
        ],
    )
}

fn asked(
    known: Known,
    format: Format,
    logs: Logs,
    memory: Option<WholeMemory>,
    saves: bool,
) -> Asked {
    Asked {
        layouts: Layouts::Sought(known),
        format,
        lines: 10,
        map: None,
        logs,
        storages: Storages::Never,
        memory,
        saves,
        counts: false,
    }
}

// What the outputs were given, and whether the file failed.
#[derive(Drop)]
struct Done {
    out: Vec<u8>,
    errors: Vec<u8>,
    has_failed: bool,
}

// An output with room for so many bytes.
fn sink(alloc: Global, room: u32) -> Result<MemSink, Fail> {
    Ok(MemSink::new(alloc, room, Calls::new(alloc, &[])?)?)
}

fn run_at(alloc: Global, asked: &Asked, path: &str, bytes: Vec<u8>) -> Result<Done, Fail> {
    run_within(alloc, asked, path, bytes, 65_536)
}

// Standard output has room for so many bytes.
fn run_within(
    alloc: Global,
    asked: &Asked,
    path: &str,
    bytes: Vec<u8>,
    room: u32,
) -> Result<Done, Fail> {
    let held = Held {
        alloc,
        bytes: Bytes::from_vec(bytes),
        is_missing: false,
        unopened: 0,
    };
    run_over(alloc, asked, &one_file(alloc, path)?, held, false, room)
}

fn named(alloc: Global, path: &str, name: &str) -> Result<NamedFile, Fail> {
    Ok(NamedFile {
        path: String::from_str(alloc, path)?,
        name: String::from_str(alloc, name)?,
    })
}

// A file that is shown by its path.
fn one_file(alloc: Global, path: &str) -> Result<Vec<NamedFile>, Fail> {
    let mut files = Vec::new(alloc);
    files.push(named(alloc, path, path)?)?;
    Ok(files)
}

// Of files that hold the same, with a folder for their records that may be full.
fn run_over(
    alloc: Global,
    asked: &Asked,
    files: &[NamedFile],
    mut held: Held,
    is_full: bool,
    room: u32,
) -> Result<Done, Fail> {
    let mut out = sink(alloc, room)?;
    let mut messages = Messages::new(sink(alloc, 65_536)?);
    let mut taken = Taken {
        alloc,
        is_full,
        faults: 0,
    };
    let end = run(
        alloc,
        asked,
        files,
        &mut held,
        &mut Unwatched,
        &mut out,
        &mut messages,
        &mut taken,
    );
    Ok(Done {
        out: Vec::from_slice(alloc, out.bytes())?,
        errors: Vec::from_slice(alloc, messages.errors.bytes())?,
        has_failed: status_of(end, false) == 1,
    })
}

// A text log that tells of a panic, as a file that may be missing, saved in a folder that may be full.
fn run_refused(alloc: Global, is_missing: bool, is_full: bool) -> Result<Done, Fail> {
    let held = Held {
        alloc,
        bytes: Bytes::from_vec(Vec::from_slice(alloc, b"Kernel panic - not syncing: one\n")?),
        is_missing,
        unopened: 0,
    };
    let asked = asked(known(&[]), Format::Brief, Logs::Texts, None, true);
    run_over(
        alloc,
        &asked,
        &one_file(alloc, "file")?,
        held,
        is_full,
        65_536,
    )
}

fn run_on(alloc: Global, asked: &Asked, bytes: Vec<u8>) -> Result<Done, Fail> {
    run_at(alloc, asked, "file", bytes)
}

// A memory of four pages, with a console of three bytes at each of these.
fn memory_of(alloc: Global, pages: &[usize]) -> Result<Vec<u8>, Fail> {
    let mut bytes = Vec::new(alloc);
    for page in 0..4 {
        if pages.contains(&page) {
            bytes.extend_from_slice(&[0x44, 0x42, 0x47, 0x43, 3, 0, 0, 0, 3, 0, 0, 0, 97, 60, 10])?;
        }
        bytes.resize(4096 * (page + 1), 0)?;
    }
    Ok(bytes)
}

fn begins_and_has(text: &[u8], front: &str, piece: &str) -> Result<bool, Fail> {
    let text = str::from_utf8(text)?;
    Ok(text.starts_with(front) && text.contains(piece))
}

const WHOLE: WholeMemory = WholeMemory {
    base: 0x8000,
    place: None,
};

#[test]
fn a_region_of_a_memory(rt: HostRuntime) -> Result<(), Fail> {
    let known = one_console(rt.alloc())?;
    let asked = asked(known, Format::Text, Logs::Never, Some(WHOLE), false);
    let done = run_on(rt.alloc(), &asked, memory_of(rt.alloc(), &[2])?)?;
    let line = "\nfile@0xa000: 4096 bytes; layout found: ";
    let is_told = begins_and_has(&done.out, "no death: ", line)?;
    assert!(rt; is_told && done.errors.is_empty() && !done.has_failed);
    Ok(())
}

// A zone that begins with these bytes, and zeros.
fn add_zone(bytes: &mut Vec<u8>, front: &[u8], size: usize) -> Result<(), Fail> {
    let end = bytes.len().saturating_add(size);
    bytes.extend_from_slice(front)?;
    bytes.resize(end, 0)?;
    Ok(())
}

// A page of zeros, and a region of 1 MiB as a kernel lays it out for record_size=0x20000: seven dumps of 148,040 bytes
// without a log, a console, a trace and a pmsg of 4,096, and eight bytes. Only the first zone begins at a page.
fn uneven_region(alloc: Global) -> Result<Vec<u8>, Fail> {
    let mut bytes = Vec::new(alloc);
    add_zone(&mut bytes, &[], 4_096)?;
    for _ in 0..7 {
        add_zone(&mut bytes, b"DBGC", 148_040)?;
    }
    let console = b"DBGC\x21\0\0\0\x21\0\0\0Kernel panic - not syncing: gone\n";
    add_zone(&mut bytes, console, 4_096)?;
    add_zone(&mut bytes, b"DBEC", 4_096)?;
    add_zone(&mut bytes, b"DBGC", 4_096)?;
    add_zone(&mut bytes, &[], 8)?;
    Ok(bytes)
}

#[test]
fn a_region_whose_zones_begin_at_no_page(rt: HostRuntime) -> Result<(), Fail> {
    let known = known_by(
        rt.alloc(),
        &[
            "console_size=4096",
            "ftrace_size=4096",
            "pmsg_size=4096",
            "ecc=0",
            "cpus=1",
        ],
    )?;
    let asked = asked(known, Format::Text, Logs::Never, Some(WHOLE), false);
    let done = run_on(rt.alloc(), &asked, uneven_region(rt.alloc())?)?;
    let line = "\nfile@0x9000: 1048576 bytes; layout found: record_size=131072 console_size=4096 ";
    let died = "died: Kernel panic - not syncing: gone\n";
    let is_told = begins_and_has(&done.out, died, line)?;
    assert!(rt; is_told && done.errors.is_empty() && !done.has_failed);
    Ok(())
}

#[test]
fn refusals_of_a_memory(rt: HostRuntime) -> Result<(), Fail> {
    let at = WholeMemory {
        base: 0,
        place: Some(4096),
    };
    for (format, whole, pages, words) in [
        (
            Format::Html,
            WHOLE,
            [1, 3].as_slice(),
            "oopsreport: file: several regions; choose one by --at: 0x9000 0xb000\n",
        ),
        (
            Format::Text,
            WHOLE,
            [].as_slice(),
            "oopsreport: file: no region was found; --memory only looks for ramoops regions\n",
        ),
        (
            Format::Text,
            at,
            [2].as_slice(),
            "oopsreport: file: no layout explains what stands at that place; give it by --param\n",
        ),
    ] {
        let known = one_console(rt.alloc())?;
        let asked = asked(known, format, Logs::Never, Some(whole), false);
        let done = run_on(rt.alloc(), &asked, memory_of(rt.alloc(), pages)?)?;
        assert!(rt; done.errors.as_slice() == words.as_bytes());
        assert!(rt; done.out.is_empty() && done.has_failed);
    }
    Ok(())
}

#[test]
fn logs_with_zero_bytes(rt: HostRuntime) -> Result<(), Fail> {
    for (logs, is_log) in [
        (Logs::All, true),
        (Logs::Texts, false),
        (Logs::Never, false),
    ] {
        let asked = asked(known(&[]), Format::Text, logs, None, false);
        let mut text = Vec::new(rt.alloc());
        text.extend_from_slice(b"Kernel panic - not syncing: \0 gone\n")?;
        let done = run_on(rt.alloc(), &asked, text)?;
        assert!(rt; done.has_failed != is_log);
        let has_panic = begins_and_has(&done.out, "died: Kernel panic", "console-ramoops-0\n")?;
        assert!(rt; has_panic == is_log);
    }
    Ok(())
}

#[test]
fn a_file_that_is_missing(rt: HostRuntime) -> Result<(), Fail> {
    let done = run_refused(rt.alloc(), true, false)?;
    assert!(rt; done.errors.as_slice() == b"oopsreport: file: it is missing\n".as_slice());
    assert!(rt; done.out.is_empty() && done.has_failed);
    Ok(())
}

// It is reported all the same.
#[test]
fn records_that_are_not_saved(rt: HostRuntime) -> Result<(), Fail> {
    let line = b"file  -  kernel panic: one\n".as_slice();
    for (is_full, errors) in [
        (false, b"".as_slice()),
        (true, b"oopsreport: file: the folder is full\n".as_slice()),
    ] {
        let done = run_refused(rt.alloc(), false, is_full)?;
        assert!(rt; done.out.as_slice() == line && done.errors.as_slice() == errors);
        assert!(rt; done.has_failed == is_full);
    }
    Ok(())
}

// A log as two files, the first of which has a name of its own, where standard output has room for so many bytes.
fn run_twice(alloc: Global, room: u32) -> Result<Done, Fail> {
    let held = Held {
        alloc,
        bytes: Bytes::from_vec(Vec::from_slice(alloc, b"Kernel panic - not syncing: one\n")?),
        is_missing: false,
        unopened: 0,
    };
    let mut files = Vec::new(alloc);
    files.push(named(alloc, "a\nb", "a?b")?)?;
    files.push(named(alloc, "second", "second")?)?;
    let asked = asked(known(&[]), Format::Brief, Logs::Texts, None, false);
    run_over(alloc, &asked, &files, held, false, room)
}

// Each is shown by its name. Where standard output takes no more, no other file is opened.
#[test]
fn two_files(rt: HostRuntime) -> Result<(), Fail> {
    let all = run_twice(rt.alloc(), 65_536)?;
    let lines = b"a?b  -  kernel panic: one\nsecond  -  kernel panic: one\n".as_slice();
    assert!(rt; all.out.as_slice() == lines && all.errors.is_empty() && !all.has_failed);
    let full = run_twice(rt.alloc(), 20)?;
    let error = b"oopsreport: a?b: standard output could not be written\n".as_slice();
    assert!(rt; full.errors.as_slice() == error && full.has_failed);
    Ok(())
}

// What zlib makes of `<1>[    1.000000] kernel BUG at x.c:1!` and a newline, raw.
const PACKED: [u8; 36] = [
    0xb3, 0x31, 0xb4, 0x8b, 0x56, 0x00, 0x02, 0x43, 0x3d, 0x03, 0x30, 0x88, 0x55, 0xc8, 0x4e, 0x2d,
    0xca, 0x4b, 0xcd, 0x51, 0x70, 0x0a, 0x75, 0x57, 0x48, 0x2c, 0x51, 0xa8, 0xd0, 0x4b, 0xb6, 0x32,
    0x54, 0xe4, 0x02, 0x00,
];

#[test]
fn packed_records(rt: HostRuntime) -> Result<(), Fail> {
    for (len, front, words) in [
        (36, "died: kernel BUG at x.c:1!\n", ""),
        (
            30,
            "died: kernel BUG at x",
            "oopsreport: a.enc.z: inflated in part: end of input\n",
        ),
        (
            1,
            "",
            "oopsreport: a.enc.z: nothing of this packed record inflates\n",
        ),
    ] {
        let asked = asked(known(&[]), Format::Text, Logs::Texts, None, false);
        let mut bytes = Vec::from_slice(rt.alloc(), &PACKED)?;
        bytes.truncate(len);
        let done = run_at(rt.alloc(), &asked, "a.enc.z", bytes)?;
        assert!(rt;
            done.out.starts_with(front.as_bytes()) && done.errors.as_slice() == words.as_bytes()
        );
        assert!(rt; done.has_failed == done.out.is_empty());
    }
    Ok(())
}

// A log of three boots, which begin at byte 0, at byte 82 and at byte 158.
const THREE_BOOTS: &str = "\
[    0.000000] Linux version 6.1.0
[    5.000000] Kernel panic - not syncing: one
[    0.000000] Linux version 6.1.0
[    6.000000] reboot: Restarting system
[    0.000000] Linux version 6.1.0
[    7.000000] Kernel panic - not syncing: three
";

fn run_on_boots(alloc: Global, format: Format) -> Result<Done, Fail> {
    let asked = asked(known(&[]), format, Logs::Texts, None, false);
    run_on(
        alloc,
        &asked,
        Vec::from_slice(alloc, THREE_BOOTS.as_bytes())?,
    )
}

// The boots before the last are told from the newest to the oldest, each by its place.
#[test]
fn boots_before_the_last(rt: HostRuntime) -> Result<(), Fail> {
    let done = run_on_boots(rt.alloc(), Format::Text)?;
    let text = str::from_utf8(&done.out)?;
    assert!(rt; text.starts_with("died: Kernel panic - not syncing: three\n"));
    assert!(rt;
        text.ends_with(
            "file@0x52  -  no death: an orderly restart\nfile@0x0  -  kernel panic: one\n"
        )
    );
    assert!(rt; done.errors.is_empty() && !done.has_failed);
    Ok(())
}

// JSON has a line for each boot; a page and one line have the last boot alone.
#[test]
fn boots_in_other_formats(rt: HostRuntime) -> Result<(), Fail> {
    let done = run_on_boots(rt.alloc(), Format::Json)?;
    let text = str::from_utf8(&done.out)?;
    for (line, path) in text.lines().zip(["file", "file@0x52", "file@0x0"]) {
        let member = format!(in rt.alloc(); "\"path\":\"{path}\"")?;
        assert!(rt; line.contains(member.as_str()), "{line}");
    }
    assert!(rt; text.lines().count() == 3);
    let done = run_on_boots(rt.alloc(), Format::Brief)?;
    assert!(rt; done.out.as_slice() == b"file  -  kernel panic: three\n".as_slice());
    let done = run_on_boots(rt.alloc(), Format::Html)?;
    assert!(rt; !str::from_utf8(&done.out)?.contains("file@"));
    Ok(())
}

// Standard output that is full before the last byte of a line fails the file. The lines have 43 and 31 bytes.
#[test]
fn boots_that_do_not_fit(rt: HostRuntime) -> Result<(), Fail> {
    let whole = run_on_boots(rt.alloc(), Format::Text)?;
    let asked = asked(known(&[]), Format::Text, Logs::Texts, None, false);
    for missing in [1, 31, 32, 74] {
        let text = Vec::from_slice(rt.alloc(), THREE_BOOTS.as_bytes())?;
        let room = u32::try_from(whole.out.len().saturating_sub(missing))?;
        let done = run_within(rt.alloc(), &asked, "file", text, room)?;
        assert!(rt;
            done.has_failed
                && done.errors.as_slice()
                    == b"oopsreport: file: standard output could not be written\n".as_slice()
        );
        assert!(rt; whole.out.starts_with(&done.out));
    }
    Ok(())
}
