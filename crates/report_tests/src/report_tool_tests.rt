// Worked images, reported and saved.
ghost use Rattle.std.specs.Prelude.{None};

use crate::packed_dumps::{DAMAGED, WHOLE, image_of};
use crate::worked_deaths::{self, NEWER, NONE, OOPS, ORDERLY, PANIC, QUIET};
use grammar_spec::ParamFault;
use layout_search::Candidate;
use outside::{Bytes, Calls, Failed, MemSink, MemStore};
use report_tool::*;
use std::alloc::Global;
use std::test::Fail;
use zone_spec::{ByteOrder, LayoutFault, Order};

#[test]
fn words_of_the_order_of_bytes(rt: HostRuntime) -> Result<(), Fail> {
    for (word, order) in [
        ("byte_order=big", Some(ByteOrder::Big)),
        ("byte_order=little", Some(ByteOrder::Little)),
        ("order=console,pmsg,ftrace", None),
    ] {
        let mut words = Vec::new(rt.alloc());
        words.push(String::from_str(rt.alloc(), word)?)?;
        assert!(rt; known(&words).byte_order == order, "by {word}");
    }
    Ok(())
}

// The layout of a region that a Malta board wrote: 64 KiB, all defaults, and 16 bytes of parity.
#[test]
fn words_of_a_big_endian_region(rt: HostRuntime) -> Result<(), Fail> {
    let candidate = Candidate {
        mem: 65536,
        dump: 4096,
        console: 4096,
        ftrace: 4096,
        pmsg: 4096,
        parity: 16,
        cpus: 1,
        tag: 0x601c0,
        order: Order::FtracePmsg,
        byte_order: ByteOrder::Big,
    };
    let words = layout_words(rt.alloc(), &candidate, 65536)?;
    assert_eq!(rt;
        words.as_str(),
        "record_size=4096 console_size=4096 ftrace_size=4096 pmsg_size=4096 ecc=16 cpus=1 ftrace_sig=0x601c0 byte_order=big"
    );
    Ok(())
}

// The words of a layout of a console alone.
fn console(alloc: Global, mem: &str) -> Result<Vec<String>, Fail> {
    let mut words = Vec::new(alloc);
    for word in [mem, "record_size=0", "ftrace_size=0", "pmsg_size=0"] {
        words.push(String::from_str(alloc, word)?)?;
    }
    Ok(words)
}

fn plan_of(alloc: Global, words: Vec<String>) -> Result<Plan, Fail> {
    match Plan::new(alloc, &words, false) {
        Ok(plan) => Ok(plan),
        Err(_) => Err(Fail::from("the words have a layout")),
    }
}

// A store with the console's header, three bytes of log, and zeros.
fn store(alloc: Global, len: usize) -> Result<MemStore, Fail> {
    let mut bytes = Vec::new(alloc);
    bytes.extend_from_slice(&[0x44, 0x42, 0x47, 0x43, 3, 0, 0, 0, 3, 0, 0, 0, 97, 60, 10])?;
    bytes.resize(len, 0)?;
    let fails = Calls::new(alloc, &[])?;
    let bytes = Bytes::from_vec(bytes);
    if bytes.len() > 8192 {
        return Err(Fail::from("the image is too long"));
    }
    Ok(MemStore::new(bytes, 8192, fails)?)
}

// The report of a store of so many bytes by a plan, in a format.
fn reported_by(
    alloc: Global,
    plan: &Plan,
    format: Format,
    len: usize,
) -> Result<Result<Vec<u8>, Stop>, Fail> {
    let mut image = store(alloc, len)?;
    let mut out = MemSink::new(alloc, 65536, Calls::new(alloc, &[])?)?;
    match report(alloc, plan, format, "a.img", &mut image, &mut out) {
        Ok(_) => Ok(Ok(Vec::from_slice(alloc, out.bytes())?)),
        Err(stop) => Ok(Err(stop)),
    }
}

// The report of a store of so many bytes, in a format.
fn reported(alloc: Global, format: Format, len: usize) -> Result<Result<Vec<u8>, Stop>, Fail> {
    let plan = plan_of(alloc, console(alloc, "mem_size=4096")?)?;
    reported_by(alloc, &plan, format, len)
}

#[test]
fn each_format(rt: HostRuntime) -> Result<(), Fail> {
    for (format, front, piece) in [
        (
            Format::Text,
            "no death: the log breaks off; the machine hung, lost power or was reset\n  last line  a<\n",
            "console-ramoops-0\n",
        ),
        (
            Format::Json,
            "{\"better\":null,\"death\":null,\"end\":{\"ending\":\"broken_off\",\"line\":\"a<\",\"reason\":null,\"record\":\"console-ramoops-0\"},\
\"machine\":{\"cmdline\":null,\"hardware\":null,\"kernel_offset\":null,\"modules\":null,\"version\":null},\"parameters\":{\"block_size\":128,",
            "\"text\":\"a<\\n\"",
        ),
        (
            Format::Html,
            "<!doctype html>\n<html lang=\"en\">\n",
            "<pre class=\"log\" id=\"console-ramoops-0\">\na&lt;\n</pre>",
        ),
        (
            Format::Brief,
            "a.img  -  no death: the log breaks off; the machine hung, lost power or was reset\n",
            "",
        ),
    ] {
        let Ok(shown) = reported(rt.alloc(), format, 4096)? else {
            return Err(Fail::from("the image was reported"));
        };
        let shown = str::from_utf8(&shown)?;
        assert!(rt; shown.starts_with(front) && shown.contains(piece));
    }
    Ok(())
}

// The report of an image as JSON, by these words.
fn json_by(alloc: Global, given: &[&str], image: Vec<u8>) -> Result<Vec<u8>, Fail> {
    let mut words = Vec::new(alloc);
    for word in given {
        words.push(String::from_str(alloc, word)?)?;
    }
    let plan = plan_of(alloc, words)?;
    let bytes = Bytes::from_vec(image);
    if bytes.len() > 8192 {
        return Err(Fail::from("the image is too long"));
    }
    let mut image = MemStore::new(bytes, 8192, Calls::new(alloc, &[])?)?;
    let mut out = MemSink::new(alloc, 65536, Calls::new(alloc, &[])?)?;
    match report(alloc, &plan, Format::Json, "a.img", &mut image, &mut out) {
        Ok(_) => Ok(Vec::from_slice(alloc, out.bytes())?),
        Err(_) => Err(Fail::from("the image was reported")),
    }
}

// The report of a dump, a console and two zones more, of which the first has five bytes, by words that give the sizes
// and this one.
fn laid_by(alloc: Global, word: &str, dump: &[u8], console: &[u8]) -> Result<Vec<u8>, Fail> {
    let words = [
        "mem_size=4096",
        "record_size=1024",
        "console_size=1024",
        "ftrace_size=1024",
        "pmsg_size=1024",
        word,
    ];
    let image = worked_deaths::image_of(alloc, [dump, console, b"user\n", NONE])?;
    json_by(alloc, &words, image)
}

fn is_shown(alloc: Global, row: &(&str, &[u8], &[u8], bool)) -> Result<bool, Fail> {
    let shown = laid_by(alloc, row.0, row.1, row.2)?;
    let shown = str::from_utf8(&shown)?;
    let order = match row.3 {
        true => "\"order\":\"console,pmsg,ftrace\"",
        false => "\"order\":\"console,ftrace,pmsg\"",
    };
    Ok(shown.contains(order) && shown.contains("\"text\":\"user\\n\"") == row.3)
}

// Pmsg stands before ftrace in Linux 6.12. The kernel that the record names which tells the death or the end says so, if
// no word does.
#[test]
fn an_order_that_the_records_tell(rt: HostRuntime) -> Result<(), Fail> {
    let rows: [(&str, &[u8], &[u8], bool); 8] = [
        (
            "ecc=0",
            NONE,
            b"[    0.0] Linux version 6.12.48+deb13-arm64 (a) #1\n",
            true,
        ),
        (
            "ecc=0",
            NONE,
            b"[    0.0] Linux version 6.1.192 (a) #1\n",
            false,
        ),
        (
            "ecc=0",
            NONE,
            b"[    0.0] Linux version 6.6.0 (a) #1\n",
            false,
        ),
        ("ecc=0", NONE, b"[    0.0] Linux\n", false),
        (
            "order=console,ftrace,pmsg",
            NONE,
            b"[    0.0] Linux version 6.12.0 (a) #1\n",
            false,
        ),
        (
            "order=console,pmsg,ftrace",
            NONE,
            b"[    0.0] Linux version 6.1.0 (a) #1\n",
            true,
        ),
        (
            "ecc=0",
            NEWER,
            b"[    0.0] Linux version 6.1.0 (a) #1\n",
            true,
        ),
        (
            "ecc=0",
            OOPS,
            b"[    0.0] Linux version 6.12.0 (a) #1\n",
            false,
        ),
    ];
    for row in rows {
        assert!(rt; is_shown(rt.alloc(), &row)?);
    }
    Ok(())
}

// Three dumps of 1024 bytes, of which the second tells of a death, and a console, by this size of a record.
fn sized_by(alloc: Global, size: &str) -> Result<Vec<u8>, Fail> {
    let words = [
        "mem_size=4096",
        size,
        "console_size=1024",
        "ftrace_size=0",
        "pmsg_size=0",
    ];
    let image = worked_deaths::image_of(alloc, [QUIET, PANIC, NONE, ORDERLY])?;
    json_by(alloc, &words, image)
}

// By a record size of 2048 the zones read well, and the dump that tells is none of them.
#[test]
fn a_death_that_words_pass_over(rt: HostRuntime) -> Result<(), Fail> {
    for (size, piece) in [
        ("record_size=1024", "{\"better\":null,\"death\":{"),
        (
            "record_size=2048",
            "{\"better\":\"record_size=1024 console_size=1024 ftrace_size=0 ",
        ),
    ] {
        let shown = sized_by(rt.alloc(), size)?;
        assert!(rt; str::from_utf8(&shown)?.starts_with(piece), "by {size}");
    }
    Ok(())
}

// A layout by words with parity, which the image lacks: no zone has a log.
fn misled(alloc: Global, format: Format) -> Result<Vec<u8>, Fail> {
    let mut words = console(alloc, "mem_size=4096")?;
    words.push(String::from_str(alloc, "ecc=32")?)?;
    let plan = plan_of(alloc, words)?;
    match reported_by(alloc, &plan, format, 4096)? {
        Ok(shown) => Ok(shown),
        Err(_) => Err(Fail::from("the image was reported")),
    }
}

#[test]
fn words_that_are_wrong(rt: HostRuntime) -> Result<(), Fail> {
    for (format, piece) in [
        (
            Format::Text,
            "give only these words: record_size=0 console_size=4096 ftrace_size=0 pmsg_size=0 ecc=0\n",
        ),
        (
            Format::Json,
            "{\"better\":\"record_size=0 console_size=4096 ftrace_size=0 pmsg_size=0 ecc=0\",",
        ),
        (
            Format::Html,
            "<p class=\"warn\"><b>Read with care.</b> Another layout explains it better; give only these words: \
record_size=0 console_size=4096 ftrace_size=0 pmsg_size=0 ecc=0</p>\n",
        ),
    ] {
        let shown = misled(rt.alloc(), format)?;
        assert!(rt; str::from_utf8(&shown)?.contains(piece));
    }
    Ok(())
}

#[test]
fn a_short_image(rt: HostRuntime) -> Result<(), Fail> {
    let stop = reported(rt.alloc(), Format::Json, 4095)?.err();
    assert_eq!(rt;
        stop,
        Some(Stop::Short {
            has: 4095,
            needed: 4096
        })
    );
    Ok(())
}

#[test]
fn plans(rt: HostRuntime) -> Result<(), Fail> {
    for (mem, is_as_given, fault) in [
        ("mem_size=4096", false, None),
        ("mem_size=6000", false, None),
        ("mem_size=6000", true, None),
        (
            "mem_size=0",
            false,
            Some(PlanFault::Layout(LayoutFault::NoMemory)),
        ),
        (
            "mem_size=0",
            true,
            Some(PlanFault::Layout(LayoutFault::NoMemory)),
        ),
        (
            "mem_size=x",
            true,
            Some(PlanFault::Word(ParamFault::NotANumber(0))),
        ),
        (
            "pmsg_size=1",
            true,
            Some(PlanFault::Word(ParamFault::Twice(3))),
        ),
    ] {
        let words = console(rt.alloc(), mem)?;
        let plan = Plan::new(rt.alloc(), &words, is_as_given);
        assert_eq!(rt; plan.err(), fault, "of {mem}");
    }
    Ok(())
}

// A folder that writes down what it is told to make, and fails at the call after the last that it is to do.
#[derive(Drop)]
struct Seen {
    files: Vec<u8>,
    left: u32,
    faults: u64,
}

impl Folder for Seen {
    ghost made = { λ _. None };

    ghost faults = { λ s. s.faults };

    fn make(&mut self, name: &str, content: &[u8]) -> Result<(), Failed> {
        if self.left == 0
            || self.files.extend_from_slice(name.as_bytes()).is_err()
            || self.files.push(b'=').is_err()
            || self.files.extend_from_slice(content).is_err()
        {
            self.faults = self.faults.saturating_add(1);
            return Err(Failed);
        }
        self.left -= 1;
        Ok(())
    }
}

// What a folder of so many files is told to make of the report on an image.
fn saved_of(
    alloc: Global,
    plan: &Plan,
    image: &mut MemStore,
    left: u32,
) -> Result<(Vec<u8>, bool), Fail> {
    let mut out = MemSink::new(alloc, 65536, Calls::new(alloc, &[])?)?;
    let Ok(report) = report(alloc, plan, Format::Text, "a.img", image, &mut out) else {
        return Err(Fail::from("the image was reported"));
    };
    let mut folder = Seen {
        files: Vec::new(alloc),
        left,
        faults: 0,
    };
    let is_saved = save(&mut folder, &report).is_ok();
    Ok((folder.files, is_saved))
}

fn saved(alloc: Global, left: u32) -> Result<(Vec<u8>, bool), Fail> {
    let plan = plan_of(alloc, console(alloc, "mem_size=4096")?)?;
    let mut image = store(alloc, 4096)?;
    saved_of(alloc, &plan, &mut image, left)
}

#[test]
fn records_as_files(rt: HostRuntime) -> Result<(), Fail> {
    let (files, is_saved) = saved(rt.alloc(), 9)?;
    assert!(rt; is_saved && files.as_slice() == b"console-ramoops-0=a<\n".as_slice());
    let (files, is_saved) = saved(rt.alloc(), 0)?;
    assert!(rt; !is_saved && files.is_empty());
    Ok(())
}

// The words of a layout of a dump alone.
fn dump(alloc: Global) -> Result<Vec<String>, Fail> {
    let mut words = Vec::new(alloc);
    for word in [
        "mem_size=256",
        "record_size=256",
        "console_size=0",
        "ftrace_size=0",
        "pmsg_size=0",
    ] {
        words.push(String::from_str(alloc, word)?)?;
    }
    Ok(words)
}

fn saved_dump(alloc: Global, packed: &[u8]) -> Result<(Vec<u8>, bool), Fail> {
    let plan = plan_of(alloc, dump(alloc)?)?;
    let bytes = Bytes::from_vec(image_of(alloc, packed)?);
    if bytes.len() > 256 {
        return Err(Fail::from("the image is too long"));
    }
    let mut image = MemStore::new(bytes, 256, Calls::new(alloc, &[])?)?;
    saved_of(alloc, &plan, &mut image, 9)
}

// The file of a compressed dump that inflates has its text; that of another has its bytes.
#[test]
fn compressed_dumps_as_files(rt: HostRuntime) -> Result<(), Fail> {
    for (packed, file) in [
        (
            &WHOLE[..],
            b"dmesg-ramoops-0=Panic#1 Part1\nred \x1b\\<b>\n".as_slice(),
        ),
        (
            &DAMAGED,
            b"dmesg-ramoops-0.enc.z=\x00\x06\x00\xf9\xff\nred \xc3\x07".as_slice(),
        ),
    ] {
        let (files, is_saved) = saved_dump(rt.alloc(), packed)?;
        assert!(rt; is_saved && files.as_slice() == file);
    }
    Ok(())
}
