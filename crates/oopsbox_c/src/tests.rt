// Each call once on its happy path, and its refusals.
use crate::*;
use std::alloc::Global;
use std::test::Fail;

const ONE_CONSOLE: &[u8] = b"mem_size=4096 record_size=0 ftrace_size=0 pmsg_size=0";

const LIST: &[u8] = b"image list mem_size=4096 record_size=0 ftrace_size=0 pmsg_size=0";

// An image of one console zone, which holds `abc`.
fn image() -> [u8; 4096] {
    let mut image = [0; 4096];
    image[..15].copy_from_slice(b"DBGC\0\0\0\0\x03\0\0\0abc");
    image
}

// The answer of a decoding of one byte, the byte then, and the number of corrected bytes.
fn decoded(byte: u8, parity: &[u8], places: &mut [u8]) -> (u32, u8, u32) {
    let mut message = [byte];
    let mut corrected = 7;
    let answer = oopsbox_rs_decode(&mut message, parity, places, &mut corrected);
    (answer, message[0], corrected)
}

#[test]
fn a_block_is_corrected(rt: HostRuntime) -> Result<(), Fail> {
    let mut parity = [0; 2];
    assert!(rt; oopsbox_rs_encode(&[1], &mut parity) == 0);
    assert!(rt; parity == [3, 2]);
    assert!(rt; oopsbox_rs_encode(&[1], &mut []) == 13);
    let mut places = [9];
    assert!(rt; decoded(0, &parity, &mut places) == (0, 1, 1));
    assert!(rt; places == [0]);
    assert!(rt; decoded(0, &[2, 2], &mut places) == (15, 0, 0));
    assert!(rt; decoded(0, &[2, 2], &mut []).0 == 12);
    assert!(rt; decoded(0, &[], &mut places).0 == 13);
    Ok(())
}

// The answer of a layout, with what it tells.
fn laid(alloc: Global, params: &[u8], places: &mut [ZonePlace]) -> (u32, LayoutAnswer) {
    let mut answer = LayoutAnswer::default();
    let status = oopsbox_layout(alloc, params, places, &mut answer);
    (status, answer)
}

#[test]
fn a_text_has_a_layout(rt: HostRuntime) -> Result<(), Fail> {
    let mut places = [ZonePlace::default(); 2];
    let (status, answer) = laid(rt.alloc(), ONE_CONSOLE, &mut places);
    assert!(rt; status == 0);
    assert!(rt; (answer.zones, answer.mem, answer.fault, answer.word) == (1, 4096, 0, 0));
    assert!(rt; (places[0].kind, places[0].size, places[0].cap) == (1, 4096, 4084));
    assert!(rt; places[1] == ZonePlace::default());
    assert!(rt; laid(rt.alloc(), ONE_CONSOLE, &mut []).0 == 12);
    Ok(())
}

#[test]
fn a_text_at_fault_has_no_layout(rt: HostRuntime) -> Result<(), Fail> {
    for (params, status, fault, word) in [
        (b"mem_size=1 ecx=1".as_slice(), 3, 1, 2),
        (b"mem_size=0", 3, 1, 0),
        (b"\xff", 13, 0, 0),
    ] {
        let (found, answer) = laid(rt.alloc(), params, &mut [ZonePlace::default(); 2]);
        assert!(rt; found == status);
        assert!(rt; (answer.fault, answer.word) == (fault, word));
    }
    Ok(())
}

// The answer of a zone's reading, with what it tells.
fn zone(alloc: Global, params: &[u8], i: u32, image: &[u8], log: &mut [u8]) -> (u32, ZoneAnswer) {
    let mut answer = ZoneAnswer::default();
    let status = oopsbox_zone(alloc, params, i, image, log, &mut answer);
    (status, answer)
}

#[test]
fn a_zone_is_read(rt: HostRuntime) -> Result<(), Fail> {
    let mut log = [b'-'; 4];
    let (status, answer) = zone(rt.alloc(), ONE_CONSOLE, 0, &image(), &mut log);
    assert!(rt; status == 0);
    assert!(rt; (answer.state, answer.size, answer.log) == (3, 3, 3));
    assert!(rt; log == [b'a', b'b', b'c', b'-']);
    Ok(())
}

#[test]
fn a_zone_may_not_be_read(rt: HostRuntime) -> Result<(), Fail> {
    let alloc = rt.alloc();
    let image = image();
    assert!(rt; zone(alloc, ONE_CONSOLE, 0, &image, &mut [0; 2]).0 == 12);
    assert!(rt; zone(alloc, ONE_CONSOLE, 1, &image, &mut [0; 4]).0 == 13);
    assert!(rt; zone(alloc, ONE_CONSOLE, 0, &[0; 4095], &mut [0; 4]).0 == 4);
    assert!(rt; zone(alloc, b"mem_size=0", 0, &image, &mut [0; 4]).0 == 3);
    Ok(())
}

// The answer of a run, with the lengths of image and text.
fn ran(alloc: Global, words: &[u8], length: u64, text: &mut [u8]) -> (u32, u64, u64) {
    let mut lengths = Lengths {
        image: length,
        text: 0,
    };
    let status = oopsbox_run(alloc, words, b"", &mut image(), text, &mut lengths);
    (status, lengths.image, lengths.text)
}

#[test]
fn the_tool_runs(rt: HostRuntime) -> Result<(), Fail> {
    let alloc = rt.alloc();
    let mut text = [b'-'; 64];
    assert!(rt; ran(alloc, LIST, 4096, &mut text) == (0, 4096, 30));
    assert!(rt; text.starts_with(b"records 1\nconsole-ramoops-0 3\n-".as_slice()));
    let (status, _, needed) = ran(alloc, LIST, 4096, &mut [0; 29]);
    assert!(rt; (status, needed) == (12, 30));
    assert!(rt; ran(alloc, b"image", 4096, &mut text).0 == 2);
    assert!(rt; ran(alloc, LIST, 4097, &mut text).0 == 13);
    Ok(())
}

// A storage of two dump zones of 4096 bytes, with one dump.
fn storage() -> [u8; 8192] {
    let mut image = [0; 8192];
    image[..16].copy_from_slice(b"DBGC\x2c\0\0\0\0\0\0\0\xe5\x3a\xfc\x4d");
    image[40] = 1;
    image[44] = 2;
    image[52..56].copy_from_slice(b"text");
    image
}

// The status of the storage's report by words, and what it tells.
fn reported(alloc: Global, words: &[u8], text: &mut [u8]) -> (u32, ReportAnswer) {
    let mut answer = ReportAnswer::default();
    let status = oopsbox_report(alloc, b"here", words, b"", &storage(), 0, text, &mut answer);
    (status, answer)
}

#[test]
fn a_storage_is_reported(rt: HostRuntime) -> Result<(), Fail> {
    let mut text = [b'-'; 4096];
    assert!(rt; reported(rt.alloc(), b"", &mut text).0 == 0);
    assert!(rt;
        text.starts_with(
            b"here: 8192 bytes; a storage of pstore_zone: kmsg_size=8192 console_size=0 ".as_slice()
        )
    );
    let (status, answer) = reported(rt.alloc(), b"pstore_blk.kmsg_size=64", &mut text);
    assert!(rt; (status, answer.fault, answer.word) == (3, 207, 0));
    Ok(())
}
