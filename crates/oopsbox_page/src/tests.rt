// The page's call on its happy path, and its refusals.
use crate::*;
use report_entry::ReportAnswer;
use std::test::Fail;

const LINE: &[u8] =
    b"quiet ramoops.mem_size=4096 ramoops.record_size=0 ramoops.ftrace_size=0 ramoops.pmsg_size=0";

// The status of a call on an image of no signed zone, and what it tells.
fn reported(
    alloc: std::alloc::Global,
    line: &[u8],
    words: &[u8],
    text: &mut [u8],
) -> (u32, ReportAnswer) {
    let mut answer = ReportAnswer::default();
    let status = oopsbox_page_report(
        alloc,
        line,
        b"here",
        words,
        b"",
        &[0; 4096],
        0,
        text,
        &mut answer,
    );
    (status, answer)
}

#[test]
fn a_line_lays_the_image_out(rt: HostRuntime) -> Result<(), Fail> {
    let alloc = rt.alloc();
    let mut text = [b'-'; 4096];
    let (status, answer) = reported(alloc, LINE, b"", &mut text);
    assert!(rt; (status, answer.hint) == (0, 0));
    assert!(rt;
        text.starts_with(b"no death: no record tells of the kernel\n  image      here\n".as_slice())
    );
    assert!(rt; reported(alloc, LINE, b"", &mut [0; 5]).0 == 12);
    assert!(rt; reported(alloc, LINE, b"\xff", &mut text).0 == 13);
    assert!(rt; reported(alloc, b"\"", b"", &mut text).0 == 13);
    let (status, answer) = reported(alloc, LINE, b"mem_size=1", &mut text);
    assert!(rt; (status, answer.word, answer.fault) == (3, 5, 2));
    Ok(())
}

// A storage of two dump zones of 4096 bytes, with one dump.
fn storage() -> [u8; 8192] {
    let mut image = [0; 8192];
    image[..16].copy_from_slice(b"DBGC\x2c\0\0\0\0\0\0\0\xe5\x3a\xfc\x4d");
    image[40] = 1;
    image[44] = 2;
    image[52..56].copy_from_slice(b"text");
    image
}

#[test]
fn a_storage_is_reported(rt: HostRuntime) -> Result<(), Fail> {
    let mut text = [b'-'; 4096];
    let mut answer = ReportAnswer::default();
    let status = oopsbox_page_report(
        rt.alloc(),
        b"ro pstore_blk.blkdev=/dev/sda9 pstore_blk.kmsg_size=4",
        b"here",
        b"",
        b"",
        &storage(),
        0,
        &mut text,
        &mut answer,
    );
    assert!(rt; status == 0);
    assert!(rt; answer.hint == 191);
    assert!(rt;
        text.starts_with(
            b"here: 8192 bytes; a storage of pstore_zone: kmsg_size=4096 console_size=0 ".as_slice()
        )
    );
    Ok(())
}
