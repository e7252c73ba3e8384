// Reports: what is answered, and what is written.
use crate::*;
use std::alloc::Global;
use std::test::Fail;

const ONE_CONSOLE: &[u8] = b"mem_size=4096 record_size=0 ftrace_size=0 pmsg_size=0";

// An image of one console zone, which holds `abc`.
fn image() -> [u8; 4096] {
    let mut image = [0; 4096];
    image[..15].copy_from_slice(b"DBGC\0\0\0\0\x03\0\0\0abc");
    image
}

// The answer of a report on an image under the name `here`, with what it tells.
fn reported(
    alloc: Global,
    words: &[u8],
    image: &[u8],
    format: u32,
    text: &mut [u8],
) -> (u32, ReportAnswer) {
    let mut answer = ReportAnswer::default();
    let status = oopsbox_report(alloc, b"here", words, b"", image, format, text, &mut answer);
    (status, answer)
}

#[test]
fn an_image_is_reported(rt: HostRuntime) -> Result<(), Fail> {
    let mut text = [b'-'; 4096];
    for (format, front) in [
        (0, b"no death: the log breaks off;".as_slice()),
        (1, b"{".as_slice()),
        (2, b"<!doctype html>".as_slice()),
    ] {
        let (status, answer) = reported(rt.alloc(), ONE_CONSOLE, &image(), format, &mut [0; 65536]);
        assert!(rt; (status, answer.hint, answer.fault) == (0, 0, 0));
        let (status, again) = reported(rt.alloc(), ONE_CONSOLE, &image(), format, &mut text);
        assert!(rt; status == if answer.text <= 4096 { 0 } else { 12 });
        assert!(rt; again == answer);
        assert!(rt; status == 12 || text.starts_with(front));
        text = [b'-'; 4096];
    }
    Ok(())
}

#[test]
fn a_short_buffer_is_left(rt: HostRuntime) -> Result<(), Fail> {
    let mut text = [b'-'; 100];
    let (status, answer) = reported(rt.alloc(), ONE_CONSOLE, &image(), 0, &mut text);
    assert!(rt; status == 12);
    assert!(rt; answer.text > 100);
    assert!(rt; text == [b'-'; 100]);
    Ok(())
}

#[test]
fn arguments_are_refused(rt: HostRuntime) -> Result<(), Fail> {
    let alloc = rt.alloc();
    for (words, len, format, status, word, fault, needed) in [
        (ONE_CONSOLE, 4096, 3, 13, 0, 0, 0),
        (b"\xff".as_slice(), 4096, 0, 13, 0, 0, 0),
        (ONE_CONSOLE, 4095, 0, 4, 0, 0, 4096),
        (b"mem_size=4096 ecx=1", 4096, 0, 3, 2, 1, 0),
        (b"mem_size=0", 4096, 0, 3, 0, 1, 0),
        (b"ecc_pmsg=1", 4096, 0, 3, 0, 105, 0),
        (b"", 0, 0, 17, 0, 1, 0),
    ] {
        let (found, answer) = reported(alloc, words, &image()[..len], format, &mut [0; 65536]);
        assert!(rt; found == status);
        assert!(rt; (answer.word, answer.fault, answer.needed) == (word, fault, needed));
        assert!(rt; (answer.hint, answer.text) == (0, 0));
    }
    Ok(())
}

#[test]
fn a_tree_is_asked(rt: HostRuntime) -> Result<(), Fail> {
    let mut answer = ReportAnswer::default();
    let status = oopsbox_report(
        rt.alloc(),
        b"",
        b"",
        b"no tree",
        &image(),
        0,
        &mut [],
        &mut answer,
    );
    assert!(rt; (status, answer.fault) == (18, 1));
    Ok(())
}

// A layout that is looked for is told in front of the text; where none is taken, the best is told.
#[test]
fn a_layout_is_looked_for(rt: HostRuntime) -> Result<(), Fail> {
    let mut text = [b'-'; 65536];
    let (status, answer) = reported(rt.alloc(), b"", &image(), 0, &mut text);
    assert!(rt; status == 0 || status == 17);
    assert!(rt; answer.hint > 0);
    assert!(rt; text.starts_with(b"here: ".as_slice()));
    Ok(())
}
