// Files that gzip and zlib wrote and read, and files that they refuse.
use gzip::*;
use inflate_spec::Fault;
use std::process::Abort;

// `printf abc | gzip -n`
const ABC: [u8; 23] = [
    0x1f, 0x8b, 8, 0, 0, 0, 0, 0, 0, 3, 0x4b, 0x4c, 0x4a, 6, 0, 0xc2, 0x41, 0x24, 0x35, 3, 0, 0, 0,
];

// A header with each field: extra bytes, a name, a comment and its CRC. zlib reads it, and checks the CRC.
const FIELDS: [u8; 67] = [
    0x1f, 0x8b, 8, 0x1e, 0xb2, 0xa1, 0x50, 0x66, 2, 3, 6, 0, 0x41, 0x42, 2, 0, 0x78, 0x79, 0x63,
    0x6f, 0x6e, 0x73, 0x6f, 0x6c, 0x65, 0x2d, 0x72, 0x61, 0x6d, 0x6f, 0x6f, 0x70, 0x73, 0x2d, 0x30,
    0, 0x6f, 0x66, 0x20, 0x61, 0x20, 0x62, 0x6f, 0x61, 0x72, 0x64, 0, 0x48, 0x9c, 0xcb, 0xcf, 0x2f,
    0x28, 0x56, 0xc8, 0x87, 0x11, 0x8a, 0, 0x7b, 4, 0x77, 0xc5, 0x0f, 0, 0, 0,
];

// Python's gzip.compress(b"", mtime=0)
const EMPTY: [u8; 20] = [
    0x1f, 0x8b, 8, 0, 0, 0, 0, 0, 2, 3, 3, 0, 0, 0, 0, 0, 0, 0, 0, 0,
];

fn assert_text(rt: &(impl Abort + AllocGlobal), file: &[u8], text: &[u8]) {
    match gunzip(rt.alloc(), file, text.len()) {
        Ok(found) => assert!(rt; found.as_slice() == text),
        Err(_) => panic!(rt; "no text"),
    }
}

fn assert_broken(rt: &(impl Abort + AllocGlobal), file: &[u8], text: &[u8], fault: GzipFault) {
    match gunzip(rt.alloc(), file, 1000) {
        Err(
            GzipError::Broken {
                fault: why,
                text: front,
            },
        ) => {
            assert!(rt; front.as_slice() == text && why == fault);
        }
        _ => panic!(rt; "not broken"),
    }
}

fn assert_too_long(rt: &(impl Abort + AllocGlobal), file: &[u8], most: usize, text: &[u8]) {
    match gunzip(rt.alloc(), file, most) {
        Err(GzipError::TooLong { text: front }) => assert!(rt; front.as_slice() == text),
        _ => panic!(rt; "not too long"),
    }
}

#[test]
fn members_with_and_without_fields(rt: HostRuntime) {
    assert_text(&rt, &ABC, b"abc");
    assert_text(&rt, &FIELDS, b"oops oops oops!");
    assert_text(&rt, &EMPTY, b"");
}

// FTEXT says that the file is probably a text, and nothing of its bytes.
#[test]
fn a_member_that_says_it_is_a_text(rt: HostRuntime) {
    let mut file = ABC;
    file[3] = 1;
    assert_text(&rt, &file, b"abc");
}

// That file twice.
const TWO: [u8; 46] = [
    0x1f, 0x8b, 8, 0, 0, 0, 0, 0, 0, 3, 0x4b, 0x4c, 0x4a, 6, 0, 0xc2, 0x41, 0x24, 0x35, 3, 0, 0, 0,
    0x1f, 0x8b, 8, 0, 0, 0, 0, 0, 0, 3, 0x4b, 0x4c, 0x4a, 6, 0, 0xc2, 0x41, 0x24, 0x35, 3, 0, 0, 0,
];

#[test]
fn members_behind_one_another(rt: HostRuntime) {
    assert_text(&rt, &TWO, b"abcabc");
    assert_too_long(&rt, &TWO, 4, b"abca");
    assert_broken(&rt, &TWO[..40], b"abcabc", GzipFault::CutTrailer);
    assert_broken(&rt, &TWO[..24], b"abc", GzipFault::TrailingBytes);
}

#[test]
fn a_byte_that_is_wrong(rt: HostRuntime) {
    for (at, byte, text, fault) in [
        (0, 0x1e, b"".as_slice(), GzipFault::NotGzip),
        (2, 7, b"", GzipFault::UnknownMethod),
        (3, 0x20, b"", GzipFault::ReservedFlag),
        (
            10,
            0x4f,
            b"",
            GzipFault::Body {
                fault: Fault::ReservedBlock,
            },
        ),
        (15, 0xc3, b"abc", GzipFault::TextCrc),
        (19, 4, b"abc", GzipFault::TextLength),
    ] {
        if at < 23 {
            let mut file = ABC;
            file[at] = byte;
            assert_broken(&rt, &file, text, fault);
        }
    }
}

#[test]
fn files_that_are_cut(rt: HostRuntime) {
    let cut = GzipFault::Body {
        fault: Fault::EndOfInput,
    };
    assert_broken(&rt, b"", b"", GzipFault::NotGzip);
    assert_broken(&rt, &ABC[..9], b"", GzipFault::CutHeader);
    assert_broken(&rt, &ABC[..12], b"a", cut);
    assert_broken(&rt, &ABC[..22], b"abc", GzipFault::CutTrailer);
    assert_broken(&rt, &FIELDS[..17], b"", GzipFault::CutHeader);
    assert_broken(&rt, &FIELDS[..30], b"", GzipFault::CutHeader);
    assert_broken(&rt, &FIELDS[..48], b"", GzipFault::CutHeader);
}

#[test]
fn a_header_of_another_crc(rt: HostRuntime) {
    let mut file = FIELDS;
    file[20] = b'N';
    assert_broken(&rt, &file, b"", GzipFault::HeaderCrc);
}

fn assert_text_or_memory(rt: &(impl Abort + AllocGlobal), file: &[u8], text: &[u8]) {
    match gunzip(rt.alloc(), file, text.len()) {
        Ok(found) => assert!(rt; found.as_slice() == text),
        Err(GzipError::Memory) => (),
        _ => panic!(rt; "another fault"),
    }
}

// Run with each allocation refused in turn: the answer is a want of memory, or the text.
#[test]
fn a_refused_growth_is_told(rt: HostRuntime) {
    assert_text_or_memory(&rt, &TWO, b"abcabc");
}

// The check value of CRC-32, as catalogues of CRCs have it.
#[test]
fn crc_of_nine_digits(rt: HostRuntime) {
    assert!(rt; crc32::crc32(b"123456789") == 0xcbf4_3926);
    assert!(rt; crc32::crc32(b"") == 0);
}
