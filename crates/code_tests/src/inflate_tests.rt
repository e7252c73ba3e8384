// Streams that zlib wrote, and streams that it refuses, each with what zlib says: the text and the bytes it takes, or
// the text up to the fault.
use inflate::*;
use std::process::Abort;

// zlib's level 9 with fixed codes, and with codes of its own.
const OOPS: [u8; 10] = [0xcb, 0xcf, 0x2f, 0x28, 0x56, 0xc8, 0x87, 0x11, 0x8a, 0];

const LETTERS: [u8; 29] = [
    0x15, 0xc9, 0x31, 1, 0, 0, 0x0c, 0x83, 0x30, 0xad, 0x85, 0xfa, 0xd7, 0xb0, 0xee, 0xe1, 8, 0x0d,
    0x82, 0x36, 0x84, 0xc5, 0x28, 0xe9, 0x77, 0x63, 0x0e, 0x1d, 0x73,
];

// A block with no text, whose two codes have codewords of 15 bits: the longest that there are.
const LONG_CODES: [u8; 30] = [
    5, 0xef, 1, 0x82, 0x24, 0x49, 0x92, 0x24, 0x49, 2, 0x12, 0x8b, 0x9a, 0x47, 0x56, 0xcf, 0xde,
    0xff, 0x9f, 0x7b, 0x80, 0xc4, 0xa2, 0xe6, 0x91, 0xd5, 0xb3, 0x77, 0xff, 0x7f,
];

// Literals of 1 to 14 bits, and copies from codewords of 15, 15 and 14 bits behind a length's of 15 bits.
const LONG_CODEWORDS: [u8; 55] = [
    0x0d, 0xef, 0xdb, 0x82, 0x24, 0x49, 0x92, 0x24, 0xc9, 0x7e, 0x2b, 0x20, 0xb1, 0xa8, 0x79, 0x64,
    0xf5, 0xec, 0xff, 0x3f, 0x9e, 0xcb, 0x4e, 0x57, 0x86, 0x9b, 0x0a, 0x13, 0x82, 0x76, 0xef, 0xfb,
    0xfd, 0xfd, 0xfb, 0xef, 0x7f, 0xff, 0xf7, 0xff, 0xfe, 0xbf, 0xff, 0xff, 0xff, 0xef, 0xff, 0xff,
    0xff, 0xff, 0xff, 0xff, 0x7f, 0xff, 0x3f,
];

// A block with the fixed codes, that block, and two more with the fixed codes.
const FIXED_AGAIN: [u8; 62] = [
    0x4a, 4, 0x30, 0xbc, 0x6f, 0x0b, 0x92, 0x24, 0x49, 0x92, 0x24, 0xfb, 0xad, 0x80, 0xc4, 0xa2,
    0xe6, 0x91, 0xd5, 0xb3, 0xff, 0xff, 0x78, 0x2e, 0x3b, 0x5d, 0x19, 0x6e, 0x2a, 0x4c, 8, 0xda,
    0xbd, 0xef, 0xf7, 0xf7, 0xef, 0xbf, 0xff, 0xfd, 0xdf, 0xff, 0xfb, 0xff, 0xfe, 0xff, 0xff, 0xbf,
    0xff, 0xff, 0xff, 0xff, 0xff, 0xff, 0xff, 0xfd, 0xff, 0x94, 4, 0x58, 0x32, 0,
];

fn assert_text(rt: &(impl Abort + AllocGlobal), stream: &[u8], text: &[u8], taken: usize) {
    match inflate(rt.alloc(), stream, text.len()) {
        Ok(found) => {
            assert!(rt; found.text.as_slice() == text && found.taken == taken);
        }
        Err(_) => panic!(rt; "no text"),
    }
}

fn assert_broken(rt: &(impl Abort + AllocGlobal), stream: &[u8], text: &[u8], fault: Fault) {
    match inflate(rt.alloc(), stream, 1000) {
        Err(
            InflateError::Broken {
                fault: why,
                text: front,
            },
        ) => {
            assert!(rt; front.as_slice() == text && why == fault);
        }
        _ => panic!(rt; "not broken"),
    }
}

fn assert_too_long(rt: &(impl Abort + AllocGlobal), stream: &[u8], most: usize, text: &[u8]) {
    match inflate(rt.alloc(), stream, most) {
        Err(InflateError::TooLong { text: front }) => assert!(rt; front.as_slice() == text),
        _ => panic!(rt; "not too long"),
    }
}

#[test]
fn a_block_of_each_type(rt: HostRuntime) {
    assert_text(&rt, &[1, 3, 0, 0xfc, 0xff, b'a', b'b', b'c'], b"abc", 8);
    assert_text(&rt, &OOPS, b"oops oops oops!", 10);
    assert_text(
        &rt,
        &LETTERS,
        b"dabcbbccdababdabcaccbadaccbbcbccdbbddabb",
        29,
    );
    // a copy that reaches into itself
    assert_text(&rt, &[0x4b, 4, 2, 0], b"aaaa", 4);
}

#[test]
fn blocks_behind_one_another(rt: HostRuntime) {
    // a stored block that is not the last, and the fixed codes; then a byte that is none of the stream's
    let stream = [0, 1, 0, 0xfe, 0xff, b'!', 0x4b, 4, 2, 0, 9];
    assert_text(&rt, &stream, b"!aaaa", 10);
}

// No table is larger for codewords of more than ten bits: they are searched for, length by length.
#[test]
fn codewords_of_each_length(rt: HostRuntime) {
    assert_text(&rt, &LONG_CODES, b"", 30);
    assert_broken(&rt, &LONG_CODES[..29], b"", Fault::EndOfInput);
    assert_text(&rt, &LONG_CODEWORDS, b"abcdefghijklmnnnnnnnnnn", 55);
    assert_broken(
        &rt,
        &LONG_CODEWORDS[..45],
        b"abcdefghijklmn",
        Fault::EndOfInput,
    );
    assert_broken(
        &rt,
        &LONG_CODEWORDS[..54],
        b"abcdefghijklmnnnnnnnnnn",
        Fault::EndOfInput,
    );
}

// The fixed codes are kept from block to block.
#[test]
fn fixed_codes_again(rt: HostRuntime) {
    assert_text(&rt, &FIXED_AGAIN, b"aabcdefghijklmnnnnnnnnnnbc", 62);
}

#[test]
fn streams_that_break(rt: HostRuntime) {
    for (stream, text, fault) in [
        (b"".as_slice(), b"".as_slice(), Fault::EndOfInput),
        (&OOPS[..6], b"oops ", Fault::EndOfInput),
        (&[7], b"", Fault::ReservedBlock),
        (&[1, 3, 0, 0xfd, 0xff], b"", Fault::StoredLength),
        (&[0xf5, 0, 0, 0, 0, 0, 0, 0], b"", Fault::TooManyCodes),
        (&[5, 0x1e, 0, 0, 0, 0, 0, 0], b"", Fault::TooManyCodes),
        (&[5, 0, 0x92, 0], b"", Fault::OverSubscribed),
        (&[5, 0, 2, 0], b"", Fault::Incomplete),
        (&[5, 0, 0x12, 0], b"", Fault::NoPrevious),
        (&[5, 0, 0x80, 0xe4, 0x7f, 0x1b], b"", Fault::NoEndCode),
        (&[5, 0, 0x80, 0xe4, 0xff, 0x1f], b"", Fault::TooManyLengths),
        (&[0x1b, 3, 0], b"", Fault::MissingCode),
        (&[0x4b, 4, 0x3e, 0], b"a", Fault::MissingCode),
        (&[3, 2], b"", Fault::DistanceTooFar),
        (&[0x4b, 4, 0x42, 0], b"a", Fault::DistanceTooFar),
    ] {
        assert_broken(&rt, stream, text, fault);
    }
}

#[test]
fn texts_that_are_too_long(rt: HostRuntime) {
    // a copy is left out whole, a stored block's bytes are not
    assert_too_long(&rt, &OOPS, 14, b"oops oops oops");
    assert_too_long(&rt, &OOPS, 13, b"oops o");
    assert_too_long(&rt, &[1, 3, 0, 0xfc, 0xff, b'a', b'b', b'c'], 2, b"ab");
    assert_too_long(&rt, &OOPS, 0, b"");
}

fn assert_taken_or_memory(rt: &(impl Abort + AllocGlobal), stream: &[u8]) {
    match inflate(rt.alloc(), stream, 100) {
        Ok(found) => assert!(rt; found.taken == stream.len()),
        Err(InflateError::Memory) => (),
        _ => panic!(rt; "another fault"),
    }
}

// Run with each allocation refused in turn: the answer is a want of memory, or the text.
#[test]
fn a_refused_growth_is_told(rt: HostRuntime) {
    assert_taken_or_memory(&rt, &LETTERS);
    assert_taken_or_memory(&rt, &FIXED_AGAIN);
}
