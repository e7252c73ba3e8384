// The commands that speak of the records of an image, and of one that is made.
use crate::run_tests::{NONE, is_all, left_by};
use std::alloc::{AllocError, Global};
use std::process::Abort;
use std::test::Fail;

const PARAMS: &str = "mem_size=4096 record_size=0 ftrace_size=0 pmsg_size=0";

// Does a command on an image, looks at its answer, and gives the image that it leaves.
fn answered(
    rt: &(impl Abort + AllocGlobal),
    command: &str,
    image: &[u8],
    status: u8,
    text: &[u8],
) -> Vec<u8> {
    let line = format!(in rt.alloc(); "image {command} {PARAMS}").expect(rt, "no memory");
    left_by(rt, &line, b"wipe".as_slice(), image, NONE, status, text)
}

// Looks at the answer of a command that leaves the image as it is.
fn assert_shown(rt: &(impl Abort + AllocGlobal), command: &str, image: &[u8], text: &[u8]) {
    let same = answered(rt, command, image, 0, text);
    assert!(rt; same.as_slice() == image);
}

// An image of zeros but for a console record.
fn recorded(alloc: Global) -> Result<Vec<u8>, AllocError> {
    let mut image = Vec::from_slice(alloc, b"DBGC\x03\0\0\0\x03\0\0\0abc".as_slice())?;
    image.resize(4096, 0)?;
    Ok(image)
}

#[test]
fn records_are_listed_extracted_and_erased(rt: HostRuntime) -> Result<(), Fail> {
    let told = recorded(rt.alloc())?;
    assert_shown(&rt, "list", &told, b"records 1\nconsole-ramoops-0 3\n");
    assert_shown(&rt, "extract console-ramoops-0", &told, b"abc");
    let image = answered(&rt, "erase console-ramoops-0", &told, 0, &[]);
    assert!(rt; image.starts_with(b"DBGC\0\0\0\0\0\0\0\0abc\0".as_slice()));
    let _image = answered(&rt, "list", &image, 0, b"records 0\n".as_slice());
    Ok(())
}

const UNLISTED: &[&str] = &["extract pmsg-ramoops-0", "erase pmsg-ramoops-0", "erase x"];

// A name of no listed record is refused as a script's second line would be, and the image stays.
#[test]
fn a_record_that_is_not_listed_is_refused(rt: HostRuntime) {
    for command in UNLISTED.iter().copied() {
        let text = b"line 2 refused: no record\n".as_slice();
        let left = answered(&rt, command, &[0x55; 4096], 10, text);
        assert!(rt; is_all(&left, 0, 0x55), "{command}");
    }
}

// The same number makes the same image, whatever stood there.
#[test]
fn an_image_is_made_of_a_number(rt: HostRuntime) {
    let text = b"make 1 zones 1 calls 96 stores 34861 flips 0 as-told 5 differs 3\n".as_slice();
    let made = answered(&rt, "make 1", &[0; 4096], 0, text);
    let same = answered(&rt, "make 1", &[0xff; 4096], 0, text);
    assert!(rt; made.as_slice() == same.as_slice());
}
