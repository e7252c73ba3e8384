// Images made of a number, with parity.
use crate::run_tests::{NONE, left_by, outcome};
use std::test::Fail;

// The number that stands after a word of a line.
fn number_after(line: &str, word: &str) -> Option<u32> {
    let (_, rest) = line.split_once(word)?;
    match rest.split_once(' ') {
        Some((digits, _)) => digits.parse().ok(),
        None => rest.trim_end().parse().ok(),
    }
}

// The sum of the two counts of a line, of zones as told and of others.
fn sum_of_counts(line: &str) -> Option<u32> {
    let told = number_after(line, " as-told ")?;
    let other = number_after(line, " differs ")?;
    told.checked_add(other)
}

#[test]
fn an_image_is_made_with_parity(rt: HostRuntime) {
    let line = "image make 1 mem_size=16384 ftrace_size=0 ecc=1";
    let text =
        b"make 1 zones 4 calls 194 stores 88214 flips 3133 as-told 30 differs 2\n".as_slice();
    let _image = left_by(&rt, line, &[], &[0; 16384], NONE, 0, text);
}

// The most parity bytes that there are: a decoder that searched sets of places would not end.
#[test]
fn an_image_with_most_parity_is_made_in_time(rt: HostRuntime) -> Result<(), Fail> {
    let line = "image make 1 mem_size=16384 ftrace_size=0 ecc=127";
    let ran = outcome(rt.alloc(), line, &[], &[0; 16384], NONE)?;
    assert!(rt; ran.status == 0);
    let text = String::from_utf8(ran.text)?;
    assert!(rt; text.starts_with("make 1 zones 4 calls ") && text.ends_with("\n"));
    assert!(rt; sum_of_counts(&text) == Some(32));
    Ok(())
}
