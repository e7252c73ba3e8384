// Bytes in bad blocks: which of a record they are, and the marks of their lines in text and page.
use crate::whole_reports::{self, BARE, console, has, page_of, text_on};
use ramoops_layout::Params;
use region_report::{Report, doubts_between, has_doubt};
use std::alloc::Global;
use std::process::Abort;
use std::test::Fail;

// A console that ends in block 2; the second, third and fourth line have bytes in block 1.
const LINES: &[u8] =
    b"[    1.000000] aaaaaaaaaaaaaaaaaaaaaaaaaaaaaaaaaaaaaaaaaaaaaaaaaaaaaaaaaaaa\n\
[    2.000000] bbbbbbbbbbbbbbbbbbbbbbbbbbbbbbbbbbbbbbbbbbbbbbbbbbbbbbbbbbbb\n\
[    3.000000] Kernel panic - not syncing: c\n\
[    4.000000] dddddddddddddddddddddddddddddddddddddddddddddddddddddddddddd\n\
[    5.000000] e\n";

// With 16 parity bytes: of its header, with start and size 290, and of its blocks.
const HEADER: [u8; 12] = [0x44, 0x42, 0x47, 0x43, 0x22, 1, 0, 0, 0x22, 1, 0, 0];

const PARITY_OF_HEADER: [u8; 16] = [
    0x07, 0x40, 0xa4, 0xd7, 0x2a, 0x39, 0xe7, 0x86, 0x38, 0xd9, 0x28, 0x4a, 0xbb, 0xf4, 0xb9, 0x31,
];

const PARITY_OF_BLOCK_0: [u8; 16] = [
    0xb6, 0x82, 0xcc, 0x5c, 0x43, 0xc4, 0x56, 0x96, 0x7b, 0xc4, 0xca, 0x3c, 0x00, 0xa7, 0x7f, 0x19,
];

const PARITY_OF_BLOCK_1: [u8; 16] = [
    0x84, 0xf3, 0xda, 0xe4, 0x36, 0xc7, 0xba, 0xa1, 0xc6, 0xa4, 0xb4, 0xe8, 0x0a, 0x0c, 0x19, 0xef,
];

const PARITY_OF_BLOCK_2: [u8; 16] = [
    0xaf, 0x40, 0x1d, 0xca, 0x6f, 0x2f, 0x88, 0xb1, 0xb4, 0x81, 0xd6, 0x44, 0xdd, 0x31, 0x2f, 0x7d,
];

// The image of the console zone, with this parity of block 1. Its 29 blocks have their parity from 3616 on, the header
// from 4080 on.
fn image_of(alloc: Global, parity: &[u8; 16]) -> Result<Vec<u8>, Fail> {
    let mut bytes = Vec::new(alloc);
    bytes.extend_from_slice(&HEADER)?;
    bytes.extend_from_slice(LINES)?;
    bytes.resize(3616, 0)?;
    bytes.extend_from_slice(&PARITY_OF_BLOCK_0)?;
    bytes.extend_from_slice(parity)?;
    bytes.extend_from_slice(&PARITY_OF_BLOCK_2)?;
    bytes.resize(4080, 0)?;
    bytes.extend_from_slice(&PARITY_OF_HEADER)?;
    Ok(bytes)
}

fn bad_image(alloc: Global) -> Result<Vec<u8>, Fail> {
    image_of(alloc, &[0; 16])
}

fn doubts<'a>(rt: &impl Abort, report: &'a Report) -> &'a [bool] {
    match report.records() {
        [record] => record.doubts.as_slice(),
        _ => panic!(rt; "there is one record"),
    }
}

// Whether all bytes between two places are doubtful, or none.
fn assert_doubts(rt: &impl Abort, doubts: &[bool], from: usize, to: usize, doubtful: bool) {
    let between = doubts_between(doubts, from, to);
    assert!(rt; between.len() == to.saturating_sub(from));
    assert!(rt; between.iter().all(|doubt| *doubt == doubtful));
}

#[test]
fn a_bad_block(rt: HostRuntime) -> Result<(), Fail> {
    let report = whole_reports::report_on(rt.alloc(), &console(16), bad_image(rt.alloc())?)?;
    let doubts = doubts(&rt, &report);
    assert!(rt; doubts.len() == 290);
    assert_doubts(&rt, doubts, 0, 128, false);
    assert_doubts(&rt, doubts, 128, 256, true);
    assert_doubts(&rt, doubts, 256, 290, false);
    assert!(rt; has_doubt(doubts, 127, 129) && has_doubt(doubts, 255, 1000));
    assert!(rt; !has_doubt(doubts, 0, 128) && !has_doubt(doubts, 256, 1000));
    assert!(rt; !has_doubt(doubts, 200, 200) && !has_doubt(doubts, 290, 1000));
    Ok(())
}

#[test]
fn no_bad_block(rt: HostRuntime) -> Result<(), Fail> {
    let image = image_of(rt.alloc(), &PARITY_OF_BLOCK_1)?;
    let report = whole_reports::report_on(rt.alloc(), &console(16), image)?;
    assert!(rt; doubts(&rt, &report).is_empty());
    Ok(())
}

// A console zone of 256 bytes, with two blocks of which the second has 68 bytes.
const SMALL: Params = Params {
    console: 256,
    ecc: 16,
    ecc_console: 16,
    ..BARE
};

// A full ring of 196 zeros that begins at 150; its second block is bad. Of the log this is the front, and the bytes
// from place 128 to 150.
#[test]
fn a_ring_that_went_round(rt: HostRuntime) -> Result<(), Fail> {
    let mut bytes = Vec::new(rt.alloc());
    bytes.extend_from_slice(&[0x44, 0x42, 0x47, 0x43, 150, 0, 0, 0, 196, 0, 0, 0])?;
    bytes.resize(224, 0)?;
    bytes.resize(240, 0xff)?;
    bytes.extend_from_slice(&[
        0x40, 0xb2, 0xf9, 0x48, 0xbf, 0xe8, 0x1d, 0x05, 0x9a, 0x1e, 0x68, 0xa2, 0x45, 0x14, 0x68,
        0x2b,
    ])?;
    bytes.resize(4096, 0)?;
    let report = whole_reports::report_on(rt.alloc(), &SMALL, bytes)?;
    let doubts = doubts(&rt, &report);
    assert!(rt; doubts.len() == 196);
    assert_doubts(&rt, doubts, 0, 46, true);
    assert_doubts(&rt, doubts, 46, 174, false);
    assert_doubts(&rt, doubts, 174, 196, true);
    Ok(())
}

#[test]
fn marks_of_a_text(rt: HostRuntime) -> Result<(), Fail> {
    let text = text_on(rt.alloc(), b"a", &console(16), bad_image(rt.alloc())?)?;
    for lines in [
        "
  [    1.000000] aaaaaaaaaaaaaaaaaaaaaaaaaaaaaaaaaaaaaaaaaaaaaaaaaaaaaaaaaaaa
~ [    2.000000] bbbbbbbbbbbbbbbbbbbbbbbbbbbbbbbbbbbbbbbbbbbbbbbbbbbbbbbbbbbb
>~[    3.000000] Kernel panic - not syncing: c
~ [    4.000000] dddddddddddddddddddddddddddddddddddddddddddddddddddddddddddd
  [    5.000000] e
",
        "last lines of the console
  [    1.000000] aaaaaaaaaaaaaaaaaaaaaaaaaaaaaaaaaaaaaaaaaaaaaaaaaaaaaaaaaaaa
~ [    2.000000] bbbbbbbbbbbbbbbbbbbbbbbbbbbbbbbbbbbbbbbbbbbbbbbbbbbbbbbbbbbb
~ [    3.000000] Kernel panic - not syncing: c
~ [    4.000000] dddddddddddddddddddddddddddddddddddddddddddddddddddddddddddd
  [    5.000000] e
",
    ] {
        assert!(rt; has(text.as_slice(), lines)?, "{lines}");
    }
    Ok(())
}

#[test]
fn a_text_without_marks(rt: HostRuntime) -> Result<(), Fail> {
    let image = image_of(rt.alloc(), &PARITY_OF_BLOCK_1)?;
    let text = text_on(rt.alloc(), b"a", &console(16), image)?;
    assert!(rt; !has(text.as_slice(), "~")?);
    assert!(rt;
        has(
            text.as_slice(),
            "\n> [    3.000000] Kernel panic - not syncing: c\n"
        )?
    );
    Ok(())
}

#[test]
fn marks_of_a_page(rt: HostRuntime) -> Result<(), Fail> {
    let params = console(16);
    let report = whole_reports::report_on(rt.alloc(), &params, bad_image(rt.alloc())?)?;
    let page = page_of(rt.alloc(), b"a", &params, &report)?;
    let lines = "aaaaaaaaaaaa
<u title=\"in a bad block\">[    2.000000] bbbbbbbbbbbbbbbbbbbbbbbbbbbbbbbbbbbbbbbbbbbbbbbbbbbbbbbbbbbb
</u><mark><u title=\"in a bad block\">[    3.000000] Kernel panic - not syncing: c
</u></mark><u title=\"in a bad block\">[    4.000000] dddddddddddddddddddddddddddddddddddddddddddddddddddddddddddd
</u>[    5.000000] e
";
    assert!(rt; has(page.as_slice(), lines)?);
    Ok(())
}

#[test]
fn a_page_without_marks(rt: HostRuntime) -> Result<(), Fail> {
    let params = console(16);
    let image = image_of(rt.alloc(), &PARITY_OF_BLOCK_1)?;
    let report = whole_reports::report_on(rt.alloc(), &params, image)?;
    let page = page_of(rt.alloc(), b"a", &params, &report)?;
    assert!(rt; !has(page.as_slice(), "<u ")?);
    Ok(())
}
