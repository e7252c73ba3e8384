// Images of one compressed dump, for the tests of each crate.
use crate::whole_reports::{self, BARE};
use ramoops_layout::Params;
use region_report::Report;
use std::alloc::Global;
use std::test::Fail;

/// What zlib makes of the text `Panic#1 Part1`, a newline, `red `, an escape, `\\<b>` and a newline.
pub const WHOLE: [u8; 26] = [
    0x0b, 0x48, 0xcc, 0xcb, 0x4c, 0x56, 0x36, 0x54, 0x08, 0x48, 0x2c, 0x2a, 0x31, 0xe4, 0x2a, 0x4a,
    0x4d, 0x51, 0x90, 0x8e, 0xb1, 0x49, 0xb2, 0xe3, 0x02, 0x00,
];

pub const TEXT: &[u8] = b"Panic#1 Part1\nred \x1b\\<b>\n";

/// A stored block of a newline, `red ` and the first byte of a letter of two, and then a block of type 3.
pub const DAMAGED: [u8; 12] = [
    0, 6, 0, 0xf9, 0xff, b'\n', b'r', b'e', b'd', b' ', 0xc3, 0x07,
];

// A dump of 256 bytes alone.
pub const PARAMS: Params = Params {
    mem: 256,
    dump: 256,
    ..BARE
};

/// The image of a dump of these bytes, whose time line says that they are compressed.
pub fn image_of(alloc: Global, packed: &[u8]) -> Result<Vec<u8>, Fail> {
    let used = u8::try_from(packed.len().saturating_add(24))?;
    let mut bytes = Vec::new(alloc);
    bytes.extend_from_slice(&[0x44, 0x42, 0x47, 0x43, used, 0, 0, 0, used, 0, 0, 0])?;
    bytes.extend_from_slice(b"====1764201858.836908-C\n")?;
    bytes.extend_from_slice(packed)?;
    bytes.resize(256, 0)?;
    Ok(bytes)
}

pub fn report_on(alloc: Global, packed: &[u8]) -> Result<Report, Fail> {
    whole_reports::report_on(alloc, &PARAMS, image_of(alloc, packed)?)
}
