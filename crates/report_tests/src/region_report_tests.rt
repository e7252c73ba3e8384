// Worked images: what their reports hold.
use crate::packed_dumps::{DAMAGED, TEXT, WHOLE, report_on};
use crate::whole_reports::{self, console};
use inflate_spec::Fault;
use region_report::*;
use std::alloc::Global;
use std::process::Abort;
use std::test::Fail;
use zone_spec::Name;

const HEADER_OF_3: [u8; 12] = [0x44, 0x42, 0x47, 0x43, 3, 0, 0, 0, 3, 0, 0, 0];

// With 16 parity bytes: of that header, and of a block that is `abc` and zeros.
const PARITY_OF_3: [u8; 16] = [
    0xc2, 0xf9, 0xf8, 0x14, 0x2e, 0x2d, 0x27, 0xfa, 0x23, 0x8b, 0x36, 0x44, 0x1e, 0xcb, 0xbb, 0xbf,
];

const PARITY_OF_ABC: [u8; 16] = [
    0x1f, 0x26, 0x9b, 0x69, 0xe2, 0x69, 0x57, 0x21, 0x4c, 0x75, 0xf6, 0x85, 0xb7, 0xc5, 0x2c, 0x42,
];

fn put(bytes: &mut Vec<u8>, at: usize, piece: &[u8]) {
    for (i, b) in piece.iter().enumerate() {
        if let Some(place) = bytes.get_mut(at.wrapping_add(i)) {
            *place = *b;
        }
    }
}

fn dump(packed: bool) -> Name {
    Name::Dump { index: 0, packed }
}

// The report of the console zone with this record's text. It has 29 blocks, their parity from 3616 on, the header's
// from 4080 on.
fn reported(alloc: Global, text: &[u8]) -> Result<Report, Fail> {
    let mut bytes = vec![in alloc; 0u8; 4096]?;
    put(&mut bytes, 0, &HEADER_OF_3);
    put(&mut bytes, 12, text);
    put(&mut bytes, 3616, &PARITY_OF_ABC);
    put(&mut bytes, 4080, &PARITY_OF_3);
    whole_reports::report_on(alloc, &console(16), bytes)
}

fn assert_blocks(rt: &impl Abort, report: &Report, block: PartState, corrected: u32, bad: u32) {
    assert!(rt; report.logs().len() == 1 && report.parts().len() == 1);
    let read = report.parts().first().expect(rt, "one zone");
    assert!(rt; read.header == PartState::Read(0) && read.blocks.as_slice() == [block].as_slice());
    let reading = report.logs().reading(0).expect(rt, "one reading");
    assert!(rt; (reading.corrected, reading.bad) == (corrected, bad));
}

// A found console zone, its one used block as told or with so many wrong bytes.
#[test]
fn blocks_as_they_read(rt: HostRuntime) -> Result<(), Fail> {
    let rows: [(&[u8], PartState, u32, u32); 4] = [
        (b"abc", PartState::Read(0), 0, 0),
        (b"abd", PartState::Read(1), 1, 0),
        (b"abcdefghijk", PartState::Read(8), 8, 0),
        (b"abcdefghijkl", PartState::Bad, 0, 1),
    ];
    for (text, block, corrected, bad) in rows {
        let report = reported(rt.alloc(), text)?;
        assert_blocks(&rt, &report, block, corrected, bad);
    }
    Ok(())
}

// The one record of a report.
fn only_record<'a>(rt: &impl Abort, report: &'a Report) -> &'a RecordReport {
    match report.records() {
        [record] => record,
        _ => panic!(rt; "there is one record"),
    }
}

fn assert_record(rt: &impl Abort, record: &RecordReport, name: Name, content: &[u8]) {
    assert!(rt; record.name == name && record.content.as_slice() == content);
}

// Its record, with the notice of one corrected byte.
#[test]
fn record_with_its_notice(rt: HostRuntime) -> Result<(), Fail> {
    let report = reported(rt.alloc(), b"abd")?;
    let record = only_record(&rt, &report);
    let content = b"abc\nECC: 1 Corrected bytes, 0 unrecoverable blocks\n";
    assert_record(&rt, record, Name::Console, content);
    assert!(rt; record.time.is_none());
    Ok(())
}

fn assert_whole(rt: &impl Abort, record: &RecordReport, wanted: usize) {
    assert_record(rt, record, dump(false), TEXT);
    assert!(rt; record.readable() == TEXT);
    match record.packing {
        Packing::Whole { taken } => assert!(rt; taken == wanted),
        _ => panic!(rt; "the dump inflates"),
    }
}

#[test]
fn a_dump_that_inflates(rt: HostRuntime) -> Result<(), Fail> {
    for more in ["", "abc"] {
        let mut packed = Vec::from_slice(rt.alloc(), &WHOLE)?;
        packed.extend_from_slice(more.as_bytes())?;
        let report = report_on(rt.alloc(), &packed)?;
        assert_whole(&rt, only_record(&rt, &report), 26);
    }
    Ok(())
}

// A run of the letter a, as zlib packs it: two letters, 63 copies of 258 letters, and a copy of the rest. 16384 letters
// are 64 times the zone. For one more the last copy does not count, and the text has 2 + 63 * 258 letters.
fn run_of_letters(last: u8) -> [u8; 34] {
    let mut packed = [0; 34];
    let front = [
        0xed, 0xc1, 0x31, 0x01, 0x00, 0x00, 0x00, 0xc2, 0xa0, 0xac, 0xeb, 0x5f, 0xc2, 0x18, 0x3e,
        0x40, 0x01,
    ];
    packed[..17].copy_from_slice(&front);
    packed[32] = last;
    packed[33] = 0x03;
    packed
}

#[test]
fn the_longest_text(rt: HostRuntime) -> Result<(), Fail> {
    let report = report_on(rt.alloc(), &run_of_letters(0x6f))?;
    let record = only_record(&rt, &report);
    assert!(rt; matches!(record.packing, Packing::Whole { taken: 34 }));
    assert!(rt; record.content.as_slice() == [b'a'; 16384].as_slice());
    Ok(())
}

fn assert_part(
    rt: &impl Abort,
    record: &RecordReport,
    packed: &[u8],
    wanted: TextFault,
    front: &[u8],
) {
    assert_record(rt, record, dump(true), packed);
    assert!(rt; record.readable() == front);
    match &record.packing {
        Packing::Part { fault, text } => assert!(rt; *fault == wanted && text.as_slice() == front),
        _ => panic!(rt; "the dump breaks off"),
    }
}

// Dumps that do not inflate, each with the fault and the text up to it.
#[test]
fn dumps_that_break_off(rt: HostRuntime) -> Result<(), Fail> {
    // What lz4 makes of the first twenty bytes of the text: their number, and the bytes.
    let other = b"\xf0\x05Panic#1 Part1\nred \x1b\\";
    let broken = TextFault::Broken;
    let rows: [(&[u8], TextFault, &[u8]); 6] = [
        (&WHOLE[..22], broken(Fault::EndOfInput), &TEXT[..21]),
        (&WHOLE[..1], broken(Fault::EndOfInput), b""),
        (b"", broken(Fault::EndOfInput), b""),
        (&DAMAGED, broken(Fault::ReservedBlock), b"\nred \xc3"),
        (other, broken(Fault::StoredLength), b""),
        (&run_of_letters(0x77), TextFault::TooLong, &[b'a'; 16256]),
    ];
    for (packed, wanted, front) in rows {
        let report = report_on(rt.alloc(), packed)?;
        assert_part(&rt, only_record(&rt, &report), packed, wanted, front);
    }
    Ok(())
}
