// The store in place: each call once on its happy path, its refusals, and what stands after them.
use crate::*;
use std::test::Fail;

// One console zone of 4096 bytes, with this many parity bytes.
fn params(ecc: u64) -> LayoutParams {
    LayoutParams {
        mem: 4096,
        console: 4096,
        cpus: 1,
        block: 128,
        ecc,
        ecc_console: ecc,
        ..LayoutParams::default()
    }
}

fn console(ecc: u64) -> ZonePlace {
    let mut place = ZonePlace::default();
    let _done = oopsbox_zone_at(&params(ecc), 1, 0, &mut place, &mut LayoutAnswer::default());
    place
}

// A zone without parity that holds `abc`.
fn image() -> [u8; 4096] {
    let mut image = [0; 4096];
    image[..15].copy_from_slice(b"DBGC\x03\0\0\0\x03\0\0\0abc");
    image
}

fn no_stores() -> Stores {
    let row = StoreRow {
        from: 9,
        what: 9,
        place: 9,
        len: 9,
        word: 9,
        bytes: [9; 128],
    };
    Stores {
        stores: [row; 4],
        count: 9,
        is_last: 9,
    }
}

// The row of this number: what it is, its place, its length, and its word or its first byte's number.
fn row_at(stores: &Stores, number: usize) -> (u32, u32, u32, u64) {
    match stores.stores.get(number) {
        Some(row) if row.what == 0 => (0, row.place, row.len, u64::from(row.word)),
        Some(row) => (row.what, row.place, row.len, row.from),
        None => (9, 9, 9, 9),
    }
}

#[test]
fn a_zone_is_found(rt: HostRuntime) -> Result<(), Fail> {
    let mut place = ZonePlace::default();
    let mut answer = LayoutAnswer::default();
    assert!(rt; oopsbox_zone_at(&params(0), 1, 0, &mut place, &mut answer) == 0);
    assert!(rt; (place.kind, place.index, place.size, place.cap) == (1, 0, 4096, 4084));
    assert!(rt; (answer.zones, answer.word, answer.mem, answer.fault) == (1, 0, 4096, 0));
    assert!(rt; console(16).parity == 16);
    let was = place;
    assert!(rt; oopsbox_zone_at(&params(0), 1, 1, &mut place, &mut answer) == 13);
    assert!(rt; oopsbox_zone_at(&params(0), 4, 0, &mut place, &mut answer) == 13);
    assert!(rt; answer.mem == 4096);
    assert!(rt; oopsbox_zone_at(&LayoutParams::default(), 1, 0, &mut place, &mut answer) == 3);
    assert!(rt; (answer.zones, answer.word, answer.mem, answer.fault) == (0, 0, 0, 1));
    assert!(rt; place == was);
    Ok(())
}

#[test]
fn a_table_is_filled(rt: HostRuntime) -> Result<(), Fail> {
    let mut table = [TableRow::default(); 256];
    assert!(rt; oopsbox_table(0, &mut table) == 13);
    assert!(rt; oopsbox_table(128, &mut table) == 13);
    assert!(rt; oopsbox_table(16, &mut table[..255]) == 13);
    assert!(rt; table[1] == TableRow::default());
    assert!(rt; oopsbox_table(16, &mut table) == 0);
    assert!(rt; table[0] == TableRow::default());
    assert!(rt; table[1] != TableRow::default());
    Ok(())
}

#[test]
fn an_append_is_one_answer(rt: HostRuntime) -> Result<(), Fail> {
    let place = console(0);
    let image = image();
    let mut flight = Flight::default();
    let mut stores = no_stores();
    assert!(rt; oopsbox_append_begin(&place, &image, b"de", &mut flight) == 0);
    assert!(rt; (flight.made, flight.payload, flight.line, flight.kind) == (0, 2, 0, 0));
    assert!(rt; oopsbox_flight_next(&mut flight, &image, &[], b"de", &[], 9, &mut stores) == 0);
    assert!(rt; (stores.count, stores.is_last, flight.made) == (3, 1, 4));
    assert!(rt; row_at(&stores, 0) == (0, 8, 4, 5));
    assert!(rt; row_at(&stores, 1) == (0, 4, 4, 5));
    assert!(rt; row_at(&stores, 2) == (2, 15, 2, 0));
    assert!(rt; oopsbox_flight_next(&mut flight, &image, &[], b"de", &[], 9, &mut stores) == 0);
    assert!(rt; (stores.count, stores.is_last, flight.made) == (0, 1, 4));
    Ok(())
}

// The same answer, and the same flight, of one call; with parity the header's is left.
#[test]
fn an_append_is_one_call(rt: HostRuntime) -> Result<(), Fail> {
    let image = image();
    let mut flight = Flight::default();
    let mut stores = no_stores();
    assert!(rt; oopsbox_append(&console(0), &image, b"de", &mut flight, &mut stores) == 0);
    assert!(rt; (stores.count, stores.is_last, flight.made, flight.payload) == (3, 1, 4, 2));
    assert!(rt; row_at(&stores, 0) == (0, 8, 4, 5));
    assert!(rt; row_at(&stores, 1) == (0, 4, 4, 5));
    assert!(rt; row_at(&stores, 2) == (2, 15, 2, 0));
    assert!(rt; oopsbox_append(&console(16), &image, b"abc", &mut flight, &mut stores) == 0);
    assert!(rt; (stores.count, stores.is_last, flight.made) == (3, 0, 5));
    Ok(())
}

// Of no bytes there are no stores; more bytes than the zone has are the two words and two runs.
#[test]
fn an_append_of_any_length_is_one_answer(rt: HostRuntime) -> Result<(), Fail> {
    let image = image();
    let mut flight = Flight::default();
    let mut stores = no_stores();
    assert!(rt; oopsbox_append(&console(0), &image, &[], &mut flight, &mut stores) == 0);
    assert!(rt; (stores.count, stores.is_last, flight.made) == (0, 1, 0));
    assert!(rt; oopsbox_append(&console(0), &image, &[7; 5000], &mut flight, &mut stores) == 0);
    assert!(rt; (stores.count, stores.is_last) == (4, 1));
    Ok(())
}

#[test]
fn an_append_of_one_call_is_refused(rt: HostRuntime) -> Result<(), Fail> {
    let mut flight = Flight::default();
    let mut stores = no_stores();
    assert!(rt; oopsbox_append(&console(0), &[0; 9], b"de", &mut flight, &mut stores) == 13);
    assert!(rt; oopsbox_append(&console(0), &[0; 4096], b"de", &mut flight, &mut stores) == 16);
    assert!(rt; flight == Flight::default());
    assert!(rt; (stores.count, stores.is_last) == (9, 9));
    Ok(())
}

#[test]
fn an_append_is_handed_out_in_parts(rt: HostRuntime) -> Result<(), Fail> {
    let place = console(0);
    let mut image = image();
    let mut flight = Flight::default();
    let mut stores = no_stores();
    assert!(rt; oopsbox_append_begin(&place, &image, b"de", &mut flight) == 0);
    assert!(rt; oopsbox_flight_next(&mut flight, &image, &[], b"de", &[], 3, &mut stores) == 0);
    assert!(rt; (stores.count, stores.is_last, flight.made) == (3, 0, 3));
    assert!(rt; row_at(&stores, 2) == (2, 15, 1, 0));
    image[8] = 5;
    image[4] = 5;
    image[15] = b'd';
    assert!(rt; oopsbox_flight_next(&mut flight, &image, &[], b"de", &[], 9, &mut stores) == 0);
    assert!(rt; (stores.count, stores.is_last, flight.made) == (1, 1, 4));
    assert!(rt; row_at(&stores, 0) == (2, 16, 1, 1));
    Ok(())
}

// `abc` in a zone with 16 parity bytes, whose header says it: the parity bytes are those of `oopsbox_rs_encode`.
#[test]
fn parities_are_one_answer(rt: HostRuntime) -> Result<(), Fail> {
    let place = console(16);
    let mut image = [0; 4096];
    let mut flight = Flight::default();
    let mut stores = no_stores();
    image[..12].copy_from_slice(b"DBGC\0\0\0\0\0\0\0\0");
    assert!(rt; oopsbox_append_begin(&place, &image, b"abc", &mut flight) == 0);
    assert!(rt; oopsbox_flight_next(&mut flight, &image, &[], b"abc", &[], 99, &mut stores) == 0);
    assert!(rt; (stores.count, stores.is_last, flight.made) == (3, 0, 5));
    image[..15].copy_from_slice(b"DBGC\x03\0\0\0\x03\0\0\0abc");
    assert!(rt; oopsbox_flight_next(&mut flight, &image, &[], b"abc", &[], 99, &mut stores) == 0);
    assert!(rt; (stores.count, stores.is_last, flight.made) == (2, 1, 37));
    assert!(rt; row_at(&stores, 0) == (3, 3616, 16, 0));
    assert!(rt; row_at(&stores, 1) == (3, 4080, 16, 0));
    let mut parity = [0; 16];
    assert!(rt; oopsbox_rs_encode(&image[12..140], &mut parity) == 0);
    assert!(rt; &stores.stores[0].bytes[..16] == parity.as_slice());
    assert!(rt; oopsbox_rs_encode(&image[..12], &mut parity) == 0);
    assert!(rt; &stores.stores[1].bytes[..16] == parity.as_slice());
    Ok(())
}

#[test]
fn a_call_is_not_begun(rt: HostRuntime) -> Result<(), Fail> {
    let place = console(0);
    let mut image = image();
    let mut flight = Flight::default();
    assert!(rt; oopsbox_append_begin(&place, &image[1..], b"de", &mut flight) == 13);
    assert!(rt; oopsbox_append_begin(&ZonePlace::default(), &[], b"de", &mut flight) == 13);
    assert!(rt; oopsbox_dump_begin(&place, &image, &[b'x'; 37], b"", &mut flight) == 13);
    image[0] = 0;
    assert!(rt; oopsbox_append_begin(&place, &image, b"de", &mut flight) == 16);
    assert!(rt; oopsbox_erase_begin(&place, &image, &mut flight) == 16);
    assert!(rt; oopsbox_dump_begin(&place, &image, b"x\n", b"", &mut flight) == 16);
    image[0] = b'D';
    image[4] = 2;
    assert!(rt; oopsbox_append_begin(&place, &image, b"de", &mut flight) == 16);
    assert!(rt; flight == Flight::default());
    assert!(rt; oopsbox_erase_begin(&place, &image, &mut flight) == 0);
    assert!(rt; oopsbox_dump_begin(&place, &image, b"x\n", b"", &mut flight) == 0);
    assert!(rt; (flight.line, flight.kind) == (2, 2));
    Ok(())
}

#[test]
fn a_flight_is_refused(rt: HostRuntime) -> Result<(), Fail> {
    let image = image();
    let mut flight = Flight::default();
    let mut stores = no_stores();
    assert!(rt; oopsbox_append_begin(&console(0), &image, b"de", &mut flight) == 0);
    let was = flight;
    assert!(rt; oopsbox_flight_next(&mut flight, &image, &[], b"def", &[], 9, &mut stores) == 13);
    assert!(rt; oopsbox_flight_next(&mut flight, &image, b"x", b"de", &[], 9, &mut stores) == 13);
    assert!(rt;
        oopsbox_flight_next(&mut flight, &image[1..], &[], b"de", &[], 9, &mut stores) == 13
    );
    assert!(rt; oopsbox_flight_next(&mut flight, &image, &[], b"de", &[], 0, &mut stores) == 13);
    let row = [TableRow::default()];
    assert!(rt; oopsbox_flight_next(&mut flight, &image, &[], b"de", &row, 9, &mut stores) == 13);
    assert!(rt; flight == was);
    flight.made = 1;
    assert!(rt; oopsbox_flight_next(&mut flight, &image, &[], b"de", &[], 9, &mut stores) == 13);
    flight = was;
    flight.phase = 10;
    assert!(rt; oopsbox_flight_next(&mut flight, &image, &[], b"de", &[], 9, &mut stores) == 13);
    assert!(rt; (stores.count, stores.is_last) == (9, 9));
    assert!(rt; row_at(&stores, 3) == (9, 9, 9, 9));
    Ok(())
}

#[test]
fn a_zone_is_read_in_place(rt: HostRuntime) -> Result<(), Fail> {
    let image = image();
    let mut answer = ZoneAnswer::default();
    assert!(rt; oopsbox_zone_read(&console(0), &image, &[], &mut answer) == 0);
    assert!(rt; (answer.state, answer.start, answer.size, answer.log) == (3, 3, 3, 3));
    let mut log = [b'-'; 4];
    let mut got = 9;
    assert!(rt; oopsbox_zone_log(&console(0), &image, &[], 1, &mut log, &mut got) == 0);
    assert!(rt; got == 2);
    assert!(rt; log == [b'b', b'c', b'-', b'-']);
    assert!(rt; oopsbox_zone_log(&console(0), &image[1..], &[], 1, &mut log, &mut got) == 13);
    assert!(rt; oopsbox_zone_read(&console(0), &image[1..], &[], &mut answer) == 13);
    assert!(rt; (got, answer.log) == (2, 3));
    Ok(())
}

// Makes the first row: a word, or bytes.
fn make(stores: &Stores, image: &mut [u8]) {
    let row = &stores.stores[0];
    let word = row.word.to_le_bytes();
    for i in 0..row.bytes.len().min(row.len as usize) {
        let place = row.place as usize + i;
        if place < image.len() {
            image[place] = if row.what == 0 && i < 4 {
                word[i]
            } else {
                row.bytes[i]
            };
        }
    }
}

#[test]
fn a_zone_is_booted(rt: HostRuntime) -> Result<(), Fail> {
    let place = console(16);
    let mut image = [0; 4096];
    let mut boot = ZoneBoot::default();
    let mut stores = no_stores();
    assert!(rt; oopsbox_boot_begin(&place, &image, &mut boot) == 0);
    for (at, word) in [(0, 0x4347_4244), (4, 0), (8, 0)] {
        assert!(rt; oopsbox_boot_next(&mut boot, &image, &mut stores) == 0);
        assert!(rt; (stores.count, stores.is_last) == (1, 0));
        assert!(rt; row_at(&stores, 0) == (0, at, 4, word));
        make(&stores, &mut image);
    }
    assert!(rt; oopsbox_boot_next(&mut boot, &image, &mut stores) == 0);
    assert!(rt; row_at(&stores, 0) == (3, 4080, 16, 0));
    make(&stores, &mut image);
    assert!(rt; oopsbox_boot_next(&mut boot, &image, &mut stores) == 0);
    assert!(rt; (stores.count, stores.is_last, boot.made) == (0, 1, 19));
    assert!(rt; oopsbox_append_begin(&place, &image, b"abc", &mut Flight::default()) == 0);
    Ok(())
}

#[test]
fn a_zone_is_read_by_a_table(rt: HostRuntime) -> Result<(), Fail> {
    let place = ZonePlace {
        parity: 16,
        ..console(16)
    };
    let mut table = [TableRow::default(); 256];
    let mut answer = ZoneAnswer::default();
    let mut image = [0; 4096];
    image[..4].copy_from_slice(b"DBGC");
    assert!(rt; oopsbox_table(16, &mut table) == 0);
    assert!(rt; oopsbox_zone_read(&place, &image, &table, &mut answer) == 0);
    assert!(rt; (answer.state, answer.corrected, answer.bad) == (0, 4, 0));
    assert!(rt; oopsbox_zone_read(&place, &image, &[], &mut answer) == 0);
    assert!(rt; (answer.state, answer.corrected, answer.bad) == (0, 4, 0));
    Ok(())
}

// The zone is another one at each call.
#[test]
fn a_boot_ends_in_a_zone_that_changes(rt: HostRuntime) -> Result<(), Fail> {
    let mut boot = ZoneBoot::default();
    let mut stores = no_stores();
    assert!(rt; oopsbox_boot_begin(&console(0), &image(), &mut boot) == 0);
    for byte in 0..4u8 {
        assert!(rt; oopsbox_boot_next(&mut boot, &[byte; 4096], &mut stores) == 0);
        assert!(rt; (stores.count == 0) == (stores.is_last == 1));
    }
    assert!(rt; (stores.is_last, boot.made, boot.phase) == (1, 2, 6));
    Ok(())
}

#[test]
fn a_boot_is_refused(rt: HostRuntime) -> Result<(), Fail> {
    let place = console(0);
    let image = image();
    let mut boot = ZoneBoot::default();
    let mut stores = no_stores();
    assert!(rt; oopsbox_boot_begin(&place, &image[1..], &mut boot) == 13);
    assert!(rt; oopsbox_boot_next(&mut boot, &[], &mut stores) == 13);
    assert!(rt; boot == ZoneBoot::default());
    assert!(rt; oopsbox_boot_begin(&place, &image, &mut boot) == 0);
    assert!(rt; oopsbox_boot_next(&mut boot, &image[1..], &mut stores) == 13);
    let was = boot;
    boot.phase = 7;
    assert!(rt; oopsbox_boot_next(&mut boot, &image, &mut stores) == 13);
    boot = was;
    boot.made = 99;
    assert!(rt; oopsbox_boot_next(&mut boot, &image, &mut stores) == 13);
    assert!(rt; (stores.count, stores.is_last) == (9, 9));
    assert!(rt; row_at(&stores, 3) == (9, 9, 9, 9));
    Ok(())
}
