// Where the next dump goes, and how dumps are counted.
ghost use Rattle.std.specs.Prelude.{◌≡◌, ◌+◌, ◌^◌, ◌<◌, ◌==◌, if◌then◌else◌, None};
ghost use Rattle.psz_spec.specs.Layouts.{zones_of, size_fault};
ghost use Rattle.psz_spec.specs.Cursor.{has_header as has_header_of, is_latest as is_latest_of, higher as higher_of};
ghost use Rattle.psz_spec.specs.Cursor.{with_header as with_header_of, with_bytes as with_bytes_of};
ghost use Rattle.psz_spec.specs.Cursor.{cursor_of as cursor_by, next_zone as next_zone_of};
ghost use Rattle.psz_spec.specs.Cursor.{with_zone as with_zone_of};
ghost use Rattle.psz_read.specs.Runs.{fits, run_zone as run_zone_of};

use crate::headers::{data_of, dump_header};
use crate::parts::zone_bytes;
use crate::sizes::dump_count;
use crate::states::state_of;
use crate::zones::{Run, dump_run, run_zone};
use psz_spec::{Cursor, DumpHeader, Machine, Sizes, State, Zone};

fn has_header(state: State) -> bool
    ensures { result ≡ has_header_of state }
{
    match state {
        State::Erased | State::Broken | State::Found => true,
        State::Unsigned | State::Overtop | State::NoDump => false,
    }
}

fn is_latest(header: &DumpHeader, cursor: &Cursor) -> bool
    ensures { result ≡ is_latest_of header.now cursor.now }
{
    header.secs < 0x8000_0000_0000_0000 && cursor.latest <= header.secs
}

fn higher(a: u32, b: u32) -> u32
    ensures { result ≡ higher_of a b }
{
    if a < b { b } else { a }
}

fn with_header(index: u32, header: &DumpHeader, cursor: &Cursor) -> Cursor
    requires { index + 1 < 2 ^ 32 }
    ensures { result ≡ with_header_of index header.now cursor.now }
{
    let is_latest = is_latest(header, cursor);
    Cursor {
        latest: if is_latest {
            header.secs
        } else {
            cursor.latest
        },
        next: if is_latest { index + 1 } else { cursor.next },
        oopses: if header.reason == 2 {
            higher(cursor.oopses, header.count)
        } else {
            cursor.oopses
        },
        panics: if header.reason == 1 {
            higher(cursor.panics, header.count)
        } else {
            cursor.panics
        },
    }
}

/// One dump zone more, by its bytes. The first 52 are enough.
#[tactic(auto, unfolding(psz_spec::specs::Cursor::with_bytes))]
pub fn with_bytes(machine: Machine, zone: &Zone, bytes: &[u8], cursor: &Cursor) -> Cursor
    requires { zone.now.index + 1 < 2 ^ 32 }
    ensures { result ≡ with_bytes_of machine zone.now bytes.now cursor.now }
{
    if has_header(state_of(machine, zone, bytes)) {
        with_header(zone.index, &dump_header(machine, data_of(bytes)), cursor)
    } else {
        *cursor
    }
}

fn next_cursor(machine: Machine, run: &Run, index: u32, image: &[u8], cursor: &Cursor) -> Cursor
    requires room { fits run.now }
    requires inside { index < run.now.count }
    requires below { index + 1 < 2 ^ 32 }
    ensures { result ≡ with_zone_of machine image.now cursor.now (run_zone_of run.now index) }
{
    let zone = run_zone(run, index);
    with_bytes(machine, &zone, zone_bytes(&zone, image), cursor)
}

/// The cursor behind all dump zones: the highest counts, and the zone behind the newest dump.
pub fn cursor_of(machine: Machine, sizes: &Sizes, image: &[u8]) -> Cursor
    requires { size_fault sizes.now ≡ None }
    ensures { result ≡ cursor_by machine (zones_of sizes.now) image.now }
{
    let run = dump_run(sizes);
    let mut cursor = Cursor {
        latest: 0,
        next: 0,
        oopses: 0,
        panics: 0,
    };
    for index in 0..run.count {
        let next = next_cursor(machine, &run, index, image, &cursor);
        cursor = next;
    }
    cursor
}

fn wrapped(next: u32, count: u64) -> u32
    ensures { result ≡ (if next == count then 0 else next) }
{
    if u64::from(next) == count { 0 } else { next }
}

/// The index of the zone that the next dump goes to.
pub fn next_zone(machine: Machine, sizes: &Sizes, image: &[u8]) -> u32
    requires { size_fault sizes.now ≡ None }
    ensures { result ≡ next_zone_of machine (zones_of sizes.now) image.now }
{
    let cursor = cursor_of(machine, sizes, image);
    let count = dump_count(sizes);
    wrapped(cursor.next, count)
}
