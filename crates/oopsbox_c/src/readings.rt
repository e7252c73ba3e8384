// A zone read in place. It takes no memory.
ghost use Rattle.std.specs.Prelude.{◌≡◌, ◌↔◌, IsTrue};
ghost use Rattle.oopsbox_c.specs.Ends.{status_of};
ghost use Rattle.oopsbox_c.specs.Tables.{IsOwed};
ghost use Rattle.oopsbox_c.specs.Readings.{CanRead, ReadEnds, LogEnds, answer_of};

use crate::End;
use crate::places::{ZoneAnswer, ZonePlace, is_place, state_number, zone_in};
use crate::tables::{TableRow, is_lendable, lend};
use zone_boot::{Summary, copy_log, read_summary};

/// Whether the zone at this place can be read, with these rows.
pub(crate) fn can_read(place: &ZonePlace, image: &[u8], table: &[TableRow]) -> bool
    ensures { IsTrue result ↔ CanRead place.now image.now table.now }
{
    is_place(place) && image.len() == place.size as usize && is_lendable(table)
}

fn answer_of(summary: &Summary) -> ZoneAnswer
    ensures { result ≡ answer_of summary.now }
{
    ZoneAnswer {
        log: u64::from(summary.len),
        state: state_number(summary.state),
        sig: summary.words.sig,
        start: summary.words.start,
        size: summary.words.size,
        corrected: summary.corrected,
        bad: summary.bad,
    }
}

fn read(place: &ZonePlace, image: &[u8], table: &[TableRow], answer: &mut ZoneAnswer) -> End
    requires { IsOwed place.now.parity table.now }
    ensures { ReadEnds result place.now image.now table.now answer.old answer.new }
{
    if !can_read(place, image, table) {
        return End::Argument;
    }
    let mut rows = [0u128; 256];
    let rows = lend(table, &mut rows);
    let summary = read_summary(rows, image, &zone_in(place));
    *answer = answer_of(&summary);
    End::Done
}

/// What a boot reads of the zone that stands as `image`.
#[unsafe(no_mangle)]
pub extern "C" fn oopsbox_zone_read(
    place: &ZonePlace,
    image: &[u8],
    table: &[TableRow],
    answer: &mut ZoneAnswer,
) -> u32
    requires { IsOwed place.now.parity table.now }
    ensures { (end : End) × (result ≡ status_of end)
        × ReadEnds end place.now image.now table.now answer.old answer.new }
{
    let end = read(place, image, table, answer);
    end.status()
}

fn read_log(
    place: &ZonePlace,
    image: &[u8],
    table: &[TableRow],
    from: u64,
    log: &mut [u8],
    got: &mut u64,
) -> End
    requires { IsOwed place.now.parity table.now }
    ensures { LogEnds result place.now image.now table.now from log.old log.new got.old got.new }
{
    if !can_read(place, image, table) {
        return End::Argument;
    }
    let mut rows = [0u128; 256];
    let rows = lend(table, &mut rows);
    let count = copy_log(rows, image, &zone_in(place), from, log);
    *got = count as u64;
    End::Done
}

/// Bytes of the log of the zone that stands as `image`, from byte `from` on, as many as there are and fit.
#[unsafe(no_mangle)]
pub extern "C" fn oopsbox_zone_log(
    place: &ZonePlace,
    image: &[u8],
    table: &[TableRow],
    from: u64,
    log: &mut [u8],
    got: &mut u64,
) -> u32
    requires { IsOwed place.now.parity table.now }
    ensures { (end : End) × (result ≡ status_of end)
        × LogEnds end place.now image.now table.now from log.old log.new got.old got.new }
{
    let end = read_log(place, image, table, from, log, got);
    end.status()
}
