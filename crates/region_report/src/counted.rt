// What the zones of a record count.
ghost use Rattle.std.specs.Prelude.{◌≡◌};
ghost use Rattle.prz_read.specs.Saving.{saved};
ghost use Rattle.pstore_records.specs.Counts.{corrected_in, bad_in};
ghost use Rattle.region_report.specs.Counted.{zones_counted};

use prz_read::Logs;
use pstore_records::{Counts, counts_at, counts_of};
use zone_spec::Name;

/// What the zones of a record count. Dump zone i of a layout is its i-th zone.
pub fn counts(logs: &Logs, name: Name) -> Counts
    ensures corrected { result.corrected ≡ corrected_in name (zones_counted name (saved logs.now)) }
    ensures bad { result.bad ≡ bad_in name (zones_counted name (saved logs.now)) }
{
    match name {
        Name::Dump { index, .. } if index < logs.len() => counts_at(logs, index, name),
        Name::Dump { .. } => Counts {
            has_parity: false,
            corrected: 0,
            bad: 0,
        },
        Name::Console | Name::Pmsg | Name::Ftrace => counts_of(logs, name),
    }
}
