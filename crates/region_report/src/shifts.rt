// How far above its map the kernel ran that traced its functions.
ghost use Rattle.std.specs.Prelude.{◌≡◌};
ghost use Rattle.report_spec.specs.Newest.{is_console};
ghost use Rattle.report_spec.specs.Said.{console_in, shift_in};

use crate::facts::said_after;
use pstore_records::HeldRecord;
use symbols::Symbols;
use zone_spec::Name;

fn is_console(held: &HeldRecord) -> bool
    ensures { result ≡ is_console held.now.name }
{
    match held.name {
        Name::Console => true,
        Name::Dump { .. } | Name::Pmsg | Name::Ftrace => false,
    }
}

/// The console's log.
fn console_in(records: &[HeldRecord]) -> &[u8]
    ensures { result.now ≡ console_in records.now }
{
    for held in records {
        if is_console(held) {
            return held.content();
        }
    }
    &[]
}

/// How far above the map the kernel ran, as the console says.
pub fn shift_in(symbols: &Symbols, records: &[HeldRecord]) -> u64
    ensures { result ≡ shift_in symbols.now records.now }
{
    symbols.shift(said_after(console_in(records), b"Kernel Offset: ", 0))
}
