// The notices of records whose zones have parity.
ghost use Rattle.std.specs.Prelude.{◌≡◌, ◌<◌, ◌≤◌, ◌^◌, [], ◌∷◌, length, decimal, slice_get, Some};
ghost use Rattle.zone_spec.specs.declared.Zone.{Zone};
ghost use Rattle.zone_spec.specs.Records.{Saved};
ghost use Rattle.zone_spec.specs.Notices.{is_in, notice_text};
ghost use Rattle.prz_read.specs.Saving.{saved};
ghost use Rattle.pstore_records.specs.Counts.{has_parity, corrected_in, bad_in, notice_with};

use crate::zones::{found_at, is_kind};
use arrayvec::ArrayString;
use itoa::Buffer;
use prz_read::Logs;
use zone_spec::{Kind, Name, ZoneName};

/// What the zones of a record count, and whether one of them has parity.
#[derive(Clone, Copy)]
pub struct Counts {
    pub has_parity: bool,
    pub corrected: u64,
    pub bad: u64,
}

const NOTHING: Counts = Counts {
    has_parity: false,
    corrected: 0,
    bad: 0,
};

/// Whether the zone of a name belongs to a record.
pub fn is_in(name: Name, zone: ZoneName) -> bool
    ensures { (z : Zone) → z.name ≡ zone → result ≡ is_in name z }
{
    match name {
        Name::Dump { index, .. } => is_kind(Kind::Dump, zone.kind) && zone.index == index,
        Name::Console => is_kind(Kind::Console, zone.kind),
        Name::Pmsg => is_kind(Kind::Pmsg, zone.kind),
        Name::Ftrace => is_kind(Kind::Ftrace, zone.kind),
    }
}

/// What zone `i` adds to the counts of a record.
pub fn counts_at(logs: &Logs, i: u32, name: Name) -> Counts
    requires { i < length logs.now.readings }
    ensures has_parity { (s : Saved) → slice_get (saved logs.now) i ≡ Some s
        → result.has_parity ≡ has_parity name (s ∷ []) }
    ensures corrected { (s : Saved) → slice_get (saved logs.now) i ≡ Some s
        → result.corrected ≡ corrected_in name (s ∷ []) }
    ensures bad { (s : Saved) → slice_get (saved logs.now) i ≡ Some s → result.bad ≡ bad_in name (s ∷ []) }
    ensures few { result.corrected < 2 ^ 32 }
    ensures rare { result.bad < 2 ^ 32 }
{
    if !is_in(name, logs.name(i)) {
        return NOTHING;
    }
    let has_parity = logs.parity(i) > 0;
    match found_at(logs, i) {
        Some(reading) => Counts {
            has_parity,
            corrected: u64::from(reading.corrected),
            bad: u64::from(reading.bad),
        },
        None => Counts {
            has_parity,
            ..NOTHING
        },
    }
}

/// What all zones of a record count.
pub fn counts_of(logs: &Logs, name: Name) -> Counts
    ensures has_parity { result.has_parity ≡ has_parity name (saved logs.now) }
    ensures corrected { result.corrected ≡ corrected_in name (saved logs.now) }
    ensures bad { result.bad ≡ bad_in name (saved logs.now) }
{
    let mut counts = NOTHING;
    for i in 0..logs.len() {
        let own = counts_at(logs, i, name);
        counts.has_parity |= own.has_parity;
        counts.corrected += own.corrected;
        counts.bad += own.bad;
    }
    counts
}

fn write_counts(corrected: u64, bad: u64, out: &mut ArrayString<86>)
    ensures { out.new.bytes ≡ notice_text corrected bad }
{
    let mut digits = Buffer::new();
    out.clear();
    if corrected == 0 && bad == 0 {
        out.push_str("\nECC: No errors detected\n");
        return;
    }
    out.push_str("\nECC: ");
    out.push_str(digits.format(corrected));
    out.push_str(" Corrected bytes, ");
    out.push_str(digits.format(bad));
    out.push_str(" unrecoverable blocks\n");
}

/// Writes the notice with these counts, in at most 86 bytes (`fs/pstore/ram_core.c`, `persistent_ram_ecc_string`):
/// nothing where no zone has parity.
pub fn write_counted(counts: Counts, out: &mut ArrayString<86>)
    ensures { out.new.bytes ≡ notice_with counts.has_parity counts.corrected counts.bad }
{
    if counts.has_parity {
        write_counts(counts.corrected, counts.bad, out);
    } else {
        out.clear();
    }
}

fn digits_in(n: u64) -> u64
    ensures len { result ≡ length (decimal n) }
    ensures small { result ≤ 20 }
{
    let mut digits = Buffer::new();
    digits.format(n).len() as u64
}

#[tactic(auto, using(crate::proofs::Texts::no_errors_length))]
fn counts_len(corrected: u64, bad: u64) -> u64
    ensures len { result ≡ length (notice_text corrected bad) }
    ensures small { result ≤ 86 }
{
    if corrected == 0 && bad == 0 {
        return 25;
    }
    let corrected_len = digits_in(corrected);
    let bad_len = digits_in(bad);
    46 + corrected_len + bad_len
}

/// The length in bytes of the notice with these counts.
pub fn notice_len(counts: Counts) -> u64
    ensures len { result ≡ length (notice_with counts.has_parity counts.corrected counts.bad) }
    ensures small { result ≤ 86 }
{
    if !counts.has_parity {
        return 0;
    }
    counts_len(counts.corrected, counts.bad)
}
