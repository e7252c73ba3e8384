// The newest dump, the console and Android's log among the records.
ghost use Rattle.std.specs.Prelude.{◌≡◌, false, IfSome, IsSome};
ghost use Rattle.std.specs.Option.{option_copied};
ghost use Rattle.std.specs.List.{list_any};
ghost use Rattle.report_spec.specs.Newest.{is_later, later_than, is_newer, newest, is_console, console_of};
ghost use Rattle.report_spec.specs.Newest.{android_log_of};

use crate::shown::RecordReport;
use zone_spec::{Name, Time};

fn is_later(time: Time, other: Time) -> bool
    ensures { result ≡ is_later time other }
{
    time.secs > other.secs || (time.secs == other.secs && time.micros > other.micros)
}

fn is_later_than(time: Option<Time>, other: Option<Time>) -> bool
    ensures { result ≡ later_than time other }
{
    match time {
        Some(time) => match other {
            Some(other) => is_later(time, other),
            None => true,
        },
        None => false,
    }
}

/// Whether a record has a later time than another. No time is never later, and each is later than none.
pub fn is_newer(entry: &RecordReport, newest: Option<&RecordReport>) -> bool
    ensures { result ≡ is_newer entry.now (option_copied newest.entry) }
{
    match newest {
        Some(held) => is_later_than(entry.time, held.time),
        None => entry.time.is_some(),
    }
}

/// The first of the records with the latest time, or `None` where none has a time: dumps alone have one.
pub fn newest_dump(records: &[RecordReport]) -> Option<&RecordReport>
    ensures first { option_copied result ≡ newest records.now }
    ensures newest { list_any (λ r. is_newer r (option_copied result)) records.now ≡ false }
    ensures dated { IfSome result (λ r. IsSome r.now.time) }
{
    let mut newest = None;
    for entry in records {
        if is_newer(entry, newest) {
            newest = Some(entry);
        }
    }
    newest
}

/// Whether a record is the console's.
pub fn is_console(entry: &RecordReport) -> bool
    ensures { result ≡ is_console entry.now.name }
{
    match entry.name {
        Name::Console => true,
        Name::Dump { .. } | Name::Pmsg | Name::Ftrace => false,
    }
}

/// The console's record.
pub fn console(records: &[RecordReport]) -> Option<&RecordReport>
    ensures { option_copied result ≡ console_of records.now }
{
    for entry in records {
        if is_console(entry) {
            return Some(entry);
        }
    }
    None
}

/// The record with entries of Android's log.
pub fn android_log(records: &[RecordReport]) -> Option<&RecordReport>
    ensures { option_copied result ≡ android_log_of records.now }
{
    for entry in records {
        if entry.has_entries() {
            return Some(entry);
        }
    }
    None
}
