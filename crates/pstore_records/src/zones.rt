// What stands in the saved logs for one zone.
ghost use Rattle.std.specs.Prelude.{◌≡◌, ◌<◌, [], ◌∷◌, length, slice_get, Some, option_to_list};
ghost use Rattle.std.specs.Option.{option_copied};
ghost use Rattle.zone_spec.specs.Records.{Saved, found, logs_of, is_of};
ghost use Rattle.prz_read.specs.Saving.{saved};

use prz_read::{Logs, Reading};
use zone_spec::{Kind, State};

/// Whether the two are one kind.
pub fn is_kind(kind: Kind, other: Kind) -> bool
    ensures { result ≡ is_of kind other }
{
    kind == other
}

/// The reading of zone `i` where the zone was found and is not forgotten.
pub fn found_at(logs: &Logs, i: u32) -> Option<&Reading>
    requires { i < length logs.now.readings }
    ensures { (s : Saved) → slice_get (saved logs.now) i ≡ Some s
        → option_to_list (option_copied result) ≡ found s.1 }
{
    let reading = logs.reading(i)?;
    match reading.state {
        State::Found => Some(reading),
        State::Empty | State::Invalid | State::Unsigned => None,
    }
}

/// The log of zone `i` where the zone is of this kind, was found and is not forgotten.
pub fn log_at(logs: &Logs, i: u32, kind: Kind) -> Option<&[u8]>
    requires { i < length logs.now.readings }
    ensures { (s : Saved) → slice_get (saved logs.now) i ≡ Some s
        → option_to_list (option_copied result) ≡ logs_of kind (s ∷ []) }
{
    if !is_kind(kind, logs.name(i).kind) {
        return None;
    }
    let reading = found_at(logs, i)?;
    Some(reading.log.as_slice())
}

/// The first log of a zone of this kind that was found and is not forgotten.
pub fn first_log(logs: &Logs, kind: Kind) -> Option<&[u8]>
    ensures { option_copied result ≡ slice_get (logs_of kind (saved logs.now)) 0 }
{
    for i in 0..logs.len() {
        if let Some(log) = log_at(logs, i, kind) {
            return Some(log);
        }
    }
    None
}
