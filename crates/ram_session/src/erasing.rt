// The erasure of a record.
ghost use Rattle.std.specs.Prelude.{◌≡◌, ℕ, List, slice_get, Some, IfSome, OnErr, MatchResult};
ghost use Rattle.std.specs.Option.{option_map};
ghost use Rattle.zone_spec.specs.declared.Zone.{Zone};
ghost use Rattle.zone_spec.specs.Layouts.{zone_place};
ghost use Rattle.zone_spec.specs.Notices.{is_in as is_in_record};
ghost use Rattle.machine_spec.specs.States.{LiveState};
ghost use Rattle.machine_spec.specs.LiveZones.{flies};
ghost use Rattle.ramoops.specs.LiveSeen.{StandsLive};
ghost use Rattle.ram_session.specs.Erasing.{FliesAt, ErasesAt, Erases, Forgets, ErasesNamed, EraseFails};

use crate::calls;
use crate::machine::LineError;
use crate::record_lines::named;
use prz_read::Logs;
use pstore_records::{Name, is_in};
use ramoops::{Ask, Live};
use script_spec::Cause;
use zone_spec::ZoneName;

// The name of the i-th zone.
fn name_at(live: &Live, i: usize) -> Option<ZoneName>
    ensures name { result ≡ option_map (λ (z : Zone). z.name) (slice_get live.now.layout i) }
    ensures first { IfSome result (λ name. zone_place live.now.layout name ≡ Some i) }
{
    match live.zones().get(i) {
        Some(zone) => Some(zone.name),
        None => None,
    }
}

// Tells whether the i-th zone belongs to the record and a flight stands in it.
fn flies_at(live: &Live, i: usize, name: Name) -> bool
    ensures { FliesAt i name live.now result }
{
    let Some(zone) = name_at(live, i) else {
        return false;
    };
    if !is_in(name, zone) {
        return false;
    }
    match live.flies(zone) {
        Ok(flies) => flies,
        Err(_) => false,
    }
}

// Tells whether a flight stands in a zone of the record.
fn flies_in_record(live: &Live, name: Name) -> bool
    ensures { (layout : List Zone) (mem : ℕ) (s : LiveState) → StandsLive layout mem live.now s
        → result ≡ flies layout s (λ z. is_in_record name z) }
{
    for i in 0..live.zones().len() {
        if flies_at(live, i, name) {
            return true;
        }
    }
    false
}

// Erases the i-th zone where it belongs to the record.
fn erase_zone(live: &mut Live, i: usize, name: Name)
    ensures { ErasesAt i name live.old live.new }
{
    let Some(zone) = name_at(live, i) else {
        return;
    };
    if is_in(name, zone) {
        let _ = calls::make(live, Ask::Erase(zone));
    }
}

// Erases the zones of a record, in none of which a flight stands.
fn erase_zones(live: &mut Live, name: Name)
    ensures { Erases name live.old live.new }
{
    for i in 0..live.zones().len() {
        erase_zone(live, i, name);
    }
}

// Forgets the saved logs of a record's zones.
fn forget_logs(logs: &mut Logs, name: Name)
    ensures { Forgets name logs.old logs.new }
{
    for i in 0..logs.len() {
        if is_in(name, logs.name(i)) {
            logs.forget(i);
        }
    }
}

/// Erases the listed record whose name has this text: all its zones, and their saved logs are forgotten. Refused where
/// no record has the name, or a flight stands in one of its zones.
pub fn erase(live: &mut Live, logs: &mut Logs, name: &[u8]) -> Result<(), LineError>
    ensures erased { MatchResult result (λ _. ErasesNamed live.old logs.old name.now live.new logs.new)
        (EraseFails live.old logs.old name.now) }
    ensures unchanged { OnErr result ((live.new ≡ live.old) × (logs.new ≡ logs.old)) }
{
    let Some(name) = named(logs, name) else {
        return Err(LineError::Refused(Cause::NoRecord));
    };
    if flies_in_record(live, name) {
        return Err(LineError::Refused(Cause::Busy));
    }
    erase_zones(live, name);
    forget_logs(logs, name);
    Ok(())
}
