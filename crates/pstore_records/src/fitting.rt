// Which of the saved logs fit another layout.
ghost use Rattle.std.specs.Prelude.{◌≡◌, ◌<◌, [], ◌∷◌, length, map, slice_get, Some, IfOk, OnOk, OnErr};
ghost use Rattle.zone_spec.specs.Records.{Saved};
ghost use Rattle.ramoops_layout.specs.Laid.{zones_of};
ghost use Rattle.machine_spec.specs.Moved.{takes, fits, fitting, record_name};
ghost use Rattle.prz_read.specs.Saving.{saved};
ghost use Rattle.pstore_records.specs.Tables.{numbers_rise, zones_counted};
ghost use Rattle.pstore_records.specs.Moves.{stays};

use crate::notices::is_in;
use crate::walk::numbers_rise;
use crate::zones::{found_at, is_kind};
use dump_records::read_line;
use prz_read::Logs;
use ramoops_layout::types::Layout;
use std::alloc::{AllocError, Global};
use zone_spec::{Kind, Name, ZoneName};

/// Whether the layout has room for the log of zone `i`, if that zone was found and is not forgotten.
fn takes(logs: &Logs, layout: &Layout, i: u32) -> bool
    requires { i < length logs.now.readings }
    ensures { (s : Saved) → slice_get (saved logs.now) i ≡ Some s → result ≡ takes (zones_of layout.now) s }
{
    let Some(reading) = found_at(logs, i) else {
        return true;
    };
    match layout.find(logs.name(i)) {
        Some(place) => reading.log.len() <= layout.zones()[place as usize].cap as usize,
        None => false,
    }
}

/// Whether the layout has room for the log of zone `i`, if that zone is in the record.
pub fn fits_at(logs: &Logs, layout: &Layout, i: u32, name: Name) -> bool
    requires { i < length logs.now.readings }
    ensures { (s : Saved) → slice_get (saved logs.now) i ≡ Some s
        → result ≡ fits (zones_of layout.now) (s ∷ []) name }
{
    !is_in(name, logs.name(i)) || takes(logs, layout, i)
}

/// Whether the layout has, for each zone of the record that was found, a zone of the same name with room for its log.
pub fn fits(logs: &Logs, layout: &Layout, name: Name) -> bool
    ensures { result ≡ fits (zones_of layout.now) (saved logs.now) name }
{
    for i in 0..logs.len() {
        if !fits_at(logs, layout, i, name) {
            return false;
        }
    }
    true
}

/// The record that a zone with this log is part of.
fn record_name(zone: ZoneName, log: &[u8]) -> Option<Name>
    ensures { result ≡ record_name zone log.now zone.kind }
{
    match zone.kind {
        Kind::Dump => {
            let line = read_line(log)?;
            Some(Name::Dump {
                index: zone.index,
                packed: line.packed,
            })
        }
        Kind::Console => Some(Name::Console),
        Kind::Pmsg => Some(Name::Pmsg),
        Kind::Ftrace => Some(Name::Ftrace),
    }
}

/// Whether the record of a name fits, by zone `i` alone or by all zones.
fn fits_by(logs: &Logs, layout: &Layout, i: u32, name: Name, is_alone: bool) -> bool
    requires { i < length logs.now.readings }
    ensures { (s : Saved) → slice_get (saved logs.now) i ≡ Some s
        → result ≡ fits (zones_of layout.now) (zones_counted is_alone s (saved logs.now)) name }
{
    if is_alone {
        fits_at(logs, layout, i, name)
    } else {
        fits(logs, layout, name)
    }
}

/// Whether the record of zone `i` fits, by the zone alone or by all zones, if its log is not forgotten.
fn stays_by(logs: &Logs, layout: &Layout, i: u32, is_alone: bool) -> bool
    requires { i < length logs.now.readings }
    ensures { (s : Saved) → slice_get (saved logs.now) i ≡ Some s
        → result ≡ stays (zones_of layout.now) (zones_counted is_alone s (saved logs.now)) s s.1 }
{
    let Some(reading) = logs.reading(i) else {
        return true;
    };
    match record_name(logs.name(i), reading.log.as_slice()) {
        Some(name) => fits_by(logs, layout, i, name, is_alone),
        None => false,
    }
}

/// The same, where it is known whether the numbers of the dump zones rise.
fn stays(logs: &Logs, layout: &Layout, i: u32, rises: bool) -> bool
    requires within { i < length logs.now.readings }
    requires rises { rises ≡ numbers_rise 0 (saved logs.now) }
    ensures { (s : Saved) → slice_get (saved logs.now) i ≡ Some s
        → result ≡ stays (zones_of layout.now) (saved logs.now) s s.1 }
{
    let is_dump = is_kind(Kind::Dump, logs.name(i).kind);
    stays_by(logs, layout, i, rises && is_dump)
}

/// Whether the record of each zone fits.
fn all_stay(alloc: Global, logs: &Logs, layout: &Layout) -> Result<Vec<bool>, AllocError>
    ensures { IfOk result (λ all. all.items
        ≡ map (λ (s : Saved). stays (zones_of layout.now) (saved logs.now) s s.1) (saved logs.now)) }
{
    let rises = numbers_rise(logs);
    let mut all = Vec::new(alloc);
    for i in 0..logs.len() {
        all.push(stays(logs, layout, i, rises))?;
    }
    Ok(all)
}

/// Forgets the logs of all records that do not fit, and of the zones that are in no record.
pub fn forget_unfit(alloc: Global, logs: &mut Logs, layout: &Layout) -> Result<(), AllocError>
    ensures forgotten { OnOk result (saved logs.new ≡ fitting (zones_of layout.now) (saved logs.old)) }
    ensures zones { logs.new.zones ≡ logs.old.zones }
    ensures unchanged { OnErr result (logs.new ≡ logs.old) }
{
    let all = all_stay(alloc, logs, layout)?;
    for i in 0..logs.len() {
        if !all[i as usize] {
            logs.forget(i);
        }
    }
    Ok(())
}
