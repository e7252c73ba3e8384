// An image that is a storage.
ghost use Rattle.std.specs.Prelude.{◌≡◌, ◌≤◌, IfOk, IfErr, OnOk, MatchResult};
ghost use Rattle.report_run.specs.Messages.{seen};
ghost use Rattle.report_run.specs.Plans.{map_of};
ghost use Rattle.storage_report.specs.Held.{IsLookedAt};
ghost use Rattle.report_run.specs.Failures.{no_storage_failure};
ghost use Rattle.report_run.specs.Storages.{names_of, IsUnfound, IsStorageShown, IsStorageUnshown};

use crate::failures::{Failure, stop_failure};
use crate::images::tell_layout;
use crate::messages::Messages;
use crate::plans::Asked;
use outside::{Load, Sink};
use region_report::Report;
use std::alloc::{AllocError, Global};
use storage_report::{HeldStorage, NoStorage, held_storage, report};
use storage_words::Storages;
use symbols::Symbols;

fn no_storage_failure(none: NoStorage) -> Failure
    ensures { result ≡ no_storage_failure none }
{
    match none {
        NoStorage::Stopped(stop) => stop_failure(stop),
        NoStorage::Undivided(fault) => Failure::Undivided(fault),
    }
}

/// The storage that an image is, if such are looked for.
pub fn storage_of<M: Load>(
    alloc: Global,
    storages: Storages,
    image: &mut M,
) -> Result<Option<HeldStorage>, Failure>
    ensures looked { IfOk result (IsLookedAt storages (M.holds image.old)) }
    ensures unlooked { IfErr result (IsUnfound storages (M.holds image.old) (M.faults image.old) (M.faults image.new)) }
    ensures no_fault { OnOk result (M.faults image.new ≡ M.faults image.old) }
    ensures same { M.holds image.new ≡ M.holds image.old }
    ensures later { M.faults image.old ≤ M.faults image.new }
{
    match held_storage(alloc, storages, image) {
        Ok(held) => Ok(held),
        Err(none) => Err(no_storage_failure(none)),
    }
}

// The functions of the map that is asked for.
fn functions(alloc: Global, map: &Option<Vec<u8>>) -> Result<Symbols, AllocError>
    ensures { IfOk result (λ symbols. symbols ≡ names_of (map_of map.now)) }
{
    match map {
        Some(map) => Symbols::read(alloc, Vec::from_slice(alloc, map)?),
        None => Ok(Symbols::none(alloc)),
    }
}

/// The report of a storage, and then the lines on it.
pub fn report_storage<O: Sink, E: Sink>(
    alloc: Global,
    asked: &Asked,
    held: &HeldStorage,
    path: &str,
    out: &mut O,
    messages: &mut Messages<E>,
) -> Result<Report, Failure>
    ensures reported { MatchResult result
        (IsStorageShown asked.now path.now held.now (O.given out.old) (O.given out.new)
        (seen (E.given messages.old.errors) (E.faults messages.old.errors) messages.old.is_lost)
        (seen (E.given messages.new.errors) (E.faults messages.new.errors) messages.new.is_lost))
        (IsStorageUnshown asked.now path.now held.now (O.given out.old) (O.given out.new) (O.faults out.old)
        (O.faults out.new)
        (seen (E.given messages.old.errors) (E.faults messages.old.errors) messages.old.is_lost)
        (seen (E.given messages.new.errors) (E.faults messages.new.errors) messages.new.is_lost)) }
    ensures faultless { OnOk result (O.faults out.new ≡ O.faults out.old) }
{
    let lines = held.lines(alloc, path)?;
    let symbols = functions(alloc, &asked.map)?;
    let report = match report(alloc, held, &symbols, asked.lines, asked.format, path, out) {
        Ok(report) => report,
        Err(stop) => return Err(stop_failure(stop)),
    };
    tell_layout(asked.format, &lines, out, messages)?;
    Ok(report)
}
