// The records that the next boot lists.
ghost use Rattle.std.specs.Prelude.{◌≡◌, ℕ, List, ◌++◌, map, option_to_list, None, IfOk, OnOk};
ghost use Rattle.psz_spec.specs.Layouts.{size_fault};
ghost use Rattle.psz_spec.specs.Records.{is_of as is_of_kind, is_found as is_found_state, gives as gives_by, made_by};
ghost use Rattle.psz_spec.specs.Records.{records_of, traces_of, ftrace_listed};
ghost use Rattle.storage_spec.specs.Records.{held_of, held_in};
ghost use Rattle.storage_zones.specs.Steps.{made_in, AreMerged};

use crate::records::{held_console, held_dump, held_pmsg};
use crate::traces::{Traces, all_traces};
use crate::zones::lying_zones;
use ftrace_zone::to_bytes;
use pstore_records::HeldRecord;
use psz_read::{state_of, zone_bytes};
use psz_spec::{Kind, Machine, Sizes, State, Zone};
use std::alloc::{AllocError, Global};
use zone_spec::Name;

fn is_of(kind: Kind, other: Kind) -> bool
    ensures { result ≡ is_of_kind kind other }
{
    matches!(
        (kind, other),
        (Kind::Pmsg, Kind::Pmsg)
            | (Kind::Console, Kind::Console)
            | (Kind::Ftrace, Kind::Ftrace)
            | (Kind::Dump, Kind::Dump)
    )
}

fn is_found(state: State) -> bool
    ensures { result ≡ is_found_state state }
{
    match state {
        State::Found => true,
        State::Unsigned | State::Overtop | State::NoDump | State::Erased | State::Broken => false,
    }
}

/// Whether a zone is of a kind, and was found.
pub fn gives(machine: Machine, kind: Kind, zone: &Zone, image: &[u8]) -> bool
    ensures { result ≡ gives_by machine image.now kind zone.now }
{
    is_of(kind, zone.kind) && is_found(state_of(machine, zone, zone_bytes(zone, image)))
}

fn made(
    alloc: Global,
    machine: Machine,
    kind: Kind,
    zone: &Zone,
    bytes: &[u8],
) -> Result<Option<HeldRecord>, AllocError>
    ensures { IfOk result (λ r. option_to_list r ≡ map held_of (made_by machine zone.now kind bytes.now)) }
{
    match kind {
        Kind::Dump => Ok(Some(held_dump(alloc, machine, zone.index, bytes)?)),
        Kind::Pmsg => Ok(Some(held_pmsg(alloc, machine, bytes)?)),
        Kind::Console => Ok(Some(held_console(alloc, machine, bytes)?)),
        Kind::Ftrace => Ok(None),
    }
}

// Adds the record of a zone, if it is of the kind and was found.
fn add_made(
    alloc: Global,
    machine: Machine,
    kind: Kind,
    zone: &Zone,
    image: &[u8],
    records: &mut Vec<HeldRecord>,
) -> Result<(), AllocError>
    ensures { OnOk result (records.new.items
        ≡ records.old.items ++ map held_of (made_in machine image.now kind zone.now)) }
{
    if !gives(machine, kind, zone, image) {
        return Ok(());
    }
    if let Some(record) = made(alloc, machine, kind, zone, zone_bytes(zone, image))? {
        records.push(record)?;
    }
    Ok(())
}

// Adds the records of the zones of a kind.
fn add_kind(
    alloc: Global,
    machine: Machine,
    kind: Kind,
    zones: &[Zone],
    image: &[u8],
    records: &mut Vec<HeldRecord>,
) -> Result<(), AllocError>
    ensures { OnOk result (records.new.items
        ≡ records.old.items ++ map held_of (records_of machine image.now kind zones.now)) }
{
    for zone in zones {
        add_made(alloc, machine, kind, zone, image, records)?;
    }
    Ok(())
}

// The record of the ftrace zones, if one was found.
fn trace_record(alloc: Global, traces: &Traces) -> Result<Option<HeldRecord>, AllocError>
    ensures { (logs : List (List ℕ)) → AreMerged logs traces.now
        → IfOk result (λ r. option_to_list r ≡ map held_of (ftrace_listed logs)) }
{
    if !traces.is_any {
        return Ok(None);
    }
    let bytes = to_bytes(alloc, &traces.all)?;
    Ok(Some(HeldRecord::plain(Name::Ftrace, None, bytes)))
}

fn add_some(records: &mut Vec<HeldRecord>, held: Option<HeldRecord>) -> Result<(), AllocError>
    ensures { OnOk result (records.new.items ≡ records.old.items ++ option_to_list held) }
{
    if let Some(held) = held {
        records.push(held)?;
    }
    Ok(())
}

// Adds it.
fn add_traces(
    alloc: Global,
    machine: Machine,
    zones: &[Zone],
    image: &[u8],
    records: &mut Vec<HeldRecord>,
) -> Result<(), AllocError>
    ensures { OnOk result (records.new.items
        ≡ records.old.items ++ map held_of (ftrace_listed (traces_of machine image.now zones.now))) }
{
    let traces = all_traces(alloc, machine, zones, image)?;
    let held = trace_record(alloc, &traces)?;
    add_some(records, held)
}

/// The records that the next boot lists of a storage, with their contents, in the order in which the kernel reads: dumps
/// by rising index, ftrace, pmsg, console. Takes time linear in the zones and contents.
pub fn held_records(
    alloc: Global,
    machine: Machine,
    sizes: &Sizes,
    image: &[u8],
) -> Result<Vec<HeldRecord>, AllocError>
    requires { size_fault sizes.now ≡ None }
    ensures { IfOk result (λ records. records.items ≡ held_in machine sizes.now image.now) }
{
    let zones = lying_zones(alloc, sizes)?;
    let mut records = Vec::new(alloc);
    add_kind(alloc, machine, Kind::Dump, &zones, image, &mut records)?;
    add_traces(alloc, machine, &zones, image, &mut records)?;
    add_kind(alloc, machine, Kind::Pmsg, &zones, image, &mut records)?;
    add_kind(alloc, machine, Kind::Console, &zones, image, &mut records)?;
    Ok(records)
}
