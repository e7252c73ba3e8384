// The logs of the ftrace zones, merged.
ghost use Rattle.std.specs.Prelude.{◌≡◌, ◌++◌, ℕ, List, map, IfOk};
ghost use Rattle.psz_spec.specs.States.{zone_bytes as bytes_of};
ghost use Rattle.psz_spec.specs.Records.{traces_of};
ghost use Rattle.zone_spec.specs.Ftrace.{entries, merge};
ghost use Rattle.ftrace_zone.specs.EntryBytes.{entry_bytes};
ghost use Rattle.storage_zones.specs.Steps.{trace_in, AreMerged, merge_more};

use crate::contents::log_of;
use crate::listing::gives;
use ftrace_zone::types::Entries;
use ftrace_zone::{entries, merge};
use psz_read::zone_bytes;
use psz_spec::{Kind, Machine, Zone};
use std::alloc::{AllocError, Global};

/// Whether an ftrace zone was found, and the entries of all that were.
#[derive(Drop)]
pub struct Traces {
    pub is_any: bool,
    pub all: Entries,
}

fn merged(alloc: Global, all: &Entries, log: &[u8]) -> Result<Entries, AllocError>
    ensures { IfOk result (λ merged. map entry_bytes merged ≡ merge_more (map entry_bytes all.now) log.now) }
{
    let later = entries(alloc, log)?;
    merge(alloc, all, &later)
}

impl Traces {
    // With the log of one zone more, if it is an ftrace zone that was found.
    fn with(
        self,
        alloc: Global,
        machine: Machine,
        zone: &Zone,
        image: &[u8],
    ) -> Result<Traces, AllocError>
        ensures { (logs : List (List ℕ)) → AreMerged logs self
            → IfOk result (AreMerged (logs ++ trace_in machine image.now zone.now)) }
    {
        if !gives(machine, Kind::Ftrace, zone, image) {
            return Ok(self);
        }
        let log = log_of(alloc, machine, zone_bytes(zone, image))?;
        let all = merged(alloc, &self.all, &log)?;
        Ok(Traces { is_any: true, all })
    }
}

/// The logs of the ftrace zones that were found, merged from the first on.
pub fn all_traces(
    alloc: Global,
    machine: Machine,
    zones: &[Zone],
    image: &[u8],
) -> Result<Traces, AllocError>
    ensures { IfOk result (AreMerged (traces_of machine image.now zones.now)) }
{
    let mut traces = Traces {
        is_any: false,
        all: Entries::from_vec(Vec::new(alloc)),
    };
    for zone in zones {
        traces = traces.with(alloc, machine, zone, image)?;
    }
    Ok(traces)
}
