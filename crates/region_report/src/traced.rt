// The records of an image, with the trace of all its ftrace zones.
ghost use Rattle.std.specs.Prelude.{◌≡◌, ℕ, List, map, IfOk};
ghost use Rattle.zone_spec.specs.Records.{logs_of};
ghost use Rattle.zone_spec.specs.RecordsHeld.{RecordHeld};
ghost use Rattle.prz_read.specs.Saving.{saved};
ghost use Rattle.ftrace_spec.specs.Forms.{trace_of, order_of as order_in};
ghost use Rattle.report_spec.specs.Packed.{traced_by, records_traced as traced_of};

use ftrace_text::{EntryForm, order_of, trace};
use outside::Bytes;
use prz_read::Logs;
use pstore_records::{HeldRecord, ftrace_logs, held_records};
use std::alloc::{AllocError, Global};
use zone_spec::{Kind, Name, Zone};

/// The entries of all ftrace zones, merged.
fn merged_trace(
    alloc: Global,
    zones: &[Zone],
    given: Option<EntryForm>,
    logs: &Logs,
) -> Result<Bytes, AllocError>
    ensures { IfOk result (λ bytes.
        bytes ≡ trace_of (order_in zones.now) given (logs_of Kind.Ftrace (saved logs.now))) }
{
    let own = ftrace_logs(alloc, logs)?;
    trace(alloc, order_of(zones), given, &own)
}

/// The record; that of ftrace with this trace.
fn with_trace(alloc: Global, trace: &Bytes, held: HeldRecord) -> Result<HeldRecord, AllocError>
    ensures { IfOk result (λ r. r ≡ traced_by held.name trace.now held) }
{
    match held.name {
        Name::Ftrace => {
            let content = Bytes::copy_of(alloc, trace.as_slice())?;
            Ok(HeldRecord::plain(Name::Ftrace, held.time, content))
        }
        Name::Dump { .. } | Name::Console | Name::Pmsg => Ok(held),
    }
}

fn with_traces(
    alloc: Global,
    trace: &Bytes,
    records: Vec<HeldRecord>,
) -> Result<Vec<HeldRecord>, AllocError>
    ensures { IfOk result (λ all. all.items
        ≡ map (λ (r : RecordHeld). traced_by r.name trace.now r) records.items) }
{
    let mut all = Vec::with_capacity(alloc, records.len())?;
    for held in records {
        all.push(with_trace(alloc, trace, held)?)?;
    }
    Ok(all)
}

/// The records that the next boot would list of a layout's zones, in that order; that of ftrace has the entries of all
/// zones in the form that has lines. Takes time linear in the logs.
pub fn records_traced(
    alloc: Global,
    zones: &[Zone],
    given: Option<EntryForm>,
    logs: &Logs,
) -> Result<Vec<HeldRecord>, AllocError>
    ensures { IfOk result (λ records. records.items ≡ traced_of zones.now given (saved logs.now)) }
{
    let trace = merged_trace(alloc, zones, given, logs)?;
    let records = held_records(alloc, logs)?;
    with_traces(alloc, &trace, records)
}
