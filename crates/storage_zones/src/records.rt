// The record of one zone.
ghost use Rattle.std.specs.Prelude.{◌≡◌, IfOk};
ghost use Rattle.psz_spec.specs.declared.Name.{Name as StorageName};
ghost use Rattle.psz_spec.specs.States.{log_of as log_by, data_of as data_by};
ghost use Rattle.psz_spec.specs.Headers.{dump_header as header_by};
ghost use Rattle.psz_spec.specs.Records.{dump_listed, plain_listed, content_of as content_by};
ghost use Rattle.storage_spec.specs.Records.{time_of as time_by, held_of, name_in as name_by};

use crate::contents::{content_of, log_of};
use outside::Bytes;
use pstore_records::HeldRecord;
use psz_read::{data_of, dump_header};
use psz_spec::{DumpHeader, Machine};
use std::alloc::{AllocError, Global};
use zone_spec::{Name, Time};

fn time_of(header: &DumpHeader) -> Option<Time>
    ensures { result ≡ time_by header.now }
{
    if header.secs > 0 && header.secs < 0x8000_0000_0000_0000 {
        Some(Time {
            secs: header.secs,
            micros: header.nanos / 1000,
        })
    } else {
        None
    }
}

/// The record of a dump zone with this index and these bytes.
pub fn held_dump(
    alloc: Global,
    machine: Machine,
    index: u32,
    bytes: &[u8],
) -> Result<HeldRecord, AllocError>
    ensures { IfOk result (λ r. r ≡ held_of (dump_listed index (header_by machine (data_by bytes.now))
        (content_by machine bytes.now))) }
{
    let header = dump_header(machine, data_of(bytes));
    let content = content_of(alloc, machine, bytes)?;
    let name = Name::Dump {
        index,
        packed: header.packed,
    };
    Ok(HeldRecord::plain(name, time_of(&header), Bytes::from_vec(content)))
}

/// The record of a pmsg zone with these bytes.
pub fn held_pmsg(alloc: Global, machine: Machine, bytes: &[u8]) -> Result<HeldRecord, AllocError>
    ensures { IfOk result (λ r. r ≡ held_of (plain_listed StorageName.Pmsg (log_by machine bytes.now))) }
{
    let log = log_of(alloc, machine, bytes)?;
    Ok(HeldRecord::plain(Name::Pmsg, None, Bytes::from_vec(log)))
}

/// The record of a console zone with these bytes.
pub fn held_console(alloc: Global, machine: Machine, bytes: &[u8]) -> Result<HeldRecord, AllocError>
    ensures { IfOk result (λ r. r ≡ held_of (plain_listed StorageName.Console (log_by machine bytes.now))) }
{
    let log = log_of(alloc, machine, bytes)?;
    Ok(HeldRecord::plain(Name::Console, None, Bytes::from_vec(log)))
}
