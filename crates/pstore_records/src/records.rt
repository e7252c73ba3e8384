// The record of a name: its content, length and time.
ghost use Rattle.std.specs.Prelude.{◌≡◌, length};
ghost use Rattle.std.specs.Option.{option_map, option_and_then};
ghost use Rattle.zone_spec.specs.Records.{Listed, record_of};
ghost use Rattle.zone_spec.specs.Notices.{content as content_of};
ghost use Rattle.prz_read.specs.Saving.{saved};
ghost use Rattle.pstore_records.specs.Contents.{IsGiven};

use crate::holding::held;
use crate::table::table_entry;
use crate::walk::source_of;
use outside::Bytes;
use prz_read::Logs;
use std::alloc::Global;
use thiserror::Error;
use zone_spec::{Name, Time};

/// Why a record's content is not given.
#[derive(Debug, Drop, Error)]
pub enum ContentFault {
    #[error("no record has this name")]
    NoRecord,
    #[error("no memory for the content")]
    Memory,
}

/// The content of the listed record of this name, with its notice. A dump's content leaves its time line away; that of
/// ftrace is the entries of all zones that were found, merged by their times.
pub fn content(alloc: Global, logs: &Logs, name: Name) -> Result<Bytes, ContentFault>
    ensures { IsGiven (content_of (saved logs.now)) (record_of (saved logs.now) name) result }
{
    match source_of(logs, name) {
        Some(source) => match held(alloc, logs, &source) {
            Ok(record) => Ok(record.into_bytes()),
            Err(_) => Err(ContentFault::Memory),
        },
        None => Err(ContentFault::NoRecord),
    }
}

/// The length in bytes of the content of the listed record of this name, with its notice, or `None` where there is no
/// such record. Takes no memory.
pub fn length(logs: &Logs, name: Name) -> Option<u128>
    ensures { result
        ≡ option_map (λ (r : Listed). length (content_of (saved logs.now) r)) (record_of (saved logs.now) name) }
{
    let source = source_of(logs, name)?;
    Some(table_entry(logs, &source).len)
}

/// The time of the listed dump of this name, or `None` where there is no such record or it is no dump.
pub fn time(logs: &Logs, name: Name) -> Option<Time>
    ensures { result ≡ option_and_then (λ (r : Listed). r.time) (record_of (saved logs.now) name) }
{
    let source = source_of(logs, name)?;
    source.time
}
