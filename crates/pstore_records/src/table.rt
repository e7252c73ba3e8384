// The listed records as a table.
ghost use Rattle.std.specs.Prelude.{◌≡◌, map, IfOk};
ghost use Rattle.zone_spec.specs.Records.{listed_of};
ghost use Rattle.prz_read.specs.Saving.{saved};
ghost use Rattle.pstore_records.specs.Tables.{entry_of};
ghost use Rattle.pstore_records.specs.Walks.{IsCounted, listed_in};

use crate::notices::notice_len;
use crate::walk::{Source, content_len, counts_by, walk};
use prz_read::Logs;
use std::alloc::{AllocError, Global};
use zone_spec::{Name, Time};

/// A listed record: its name, the length in bytes of its content with its notice, and a dump's time.
#[derive(Clone, Copy, Debug, PartialEq, Eq)]
pub struct Entry {
    pub name: Name,
    pub len: u128,
    pub time: Option<Time>,
}

/// The entry of a source.
pub fn table_entry(logs: &Logs, source: &Source<'_>) -> Entry
    requires { IsCounted (saved logs.now) source.now }
    ensures { result ≡ entry_of (saved logs.now) (listed_in (saved logs.now) source.now) }
{
    let counts = counts_by(logs, source);
    Entry {
        name: source.name,
        len: content_len(logs, source) + u128::from(notice_len(counts)),
        time: source.time,
    }
}

/// The listed records in order, each zone's own: dumps by rising number, console, pmsg, ftrace (`fs/pstore/ram.c`,
/// `ramoops_pstore_read`).
pub fn listed(alloc: Global, logs: &Logs) -> Result<Vec<Entry>, AllocError>
    ensures { IfOk result (λ entries. entries.items ≡ map (entry_of (saved logs.now)) (listed_of (saved logs.now))) }
{
    let sources = walk(alloc, logs)?;
    let mut entries = Vec::new(alloc);
    for source in &sources {
        entries.push(table_entry(logs, source))?;
    }
    Ok(entries)
}
