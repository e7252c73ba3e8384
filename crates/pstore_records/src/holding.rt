// The listed records with their contents, in time linear in the zones.
ghost use Rattle.std.specs.Prelude.{◌≡◌, [], ◌++◌, IfOk};
ghost use Rattle.prz_read.specs.Saving.{saved};
ghost use Rattle.zone_spec.specs.RecordsHeld.{record_held, records_held};
ghost use Rattle.pstore_records.specs.Counts.{notice_with};
ghost use Rattle.pstore_records.specs.Walks.{IsCounted, content_in, listed_in};

use crate::merging::merged_entries;
use crate::notices::{Counts, write_counted};
use crate::walk::{Source, counts_by, walk};
use arrayvec::ArrayString;
use outside::Bytes;
use prz_read::Logs;
use std::alloc::{AllocError, Global};
use std::marker::Model;
use zone_spec::{Name, Time};

/// A listed record: its name, a dump's time, and its content with its notice.
#[derive(Drop)]
pub struct HeldRecord {
    pub name: Name,
    pub time: Option<Time>,
    bytes: Bytes,
    // Where the notice begins.
    end: usize,
}

impl Model for HeldRecord {
    ghost use Rattle.std.specs.Prelude.{◌≤◌, length, take, drop};
    ghost use Rattle.zone_spec.specs.RecordsHeld.{RecordHeld};

    ghost Value = { RecordHeld };

    ghost view = { λ r. record {
      name = r.name;
      time = r.time;
      content = take r.end r.bytes;
      notice = drop r.end r.bytes;
    } };

    ghost invariant = { λ r. r.end ≤ length r.bytes };
}

impl HeldRecord {
    /// A record of another store, which has no notice.
    pub fn plain(name: Name, time: Option<Time>, content: Bytes) -> HeldRecord
        ensures { result ≡ record { name = name; time = time; content = content; notice = [] } }
    {
        let end = content.len();
        HeldRecord {
            name,
            time,
            bytes: content,
            end,
        }
    }

    /// The content without the notice.
    pub fn content(&self) -> &[u8]
        ensures { result.now ≡ self.now.content }
    {
        &self.bytes.as_slice()[..self.end]
    }

    pub fn notice(&self) -> &[u8]
        ensures { result.now ≡ self.now.notice }
    {
        &self.bytes.as_slice()[self.end..]
    }

    /// The content with the notice.
    pub fn into_bytes(self) -> Bytes
        ensures { result ≡ self.content ++ self.notice }
    {
        self.bytes
    }
}

/// The record with this content and the notice of these counts after it.
fn with_notice(
    name: Name,
    time: Option<Time>,
    content: Bytes,
    counts: Counts,
) -> Result<HeldRecord, AllocError>
    ensures { IfOk result (λ r. r ≡ record {
      name = name;
      time = time;
      content = content;
      notice = notice_with counts.has_parity counts.corrected counts.bad;
    }) }
{
    let mut bytes = content;
    let end = bytes.len();
    let mut notice = ArrayString::new();
    write_counted(counts, &mut notice);
    bytes.append(notice.as_str().as_bytes())?;
    Ok(HeldRecord {
        name,
        time,
        bytes,
        end,
    })
}

/// The record's content without its notice.
fn content_of(alloc: Global, logs: &Logs, source: &Source<'_>) -> Result<Bytes, AllocError>
    ensures { IfOk result (λ bytes. bytes ≡ content_in (saved logs.now) source.now.content) }
{
    match source.content {
        Some(log) => Bytes::copy_of(alloc, log),
        None => merged_entries(alloc, logs),
    }
}

/// The record of a source.
pub fn held(alloc: Global, logs: &Logs, source: &Source<'_>) -> Result<HeldRecord, AllocError>
    requires { IsCounted (saved logs.now) source.now }
    ensures { IfOk result (λ r. r ≡ record_held (saved logs.now) (listed_in (saved logs.now) source.now)) }
{
    let counts = counts_by(logs, source);
    let content = content_of(alloc, logs, source)?;
    with_notice(source.name, source.time, content, counts)
}

/// The listed records in order, each zone's own, with their contents: dumps by rising number, console, pmsg, ftrace
/// (`fs/pstore/ram.c`, `ramoops_pstore_read`).
pub fn held_records(alloc: Global, logs: &Logs) -> Result<Vec<HeldRecord>, AllocError>
    ensures { IfOk result (λ records. records.items ≡ records_held (saved logs.now)) }
{
    let sources = walk(alloc, logs)?;
    let mut records = Vec::new(alloc);
    for source in &sources {
        records.push(held(alloc, logs, source)?)?;
    }
    Ok(records)
}
