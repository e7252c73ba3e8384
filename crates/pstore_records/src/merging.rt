// The entries of all ftrace zones.
ghost use Rattle.std.specs.Prelude.{◌≡◌, ◌*◌, ◌/◌, ◌<◌, ◌^◌, length, map, IfOk};
ghost use Rattle.zone_spec.specs.Ftrace.{entries, merge, merged};
ghost use Rattle.zone_spec.specs.Records.{logs_of};
ghost use Rattle.ftrace_zone.specs.EntryBytes.{entry_bytes};
ghost use Rattle.prz_read.specs.Saving.{saved};

use crate::zones::log_at;
use ftrace_zone::types::Entries;
use ftrace_zone::{entries, merge, to_bytes};
use outside::Bytes;
use prz_read::Logs;
use std::alloc::{AllocError, Global};
use zone_spec::Kind;

/// Merges the entries of a later zone's log.
fn merge_log(alloc: Global, all: &Entries, log: &[u8]) -> Result<Entries, AllocError>
    ensures { IfOk result (λ merged. map entry_bytes merged ≡ merge (map entry_bytes all.now) (entries log.now)) }
{
    let later = entries(alloc, log)?;
    merge(alloc, all, &later)
}

/// The entries of all ftrace zones that were found, merged from the first zone on.
pub fn merged_entries(alloc: Global, logs: &Logs) -> Result<Bytes, AllocError>
    ensures { IfOk result (λ bytes. bytes ≡ merged (logs_of Kind.Ftrace (saved logs.now))) }
{
    let mut all = Entries::from_vec(Vec::new(alloc));
    for i in 0..logs.len() {
        if let Some(log) = log_at(logs, i, Kind::Ftrace) {
            all = merge_log(alloc, &all, log)?;
        }
    }
    to_bytes(alloc, &all)
}

/// The length in bytes of a log's entries, without the bytes that make no whole one.
fn entries_len(log: &[u8]) -> u64
    ensures { result ≡ length log.now / 24 * 24 }
{
    (log.len() / 24 * 24) as u64
}

/// The length in bytes of the entries of all ftrace zones that were found.
pub fn merged_len(logs: &Logs) -> u128
    ensures len { result ≡ length (merged (logs_of Kind.Ftrace (saved logs.now))) }
    ensures small { result < 2 ^ 96 }
{
    let mut len = 0;
    for i in 0..logs.len() {
        if let Some(log) = log_at(logs, i, Kind::Ftrace) {
            len += u128::from(entries_len(log));
        }
    }
    len
}
