// The one walk over the saved logs: where each listed record stands.
ghost use Rattle.std.specs.Prelude.{◌≡◌, ◌<◌, ◌^◌, ◌++◌, [], ◌∷◌, List, if◌then◌else◌, length, map, slice_get, Some};
ghost use Rattle.std.specs.Prelude.{None, option_to_list, IfOk, IfSome, OnOk};
ghost use Rattle.zone_spec.specs.Records.{Saved, Listed, dumps_of, plain, ftrace_of, listed_of, logs_of};
ghost use Rattle.prz_read.specs.Saving.{saved};
ghost use Rattle.pstore_records.specs.Counts.{has_parity, corrected_in, bad_in};
ghost use Rattle.pstore_records.specs.Tables.{numbers_rise};
ghost use Rattle.pstore_records.specs.Walks.{AreSources, IsCounted, IsNamed, content_in, listed_in, own_records};

use crate::merging::merged_len;
use crate::naming::is_name;
use crate::notices::{Counts, counts_at, counts_of};
use crate::zones::{first_log, is_kind, log_at};
use dump_records::read_line;
use prz_read::Logs;
use std::alloc::{AllocError, Global};
use zone_spec::{Kind, Name, Time};

/// Where a listed record stands in the saved logs.
#[derive(Clone, Copy)]
pub struct Source<'a> {
    pub name: Name,
    /// A dump's time.
    pub time: Option<Time>,
    /// The content without its notice, or `None` of ftrace: the merged entries of all its zones.
    pub content: Option<&'a [u8]>,
    /// The only zone in the record, or `None`: all zones are asked.
    pub zone: Option<u32>,
}

/// Whether the numbers of the dump zones rise, as they do in every layout: each dump's record then has its own zone
/// alone.
pub fn numbers_rise(logs: &Logs) -> bool
    ensures { result ≡ numbers_rise 0 (saved logs.now) }
{
    let mut least = 0;
    for i in 0..logs.len() {
        let name = logs.name(i);
        if is_kind(Kind::Dump, name.kind) {
            if u64::from(name.index) < least {
                return false;
            }
            least = u64::from(name.index) + 1;
        }
    }
    true
}

/// The source of the dump of zone `i`, if the zone makes one.
fn dump_in(logs: &Logs, i: u32, is_alone: bool) -> Option<Source<'_>>
    requires { i < length logs.now.readings }
    ensures listed { (s : Saved) → slice_get (saved logs.now) i ≡ Some s
        → map (listed_in (saved logs.now)) (option_to_list result) ≡ dumps_of (s ∷ []) }
    ensures zone { IfSome result (λ d. d.zone ≡ (if is_alone then Some i else None)) }
{
    let log = log_at(logs, i, Kind::Dump)?;
    let line = read_line(log)?;
    Some(Source {
        name: Name::Dump {
            index: logs.name(i).index,
            packed: line.packed,
        },
        time: Some(line.time),
        content: Some(&log[line.len as usize..]),
        zone: if is_alone { Some(i) } else { None },
    })
}

/// The source of the record of this name that the log of zone `i` is, if the zone is of this kind.
fn plain_in(logs: &Logs, i: u32, kind: Kind, name: Name) -> Option<Source<'_>>
    requires { i < length logs.now.readings }
    ensures listed { (s : Saved) → slice_get (saved logs.now) i ≡ Some s
        → map (listed_in (saved logs.now)) (option_to_list result) ≡ plain name (logs_of kind (s ∷ [])) }
    ensures zone { IfSome result (λ d. d.zone ≡ None) }
{
    let log = log_at(logs, i, kind)?;
    Some(Source {
        name,
        time: None,
        content: Some(log),
        zone: None,
    })
}

/// The source of the record that zone `i`, if it is of this kind, makes by itself.
fn source_in(logs: &Logs, i: u32, kind: Kind, is_alone: bool) -> Option<Source<'_>>
    requires zone { i < length logs.now.readings }
    requires alone { is_alone ≡ numbers_rise 0 (saved logs.now) }
    ensures { (s : Saved) → slice_get (saved logs.now) i ≡ Some s
        → AreSources (saved logs.now) (option_to_list result) (own_records kind (s ∷ [])) }
{
    match kind {
        Kind::Dump => dump_in(logs, i, is_alone),
        Kind::Console => plain_in(logs, i, kind, Name::Console),
        Kind::Pmsg => plain_in(logs, i, kind, Name::Pmsg),
        Kind::Ftrace => None,
    }
}

/// Adds the sources of the records that the zones of this kind make, each by itself.
fn add_own<'a>(
    logs: &'a Logs,
    kind: Kind,
    is_alone: bool,
    sources: &mut Vec<Source<'a>>,
) -> Result<(), AllocError>
    requires { is_alone ≡ numbers_rise 0 (saved logs.now) }
    ensures { OnOk result ((front : List Listed) → AreSources (saved logs.now) sources.old.items front
        → AreSources (saved logs.now) sources.new.items (front ++ own_records kind (saved logs.now))) }
{
    for i in 0..logs.len() {
        if let Some(source) = source_in(logs, i, kind, is_alone) {
            sources.push(source)?;
        }
    }
    Ok(())
}

/// The source of the one record of all ftrace zones.
fn ftrace_source(logs: &Logs) -> Option<Source<'_>>
    ensures { AreSources (saved logs.now) (option_to_list result) (ftrace_of (logs_of Kind.Ftrace (saved logs.now))) }
{
    if first_log(logs, Kind::Ftrace).is_none() {
        return None;
    }
    Some(Source {
        name: Name::Ftrace,
        time: None,
        content: None,
        zone: None,
    })
}

/// The sources of the listed records in order: dumps by rising number, console, pmsg, ftrace (`fs/pstore/ram.c`,
/// `ramoops_pstore_read`).
pub fn walk(alloc: Global, logs: &Logs) -> Result<Vec<Source<'_>>, AllocError>
    ensures { IfOk result (λ sources. AreSources (saved logs.now) sources.items (listed_of (saved logs.now))) }
{
    let is_alone = numbers_rise(logs);
    let mut sources = Vec::new(alloc);
    add_own(logs, Kind::Dump, is_alone, &mut sources)?;
    add_own(logs, Kind::Console, is_alone, &mut sources)?;
    add_own(logs, Kind::Pmsg, is_alone, &mut sources)?;
    if let Some(source) = ftrace_source(logs) {
        sources.push(source)?;
    }
    Ok(sources)
}

/// The source, if it has this name.
fn named(source: Option<Source<'_>>, name: Name) -> Option<Source<'_>>
    ensures { (zones : List Saved) (records : List Listed) → AreSources zones (option_to_list source.entry) records
        → IsNamed zones result name records }
{
    let source = source?;
    if is_name(source.name, name) {
        Some(source)
    } else {
        None
    }
}

/// The first source of this name that the zones of this kind make, each by itself.
fn own_named(logs: &Logs, kind: Kind, is_alone: bool, name: Name) -> Option<Source<'_>>
    requires { is_alone ≡ numbers_rise 0 (saved logs.now) }
    ensures { IsNamed (saved logs.now) result name (own_records kind (saved logs.now)) }
{
    for i in 0..logs.len() {
        let source = named(source_in(logs, i, kind, is_alone), name);
        if source.is_some() {
            return source;
        }
    }
    None
}

/// The source of the listed record of this name: the first in the order of `walk`. Takes no memory.
pub fn source_of(logs: &Logs, name: Name) -> Option<Source<'_>>
    ensures { IsNamed (saved logs.now) result name (listed_of (saved logs.now)) }
{
    let is_alone = numbers_rise(logs);
    own_named(logs, Kind::Dump, is_alone, name)
        .or(own_named(logs, Kind::Console, is_alone, name))
        .or(own_named(logs, Kind::Pmsg, is_alone, name))
        .or(named(ftrace_source(logs), name))
}

/// What the zones of the record count.
pub fn counts_by(logs: &Logs, source: &Source<'_>) -> Counts
    requires { IsCounted (saved logs.now) source.now }
    ensures has_parity { result.has_parity ≡ has_parity source.now.name (saved logs.now) }
    ensures corrected { result.corrected ≡ corrected_in source.now.name (saved logs.now) }
    ensures bad { result.bad ≡ bad_in source.now.name (saved logs.now) }
{
    match source.zone {
        Some(i) => counts_at(logs, i, source.name),
        None => counts_of(logs, source.name),
    }
}

fn len_of(log: &[u8]) -> u128
    ensures len { result ≡ length log.now }
    ensures small { result < 2 ^ 96 }
{
    log.len() as u128
}

/// The length in bytes of the record's content without its notice.
pub fn content_len(logs: &Logs, source: &Source<'_>) -> u128
    ensures len { result ≡ length (content_in (saved logs.now) source.now.content) }
    ensures small { result < 2 ^ 96 }
{
    match source.content {
        Some(log) => len_of(log),
        None => merged_len(logs),
    }
}
