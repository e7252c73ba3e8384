// Records, of which the console is mended by the newest dump, and this by the console.
ghost use Rattle.std.specs.Prelude.{◌≡◌, map, IfOk};
ghost use Rattle.std.specs.List.{list_any, count_by};
ghost use Rattle.std.specs.Option.{option_copied, option_map};
ghost use Rattle.report_spec.specs.Packed.{RecordShown};
ghost use Rattle.report_spec.specs.Mending.{seen_in, mending_by as mending_by_record, is_doubt};
ghost use Rattle.report_spec.specs.Mending.{if_fewer as mending_if_fewer};
ghost use Rattle.report_spec.specs.Mending.{is_sound as is_zone_sound, zone_of as zone_of_name, vouches as does_vouch};
ghost use Rattle.report_spec.specs.Mending.{knows_doubts as are_doubts_known};
ghost use Rattle.report_spec.specs.Mending.{mending as mending_of_record, with_mending as mending_added};
ghost use Rattle.report_spec.specs.Mending.{is_dump_of as is_dump_named, mended_in, records_mended as all_mended};
ghost use Rattle.region_report.specs.Mendings.{as_seen, AreMendings};

use crate::deaths::is_same_dump;
use crate::mending::{MendedText, mended};
use crate::newest::{console, is_console, newest_dump};
use crate::same_lines::Seen;
use crate::shown::RecordReport;
use crate::warnings::any_bad;
use outside::Bytes;
use prz_read::ZoneParts;
use report_spec::{Mended, Packing};
use std::alloc::{AllocError, Global};
use std::marker::Model;
use zone_spec::Name;

/// How a record is mended: by which, its text then, and the doubts that are left.
#[derive(Drop)]
struct Mending {
    by: Name,
    text: Bytes,
    doubts: Vec<bool>,
}

impl Model for Mending {
    ghost use Rattle.report_spec.specs.Mending.{Mending as MendingValue};

    ghost Value = { MendingValue };

    ghost view = { λ m. record { by = m.by; text = m.text; doubts = m.doubts.items } };
}

fn seen(entry: &RecordReport) -> Seen<'_>
    ensures { as_seen result ≡ seen_in entry.now }
{
    Seen {
        text: entry.readable(),
        doubts: entry.doubts.as_slice(),
    }
}

fn mending_by(
    alloc: Global,
    entry: &RecordReport,
    other: &RecordReport,
) -> Result<Mending, AllocError>
    ensures { IfOk result (λ m. m ≡ mending_by_record entry.now other.now) }
{
    let MendedText { text, doubts } = mended(alloc, &seen(entry), &seen(other))?;
    Ok(Mending {
        by: other.name,
        text: Bytes::from_vec(text),
        doubts,
    })
}

fn any_doubt(doubts: &[bool]) -> bool
    ensures { result ≡ list_any is_doubt doubts.now }
{
    doubts.iter().any(|doubt| *doubt)
}

fn doubt_count(doubts: &[bool]) -> usize
    ensures { result ≡ count_by is_doubt doubts.now }
{
    doubts.iter().filter(|doubt| **doubt).count()
}

fn if_fewer(doubts: &[bool], mending: Mending) -> Option<Mending>
    ensures { result ≡ mending_if_fewer doubts.now mending }
{
    if doubt_count(mending.doubts.as_slice()) < doubt_count(doubts) {
        Some(mending)
    } else {
        None
    }
}

fn is_sound(zone: Option<&ZoneParts>) -> bool
    ensures { result ≡ is_zone_sound (option_copied zone.entry) }
{
    match zone {
        Some(zone) => !any_bad(zone.blocks.as_slice()),
        None => false,
    }
}

fn zone_of(parts: &[ZoneParts], name: Name) -> Option<&ZoneParts>
    ensures { option_copied result ≡ zone_of_name parts.now name }
{
    match name {
        Name::Dump { index, .. } => parts.get(index as usize),
        Name::Console | Name::Pmsg | Name::Ftrace => None,
    }
}

/// Whether it is known which bytes of a record stand in bad blocks.
fn knows_doubts(parts: &[ZoneParts], packing: &Packing<Bytes>, name: Name) -> bool
    ensures { result ≡ are_doubts_known parts.now packing.now name }
{
    match packing {
        Packing::Plain => true,
        Packing::Whole { .. } => is_sound(zone_of(parts, name)),
        Packing::Part { .. } => false,
    }
}

/// Whether parity vouches for the bytes of a record without a doubt.
fn vouches(parts: &[ZoneParts], entry: &RecordReport) -> bool
    ensures { result ≡ does_vouch parts.now entry.now }
{
    entry.notice > 0 && knows_doubts(parts, &entry.packing, entry.name)
}

/// How the one record is mended by the other, if fewer of its bytes are doubtful then.
fn mending_for(
    alloc: Global,
    parts: &[ZoneParts],
    entry: Option<&RecordReport>,
    other: Option<&RecordReport>,
) -> Result<Option<Mending>, AllocError>
    ensures { IfOk result (λ m. m
        ≡ mending_of_record parts.now (option_copied entry.entry) (option_copied other.entry)) }
{
    let (Some(entry), Some(other)) = (entry, other) else {
        return Ok(None);
    };
    if any_doubt(entry.doubts.as_slice()) && vouches(parts, other) {
        let mending = mending_by(alloc, entry, other)?;
        Ok(if_fewer(entry.doubts.as_slice(), mending))
    } else {
        Ok(None)
    }
}

fn with_mending(
    alloc: Global,
    mending: Option<&Mending>,
    entry: RecordReport,
) -> Result<RecordReport, AllocError>
    ensures { IfOk result (λ r. r ≡ mending_added (option_copied mending.entry) entry) }
{
    let Some(mending) = mending else {
        return Ok(entry);
    };
    let mended = Some(Mended {
        by: mending.by,
        text: Bytes::copy_of(alloc, mending.text.as_slice())?,
    });
    let doubts = Vec::from_slice(alloc, mending.doubts.as_slice())?;
    Ok(RecordReport {
        mended,
        doubts,
        ..entry
    })
}

fn is_dump_of(dump: Option<Name>, name: Name) -> bool
    ensures { result ≡ is_dump_named dump name }
{
    match dump {
        Some(dump) => is_same_dump(dump, name),
        None => false,
    }
}

/// How the console is mended and the newest dump, and the name of this.
#[derive(Drop)]
struct Mendings {
    console: Option<Mending>,
    dump: Option<Mending>,
    name: Option<Name>,
}

fn name_of(dump: Option<&RecordReport>) -> Option<Name>
    ensures { result ≡ option_map (λ (dump : RecordShown). dump.name) (option_copied dump.entry) }
{
    match dump {
        Some(dump) => Some(dump.name),
        None => None,
    }
}

fn mended_record(
    alloc: Global,
    mendings: &Mendings,
    entry: RecordReport,
) -> Result<RecordReport, AllocError>
    ensures { IfOk result (λ r. r
        ≡ mended_in mendings.now.console mendings.now.dump mendings.now.name entry) }
{
    if is_console(&entry) {
        with_mending(alloc, mendings.console.as_ref(), entry)
    } else if is_dump_of(mendings.name, entry.name) {
        with_mending(alloc, mendings.dump.as_ref(), entry)
    } else {
        Ok(entry)
    }
}

fn with_mendings(
    alloc: Global,
    mendings: &Mendings,
    records: Vec<RecordReport>,
) -> Result<Vec<RecordReport>, AllocError>
    ensures { IfOk result (λ all. all.items
        ≡ map (mended_in mendings.now.console mendings.now.dump mendings.now.name) records.items) }
{
    let mut all = Vec::with_capacity(alloc, records.len())?;
    for entry in records {
        all.push(mended_record(alloc, mendings, entry)?)?;
    }
    Ok(all)
}

fn mendings_of(
    alloc: Global,
    parts: &[ZoneParts],
    records: &[RecordReport],
) -> Result<Mendings, AllocError>
    ensures { IfOk result (AreMendings parts.now records.now) }
{
    let (newest, console) = (newest_dump(records), console(records));
    Ok(Mendings {
        console: mending_for(alloc, parts, console, newest)?,
        dump: mending_for(alloc, parts, newest, console)?,
        name: name_of(newest),
    })
}

/// The records, the console mended by the newest dump, and this by the console. Takes time linear in both.
pub fn records_mended(
    alloc: Global,
    parts: &[ZoneParts],
    records: Vec<RecordReport>,
) -> Result<Vec<RecordReport>, AllocError>
    ensures { IfOk result (λ all. all.items ≡ all_mended parts.now records.items) }
{
    let mendings = mendings_of(alloc, parts, &records)?;
    with_mendings(alloc, &mendings, records)
}
