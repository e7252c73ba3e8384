// The records as they are shown.
ghost use Rattle.std.specs.Prelude.{◌≡◌, IfOk};
ghost use Rattle.report_spec.specs.declared.Packing.TheVariants.{Part};
ghost use Rattle.report_spec.specs.Packed.{most_of, as_it_stands, as_listed, as_traced, inflated, IsUnpacked, IsShown};
ghost use Rattle.report_spec.specs.Packed.{AreShownBy, AreShown, readable, readable_of, said, said_of, mended_or};
ghost use Rattle.report_spec.specs.Packed.{mended_said_or};
ghost use Rattle.report_spec.specs.Newest.{has_entries};

use crate::shifts::shift_in;
use ftrace_text::trace_text;
use inflate::{InflateError, Inflated, inflate};
use outside::Bytes;
use pmsg::{Entry, entries, shown_lines};
use pstore_records::HeldRecord;
use report_spec::{Mended, Packing, TextFault};
use std::alloc::{AllocError, Global};
use std::marker::Model;
use symbols::Symbols;
use zone_spec::{Name, Time, Zone};

/// A record as it is shown: its name and content as its file has them, a dump's time, and how far packed bytes inflate.
/// A packed dump that inflates to its end has the name without a suffix, and its text in place of its bytes. Any other
/// record is as it stands, and of packed bytes that don't, `packing` has the text up to the fault.
#[derive(Drop)]
pub struct RecordReport {
    pub name: Name,
    pub time: Option<Time>,
    pub content: Bytes,
    /// How many bytes at the content's end are the notice.
    pub notice: usize,
    pub packing: Packing<Bytes>,
    /// Of a pmsg the entries of Android's log, if it has such; their places are those of the content.
    pub entries: Vec<Entry>,
    /// The lines of the entries.
    pub lines: Bytes,
    /// Its text, if doubtful bytes of it were taken from another record.
    pub mended: Option<Mended<Bytes>>,
    /// Of each byte of its text whether it stands in a bad block, if any does.
    pub doubts: Vec<bool>,
}

impl Model for RecordReport {
    ghost use Rattle.report_spec.specs.Packed.{RecordShown};

    ghost Value = { RecordShown };

    ghost view = { λ r. record {
      name = r.name;
      time = r.time;
      content = r.content;
      notice = r.notice;
      packing = r.packing;
      entries = r.entries.items;
      lines = r.lines;
      mended = r.mended;
      doubts = r.doubts.items;
    } };
}

impl RecordReport {
    fn held_text(&self) -> &[u8]
        ensures { result.now ≡ readable_of self.now.packing self.now.content }
    {
        match &self.packing {
            Packing::Plain | Packing::Whole { .. } => self.content.as_slice(),
            Packing::Part { text, .. } => text.as_slice(),
        }
    }

    fn held_said(&self) -> &[u8]
        ensures { result.now ≡ said_of self.now.packing self.now.notice self.now.content }
    {
        match &self.packing {
            Packing::Plain | Packing::Whole { .. } => {
                let content = self.content.as_slice();
                &content[..content.len().saturating_sub(self.notice)]
            }
            Packing::Part { text, .. } => text.as_slice(),
        }
    }

    fn text(&self) -> &[u8]
        ensures { result.now ≡ mended_or self.now.mended (readable_of self.now.packing self.now.content) }
    {
        match &self.mended {
            Some(mended) => mended.text.as_slice(),
            None => self.held_text(),
        }
    }

    fn text_said(&self) -> &[u8]
        ensures { result.now ≡ mended_said_or self.now.mended self.now.notice
            (said_of self.now.packing self.now.notice self.now.content) }
    {
        match &self.mended {
            Some(mended) => {
                let text = mended.text.as_slice();
                &text[..text.len().saturating_sub(self.notice)]
            }
            None => self.held_said(),
        }
    }

    /// Whether it has entries of Android's log.
    pub fn has_entries(&self) -> bool
        ensures { result ≡ has_entries self.now.entries }
    {
        !self.entries.is_empty()
    }

    /// What people read of it: the lines of its entries, else the text that another record mended, else the text up to
    /// a fault, else the content.
    pub fn readable(&self) -> &[u8]
        ensures { result.now ≡ readable self.now }
    {
        if self.has_entries() {
            self.lines.as_slice()
        } else {
            self.text()
        }
    }

    /// What people read of it, without the notice.
    pub fn said(&self) -> &[u8]
        ensures { result.now ≡ said self.now }
    {
        if self.has_entries() {
            self.lines.as_slice()
        } else {
            self.text_said()
        }
    }
}

/// The most bytes of the text of the dump of this number.
fn most_of(zones: &[Zone], index: u32) -> usize
    ensures { result ≡ most_of zones.now index }
{
    match zones.get(index as usize) {
        Some(zone) => 64 * zone.size as usize,
        None => 0,
    }
}

fn as_it_stands(alloc: Global, held: HeldRecord, packing: Packing<Bytes>) -> RecordReport
    ensures { result ≡ as_it_stands held packing }
{
    let notice = held.notice().len();
    RecordReport {
        name: held.name,
        time: held.time,
        content: held.into_bytes(),
        notice,
        packing,
        entries: Vec::new(alloc),
        lines: Bytes::from_vec(Vec::new(alloc)),
        mended: None,
        doubts: Vec::new(alloc),
    }
}

/// A pmsg, with the entries of Android's log.
fn as_listed(alloc: Global, held: HeldRecord) -> Result<RecordReport, AllocError>
    ensures { IfOk result (λ r. r ≡ as_listed held) }
{
    let entries = entries(alloc, held.content())?;
    let lines = shown_lines(alloc, held.content(), &entries)?;
    let notice = held.notice().len();
    Ok(RecordReport {
        name: held.name,
        time: held.time,
        content: held.into_bytes(),
        notice,
        packing: Packing::Plain,
        entries,
        lines: Bytes::from_vec(lines),
        mended: None,
        doubts: Vec::new(alloc),
    })
}

/// The dump with this text in place of the bytes that stand for it.
fn inflated(
    alloc: Global,
    held: HeldRecord,
    index: u32,
    text: Bytes,
    taken: usize,
) -> Result<RecordReport, AllocError>
    ensures { IfOk result (λ r. r ≡ inflated held index text taken) }
{
    let mut content = text;
    content.append(held.notice())?;
    Ok(RecordReport {
        name: Name::Dump {
            index,
            packed: false,
        },
        time: held.time,
        content,
        notice: held.notice().len(),
        packing: Packing::Whole { taken },
        entries: Vec::new(alloc),
        lines: Bytes::from_vec(Vec::new(alloc)),
        mended: None,
        doubts: Vec::new(alloc),
    })
}

fn in_part(alloc: Global, held: HeldRecord, fault: TextFault, text: Vec<u8>) -> RecordReport
    ensures { result ≡ as_it_stands held (Part fault text.items) }
{
    let text = Bytes::from_vec(text);
    as_it_stands(alloc, held, Packing::Part { fault, text })
}

/// A packed dump, inflated as far as it goes.
fn unpacked(
    alloc: Global,
    zones: &[Zone],
    index: u32,
    held: HeldRecord,
) -> Result<RecordReport, AllocError>
    ensures { IfOk result (λ r. IsUnpacked (most_of zones.now index) index held r.packing r) }
{
    match inflate(alloc, held.content(), most_of(zones, index)) {
        Ok(Inflated { text, taken }) => inflated(alloc, held, index, Bytes::from_vec(text), taken),
        Err(InflateError::Memory) => Err(AllocError),
        Err(InflateError::TooLong { text }) => Ok(in_part(alloc, held, TextFault::TooLong, text)),
        Err(InflateError::Broken { fault, text }) => {
            Ok(in_part(alloc, held, TextFault::Broken(fault), text))
        }
    }
}

/// An ftrace log, as the kernel shows it.
fn as_traced(
    alloc: Global,
    symbols: &Symbols,
    shift: u64,
    held: HeldRecord,
) -> Result<RecordReport, AllocError>
    ensures { IfOk result (λ r. r ≡ as_traced symbols.now shift held) }
{
    let text = trace_text(alloc, held.content(), symbols, shift)?;
    Ok(RecordReport {
        name: held.name,
        time: held.time,
        content: Bytes::from_vec(text),
        notice: 0,
        packing: Packing::Plain,
        entries: Vec::new(alloc),
        lines: Bytes::from_vec(Vec::new(alloc)),
        mended: None,
        doubts: Vec::new(alloc),
    })
}

fn shown(
    alloc: Global,
    zones: &[Zone],
    symbols: &Symbols,
    shift: u64,
    held: HeldRecord,
) -> Result<RecordReport, AllocError>
    ensures { IfOk result (λ r. IsShown zones.now symbols.now shift held r) }
{
    match held.name {
        Name::Dump {
            index,
            packed: true,
        } => unpacked(alloc, zones, index, held),
        Name::Dump { packed: false, .. } | Name::Console => {
            Ok(as_it_stands(alloc, held, Packing::Plain))
        }
        Name::Pmsg => as_listed(alloc, held),
        Name::Ftrace => as_traced(alloc, symbols, shift, held),
    }
}

fn shown_by(
    alloc: Global,
    zones: &[Zone],
    symbols: &Symbols,
    shift: u64,
    records: Vec<HeldRecord>,
) -> Result<Vec<RecordReport>, AllocError>
    ensures { IfOk result (λ all. AreShownBy zones.now symbols.now shift records.items all.items) }
{
    let mut all = Vec::with_capacity(alloc, records.len())?;
    for held in records {
        all.push(shown(alloc, zones, symbols, shift, held)?)?;
    }
    Ok(all)
}

/// The records of a layout's zones as they are shown with the functions of a map, in order. Of a kernel that ran above
/// its map, as the console says, functions are found by that. Takes time linear in their bytes and texts.
pub fn shown_records(
    alloc: Global,
    zones: &[Zone],
    symbols: &Symbols,
    records: Vec<HeldRecord>,
) -> Result<Vec<RecordReport>, AllocError>
    ensures { IfOk result (λ all. AreShown zones.now symbols.now records.items all.items) }
{
    let shift = shift_in(symbols, &records);
    shown_by(alloc, zones, symbols, shift, records)
}
