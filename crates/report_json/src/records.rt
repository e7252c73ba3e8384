// Records, put onto a line.
ghost use Rattle.std.specs.Prelude.{◌≡◌, ◌∷◌, map, take, option_map, codes, OnOk};
ghost use Rattle.std.specs.Str.Lossy.{utf8_valid_len};
ghost use Rattle.json.specs.Token.{key};
ghost use Rattle.prz_read.specs.Saving.{saved};
ghost use Rattle.report_spec.specs.Origins.{name_in};
ghost use Rattle.serde_json.specs.Data.{array, string};
ghost use Rattle.serde_json.specs.View.{items_of};
ghost use Rattle.report_json.specs.Schema.{time_data, taken_data, fault_data, is_packed, entry_by, entry_data, entries_data};
ghost use Rattle.report_json.specs.Schema.{front_data, record_with, content_data, part_data_of, record_data};
ghost use Rattle.report_json.specs.Tokens.{onto, all_onto, text_data};

use crate::tokens::Line;
use arrayvec::ArrayString;
use base64::engine::general_purpose::STANDARD;
use outside::Bytes;
use pmsg::{Entry, payload, split_payload};
use prz_read::Logs;
use region_report::{Origin, Packing, RecordReport, counts, file_name};
use simdutf8::compat::from_utf8;
use std::alloc::{AllocError, Global};
use zone_spec::{Name, Time};

/// The longest front of bytes that is UTF-8.
pub fn utf8_front(bytes: &[u8]) -> &str
    ensures { result.now ≡ take (utf8_valid_len bytes.now) bytes.now }
{
    let end = match from_utf8(bytes) {
        Ok(text) => return text,
        Err(fault) => fault.valid_up_to(),
    };
    match from_utf8(&bytes[..end]) {
        Ok(text) => text,
        Err(_) => unreachable!(),
    }
}

/// A member that is bytes as far as they are UTF-8.
pub fn put_front(line: &mut Line, name: &str, bytes: &[u8]) -> Result<(), AllocError>
    ensures { OnOk result (line.new ≡ onto (front_data bytes.now) (key name.now ∷ line.old)) }
{
    line.text(name, utf8_front(bytes))
}

/// A member that is the name of a record.
pub fn put_name(line: &mut Line, member: &str, origin: Origin, name: Name) -> Result<(), AllocError>
    ensures { OnOk result (line.new ≡ onto (string (name_in origin name)) (key member.now ∷ line.old)) }
{
    let mut text = ArrayString::new();
    file_name(origin, name, &mut text);
    line.text(member, text.as_str())
}

fn put_time(line: &mut Line, time: Option<Time>) -> Result<(), AllocError>
    ensures { OnOk result (line.new ≡ onto (time_data time) (key (codes "time") ∷ line.old)) }
{
    let Some(time) = time else {
        return line.none("time");
    };
    line.key("time")?;
    line.begin_object()?;
    line.count("microseconds", time.micros as u64)?;
    line.count("seconds", time.secs)?;
    line.end_object()
}

/// The bytes that a whole text took.
fn put_taken(line: &mut Line, packing: &Packing<Bytes>) -> Result<(), AllocError>
    ensures { OnOk result (line.new ≡ onto (taken_data packing.now) (key (codes "taken") ∷ line.old)) }
{
    match packing {
        Packing::Whole { taken } => line.count("taken", *taken as u64),
        Packing::Plain | Packing::Part { .. } => line.none("taken"),
    }
}

/// Why a text goes no further.
fn put_fault(line: &mut Line, packing: &Packing<Bytes>) -> Result<(), AllocError>
    ensures { OnOk result (line.new ≡ onto (fault_data packing.now) (key (codes "fault") ∷ line.old)) }
{
    match packing {
        Packing::Part { fault, .. } => line.text("fault", fault.words()),
        Packing::Plain | Packing::Whole { .. } => line.none("fault"),
    }
}

fn is_packed(packing: &Packing<Bytes>) -> bool
    ensures { result ≡ is_packed packing.now }
{
    match packing {
        Packing::Plain => false,
        Packing::Whole { .. } | Packing::Part { .. } => true,
    }
}

/// An entry of Android's log. Its texts end before the first byte that is no UTF-8.
fn put_entry(line: &mut Line, entry: &Entry, payload: &[u8]) -> Result<(), AllocError>
    ensures { OnOk result (line.new ≡ onto (entry_by entry.now payload.now) line.old) }
{
    let message = split_payload(payload);
    line.begin_object()?;
    line.count("log", entry.log as u64)?;
    line.count("nanoseconds", entry.nanos as u64)?;
    line.count("pid", entry.pid as u64)?;
    put_front(line, "priority", &[message.priority])?;
    line.count("seconds", entry.secs as u64)?;
    put_front(line, "tag", message.tag)?;
    put_front(line, "text", message.text)?;
    line.count("tid", entry.tid as u64)?;
    line.count("uid", entry.uid as u64)?;
    line.end_object()
}

fn put_each_entry(line: &mut Line, bytes: &[u8], entries: &[Entry]) -> Result<(), AllocError>
    ensures { OnOk result (line.new ≡ all_onto (map (entry_data bytes.now) entries.now) line.old) }
{
    for entry in entries {
        put_entry(line, entry, payload(bytes, entry))?;
    }
    Ok(())
}

#[tactic(auto, using(crate::proofs::Onto::arrays))]
fn put_entry_list(line: &mut Line, bytes: &[u8], entries: &[Entry]) -> Result<(), AllocError>
    ensures { OnOk result (line.new ≡ onto (array (items_of (map (entry_data bytes.now) entries.now))) line.old) }
{
    line.begin_array()?;
    put_each_entry(line, bytes, entries)?;
    line.end_array()
}

fn put_entries(line: &mut Line, bytes: &[u8], entries: &[Entry]) -> Result<(), AllocError>
    ensures { OnOk result (line.new ≡ onto (entries_data bytes.now entries.now) (key (codes "entries") ∷ line.old)) }
{
    line.key("entries")?;
    if entries.is_empty() {
        return line.null();
    }
    put_entry_list(line, bytes, entries)
}

/// A record that is shown as this text, or by this base64.
fn put_with(
    line: &mut Line,
    origin: Origin,
    logs: &Logs,
    held: &RecordReport,
    text: Option<&str>,
    base64: Option<&str>,
) -> Result<(), AllocError>
    ensures { OnOk result (line.new ≡ onto (record_with origin (saved logs.now) held.now
        (text_data (option_map (λ t. t.now) text.entry)) (text_data (option_map (λ t. t.now) base64.entry))) line.old) }
{
    let counts = counts(logs, held.name);
    line.begin_object()?;
    line.count("bad", counts.bad)?;
    line.maybe_text("base64", base64)?;
    line.flag("compressed", is_packed(&held.packing))?;
    line.count("corrected", counts.corrected)?;
    put_entries(line, held.content.as_slice(), &held.entries)?;
    put_fault(line, &held.packing)?;
    put_name(line, "name", origin, held.name)?;
    put_taken(line, &held.packing)?;
    line.maybe_text("text", text)?;
    put_time(line, held.time)?;
    line.end_object()
}

/// A record whose content is text, or in base64.
fn put_content(
    alloc: Global,
    line: &mut Line,
    origin: Origin,
    logs: &Logs,
    held: &RecordReport,
) -> Result<(), AllocError>
    ensures { OnOk result (line.new ≡ onto (content_data origin (saved logs.now) held.now) line.old) }
{
    let bytes = held.content.as_slice();
    match from_utf8(bytes) {
        Ok(text) => put_with(line, origin, logs, held, Some(text), None),
        Err(_) => {
            let base64 = STANDARD.encode(alloc, bytes)?;
            put_with(line, origin, logs, held, None, Some(base64.as_str()))
        }
    }
}

/// A dump whose text breaks off, with that text as far as it is UTF-8, and its file in base64.
fn put_part(
    alloc: Global,
    line: &mut Line,
    origin: Origin,
    logs: &Logs,
    held: &RecordReport,
    text: &[u8],
) -> Result<(), AllocError>
    ensures { OnOk result (line.new ≡ onto (part_data_of origin (saved logs.now) held.now text.now) line.old) }
{
    let base64 = STANDARD.encode(alloc, held.content.as_slice())?;
    let front = utf8_front(text);
    put_with(line, origin, logs, held, Some(front), Some(base64.as_str()))
}

fn put_record(
    alloc: Global,
    line: &mut Line,
    origin: Origin,
    logs: &Logs,
    held: &RecordReport,
) -> Result<(), AllocError>
    ensures { OnOk result (line.new ≡ onto (record_data origin (saved logs.now) held.now) line.old) }
{
    match &held.packing {
        Packing::Part { text, .. } => put_part(alloc, line, origin, logs, held, text.as_slice()),
        Packing::Plain | Packing::Whole { .. } => put_content(alloc, line, origin, logs, held),
    }
}

fn put_each(
    alloc: Global,
    line: &mut Line,
    origin: Origin,
    logs: &Logs,
    records: &[RecordReport],
) -> Result<(), AllocError>
    ensures { OnOk result (line.new ≡ all_onto (map (record_data origin (saved logs.now)) records.now) line.old) }
{
    for held in records {
        put_record(alloc, line, origin, logs, held)?;
    }
    Ok(())
}

/// The records in their order.
#[tactic(auto, using(crate::proofs::Onto::arrays))]
pub fn put_records(
    alloc: Global,
    line: &mut Line,
    origin: Origin,
    logs: &Logs,
    records: &[RecordReport],
) -> Result<(), AllocError>
    ensures { OnOk result (line.new
        ≡ onto (array (items_of (map (record_data origin (saved logs.now)) records.now))) (key (codes "records") ∷ line.old)) }
{
    line.key("records")?;
    line.begin_array()?;
    put_each(alloc, line, origin, logs, records)?;
    line.end_array()
}
