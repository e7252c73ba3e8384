// The list of records, and a record's content.
ghost use Rattle.std.specs.Prelude.{◌≡◌, ◌++◌, codes, decimal, ◌+◌, ◌<◌, length, flat_map, IfOk, OnOk, Option};
ghost use Rattle.zone_spec.specs.Names.{name_text as name_text_of};
ghost use Rattle.zone_spec.specs.TimeLines.{six_digits};
ghost use Rattle.zone_spec.specs.Records.{record_of};
ghost use Rattle.prz_read.specs.Saving.{saved};
ghost use Rattle.script_spec.specs.Texts.{time_text, listing, extract_text};
ghost use Rattle.ram_session.specs.Entries.{entry_text, IsText};

use arrayvec::ArrayString;
use prz_read::Logs;
use pstore_records::{ContentFault, Entry, Name, Time, content, listed, name_text};
use script::pieces::{extracted, push_number, push_padded, push_record, push_seconds};
use std::alloc::{AllocError, Global};

// Six digits, or more where the number needs them.
fn push_micros(text: &mut Vec<u8>, micros: u32) -> Result<(), AllocError>
    ensures { OnOk result (text.new.items ≡ text.old.items ++ six_digits micros) }
{
    if micros < 1_000_000 {
        push_padded(text, 1_000_000, u64::from(micros))
    } else {
        push_number(text, "", u64::from(micros))
    }
}

fn push_time(text: &mut Vec<u8>, time: Option<Time>) -> Result<(), AllocError>
    ensures { OnOk result (text.new.items ≡ text.old.items ++ time_text time) }
{
    match time {
        Some(time) => {
            push_seconds(text, time.secs)?;
            push_micros(text, time.micros)
        }
        None => Ok(()),
    }
}

/// Appends a record's name, and a length after it.
pub fn push_named(text: &mut Vec<u8>, name: Name, len: u128) -> Result<(), AllocError>
    ensures { OnOk result (text.new.items ≡ text.old.items ++ name_text_of name ++ codes " " ++ decimal len) }
{
    let mut written = ArrayString::new();
    name_text(name, &mut written);
    push_record(text, written.as_str(), len)
}

fn push_entry(text: &mut Vec<u8>, entry: &Entry) -> Result<(), AllocError>
    ensures { OnOk result (text.new.items ≡ text.old.items ++ entry_text entry.now) }
{
    push_named(text, entry.name, entry.len)?;
    push_time(text, entry.time)?;
    text.push(b'\n')?;
    Ok(())
}

fn push_entries(text: &mut Vec<u8>, entries: &[Entry]) -> Result<(), AllocError>
    ensures { OnOk result (text.new.items ≡ text.old.items ++ flat_map entry_text entries.now) }
{
    for entry in entries {
        push_entry(text, entry)?;
    }
    Ok(())
}

/// The list of records: how many they are, and a line for each.
pub fn listing(alloc: Global, logs: &Logs) -> Result<Vec<u8>, AllocError>
    ensures { IfOk result (λ text. text.items ≡ listing (saved logs.now)) }
{
    let entries = listed(alloc, logs)?;
    let mut text = Vec::new(alloc);
    push_number(&mut text, "records ", entries.len() as u64)?;
    text.push(b'\n')?;
    push_entries(&mut text, &entries)?;
    Ok(text)
}

/// The text of the record of this name: its name, the length of its content with its notice, and that content.
pub fn extract_text(alloc: Global, logs: &Logs, name: Name) -> Result<Vec<u8>, ContentFault>
    ensures { IsText (extract_text (saved logs.now)) (record_of (saved logs.now) name) result }
{
    let bytes = content(alloc, logs, name)?;
    let mut written = ArrayString::new();
    name_text(name, &mut written);
    match extracted(alloc, written.as_str(), bytes.as_slice()) {
        Ok(text) => Ok(text),
        Err(AllocError) => Err(ContentFault::Memory),
    }
}
