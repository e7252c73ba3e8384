// The list of records, and the text of one.
ghost use Rattle.std.specs.Prelude.{◌≡◌, ◌+◌, ◌++◌, codes, flat_map, length, Option, IfOk, OnOk};
ghost use Rattle.blk_spec.specs.Names.{name_text as name_text_of};
ghost use Rattle.script_spec.specs.BlkScripts.{blk_time_text, blk_listing, blk_extract_text};
ghost use Rattle.script_spec.specs.BlkScripts.{record_time as record_time_of, content_in as content_of_name};
ghost use Rattle.blk_session.specs.Texts.{entry_text};

use arrayvec::ArrayString;
use itoa::Buffer;
use outside::Bytes;
use script::pieces::{extracted, push_number, push_padded, push_record, push_seconds};
use std::alloc::{AllocError, Global};
use zone_blk::{Blk, BlkFault, BlkName, BlkTime};

/// Writes the text of a name, such as `dmesg-pstore_blk-3.enc.z`, in at most 33 bytes. Takes no memory.
fn name_text(name: BlkName, out: &mut ArrayString<33>)
    ensures { out.new.bytes ≡ name_text_of name }
{
    out.clear();
    match name {
        BlkName::Dump { index, packed } => {
            let mut digits = Buffer::new();
            out.push_str("dmesg-pstore_blk-");
            out.push_str(digits.format(index));
            out.push_str(if packed { ".enc.z" } else { "" });
        }
        BlkName::Console => out.push_str("console-pstore_blk-0"),
        BlkName::Pmsg => out.push_str("pmsg-pstore_blk-0"),
    }
}

// The content of a record, or no bytes where it is not listed.
fn content_in(alloc: Global, blk: &Blk, name: BlkName) -> Result<Bytes, AllocError>
    ensures { IfOk result (λ bytes. bytes ≡ content_of_name blk.now name) }
{
    match blk.content(name) {
        Ok(bytes) => Ok(bytes),
        Err(BlkFault::Memory) => Err(AllocError),
        Err(_) => Ok(Bytes::empty(alloc)),
    }
}

fn record_time(blk: &Blk, name: BlkName) -> Option<BlkTime>
    ensures { result ≡ record_time_of blk.now name }
{
    match name {
        BlkName::Dump { index, .. } => blk.time(index),
        BlkName::Console | BlkName::Pmsg => None,
    }
}

fn push_time(text: &mut Vec<u8>, time: Option<BlkTime>) -> Result<(), AllocError>
    ensures { OnOk result (text.new.items ≡ text.old.items ++ blk_time_text time) }
{
    match time {
        Some(time) => {
            push_seconds(text, time.secs)?;
            push_padded(text, 1_000_000_000, u64::from(time.nanos))
        }
        None => Ok(()),
    }
}

// The length of a record's content, or 0 where it is not listed.
fn content_len(blk: &Blk, name: BlkName) -> u64
    ensures { result ≡ length (content_of_name blk.now name) }
{
    match blk.content_len(name) {
        Some(len) => len,
        None => 0,
    }
}

fn push_entry(text: &mut Vec<u8>, blk: &Blk, name: BlkName) -> Result<(), AllocError>
    ensures { OnOk result (text.new.items ≡ text.old.items ++ entry_text blk.now name) }
{
    let mut written = ArrayString::new();
    name_text(name, &mut written);
    push_record(text, written.as_str(), u128::from(content_len(blk, name)))?;
    push_time(text, record_time(blk, name))?;
    text.push(b'\n')?;
    Ok(())
}

fn push_entries(text: &mut Vec<u8>, blk: &Blk, names: &[BlkName]) -> Result<(), AllocError>
    ensures { OnOk result (text.new.items ≡ text.old.items ++ flat_map (entry_text blk.now) names.now) }
{
    for name in names {
        push_entry(text, blk, *name)?;
    }
    Ok(())
}

/// The list of records: how many they are, and a line for each.
pub fn listing(alloc: Global, blk: &Blk) -> Result<Vec<u8>, AllocError>
    ensures { IfOk result (λ text. text.items ≡ blk_listing blk.now) }
{
    let names = blk.names()?;
    let mut text = Vec::new(alloc);
    push_number(&mut text, "records ", names.as_slice().len() as u64)?;
    text.push(b'\n')?;
    push_entries(&mut text, blk, names.as_slice())?;
    Ok(text)
}

/// A record's name, the length of its content, and the content.
pub fn extract_text(alloc: Global, blk: &Blk, name: BlkName) -> Result<Vec<u8>, AllocError>
    ensures { IfOk result (λ text. text.items ≡ blk_extract_text blk.now name) }
{
    let content = content_in(alloc, blk, name)?;
    let mut written = ArrayString::new();
    name_text(name, &mut written);
    extracted(alloc, written.as_str(), content.as_slice())
}
