// The names of records, and their contents.
ghost use Rattle.std.specs.Prelude.{◌≡◌, ◌+◌, ◌≤◌, ◌++◌, ◌∷◌, [], List, codes, decimal, length, IfOk, OnOk, map, not};
ghost use Rattle.std.specs.Prelude.{◌==◌};
ghost use Rattle.blk_spec.specs.Names.{IsNameOf, is_name as is_same, dump_name as name_of_dump};
ghost use Rattle.blk_spec.specs.Names.{dump_content as content_of_dump};
ghost use Rattle.kmsg_spec.specs.Reasons.{reason_word};
ghost use Rattle.std.specs.List.{find, filter};
ghost use Rattle.std.specs.Option.{option_map, option_copied};
ghost use Rattle.blk_spec.specs.Reading.{BlkDump};
ghost use Rattle.blk_spec.specs.States.{name_if};
ghost use Rattle.zone_blk.specs.Decimals.{IsDecimal, IsNumbered, IsDumpOf};

use crate::reading::Dump;
use blk_spec::{BlkName, BlkTime};
use itoa::Buffer;
use outside::Bytes;
use std::alloc::{AllocError, Global};
use std::marker::Model;
use std::str;

/// The names of the listed records, in their order.
#[derive(Drop)]
pub struct BlkNames {
    names: Vec<BlkName>,
}

impl Model for BlkNames {
    ghost use Rattle.std.specs.Prelude.{List};
    ghost use Rattle.blk_spec.specs.declared.BlkName.{BlkName};

    ghost Value = { List BlkName };

    ghost view = { λ n. n.names.items };
}

impl BlkNames {
    pub fn from_vec(v: Vec<BlkName>) -> BlkNames
        ensures { result ≡ v.items }
    {
        BlkNames { names: v }
    }

    pub fn as_slice(&self) -> &[BlkName]
        ensures { result.now ≡ self.now }
    {
        &self.names
    }
}

/// Whether two names are the same.
pub fn is_name(name: BlkName, other: BlkName) -> bool
    ensures { result ≡ is_same name other }
{
    match (name, other) {
        (
            BlkName::Dump { index, packed },
            BlkName::Dump {
                index: other_index,
                packed: other_packed,
            },
        ) => index == other_index && packed == other_packed,
        (BlkName::Console, BlkName::Console) | (BlkName::Pmsg, BlkName::Pmsg) => true,
        _ => false,
    }
}

/// A dump's name.
pub fn dump_name(dump: &Dump) -> BlkName
    ensures { result ≡ name_of_dump dump.now }
{
    BlkName::Dump {
        index: dump.index,
        packed: dump.packed,
    }
}

fn reason_text(reason: u32) -> &'static str
    ensures text { result.now ≡ reason_word reason }
    ensures small { length result.now ≤ 9 }
{
    match reason {
        1 => "Panic",
        2 => "Oops",
        3 => "Emergency",
        4 => "Shutdown",
        _ => "Unknown",
    }
}

fn heading(alloc: Global, dump: &Dump) -> Result<Vec<u8>, AllocError>
    ensures { IfOk result (λ v. v.items ≡ reason_word dump.now.reason ++ codes ": Total " ++ decimal dump.now.counter
        ++ codes " times" ++ 10 ∷ []) }
{
    let mut digits = Buffer::new();
    let mut text = Vec::from_slice(alloc, reason_text(dump.reason).as_bytes())?;
    text.extend_from_slice(": Total ".as_bytes())?;
    text.extend_from_slice(digits.format(dump.counter).as_bytes())?;
    text.extend_from_slice(" times\n".as_bytes())?;
    Ok(text)
}

/// The content of a dump's record: its heading and its body, or the body alone where it is compressed.
pub fn dump_content(alloc: Global, dump: &Dump) -> Result<Bytes, AllocError>
    ensures { IfOk result (λ content. content ≡ content_of_dump dump.now) }
{
    if dump.packed {
        return Bytes::copy_of(alloc, dump.body.as_slice());
    }
    let mut text = heading(alloc, dump)?;
    text.extend_from_slice(dump.body.as_slice())?;
    Ok(Bytes::from_vec(text))
}

fn digits_in(n: u32) -> u64
    ensures len { result ≡ length (decimal n) }
    ensures small { result ≤ 20 }
{
    let mut digits = Buffer::new();
    digits.format(n).len() as u64
}

fn heading_len(dump: &Dump) -> u64
    ensures len { result ≡ length (reason_word dump.now.reason ++ codes ": Total " ++ decimal dump.now.counter
        ++ codes " times" ++ 10 ∷ []) }
    ensures small { result ≤ 64 }
{
    reason_text(dump.reason).len() as u64 + 15 + digits_in(dump.counter)
}

/// The length in bytes of a dump's content.
pub fn dump_len(dump: &Dump) -> u64
    ensures { result ≡ length (content_of_dump dump.now) }
{
    let body = dump.body.as_slice().len() as u64;
    if dump.packed {
        return body;
    }
    heading_len(dump) + body
}

/// The dump of this name.
pub fn find_dump(dumps: &[Dump], name: BlkName) -> Option<&Dump>
    ensures { option_copied result ≡ find (λ (d : BlkDump). is_same name (name_of_dump d)) dumps.now }
{
    for dump in dumps {
        if is_name(name, dump_name(dump)) {
            return Some(dump);
        }
    }
    None
}

/// The time of the dump of this number.
pub fn find_time(dumps: &[Dump], index: u32) -> Option<BlkTime>
    ensures { result ≡ option_map (λ (d : BlkDump). d.time) (find (λ (d : BlkDump). d.index == index) dumps.now) }
{
    for dump in dumps {
        if dump.index == index {
            return Some(dump.time);
        }
    }
    None
}

/// The names of dumps.
pub fn dump_names(alloc: Global, dumps: &[Dump]) -> Result<Vec<BlkName>, AllocError>
    ensures { IfOk result (λ v. v.items ≡ map name_of_dump dumps.now) }
{
    dumps.iter().map(dump_name).collect(alloc)
}

/// Adds the name of a record that is saved.
pub fn add_name(
    names: &mut Vec<BlkName>,
    name: BlkName,
    saved: &Option<Bytes>,
) -> Result<(), AllocError>
    ensures { OnOk result (names.new.items ≡ names.old.items ++ name_if name saved.now) }
{
    if saved.is_some() {
        names.push(name)?;
    }
    Ok(())
}

/// Leaves away the dump of this name.
pub fn forget_dump(dumps: &mut Vec<Dump>, name: BlkName)
    ensures { dumps.new.items ≡ filter (λ (d : BlkDump). not (is_same name (name_of_dump d))) dumps.old.items }
{
    dumps.retain(
        |dump: &Dump| -> bool
            ensures { result ≡ not (is_same name (name_of_dump dump.now)) }
        { !is_name(name, dump_name(dump)) },
    );
}

// The number below 2^32 whose decimal form this is.
fn whole_number(text: &str) -> Option<u32>
    ensures { IsDecimal text.now result }
{
    match text.parse::<u32>() {
        Ok(number) => {
            let mut digits = Buffer::new();
            if digits.format(number) == text {
                Some(number)
            } else {
                None
            }
        }
        Err(_) => None,
    }
}

// The dump whose number has these digits.
fn numbered(digits: &str, packed: bool) -> Option<BlkName>
    ensures { IsNumbered digits.now packed result }
{
    match whole_number(digits) {
        Some(index) => Some(BlkName::Dump { index, packed }),
        None => None,
    }
}

// The dump whose name goes on so.
fn dump_named(behind: &str) -> Option<BlkName>
    ensures { IsDumpOf behind.now result }
{
    match behind.strip_suffix(".enc.z") {
        Some(digits) => numbered(digits, true),
        None => numbered(behind, false),
    }
}

/// The name with this text, or `None` exactly where no name of a record has it. A dump's number is below 2^32 and has
/// no leading zeros.
pub fn blk_find(text: &str) -> Option<BlkName>
    ensures { IsNameOf text.now result }
{
    if text == "console-pstore_blk-0" {
        return Some(BlkName::Console);
    }
    if text == "pmsg-pstore_blk-0" {
        return Some(BlkName::Pmsg);
    }
    match text.strip_prefix("dmesg-pstore_blk-") {
        Some(behind) => dump_named(behind),
        None => None,
    }
}

/// The name whose text these bytes are, or `None` exactly where no name of a record has it.
pub fn named(text: &[u8]) -> Option<BlkName>
    ensures { IsNameOf text.now result }
{
    match str::from_utf8(text) {
        Ok(text) => blk_find(text),
        Err(_) => None,
    }
}
