//! What the tool's texts are made of: words with a number after them, the names of zones, and the parts of a record's
//! text, for both stores.

ghost use Rattle.std.specs.Prelude.{◌≡◌, ◌+◌, ◌<◌, ◌^◌, ◌++◌, ◌∷◌, [], codes, decimal, drop, length, IfOk, OnOk};
ghost use Rattle.grammar_spec.specs.Printed.{zone_text};

use itoa::Buffer;
use std::alloc::{AllocError, Global};
use zone_spec::{Kind, ZoneName};

/// Appends words and a number after them.
pub fn push_number(text: &mut Vec<u8>, words: &str, n: u64) -> Result<(), AllocError>
    ensures { OnOk result (text.new.items ≡ text.old.items ++ words.now ++ decimal n) }
{
    text.extend_from_slice(words.as_bytes())?;
    let mut buffer = Buffer::new();
    text.extend_from_slice(buffer.format(n).as_bytes())
}

/// Appends the name of a zone, as a script has it.
pub fn push_zone(text: &mut Vec<u8>, name: ZoneName) -> Result<(), AllocError>
    ensures { OnOk result (text.new.items ≡ text.old.items ++ zone_text name) }
{
    match name.kind {
        Kind::Dump => push_number(text, "dump-", u64::from(name.index)),
        Kind::Console => text.extend_from_slice("console".as_bytes()),
        Kind::Ftrace => push_number(text, "ftrace-", u64::from(name.index)),
        Kind::Pmsg => text.extend_from_slice("pmsg".as_bytes()),
    }
}

/// Appends the line of a record as far as its length: `NAME LENGTH`.
pub fn push_record(text: &mut Vec<u8>, name: &str, len: u128) -> Result<(), AllocError>
    ensures { OnOk result (text.new.items ≡ text.old.items ++ name.now ++ codes " " ++ decimal len) }
{
    text.extend_from_slice(name.as_bytes())?;
    text.push(b' ')?;
    let mut digits = Buffer::new();
    text.extend_from_slice(digits.format(len).as_bytes())
}

/// Appends the whole seconds of a record's time: ` SECS.`
pub fn push_seconds(text: &mut Vec<u8>, secs: u64) -> Result<(), AllocError>
    ensures { OnOk result (text.new.items ≡ text.old.items ++ codes " " ++ decimal secs ++ codes ".") }
{
    push_number(text, " ", secs)?;
    text.push(b'.')?;
    Ok(())
}

/// Appends the parts of a second, filled up with zeros: `unit` is how many parts make a second, a power of ten.
pub fn push_padded(text: &mut Vec<u8>, unit: u64, parts: u64) -> Result<(), AllocError>
    requires { unit + parts < 2 ^ 64 }
    ensures { OnOk result (text.new.items ≡ text.old.items ++ drop 1 (decimal (unit + parts))) }
{
    let mut digits = Buffer::new();
    text.extend_from_slice(digits.format(unit + parts)[1..].as_bytes())
}

/// The text of a record that is extracted: its name, the length of its content, and the content.
pub fn extracted(alloc: Global, name: &str, content: &[u8]) -> Result<Vec<u8>, AllocError>
    ensures { IfOk result (λ text. text.items
        ≡ (name.now ++ codes " " ++ decimal (length content.now)) ++ (10 ∷ []) ++ content.now ++ 10 ∷ []) }
{
    let mut text = Vec::new(alloc);
    push_record(&mut text, name, content.len() as u128)?;
    text.push(b'\n')?;
    text.extend_from_slice(content)?;
    text.push(b'\n')?;
    Ok(text)
}
