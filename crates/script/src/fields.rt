// The fields of a line.
ghost use Rattle.std.specs.Prelude.{◌≡◌, ◌&&◌, nat_le, ◌<◌, ◌≤◌, ◌^◌, IfSome};
ghost use Rattle.std.specs.List.{list_all};
ghost use Rattle.grammar_spec.specs.Fields.{number_below, mask, zone_at, ring, zone, payload, is_message, message};
ghost use Rattle.grammar_spec.specs.Fields.{some_bytes, flag, reason, is_name, name};
ghost use Rattle.script.specs.Reading.{Gives, IsParsed};

use crate::digits;
use crate::rows::LineFault;
use itoa::Buffer;
use outside::Bytes;
use std::alloc::Global;
use std::str;
use zone_spec::{Kind, ZoneName};

fn parsed(text: &[u8]) -> Option<u64>
    ensures { IsParsed text.now result }
{
    match str::from_utf8(text) {
        Ok(digits) => digits.parse().ok(),
        Err(_) => None,
    }
}

/// The number below the limit whose decimal text this is.
pub fn number_below(text: &[u8], limit: u64) -> Option<u64>
    requires { limit ≤ 2 ^ 63 }
    ensures value { result ≡ number_below limit text.now }
    ensures below { IfSome result (λ n. n < limit) }
{
    let number = parsed(text)?;
    let mut buffer = Buffer::new();
    let has_no_leading_zero = buffer.format(number).as_bytes() == text;
    if number < limit && has_no_leading_zero {
        Some(number)
    } else {
        None
    }
}

pub fn number(text: &[u8]) -> Option<u32>
    ensures { result ≡ number_below (2 ^ 32) text.now }
{
    let number = number_below(text, 1 << 32)?;
    Some(number as u32)
}

/// A mask, 1 to 255.
pub fn mask(text: &[u8]) -> Option<u8>
    ensures { result ≡ mask text.now }
{
    let number = number_below(text, 256)?;
    if number == 0 {
        None
    } else {
        Some(number as u8)
    }
}

pub fn seconds(text: &[u8]) -> Option<u64>
    ensures { result ≡ number_below (2 ^ 63) text.now }
{
    number_below(text, 1 << 63)
}

pub fn microseconds(text: &[u8]) -> Option<u32>
    ensures { result ≡ number_below 1000000 text.now }
{
    let number = number_below(text, 1_000_000)?;
    Some(number as u32)
}

pub fn nanoseconds(text: &[u8]) -> Option<u32>
    ensures { result ≡ number_below 1000000000 text.now }
{
    let number = number_below(text, 1_000_000_000)?;
    Some(number as u32)
}

#[tactic(auto, unfolding(grammar_spec::specs::Fields::zone_at))]
fn zone_at(kind: Kind, text: &[u8]) -> Option<ZoneName>
    ensures { result ≡ zone_at kind text.now }
{
    let index = number(text)?;
    Some(ZoneName { kind, index })
}

/// `console`, `pmsg` or `ftrace-N`.
#[tactic(auto, unfolding(grammar_spec::specs::Fields::ring))]
pub fn ring(text: &[u8]) -> Option<ZoneName>
    ensures { result ≡ ring text.now }
{
    if text == b"console".as_slice() {
        return Some(ZoneName {
            kind: Kind::Console,
            index: 0,
        });
    }
    if text == b"pmsg".as_slice() {
        return Some(ZoneName {
            kind: Kind::Pmsg,
            index: 0,
        });
    }
    match text.strip_prefix(b"ftrace-".as_slice()) {
        Some(digits) => zone_at(Kind::Ftrace, digits),
        None => None,
    }
}

/// `console`, `pmsg`, `ftrace-N` or `dump-N`.
#[tactic(auto, unfolding(grammar_spec::specs::Fields::zone))]
pub fn zone(text: &[u8]) -> Option<ZoneName>
    ensures { result ≡ zone text.now }
{
    match text.strip_prefix(b"dump-".as_slice()) {
        Some(digits) => zone_at(Kind::Dump, digits),
        None => ring(text),
    }
}

/// Bytes in hexadecimal digits, or `-` for none.
#[tactic(auto, unfolding(grammar_spec::specs::Fields::payload))]
pub fn payload(alloc: Global, text: &[u8]) -> Result<Bytes, LineFault>
    ensures { Gives (λ bytes. bytes) result (payload text.now) }
{
    if text == b"-".as_slice() {
        return Ok(Bytes::empty(alloc));
    }
    if text.is_empty() {
        return Err(LineFault::Bad);
    }
    digits::decoded(alloc, text)
}

fn is_message(bytes: &[u8]) -> bool
    ensures { result ≡ is_message bytes.now }
{
    bytes.iter().all(|b| *b != b'\n')
}

/// Bytes of which none is a newline.
#[tactic(auto, unfolding(grammar_spec::specs::Fields::message))]
pub fn message(alloc: Global, text: &[u8]) -> Result<Bytes, LineFault>
    ensures { Gives (λ bytes. bytes) result (message text.now) }
{
    let bytes = payload(alloc, text)?;
    if is_message(bytes.as_slice()) {
        Ok(bytes)
    } else {
        Err(LineFault::Bad)
    }
}

/// At least one byte.
#[tactic(auto, unfolding(grammar_spec::specs::Fields::some_bytes))]
pub fn some_bytes(alloc: Global, text: &[u8]) -> Result<Bytes, LineFault>
    ensures { Gives (λ bytes. bytes) result (some_bytes text.now) }
{
    let bytes = payload(alloc, text)?;
    if bytes.as_slice().is_empty() {
        Err(LineFault::Bad)
    } else {
        Ok(bytes)
    }
}

/// `D` or `C`, true for `C`.
#[tactic(auto, unfolding(grammar_spec::specs::Fields::flag))]
pub fn flag(text: &[u8]) -> Option<bool>
    ensures { result ≡ flag text.now }
{
    if text == b"D".as_slice() {
        Some(false)
    } else if text == b"C".as_slice() {
        Some(true)
    } else {
        None
    }
}

/// The number of a reason.
#[tactic(auto, unfolding(grammar_spec::specs::Fields::reason))]
pub fn reason(text: &[u8]) -> Option<u32>
    ensures { result ≡ reason text.now }
{
    if text == b"Panic".as_slice() {
        Some(1)
    } else if text == b"Oops".as_slice() {
        Some(2)
    } else if text == b"Emergency".as_slice() {
        Some(3)
    } else if text == b"Shutdown".as_slice() {
        Some(4)
    } else {
        None
    }
}

fn is_graphic(text: &[u8]) -> bool
    ensures { result ≡ list_all (λ c. nat_le 0x21 c && nat_le c 0x7e) text.now }
{
    text.iter().all(|c| c.is_ascii_graphic())
}

fn is_name(text: &[u8]) -> bool
    ensures { result ≡ is_name text.now }
{
    !text.is_empty() && is_graphic(text)
}

/// A record's name: one or more bytes from `!` to `~`.
#[tactic(auto, unfolding(grammar_spec::specs::Fields::name))]
pub fn name(alloc: Global, text: &[u8]) -> Result<Bytes, LineFault>
    ensures { Gives (λ bytes. bytes) result (name text.now) }
{
    if !is_name(text) {
        return Err(LineFault::Bad);
    }
    Ok(Bytes::copy_of(alloc, text)?)
}
