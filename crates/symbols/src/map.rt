// The functions of a map.
ghost use Rattle.std.specs.Prelude.{◌≡◌, ◌+◌, ◌++◌, ◌*◌, ◌%◌, ◌<◌, ◌≤◌, ◌^◌, true, nat_lt, length, drop, slice_index};
ghost use Rattle.std.specs.Prelude.{All, IfOk, OnOk};
ghost use Rattle.std.specs.List.{list_any, prefix_len};
ghost use Rattle.symbol_spec.specs.Maps.{is_digit as is_digit_byte, digit_value as value_of, number_after as number_of};
ghost use Rattle.symbol_spec.specs.Maps.{digits as digits_of, is_type as is_type_byte, is_of_name as is_name_byte};
ghost use Rattle.symbol_spec.specs.Maps.{is_typed as is_typed_text, is_symbol as is_symbol_text, symbol_of, symbol_if};
ghost use Rattle.symbol_spec.specs.Maps.{symbols_from, symbols_of, name_at as name_of, bracketed, module_at as module_of};
ghost use Rattle.symbols.specs.Ranks.{IsInside};

use std::alloc::{AllocError, Global};
use symbol_spec::Symbol;

fn is_digit(b: u8) -> bool
    ensures { result ≡ is_digit_byte b }
{
    (48 <= b && b <= 57) || (65 <= b && b <= 70) || (97 <= b && b <= 102)
}

fn digit_value(b: u8) -> u8
    ensures { result ≡ value_of b }
{
    if b < 58 {
        b.saturating_sub(48)
    } else if b < 71 {
        b - 55
    } else {
        b.saturating_sub(87)
    }
}

/// How many digits stand at the front.
pub fn digits(text: &[u8]) -> usize
    ensures digits { result ≡ digits_of text.now }
    ensures within { result ≤ length text.now }
{
    let mut len = 0;
    'digits: while len < text.len() && is_digit(text[len]) {
        len += 1;
    }
    len
}

/// A number with one digit more, in 64 bits.
fn number_with(number: u64, digit: u8) -> u64
    ensures { result ≡ (16 * number + value_of digit) % 2 ^ 64 }
{
    let sixteen_times = (u128::from(number) << 4) + u128::from(digit_value(digit));
    (sixteen_times % (1 << 64)) as u64
}

/// The number that these digits spell, in 64 bits.
pub fn number(digits: &[u8]) -> u64
    ensures { result ≡ number_of 0 digits.now }
{
    let mut number: u64 = 0;
    let mut at = 0;
    'digits: while at < digits.len() {
        number = number_with(number, digits[at]);
        at += 1;
    }
    number
}

/// The byte at a place, or 0 past the end.
fn byte_at(text: &[u8], at: usize) -> u8
    ensures byte { result ≡ slice_index text.now at }
    ensures within { 0 < result → at < length text.now }
{
    if at < text.len() { text[at] } else { 0 }
}

/// What stands from a place on, or nothing past the end.
pub fn tail(text: &[u8], at: usize) -> &[u8]
    ensures { result.now ≡ drop at text.now }
{
    if at <= text.len() { &text[at..] } else { &[] }
}

fn is_type(b: u8) -> bool
    ensures { result ≡ is_type_byte b }
{
    b == b't' || b == b'T' || b == b'w' || b == b'W'
}

fn is_of_name(b: u8) -> bool
    ensures { result ≡ is_name_byte b }
{
    b > b' '
}

fn is_typed(text: &[u8]) -> bool
    ensures typed { result ≡ is_typed_text text.now }
    ensures long { result ≡ true → 3 < length text.now }
{
    byte_at(text, 0) == b' '
        && is_type(byte_at(text, 1))
        && byte_at(text, 2) == b' '
        && is_of_name(byte_at(text, 3))
}

/// Adds the function of the line that begins at a place, if one stands there.
fn add_symbol(all: &mut Vec<Symbol>, begins: bool, at: usize, text: &[u8]) -> Result<(), AllocError>
    requires { at + length text.now < 2 ^ 63 }
    ensures value { OnOk result (all.new.items ≡ all.old.items ++ symbol_if begins at text.now) }
    ensures inside { OnOk result (All IsInside all.old.items → All IsInside all.new.items) }
{
    if !begins {
        return Ok(());
    }
    let len = digits(text);
    if 0 < len && len <= 16 && is_typed(tail(text, len)) {
        all.push(Symbol {
            address: number(&text[..len]),
            name: at + len + 3,
        })?;
    }
    Ok(())
}

fn all_symbols(alloc: Global, text: &[u8]) -> Result<Vec<Symbol>, AllocError>
    ensures value { IfOk result (λ all. all.items ≡ symbols_from true 0 text.now) }
    ensures inside { IfOk result (λ all. All IsInside all.items) }
{
    let mut all = Vec::new(alloc);
    let mut begins = true;
    let mut at = 0;
    'bytes: while at < text.len() {
        add_symbol(&mut all, begins, at, tail(text, at))?;
        begins = text[at] == b'\n';
        at += 1;
    }
    Ok(all)
}

fn has_addresses(all: &[Symbol]) -> bool
    ensures { result ≡ list_any (λ s. nat_lt 0 s.address) all.now }
{
    all.iter().any(|symbol| symbol.address > 0)
}

/// The functions of a map, in its order; none if the map hides their addresses.
pub fn symbols(alloc: Global, text: &[u8]) -> Result<Vec<Symbol>, AllocError>
    ensures value { IfOk result (λ all. all.items ≡ symbols_of text.now) }
    ensures inside { IfOk result (λ all. All IsInside all.items) }
{
    let all = all_symbols(alloc, text)?;
    if has_addresses(&all) {
        Ok(all)
    } else {
        Ok(Vec::new(alloc))
    }
}

/// How many bytes at the front are of a name.
fn name_len(text: &[u8]) -> usize
    ensures len { result ≡ prefix_len is_name_byte text.now }
    ensures within { result ≤ length text.now }
{
    let mut len = 0;
    'bytes: while len < text.len() && is_of_name(text[len]) {
        len += 1;
    }
    len
}

/// The name that begins at a place of the map.
pub fn name_at(text: &[u8], at: usize) -> &[u8]
    ensures { result.now ≡ name_of text.now at }
{
    let rest = tail(text, at);
    &rest[..name_len(rest)]
}

fn bracketed(text: &[u8]) -> &[u8]
    ensures { result.now ≡ bracketed text.now }
{
    if byte_at(text, 0) == b'\t' && byte_at(text, 1) == b'[' {
        let rest = tail(text, 1);
        &rest[..name_len(rest)]
    } else {
        &[]
    }
}

/// The module of the function whose name begins at a place of the map, in brackets; nothing if it is of none.
pub fn module_at(text: &[u8], at: usize) -> &[u8]
    ensures { result.now ≡ module_of text.now at }
{
    let rest = tail(text, at);
    bracketed(tail(rest, name_len(rest)))
}
