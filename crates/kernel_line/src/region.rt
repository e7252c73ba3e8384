// Where the words of a kernel's command line say that the region lies.
ghost use Rattle.std.specs.Prelude.{◌≡◌, ◌≤◌, length, codes};
ghost use Rattle.std.specs.Option.{option_copied, option_and_then};
ghost use Rattle.std.specs.List.{after_first, position, position_or_len};
ghost use Rattle.kernel_line.specs.Region.{value_behind, last_value, long_digits, long_number, address_in, unit_of};
ghost use Rattle.kernel_line.specs.Region.{bytes_of, size_in, is_colon, size_named, reserved_as, reserved_in};

use outside::Bytes;

// What stands in a word behind this front.
fn value_behind<'a>(word: &'a [u8], front: &[u8]) -> Option<&'a [u8]>
    ensures { option_copied result ≡ value_behind front.now word.now }
{
    if word.starts_with(front) {
        Some(&word[front.len()..])
    } else {
        None
    }
}

// The last value behind this front.
fn last_value<'a>(words: &'a [Bytes], front: &[u8]) -> Option<&'a [u8]>
    ensures { option_copied result ≡ last_value front.now words.now }
{
    let mut last = None;
    for word in words {
        last = value_behind(word.as_slice(), front).or(last);
    }
    last
}

fn parsed(digits: &str, base: u32) -> Option<u64>
    requires low { 2 ≤ base }
    requires high { base ≤ 16 }
    ensures { result ≡ long_digits base digits.now }
{
    if digits.starts_with('+') {
        return None;
    }
    u64::from_str_radix(digits, base).ok()
}

/// The number below 2^64 that digits write in a base from 2 to 16: at least one, and no other byte.
pub fn long_digits(digits: &[u8], base: u32) -> Option<u64>
    requires low { 2 ≤ base }
    requires high { base ≤ 16 }
    ensures { result ≡ long_digits base digits.now }
{
    match std::str::from_utf8(digits) {
        Ok(text) => parsed(text, base),
        Err(_) => None,
    }
}

// The number that a parameter's value writes, as the kernel reads it (`lib/kstrtox.c`), below 2^64.
#[tactic(auto, unfolding(crate::specs::Region::long_number))]
fn long_number(text: &[u8]) -> Option<u64>
    ensures { result ≡ long_number text.now }
{
    if text.starts_with(b"0x") || text.starts_with(b"0X") {
        return long_digits(&text[2..], 16);
    }
    if text.starts_with(b"0") && text.len() > 1 {
        return long_digits(&text[1..], 8);
    }
    long_digits(text, 10)
}

/// The address that the words give the region, the last if they give several.
pub fn address(words: &[Bytes]) -> Option<u64>
    ensures { result ≡ address_in words.now }
{
    long_number(last_value(words, b"ramoops.mem_address=")?)
}

fn unit_of(b: u8) -> u64
    ensures { result ≡ unit_of b }
{
    match b {
        b'K' | b'k' => 1 << 10,
        b'M' | b'm' => 1 << 20,
        b'G' | b'g' => 1 << 30,
        _ => 1,
    }
}

fn bytes_of(unit: u64, number: u64) -> Option<u64>
    ensures { result ≡ bytes_of unit number }
{
    number.checked_mul(unit)
}

// A size with or without its unit, as the kernel reads it (`lib/cmdline.c`, memparse).
#[tactic(auto, unfolding(crate::specs::Region::size_in))]
fn size(text: &[u8]) -> Option<u64>
    ensures { result ≡ size_in text.now }
{
    if text.is_empty() {
        return None;
    }
    let end = text.len() - 1;
    let unit = unit_of(text[end]);
    let digits = if unit == 1 { text } else { &text[..end] };
    bytes_of(unit, long_number(digits)?)
}

fn colon(text: &[u8]) -> Option<usize>
    ensures { result ≡ position is_colon text.now }
{
    text.iter().position(|b| *b == b':')
}

// The place of the first colon, or the length.
#[tactic(auto, using(crate::proofs::Places::place_or_len, crate::proofs::Places::place_within))]
fn colon_end(text: &[u8]) -> usize
    ensures place { result ≡ position_or_len is_colon text.now }
    ensures within { result ≤ length text.now }
{
    colon(text).unwrap_or(text.len())
}

fn behind_colon(text: &[u8]) -> &[u8]
    ensures { result.now ≡ after_first is_colon text.now }
{
    let end = colon_end(text);
    if end < text.len() {
        &text[end + 1..]
    } else {
        &[]
    }
}

// The size in `SIZE:ALIGN:NAME`, if it has this name.
#[tactic(auto, unfolding(crate::specs::Region::size_named))]
fn size_named(value: &[u8], name: &[u8]) -> Option<u64>
    ensures { result ≡ size_named name.now value.now }
{
    if name.is_empty() || behind_colon(behind_colon(value)) != name {
        return None;
    }
    size(&value[..colon_end(value)])
}

// The bytes that a word reserves under a name.
fn reserved_by(word: &[u8], name: &[u8]) -> Option<u64>
    ensures { result ≡ option_and_then (size_named name.now) (value_behind (codes "reserve_mem=") word.now) }
{
    size_named(value_behind(word, b"reserve_mem=")?, name)
}

fn reserved_as(words: &[Bytes], name: &[u8]) -> Option<u64>
    ensures { result ≡ reserved_as name.now words.now }
{
    for word in words {
        if let Some(size) = reserved_by(word.as_slice(), name) {
            return Some(size);
        }
    }
    None
}

/// The bytes that the words reserve under the name that they give ramoops. The kernel picks their place at each boot, so
/// no word tells it.
pub fn reserved_size(words: &[Bytes]) -> Option<u64>
    ensures { result ≡ reserved_in words.now }
{
    reserved_as(words, last_value(words, b"ramoops.mem_name=")?)
}
