// What stands before and behind a member's body.
ghost use Rattle.std.specs.Prelude.{◌≡◌, ◌≤◌, ◌<◌, ◌+◌, ◌/◌, ◌%◌, ◌^◌, ◌==◌, length, slice_index, drop, IfOk};
ghost use Rattle.std.specs.Prelude.{[], ◌∷◌, nat_eq, not};
ghost use Rattle.std.specs.List.{prefix_len, starts_with};
ghost use Rattle.gzip_spec.specs.Headers.{half_at, word_at, ending, extra_end, string_end, crc_end, fields_end, field};
ghost use Rattle.gzip_spec.specs.Headers.{header_end, member_end};

use crc32::crc32;
use gzip_spec::GzipFault;

/// What stands from a place on.
pub fn tail(bytes: &[u8], at: usize) -> &[u8]
    requires { at ≤ length bytes.now }
    ensures { result.now ≡ drop at bytes.now }
{
    &bytes[at..]
}

fn byte_at(bytes: &[u8], at: usize) -> u8
    ensures { result ≡ slice_index bytes.now at }
{
    if at < bytes.len() { bytes[at] } else { 0 }
}

fn half_at(bytes: &[u8], at: usize) -> u32
    requires { at < 2 ^ 63 }
    ensures half { result ≡ half_at bytes.now at }
    ensures small { result < 2 ^ 16 }
{
    u32::from(byte_at(bytes, at)) + 256 * u32::from(byte_at(bytes, at + 1))
}

fn word_at(bytes: &[u8], at: usize) -> u32
    requires { at + 2 < 2 ^ 63 }
    ensures { result ≡ word_at bytes.now at }
{
    half_at(bytes, at) + 65536 * half_at(bytes, at + 2)
}

fn ending(bytes: &[u8], at: usize) -> Result<usize, GzipFault>
    ensures end { result ≡ ending bytes.now at }
    ensures within { IfOk result (λ end. end ≤ length bytes.now) }
{
    if bytes.len() < at {
        Err(GzipFault::CutHeader)
    } else {
        Ok(at)
    }
}

fn extra_end(bytes: &[u8], at: usize) -> Result<usize, GzipFault>
    requires { at ≤ length bytes.now }
    ensures end { result ≡ extra_end bytes.now at }
    ensures within { IfOk result (λ end. end ≤ length bytes.now) }
{
    let start = ending(bytes, at + 2)?;
    ending(bytes, start + half_at(bytes, at) as usize)
}

fn name_len(bytes: &[u8]) -> usize
    ensures len { result ≡ prefix_len (λ byte. not (byte == 0)) bytes.now }
    ensures within { result ≤ length bytes.now }
{
    let mut len = 0;
    'bytes: while len < bytes.len() && bytes[len] != 0 {
        len += 1;
    }
    len
}

fn string_end(bytes: &[u8], at: usize) -> Result<usize, GzipFault>
    requires { at ≤ length bytes.now }
    ensures end { result ≡ string_end bytes.now at }
    ensures within { IfOk result (λ end. end ≤ length bytes.now) }
{
    ending(bytes, at + name_len(&bytes[at..]) + 1)
}

fn crc_end(bytes: &[u8], at: usize) -> Result<usize, GzipFault>
    requires { at ≤ length bytes.now }
    ensures end { result ≡ crc_end bytes.now at }
    ensures within { IfOk result (λ end. end ≤ length bytes.now) }
{
    let end = ending(bytes, at + 2)?;
    if half_at(bytes, at) == crc32(&bytes[..at]) % 65536 {
        Ok(end)
    } else {
        Err(GzipFault::HeaderCrc)
    }
}

fn has_flag(flags: u8, bit: u32) -> bool
    requires { bit < 8 }
    ensures { result ≡ (flags / 2 ^ bit % 2 == 1) }
{
    (flags >> bit) % 2 == 1
}

fn extra_field(bytes: &[u8], at: usize) -> Result<usize, GzipFault>
    requires { at ≤ length bytes.now }
    ensures end { result ≡ field bytes.now 2 extra_end at }
    ensures within { IfOk result (λ end. end ≤ length bytes.now) }
{
    if has_flag(byte_at(bytes, 3), 2) {
        extra_end(bytes, at)
    } else {
        Ok(at)
    }
}

fn string_field(bytes: &[u8], bit: u32, at: usize) -> Result<usize, GzipFault>
    requires bit { bit < 8 }
    requires within { at ≤ length bytes.now }
    ensures end { result ≡ field bytes.now bit string_end at }
    ensures within { IfOk result (λ end. end ≤ length bytes.now) }
{
    if has_flag(byte_at(bytes, 3), bit) {
        string_end(bytes, at)
    } else {
        Ok(at)
    }
}

fn crc_field(bytes: &[u8], at: usize) -> Result<usize, GzipFault>
    requires { at ≤ length bytes.now }
    ensures end { result ≡ field bytes.now 1 crc_end at }
    ensures within { IfOk result (λ end. end ≤ length bytes.now) }
{
    if has_flag(byte_at(bytes, 3), 1) {
        crc_end(bytes, at)
    } else {
        Ok(at)
    }
}

fn fields_end(bytes: &[u8]) -> Result<usize, GzipFault>
    requires { 10 ≤ length bytes.now }
    ensures end { result ≡ fields_end bytes.now }
    ensures within { IfOk result (λ end. end ≤ length bytes.now) }
{
    let extra = extra_field(bytes, 10)?;
    let name = string_field(bytes, 3, extra)?;
    let comment = string_field(bytes, 4, name)?;
    crc_field(bytes, comment)
}

fn begins_member(bytes: &[u8]) -> bool
    ensures { result ≡ starts_with nat_eq bytes.now (0x1f ∷ 0x8b ∷ []) }
{
    bytes.starts_with(&[0x1f, 0x8b])
}

/// Where the header ends of the member at the front of bytes.
#[tactic(auto, unfolding(gzip_spec::specs::Headers::header_end))]
pub fn header_end(other: GzipFault, bytes: &[u8]) -> Result<usize, GzipFault>
    ensures end { result ≡ header_end other bytes.now }
    ensures within { IfOk result (λ end. end ≤ length bytes.now) }
{
    if !begins_member(bytes) {
        Err(other)
    } else if bytes.len() < 10 {
        Err(GzipFault::CutHeader)
    } else if bytes[2] != 8 {
        Err(GzipFault::UnknownMethod)
    } else if bytes[3] > 31 {
        Err(GzipFault::ReservedFlag)
    } else {
        fields_end(bytes)
    }
}

/// Where a member ends, if its body has so many bytes behind the header.
#[tactic(auto, unfolding(gzip_spec::specs::Headers::member_end))]
pub fn member_end(
    bytes: &[u8],
    header: usize,
    taken: usize,
    text: &[u8],
) -> Result<usize, GzipFault>
    requires { header ≤ length bytes.now }
    ensures end { result ≡ member_end bytes.now (header + taken) text.now }
    ensures forward { IfOk result (λ end. 0 < end) }
    ensures within { IfOk result (λ end. end ≤ length bytes.now) }
{
    let rest = bytes.len() - header;
    if rest < taken || rest - taken < 8 {
        return Err(GzipFault::CutTrailer);
    }
    let at = header + taken;
    if word_at(bytes, at) != crc32(text) {
        Err(GzipFault::TextCrc)
    } else if u64::from(word_at(bytes, at + 4)) != text.len() as u64 % (1 << 32) {
        Err(GzipFault::TextLength)
    } else {
        Ok(at + 8)
    }
}
