// The words of headers. What is not there reads as 0.
ghost use Rattle.std.specs.Prelude.{◌≡◌, ◌<◌, slice_index, drop};
ghost use Rattle.psz_spec.specs.Headers.{word as word_at, wide as wide_at, words_of as words_at, header_len};
ghost use Rattle.psz_spec.specs.Headers.{dump_header as header_of, order_of as order_by, big_nanos as big_nanos_at};

use psz_spec::{DumpHeader, Machine, Words};
use zone_spec::ByteOrder;

fn byte(bytes: &[u8], at: usize) -> u8
    ensures { result ≡ slice_index bytes.now at }
{
    if at < bytes.len() { bytes[at] } else { 0 }
}

/// In which order a machine stores the bytes of a number.
pub fn order_of(machine: Machine) -> ByteOrder
    ensures { result ≡ order_by machine }
{
    match machine {
        Machine::Aligned | Machine::X86 => ByteOrder::Little,
        Machine::BigEndian => ByteOrder::Big,
    }
}

#[tactic(auto, unfolding(psz_spec::specs::Headers::word))]
pub(crate) fn word(order: ByteOrder, bytes: &[u8], at: u8) -> u32
    ensures { result ≡ word_at order bytes.now at }
{
    let at = usize::from(at);
    order.word(&[
        byte(bytes, at),
        byte(bytes, at + 1),
        byte(bytes, at + 2),
        byte(bytes, at + 3),
    ])
}

fn wide(order: ByteOrder, bytes: &[u8], at: u8) -> u64
    requires { at < 200 }
    ensures { result ≡ wide_at order bytes.now at }
{
    let first = u64::from(word(order, bytes, at));
    let second = u64::from(word(order, bytes, at + 4));
    match order {
        ByteOrder::Little => 4_294_967_296 * second + first,
        ByteOrder::Big => 4_294_967_296 * first + second,
    }
}

/// The words of a zone's header, which are its first 12 bytes.
pub fn words_of(machine: Machine, bytes: &[u8]) -> Words
    ensures { result ≡ words_at machine bytes.now }
{
    let order = order_of(machine);
    Words {
        sig: word(order, bytes, 0),
        len: word(order, bytes, 4),
        start: word(order, bytes, 8),
    }
}

/// What follows a zone's header.
pub fn data_of(bytes: &[u8]) -> &[u8]
    ensures { result.now ≡ drop 12 bytes.now }
{
    if bytes.len() < 12 { &[] } else { &bytes[12..] }
}

/// How many bytes the header of a dump has.
pub fn header_len(machine: Machine) -> u32
    ensures { result ≡ header_len machine }
{
    match machine {
        Machine::Aligned | Machine::BigEndian => 40,
        Machine::X86 => 28,
    }
}

fn big_nanos(kept: &[u8]) -> u32
    ensures { result ≡ big_nanos_at kept.now }
{
    match word(ByteOrder::Big, kept, 16) {
        0 => word(ByteOrder::Big, kept, 20),
        nanos => nanos,
    }
}

/// The header of a dump in the bytes behind its zone's header, as this machine lays it out.
#[tactic(auto, unfolding(psz_spec::specs::Headers::dump_header))]
pub fn dump_header(machine: Machine, kept: &[u8]) -> DumpHeader
    ensures { result ≡ header_of machine kept.now }
{
    match machine {
        Machine::Aligned => DumpHeader {
            magic: word(ByteOrder::Little, kept, 0),
            secs: wide(ByteOrder::Little, kept, 8),
            nanos: word(ByteOrder::Little, kept, 16),
            packed: byte(kept, 24) != 0,
            count: word(ByteOrder::Little, kept, 28),
            reason: word(ByteOrder::Little, kept, 32),
        },
        Machine::X86 => DumpHeader {
            magic: word(ByteOrder::Little, kept, 0),
            secs: wide(ByteOrder::Little, kept, 4),
            nanos: word(ByteOrder::Little, kept, 12),
            packed: byte(kept, 16) != 0,
            count: word(ByteOrder::Little, kept, 20),
            reason: word(ByteOrder::Little, kept, 24),
        },
        Machine::BigEndian => DumpHeader {
            magic: word(ByteOrder::Big, kept, 0),
            secs: wide(ByteOrder::Big, kept, 8),
            nanos: big_nanos(kept),
            packed: byte(kept, 24) != 0,
            count: word(ByteOrder::Big, kept, 28),
            reason: word(ByteOrder::Big, kept, 32),
        },
    }
}
