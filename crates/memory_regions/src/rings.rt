// What the headers in a memory tell of a region's size.
ghost use Rattle.std.specs.Prelude.{◌≡◌, ◌+◌, ◌<◌, ◌≤◌, ◌^◌, ◌++◌, length};
ghost use Rattle.std.specs.List.{list_any};
ghost use Rattle.memory_spec.specs.Rings.{word_at, header_end, ring_end, ends_in, ends_at, ends};
ghost use Rattle.memory_spec.specs.Sizes.{ends_in_half};

use layout_search::{PLAIN_SIGNATURE, is_mark};
use zone_spec::ByteOrder;

fn word_at(order: ByteOrder, bytes: &[u8], at: usize) -> u32
    requires { at + 4 ≤ length bytes.now }
    ensures { result ≡ word_at order bytes.now at }
{
    order.word(&bytes[at..at + 4])
}

fn ends_in_half(size: u64, end: u64) -> bool
    ensures { result ≡ ends_in_half size end }
{
    size / 2 < end && end <= size
}

// Whether a header whose signature is whole ends in the second half.
fn has_header_end(order: ByteOrder, bytes: &[u8], at: usize, size: u64) -> bool
    requires inside { at + 12 ≤ length bytes.now }
    requires small { at < 2 ^ 63 }
    ensures { result ≡ list_any (ends_in_half size) (header_end order bytes.now at) }
{
    word_at(order, bytes, at) == PLAIN_SIGNATURE && ends_in_half(size, at as u64 + 12)
}

// Whether its ring does, if its start is not above its size.
fn has_ring_end(order: ByteOrder, bytes: &[u8], at: usize, size: u64) -> bool
    requires inside { at + 12 ≤ length bytes.now }
    requires small { at < 2 ^ 63 }
    ensures { result ≡ list_any (ends_in_half size) (ring_end order bytes.now at) }
{
    let ring = word_at(order, bytes, at + 8);
    word_at(order, bytes, at + 4) <= ring && ends_in_half(size, at as u64 + 12 + u64::from(ring))
}

fn has_end_in(order: ByteOrder, bytes: &[u8], at: usize, size: u64) -> bool
    requires inside { at + 12 ≤ length bytes.now }
    requires small { at < 2 ^ 63 }
    ensures { result ≡ list_any (ends_in_half size) (ends_in order bytes.now at) }
{
    has_header_end(order, bytes, at, size) || has_ring_end(order, bytes, at, size)
}

// By the words in either order of bytes.
fn has_either_end(bytes: &[u8], at: usize, size: u64) -> bool
    requires inside { at + 12 ≤ length bytes.now }
    requires small { at < 2 ^ 63 }
    ensures { result
        ≡ list_any (ends_in_half size) (ends_in ByteOrder.Little bytes.now at ++ ends_in ByteOrder.Big bytes.now at) }
{
    has_end_in(ByteOrder::Little, bytes, at, size) || has_end_in(ByteOrder::Big, bytes, at, size)
}

// If a header seems to stand here.
fn has_end_at(bytes: &[u8], at: usize, size: u64) -> bool
    requires inside { at + 12 ≤ length bytes.now }
    requires small { at < 2 ^ 63 }
    ensures { result ≡ list_any (ends_in_half size) (ends_at bytes.now at) }
{
    is_mark(bytes, at) && has_either_end(bytes, at, size)
}

/// Whether a header or its ring ends in the second half of so many bytes, as its words tell it. All headers count that
/// seem to stand at an even place. One that begins after so many bytes ends after them, so it is not looked at.
#[tactic(auto, unfolding(memory_spec::specs::Rings::ends))]
pub fn has_end_in_half(bytes: &[u8], size: u64) -> bool
    ensures { result ≡ list_any (ends_in_half size) (ends bytes.now) }
{
    let places = (bytes.len().saturating_sub(10) / 2).min((size / 2) as usize);
    for i in 0..places {
        if has_end_at(bytes, 2 * i, size) {
            return true;
        }
    }
    false
}
