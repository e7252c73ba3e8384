// Where headers seem to stand.
ghost use Rattle.std.specs.Prelude.{◌≡◌, ◌+◌, ◌<◌, ◌≤◌, ◌^◌, length, slice_index};
ghost use Rattle.layout_spec.specs.Marks.{is_mark as is_mark_at, is_tagged_mark as is_tagged_mark_at};
ghost use Rattle.layout_spec.specs.Marks.{is_mark_in as is_mark_by, is_tagged_mark_in as is_tagged_mark_by};
ghost use Rattle.layout_spec.specs.Marks.{word_byte as word_byte_at, byte_order_in as byte_order_of};
ghost use Rattle.layout_spec.specs.Marks.{seems_to_begin as seems, marks as marks_of, has_zero as has_zero_at};
ghost use Rattle.layout_spec.specs.Marks.{signature_bytes as signature_at};

use zone_spec::{ByteOrder, Kind};

fn byte(image: &[u8], at: usize) -> u8
    ensures { result ≡ slice_index image.now at }
{
    if at < image.len() { image[at] } else { 0 }
}

// The byte of weight 256^i of the word that stands here.
fn word_byte(order: ByteOrder, image: &[u8], at: usize, i: usize) -> u8
    requires at { at ≤ 2 ^ 63 + 8 }
    requires byte { i ≤ 3 }
    ensures { result ≡ word_byte_at order image.now at i }
{
    match order {
        ByteOrder::Little => byte(image, at + i),
        ByteOrder::Big => byte(image, at + (3 - i)),
    }
}

fn has_zero(order: ByteOrder, image: &[u8], at: usize) -> bool
    requires { at < 2 ^ 63 }
    ensures { result ≡ has_zero_at order image.now at }
{
    word_byte(order, image, at + 4, 3) == 0 || word_byte(order, image, at + 8, 3) == 0
}

fn signature_bytes(order: ByteOrder, image: &[u8], at: usize) -> u8
    requires { at < 2 ^ 63 }
    ensures { result ≡ signature_at order image.now at }
{
    u8::from(word_byte(order, image, at, 0) == b'D')
        + u8::from(word_byte(order, image, at, 1) == b'B')
        + u8::from(word_byte(order, image, at, 2) == b'G')
        + u8::from(word_byte(order, image, at, 3) == b'C')
}

#[tactic(auto, unfolding(layout_spec::specs::Marks::is_mark_in))]
fn is_mark_in(order: ByteOrder, image: &[u8], at: usize) -> bool
    requires { at < 2 ^ 63 }
    ensures { result ≡ is_mark_by order image.now at }
{
    signature_bytes(order, image, at) >= 2 && has_zero(order, image, at)
}

/// Whether a header seems to stand here, of either order of bytes.
#[tactic(auto, unfolding(layout_spec::specs::Marks::is_mark))]
pub fn is_mark(image: &[u8], at: usize) -> bool
    requires { at < 2 ^ 63 }
    ensures { result ≡ is_mark_at image.now at }
{
    is_mark_in(ByteOrder::Little, image, at) || is_mark_in(ByteOrder::Big, image, at)
}

#[tactic(auto, unfolding(layout_spec::specs::Marks::is_tagged_mark_in))]
fn is_tagged_mark_in(order: ByteOrder, image: &[u8], at: usize) -> bool
    requires { at < 2 ^ 63 }
    ensures { result ≡ is_tagged_mark_by order image.now at }
{
    word_byte(order, image, at, 3) == b'C'
        && word_byte(order, image, at, 2) / 2 != 35
        && has_zero(order, image, at)
}

/// The same of an ftrace zone, whose signature has a tag.
#[tactic(auto, unfolding(layout_spec::specs::Marks::is_tagged_mark))]
pub fn is_tagged_mark(image: &[u8], at: usize) -> bool
    requires { at < 2 ^ 63 }
    ensures { result ≡ is_tagged_mark_at image.now at }
{
    is_tagged_mark_in(ByteOrder::Little, image, at) || is_tagged_mark_in(ByteOrder::Big, image, at)
}

/// Whether a zone of this kind seems to begin here.
pub fn seems_to_begin(kind: Kind, image: &[u8], at: usize) -> bool
    requires { at < 2 ^ 63 }
    ensures { result ≡ seems kind image.now at }
{
    match kind {
        Kind::Ftrace => is_tagged_mark(image, at),
        Kind::Dump | Kind::Console | Kind::Pmsg => is_mark(image, at),
    }
}

/// How many marks the image has.
pub fn count_marks(image: &[u8]) -> u64
    ensures value { result ≡ marks_of image.now }
    ensures few { result < 2 ^ 62 }
{
    let mut count = 0;
    for i in 0..image.len().saturating_sub(10) / 2 {
        count += u64::from(is_mark(image, 2 * i));
    }
    count
}

/// The order of bytes of the image's first mark, and little-endian where it has none.
pub fn first_order(image: &[u8]) -> ByteOrder
    ensures { result ≡ byte_order_of image.now }
{
    for i in 0..image.len().saturating_sub(10) / 2 {
        if is_mark_in(ByteOrder::Little, image, 2 * i) {
            return ByteOrder::Little;
        }
        if is_mark_in(ByteOrder::Big, image, 2 * i) {
            return ByteOrder::Big;
        }
    }
    ByteOrder::Little
}
