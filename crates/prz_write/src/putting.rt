// Handed-out stores, made in a span.
ghost use Rattle.std.specs.Prelude.{◌≡◌, ◌<◌, ◌^◌, ◌+◌, ◌≤◌, List, ℕ, length, take, drop};
ghost use Rattle.prz_region.specs.CutRegion.{span, stored};
ghost use Rattle.store_steps.specs.Handed.{handed, IsInside};
ghost use Rattle.store_steps.specs.PlainAppends.{size_store};
ghost use Rattle.store_steps.specs.Whole.{whole_handed, IsWholeInside};

use prz_region::Spans;
use store_steps::{Given, Store, Whole};

/// The `len` bytes from `from` on.
fn part_of(bytes: &[u8], from: u64, len: u32) -> &[u8]
    requires { from + len ≤ length bytes.now }
    ensures { result.now ≡ take len (drop from bytes.now) }
{
    &bytes[from as usize..from as usize + len as usize]
}

/// Makes the stores in span `i`: a word at once, the bytes of a run one by one, rising.
pub(crate) fn make(store: &Store, line: &[u8], payload: &[u8], spans: &mut Spans, i: u32)
    requires has { i < length spans.old.spans }
    requires inside { IsInside (length (span spans.old i)) store.now line.now payload.now }
    ensures { spans.new ≡ stored spans.old i (handed store.now line.now payload.now) }
{
    match store.given {
        Given::Word => spans.store_word(i, store.place, store.byte_order, store.word),
        Given::Line => spans.store_bytes(i, store.place, part_of(line, store.from, store.len)),
        Given::Payload => spans.store_bytes(
            i,
            store.place,
            part_of(payload, store.from, store.len),
        ),
        Given::Parity => {
            let parity = store.parity.as_slice();
            spans.store_bytes(i, store.place, part_of(parity, store.from, store.len));
        }
        Given::Nothing => {}
    }
}

// The size word, if there is one.
fn make_size(whole: &Whole, spans: &mut Spans, i: u32)
    requires has { i < length spans.old.spans }
    requires room { 12 ≤ length (span spans.old i) }
    ensures { spans.new ≡ stored spans.old i (size_store whole.now.byte_order whole.now.size) }
{
    match whole.size {
        Some(size) => spans.store_word(i, 8, whole.byte_order, size),
        None => {}
    }
}

/// Makes all stores of a whole append in span `i`: each word at once, then the bytes one by one, rising in each run.
pub(crate) fn make_whole(whole: &Whole, payload: &[u8], spans: &mut Spans, i: u32)
    requires has { i < length spans.old.spans }
    requires inside { IsWholeInside (length (span spans.old i)) whole.now payload.now }
    ensures { spans.new ≡ stored spans.old i (whole_handed whole.now payload.now) }
{
    make_size(whole, spans, i);
    spans.store_word(i, 4, whole.byte_order, whole.start);
    let front = part_of(payload, whole.from, whole.first);
    spans.store_bytes(i, whole.place, front);
    let back = part_of(payload, whole.from + u64::from(whole.first), whole.second);
    spans.store_bytes(i, 12, back);
}
