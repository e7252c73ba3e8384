// The lengths of what a call appends, and the number of its stores.
ghost use Rattle.std.specs.Prelude.{◌≡◌, ◌+◌, ◌-◌, ◌*◌, ◌/◌, ◌%◌, ◌<◌, ◌≤◌, ◌^◌, ◌++◌, ◌∷◌, [], min, max};
ghost use Rattle.std.specs.Prelude.{if◌then◌else◌, ◌==◌, List, ℕ, length, sum_by, filter};
ghost use Rattle.std.specs.List.{list_any, range_with_len};
ghost use Rattle.zone_spec.specs.Zones.{IsValidZone};
ghost use Rattle.zone_spec.specs.Stages.{stage_count};
ghost use Rattle.zone_spec.specs.Calls.{append_stages, call_stages};
ghost use Rattle.zone_spec.specs.Pairs.{pairs_from, pair_of};
ghost use Rattle.zone_spec.specs.Touched.{runs_of, touched_by};
ghost use Rattle.zone_spec.specs.Reading.{IsRing};
ghost use Rattle.store_steps.specs.Calls.{call_of, line_of, front_of, last_of, IsOpenFor};
ghost use Rattle.store_steps.specs.Counts.{runs_between};
ghost use Rattle.store_steps.specs.PairSteps.{AppendsPairs, pair_after};

use arrayvec::ArrayVec;
use zone_spec::{CallKind, Pair, Words, Zone};

/// How many bytes at the begin of an append's payload are not stored.
pub(crate) fn skipped(kind: CallKind, payload: &[u8], cap: u32) -> u64
    ensures append { kind ≡ CallKind.Append → result ≡ length payload.now - cap }
    ensures most { result ≤ length payload.now }
    ensures fits { length payload.now < 2 ^ 64 }
{
    let len = payload.len();
    match kind {
        CallKind::Append => len.saturating_sub(cap as usize) as u64,
        CallKind::Erase => 0,
        CallKind::Dump => 0,
    }
}

/// The number of bytes that an append stores; 0 where the call is another.
pub(crate) fn last_len(kind: CallKind, line: &[u8], payload: &[u8], cap: u32) -> u32
    ensures value { result ≡ length (last_of cap (call_of kind line.now payload.now)) }
    ensures short { result ≤ cap }
{
    match kind {
        CallKind::Append => payload.len().min(cap as usize) as u32,
        CallKind::Erase => 0,
        CallKind::Dump => 0,
    }
}

/// The length of a dump's line; 0 where the call is another.
pub(crate) fn line_len(kind: CallKind, line: &[u8], payload: &[u8]) -> u32
    requires { length line.now ≤ 36 }
    ensures value { result ≡ length (line_of (call_of kind line.now payload.now)) }
    ensures short { result ≤ 36 }
{
    let _ = payload;
    match kind {
        CallKind::Append => 0,
        CallKind::Erase => 0,
        CallKind::Dump => line.len() as u32,
    }
}

/// The number of bytes of a dump's body that fit after its line; 0 where the call is another.
pub(crate) fn front_len(kind: CallKind, line: &[u8], payload: &[u8], cap: u32) -> u32
    requires room { 36 ≤ cap }
    requires line { length line.now ≤ 36 }
    ensures value { result ≡ length (front_of cap (call_of kind line.now payload.now)) }
    ensures short { result ≤ cap }
{
    match kind {
        CallKind::Append => 0,
        CallKind::Erase => 0,
        CallKind::Dump => payload.len().min(cap as usize - line.len()) as u32,
    }
}

/// How many whole blocks `len` bytes have. A block has 32, 64 or 128 bytes: each arm is a shift, faster than a
/// division.
pub(crate) fn whole_blocks(zone: &Zone, len: u32) -> u32
    requires { IsValidZone zone.now }
    ensures { result ≡ len / zone.now.block }
{
    match zone.block {
        32 => len / 32,
        64 => len / 64,
        _ => len / 128,
    }
}

/// How many blocks `len` bytes from `place` on meet.
fn blocks_met(zone: &Zone, place: u32, len: u32) -> u32
    requires valid { IsValidZone zone.now }
    requires fits { place + len ≤ zone.now.cap }
    requires some { (len ≡ 0) → (place ≡ 0) }
    ensures value { result ≡ ((place + len + zone.now.block) - 1) / zone.now.block - place / zone.now.block }
    ensures most { result ≤ zone.now.blocks }
{
    whole_blocks(zone, place + len + zone.block - 1) - whole_blocks(zone, place)
}

/// The words that an append stores: in a full ring start alone.
fn word_stores(size: u32, cap: u32) -> u64
    ensures value { result ≡ (if size == cap then 1 else 2) }
    ensures most { result ≤ 2 }
{
    if size == cap { 1 } else { 2 }
}

/// The stores of an append of `len` bytes to a ring of this start and size.
pub(crate) fn append_stores(zone: &Zone, start: u32, size: u32, len: u32) -> u64
    requires valid { IsValidZone zone.now }
    requires below { start < zone.now.cap }
    requires fits { len ≤ zone.now.cap }
    ensures value { (bytes : List ℕ) → length bytes ≡ len
        → sum_by (stage_count zone.now) (append_stages zone.now start size bytes) ≡ result }
    ensures small { result < 2 ^ 28 }
{
    if len == 0 {
        return 0;
    }
    let first = len.min(zone.cap - start);
    let blocks = blocks_met(zone, start, first) + blocks_met(zone, 0, len - first);
    word_stores(size, zone.cap) + len as u64 + (blocks as u64 + 1) * zone.parity as u64
}

/// The stores of a call on a zone with these words.
pub(crate) fn call_total(
    zone: &Zone,
    words: &Words,
    kind: CallKind,
    line: &[u8],
    payload: &[u8],
) -> u64
    requires valid { IsValidZone zone.now }
    requires is_open { IsOpenFor (call_of kind line.now payload.now) words.now zone.now.cap }
    requires line { length line.now ≤ 36 }
    ensures value { result ≡ sum_by (stage_count zone.now)
        (call_stages zone.now words.now (call_of kind line.now payload.now)) }
    ensures small { result < 2 ^ 32 }
{
    match kind {
        CallKind::Append => append_stores(
            zone,
            words.start,
            words.size,
            last_len(kind, line, payload, zone.cap),
        ),
        CallKind::Erase => 2 + zone.parity as u64,
        CallKind::Dump => {
            let head = line_len(kind, line, payload);
            let front = front_len(kind, line, payload, zone.cap);
            2 + zone.parity as u64
                + append_stores(zone, 0, 0, head)
                + append_stores(zone, head, head, front)
        }
    }
}

/// Adds the pairs before the stores of an append of `len` bytes to the ring of this pair, and answers the last one.
fn append_pairs(pairs: &mut ArrayVec<Pair, 8>, pair: Pair, cap: u32, len: u32) -> Pair
    requires room { length pairs.old.items ≤ 5 }
    requires start { pair.start < cap }
    requires fits { len ≤ cap }
    requires size { pair.size ≤ cap }
    requires word { cap < 2 ^ 31 }
    ensures pairs { AppendsPairs pairs.old.items pairs.new.items pair result cap len }
    ensures last { result ≡ pair_after pair cap len }
    ensures room { length pairs.new.items ≤ length pairs.old.items + 2 }
{
    if len == 0 {
        return pair;
    }
    let start = (pair.start + len) % cap;
    if pair.size == cap {
        pairs.push(pair);
        return Pair { start, size: cap };
    }
    let size = cap.min(pair.size + len);
    pairs.push(pair);
    pairs.push(Pair {
        start: pair.start,
        size,
    });
    Pair { start, size }
}

/// Adds the pairs before the stores of an erasure, and answers the last one.
fn erase_pairs(pairs: &mut ArrayVec<Pair, 8>, pair: Pair) -> Pair
    requires room { length pairs.old.items ≤ 5 }
    ensures pairs { pairs.new.items ≡ pairs.old.items ++ pair ∷ record { start = 0; size = pair.size } ∷ [] }
    ensures last { result ≡ record { start = 0; size = 0 } }
{
    pairs.push(pair);
    pairs.push(Pair {
        start: 0,
        size: pair.size,
    });
    Pair { start: 0, size: 0 }
}

/// Adds the pairs before the stores of a call, and answers the last one.
fn add_pairs(
    pairs: &mut ArrayVec<Pair, 8>,
    zone: &Zone,
    words: &Words,
    kind: CallKind,
    line: &[u8],
    payload: &[u8],
) -> Pair
    requires empty { pairs.old.items ≡ [] }
    requires line { length line.now ≤ 36 }
    requires valid { IsValidZone zone.now }
    requires ring { IsRing words.now zone.now.cap }
    requires is_open { IsOpenFor (call_of kind line.now payload.now) words.now zone.now.cap }
    ensures pairs { pairs.new.items ++ result ∷ [] ≡ pairs_from (pair_of words.now)
        (call_stages zone.now words.now (call_of kind line.now payload.now)) }
    ensures room { length pairs.new.items ≤ 6 }
{
    let before = Pair {
        start: words.start,
        size: words.size,
    };
    match kind {
        CallKind::Append => append_pairs(
            pairs,
            before,
            zone.cap,
            last_len(kind, line, payload, zone.cap),
        ),
        CallKind::Erase => erase_pairs(pairs, before),
        CallKind::Dump => {
            let head = line_len(kind, line, payload);
            let front = front_len(kind, line, payload, zone.cap);
            let erased = erase_pairs(pairs, before);
            let lined = append_pairs(pairs, erased, zone.cap, head);
            append_pairs(pairs, lined, zone.cap, front)
        }
    }
}

/// The words before a call, and after each store of a start or size word.
pub fn call_pairs(
    zone: &Zone,
    words: &Words,
    kind: CallKind,
    line: &[u8],
    payload: &[u8],
) -> ArrayVec<Pair, 8>
    requires line { length line.now ≤ 36 }
    requires valid { IsValidZone zone.now }
    requires ring { IsRing words.now zone.now.cap }
    requires is_open { IsOpenFor (call_of kind line.now payload.now) words.now zone.now.cap }
    ensures { result.items ≡ pairs_from (pair_of words.now) (call_stages zone.now words.now (call_of kind line.now payload.now)) }
{
    let mut pairs = ArrayVec::new();
    let last = add_pairs(&mut pairs, zone, words, kind, line, payload);
    pairs.push(last);
    pairs
}

/// The runs of the blocks from `first` up to `end` and of those below `below`, as the first and last of each.
fn runs_between(first: u32, end: u32, below: u32) -> ArrayVec<(u32, u32), 2>
    requires { first ≤ end }
    ensures { result.items ≡ runs_between first end below }
{
    let mut runs = ArrayVec::new();
    if first == end {
        if below > 0 {
            runs.push((0, below - 1));
        }
    } else if below == 0 {
        runs.push((first, end - 1));
    } else if below < first {
        runs.push((0, below - 1));
        runs.push((first, end - 1));
    } else {
        runs.push((0, end.max(below) - 1));
    }
    runs
}

/// The first block that begins at or past a place.
fn block_behind(zone: &Zone, place: u32) -> u32
    requires valid { IsValidZone zone.now }
    requires fits { place ≤ zone.now.cap }
    ensures { result ≡ ((place + zone.now.block) - 1) / zone.now.block }
{
    (place + zone.block - 1) / zone.block
}

/// The touched blocks of a call, as the first and last of each run.
pub fn call_runs(
    zone: &Zone,
    words: &Words,
    kind: CallKind,
    line: &[u8],
    payload: &[u8],
) -> ArrayVec<(u32, u32), 2>
    requires line { length line.now ≤ 36 }
    requires valid { IsValidZone zone.now }
    requires is_open { IsOpenFor (call_of kind line.now payload.now) words.now zone.now.cap }
    ensures { result.items ≡ runs_of (filter (λ b. list_any (λ c. c == b)
        (touched_by zone.now (call_stages zone.now words.now (call_of kind line.now payload.now))))
        (range_with_len 0 zone.now.blocks)) }
{
    match kind {
        CallKind::Append => {
            let len = last_len(kind, line, payload, zone.cap);
            if len == 0 {
                return ArrayVec::new();
            }
            let first = len.min(zone.cap - words.start);
            runs_between(
                words.start / zone.block,
                block_behind(zone, words.start + first),
                block_behind(zone, len - first),
            )
        }
        CallKind::Erase => ArrayVec::new(),
        CallKind::Dump => {
            let len = line_len(kind, line, payload) + front_len(kind, line, payload, zone.cap);
            runs_between(0, block_behind(zone, len), 0)
        }
    }
}
