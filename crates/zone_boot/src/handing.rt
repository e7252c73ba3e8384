// The stores that are handed out next.
ghost use Rattle.std.specs.Prelude.{◌≡◌, ◌≢◌, ◌+◌, ◌-◌, ◌≤◌, ◌<◌, ◌↔◌, ◌^◌, ◌++◌, ℕ, [], length, drop, slice_index};
ghost use Rattle.std.specs.Prelude.{slice_range, IsTrue};
ghost use Rattle.zone_spec.specs.Stores.{byte_stores, word_store};
ghost use Rattle.zone_spec.specs.Boot.{fix_stores};

use arrayvec::ArrayVec;
use zone_spec::ByteOrder;

/// What is handed out: a word that is stored at once, bytes that are stored one by one, rising, or nothing more.
#[derive(Clone, Copy, Debug, PartialEq, Eq)]
pub enum Given {
    Word,
    Bytes,
    Nothing,
}

/// The next stores of a boot in a zone. `place` is counted from the zone's first byte; `word` is stored in `byte_order`.
#[derive(Drop)]
pub struct BootStore {
    pub given: Given,
    pub place: u32,
    pub byte_order: ByteOrder,
    pub word: u32,
    pub bytes: ArrayVec<u8, 128>,
}

/// The place of the first byte from `from` on that differs, or the end.
fn first_difference(stands: &[u8], reads: &[u8], from: usize) -> usize
    requires same { length reads.now ≡ length stands.now }
    requires from { from ≤ length stands.now }
    ensures low { from ≤ result }
    ensures high { result ≤ length stands.now }
    ensures stores { (at : ℕ) → fix_stores (at + from) (drop from stands.now) (drop from reads.now)
        ≡ fix_stores (at + result) (drop result stands.now) (drop result reads.now) }
    ensures differs { result < length stands.now → slice_index stands.now result ≢ slice_index reads.now result }
{
    for i in from..stands.len() {
        if stands[i] != reads[i] {
            return i;
        }
    }
    stands.len()
}

/// The place of the first byte from `from` on that does not differ, or the end.
fn first_agreement(stands: &[u8], reads: &[u8], from: usize) -> usize
    requires same { length reads.now ≡ length stands.now }
    requires from { from ≤ length stands.now }
    ensures low { from ≤ result }
    ensures high { result ≤ length stands.now }
    ensures stores { (at : ℕ) → fix_stores (at + from) (drop from stands.now) (drop from reads.now)
        ≡ byte_stores (at + from) (slice_range reads.now from result)
        ++ fix_stores (at + result) (drop result stands.now) (drop result reads.now) }
    ensures some { from < length stands.now → slice_index stands.now from ≢ slice_index reads.now from
        → from < result }
{
    for i in from..stands.len() {
        if stands[i] == reads[i] {
            return i;
        }
    }
    stands.len()
}

fn copy(bytes: &[u8], out: &mut ArrayVec<u8, 128>)
    requires { length bytes.now ≤ 128 }
    ensures { out.new.items ≡ bytes.now }
{
    out.clear();
    let _room = out.try_extend_from_slice(bytes);
}

impl BootStore {
    ghost use Rattle.zone_boot.specs.Handed.{handed, handed_len, IsPlain, IsRun};

    /// Nothing.
    pub fn new() -> BootStore
        ensures { handed result ≡ [] }
    {
        BootStore {
            given: Given::Nothing,
            place: 0,
            byte_order: ByteOrder::Little,
            word: 0,
            bytes: ArrayVec::new(),
        }
    }

    /// Whether there is no store.
    pub fn is_empty(&self) -> bool
        ensures { IsTrue result ↔ (handed self.now ≡ []) }
    {
        match self.given {
            Given::Word => false,
            Given::Bytes => self.bytes.is_empty(),
            Given::Nothing => true,
        }
    }

    /// How many stores they are.
    pub fn count(&self) -> u64
        ensures { result ≡ length (handed self.now) }
    {
        match self.given {
            Given::Word => 1,
            Given::Bytes => self.bytes.len() as u64,
            Given::Nothing => 0,
        }
    }

    pub(crate) fn set_nothing(&mut self)
        ensures handed { handed self.new ≡ [] }
        ensures len { self.new.place + handed_len self.new ≡ 0 }
        ensures plain { IsPlain self.new }
    {
        self.given = Given::Nothing;
        self.place = 0;
        self.bytes.clear();
    }

    pub(crate) fn set_word(&mut self, order: ByteOrder, place: u32, word: u32)
        ensures handed { handed self.new ≡ word_store order place word }
        ensures len { self.new.place + handed_len self.new ≡ place + 4 }
        ensures plain { IsPlain self.new }
    {
        self.given = Given::Word;
        self.place = place;
        self.byte_order = order;
        self.word = word;
        self.bytes.clear();
    }

    pub(crate) fn set_bytes(&mut self, place: u32, bytes: &[u8])
        requires few { length bytes.now ≤ 128 }
        ensures handed { handed self.new ≡ byte_stores place bytes.now }
        ensures len { self.new.place + handed_len self.new ≤ place + length bytes.now }
        ensures plain { IsPlain self.new }
    {
        copy(bytes, &mut self.bytes);
        if bytes.is_empty() {
            self.given = Given::Nothing;
            self.place = 0;
            return;
        }
        self.given = Given::Bytes;
        self.place = place;
    }

    /// Hands out the first run of neighbouring bytes, from `from` on, that differ: those that stand at `at` and are to
    /// become `reads`. Answers where the run ends; where none differs, that is the end.
    pub(crate) fn set_run(&mut self, at: u32, stands: &[u8], reads: &[u8], from: u32) -> u32
        requires same { length reads.now ≡ length stands.now }
        requires few { length stands.now ≤ 128 }
        requires from { from ≤ length stands.now }
        requires place { at + length stands.now < 2 ^ 32 }
        ensures low { from ≤ result }
        ensures high { result ≤ length stands.now }
        ensures stores { fix_stores (at + from) (drop from stands.now) (drop from reads.now)
            ≡ handed self.new ++ fix_stores (at + result) (drop result stands.now) (drop result reads.now) }
        ensures few { length (handed self.new) + from ≤ result }
        ensures some { handed self.new ≡ [] → result ≡ length stands.now }
        ensures inside { self.new.place + handed_len self.new ≤ at + length stands.now }
        ensures plain { IsPlain self.new }
        ensures run { IsRun (at + from) (at + result) (handed self.new) }
    {
        let first = first_difference(stands, reads, from as usize);
        let end = first_agreement(stands, reads, first);
        self.set_bytes(at + first as u32, &reads[first..end]);
        end as u32
    }
}
