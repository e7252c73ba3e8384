// Stores as C sees them.
ghost use Rattle.std.specs.Prelude.{◌≡◌, ◌+◌, ◌^◌, ◌≤◌, ◌<◌, ◌↔◌, ◌⊎◌, ◌++◌, [], List, ℕ, IsTrue, length, take, drop};
ghost use Rattle.zone_spec.specs.Stores.{byte_stores, word_store};
ghost use Rattle.store_steps.specs.Handed.{handed, handed_count, IsInside};
ghost use Rattle.store_steps.specs.PlainAppends.{size_store};
ghost use Rattle.store_steps.specs.Whole.{whole_handed, IsWholeInside};
ghost use Rattle.store_steps.specs.declared.store.Given.TheVariants.{Nothing};
ghost use Rattle.zone_boot.specs.Handed.{handed as boot_handed, handed_len, IsPlain};
ghost use Rattle.zone_boot.specs.declared.handing.Given.TheVariants.{Nothing as BootNothing};

use store_steps::{Given, Store, Whole};
use zone_boot::BootStore;
use zone_spec::ByteOrder;

/// A word, or bytes that are stored one by one, rising, from `place` on. `what` is 0 for a word: the first four of
/// `bytes`, which are those of `word`, the lowest first, at once; 1 for `len` bytes of the line and 2 for `len` bytes of
/// the payload, those from `from` on; and 3 for the first `len` of `bytes`. A place is counted from the zone's begin.
#[repr(C)]
#[derive(Clone, Copy)]
pub struct StoreRow {
    pub from: u64,
    pub what: u32,
    pub place: u32,
    pub len: u32,
    pub word: u32,
    pub bytes: [u8; 128],
}

/// Stores that the caller is to make: those of the first `count` rows, in turn. `is_last` is 1 if the call has no
/// stores after them, and else 0.
#[repr(C)]
#[derive(Clone, Copy)]
pub struct Stores {
    pub stores: [StoreRow; 4],
    pub count: u32,
    pub is_last: u32,
}

impl StoreRow {
    ghost use Rattle.oopsbox_c.specs.Stores.{row_stores, IsRowInside};

    /// The same stores.
    fn set(&mut self, store: &Store)
        requires { store.now.given ≡ Nothing → ⊥ }
        ensures stores { (line payload : List ℕ) → row_stores self.new line payload ≡ handed store.now line payload }
        ensures inside { (size : ℕ) (line payload : List ℕ) → IsInside size store.now line payload
            → 0 < store.now.len → IsRowInside size self.new line payload }
    {
        self.from = store.from;
        self.place = store.place;
        self.len = store.len;
        self.word = store.byte_order.turned(store.word);
        match store.given {
            Given::Word => {
                self.what = 0;
                let word = self.word.to_le_bytes();
                self.bytes[..4].copy_from_slice(&word);
            }
            Given::Line => self.what = 1,
            Given::Payload => self.what = 2,
            Given::Parity => {
                self.what = 3;
                let all = store.parity.as_slice();
                let from = (store.from as usize).min(all.len());
                let end = (from + store.len as usize).min(all.len());
                let count = end - from;
                self.from = 0;
                self.len = count as u32;
                self.bytes[..count].copy_from_slice(&all[from..end]);
            }
            Given::Nothing => {}
        }
    }

    /// A word at once.
    fn set_word(&mut self, order: ByteOrder, place: u32, word: u32)
        ensures stores { (line payload : List ℕ) → row_stores self.new line payload ≡ word_store order place word }
        ensures inside { (size : ℕ) (line payload : List ℕ) → place + 4 ≤ size
            → IsRowInside size self.new line payload }
    {
        self.from = 0;
        self.what = 0;
        self.place = place;
        self.len = 4;
        self.word = order.turned(word);
        let bytes = self.word.to_le_bytes();
        self.bytes[..4].copy_from_slice(&bytes);
    }

    /// `len` bytes of the payload, those from `from` on.
    fn set_payload(&mut self, place: u32, from: u64, len: u32)
        ensures stores { (line payload : List ℕ) → row_stores self.new line payload
            ≡ byte_stores place (take len (drop from payload)) }
        ensures inside { (size : ℕ) (line payload : List ℕ) → 0 < len → place + len ≤ size
            → from + len ≤ length payload → IsRowInside size self.new line payload }
    {
        self.from = from;
        self.what = 2;
        self.place = place;
        self.len = len;
        self.word = 0;
    }

    /// The same stores, of a boot.
    fn set_boot(&mut self, store: &BootStore)
        requires { store.now.given ≡ BootNothing → ⊥ }
        ensures stores { (line payload : List ℕ) → row_stores self.new line payload ≡ boot_handed store.now }
        ensures what { (self.new.what ≡ 0) ⊎ (self.new.what ≡ 3) }
        ensures inside { (size : ℕ) (line payload : List ℕ) → 0 < handed_len store.now
            → store.now.place + handed_len store.now ≤ size → IsRowInside size self.new line payload }
    {
        self.from = 0;
        self.place = store.place;
        self.word = store.byte_order.turned(store.word);
        match store.given {
            zone_boot::Given::Word => {
                self.what = 0;
                self.len = 4;
                let word = self.word.to_le_bytes();
                self.bytes[..4].copy_from_slice(&word);
            }
            zone_boot::Given::Bytes => {
                let bytes = store.bytes.as_slice();
                self.what = 3;
                self.len = bytes.len() as u32;
                self.bytes[..bytes.len()].copy_from_slice(bytes);
            }
            zone_boot::Given::Nothing => {}
        }
    }
}

impl Stores {
    ghost use Rattle.oopsbox_c.specs.Stores.{stores_in, AreInside, AreOfBoot};

    /// No stores.
    pub(crate) fn clear(&mut self)
        ensures count { self.new.count ≡ 0 }
        ensures stores { (line payload : List ℕ) → stores_in self.new line payload ≡ [] }
        ensures inside { (size : ℕ) (line payload : List ℕ) → AreInside size self.new line payload }
        ensures is_last { self.new.is_last ≡ 0 }
    {
        self.count = 0;
        self.is_last = 0;
    }

    pub(crate) fn is_full(&self) -> bool
        ensures { IsTrue result ↔ (4 ≤ self.now.count) }
    {
        self.count >= 4
    }

    /// These stores, and then those.
    pub(crate) fn push(&mut self, store: &Store)
        requires room { self.old.count < 4 }
        requires some { store.now.given ≡ Nothing → ⊥ }
        ensures count { self.new.count ≡ self.old.count + 1 }
        ensures stores { (line payload : List ℕ) → stores_in self.new line payload
            ≡ stores_in self.old line payload ++ handed store.now line payload }
        ensures inside { (size : ℕ) (line payload : List ℕ) → AreInside size self.old line payload
            → IsInside size store.now line payload → 0 < handed_count store.now line payload
            → AreInside size self.new line payload }
    {
        self.stores[self.count as usize].set(store);
        self.count += 1;
    }

    /// These stores, and then a word.
    pub(crate) fn push_word(&mut self, order: ByteOrder, place: u32, word: u32)
        requires room { self.old.count < 4 }
        ensures count { self.new.count ≡ self.old.count + 1 }
        ensures stores { (line payload : List ℕ) → stores_in self.new line payload
            ≡ stores_in self.old line payload ++ word_store order place word }
        ensures inside { (size : ℕ) (line payload : List ℕ) → AreInside size self.old line payload → place + 4 ≤ size
            → AreInside size self.new line payload }
    {
        self.stores[self.count as usize].set_word(order, place, word);
        self.count += 1;
    }

    /// These stores, and then those of `len` bytes of the payload, from `from` on.
    pub(crate) fn push_payload(&mut self, place: u32, from: u64, len: u32)
        requires room { self.old.count < 4 }
        ensures count { self.new.count ≡ self.old.count + 1 }
        ensures stores { (line payload : List ℕ) → stores_in self.new line payload
            ≡ stores_in self.old line payload ++ byte_stores place (take len (drop from payload)) }
        ensures inside { (size : ℕ) (line payload : List ℕ) → AreInside size self.old line payload → 0 < len
            → place + len ≤ size → from + len ≤ length payload → AreInside size self.new line payload }
    {
        self.stores[self.count as usize].set_payload(place, from, len);
        self.count += 1;
    }

    // A size word alone, if there is one.
    fn set_size(&mut self, order: ByteOrder, word: Option<u32>)
        ensures count { self.new.count ≤ 1 }
        ensures stores { (line payload : List ℕ) → stores_in self.new line payload ≡ size_store order word }
        ensures inside { (size : ℕ) (line payload : List ℕ) → 12 ≤ size → AreInside size self.new line payload }
    {
        self.clear();
        match word {
            Some(word) => self.push_word(order, 8, word),
            None => {}
        }
    }

    // These stores, and then the bytes of an append, in one run or two.
    fn push_runs(&mut self, whole: &Whole)
        requires room { self.old.count ≤ 2 }
        requires end { whole.now.from + whole.now.first < 2 ^ 64 }
        ensures stores { (line payload : List ℕ) → stores_in self.new line payload ≡ stores_in self.old line payload
            ++ (byte_stores whole.now.place (take whole.now.first (drop whole.now.from payload))
            ++ byte_stores 12 (take whole.now.second (drop (whole.now.from + whole.now.first) payload))) }
        ensures inside { (size : ℕ) (line payload : List ℕ) → AreInside size self.old line payload
            → IsWholeInside size whole.now payload → AreInside size self.new line payload }
    {
        self.push_payload(whole.place, whole.from, whole.first);
        if whole.second > 0 {
            let from = whole.from + u64::from(whole.first);
            self.push_payload(12, from, whole.second);
        }
    }

    /// All stores of an append without parity.
    pub(crate) fn set_whole(&mut self, whole: &Whole)
        requires { whole.now.from + whole.now.first < 2 ^ 64 }
        ensures stores { (line payload : List ℕ) → stores_in self.new line payload ≡ whole_handed whole.now payload }
        ensures inside { (size : ℕ) (line payload : List ℕ) → IsWholeInside size whole.now payload
            → AreInside size self.new line payload }
    {
        self.set_size(whole.byte_order, whole.size);
        self.push_word(whole.byte_order, 4, whole.start);
        self.push_runs(whole);
    }

    /// The stores of a boot alone; where it has none they are the last.
    pub(crate) fn set_boot(&mut self, store: &BootStore)
        ensures stores { (line payload : List ℕ) → stores_in self.new line payload ≡ boot_handed store.now }
        ensures inside { (size : ℕ) (line payload : List ℕ) → IsPlain store.now
            → store.now.place + handed_len store.now ≤ size → AreInside size self.new line payload }
        ensures what { AreOfBoot self.new }
        ensures last { (self.new.is_last ≡ 1) ↔ (store.now.given ≡ BootNothing) }
        ensures none { self.new.is_last ≡ 1 → self.new.count ≡ 0 }
        ensures flag { self.new.is_last ≤ 1 }
    {
        self.clear();
        match store.given {
            zone_boot::Given::Nothing => self.is_last = 1,
            _ => {
                self.stores[0].set_boot(store);
                self.count = 1;
            }
        }
    }
}
