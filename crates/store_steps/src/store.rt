// Stores as they are handed out.
ghost use Rattle.std.specs.Prelude.{◌≡◌, ◌+◌, ◌≤◌, ◌∷◌, []};
ghost use Rattle.store_steps.specs.Handed.{handed, IsInside};
ghost use Rattle.zone_spec.specs.Stores.{word_store, byte_stores};
ghost use Rattle.std.specs.Prelude.{take, drop};

use arrayvec::ArrayVec;
use zone_spec::ByteOrder;

/// Whose bytes are to be stored.
#[derive(Clone, Copy, Debug, PartialEq, Eq)]
pub enum Given {
    /// The four bytes of `word` in `byte_order`, at once.
    Word,
    /// `len` bytes of the line, from `from` on.
    Line,
    /// `len` bytes of the payload, from `from` on.
    Payload,
    /// `len` bytes of `parity`, from `from` on.
    Parity,
    /// None: the call is finished.
    Nothing,
}

/// Stores that the caller is to make: a word at `place`, or `len` bytes one by one, rising, from `place` on. A place
/// is counted from the zone's begin.
#[derive(Drop)]
pub struct Store {
    pub given: Given,
    pub place: u32,
    pub from: u64,
    pub len: u32,
    pub byte_order: ByteOrder,
    pub word: u32,
    pub parity: ArrayVec<u8, 127>,
}

impl Store {
    ghost use Rattle.std.specs.Prelude.{ℕ, List};
    ghost use Rattle.store_steps.specs.Handed.{handed, IsInside};

    pub fn new() -> Store {
        Store {
            given: Given::Nothing,
            place: 0,
            from: 0,
            len: 0,
            byte_order: ByteOrder::Little,
            word: 0,
            parity: ArrayVec::new(),
        }
    }

    pub(crate) fn set_word(&mut self, order: ByteOrder, place: u32, word: u32)
        ensures stores { (line payload : List ℕ) → handed self.new line payload ≡ word_store order place word }
        ensures inside { (size : ℕ) → (line payload : List ℕ) → place + 4 ≤ size
            → IsInside size self.new line payload }
    {
        self.given = Given::Word;
        self.place = place;
        self.from = 0;
        self.len = 4;
        self.byte_order = order;
        self.word = word;
    }

    pub(crate) fn set_bytes(&mut self, given: Given, place: u32, from: u64, len: u32)
        ensures { self.new ≡ record self.old { given = given; place = place; from = from; len = len } }
    {
        self.given = given;
        self.place = place;
        self.from = from;
        self.len = len;
    }

    pub(crate) fn set_nothing(&mut self)
        ensures handed { (line payload : List ℕ) → handed self.new line payload ≡ [] }
        ensures inside { (size : ℕ) → (line payload : List ℕ) → IsInside size self.new line payload }
        ensures given { self.new.given ≡ Given.Nothing }
    {
        self.given = Given::Nothing;
        self.place = 0;
        self.len = 0;
    }
}
