// An append to a zone without parity: all its stores are known at once.
ghost use Rattle.std.specs.Prelude.{◌≡◌, ◌%◌, ◌+◌, ◌-◌, ◌≤◌, ◌<◌, ℕ, List, true, length, min, if◌then◌else◌, ◌==◌, Some, None};
ghost use Rattle.std.specs.Prelude.{IfSome, IfNone, IsTrue, ◌↔◌};
ghost use Rattle.zone_spec.specs.Zones.{IsValidZone};
ghost use Rattle.zone_spec.specs.Told.{last_items};
ghost use Rattle.store_steps.specs.PlainAppends.{plain_stores, plain_size, size_store};

use crate::place::Phase;
use crate::steps::Steps;
use zone_spec::{ByteOrder, CallKind, Zone};

/// All stores of an append without parity, in this order: the size word, which a full ring does without, the start word,
/// and bytes of the payload from `from` on, one by one: `first` of them from `place` on, `second` from the data's begin on.
/// A place is counted from the zone's begin.
#[derive(Clone, Copy, Debug, PartialEq, Eq)]
pub struct Whole {
    pub byte_order: ByteOrder,
    pub size: Option<u32>,
    pub start: u32,
    pub place: u32,
    pub from: u64,
    pub first: u32,
    pub second: u32,
}

impl Whole {
    ghost use Rattle.store_steps.specs.Whole.{whole_handed, IsWholeInside};

    /// The number of the stores.
    fn count(&self) -> u64
        ensures { (size : ℕ) → (payload : List ℕ) → IsWholeInside size self.now payload
            → result ≡ length (whole_handed self.now payload) }
    {
        let words = match self.size {
            Some(_) => 2,
            None => 1,
        };
        words + u64::from(self.first) + u64::from(self.second)
    }
}

// The size word, if the ring is not full.
fn size_after(zone: &Zone, size: u32, len: u32) -> Option<u32>
    requires valid { IsValidZone zone.now }
    requires size { size ≤ zone.now.cap }
    requires len { len ≤ zone.now.cap }
    ensures { size_store zone.now.byte_order result ≡ plain_size zone.now size len }
{
    if size == zone.cap {
        None
    } else {
        Some(zone.cap.min(size + len))
    }
}

// Where the next append begins.
fn start_after(start: u32, len: u32, cap: u32) -> u32
    requires below { start < cap }
    requires len { len ≤ cap }
    requires small { cap ≤ 16777216 }
    ensures { result ≡ (start + len) % cap }
{
    let end = start + len;
    if end < cap { end } else { end - cap }
}

impl Steps {
    ghost use Rattle.store_steps.specs.Flying.{flying};
    ghost use Rattle.store_steps.specs.Machine.{IsKept};
    ghost use Rattle.store_steps.specs.Whole.{whole_handed, IsWholeInside, IsWholeCall, TakesWhole};

    // Whether the call is an append without parity, of which no store was handed out.
    fn is_plain(&self) -> bool
        ensures { IsTrue result ↔ (self.now.kind ≡ CallKind.Append) × (self.now.zone.parity ≡ 0) × (self.now.made ≡ 0) }
    {
        match self.kind {
            CallKind::Append => self.zone.parity == 0 && self.made == 0,
            CallKind::Erase => false,
            CallKind::Dump => false,
        }
    }

    // All stores of an append of some bytes.
    fn whole(&self, payload: &[u8]) -> Whole
        requires valid { IsValidZone self.now.zone }
        requires below { self.now.words.start < self.now.zone.cap }
        requires size { self.now.words.size ≤ self.now.zone.cap }
        requires some { 0 < length payload.now }
        ensures stores { whole_handed result payload.now ≡ plain_stores self.now.zone self.now.words.start
            self.now.words.size (last_items self.now.zone.cap payload.now) }
        ensures inside { IsWholeInside self.now.zone.size result payload.now }
    {
        let (zone, start) = (&self.zone, self.words.start);
        let len = payload.len().min(zone.cap as usize) as u32;
        let first = len.min(zone.cap - start);
        Whole {
            byte_order: zone.byte_order,
            size: size_after(zone, self.words.size, len),
            start: start_after(start, len, zone.cap),
            place: 12 + start,
            from: payload.len() as u64 - u64::from(len),
            first,
            second: len - first,
        }
    }

    /// Hands out all stores at once of an append without parity, if none was handed out before and they are at most
    /// `most`. The call is finished then. Of another call none is handed out, nor of an append of no bytes.
    pub fn take_whole(&mut self, line: &[u8], payload: &[u8], most: u64) -> Option<Whole>
        requires { IsKept (flying self.old line.now payload.now) }
        ensures taken { IfSome result (λ w. TakesWhole (flying self.old line.now payload.now)
            (flying self.new line.now payload.now) w payload.now most) }
        ensures kind { self.new.kind ≡ self.old.kind }
        ensures due { IfNone result (¬ (IsWholeCall self.old line.now payload.now most)) }
        ensures none { IfNone result (self.new ≡ self.old) }
    {
        let _ = line;
        if !self.is_plain() || payload.is_empty() {
            return None;
        }
        let whole = self.whole(payload);
        let count = whole.count();
        if most < count {
            return None;
        }
        self.made = count;
        self.place.phase = Phase::Finished;
        self.place.number = 0;
        Some(whole)
    }
}
