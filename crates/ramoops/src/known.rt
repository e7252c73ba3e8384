// What is known of a zone while the machine is off.
ghost use Rattle.std.specs.Prelude.{◌≡◌, ◌≤◌, ◌<◌, length, Some};
ghost use Rattle.std.specs.Vec.{vec_capacity};
ghost use Rattle.ramoops.specs.OffSeen.{known_all};
ghost use Rattle.ramoops.specs.SeenCut.{cut_of_flight, cut_of_erasure};
ghost use Rattle.ramoops.specs.Parted.{AreInOrder, IsParted};

use crate::Told;
use crate::booting::Passed;
use crate::zones::HeldZone;
use arrayvec::ArrayVec;
use prz_write::Flight;
use std::marker::Model;
use zone_spec::{CallKind, Pair, Words};

/// A call that was cut, as far as the next boot tells of it.
#[derive(Drop)]
pub struct HeldCut {
    pub(crate) kind: CallKind,
    pub(crate) made: u64,
    pub(crate) total: u64,
    pub(crate) pairs: ArrayVec<Pair, 8>,
    pub(crate) runs: ArrayVec<(u32, u32), 2>,
}

impl Model for HeldCut {
    ghost use Rattle.ramoops.specs.SeenCut.{SeenCut};

    ghost Value = { SeenCut };

    ghost view = { λ c. record {
      kind = c.kind;
      made = c.made;
      total = c.total;
      pairs = c.pairs.items;
      runs = c.runs.items;
    } };
}

impl HeldCut {
    /// A flight that is cut here.
    pub(crate) fn of_flight(flight: &Flight) -> HeldCut
        ensures { result ≡ cut_of_flight flight.now }
    {
        HeldCut {
            kind: flight.kind(),
            made: flight.made(),
            total: flight.total(),
            pairs: flight.pairs(),
            runs: flight.runs(),
        }
    }

    /// A boot's erasure of a zone whose header read these words, of whose stores so many were made.
    fn of_erasure(words: Words, made: u64, total: u64) -> HeldCut
        ensures { result ≡ cut_of_erasure words made total }
    {
        let mut pairs = ArrayVec::new();
        pairs.push(Pair {
            start: words.start,
            size: words.size,
        });
        pairs.push(Pair {
            start: 0,
            size: words.size,
        });
        pairs.push(Pair { start: 0, size: 0 });
        HeldCut {
            kind: CallKind::Erase,
            made,
            total,
            pairs,
            runs: ArrayVec::new(),
        }
    }
}

/// The list that a zone was told, if it is known, and the call that was cut there, if one was.
#[derive(Drop)]
pub struct KnownZone {
    pub(crate) told: Option<Told>,
    pub(crate) cut: Option<HeldCut>,
}

impl KnownZone {
    ghost use Rattle.ramoops.specs.Parted.{parted};

    /// What is known of the zone after a boot that passed it so: what the boot kept, where it has finished the zone or
    /// made all its stores; its erasure, where it is within that; else what was known.
    fn pass(&mut self, told: Told, passed: &Passed, is_whole: bool)
        requires { passed.now.settled.erase_at ≤ passed.now.settled.all }
        ensures { self.new ≡ parted passed.now is_whole told self.old }
    {
        let Passed {
            left,
            words,
            settled,
        } = *passed;
        if is_whole || (0 < left && settled.all <= left) {
            self.told = Some(told);
            self.cut = None;
        } else if settled.erase_at < left {
            let made = left - settled.erase_at;
            let total = settled.all - settled.erase_at;
            self.cut = Some(HeldCut::of_erasure(words, made, total));
        }
    }
}

// Lists so many zones, for which there is room. Nothing is known of those that it adds.
fn list_all(known: &mut Vec<KnownZone>, count: usize)
    requires within { length known.old.items ≤ count }
    requires room { count ≤ vec_capacity known.old }
    ensures { known.new.items ≡ known_all count known.old.items }
{
    while known.len() < count {
        known.push_reserved(KnownZone {
            told: None,
            cut: None,
        });
    }
}

// What is known of all zones after a boot that passed them so, and would keep these lists. All zones are listed.
fn pass_all(known: &mut [KnownZone], held: Vec<HeldZone>, passed: &[Passed], is_whole: bool)
    requires held { length held.items ≡ length known.old }
    requires passed { length passed.now ≡ length known.old }
    requires order { AreInOrder passed.now }
    ensures { IsParted passed.now is_whole held.items known.old known.new }
{
    let mut held = held;
    while let Some(zone) = held.pop() {
        let i = held.len();
        known[i].pass(zone.into_told(), &passed[i], is_whole);
    }
}

/// What is known of all zones after a boot that passed them so, and would keep these lists. Takes no memory.
pub(crate) fn pass_known(
    known: &mut Vec<KnownZone>,
    held: Vec<HeldZone>,
    passed: &[Passed],
    is_whole: bool,
)
    requires within { length known.old.items ≤ length held.items }
    requires room { length held.items ≤ vec_capacity known.old }
    requires passed { length passed.now ≡ length held.items }
    requires order { AreInOrder passed.now }
    ensures { IsParted passed.now is_whole held.items (known_all (length held.items) known.old.items)
        known.new.items }
{
    list_all(known, held.len());
    pass_all(known, held, passed, is_whole);
}
