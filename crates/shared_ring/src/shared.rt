// The shared zone.
ghost use Rattle.std.specs.Prelude.{◌≡◌, ◌<◌, ◌≤◌, ◌+◌, ◌^◌, ◌++◌, [], length, slice_get, IfOk, IfErr, MatchResult};
ghost use Rattle.std.specs.Prelude.{OnOk, OnErr, IfNone, is_some, Some, None};
ghost use Rattle.zone_spec.specs.Parts.{standing_words};
ghost use Rattle.ramoops_layout.specs.Laid.{params_of, zones_of};
ghost use Rattle.zone_spec.specs.Reading.{zone_reading};
ghost use Rattle.machine_spec.specs.Zones.{zone_bytes};
ghost use Rattle.shared_spec.specs.Calls.{SharedCall, open_count, open_call};
ghost use Rattle.shared_spec.specs.Machine.{refusal as refusal_of, step_answer, full_list, open_calls as open_calls_of};
ghost use Rattle.shared_spec.specs.Runs.{Reserve, StoreNext};
ghost use Rattle.shared_spec.specs.Histories.{History, CanOpen, shared_zone, and_then, image_left};
ghost use Rattle.shared_ring.specs.declared.seats.Seat.{Seat as ASeat};
ghost use Rattle.shared_ring.specs.Seats.{next_of};
ghost use Rattle.shared_ring.specs.Seen.{IsLeftBy, stores, words_seen, seated, stepped, IsReserved, IsStepped};
ghost use Rattle.shared_ring.specs.Seen.{HasStored, reserving, next_store};

use crate::seats::{Seat, count_stored, find, held, next_byte, show};
use arrayvec::ArrayVec;
use outside::Bytes;
use prz_region::{Region, RingWords, Spans};
use ramoops_layout::types::Layout;
use shared_spec::{Next, NoCall, OpenCall, SharedRefusal};
use std::alloc::AllocError;
use std::marker::Model;
use zone_spec::{Words, Zone, ZoneName};

/// How many calls can be open.
const SEATS: usize = 64;

/// A zone of an image that many writers share.
///
/// It is spent by `close`, which gives the image back. Only `open` takes memory.
pub struct Shared {
    spans: Spans,
    place: u32,
    zone: Zone,
    reserved: u64,
    seats: Vec<Seat>,
}

impl Model for Shared {
    ghost use Rattle.std.specs.Prelude.{◌≤◌};
    ghost use Rattle.std.specs.Vec.{vec_capacity};
    ghost use Rattle.shared_ring.specs.Seen.{SharedSeen, IsWhole};

    ghost Value = { SharedSeen };

    ghost view = { λ s. record {
      region = s.spans;
      place = s.place;
      zone = s.zone;
      reserved = s.reserved;
      seats = s.seats.items;
    } };

    ghost invariant = { λ s. (64 ≤ vec_capacity s.seats) × IsWhole (record {
      region = s.spans;
      place = s.place;
      zone = s.zone;
      reserved = s.reserved;
      seats = s.seats.items;
    }) };
}

impl Shared {
    /// Opens the zone of this name. It has no parity, and its words are a ring with its signature, with start below the
    /// capacity, and start equal to size until the ring is full. On a refusal the unchanged image comes back.
    pub fn open(image: Bytes, layout: Layout, zone: ZoneName) -> Result<Shared, (Bytes, AllocError)>
        requires mem { length image ≡ (params_of layout).mem }
        requires zone { CanOpen (zones_of layout) zone image }
        ensures ok { (can : CanOpen (zones_of layout) zone image) → IfOk result
            (IsLeftBy (record { image = image; zone = can.zone; operations = [] })) }
        ensures err { IfErr result (λ e. e.0 ≡ image) }
    {
        let place = match layout.find(zone) {
            Some(place) => place,
            None => unreachable!(),
        };
        let zone = layout.zones()[place as usize];
        let bytes = image.into_vec();
        let alloc = *bytes.allocator();
        let image = Bytes::from_vec(bytes);
        let seats = match Vec::with_capacity(alloc, SEATS) {
            Ok(seats) => seats,
            Err(refused) => return Err((image, refused)),
        };
        match Region::from_bytes(image).cut(&layout) {
            Ok(spans) => Ok(Shared {
                spans,
                place,
                zone,
                reserved: 0,
                seats,
            }),
            Err((region, refused)) => Err((region.into_bytes(), refused)),
        }
    }

    /// The words as they stand.
    pub fn words(&self) -> Words
        ensures value { result ≡ words_seen self.now }
        ensures left { (h : History) → IsLeftBy h self.now → result ≡ standing_words h.zone (shared_zone h).image }
    {
        Words::read(self.zone.byte_order, &self.spans.all()[self.place as usize])
    }

    /// How many calls were reserved, open ones and finished ones.
    pub fn reserved(&self) -> u64
        ensures value { result ≡ self.now.reserved }
        ensures left { (h : History) → IsLeftBy h self.now → result ≡ length (shared_zone h).calls }
    {
        self.reserved
    }

    /// The open calls, by rising ticket.
    pub fn open_calls(&self) -> ArrayVec<OpenCall, 64>
        ensures { (h : History) → IsLeftBy h self.now → result.items ≡ open_calls_of h.zone (shared_zone h) }
    {
        show(&self.seats, self.zone.cap)
    }

    /// Whether an open call has this ticket.
    pub fn is_open(&self, ticket: u64) -> bool
        ensures { (h : History) → IsLeftBy h self.now
            → result ≡ is_some (open_call (shared_zone h).calls ticket) }
    {
        find(&self.seats, ticket).is_some()
    }

    // Why a payload of so many bytes gets no reservation.
    fn refusal(&self, len: usize) -> Option<SharedRefusal>
        ensures left { (h : History) → IsLeftBy h self.now
            → result ≡ refusal_of h.zone (shared_zone h).calls len }
        ensures seat { IfNone result (length self.now.seats < 64) }
        ensures room { IfNone result (len ≤ self.now.zone.cap) }
    {
        if self.seats.len() == SEATS {
            return Some(SharedRefusal::NoSeat);
        }
        let cap = self.zone.cap;
        let held = held(&self.seats, self.words().start, cap);
        if len > (cap - held) as usize {
            return Some(SharedRefusal::Crowded { held });
        }
        None
    }

    // Reserves for a payload that is not refused, and answers its ticket.
    fn seat(&mut self, payload: Bytes) -> u64
        requires seat { length self.old.seats < 64 }
        requires some { 0 < length payload }
        requires room { length payload ≤ self.old.zone.cap }
        requires few { self.old.reserved < 2 ^ 63 }
        ensures ticket { result ≡ self.old.reserved }
        ensures seated { self.new ≡ seated self.old payload }
    {
        let words = self.words();
        let len = payload.len() as u32;
        let cap = self.zone.cap;
        let start = (words.start + len) % cap;
        let order = self.zone.byte_order;
        self.spans
            .store_pair(self.place, 4, order, start, cap.min(words.size + len));
        let ticket = self.reserved;
        self.reserved += 1;
        self.seats.push_reserved(Seat {
            ticket,
            place: words.start,
            stored: 0,
            payload,
        });
        ticket
    }

    /// Reserves the places of a payload, which follow those of the latest call. Stores start and size in one store, and
    /// nothing else. Answers the call's ticket, the number of reservations before it, or why it is refused, with the payload.
    pub fn reserve(&mut self, payload: Bytes) -> Result<u64, (SharedRefusal, Bytes)>
        requires some { 0 < length payload }
        requires few { self.old.reserved < 2 ^ 63 }
        ensures left { (h : History) → IsLeftBy h self.old → IsLeftBy (and_then h (Reserve payload)) self.new }
        ensures answer { (h : History) → IsLeftBy h self.old
            → IsReserved (refusal_of h.zone (shared_zone h).calls (length payload)) (length (shared_zone h).calls)
            payload result }
        ensures stores { OnOk result (stores self.new ≡ stores self.old + 1) }
        ensures stored { (h : History) → IsLeftBy h self.old
            → OnOk result (HasStored self.old self.new (reserving h.zone (shared_zone h) payload)) }
        ensures refused { OnErr result (self.new ≡ self.old) }
    {
        match self.refusal(payload.len()) {
            Some(why) => Err((why, payload)),
            None => Ok(self.seat(payload)),
        }
    }

    // Makes the next store of the call in the seat at `i`.
    fn store_next(&mut self, i: usize) -> Next
        requires { i < length self.old.seats }
        ensures stepped { (s : ASeat) → slice_get self.old.seats i ≡ Some s → self.new ≡ stepped self.old i s }
        ensures answer { (s : ASeat) → slice_get self.old.seats i ≡ Some s → result ≡ next_of s }
    {
        let (place, byte) = next_byte(&self.seats[i], self.zone.cap);
        self.spans.store(self.place, 12 + place, byte);
        count_stored(&mut self.seats, i)
    }

    /// Stores the next byte of the open call with this ticket, and nothing else. Answers whether it was the call's last.
    pub fn step(&mut self, ticket: u64) -> Result<Next, NoCall>
        ensures left { (h : History) → IsLeftBy h self.old → IsLeftBy (and_then h (StoreNext ticket)) self.new }
        ensures answer { (h : History) → IsLeftBy h self.old
            → IsStepped (step_answer (open_call (shared_zone h).calls ticket)) result }
        ensures stores { OnOk result (stores self.new ≡ stores self.old + 1) }
        ensures stored { (h : History) (c : SharedCall) → IsLeftBy h self.old
            → open_call (shared_zone h).calls ticket ≡ Some c
            → HasStored self.old self.new (next_store h.zone (shared_zone h) ticket c) }
        ensures refused { OnErr result (self.new ≡ self.old) }
    {
        match find(&self.seats, ticket) {
            Some(i) => Ok(self.store_next(i)),
            None => Err(NoCall),
        }
    }

    /// The image, with what stands in the zone.
    pub fn close(self) -> Bytes
        ensures left { (h : History) → IsLeftBy h self → result ≡ image_left h }
        ensures zone { (h : History) → IsLeftBy h self → zone_bytes h.zone result ≡ (shared_zone h).image }
        ensures log { (h : History) → IsLeftBy h self → open_count (shared_zone h).calls ≡ 0
            → (zone_reading h.zone (zone_bytes h.zone result)).log
            ≡ full_list h.zone (zone_bytes h.zone h.image) (shared_zone h).calls }
    {
        let Shared {
            spans,
            place: _,
            zone: _,
            reserved: _,
            seats: _,
        } = self;
        spans.join().into_bytes()
    }
}
