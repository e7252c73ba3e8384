// The seats of the open calls.
ghost use Rattle.std.specs.Prelude.{◌≡◌, ◌<◌, ◌≤◌, ◌+◌, ◌%◌, ◌^◌, length, map, position, slice_get, slice_index, Some};
ghost use Rattle.std.specs.Vec.{vec_capacity};
ghost use Rattle.shared_ring.specs.declared.seats.Seat.{Seat as ASeat};
ghost use Rattle.shared_ring.specs.Seats.{is_of, shown_seat, IsSeat, AreSeats, held_since, seats_stepped, next_of};

use arrayvec::ArrayVec;
use outside::Bytes;
use shared_spec::{Next, OpenCall};

/// An open call: its ticket, the data place of its payload's first byte, how many bytes are stored, and the payload.
#[derive(Drop)]
pub struct Seat {
    pub ticket: u64,
    pub place: u32,
    pub stored: u32,
    pub payload: Bytes,
}

/// The place in the list of the open call with this ticket.
pub(crate) fn find(seats: &[Seat], ticket: u64) -> Option<usize>
    ensures { result ≡ position (is_of ticket) seats.now }
{
    seats.iter().position(|seat| seat.ticket == ticket)
}

/// The bytes from the oldest open call's first place round to the start word; all of the ring if that is its place.
pub(crate) fn held(seats: &[Seat], start: u32, cap: u32) -> u32
    requires start { start < cap }
    requires cap { cap ≤ 2 ^ 24 }
    requires seats { AreSeats cap seats.now }
    ensures value { result ≡ held_since seats.now start cap }
    ensures fits { result ≤ cap }
{
    match seats {
        [] => 0,
        [oldest, ..] => match (start + cap - oldest.place) % cap {
            0 => cap,
            way => way,
        },
    }
}

/// The open calls as they are shown.
pub(crate) fn show(seats: &[Seat], cap: u32) -> ArrayVec<OpenCall, 64>
    requires few { length seats.now ≤ 64 }
    requires seats { AreSeats cap seats.now }
    ensures { result.items ≡ map shown_seat seats.now }
{
    let _ = cap;
    let mut calls = ArrayVec::new();
    for seat in seats {
        calls.push(OpenCall {
            ticket: seat.ticket,
            place: seat.place,
            length: seat.payload.len() as u32,
            stored: seat.stored,
        });
    }
    calls
}

/// What the next step of a seat stores: the data place, and the byte.
pub(crate) fn next_byte(seat: &Seat, cap: u32) -> (u32, u8)
    requires cap { cap ≤ 2 ^ 24 }
    requires seat { IsSeat cap seat.now }
    ensures place { result.0 ≡ (seat.now.place + seat.now.stored) % cap }
    ensures within { result.0 < cap }
    ensures byte { result.1 ≡ slice_index seat.now.payload seat.now.stored }
{
    let place = (seat.place + seat.stored) % cap;
    (place, seat.payload.as_slice()[seat.stored as usize])
}

/// Counts a stored byte of the seat at `i`. A seat whose last byte it was is given back.
pub(crate) fn count_stored(seats: &mut Vec<Seat>, i: usize) -> Next
    requires there { i < length seats.old.items }
    requires stored { (s : ASeat) → slice_get seats.old.items i ≡ Some s
        → s.stored < length s.payload × (length s.payload < 2 ^ 32) }
    ensures seats { (s : ASeat) → slice_get seats.old.items i ≡ Some s
        → seats.new.items ≡ seats_stepped seats.old.items i s }
    ensures answer { (s : ASeat) → slice_get seats.old.items i ≡ Some s → result ≡ next_of s }
    ensures room { vec_capacity seats.new ≡ vec_capacity seats.old }
{
    let seat = &mut seats[i];
    let stored = seat.stored + 1;
    if stored as usize == seat.payload.len() {
        let _done = seats.remove(i);
        return Next::Done;
    }
    seat.stored = stored;
    Next::Stored
}
