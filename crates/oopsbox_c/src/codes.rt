// Parity and correction of one block. They take no memory.
ghost use Rattle.std.specs.Prelude.{◌≡◌, ◌+◌, ◌/◌, ◌≤◌, ◌<◌, [], ◌++◌, length, take, unwrap_or, if◌then◌else◌};
ghost use Rattle.code_spec.specs.Code.{nearest, parity_of};
ghost use Rattle.rs_decode.specs.Decoding.{fixes_by};
ghost use Rattle.oopsbox_c.specs.Codes.{is_block, has_answer, encode_end, decode_end, end_of, PlacesAre};
ghost use Rattle.oopsbox_c.specs.Ends.{status_of};

use crate::End;
use arrayvec::ArrayVec;
use rs_decode::{Decoded, Fix, decode};
use rs_encode::bare_parity;

// Whether so many data and parity bytes make a block.
fn is_block(message: usize, parity: usize) -> bool
    ensures { result ≡ is_block message parity }
{
    1 <= message && message <= 254 && 1 <= parity && parity <= 127 && message + parity <= 255
}

/// Makes `parity` the parity of `message`.
#[unsafe(no_mangle)]
pub extern "C" fn oopsbox_rs_encode(message: &[u8], parity: &mut [u8]) -> u32
    ensures answer { result ≡ status_of (encode_end (length message.now) (length parity.old)) }
    ensures parity { parity.new ≡ (if is_block (length message.now) (length parity.old)
        then parity_of (length parity.old) message.now else parity.old) }
{
    if !is_block(message.len(), parity.len()) {
        return End::Argument.status();
    }
    bare_parity(message, parity);
    End::Done.status()
}

// Stores the places of the fixes.
fn store_places(fixes: &[Fix], places: &mut [u8])
    requires { length fixes.now ≤ length places.old }
    ensures { PlacesAre fixes.now places.old places.new }
{
    for i in 0..fixes.len() {
        places[i] = fixes[i].place;
    }
}

fn end_of(answer: Decoded) -> End
    ensures { result ≡ end_of answer }
{
    match answer {
        Decoded::Clean | Decoded::Fixed(_) => End::Done,
        Decoded::Bad => End::Bad,
    }
}

/// Corrects `message` by its parity, and tells the places of the block, of parity too, that differ from the nearest
/// codeword: how many, and each. A block without one stays as it is.
#[unsafe(no_mangle)]
pub extern "C" fn oopsbox_rs_decode(
    message: &mut [u8],
    parity: &[u8],
    places: &mut [u8],
    corrected: &mut u32,
) -> u32
    ensures answer { let word = message.old ++ parity.now in
        result ≡ status_of (decode_end (length message.old) (length parity.now) (length places.old)
        (nearest (length parity.now) word)) }
    ensures message { let word = message.old ++ parity.now in
        message.new ≡ (if has_answer (length message.old) (length parity.now) (length places.old)
        then take (length message.old) (unwrap_or (nearest (length parity.now) word) word) else message.old) }
    ensures corrected { let word = message.old ++ parity.now in
        corrected.new ≡ (if has_answer (length message.old) (length parity.now) (length places.old)
        then length (fixes_by word (nearest (length parity.now) word)) else corrected.old) }
    ensures places { let word = message.old ++ parity.now in
        PlacesAre (if has_answer (length message.old) (length parity.now) (length places.old)
        then fixes_by word (nearest (length parity.now) word) else []) places.old places.new }
{
    if !is_block(message.len(), parity.len()) {
        return End::Argument.status();
    }
    if places.len() < parity.len() / 2 {
        return End::Room.status();
    }
    let mut fixes: ArrayVec<Fix, 63> = ArrayVec::new();
    let answer = decode(message, parity, &mut fixes);
    store_places(fixes.as_slice(), places);
    *corrected = fixes.len() as u32;
    end_of(answer).status()
}
