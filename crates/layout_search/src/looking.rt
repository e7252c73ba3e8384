// What a zone's header tells.
ghost use Rattle.std.specs.Prelude.{◌≡◌, ◌+◌, ◌<◌, ◌≤◌, ◌&&◌, ◌||◌, ◌==◌, nat_lt, nat_le, not, false, true, length};
ghost use Rattle.std.specs.Prelude.{slice_index, bit_xor, IfSome, MatchOption};
ghost use Rattle.zone_spec.specs.Zones.{IsValidZone};
ghost use Rattle.zone_spec.specs.TimeLines.{has_line as line_in};
ghost use Rattle.zone_spec.specs.PartStates.{zone_bytes as bytes_of};
ghost use Rattle.prz_ecc.specs.Outcomes.{CountsAre};
ghost use Rattle.layout_spec.specs.Marks.{is_readable, header_of, zone_words, state_in, is_ring_or_empty, is_found};
ghost use Rattle.layout_spec.specs.Marks.{log_place, log_front, is_odd_log};
ghost use Rattle.layout_spec.specs.Family.{is_ftrace as is_ftrace_kind, is_tag as is_tag_number};
ghost use Rattle.layout_search.specs.Looks.{IsInside, IsHeader, IsLook, IsTagOf};

use crate::marks::{is_mark, seems_to_begin};
use arrayvec::ArrayVec;
use dump_records::read_line;
use prz_ecc::{HeaderReading, read_header};
use rs_decode::{Decoded, Fix};
use zone_spec::{Kind, Words, Zone};

/// The signature of a header without a tag.
pub const PLAIN_SIGNATURE: u32 = 0x4347_4244;

/// The words of a header that can be read, and its corrected bytes.
#[derive(Clone, Copy)]
pub struct Header {
    pub words: Words,
    pub corrected: u8,
}

/// What is seen of a zone: whether its header fits, has a log, and an odd one; how many of its bytes are corrected if it
/// fits; whether a mark is there.
#[derive(Clone, Copy)]
pub struct Look {
    pub fits: bool,
    pub found: bool,
    pub odd: bool,
    pub corrected: u8,
    pub marked: bool,
}

fn zone_bytes<'a>(image: &'a [u8], zone: &Zone) -> &'a [u8]
    requires { IsInside image.now zone.now }
    ensures { result.now ≡ bytes_of zone.now image.now }
{
    &image[zone.at as usize..zone.at as usize + zone.size as usize]
}

#[tactic(auto, unfolding(layout_spec::specs::Marks::header_of, layout_spec::specs::Marks::zone_words))]
fn reading(image: &[u8], zone: &Zone) -> HeaderReading
    requires { IsInside image.now zone.now }
    ensures words { result.words ≡ zone_words image.now zone.now }
    ensures counts { CountsAre result.outcome (header_of image.now zone.now) }
{
    let mut fixes: ArrayVec<Fix, 63> = ArrayVec::new();
    read_header(&[], zone_bytes(image, zone), zone, &mut fixes)
}

/// The zone's header, if it seems to stand there and can be read.
fn readable(image: &[u8], zone: &Zone) -> Option<Header>
    requires { IsInside image.now zone.now }
    ensures { MatchOption result (is_readable image.now zone.now ≡ false) (IsHeader image.now zone.now) }
{
    if !seems_to_begin(zone.name.kind, image, zone.at as usize) {
        return None;
    }
    let reading = reading(image, zone);
    match reading.outcome {
        Decoded::Clean => Some(Header {
            words: reading.words,
            corrected: 0,
        }),
        Decoded::Fixed(corrected) => Some(Header {
            words: reading.words,
            corrected,
        }),
        Decoded::Bad => None,
    }
}

fn is_own(zone: &Zone, words: &Words) -> bool
    ensures { result ≡ (words.now.sig == zone.now.sig) }
{
    words.sig == zone.sig
}

fn is_empty(words: &Words) -> bool
    ensures { result ≡ ((words.now.size == 0) && (words.now.start == 0)) }
{
    words.size == 0 && words.start == 0
}

fn is_invalid(zone: &Zone, words: &Words) -> bool
    ensures { result ≡ (nat_lt zone.now.cap words.now.size || nat_lt words.now.size words.now.start) }
{
    zone.cap < words.size || words.size < words.start
}

fn log_byte(image: &[u8], zone: &Zone, words: &Words, i: u32) -> u8
    requires inside { IsInside image.now zone.now }
    requires ring { words.now.start ≤ words.now.size }
    requires cap { words.now.size ≤ zone.now.cap }
    requires i { i < words.now.size }
    ensures { result ≡ slice_index image.now (zone.now.at + 12 + log_place words.now i) }
{
    let place = if words.start + i < words.size {
        words.start + i
    } else {
        words.start + i - words.size
    };
    image[zone.at as usize + 12 + place as usize]
}

fn has_line(image: &[u8], zone: &Zone, words: &Words) -> bool
    requires inside { IsInside image.now zone.now }
    requires ring { words.now.start ≤ words.now.size }
    requires cap { words.now.size ≤ zone.now.cap }
    ensures { result ≡ line_in (log_front image.now zone.now words.now) }
{
    let mut front: ArrayVec<u8, 40> = ArrayVec::new();
    for i in 0..words.size.min(40) {
        front.push(log_byte(image, zone, words, i));
    }
    read_line(front.as_slice()).is_some()
}

fn is_odd(image: &[u8], zone: &Zone, words: &Words) -> bool
    requires inside { IsInside image.now zone.now }
    requires ring { words.now.start ≤ words.now.size }
    requires cap { words.now.size ≤ zone.now.cap }
    ensures { result ≡ is_odd_log zone.now.name.kind (line_in (log_front image.now zone.now words.now)) }
{
    let line = has_line(image, zone, words);
    match zone.name.kind {
        Kind::Dump => !line,
        Kind::Ftrace => false,
        Kind::Console | Kind::Pmsg => line,
    }
}

fn misfit(marked: bool) -> Look
    ensures { result ≡ record { fits = false; found = false; odd = false; corrected = 0; marked = marked } }
{
    Look {
        fits: false,
        found: false,
        odd: false,
        corrected: 0,
        marked,
    }
}

fn fresh(corrected: u8, marked: bool) -> Look
    ensures { result ≡ record { fits = true; found = false; odd = false; corrected = corrected; marked = marked } }
{
    Look {
        fits: true,
        found: false,
        odd: false,
        corrected,
        marked,
    }
}

/// What is seen of a zone.
pub fn look_at(image: &[u8], zone: &Zone) -> Look
    requires { IsInside image.now zone.now }
    ensures { IsLook image.now zone.now result }
{
    let marked = is_mark(image, zone.at as usize);
    let Some(header) = readable(image, zone) else {
        return misfit(marked);
    };
    let words = header.words;
    if !is_own(zone, &words) {
        return misfit(marked);
    }
    if is_empty(&words) {
        return fresh(header.corrected, marked);
    }
    if is_invalid(zone, &words) {
        return misfit(marked);
    }
    Look {
        fits: true,
        found: true,
        odd: is_odd(image, zone, &words),
        corrected: header.corrected,
        marked,
    }
}

fn is_ftrace(kind: Kind) -> bool
    ensures { result ≡ is_ftrace_kind kind }
{
    match kind {
        Kind::Ftrace => true,
        Kind::Dump | Kind::Console | Kind::Pmsg => false,
    }
}

fn is_tag(n: u32) -> bool
    ensures { result ≡ is_tag_number n }
{
    n >= 0x20000 && n <= 0xffffff
}

/// The tag of an ftrace zone's header.
pub fn tag_of(image: &[u8], zone: &Zone) -> Option<u32>
    requires { IsInside image.now zone.now }
    ensures { IsTagOf image.now zone.now result }
{
    if !is_ftrace(zone.name.kind) {
        return None;
    }
    let Some(header) = readable(image, zone) else {
        return None;
    };
    let tag = PLAIN_SIGNATURE ^ header.words.sig;
    if is_tag(tag) { Some(tag) } else { None }
}
