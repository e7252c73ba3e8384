ghost use Rattle.std.specs.Prelude.{◌+◌, ◌≤◌, length};

use crate::rs_encode_tests::ramp;
use arrayvec::ArrayVec;
use rs_decode::*;
use rs_encode::Parity;
use std::process::Abort;

/// Decodes `msg` with `par`, and tells the answer, the data and the fixes.
fn assert_decoded(
    rt: &impl Abort,
    msg: &[u8],
    par: &[u8],
    want: Decoded,
    data: &[u8],
    places: &[(u8, u8)],
) {
    assert_lengths(rt, msg, par);
    let coder = Parity::new(par.len());
    let mut buffer = [0u8; 255];
    let word = &mut buffer[..msg.len()];
    word.copy_from_slice(msg);
    let mut fixes = ArrayVec::new();
    let answer = decode(word, par, &mut fixes);
    assert!(rt; answer == want && &*word == data, "another answer");
    assert_places(rt, fixes.as_slice(), places);
    word.copy_from_slice(msg);
    let answer = decode_by(coder.rows(), word, par, &mut fixes);
    assert!(rt;
        answer == want && &*word == data,
        "another answer, by a table"
    );
    assert_places(rt, fixes.as_slice(), places);
}

fn assert_lengths(rt: &impl Abort, msg: &[u8], par: &[u8])
    ensures some { 1 ≤ length par.now }
    ensures few { length par.now ≤ 127 }
    ensures data { 1 ≤ length msg.now }
    ensures fits { length msg.now + length par.now ≤ 255 }
{
    assert!(rt;
        1 <= par.len() && par.len() <= 127,
        "at most 127 parity symbols"
    );
    assert!(rt;
        1 <= msg.len() && msg.len() + par.len() <= 255,
        "at most 255 symbols"
    );
}

fn assert_places(rt: &impl Abort, fixes: &[Fix], places: &[(u8, u8)]) {
    assert!(rt; fixes.len() == places.len());
    for (fix, place) in fixes.iter().zip(places) {
        assert!(rt; (fix.place, fix.mask) == *place);
    }
}

#[test]
fn two_parity_symbols(rt: HostRuntime) {
    assert_decoded(&rt, &[1], &[3, 2], Decoded::Clean, &[1], &[]);
    assert_decoded(&rt, &[0], &[3, 2], Decoded::Fixed(1), &[1], &[(0, 1)]);
    assert_decoded(&rt, &[0], &[2, 2], Decoded::Bad, &[0], &[]);
    // the one correction would be at power 3, in the part that is left away
    assert_decoded(&rt, &[0], &[7, 6], Decoded::Bad, &[0], &[]);
    assert_decoded(&rt, &[1], &[3, 3], Decoded::Fixed(1), &[1], &[(2, 1)]);
}

/// Decodes the word of `msg` and `par` with a bound, and tells the answer and the data.
fn assert_within(rt: &impl Abort, most: usize, par: &[u8], msg: &[u8], want: Decoded, data: &[u8]) {
    assert_lengths(rt, msg, par);
    assert!(rt; most <= par.len() / 2, "at most half the parity");
    let mut buffer = [0u8; 255];
    let word = &mut buffer[..msg.len()];
    word.copy_from_slice(msg);
    let mut fixes = ArrayVec::new();
    let answer = decode_within(&Parity::new(par.len()), most, word, par, &mut fixes);
    assert!(rt; answer == want && &*word == data, "another answer");
}

/// The word 0 with the parity 3, 2 is one place from the codeword 1, 3, 2.
#[test]
fn no_more_than_the_bound(rt: HostRuntime) {
    assert_within(&rt, 0, &[3, 2], &[1], Decoded::Clean, &[1]);
    assert_within(&rt, 0, &[3, 2], &[0], Decoded::Bad, &[0]);
    assert_within(&rt, 1, &[3, 2], &[0], Decoded::Fixed(1), &[1]);
    // eight zeros are a codeword, and four symbols correct two places
    assert_within(
        &rt,
        1,
        &[0, 0, 0, 0],
        &[0, 9, 0, 0, 0, 7, 0, 0],
        Decoded::Bad,
        &[0, 9, 0, 0, 0, 7, 0, 0],
    );
    assert_within(
        &rt,
        2,
        &[0, 0, 0, 0],
        &[0, 9, 0, 0, 0, 7, 0, 0],
        Decoded::Fixed(2),
        &[0; 8],
    );
    assert_within(
        &rt,
        1,
        &[0, 0, 0, 0],
        &[0, 9, 0, 0, 0, 0, 0, 0],
        Decoded::Fixed(1),
        &[0; 8],
    );
}

/// A header of size 4018 whose start word was changed to 1541: the nearest codeword changes its signature.
#[test]
fn foreign_header(rt: HostRuntime) {
    let header = [0x44, 0x42, 0x47, 0x43, 5, 6, 0, 0, 178, 15, 0, 0];
    let want = [0x44, 0x42, 0x47, 0x40, 5, 6, 0, 0, 178, 15, 0, 0];
    assert_decoded(
        &rt,
        &header,
        &[155, 36],
        Decoded::Fixed(1),
        &want,
        &[(3, 3)],
    );
}

/// One parity symbol corrects nothing, and three correct one symbol, whose values all three then tell.
#[test]
fn odd_parity(rt: HostRuntime) {
    assert_decoded(&rt, &[5], &[5], Decoded::Clean, &[5], &[]);
    assert_decoded(&rt, &[5], &[4], Decoded::Bad, &[5], &[]);
    let ramp = [
        11, 48, 85, 122, 159, 196, 233, 14, 51, 88, 125, 162, 199, 236, 17, 54, 91, 128, 165, 202,
    ];
    let mut msg = ramp;
    msg[7] = 14 ^ 236;
    assert_decoded(
        &rt,
        &msg,
        &[139, 197, 234],
        Decoded::Fixed(1),
        &ramp,
        &[(7, 236)],
    );
    // the first two values alone would tell mask 1 in the first place
    assert_decoded(&rt, &[1], &[1, 3, 2], Decoded::Bad, &[1], &[]);
}

/// Adds the masks of `places` to the word, and wants them found again where there are at most half as many as
/// parity.
fn assert_found(rt: &impl Abort, par: &[u8], places: &[(u8, u8)]) {
    let msg = ramp();
    let r = par.len();
    assert!(rt; 1 <= r && r <= 127, "at most 127 parity symbols");
    let mut whole = [0u8; 255];
    whole[..128].copy_from_slice(&msg);
    let word = &mut whole[..128 + r];
    word[128..].copy_from_slice(par);
    for (place, mask) in places {
        let place = *place as usize;
        assert!(rt; place < word.len(), "a place of the word");
        word[place] ^= *mask;
    }
    assert!(rt; 128 <= word.len(), "the message");
    let (front, back) = word.split_at(128);
    let count = places.len();
    if count <= r / 2 {
        assert_decoded(rt, front, back, Decoded::Fixed(count as u8), &msg, places);
    } else {
        assert_decoded(rt, front, back, Decoded::Bad, front, &[]);
    }
}

/// Parity and answers of Debian's libfec 1.0-26-gc5d935f-1, by `init_rs_char(8, 0x11d, 0, 1, r, 127 - r)`:
/// `decode_rs_char` corrects the first and the last word and gives up on the second.
#[test]
fn as_libfec(rt: HostRuntime) {
    let sixteen = [
        8, 1, 96, 88, 80, 174, 101, 243, 241, 23, 8, 226, 116, 94, 15, 240,
    ];
    assert_found(
        &rt,
        &sixteen,
        &[
            (11, 76),
            (28, 20),
            (45, 5),
            (63, 119),
            (90, 53),
            (125, 62),
            (136, 147),
            (143, 222),
        ],
    );
    assert_found(
        &rt,
        &sixteen,
        &[
            (37, 42),
            (43, 143),
            (44, 244),
            (47, 21),
            (56, 214),
            (57, 33),
            (105, 20),
            (129, 33),
            (142, 20),
        ],
    );
    let most = [
        160, 224, 78, 94, 68, 60, 71, 246, 99, 190, 205, 90, 18, 125, 187, 180, 36, 158, 164, 70,
        62, 182, 134, 211, 134, 222, 130, 28, 237, 158, 138, 210, 17, 73, 6, 230, 253, 142, 26,
        188, 239, 201, 80, 56, 179, 51, 62, 192, 51, 47, 37, 103, 96, 115, 168, 176, 54, 65, 217,
        175, 104, 216, 114, 241, 246, 213, 32, 235, 29, 187, 215, 177, 245, 69, 172, 76, 215, 218,
        152, 116, 41, 142, 234, 92, 4, 14, 59, 193, 187, 70, 17, 238, 208, 196, 224, 38, 10, 133,
        52, 253, 190, 184, 71, 103, 242, 150, 199, 95, 199, 0, 107, 181, 106, 99, 157, 13, 90, 252,
        28, 154, 6, 183, 123, 111, 230, 47, 153,
    ];
    assert_found(
        &rt,
        &most,
        &[
            (1, 114),
            (4, 72),
            (5, 12),
            (6, 37),
            (9, 255),
            (12, 51),
            (13, 15),
            (16, 138),
            (31, 201),
            (36, 147),
            (38, 178),
            (44, 119),
            (54, 240),
            (56, 172),
            (61, 220),
            (65, 33),
            (66, 212),
            (67, 190),
            (68, 239),
            (72, 61),
            (74, 210),
            (77, 253),
            (78, 15),
            (88, 122),
            (92, 172),
            (94, 9),
            (99, 25),
            (100, 207),
            (101, 51),
            (105, 145),
            (111, 15),
            (114, 126),
            (122, 88),
            (123, 199),
            (124, 207),
            (125, 23),
            (135, 221),
            (141, 239),
            (144, 54),
            (147, 115),
            (149, 243),
            (152, 194),
            (155, 204),
            (157, 128),
            (168, 196),
            (176, 8),
            (178, 57),
            (180, 58),
            (185, 108),
            (204, 70),
            (207, 205),
            (211, 220),
            (218, 61),
            (220, 198),
            (225, 79),
            (229, 56),
            (230, 116),
            (232, 114),
            (238, 38),
            (242, 10),
            (243, 212),
            (249, 6),
            (254, 79),
        ],
    );
}
