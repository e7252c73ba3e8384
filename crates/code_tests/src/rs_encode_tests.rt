ghost use Rattle.std.specs.Prelude.{◌≡◌, ◌+◌, ◌≤◌, length};
ghost use Rattle.rs_encode.specs.Lanes.{IsLent};

use rs_encode::*;
use std::process::Abort;

fn assert_parity(rt: &impl Abort, msg: &[u8], want: &[u8]) {
    let r = want.len();
    assert!(rt; 1 <= r && r <= 127, "at most 127 parity symbols");
    assert!(rt; msg.len() + r <= 255, "at most 255 symbols");
    let coder = Parity::new(r);
    assert_made(rt, &coder, msg, want);
    let mut other = [9u8; 127];
    other[..r].copy_from_slice(want);
    other[r - 1] ^= 1;
    assert_told(rt, &coder, msg, want, &other[..r]);
    assert_parity_by(rt, coder.rows(), msg, want, &other[..r]);
    assert_parity_by(rt, &[], msg, want, &other[..r]);
}

/// The parity of one message, and of two at once.
fn assert_made(rt: &impl Abort, coder: &Parity, msg: &[u8], want: &[u8])
    requires few { length want.now ≤ 127 }
    requires fits { length msg.now + length want.now ≤ 255 }
    requires coder { coder.now ≡ length want.now }
{
    let r = want.len();
    let mut out = [7u8; 127];
    coder.parity(msg, &mut out[..r]);
    assert!(rt; &out[..r] == want, "its parity");
    let mut other = [9u8; 127];
    coder.parity_pair(msg, msg, &mut out[..r], &mut other[..r]);
    assert!(rt; &out[..r] == want, "first of two");
    assert!(rt; &other[..r] == want, "second of two");
}

/// The parity is told from another.
fn assert_told(rt: &impl Abort, coder: &Parity, msg: &[u8], want: &[u8], other: &[u8])
    requires fits { length msg.now + length want.now ≤ 255 }
    requires coder { coder.now ≡ length want.now }
    requires other { length other.now ≡ length want.now }
{
    assert!(rt; coder.is_parity(msg, want), "its own parity");
    assert!(rt; !coder.is_parity(msg, other), "other parity");
    let pair = coder.are_parity_pair(msg, want, msg, other);
    assert!(rt; pair.0 && !pair.1, "the second is other");
    let pair = coder.are_parity_pair(msg, other, msg, want);
    assert!(rt; !pair.0 && pair.1, "the first is other");
}

/// The same by a lent table, or by none.
fn assert_parity_by(rt: &impl Abort, rows: &[u128], msg: &[u8], want: &[u8], other: &[u8])
    requires some { 1 ≤ length want.now }
    requires few { length want.now ≤ 127 }
    requires fits { length msg.now + length want.now ≤ 255 }
    requires table { IsLent (length want.now) rows.now }
    requires other { length other.now ≡ length want.now }
{
    let mut out = [7u8; 127];
    parity_by(rows, msg, &mut out[..want.len()]);
    assert!(rt; &out[..want.len()] == want, "its parity, lent");
    assert!(rt; is_parity_by(rows, msg, want), "its own parity, lent");
    assert!(rt; !is_parity_by(rows, msg, other), "other parity, lent");
    let pair = are_parity_pair_by(rows, msg, want, msg, other);
    assert!(rt; pair.0 && !pair.1, "the second is other, lent");
    let pair = are_parity_pair_by(rows, msg, other, msg, want);
    assert!(rt; !pair.0 && pair.1, "the first is other, lent");
}

/// 11, 48, 85 and so on, each 37 more than the last.
pub(crate) fn ramp() -> [u8; 128] {
    let mut msg = [0u8; 128];
    let mut next = 11u8;
    for symbol in msg.iter_mut() {
        *symbol = next;
        next = next.wrapping_add(37);
    }
    msg
}

/// A table for two symbols, whose generator is x squared + 3 x + 2, in the place of one for 127.
#[test]
fn a_table_in_the_place_of_another(rt: HostRuntime) {
    let mut rows = [0u128; 256];
    fill_table(127, &mut rows);
    assert!(rt; rows[1] != 0x0302 << 112u32);
    fill_table(2, &mut rows);
    assert!(rt; (rows[0], rows[1]) == (0, 0x0302 << 112u32));
    assert!(rt; (rows[2], rows[255]) == (0x0604 << 112u32, 0x1ce3 << 112u32));
    assert!(rt; rows.as_slice() == Parity::new(2).rows());
    let mut out = [7u8; 2];
    parity_by(&rows, &[1], &mut out);
    assert!(rt; out == [3, 2]);
}

/// The generators themselves, and zeros.
#[test]
fn one_symbol(rt: HostRuntime) {
    assert_parity(&rt, &[1], &[3, 2]);
    assert_parity(&rt, &[1], &[15, 54, 120, 64]);
    assert_parity(&rt, &[1], &[255, 11, 81, 54, 239, 173, 200, 24]);
    assert_parity(&rt, &[0; 128], &[0; 16]);
    assert_parity(&rt, &[], &[0, 0]);
}

/// With two symbols of parity: a ring's header that is empty, one of start and size 3, and the block of a first
/// record.
#[test]
fn headers_and_a_block(rt: HostRuntime) {
    assert_parity(
        &rt,
        &[0x44, 0x42, 0x47, 0x43, 0, 0, 0, 0, 0, 0, 0, 0],
        &[0xe1, 0xe3],
    );
    assert_parity(
        &rt,
        &[0x44, 0x42, 0x47, 0x43, 3, 0, 0, 0, 3, 0, 0, 0],
        &[0xfb, 0xf9],
    );
    let mut block = [0u8; 128];
    block[0] = b'a';
    block[1] = b'b';
    block[2] = b'c';
    assert_parity(&rt, &block, &[0xe3, 0x83]);
}

/// What `encode_rs_char` of Debian's libfec 1.0-26-gc5d935f-1 gives, by `init_rs_char(8, 0x11d, 0, 1, r, pad)`.
#[test]
fn as_libfec(rt: HostRuntime) {
    assert_parity(&rt, &ramp()[..20], &[164]);
    assert_parity(&rt, &ramp()[..20], &[254, 90]);
    assert_parity(&rt, &ramp()[..20], &[139, 197, 234]);
    assert_parity(&rt, &ramp()[..20], &[238, 227, 166, 15]);
    assert_parity(&rt, &ramp()[..20], &[160, 94, 190, 142, 106]);
    assert_parity(&rt, &ramp()[..20], &[87, 227, 193, 121, 5, 47, 130]);
    assert_parity(
        &rt,
        &ramp()[..20],
        &[253, 232, 242, 204, 196, 245, 197, 123],
    );
    assert_parity(
        &rt,
        &ramp()[..20],
        &[
            59, 183, 113, 44, 57, 58, 7, 130, 10, 194, 90, 225, 0, 175, 85, 163, 191, 169, 188,
            171, 81, 132, 116, 166, 26, 237, 21, 136, 114, 21, 210,
        ],
    );
    assert_parity(
        &rt,
        &ramp()[..20],
        &[
            164, 21, 1, 28, 137, 215, 254, 235, 88, 144, 83, 124, 95, 113, 230, 17, 192, 44, 221,
            248, 126, 19, 244, 201, 205, 41, 145, 153, 185, 158, 79, 211, 179,
        ],
    );
    assert_parity(
        &rt,
        &ramp(),
        &[
            8, 1, 96, 88, 80, 174, 101, 243, 241, 23, 8, 226, 116, 94, 15, 240,
        ],
    );
    assert_parity(
        &rt,
        &ramp(),
        &[
            160, 224, 78, 94, 68, 60, 71, 246, 99, 190, 205, 90, 18, 125, 187, 180, 36, 158, 164,
            70, 62, 182, 134, 211, 134, 222, 130, 28, 237, 158, 138, 210, 17, 73, 6, 230, 253, 142,
            26, 188, 239, 201, 80, 56, 179, 51, 62, 192, 51, 47, 37, 103, 96, 115, 168, 176, 54,
            65, 217, 175, 104, 216, 114, 241, 246, 213, 32, 235, 29, 187, 215, 177, 245, 69, 172,
            76, 215, 218, 152, 116, 41, 142, 234, 92, 4, 14, 59, 193, 187, 70, 17, 238, 208, 196,
            224, 38, 10, 133, 52, 253, 190, 184, 71, 103, 242, 150, 199, 95, 199, 0, 107, 181, 106,
            99, 157, 13, 90, 252, 28, 154, 6, 183, 123, 111, 230, 47, 153,
        ],
    );
}
