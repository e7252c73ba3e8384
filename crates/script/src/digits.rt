// Bytes as pairs of hexadecimal digits.
ghost use Rattle.std.specs.Prelude.{◌≡◌, ℕ, ◌*◌, true, length, Ok};
ghost use Rattle.std.specs.List.{list_all};
ghost use Rattle.hex.specs.Hex.{is_hex_digit, pair_value, decode_pairs, decode_of};
ghost use Rattle.grammar_spec.specs.Fields.{decoded};
ghost use Rattle.script.specs.Reading.{Gives};

use crate::rows::LineFault;
use outside::Bytes;
use std::alloc::Global;

// Whether a byte is a digit. Has no branch, so that many bytes are tested at once.
fn is_digit(byte: u8) -> bool
    ensures { result ≡ is_hex_digit byte }
{
    let is_decimal = (b'0' <= byte) & (byte <= b'9');
    let is_upper = (b'A' <= byte) & (byte <= b'F');
    let is_lower = (b'a' <= byte) & (byte <= b'f');
    is_decimal | is_upper | is_lower
}

fn are_digits(text: &[u8]) -> bool
    ensures { result ≡ list_all is_hex_digit text.now }
{
    let mut all = true;
    for byte in text {
        all &= is_digit(*byte);
    }
    all
}

// The byte of two digits. A digit's value is its low four bits, and 9 more of a letter. Both are taken from one number,
// so that many bytes are made at once.
fn byte_of(high: u8, low: u8) -> u8
    requires high { is_hex_digit high ≡ true }
    requires low { is_hex_digit low ≡ true }
    ensures { (i : ℕ) → pair_value high low i ≡ Ok result }
{
    let pair = u16::from_be_bytes([high, low]);
    let sixteens = pair / 256 % 16 * 16 + pair / 16384 * 144;
    let units = pair % 16 + pair / 64 % 4 * 9;
    (sixteens + units) as u8
}

// Writes the byte of each pair of digits.
fn decode_into(text: &[u8], bytes: &mut [u8])
    requires len { length text.now ≡ 2 * length bytes.old }
    requires digits { list_all is_hex_digit text.now ≡ true }
    ensures { decode_pairs 0 text.now ≡ Ok bytes.new }
{
    'pairs: for i in 0..bytes.len() {
        bytes[i] = byte_of(text[2 * i], text[2 * i + 1]);
    }
}

#[tactic(auto, using(crate::proofs::HexDigits::decoded_is, crate::proofs::HexDigits::decoded_none, crate::proofs::HexDigits::decoded_odd))]
/// The bytes of an even number of hexadecimal digits of either case.
pub fn decoded(alloc: Global, text: &[u8]) -> Result<Bytes, LineFault>
    ensures { Gives (λ bytes. bytes) result (decoded (decode_of text.now)) }
{
    if text.len() % 2 == 1 || !are_digits(text) {
        return Err(LineFault::Bad);
    }
    let mut bytes = vec![in alloc; 0u8; text.len() / 2]?;
    decode_into(text, bytes.as_mut_slice());
    Ok(Bytes::from_vec(bytes))
}
