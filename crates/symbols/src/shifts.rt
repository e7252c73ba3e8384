// How far above its map a kernel runs.
ghost use Rattle.std.specs.Prelude.{◌≡◌, nat_eq};
ghost use Rattle.std.specs.List.{starts_with};
ghost use Rattle.symbol_spec.specs.Shifts.{is_number as is_number_at, number_of, after_number as after_number_of};
ghost use Rattle.symbol_spec.specs.Shifts.{is_shift as is_shift_said, from_of, begins_at};

use crate::map::{digits, number, tail};
use symbol_spec::Symbol;

/// The words between how far and from where.
const FROM: &[u8] = b" from ";

fn begins(text: &[u8], words: &[u8]) -> bool
    ensures { result ≡ starts_with nat_eq text.now words.now }
{
    text.starts_with(words)
}

/// Whether a number stands at the front of a text.
fn is_number(text: &[u8]) -> bool
    ensures { result ≡ is_number_at text.now }
{
    let len = digits(tail(text, 2));
    begins(text, b"0x") && 0 < len && len <= 16
}

/// The number at the front of a text, in 64 bits.
pub fn number_at(text: &[u8]) -> u64
    ensures { result ≡ number_of text.now }
{
    let rest = tail(text, 2);
    number(&rest[..digits(rest)])
}

/// What follows it.
fn after_number(text: &[u8]) -> &[u8]
    ensures { result.now ≡ after_number_of text.now }
{
    let rest = tail(text, 2);
    tail(rest, digits(rest))
}

/// Whether a kernel says how far from where it runs.
pub fn is_shift(said: &[u8]) -> bool
    ensures { result ≡ is_shift_said said.now }
{
    let rest = after_number(said);
    is_number(said) && begins(rest, FROM) && is_number(tail(rest, 6))
}

/// From where.
pub fn from_of(said: &[u8]) -> u64
    ensures { result ≡ from_of said.now }
{
    number_at(tail(after_number(said), 6))
}

/// Whether a function begins at an address.
pub fn begins_at(address: u64, function: Option<Symbol>) -> bool
    ensures { result ≡ begins_at address function }
{
    match function {
        Some(symbol) => symbol.address == address,
        None => false,
    }
}
