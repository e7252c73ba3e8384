// A name for a death, the same on each machine that dies so.
ghost use Rattle.std.specs.Prelude.{◌≡◌, ◌≤◌, ◌+◌, ◌++◌, OnOk, IfOk, length, drop};
ghost use Rattle.std.specs.Option.{option_or};
ghost use Rattle.death_spec.specs.Signatures.{is_letter, is_alphanumeric, piece_alone, piece_of, shown_as, numberless};
ghost use Rattle.death_spec.specs.Signatures.{place_of_words, before_words, kind_in, symbol_of, blamed, in_function};
ghost use Rattle.death_spec.specs.Signatures.{words_of, signed_by, signed_words, signature_of};
ghost use Rattle.death_spec.specs.declared.Piece.TheVariants.{Between};
ghost use Rattle.death.specs.Rows.{plain_kinds};

use crate::lines::{is_a, part, said, unnumbered};
use crate::marks::{begins, run_from, starts_with, tail};
use crate::prefixes::is_digit;
use crate::reports::place_in;
use death_spec::{Blame, Class, Death, KINDS, Line, Mark, Piece, Span};
use std::alloc::{AllocError, Global};

fn is_letter(b: u8) -> bool
    ensures { result ≡ is_letter b }
{
    (65 <= b && b <= 90) || (97 <= b && b <= 122)
}

fn is_alphanumeric(b: u8) -> bool
    ensures { result ≡ is_alphanumeric b }
{
    is_letter(b) || is_digit(b)
}

fn piece_alone(b: u8) -> Piece
    ensures { result ≡ piece_alone b }
{
    if is_digit(b) {
        Piece::Number
    } else if is_letter(b) || b == b'_' {
        Piece::Name
    } else {
        Piece::Between
    }
}

// What a byte is a part of, by what the byte before it is a part of.
fn piece_of(before: Piece, b: u8) -> Piece
    ensures { result ≡ piece_of before b }
{
    match before {
        Piece::Between => piece_alone(b),
        Piece::Name => {
            if is_alphanumeric(b) || b == b'_' {
                Piece::Name
            } else {
                Piece::Between
            }
        }
        Piece::Number => {
            if is_alphanumeric(b) || b == b',' {
                Piece::Number
            } else {
                piece_alone(b)
            }
        }
    }
}

// Appends a byte, or for a number `..`.
fn push_shown(signature: &mut Vec<u8>, before: Piece, piece: Piece, b: u8) -> Result<(), AllocError>
    ensures { OnOk result (signature.new.items ≡ signature.old.items ++ shown_as before piece b) }
{
    match piece {
        Piece::Between => signature.push(b)?,
        Piece::Name => signature.push(b)?,
        Piece::Number => {
            if !matches!(before, Piece::Number) {
                signature.extend_from_slice(b"..")?;
            }
        }
    }
    Ok(())
}

fn push_numberless(signature: &mut Vec<u8>, text: &[u8]) -> Result<(), AllocError>
    ensures { OnOk result (signature.new.items ≡ signature.old.items ++ numberless Between text.now) }
{
    let mut before = Piece::Between;
    for b in text {
        let piece = piece_of(before, *b);
        push_shown(signature, before, piece, *b)?;
        before = piece;
    }
    Ok(())
}

fn place_of_words(words: &[u8], text: &[u8]) -> usize
    ensures place { result ≡ place_of_words words.now text.now }
    ensures within { result ≤ length text.now }
{
    let mut at = 0;
    'bytes: while at < text.len() {
        if starts_with(tail(text, at), words) {
            return at;
        }
        at += 1;
    }
    at
}

// Appends what the signature has for a telling line, and says whose function it names.
fn push_kind(
    signature: &mut Vec<u8>,
    rows: &[(Blame, &[u8], &[u8], &[u8])],
    words: &[u8],
) -> Result<Blame, AllocError>
    ensures { IfOk result (λ blame. (blame ≡ (kind_in (plain_kinds rows.now) words.now).0)
        × (signature.new.items ≡ signature.old.items ++ (kind_in (plain_kinds rows.now) words.now).1)) }
{
    for row in rows {
        if starts_with(words, row.1) {
            push_row(signature, row.2, row.3, words, row.1.len())?;
            return Ok(row.0);
        }
    }
    push_numberless(signature, words)?;
    Ok(Blame::Report)
}

// Appends what a row has for a line, whose words from a place on are the rest.
fn push_row(
    signature: &mut Vec<u8>,
    name: &[u8],
    end: &[u8],
    words: &[u8],
    from: usize,
) -> Result<(), AllocError>
    requires { from ≤ length words.now }
    ensures { OnOk result (signature.new.items
        ≡ signature.old.items ++ (name.now ++ numberless Between (before_words end.now (drop from words.now)))) }
{
    let rest = tail(words, from);
    signature.extend_from_slice(name)?;
    push_numberless(signature, &rest[..place_of_words(end, rest)])
}

fn symbol_of(name: &[u8]) -> &[u8]
    ensures { result.now ≡ symbol_of name.now }
{
    part(name, 0, run_from(name, 1, Class::Symbol))
}

fn push_function(
    signature: &mut Vec<u8>,
    text: &[u8],
    function: Option<Span>,
) -> Result<(), AllocError>
    ensures { OnOk result (signature.new.items ≡ signature.old.items ++ in_function text.now function) }
{
    match function {
        Some(span) => {
            signature.extend_from_slice(b" in ")?;
            signature.extend_from_slice(symbol_of(part(text, span.start, span.end)))
        }
        None => Ok(()),
    }
}

fn blamed(blame: Blame, text: &[u8], death: &Death) -> Option<Span>
    ensures { result ≡ blamed blame text.now death.now }
{
    match blame {
        Blame::Nobody => None,
        Blame::Report => death.function,
        Blame::Line => place_in(text, Some(death.telling)).or(death.function),
    }
}

fn words_of(text: &[u8], line: Line) -> &[u8]
    ensures { result.now ≡ words_of text.now line }
{
    let words = said(text, line);
    if begins(words, Mark::Numbered) {
        unnumbered(words)
    } else {
        words
    }
}

// The message of a check, else the telling line.
fn signed_by(text: &[u8], telling: Line, message: Option<Line>) -> Line
    ensures { result ≡ signed_by text.now telling message }
{
    match message {
        Some(message) => {
            if is_a(text, Mark::Message, message) {
                message
            } else {
                telling
            }
        }
        None => telling,
    }
}

fn signed_words<'a>(text: &'a [u8], death: &Death) -> &'a [u8]
    ensures { result.now ≡ signed_words text.now death.now }
{
    words_of(text, signed_by(text, death.telling, death.message))
}

/// A name for a death, such as `BUG: kernel NULL pointer dereference in boom_write`: what the telling line says without
/// its numbers, and the function without its place.
#[tactic(auto, unfolding(death_spec::specs::Signatures::signature_of))]
pub fn signature(alloc: Global, text: &[u8], death: &Death) -> Result<Vec<u8>, AllocError>
    ensures { IfOk result (λ signature. signature.items ≡ signature_of text.now death.now) }
{
    let mut signature = Vec::new(alloc);
    let blame = push_kind(&mut signature, KINDS, signed_words(text, death))?;
    push_function(&mut signature, text, blamed(blame, text, death))?;
    Ok(signature)
}
