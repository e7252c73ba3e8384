// The tokens of the structure block.
ghost use Rattle.std.specs.Prelude.{◌≡◌, ◌+◌, ◌≤◌, ℕ, List, length, IfOk};
ghost use Rattle.dtb_spec.specs.Cells.{text_len as text_len_at};
ghost use Rattle.dtb_spec.specs.Tokens.{node_named, token_at, property_at};
ghost use Rattle.dtb.specs.Inside.{IsTokenInside};

use crate::cells::{cell, padded, text_len};
use dtb_spec::{Fault, Property, Span, Token};

// The property at a place.
#[tactic(auto, unfolding(dtb_spec::specs::Tokens::property_at))]
fn property(structure: &[u8], strings: &[u8], at: usize) -> Result<(Token, usize), Fault>
    requires { at ≤ length structure.now }
    ensures value { result ≡ property_at structure.now strings.now at }
    ensures further { IfOk result (λ t. (at + 4 ≤ t.1) × (t.1 ≤ length structure.now + 3)) }
    ensures inside { IfOk result (λ t. IsTokenInside structure.now strings.now t.0) }
{
    let there = structure.len() - at;
    if there < 12 {
        return Err(Fault::EndMissing);
    }
    let len = cell(structure, at + 4) as usize;
    let from = cell(structure, at + 8) as usize;
    if there - 12 < len {
        return Err(Fault::EndMissing);
    }
    match text_len(strings, from) {
        None => Err(Fault::Unended),
        Some(name_len) => Ok((
            Token::Prop(Property {
                name: Span {
                    from,
                    len: name_len,
                },
                value: Span { from: at + 12, len },
            }),
            at + 12 + padded(len),
        )),
    }
}

// The beginning of a node.
fn begin(structure: &[u8], at: usize) -> Result<(Token, usize), Fault>
    requires { at + 4 ≤ length structure.now }
    ensures value { result ≡ node_named at (text_len_at structure.now (at + 4)) }
    ensures further { IfOk result (λ t. (at + 4 ≤ t.1) × (t.1 ≤ length structure.now + 3)) }
    ensures inside { (strings : List ℕ) → IfOk result (λ t. IsTokenInside structure.now strings t.0) }
{
    match text_len(structure, at + 4) {
        None => Err(Fault::Unended),
        Some(len) => Ok((
            Token::BeginNode(Span { from: at + 4, len }),
            at + 4 + padded(len + 1),
        )),
    }
}

/// The token at a place, and the place after it.
#[tactic(auto, unfolding(dtb_spec::specs::Tokens::token_at))]
pub fn token(structure: &[u8], strings: &[u8], at: usize) -> Result<(Token, usize), Fault>
    ensures value { result ≡ token_at structure.now strings.now at }
    ensures further { IfOk result (λ t. (at + 4 ≤ t.1) × (t.1 ≤ length structure.now + 3)) }
    ensures inside { IfOk result (λ t. IsTokenInside structure.now strings.now t.0) }
{
    if structure.len() < at || structure.len() - at < 4 {
        return Err(Fault::EndMissing);
    }
    match cell(structure, at) {
        1 => begin(structure, at),
        2 => Ok((Token::EndNode, at + 4)),
        3 => property(structure, strings, at),
        4 => Ok((Token::Nop, at + 4)),
        9 => Ok((Token::End, at + 4)),
        _ => Err(Fault::UnknownToken),
    }
}
