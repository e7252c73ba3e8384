// The properties of the nodes.
ghost use Rattle.std.specs.Prelude.{◌≡◌, ◌+◌, ◌-◌, ◌<◌, ◌≤◌, ◌^◌, nat_lt, codes, length, slice_index, flat_map, ◌++◌};
ghost use Rattle.std.specs.Prelude.{IfOk, IfSome, OnOk};
ghost use Rattle.dtb_spec.specs.Cells.{span_of};
ghost use Rattle.dtb_spec.specs.Properties.{name_at, path_of, properties_from, value_among, value_of};
ghost use Rattle.dtb_spec.specs.Ramoops.{number_of, parent_number};
ghost use Rattle.dtb.specs.Inside.{IsInside};

use crate::cells::{cell, until};
use crate::tokens::token;
use dtb_spec::{Fault, Span, Token};
use std::alloc::{AllocError, Global};

// The largest number that the kernel takes (`INT_MAX`).
const LARGEST: u32 = 0x7fff_ffff;

// The value of the first property of this name, from a place on.
fn value_from(structure: &[u8], strings: &[u8], key: &[u8], from: usize) -> Option<Span>
    ensures value { result ≡ value_among strings.now key.now
        (properties_from structure.now strings.now (length structure.now + 1) from) }
    ensures inside { IfSome result (λ v. IsInside structure.now v) }
{
    let mut at = from;
    while let Ok((found, next)) = token(structure, strings, at) {
        match found {
            Token::Prop(property) => {
                let name = property.name;
                if &strings[name.from..name.from + name.len] == key {
                    return Some(property.value);
                }
            }
            Token::Nop => {}
            Token::BeginNode(_) => return None,
            Token::EndNode => return None,
            Token::End => return None,
        }
        at = next;
    }
    None
}

/// The value of a property of the node that begins at a place.
#[tactic(auto, unfolding(dtb_spec::specs::Properties::value_of))]
pub fn value(structure: &[u8], strings: &[u8], key: &[u8], node: usize) -> Option<Span>
    ensures value { result ≡ value_of structure.now strings.now key.now node }
    ensures inside { IfSome result (λ v. IsInside structure.now v) }
{
    match token(structure, strings, node) {
        Ok((_, at)) => value_from(structure, strings, key, at),
        Err(_) => None,
    }
}

/// The first cell of a property, or the default if the node has no such property.
pub fn number(
    structure: &[u8],
    strings: &[u8],
    key: &[u8],
    default: u32,
    node: usize,
) -> Result<u32, Fault>
    ensures { result ≡ number_of structure.now strings.now key.now default node }
{
    match value(structure, strings, key, node) {
        None => Ok(default),
        Some(value) => {
            if value.len < 4 {
                return Err(Fault::TooShort);
            }
            let first = cell(structure, value.from);
            if first > LARGEST {
                return Err(Fault::TooLarge);
            }
            Ok(first)
        }
    }
}

/// The same of the parent of the last node of a line.
pub fn parent_number(
    structure: &[u8],
    strings: &[u8],
    key: &[u8],
    default: u32,
    line: &[usize],
) -> Result<u32, Fault>
    ensures { result ≡ parent_number structure.now strings.now key.now default line.now }
{
    if line.len() < 2 {
        return Err(Fault::Reg);
    }
    number(structure, strings, key, default, line[line.len() - 2])
}

/// The name of the node that begins at a place.
#[tactic(auto, unfolding(dtb_spec::specs::Properties::name_at))]
pub fn name(structure: &[u8], node: usize) -> &[u8]
    ensures { result.now ≡ name_at structure.now node }
{
    if node > structure.len() || structure.len() - node < 4 {
        return &structure[..0];
    }
    until(&structure[node + 4..], 0)
}

// Appends the names of these nodes, each after a `/`.
fn add_names(structure: &[u8], nodes: &[usize], path: &mut Vec<u8>) -> Result<(), AllocError>
    ensures { OnOk result (path.new.items
        ≡ path.old.items ++ flat_map (λ node. codes "/" ++ name_at structure.now node) nodes.now) }
{
    for node in nodes {
        path.push(b'/')?;
        path.extend_from_slice(name(structure, *node))?;
    }
    Ok(())
}

/// The path of the last node of a line.
pub fn path(alloc: Global, structure: &[u8], line: &[usize]) -> Result<Vec<u8>, AllocError>
    ensures { IfOk result (λ path. path.items ≡ path_of structure.now line.now) }
{
    let mut path = Vec::new(alloc);
    if line.len() < 2 {
        path.push(b'/')?;
    } else {
        add_names(structure, &line[1..], &mut path)?;
    }
    Ok(path)
}
