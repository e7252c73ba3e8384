//! A reader of flattened device trees (Devicetree Specification v0.4, section 5), for the ramoops nodes of a board. It
//! reads a node's numbers as the kernel does (`fs/pstore/ram.c`, `ramoops_parse_dt`).
#![tactic(auto)]

ghost use Rattle.std.specs.Prelude.{◌≡◌, ◌<◌, ◌≤◌, ◌^◌, IfOk};
ghost use Rattle.dtb_spec.specs.Headers.{fits as fits_in, header_of};
ghost use Rattle.dtb_spec.specs.Ramoops.{node_of, nodes_between};
ghost use Rattle.dtb.specs.Inside.{IsInside};
ghost use Rattle.dtb.specs.ReaderAnswers.{GivesNode, Answers, IsRead};

mod cells;
mod properties;
mod ramoops;
mod tokens;
mod trees;

pub use dtb_spec::{Fault, Numbers};
use dtb_spec::{Header, Span};
use std::alloc::{AllocError, AllocFailed, Global};

/// A ramoops node: its path, and its numbers.
#[derive(Debug, Drop)]
pub struct Node {
    pub path: Vec<u8>,
    pub numbers: Numbers,
}

/// Why there is no answer: no memory, or a fault of the tree.
#[derive(Clone, Copy, Debug, Drop)]
pub enum DtbError {
    Memory,
    Broken(Fault),
}

impl From<AllocError> for DtbError {
    ghost use Rattle.dtb.specs.declared.DtbError.TheVariants.{Memory};

    ghost from_gives = { λ _ e. e ≡ Memory };

    fn from(error: AllocError) -> DtbError {
        DtbError::Memory
    }
}

impl<T: Drop> From<AllocFailed<T>> for DtbError {
    ghost use Rattle.dtb.specs.declared.DtbError.TheVariants.{Memory};

    ghost from_gives = { λ _ e. e ≡ Memory };

    fn from(error: AllocFailed<T>) -> DtbError {
        DtbError::Memory
    }
}

impl From<Fault> for DtbError {
    ghost use Rattle.dtb.specs.declared.DtbError.TheVariants.{Broken};

    ghost from_gives = { λ fault e. e ≡ Broken fault };

    fn from(fault: Fault) -> DtbError {
        DtbError::Broken(fault)
    }
}

// Whether a block lies after the header, within so many bytes.
fn fits(total: usize, span: Span) -> bool
    requires from { span.from < 2 ^ 32 }
    requires len { span.len < 2 ^ 32 }
    ensures { result ≡ fits_in total span }
{
    40 <= span.from && span.from + span.len <= total
}

// Where the blocks lie.
#[tactic(auto, unfolding(dtb_spec::specs::Headers::header_of))]
fn header(bytes: &[u8]) -> Result<Header, Fault>
    ensures value { result ≡ header_of bytes.now }
    ensures inside { IfOk result (λ h. IsInside bytes.now h.structure × IsInside bytes.now h.strings) }
{
    if bytes.len() < 40 || cells::cell(bytes, 0) != 0xd00d_feed {
        return Err(Fault::NoMagic);
    }
    if cells::cell(bytes, 20) < 17 || 17 < cells::cell(bytes, 24) {
        return Err(Fault::Version);
    }
    let total = cells::cell(bytes, 4) as usize;
    let structure = Span {
        from: cells::cell(bytes, 8) as usize,
        len: cells::cell(bytes, 36) as usize,
    };
    let strings = Span {
        from: cells::cell(bytes, 12) as usize,
        len: cells::cell(bytes, 32) as usize,
    };
    let reserved = Span {
        from: cells::cell(bytes, 16) as usize,
        len: 16,
    };
    if total <= bytes.len()
        && fits(total, structure)
        && fits(total, strings)
        && fits(total, reserved)
        && structure.from % 4 == 0
        && reserved.from % 8 == 0
    {
        return Ok(Header { structure, strings });
    }
    Err(Fault::Outside)
}

// One ramoops node.
fn one_node(
    alloc: Global,
    structure: &[u8],
    strings: &[u8],
    line: &[usize],
) -> Result<Node, DtbError>
    ensures { GivesNode result (node_of structure.now strings.now line.now) }
{
    let numbers = ramoops::numbers(structure, strings, line)?;
    let numbers = ramoops::settled(ramoops::is_reserved(structure, line), numbers);
    let path = properties::path(alloc, structure, line)?;
    Ok(Node { path, numbers })
}

// The ramoops nodes between the two blocks.
fn nodes(alloc: Global, structure: &[u8], strings: &[u8]) -> Result<Vec<Node>, DtbError>
    ensures { Answers result (nodes_between structure.now strings.now) }
{
    let lines = trees::lines(alloc, structure, strings)?;
    let mut nodes = Vec::new(alloc);
    for line in &lines {
        nodes.push(one_node(alloc, structure, strings, line)?)?;
    }
    Ok(nodes)
}

/// The ramoops nodes of a device tree, in their order, or the first fault, unless memory runs out. A node is a ramoops
/// node if its `compatible` lists `ramoops`, and its `status`, if it has one, is `okay` or `ok`.
pub fn ramoops_nodes(alloc: Global, bytes: &[u8]) -> Result<Vec<Node>, DtbError>
    ensures { IsRead bytes.now result }
{
    let header = header(bytes)?;
    let structure = header.structure;
    let strings = header.strings;
    nodes(
        alloc,
        &bytes[structure.from..structure.from + structure.len],
        &bytes[strings.from..strings.from + strings.len],
    )
}
