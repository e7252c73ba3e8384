// The walk over the tokens, which finds the ramoops nodes.
ghost use Rattle.std.specs.Prelude.{◌≡◌, ◌+◌, ◌-◌, ◌<◌, ◌≤◌, ◌++◌, ℕ, List, [], ◌∷◌, filter, length, false, IfOk, OnOk};
ghost use Rattle.dtb_spec.specs.Trees.{begun, follow as followed};
ghost use Rattle.dtb.specs.Walks.{point_of, lines_in, is_found, Holds, Begins, Follows, GivesLines};

use crate::DtbError;
use crate::ramoops::{is_ramoops, own};
use crate::tokens::token;
use dtb_spec::{Fault, Token};
use std::alloc::{AllocError, Global};

// How many nodes may stand within each other.
const DEEPEST: usize = 64;

/// How far the walk has come: the nodes that are open, whether a property may come, whether the root came, and the
/// ramoops nodes so far, each as the line of nodes from the root to itself.
#[derive(Drop)]
pub struct Walk {
    pub at: usize,
    pub line: Vec<usize>,
    pub may_have: bool,
    pub rooted: bool,
    pub found: Vec<Vec<usize>>,
}

// Keeps the line if its last node is a ramoops node.
fn keep(
    alloc: Global,
    structure: &[u8],
    strings: &[u8],
    line: &[usize],
    found: &mut Vec<Vec<usize>>,
) -> Result<(), AllocError>
    ensures { OnOk result (lines_in found.new
        ≡ lines_in found.old ++ filter (is_found structure.now strings.now) (line.now ∷ [])) }
{
    if is_ramoops(structure, strings, own(line)) {
        let line = Vec::from_slice(alloc, line)?;
        found.push(line)?;
    }
    Ok(())
}

// A node that begins here.
fn begin(
    alloc: Global,
    structure: &[u8],
    strings: &[u8],
    walk: &mut Walk,
    next: usize,
) -> Result<(), DtbError>
    ensures value { (lines : List (List ℕ)) → Holds structure.now strings.now walk.old lines
        → Begins structure.now strings.now (begun (point_of walk.old lines) next) walk.new result }
    ensures at { OnOk result (walk.new.at ≡ next) }
{
    if walk.rooted && walk.line.is_empty() {
        return Err(DtbError::Broken(Fault::Roots));
    }
    if walk.line.len() >= DEEPEST {
        return Err(DtbError::Broken(Fault::TooDeep));
    }
    let node = walk.at;
    walk.line.push(node)?;
    keep(alloc, structure, strings, &walk.line, &mut walk.found)?;
    walk.at = next;
    walk.may_have = true;
    walk.rooted = true;
    Ok(())
}

// Does what a token says; true at the last one.
fn follow(
    alloc: Global,
    structure: &[u8],
    strings: &[u8],
    walk: &mut Walk,
    token: Token,
    next: usize,
) -> Result<bool, DtbError>
    ensures value { (lines : List (List ℕ)) → Holds structure.now strings.now walk.old lines
        → Follows structure.now strings.now (followed (point_of walk.old lines) token next) walk.new result }
    ensures at { IfOk result (λ last. last ≡ false → walk.new.at ≡ next) }
{
    match token {
        Token::BeginNode(_) => {
            begin(alloc, structure, strings, walk, next)?;
            Ok(false)
        }
        Token::EndNode => {
            if walk.line.pop().is_none() {
                return Err(DtbError::Broken(Fault::EndOutside));
            }
            walk.may_have = false;
            walk.at = next;
            Ok(false)
        }
        Token::Prop(_) => {
            if !walk.may_have {
                return Err(DtbError::Broken(Fault::PropertyOutside));
            }
            walk.at = next;
            Ok(false)
        }
        Token::Nop => {
            walk.at = next;
            Ok(false)
        }
        Token::End => {
            if !walk.line.is_empty() {
                return Err(DtbError::Broken(Fault::EndMissing));
            }
            if !walk.rooted {
                return Err(DtbError::Broken(Fault::Roots));
            }
            Ok(true)
        }
    }
}

/// The ramoops nodes, each as the line of nodes from the root to itself.
pub fn lines(alloc: Global, structure: &[u8], strings: &[u8]) -> Result<Vec<Vec<usize>>, DtbError>
    ensures { GivesLines structure.now strings.now result }
{
    let mut walk = Walk {
        at: 0,
        line: Vec::new(alloc),
        may_have: false,
        rooted: false,
        found: Vec::new(alloc),
    };
    loop {
        let (token, next) = token(structure, strings, walk.at)?;
        if follow(alloc, structure, strings, &mut walk, token, next)? {
            return Ok(walk.found);
        }
    }
}
