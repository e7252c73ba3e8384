// A script's lines, read.
ghost use Rattle.std.specs.Prelude.{◌≡◌, ◌+◌, ◌≤◌, ◌^◌, ◌==◌, ℕ, List, [], ◌∷◌, ◌++◌, MatchResult, IfOk, OnOk, Ok, None};
ghost use Rattle.std.specs.List.{slice_split};
ghost use Rattle.grammar_spec.specs.Lines.{line_of, script_of};
ghost use Rattle.grammar_spec.specs.Printed.{AllHaveFields};
ghost use Rattle.script.specs.Reading.{ReadsLine, IsFaultOf};
ghost use Rattle.script.specs.Pieces.{HasRead, IsFaultBehind};
ghost use Rattle.script.specs.declared.reading.ParseFault.TheVariants.{Memory};

use crate::rows::{self, LineFault};
use crate::{Line, Lines};
use memchr::memchr;
use std::alloc::{AllocError, AllocFailed, Global};
use std::marker::Model;
use thiserror::Error;

/// Why a script was not read.
#[derive(Clone, Copy, Debug, PartialEq, Eq, Error)]
pub enum ParseFault {
    /// The first line outside the grammar, counted from 1.
    #[error("bad line {0}")]
    BadLine(u32),
    #[error("no memory")]
    Memory,
}

impl From<AllocError> for ParseFault {
    ghost from_gives = { λ _ e. e ≡ Memory };

    fn from(_e: AllocError) -> ParseFault {
        ParseFault::Memory
    }
}

impl<T: Drop> From<AllocFailed<T>> for ParseFault {
    ghost from_gives = { λ _ e. e ≡ Memory };

    fn from(_e: AllocFailed<T>) -> ParseFault {
        ParseFault::Memory
    }
}

fn read_line(alloc: Global, text: &[u8], number: u32) -> Result<Line, ParseFault>
    ensures { ReadsLine number result (line_of text.now) }
{
    match rows::line_of(alloc, text) {
        Ok(line) => Ok(line),
        Err(LineFault::Bad) => Err(ParseFault::BadLine(number)),
        Err(LineFault::Memory) => Err(ParseFault::Memory),
    }
}

/// The number of the line after so many, or out of memory if 32 bits do not count it.
fn number_after(count: usize) -> Result<u32, ParseFault>
    ensures { MatchResult result (λ number. number ≡ count + 1) (λ fault. (fault ≡ Memory) × (2 ^ 32 ≤ count + 1)) }
{
    if count < u32::MAX as usize {
        Ok(count as u32 + 1)
    } else {
        Err(ParseFault::Memory)
    }
}

// Reads the lines at the front of a text, each ended by a newline, and gives what stands behind the last newline.
fn read_front<'a>(
    alloc: Global,
    lines: &mut Vec<Line>,
    text: &'a [u8],
) -> Result<&'a [u8], ParseFault>
    ensures read { (given : List ℕ) → HasRead given lines.old.items text.now → MatchResult result
        (λ rest. HasRead given lines.new.items rest.now) (λ fault. IsFaultBehind fault given) }
    ensures end { IfOk result (λ rest. slice_split (λ b. b == 0x0a) rest.now ≡ rest.now ∷ []) }
{
    let mut rest = text;
    while let Some((line, after)) = rows::cut(rest, b'\n') {
        let number = number_after(lines.len())?;
        let line = match read_line(alloc, line, number) {
            Ok(line) => line,
            Err(fault) => return Err(fault),
        };
        lines.push(line)?;
        rest = after;
    }
    Ok(rest)
}

// The lines of a script, of which this stands behind the last newline.
fn all_lines(lines: Vec<Line>, rest: &[u8]) -> Result<Lines, ParseFault>
    requires { slice_split (λ b. b == 0x0a) rest.now ≡ rest.now ∷ [] }
    ensures { (given : List ℕ) → HasRead given lines.items rest.now → MatchResult result
        (λ lines. script_of given ≡ Ok lines) (λ fault. IsFaultOf fault (script_of given)) }
{
    if !rest.is_empty() {
        let last = number_after(lines.len())?;
        return Err(ParseFault::BadLine(last));
    }
    Ok(Lines::from_vec(lines))
}

// The lines of a script, of which this was not read yet.
fn read_end(alloc: Global, lines: Vec<Line>, rest: &[u8]) -> Result<Lines, ParseFault>
    ensures { (given : List ℕ) → HasRead given lines.items rest.now → MatchResult result
        (λ lines. script_of given ≡ Ok lines) (λ fault. IsFaultOf fault (script_of given)) }
{
    let mut lines = lines;
    match read_front(alloc, &mut lines, rest) {
        Ok(rest) => all_lines(lines, rest),
        Err(fault) => Err(fault),
    }
}

/// A script that is read piece by piece.
#[derive(Drop)]
pub struct Reading {
    alloc: Global,
    lines: Vec<Line>,
    // What stands behind the last newline.
    rest: Vec<u8>,
    // The first line outside the grammar: no line after it is read.
    bad: Option<u32>,
}

impl Model for Reading {
    ghost use Rattle.script.specs.Pieces.{ReadingSeen};

    ghost Value = { ReadingSeen };

    ghost view = { λ r. record { lines = r.lines.items; rest = r.rest.items; bad = r.bad } };
}

impl Reading {
    ghost use Rattle.script.specs.Pieces.{HasTaken};

    /// Nothing read yet. Takes no memory.
    pub fn new(alloc: Global) -> Reading
        ensures { HasTaken result [] }
    {
        Reading {
            alloc,
            lines: Vec::new(alloc),
            rest: Vec::new(alloc),
            bad: None,
        }
    }

    // Reads the lines that end in the next piece, where no line was bad before. What ends no line is not read again with
    // each piece, so that a long line takes linear time.
    fn read_on(&mut self, piece: &[u8]) -> Result<(), AllocError>
        requires { self.old.bad ≡ None }
        ensures { (given : List ℕ) → HasRead given self.old.lines self.old.rest
            → OnOk result (HasTaken self.new (given ++ piece.now)) }
    {
        self.rest.extend_from_slice(piece)?;
        if memchr(b'\n', piece).is_none() {
            return Ok(());
        }
        match read_front(self.alloc, &mut self.lines, &self.rest) {
            Ok(rest) => {
                let rest = Vec::from_slice(self.alloc, rest)?;
                self.rest = rest;
                Ok(())
            }
            Err(ParseFault::BadLine(number)) => {
                self.bad = Some(number);
                Ok(())
            }
            Err(ParseFault::Memory) => Err(AllocError),
        }
    }

    /// Takes the next piece of the script, and reads the lines that end in it.
    pub fn take(&mut self, piece: &[u8]) -> Result<(), AllocError>
        ensures { (given : List ℕ) → HasTaken self.old given → OnOk result (HasTaken self.new (given ++ piece.now)) }
    {
        match self.bad {
            Some(_) => Ok(()),
            None => self.read_on(piece),
        }
    }

    /// The lines of the pieces taken. Where 32 bits do not count them, the answer is out of memory.
    pub fn end(self) -> Result<Lines, ParseFault>
        ensures read { (given : List ℕ) → HasTaken self given → MatchResult result
            (λ lines. script_of given ≡ Ok lines)
            (λ fault. IsFaultOf fault (script_of given)) }
        ensures fields { (given : List ℕ) → HasTaken self given → IfOk result AllHaveFields }
    {
        let Reading {
            alloc,
            lines,
            rest,
            bad,
        } = self;
        match bad {
            Some(number) => Err(ParseFault::BadLine(number)),
            None => read_end(alloc, lines, &rest),
        }
    }
}

/// The lines of a script, each ended by a newline. Where 32 bits do not count its lines, the answer is out of memory.
pub fn parse(alloc: Global, script: &[u8]) -> Result<Lines, ParseFault>
    ensures read { MatchResult result
        (λ lines. script_of script.now ≡ Ok lines)
        (λ fault. IsFaultOf fault (script_of script.now)) }
    ensures fields { IfOk result AllHaveFields }
{
    let mut reading = Reading::new(alloc);
    reading.take(script)?;
    reading.end()
}
