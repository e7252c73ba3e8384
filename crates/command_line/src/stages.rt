// The stage of a run that reads its script.
ghost use Rattle.std.specs.Prelude.{◌<◌, ◌≤◌, ◌^◌, ◌≡◌, length, vec_len, IfOk, IfErr, OnOk, IfSome, MatchResult};
ghost use Rattle.std.specs.Io.KnownBytes.{IsAtEnd};
ghost use Rattle.grammar_spec.specs.Printed.{AllHaveFields};
ghost use Rattle.command_spec.specs.Commands.{script_limit};
ghost use Rattle.script_spec.specs.Playing.{KeptUnless};
ghost use Rattle.command_line.specs.Stages.{IsTaken, ReadLines, ScriptStop};

use crate::Stop;
use outside::{Failed, Source};
use script::{Lines, ParseFault, Reading};
use std::alloc::Global;

const SCRIPT_LIMIT: usize = 4_194_304;

// Takes a script to its end, and reads its lines as they come.
fn take_script<S: Source>(alloc: Global, script: &mut S) -> Result<Reading, Stop>
    ensures ok { IfOk result (λ r. IsTaken (S.left script.old) r) }
    ensures end { OnOk result (IsAtEnd (S.left script.new)) }
    ensures err { IfErr result (λ s. ScriptStop s (S.left script.old) (S.left script.new) (S.faults script.old)
        (S.faults script.new)) }
    ensures counts { KeptUnless Stop.ScriptFault result (S.faults script.old) (S.faults script.new) }
    ensures later { S.faults script.old ≤ S.faults script.new }
{
    let mut reading = Reading::new(alloc);
    let mut len = 0;
    let mut piece = [0u8; 32768];
    'pieces: loop {
        let count = match script.take(&mut piece) {
            Ok(count) => count,
            Err(Failed) => return Err(Stop::ScriptFault),
        };
        if count == 0 {
            return Ok(reading);
        }
        if count > SCRIPT_LIMIT - len {
            return Err(Stop::TooLong);
        }
        reading.take(&piece[..count])?;
        len += count;
    }
}

/// Reads a script to its end, and its lines.
pub fn read_lines<S: Source>(alloc: Global, script: &mut S) -> Result<Lines, Stop>
    ensures read { MatchResult result (λ lines. ReadLines lines (S.left script.old) (S.left script.new))
        (λ s. ScriptStop s (S.left script.old) (S.left script.new) (S.faults script.old) (S.faults script.new)) }
    ensures fields { IfOk result AllHaveFields }
    ensures few { IfOk result (λ lines. length lines < 2 ^ 32) }
    ensures counts { KeptUnless Stop.ScriptFault result (S.faults script.old) (S.faults script.new) }
    ensures later { S.faults script.old ≤ S.faults script.new }
{
    let reading = match take_script(alloc, script) {
        Ok(reading) => reading,
        Err(stop) => return Err(stop),
    };
    match reading.end() {
        Ok(lines) => Ok(lines),
        Err(ParseFault::Memory) => Err(Stop::Memory),
        Err(ParseFault::BadLine(line)) => Err(Stop::BadLine(line)),
    }
}
