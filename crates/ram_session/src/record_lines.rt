// Lines that speak of one record.
ghost use Rattle.std.specs.Prelude.{◌≡◌, MatchResult};
ghost use Rattle.std.specs.Option.{option_map};
ghost use Rattle.zone_spec.specs.Names.{IsNameOf};
ghost use Rattle.pstore_records.specs.Candidates.{IsCandidate};
ghost use Rattle.zone_spec.specs.Records.{Listed};
ghost use Rattle.prz_read.specs.Saving.{saved};
ghost use Rattle.grammar_spec.specs.declared.line.Line.TheVariants.{Extract};
ghost use Rattle.script_spec.specs.Scripts.{named as record_named};
ghost use Rattle.ram_session.specs.Records.{IsContent};
ghost use Rattle.ram_session.specs.Sessions.{Live as LiveStore, LineDone, LineFails};
ghost use Rattle.ramoops.specs.LiveSeen.{LiveSeen};

use crate::machine::LineError;
use crate::texts::extract_text;
use outside::Bytes;
use prz_read::Logs;
use pstore_records::{ContentFault, Name, content, find, length};
use script_spec::Cause;
use std::alloc::Global;
use std::str;

fn name_of(text: &[u8]) -> Option<Name>
    ensures name { IsNameOf text.now result }
    ensures only { IsCandidate text.now result }
{
    match str::from_utf8(text) {
        Ok(text) => find(text),
        Err(_) => None,
    }
}

// The name of the listed record whose name has this text.
pub(crate) fn named(logs: &Logs, text: &[u8]) -> Option<Name>
    ensures { result ≡ option_map (λ (r : Listed). r.name) (record_named (saved logs.now) text.now) }
{
    // The number of each zone has 32 bits.
    let _numbered = logs.len();
    let name = name_of(text)?;
    length(logs, name)?;
    Some(name)
}

/// A record's name, length and content.
pub fn extract(alloc: Global, logs: &Logs, name: &Bytes) -> Result<Vec<u8>, LineError>
    ensures { (live : LiveSeen) → MatchResult result (λ text. LineDone (LiveStore live logs.now) (Extract name.now)
        (LiveStore live logs.now) text.items)
        (LineFails (LiveStore live logs.now) (Extract name.now)) }
{
    match named(logs, name.as_slice()) {
        Some(name) => match extract_text(alloc, logs, name) {
            Ok(text) => Ok(text),
            Err(ContentFault::NoRecord) => Err(LineError::Refused(Cause::NoRecord)),
            Err(ContentFault::Memory) => Err(LineError::Memory),
        },
        None => Err(LineError::Refused(Cause::NoRecord)),
    }
}

/// The content of the listed record whose name has this text, with its notice.
pub fn content_of(alloc: Global, logs: &Logs, name: &[u8]) -> Result<Bytes, LineError>
    ensures { IsContent (saved logs.now) name.now result }
{
    match named(logs, name) {
        Some(name) => match content(alloc, logs, name) {
            Ok(bytes) => Ok(bytes),
            Err(ContentFault::NoRecord) => Err(LineError::Refused(Cause::NoRecord)),
            Err(ContentFault::Memory) => Err(LineError::Memory),
        },
        None => Err(LineError::Refused(Cause::NoRecord)),
    }
}
