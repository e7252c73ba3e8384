// Lines that speak of one record, by the text of its name.
ghost use Rattle.blk_session.specs.Lines.{IsExtract};

use crate::errors::LineError;
use crate::texts::extract_text;
use outside::Bytes;
use script_spec::Cause;
use std::alloc::{AllocError, Global};
use zone_blk::Blk;

/// A record's name, length and content.
pub fn extract(alloc: Global, blk: &Blk, name: &Bytes) -> Result<Vec<u8>, LineError>
    ensures { IsExtract blk.now name.now result }
{
    match blk.find(name.as_slice()) {
        Some(name) => match extract_text(alloc, blk, name) {
            Ok(text) => Ok(text),
            Err(AllocError) => Err(LineError::Memory),
        },
        None => Err(LineError::Refused(Cause::NoRecord)),
    }
}
