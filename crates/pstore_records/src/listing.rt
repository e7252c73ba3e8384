// The names of the listed records.
ghost use Rattle.std.specs.Prelude.{◌≡◌, map, IfOk};
ghost use Rattle.zone_spec.specs.Records.{Listed, listed_of};
ghost use Rattle.prz_read.specs.Saving.{saved};

use crate::types::Names;
use crate::walk::walk;
use prz_read::Logs;
use std::alloc::{AllocError, Global};

/// The names of the listed records in order, each zone's own: dumps by rising number, console, pmsg, ftrace
/// (`fs/pstore/ram.c`, `ramoops_pstore_read`). No content is copied or merged.
pub fn names(alloc: Global, logs: &Logs) -> Result<Names, AllocError>
    ensures { IfOk result (λ names. names.items ≡ map (λ (r : Listed). r.name) (listed_of (saved logs.now))) }
{
    let sources = walk(alloc, logs)?;
    let mut names = Vec::new(alloc);
    for source in &sources {
        names.push(source.name)?;
    }
    Ok(names)
}
