// The logs of the ftrace zones.
ghost use Rattle.std.specs.Prelude.{◌≡◌, ℕ, List, map, IfOk};
ghost use Rattle.std.specs.Borrow.{Bor};
ghost use Rattle.zone_spec.specs.Records.{logs_of};
ghost use Rattle.prz_read.specs.Saving.{saved};

use crate::zones::log_at;
use prz_read::Logs;
use std::alloc::{AllocError, Global};
use zone_spec::Kind;

/// The logs of the ftrace zones that were found, from the first zone on. No log is copied.
pub fn ftrace_logs(alloc: Global, logs: &Logs) -> Result<Vec<&[u8]>, AllocError>
    ensures { IfOk result (λ all. map (λ (log : Bor (List ℕ)). log.now) all.items
        ≡ logs_of Kind.Ftrace (saved logs.now)) }
{
    let mut all = Vec::new(alloc);
    for i in 0..logs.len() {
        if let Some(log) = log_at(logs, i, Kind::Ftrace) {
            all.push(log)?;
        }
    }
    Ok(all)
}
