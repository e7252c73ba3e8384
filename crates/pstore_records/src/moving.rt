// The listed records as a move to another layout tells of them.
ghost use Rattle.std.specs.Prelude.{◌≡◌, map, IfOk};
ghost use Rattle.zone_spec.specs.Records.{listed_of};
ghost use Rattle.ramoops_layout.specs.Laid.{zones_of};
ghost use Rattle.machine_spec.specs.Moved.{fits};
ghost use Rattle.prz_read.specs.Saving.{saved};
ghost use Rattle.pstore_records.specs.Moves.{move_of};
ghost use Rattle.pstore_records.specs.Walks.{IsCounted, listed_in};

use crate::fitting::{fits, fits_at};
use crate::walk::{Source, content_len, counts_by, walk};
use prz_read::Logs;
use ramoops_layout::types::Layout;
use std::alloc::{AllocError, Global};
use zone_spec::Name;

/// What is told of a record: its name, the length in bytes of its content without a notice, what its zones count, and
/// whether it fits.
#[derive(Clone, Copy, Debug, PartialEq, Eq)]
pub struct Move {
    pub name: Name,
    pub len: u128,
    pub corrected: u64,
    pub bad: u64,
    pub fits: bool,
}

/// Whether the record fits the layout.
fn fits_source(logs: &Logs, layout: &Layout, source: &Source<'_>) -> bool
    requires { IsCounted (saved logs.now) source.now }
    ensures { result ≡ fits (zones_of layout.now) (saved logs.now) source.now.name }
{
    match source.zone {
        Some(i) => fits_at(logs, layout, i, source.name),
        None => fits(logs, layout, source.name),
    }
}

fn moved(logs: &Logs, layout: &Layout, source: &Source<'_>) -> Move
    requires { IsCounted (saved logs.now) source.now }
    ensures { result ≡ move_of (zones_of layout.now) (saved logs.now) (listed_in (saved logs.now) source.now) }
{
    let counts = counts_by(logs, source);
    Move {
        name: source.name,
        len: content_len(logs, source),
        corrected: counts.corrected,
        bad: counts.bad,
        fits: fits_source(logs, layout, source),
    }
}

/// What is told of each listed record, in order, where it is moved to this layout.
pub fn moves(alloc: Global, logs: &Logs, layout: &Layout) -> Result<Vec<Move>, AllocError>
    ensures { IfOk result (λ moves. moves.items
        ≡ map (move_of (zones_of layout.now) (saved logs.now)) (listed_of (saved logs.now))) }
{
    let sources = walk(alloc, logs)?;
    let mut moves = Vec::new(alloc);
    for source in &sources {
        moves.push(moved(logs, layout, source))?;
    }
    Ok(moves)
}
