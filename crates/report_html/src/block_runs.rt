// Neighbouring blocks of a zone that read alike.
ghost use Rattle.std.specs.Prelude.{◌≡◌, ◌<◌, ◌≤◌, ◌^◌, ◌∷◌, ◌++◌, length, drop, slice_get, Some, OnOk};
ghost use Rattle.zone_spec.specs.declared.PartState.{PartState as StateValue};
ghost use Rattle.report_html.specs.Pieces.{parts};
ghost use Rattle.report_html.specs.Pictures.{block_at, is_alike, numbers_parts, runs};

use crate::pieces::{Piece, add};
use region_report::PartState;
use std::alloc::AllocError;
use zone_spec::Zone;

/// Where a block's data begin among those of its zone.
pub fn block_at(zone: &Zone, block: u64) -> u64
    ensures at { result ≡ block_at zone.now block }
    ensures few { result < 2 ^ 32 }
{
    u64::from(zone.block)
        .saturating_mul(block)
        .min(u64::from(zone.cap))
}

/// Adds the numbers of the blocks from `from` up to `to`.
pub fn add_numbers(pieces: &mut Vec<Piece<'_>>, from: u64, to: u64) -> Result<(), AllocError>
    ensures { OnOk result (parts pieces.new.items ≡ parts pieces.old.items ++ numbers_parts from to) }
{
    if to.saturating_sub(from) == 1 {
        add(pieces, &[Piece::Number(from)])
    } else {
        add(
            pieces,
            &[
                Piece::Number(from),
                Piece::Own(" to "),
                Piece::Number(to.saturating_sub(1)),
            ],
        )
    }
}

/// Whether two parts read alike.
pub fn is_alike(a: PartState, b: PartState) -> bool
    ensures { result ≡ is_alike a b }
{
    match (a, b) {
        (PartState::Read(m), PartState::Read(n)) => m == n,
        (PartState::Bad, PartState::Bad) => true,
        _ => false,
    }
}

/// Where the run ends that begins at block `from`.
pub fn run_end(blocks: &[PartState], from: usize) -> usize
    requires { from < length blocks.now }
    ensures on { from < result }
    ensures within { result ≤ length blocks.now }
    ensures run { (s : StateValue) → slice_get blocks.now from ≡ Some s → runs from (drop from blocks.now)
        ≡ record { from = from; to = result; state = s } ∷ runs result (drop result blocks.now) }
{
    for to in from + 1..blocks.len() {
        if !is_alike(blocks[from], blocks[to]) {
            return to;
        }
    }
    blocks.len()
}
