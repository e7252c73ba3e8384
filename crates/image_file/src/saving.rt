// An image that is written to a file in pieces.
ghost use Rattle.std.specs.Prelude.{◌≡◌, replicate, ◌+◌, ◌-◌, ◌<◌, ◌≤◌, length, OnOk, OnErr, MatchResult};
ghost use Rattle.outside.specs.Outside.{Rose, HasCause, Writes, WritesFront};
ghost use Rattle.image_file.specs.Saving.{piece_count, count_after};

use crate::PIECE;
use outside::{Failed, Store};

static ZEROS: [u8; PIECE] = [0; PIECE];

/// Writes an image to the front of a store in rising pieces.
#[tactic(auto, using(crate::proofs::Pieces::written_reach, crate::proofs::Pieces::written_short, crate::proofs::Pieces::written_none, crate::proofs::Pieces::written_next))]
pub fn save<M: Store>(image: &mut M, bytes: &[u8]) -> Result<(), Failed>
    ensures bytes { MatchResult result (λ _. Writes (M.holds image.old) (M.holds image.new) 0 bytes.now)
        (λ _. WritesFront (M.holds image.old) (M.holds image.new) 0 bytes.now) }
    ensures asked { OnErr result (Rose (M.writes image.old) (M.writes image.new)) }
    ensures written { OnOk result (M.writes image.new
        ≡ count_after (piece_count (length bytes.now)) (M.writes image.old)) }
    ensures unread { M.read_faults image.new ≡ M.read_faults image.old }
    ensures cause { HasCause (M.faults image.old) (M.faults image.new) result }
{
    let mut at = 0;
    'pieces: while at < bytes.len() {
        let count = PIECE.min(bytes.len() - at);
        match image.write_at(at as u64, &bytes[at..at + count]) {
            Ok(()) => at += count,
            Err(Failed) => return Err(Failed),
        }
    }
    Ok(())
}

/// Writes so many zeros to the front of a store in rising pieces.
#[tactic(auto, using(crate::proofs::Pieces::written_reach, crate::proofs::Pieces::written_none, crate::proofs::Pieces::zeros_short, crate::proofs::Pieces::zeros_next))]
pub fn fill<M: Store>(image: &mut M, mem: u32) -> Result<(), Failed>
    ensures bytes { MatchResult result (λ _. Writes (M.holds image.old) (M.holds image.new) 0 (replicate mem 0))
        (λ _. WritesFront (M.holds image.old) (M.holds image.new) 0 (replicate mem 0)) }
    ensures asked { OnErr result (Rose (M.writes image.old) (M.writes image.new)) }
    ensures written { OnOk result (M.writes image.new ≡ count_after (piece_count mem) (M.writes image.old)) }
    ensures unread { M.read_faults image.new ≡ M.read_faults image.old }
    ensures cause { HasCause (M.faults image.old) (M.faults image.new) result }
{
    let size = mem as usize;
    let mut at = 0;
    'pieces: while at < size {
        let count = PIECE.min(size - at);
        match image.write_at(at as u64, &ZEROS[..count]) {
            Ok(()) => at += count,
            Err(Failed) => return Err(Failed),
        }
    }
    Ok(())
}
