// A span that stands by itself.
ghost use Rattle.std.specs.Prelude.{◌≡◌, ◌+◌, ◌≤◌, length, replicate, IfOk};
ghost use Rattle.zone_spec.specs.Stores.{put};

use crate::block::{Shell, Stores, as_spans, based, close, open};
use crate::pieces::Piece;
use crate::spans::Span;
use std::alloc::{AllocError, Global};
use std::marker::Model;

/// A span in an allocation of its own, which it frees where it is dropped.
pub struct Probe {
    piece: Piece,
    shell: Shell<u8, Global>,
    stores: Stores<u8>,
}

impl Model for Probe {
    ghost use Rattle.std.specs.Prelude.{◌≡◌, ℕ, List};
    ghost use Rattle.core.specs.Mem.Slots.{slots_ptr, slots_len};
    ghost use Rattle.std.specs.Vec.{vec_ptr, vec_len};
    ghost use Rattle.prz_region.specs.Chain.{piece_bytes};

    ghost Value = { List ℕ };

    ghost view = { λ p. piece_bytes p.piece };

    ghost invariant = { λ p. (slots_ptr p.piece.slots ≡ vec_ptr p.shell)
        × (slots_len p.piece.slots ≡ vec_len p.shell) };
}

impl Probe {
    /// A span of `size` zeros.
    pub fn new(alloc: Global, size: u32) -> Result<Probe, AllocError>
        ensures { IfOk result (λ probe. probe ≡ replicate size 0) }
    {
        let mut bytes = Vec::from_elem(alloc, 0u8, size as usize)?;
        let (ptr, len) = (bytes.as_mut_ptr(), bytes.len());
        let (row, shell, stores) = open(bytes, ptr, len);
        let (slots, base) = based(row);
        Ok(Probe {
            piece: Piece::over(base, slots),
            shell,
            stores,
        })
    }

    /// Stores bytes from `at` on.
    pub fn fill(&mut self, at: u32, bytes: &[u8])
        requires { at + length bytes.now ≤ length self.old }
        ensures { self.new ≡ put self.old at bytes.now }
    {
        self.piece.store_bytes(at, bytes, 0, &mut self.stores);
    }

    /// The span, as it is lent for reading.
    pub fn span(&self) -> &Span
        ensures { result.now ≡ self.now }
    {
        &as_spans(std::slice::from_ref(&self.piece))[0]
    }
}

impl Drop for Probe {
    fn drop(self) {
        let Probe {
            piece,
            shell,
            stores: _,
        } = self;
        let _bytes = close(piece.into_slots(), shell);
    }
}
