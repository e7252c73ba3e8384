// The numbers of a generated session.
ghost use Rattle.std.specs.Prelude.{◌≡◌, ◌<◌, ◌+◌, ◌^◌, IfOk, OnOk};
ghost use Rattle.std.specs.List.{range_with_len};
ghost use Rattle.script_spec.specs.Generated.{draw, draw_over, draws, drawn_flip};

use outside::Bytes;
use std::alloc::{AllocError, Global};
use std::marker::Model;

/// The numbers that a number of 32 bits begins.
#[derive(Drop)]
pub struct Draws {
    x: u32,
}

impl Model for Draws {
    ghost use Rattle.std.specs.Prelude.{ℕ, ◌<◌, ◌^◌};

    ghost Value = { ℕ };

    ghost view = { λ d. d.x };

    ghost invariant = { λ d. d.x < 2 ^ 32 };
}

impl Draws {
    pub fn new(n: u32) -> Draws
        ensures { result ≡ n }
    {
        Draws { x: n }
    }

    /// The next number, below `m`.
    #[tactic(auto, unfolding(script_spec::specs::Generated::draw))]
    pub fn draw(&mut self, m: u32) -> u32
        requires { 0 < m }
        ensures drawn { (result, self.new) ≡ draw m self.old }
        ensures below { result < m }
    {
        let next = (u64::from(self.x) * 1_664_525 + 1_013_904_223) % (1 << 32);
        self.x = next as u32;
        self.x / 256 % m
    }

    /// So many bytes.
    pub fn draw_bytes(&mut self, alloc: Global, count: u32) -> Result<Bytes, AllocError>
        ensures { IfOk result (λ bytes. (bytes, self.new) ≡ draws count 256 self.old) }
    {
        let mut bytes = Vec::new(alloc);
        'bytes: for _ in 0..count {
            bytes.push(self.draw(256) as u8)?;
        }
        Ok(Bytes::from_vec(bytes))
    }

    // Flips of so many bytes in a row more, from a place of the image on.
    pub(crate) fn draw_masks(
        &mut self,
        place: u32,
        count: u32,
        flips: &mut Vec<(u32, u8)>,
    ) -> Result<(), AllocError>
        requires { place + count < 2 ^ 32 }
        ensures { OnOk result ((flips.new.items, self.new)
            ≡ draw_over drawn_flip flips.old.items (range_with_len place count) self.old) }
    {
        'masks: for i in 0..count {
            flips.push((place + i, 1 + self.draw(255) as u8))?;
        }
        Ok(())
    }
}
