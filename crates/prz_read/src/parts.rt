// How the parts of a zone read.
ghost use Rattle.std.specs.Prelude.{◌≡◌, ◌++◌, ◌∷◌, [], true, IfOk};
ghost use Rattle.zone_spec.specs.PartReadings.{PartReading};
ghost use Rattle.prz_ecc.specs.Outcomes.{CountsAre};
ghost use Rattle.zone_spec.specs.PartStates.{part_state};

use prz_ecc::Decoded;
use std::alloc::{AllocError, Global};
use std::marker::Model;
use zone_spec::PartState;

/// How a zone's header reads, and its blocks from block 0 on that hold bytes of the log. All further blocks are unused.
#[derive(Drop)]
pub struct ZoneParts {
    pub header: PartState,
    pub blocks: Vec<PartState>,
}

impl Model for ZoneParts {
    ghost use Rattle.zone_spec.specs.PartStates.{PartStates};

    ghost Value = { PartStates };

    ghost view = { λ p. record { header = p.header; blocks = p.blocks.items } };
}

pub fn part_state(outcome: Decoded) -> PartState
    ensures { (reading : PartReading) → CountsAre outcome reading → result ≡ part_state reading }
{
    match outcome {
        Decoded::Clean => PartState::Read(0),
        Decoded::Fixed(places) => PartState::Read(u32::from(places)),
        Decoded::Bad => PartState::Bad,
    }
}

/// The states of blocks as they come. Where they are not wanted none is kept, and no memory is taken.
#[derive(Drop)]
pub struct BlockStates {
    pub(crate) are_wanted: bool,
    pub(crate) kept: Vec<PartState>,
}

impl BlockStates {
    /// None yet, with room for so many if they are wanted.
    pub(crate) fn new(
        alloc: Global,
        are_wanted: bool,
        count: u32,
    ) -> Result<BlockStates, AllocError>
        ensures wanted { IfOk result (λ states. states.are_wanted ≡ are_wanted) }
        ensures none { IfOk result (λ states. states.kept.items ≡ []) }
    {
        if !are_wanted {
            return Ok(BlockStates {
                are_wanted,
                kept: Vec::new(alloc),
            });
        }
        let kept = Vec::with_capacity(alloc, count as usize)?;
        Ok(BlockStates { are_wanted, kept })
    }

    /// Keeps the state of the next block, if it is wanted.
    pub(crate) fn push(&mut self, state: PartState) -> Result<(), AllocError>
        ensures wanted { IfOk result (λ _. self.new.are_wanted ≡ self.old.are_wanted) }
        ensures kept { IfOk result (λ _. self.old.are_wanted ≡ true → self.new.kept.items ≡ self.old.kept.items
            ++ state ∷ []) }
    {
        if self.are_wanted {
            self.kept.push(state)?;
        }
        Ok(())
    }
}
