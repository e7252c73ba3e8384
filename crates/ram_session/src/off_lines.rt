// Lines while the machine is off.
ghost use Rattle.std.specs.Prelude.{[], MatchResult};
ghost use Rattle.ram_session.specs.Sessions.{Off as OffStore, LineDone, LineRefused};
ghost use Rattle.grammar_spec.specs.declared.line.Line.TheVariants.{Flip};
ghost use Rattle.script_spec.specs.declared.Cause.TheVariants.{OutOfImage};

use ramoops::Off;
use script_spec::Cause;

/// A flip of a byte.
#[tactic(auto, using(crate::proofs::OffLines::flip_done, crate::proofs::OffLines::flip_refused))]
pub fn flip(off: Off, place: u32, mask: u8) -> Result<Off, Cause>
    ensures { MatchResult result (λ next. LineDone (OffStore off) (Flip place mask) (OffStore next) [])
        (LineRefused (OffStore off) (Flip place mask)) }
{
    let mut off = off;
    match off.flip(place, mask) {
        Ok(()) => Ok(off),
        Err(_) => Err(Cause::OutOfImage),
    }
}
