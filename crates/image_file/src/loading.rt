// An image that is read from a file in pieces.
ghost use Rattle.std.specs.Prelude.{◌≡◌, ◌+◌, ◌<◌, ◌≤◌, length, take, vec_len, IfOk, IfErr, OnOk, IfSome};
ghost use Rattle.outside.specs.Outside.{HasCause};
ghost use Rattle.script_spec.specs.Playing.{KeptUnless};
ghost use Rattle.image_file.specs.Loading.{SizeStop, FrontStop, LoadStop};

use crate::PIECE;
use command_spec::Stop;
use outside::{Failed, Load};
use std::alloc::Global;

// Reads `count` bytes from `at` on into their places.
fn read_piece<M: Load>(
    image: &mut M,
    bytes: &mut [u8],
    at: usize,
    count: usize,
) -> Result<(), Failed>
    requires inside { at + count ≤ length bytes.old }
    requires told { IfSome (M.holds image.old) (λ bs. at + count ≤ length bs) }
    ensures read { OnOk result (IfSome (M.holds image.old) (λ bs. take at bytes.old ≡ take at bs
        → take (at + count) bytes.new ≡ take (at + count) bs)) }
    ensures same { M.holds image.new ≡ M.holds image.old }
    ensures unwritten { M.writes image.new ≡ M.writes image.old }
    ensures cause { HasCause (M.faults image.old) (M.faults image.new) result }
    ensures read_cause { HasCause (M.read_faults image.old) (M.read_faults image.new) result }
{
    image.read_at(at as u64, &mut bytes[at..at + count])
}

// Reads the first `mem` bytes in rising pieces. The store has as many.
fn read_pieces<M: Load>(alloc: Global, image: &mut M, mem: u32) -> Result<Vec<u8>, Stop>
    requires { IfSome (M.holds image.old) (λ bs. mem ≤ length bs) }
    ensures ok { IfOk result (λ v. (vec_len v ≡ mem) × IfSome (M.holds image.old) (λ bs. v.items ≡ take mem bs)) }
    ensures err { IfErr result (λ s. FrontStop s (M.faults image.old) (M.faults image.new)) }
    ensures same { M.holds image.new ≡ M.holds image.old }
    ensures unwritten { M.writes image.new ≡ M.writes image.old }
    ensures counts { KeptUnless Stop.ImageFault result (M.faults image.old) (M.faults image.new) }
    ensures read_counts { KeptUnless Stop.ImageFault result (M.read_faults image.old) (M.read_faults image.new) }
    ensures later { M.faults image.old ≤ M.faults image.new }
{
    let size = mem as usize;
    let mut bytes = Vec::from_elem(alloc, 0u8, size)?;
    let mut at = 0;
    'pieces: while at < size {
        let count = PIECE.min(size - at);
        match read_piece(image, &mut bytes, at, count) {
            Ok(()) => at += count,
            Err(Failed) => return Err(Stop::ImageFault),
        }
    }
    Ok(bytes)
}

/// Looks whether a store has `mem` bytes, and reads none.
pub fn check_size<M: Load>(image: &mut M, mem: u32) -> Result<(), Stop>
    ensures ok { OnOk result (IfSome (M.holds image.old) (λ bs. mem ≤ length bs)) }
    ensures err { IfErr result (λ s. SizeStop s mem (M.holds image.old) (M.faults image.old) (M.faults image.new)) }
    ensures same { M.holds image.new ≡ M.holds image.old }
    ensures unwritten { M.writes image.new ≡ M.writes image.old }
    ensures counts { KeptUnless Stop.ImageFault result (M.faults image.old) (M.faults image.new) }
    ensures read_counts { KeptUnless Stop.ImageFault result (M.read_faults image.old) (M.read_faults image.new) }
    ensures later { M.faults image.old ≤ M.faults image.new }
{
    match image.size() {
        Ok(has) if has < u64::from(mem) => Err(Stop::Short { has, needed: mem }),
        Ok(_) => Ok(()),
        Err(Failed) => Err(Stop::ImageFault),
    }
}

/// Reads an image of `mem` bytes from the front of a store.
#[tactic(auto, using(crate::proofs::Sizes::size_load, crate::proofs::Sizes::front_load))]
pub fn load<M: Load>(alloc: Global, image: &mut M, mem: u32) -> Result<Vec<u8>, Stop>
    ensures ok { IfOk result (λ v. (vec_len v ≡ mem) × IfSome (M.holds image.old)
        (λ bs. (mem ≤ length bs) × (v.items ≡ take mem bs))) }
    ensures err { IfErr result (λ s. LoadStop s mem (M.holds image.old) (M.faults image.old) (M.faults image.new)) }
    ensures same { M.holds image.new ≡ M.holds image.old }
    ensures unwritten { M.writes image.new ≡ M.writes image.old }
    ensures counts { KeptUnless Stop.ImageFault result (M.faults image.old) (M.faults image.new) }
    ensures read_counts { KeptUnless Stop.ImageFault result (M.read_faults image.old) (M.read_faults image.new) }
    ensures later { M.faults image.old ≤ M.faults image.new }
{
    check_size(image, mem)?;
    read_pieces(alloc, image, mem)
}

/// Reads the first bytes of a store, `limit` at most, however many it has.
pub fn load_front<M: Load>(alloc: Global, image: &mut M, limit: u32) -> Result<Vec<u8>, Stop>
    ensures ok { IfOk result (λ v. (vec_len v ≤ limit) × IfSome (M.holds image.old) (λ bs. v.items ≡ take limit bs)) }
    ensures err { IfErr result (λ s. FrontStop s (M.faults image.old) (M.faults image.new)) }
    ensures same { M.holds image.new ≡ M.holds image.old }
    ensures unwritten { M.writes image.new ≡ M.writes image.old }
    ensures counts { KeptUnless Stop.ImageFault result (M.faults image.old) (M.faults image.new) }
    ensures read_counts { KeptUnless Stop.ImageFault result (M.read_faults image.old) (M.read_faults image.new) }
    ensures later { M.faults image.old ≤ M.faults image.new }
{
    match image.size() {
        Ok(has) => read_pieces(alloc, image, has.min(u64::from(limit)) as u32),
        Err(Failed) => Err(Stop::ImageFault),
    }
}
