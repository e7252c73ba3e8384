// The calls that C sees, on layouts, on zones and on the whole tool.
ghost use Rattle.std.specs.Prelude.{◌≡◌};
ghost use Rattle.oopsbox_c.specs.Ends.{status_of};
ghost use Rattle.oopsbox_c.specs.Zones.{LayoutEnds, ZoneEnds};
ghost use Rattle.oopsbox_c.specs.Runs.{given, RunEnds};

use crate::running::run_in;
use crate::zones::{lay_out, read_zone_in};
use crate::{End, LayoutAnswer, Lengths, ZoneAnswer, ZonePlace};
use std::alloc::Global;

/// The zones of the parameters in a text, or the first fault.
#[unsafe(no_mangle)]
pub extern "C" fn oopsbox_layout(
    alloc: Global,
    params: &[u8],
    places: &mut [ZonePlace],
    answer: &mut LayoutAnswer,
) -> u32
    ensures { (end : End) × (result ≡ status_of end)
        × LayoutEnds end params.now places.old places.new answer.old answer.new }
{
    let end = lay_out(alloc, params, places, answer);
    end.status()
}

/// What a boot reads of zone `index` of the layout in an image, which is left as it is.
#[unsafe(no_mangle)]
pub extern "C" fn oopsbox_zone(
    alloc: Global,
    params: &[u8],
    index: u32,
    image: &[u8],
    log: &mut [u8],
    answer: &mut ZoneAnswer,
) -> u32
    ensures { (end : End) × (result ≡ status_of end)
        × ZoneEnds end params.now index image.now log.old log.new answer.old answer.new }
{
    let end = read_zone_in(alloc, params, index, image, log, answer);
    end.status()
}

/// Runs the tool's words with this script on the first `lengths.image` bytes of `image`. Image and text then stand in
/// the caller's slices, and `lengths` tells how many bytes each has.
#[unsafe(no_mangle)]
pub extern "C" fn oopsbox_run(
    alloc: Global,
    words: &[u8],
    script: &[u8],
    image: &mut [u8],
    text: &mut [u8],
    lengths: &mut Lengths,
) -> u32
    ensures { (end : End) × (result ≡ status_of end) × RunEnds end words.now script.now
        (given image.old text.old lengths.old) (given image.new text.new lengths.new) }
{
    let end = run_in(alloc, words, script, image, text, lengths);
    end.status()
}
