// The parts of a zone whose bytes are a span, by the encoder of its parts.
ghost use Rattle.std.specs.Prelude.{◌≡◌, ◌+◌, ◌*◌, ◌≤◌, ◌<◌, ◌↔◌, length, IsTrue};
ghost use Rattle.code_spec.specs.Code.{IsCodeword, parity_of};
ghost use Rattle.zone_spec.specs.Zones.{IsValidZone};
ghost use Rattle.zone_spec.specs.Parts.{Header, Block, part_bytes, part_word};
ghost use Rattle.zone_spec.specs.PartReadings.{part_reading, words_read};
ghost use Rattle.prz_ecc.specs.Outcomes.{CountsAre, IsPartExcess};

use arrayvec::ArrayVec;
use prz_ecc::{Coder, Decoded, Fix, HeaderReading};
use prz_region::Span;
use zone_spec::Zone;

pub(crate) fn read_header(
    coder: &Coder,
    span: &Span,
    zone: &Zone,
    fixes: &mut ArrayVec<Fix, 63>,
) -> HeaderReading
    requires coder { coder.now ≡ zone.now.parity }
    requires valid { IsValidZone zone.now }
    requires size { length span.now ≡ zone.now.size }
    ensures words { result.words ≡ words_read zone.now span.now }
    ensures counts { CountsAre result.outcome (part_reading zone.now span.now Header) }
{
    prz_ecc::read_header(coder.table(), span.bytes(), zone, fixes)
}

pub(crate) fn read_block(
    coder: &Coder,
    span: &Span,
    zone: &Zone,
    b: u32,
    out: &mut ArrayVec<u8, 255>,
    fixes: &mut ArrayVec<Fix, 63>,
) -> Decoded
    requires coder { coder.now ≡ zone.now.parity }
    requires valid { IsValidZone zone.now }
    requires size { length span.now ≡ zone.now.size }
    requires block { zone.now.block * b < zone.now.cap }
    ensures data { out.new.items ≡ (part_reading zone.now span.now (Block b)).bytes }
    ensures counts { CountsAre result (part_reading zone.now span.now (Block b)) }
{
    prz_ecc::read_block(coder.table(), span.bytes(), zone, b, out, fixes)
}

/// As [`read_block`], from the block's excess.
pub(crate) fn read_block_by(
    coder: &Coder,
    excess: &[u8],
    span: &Span,
    zone: &Zone,
    b: u32,
    out: &mut ArrayVec<u8, 255>,
    fixes: &mut ArrayVec<Fix, 63>,
) -> Decoded
    requires coder { coder.now ≡ zone.now.parity }
    requires valid { IsValidZone zone.now }
    requires size { length span.now ≡ zone.now.size }
    requires block { zone.now.block * b < zone.now.cap }
    requires excess { IsPartExcess zone.now span.now (Block b) excess.now }
    ensures data { out.new.items ≡ (part_reading zone.now span.now (Block b)).bytes }
    ensures counts { CountsAre result (part_reading zone.now span.now (Block b)) }
{
    prz_ecc::read_block_by(coder.table(), excess, span.bytes(), zone, b, out, fixes)
}

/// Whether block `b` and the one after it, two whole blocks, stand as codewords; `first` and `second` become their
/// excesses.
pub(crate) fn excess_pair(
    coder: &Coder,
    span: &Span,
    zone: &Zone,
    b: u32,
    first: &mut [u8],
    second: &mut [u8],
) -> (bool, bool)
    requires coder { coder.now ≡ zone.now.parity }
    requires valid { IsValidZone zone.now }
    requires size { length span.now ≡ zone.now.size }
    requires blocks { zone.now.block * (b + 2) ≤ zone.now.cap }
    requires len_first { length first.old ≡ zone.now.parity }
    requires len_second { length second.old ≡ zone.now.parity }
    ensures first { IsTrue result.0 ↔ IsCodeword zone.now.parity (part_word zone.now span.now (Block b)) }
    ensures second { IsTrue result.1
        ↔ IsCodeword zone.now.parity (part_word zone.now span.now (Block (b + 1))) }
    ensures first_excess { IsPartExcess zone.now span.now (Block b) first.new }
    ensures second_excess { IsPartExcess zone.now span.now (Block (b + 1)) second.new }
{
    prz_ecc::excess_pair(coder.table(), span.bytes(), zone, b, first, second)
}

/// The parity of the header's 12 bytes as they stand.
pub(crate) fn header_parity(coder: &Coder, span: &Span, zone: &Zone, out: &mut ArrayVec<u8, 127>)
    requires coder { coder.now ≡ zone.now.parity }
    requires valid { IsValidZone zone.now }
    requires size { length span.now ≡ zone.now.size }
    ensures { out.new.items ≡ parity_of zone.now.parity (part_bytes zone.now span.now Header) }
{
    prz_ecc::header_parity(coder.table(), span.bytes(), zone, out);
}
