//! A zone of a big-endian machine.

ghost use Rattle.zone_examples.specs.BigEndian.{BigEndianRecord, HeaderOfMips};

/// What a big-endian machine's console was told is read at the next boot; its words stand highest byte first.
pub fn big_endian_record()
    ensures { BigEndianRecord }
{}

/// A header that a kernel left on a big-endian machine, with its parity.
pub fn header_of_mips()
    ensures { HeaderOfMips }
{}
