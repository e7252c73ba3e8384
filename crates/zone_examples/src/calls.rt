//! Calls of zones without parity.

ghost use Rattle.zone_examples.specs.Calls.{FirstConsoleRecord, BytesOfFirstRecord, CutAfterSizeWord, WrappedRing};
ghost use Rattle.zone_examples.specs.Calls.{CutErasureOfFullRing, WrappedLargeRing, CutErasureOfLargeRing};

/// What a console was told is read at the next boot, listed, and erased.
pub fn first_console_record()
    ensures { FirstConsoleRecord }
{}

/// The bytes of a first record, between zones that are empty.
pub fn bytes_of_first_record()
    ensures { BytesOfFirstRecord }
{}

/// An append cut after its first store: the size word stands, the start word does not.
pub fn cut_after_size_word()
    ensures { CutAfterSizeWord }
{}

/// One byte more than a ring holds.
pub fn wrapped_ring()
    ensures { WrappedRing }
{}

/// An erasure of a ring that has wrapped, cut after its start word.
pub fn cut_erasure_of_full_ring()
    ensures { CutErasureOfFullRing }
{}

/// One byte more than a ring of 4084 bytes holds.
pub fn wrapped_large_ring()
    ensures { WrappedLargeRing }
{}

/// An erasure of such a ring, cut after its start word.
pub fn cut_erasure_of_large_ring()
    ensures { CutErasureOfLargeRing }
{}
