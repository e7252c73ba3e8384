//! Layouts of parameters.

ghost use Rattle.zone_examples.specs.Layouts.{LayoutsOfTheRows, LayoutWithParity, LayoutOfMebibyte, LayoutOfOddSizes};
ghost use Rattle.zone_examples.specs.Layouts.{LayoutRoundsSizes, LayoutWithOneByte, LayoutOfSmallBlocks, LayoutWithTag};
ghost use Rattle.zone_examples.specs.Layouts.{LayoutInEitherOrder, WorkedFaults, FaultsInOrder, FaultsDecided};

/// The layouts that the other rows begin with.
pub fn layouts_of_the_rows()
    ensures { LayoutsOfTheRows }
{}

/// Four zones with sixteen parity bytes.
pub fn layout_with_parity()
    ensures { LayoutWithParity }
{}

/// One mebibyte.
pub fn layout_of_mebibyte()
    ensures { LayoutOfMebibyte }
{}

/// Dump zones of an odd size, and a last block without data.
pub fn layout_of_odd_sizes()
    ensures { LayoutOfOddSizes }
{}

/// Sizes that are no powers of two.
pub fn layout_rounds_sizes()
    ensures { LayoutRoundsSizes }
{}

/// One parity byte.
pub fn layout_with_one_byte()
    ensures { LayoutWithOneByte }
{}

/// Blocks of 32 bytes, and dump zones without parity.
pub fn layout_of_small_blocks()
    ensures { LayoutOfSmallBlocks }
{}

/// The tag of ftrace zones.
pub fn layout_with_tag()
    ensures { LayoutWithTag }
{}

/// Ftrace before pmsg, and pmsg before ftrace.
pub fn layout_in_either_order()
    ensures { LayoutInEitherOrder }
{}

/// Parameters without a layout.
pub fn worked_faults()
    ensures { WorkedFaults }
{}

/// Parameters with two faults.
pub fn faults_in_order()
    ensures { FaultsInOrder }
{}

/// What counts as a fault, and what does not.
pub fn faults_decided()
    ensures { FaultsDecided }
{}
