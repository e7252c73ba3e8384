//! Worked rows on the search for a layout and on that for regions in a copy of all memory, with values typed by hand.
#![tactic(auto)]

ghost use Rattle.layout_examples.specs.Layouts.{ShownRow, TagRow};
ghost use Rattle.layout_examples.specs.Memories.{CutHeaderRow, WholeHeaderRow, EndsRow, StartAboveRow, DamagedMarkRow};
ghost use Rattle.layout_examples.specs.Memories.{OddPlaceRow, ReachedRow, FirstRow};

/// When a parity is shown, and which numbers are tags.
pub fn layouts()
    ensures shown { ShownRow }
    ensures tag { TagRow }
{}

/// Marked pages, where headers and rings end, sizes that they reach, and which of two layouts comes first.
pub fn memories()
    ensures cut_header { CutHeaderRow }
    ensures whole_header { WholeHeaderRow }
    ensures ends { EndsRow }
    ensures start_above { StartAboveRow }
    ensures damaged_mark { DamagedMarkRow }
    ensures odd_place { OddPlaceRow }
    ensures reached { ReachedRow }
    ensures first { FirstRow }
{}
