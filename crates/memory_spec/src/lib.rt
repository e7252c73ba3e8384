//! The words of a search for regions in a copy of a machine's memory, as definitions in `specs/`: the pages at which a
//! header seems to stand, where headers and their rings end, the sizes that are tried, and which of them comes first.
#![tactic(auto)]
