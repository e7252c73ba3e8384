//! The machine of the crash log store, off and live, and what a boot reads of what was told: definitions alone.
#![tactic(auto)]
