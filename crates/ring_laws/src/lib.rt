//! The laws of rings: what calls, boots and readings make of a zone that holds what it was told. Each law is a function
//! whose contract it is.
#![tactic(auto)]

ghost use Rattle.ring_laws.specs.Laws.{CallKeepsRingForm, BootLeavesRingForm, RingFormReadsTold, FinishedZoneReadsTold};

/// A whole append, erasure or dump leaves its zone holding what the call means.
pub fn call_keeps_ring_form()
    ensures { CallKeepsRingForm }
{}

/// Whatever a zone holds, a boot leaves it holding what the boot kept.
pub fn boot_leaves_ring_form()
    ensures { BootLeavesRingForm }
{}

/// A zone that holds what it was told reads it.
pub fn ring_form_reads_told()
    ensures { RingFormReadsTold }
{}

/// A zone that a boot has finished reads what the boot kept.
pub fn finished_zone_reads_told()
    ensures { FinishedZoneReadsTold }
{}
