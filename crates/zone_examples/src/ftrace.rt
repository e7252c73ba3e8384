//! Ftrace zones and their merge.

ghost use Rattle.zone_examples.specs.Ftrace.{TwoProcessorsMerged, FtraceRingNotKept, FrontOfLogDropped, MergeByTime};
ghost use Rattle.zone_examples.specs.Ftrace.{FtraceRingsKept, ZerosAreEmpty};

/// The entries of two processors, merged by time.
pub fn two_processors_merged()
    ensures { TwoProcessorsMerged }
{}

/// An ftrace ring that cannot be appended to is listed and erased.
pub fn ftrace_ring_not_kept()
    ensures { FtraceRingNotKept }
{}

/// The bytes at the front of a log that make no whole entry.
pub fn front_of_log_dropped()
    ensures { FrontOfLogDropped }
{}

/// The merge of several logs.
pub fn merge_by_time()
    ensures { MergeByTime }
{}

/// Which ftrace rings a boot keeps.
pub fn ftrace_rings_kept()
    ensures { FtraceRingsKept }
{}

/// A zone of zeros where the signature is 0.
pub fn zeros_are_empty()
    ensures { ZerosAreEmpty }
{}
