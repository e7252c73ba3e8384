// What a reader may rest on.
ghost use Rattle.psz_read.specs.Laws.{StateOfFront, FaultOfFront, PartOfFront, CursorOfFront, EachByItself};
ghost use Rattle.psz_read.specs.Laws.{FewBytesAreEnough, TracesByThemselves, PartsAreRecords, GcdIsGreatest};
ghost use Rattle.psz_read.specs.Laws.{StepDivides, StepIsGreatest};

/// A zone's first 52 bytes decide its state, where the kernel fails at it, its part, and the cursor.
pub fn front_is_enough()
    ensures state { StateOfFront }
    ensures fault { FaultOfFront }
    ensures part { PartOfFront }
    ensures cursor { CursorOfFront }
{}

/// What the next boot lists depends on each zone's first 52 bytes and on the logs of the listed records alone.
pub fn few_bytes_are_enough()
    ensures { FewBytesAreEnough }
{}

/// What some zones list stands beside what others list, whatever their state.
pub fn none_hides_another()
    ensures each { EachByItself }
    ensures traces { TracesByThemselves }
{}

/// The records that the next boot lists are those of the parts.
pub fn parts_are_records()
    ensures { PartsAreRecords }
{}

/// Euclid's algorithm finds the greatest common divisor, and the step of marks is that of their distances.
pub fn gcd_is_greatest()
    ensures gcd { GcdIsGreatest }
    ensures divides { StepDivides }
    ensures greatest { StepIsGreatest }
{}
