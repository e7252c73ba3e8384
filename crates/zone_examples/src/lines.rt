//! Time lines.

ghost use Rattle.zone_examples.specs.Lines.{LinesWritten, LinesRead, MicrosRead, SecondsRead, NewlineRead};

/// Time lines as a dump writes them.
pub fn lines_written()
    ensures { LinesWritten }
{}

/// Time lines as they are read.
pub fn lines_read()
    ensures { LinesRead }
{}

/// The microseconds of a time line.
pub fn micros_read()
    ensures { MicrosRead }
{}

/// The seconds of a time line.
pub fn seconds_read()
    ensures { SecondsRead }
{}

/// What ends a time line, and what is none.
pub fn newline_read()
    ensures { NewlineRead }
{}
