//! A boot of the region reads the log that it was made of. The laws are functions whose contracts they are.
ghost use Rattle.log_region.specs.Regions.{LogsAreReadBack, ThreeBytesRow};

/// The parameters have a layout of one console zone, which reads what is kept of the log.
pub fn logs_are_read_back()
    ensures { LogsAreReadBack }
{}

/// A region of three bytes, as it is typed by hand.
pub fn three_bytes()
    ensures { ThreeBytesRow }
{}
