// What is shown of a record.
ghost use Rattle.region_report.specs.Laws.{OneShown};

/// A record is shown in one way.
pub fn one_shown()
    ensures { OneShown }
{}
