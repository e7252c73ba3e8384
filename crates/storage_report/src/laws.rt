// What the copy of a storage tells of it.
ghost use Rattle.storage_report.specs.Laws.{ReportOfImage};

/// The report of a copy that shows the same of a storage is that of the image.
pub fn copy_is_enough()
    ensures { ReportOfImage }
{}
