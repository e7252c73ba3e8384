//! Notices and names.

ghost use Rattle.zone_examples.specs.Notices.{NoticeOfConsole, DumpWithoutNotice, NoticeOfFtrace, DumpRecords};

/// The notice of a console record.
pub fn notice_of_console()
    ensures { NoticeOfConsole }
{}

/// A record of a zone without parity.
pub fn dump_without_notice()
    ensures { DumpWithoutNotice }
{}

/// The notice of an ftrace record.
pub fn notice_of_ftrace()
    ensures { NoticeOfFtrace }
{}

/// Names and contents of dumps.
pub fn dump_records()
    ensures { DumpRecords }
{}
