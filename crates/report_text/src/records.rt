// The table of the records.
ghost use Rattle.std.specs.Prelude.{◌≡◌, ◌++◌, OnOk};
ghost use Rattle.report_text.specs.Pieces.{parts};
ghost use Rattle.report_text.specs.Tables.{time_parts, record_row};
ghost use Rattle.report_text.specs.Whole.{record_table};

use crate::pieces::{Piece, add};
use region_report::RecordReport;
use std::alloc::AllocError;
use zone_spec::Time;

const HEAD: &str = "\n     bytes  time                            record\n";

/// Adds a time, or as many blanks.
pub fn add_time(pieces: &mut Vec<Piece<'_>>, time: Option<Time>) -> Result<(), AllocError>
    ensures { OnOk result (parts pieces.new.items ≡ parts pieces.old.items ++ time_parts time) }
{
    match time {
        Some(time) => add(pieces, &[Piece::Moment(time)]),
        None => add(pieces, &[Piece::Own("                              ")]),
    }
}

fn add_record(pieces: &mut Vec<Piece<'_>>, entry: &RecordReport) -> Result<(), AllocError>
    ensures { OnOk result (parts pieces.new.items ≡ parts pieces.old.items ++ record_row entry.now) }
{
    let bytes = entry.content.len() as u64;
    add(pieces, &[Piece::Number(10, bytes), Piece::Own("  ")])?;
    add_time(pieces, entry.time)?;
    add(
        pieces,
        &[Piece::Own("  "), Piece::Named(entry.name), Piece::Own("\n")],
    )
}

/// Adds a row for each record: the length of its content, a dump's time, and its name.
pub fn add_records(pieces: &mut Vec<Piece<'_>>, records: &[RecordReport]) -> Result<(), AllocError>
    ensures { OnOk result (parts pieces.new.items ≡ parts pieces.old.items ++ record_table records.now) }
{
    add(pieces, &[Piece::Own(HEAD)])?;
    for entry in records {
        add_record(pieces, entry)?;
    }
    Ok(())
}
