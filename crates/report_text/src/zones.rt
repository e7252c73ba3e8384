// The table of the zones.
ghost use Rattle.std.specs.Prelude.{◌≡◌, ◌++◌, length, OnOk};
ghost use Rattle.std.specs.Option.{option_copied};
ghost use Rattle.report_text.specs.Pieces.{parts};
ghost use Rattle.report_text.specs.Tables.{kind_words, state_words, read_words, reading_parts, zone_row};
ghost use Rattle.report_text.specs.Whole.{zone_table};

use crate::pieces::{Piece, add};
use prz_read::{Logs, Reading};
use std::alloc::AllocError;
use zone_spec::{Kind, State, Zone};

const HEAD: &str =
    "\n\nzone          state        place     size      start       used corrected   bad\n";

fn kind_text(kind: Kind) -> &'static str
    ensures { result.now ≡ kind_words kind }
{
    match kind {
        Kind::Dump => "dump    ",
        Kind::Console => "console ",
        Kind::Ftrace => "ftrace  ",
        Kind::Pmsg => "pmsg    ",
    }
}

fn state_text(state: State) -> &'static str
    ensures { result.now ≡ state_words state }
{
    match state {
        State::Unsigned => " unsigned ",
        State::Empty => " empty    ",
        State::Invalid => " invalid  ",
        State::Found => " found    ",
    }
}

fn read_text(reading: Option<&Reading>) -> &'static str
    ensures { result.now ≡ read_words (option_copied reading.entry) }
{
    match reading {
        Some(reading) => state_text(reading.state),
        None => " not read ",
    }
}

fn add_reading(pieces: &mut Vec<Piece<'_>>, reading: &Reading) -> Result<(), AllocError>
    ensures { OnOk result (parts pieces.new.items ≡ parts pieces.old.items ++ reading_parts reading.now) }
{
    add(
        pieces,
        &[
            Piece::Number(11, u64::from(reading.words.start)),
            Piece::Number(11, u64::from(reading.words.size)),
            Piece::Number(10, u64::from(reading.corrected)),
            Piece::Number(6, u64::from(reading.bad)),
        ],
    )
}

fn add_zone(
    pieces: &mut Vec<Piece<'_>>,
    zone: &Zone,
    reading: Option<&Reading>,
) -> Result<(), AllocError>
    ensures { OnOk result (parts pieces.new.items
        ≡ parts pieces.old.items ++ zone_row (zone.now, option_copied reading.entry)) }
{
    add(
        pieces,
        &[
            Piece::Own(kind_text(zone.name.kind)),
            Piece::Number(5, u64::from(zone.name.index)),
            Piece::Own(read_text(reading)),
            Piece::Number(9, u64::from(zone.at)),
            Piece::Number(9, u64::from(zone.size)),
        ],
    )?;
    if let Some(reading) = reading {
        add_reading(pieces, reading)?;
    }
    add(pieces, &[Piece::Own("\n")])
}

/// Adds how many zones and records there are, and a row for each zone: its name, state, place and size, the words of
/// its header, and its counts.
pub fn add_zones(
    pieces: &mut Vec<Piece<'_>>,
    zones: &[Zone],
    logs: &Logs,
    records: usize,
) -> Result<(), AllocError>
    requires zones { zones.now ≡ logs.now.zones }
    requires readings { length logs.now.readings ≡ length zones.now }
    ensures { OnOk result (parts pieces.new.items ≡ parts pieces.old.items ++ zone_table logs.now records) }
{
    add(
        pieces,
        &[
            Piece::Own("\nzones "),
            Piece::Number(1, zones.len() as u64),
            Piece::Own(", records "),
            Piece::Number(1, records as u64),
            Piece::Own(HEAD),
        ],
    )?;
    for i in 0..logs.len() {
        add_zone(pieces, &zones[i as usize], logs.reading(i))?;
    }
    Ok(())
}
