// The deaths that other dumps tell of.
ghost use Rattle.std.specs.Prelude.{◌≡◌, ◌++◌, map, flat_map, OnOk};
ghost use Rattle.report_spec.specs.Deaths.{others_told as told_by_others};
ghost use Rattle.region_report.specs.Tellers.{as_told, told_in};
ghost use Rattle.report_text.specs.Pieces.{parts};
ghost use Rattle.report_text.specs.Earlier.{earlier_row, earlier_parts, earlier_of};
ghost use Rattle.report_text.specs.Whole.{others_parts};

use crate::pieces::{Piece, add};
use crate::records::add_time;
use death::part;
use region_report::{RecordReport, Telling, others_told};
use std::alloc::{AllocError, Global};
use zone_spec::Name;

fn add_earlier<'a>(pieces: &mut Vec<Piece<'a>>, told: &Telling<'a>) -> Result<(), AllocError>
    ensures { OnOk result (parts pieces.new.items ≡ parts pieces.old.items ++ earlier_row (as_told told.now)) }
{
    let teller: &'a RecordReport = told.teller;
    let telling = told.death.telling;
    add(pieces, &[Piece::Own("  ")])?;
    add_time(pieces, teller.time)?;
    add(
        pieces,
        &[
            Piece::Own("  "),
            Piece::Named(teller.name),
            Piece::Own("  "),
            Piece::Foreign(part(teller.readable(), telling.text, telling.end)),
            Piece::Own("\n"),
        ],
    )
}

fn add_each<'a>(pieces: &mut Vec<Piece<'a>>, tellings: &[Telling<'a>]) -> Result<(), AllocError>
    ensures { OnOk result (parts pieces.new.items
        ≡ parts pieces.old.items ++ flat_map earlier_row (map as_told tellings.now)) }
{
    for told in tellings {
        add_earlier(pieces, told)?;
    }
    Ok(())
}

fn add_list<'a>(pieces: &mut Vec<Piece<'a>>, tellings: &[Telling<'a>]) -> Result<(), AllocError>
    ensures { OnOk result (parts pieces.new.items
        ≡ parts pieces.old.items ++ earlier_of tellings.now) }
{
    let count = tellings.len();
    if count == 0 {
        return Ok(());
    }
    add(pieces, &[Piece::Own("\nearlier deaths\n")])?;
    add_each(pieces, tellings)
}

/// Adds the deaths that other dumps tell of than the one of this name.
fn add_other_than<'a>(
    alloc: Global,
    pieces: &mut Vec<Piece<'a>>,
    name: Name,
    records: &'a [RecordReport],
) -> Result<(), AllocError>
    ensures { OnOk result (parts pieces.new.items
        ≡ parts pieces.old.items ++ earlier_parts (told_by_others name records.entry.now)) }
{
    let tellings = others_told(alloc, name, records)?;
    add_list(pieces, tellings.as_slice())
}

/// Adds the deaths that other dumps tell of than the record that tells.
pub fn add_others<'a>(
    alloc: Global,
    pieces: &mut Vec<Piece<'a>>,
    records: &'a [RecordReport],
    told: Option<Telling<'a>>,
) -> Result<(), AllocError>
    ensures { OnOk result (parts pieces.new.items
        ≡ parts pieces.old.items ++ others_parts records.entry.now (told_in told.entry)) }
{
    match told {
        Some(told) => {
            let teller: &RecordReport = told.teller;
            add_other_than(alloc, pieces, teller.name, records)
        }
        None => Ok(()),
    }
}
