// Groups of 32 dumps.
ghost use Rattle.std.specs.Prelude.{◌≡◌, ◌++◌, OnOk, Some};
ghost use Rattle.report_html.specs.Pieces.{parts};
ghost use Rattle.report_html.specs.Order.{shown_in};
ghost use Rattle.report_html.specs.Groups.{is_dump, are_grouped, group_in, is_same, end_parts, newest_words, older_parts};
ghost use Rattle.report_html.specs.Groups.{begin_parts, edge_parts};

use crate::listed::dump_number;
use crate::pieces::{Piece, add};
use region_report::RecordReport;
use std::alloc::AllocError;
use zone_spec::Name;

/// How many dumps make a group.
const GROUP: usize = 32;

fn is_dump(name: Name) -> bool
    ensures { result ≡ is_dump name }
{
    dump_number(name).is_some()
}

/// Whether there are more dumps than make a group.
pub fn are_grouped(records: &[&RecordReport]) -> bool
    ensures { result ≡ are_grouped (shown_in records.now) }
{
    match records.get(GROUP) {
        Some(held) => is_dump(held.name),
        None => false,
    }
}

/// The group that the record at a place stands in, by how many dumps are newer.
pub fn group_in(grouped: bool, place: usize, held: &RecordReport) -> Option<usize>
    ensures { result ≡ group_in grouped place held.now.name }
{
    if grouped && is_dump(held.name) {
        Some(place - place % GROUP)
    } else {
        None
    }
}

fn is_same(one: Option<usize>, other: Option<usize>) -> bool
    ensures { result ≡ is_same one other }
{
    match one {
        Some(one) => match other {
            Some(other) => one == other,
            None => false,
        },
        None => other.is_none(),
    }
}

fn add_end(pieces: &mut Vec<Piece<'_>>, group: Option<usize>) -> Result<(), AllocError>
    ensures { OnOk result (parts pieces.new.items ≡ parts pieces.old.items ++ end_parts group) }
{
    match group {
        Some(_) => add(pieces, &[Piece::Own("</details>\n")]),
        None => Ok(()),
    }
}

fn newest_words(is_open: bool) -> &'static str
    ensures { result.now ≡ newest_words is_open }
{
    if is_open {
        "<details class=\"group\" open>\n<summary><b>Newest dumps</b></summary>\n"
    } else {
        "<details class=\"group\">\n<summary><b>Newest dumps</b></summary>\n"
    }
}

/// Adds where the group begins of dumps than which so many are newer.
fn add_older(pieces: &mut Vec<Piece<'_>>, newer: usize) -> Result<(), AllocError>
    ensures { OnOk result (parts pieces.new.items ≡ parts pieces.old.items ++ older_parts newer) }
{
    add(
        pieces,
        &[
            Piece::Own("<details class=\"group\">\n<summary><b>Dumps after the newest "),
            Piece::Number(newer as u64),
            Piece::Own("</b></summary>\n"),
        ],
    )
}

fn add_begin(
    pieces: &mut Vec<Piece<'_>>,
    is_open: bool,
    group: Option<usize>,
) -> Result<(), AllocError>
    ensures { OnOk result (parts pieces.new.items ≡ parts pieces.old.items ++ begin_parts is_open group) }
{
    match group {
        Some(0) => add(pieces, &[Piece::Own(newest_words(is_open))]),
        Some(newer) => add_older(pieces, newer),
        None => Ok(()),
    }
}

/// Adds what stands between a record of one group and one of another, or of none. The first group can be open.
pub fn add_edge(
    pieces: &mut Vec<Piece<'_>>,
    is_open: bool,
    before: Option<usize>,
    after: Option<usize>,
) -> Result<(), AllocError>
    ensures { OnOk result (parts pieces.new.items
        ≡ parts pieces.old.items ++ edge_parts is_open before after) }
{
    if is_same(before, after) {
        return Ok(());
    }
    add_end(pieces, before)?;
    add_begin(pieces, is_open, after)
}
