// The picture of an image: its zones to scale, with their blocks.
ghost use Rattle.std.specs.Prelude.{◌≡◌, ◌≤◌, ◌++◌, flat_map, Some, OnOk};
ghost use Rattle.std.specs.Option.{option_copied};
ghost use Rattle.report_html.specs.Pieces.{parts};
ghost use Rattle.report_html.specs.Pictures.{class_words, rows_above as rows_above_of, part_words, opening, closing};
ghost use Rattle.report_html.specs.Pictures.{header_parts, blocks_word, strip_opening, outline_parts, parity_parts};
ghost use Rattle.report_html.specs.Pictures.{strip_parts, frame_parts, map_parts};
ghost use Rattle.report_html.specs.Pictures.{range_parts, count_parts, corrected_parts, blocks_opening, blocks_parts};
ghost use Rattle.report_html.specs.Pictures.{runs, run_parts, unused_parts, end_of, width_of, region_opening, map_of};
ghost use Rattle.report_html.specs.Regions.{picture};

use crate::block_runs::{add_numbers, block_at, run_end};
use crate::pieces::{Piece, add};
use crate::region::{add_label, add_place, add_zone_name, read_text};
use crate::spots::{add_spots, spots_of};
use crate::words::{FRAME, KEY, MAP, ZONES};
use crate::zone_rows::add_rows;
use prz_read::Reading;
use region_report::{PartState, Report, ZoneParts};
use std::alloc::{AllocError, Global};
use zone_spec::Zone;

/// The class of parts by how they read.
fn class_text(state: Option<PartState>) -> &'static str
    ensures { result.now ≡ class_words state }
{
    match state {
        None => "off",
        Some(PartState::Read(0)) => "ok",
        Some(PartState::Read(_)) => "fix",
        Some(PartState::Bad) => "bad",
    }
}

/// The rows that stay free above parts, of 24.
fn rows_above(state: Option<PartState>) -> u64
    ensures rows { result ≡ rows_above_of state }
    ensures few { result ≤ 24 }
{
    match state {
        None => 20,
        Some(PartState::Read(0)) => 12,
        Some(PartState::Read(n)) => 10 - u64::from(n.min(9)),
        Some(PartState::Bad) => 0,
    }
}

fn part_text(state: Option<PartState>) -> &'static str
    ensures { result.now ≡ part_words state }
{
    match state {
        None => "not in use",
        Some(PartState::Read(0)) => "clean",
        Some(PartState::Read(_)) => "corrected",
        Some(PartState::Bad) => "bad",
    }
}

/// Begins a rectangle: its class, its rows, the byte of the zone it begins at and its width in bytes.
fn add_opening(
    pieces: &mut Vec<Piece<'_>>,
    state: Option<PartState>,
    at: u64,
    width: u64,
) -> Result<(), AllocError>
    ensures { OnOk result (parts pieces.new.items ≡ parts pieces.old.items ++ opening state at width) }
{
    let class = class_text(state);
    let above = rows_above(state);
    add(
        pieces,
        &[
            Piece::Own("<rect class=\""),
            Piece::Own(class),
            Piece::Own("\" y=\""),
            Piece::Number(above),
            Piece::Own("\" height=\""),
            Piece::Number(24 - above),
            Piece::Own("\" x=\""),
            Piece::Number(at),
            Piece::Own("\" width=\""),
            Piece::Number(width),
            Piece::Own("\"><title>"),
        ],
    )?;
    Ok(())
}

fn add_closing(pieces: &mut Vec<Piece<'_>>) -> Result<(), AllocError>
    ensures { OnOk result (parts pieces.new.items ≡ parts pieces.old.items ++ closing) }
{
    add(pieces, &[Piece::Own("</title></rect>\n")])
}

fn blocks_word(from: u64, to: u64) -> &'static str
    ensures { result.now ≡ blocks_word from to }
{
    if to.saturating_sub(from) == 1 {
        "block "
    } else {
        "blocks "
    }
}

fn add_range(
    pieces: &mut Vec<Piece<'_>>,
    from: u64,
    to: u64,
    words: &'static str,
) -> Result<(), AllocError>
    ensures { OnOk result (parts pieces.new.items ≡ parts pieces.old.items ++ range_parts from to words.entry.now) }
{
    add(pieces, &[Piece::Own(blocks_word(from, to))])?;
    add_numbers(pieces, from, to)?;
    add(pieces, &[Piece::Own(", "), Piece::Own(words)])?;
    Ok(())
}

fn add_count(pieces: &mut Vec<Piece<'_>>, n: u32) -> Result<(), AllocError>
    ensures { OnOk result (parts pieces.new.items ≡ parts pieces.old.items ++ count_parts n) }
{
    if n == 0 {
        return Ok(());
    }
    add(
        pieces,
        &[
            Piece::Own(", bytes corrected in each: "),
            Piece::Number(u64::from(n)),
        ],
    )?;
    Ok(())
}

fn add_corrected(pieces: &mut Vec<Piece<'_>>, state: Option<PartState>) -> Result<(), AllocError>
    ensures { OnOk result (parts pieces.new.items ≡ parts pieces.old.items ++ corrected_parts state) }
{
    match state {
        Some(PartState::Read(n)) => add_count(pieces, n),
        _ => Ok(()),
    }
}

/// Adds the header.
fn add_header(pieces: &mut Vec<Piece<'_>>, state: Option<PartState>) -> Result<(), AllocError>
    ensures { OnOk result (parts pieces.new.items ≡ parts pieces.old.items ++ header_parts state) }
{
    let words = part_text(state);
    add_opening(pieces, state, 0, 12)?;
    add(pieces, &[Piece::Own("header, "), Piece::Own(words)])?;
    add_corrected(pieces, state)?;
    add_closing(pieces)?;
    Ok(())
}

/// Begins the rectangle of a zone's blocks from `from` up to `to`.
fn add_blocks_opening(
    pieces: &mut Vec<Piece<'_>>,
    zone: &Zone,
    from: u64,
    to: u64,
    state: Option<PartState>,
) -> Result<(), AllocError>
    ensures { OnOk result (parts pieces.new.items
        ≡ parts pieces.old.items ++ blocks_opening zone.now from to state) }
{
    let (start, end) = (block_at(zone, from), block_at(zone, to));
    add_opening(pieces, state, start + 12, end.saturating_sub(start))?;
    Ok(())
}

/// Adds the blocks from `from` up to `to`, which read alike.
fn add_blocks(
    pieces: &mut Vec<Piece<'_>>,
    zone: &Zone,
    from: u64,
    to: u64,
    state: Option<PartState>,
) -> Result<(), AllocError>
    ensures { OnOk result (parts pieces.new.items ≡ parts pieces.old.items ++ blocks_parts zone.now from to state) }
{
    add_blocks_opening(pieces, zone, from, to, state)?;
    add_range(pieces, from, to, part_text(state))?;
    add_corrected(pieces, state)?;
    add_closing(pieces)?;
    Ok(())
}

/// Adds the blocks that hold bytes of the log.
fn add_used(
    pieces: &mut Vec<Piece<'_>>,
    zone: &Zone,
    blocks: &[PartState],
) -> Result<(), AllocError>
    ensures { OnOk result (parts pieces.new.items
        ≡ parts pieces.old.items ++ flat_map (run_parts zone.now) (runs 0 blocks.now)) }
{
    let mut from = 0;
    while from < blocks.len() {
        let to = run_end(blocks, from);
        add_blocks(pieces, zone, from as u64, to as u64, Some(blocks[from]))?;
        from = to;
    }
    Ok(())
}

/// Adds the blocks after so many that are in use.
fn add_unused(pieces: &mut Vec<Piece<'_>>, zone: &Zone, used: u64) -> Result<(), AllocError>
    ensures { OnOk result (parts pieces.new.items ≡ parts pieces.old.items ++ unused_parts zone.now used) }
{
    let blocks = u64::from(zone.blocks);
    if used < blocks {
        add_blocks(pieces, zone, used, blocks, None)
    } else {
        Ok(())
    }
}

/// Begins the strip of a zone of so many bytes.
fn add_strip_opening(pieces: &mut Vec<Piece<'_>>, size: u64) -> Result<(), AllocError>
    ensures { OnOk result (parts pieces.new.items ≡ parts pieces.old.items ++ strip_opening size) }
{
    add(
        pieces,
        &[
            Piece::Own("0 0 "),
            Piece::Number(size),
            Piece::Own(" 24\" preserveAspectRatio=\"none\">\n"),
        ],
    )
}

fn add_outline(pieces: &mut Vec<Piece<'_>>, at: u64, width: u64) -> Result<(), AllocError>
    ensures { OnOk result (parts pieces.new.items ≡ parts pieces.old.items ++ outline_parts at width) }
{
    add(
        pieces,
        &[
            Piece::Own("<rect class=\"par\" y=\"12\" height=\"12\" x=\""),
            Piece::Number(at),
            Piece::Own("\" width=\""),
            Piece::Number(width),
            Piece::Own("\"><title>parity</title></rect>\n"),
        ],
    )
}

/// Adds the outline of the parity, if there is any.
fn add_parity(pieces: &mut Vec<Piece<'_>>, zone: &Zone) -> Result<(), AllocError>
    ensures { OnOk result (parts pieces.new.items ≡ parts pieces.old.items ++ parity_parts zone.now) }
{
    let (end, size) = (12 + u64::from(zone.cap), u64::from(zone.size));
    if end < size {
        add_outline(pieces, end, size - end)
    } else {
        Ok(())
    }
}

/// Adds the bytes of a zone: its header, its blocks and its parity.
pub fn add_strip(
    pieces: &mut Vec<Piece<'_>>,
    zone: &Zone,
    states: &ZoneParts,
) -> Result<(), AllocError>
    ensures { OnOk result (parts pieces.new.items ≡ parts pieces.old.items ++ strip_parts zone.now states.now) }
{
    let blocks = states.blocks.as_slice();
    add_strip_opening(pieces, u64::from(zone.size))?;
    add_header(pieces, Some(states.header))?;
    add_used(pieces, zone, blocks)?;
    add_unused(pieces, zone, blocks.len() as u64)?;
    add_parity(pieces, zone)?;
    add(pieces, &[Piece::Own("</svg>")])?;
    Ok(())
}

/// Adds how a zone reads, and its frame.
fn add_frame(pieces: &mut Vec<Piece<'_>>, reading: Option<&Reading>) -> Result<(), AllocError>
    ensures { OnOk result (parts pieces.new.items
        ≡ parts pieces.old.items ++ frame_parts (option_copied reading.entry)) }
{
    let read = read_text(reading);
    add(
        pieces,
        &[Piece::Own(": "), Piece::Own(read), Piece::Own(FRAME)],
    )?;
    Ok(())
}

/// Adds a zone to the map of a region of so many bytes.
fn add_map_zone(
    pieces: &mut Vec<Piece<'_>>,
    whole: u64,
    zone: &Zone,
    reading: Option<&Reading>,
    states: &ZoneParts,
) -> Result<(), AllocError>
    ensures { OnOk result (parts pieces.new.items
        ≡ parts pieces.old.items ++ map_parts whole ((zone.now, option_copied reading.entry), states.now)) }
{
    add_place(pieces, zone, whole)?;
    add_zone_name(pieces, zone)?;
    add_frame(pieces, reading)?;
    add_strip(pieces, zone, states)?;
    add_label(pieces, zone, whole)?;
    add(pieces, &[Piece::Own("</svg>\n")])?;
    Ok(())
}

fn zone_end(zone: &Zone) -> u64
    ensures { result ≡ end_of (Some zone.now) }
{
    u64::from(zone.at) + u64::from(zone.size)
}

/// The bytes up to the end of the last zone.
fn width(zones: &[Zone]) -> u64
    ensures { result ≡ width_of zones.now }
{
    match zones.last() {
        Some(last) => zone_end(last),
        None => 0,
    }
}

fn add_map(pieces: &mut Vec<Piece<'_>>, zones: &[Zone], report: &Report) -> Result<(), AllocError>
    ensures { OnOk result (parts pieces.new.items ≡ parts pieces.old.items ++ map_of zones.now report.now) }
{
    let (logs, states) = (report.logs(), report.parts());
    let whole = width(zones);
    let count = zones.len().min(states.len()).min(logs.len() as usize);
    for i in 0..count {
        let reading = logs.reading(i as u32);
        add_map_zone(pieces, whole, &zones[i], reading, &states[i])?;
    }
    Ok(())
}

fn add_region_opening(pieces: &mut Vec<Piece<'_>>, whole: u64, count: u64) -> Result<(), AllocError>
    ensures { OnOk result (parts pieces.new.items ≡ parts pieces.old.items ++ region_opening whole count) }
{
    add(
        pieces,
        &[
            Piece::Own("<h2 id=\"region\">The region: "),
            Piece::Number(whole),
            Piece::Own(" bytes, "),
            Piece::Number(count),
            Piece::Own(MAP),
        ],
    )
}

/// Adds the picture of these zones.
pub fn add_picture(
    alloc: Global,
    pieces: &mut Vec<Piece<'_>>,
    zones: &[Zone],
    report: &Report,
) -> Result<(), AllocError>
    ensures { OnOk result (parts pieces.new.items ≡ parts pieces.old.items ++ picture zones.now report.now) }
{
    add_region_opening(pieces, width(zones), zones.len() as u64)?;
    add_map(pieces, zones, report)?;
    add(pieces, &[Piece::Own(KEY)])?;
    let states = report.parts();
    let spots = spots_of(alloc, zones, states)?;
    add_spots(pieces, spots.as_slice())?;
    add(pieces, &[Piece::Own(ZONES)])?;
    add_rows(pieces, zones, report)?;
    add(pieces, &[Piece::Own("</table></div>\n")])?;
    Ok(())
}
