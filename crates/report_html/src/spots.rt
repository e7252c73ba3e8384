// The headers and blocks that are not clean.
ghost use Rattle.std.specs.Prelude.{◌≡◌, ◌<◌, ◌^◌, ◌++◌, flat_map, IfOk, OnOk};
ghost use Rattle.report_html.specs.Pieces.{parts};
ghost use Rattle.report_html.specs.Pictures.{runs};
ghost use Rattle.report_html.specs.Spots.{is_clean, unclean, run_spots, zone_spots, spots_of, stretch_parts, place_of};
ghost use Rattle.report_html.specs.Spots.{size_of, each_words, verdict_parts, spot_parts, open_words, spots_opening};
ghost use Rattle.report_html.specs.Spots.{spots_parts};

use crate::block_runs::{add_numbers, block_at, run_end};
use crate::pieces::{Piece, add};
use crate::region::add_zone_name;
use crate::words::{CELL, CLEAN, SPOTS};
use region_report::{PartState, ZoneParts};
use std::alloc::{AllocError, Global};
use zone_spec::Zone;

/// The header of a zone, or its blocks from one up to another.
#[derive(Clone, Copy)]
pub enum Stretch {
    Header,
    Blocks { from: u64, to: u64 },
}

/// A header or blocks that read alike.
#[derive(Clone, Copy)]
pub struct Spot {
    pub zone: Zone,
    pub stretch: Stretch,
    pub state: PartState,
}

fn is_clean(state: PartState) -> bool
    ensures { result ≡ is_clean state }
{
    match state {
        PartState::Read(n) => n == 0,
        PartState::Bad => false,
    }
}

fn push_unclean(spots: &mut Vec<Spot>, spot: Spot) -> Result<(), AllocError>
    ensures { OnOk result (spots.new.items ≡ spots.old.items ++ unclean spot) }
{
    if is_clean(spot.state) {
        return Ok(());
    }
    spots.push(spot)?;
    Ok(())
}

fn push_blocks(spots: &mut Vec<Spot>, zone: &Zone, blocks: &[PartState]) -> Result<(), AllocError>
    ensures { OnOk result (spots.new.items
        ≡ spots.old.items ++ flat_map (run_spots zone.now) (runs 0 blocks.now)) }
{
    let mut from = 0;
    while from < blocks.len() {
        let to = run_end(blocks, from);
        let stretch = Stretch::Blocks {
            from: from as u64,
            to: to as u64,
        };
        push_unclean(
            spots,
            Spot {
                zone: *zone,
                stretch,
                state: blocks[from],
            },
        )?;
        from = to;
    }
    Ok(())
}

fn push_zone(spots: &mut Vec<Spot>, zone: &Zone, states: &ZoneParts) -> Result<(), AllocError>
    ensures { OnOk result (spots.new.items ≡ spots.old.items ++ zone_spots (zone.now, states.now)) }
{
    let header = Spot {
        zone: *zone,
        stretch: Stretch::Header,
        state: states.header,
    };
    push_unclean(spots, header)?;
    push_blocks(spots, zone, states.blocks.as_slice())
}

/// What is not clean of these zones.
pub fn spots_of(
    alloc: Global,
    zones: &[Zone],
    states: &[ZoneParts],
) -> Result<Vec<Spot>, AllocError>
    ensures { IfOk result (λ spots. spots.items ≡ spots_of zones.now states.now) }
{
    let mut spots = Vec::new(alloc);
    for i in 0..zones.len().min(states.len()) {
        push_zone(&mut spots, &zones[i], &states[i])?;
    }
    Ok(spots)
}

fn add_stretch(pieces: &mut Vec<Piece<'_>>, stretch: Stretch) -> Result<(), AllocError>
    ensures { OnOk result (parts pieces.new.items ≡ parts pieces.old.items ++ stretch_parts stretch) }
{
    match stretch {
        Stretch::Header => add(pieces, &[Piece::Own("header")]),
        Stretch::Blocks { from, to } => add_numbers(pieces, from, to),
    }
}

/// Where a stretch begins in the region.
fn place_of(zone: &Zone, stretch: Stretch) -> u64
    ensures { result ≡ place_of zone.now stretch }
{
    let at = u64::from(zone.at);
    match stretch {
        Stretch::Header => at,
        Stretch::Blocks { from, .. } => at + 12 + block_at(zone, from),
    }
}

/// How many bytes it has.
fn size_of(zone: &Zone, stretch: Stretch) -> u64
    ensures { result ≡ size_of zone.now stretch }
{
    match stretch {
        Stretch::Header => 12,
        Stretch::Blocks { from, to } => block_at(zone, to).saturating_sub(block_at(zone, from)),
    }
}

fn each_text(stretch: Stretch) -> &'static str
    ensures { result.now ≡ each_words stretch }
{
    match stretch {
        Stretch::Blocks { from, to } if to.saturating_sub(from) != 1 => " in each",
        _ => "",
    }
}

/// Adds how a stretch reads.
fn add_verdict(
    pieces: &mut Vec<Piece<'_>>,
    stretch: Stretch,
    state: PartState,
) -> Result<(), AllocError>
    ensures { OnOk result (parts pieces.new.items ≡ parts pieces.old.items ++ verdict_parts stretch state) }
{
    match state {
        PartState::Read(n) => add(
            pieces,
            &[
                Piece::Own("<span class=\"fix\">corrected "),
                Piece::Number(u64::from(n)),
                Piece::Own(each_text(stretch)),
                Piece::Own("</span>"),
            ],
        ),
        PartState::Bad => add(pieces, &[Piece::Own("<span class=\"bad\">bad</span>")]),
    }
}

/// Adds a row.
fn add_spot(pieces: &mut Vec<Piece<'_>>, spot: &Spot) -> Result<(), AllocError>
    ensures { OnOk result (parts pieces.new.items ≡ parts pieces.old.items ++ spot_parts spot.now) }
{
    add(pieces, &[Piece::Own("<tr><th scope=\"row\">")])?;
    add_zone_name(pieces, &spot.zone)?;
    add(pieces, &[Piece::Own("</th><td class=\"n\">")])?;
    add_stretch(pieces, spot.stretch)?;
    add(
        pieces,
        &[
            Piece::Own(CELL),
            Piece::Number(place_of(&spot.zone, spot.stretch)),
            Piece::Own(CELL),
            Piece::Number(size_of(&spot.zone, spot.stretch)),
            Piece::Own("</td><td>"),
        ],
    )?;
    add_verdict(pieces, spot.stretch, spot.state)?;
    add(pieces, &[Piece::Own("</td></tr>\n")])?;
    Ok(())
}

fn open_text(count: u64) -> &'static str
    ensures { result.now ≡ open_words count }
{
    if count > 32 { "" } else { " open" }
}

fn add_spots_opening(pieces: &mut Vec<Piece<'_>>, count: u64) -> Result<(), AllocError>
    ensures { OnOk result (parts pieces.new.items ≡ parts pieces.old.items ++ spots_opening count) }
{
    add(
        pieces,
        &[
            Piece::Own("<details"),
            Piece::Own(open_text(count)),
            Piece::Own("><summary><b>Headers and blocks that are not clean: "),
            Piece::Number(count),
            Piece::Own(SPOTS),
        ],
    )
}

fn add_each(pieces: &mut Vec<Piece<'_>>, spots: &[Spot]) -> Result<(), AllocError>
    ensures { OnOk result (parts pieces.new.items ≡ parts pieces.old.items ++ flat_map spot_parts spots.now) }
{
    for spot in spots {
        add_spot(pieces, spot)?;
    }
    Ok(())
}

/// Adds the table of them, or that there is none.
pub fn add_spots(pieces: &mut Vec<Piece<'_>>, spots: &[Spot]) -> Result<(), AllocError>
    ensures { OnOk result (parts pieces.new.items ≡ parts pieces.old.items ++ spots_parts spots.now) }
{
    if spots.is_empty() {
        return add(pieces, &[Piece::Own(CLEAN)]);
    }
    add_spots_opening(pieces, spots.len() as u64)?;
    add_each(pieces, spots)?;
    add(pieces, &[Piece::Own("</table></div>\n</details>\n")])
}
