// Parameters, sizes and zones, put onto a line.
ghost use Rattle.std.specs.Prelude.{◌≡◌, ◌<◌, List, ◌∷◌, length, map, replicate, codes, OnOk};
ghost use Rattle.json.specs.Token.{Token, key, begin_array, end_array};
ghost use Rattle.serde_json.specs.Data.{array, null};
ghost use Rattle.serde_json.specs.View.{items_of};
ghost use Rattle.report_json.specs.Schema.{parameters_data, sizes_data, division_data, part_data, blocks_data};
ghost use Rattle.report_json.specs.Schema.{words_data, layout_data, zone_data, kind_text, state_text};
ghost use Rattle.report_json.specs.Tokens.{onto, all_onto};
ghost use Rattle.report_json.specs.PutZones.{PutsZone, PutsZones};

use crate::tokens::Line;
use prz_read::{Logs, Reading};
use psz_spec::Sizes;
use region_report::{Division, PartState, ZoneParts};
use std::alloc::AllocError;
use zone_spec::{Kind, Params, State, Words, Zone};

/// The parameters as they were given.
fn put_parameters(line: &mut Line, p: &Params) -> Result<(), AllocError>
    ensures { OnOk result (line.new ≡ onto (parameters_data p.now) line.old) }
{
    line.begin_object()?;
    line.count("block_size", p.block)?;
    line.text("byte_order", p.byte_order.text())?;
    line.count("console_size", p.console)?;
    line.count("cpus", p.cpus)?;
    line.count("ecc", p.ecc)?;
    line.count("ecc_console", p.ecc_console)?;
    line.count("ecc_dump", p.ecc_dump)?;
    line.count("ecc_ftrace", p.ecc_ftrace)?;
    line.count("ecc_pmsg", p.ecc_pmsg)?;
    line.count("ftrace_sig", p.ftrace_sig as u64)?;
    line.count("ftrace_size", p.ftrace)?;
    line.count("mem_size", p.mem)?;
    line.text("order", p.order.text())?;
    line.count("pmsg_size", p.pmsg)?;
    line.count("record_size", p.dump)?;
    line.end_object()
}

fn put_sizes(line: &mut Line, s: &Sizes) -> Result<(), AllocError>
    ensures { OnOk result (line.new ≡ onto (sizes_data s.now) line.old) }
{
    line.begin_object()?;
    line.count("console_size", s.console as u64)?;
    line.count("cpus", s.cpus as u64)?;
    line.count("ftrace_size", s.ftrace as u64)?;
    line.count("kmsg_size", s.dump as u64)?;
    line.count("pmsg_size", s.pmsg as u64)?;
    line.count("total_size", s.total)?;
    line.end_object()
}

/// What divides the store into its zones.
pub fn put_division(line: &mut Line, division: &Division) -> Result<(), AllocError>
    ensures { OnOk result (line.new ≡ onto (division_data division.now) (key (codes "parameters") ∷ line.old)) }
{
    line.key("parameters")?;
    match division {
        Division::Region(params) => put_parameters(line, params),
        Division::Storage(sizes) => put_sizes(line, sizes),
    }
}

fn put_part(line: &mut Line, state: PartState) -> Result<(), AllocError>
    ensures { OnOk result (line.new ≡ onto (part_data state) line.old) }
{
    match state {
        PartState::Read(corrected) => line.number(corrected as u64),
        PartState::Bad => line.string("bad"),
    }
}

fn put_used(line: &mut Line, used: &[PartState]) -> Result<(), AllocError>
    ensures { OnOk result (line.new ≡ all_onto (map part_data used.now) line.old) }
{
    for state in used {
        put_part(line, *state)?;
    }
    Ok(())
}

#[tactic(auto, using(crate::proofs::Onto::arrays))]
fn put_unused(line: &mut Line, count: usize) -> Result<(), AllocError>
    ensures { OnOk result (line.new ≡ all_onto (replicate count null) line.old) }
{
    for _unused in 0..count {
        line.null()?;
    }
    Ok(())
}

#[tactic(auto, using(crate::proofs::Onto::arrays))]
fn put_blocks(line: &mut Line, zone: &Zone, used: &[PartState]) -> Result<(), AllocError>
    ensures { OnOk result (line.new
        ≡ onto (array (items_of (blocks_data zone.now used.now))) (key (codes "blocks") ∷ line.old)) }
{
    line.key("blocks")?;
    line.begin_array()?;
    put_used(line, used)?;
    put_unused(line, (zone.blocks as usize).saturating_sub(used.len()))?;
    line.end_array()
}

fn put_words(line: &mut Line, words: Words) -> Result<(), AllocError>
    ensures { OnOk result (line.new ≡ onto (words_data words) (key (codes "words") ∷ line.old)) }
{
    line.key("words")?;
    line.begin_object()?;
    line.count("signature", words.sig as u64)?;
    line.count("size", words.size as u64)?;
    line.count("start", words.start as u64)?;
    line.end_object()
}

fn kind_text(kind: Kind) -> &'static str
    ensures { result.now ≡ kind_text kind }
{
    match kind {
        Kind::Dump => "dump",
        Kind::Console => "console",
        Kind::Ftrace => "ftrace",
        Kind::Pmsg => "pmsg",
    }
}

fn state_text(state: State) -> &'static str
    ensures { result.now ≡ state_text state }
{
    match state {
        State::Unsigned => "unsigned",
        State::Empty => "empty",
        State::Invalid => "invalid",
        State::Found => "found",
    }
}

fn put_layout(line: &mut Line, zone: &Zone) -> Result<(), AllocError>
    ensures { OnOk result (line.new ≡ onto (layout_data zone.now) (key (codes "layout") ∷ line.old)) }
{
    line.key("layout")?;
    line.begin_object()?;
    line.count("at", zone.at as u64)?;
    line.count("block_size", zone.block as u64)?;
    line.count("capacity", zone.cap as u64)?;
    line.count("parity", zone.parity as u64)?;
    line.count("size", zone.size as u64)?;
    line.end_object()
}

fn put_zone(
    line: &mut Line,
    zone: &Zone,
    reading: &Reading,
    parts: &ZoneParts,
) -> Result<(), AllocError>
    ensures { OnOk result (line.new ≡ onto (zone_data zone.now reading.now parts.now) line.old) }
{
    line.begin_object()?;
    line.count("bad", reading.bad as u64)?;
    put_blocks(line, zone, &parts.blocks)?;
    line.count("corrected", reading.corrected as u64)?;
    line.key("header")?;
    put_part(line, parts.header)?;
    line.count("index", zone.name.index as u64)?;
    line.text("kind", kind_text(zone.name.kind))?;
    put_layout(line, zone)?;
    line.text("state", state_text(reading.state))?;
    put_words(line, reading.words)?;
    line.end_object()
}

/// The zone at a place.
fn put_at(
    line: &mut Line,
    zones: &[Zone],
    logs: &Logs,
    parts: &[ZoneParts],
    i: u32,
) -> Result<(), AllocError>
    requires readings { i < length logs.now.readings }
    requires zones { i < length zones.now }
    requires parts { i < length parts.now }
    ensures { OnOk result (PutsZone zones.now logs.now.readings parts.now i line.old line.new) }
{
    let place = i as usize;
    match logs.reading(i) {
        Some(reading) => put_zone(line, &zones[place], reading, &parts[place]),
        None => line.null(),
    }
}

fn put_each(
    line: &mut Line,
    zones: &[Zone],
    logs: &Logs,
    parts: &[ZoneParts],
) -> Result<(), AllocError>
    requires readings { length logs.now.readings ≡ length zones.now }
    requires parts { length parts.now ≡ length zones.now }
    ensures { OnOk result (PutsZones zones.now logs.now.readings parts.now (length zones.now) line.old line.new) }
{
    for i in 0..logs.len() {
        put_at(line, zones, logs, parts, i)?;
    }
    Ok(())
}

/// The zones in the layout's order.
pub fn put_zones(
    line: &mut Line,
    zones: &[Zone],
    logs: &Logs,
    parts: &[ZoneParts],
) -> Result<(), AllocError>
    requires readings { length logs.now.readings ≡ length zones.now }
    requires parts { length parts.now ≡ length zones.now }
    ensures { OnOk result ((between : List Token) × PutsZones zones.now logs.now.readings parts.now (length zones.now)
        (begin_array ∷ key (codes "zones") ∷ line.old) between × (line.new ≡ end_array ∷ between)) }
{
    line.key("zones")?;
    line.begin_array()?;
    put_each(line, zones, logs, parts)?;
    line.end_array()
}
