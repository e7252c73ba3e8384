// A layout, and one zone of an image.
ghost use Rattle.std.specs.Prelude.{◌≡◌, ◌+◌, ◌≤◌, length, MatchResult, IfOk};
ghost use Rattle.zone_spec.specs.Zones.{IsValidZone};
ghost use Rattle.zone_spec.specs.Reading.{zone_reading};
ghost use Rattle.ramoops_layout.specs.Laid.{params_of, zones_of};
ghost use Rattle.machine_spec.specs.Zones.{zone_bytes};
ghost use Rattle.oopsbox_c.specs.Zones.{fault_word, PlacesOf, IsLaid, IsNoLayout, TellsLayout, TellsFault, LayoutEnds};
ghost use Rattle.oopsbox_c.specs.Zones.{TellsReading, ReadsZone, ZoneEnds};

use crate::End;
use crate::places::{LayoutAnswer, ZoneAnswer, ZonePlace, place_of, state_number};
use prz_read::{Reading, read_zone};
use prz_region::Probe;
use ramoops_layout::types::Layout;
use ramoops_layout::{LayoutError, ParamFault, layout, read_words};
use report_entry::{WordsFault, fill, read_words_of};
use std::alloc::{AllocError, Global};
use zone_spec::{LayoutFault, Zone};

/// Why a text has no layout.
#[derive(Clone, Copy, Debug, PartialEq, Eq)]
enum NoLayout {
    NotText,
    Word(ParamFault),
    Layout(LayoutFault),
    Memory,
}

fn store_zones(zones: &[Zone], places: &mut [ZonePlace])
    requires { length zones.now ≤ length places.old }
    ensures { PlacesOf zones.now places.old places.new }
{
    for i in 0..zones.len() {
        places[i] = place_of(&zones[i]);
    }
}

// The layout of the parameters in a text.
fn layout_in(alloc: Global, params: &[u8]) -> Result<Layout, NoLayout>
    ensures { MatchResult result (λ l. IsLaid params.now (params_of l) (zones_of l))
        (λ fault. IsNoLayout fault params.now) }
{
    let words = match read_words_of(alloc, params) {
        Ok(words) => words,
        Err(WordsFault::NotText) => return Err(NoLayout::NotText),
        Err(WordsFault::Memory) => return Err(NoLayout::Memory),
    };
    let params = match read_words(&words) {
        Ok(params) => params,
        Err(fault) => return Err(NoLayout::Word(fault)),
    };
    match layout(alloc, &params) {
        Ok(layout) => Ok(layout),
        Err(LayoutError::Fault(fault)) => Err(NoLayout::Layout(fault)),
        Err(LayoutError::Memory) => Err(NoLayout::Memory),
    }
}

// The place of a faulty word, from 1.
fn fault_word(fault: ParamFault) -> u64
    ensures { result ≡ fault_word fault }
{
    match fault {
        ParamFault::UnknownKey(place) => u64::from(place) + 1,
        ParamFault::Twice(place) => u64::from(place) + 1,
        ParamFault::NotANumber(place) => u64::from(place) + 1,
    }
}

fn tell_layout(layout: &Layout, places: &mut [ZonePlace], answer: &mut LayoutAnswer) -> End
    ensures { TellsLayout result (params_of layout.now) (zones_of layout.now) places.old places.new answer.new }
{
    let zones = layout.zones();
    *answer = LayoutAnswer {
        zones: zones.len() as u64,
        word: 0,
        mem: layout.mem(),
        fault: 0,
    };
    if places.len() < zones.len() {
        return End::Room;
    }
    store_zones(zones, places);
    End::Done
}

fn tell_fault(fault: NoLayout, answer: &mut LayoutAnswer) -> End
    ensures { TellsFault result fault answer.old answer.new }
{
    let (number, word) = match fault {
        NoLayout::NotText => return End::Argument,
        NoLayout::Memory => return End::Memory,
        NoLayout::Word(fault) => (fault.number(), fault_word(fault)),
        NoLayout::Layout(fault) => (fault.number(), 0),
    };
    *answer = LayoutAnswer {
        zones: 0,
        word,
        mem: 0,
        fault: number,
    };
    End::Fault
}

/// Tells the zones of the parameters in a text, or the first fault.
pub fn lay_out(
    alloc: Global,
    params: &[u8],
    places: &mut [ZonePlace],
    answer: &mut LayoutAnswer,
) -> End
    ensures { LayoutEnds result params.now places.old places.new answer.old answer.new }
{
    match layout_in(alloc, params) {
        Ok(layout) => tell_layout(&layout, places, answer),
        Err(fault) => tell_fault(fault, answer),
    }
}

// The reading of a zone that lies in the image.
fn read_place(alloc: Global, image: &[u8], zone: &Zone) -> Result<Reading, AllocError>
    requires valid { IsValidZone zone.now }
    requires within { zone.now.at + zone.now.size ≤ length image.now }
    ensures { IfOk result (λ r. r ≡ zone_reading zone.now (zone_bytes zone.now image.now)) }
{
    let from = zone.at as usize;
    let mut probe = Probe::new(alloc, zone.size)?;
    probe.fill(0, &image[from..from + zone.size as usize]);
    read_zone(alloc, probe.span(), zone)
}

fn tell_reading(reading: &Reading, log: &mut [u8], answer: &mut ZoneAnswer) -> End
    ensures { TellsReading reading.now result log.old log.new answer.new }
{
    let bytes = reading.log.as_slice();
    *answer = ZoneAnswer {
        log: bytes.len() as u64,
        state: state_number(reading.state),
        sig: reading.words.sig,
        start: reading.words.start,
        size: reading.words.size,
        corrected: reading.corrected,
        bad: reading.bad,
    };
    if log.len() < bytes.len() {
        return End::Room;
    }
    fill(bytes, log);
    End::Done
}

fn read_in(
    alloc: Global,
    layout: &Layout,
    index: u32,
    image: &[u8],
    log: &mut [u8],
    answer: &mut ZoneAnswer,
) -> End
    ensures { ReadsZone result (zones_of layout.now) index image.now log.old log.new answer.old answer.new }
{
    let zones = layout.zones();
    if index as usize >= zones.len() {
        return End::Argument;
    }
    let zone = &zones[index as usize];
    if image.len() < zone.at as usize + zone.size as usize {
        return End::Short;
    }
    match read_place(alloc, image, zone) {
        Ok(reading) => tell_reading(&reading, log, answer),
        Err(_) => End::Memory,
    }
}

/// Tells what a boot reads of zone `index` of the layout in an image.
pub fn read_zone_in(
    alloc: Global,
    params: &[u8],
    index: u32,
    image: &[u8],
    log: &mut [u8],
    answer: &mut ZoneAnswer,
) -> End
    ensures { ZoneEnds result params.now index image.now log.old log.new answer.old answer.new }
{
    match layout_in(alloc, params) {
        Ok(layout) => read_in(alloc, &layout, index, image, log, answer),
        Err(NoLayout::NotText) => End::Argument,
        Err(NoLayout::Memory) => End::Memory,
        Err(NoLayout::Word(_) | NoLayout::Layout(_)) => End::Fault,
    }
}
