// What a boot reads of a zone before its first store.
ghost use Rattle.std.specs.Prelude.{◌≡◌, ◌+◌, ◌-◌, ◌*◌, ◌/◌, ◌<◌, ◌++◌, [], if◌then◌else◌, ◌==◌, ◌||◌, ◌&&◌, not};
ghost use Rattle.std.specs.Prelude.{length};
ghost use Rattle.zone_spec.specs.declared.Kind.TheVariants.{Dump};
ghost use Rattle.zone_spec.specs.declared.State.TheVariants.{Found};
ghost use Rattle.zone_spec.specs.Zones.{IsValidZone};
ghost use Rattle.zone_spec.specs.PartReadings.{words_read};
ghost use Rattle.zone_spec.specs.Reading.{ZoneReading, zone_reading, state_of as state_for};
ghost use Rattle.zone_spec.specs.TimeLines.{has_line};
ghost use Rattle.zone_spec.specs.Calls.{erase_stages};
ghost use Rattle.zone_spec.specs.Boot.{keeps as keeps_zone, signing};
ghost use Rattle.rs_encode.specs.Lanes.{IsLent};
ghost use Rattle.zone_boot.specs.Left.{stages_of};

use crate::copying::copy_log;
use dump_records::read_line;
use zone_spec::{Kind, State, Words, Zone};

/// What a boot does after its corrections: it keeps the zone, erases it, or stores its signature and erases it.
#[derive(Clone, Copy, Debug, PartialEq, Eq)]
pub enum Erasure {
    Kept,
    Erased,
    Signed,
}

/// Whether the log begins with a time line, by its first 36 bytes.
fn begins_with_line(table: &[u128], image: &[u8], zone: &Zone) -> bool
    requires table { IsLent zone.now.parity table.now }
    requires valid { IsValidZone zone.now }
    requires size { length image.now ≡ zone.now.size }
    ensures { result ≡ has_line (zone_reading zone.now image.now).log }
{
    let mut front = [0; 36];
    let count = copy_log(table, image, zone, 0, &mut front);
    read_line(&front[..count]).is_some()
}

// Whether a ring with these words can be appended to.
fn is_open(words: Words, cap: u32) -> bool
    ensures { result ≡ ((words.start == words.size || words.size == cap) && not (words.start == cap)) }
{
    (words.start == words.size || words.size == cap) && words.start != cap
}

/// Whether a boot leaves a zone with these words, which make this state, without erasing it (`fs/pstore/ram.c`). That
/// an ftrace ring which cannot be appended to is erased is the project's own choice. `is_timed` counts only for a dump
/// that was found: whether its log begins with a time line.
pub fn keeps(zone: &Zone, words: Words, state: State, is_timed: bool) -> bool
    ensures { (reading : ZoneReading) → reading.words ≡ words → reading.state ≡ state
        → (zone.now.name.kind ≡ Dump → state ≡ Found → is_timed ≡ has_line reading.log)
        → result ≡ keeps_zone zone.now reading }
{
    match (state, zone.name.kind) {
        (State::Found, Kind::Dump) => is_timed,
        (State::Found, Kind::Ftrace) => is_open(words, zone.cap),
        (State::Empty, _) => true,
        _ => false,
    }
}

/// As [`keeps`], of a zone in place. Only a dump that was found is asked for its time line.
pub(crate) fn keeps_in_place(
    table: &[u128],
    image: &[u8],
    zone: &Zone,
    words: Words,
    state: State,
) -> bool
    requires table { IsLent zone.now.parity table.now }
    requires valid { IsValidZone zone.now }
    requires size { length image.now ≡ zone.now.size }
    requires words { words ≡ words_read zone.now image.now }
    requires state { state ≡ state_for zone.now words }
    ensures { result ≡ keeps_zone zone.now (zone_reading zone.now image.now) }
{
    let is_timed = match (state, zone.name.kind) {
        (State::Found, Kind::Dump) => begins_with_line(table, image, zone),
        _ => false,
    };
    keeps(zone, words, state, is_timed)
}

/// What a boot does after its corrections of a zone in this state.
pub(crate) fn erasure_of(zone: &Zone, state: State, is_kept: bool) -> Erasure
    ensures { stages_of zone.now result ≡ (if is_kept then [] else signing zone.now state ++ erase_stages) }
{
    if is_kept {
        return Erasure::Kept;
    }
    match state {
        State::Unsigned => Erasure::Signed,
        _ => Erasure::Erased,
    }
}

/// How many blocks a boot corrects.
pub(crate) fn block_count(zone: &Zone, words: Words, state: State) -> u32
    requires valid { IsValidZone zone.now }
    requires state { state ≡ state_for zone.now words }
    ensures found { state ≡ Found → result ≡ (words.size + zone.now.block - 1) / zone.now.block }
    ensures none { (state ≡ Found → ⊥) → result ≡ 0 }
    ensures fits { zone.now.block * result < zone.now.cap + zone.now.block }
{
    match state {
        State::Found => words.size.div_ceil(zone.block),
        _ => 0,
    }
}
