// Zones, layouts and readings as C sees them, and back.
ghost use Rattle.std.specs.Prelude.{◌≡◌, ◌≤◌, ◌^◌, ◌↔◌, IsTrue};
ghost use Rattle.zone_spec.specs.Zones.{IsValidZone, blocks_in};
ghost use Rattle.oopsbox_c.specs.Places.{kind_number, kind_in, byte_order_number, byte_order_in, state_number, place_of, zone_in, IsPlace};

use zone_spec::{ByteOrder, Kind, State, Zone, ZoneName};

/// A zone as C sees it. The kinds are 0 dump, 1 console, 2 ftrace, 3 pmsg, the orders of bytes 0 little, 1 big; the rest
/// is that of [`Zone`].
#[repr(C)]
#[derive(Clone, Copy, Debug, Default, PartialEq, Eq)]
pub struct ZonePlace {
    pub kind: u16,
    pub byte_order: u16,
    pub index: u32,
    pub at: u32,
    pub size: u32,
    pub cap: u32,
    pub blocks: u32,
    pub parity: u32,
    pub block: u32,
    pub sig: u32,
}

/// A layout's number of zones and bytes of memory, and where there is none the fault's number and the place of its
/// word, from 1; 0 where no word is at fault.
#[repr(C)]
#[derive(Clone, Copy, Debug, Default, PartialEq, Eq)]
pub struct LayoutAnswer {
    pub zones: u64,
    pub word: u64,
    pub mem: u32,
    pub fault: u32,
}

/// What a boot reads of a zone. The states are 0 unsigned, 1 empty, 2 invalid, 3 found; `log` is the log's length.
#[repr(C)]
#[derive(Clone, Copy, Debug, Default, PartialEq, Eq)]
pub struct ZoneAnswer {
    pub log: u64,
    pub state: u32,
    pub sig: u32,
    pub start: u32,
    pub size: u32,
    pub corrected: u32,
    pub bad: u32,
}

fn kind_number(kind: Kind) -> u16
    ensures { result ≡ kind_number kind }
{
    match kind {
        Kind::Dump => 0,
        Kind::Console => 1,
        Kind::Ftrace => 2,
        Kind::Pmsg => 3,
    }
}

fn byte_order_number(order: ByteOrder) -> u16
    ensures { result ≡ byte_order_number order }
{
    match order {
        ByteOrder::Little => 0,
        ByteOrder::Big => 1,
    }
}

/// The order of bytes of a number up to 1.
pub(crate) fn byte_order_in(number: u16) -> ByteOrder
    ensures { result ≡ byte_order_in number }
{
    if number == 0 {
        ByteOrder::Little
    } else {
        ByteOrder::Big
    }
}

/// The kind of a number up to 3.
pub(crate) fn kind_in(number: u32) -> Kind
    ensures { result ≡ kind_in number }
{
    match number {
        0 => Kind::Dump,
        1 => Kind::Console,
        2 => Kind::Ftrace,
        _ => Kind::Pmsg,
    }
}

pub(crate) fn state_number(state: State) -> u32
    ensures { result ≡ state_number state }
{
    match state {
        State::Unsigned => 0,
        State::Empty => 1,
        State::Invalid => 2,
        State::Found => 3,
    }
}

pub(crate) fn place_of(zone: &Zone) -> ZonePlace
    ensures { result ≡ place_of zone.now }
{
    ZonePlace {
        kind: kind_number(zone.name.kind),
        byte_order: byte_order_number(zone.byte_order),
        index: zone.name.index,
        at: zone.at,
        size: zone.size,
        cap: zone.cap,
        blocks: zone.blocks,
        parity: zone.parity,
        block: zone.block,
        sig: zone.sig,
    }
}

/// The zone of a place whose kind is one.
pub(crate) fn zone_in(place: &ZonePlace) -> Zone
    ensures { result ≡ zone_in place.now }
{
    Zone {
        name: ZoneName {
            kind: kind_in(u32::from(place.kind)),
            index: place.index,
        },
        at: place.at,
        size: place.size,
        cap: place.cap,
        blocks: place.blocks,
        parity: place.parity,
        sig: place.sig,
        block: place.block,
        byte_order: byte_order_in(place.byte_order),
    }
}

// Whether a zone of this size has so many blocks. Two products are faster than a division.
fn has_blocks(zone: &Zone) -> bool
    requires size { 256 ≤ zone.now.size }
    requires most { zone.now.size ≤ 2 ^ 24 }
    requires block { 32 ≤ zone.now.block }
    requires blocks { zone.now.block ≤ 128 }
    requires parity { zone.now.parity ≤ 127 }
    ensures { IsTrue result ↔ (zone.now.blocks ≡ blocks_in zone.now.size zone.now.parity zone.now.block) }
{
    let data = u64::from(zone.size - 12 - zone.parity);
    let whole = u64::from(zone.block + zone.parity);
    let covered = u64::from(zone.blocks) * whole;
    if covered < data {
        return false;
    }
    covered < data + whole
}

// Whether a layout can have a zone that is divided so.
fn is_valid(zone: &Zone) -> bool
    ensures { IsTrue result ↔ IsValidZone zone.now }
{
    if zone.block != 32 && zone.block != 64 && zone.block != 128 {
        return false;
    }
    if zone.size < 256 || zone.size > 0x100_0000 || zone.parity > 127 || zone.cap < 64 {
        return false;
    }
    if zone.cap > zone.size || zone.blocks > zone.size {
        return false;
    }
    if !has_blocks(zone) {
        return false;
    }
    u64::from(zone.cap) + (u64::from(zone.blocks) + 1) * u64::from(zone.parity) + 12
        == u64::from(zone.size)
}

/// Whether a layout can have a zone with this place.
pub(crate) fn is_place(place: &ZonePlace) -> bool
    ensures { IsTrue result ↔ IsPlace place.now }
{
    place.kind <= 3 && place.byte_order <= 1 && is_valid(&zone_in(place))
}
