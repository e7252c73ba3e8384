// The zones of each kind, and what is wrong with them.
ghost use Rattle.std.specs.Prelude.{◌≡◌, ℕ, ◌≤◌, ◌<◌, ◌^◌, ◌==◌, ◌&&◌, ◌+◌, ◌*◌, ◌||◌, [], ◌∷◌, nat_lt, sum_by, None};
ghost use Rattle.std.specs.List.{All, list_any, list_all};
ghost use Rattle.zone_spec.specs.Layout.{rounded as rounded_of, ecc_of, rows as rows_of, zone_at as zone_of};
ghost use Rattle.zone_spec.specs.Layout.{parameter_faults, first_fault, zone_faults, zones_from, dump_memory, tag_of};
ghost use Rattle.zone_spec.specs.Layout.{ordered, dump_row as dump_row_of, one_row as one_row_of};
ghost use Rattle.zone_spec.specs.Layout.{ftrace_row as ftrace_row_of};
ghost use Rattle.zone_spec.specs.Layouts.{zone_place};
ghost use Rattle.zone_spec.specs.Records.{is_of};
ghost use Rattle.zone_spec.specs.Zones.{blocks_in as blocks_of};
ghost use Rattle.zone_spec.specs.declared.params.Params.{Params as ParamsValue};

use zone_spec::{Kind, LayoutFault, Order, Params, Row, Zone, ZoneName};

const SIGNATURE: u32 = 0x43474244;

pub const MOST_MEMORY: u64 = 16_777_216;

const LEAST_ZONE: u64 = 256;

const LEAST_CAPACITY: u32 = 64;

const HEADER: u64 = 12;

/// A size rounded down to a power of two.
pub fn rounded(size: u64) -> u64
    ensures { result ≡ rounded_of size }
{
    if size == 0 { 0 } else { 1 << size.ilog2() }
}

/// The parity bytes of a kind.
pub fn parity(p: &Params, kind: Kind) -> u64
    ensures { result ≡ ecc_of p.now kind }
{
    match kind {
        Kind::Dump => p.ecc_dump,
        Kind::Console => p.ecc_console,
        Kind::Ftrace => p.ecc_ftrace,
        Kind::Pmsg => p.ecc_pmsg,
    }
}

/// The first fault that holds.
pub fn first(faults: &[(bool, LayoutFault)]) -> Option<LayoutFault>
    ensures { result ≡ first_fault faults.now }
{
    for (holds, fault) in faults {
        if *holds {
            return Some(*fault);
        }
    }
    None
}

/// Whether no zone has a size.
pub fn is_empty(p: &Params) -> bool
    ensures { result ≡ list_all (λ size. rounded_of size == 0)
        (p.now.dump ∷ p.now.console ∷ p.now.ftrace ∷ p.now.pmsg ∷ []) }
{
    rounded(p.dump) == 0
        && rounded(p.console) == 0
        && rounded(p.ftrace) == 0
        && rounded(p.pmsg) == 0
}

/// Whether a kind would have more than 127 parity bytes.
pub fn is_ecc_large(p: &Params) -> bool
    ensures { result ≡ list_any (nat_lt 127) (p.now.ecc ∷ p.now.ecc_dump ∷ p.now.ecc_console ∷ p.now.ecc_ftrace
        ∷ p.now.ecc_pmsg ∷ []) }
{
    p.ecc > 127 || p.ecc_dump > 127 || p.ecc_console > 127 || p.ecc_ftrace > 127 || p.ecc_pmsg > 127
}

/// Whether this is the size of a parity block.
pub fn is_block(size: u64) -> bool
    ensures { result ≡ list_any (λ k. size == k) (32 ∷ 64 ∷ 128 ∷ []) }
{
    size == 32 || size == 64 || size == 128
}

fn lacks_room(p: &Params) -> bool
    ensures { result ≡ (nat_lt p.now.mem (rounded_of p.now.console + rounded_of p.now.ftrace
        + rounded_of p.now.pmsg)
        || (nat_lt 0 (dump_memory p.now) && nat_lt (dump_memory p.now) (rounded_of p.now.dump))) }
{
    let console = rounded(p.console);
    let ftrace = rounded(p.ftrace);
    let pmsg = rounded(p.pmsg);
    let dumps = p
        .mem
        .saturating_sub(console)
        .saturating_sub(ftrace)
        .saturating_sub(pmsg);
    u128::from(console) + u128::from(ftrace) + u128::from(pmsg) > u128::from(p.mem)
        || (dumps > 0 && dumps < rounded(p.dump))
}

/// The first fault of the parameters, before any zone is looked at.
pub fn parameter_fault(p: &Params) -> Option<LayoutFault>
    ensures { result ≡ first_fault (parameter_faults p.now) }
{
    first(&[
        (p.mem == 0, LayoutFault::NoMemory),
        (is_empty(p), LayoutFault::NoZone),
        (p.mem > MOST_MEMORY, LayoutFault::TooLarge),
        (is_ecc_large(p), LayoutFault::EccTooLarge),
        (!is_block(p.block), LayoutFault::BlockBad),
        (p.cpus == 0 || p.cpus > 64, LayoutFault::CpusBad),
        (lacks_room(p), LayoutFault::NoRoom),
    ])
}

// These rows, the last two in their order.
fn in_order(order: Order, dump: Row, console: Row, ftrace: Row, pmsg: Row) -> [Row; 4]
    ensures { result ≡ dump ∷ console ∷ ordered order ftrace pmsg }
{
    match order {
        Order::FtracePmsg => [dump, console, ftrace, pmsg],
        Order::PmsgFtrace => [dump, console, pmsg, ftrace],
    }
}

// The dump zones, in the memory that the other zones leave.
fn dump_row(p: &Params) -> Row
    requires { first_fault (parameter_faults p.now) ≡ None }
    ensures { result ≡ dump_row_of p.now }
{
    let record = rounded(p.dump);
    let memory = p.mem - rounded(p.console) - rounded(p.ftrace) - rounded(p.pmsg);
    let dumps = if record == 0 { 0 } else { memory / record };
    let size = if dumps == 0 { 0 } else { memory / dumps };
    Row {
        kind: Kind::Dump,
        count: dumps,
        size: size / 2 * 2,
    }
}

// A zone of this size, or none of size 0.
fn one_row(kind: Kind, size: u64) -> Row
    ensures { result ≡ one_row_of kind size }
{
    Row {
        kind,
        count: u64::from(size != 0),
        size,
    }
}

fn ftrace_row(p: &Params) -> Row
    requires { first_fault (parameter_faults p.now) ≡ None }
    ensures { result ≡ ftrace_row_of p.now }
{
    let all = rounded(p.ftrace);
    Row {
        kind: Kind::Ftrace,
        count: if all == 0 { 0 } else { p.cpus },
        size: all / p.cpus / 2 * 2,
    }
}

/// The zones of each kind, in the order in which they lie.
pub fn rows(p: &Params) -> [Row; 4]
    requires { first_fault (parameter_faults p.now) ≡ None }
    ensures { result ≡ rows_of p.now }
{
    in_order(
        p.order,
        dump_row(p),
        one_row(Kind::Console, rounded(p.console)),
        ftrace_row(p),
        one_row(Kind::Pmsg, rounded(p.pmsg)),
    )
}

fn tag(p: &Params, kind: Kind) -> u32
    ensures { result ≡ tag_of p.now kind }
{
    match kind {
        Kind::Ftrace => p.ftrace_sig,
        Kind::Dump | Kind::Console | Kind::Pmsg => 0,
    }
}

// The parity blocks of a zone of this size.
fn blocks_in(size: u64, parity: u64, block: u64) -> u64
    requires size { size ≤ 2 ^ 24 }
    requires parity { parity ≤ 127 }
    requires positive { 0 < block }
    requires block { block ≤ 128 }
    ensures value { result ≡ blocks_of size parity block }
    ensures bound { result ≤ 2 ^ 24 + 256 }
{
    let part = block + parity;
    (size.saturating_sub(HEADER).saturating_sub(parity) + part - 1) / part
}

/// A zone of this size from this place on, with the parity of its kind.
pub fn zone_at(p: &Params, kind: Kind, size: u64, index: u64, at: u64) -> Zone
    requires faultless { first_fault (parameter_faults p.now) ≡ None }
    requires size { size ≤ 2 ^ 24 }
    requires index { index < 2 ^ 32 }
    requires at { at < 2 ^ 32 }
    ensures { result ≡ zone_of p.now kind size index at }
{
    let parity = parity(p, kind);
    let blocks = blocks_in(size, parity, p.block);
    let cap = size
        .saturating_sub(HEADER)
        .saturating_sub((blocks + 1) * parity);
    Zone {
        name: ZoneName {
            kind,
            index: index as u32,
        },
        at: at as u32,
        size: size as u32,
        cap: cap as u32,
        blocks: blocks as u32,
        parity: parity as u32,
        sig: SIGNATURE ^ tag(p, kind),
        block: p.block as u32,
        byte_order: p.byte_order,
    }
}

/// Whether a zone of these rows has too few bytes.
pub fn has_small(rows: &[Row]) -> bool
    ensures { result ≡ list_any (λ row. nat_lt 0 row.count && nat_lt row.size 256) rows.now }
{
    rows.iter()
        .any(|row| row.count > 0 && row.size < LEAST_ZONE)
}

/// Whether parity leaves a zone of these rows too little room.
pub fn has_tight(p: &Params, rows: &[Row]) -> bool
    requires faultless { first_fault (parameter_faults p.now) ≡ None }
    requires sizes { All (λ row. row.size ≤ 2 ^ 24) rows.now }
    ensures { result ≡ list_any (λ row. nat_lt 0 row.count && nat_lt (zone_of p.now row.kind row.size 0 0).cap 64)
        rows.now }
{
    for row in rows {
        if row.count > 0 && zone_at(p, row.kind, row.size, 0, 0).cap < LEAST_CAPACITY {
            return true;
        }
    }
    false
}

/// The first fault of the zones of these rows.
pub fn zone_fault(p: &Params, rows: &[Row]) -> Option<LayoutFault>
    requires faultless { first_fault (parameter_faults p.now) ≡ None }
    requires rows { rows.now ≡ rows_of p.now }
    ensures { result ≡ first_fault (zone_faults (zones_from p.now 0 (rows_of p.now))) }
{
    first(&[
        (has_small(rows), LayoutFault::ZoneTooSmall),
        (has_tight(p, rows), LayoutFault::EccInvalid),
    ])
}

pub(crate) fn holds(row: Row, name: ZoneName) -> bool
    ensures { result ≡ (is_of name.kind row.kind && nat_lt name.index row.count) }
{
    row.kind == name.kind && u64::from(name.index) < row.count
}

/// The place of the zone of this name among those of these rows.
pub fn place(rows: &[Row], name: ZoneName) -> Option<u32>
    requires { sum_by (λ row. row.count) rows.now < 2 ^ 32 }
    ensures { (p : ParamsValue) (at : ℕ) → result ≡ zone_place (zones_from p at rows.now) name }
{
    let mut first = 0;
    for row in rows {
        if holds(*row, name) {
            return Some((first + u64::from(name.index)) as u32);
        }
        first += row.count;
    }
    None
}
