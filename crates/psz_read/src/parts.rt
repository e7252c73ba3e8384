// Where the logs of the listed records stand.
ghost use Rattle.std.specs.Prelude.{◌≡◌, ◌++◌, slice_get, None, IfOk, OnOk};
ghost use Rattle.psz_spec.specs.Layouts.{zones_of, size_fault};
ghost use Rattle.psz_spec.specs.States.{zone_bytes as bytes_of};
ghost use Rattle.psz_spec.specs.Parts.{ring_log as ring_log_of, dump_log as dump_log_of, part_with as with_of};
ghost use Rattle.psz_spec.specs.Parts.{part_of as part_by, parts_of as parts_by, read_order, as_list};
ghost use Rattle.psz_read.specs.Rests.{part_at};

use crate::headers::{data_of, dump_header, header_len, words_of};
use crate::states::state_of;
use crate::zones::{read_at, zone_count};
use psz_spec::{Kind, Log, Machine, Part, Sizes, Span, State, Words, Zone};
use std::alloc::{AllocError, Global};

fn ring_log(zone: &Zone, words: Words) -> Log
    ensures { result ≡ ring_log_of zone.now words }
{
    Log {
        first: Span {
            at: u64::from(zone.at) + (12 + u64::from(words.start)),
            len: words.len.saturating_sub(words.start),
        },
        second: Span {
            at: u64::from(zone.at) + 12,
            len: words.start,
        },
    }
}

fn dump_log(machine: Machine, zone: &Zone, words: Words) -> Log
    ensures { result ≡ dump_log_of machine zone.now words }
{
    Log {
        first: Span {
            at: u64::from(zone.at) + (12 + u64::from(header_len(machine))),
            len: words.len.saturating_sub(header_len(machine)),
        },
        second: Span {
            at: u64::from(zone.at) + 12,
            len: 0,
        },
    }
}

fn part_with(machine: Machine, zone: &Zone, bytes: &[u8]) -> Part
    ensures { result ≡ with_of machine zone.now zone.now.kind bytes.now }
{
    let words = words_of(machine, bytes);
    match zone.kind {
        Kind::Dump => Part {
            zone: *zone,
            log: dump_log(machine, zone, words),
            header: Some(dump_header(machine, data_of(bytes))),
        },
        Kind::Pmsg | Kind::Console | Kind::Ftrace => Part {
            zone: *zone,
            log: ring_log(zone, words),
            header: None,
        },
    }
}

/// What the next boot lists of a zone, by its bytes. The first 52 are enough.
#[tactic(auto, unfolding(psz_spec::specs::Parts::part_of))]
pub fn part_of(machine: Machine, zone: &Zone, bytes: &[u8]) -> Option<Part>
    ensures { result ≡ part_by machine zone.now bytes.now }
{
    match state_of(machine, zone, bytes) {
        State::Found => Some(part_with(machine, zone, bytes)),
        State::Unsigned | State::Overtop | State::NoDump | State::Erased | State::Broken => None,
    }
}

/// A zone's own bytes of a storage; fewer where the storage ends before it.
pub fn zone_bytes<'a>(zone: &Zone, image: &'a [u8]) -> &'a [u8]
    ensures { result.now ≡ bytes_of zone.now image.now }
{
    let from = (zone.at as usize).min(image.len());
    let to = (zone.at as usize + zone.size as usize).min(image.len());
    &image[from..to]
}

fn next_part(machine: Machine, sizes: &Sizes, image: &[u8], index: u32) -> Option<Part>
    requires { size_fault sizes.now ≡ None }
    ensures { result ≡ part_at machine (slice_get (read_order (zones_of sizes.now)) index) image.now }
{
    match read_at(sizes, index) {
        None => None,
        Some(zone) => part_of(machine, &zone, zone_bytes(&zone, image)),
    }
}

fn add(parts: &mut Vec<Part>, part: Option<Part>) -> Result<(), AllocError>
    ensures { OnOk result (parts.new.items ≡ parts.old.items ++ as_list part) }
{
    if let Some(part) = part {
        parts.push(part)?;
    }
    Ok(())
}

/// What the next boot lists, in the order in which the kernel reads. The parts of the ftrace zones make one record.
pub fn parts_in(
    alloc: Global,
    machine: Machine,
    sizes: &Sizes,
    image: &[u8],
) -> Result<Vec<Part>, AllocError>
    requires { size_fault sizes.now ≡ None }
    ensures { IfOk result (λ parts. parts.items ≡ parts_by machine (read_order (zones_of sizes.now)) image.now) }
{
    let mut parts = Vec::new(alloc);
    let count = zone_count(sizes);
    for index in 0..count {
        let part = next_part(machine, sizes, image, index);
        add(&mut parts, part)?;
    }
    Ok(parts)
}
