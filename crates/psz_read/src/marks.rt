// Headers that stand in a storage, found from its bytes.
ghost use Rattle.std.specs.Prelude.{◌≡◌, ◌*◌, ◌/◌, ◌^◌, ◌<◌, ◌++◌, length, drop, IfOk, OnOk};
ghost use Rattle.psz_spec.specs.Marks.{kind_of as kind_by, is_whole as is_whole_of, mark_at as mark_in, as_marks};
ghost use Rattle.psz_spec.specs.Marks.{order_at as order_by, order_in as order_shown, marks_in as all_marks};
ghost use Rattle.psz_spec.specs.Marks.{packed_place as packed_place_of, little_machine as little_machine_of};
ghost use Rattle.psz_spec.specs.Marks.{machine_in as machine_by_marks};
ghost use Rattle.psz_spec.specs.Marks.{reads_as as reads_as_of, machine_shown as machine_by};

use crate::headers::{data_of, dump_header, word};
use crate::shown::is_of;
use crate::states::MAGIC;
use psz_spec::{Kind, Machine, Mark};
use std::alloc::{AllocError, Global};
use zone_spec::ByteOrder;

fn kind_of(sig: u32) -> Option<Kind>
    ensures { result ≡ kind_by sig }
{
    match sig {
        0x4347_4244 => Some(Kind::Dump),
        0x4347_4246 => Some(Kind::Console),
        0x4347_4247 => Some(Kind::Ftrace),
        0x4347_4243 => Some(Kind::Pmsg),
        _ => None,
    }
}

fn is_whole(order: ByteOrder, kind: Kind, bytes: &[u8]) -> bool
    ensures { result ≡ is_whole_of order kind bytes.now }
{
    match kind {
        Kind::Dump => word(order, bytes, 12) == MAGIC,
        Kind::Pmsg | Kind::Console | Kind::Ftrace => true,
    }
}

/// The mark of an order at a place of a storage of `total` bytes, by the bytes from there on. The first 16 are enough.
#[tactic(auto, unfolding(psz_spec::specs::Marks::mark_at))]
pub fn mark_at(order: ByteOrder, total: u32, at: u32, bytes: &[u8]) -> Option<Mark>
    ensures { result ≡ mark_in order total at bytes.now }
{
    let kind = kind_of(word(order, bytes, 0))?;
    let len = word(order, bytes, 4);
    let end = u64::from(at) + 12 + u64::from(len);
    if end <= u64::from(total) && is_whole(order, kind, bytes) {
        Some(Mark { kind, at, len })
    } else {
        None
    }
}

/// The order in which a mark stands at a place of a storage of `total` bytes, by the bytes from there on. The first 16
/// are enough.
#[tactic(auto, unfolding(psz_spec::specs::Marks::order_at))]
pub fn order_at(total: u32, at: u32, bytes: &[u8]) -> Option<ByteOrder>
    ensures { result ≡ order_by total at bytes.now }
{
    if mark_at(ByteOrder::Little, total, at, bytes).is_some() {
        return Some(ByteOrder::Little);
    }
    if mark_at(ByteOrder::Big, total, at, bytes).is_some() {
        return Some(ByteOrder::Big);
    }
    None
}

fn bytes_from(image: &[u8], at: u32) -> &[u8]
    ensures { result.now ≡ drop at image.now }
{
    let at = (at as usize).min(image.len());
    &image[at..]
}

fn block_order(image: &[u8], block: usize) -> Option<ByteOrder>
    requires small { length image.now < 2 ^ 32 }
    requires inside { block < length image.now / 512 }
    ensures { result ≡ order_by (length image.now) (block * 512) (drop (block * 512) image.now) }
{
    let at = (block * 512) as u32;
    order_at(image.len() as u32, at, bytes_from(image, at))
}

/// The order of a storage's bytes: the first mark in it decides. Without one it is little.
pub fn order_in(image: &[u8]) -> ByteOrder
    requires { length image.now < 2 ^ 32 }
    ensures { result ≡ order_shown image.now }
{
    for block in 0..image.len() / 512 {
        if let Some(order) = block_order(image, block) {
            return order;
        }
    }
    ByteOrder::Little
}

fn block_mark(order: ByteOrder, image: &[u8], block: usize) -> Option<Mark>
    requires small { length image.now < 2 ^ 32 }
    requires inside { block < length image.now / 512 }
    ensures { result ≡ mark_in order (length image.now) (block * 512) (drop (block * 512) image.now) }
{
    let at = (block * 512) as u32;
    mark_at(order, image.len() as u32, at, bytes_from(image, at))
}

fn add(marks: &mut Vec<Mark>, mark: Option<Mark>) -> Result<(), AllocError>
    ensures { OnOk result (marks.new.items ≡ marks.old.items ++ as_marks mark) }
{
    if let Some(mark) = mark {
        marks.push(mark)?;
    }
    Ok(())
}

/// The marks of a storage in this order of bytes, by rising place.
pub fn marks_in(alloc: Global, order: ByteOrder, image: &[u8]) -> Result<Vec<Mark>, AllocError>
    requires { length image.now < 2 ^ 32 }
    ensures { IfOk result (λ marks. marks.items ≡ all_marks order image.now) }
{
    let mut marks = Vec::new(alloc);
    for block in 0..image.len() / 512 {
        let mark = block_mark(order, image, block);
        add(&mut marks, mark)?;
    }
    Ok(marks)
}

fn packed_place(machine: Machine) -> u8
    ensures { result ≡ packed_place_of machine }
{
    match machine {
        Machine::Aligned | Machine::BigEndian => 24,
        Machine::X86 => 16,
    }
}

fn reads_as(machine: Machine, kept: &[u8]) -> bool
    ensures { result ≡ reads_as_of machine kept.now }
{
    let header = dump_header(machine, kept);
    (header.reason >= 1 && header.reason <= 4)
        && (word(ByteOrder::Little, kept, packed_place(machine)) <= 1
            && header.nanos < 1_000_000_000)
}

/// The little-endian machine that the data of a dump zone shows, or `None` if both or none fit.
#[tactic(auto, unfolding(psz_spec::specs::Marks::machine_shown))]
pub fn machine_shown(kept: &[u8]) -> Option<Machine>
    ensures { result ≡ machine_by kept.now }
{
    match (
        reads_as(Machine::Aligned, kept),
        reads_as(Machine::X86, kept),
    ) {
        (true, false) => Some(Machine::Aligned),
        (false, true) => Some(Machine::X86),
        (true, true) | (false, false) => None,
    }
}

// The machine of little-endian marks: the first dump that shows one decides.
#[tactic(auto, using(crate::proofs::Rests::machine_own, crate::proofs::Rests::machine_other, crate::proofs::Rests::machine_end))]
fn little_machine(image: &[u8], marks: &[Mark]) -> Machine
    ensures { result ≡ little_machine_of image.now marks.now }
{
    for mark in marks {
        if is_of(Kind::Dump, mark.kind) {
            let shown = machine_shown(data_of(bytes_from(image, mark.at)));
            if let Some(machine) = shown {
                return machine;
            }
        }
    }
    Machine::Aligned
}

/// The machine of a storage, by its order of bytes and the marks in it. Of little-endian ones the first dump that shows
/// one decides.
pub fn machine_in(order: ByteOrder, image: &[u8], marks: &[Mark]) -> Machine
    ensures { result ≡ machine_by_marks order image.now marks.now }
{
    match order {
        ByteOrder::Little => little_machine(image, marks),
        ByteOrder::Big => Machine::BigEndian,
    }
}
