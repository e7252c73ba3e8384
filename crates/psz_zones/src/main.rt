//! Prints what a storage holds that the kernel's pstore_zone wrote. Its input is storages, each after eight words of
//! four bytes, little endian: how many bytes follow, the sizes (total, pmsg, console, ftrace, dump, processors), and the
//! machine: 0 aligned, 1 x86 of 32 bits, 2 big-endian. Of each storage it prints the sizes and the machine that its
//! bytes show, and then the first fault of the sizes, or a line of each zone, of each part and of the next dump.
#![tactic(auto)]

ghost use Rattle.std.specs.Prelude.{◌≡◌, ◌+◌, ◌*◌, ◌^◌, ◌<◌, ◌≤◌, length, None};
ghost use Rattle.psz_spec.specs.Layouts.{size_fault as fault_of};

use arrayvec::ArrayString;
use md5::{Digest, Md5};
use psz_read::{
    Kind, Machine, Part, Sizes, Span, Zone, cursor_of, kernel_fault, machine_in, marks_in,
    name_text, next_zone, order_in, part_name, parts_in, shown_sizes, size_fault, state_of,
    total_line, zone_at, zone_bytes, zone_count,
};
use std::alloc::{AllocError, Global};
use std::io;
use std::io::Read;

fn show_zone<R: Print>(rt: &R, machine: Machine, zone: &Zone, image: &[u8]) -> io::Result<()> {
    let bytes = zone_bytes(zone, image);
    let state = state_of(machine, zone, bytes);
    let (kind, index, at, size) = (zone.kind, zone.index, zone.at, zone.size);
    match kernel_fault(machine, zone, bytes) {
        Some(fault) => println!(rt; "zone {kind:?} {index} {at} {size} {state:?} {fault:?}"),
        None => println!(rt; "zone {kind:?} {index} {at} {size} {state:?}"),
    }
}

// The bytes of a span that the storage has.
fn bytes_of<'a>(span: &Span, image: &'a [u8]) -> &'a [u8] {
    let len = image.len() as u64;
    let from = span.at.min(len);
    let to = from + u64::from(span.len).min(len - from);
    &image[from as usize..to as usize]
}

// A part's content: of a dump that is not packed, its line first.
fn content(alloc: Global, part: &Part, image: &[u8]) -> Result<Vec<u8>, AllocError> {
    let mut content = Vec::new(alloc);
    if let Some(header) = part.header
        && !header.packed
    {
        let mut line = ArrayString::new();
        total_line(&header, &mut line);
        content.extend_from_slice(line.as_str().as_bytes())?;
    }
    content.extend_from_slice(bytes_of(&part.log.first, image))?;
    content.extend_from_slice(bytes_of(&part.log.second, image))?;
    Ok(content)
}

fn show_part<R: Print + AllocGlobal>(rt: &R, part: &Part, image: &[u8]) -> io::Result<()> {
    let mut name = ArrayString::new();
    name_text(part_name(part), &mut name);
    let content = content(rt.alloc(), part, image)?;
    let digest = hex::encode(rt.alloc(), Md5::digest(&content))?;
    let (name, len) = (name.as_str(), content.len());
    match part.header {
        Some(header) => {
            let (secs, nanos, count, reason) = (
                header.secs,
                header.nanos,
                header.count,
                header.reason,
            );
            println!(rt; "part {name} {len} {digest} {secs} {nanos} {count} {reason}")
        }
        None => println!(rt; "part {name} {len} {digest}"),
    }
}

fn show_zones<R: Print>(rt: &R, machine: Machine, sizes: &Sizes, image: &[u8]) -> io::Result<()>
    requires { fault_of sizes.now ≡ None }
{
    for index in 0..zone_count(sizes) {
        if let Some(zone) = zone_at(sizes, index) {
            show_zone(rt, machine, &zone, image)?;
        }
    }
    Ok(())
}

fn show_parts<R: Print + AllocGlobal>(
    rt: &R,
    machine: Machine,
    sizes: &Sizes,
    image: &[u8],
) -> io::Result<()>
    requires { fault_of sizes.now ≡ None }
{
    let parts = parts_in(rt.alloc(), machine, sizes, image)?;
    for part in &parts {
        show_part(rt, part, image)?;
    }
    Ok(())
}

// What the bytes show by themselves.
fn show_shown<R: Print + AllocGlobal>(rt: &R, image: &[u8]) -> io::Result<()>
    requires { length image.now < 2 ^ 32 }
{
    let order = order_in(image);
    let marks = marks_in(rt.alloc(), order, image)?;
    let machine = machine_in(order, image, &marks);
    println!(rt; "machine {machine:?}")?;
    match shown_sizes(image.len() as u32, &marks) {
        Some(shown) => {
            let (s, tied) = (shown.sizes, shown.tied);
            println!(rt;
                "shown {} {} {} {} {} {tied}",
                s.pmsg, s.console, s.ftrace, s.dump, s.cpus
            )
        }
        None => println!(rt; "shown"),
    }
}

fn show<R: Print + AllocGlobal>(
    rt: &R,
    machine: Machine,
    sizes: &Sizes,
    image: &[u8],
) -> io::Result<()>
    requires { length image.now < 2 ^ 32 }
{
    show_shown(rt, image)?;
    if let Some(fault) = size_fault(sizes) {
        return println!(rt; "fault {fault:?}");
    }
    show_zones(rt, machine, sizes, image)?;
    show_parts(rt, machine, sizes, image)?;
    let cursor = cursor_of(machine, sizes, image);
    let next = next_zone(machine, sizes, image);
    println!(rt;
        "next {next} {} {} {}",
        cursor.latest, cursor.oopses, cursor.panics
    )
}

fn word(bytes: &[u8], index: usize) -> u32
    requires { 4 * index + 4 ≤ length bytes.now }
{
    let at = 4 * index;
    u32::from_le_bytes([bytes[at], bytes[at + 1], bytes[at + 2], bytes[at + 3]])
}

fn sizes_of(words: &[u8]) -> Sizes
    requires { 32 ≤ length words.now }
{
    Sizes {
        total: u64::from(word(words, 1)),
        pmsg: word(words, 2),
        console: word(words, 3),
        ftrace: word(words, 4),
        dump: word(words, 5),
        cpus: word(words, 6),
    }
}

fn machine_of(number: u32) -> Machine {
    match number {
        0 => Machine::Aligned,
        1 => Machine::X86,
        _ => Machine::BigEndian,
    }
}

fn show_all<R: Print + AllocGlobal>(rt: &R, input: &[u8]) -> io::Result<()> {
    let mut rest = input;
    while rest.len() >= 32 {
        let len = word(rest, 0) as usize;
        let sizes = sizes_of(rest);
        let machine = machine_of(word(rest, 7));
        rest = &rest[32..];
        if rest.len() < len {
            return Ok(());
        }
        show(rt, machine, &sizes, &rest[..len])?;
        rest = &rest[len..];
    }
    Ok(())
}

fn main(rt: HostRuntime) -> io::Result<()> {
    let mut input = Vec::new(rt.alloc());
    rt.stdin().read_to_end(&mut input)?;
    show_all(&rt, &input)
}
