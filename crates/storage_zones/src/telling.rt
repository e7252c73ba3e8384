// What is told of a storage that was found by its bytes.
ghost use Rattle.std.specs.Prelude.{◌≡◌, ◌++◌, ◌&&◌, not, [], ◌∷◌, decimal, string_bytes, None, IfOk, OnOk};
ghost use Rattle.psz_spec.specs.Layouts.{size_fault};
ghost use Rattle.storage_spec.specs.Told.{order_words as order_by, cpus_words as cpus_by, size_words as sizes_by, found_line as found_by};
ghost use Rattle.storage_spec.specs.Told.{tied_line as tied_by, oopses_line as oopses_by, is_panic as is_panic_by};
ghost use Rattle.storage_spec.specs.Told.{has_dump as has_dump_by, has_panic as has_panic_by, kind_words as kind_by};
ghost use Rattle.storage_spec.specs.Told.{fault_words as fault_by, fault_line as fault_line_by, fault_in, fault_lines};
ghost use Rattle.storage_spec.specs.Told.{storage_lines as lines_by};

use crate::listing::gives;
use crate::zones::lying_zones;
use psz_read::{data_of, dump_header, kernel_fault, order_of, zone_bytes};
use psz_spec::{KernelFault, Kind, Machine, Sizes, Zone};
use std::alloc::{AllocError, Global};
use storage_spec::Storage;
use zone_spec::ByteOrder;

// Appends words and a number after them.
fn push_number(alloc: Global, text: &mut String, words: &str, n: u64) -> Result<(), AllocError>
    ensures { OnOk result (string_bytes text.new ≡ string_bytes text.old ++ words.now ++ decimal n) }
{
    text.push_str(words)?;
    text.push_str(&n.to_string(alloc)?)?;
    Ok(())
}

fn cpus_words(alloc: Global, sizes: &Sizes) -> Result<String, AllocError>
    ensures { IfOk result (λ text. string_bytes text ≡ cpus_by sizes.now) }
{
    let mut text = String::new(alloc);
    if sizes.ftrace != 0 {
        push_number(alloc, &mut text, " cpus=", u64::from(sizes.cpus))?;
    }
    Ok(text)
}

fn size_words(alloc: Global, sizes: &Sizes) -> Result<String, AllocError>
    ensures { IfOk result (λ text. string_bytes text ≡ sizes_by sizes.now) }
{
    let mut text = String::new(alloc);
    push_number(alloc, &mut text, "kmsg_size=", u64::from(sizes.dump))?;
    push_number(alloc, &mut text, " console_size=", u64::from(sizes.console))?;
    push_number(alloc, &mut text, " ftrace_size=", u64::from(sizes.ftrace))?;
    push_number(alloc, &mut text, " pmsg_size=", u64::from(sizes.pmsg))?;
    text.push_str(&cpus_words(alloc, sizes)?)?;
    Ok(text)
}

fn order_words(order: ByteOrder) -> &'static str
    ensures { result.now ≡ order_by order }
{
    match order {
        ByteOrder::Little => "",
        ByteOrder::Big => " byte_order=big",
    }
}

fn found_line(
    alloc: Global,
    name: &str,
    sizes: &Sizes,
    order: ByteOrder,
) -> Result<String, AllocError>
    ensures { IfOk result (λ text. string_bytes text ≡ found_by name.now sizes.now order) }
{
    let mut text = String::from_str(alloc, name)?;
    push_number(alloc, &mut text, ": ", sizes.total)?;
    text.push_str(" bytes; a storage of pstore_zone: ")?;
    text.push_str(&size_words(alloc, sizes)?)?;
    text.push_str(order_words(order))?;
    text.push_str("\n")?;
    Ok(text)
}

fn tied_line(tied: bool) -> &'static str
    ensures { result.now ≡ tied_by tied }
{
    if tied {
        "  it has one dump: other values of kmsg_size show the same\n"
    } else {
        ""
    }
}

fn oopses_line(alone: bool) -> &'static str
    ensures { result.now ≡ oopses_by alone }
{
    if alone {
        "  no dump is from a panic, and a block device stores none: the newest may not be the death\n"
    } else {
        ""
    }
}

fn is_panic(machine: Machine, zone: &Zone, image: &[u8]) -> bool
    ensures { result ≡ is_panic_by machine image.now zone.now }
{
    gives(machine, Kind::Dump, zone, image)
        && dump_header(machine, data_of(zone_bytes(zone, image))).reason == 1
}

fn has_dump(machine: Machine, zones: &[Zone], image: &[u8]) -> bool
    ensures { result ≡ has_dump_by machine image.now zones.now }
{
    zones
        .iter()
        .copied()
        .any(|zone| gives(machine, Kind::Dump, &zone, image))
}

fn has_panic(machine: Machine, zones: &[Zone], image: &[u8]) -> bool
    ensures { result ≡ has_panic_by machine image.now zones.now }
{
    zones
        .iter()
        .copied()
        .any(|zone| is_panic(machine, &zone, image))
}

fn kind_words(kind: Kind) -> &'static str
    ensures { result.now ≡ kind_by kind }
{
    match kind {
        Kind::Pmsg => "  pmsg ",
        Kind::Console => "  console ",
        Kind::Ftrace => "  ftrace ",
        Kind::Dump => "  dump ",
    }
}

fn fault_words(fault: KernelFault) -> &'static str
    ensures { result.now ≡ fault_by fault }
{
    match fault {
        KernelFault::StartBeyond => " starts beyond its length: the kernel lists no record at all",
        KernelFault::ShortDump =>
            " is shorter than its header: the kernel lists no record after it",
        KernelFault::EmptyPacked => {
            " is compressed and has no byte: the kernel lists no record after it"
        }
    }
}

// Appends the line on a zone at which the kernel's listing fails.
fn push_fault(
    alloc: Global,
    text: &mut String,
    machine: Machine,
    zone: &Zone,
    image: &[u8],
) -> Result<(), AllocError>
    ensures { OnOk result (string_bytes text.new ≡ string_bytes text.old ++ fault_in machine image.now zone.now) }
{
    if let Some(fault) = kernel_fault(machine, zone, zone_bytes(zone, image)) {
        push_number(alloc, text, kind_words(zone.kind), u64::from(zone.index))?;
        text.push_str(fault_words(fault))?;
        text.push_str("\n")?;
    }
    Ok(())
}

fn push_faults(
    alloc: Global,
    text: &mut String,
    machine: Machine,
    zones: &[Zone],
    image: &[u8],
) -> Result<(), AllocError>
    ensures { OnOk result (string_bytes text.new ≡ string_bytes text.old ++ fault_lines machine image.now zones.now) }
{
    for zone in zones {
        push_fault(alloc, text, machine, zone, image)?;
    }
    Ok(())
}

fn is_of_oopses(machine: Machine, zones: &[Zone], image: &[u8]) -> bool
    ensures { result ≡ (has_dump_by machine image.now zones.now && not (has_panic_by machine image.now zones.now)) }
{
    has_dump(machine, zones, image) && !has_panic(machine, zones, image)
}

/// The lines on a storage: its sizes, whether other sizes show the same, whether it has oopses alone, and the zones at
/// which the kernel's own listing fails.
#[tactic(auto, unfolding(storage_spec::specs::Told::storage_lines))]
pub fn storage_lines(
    alloc: Global,
    name: &str,
    storage: &Storage,
    image: &[u8],
) -> Result<String, AllocError>
    requires { size_fault storage.now.sizes ≡ None }
    ensures { IfOk result (λ text. string_bytes text ≡ lines_by name.now storage.now image.now) }
{
    let zones = lying_zones(alloc, &storage.sizes)?;
    let order = order_of(storage.machine);
    let mut text = found_line(alloc, name, &storage.sizes, order)?;
    text.push_str(tied_line(storage.tied))?;
    text.push_str(oopses_line(is_of_oopses(storage.machine, &zones, image)))?;
    push_faults(alloc, &mut text, storage.machine, &zones, image)?;
    Ok(text)
}
