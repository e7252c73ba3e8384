// The ramoops nodes and their numbers.
ghost use Rattle.std.specs.Prelude.{◌≡◌, ◌+◌, ◌*◌, ◌-◌, ◌<◌, ◌≤◌, ◌^◌, true, Some, length, IfOk, IfSome};
ghost use Rattle.dtb_spec.specs.Ramoops.{begins_with, lists_ramoops as lists, is_ramoops as is_one};
ghost use Rattle.dtb_spec.specs.Ramoops.{is_available as available, own as own_in, wide as wide_at};
ghost use Rattle.dtb_spec.specs.Ramoops.{region_in as region_at, region_of, numbers_of, settled as settled_as};
ghost use Rattle.dtb_spec.specs.Ramoops.{is_reserved as is_under};
ghost use Rattle.dtb.specs.Inside.{IsInside};

use crate::cells::{cell, until};
use crate::properties::{name, number, parent_number, value};
use dtb_spec::{Fault, Numbers, Region, Span};

fn starts_with(bytes: &[u8], front: &[u8]) -> bool
    ensures { result ≡ begins_with front.now bytes.now }
{
    bytes.len() >= front.len() && &bytes[..front.len()] == front
}

// Whether one of the texts is "ramoops".
fn lists_ramoops(value: &[u8]) -> bool
    ensures { result ≡ lists true value.now }
{
    let mut first = true;
    for i in 0..value.len() {
        if first && starts_with(&value[i..], b"ramoops\0") {
            return true;
        }
        first = value[i] == 0;
    }
    false
}

// Whether a status says so, or there is none.
fn is_available(structure: &[u8], status: Option<Span>) -> bool
    requires { IfSome status (λ v. IsInside structure.now v) }
    ensures { result ≡ available structure.now status }
{
    match status {
        None => true,
        Some(value) => {
            let text = until(&structure[value.from..value.from + value.len], 0);
            text == b"okay".as_slice() || text == b"ok".as_slice()
        }
    }
}

/// Whether the node that begins at a place is a ramoops node.
pub fn is_ramoops(structure: &[u8], strings: &[u8], node: usize) -> bool
    ensures { result ≡ is_one structure.now strings.now node }
{
    match value(structure, strings, b"compatible", node) {
        None => false,
        Some(found) => {
            lists_ramoops(&structure[found.from..found.from + found.len])
                && is_available(structure, value(structure, strings, b"status", node))
        }
    }
}

/// The last node of a line.
pub fn own(line: &[usize]) -> usize
    ensures { result ≡ own_in line.now }
{
    if line.is_empty() {
        return 0;
    }
    line[line.len() - 1]
}

// A number of one or two cells.
fn wide(structure: &[u8], at: usize, cells: u32) -> u64
    requires few { cells ≤ 2 }
    requires inside { at + 4 * cells ≤ length structure.now }
    requires some { 1 ≤ cells }
    ensures { result ≡ wide_at structure.now at cells }
{
    if cells == 1 {
        return u64::from(cell(structure, at));
    }
    (1 << 32) * u64::from(cell(structure, at)) + u64::from(cell(structure, at + 4))
}

// The first address and size, of so many cells each.
fn region_in(
    structure: &[u8],
    address_cells: u32,
    size_cells: u32,
    value: Span,
) -> Result<Region, Fault>
    requires { IsInside structure.now value }
    ensures { result ≡ region_at structure.now address_cells size_cells (Some value) }
{
    if address_cells < 1 || address_cells > 2 || size_cells < 1 || size_cells > 2 {
        return Err(Fault::Reg);
    }
    if value.len < 4 * (address_cells + size_cells) as usize {
        return Err(Fault::Reg);
    }
    Ok(Region {
        address: wide(structure, value.from, address_cells),
        size: wide(
            structure,
            value.from + 4 * address_cells as usize,
            size_cells,
        ),
    })
}

// The region of the last node of a line.
#[tactic(auto, unfolding(dtb_spec::specs::Ramoops::region_of))]
fn region(structure: &[u8], strings: &[u8], line: &[usize]) -> Result<Region, Fault>
    ensures { result ≡ region_of structure.now strings.now line.now }
{
    let address_cells = parent_number(structure, strings, b"#address-cells", 2, line)?;
    let size_cells = parent_number(structure, strings, b"#size-cells", 1, line)?;
    match value(structure, strings, b"reg", own(line)) {
        None => Err(Fault::Reg),
        Some(value) => region_in(structure, address_cells, size_cells, value),
    }
}

/// The numbers of the last node of a line.
#[tactic(auto, unfolding(dtb_spec::specs::Ramoops::numbers_of))]
pub fn numbers(structure: &[u8], strings: &[u8], line: &[usize]) -> Result<Numbers, Fault>
    ensures { result ≡ numbers_of structure.now strings.now line.now }
{
    let region = region(structure, strings, line)?;
    let node = own(line);
    let record_size = number(structure, strings, b"record-size", 0, node)?;
    let console_size = number(structure, strings, b"console-size", 0, node)?;
    let ftrace_size = number(structure, strings, b"ftrace-size", 0, node)?;
    let pmsg_size = number(structure, strings, b"pmsg-size", 0, node)?;
    let ecc_size = number(structure, strings, b"ecc-size", 0, node)?;
    let flags = number(structure, strings, b"flags", 0, node)?;
    Ok(Numbers {
        address: region.address,
        size: region.size,
        record_size,
        console_size,
        ftrace_size,
        pmsg_size,
        ecc_size,
        flags,
    })
}

/// Whether the parent of the last node of a line is named reserved-memory.
pub fn is_reserved(structure: &[u8], line: &[usize]) -> bool
    ensures { result ≡ is_under structure.now line.now }
{
    if line.len() < 2 {
        return false;
    }
    until(name(structure, line[line.len() - 2]), b'@') == b"reserved-memory".as_slice()
}

/// The numbers with the sizes that an old board leaves out.
pub fn settled(reserved: bool, numbers: Numbers) -> Numbers
    ensures { result ≡ settled_as reserved numbers }
{
    let none_but_records = numbers.console_size == 0
        && numbers.ftrace_size == 0
        && numbers.pmsg_size == 0
        && numbers.ecc_size == 0;
    if reserved || !none_but_records {
        return numbers;
    }
    Numbers {
        console_size: numbers.record_size,
        pmsg_size: numbers.record_size,
        ..numbers
    }
}
