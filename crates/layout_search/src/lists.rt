// What each word of a layout can be.
ghost use Rattle.std.specs.Prelude.{◌≡◌, ◌+◌, ◌-◌, ◌<◌, ◌≤◌, ◌^◌, ◌∷◌, ◌++◌, nat_le, filter, length, IfOk, OnOk};
ghost use Rattle.std.specs.Prelude.{option_map};
ghost use Rattle.std.specs.List.{range_with_len};
ghost use Rattle.layout_search.specs.Placed.{AreLists};
ghost use Rattle.layout_spec.specs.Family.{known_or as known_or_all, powers as all_powers, parities as all_parities};
ghost use Rattle.layout_spec.specs.Family.{processors as all_processors, order_number as number_of};

use layout_spec::Known;
use std::alloc::{AllocError, Global};
use zone_spec::Order;

const POWERS: [u64; 17] = [
    256, 512, 1024, 2048, 4096, 8192, 16384, 32768, 65536, 131072, 262144, 524288, 1048576,
    2097152, 4194304, 8388608, 16777216,
];

/// What each word can be, but for the tag. The orders stand by their numbers: `only_order` is that of a layout without
/// ftrace zones or without a pmsg.
#[derive(Drop)]
pub struct Lists {
    pub mems: Vec<u64>,
    pub dumps: Vec<u64>,
    pub consoles: Vec<u64>,
    pub ftraces: Vec<u64>,
    pub pmsgs: Vec<u64>,
    pub orders: Vec<u64>,
    pub only_order: Vec<u64>,
    pub parities: Vec<u64>,
    pub cpus: Vec<u64>,
}

fn known_or(alloc: Global, known: Option<u64>, all: &[u64]) -> Result<Vec<u64>, AllocError>
    ensures { IfOk result (λ list. list.items ≡ known_or_all known all.now) }
{
    match known {
        Some(n) => Vec::from_slice(alloc, &[n]),
        None => Vec::from_slice(alloc, all),
    }
}

/// Adds the powers of two of at most so many bytes.
fn add_powers(list: &mut Vec<u64>, powers: &[u64], most: u64) -> Result<(), AllocError>
    ensures { OnOk result (list.new.items ≡ list.old.items ++ filter (λ n. nat_le n most) powers.now) }
{
    for n in powers {
        if *n <= most {
            list.push(*n)?;
        }
    }
    Ok(())
}

#[tactic(auto, unfolding(layout_spec::specs::Family::powers))]
fn with_powers(alloc: Global, first: u64, most: u64) -> Result<Vec<u64>, AllocError>
    ensures { IfOk result (λ list. list.items ≡ first ∷ filter (λ n. nat_le n most) all_powers) }
{
    let mut list = vec![in alloc; first]?;
    add_powers(&mut list, &POWERS, most)?;
    Ok(list)
}

/// Adds the numbers from one on.
fn count_up(list: &mut Vec<u64>, from: u64, count: u64) -> Result<(), AllocError>
    requires from { from ≤ 2 ^ 32 }
    requires count { count ≤ 2 ^ 32 }
    ensures { OnOk result (list.new.items ≡ list.old.items ++ range_with_len from count) }
{
    for i in 0..count {
        list.push(from + i)?;
    }
    Ok(())
}

#[tactic(auto, unfolding(layout_spec::specs::Family::parities))]
fn parities(alloc: Global) -> Result<Vec<u64>, AllocError>
    ensures { IfOk result (λ list. list.items ≡ all_parities) }
{
    let mut list = vec![in alloc; 0]?;
    count_up(&mut list, 2, 126)?;
    Ok(list)
}

#[tactic(auto, unfolding(layout_spec::specs::Family::processors))]
fn processors(alloc: Global) -> Result<Vec<u64>, AllocError>
    ensures { IfOk result (λ list. list.items ≡ all_processors) }
{
    let mut list = Vec::new(alloc);
    count_up(&mut list, 1, 64)?;
    Ok(list)
}

fn order_number(order: Option<Order>) -> Option<u64>
    ensures { result ≡ option_map number_of order }
{
    match order {
        Some(Order::FtracePmsg) => Some(0),
        Some(Order::PmsgFtrace) => Some(1),
        None => None,
    }
}

/// The lists for a file of this length.
pub fn make_lists(alloc: Global, known: &Known, len: u64) -> Result<Lists, AllocError>
    ensures { IfOk result (λ lists. AreLists known.now len lists) }
{
    let mems = with_powers(alloc, len, len.saturating_sub(1))?;
    let sizes = with_powers(alloc, 0, len)?;
    let parities = parities(alloc)?;
    let cpus = processors(alloc)?;
    let order = order_number(known.order);
    Ok(Lists {
        mems: known_or(alloc, known.mem, &mems)?,
        dumps: known_or(alloc, known.dump, &sizes)?,
        consoles: known_or(alloc, known.console, &sizes)?,
        ftraces: known_or(alloc, known.ftrace, &sizes)?,
        pmsgs: known_or(alloc, known.pmsg, &sizes)?,
        orders: known_or(alloc, order, &[0, 1])?,
        only_order: known_or(alloc, order, &[0])?,
        parities: known_or(alloc, known.parity, &parities)?,
        cpus: known_or(alloc, known.cpus, &cpus)?,
    })
}
