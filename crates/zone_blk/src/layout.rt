// The layout of the block store.
ghost use Rattle.std.specs.Prelude.{◌≡◌, ◌+◌, ◌<◌, ◌==◌, ◌||◌, ◌&&◌, ◌%◌, ◌∷◌, [], nat_lt, min, ◌-◌, ◌^◌, ◌≤◌, IfOk};
ghost use Rattle.std.specs.Prelude.{None};
ghost use Rattle.std.specs.List.{list_all};
ghost use Rattle.zone_spec.specs.Layout.{first_fault as first_of};
ghost use Rattle.blk_spec.specs.Layout.{layout_of, faults as faults_of, dump_memory, dump_count as dump_count_of};
ghost use Rattle.blk_spec.specs.Layout.{kmsg_size as kmsg_size_of, IsLayout};

use blk_spec::{BlkLayout, BlkParams};
use zone_spec::LayoutFault;

const MOST_MEMORY: u64 = 16_777_216;

const PAGE: u64 = 4096;

// The first fault that holds.
fn first(faults: &[(bool, LayoutFault)]) -> Option<LayoutFault>
    ensures { result ≡ first_of faults.now }
{
    for (holds, fault) in faults {
        if *holds {
            return Some(*fault);
        }
    }
    None
}

fn is_paged(p: &BlkParams) -> bool
    ensures { result ≡ list_all (λ size. size % 4096 == 0)
        (p.now.total ∷ p.now.kmsg ∷ p.now.console ∷ p.now.pmsg ∷ []) }
{
    p.total % PAGE == 0 && p.kmsg % PAGE == 0 && p.console % PAGE == 0 && p.pmsg % PAGE == 0
}

fn is_empty(p: &BlkParams) -> bool
    ensures { result ≡ list_all (λ size. size == 0) (p.now.kmsg ∷ p.now.console ∷ p.now.pmsg ∷ []) }
{
    p.kmsg == 0 && p.console == 0 && p.pmsg == 0
}

// The bytes of both rings; more than any store has where they would pass 2^64.
fn rings(p: &BlkParams) -> u64
    ensures { result ≡ min (p.now.pmsg + p.now.console) (2 ^ 64 - 1) }
{
    p.pmsg.saturating_add(p.console)
}

fn lacks_room(p: &BlkParams) -> bool
    requires { p.now.total ≤ 2 ^ 24 }
    ensures { result ≡ (nat_lt p.now.total (p.now.pmsg + p.now.console)
        || (nat_lt 0 (dump_memory p.now) && nat_lt (dump_memory p.now) p.now.kmsg)) }
{
    let dumps = p.total.saturating_sub(rings(p));
    rings(p) > p.total || (dumps > 0 && dumps < p.kmsg)
}

fn first_fault(p: &BlkParams) -> Option<LayoutFault>
    ensures { result ≡ first_of (faults_of p.now) }
{
    if p.total > MOST_MEMORY {
        return Some(LayoutFault::TooLarge);
    }
    first(&[
        (p.total == 0, LayoutFault::NoMemory),
        (!is_paged(p), LayoutFault::NotPage),
        (is_empty(p), LayoutFault::NoZone),
        (lacks_room(p), LayoutFault::NoRoom),
    ])
}

fn kmsg_size(p: &BlkParams) -> u32
    ensures { result ≡ kmsg_size_of p.now }
{
    if p.kmsg < 1 << 32 { p.kmsg as u32 } else { 0 }
}

fn dump_count(p: &BlkParams) -> u32
    requires { p.now.total ≤ 2 ^ 24 }
    ensures { result ≡ dump_count_of p.now }
{
    let dumps = p.total.saturating_sub(rings(p));
    if p.kmsg == 0 {
        0
    } else {
        (dumps / p.kmsg) as u32
    }
}

/// The layout of the parameters, or their first fault. The sizes, their order and their faults are the project's own.
pub fn blk_layout(p: &BlkParams) -> Result<BlkLayout, LayoutFault>
    ensures layout { result ≡ layout_of p.now }
    ensures valid { IfOk result IsLayout }
{
    if let Some(fault) = first_fault(p) {
        return Err(fault);
    }
    Ok(BlkLayout {
        total: p.total as u32,
        kmsg: kmsg_size(p),
        console: p.console as u32,
        pmsg: p.pmsg as u32,
        dumps: dump_count(p),
    })
}
