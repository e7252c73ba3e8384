// Whether sizes divide a storage.
ghost use Rattle.std.specs.Prelude.{◌≡◌, ◌+◌};
ghost use Rattle.psz_spec.specs.Layouts.{used as used_of, ftrace_each as each_of, ftrace_count as count_of};
ghost use Rattle.psz_spec.specs.Layouts.{dump_count as dumps_of, has_no_size as has_none, is_uneven as is_uneven_size};
ghost use Rattle.psz_spec.specs.Layouts.{is_uneven_one as has_uneven, is_ftrace_small as is_small};
ghost use Rattle.psz_spec.specs.Layouts.{has_no_dump_zone as has_no_dumps, size_fault as fault_of};

use psz_spec::{SizeFault, Sizes};

/// The most bytes that a kernel uses.
const MOST: u64 = 134_217_728;

/// The bytes of a storage that a kernel uses.
pub fn used(sizes: &Sizes) -> u64
    ensures { result ≡ used_of sizes.now }
{
    if sizes.total > MOST {
        MOST
    } else {
        sizes.total
    }
}

/// The bytes of one ftrace zone, or 0 where there is none.
pub fn ftrace_each(sizes: &Sizes) -> u32
    ensures { result ≡ each_of sizes.now }
{
    if sizes.cpus == 0 {
        0
    } else {
        sizes.ftrace / sizes.cpus
    }
}

/// How many ftrace zones there are.
pub fn ftrace_count(sizes: &Sizes) -> u32
    ensures { result ≡ count_of sizes.now }
{
    let each = ftrace_each(sizes);
    if each == 0 { 0 } else { sizes.ftrace / each }
}

// The bytes of all zones but those of dumps.
fn taken(sizes: &Sizes) -> u64
    ensures { result ≡ sizes.now.pmsg + sizes.now.console + sizes.now.ftrace }
{
    u64::from(sizes.pmsg) + u64::from(sizes.console) + u64::from(sizes.ftrace)
}

/// How many dump zones there are.
pub fn dump_count(sizes: &Sizes) -> u64
    ensures { result ≡ dumps_of sizes.now }
{
    if sizes.dump == 0 {
        return 0;
    }
    used(sizes).saturating_sub(taken(sizes)) / u64::from(sizes.dump)
}

fn has_no_size(sizes: &Sizes) -> bool
    ensures { result ≡ has_none sizes.now }
{
    sizes.dump == 0 && sizes.pmsg == 0 && sizes.console == 0 && sizes.ftrace == 0
}

fn is_uneven(size: u32) -> bool
    ensures { result ≡ is_uneven_size size }
{
    size % 512 != 0
}

fn is_uneven_one(sizes: &Sizes) -> bool
    ensures { result ≡ has_uneven sizes.now }
{
    is_uneven(sizes.dump)
        || is_uneven(sizes.pmsg)
        || is_uneven(sizes.console)
        || is_uneven(sizes.ftrace)
}

fn is_ftrace_small(sizes: &Sizes) -> bool
    ensures { result ≡ is_small sizes.now }
{
    sizes.ftrace > 0 && ftrace_each(sizes) < 12
}

fn has_no_dump_zone(sizes: &Sizes) -> bool
    ensures { result ≡ has_no_dumps sizes.now }
{
    sizes.dump > 0 && dump_count(sizes) == 0
}

/// The first fault of sizes, or `None` where a kernel divides a storage by them.
#[tactic(auto, unfolding(psz_spec::specs::Layouts::size_fault))]
pub fn size_fault(sizes: &Sizes) -> Option<SizeFault>
    ensures { result ≡ fault_of sizes.now }
{
    if sizes.total < 4096 {
        return Some(SizeFault::TotalSmall);
    }
    if has_no_size(sizes) {
        return Some(SizeFault::NoSize);
    }
    if used(sizes) % 4096 != 0 {
        return Some(SizeFault::TotalUneven);
    }
    if is_uneven_one(sizes) {
        return Some(SizeFault::SizeUneven);
    }
    if used(sizes) < taken(sizes) {
        return Some(SizeFault::NoRoom);
    }
    if is_ftrace_small(sizes) {
        return Some(SizeFault::FtraceSmall);
    }
    if has_no_dump_zone(sizes) {
        return Some(SizeFault::NoDumpZone);
    }
    None
}
