// Where the zones of a storage lie, one by one.
ghost use Rattle.std.specs.Prelude.{◌≡◌, ◌*◌, ◌<◌, ◌≤◌, ◌++◌, length, slice_get, None};
ghost use Rattle.psz_spec.specs.Layouts.{zones_of, size_fault, ftrace_each as ftrace_each_of};
ghost use Rattle.psz_spec.specs.Layouts.{ftrace_count as ftrace_count_of};
ghost use Rattle.psz_spec.specs.Parts.{read_order};
ghost use Rattle.psz_read.specs.Runs.{run_zones, run_zone as run_zone_of, fits, pmsg_run as pmsg_run_of};
ghost use Rattle.psz_read.specs.Runs.{console_run as console_run_of};
ghost use Rattle.psz_read.specs.Runs.{ftrace_run as ftrace_run_of, dump_run as dump_run_of};

use crate::sizes::{dump_count, ftrace_count, ftrace_each};
use psz_spec::{Kind, Sizes, Zone};

/// Zones of one kind, side by side.
#[derive(Clone, Copy)]
pub(crate) struct Run {
    pub kind: Kind,
    pub size: u32,
    pub count: u32,
    pub at: u32,
}

fn pmsg_run(sizes: &Sizes) -> Run
    ensures { result ≡ pmsg_run_of sizes.now }
{
    Run {
        kind: Kind::Pmsg,
        size: sizes.pmsg,
        count: if sizes.pmsg == 0 { 0 } else { 1 },
        at: 0,
    }
}

fn console_run(sizes: &Sizes) -> Run
    ensures { result ≡ console_run_of sizes.now }
{
    Run {
        kind: Kind::Console,
        size: sizes.console,
        count: if sizes.console == 0 { 0 } else { 1 },
        at: sizes.pmsg,
    }
}

fn ftrace_run(sizes: &Sizes) -> Run
    requires { size_fault sizes.now ≡ None }
    ensures { result ≡ ftrace_run_of sizes.now }
{
    Run {
        kind: Kind::Ftrace,
        size: ftrace_each(sizes),
        count: ftrace_count(sizes),
        at: sizes.pmsg + sizes.console,
    }
}

fn ftrace_taken(sizes: &Sizes) -> u32
    requires { size_fault sizes.now ≡ None }
    ensures { result ≡ ftrace_count_of sizes.now * ftrace_each_of sizes.now }
{
    let count = ftrace_count(sizes);
    let each = ftrace_each(sizes);
    count * each
}

pub(crate) fn dump_run(sizes: &Sizes) -> Run
    requires { size_fault sizes.now ≡ None }
    ensures { result ≡ dump_run_of sizes.now }
{
    let taken = ftrace_taken(sizes);
    Run {
        kind: Kind::Dump,
        size: sizes.dump,
        count: dump_count(sizes) as u32,
        at: sizes.pmsg + sizes.console + taken,
    }
}

pub(crate) fn run_zone(run: &Run, index: u32) -> Zone
    requires room { fits run.now }
    requires inside { index < run.now.count }
    ensures { result ≡ run_zone_of run.now index }
{
    Zone {
        kind: run.kind,
        index,
        at: run.at + index * run.size,
        size: run.size,
    }
}

fn run_at(run: &Run, index: u32) -> Option<Zone>
    requires { fits run.now }
    ensures { result ≡ slice_get (run_zones run.now) index }
{
    if index < run.count {
        Some(run_zone(run, index))
    } else {
        None
    }
}

// The zone of this index in four runs, one behind the other.
fn pick(a: &Run, b: &Run, c: &Run, d: &Run, index: u32) -> Option<Zone>
    requires first { fits a.now }
    requires second { fits b.now }
    requires third { fits c.now }
    requires fourth { fits d.now }
    ensures { result ≡ slice_get (run_zones a.now ++ (run_zones b.now ++ (run_zones c.now ++ run_zones d.now))) index }
{
    if index < a.count {
        return run_at(a, index);
    }
    let past_a = index - a.count;
    if past_a < b.count {
        return run_at(b, past_a);
    }
    let past_b = past_a - b.count;
    if past_b < c.count {
        return run_at(c, past_b);
    }
    run_at(d, past_b - c.count)
}

/// How many zones there are.
pub fn zone_count(sizes: &Sizes) -> u32
    requires { size_fault sizes.now ≡ None }
    ensures all { result ≡ length (zones_of sizes.now) }
    ensures few { 12 * result ≤ 134_217_728 }
{
    let pmsg = pmsg_run(sizes);
    let console = console_run(sizes);
    let ftrace = ftrace_run(sizes);
    let dump = dump_run(sizes);
    pmsg.count + console.count + ftrace.count + dump.count
}

/// A zone, in the order in which they lie.
pub fn zone_at(sizes: &Sizes, index: u32) -> Option<Zone>
    requires { size_fault sizes.now ≡ None }
    ensures { result ≡ slice_get (zones_of sizes.now) index }
{
    let pmsg = pmsg_run(sizes);
    let console = console_run(sizes);
    let ftrace = ftrace_run(sizes);
    let dump = dump_run(sizes);
    pick(&pmsg, &console, &ftrace, &dump, index)
}

/// A zone, in the order in which the kernel reads them: dumps, ftrace, pmsg, console.
pub fn read_at(sizes: &Sizes, index: u32) -> Option<Zone>
    requires { size_fault sizes.now ≡ None }
    ensures { result ≡ slice_get (read_order (zones_of sizes.now)) index }
{
    let pmsg = pmsg_run(sizes);
    let console = console_run(sizes);
    let ftrace = ftrace_run(sizes);
    let dump = dump_run(sizes);
    pick(&dump, &ftrace, &pmsg, &console, index)
}
