// The rows of a candidate's zones, without its zones.
ghost use Rattle.std.specs.Prelude.{◌≡◌, ◌≤◌, ℕ, true, false, [], ◌∷◌};
ghost use Rattle.zone_spec.specs.Layout.{lacks_room as lacks, ordered};
ghost use Rattle.zone_spec.specs.declared.params.Order.{Order as OrderValue};
ghost use Rattle.layout_spec.specs.Laid.{params_of, has_layout, memory_for_dumps};
ghost use Rattle.layout_search.specs.Seen.{IsSmallRow};
ghost use Rattle.layout_search.specs.Rows.{IsRoomy, dump_row_of, console_row_of, ftrace_row_of, pmsg_row_of};

use layout_spec::Candidate;
use ramoops_layout::rows::{MOST_MEMORY, rounded};
use zone_spec::{Kind, Order, Row};

/// The memory that the other zones leave to the dump zones.
pub fn dump_memory(c: &Candidate) -> u64
    ensures { result ≡ memory_for_dumps c.now }
{
    c.mem
        .saturating_sub(rounded(c.console))
        .saturating_sub(rounded(c.ftrace))
        .saturating_sub(rounded(c.pmsg))
}

fn lacks_room(c: &Candidate) -> bool
    ensures { result ≡ lacks (params_of c.now) }
{
    let console = rounded(c.console);
    let ftrace = rounded(c.ftrace);
    let pmsg = rounded(c.pmsg);
    let dumps = dump_memory(c);
    u128::from(console) + u128::from(ftrace) + u128::from(pmsg) > u128::from(c.mem)
        || (dumps > 0 && dumps < rounded(c.dump))
}

/// Whether the zones fit the memory, and that is not too large. If not, there is no layout, whatever the order, the
/// processors, the parity and the tag.
pub fn has_room(c: &Candidate) -> bool
    ensures roomy { result ≡ true → IsRoomy c.now }
    ensures refused { result ≡ false → (o : OrderValue) (n r t : ℕ)
        → has_layout (record c.now { order = o; cpus = n; parity = r; tag = t }) ≡ false }
{
    if c.mem > MOST_MEMORY {
        return false;
    }
    if lacks_room(c) {
        return false;
    }
    true
}

/// The dump zones.
pub fn dump_row(c: &Candidate) -> Row
    requires { IsRoomy c.now }
    ensures value { result ≡ dump_row_of c.now }
    ensures small { IsSmallRow result }
{
    let memory = dump_memory(c);
    let record = rounded(c.dump);
    let count = if record == 0 { 0 } else { memory / record };
    let size = if count == 0 { 0 } else { memory / count };
    Row {
        kind: Kind::Dump,
        count,
        size: size / 2 * 2,
    }
}

/// The console.
pub fn console_row(c: &Candidate) -> Row
    requires { IsRoomy c.now }
    ensures value { result ≡ console_row_of c.now }
    ensures small { IsSmallRow result }
{
    let size = rounded(c.console);
    Row {
        kind: Kind::Console,
        count: if size == 0 { 0 } else { 1 },
        size,
    }
}

/// The ftrace zones.
pub fn ftrace_row(c: &Candidate) -> Row
    requires roomy { IsRoomy c.now }
    requires some { 1 ≤ c.now.cpus }
    requires few { c.now.cpus ≤ 64 }
    ensures value { result ≡ ftrace_row_of c.now }
    ensures small { IsSmallRow result }
{
    let size = rounded(c.ftrace);
    Row {
        kind: Kind::Ftrace,
        count: if size == 0 { 0 } else { c.cpus },
        size: size / c.cpus / 2 * 2,
    }
}

/// The pmsg.
pub fn pmsg_row(c: &Candidate) -> Row
    requires { IsRoomy c.now }
    ensures value { result ≡ pmsg_row_of c.now }
    ensures small { IsSmallRow result }
{
    let size = rounded(c.pmsg);
    Row {
        kind: Kind::Pmsg,
        count: if size == 0 { 0 } else { 1 },
        size,
    }
}

/// The ftrace zones and the pmsg, in their order.
pub fn last_rows(c: &Candidate) -> (Row, Row)
    requires roomy { IsRoomy c.now }
    requires some { 1 ≤ c.now.cpus }
    requires few { c.now.cpus ≤ 64 }
    ensures value { result.0 ∷ result.1 ∷ [] ≡ ordered c.now.order (ftrace_row_of c.now) (pmsg_row_of c.now) }
    ensures small { IsSmallRow result.0 }
    ensures last_small { IsSmallRow result.1 }
{
    let ftrace = ftrace_row(c);
    let pmsg = pmsg_row(c);
    match c.order {
        Order::FtracePmsg => (ftrace, pmsg),
        Order::PmsgFtrace => (pmsg, ftrace),
    }
}
