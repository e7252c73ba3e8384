// The words of a layout, in the order in which they are tried.
ghost use Rattle.std.specs.Prelude.{◌≡◌, ℕ, List, IfOk};
ghost use Rattle.layout_spec.specs.declared.Known.{Known as KnownValue};
ghost use Rattle.layout_spec.specs.Family.{orders_for};
ghost use Rattle.layout_search.specs.Levels.{next as next_of, having as having_as, values as values_of};
ghost use Rattle.layout_search.specs.Walked.{counted as counted_as, nowhere as nowhere_at};
ghost use Rattle.layout_search.specs.Placed.{AreLists};

use crate::lists::Lists;
use layout_spec::Candidate;
use ramoops_layout::order_at;

/// A word, but for the tag, which is tried last.
#[derive(Clone, Copy)]
pub enum Level {
    Mem,
    Dump,
    Console,
    Ftrace,
    Pmsg,
    Order,
    Cpus,
    Parity,
}

/// How many values of each word were tried, each with all values of the words after it, before the walk ended: of the
/// dump sizes with the next memory, and so on.
#[derive(Clone, Copy, Debug, PartialEq, Eq)]
pub struct Reached {
    pub mem: u64,
    pub dump: u64,
    pub console: u64,
    pub ftrace: u64,
    pub pmsg: u64,
    pub order: u64,
    pub cpus: u64,
    pub parity: u64,
}

/// No value of any word was tried.
pub fn nowhere() -> Reached
    ensures { result ≡ nowhere_at }
{
    Reached {
        mem: 0,
        dump: 0,
        console: 0,
        ftrace: 0,
        pmsg: 0,
        order: 0,
        cpus: 0,
        parity: 0,
    }
}

/// So many values of this word were tried, and of the words after it what was reached.
pub fn counted(r: &Reached, level: Level, n: u64) -> Reached
    ensures { result ≡ counted_as level r.now n }
{
    match level {
        Level::Mem => Reached { mem: n, ..*r },
        Level::Dump => Reached { dump: n, ..*r },
        Level::Console => Reached { console: n, ..*r },
        Level::Ftrace => Reached { ftrace: n, ..*r },
        Level::Pmsg => Reached { pmsg: n, ..*r },
        Level::Order => Reached { order: n, ..*r },
        Level::Cpus => Reached { cpus: n, ..*r },
        Level::Parity => Reached { parity: n, ..*r },
    }
}

/// The word that is tried next.
pub fn next(level: Level) -> Option<Level>
    ensures { result ≡ next_of level }
{
    match level {
        Level::Mem => Some(Level::Dump),
        Level::Dump => Some(Level::Console),
        Level::Console => Some(Level::Ftrace),
        Level::Ftrace => Some(Level::Pmsg),
        Level::Pmsg => Some(Level::Order),
        Level::Order => Some(Level::Cpus),
        Level::Cpus => Some(Level::Parity),
        Level::Parity => None,
    }
}

/// The candidate with this word.
pub fn having(c: &Candidate, level: Level, n: u64) -> Candidate
    ensures { result ≡ having_as level c.now n }
{
    match level {
        Level::Mem => Candidate { mem: n, ..*c },
        Level::Dump => Candidate { dump: n, ..*c },
        Level::Console => Candidate { console: n, ..*c },
        Level::Ftrace => Candidate { ftrace: n, ..*c },
        Level::Pmsg => Candidate { pmsg: n, ..*c },
        Level::Order => Candidate {
            order: order_at(u32::from(n != 0)),
            ..*c
        },
        Level::Cpus => Candidate { cpus: n, ..*c },
        Level::Parity => Candidate { parity: n, ..*c },
    }
}

/// The orders that a candidate can have, by their numbers.
fn orders<'a>(lists: &'a Lists, c: &Candidate) -> &'a [u64]
    ensures { (known : KnownValue) (len : ℕ) → AreLists known len lists.now → result.now ≡ orders_for known c.now }
{
    if c.ftrace == 0 || c.pmsg == 0 {
        &lists.only_order
    } else {
        &lists.orders
    }
}

/// What a candidate's word can be.
pub fn values<'a>(lists: &'a Lists, level: Level, c: &Candidate) -> &'a [u64]
    ensures { (known : KnownValue) (len : ℕ) → AreLists known len lists.now
        → result.now ≡ values_of level known len c.now }
{
    match level {
        Level::Mem => &lists.mems,
        Level::Dump => &lists.dumps,
        Level::Console => &lists.consoles,
        Level::Ftrace => &lists.ftraces,
        Level::Pmsg => &lists.pmsgs,
        Level::Order => orders(lists, c),
        Level::Cpus if c.ftrace == 0 => &[1],
        Level::Cpus => &lists.cpus,
        Level::Parity => &lists.parities,
    }
}
