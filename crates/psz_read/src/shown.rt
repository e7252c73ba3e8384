// The sizes that marks show.
ghost use Rattle.std.specs.Prelude.{◌≡◌, ◌≤◌, length, take};
ghost use Rattle.std.specs.Int.{IsGcd};
ghost use Rattle.psz_spec.specs.Records.{is_of as same_kind};
ghost use Rattle.psz_spec.specs.Marks.{gcd as gcd_of, step_after as step_after_of, step_of as step_of_marks};
ghost use Rattle.psz_spec.specs.Marks.{first_of as first_by, rings_of as rings_by};
ghost use Rattle.psz_spec.specs.Marks.{place_or as place_or_of, fits_default as fits_default_of, dump_size as size_of};
ghost use Rattle.psz_spec.specs.Marks.{dumps_at as dumps_at_of, sizes_with as sizes_by, shown_sizes as shown_by};

use psz_spec::{Kind, Mark, Shown, Sizes};

// Euclid's algorithm.
#[tactic(auto, using(crate::proofs::Divisors::divisor_zero, crate::proofs::Divisors::divisor_next))]
fn divisor(a: u32, b: u32) -> u32
    ensures { IsGcd a b result }
{
    if b == 0 { a } else { divisor(b, a % b) }
}

/// The greatest common divisor.
pub fn gcd(a: u32, b: u32) -> u32
    ensures { result ≡ gcd_of a b }
{
    divisor(a, b)
}

pub(crate) fn is_of(kind: Kind, other: Kind) -> bool
    ensures { result ≡ same_kind kind other }
{
    matches!(
        (kind, other),
        (Kind::Pmsg, Kind::Pmsg)
            | (Kind::Console, Kind::Console)
            | (Kind::Ftrace, Kind::Ftrace)
            | (Kind::Dump, Kind::Dump)
    )
}

fn first_of(kind: Kind, marks: &[Mark]) -> Option<Mark>
    ensures { result ≡ first_by kind marks.now }
{
    marks.iter().copied().find(|mark| is_of(kind, mark.kind))
}

#[tactic(auto, using(crate::proofs::Rests::step_own, crate::proofs::Rests::step_other, crate::proofs::Rests::step_end))]
fn step_after(kind: Kind, first: u32, marks: &[Mark]) -> u32
    ensures { result ≡ step_after_of kind 0 first marks.now }
{
    let mut step = 0;
    let mut last = first;
    for mark in marks {
        if is_of(kind, mark.kind) {
            step = gcd(step, mark.at.saturating_sub(last));
            last = mark.at;
        }
    }
    step
}

/// The greatest common divisor of the distances between the marks of a kind; 0 where there are fewer than two.
#[tactic(auto, unfolding(psz_spec::specs::Marks::step_of))]
pub fn step_of(kind: Kind, marks: &[Mark]) -> u32
    ensures { result ≡ step_of_marks kind marks.now }
{
    match first_of(kind, marks) {
        None => 0,
        Some(first) => step_after(kind, first.at, marks),
    }
}

// How many marks stand before the first dump.
#[tactic(auto, using(crate::proofs::Rests::rings_stop, crate::proofs::Rests::rings_more, crate::proofs::Rests::rings_last))]
fn rings_len(marks: &[Mark]) -> usize
    ensures inside { result ≤ length marks.now }
    ensures front { take result marks.now ≡ rings_by marks.now }
{
    let mut len = 0;
    for mark in marks {
        if is_of(Kind::Dump, mark.kind) {
            return len;
        }
        len += 1;
    }
    len
}

fn place_or(at: u32, mark: Option<Mark>) -> u32
    ensures { result ≡ place_or_of at mark }
{
    match mark {
        None => at,
        Some(mark) => mark.at,
    }
}

fn fits_default(total: u32, mark: Mark) -> bool
    ensures { result ≡ fits_default_of total mark }
{
    u64::from(mark.at) + 65536 <= u64::from(total) && u64::from(mark.len) + 12 <= 65536
}

fn dump_size(total: u32, first: Mark, step: u32) -> u32
    ensures { result ≡ size_of total first step }
{
    if step != 0 {
        return step;
    }
    if fits_default(total, first) {
        65536
    } else {
        total.saturating_sub(first.at)
    }
}

fn dumps_at(size: u32, first: Mark, rings: &[Mark]) -> u32
    ensures { result ≡ dumps_at_of size first rings.now }
{
    if !rings.is_empty() || size == 0 {
        first.at
    } else {
        first.at % size
    }
}

fn sizes_with(total: u32, dump_at: u32, dump: u32, rings: &[Mark]) -> Sizes
    ensures { result ≡ sizes_by total dump_at dump rings.now }
{
    let ftrace_at = place_or(dump_at, first_of(Kind::Ftrace, rings));
    let console_at = place_or(ftrace_at, first_of(Kind::Console, rings));
    let each = step_of(Kind::Ftrace, rings);
    let ftrace = dump_at.saturating_sub(ftrace_at);
    Sizes {
        total: u64::from(total),
        pmsg: console_at,
        console: ftrace_at.saturating_sub(console_at),
        ftrace,
        dump,
        cpus: if each == 0 { 1 } else { ftrace / each },
    }
}

/// The sizes that the marks of a storage of `total` bytes show, or `None` without a dump. Linear in the marks.
#[tactic(auto, unfolding(psz_spec::specs::Marks::shown_sizes))]
pub fn shown_sizes(total: u32, marks: &[Mark]) -> Option<Shown>
    ensures { result ≡ shown_by total marks.now }
{
    let first = first_of(Kind::Dump, marks)?;
    let step = step_of(Kind::Dump, marks);
    let rings = &marks[..rings_len(marks)];
    let dump = dump_size(total, first, step);
    Some(Shown {
        sizes: sizes_with(total, dumps_at(dump, first, rings), dump, rings),
        tied: step == 0,
    })
}
