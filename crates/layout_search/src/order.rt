// What is compared of two layouts.
ghost use Rattle.std.specs.Prelude.{◌≡◌, ◌+◌, ◌-◌, ◌*◌, ◌^◌, ◌<◌, ◌||◌, ◌==◌, not, nat_le, [], ◌∷◌, length};
ghost use Rattle.std.specs.Prelude.{if◌then◌else◌};
ghost use Rattle.std.specs.List.{list_any};
ghost use Rattle.layout_spec.specs.Laid.{zones_of};
ghost use Rattle.layout_spec.specs.Marks.{marks as marks_of};
ghost use Rattle.layout_spec.specs.Order.{is_shown as is_shown_by, most as most_of, different as different_of};
ghost use Rattle.layout_spec.specs.Order.{tally_of, key_by, is_before as is_before_by};
ghost use Rattle.layout_spec.specs.Family.{order_number as number_of};
ghost use Rattle.layout_search.specs.Counted.{AreCounts, AreBelow};

use crate::counting::Counts;
use layout_spec::{Candidate, Tally};
use zone_spec::{Order, Zone};

const MOST: u64 = 16_777_216;

fn most(n: u64) -> u64
    ensures { result ≡ most_of n }
{
    MOST.saturating_sub(n)
}

fn is_shown(parity: u64, fits: u64, corrected: u64) -> bool
    ensures { result ≡ is_shown_by parity fits corrected }
{
    parity == 0 || 4 + 2 * u128::from(corrected) <= u128::from(parity) * u128::from(fits)
}

fn is_said(n: u64, others: &[u64]) -> bool
    ensures { result ≡ ((n == 0) || list_any (λ m. m == n) others.now) }
{
    n == 0 || others.contains(&n)
}

fn different(c: &Candidate) -> u64
    ensures { result ≡ different_of (c.now.dump ∷ c.now.console ∷ c.now.ftrace ∷ c.now.pmsg ∷ []) }
{
    u64::from(!is_said(c.dump, &[c.console, c.ftrace, c.pmsg]))
        + u64::from(!is_said(c.console, &[c.ftrace, c.pmsg]))
        + u64::from(!is_said(c.ftrace, &[c.pmsg]))
        + u64::from(!is_said(c.pmsg, &[]))
}

fn order_number(order: Order) -> u64
    ensures { result ≡ number_of order }
{
    match order {
        Order::FtracePmsg => 0,
        Order::PmsgFtrace => 1,
    }
}

/// The tally of a candidate with these zones and counts.
pub fn tally(image: &[u8], marks: u64, c: &Candidate, zones: &[Zone], counts: &Counts) -> Tally
    requires zones { zones.now ≡ zones_of c.now }
    requires counts { AreCounts image.now zones.now counts.now }
    requires below { AreBelow (2 ^ 62) counts.now }
    requires marks { marks ≡ marks_of image.now }
    requires few { marks < 2 ^ 63 }
    ensures { result ≡ tally_of image.now c.now }
{
    Tally {
        faults: counts.misses + marks.saturating_sub(counts.marked),
        zones: zones.len() as u64,
        fits: counts.fits,
        logs: counts.found,
        odd: counts.odd,
        corrected: counts.corrected,
        behind: (image.len() as u64).saturating_sub(counts.bytes),
    }
}

/// The key of a candidate with this tally.
#[tactic(auto, unfolding(layout_spec::specs::Order::key_by))]
pub fn key(t: &Tally, c: &Candidate) -> [u64; 19]
    ensures { result ≡ key_by t.now c.now }
{
    [
        t.faults,
        u64::from(!is_shown(c.parity, t.fits, t.corrected)),
        most(c.parity),
        most(t.zones),
        t.odd,
        most(t.logs),
        t.corrected,
        different(c),
        u64::from(c.console == 0),
        u64::from(c.pmsg == 0),
        t.behind,
        order_number(c.order),
        most(c.dump),
        most(c.console),
        most(c.ftrace),
        most(c.pmsg),
        most(c.cpus),
        u64::from(c.tag),
        most(c.mem),
    ]
}

/// Whether a key comes before another.
pub fn is_before(a: &[u64; 19], b: &[u64; 19]) -> bool
    ensures { result ≡ is_before_by a.now b.now }
{
    for i in 0..19 {
        if a[i] != b[i] {
            return a[i] < b[i];
        }
    }
    false
}
