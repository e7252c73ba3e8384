// Which shapes can have few faults, without reading a header.
ghost use Rattle.std.specs.Prelude.{◌≡◌, ◌+◌, ◌*◌, ◌<◌, ◌≤◌, ◌^◌, ℕ, List, [], ◌∷◌, false, sum_by, if◌then◌else◌};
ghost use Rattle.std.specs.Prelude.{MatchOption};
ghost use Rattle.zone_spec.specs.declared.params.Params.{Params};
ghost use Rattle.zone_spec.specs.declared.params.Row.{Row as RowValue};
ghost use Rattle.zone_spec.specs.Layout.{zones_from};
ghost use Rattle.layout_spec.specs.Marks.{marks as marks_of};
ghost use Rattle.layout_spec.specs.Order.{faults};
ghost use Rattle.layout_search.specs.Seen.{IsSeen, IsSmallRow, far_in, row_end};

use crate::marks::{is_mark, seems_to_begin};
use zone_spec::Row;

/// How many places of zones seem to begin none, and how many are marks.
#[derive(Clone, Copy)]
pub struct Seen {
    pub far: u64,
    pub marked: u64,
}

fn bit(b: bool) -> u64
    ensures value { result ≡ (if b then 1 else 0) }
    ensures small { result ≤ 1 }
{
    if b { 1 } else { 0 }
}

/// What is seen of a row's zones, the first at this place, added to what was seen; `None` if more than `most` seem to
/// begin nowhere. `looked` grows by the places that were looked at.
fn see(
    image: &[u8],
    row: Row,
    start: u64,
    most: u64,
    before: Seen,
    looked: &mut u64,
) -> Option<Seen>
    requires row { IsSmallRow row }
    requires start { start < 2 ^ 60 }
    requires far { before.far < 2 ^ 60 }
    requires marked { before.marked < 2 ^ 60 }
    ensures { MatchOption result (most < before.far + far_in image.now row start) (IsSeen image.now row start before) }
{
    let mut seen = before;
    for i in 0..row.count {
        if seen.far > most {
            return None;
        }
        *looked = looked.saturating_add(1);
        let at = (start + i * row.size) as usize;
        seen = Seen {
            far: seen.far + bit(!seems_to_begin(row.kind, image, at)),
            marked: seen.marked + bit(is_mark(image, at)),
        };
    }
    Some(seen)
}

fn end_of(row: Row, start: u64) -> u64
    requires row { IsSmallRow row }
    requires start { start < 2 ^ 60 }
    ensures value { result ≡ row_end row start }
    ensures near { result ≤ start + 2 ^ 49 }
{
    start + row.count * row.size
}

const NOTHING: Seen = Seen { far: 0, marked: 0 };

/// Whether zones of these two rows, and at most `more` behind them, can have at most `limit` faults.
pub fn may_begin(
    image: &[u8],
    marks: u64,
    limit: u64,
    dumps: Row,
    console: Row,
    more: u64,
    looked: &mut u64,
) -> bool
    requires marks { marks ≡ marks_of image.now }
    requires few { marks < 2 ^ 63 }
    requires limit { limit < 2 ^ 63 }
    requires more { more ≤ 2 ^ 25 }
    requires dumps { IsSmallRow dumps }
    requires console { IsSmallRow console }
    ensures { result ≡ false → (p : Params) (rest : List RowValue) → sum_by (λ (row : RowValue). row.count) rest ≤ more
        → limit < faults image.now (zones_from p 0 (dumps ∷ console ∷ rest)) }
{
    let most = dumps.count + console.count + more;
    if marks > limit + most {
        return false;
    }
    // no layout of them has more faults
    if marks + most <= limit {
        return true;
    }
    let Some(first) = see(image, dumps, 0, limit, NOTHING, looked) else {
        return false;
    };
    let Some(both) = see(image, console, end_of(dumps, 0), limit, first, looked) else {
        return false;
    };
    if marks + both.far > limit + both.marked + more {
        return false;
    }
    true
}

/// Whether zones of these four rows can have at most `limit` faults.
pub fn may_fit(
    image: &[u8],
    marks: u64,
    limit: u64,
    dumps: Row,
    console: Row,
    next: Row,
    last: Row,
    looked: &mut u64,
) -> bool
    requires marks { marks ≡ marks_of image.now }
    requires few { marks < 2 ^ 63 }
    requires limit { limit < 2 ^ 63 }
    requires dumps { IsSmallRow dumps }
    requires console { IsSmallRow console }
    requires next { IsSmallRow next }
    requires last { IsSmallRow last }
    ensures { result ≡ false → (p : Params)
        → limit < faults image.now (zones_from p 0 (dumps ∷ console ∷ next ∷ last ∷ [])) }
{
    let most = dumps.count + console.count + next.count + last.count;
    if marks > limit + most {
        return false;
    }
    if marks + most <= limit {
        return true;
    }
    // the few zones at the end first: they are tried with each number of processors
    let second = end_of(dumps, 0);
    let third = end_of(console, second);
    let Some(one) = see(image, next, third, limit, NOTHING, looked) else {
        return false;
    };
    let Some(two) = see(image, last, end_of(next, third), limit, one, looked) else {
        return false;
    };
    // with a mark at each of the others there would still be too many
    if marks + two.far > limit + two.marked + dumps.count + console.count {
        return false;
    }
    let Some(three) = see(image, dumps, 0, limit, two, looked) else {
        return false;
    };
    let Some(four) = see(image, console, second, limit, three, looked) else {
        return false;
    };
    if marks + four.far > limit + four.marked {
        return false;
    }
    true
}
