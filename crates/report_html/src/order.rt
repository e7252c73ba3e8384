// The order of the records on a page.
ghost use Rattle.std.specs.Prelude.{◌≡◌, IfOk};
ghost use Rattle.std.specs.Ordering.{is_lt};
ghost use Rattle.report_html.specs.Order.{goes_before, newest_first, shown_in};

use region_report::{RecordReport, is_newer};
use std::alloc::{AllocError, Global};
use std::cmp::Ordering;

fn by_time(one: &RecordReport, other: &RecordReport) -> Ordering
    ensures { is_lt result ≡ goes_before one.now other.now }
{
    if is_newer(one, Some(other)) {
        Ordering::Less
    } else if is_newer(other, Some(one)) {
        Ordering::Greater
    } else {
        Ordering::Equal
    }
}

fn listed<'a>(
    alloc: Global,
    records: &'a [RecordReport],
) -> Result<Vec<&'a RecordReport>, AllocError>
    ensures { IfOk result (λ all. shown_in all.items ≡ records.now) }
{
    let mut all = Vec::new(alloc);
    for held in records {
        all.push(held)?;
    }
    Ok(all)
}

/// The records, the latest time first. Equal times, and records without a time, stand as they are listed. Takes time
/// `n log n`.
pub fn newest_first<'a>(
    alloc: Global,
    records: &'a [RecordReport],
) -> Result<Vec<&'a RecordReport>, AllocError>
    ensures { IfOk result (λ all. shown_in all.items ≡ newest_first records.now) }
{
    let mut all = listed(alloc, records)?;
    all.sort_by(|one, other| by_time(one, other))?;
    Ok(all)
}
