// The order of the zones that a report's records tell, by the kernel's release that they name.
ghost use Rattle.std.specs.Prelude.{◌≡◌, ◌≤◌, length, drop, not};
ghost use Rattle.std.specs.List.{before_first, position, position_or_len};
ghost use Rattle.std.specs.Option.{option_copied};
ghost use Rattle.region_report.specs.Tellers.{as_told, as_ended, told_in, end_in};
ghost use Rattle.report_tool.specs.Releases.{is_of_version, version_in, front_tag, tag_said, kernel_words};
ghost use Rattle.report_tool.specs.Releases.{tag_by_death, tag_by_end, tag_by, order_named};
ghost use Rattle.report_tool.specs.Version.{tag_of};

use crate::version::{ftrace_tag, order_of_code};
use death::{Span, part};
use ramoops_layout::Order;
use region_report::{
    End, RecordReport, Telling, console, death_told, end_told, machine_ended, machine_told,
};
use std::str;

fn is_of_version(b: u8) -> bool
    ensures { result ≡ is_of_version b }
{
    (b'0' <= b && b <= b'9') || b == b'.'
}

fn other_at(bytes: &[u8]) -> Option<usize>
    ensures { result ≡ position (λ b. not (is_of_version b)) bytes.now }
{
    bytes.iter().position(|b| !is_of_version(*b))
}

// How many digits and points stand in front.
#[tactic(auto, using(crate::proofs::VersionWords::version_len, crate::proofs::VersionWords::version_len_within))]
fn version_len(bytes: &[u8]) -> usize
    ensures place { result ≡ position_or_len (λ b. not (is_of_version b)) bytes.now }
    ensures within { result ≤ length bytes.now }
{
    other_at(bytes).unwrap_or(bytes.len())
}

// The digits and points in front.
fn version_in(bytes: &[u8]) -> &[u8]
    ensures { result.now ≡ version_in bytes.now }
{
    &bytes[..version_len(bytes)]
}

// The tag of the version that stands in front.
fn tag_in_front(bytes: &[u8]) -> Option<u32>
    ensures { result ≡ tag_of (version_in bytes.now) }
{
    match str::from_utf8(version_in(bytes)) {
        Ok(version) => ftrace_tag(version),
        Err(_) => None,
    }
}

// The tag of the version that stands in front, if a word begins there.
fn word_tag(begins: bool, bytes: &[u8]) -> Option<u32>
    ensures { result ≡ front_tag begins bytes.now }
{
    if begins { tag_in_front(bytes) } else { None }
}

fn rest(bytes: &[u8], at: usize) -> &[u8]
    requires { at ≤ length bytes.now }
    ensures { result.now ≡ drop at bytes.now }
{
    &bytes[at..]
}

// The tag of the first word that begins with a version.
fn tag_said(bytes: &[u8]) -> Option<u32>
    ensures { result ≡ tag_said bytes.now }
{
    let mut begins = true;
    for i in 0..bytes.len() {
        if let Some(tag) = word_tag(begins, rest(bytes, i)) {
            return Some(tag);
        }
        begins = bytes[i] == b' ';
    }
    None
}

fn kernel_words(text: &[u8], kernel: Option<Span>) -> &[u8]
    ensures { result.now ≡ kernel_words text.now kernel }
{
    match kernel {
        Some(span) => part(text, span.start, span.end),
        None => &[],
    }
}

fn tag_by_death(told: &Telling<'_>, console: Option<&RecordReport>) -> Option<u32>
    ensures { result ≡ tag_by_death (as_told told.now) (option_copied console.entry) }
{
    let teller: &RecordReport = told.teller;
    let tag = tag_said(kernel_words(teller.readable(), told.death.kernel));
    tag.or(tag_said(machine_told(told, console).version))
}

fn tag_by_end(end: Option<End<'_>>) -> Option<u32>
    ensures { result ≡ tag_by_end (end_in end.entry) }
{
    match end {
        Some(end) => tag_said(machine_ended(&end).version),
        None => None,
    }
}

fn tag_by(told: Option<Telling<'_>>, records: &[RecordReport]) -> Option<u32>
    ensures { result ≡ tag_by (told_in told.entry) records.now }
{
    match told {
        Some(told) => tag_by_death(&told, console(records)),
        None => tag_by_end(end_told(records)),
    }
}

/// The order in which the kernel lays out its zones that the record names which tells why the machine died, or else how
/// the log ends; `None` if none is named, or its order is not known. Takes time linear in the newest dump and the
/// console.
pub(crate) fn order_named(records: &[RecordReport]) -> Option<Order>
    ensures { result ≡ order_named records.now }
{
    order_of_code(tag_by(death_told(records), records)?)
}
