// The lines on a layout that was looked for.
ghost use Rattle.std.specs.Prelude.{◌≡◌, ◌↔◌, ◌++◌, IsTrue, decimal, string_bytes, IfOk, OnOk};
ghost use Rattle.zone_spec.specs.Layout.{layout_of};
ghost use Rattle.layout_spec.specs.Laid.{params_of};
ghost use Rattle.report_entry.specs.Hints.{faults_text, found_line, rival_text, untried_line};
ghost use Rattle.report_entry.specs.Hints.{LiesAs, LieAlike, AreAlike, IsRivalLine, IsTakenHint, best_hint};

use layout_search::{Candidate, Found, params};
use ramoops_layout::{LayoutError, layout};
use report_tool::{layout_words, push_number};
use std::alloc::{AllocError, Global};
use zone_spec::Zone;

fn faults_text(alloc: Global, faults: u64) -> Result<String, AllocError>
    ensures { IfOk result (λ text. string_bytes text ≡ faults_text faults) }
{
    let mut text = String::new(alloc);
    if faults == 0 {
        return Ok(text);
    }
    push_number(alloc, &mut text, " with ", faults)?;
    text.push_str(if faults == 1 { " fault" } else { " faults" })?;
    Ok(text)
}

#[tactic(auto, unfolding(crate::specs::Hints::found_line))]
fn found_line(
    alloc: Global,
    name: &str,
    size: u64,
    faults: u64,
    words: &str,
) -> Result<String, AllocError>
    ensures { IfOk result (λ text. string_bytes text ≡ found_line name.now size faults words.now) }
{
    let mut text = String::from_str(alloc, name)?;
    push_number(alloc, &mut text, ": ", size)?;
    text.push_str(" bytes; layout found")?;
    text.push_str(&faults_text(alloc, faults)?)?;
    text.push_str(": ")?;
    text.push_str(words)?;
    text.push_str("\n")?;
    Ok(text)
}

fn lies_as(one: &Zone, other: &Zone) -> bool
    ensures { IsTrue result ↔ LiesAs one.now other.now }
{
    one.at == other.at && one.size == other.size
}

// Whether zones lie in the same places.
fn lie_alike(one: &[Zone], other: &[Zone]) -> bool
    ensures { IsTrue result ↔ LieAlike one.now other.now }
{
    if one.len() != other.len() {
        return false;
    }
    for i in 0..one.len() {
        if !lies_as(&one[i], &other[i]) {
            return false;
        }
    }
    true
}

// Whether the zones of two layouts lie in the same places, so that only their kinds differ.
fn are_alike(alloc: Global, one: &Candidate, other: &Candidate) -> Result<bool, AllocError>
    ensures { IfOk result (λ r. IsTrue r ↔ AreAlike (layout_of (params_of one.now)) (layout_of (params_of other.now))) }
{
    let one = match layout(alloc, &params(one)) {
        Ok(layout) => layout,
        Err(LayoutError::Memory) => return Err(AllocError),
        Err(LayoutError::Fault(_)) => return Ok(false),
    };
    match layout(alloc, &params(other)) {
        Ok(other) => Ok(lie_alike(one.zones(), other.zones())),
        Err(LayoutError::Memory) => Err(AllocError),
        Err(LayoutError::Fault(_)) => Ok(false),
    }
}

#[tactic(auto, unfolding(crate::specs::Hints::rival_text))]
fn rival_text(alloc: Global, alike: bool, words: &str) -> Result<String, AllocError>
    ensures { IfOk result (λ text. string_bytes text ≡ rival_text alike words.now) }
{
    let what = match alike {
        true => "zone kinds are a best guess; also possible: ",
        false => "another layout explains as much: ",
    };
    let mut text = String::from_str(alloc, what)?;
    text.push_str(words)?;
    text.push_str("\n")?;
    Ok(text)
}

fn rival_line(alloc: Global, found: &Found, size: u64) -> Result<String, AllocError>
    ensures { IfOk result (λ text. IsRivalLine found.now.candidate found.now.rival size (string_bytes text)) }
{
    match &found.rival {
        Some(rival) => {
            let alike = are_alike(alloc, &found.candidate, rival)?;
            rival_text(alloc, alike, &layout_words(alloc, rival, size)?)
        }
        None => Ok(String::new(alloc)),
    }
}

fn untried_line(alloc: Global, whole: bool) -> Result<String, AllocError>
    ensures { IfOk result (λ text. string_bytes text ≡ untried_line whole) }
{
    let mut text = String::new(alloc);
    if whole {
        return Ok(text);
    }
    text.push_str("not all layouts were tried; another may explain it better")?;
    text.push_str("\n")?;
    Ok(text)
}

/// The lines on a layout that is taken: its words, whether others were not tried, and the words of another that
/// explains the image as well. `name` stands for the path of the image, which has `size` bytes.
pub fn taken_hint(alloc: Global, name: &str, size: u64, found: &Found) -> Result<String, AllocError>
    ensures { IfOk result (λ text. IsTakenHint name.now size found.now (string_bytes text)) }
{
    let words = layout_words(alloc, &found.candidate, size)?;
    let mut text = found_line(alloc, name, size, found.tally.faults, &words)?;
    text.push_str(&untried_line(alloc, found.whole)?)?;
    text.push_str(&rival_line(alloc, found, size)?)?;
    Ok(text)
}

/// The line on the best layout, where none is taken.
#[tactic(auto, unfolding(crate::specs::Hints::best_hint))]
pub fn best_hint(alloc: Global, name: &str, size: u64, found: &Found) -> Result<String, AllocError>
    ensures { IfOk result (λ text. string_bytes text ≡ best_hint name.now size found.now) }
{
    let mut text = String::from_str(alloc, name)?;
    text.push_str(": best layout: ")?;
    text.push_str(&layout_words(alloc, &found.candidate, size)?)?;
    push_number(alloc, &mut text, " (", found.tally.fits)?;
    push_number(alloc, &mut text, " of ", found.tally.zones)?;
    push_number(alloc, &mut text, " zones fit, faults: ", found.tally.faults)?;
    text.push_str(")\n")?;
    Ok(text)
}
