// Places and regions in a whole memory, as they are told.
ghost use Rattle.std.specs.Prelude.{◌≡◌, ◌++◌, string_bytes, IfOk, OnOk};
ghost use Rattle.report_tool.specs.LayoutWords.{hexadecimal};
ghost use Rattle.report_run.specs.Places.{place_text, region_name, place_after, places_text, larger_line, finding_line};
ghost use Rattle.report_run.specs.Places.{finding_lines, region_list, regions_in, unexplained_line, unseen_front, unseen_line};

use found_regions::{Finding, Region};
use std::alloc::{AllocError, Global};

#[tactic(auto, unfolding(report_tool::specs::LayoutWords::hexadecimal))]
fn hexadecimal(alloc: Global, n: u64) -> Result<String, AllocError>
    ensures { IfOk result (λ text. string_bytes text ≡ hexadecimal n) }
{
    format!(in alloc; "{n:x}")
}

fn place_text(alloc: Global, base: u64, place: u64) -> Result<String, AllocError>
    ensures { IfOk result (λ text. string_bytes text ≡ place_text base place) }
{
    let digits = hexadecimal(alloc, base.saturating_add(place))?;
    let mut text = String::from_str(alloc, "0x")?;
    text.push_str(&digits)?;
    Ok(text)
}

/// The name of the region at a place of a file.
pub fn region_name(alloc: Global, path: &str, base: u64, place: u64) -> Result<String, AllocError>
    ensures { IfOk result (λ text. string_bytes text ≡ region_name path.now base place) }
{
    let place = place_text(alloc, base, place)?;
    let mut text = String::from_str(alloc, path)?;
    text.push_str("@")?;
    text.push_str(&place)?;
    Ok(text)
}

fn add_place(alloc: Global, text: &mut String, base: u64, region: &Region) -> Result<(), AllocError>
    ensures { OnOk result (string_bytes text.new ≡ string_bytes text.old ++ place_after base region.now) }
{
    let place = place_text(alloc, base, region.place)?;
    text.push_str(" ")?;
    text.push_str(&place)?;
    Ok(())
}

/// The places of regions, each after a space.
pub fn places_text(alloc: Global, base: u64, regions: &[Region]) -> Result<String, AllocError>
    ensures { IfOk result (λ text. string_bytes text ≡ places_text base regions.now) }
{
    let mut text = String::new(alloc);
    for region in regions {
        add_place(alloc, &mut text, base, region)?;
    }
    Ok(text)
}

/// The line on a larger size that explains as much, if there is one.
pub fn larger_line(alloc: Global, larger: Option<u64>) -> Result<String, AllocError>
    ensures { IfOk result (λ text. string_bytes text ≡ larger_line larger) }
{
    let mut text = String::new(alloc);
    let Some(size) = larger else {
        return Ok(text);
    };
    text.push_str("a region of ")?;
    text.push_str(&size.to_string(alloc)?)?;
    text.push_str(" bytes explains as much")?;
    text.push_str("\n")?;
    Ok(text)
}

fn unexplained_line(alloc: Global, path: &str, base: u64, place: u64) -> Result<String, AllocError>
    ensures { IfOk result (λ text. string_bytes text ≡ unexplained_line path.now base place) }
{
    let name = region_name(alloc, path, base, place)?;
    let mut text = String::from_str(alloc, "oopsreport: ")?;
    text.push_str(&name)?;
    text.push_str(": a header seems to stand there, and no layout explains it")?;
    text.push_str("\n")?;
    Ok(text)
}

#[tactic(auto, unfolding(crate::specs::Places::unseen_front))]
fn unseen_front(alloc: Global, path: &str) -> Result<String, AllocError>
    ensures { IfOk result (λ text. string_bytes text ≡ unseen_front path.now) }
{
    let mut text = String::from_str(alloc, "oopsreport: ")?;
    text.push_str(path)?;
    text.push_str(": what stands from ")?;
    Ok(text)
}

fn unseen_line(alloc: Global, path: &str, base: u64, place: u64) -> Result<String, AllocError>
    ensures { IfOk result (λ text. string_bytes text ≡ unseen_line path.now base place) }
{
    let place = place_text(alloc, base, place)?;
    let mut text = unseen_front(alloc, path)?;
    text.push_str(&place)?;
    text.push_str(" on was not looked at")?;
    text.push_str("\n")?;
    Ok(text)
}

fn finding_line(
    alloc: Global,
    path: &str,
    base: u64,
    finding: &Finding,
) -> Result<String, AllocError>
    ensures { IfOk result (λ text. string_bytes text ≡ finding_line path.now base finding.now) }
{
    match *finding {
        Finding::Shown(_) => Ok(String::new(alloc)),
        Finding::Unexplained(place) => unexplained_line(alloc, path, base, place),
        Finding::Unseen(place) => unseen_line(alloc, path, base, place),
    }
}

/// The lines on pages where no region is reported.
pub fn finding_lines(
    alloc: Global,
    path: &str,
    base: u64,
    findings: &[Finding],
) -> Result<String, AllocError>
    ensures { IfOk result (λ text. string_bytes text ≡ finding_lines path.now base findings.now) }
{
    let mut text = String::new(alloc);
    for finding in findings {
        let line = finding_line(alloc, path, base, finding)?;
        text.push_str(&line)?;
    }
    Ok(text)
}

fn add_region(regions: &mut Vec<Region>, finding: &Finding) -> Result<(), AllocError>
    ensures { OnOk result (regions.new.items ≡ regions.old.items ++ region_list finding.now) }
{
    match *finding {
        Finding::Shown(region) => {
            regions.push(region)?;
            Ok(())
        }
        Finding::Unexplained(_) => Ok(()),
        Finding::Unseen(_) => Ok(()),
    }
}

/// The regions that were found, in order.
pub fn regions_in(alloc: Global, findings: &[Finding]) -> Result<Vec<Region>, AllocError>
    ensures { IfOk result (λ regions. regions.items ≡ regions_in findings.now) }
{
    let mut regions = Vec::new(alloc);
    for finding in findings {
        add_region(&mut regions, finding)?;
    }
    Ok(regions)
}
