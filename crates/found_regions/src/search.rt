// The pages at which a region is looked for.
ghost use Rattle.std.specs.Prelude.{◌≡◌, ◌+◌, ◌≤◌, ◌<◌, nat_le, IfOk, IfErr, IfSome, OnOk};
ghost use Rattle.memory_spec.specs.Pages.{marked};
ghost use Rattle.memory_regions.specs.Faults.{IsUnread};
ghost use Rattle.found_regions.specs.Search.{Seen, nothing_seen, place_of, with_finding, with_region, without_rest};
ghost use Rattle.found_regions.specs.Search.{is_passed, is_spent, IsStep, AreFindings};

use crate::region::{Region, region_at};
use layout_search::Known;
use memory_regions::{Unread, Watch, marked_pages};
use outside::Load;
use std::alloc::{AllocError, Global};
use std::marker::Model;

const PAGE: u64 = 4_096;

/// At so many pages a layout is looked for and none is found, then no more.
const TRIES: u32 = 64;

/// What was found at a page at which a header seems to stand.
#[derive(Clone, Copy, Debug, PartialEq, Eq)]
pub enum Finding {
    /// A region.
    Shown(Region),
    /// No layout explains what stands at this place.
    Unexplained(u64),
    /// What stands from this place on was not looked at.
    Unseen(u64),
}

// What was found so far.
#[derive(Drop)]
struct Search {
    findings: Vec<Finding>,
    from: u64,
    tries: u32,
    is_over: bool,
}

impl Model for Search {
    ghost Value = { Seen };

    ghost view = { λ s. record { findings = s.findings.items; from = s.from; tries = s.tries; is_over = s.is_over } };
}

impl Search {
    fn new(alloc: Global) -> Search
        ensures { result ≡ nothing_seen }
    {
        Search {
            findings: Vec::new(alloc),
            from: 0,
            tries: 0,
            is_over: false,
        }
    }

    fn into_findings(self) -> Vec<Finding>
        ensures { result.items ≡ self.findings }
    {
        self.findings
    }

    fn passes(&self, place: u64) -> bool
        ensures { result ≡ is_passed self.now place }
    {
        self.is_over || place < self.from
    }

    fn is_spent(&self) -> bool
        ensures { result ≡ is_spent self.now }
    {
        self.tries >= TRIES
    }

    fn add(&mut self, finding: Finding) -> Result<(), AllocError>
        ensures { OnOk result (self.new ≡ with_finding self.old finding) }
    {
        self.findings.push(finding)?;
        Ok(())
    }

    // No more is looked at.
    fn end_at(&mut self, place: u64) -> Result<(), AllocError>
        ensures { OnOk result (self.new ≡ without_rest self.old place) }
    {
        self.add(Finding::Unseen(place))?;
        self.is_over = true;
        Ok(())
    }

    fn add_region(&mut self, place: u64, region: Option<Region>) -> Result<(), AllocError>
        requires { self.old.tries < 64 }
        ensures { OnOk result (self.new ≡ with_region self.old place region) }
    {
        match region {
            Some(region) => {
                self.add(Finding::Shown(region))?;
                self.from = place.saturating_add(region.found.candidate.mem);
            }
            None => {
                self.add(Finding::Unexplained(place))?;
                self.tries += 1;
            }
        }
        Ok(())
    }
}

fn place_of(page: u64) -> u64
    ensures { result ≡ place_of page }
{
    page.saturating_mul(PAGE)
}

// Looks for a region at a marked page.
fn look_at<M: Load>(
    alloc: Global,
    memory: &mut M,
    known: &Known,
    page: u64,
    search: &mut Search,
) -> Result<(), Unread>
    ensures ok { OnOk result (IfSome (M.holds memory.old) (λ bs. IsStep known.now bs page search.old search.new)) }
    ensures err { IfErr result (λ e. IsUnread e (M.faults memory.old) (M.faults memory.new)) }
    ensures no_fault { OnOk result (M.faults memory.new ≡ M.faults memory.old) }
    ensures same { M.holds memory.new ≡ M.holds memory.old }
    ensures later { M.faults memory.old ≤ M.faults memory.new }
{
    let place = place_of(page);
    if search.passes(place) {
        return Ok(());
    }
    if search.is_spent() {
        search.end_at(place)?;
        return Ok(());
    }
    let region = region_at(alloc, memory, known, place)?;
    search.add_region(place, region)?;
    Ok(())
}

fn look_at_all<M: Load>(
    alloc: Global,
    memory: &mut M,
    known: &Known,
    pages: &[u64],
) -> Result<Vec<Finding>, Unread>
    ensures ok { IfOk result (λ v. IfSome (M.holds memory.old) (λ bs. AreFindings known.now bs pages.now v.items)) }
    ensures err { IfErr result (λ e. IsUnread e (M.faults memory.old) (M.faults memory.new)) }
    ensures no_fault { OnOk result (M.faults memory.new ≡ M.faults memory.old) }
    ensures same { M.holds memory.new ≡ M.holds memory.old }
    ensures later { M.faults memory.old ≤ M.faults memory.new }
{
    let mut search = Search::new(alloc);
    for page in pages {
        look_at(alloc, memory, known, *page, &mut search)?;
    }
    Ok(search.into_findings())
}

/// What is found in a memory, in the order of the places. A region begins at a page at which a header seems to stand, and
/// not within the one before it. After 64 pages whose bytes no layout explains no more is looked at.
pub fn findings<M: Load, W: Watch>(
    alloc: Global,
    memory: &mut M,
    known: &Known,
    watch: &mut W,
) -> Result<Vec<Finding>, Unread>
    ensures ok { IfOk result (λ v. IfSome (M.holds memory.old) (λ bs. AreFindings known.now bs (marked bs) v.items)) }
    ensures err { IfErr result (λ e. IsUnread e (M.faults memory.old) (M.faults memory.new)) }
    ensures no_fault { OnOk result (M.faults memory.new ≡ M.faults memory.old) }
    ensures same { M.holds memory.new ≡ M.holds memory.old }
    ensures later { M.faults memory.old ≤ M.faults memory.new }
{
    let pages = marked_pages(alloc, memory, watch)?;
    look_at_all(alloc, memory, known, &pages)
}
