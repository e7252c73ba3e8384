// The rounds of a generated session.
ghost use Rattle.std.specs.Prelude.{◌≡◌, ℕ, ◌<◌, ◌^◌, List, length, map, count_by, IfOk, OnOk};
ghost use Rattle.std.specs.List.{All, range_with_len};
ghost use Rattle.zone_spec.specs.declared.Zone.{Zone as AZone};
ghost use Rattle.zone_spec.specs.Parts.{AreBytes};
ghost use Rattle.zone_spec.specs.Layouts.{IsLayout};
ghost use Rattle.machine_spec.specs.States.{OffState};
ghost use Rattle.machine_spec.specs.Report.{ZoneReport as AReport};
ghost use Rattle.ramoops.specs.OffSeen.{StandsOff};
ghost use Rattle.ramoops.specs.Reports.{report_seen};
ghost use Rattle.script_spec.specs.Generated.{Generated, is_told, is_other, turn, drawn_calls, drawn_boot};
ghost use Rattle.script_spec.specs.Generated.{round as round_of};
ghost use Rattle.ram_generator.specs.Damage.{IsWithin};
ghost use Rattle.ram_generator.specs.Counting.{AreBelow, Grows, verdicts_added};
ghost use Rattle.ram_generator.specs.Sessions.{Goes, GoesOver, IsUp, IsPlan};

use crate::calls::{make_cut, make_turn, resting};
use crate::counts::Counts;
use crate::{Draws, Targets, draw_all, make_damage};
use ramoops::{Live, Off, Report, Verdict, ZoneReport};
use std::alloc::{AllocError, Global};
use zone_spec::Zone;

/// The zones of a layout, and what calls are drawn for.
#[derive(Drop)]
pub struct RoundPlan {
    zones: Vec<Zone>,
    targets: Targets,
}

impl RoundPlan {
    pub fn new(alloc: Global, zones: &[Zone]) -> Result<RoundPlan, AllocError>
        requires few { length zones.now < 2 ^ 31 }
        requires within { All IsWithin zones.now }
        ensures plan { IfOk result IsPlan }
        ensures zones { IfOk result (λ plan. plan.zones.items ≡ zones.now) }
    {
        Ok(RoundPlan {
            zones: Vec::from_slice(alloc, zones)?,
            targets: Targets::new(alloc, zones)?,
        })
    }
}

// The 24 turns of round q.
fn turns(
    alloc: Global,
    plan: &RoundPlan,
    draws: &mut Draws,
    counts: &mut Counts,
    live: &mut Live,
    q: u64,
) -> Result<(), AllocError>
    requires plan { IsPlan plan.now }
    requires round { q < 2 ^ 63 }
    requires room { AreBelow counts.old (2 ^ 30) }
    ensures turned { OnOk result (GoesOver (turn plan.now.zones.items q) (range_with_len 0 24) plan.now.zones.items
        live.old counts.old draws.old live.new counts.new draws.new) }
    ensures grows { OnOk result (Grows counts.old counts.new 24) }
{
    'turns: for _ in 0..24_u32 {
        let turn = plan.targets.draw_turn(alloc, draws, q)?;
        make_turn(live, counts, turn);
    }
    Ok(())
}

// The calls of round q, and an append of which only the first stores are made.
fn calls(
    alloc: Global,
    plan: &RoundPlan,
    draws: &mut Draws,
    counts: &mut Counts,
    live: &mut Live,
    q: u64,
) -> Result<(), AllocError>
    requires plan { IsPlan plan.now }
    requires round { q < 2 ^ 63 }
    requires room { AreBelow counts.old (2 ^ 30) }
    ensures called { OnOk result (Goes (λ layout g. drawn_calls layout g q) plan.now.zones.items live.old counts.old
        draws.old live.new counts.new draws.new) }
    ensures grows { OnOk result (Grows counts.old counts.new 25) }
{
    turns(alloc, plan, draws, counts, live, q)?;
    let cut = plan.targets.draw_cut(alloc, draws)?;
    make_cut(live, counts, cut);
    Ok(())
}

// Tells that an image is of bytes.
fn check(image: &[u8])
    ensures { AreBytes image.now }
{}

/// Boots a store.
pub fn boot_up(off: Off) -> Result<(Live, Report), AllocError>
    ensures { IfOk result (λ r. (layout : List AZone) (mem : ℕ) (s : OffState) → IsLayout layout mem
        → StandsOff layout mem off s → length s.image ≡ mem → IsUp layout mem s r.0 (map report_seen r.1)) }
{
    check(off.image());
    match off.boot() {
        Ok((live, _, report)) => Ok((live, report)),
        Err((_, refused)) => Err(refused),
    }
}

fn is_as_told(report: &ZoneReport) -> bool
    ensures { result ≡ is_told report.now.verdict }
{
    match report.verdict {
        Verdict::AsTold => true,
        Verdict::NothingTold | Verdict::Differs { .. } => false,
    }
}

fn differs(report: &ZoneReport) -> bool
    ensures { result ≡ is_other report.now.verdict }
{
    match report.verdict {
        Verdict::Differs { .. } => true,
        Verdict::NothingTold | Verdict::AsTold => false,
    }
}

// Counts the verdicts of a boot.
fn count_verdicts(counts: &mut Counts, report: &Report)
    requires { AreBelow counts.old (2 ^ 32) }
    ensures added { counts.new ≡ verdicts_added counts.old (count_by (λ (r : AReport). is_told r.verdict)
        (map report_seen report.now)) (count_by (λ (r : AReport). is_other r.verdict)
        (map report_seen report.now)) }
    ensures grows { Grows counts.old counts.new 1 }
{
    let reports = report.as_slice();
    let as_told = reports.iter().filter(|report| is_as_told(report)).count();
    let differs = reports.iter().filter(|report| differs(report)).count();
    counts.add_verdicts(as_told as u64, differs as u64);
}

// Stops, damages the zones where that cuts no call, and boots.
fn boot(
    alloc: Global,
    draws: &mut Draws,
    counts: &mut Counts,
    live: Live,
    zones: &[Zone],
) -> Result<Live, AllocError>
    requires within { All IsWithin zones.now }
    requires room { AreBelow counts.old (2 ^ 31) }
    ensures booted { IfOk result (λ next. Goes drawn_boot zones.now live counts.old draws.old next counts.new
        draws.new) }
    ensures grows { OnOk result (Grows counts.old counts.new 2) }
{
    let rest = resting(alloc, &live, zones)?;
    let flips = draw_all(alloc, draws, &rest)?;
    counts.add_flips(flips.len() as u64);
    let mut off = live.stop();
    make_damage(&mut off, &flips);
    let (live, report) = boot_up(off)?;
    count_verdicts(counts, &report);
    Ok(live)
}

fn round(
    alloc: Global,
    plan: &RoundPlan,
    draws: &mut Draws,
    counts: &mut Counts,
    live: Live,
    q: u64,
) -> Result<Live, AllocError>
    requires plan { IsPlan plan.now }
    requires round { q < 2 ^ 63 }
    requires room { AreBelow counts.old (2 ^ 30) }
    ensures round { IfOk result (λ next. Goes (λ layout g. round_of layout g q) plan.now.zones.items live counts.old
        draws.old next counts.new draws.new) }
    ensures grows { OnOk result (Grows counts.old counts.new 27) }
{
    let mut live = live;
    calls(alloc, plan, draws, counts, &mut live, q)?;
    boot(alloc, draws, counts, live, &plan.zones)
}

/// Eight rounds from a booted store on. Their dumps have the round's number for their seconds.
pub fn rounds(
    alloc: Global,
    plan: &RoundPlan,
    draws: &mut Draws,
    counts: &mut Counts,
    live: Live,
) -> Result<Live, AllocError>
    requires plan { IsPlan plan.now }
    requires room { AreBelow counts.old 0 }
    ensures { IfOk result (λ last. GoesOver (round_of plan.now.zones.items) (range_with_len 0 8)
        plan.now.zones.items live counts.old draws.old last counts.new draws.new) }
{
    let mut live = live;
    'rounds: for q in 0..8_u64 {
        live = round(alloc, plan, draws, counts, live, q)?;
    }
    Ok(live)
}
