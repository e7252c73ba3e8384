// The lines of a boot.
ghost use Rattle.std.specs.Prelude.{◌≡◌, ◌<◌, ◌++◌, length, map, flat_map, codes, decimal, IfOk, OnOk, slice_get, Some};
ghost use Rattle.std.specs.Option.{option_map};
ghost use Rattle.zone_spec.specs.Records.{Saved};
ghost use Rattle.grammar_spec.specs.Printed.{zone_text};
ghost use Rattle.prz_read.specs.Saving.{saved};
ghost use Rattle.ramoops.specs.Reports.{cut_seen, report_seen};
ghost use Rattle.script_spec.specs.Texts.{newline, state_text, verdict_text, boot_line, call_text, seen_text, run_text};
ghost use Rattle.script_spec.specs.Texts.{runs_text, cut_line, cut_text, zone_lines, boot_text, part_text};

use prz_read::{Logs, Reading, State};
use ramoops::{CallKind, Cut, HeaderSeen, Report, Verdict, ZoneReport};
use script::pieces::{push_number, push_zone};
use std::alloc::{AllocError, Global};
use zone_spec::ZoneName;

fn state_word(state: State) -> &'static str
    ensures { result.now ≡ state_text state }
{
    match state {
        State::Unsigned => "unsigned",
        State::Empty => "empty",
        State::Invalid => "invalid",
        State::Found => "found",
    }
}

fn call_word(kind: CallKind) -> &'static str
    ensures { result.now ≡ call_text kind }
{
    match kind {
        CallKind::Append => "write",
        CallKind::Erase => "erase",
        CallKind::Dump => "dump",
    }
}

fn push_difference(text: &mut Vec<u8>, told: u32, seen: u32, first: u32) -> Result<(), AllocError>
    ensures { OnOk result (text.new.items ≡ text.old.items
        ++ codes "differs told " ++ decimal told ++ codes " read " ++ decimal seen ++ codes " first "
        ++ decimal first) }
{
    push_number(text, "differs told ", u64::from(told))?;
    push_number(text, " read ", u64::from(seen))?;
    push_number(text, " first ", u64::from(first))
}

fn push_verdict(text: &mut Vec<u8>, verdict: Verdict) -> Result<(), AllocError>
    ensures { OnOk result (text.new.items ≡ text.old.items ++ verdict_text verdict) }
{
    match verdict {
        Verdict::NothingTold => text.extend_from_slice("nothing told".as_bytes()),
        Verdict::AsTold => text.extend_from_slice("as told".as_bytes()),
        Verdict::Differs { told, seen, first } => push_difference(text, told, seen, first),
    }
}

fn push_state(text: &mut Vec<u8>, name: ZoneName, state: State) -> Result<(), AllocError>
    ensures { OnOk result (text.new.items
        ≡ text.old.items ++ codes "boot " ++ zone_text name ++ codes " " ++ state_text state) }
{
    text.extend_from_slice("boot ".as_bytes())?;
    push_zone(text, name)?;
    text.push(b' ')?;
    text.extend_from_slice(state_word(state).as_bytes())
}

fn push_numbers(text: &mut Vec<u8>, reading: &Reading) -> Result<(), AllocError>
    ensures { OnOk result (text.new.items ≡ text.old.items
        ++ codes " start " ++ decimal reading.now.words.start ++ codes " size " ++ decimal reading.now.words.size
        ++ codes " corrected " ++ decimal reading.now.corrected ++ codes " bad " ++ decimal reading.now.bad) }
{
    push_number(text, " start ", u64::from(reading.words.start))?;
    push_number(text, " size ", u64::from(reading.words.size))?;
    push_number(text, " corrected ", u64::from(reading.corrected))?;
    push_number(text, " bad ", u64::from(reading.bad))
}

fn push_conclusion(text: &mut Vec<u8>, verdict: Verdict) -> Result<(), AllocError>
    ensures { OnOk result (text.new.items ≡ text.old.items ++ codes " " ++ verdict_text verdict ++ newline) }
{
    text.push(b' ')?;
    push_verdict(text, verdict)?;
    text.push(b'\n')?;
    Ok(())
}

fn push_boot(
    text: &mut Vec<u8>,
    name: ZoneName,
    reading: &Reading,
    verdict: Verdict,
) -> Result<(), AllocError>
    ensures { OnOk result (text.new.items ≡ text.old.items ++ boot_line name reading.now verdict) }
{
    push_state(text, name, reading.state)?;
    push_numbers(text, reading)?;
    push_conclusion(text, verdict)
}

fn push_seen(text: &mut Vec<u8>, seen: HeaderSeen) -> Result<(), AllocError>
    ensures { OnOk result (text.new.items ≡ text.old.items ++ seen_text seen) }
{
    match seen {
        HeaderSeen::Pair(j) => push_number(text, "pair ", u64::from(j)),
        HeaderSeen::Foreign => text.extend_from_slice("foreign".as_bytes()),
    }
}

// A run after a comma, or after nothing.
fn push_run(text: &mut Vec<u8>, comma: &str, run: (u32, u32)) -> Result<(), AllocError>
    ensures { OnOk result (text.new.items ≡ text.old.items ++ comma.now ++ run_text run) }
{
    push_number(text, comma, u64::from(run.0))?;
    if run.0 == run.1 {
        return Ok(());
    }
    push_number(text, "-", u64::from(run.1))
}

// Runs, each after a comma.
fn push_further(text: &mut Vec<u8>, runs: &[(u32, u32)]) -> Result<(), AllocError>
    ensures { OnOk result (text.new.items ≡ text.old.items ++ flat_map (λ run. codes "," ++ run_text run) runs.now) }
{
    for run in runs {
        push_run(text, ",", *run)?;
    }
    Ok(())
}

fn push_runs(text: &mut Vec<u8>, runs: &[(u32, u32)]) -> Result<(), AllocError>
    ensures { OnOk result (text.new.items ≡ text.old.items ++ runs_text runs.now) }
{
    match runs.split_first() {
        Some((first, further)) => {
            push_run(text, "", *first)?;
            push_further(text, further)
        }
        None => text.extend_from_slice("none".as_bytes()),
    }
}

fn push_stores(text: &mut Vec<u8>, kind: CallKind, made: u64, total: u64) -> Result<(), AllocError>
    ensures { OnOk result (text.new.items
        ≡ text.old.items ++ codes " " ++ call_text kind ++ codes " " ++ decimal made ++ codes " of " ++ decimal total) }
{
    text.push(b' ')?;
    text.extend_from_slice(call_word(kind).as_bytes())?;
    push_number(text, " ", made)?;
    push_number(text, " of ", total)
}

fn push_cut(text: &mut Vec<u8>, name: ZoneName, cut: &Cut) -> Result<(), AllocError>
    ensures { OnOk result (text.new.items ≡ text.old.items ++ cut_line name (cut_seen cut.now)) }
{
    text.extend_from_slice("cut ".as_bytes())?;
    push_zone(text, name)?;
    push_stores(text, cut.kind, cut.made, cut.total)?;
    text.extend_from_slice(" header ".as_bytes())?;
    push_seen(text, cut.header)?;
    text.extend_from_slice(" blocks ".as_bytes())?;
    push_runs(text, cut.runs.as_slice())?;
    text.push(b'\n')?;
    Ok(())
}

// The lines of a zone that was not forgotten.
fn push_lines(text: &mut Vec<u8>, reading: &Reading, report: &ZoneReport) -> Result<(), AllocError>
    ensures { OnOk result (text.new.items
        ≡ text.old.items ++ boot_line report.now.name reading.now report.now.verdict
        ++ cut_text report.now.name (option_map cut_seen report.now.cut)) }
{
    push_boot(text, report.name, reading, report.verdict)?;
    match &report.cut {
        Some(cut) => push_cut(text, report.name, cut),
        None => Ok(()),
    }
}

// The lines of zone `i`.
fn push_zone_lines(
    text: &mut Vec<u8>,
    logs: &Logs,
    i: u32,
    report: &ZoneReport,
) -> Result<(), AllocError>
    requires { i < length logs.now.readings }
    ensures { (s : Saved) → slice_get (saved logs.now) i ≡ Some s
        → OnOk result (text.new.items ≡ text.old.items ++ zone_lines s.1 (report_seen report.now)) }
{
    match logs.reading(i) {
        Some(reading) => push_lines(text, reading, report),
        None => Ok(()),
    }
}

/// The text of a boot: a line for each zone whose reading was saved, and one for its cut, if it had one.
///
/// Zones and reports are taken side by side, in the zones' order, as far as there are both.
pub fn boot_text(alloc: Global, logs: &Logs, report: &Report) -> Result<Vec<u8>, AllocError>
    ensures { IfOk result (λ text. text.items ≡ boot_text (saved logs.now) (map report_seen report.now)) }
{
    let reports = report.as_slice();
    let mut text = Vec::new(alloc);
    let both = (logs.len() as usize).min(reports.len());
    for i in 0..both {
        push_zone_lines(&mut text, logs, i as u32, &reports[i])?;
    }
    Ok(text)
}

/// The text of a boot that was stopped after so many stores.
pub fn part_text(alloc: Global, made: u64) -> Result<Vec<u8>, AllocError>
    ensures { IfOk result (λ text. text.items ≡ part_text made) }
{
    let mut text = Vec::new(alloc);
    push_number(&mut text, "boot stopped after ", made)?;
    text.extend_from_slice(" stores\n".as_bytes())?;
    Ok(text)
}
