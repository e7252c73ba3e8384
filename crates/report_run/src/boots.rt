// The boots of a text log: the report of the last one, and then those of the boots before it.
ghost use Rattle.std.specs.Prelude.{◌≡◌, ◌-◌, ◌<◌, length, take, drop, slice_get, Some, IfOk, OnOk, MatchResult};
ghost use Rattle.log_image.specs.Images.{IsLogImage};
ghost use Rattle.report_run.specs.Plans.{dressed as dressed_as, map_of};
ghost use Rattle.report_run.specs.Boots.{IsTextHeld, part_of, last_part, IsPartShown, IsPartUnshown, earlier_format};
ghost use Rattle.report_run.specs.Boots.{IsBootShown, IsBootUnshown, AreBootsShown, AreBootsUnshown, AreEarlierShown};
ghost use Rattle.report_run.specs.Boots.{AreEarlierUnshown, IsLogShown, IsLogUnshown};

use crate::failures::Failure;
use crate::images::report_by;
use crate::places::region_name;
use crate::plans::{Asked, dressed};
use crate::read_only::ReadOnly;
use log_image::{LogImage, log_image};
use outside::Sink;
use region_report::Report;
use report_tool::Format;
use std::alloc::{AllocError, Global};
use text_log::{Boot, boots};

/// A text log: its text, the place of that in its file, and the boots in it, the last one first.
#[derive(Drop)]
pub struct HeldLog {
    pub text: Vec<u8>,
    pub base: u64,
    pub boots: Vec<Boot>,
}

/// A text that stands at this place of its file, as a log.
pub fn held_text(alloc: Global, text: Vec<u8>, base: u64) -> Result<HeldLog, AllocError>
    ensures { IfOk result (IsTextHeld text.items base) }
{
    let mut boots = boots(alloc, &text)?;
    boots.reverse();
    Ok(HeldLog { text, base, boots })
}

// What stands from a place on, at most so many bytes.
fn part(text: &[u8], at: usize, len: usize) -> &[u8]
    ensures { result.now ≡ take len (drop at text.now) }
{
    let rest = if at < text.len() { &text[at..] } else { &[] };
    &rest[..len.min(rest.len())]
}

// What a boot wrote.
fn part_of(text: &[u8], boot: Boot) -> &[u8]
    ensures { result.now ≡ part_of text.now boot }
{
    part(text, boot.start, boot.end.saturating_sub(boot.start))
}

// What the last boot wrote.
fn last_part<'a>(text: &'a [u8], boots: &[Boot]) -> &'a [u8]
    ensures { result.now ≡ last_part text.entry.now boots.now }
{
    match boots.first() {
        Some(boot) => part_of(text, *boot),
        None => text,
    }
}

// The report of a part of a log, in a format and under a name.
fn report_part<O: Sink>(
    alloc: Global,
    asked: &Asked,
    format: Format,
    name: &str,
    part: &[u8],
    out: &mut O,
) -> Result<Report, Failure>
    ensures reported { MatchResult result
        (IsPartShown asked.now format name.now part.now (O.given out.old) (O.given out.new))
        (IsPartUnshown asked.now format name.now part.now (O.given out.old) (O.given out.new) (O.faults out.old)
        (O.faults out.new)) }
    ensures faultless { OnOk result (O.faults out.new ≡ O.faults out.old) }
{
    let LogImage { plan, region } = log_image(alloc, part)?;
    let plan = dressed(alloc, plan, asked.lines, &asked.map)?;
    let mut image = ReadOnly::new(region);
    report_by(alloc, &plan, format, name, &mut image, out)
}

// In which format the boots before the last are reported, if they are.
fn earlier_format(format: Format) -> Option<Format>
    ensures { result ≡ earlier_format format }
{
    match format {
        Format::Text => Some(Format::Brief),
        Format::Json => Some(Format::Json),
        Format::Html => None,
        Format::Brief => None,
    }
}

// The report of a boot, under the name that its place gives it.
fn report_boot<O: Sink>(
    alloc: Global,
    asked: &Asked,
    format: Format,
    path: &str,
    log: &HeldLog,
    boot: Boot,
    out: &mut O,
) -> Result<(), Failure>
    ensures reported { MatchResult result
        (λ _. IsBootShown asked.now format path.now log.now boot (O.given out.old) (O.given out.new))
        (IsBootUnshown asked.now format path.now log.now boot (O.given out.old) (O.given out.new) (O.faults out.old)
        (O.faults out.new)) }
    ensures faultless { OnOk result (O.faults out.new ≡ O.faults out.old) }
{
    let name = region_name(alloc, path, log.base, boot.start as u64)?;
    report_part(alloc, asked, format, &name, part_of(&log.text, boot), out)?;
    Ok(())
}

fn nth_boot(boots: &[Boot], i: usize) -> Boot
    requires { i < length boots.now }
    ensures { slice_get boots.now i ≡ Some result }
{
    boots[i]
}

// The reports of boots, one after another. The first that fails ends it.
fn report_boots<O: Sink>(
    alloc: Global,
    asked: &Asked,
    format: Format,
    path: &str,
    log: &HeldLog,
    boots: &[Boot],
    out: &mut O,
) -> Result<(), Failure>
    ensures reported { MatchResult result
        (λ _. AreBootsShown asked.now format path.now log.now boots.now (O.given out.old) (O.given out.new))
        (AreBootsUnshown asked.now format path.now log.now boots.now (O.given out.old) (O.given out.new)
        (O.faults out.old) (O.faults out.new)) }
    ensures faultless { OnOk result (O.faults out.new ≡ O.faults out.old) }
{
    for i in 0..boots.len() {
        let boot = nth_boot(boots, i);
        report_boot(alloc, asked, format, path, log, boot, out)?;
    }
    Ok(())
}

// The boots before the last, of boots of which the last one is the first.
fn earlier(boots: &[Boot]) -> &[Boot]
    ensures { result.now ≡ drop 1 boots.now }
{
    if boots.is_empty() { &[] } else { &boots[1..] }
}

// The reports of the boots before the last, where the format has them.
fn report_earlier<O: Sink>(
    alloc: Global,
    asked: &Asked,
    path: &str,
    log: &HeldLog,
    out: &mut O,
) -> Result<(), Failure>
    ensures reported { let by = earlier_format asked.now.format in
        MatchResult result
        (λ _. AreEarlierShown by asked.now path.now log.now (O.given out.old) (O.given out.new))
        (AreEarlierUnshown by asked.now path.now log.now (O.given out.old) (O.given out.new) (O.faults out.old)
        (O.faults out.new)) }
    ensures faultless { OnOk result (O.faults out.new ≡ O.faults out.old) }
{
    match earlier_format(asked.format) {
        Some(format) => report_boots(alloc, asked, format, path, log, earlier(&log.boots), out),
        None => Ok(()),
    }
}

/// The report of a log: that of its last boot, and behind it those of the boots before, each named by its place, the
/// last one first. A text has a line for each, and JSON an object; a page and a line tell the last boot alone. The
/// answer is the last boot's.
pub fn report_log<O: Sink>(
    alloc: Global,
    asked: &Asked,
    log: &HeldLog,
    path: &str,
    out: &mut O,
) -> Result<Report, Failure>
    ensures reported { MatchResult result
        (IsLogShown asked.now path.now log.now (O.given out.old) (O.given out.new))
        (IsLogUnshown asked.now path.now log.now (O.given out.old) (O.given out.new) (O.faults out.old)
        (O.faults out.new)) }
    ensures faultless { OnOk result (O.faults out.new ≡ O.faults out.old) }
{
    let last = last_part(&log.text, &log.boots);
    let report = report_part(alloc, asked, asked.format, path, last, out)?;
    report_earlier(alloc, asked, path, log, out)?;
    Ok(report)
}
