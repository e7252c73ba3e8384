// One image, from its store to the sink.
ghost use Rattle.std.specs.Prelude.{◌≡◌, ◌≤◌, length, IfOk, IfErr, MatchResult};
ghost use Rattle.command_spec.specs.declared.Stop.TheVariants.{ImageFault, SinkFault};
ghost use Rattle.script_spec.specs.Playing.{KeptUnless};
ghost use Rattle.image_file.specs.Loading.{LoadStop};
ghost use Rattle.region_report.specs.Reports.{IsReport};
ghost use Rattle.report_tool.specs.Ordered.{params_by, zones_by};
ghost use Rattle.report_tool.specs.Images.{IsRead, IsReported, IsNotReported};

use crate::better::better_words;
use crate::ordering::{Read, read_by, shown_read};
use crate::showing::Format;
use crate::{Plan, Stop};
use image_file::load;
use outside::{Bytes, Failed, Load, Sink};
use region_report::{Report, report_of_zones};
use std::alloc::{AllocError, Global};

/// The report of so many bytes as a plan has, and the bytes again.
pub(crate) fn report_of_bytes(
    alloc: Global,
    plan: &Plan,
    bytes: Bytes,
) -> Result<(Report, Bytes), AllocError>
    requires { length bytes ≡ plan.now.mem }
    ensures report { IfOk result (λ read. IsReport plan.now.zones.items plan.now.symbols plan.now.entries bytes read.0) }
    ensures bytes { IfOk result (λ read. read.1 ≡ bytes) }
{
    report_of_zones(alloc, &plan.zones, &plan.symbols, plan.entries, bytes)
}

// Reads an image.
fn read<M: Load>(alloc: Global, plan: &Plan, image: &mut M) -> Result<Read, Stop>
    ensures ok { IfOk result (λ read. IsRead plan.now (M.holds image.old) (params_by plan.now read.other)
        (zones_by plan.now read.other) read.report) }
    ensures err { IfErr result (λ s. LoadStop s plan.now.mem (M.holds image.old) (M.faults image.old)
        (M.faults image.new)) }
    ensures same { M.holds image.new ≡ M.holds image.old }
    ensures counts { KeptUnless ImageFault result (M.faults image.old) (M.faults image.new) }
    ensures later { M.faults image.old ≤ M.faults image.new }
{
    let bytes = load(alloc, image, plan.mem)?;
    let read = read_by(alloc, plan, Bytes::from_vec(bytes))?;
    Ok(read)
}

/// Reads the image and gives its report to the sink, written in a format and headed by `path`, with the words of a
/// layout that explains the image better, if the plan was given and reads badly. If no word gives the order of the
/// zones, it is that of the kernel that the records name. The image is only loaded, so it is not written. The sink is given nothing before all of the report is made.
pub fn report<M: Load, W: Sink>(
    alloc: Global,
    plan: &Plan,
    format: Format,
    path: &str,
    image: &mut M,
    out: &mut W,
) -> Result<Report, Stop>
    ensures reported { MatchResult result (IsReported format path.now plan.now (M.holds image.old) (W.given out.old)
        (W.given out.new)) (λ stop. IsNotReported format path.now plan.now stop (M.holds image.old) (M.faults image.old)
        (M.faults image.new) (W.given out.old) (W.given out.new) (W.faults out.old) (W.faults out.new)) }
    ensures same { M.holds image.new ≡ M.holds image.old }
    ensures image_counts { KeptUnless ImageFault result (M.faults image.old) (M.faults image.new) }
    ensures sink_counts { KeptUnless SinkFault result (W.faults out.old) (W.faults out.new) }
    ensures later { (M.faults image.old ≤ M.faults image.new) × (W.faults out.old ≤ W.faults out.new) }
{
    let read = read(alloc, plan, image)?;
    let better = better_words(alloc, plan, &read.report, image)?;
    let bytes = shown_read(alloc, plan, format, path, &read, &better)?;
    match out.put(&bytes) {
        Ok(()) => Ok(read.report),
        Err(Failed) => Err(Stop::SinkFault),
    }
}
