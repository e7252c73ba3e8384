//! A part of a text log as the image of a region, so that it is reported as a region is: the part stands in the console
//! zone.
#![tactic(auto)]

ghost use Rattle.std.specs.Prelude.{◌≡◌, ◌≤◌, IfOk};
ghost use Rattle.log_region.specs.Regions.{most_kept, size_for, params_of};
ghost use Rattle.report_tool.specs.Plans.{IsLaid};
ghost use Rattle.log_image.specs.Images.{IsLogImage};

use log_region::{kept, params, region};
use ramoops_layout::LayoutError;
use report_tool::Plan;
use std::alloc::{AllocError, Global};

/// A region whose console zone holds a part of a log, and the plan by which it is read.
#[derive(Drop)]
pub struct LogImage {
    pub plan: Plan,
    pub region: Vec<u8>,
}

// The plan of the region for so many bytes of a log. Its parameters always have a layout: `logs_are_read_back`.
fn plan_for(alloc: Global, len: usize) -> Result<Plan, AllocError>
    requires { len ≤ most_kept }
    ensures { IfOk result (IsLaid (params_of (size_for len))) }
{
    match Plan::of_params(alloc, params(len)) {
        Ok(plan) => Ok(plan),
        Err(LayoutError::Memory | LayoutError::Fault(_)) => Err(AllocError),
    }
}

/// A part of a log as the image of a region.
pub fn log_image(alloc: Global, part: &[u8]) -> Result<LogImage, AllocError>
    ensures { IfOk result (IsLogImage part.now) }
{
    let plan = plan_for(alloc, kept(part).len())?;
    let region = region(alloc, part)?;
    Ok(LogImage { plan, region })
}
