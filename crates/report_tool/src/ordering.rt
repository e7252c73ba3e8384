// Images read by a plan whose order of zones can be open: the kernel that the records name then tells it.
ghost use Rattle.std.specs.Prelude.{◌≡◌, length, true, Some, IfOk};
ghost use Rattle.region_report.specs.Reports.{IsReport};
ghost use Rattle.report_tool.specs.Shown.{AreOf, ShowsZones};
ghost use Rattle.report_spec.specs.declared.Division.TheVariants.{Region};
ghost use Rattle.report_tool.specs.Ordered.{in_order, or_order, IsReadIn, IsReadBy};
ghost use Rattle.report_tool.specs.Ordered.{params_by, zones_by};

use crate::Plan;
use crate::images::report_of_bytes;
use crate::release::order_named;
use crate::reordered::Reordered;
use crate::showing::{Format, shown, shown_zones};
use outside::Bytes;
use ramoops_layout::{Order, layout};
use region_report::{Division, Report, report_of_zones};
use std::alloc::{AllocError, Global};
use zone_spec::Params;

/// An image that was read: its zones, if they lie in another order than the plan's, and its report.
#[derive(Drop)]
pub(crate) struct Read {
    pub other: Option<Reordered>,
    pub report: Report,
}

fn with_order(alloc: Global, plan: &Plan, order: Order) -> Result<Reordered, AllocError>
    ensures { IfOk result (λ other. other.params ≡ in_order (Some order) plan.now.params) }
{
    let params = Params {
        order,
        ..plan.params
    };
    match layout(alloc, &params) {
        Ok(layout) => Ok(Reordered {
            params,
            zones: layout.into_zones(),
        }),
        Err(_) => Err(AllocError),
    }
}

// The report of bytes by a plan's zones in another order.
fn report_as(
    alloc: Global,
    plan: &Plan,
    other: &Reordered,
    bytes: Bytes,
) -> Result<Report, AllocError>
    requires { length bytes ≡ other.now.params.mem }
    ensures { IfOk result (IsReport other.now.zones.items plan.now.symbols plan.now.entries bytes) }
{
    let (report, _bytes) = report_of_zones(
        alloc,
        &other.zones,
        &plan.symbols,
        plan.entries,
        bytes,
    )?;
    Ok(report)
}

// Reads bytes by a plan's zones in another order.
fn read_in(alloc: Global, plan: &Plan, order: Order, bytes: Bytes) -> Result<Read, AllocError>
    requires { length bytes ≡ plan.now.mem }
    ensures { IfOk result (λ read. IsReadIn (Some order) plan.now bytes (params_by plan.now read.other)
        (zones_by plan.now read.other) read.report) }
{
    let other = with_order(alloc, plan, order)?;
    let report = report_as(alloc, plan, &other, bytes)?;
    Ok(Read {
        other: Some(other),
        report,
    })
}

// The order that the records tell, if it is another than this one.
fn unless_same(told: Option<Order>, order: Order) -> Option<Order>
    ensures { or_order result order ≡ or_order told order }
{
    match (told, order) {
        (Some(Order::PmsgFtrace), Order::FtracePmsg) => told,
        (Some(Order::FtracePmsg), Order::PmsgFtrace) => told,
        _ => None,
    }
}

// Reads bytes by a plan whose order is open.
fn read_open(alloc: Global, plan: &Plan, bytes: Bytes) -> Result<Read, AllocError>
    requires len { length bytes ≡ plan.now.mem }
    requires open { plan.now.is_open ≡ true }
    ensures { IfOk result (λ read. IsReadBy plan.now bytes (params_by plan.now read.other)
        (zones_by plan.now read.other) read.report) }
{
    let (report, bytes) = report_of_bytes(alloc, plan, bytes)?;
    match unless_same(order_named(report.records()), plan.params.order) {
        Some(order) => read_in(alloc, plan, order, bytes),
        None => Ok(Read {
            other: None,
            report,
        }),
    }
}

/// Reads so many bytes as a plan has. If no word gives the order of the zones, and the records name a kernel of another
/// order than the plan's, they are read a second time, in that order.
pub(crate) fn read_by(alloc: Global, plan: &Plan, bytes: Bytes) -> Result<Read, AllocError>
    requires { length bytes ≡ plan.now.mem }
    ensures { IfOk result (λ read. IsReadBy plan.now bytes (params_by plan.now read.other)
        (zones_by plan.now read.other) read.report) }
{
    if plan.is_open {
        read_open(alloc, plan, bytes)
    } else {
        let (report, _bytes) = report_of_bytes(alloc, plan, bytes)?;
        Ok(Read {
            other: None,
            report,
        })
    }
}

/// The report of the image at `path`, written in a format.
pub(crate) fn shown_read(
    alloc: Global,
    plan: &Plan,
    format: Format,
    path: &str,
    read: &Read,
    better: &str,
) -> Result<Vec<u8>, AllocError>
    requires { AreOf (zones_by plan.now read.now.other) read.now.report }
    ensures { IfOk result (λ shown. ShowsZones format path.now (Region (params_by plan.now read.now.other))
        (zones_by plan.now read.now.other) plan.now.lines better.now read.now.report shown.items) }
{
    match &read.other {
        Some(other) => shown_zones(
            alloc,
            &Division::Region(other.params),
            &other.zones,
            plan.lines,
            format,
            path,
            &read.report,
            better,
        ),
        None => shown(alloc, plan, format, path, &read.report, better),
    }
}
