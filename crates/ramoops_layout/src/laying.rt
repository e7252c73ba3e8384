// The zones laid out, one row after another.
ghost use Rattle.std.specs.Prelude.{◌≡◌, ◌≤◌, ◌<◌, ◌+◌, ◌*◌, ◌^◌, ◌++◌, map, None, OnOk, Ok, IfOk, MatchResult};
ghost use Rattle.std.specs.List.{range_with_len};
ghost use Rattle.zone_spec.specs.Layout.{layout_of, zones_from, zone_at as zone_of, first_fault, parameter_faults};
ghost use Rattle.ramoops_layout.specs.Laid.{params_of, zones_of};
ghost use Rattle.ramoops_layout.specs.Layouts.{IsCause};
ghost use Rattle.ramoops_layout.specs.Rows.{AreSmall};

use crate::types::Layout;
use crate::{LayoutError, rows};
use std::alloc::{AllocError, Global};
use zone_spec::{Params, Row, Zone};

/// Adds the zones of a row, from this place on, after those that stand.
fn add_row(zones: &mut Vec<Zone>, p: &Params, row: Row, at: u64) -> Result<(), AllocError>
    requires faultless { first_fault (parameter_faults p.now) ≡ None }
    requires within { at + row.count * row.size ≤ 2 ^ 24 }
    requires size { row.size ≤ 2 ^ 24 }
    requires count { row.count < 2 ^ 32 }
    ensures { OnOk result (zones.new.items ≡ zones.old.items ++ map
        (λ i. zone_of p.now row.kind row.size i (at + i * row.size)) (range_with_len 0 row.count)) }
{
    for index in 0..row.count {
        let zone = rows::zone_at(p, row.kind, row.size, index, at + index * row.size);
        zones.push(zone)?;
    }
    Ok(())
}

/// The zones of rows, one behind another from 0 on.
pub fn list_zones(alloc: Global, p: &Params, rows: &[Row]) -> Result<Vec<Zone>, AllocError>
    requires faultless { first_fault (parameter_faults p.now) ≡ None }
    requires rows { AreSmall rows.now }
    ensures { IfOk result (λ zones. zones.items ≡ zones_from p.now 0 rows.now) }
{
    let mut zones = Vec::new(alloc);
    let mut at = 0;
    for row in rows {
        add_row(&mut zones, p, *row, at)?;
        at += row.count * row.size;
    }
    Ok(zones)
}

/// The layout of the parameters (`fs/pstore/ram.c`, `ramoops_probe` and `ramoops_init_przs`), or their first fault.
/// The sizes of zones are rounded down to powers of two, and those of dump and ftrace zones then to even; `mem` is taken
/// as it is.
pub fn layout(alloc: Global, p: &Params) -> Result<Layout, LayoutError>
    ensures { MatchResult result (λ l. (params_of l ≡ p.now) × (layout_of p.now ≡ Ok (zones_of l)))
        (IsCause (layout_of p.now)) }
{
    if let Some(fault) = rows::parameter_fault(p) {
        return Err(LayoutError::Fault(fault));
    }
    let rows = rows::rows(p);
    if let Some(fault) = rows::zone_fault(p, &rows) {
        return Err(LayoutError::Fault(fault));
    }
    match list_zones(alloc, p, &rows) {
        Ok(zones) => Ok(Layout::new(*p, zones)),
        Err(_) => Err(LayoutError::Memory),
    }
}
