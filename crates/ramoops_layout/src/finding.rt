// One zone of a layout, without a list of all.
ghost use Rattle.std.specs.Prelude.{◌≡◌, ◌<◌, ◌^◌, None, sum_by, Err, MatchResult};
ghost use Rattle.zone_spec.specs.Layout.{layout_of, rows as rows_of, zones_from, first_fault, parameter_faults};
ghost use Rattle.ramoops_layout.specs.Found.{IsFound, HasRows, zone_named};
ghost use Rattle.ramoops_layout.specs.Rows.{AreSmall};

use crate::rows;
use zone_spec::{LayoutFault, Params, Row, Zone, ZoneName};

/// The zone of a name, if the layout has one, and of the whole layout how many zones and how many bytes it has.
#[derive(Clone, Copy, Debug, PartialEq, Eq)]
pub struct Found {
    pub zone: Option<Zone>,
    pub zones: u64,
    pub mem: u32,
}

// The rows of the layout, or the first fault.
fn rows_of(p: &Params) -> Result<[Row; 4], LayoutFault>
    ensures { MatchResult result (HasRows p.now) (λ fault. layout_of p.now ≡ Err fault) }
{
    if let Some(fault) = rows::parameter_fault(p) {
        return Err(fault);
    }
    let rows = rows::rows(p);
    match rows::zone_fault(p, &rows) {
        Some(fault) => Err(fault),
        None => Ok(rows),
    }
}

// The zone of this name among those of these rows, one behind another from 0 on.
fn find_in(p: &Params, rows: &[Row], name: ZoneName) -> Option<Zone>
    requires faultless { first_fault (parameter_faults p.now) ≡ None }
    requires rows { AreSmall rows.now }
    ensures { result ≡ zone_named (zones_from p.now 0 rows.now) name }
{
    let mut at = 0;
    for row in rows {
        if rows::holds(*row, name) {
            let index = u64::from(name.index);
            return Some(rows::zone_at(p, row.kind, row.size, index, at + index * row.size));
        }
        at += row.count * row.size;
    }
    None
}

fn count_in(rows: &[Row; 4]) -> u64
    requires { sum_by (λ row. row.count) rows.now < 2 ^ 32 }
    ensures { result ≡ sum_by (λ row. row.count) rows.now }
{
    rows[0].count + rows[1].count + rows[2].count + rows[3].count
}

/// The zone of this name in the layout of the parameters, or the layout's first fault. It takes no memory, and the same
/// time in every layout.
pub fn find(p: &Params, name: ZoneName) -> Result<Found, LayoutFault>
    ensures { MatchResult result (IsFound p.now name) (λ fault. layout_of p.now ≡ Err fault) }
{
    let rows = match rows_of(p) {
        Ok(rows) => rows,
        Err(fault) => return Err(fault),
    };
    Ok(Found {
        zone: find_in(p, &rows, name),
        zones: count_in(&rows),
        mem: p.mem as u32,
    })
}
