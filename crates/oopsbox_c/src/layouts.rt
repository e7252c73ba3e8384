// Place and shape of a zone, from parameters as numbers. It takes no memory.
ghost use Rattle.std.specs.Prelude.{◌≡◌};
ghost use Rattle.oopsbox_c.specs.Ends.{status_of};
ghost use Rattle.oopsbox_c.specs.Layouts.{params_in, FoundEnds, ZoneAtEnds};

use crate::End;
use crate::places::{LayoutAnswer, ZonePlace, byte_order_in, kind_in, place_of};
use ramoops_layout::{Found, find, order_at};
use zone_spec::{Params, ZoneName};

/// The parameters of a layout, in bytes, as those of [`Params`]. `order` is 0 where the ftrace zones lie before pmsg, as
/// Linux 6.1 lays them out, and 1 where pmsg lies before them, as Linux 6.12 does. `byte_order` is 0 for headers of a
/// little-endian machine, and 1 for those of a big-endian one.
#[repr(C)]
#[derive(Clone, Copy, Debug, Default, PartialEq, Eq)]
pub struct LayoutParams {
    pub mem: u64,
    pub dump: u64,
    pub console: u64,
    pub ftrace: u64,
    pub pmsg: u64,
    pub ecc: u64,
    pub cpus: u64,
    pub block: u64,
    pub ecc_dump: u64,
    pub ecc_console: u64,
    pub ecc_ftrace: u64,
    pub ecc_pmsg: u64,
    pub ftrace_sig: u32,
    pub order: u16,
    pub byte_order: u16,
}

fn params_in(params: &LayoutParams) -> Params
    ensures { result ≡ params_in params.now }
{
    Params {
        mem: params.mem,
        dump: params.dump,
        console: params.console,
        ftrace: params.ftrace,
        pmsg: params.pmsg,
        ecc: params.ecc,
        cpus: params.cpus,
        ftrace_sig: params.ftrace_sig,
        block: params.block,
        ecc_dump: params.ecc_dump,
        ecc_console: params.ecc_console,
        ecc_ftrace: params.ecc_ftrace,
        ecc_pmsg: params.ecc_pmsg,
        order: order_at(u32::from(params.order)),
        byte_order: byte_order_in(params.byte_order),
    }
}

// Tells the zone and its layout, if the layout has the zone.
fn tell_found(found: &Found, place: &mut ZonePlace, answer: &mut LayoutAnswer) -> End
    ensures { FoundEnds result found.now place.old place.new answer.old answer.new }
{
    let zone = match &found.zone {
        Some(zone) => zone,
        None => return End::Argument,
    };
    *place = place_of(zone);
    *answer = LayoutAnswer {
        zones: found.zones,
        word: 0,
        mem: found.mem,
        fault: 0,
    };
    End::Done
}

fn find_zone(
    params: &LayoutParams,
    kind: u32,
    index: u32,
    place: &mut ZonePlace,
    answer: &mut LayoutAnswer,
) -> End
    ensures { ZoneAtEnds result params.now kind index place.old place.new answer.old answer.new }
{
    if kind > 3 || params.order > 1 || params.byte_order > 1 {
        return End::Argument;
    }
    let name = ZoneName {
        kind: kind_in(kind),
        index,
    };
    match find(&params_in(params), name) {
        Ok(found) => tell_found(&found, place, answer),
        Err(fault) => {
            *answer = LayoutAnswer {
                zones: 0,
                word: 0,
                mem: 0,
                fault: fault.number(),
            };
            End::Fault
        }
    }
}

/// The zone of this kind and number in the layout of the parameters, or the layout's first fault.
#[unsafe(no_mangle)]
pub extern "C" fn oopsbox_zone_at(
    params: &LayoutParams,
    kind: u32,
    index: u32,
    place: &mut ZonePlace,
    answer: &mut LayoutAnswer,
) -> u32
    ensures { (end : End) × (result ≡ status_of end)
        × ZoneAtEnds end params.now kind index place.old place.new answer.old answer.new }
{
    let end = find_zone(params, kind, index, place, answer);
    end.status()
}
