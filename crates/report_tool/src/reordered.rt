// The zones of a plan in another order.
ghost use Rattle.std.specs.Prelude.{◌≡◌, ◌<◌, ◌^◌, Ok};
ghost use Rattle.zone_spec.specs.Layout.{layout_of};

use zone_spec::{Params, Zone};

/// The zones of a plan in another order.
#[derive(Drop)]
pub(crate) struct Reordered {
    pub params: Params,
    pub zones: Vec<Zone>,
    ghost laid: { layout_of params ≡ Ok zones.items },
    ghost tagged: { params.ftrace_sig < 2 ^ 32 },
}
