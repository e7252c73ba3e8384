// The zones of a layout.
ghost use Rattle.std.specs.Prelude.{◌≡◌, ◌+◌, ◌-◌, ◌^◌, ◌<◌, ◌≤◌};
ghost use Rattle.blk_spec.specs.Layout.{IsLayout, ring_zone as ring_of, dump_zone as dump_of};
ghost use Rattle.zone_blk.specs.Fits.{IsZone};

use blk_spec::{BlkLayout, BlkRing, BlkZone};

const SIGNATURE: u32 = 0x43474244;

const CONSOLE: u32 = 2;

const PMSG: u32 = 7;

pub fn ring_zone(layout: BlkLayout, ring: BlkRing) -> BlkZone
    requires layout { IsLayout layout }
    ensures zone { result ≡ ring_of layout ring }
    ensures valid { IsZone result }
    ensures sig { 0 < result.sig }
    ensures inside { result.at + result.size ≤ layout.total }
{
    match ring {
        BlkRing::Pmsg => BlkZone {
            at: 0,
            size: layout.pmsg,
            sig: SIGNATURE ^ PMSG,
        },
        BlkRing::Console => BlkZone {
            at: layout.pmsg,
            size: layout.console,
            sig: SIGNATURE ^ CONSOLE,
        },
    }
}

pub fn dump_zone(layout: BlkLayout, index: u32) -> BlkZone
    requires layout { IsLayout layout }
    requires index { index < layout.dumps }
    ensures zone { result ≡ dump_of layout index }
    ensures valid { IsZone result }
    ensures sized { 4096 ≤ result.size }
    ensures inside { result.at + result.size ≤ layout.total }
{
    BlkZone {
        at: layout.pmsg + layout.console + index * layout.kmsg,
        size: layout.kmsg,
        sig: SIGNATURE,
    }
}
