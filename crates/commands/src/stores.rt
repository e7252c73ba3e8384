// The store of an image.
ghost use Rattle.std.specs.Prelude.{◌≡◌, ◌≤◌, vec_len, OnOk, IfOk, IfErr};
ghost use Rattle.ramoops_layout.specs.Laid.{params_of, zones_of};
ghost use Rattle.ram_session.specs.Playing.{StandsFresh};
ghost use Rattle.script_spec.specs.Playing.{KeptUnless};
ghost use Rattle.image_file.specs.Loading.{LoadStop};
ghost use Rattle.commands.specs.Stores.{BootedFrom};

use command_line::Stop;
use image_file::load;
use outside::{Bytes, Load};
use prz_read::Logs;
use ramoops::{Live, Off};
use ramoops_layout::types::Layout;
use std::alloc::{AllocError, Global};

/// The store of an image of which nothing is known.
#[tactic(auto, using(crate::proofs::Alike::dumps_alike))]
pub fn fresh_store(alloc: Global, layout: Layout, image: Vec<u8>) -> Result<Off, AllocError>
    requires { vec_len image ≡ (params_of layout).mem }
    ensures { IfOk result (λ off. StandsFresh (zones_of layout) (params_of layout).mem image.items off) }
{
    let _zones = layout.zones();
    let image = Bytes::from_vec(image);
    let _len = image.len();
    Off::fresh(alloc, layout, image)
}

/// Reads an image, and boots its store.
pub fn boot_store<M: Load>(
    alloc: Global,
    layout: Layout,
    image: &mut M,
) -> Result<(Live, Logs), Stop>
    ensures booted { IfOk result (λ r. BootedFrom (zones_of layout) (params_of layout).mem
        (M.holds image.old) r.0 r.1) }
    ensures stopped { IfErr result (λ s. LoadStop s (params_of layout).mem (M.holds image.old)
        (M.faults image.old) (M.faults image.new)) }
    ensures same { M.holds image.new ≡ M.holds image.old }
    ensures unwritten { M.writes image.new ≡ M.writes image.old }
    ensures image_count { KeptUnless Stop.ImageFault result (M.faults image.old) (M.faults image.new) }
    ensures read_count { OnOk result (M.read_faults image.new ≡ M.read_faults image.old) }
    ensures later { M.faults image.old ≤ M.faults image.new }
{
    let bytes = match load(alloc, image, layout.mem()) {
        Ok(bytes) => bytes,
        Err(stop) => return Err(stop),
    };
    let off = match fresh_store(alloc, layout, bytes) {
        Ok(off) => off,
        Err(AllocError) => return Err(Stop::Memory),
    };
    match off.boot() {
        Ok((live, logs, _)) => Ok((live, logs)),
        Err(_) => Err(Stop::Memory),
    }
}
