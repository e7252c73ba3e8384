// The kernel of a live machine.
ghost use Rattle.std.specs.Prelude.{◌≡◌, IfOk};
ghost use Rattle.script_spec.specs.Scripts.{new_kernel};
ghost use Rattle.ram_session.specs.Kernels.{StandsForKernel};

use kmsg_dump::KLog;
use std::alloc::{AllocError, Global};

/// What a live machine's kernel printed since the boot, as much as its message log holds, and how often it crashed.
#[derive(Drop)]
pub struct Kernel {
    pub(crate) log: KLog,
    pub(crate) crashes: u32,
}

impl Kernel {
    /// That of a boot. All its memory is taken here.
    pub fn new(alloc: Global) -> Result<Kernel, AllocError>
        ensures stands { IfOk result (λ kernel. StandsForKernel kernel new_kernel) }
        ensures none { IfOk result (λ kernel. kernel.crashes ≡ 0) }
    {
        let log = KLog::new(alloc, 131_072)?;
        Ok(Kernel { log, crashes: 0 })
    }
}
