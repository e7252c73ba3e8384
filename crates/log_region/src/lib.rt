//! A region whose console zone holds a text log, so that a log is reported as a region is.
#![tactic(auto)]

ghost use Rattle.std.specs.Prelude.{◌≡◌, ◌≤◌, ℕ, length, IfOk};
ghost use Rattle.log_region.specs.Regions.{most_kept, kept as kept_of, size_for, params_of, front_of, region_of};

pub mod laws;

use std::alloc::{AllocError, Global};
use zone_spec::{ByteOrder, Order, Params};

/// The most bytes of a log that a region holds.
pub const MOST_KEPT: usize = 16_777_203;

/// The sizes of a console zone.
const ZONE_SIZES: [u32; 13] = [
    4096, 8192, 16384, 32768, 65536, 131_072, 262_144, 524_288, 1_048_576, 2_097_152, 4_194_304,
    8_388_608, 16_777_216,
];

/// The signature of a zone without a tag (`fs/pstore/ram_core.c`, `PERSISTENT_RAM_SIG`).
const SIGNATURE: u32 = 0x4347_4244;

/// The last bytes of a log that a region holds, as a console keeps them.
pub fn kept(log: &[u8]) -> &[u8]
    ensures last { result.now ≡ kept_of log.entry.now }
    ensures few { length result.now ≤ most_kept }
{
    &log[log.len().saturating_sub(MOST_KEPT)..]
}

fn zone_size(len: usize) -> u32
    requires { len ≤ most_kept }
    ensures { result ≡ size_for len }
{
    for size in ZONE_SIZES {
        if 12 + len < size as usize {
            return size;
        }
    }
    16_777_216
}

/// The parameters of a region for a log of which so many bytes are kept: a console zone, which is all of its memory.
pub fn params(len: usize) -> Params
    requires { len ≤ most_kept }
    ensures { result ≡ params_of (size_for len) }
{
    let size = u64::from(zone_size(len));
    Params {
        mem: size,
        dump: 0,
        console: size,
        ftrace: 0,
        pmsg: 0,
        ecc: 0,
        cpus: 1,
        ftrace_sig: 0,
        block: 128,
        ecc_dump: 0,
        ecc_console: 0,
        ecc_ftrace: 0,
        ecc_pmsg: 0,
        order: Order::FtracePmsg,
        byte_order: ByteOrder::Little,
    }
}

// The header and what is kept, with room for a zone of this size.
fn front(alloc: Global, kept: &[u8], size: u32) -> Result<Vec<u8>, AllocError>
    requires { length kept.now ≤ most_kept }
    ensures { IfOk result (λ front. front.items ≡ front_of kept.now) }
{
    let len = (kept.len() as u32).to_le_bytes();
    let mut front = Vec::with_capacity(alloc, size as usize)?;
    front.extend_from_slice(&SIGNATURE.to_le_bytes())?;
    front.extend_from_slice(&len)?;
    front.extend_from_slice(&len)?;
    front.extend_from_slice(kept)?;
    Ok(front)
}

/// The bytes of the region whose console zone holds what is kept of a log.
pub fn region(alloc: Global, log: &[u8]) -> Result<Vec<u8>, AllocError>
    ensures { IfOk result (λ region. region.items ≡ region_of log.now) }
{
    let kept = kept(log);
    let size = zone_size(kept.len());
    let mut region = front(alloc, kept, size)?;
    region.resize(size as usize, 0)?;
    Ok(region)
}
