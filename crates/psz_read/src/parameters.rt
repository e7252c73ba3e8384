// Sizes as pstore_blk's parameters give them.
ghost use Rattle.std.specs.Prelude.{◌≡◌};
ghost use Rattle.psz_spec.specs.Parameters.{kib_size as kib_size_of};

/// The bytes that a parameter in KiB gives, as `kmsg_size=64`, with the kernel's fault in rounding.
#[tactic(auto, unfolding(psz_spec::specs::Parameters::kib_size))]
pub fn kib_size(kib: u32) -> u64
    ensures { result ≡ kib_size_of kib }
{
    if kib % 4 == 0 {
        u64::from(kib) * 1024
    } else {
        (u64::from(kib) + 4095) / 4096 * 4096
    }
}
