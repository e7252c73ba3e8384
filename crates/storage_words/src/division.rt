// Why sizes divide no storage, for people and for programs.
ghost use Rattle.std.specs.Prelude.{◌≡◌};
ghost use Rattle.storage_words.specs.Division.{size_fault_text as text_by, size_fault_number as number_by};

use psz_spec::SizeFault;

/// Why no kernel divides a storage by its sizes.
pub fn size_fault_text(fault: SizeFault) -> &'static str
    ensures { result.now ≡ text_by fault }
{
    match fault {
        SizeFault::TotalSmall => "it has fewer than 4096 bytes",
        SizeFault::NoSize => "all sizes are 0",
        SizeFault::TotalUneven => "it has no whole pages of 4096 bytes",
        SizeFault::SizeUneven => "a size is no multiple of 512",
        SizeFault::NoRoom => "its zones have no room",
        SizeFault::FtraceSmall => "an ftrace zone would have fewer than 12 bytes",
        SizeFault::NoDumpZone => "no dump zone has room",
    }
}

/// The number of such a fault that a caller sees.
pub fn size_fault_number(fault: SizeFault) -> u32
    ensures { result ≡ number_by fault }
{
    match fault {
        SizeFault::TotalSmall => 201,
        SizeFault::NoSize => 202,
        SizeFault::TotalUneven => 203,
        SizeFault::SizeUneven => 204,
        SizeFault::NoRoom => 205,
        SizeFault::FtraceSmall => 206,
        SizeFault::NoDumpZone => 207,
    }
}
