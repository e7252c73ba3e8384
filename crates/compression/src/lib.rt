//! By what a file is compressed, so that a report can say which program reads it.
#![tactic(auto)]

ghost use Rattle.std.specs.Prelude.{◌≡◌, slice_index};
ghost use Rattle.compression_spec.specs.Magics.{is_zlib, first_row, compression_of};
ghost use Rattle.compression.specs.Rows.{plain};

pub use compression_spec::Compression;
use compression_spec::MAGICS;

fn byte_at(front: &[u8], at: usize) -> u8
    ensures { result ≡ slice_index front.now at }
{
    front.get(at).copied().unwrap_or(0)
}

fn is_zlib(front: &[u8]) -> bool
    ensures { result ≡ is_zlib front.now }
{
    let method = byte_at(front, 0);
    let flags = byte_at(front, 1);
    method == 0x78 && (256 * u32::from(method) + u32::from(flags)) % 31 == 0 && flags / 32 % 2 == 0
}

fn first_row(rows: &[(Compression, &[u8])], front: &[u8]) -> Option<Compression>
    ensures { result ≡ first_row (plain rows.now) front.now }
{
    for row in rows {
        if front.starts_with(row.1) {
            return Some(row.0);
        }
    }
    None
}

/// What a file is compressed by, as its first bytes tell. Six bytes are enough.
pub fn compression_of(front: &[u8]) -> Option<Compression>
    ensures { result ≡ compression_of front.now }
{
    if is_zlib(front) {
        Some(Compression::Zlib)
    } else {
        first_row(MAGICS, front)
    }
}
