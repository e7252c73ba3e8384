// Files that a program compressed.
use anyhow::{Result, anyhow, bail};
use compression::{Compression, compression_of};
use gzip::{GzipError, GzipFault, gunzip};
use outside::{Failed, Load};
use std::alloc::{AllocError, Global};

/// So many bytes of a text or an image are read from a compressed file.
const MOST: usize = 268_435_456;

/// So many bytes of a gzip file are read: its text can be little longer than it.
pub const MOST_PACKED: usize = 2 * MOST;

/// How many of a file's first bytes tell by what it is compressed.
pub const FRONT: usize = 6;

/// Whether a file begins as a compressed one does.
pub fn is_packed<M: Load>(file: &mut M) -> Result<bool, Failed> {
    let mut front = [0; FRONT];
    if file.size()? < FRONT as u64 {
        return Ok(false);
    }
    file.read_at(0, &mut front)?;
    Ok(!matches!(compression_of(&front), None | Some(Compression::Zlib)))
}

// What is wrong with a gzip file.
fn fault_text(fault: GzipFault) -> &'static str {
    match fault {
        GzipFault::NotGzip => "it does not begin as one",
        GzipFault::TrailingBytes => "other bytes follow it",
        GzipFault::UnknownMethod => "its method is unknown",
        GzipFault::ReservedFlag => "a flag in its header has no meaning",
        GzipFault::CutHeader | GzipFault::CutTrailer => "it breaks off",
        GzipFault::HeaderCrc => "its header's CRC is wrong",
        GzipFault::Body { .. } => "its body is no DEFLATE stream, or breaks off",
        GzipFault::TextCrc => "its CRC is wrong",
        GzipFault::TextLength => "its length is wrong",
    }
}

fn gunzipped(alloc: Global, bytes: &[u8]) -> Result<Vec<u8>> {
    match gunzip(alloc, bytes, MOST) {
        Ok(text) => Ok(text),
        Err(GzipError::Memory) => Err(AllocError.into()),
        Err(GzipError::TooLong { .. }) => bail!("it is a gzip file of more than {MOST} bytes"),
        Err(GzipError::Broken { fault, .. }) => Err(anyhow!(
            "it is a gzip file, and {}",
            fault_text(fault)
        )),
    }
}

/// Whether a file begins as a gzip file, by its first bytes. One that is compressed otherwise is refused.
pub fn packing_of(front: &[u8]) -> Result<bool> {
    match compression_of(front) {
        Some(Compression::Gzip) => Ok(true),
        Some(Compression::Zstd) => bail!("it is compressed by zstd: run zstd -d first"),
        Some(Compression::Xz) => bail!("it is compressed by xz: run xz -d first"),
        Some(Compression::Bzip2) => bail!("it is compressed by bzip2: run bzip2 -d first"),
        Some(Compression::Lz4) => bail!("it is compressed by lz4: run lz4 -d first"),
        Some(Compression::Zlib) | None => Ok(false),
    }
}

/// What a gzip file stands for. Of one as long as `MOST_PACKED` the end was not read.
pub fn unpacked(alloc: Global, bytes: &[u8]) -> Result<Vec<u8>> {
    if bytes.len() >= MOST_PACKED {
        bail!("it is a gzip file of more than {MOST} bytes");
    }
    gunzipped(alloc, bytes)
}
