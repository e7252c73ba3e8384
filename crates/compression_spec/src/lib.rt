//! The programs that compressed a file, and in `specs/` the definition of which one did, by the file's first bytes.
#![tactic(auto)]

/// What a file is compressed by.
#[derive(Clone, Copy, Debug, PartialEq, Eq)]
pub enum Compression {
    Gzip,
    Zlib,
    Zstd,
    Xz,
    Bzip2,
    Lz4,
}

/// The bytes by which a file of each begins; zlib has none of its own.
pub const MAGICS: &[(Compression, &[u8])] = &[
    (Compression::Gzip, b"\x1f\x8b"),
    (Compression::Zstd, b"\x28\xb5\x2f\xfd"),
    (Compression::Xz, b"\xfd\x37\x7a\x58\x5a\x00"),
    (Compression::Bzip2, b"BZh"),
    (Compression::Lz4, b"\x04\x22\x4d\x18"),
];
