// The first bytes of files that each program wrote of the text `abc`.
use compression::*;

#[test]
fn what_each_program_wrote(rt: HostRuntime) {
    for (front, compression) in [
        (b"\x1f\x8b\x08\x00\x00\x00".as_slice(), Compression::Gzip),
        (b"\x28\xb5\x2f\xfd\x24\x03", Compression::Zstd),
        (b"\xfd\x37\x7a\x58\x5a\x00", Compression::Xz),
        (b"\x42\x5a\x68\x39\x31\x41", Compression::Bzip2),
        (b"\x04\x22\x4d\x18\x64\x40", Compression::Lz4),
    ] {
        assert!(rt; compression_of(front) == Some(compression));
    }
}

// Python's zlib.compress, by its levels.
#[test]
fn what_zlib_wrote(rt: HostRuntime) {
    for front in [
        b"\x78\x01".as_slice(),
        b"\x78\x5e",
        b"\x78\x9c",
        b"\x78\xda",
    ] {
        assert!(rt; compression_of(front) == Some(Compression::Zlib));
    }
}

#[test]
fn what_none_wrote(rt: HostRuntime) {
    // no header's check holds, a preset dictionary, a magic that is cut, a text, a region's DBGC
    for front in [
        b"\x78\x02".as_slice(),
        b"\x78\x20",
        b"\xfd7zXZ",
        b"[    0.000000]",
        b"DBGC",
        b"",
    ] {
        assert!(rt; compression_of(front).is_none());
    }
}
