// The lines of a script.
use outside::Bytes;
use zone_spec::{Time, ZoneName};

/// A line of a script. The bool of a dump is true where it is compressed.
#[derive(Drop)]
pub enum Line {
    /// An empty line or a comment.
    Blank,
    Write(ZoneName, Bytes),
    Dump(Time, bool, Bytes),
    BeginWrite(ZoneName, Bytes),
    BeginErase(ZoneName),
    BeginDump(Time, bool, Bytes),
    /// So many stores of the zone's call.
    Step(ZoneName, u32),
    Finish(ZoneName),
    Stop,
    /// A place of the image, and the mask that is put on its byte, 1 to 255.
    Flip(u32, u8),
    Boot,
    /// So many stores of a boot.
    BootPart(u32),
    List,
    Extract(Bytes),
    Erase(Bytes),
    /// Seconds, nanoseconds, compressed, the reason by its number (panic 1, oops 2, emergency 3, shutdown 4), the body.
    KDump(u64, u32, bool, u32, Bytes),
    /// So many bytes more that reach the store.
    CutAfter(u32),
    /// A line of the message log, without its newline.
    KMsg(Bytes),
    /// A crash: the reason by its number, and when.
    Crash(u32, Time),
    /// The bytes of an append whose places in a shared zone are reserved.
    Reserve(Bytes),
    /// A ticket, and so many bytes of its append.
    StoreNext(u32, u32),
}
