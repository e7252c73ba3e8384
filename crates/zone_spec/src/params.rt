// The parameters of a layout, and the causes for which there is none.
ghost use Rattle.std.specs.Prelude.{◌≡◌, length};
ghost use Rattle.zone_spec.specs.LayoutFaults.{fault_number};
ghost use Rattle.zone_spec.specs.Orders.{order_text, byte_order_text};
ghost use Rattle.zone_spec.specs.WordBytes.{turned, word_of, word_bytes};

use crate::Kind;
use thiserror::Error;

/// In which order the ftrace zones and the pmsg zone lie behind the console.
#[derive(Clone, Copy, Debug, PartialEq, Eq)]
pub enum Order {
    /// As Linux 6.1 lays them out (`fs/pstore/ram.c`, `ramoops_probe`).
    FtracePmsg,
    /// As Linux 6.12 does.
    PmsgFtrace,
}

impl Order {
    /// The order as a word gives it.
    pub fn text(self) -> &'static str
        ensures { result.now ≡ order_text self }
    {
        match self {
            Order::FtracePmsg => "console,ftrace,pmsg",
            Order::PmsgFtrace => "console,pmsg,ftrace",
        }
    }
}

/// In which order a machine stores the bytes of a word.
#[derive(Clone, Copy, Debug, PartialEq, Eq)]
pub enum ByteOrder {
    /// The lowest byte first, as x86, arm64 and most others do.
    Little,
    /// The highest byte first, as MIPS, PowerPC and s390 can.
    Big,
}

impl ByteOrder {
    /// The order as a word gives it.
    pub fn text(self) -> &'static str
        ensures { result.now ≡ byte_order_text self }
    {
        match self {
            ByteOrder::Little => "little",
            ByteOrder::Big => "big",
        }
    }

    /// The word that four bytes are.
    pub fn word(self, bytes: &[u8]) -> u32
        requires { length bytes.now ≡ 4 }
        ensures { result ≡ word_of self bytes.now }
    {
        self.turned(u32::from_le_bytes([bytes[0], bytes[1], bytes[2], bytes[3]]))
    }

    /// The four bytes of a word, as they stand.
    pub fn bytes(self, word: u32) -> [u8; 4]
        ensures { result ≡ word_bytes self word }
    {
        self.turned(word).to_le_bytes()
    }

    /// The number that a little-endian machine finds where one of this order stored the word, and the other way round.
    pub fn turned(self, word: u32) -> u32
        ensures { result ≡ turned self word }
    {
        match self {
            ByteOrder::Little => word,
            ByteOrder::Big => word.swap_bytes(),
        }
    }
}

/// The parameters of a layout (`fs/pstore/ram.c`, `struct ramoops_platform_data`), all sizes in bytes.
///
/// `mem` is the image's size, `dump` the wanted one of a dump zone, `console`, `ftrace` and `pmsg` those of the other
/// zones, `ftrace` for all ftrace zones together; zones are rounded down to powers of two, `mem` is not. The four
/// values of a kind are its parity bytes, and `ecc` those of a kind without a value of its own. `cpus` is the number
/// of ftrace zones, `ftrace_sig` their tag, and `block` the data bytes of one parity block. `order` says which of the
/// ftrace and pmsg zones come first, and `byte_order` how the machine stores a word.
#[derive(Clone, Copy, Debug, PartialEq, Eq)]
pub struct Params {
    pub mem: u64,
    pub dump: u64,
    pub console: u64,
    pub ftrace: u64,
    pub pmsg: u64,
    pub ecc: u64,
    pub cpus: u64,
    pub ftrace_sig: u32,
    pub block: u64,
    pub ecc_dump: u64,
    pub ecc_console: u64,
    pub ecc_ftrace: u64,
    pub ecc_pmsg: u64,
    pub order: Order,
    pub byte_order: ByteOrder,
}

/// Zones of one kind and size, one after another: how many, and the bytes of each.
#[derive(Clone, Copy, Debug, PartialEq, Eq)]
pub struct Row {
    pub kind: Kind,
    pub count: u64,
    pub size: u64,
}

/// Why parameters have no layout.
#[derive(Clone, Copy, Debug, PartialEq, Eq, Error)]
pub enum LayoutFault {
    #[error("the memory has no byte")]
    NoMemory,
    #[error("no zone has a size")]
    NoZone,
    #[error("the memory is above 16777216 bytes")]
    TooLarge,
    #[error("a zone would have more than 127 parity bytes")]
    EccTooLarge,
    #[error("the zones do not fit the memory")]
    NoRoom,
    #[error("a zone has fewer than 256 bytes")]
    ZoneTooSmall,
    #[error("parity leaves a zone too little room")]
    EccInvalid,
    #[error("the number of processors is not 1 to 64")]
    CpusBad,
    /// Of the block store alone.
    #[error("a size is no multiple of 4096")]
    NotPage,
    #[error("the block size is not 32, 64 or 128")]
    BlockBad,
}

impl LayoutFault {
    /// The fault's number in the tool's texts.
    pub fn number(self) -> u32
        ensures { result ≡ fault_number self }
    {
        match self {
            LayoutFault::NoMemory => 1,
            LayoutFault::NoZone => 2,
            LayoutFault::TooLarge => 3,
            LayoutFault::EccTooLarge => 4,
            LayoutFault::NoRoom => 5,
            LayoutFault::ZoneTooSmall => 6,
            LayoutFault::EccInvalid => 7,
            LayoutFault::CpusBad => 8,
            LayoutFault::NotPage => 9,
            LayoutFault::BlockBad => 11,
        }
    }
}
