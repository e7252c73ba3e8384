//! The words of a report on an image: what an image holds, part by part and record by record, and in `specs/` the
//! definitions that contracts cite, with the text in which a page shows bytes.
#![tactic(auto)]

ghost use Rattle.std.specs.Prelude.{◌≡◌};
ghost use Rattle.report_spec.specs.Packed.{stream_words, fault_words};

use inflate_spec::Fault;
use psz_spec::Sizes;
use zone_spec::{Name, Params};

/// Whose records a report shows: the kernel names those of a storage otherwise.
#[derive(Clone, Copy, Debug, PartialEq, Eq)]
pub enum Origin {
    /// A ramoops region.
    Region,
    /// A storage that the kernel's pstore_zone wrote.
    Storage,
}

/// What divides a region or a storage into its zones.
#[derive(Clone, Copy, Debug, PartialEq, Eq)]
pub enum Division {
    Region(Params),
    Storage(Sizes),
}

/// Why a packed dump's text is not shown to its end.
#[derive(Clone, Copy, Debug, PartialEq, Eq)]
pub enum TextFault {
    /// The bytes are no stream from a place on.
    Broken(Fault),
    /// The text has more bytes than the kernel can have packed.
    TooLong,
}

/// Whether a dump's bytes are packed, and how far they inflate.
#[derive(Debug, PartialEq, Eq, Drop)]
pub enum Packing<Text> {
    Plain,
    /// The bytes of the stream at the front.
    Whole { taken: usize },
    /// The text up to the fault.
    Part { fault: TextFault, text: Text },
}

/// The text of a record, of which doubtful bytes were taken from the same lines of another record.
#[derive(Debug, PartialEq, Eq, Drop)]
pub struct Mended<Text> {
    pub by: Name,
    pub text: Text,
}

/// What must be known before a report is believed.
#[derive(Clone, Copy, Debug, PartialEq, Eq)]
pub enum Warning {
    /// The console tells, and this dump, the newest, does not.
    ConsoleTells(Name),
    /// So many parts of the record that tells are bad.
    BadTeller(u64),
    /// So many headers are bad: a log that is lost there can be newer.
    BadHeaders(u64),
    /// No zone has a log.
    NoLog,
    /// So many zones have bad parts, more than half of them.
    ManyBad(u64),
}

/// Why the kernel made a dump, as its head says.
#[derive(Clone, Copy, Debug, PartialEq, Eq)]
pub enum DumpReason {
    Panic,
    Oops,
    /// It was told to restart at once, without the orderly way.
    Emergency,
    Restart,
    Halt,
    PowerOff,
    /// It was told to restart, to halt or to power off.
    ShutDown,
}

/// Words at the head of a dump. The kernel writes them in fs/pstore/platform.c and kernel/printk/printk.c.
pub const DUMP_REASONS: &[(DumpReason, &[u8])] = &[
    (DumpReason::Panic, b"Panic#"),
    (DumpReason::Oops, b"Oops#"),
    (DumpReason::Emergency, b"Emergency#"),
    (DumpReason::Restart, b"Restart#"),
    (DumpReason::Halt, b"Halt#"),
    (DumpReason::PowerOff, b"Poweroff#"),
    (DumpReason::ShutDown, b"Shutdown#"),
];

fn stream_words(fault: Fault) -> &'static str
    ensures { result.now ≡ stream_words fault }
{
    match fault {
        Fault::EndOfInput => "end of input",
        Fault::ReservedBlock => "reserved block type",
        Fault::StoredLength => "wrong stored length",
        Fault::TooManyCodes => "too many codes",
        Fault::OverSubscribed => "over-subscribed code",
        Fault::Incomplete => "incomplete code",
        Fault::NoEndCode => "no end code",
        Fault::NoPrevious => "no previous length",
        Fault::TooManyLengths => "too many lengths",
        Fault::MissingCode => "unknown code",
        Fault::DistanceTooFar => "distance too far back",
    }
}

impl TextFault {
    /// The fault in a few words.
    pub fn words(self) -> &'static str
        ensures { result.now ≡ fault_words self }
    {
        match self {
            TextFault::Broken(fault) => stream_words(fault),
            TextFault::TooLong => "text too long",
        }
    }
}
