// Why an image is not reported, or its records are not saved.
ghost use Rattle.std.specs.Prelude.{◌≡◌};
ghost use Rattle.report_run.specs.Failures.{stop_failure, unread_failure};

use command_spec::Stop;
use found_regions::Unread;
use psz_spec::SizeFault;
use std::alloc::AllocError;

/// Why an image is not reported, or its records are not saved.
#[derive(Debug, Drop)]
pub enum Failure {
    Memory,
    /// The image could not be opened, for this reason.
    Unopened(String),
    /// It could not be read.
    Unread,
    /// Standard output failed.
    Unwritten,
    /// It has fewer bytes than its layout needs.
    Short { has: u64, needed: u32 },
    /// No layout agrees with what is known.
    NotFound,
    /// The line on the best layout, which does not explain the image.
    Unexplained(String),
    /// The same, and not all layouts were tried.
    Unfinished(String),
    /// Nothing of a packed record inflates.
    NoText,
    /// A record was not saved, for this reason.
    Unsaved(String),
    /// No layout explains what stands at the place that is named.
    NotThere,
    /// No region was found in a whole memory.
    NoRegion,
    /// One of several regions must be chosen: their places.
    Several(String),
    /// The layout of a region is given, and its place in the memory is not.
    NoPlace,
    /// The memory has so many bytes, and the region ends behind them.
    Beyond { has: u64, size: u32, place: u64 },
    /// It is a storage, by words, and no kernel divides it by their sizes.
    Undivided(SizeFault),
}

impl From<AllocError> for Failure {
    ghost use Rattle.report_run.specs.declared.failures.Failure.TheVariants.{Memory};

    ghost from_gives = { λ _ e. e ≡ Memory };

    fn from(_: AllocError) -> Failure {
        Failure::Memory
    }
}

/// Why a report by a plan was not made.
pub fn stop_failure(stop: Stop) -> Failure
    ensures { result ≡ stop_failure stop }
{
    match stop {
        Stop::Short { has, needed } => Failure::Short { has, needed },
        Stop::ImageFault => Failure::Unread,
        Stop::SinkFault => Failure::Unwritten,
        _ => Failure::Memory,
    }
}

/// Why a whole memory was not read.
pub fn unread_failure(unread: Unread) -> Failure
    ensures { result ≡ unread_failure unread }
{
    match unread {
        Unread::Memory => Failure::Memory,
        Unread::Fault => Failure::Unread,
    }
}
