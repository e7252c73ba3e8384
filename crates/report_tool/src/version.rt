// What a kernel's version tells: the tag of its ftrace zones, and the order of its zones.
ghost use Rattle.std.specs.Prelude.{◌≡◌, ◌==◌, [], ◌∷◌, ◌++◌, codes, decimal, OnOk};
ghost use Rattle.std.specs.List.{before_first};
ghost use Rattle.std.specs.Option.{option_map};
ghost use Rattle.grammar_spec.specs.Numbers.{number_of};
ghost use Rattle.grammar_spec.specs.Words.{texts};
ghost use Rattle.zone_spec.specs.Orders.{order_text};
ghost use Rattle.report_tool.specs.Version.{version_code, code_of, split_at, release_of, tag_of};
ghost use Rattle.report_tool.specs.Version.{order_of_code, order_of};

use ramoops_layout::{Order, number};
use std::alloc::{AllocError, Global};

// `LINUX_VERSION_CODE`: a patch level above 255 counts as 255.
fn version_code(major: u32, minor: u32, patch: u32) -> Option<u32>
    ensures { result ≡ version_code major minor patch }
{
    if major < 256 && minor < 256 {
        Some(major * 65536 + minor * 256 + patch.min(255))
    } else {
        None
    }
}

fn code_of(major: &str, minor: &str, patch: &str) -> Option<u32>
    ensures { result ≡ code_of (number_of major.now) (number_of minor.now) (number_of patch.now) }
{
    version_code(number(major)?, number(minor)?, number(patch)?)
}

// What stands before the first point and behind it.
fn split_at_point(text: &str) -> Option<(&str, &str)>
    ensures { option_map (λ parts. (parts.0.now, parts.1.now)) result ≡ split_at 46 text.now }
{
    text.split_once('.')
}

// What stands before the first `+`, or all of the text.
fn before_plus(text: &str) -> &str
    ensures { result.now ≡ before_first (λ c. c == 43) text.now }
{
    match text.split_once('+') {
        Some((front, _)) => front,
        None => text,
    }
}

// The version without what its builder added.
fn release(version: &str) -> &str
    ensures { result.now ≡ release_of version.now }
{
    match version.split_once('-') {
        Some((release, _)) => before_plus(release),
        None => before_plus(version),
    }
}

/// The tag of the ftrace zones that a kernel of this version writes (`fs/pstore/ram.c`, `ramoops_probe`:
/// `LINUX_VERSION_CODE`), or `None` where the text is no version. A version is `X.Y` or `X.Y.Z`, as `uname -r` prints
/// it; what stands behind the first `-` or `+` is the builder's. X and Y are below 256.
pub fn ftrace_tag(version: &str) -> Option<u32>
    ensures { result ≡ tag_of version.now }
{
    let (major, rest) = split_at_point(release(version))?;
    match split_at_point(rest) {
        Some((minor, patch)) => code_of(major, minor, patch),
        None => code_of(major, rest, "0"),
    }
}

pub(crate) fn order_of_code(code: u32) -> Option<Order>
    ensures { result ≡ order_of_code code }
{
    if code < 0x60200 {
        Some(Order::FtracePmsg)
    } else if code >= 0x60c00 {
        Some(Order::PmsgFtrace)
    } else {
        None
    }
}

/// The order in which a kernel of this version lays out its zones (`fs/pstore/ram.c`, `ramoops_probe`), or `None` where
/// that is not known: the text is no version, or a version above 6.1 and below 6.12.
pub fn zone_order(version: &str) -> Option<Order>
    ensures { result ≡ order_of version.now }
{
    order_of_code(ftrace_tag(version)?)
}

/// Adds the word that gives this order.
pub fn add_order(alloc: Global, words: &mut Vec<String>, order: Order) -> Result<(), AllocError>
    ensures { OnOk result (texts words.new.items ≡ texts words.old.items ++ (codes "order=" ++ order_text order) ∷ []) }
{
    let text = order.text();
    words.push(format!(in alloc; "order={text}")?)?;
    Ok(())
}

/// Adds the word that gives the ftrace zones this tag.
pub fn add_tag(alloc: Global, words: &mut Vec<String>, tag: u32) -> Result<(), AllocError>
    ensures { OnOk result (texts words.new.items ≡ texts words.old.items ++ (codes "ftrace_sig=" ++ decimal tag) ∷ []) }
{
    words.push(format!(in alloc; "ftrace_sig={tag}")?)?;
    Ok(())
}
