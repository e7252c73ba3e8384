// The sizes of a storage, read from words.
ghost use Rattle.std.specs.Prelude.{◌≡◌};
ghost use Rattle.std.specs.List.{list_any};
ghost use Rattle.grammar_spec.specs.Words.{texts};
ghost use Rattle.storage_words.specs.Words.{size_of as size_by, size_given, sizes_of, sizes_read as read_by};
ghost use Rattle.storage_words.specs.Words.{is_of_storage as is_of, gives_size, storages_by as storages_of};

use crate::Storages;
use psz_read::kib_size;
use psz_spec::Sizes;
use ramoops_layout::{Choice, Keys, ParamFault};

const NONE: Choice = Choice {
    key: "",
    texts: &[],
};

const KEYS: Keys = Keys {
    prefix: "",
    names: &[
        "pstore_blk.kmsg_size",
        "pstore_blk.pmsg_size",
        "pstore_blk.console_size",
        "pstore_blk.ftrace_size",
        "pstore_blk.cpus",
    ],
    first: NONE,
    second: NONE,
};

/// The most whole pages below 4 GiB.
const MOST: u32 = 4_294_963_200;

fn size_of(kib: u32) -> u32
    ensures { result ≡ size_by kib }
{
    let size = kib_size(kib);
    if size < 0x1_0000_0000 {
        size as u32
    } else {
        MOST
    }
}

// The size that the words give a key in KiB, or this many, in bytes.
fn size(words: &[String], key: &str, absent: u32) -> u32
    ensures { result ≡ size_given (texts words.now) key.now absent }
{
    size_of(KEYS.given(words, key).unwrap_or(absent))
}

fn sizes(words: &[String]) -> Sizes
    ensures { result ≡ sizes_of (texts words.now) }
{
    Sizes {
        total: 0,
        pmsg: size(words, "pstore_blk.pmsg_size", 0),
        console: size(words, "pstore_blk.console_size", 0),
        ftrace: size(words, "pstore_blk.ftrace_size", 0),
        dump: size(words, "pstore_blk.kmsg_size", 64),
        cpus: KEYS.given(words, "pstore_blk.cpus").unwrap_or(1),
    }
}

fn sizes_read(words: &[String]) -> Result<Sizes, ParamFault>
    ensures { result ≡ read_by words.now }
{
    match KEYS.first_fault(words) {
        Some(fault) => Err(fault),
        None => Ok(sizes(words)),
    }
}

/// Whether a word is one of the module's.
pub fn is_of_storage(word: &str) -> bool
    ensures { result ≡ is_of word.now }
{
    word.as_bytes().starts_with(b"pstore_blk.")
}

// Whether one of the words is.
fn gives_sizes(words: &[String]) -> bool
    ensures { result ≡ list_any gives_size words.now }
{
    words.iter().any(|word| is_of_storage(word))
}

/// Which files are storages by these words: each, by the sizes that they give, if one of them begins with `pstore_blk.`
/// (`fs/pstore/blk.c`, `module_param`); without words, those in which a dump stands. Sizes are in KiB. The first faulty
/// word is an error.
#[tactic(auto, unfolding(crate::specs::Words::storages_by))]
pub fn storages_by(words: &[String]) -> Result<Storages, ParamFault>
    ensures { result ≡ storages_of words.now }
{
    if gives_sizes(words) {
        return match sizes_read(words) {
            Ok(sizes) => Ok(Storages::All(sizes)),
            Err(fault) => Err(fault),
        };
    }
    Ok(if words.is_empty() {
        Storages::Shown
    } else {
        Storages::Never
    })
}
