// Parameters read from words.
ghost use Rattle.std.specs.Prelude.{◌≡◌, unwrap_or};
ghost use Rattle.grammar_spec.specs.Words.{texts};
ghost use Rattle.grammar_spec.specs.BlkWords.{given, params_of, read_of};

use blk_spec::BlkParams;
use grammar_spec::ParamFault;
use ramoops_layout::{Choice, Keys};

const NONE: Choice = Choice {
    key: "",
    texts: &[],
};

const KEYS: Keys = Keys {
    prefix: "",
    names: &["total_size", "kmsg_size", "console_size", "pmsg_size"],
    first: NONE,
    second: NONE,
};

const ZONE: u32 = 65536;

// The size that the words give a key, in bytes.
fn size(words: &[String], key: &str, default: u32) -> u64
    ensures { result ≡ unwrap_or (given (texts words.now) key.now) default }
{
    u64::from(KEYS.given(words, key).unwrap_or(default))
}

fn params(words: &[String]) -> BlkParams
    ensures { result ≡ params_of (texts words.now) }
{
    BlkParams {
        total: size(words, "total_size", 0),
        kmsg: size(words, "kmsg_size", ZONE),
        console: size(words, "console_size", ZONE),
        pmsg: size(words, "pmsg_size", ZONE),
    }
}

/// The parameters of these words, each word `key=value`. The keys have no prefix, and the numbers the forms of a
/// parameter of the kernel (`lib/kstrtox.c`).
pub fn read_blk_words(words: &[String]) -> Result<BlkParams, ParamFault>
    ensures { result ≡ read_of words.now }
{
    match KEYS.first_fault(words) {
        Some(fault) => Err(fault),
        None => Ok(params(words)),
    }
}
