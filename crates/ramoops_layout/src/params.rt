// Parameters read from words.
ghost use Rattle.std.specs.Prelude.{◌≡◌, ℕ, codes, unwrap_or};
ghost use Rattle.std.specs.Option.{option_map};
ghost use Rattle.grammar_spec.specs.Words.{texts};
ghost use Rattle.grammar_spec.specs.ZoneWords.{given, parity_of, parity_given, memory_of, params_by, read_by, read_of};
ghost use Rattle.grammar_spec.specs.ZoneWords.{with_sizes, with_parities, with_order, order_at as order_of, byte_order_at as byte_order_of};

use crate::rows::{MOST_MEMORY, rounded};
use crate::{Choice, Keys};
use grammar_spec::ParamFault;
use zone_spec::{ByteOrder, Order, Params};

const KEYS: Keys = Keys {
    prefix: "ramoops.",
    names: &[
        "mem_size",
        "record_size",
        "console_size",
        "ftrace_size",
        "pmsg_size",
        "ecc",
        "cpus",
        "ftrace_sig",
        "block_size",
        "ecc_dump",
        "ecc_console",
        "ecc_ftrace",
        "ecc_pmsg",
        "order",
        "byte_order",
    ],
    first: Choice {
        key: "order",
        texts: &["console,ftrace,pmsg", "console,pmsg,ftrace"],
    },
    second: Choice {
        key: "byte_order",
        texts: &["little", "big"],
    },
};

/// What the module takes where no word is given.
pub const DEFAULTS: Params = Params {
    mem: 0,
    dump: 4096,
    console: 4096,
    ftrace: 4096,
    pmsg: 4096,
    ecc: 0,
    cpus: 1,
    ftrace_sig: 0,
    block: 128,
    ecc_dump: 0,
    ecc_console: 0,
    ecc_ftrace: 0,
    ecc_pmsg: 0,
    order: Order::FtracePmsg,
    byte_order: ByteOrder::Little,
};

// The number that the words give a key.
fn number(words: &[String], key: &str, absent: u64) -> u64
    ensures { result ≡ unwrap_or (given (texts words.now) key.now) absent }
{
    match KEYS.given(words, key) {
        Some(number) => u64::from(number),
        None => absent,
    }
}

// The parity bytes that an `ecc` of the module asks for.
fn parity_bytes(ecc: u32) -> u64
    ensures { result ≡ parity_of ecc }
{
    if ecc == 1 { 16 } else { u64::from(ecc) }
}

// The parity bytes that the words give a key.
fn parity(words: &[String], key: &str, absent: u64) -> u64
    ensures { result ≡ unwrap_or (parity_given (texts words.now) key.now) absent }
{
    parity_given(words, key).unwrap_or(absent)
}

/// The order of this number: 0 is that of Linux 6.1, any other that of Linux 6.12.
pub fn order_at(place: u32) -> Order
    ensures { result ≡ order_of place }
{
    if place == 0 {
        Order::FtracePmsg
    } else {
        Order::PmsgFtrace
    }
}

/// The order of bytes of this number: 0 is little-endian, any other big-endian.
pub fn byte_order_at(place: u32) -> ByteOrder
    ensures { result ≡ byte_order_of place }
{
    if place == 0 {
        ByteOrder::Little
    } else {
        ByteOrder::Big
    }
}

// The order that the words give.
fn order(words: &[String], absent: Order) -> Order
    ensures { result ≡ unwrap_or (option_map order_of (given (texts words.now) (codes "order"))) absent }
{
    match KEYS.given(words, "order") {
        Some(place) => order_at(place),
        None => absent,
    }
}

// The order of bytes that the words give.
fn byte_order(words: &[String], absent: ByteOrder) -> ByteOrder
    ensures { result ≡ unwrap_or (option_map byte_order_of (given (texts words.now) (codes "byte_order"))) absent }
{
    match KEYS.given(words, "byte_order") {
        Some(place) => byte_order_at(place),
        None => absent,
    }
}

// The image's bytes as the project reads a `mem_size`.
fn rounded_memory(size: u64) -> u64
    ensures { result ≡ memory_of size }
{
    if size > MOST_MEMORY {
        size
    } else {
        rounded(size)
    }
}

// The image's bytes that the words give.
fn memory(words: &[String], absent: u64) -> u64
    ensures { result ≡ unwrap_or (option_map memory_of (given (texts words.now) (codes "mem_size"))) absent }
{
    match KEYS.given(words, "mem_size") {
        Some(size) => rounded_memory(u64::from(size)),
        None => absent,
    }
}

fn with_sizes(words: &[String], mem: u64, absent: &Params) -> Params
    ensures { (memory : ℕ → ℕ) → mem ≡ unwrap_or (option_map memory (given (texts words.now) (codes "mem_size")))
        absent.now.mem → result ≡ with_sizes memory (texts words.now) absent.now }
{
    Params {
        mem,
        dump: number(words, "record_size", absent.dump),
        console: number(words, "console_size", absent.console),
        ftrace: number(words, "ftrace_size", absent.ftrace),
        pmsg: number(words, "pmsg_size", absent.pmsg),
        cpus: number(words, "cpus", absent.cpus),
        ftrace_sig: KEYS.given(words, "ftrace_sig").unwrap_or(absent.ftrace_sig),
        block: number(words, "block_size", absent.block),
        ..*absent
    }
}

fn with_parities(words: &[String], absent: &Params) -> Params
    ensures { result ≡ with_parities (texts words.now) absent.now }
{
    Params {
        ecc: parity(words, "ecc", absent.ecc),
        ecc_dump: parity(words, "ecc_dump", parity(words, "ecc", absent.ecc_dump)),
        ecc_console: parity(
            words,
            "ecc_console",
            parity(words, "ecc", absent.ecc_console),
        ),
        ecc_ftrace: parity(words, "ecc_ftrace", parity(words, "ecc", absent.ecc_ftrace)),
        ecc_pmsg: parity(words, "ecc_pmsg", parity(words, "ecc", absent.ecc_pmsg)),
        ..*absent
    }
}

fn with_order(words: &[String], absent: &Params) -> Params
    ensures { result ≡ with_order (texts words.now) absent.now }
{
    Params {
        order: order(words, absent.order),
        byte_order: byte_order(words, absent.byte_order),
        ..*absent
    }
}

// The parameters of an image of so many bytes.
fn params(words: &[String], mem: u64, absent: &Params) -> Params
    ensures { (memory : ℕ → ℕ) → mem ≡ unwrap_or (option_map memory (given (texts words.now) (codes "mem_size")))
        absent.now.mem → result ≡ params_by memory absent.now (texts words.now) }
{
    let sized = with_sizes(words, mem, absent);
    let coded = with_parities(words, &sized);
    with_order(words, &coded)
}

/// The parameters of these words (`fs/pstore/ram.c`, `module_param`), each word `key=value`. The key may carry the
/// prefix `ramoops.` of a kernel's command line. That `mem_size` is rounded down is the project's own choice.
pub fn read_words(words: &[String]) -> Result<Params, ParamFault>
    ensures { result ≡ read_of words.now }
{
    match KEYS.first_fault(words) {
        Some(fault) => Err(fault),
        None => Ok(params(words, memory(words, 0), &DEFAULTS)),
    }
}

/// The parameters of these words with `mem_size` as they give it (`fs/pstore/ram.c`, `ramoops_probe`). What no word
/// gives is as in `absent`.
pub fn read_words_over(words: &[String], absent: &Params) -> Result<Params, ParamFault>
    ensures { result ≡ read_by (λ size. size) absent.now words.now }
{
    match KEYS.first_fault(words) {
        Some(fault) => Err(fault),
        None => Ok(params(words, number(words, "mem_size", absent.mem), absent)),
    }
}

/// The number that the words give this key.
pub fn given(words: &[String], key: &str) -> Option<u32>
    ensures { result ≡ given (texts words.now) key.now }
{
    KEYS.given(words, key)
}

/// The parity bytes that the words give this key.
pub fn parity_given(words: &[String], key: &str) -> Option<u64>
    ensures { result ≡ parity_given (texts words.now) key.now }
{
    match KEYS.given(words, key) {
        Some(ecc) => Some(parity_bytes(ecc)),
        None => None,
    }
}
