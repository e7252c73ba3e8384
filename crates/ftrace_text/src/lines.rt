// The lines.
ghost use Rattle.std.specs.Prelude.{◌≡◌, ◌++◌, ◌/◌, ◌%◌, decimal, map, flat_map, IfOk, OnOk};
ghost use Rattle.ftrace_spec.specs.Lines.{bare_text, spaced, module_text, function_text, offset_text, place_text};
ghost use Rattle.ftrace_spec.specs.Lines.{head_by, line_by, line_text, trace_text as text_of};
ghost use Rattle.ftrace_zone.specs.EntryBytes.{entry_bytes};

use crate::hexadecimal::push_hexadecimal;
use ftrace_zone::{Entry, entries};
use itoa::Buffer;
use std::alloc::{AllocError, Global};
use symbols::{Symbol, Symbols};

fn push(out: &mut Vec<u8>, bytes: &[u8]) -> Result<(), AllocError>
    ensures { OnOk result (out.new.items ≡ out.old.items ++ bytes.now) }
{
    out.extend_from_slice(bytes)
}

fn push_decimal(out: &mut Vec<u8>, n: u64) -> Result<(), AllocError>
    ensures { OnOk result (out.new.items ≡ out.old.items ++ decimal n) }
{
    let mut digits = Buffer::new();
    push(out, digits.format(n).as_bytes())
}

// Appends the function of an address, or the address.
fn push_bare(
    out: &mut Vec<u8>,
    symbols: &Symbols,
    address: u64,
    symbol: Option<Symbol>,
) -> Result<(), AllocError>
    ensures { OnOk result (out.new.items ≡ out.old.items ++ bare_text symbols.now address symbol) }
{
    match symbol {
        Some(symbol) => push(out, symbols.name(symbol)),
        None => {
            push(out, b"0x")?;
            push_hexadecimal(out, 1, address)
        }
    }
}

fn push_spaced(out: &mut Vec<u8>, text: &[u8]) -> Result<(), AllocError>
    ensures { OnOk result (out.new.items ≡ out.old.items ++ spaced text.now) }
{
    if text.is_empty() {
        return Ok(());
    }
    push(out, b" ")?;
    push(out, text)
}

fn push_module(
    out: &mut Vec<u8>,
    symbols: &Symbols,
    symbol: Option<Symbol>,
) -> Result<(), AllocError>
    ensures { OnOk result (out.new.items ≡ out.old.items ++ module_text symbols.now symbol) }
{
    match symbol {
        Some(symbol) => push_spaced(out, symbols.module(symbol)),
        None => Ok(()),
    }
}

/// Appends the function of an address, with its module, or the address.
#[tactic(auto, unfolding(ftrace_spec::specs::Lines::function_text))]
fn push_function(
    out: &mut Vec<u8>,
    symbols: &Symbols,
    shift: u64,
    address: u64,
) -> Result<(), AllocError>
    ensures { OnOk result (out.new.items ≡ out.old.items ++ function_text symbols.now shift address) }
{
    let symbol = symbols.function_above(shift, address);
    push_bare(out, symbols, address, symbol)?;
    push_module(out, symbols, symbol)
}

fn push_offset(out: &mut Vec<u8>, address: u64, symbol: Option<Symbol>) -> Result<(), AllocError>
    ensures { OnOk result (out.new.items ≡ out.old.items ++ offset_text address symbol) }
{
    match symbol {
        Some(symbol) => {
            push(out, b"+0x")?;
            push_hexadecimal(out, 1, address.saturating_sub(symbol.address))
        }
        None => Ok(()),
    }
}

#[tactic(auto, unfolding(ftrace_spec::specs::Lines::place_text))]
fn push_place(
    out: &mut Vec<u8>,
    symbols: &Symbols,
    shift: u64,
    address: u64,
) -> Result<(), AllocError>
    ensures { OnOk result (out.new.items ≡ out.old.items ++ place_text symbols.now shift address) }
{
    let symbol = symbols.function_above(shift, address);
    push_bare(out, symbols, address, symbol)?;
    push_offset(out, address.saturating_sub(shift), symbol)?;
    push_module(out, symbols, symbol)
}

#[tactic(auto, unfolding(ftrace_spec::specs::Lines::head_by))]
fn push_head(
    out: &mut Vec<u8>,
    address: u64,
    parent: u64,
    processor: u64,
    time: u64,
) -> Result<(), AllocError>
    ensures { OnOk result (out.new.items ≡ out.old.items ++ head_by address parent processor time) }
{
    push(out, b"CPU:")?;
    push_decimal(out, processor)?;
    push(out, b" ts:")?;
    push_decimal(out, time)?;
    push(out, b" ")?;
    push_hexadecimal(out, 8, address)?;
    push(out, b"  ")?;
    push_hexadecimal(out, 8, parent)?;
    push(out, b"  ")
}

fn push_words(
    out: &mut Vec<u8>,
    symbols: &Symbols,
    shift: u64,
    address: u64,
    parent: u64,
    word: u64,
) -> Result<(), AllocError>
    ensures { OnOk result (out.new.items ≡ out.old.items
        ++ line_by symbols.now shift address parent (word % 256) (word / 256)) }
{
    push_head(out, address, parent, word % 256, word >> 8)?;
    push_function(out, symbols, shift, address)?;
    push(out, b" <- ")?;
    push_place(out, symbols, shift, parent)?;
    push(out, b"\n")
}

fn push_line(
    out: &mut Vec<u8>,
    symbols: &Symbols,
    shift: u64,
    entry: &Entry,
) -> Result<(), AllocError>
    ensures { OnOk result (out.new.items
        ≡ out.old.items ++ line_text symbols.now shift (entry_bytes entry.now)) }
{
    push_words(out, symbols, shift, entry.addr, entry.parent, entry.word)
}

fn lines_of(
    alloc: Global,
    symbols: &Symbols,
    shift: u64,
    entries: &[Entry],
) -> Result<Vec<u8>, AllocError>
    ensures { IfOk result (λ text.
        text.items ≡ flat_map (line_text symbols.now shift) (map entry_bytes entries.now)) }
{
    let mut out = Vec::new(alloc);
    for entry in entries {
        push_line(&mut out, symbols, shift, entry)?;
    }
    Ok(out)
}

/// The lines of the entries of a log, with the functions of a map, above which the kernel ran so far. An address that is
/// of no function of the map is shown in its place. Takes time linear in the log.
#[tactic(auto, unfolding(ftrace_spec::specs::Lines::trace_text))]
pub fn trace_text(
    alloc: Global,
    log: &[u8],
    symbols: &Symbols,
    shift: u64,
) -> Result<Vec<u8>, AllocError>
    ensures { IfOk result (λ text. text.items ≡ text_of symbols.now shift log.now) }
{
    let all = entries(alloc, log)?;
    lines_of(alloc, symbols, shift, all.as_slice())
}
