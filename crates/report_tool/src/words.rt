// The words that give a layout.
ghost use Rattle.std.specs.Prelude.{◌≡◌, ◌++◌, decimal, string_bytes, IfOk, OnOk};
ghost use Rattle.report_tool.specs.LayoutWords.{hexadecimal, memory_words, size_words, tagged_words, ftrace_words};
ghost use Rattle.report_tool.specs.LayoutWords.{order_words, byte_order_words, layout_words};

use layout_search::Candidate;
use std::alloc::{AllocError, Global};
use zone_spec::{ByteOrder, Order};

/// Appends words and a number after them.
pub fn push_number(alloc: Global, text: &mut String, words: &str, n: u64) -> Result<(), AllocError>
    ensures { OnOk result (string_bytes text.new ≡ string_bytes text.old ++ words.now ++ decimal n) }
{
    text.push_str(words)?;
    text.push_str(&n.to_string(alloc)?)?;
    Ok(())
}

#[tactic(auto, unfolding(crate::specs::LayoutWords::hexadecimal))]
fn hexadecimal(alloc: Global, n: u32) -> Result<String, AllocError>
    ensures { IfOk result (λ text. string_bytes text ≡ hexadecimal n) }
{
    format!(in alloc; "{n:x}")
}

fn memory_words(alloc: Global, c: &Candidate, size: u64) -> Result<String, AllocError>
    ensures { IfOk result (λ text. string_bytes text ≡ memory_words c.now size) }
{
    let mut text = String::new(alloc);
    if c.mem == size {
        return Ok(text);
    }
    push_number(alloc, &mut text, "mem_size=", c.mem)?;
    text.push_str(" ")?;
    Ok(text)
}

fn size_words(alloc: Global, c: &Candidate) -> Result<String, AllocError>
    ensures { IfOk result (λ text. string_bytes text ≡ size_words c.now) }
{
    let mut text = String::new(alloc);
    push_number(alloc, &mut text, "record_size=", c.dump)?;
    push_number(alloc, &mut text, " console_size=", c.console)?;
    push_number(alloc, &mut text, " ftrace_size=", c.ftrace)?;
    push_number(alloc, &mut text, " pmsg_size=", c.pmsg)?;
    push_number(alloc, &mut text, " ecc=", c.parity)?;
    Ok(text)
}

fn tagged_words(alloc: Global, c: &Candidate) -> Result<String, AllocError>
    ensures { IfOk result (λ text. string_bytes text ≡ tagged_words c.now) }
{
    let tag = hexadecimal(alloc, c.tag)?;
    let mut text = String::new(alloc);
    push_number(alloc, &mut text, " cpus=", c.cpus)?;
    text.push_str(" ftrace_sig=0x")?;
    text.push_str(&tag)?;
    Ok(text)
}

fn ftrace_words(alloc: Global, c: &Candidate) -> Result<String, AllocError>
    ensures { IfOk result (λ text. string_bytes text ≡ ftrace_words c.now) }
{
    if c.ftrace == 0 {
        return Ok(String::new(alloc));
    }
    tagged_words(alloc, c)
}

fn order_words(alloc: Global, order: Order) -> Result<String, AllocError>
    ensures { IfOk result (λ text. string_bytes text ≡ order_words order) }
{
    let mut text = String::new(alloc);
    match order {
        Order::FtracePmsg => Ok(text),
        Order::PmsgFtrace => {
            text.push_str(" order=")?;
            text.push_str(Order::PmsgFtrace.text())?;
            Ok(text)
        }
    }
}

fn byte_order_words(alloc: Global, order: ByteOrder) -> Result<String, AllocError>
    ensures { IfOk result (λ text. string_bytes text ≡ byte_order_words order) }
{
    let mut text = String::new(alloc);
    match order {
        ByteOrder::Little => Ok(text),
        ByteOrder::Big => {
            text.push_str(" byte_order=")?;
            text.push_str(ByteOrder::Big.text())?;
            Ok(text)
        }
    }
}

/// The words that give a layout which was found in an image of so many bytes.
#[tactic(auto, unfolding(crate::specs::LayoutWords::layout_words))]
pub fn layout_words(alloc: Global, c: &Candidate, size: u64) -> Result<String, AllocError>
    ensures { IfOk result (λ text. string_bytes text ≡ layout_words c.now size) }
{
    let mut text = memory_words(alloc, c, size)?;
    text.push_str(&size_words(alloc, c)?)?;
    text.push_str(&ftrace_words(alloc, c)?)?;
    text.push_str(&order_words(alloc, c.order)?)?;
    text.push_str(&byte_order_words(alloc, c.byte_order)?)?;
    Ok(text)
}
