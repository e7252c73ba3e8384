//! Text logs, such as a serial capture or what `dmesg` printed: whether bytes are one, and the boots in it.
#![tactic(auto)]

ghost use Rattle.std.specs.Prelude.{◌≡◌, ◌≤◌, ◌+◌, ◌↔◌, ◌&&◌, not, nat_lt, length, drop, IfOk, IsTrue};
ghost use Rattle.std.specs.List.{list_any};
ghost use Rattle.text_log_spec.specs.Boots.{is_erased, IsTextLog, begins, is_booting_behind, line_at, boot, boots_of, Joined};
ghost use Rattle.text_log_spec.specs.Words.{run};
ghost use Rattle.text_log_spec.specs.declared.Class.TheVariants.{Line};

mod words;

use std::alloc::{AllocError, Global};
use text_log_spec::Class;
pub use text_log_spec::{Boot, Head};
use words::{run, tail};
pub use words::{head_of, said};

// Whether one of the bytes is not as in erased flash.
fn has_written(bytes: &[u8]) -> bool
    ensures { result ≡ list_any (λ b. not (is_erased b)) bytes.now }
{
    bytes.iter().any(|b| *b != 0xff)
}

/// Whether bytes are a text log: none of them is 0, and not all of them are 0xff, as in erased flash.
pub fn is_text_log(bytes: &[u8]) -> bool
    ensures { IsTrue result ↔ IsTextLog bytes.now }
{
    has_written(bytes) && bytes.iter().all(|b| *b > 0)
}

fn begins(is_booting: bool, head: Option<Head>) -> bool
    ensures { result ≡ begins is_booting head }
{
    match head {
        Some(Head::Booting) => true,
        Some(Head::Version) => !is_booting,
        None => false,
    }
}

// Whether a boot ends before the line at a place.
fn is_cut(is_booting: bool, head: Option<Head>, from: usize, at: usize) -> bool
    ensures { result ≡ (begins is_booting head && nat_lt from at) }
{
    begins(is_booting, head) && from < at
}

fn is_booting_behind(is_booting: bool, head: Option<Head>) -> bool
    ensures { result ≡ is_booting_behind is_booting head }
{
    match head {
        Some(Head::Booting) => true,
        Some(Head::Version) => false,
        None => is_booting,
    }
}

// The line that begins at a place.
fn line_at(text: &[u8], at: usize) -> &[u8]
    requires { at ≤ length text.now }
    ensures line { result.now ≡ line_at text.now at }
    ensures len { length result.now ≡ run Line (drop at text.now) }
    ensures within { at + length result.now ≤ length text.now }
{
    let rest = tail(text, at);
    &rest[..run(Class::Line, rest)]
}

fn boot(start: usize, end: usize) -> Boot
    ensures { result ≡ boot start end }
{
    Boot { start, end }
}

/// The boots in a log, in order. It takes one pass over the text, and no memory but the list.
pub fn boots(alloc: Global, text: &[u8]) -> Result<Vec<Boot>, AllocError>
    ensures boots { IfOk result (λ boots. boots.items ≡ boots_of text.now) }
    // Each has a byte, and together they are the whole text.
    ensures joined { IfOk result (λ boots. Joined 0 boots.items (length text.now)) }
{
    let mut boots = Vec::new(alloc);
    let mut is_booting = false;
    let mut from = 0;
    let mut at = 0;
    'lines: while at < text.len() {
        let start = at;
        let line = line_at(text, at);
        let head = head_of(line);
        let is_cut = is_cut(is_booting, head, from, start);
        is_booting = is_booting_behind(is_booting, head);
        at += line.len() + 1;
        if is_cut {
            boots.push(boot(from, start))?;
            from = start;
        }
    }
    if from < text.len() {
        boots.push(boot(from, text.len()))?;
    }
    Ok(boots)
}
