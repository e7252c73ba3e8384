// The words of one text, and bytes that are handed out.
ghost use Rattle.std.specs.Prelude.{◌≡◌, ◌≤◌, ◌++◌, length, drop, map, MatchResult, IfOk, IsUtf8};
ghost use Rattle.grammar_spec.specs.Words.{texts};
ghost use Rattle.grammar_spec.specs.Lines.{fields_of};
ghost use Rattle.report_entry.specs.Words.{text_words, IsWordsFault};

use std::alloc::{AllocError, Global};
use std::str;

/// Why there are no words.
#[derive(Clone, Copy, Debug, PartialEq, Eq)]
pub enum WordsFault {
    /// The text is not UTF-8.
    NotText,
    Memory,
}

fn parts(alloc: Global, text: &str) -> Result<Vec<&str>, AllocError>
    ensures { IfOk result (λ parts. map (λ x. x.now) parts.items ≡ fields_of text.now) }
{
    Ok(text.split(' ').collect(alloc)?)
}

fn owned(alloc: Global, parts: &[&str]) -> Result<Vec<String>, AllocError>
    ensures { IfOk result (λ words. texts words.items ≡ map (λ x. x.now) parts.now) }
{
    let mut words = Vec::new(alloc);
    for part in parts {
        words.push(String::from_str(alloc, part)?)?;
    }
    Ok(words)
}

fn words(alloc: Global, text: &str) -> Result<Vec<String>, AllocError>
    ensures { IfOk result (λ words. texts words.items ≡ fields_of text.now) }
{
    let parts = parts(alloc, text)?;
    owned(alloc, &parts)
}

/// The words of a text, each two with one space between.
pub fn read_words_of(alloc: Global, text: &[u8]) -> Result<Vec<String>, WordsFault>
    ensures { MatchResult result
        (λ words. IsUtf8 text.now × (texts words.items ≡ fields_of text.now))
        (λ fault. IsWordsFault fault text.now) }
{
    match str::from_utf8(text) {
        Ok(text) => match words(alloc, text) {
            Ok(words) => Ok(words),
            Err(_) => Err(WordsFault::Memory),
        },
        Err(_) => Err(WordsFault::NotText),
    }
}

/// The words of a text, each two with one space between; an empty text has none.
pub fn read_some_words(alloc: Global, text: &[u8]) -> Result<Vec<String>, WordsFault>
    ensures { MatchResult result
        (λ words. IsUtf8 text.now × (texts words.items ≡ text_words text.now))
        (λ fault. IsWordsFault fault text.now) }
{
    if text.is_empty() {
        return Ok(Vec::new(alloc));
    }
    read_words_of(alloc, text)
}

/// Copies bytes to the front of a slice.
pub fn fill(from: &[u8], into: &mut [u8])
    requires { length from.now ≤ length into.old }
    ensures { into.new ≡ from.now ++ drop (length from.now) into.old }
{
    into[..from.len()].copy_from_slice(from);
}
