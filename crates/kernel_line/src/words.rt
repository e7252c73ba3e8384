// The words of a kernel's command line.
ghost use Rattle.std.specs.Prelude.{◌≡◌, ◌+◌, ◌≤◌, ◌<◌, ◌==◌, true, false, if◌then◌else◌, [], ◌∷◌, ◌++◌, length, take};
ghost use Rattle.std.specs.Prelude.{drop, codes, bytes_eq, IfOk, IfErr, OnOk};
ghost use Rattle.std.specs.List.{after_first, position, position_or_len};
ghost use Rattle.kernel_line.specs.Line.{is_white, is_quote, is_equals, words_from, is_closed, is_quoted};
ghost use Rattle.kernel_line.specs.Line.{without_last_quote, body_of, opened, unquoted, underscored, line_words};
ghost use Rattle.kernel_line.specs.Line.{IsUnread};

use outside::Bytes;
use std::alloc::{AllocError, Global};

/// Why a command line is not read.
#[derive(Clone, Copy, Debug, PartialEq, Eq)]
pub enum LineFault {
    Memory,
    /// A quote has no end.
    OpenQuote,
    /// A word of the layout is no text.
    NoText,
}

impl From<AllocError> for LineFault {
    ghost use Rattle.kernel_line.specs.declared.words.LineFault.TheVariants.{Memory};

    ghost from_gives = { λ _ e. e ≡ Memory };

    fn from(_: AllocError) -> LineFault {
        LineFault::Memory
    }
}

// The kernel's `isspace` (`lib/ctype.c`).
fn is_white(b: u8) -> bool
    ensures { result ≡ is_white b }
{
    (9 <= b && b <= 13) || b == 32 || b == 160
}

/// Tells whether each quote of a line has its end. Takes no memory.
pub fn is_closed(line: &[u8]) -> bool
    ensures { result ≡ is_closed line.now }
{
    line.iter().filter(|b| **b == b'"').count() % 2 == 0
}

// Whether the words behind this one are init's.
fn is_end(word: &[u8]) -> bool
    ensures { result ≡ bytes_eq word.now (codes "--") }
{
    word == b"--".as_slice()
}

// The place of the first white space that is not within quotes, or the length.
fn word_end(line: &[u8]) -> usize
    ensures within { result ≤ length line.now }
    ensures words { words_from false line.now ≡ take result line.now
        ∷ (if result == length line.now then [] else words_from false (drop (result + 1) line.now)) }
{
    let mut end = 0;
    let mut is_within = false;
    'bytes: while end < line.len() {
        let b = line[end];
        if is_white(b) && !is_within {
            return end;
        }
        if b == b'"' {
            is_within = !is_within;
        }
        end += 1;
    }
    end
}

fn equals_at(word: &[u8]) -> Option<usize>
    ensures { result ≡ position is_equals word.now }
{
    word.iter().position(|b| *b == b'=')
}

// The place of the first `=`, or the length.
#[tactic(auto, using(crate::proofs::Places::place_or_len, crate::proofs::Places::place_within))]
pub fn name_end(word: &[u8]) -> usize
    ensures place { result ≡ position_or_len is_equals word.now }
    ensures within { result ≤ length word.now }
{
    equals_at(word).unwrap_or(word.len())
}

// What stands behind the first `=`.
fn value_of(word: &[u8]) -> &[u8]
    ensures { result.now ≡ after_first is_equals word.now }
{
    let end = name_end(word);
    if end < word.len() {
        &word[end + 1..]
    } else {
        &[]
    }
}

fn is_quoted(text: &[u8]) -> bool
    ensures { result ≡ is_quoted text.now }
{
    text.starts_with(b"\"")
}

fn body_of(word: &[u8]) -> &[u8]
    ensures { result.now ≡ body_of word.now }
{
    if is_quoted(word) { &word[1..] } else { word }
}

fn drop_last_quote(text: &mut Vec<u8>)
    ensures { text.new.items ≡ without_last_quote text.old.items }
{
    if text.ends_with(b"\"") {
        let _quote = text.pop();
    }
}

fn opened(alloc: Global, body: &[u8]) -> Result<Vec<u8>, AllocError>
    ensures { IfOk result (λ v. v.items ≡ opened body.now) }
{
    let mut text = Vec::from_slice(alloc, body)?;
    if is_quoted(value_of(body)) {
        let _quote = text.remove(name_end(body) + 1);
    }
    Ok(text)
}

// A word without the quotes that protect its white space.
fn unquoted(alloc: Global, word: &[u8]) -> Result<Vec<u8>, AllocError>
    ensures { IfOk result (λ v. v.items ≡ unquoted word.now) }
{
    let body = body_of(word);
    let mut text = opened(alloc, body)?;
    if is_quoted(word) || is_quoted(value_of(body)) {
        drop_last_quote(&mut text);
    }
    Ok(text)
}

// A word with `_` for each `-` of its name.
fn underscored(alloc: Global, word: &[u8]) -> Result<Vec<u8>, AllocError>
    ensures { IfOk result (λ v. v.items ≡ underscored word.now) }
{
    let (name, rest) = word.split_at(name_end(word));
    let mut text: Vec<u8> = name
        .iter()
        .map(|b| if *b == b'-' { b'_' } else { *b })
        .collect(alloc)?;
    text.extend_from_slice(rest)?;
    Ok(text)
}

fn push_word(words: &mut Vec<Bytes>, word: Vec<u8>) -> Result<(), AllocError>
    ensures { OnOk result (words.new.items ≡ words.old.items ++ word.items ∷ []) }
{
    words.push(Bytes::from_vec(word))?;
    Ok(())
}

// What stands behind a place.
fn behind(line: &[u8], at: usize) -> &[u8]
    requires { at < length line.now }
    ensures { result.now ≡ drop (at + 1) line.now }
{
    &line[at + 1..]
}

/// The words of a kernel's command line, as the kernel reads them (`lib/cmdline.c`, `next_arg`; `kernel/params.c`,
/// `parse_args`). White space separates words, but not within double quotes. A word loses a quote in front of it or of
/// its value, and then the one at its end. A `-` of a name reads as `_`. What stands behind a word `--` is init's. A
/// quote without its end is refused, before any memory is taken.
pub fn kernel_words(alloc: Global, line: &[u8]) -> Result<Vec<Bytes>, LineFault>
    ensures ok { IfOk result (λ words. words.items ≡ line_words line.now) }
    ensures closed { OnOk result (is_closed line.now ≡ true) }
    ensures err { IfErr result (IsUnread line.now) }
{
    if !is_closed(line) {
        return Err(LineFault::OpenQuote);
    }
    let mut words = Vec::new(alloc);
    let mut rest = line;
    'words: loop {
        let end = word_end(rest);
        let word = unquoted(alloc, &rest[..end])?;
        if is_end(&word) {
            return Ok(words);
        }
        push_word(&mut words, underscored(alloc, &word)?)?;
        if end == rest.len() {
            return Ok(words);
        }
        rest = behind(rest, end);
    }
}
