// What a line of a log says, behind all that others wrote before it.
ghost use Rattle.std.specs.Prelude.{◌≡◌, ◌≤◌, nat_eq, length, drop, slice_index};
ghost use Rattle.std.specs.List.{starts_with};
ghost use Rattle.text_log_spec.specs.Words.{is_blank, is_in, run, bracket_len, escape_len, piece_len, plain, next_word};
ghost use Rattle.text_log_spec.specs.Words.{behind_pieces, behind_kernel, said, head_in, head_of};

use text_log_spec::{BOOTING, Class, Head, KERNEL, VERSION};

fn byte_at(text: &[u8], at: usize) -> u8
    ensures { result ≡ slice_index text.now at }
{
    if at < text.len() { text[at] } else { 0 }
}

/// What stands from a place on; nothing past the end.
pub fn tail(text: &[u8], at: usize) -> &[u8]
    ensures { result.now ≡ drop at text.now }
{
    if at < text.len() { &text[at..] } else { &[] }
}

fn starts_with(text: &[u8], words: &[u8]) -> bool
    ensures { result ≡ starts_with nat_eq text.now words.now }
{
    text.starts_with(words)
}

fn is_blank(b: u8) -> bool
    ensures { result ≡ is_blank b }
{
    b == b' ' || b == b'\t' || b == b'\r'
}

fn is_in(class: Class, b: u8) -> bool
    ensures { result ≡ is_in class b }
{
    match class {
        Class::Line => b != b'\n',
        Class::Blank => is_blank(b),
        Class::Word => !is_blank(b),
        Class::Bracketed => b != b']',
        Class::Angled => b != b'>',
        Class::Parameter => 32 <= b && b <= 63,
    }
}

/// How many bytes at the front are of a class.
pub fn run(class: Class, text: &[u8]) -> usize
    ensures run { result ≡ run class text.now }
    ensures within { result ≤ length text.now }
{
    let mut len = 0;
    'bytes: while len < text.len() && is_in(class, text[len]) {
        len += 1;
    }
    len
}

fn bracket_len(class: Class, text: &[u8]) -> usize
    ensures { result ≡ bracket_len class text.now }
{
    let len = run(class, text);
    if len < text.len() { len + 1 } else { 0 }
}

fn escape_len(text: &[u8]) -> usize
    ensures { result ≡ escape_len text.now }
{
    if byte_at(text, 1) == b'[' {
        3 + run(Class::Parameter, tail(text, 2))
    } else {
        0
    }
}

#[tactic(auto, unfolding(text_log_spec::specs::Words::piece_len))]
fn piece_len(text: &[u8]) -> usize
    ensures { result ≡ piece_len text.now }
{
    let first = byte_at(text, 0);
    if is_blank(first) {
        1
    } else if first == 0x1b {
        escape_len(text)
    } else if first == b'[' {
        bracket_len(Class::Bracketed, text)
    } else if first == b'<' {
        bracket_len(Class::Angled, text)
    } else {
        0
    }
}

fn plain(text: &[u8]) -> &[u8]
    ensures { result.now ≡ plain text.now }
{
    let mut rest = text;
    let mut left = text.len();
    'pieces: while left > 0 {
        let len = piece_len(rest);
        if len == 0 {
            return rest;
        }
        rest = tail(rest, len);
        left -= 1;
    }
    rest
}

fn next_word(text: &[u8]) -> &[u8]
    ensures { result.now ≡ next_word text.now }
{
    let blanks = tail(text, run(Class::Word, text));
    tail(blanks, run(Class::Blank, blanks))
}

fn behind_kernel(text: &[u8]) -> &[u8]
    ensures { result.now ≡ behind_kernel 5 text.now text.now }
{
    let mut rest = text;
    let mut left = 5u8;
    'words: while left > 0 {
        if starts_with(rest, KERNEL) {
            return tail(rest, KERNEL.len());
        }
        rest = next_word(rest);
        left -= 1;
    }
    text
}

/// What the kernel says in a line.
pub fn said(line: &[u8]) -> &[u8]
    ensures { result.now ≡ said line.now }
{
    plain(behind_kernel(plain(line)))
}

fn head_in(text: &[u8]) -> Option<Head>
    ensures { result ≡ head_in text.now }
{
    if starts_with(text, BOOTING) {
        Some(Head::Booting)
    } else if starts_with(text, VERSION) {
        Some(Head::Version)
    } else {
        None
    }
}

/// The line by which a boot begins, if it is one.
pub fn head_of(line: &[u8]) -> Option<Head>
    ensures { result ≡ head_of line.now }
{
    head_in(said(line))
}
