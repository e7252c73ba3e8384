// Words at the front of a text, and runs of bytes.
ghost use Rattle.std.specs.Prelude.{◌≡◌, ◌≤◌, ◌<◌, ◌+◌, ℕ, List, ◌∷◌, true, false, nat_eq, slice_index_or, length};
ghost use Rattle.std.specs.Prelude.{drop, slice_index, IfSome};
ghost use Rattle.std.specs.List.{starts_with};
ghost use Rattle.death_spec.specs.Marks.{rows, number_of, is_same, front_in, front_of, front_len, mark_of, is_mark};
ghost use Rattle.death_spec.specs.Marks.{begins, place_of, is_in, is_blank, is_of_name, run};
ghost use Rattle.death_spec.specs.declared.Class.TheVariants.{Line};
ghost use Rattle.death.specs.Rows.{plain, Covers};

use death_spec::{Class, Mark, WORDS};
use memchr::memchr;

fn number_of(mark: Mark) -> u8
    ensures { result ≡ number_of mark }
{
    mark as u8
}

fn is_same(a: Mark, b: Mark) -> bool
    ensures { result ≡ is_same a b }
{
    number_of(a) == number_of(b)
}

// The first byte mostly decides.
pub fn starts_with(text: &[u8], words: &[u8]) -> bool
    ensures { result ≡ starts_with nat_eq text.now words.now }
{
    match (text.first(), words.first()) {
        (Some(a), Some(b)) => *a == *b && text.starts_with(words),
        _ => text.starts_with(words),
    }
}

fn front_in(rows: &[(Mark, &[u8])], text: &[u8]) -> Option<(Mark, usize)>
    ensures front { result ≡ front_in (plain rows.now) text.now }
    ensures within { IfSome result (λ front. front.1 ≤ length text.now) }
{
    for row in rows {
        if starts_with(text, row.1) {
            return Some((row.0, row.1.len()));
        }
    }
    None
}

/// The mark of the first row whose words the text begins with, and how many bytes these have.
#[tactic(auto, unfolding(death_spec::specs::Marks::front_of))]
fn front_of(text: &[u8]) -> Option<(Mark, usize)>
    ensures front { result ≡ front_of text.now }
    ensures within { IfSome result (λ front. front.1 ≤ length text.now) }
{
    front_in(WORDS, text)
}

fn add_all(firsts: &mut [bool])
    ensures { (b : ℕ) → b < length firsts.old → slice_index_or firsts.new b false ≡ true }
{
    let mut at = 0;
    'bytes: while at < firsts.len() {
        firsts[at] = true;
        at += 1;
    }
}

// Adds the byte by which these words begin.
fn add_first(firsts: &mut [bool], words: &[u8])
    requires { length firsts.old ≡ 256 }
    ensures others { (b : ℕ) → b < 256 → slice_index_or firsts.new b false ≡ false
        → slice_index_or firsts.old b false ≡ false }
    ensures words { (b : ℕ) (bs : List ℕ) → b < 256 → slice_index_or firsts.new b false ≡ false
        → starts_with nat_eq (b ∷ bs) words.now ≡ false }
{
    match words.first() {
        Some(b) => firsts[usize::from(*b)] = true,
        None => add_all(firsts),
    }
}

fn firsts_of(rows: &[(Mark, &[u8])]) -> [bool; 256]
    ensures { Covers (plain rows.now) result }
{
    let mut firsts = [false; 256];
    for row in rows {
        add_first(&mut firsts, row.1);
    }
    firsts
}

/// The bytes by which the words begin: most lines begin with none of them.
pub fn firsts() -> [bool; 256]
    ensures { Covers rows result }
{
    firsts_of(WORDS)
}

/// What `mark_of` answers, by the first byte if no words begin with it.
pub fn mark_by(firsts: &[bool; 256], text: &[u8]) -> Option<Mark>
    requires { Covers rows firsts.now }
    ensures { result ≡ mark_of text.now }
{
    if 0 < text.len() && !firsts[usize::from(text[0])] {
        None
    } else {
        mark_of(text)
    }
}

/// How many bytes the words have that the text begins with, or 0.
pub fn front_len(text: &[u8]) -> usize
    ensures len { result ≡ front_len text.now }
    ensures within { result ≤ length text.now }
{
    match front_of(text) {
        Some((_, len)) => len,
        None => 0,
    }
}

pub fn is_mark(found: Option<Mark>, mark: Mark) -> bool
    ensures { result ≡ is_mark mark found }
{
    match found {
        Some(found) => is_same(found, mark),
        None => false,
    }
}

/// The mark of the first row whose words the text begins with.
pub fn mark_of(text: &[u8]) -> Option<Mark>
    ensures { result ≡ mark_of text.now }
{
    match front_of(text) {
        Some((mark, _)) => Some(mark),
        None => None,
    }
}

pub fn begins(text: &[u8], mark: Mark) -> bool
    ensures { result ≡ begins mark text.now }
{
    is_mark(mark_of(text), mark)
}

/// What stands from a place on.
pub fn tail(text: &[u8], at: usize) -> &[u8]
    requires { at ≤ length text.now }
    ensures { result.now ≡ drop at text.now }
{
    &text[at..]
}

/// The first place at which a word of a mark stands, or the length.
pub fn place_of(text: &[u8], mark: Mark) -> usize
    ensures place { result ≡ place_of mark text.now }
    ensures within { result ≤ length text.now }
{
    let mut at = 0;
    'bytes: while at < text.len() {
        if begins(tail(text, at), mark) {
            return at;
        }
        at += 1;
    }
    at
}

pub fn is_blank(b: u8) -> bool
    ensures { result ≡ is_blank b }
{
    b == b' ' || b == b'\t'
}

fn is_of_name(b: u8) -> bool
    ensures { result ≡ is_of_name b }
{
    !(is_blank(b) || b == b'+' || b == b'(' || b == b')')
}

fn is_in(b: u8, class: Class) -> bool
    ensures { result ≡ is_in class b }
{
    match class {
        Class::Line => b != b'\n',
        Class::Blank => is_blank(b),
        Class::Word => !is_blank(b),
        Class::Name => is_of_name(b),
        Class::Symbol => is_of_name(b) && b != b'.',
        Class::Digit => 48 <= b && b <= 57,
        Class::Number => (48 <= b && b <= 57) || b == b'.',
        Class::Colonless => !(is_blank(b) || b == b':'),
        Class::Bracketed => b != b']',
        Class::Parameter => 32 <= b && b <= 63,
    }
}

/// How many bytes at the front are of a class.
pub fn run(text: &[u8], class: Class) -> usize
    ensures run { result ≡ run class text.now }
    ensures within { result ≤ length text.now }
{
    let mut len = 0;
    'bytes: while len < text.len() && is_in(text[len], class) {
        len += 1;
    }
    len
}

/// The length of the first line.
pub fn line_len(text: &[u8]) -> usize
    ensures len { result ≡ run Line text.now }
    ensures within { result ≤ length text.now }
{
    match memchr(b'\n', text) {
        Some(len) => len,
        None => text.len(),
    }
}

/// A place, and how many bytes from it on are of a class.
pub fn run_from(text: &[u8], from: usize, class: Class) -> usize
    ensures end { result ≡ from + run class (drop from text.now) }
    ensures within { from ≤ length text.now → result ≤ length text.now }
    ensures small { result ≤ from + length text.now }
{
    if from <= text.len() {
        from + run(tail(text, from), class)
    } else {
        from
    }
}

/// The byte at a place, or 0 past the end.
pub fn byte_at(text: &[u8], at: usize) -> u8
    ensures byte { result ≡ slice_index text.now at }
    ensures within { 0 < result → at < length text.now }
{
    if at < text.len() { text[at] } else { 0 }
}
