// Words by a table of keys.
ghost use Rattle.std.specs.Prelude.{◌≡◌, ◌<◌, ◌^◌, ◌==◌, [], false, length, bytes_eq, position, MatchOption, IfSome, List, ℕ};
ghost use Rattle.std.specs.Borrow.{Bor};
ghost use Rattle.std.specs.Option.{option_copied};
ghost use Rattle.std.specs.List.{list_any};
ghost use Rattle.grammar_spec.specs.Words.{text_place, value_text, value_of, word_fault, first_fault, given, texts, IsSplit};

use crate::ParamFault;
use crate::numbers::{behind, number};

/// A key whose value is one of these texts; none where the key is empty.
#[derive(Clone, Copy)]
pub struct Choice {
    pub key: &'static str,
    pub texts: &'static [&'static str],
    ghost few: { length texts.now < 2 ^ 32 },
}

fn place_of(choices: &[&str], text: &str) -> Option<usize>
    ensures place { result ≡ position (λ (choice : Bor (List ℕ)). bytes_eq choice.now text.now) choices.now }
    ensures within { IfSome result (λ place. place < length choices.now) }
{
    choices.iter().position(|choice| *choice == text)
}

/// The keys that words may give.
#[derive(Clone, Copy)]
pub struct Keys {
    /// What may stand in front of each key; empty where nothing may.
    pub prefix: &'static str,
    pub names: &'static [&'static str],
    /// The keys whose values are texts; all others' are numbers.
    pub first: Choice,
    pub second: Choice,
    ghost few: { length names.now < 2 ^ 32 },
}

impl Choice {
    ghost use Rattle.ramoops_layout.specs.Keys.{choice_of};

    // The place of a text among its own.
    fn place(&self, text: &str) -> Option<u32>
        ensures { result ≡ text_place (choice_of self.now) text.now }
    {
        match place_of(self.texts, text) {
            Some(place) => Some(place as u32),
            None => None,
        }
    }
}

impl Keys {
    ghost use Rattle.ramoops_layout.specs.Keys.{table_of};

    // A word's key, without the prefix, and the text of its value.
    fn split<'a>(&self, word: &'a str) -> Option<(&'a str, &'a str)>
        ensures { MatchOption result (list_any (λ c. c == 61) word.now ≡ false)
            (λ parts. IsSplit (table_of self.now) word.now parts.0.now parts.1.now) }
    {
        match word.split_once('=') {
            Some((name, value)) => Some((behind(name, self.prefix).unwrap_or(name), value)),
            None => None,
        }
    }

    fn contains(&self, name: &str) -> bool
        ensures { result ≡ list_any (λ key. bytes_eq key name.now) (table_of self.now).names }
    {
        self.names.contains(&name)
    }

    // The text of the value that the words give a key.
    fn value<'a>(&self, words: &'a [String], key: &str) -> Option<&'a str>
        ensures { option_copied result ≡ value_text (table_of self.now) (texts words.now) key.now }
    {
        for word in words {
            if let Some((own, value)) = self.split(word) {
                if key == own {
                    return Some(value);
                }
            }
        }
        None
    }

    // The number that a key's value writes.
    fn value_number(&self, key: &str, text: &str) -> Option<u32>
        ensures { result ≡ value_of (table_of self.now) key.now text.now }
    {
        if key == self.first.key {
            self.first.place(text)
        } else if key == self.second.key {
            self.second.place(text)
        } else {
            number(text)
        }
    }

    fn word_fault(&self, earlier: &[String], word: &str, place: u32) -> Option<ParamFault>
        ensures { result ≡ word_fault (table_of self.now) (texts earlier.now) place word.now }
    {
        let Some((key, text)) = self.split(word) else {
            return Some(ParamFault::UnknownKey(place));
        };
        if !self.contains(key) {
            return Some(ParamFault::UnknownKey(place));
        }
        if self.value(earlier, key).is_some() {
            return Some(ParamFault::Twice(place));
        }
        if self.value_number(key, text).is_none() {
            return Some(ParamFault::NotANumber(place));
        }
        None
    }

    /// The fault of the first word that is no `key=value` of these keys, repeats a key or gives no number.
    pub fn first_fault(&self, words: &[String]) -> Option<ParamFault>
        ensures { result ≡ first_fault (table_of self.now) [] (texts words.now) }
    {
        for (i, word) in words.iter().enumerate() {
            if let Some(fault) = self.word_fault(&words[..i], word, i as u32) {
                return Some(fault);
            }
        }
        None
    }

    /// The number that the words give a key; of a choice, its place.
    pub fn given(&self, words: &[String], key: &str) -> Option<u32>
        ensures { result ≡ given (table_of self.now) (texts words.now) key.now }
    {
        match self.value(words, key) {
            Some(text) => self.value_number(key, text),
            None => None,
        }
    }
}
