// What is wrong with words.
ghost use Rattle.std.specs.Prelude.{◌≡◌};
ghost use Rattle.grammar_spec.specs.Faults.{fault_number};

use thiserror::Error;

/// What is wrong with the word at this place of the words, from 0.
#[derive(Clone, Copy, Debug, PartialEq, Eq, Error)]
pub enum ParamFault {
    /// No key, or no `=`.
    #[error("word {0} has no key")]
    UnknownKey(u32),
    /// The key stood before.
    #[error("word {0} repeats a key")]
    Twice(u32),
    /// The value is not a number below 2^32; of `order`, no order of zones.
    #[error("word {0} has no number")]
    NotANumber(u32),
}

impl ParamFault {
    /// The fault's number in the tool's texts.
    pub fn number(self) -> u32
        ensures { result ≡ fault_number self }
    {
        match self {
            ParamFault::UnknownKey(_) => 1,
            ParamFault::Twice(_) => 2,
            ParamFault::NotANumber(_) => 3,
        }
    }
}
