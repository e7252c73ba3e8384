// A line of JSON, written token by token.
ghost use Rattle.std.specs.Prelude.{◌≡◌, [], ◌∷◌, reverse, decimal, option_map, codes, IfOk, OnOk};
ghost use Rattle.json.specs.Token.{begin_object, end_object, begin_array, end_array, key, string, number, boolean, null};
ghost use Rattle.json.specs.Lex.{tokens};
ghost use Rattle.json.specs.Print.{print, IsPrintable};
ghost use Rattle.json.specs.Reads.{token_of};
ghost use Rattle.report_json.specs.Tokens.{onto, text_data, IsPlain, ArePlain};

use json::{Token, Writer};
use std::alloc::{AllocError, Global};
use std::marker::Model;

/// A line that is being written. Clauses see its tokens, the last first.
#[derive(Drop)]
pub struct Line {
    out: Writer,
}

impl Model for Line {
    ghost use Rattle.std.specs.Prelude.{List, reverse};
    ghost use Rattle.json.specs.Token.{Token, tokens_code};
    ghost use Rattle.report_json.specs.Tokens.{IsPlainLine};

    ghost Value = { List Token };

    ghost coded = { tokens_code };

    ghost view = { λ l. reverse l.out.tokens };

    ghost invariant = { λ l. IsPlainLine l.out };
}

#[tactic(auto, using(crate::proofs::Plain::lines))]
impl Line {
    /// An empty line with room for so many bytes.
    pub fn with_capacity(alloc: Global, capacity: usize) -> Result<Line, AllocError>
        ensures { IfOk result (λ line. line ≡ []) }
    {
        let bytes = Vec::with_capacity(alloc, capacity)?;
        Ok(Line {
            out: Writer::new(bytes),
        })
    }

    #[inline(always)]
    fn token(&mut self, token: Token<'_>) -> Result<(), AllocError>
        requires printable { IsPrintable (token_of token) }
        requires plain { IsPlain (token_of token) }
        ensures { OnOk result (self.new ≡ token_of token.entry ∷ self.old) }
    {
        self.out.token(token)
    }

    pub fn begin_object(&mut self) -> Result<(), AllocError>
        ensures { OnOk result (self.new ≡ begin_object ∷ self.old) }
    {
        self.token(Token::BeginObject)
    }

    pub fn end_object(&mut self) -> Result<(), AllocError>
        ensures { OnOk result (self.new ≡ end_object ∷ self.old) }
    {
        self.token(Token::EndObject)
    }

    pub fn begin_array(&mut self) -> Result<(), AllocError>
        ensures { OnOk result (self.new ≡ begin_array ∷ self.old) }
    {
        self.token(Token::BeginArray)
    }

    pub fn end_array(&mut self) -> Result<(), AllocError>
        ensures { OnOk result (self.new ≡ end_array ∷ self.old) }
    {
        self.token(Token::EndArray)
    }

    pub fn null(&mut self) -> Result<(), AllocError>
        ensures { OnOk result (self.new ≡ null ∷ self.old) }
    {
        self.token(Token::Null)
    }

    pub fn boolean(&mut self, value: bool) -> Result<(), AllocError>
        ensures { OnOk result (self.new ≡ boolean value ∷ self.old) }
    {
        self.token(Token::Bool(value))
    }

    pub fn string(&mut self, text: &str) -> Result<(), AllocError>
        ensures { OnOk result (self.new ≡ string text.now ∷ self.old) }
    {
        self.token(Token::String(text))
    }

    pub fn key(&mut self, name: &str) -> Result<(), AllocError>
        ensures { OnOk result (self.new ≡ key name.now ∷ self.old) }
    {
        self.token(Token::Key(name))
    }

    pub fn number(&mut self, n: u64) -> Result<(), AllocError>
        ensures { OnOk result (self.new ≡ number (decimal n) ∷ self.old) }
    {
        self.out.u64(n)
    }

    /// A member that is a number.
    pub fn count(&mut self, name: &str, n: u64) -> Result<(), AllocError>
        ensures { OnOk result (self.new ≡ number (decimal n) ∷ key name.now ∷ self.old) }
    {
        self.key(name)?;
        self.number(n)
    }

    /// A member that is true or false.
    pub fn flag(&mut self, name: &str, value: bool) -> Result<(), AllocError>
        ensures { OnOk result (self.new ≡ boolean value ∷ key name.now ∷ self.old) }
    {
        self.key(name)?;
        self.boolean(value)
    }

    /// A member that is a text.
    pub fn text(&mut self, name: &str, text: &str) -> Result<(), AllocError>
        ensures { OnOk result (self.new ≡ string text.now ∷ key name.now ∷ self.old) }
    {
        self.key(name)?;
        self.string(text)
    }

    /// A member that is a text or null.
    pub fn maybe_text(&mut self, name: &str, text: Option<&str>) -> Result<(), AllocError>
        ensures { OnOk result (self.new ≡ onto (text_data (option_map (λ t. t.now) text.entry)) (key name.now ∷ self.old)) }
    {
        self.key(name)?;
        match text {
            Some(text) => self.string(text),
            None => self.null(),
        }
    }

    /// A member that is null.
    pub fn none(&mut self, name: &str) -> Result<(), AllocError>
        ensures { OnOk result (self.new ≡ null ∷ key name.now ∷ self.old) }
    {
        self.key(name)?;
        self.null()
    }

    /// The text of the line.
    pub fn finish(self) -> Vec<u8>
        ensures compact { result.items ≡ print (reverse self) }
        ensures tokens { tokens result.items ≡ reverse self }
        ensures plain { ArePlain (reverse self) }
    {
        self.out.into_inner()
    }
}
