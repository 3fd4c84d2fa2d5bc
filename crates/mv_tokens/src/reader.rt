//! The reader of tokens.
#![tactic(auto, using(crate::proofs::LexLemmas::reading), unfolding(json::specs::Lex::lex, json::specs::Lex::punctuate))]

ghost use Rattle.std.specs.Prelude.{◌≡◌, ◌≢◌, ◌≤◌, ◌∷◌, [], ℕ, List, Some, length, IfSome, IfNone, IsTrue, IsFalse, MatchOption};
ghost use Rattle.std.specs.Str.{IsCharBoundary};
ghost use Rattle.json.specs.Lex.{tokens};
ghost use Rattle.json.specs.Reads.{token_of};
ghost use Rattle.json.specs.Scratch.{room};
ghost use Rattle.json.specs.Token.{Token as AToken, begin_object, string, number};
ghost use Rattle.serde_json.specs.Data.{unsigned};
ghost use Rattle.serde_json.specs.Read.{number_of};
ghost use Rattle.mv_tokens.specs.inside.Plain.{tokens_from};
ghost use Rattle.mv_tokens.specs.inside.Reader.{HasRoom};

use crate::plain::{past_blanks, plain_token, plain_whole};
use crate::whole::whole_of;
use json::{Scratch, Token};
use std::marker::Model;

/// Hands out the tokens of a text. A clause sees those that are still to come.
#[derive(Drop)]
pub struct Reader<'a> {
    /// The text.
    text: &'a str,
    /// Where its next token is looked for: at its end, once the library reads.
    at: usize,
    /// The memory for the library's reader, until that reads.
    scratch: Option<&'a mut Scratch>,
    /// The library's reader, from the first token on that is not plain.
    library: Option<json::Reader<'a>>,
}

impl<'a> Model for Reader<'a> {
    ghost use Rattle.std.specs.Prelude.{List};
    ghost use Rattle.json.specs.Token.{Token as SpecToken, tokens_code};

    ghost Value = { List SpecToken };

    ghost coded = { tokens_code };

    ghost use Rattle.mv_tokens.specs.inside.Reader.{tokens_left, IsReader};

    ghost view = { tokens_left };

    ghost invariant = { IsReader };
}

impl<'a> Reader<'a> {
    /// A reader of a text. The memory is for texts with escapes, which are written there: it has room for the text.
    #[inline(always)]
    pub fn new(text: &'a str, scratch: &'a mut Scratch) -> Reader<'a>
        requires room { length text.now ≤ room scratch.old }
        ensures { result ≡ tokens text.now }
    {
        Reader {
            text,
            at: 0,
            scratch: Some(scratch),
            library: None,
        }
    }

    /// The next token; none at the end, and behind a token that is no JSON.
    #[inline(always)]
    pub fn next(&mut self) -> Option<Token<'a>>
        ensures { MatchOption result ((self.old ≡ []) × (self.new ≡ []))
            (λ token. self.old ≡ token_of token ∷ self.new) }
    {
        match plain_token(self.text, self.at) {
            Some((token, at)) => {
                self.at = at;
                Some(token)
            }
            None => self.next_by_library(),
        }
    }

    /// Whether there is no further token. Where there is one, it is taken.
    #[inline(always)]
    pub fn is_done(&mut self) -> bool
        ensures done { IsTrue result → self.old ≡ [] }
        ensures more { IsFalse result → self.old ≢ [] }
    {
        if self.at == self.text.len() && self.library.is_none() {
            return true;
        }
        self.next().is_none()
    }

    /// Takes the next token, and says whether it is the brace that opens an object.
    #[inline(always)]
    pub fn takes_opening(&mut self) -> bool
        ensures opening { IsTrue result → self.old ≡ begin_object ∷ self.new }
        ensures other { IsFalse result → (rest : List AToken) → self.old ≢ begin_object ∷ rest }
    {
        matches!(self.next(), Some(Token::BeginObject))
    }

    /// Takes the next token, and gives its text, where it is one.
    #[inline(always)]
    pub fn take_text(&mut self) -> Option<&'a str>
        ensures text { IfSome result (λ text. self.old ≡ string text.now ∷ self.new) }
        ensures none { IfNone result ((text : List ℕ) (rest : List AToken) → self.old ≢ string text ∷ rest) }
    {
        match self.next() {
            Some(Token::String(text)) => Some(text),
            _ => None,
        }
    }

    /// Takes the next token, and gives its number, where it is a whole one of 64 bits and has no sign.
    #[inline(always)]
    pub fn take_whole(&mut self) -> Option<u64>
        ensures { IfSome result (λ n. (text : List ℕ)
            × (self.old ≡ number text ∷ self.new) × (number_of text ≡ Some (unsigned n))) }
    {
        match plain_whole(self.text, self.at) {
            Some((number, at)) => {
                self.at = at;
                Some(number)
            }
            None => self.take_any_whole(),
        }
    }

    /// Does what `take_whole` does, where the number need not be plain.
    fn take_any_whole(&mut self) -> Option<u64>
        ensures { IfSome result (λ n. (text : List ℕ)
            × (self.old ≡ number text ∷ self.new) × (number_of text ≡ Some (unsigned n))) }
    {
        match self.next() {
            Some(Token::Number(text)) => whole_of(text),
            _ => None,
        }
    }

    /// The next token, by the library's reader.
    fn next_by_library(&mut self) -> Option<Token<'a>>
        ensures { MatchOption result ((self.old ≡ []) × (self.new ≡ []))
            (λ token. self.old ≡ token_of token ∷ self.new) }
    {
        if let Some(reader) = &mut self.library {
            return reader.next();
        }
        let rest = past_blanks(self.text, self.at);
        if rest == self.text.len() {
            return None;
        }
        let mut reader = library_reader(self.text, self.at, self.scratch.take());
        let token = reader.next();
        self.at = self.text.len();
        self.library = Some(reader);
        token
    }
}

/// The library's reader of what is left of a text.
fn library_reader<'a>(
    text: &'a str,
    at: usize,
    scratch: Option<&'a mut Scratch>,
) -> json::Reader<'a>
    requires place { IsCharBoundary text.now at }
    requires room { HasRoom scratch (length text.now) }
    ensures { result ≡ tokens_from text.now at }
{
    let Some(scratch) = scratch else {
        unreachable!()
    };
    let Ok(reader) = json::Reader::new(&text[at..], scratch) else {
        unreachable!()
    };
    reader
}
