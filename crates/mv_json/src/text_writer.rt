//! Writes JSON behind what a buffer holds, a token at a time.
//!
//! It does what the writer of the `json` library does, and makes no room ahead of what it writes: so it may write behind a full
//! buffer, and there is nothing to be copied in the end.

ghost use Rattle.std.specs.Prelude.{◌≡◌, ◌<◌, ◌++◌, [], ◌∷◌, cond, decimal, false, IsUtf8, OnOk};
ghost use Rattle.mv_json.specs.Words.{Token, key};
ghost use Rattle.mv_json.specs.Tokens.{Puts};
ghost use Rattle.json.specs.Print.{escape, quoted};
ghost use Rattle.json.specs.Token.{begin_array, begin_object, boolean, end_array, end_object, null, number, string};

use crate::plain::is_plain;
use json::Writer;
use std::alloc::AllocError;
use std::marker::Model;

/// JSON that is written behind what a buffer holds. It places the commas and the colons, and leaves the nesting to its caller.
#[derive(Drop)]
pub struct TextWriter {
    /// What the buffer held, and behind it the text.
    bytes: Vec<u8>,
    /// Where the text begins.
    start: usize,
    /// Whether a value has just ended, so that a comma stands before the next.
    after_value: bool,
}

impl Model for TextWriter {
    ghost use Rattle.std.specs.Prelude.{◌≤◌, IsUtf8, drop, length, take};
    ghost use Rattle.mv_json.specs.Tokens.{Written};
    ghost use Rattle.mv_json.specs.inside.Writing.{written_code};

    ghost Value = { Written };

    ghost coded = { written_code };

    ghost view = { λ w. record {
      before = take w.start w.bytes.items;
      text = drop w.start w.bytes.items;
      after_value = w.after_value;
    } };

    ghost invariant = { λ w. (w.start ≤ length w.bytes.items) × IsUtf8 (drop w.start w.bytes.items) };
}

impl TextWriter {
    /// A writer behind what a buffer holds.
    pub fn new(bytes: Vec<u8>) -> TextWriter
        ensures before { result.before ≡ bytes.items }
        ensures text { result.text ≡ [] }
        ensures after_value { result.after_value ≡ false }
    {
        TextWriter {
            start: bytes.len(),
            bytes,
            after_value: false,
        }
    }

    /// The buffer, with what was written where that is to stay, and else with what it held.
    pub fn into_buffer(self, stays: bool) -> Vec<u8>
        ensures items { result.items ≡ self.before ++ cond stays self.text [] }
        ensures utf8 { IsUtf8 self.text }
    {
        let TextWriter {
            mut bytes,
            start,
            ..
        } = self;
        if !stays {
            bytes.truncate(start);
        }
        bytes
    }

    /// Begins an object.
    #[tactic(auto, using(crate::proofs::TokenLemmas::one_put))]
    pub fn begin_object(&mut self) -> Result<(), AllocError>
        ensures { Puts result self.old self.new (begin_object ∷ []) }
    {
        self.separate()?;
        self.after_value = false;
        self.put(b'{')
    }

    /// Ends an object.
    #[tactic(auto, using(crate::proofs::TokenLemmas::end_put))]
    pub fn end_object(&mut self) -> Result<(), AllocError>
        ensures { Puts result self.old self.new (end_object ∷ []) }
    {
        self.after_value = true;
        self.put(b'}')
    }

    /// Begins an array.
    #[tactic(auto, using(crate::proofs::TokenLemmas::one_put))]
    pub fn begin_array(&mut self) -> Result<(), AllocError>
        ensures { Puts result self.old self.new (begin_array ∷ []) }
    {
        self.separate()?;
        self.after_value = false;
        self.put(b'[')
    }

    /// Ends an array.
    #[tactic(auto, using(crate::proofs::TokenLemmas::end_put))]
    pub fn end_array(&mut self) -> Result<(), AllocError>
        ensures { Puts result self.old self.new (end_array ∷ []) }
    {
        self.after_value = true;
        self.put(b']')
    }

    /// Writes the key of a member.
    ///
    /// It is inlined, so that a name that the caller spells out is not tested at run time.
    #[inline(always)]
    #[tactic(auto, using(crate::proofs::TokenLemmas::key_put))]
    pub fn key(&mut self, name: &str) -> Result<(), AllocError>
        ensures { Puts result self.old self.new (key name.now ∷ []) }
    {
        self.separate()?;
        self.after_value = false;
        self.quote(name)?;
        self.put(b':')
    }

    /// Writes the key of a member whose name needs no escape, without a look at it.
    #[inline(always)]
    #[tactic(auto, using(crate::proofs::TokenLemmas::key_put))]
    pub fn plain_key(&mut self, name: &str) -> Result<(), AllocError>
        requires plain { escape name.now ≡ name.now }
        ensures { Puts result self.old self.new (key name.now ∷ []) }
    {
        self.separate()?;
        self.after_value = false;
        self.quote_plain(name)?;
        self.put(b':')
    }

    /// Writes a text.
    #[tactic(auto, using(crate::proofs::TokenLemmas::one_put))]
    pub fn string(&mut self, text: &str) -> Result<(), AllocError>
        ensures { Puts result self.old self.new (string text.now ∷ []) }
    {
        self.separate()?;
        self.after_value = true;
        self.quote(text)
    }

    /// Writes a text that needs no escape, without a look at it.
    #[inline(always)]
    #[tactic(auto, using(crate::proofs::TokenLemmas::one_put))]
    pub fn plain_string(&mut self, text: &str) -> Result<(), AllocError>
        requires plain { escape text.now ≡ text.now }
        ensures { Puts result self.old self.new (string text.now ∷ []) }
    {
        self.separate()?;
        self.after_value = true;
        self.quote_plain(text)
    }

    /// Writes a whole number.
    #[inline(always)]
    #[tactic(auto, using(crate::proofs::TokenLemmas::one_put))]
    pub fn u64(&mut self, n: u64) -> Result<(), AllocError>
        ensures { Puts result self.old self.new (number (decimal n) ∷ []) }
    {
        self.separate()?;
        self.after_value = true;
        let mut digits = itoa::Buffer::new();
        self.append(digits.format(n))
    }

    /// Writes true or false.
    #[tactic(auto, using(crate::proofs::TokenLemmas::one_put))]
    pub fn boolean(&mut self, truth: bool) -> Result<(), AllocError>
        ensures { Puts result self.old self.new (boolean truth ∷ []) }
    {
        self.separate()?;
        self.after_value = true;
        self.append(if truth { "true" } else { "false" })
    }

    /// Writes `null`.
    #[tactic(auto, using(crate::proofs::TokenLemmas::one_put))]
    pub fn null(&mut self) -> Result<(), AllocError>
        ensures { Puts result self.old self.new (null ∷ []) }
    {
        self.separate()?;
        self.after_value = true;
        self.append("null")
    }

    /// Writes the comma behind a value that has just ended.
    #[inline(always)]
    fn separate(&mut self) -> Result<(), AllocError>
        ensures before { self.new.before ≡ self.old.before }
        ensures after_value { self.new.after_value ≡ self.old.after_value }
        ensures text { OnOk result
            (self.new.text ≡ self.old.text ++ cond self.old.after_value (44 ∷ []) []) }
    {
        if self.after_value {
            return self.put(b',');
        }
        Ok(())
    }

    /// Writes a text in quotes.
    #[inline(always)]
    fn quote(&mut self, text: &str) -> Result<(), AllocError>
        ensures before { self.new.before ≡ self.old.before }
        ensures after_value { self.new.after_value ≡ self.old.after_value }
        ensures text { OnOk result (self.new.text ≡ self.old.text ++ quoted text.now) }
    {
        if !is_plain(text.as_bytes()) {
            return self.escape(text);
        }
        self.quote_plain(text)
    }

    /// Writes a text in quotes that needs no escape.
    #[inline(always)]
    fn quote_plain(&mut self, text: &str) -> Result<(), AllocError>
        requires plain { escape text.now ≡ text.now }
        ensures before { self.new.before ≡ self.old.before }
        ensures after_value { self.new.after_value ≡ self.old.after_value }
        ensures text { OnOk result (self.new.text ≡ self.old.text ++ quoted text.now) }
    {
        self.put(b'"')?;
        self.append(text)?;
        self.put(b'"')
    }

    /// Writes a text in quotes, and an escape for each character that needs one.
    #[cold]
    #[tactic(auto, using(crate::proofs::TokenLemmas::one_printed))]
    #[inline(never)]
    fn escape(&mut self, text: &str) -> Result<(), AllocError>
        ensures before { self.new.before ≡ self.old.before }
        ensures after_value { self.new.after_value ≡ self.old.after_value }
        ensures text { OnOk result (self.new.text ≡ self.old.text ++ quoted text.now) }
    {
        let mut writer = Writer::new(Vec::new(*self.bytes.allocator()));
        writer.string(text)?;
        let Ok(escaped) = String::from_utf8(writer.into_inner()) else {
            unreachable!();
        };
        self.append(escaped.as_str())
    }

    /// Writes a character of ASCII as it is.
    #[inline(always)]
    fn put(&mut self, byte: u8) -> Result<(), AllocError>
        requires ascii { byte < 128 }
        ensures before { self.new.before ≡ self.old.before }
        ensures after_value { self.new.after_value ≡ self.old.after_value }
        ensures text { OnOk result (self.new.text ≡ self.old.text ++ byte ∷ []) }
    {
        self.bytes.reserve(1)?;
        self.bytes.push_reserved(byte);
        Ok(())
    }

    /// Writes bytes as they are.
    #[inline(always)]
    fn append(&mut self, text: &str) -> Result<(), AllocError>
        ensures before { self.new.before ≡ self.old.before }
        ensures after_value { self.new.after_value ≡ self.old.after_value }
        ensures text { OnOk result (self.new.text ≡ self.old.text ++ text.now) }
    {
        self.bytes.extend_from_slice(text.as_bytes())
    }
}
