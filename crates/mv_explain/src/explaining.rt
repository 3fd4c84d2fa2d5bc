//! The lines of some codes.

ghost use Rattle.std.specs.Prelude.{◌≡◌, ◌++◌, IfOk, IfErr, None, map, option_map, string_bytes};
ghost use Rattle.mv_explain.specs.Explained.{Faults, first_unknown, line_of, lines_of};

use crate::sentence;
use std::alloc::{AllocError, Global};

/// Why codes are not explained.
#[derive(Clone, Copy, PartialEq, Eq)]
pub enum ExplainFault<'a> {
    /// The first of the words that is no code.
    NoCode(&'a str),
    /// Memory was refused.
    Memory,
}

/// The lines of these codes, in their order. Each is the code, a blank, its sentence and a line feed.
pub fn explain<'a>(alloc: Global, words: &[&'a str]) -> Result<String, ExplainFault<'a>>
    ensures known { IfOk result (λ _. first_unknown (map (λ word. word.now) words.now) ≡ None) }
    ensures lines { IfOk result (λ text.
        string_bytes text ≡ lines_of (map (λ word. word.now) words.now)) }
    ensures err { IfErr result (λ fault. Faults fault (map (λ word. word.now) words.now)) }
{
    if let Some(word) = unknown_in(words) {
        return Err(ExplainFault::NoCode(word));
    }
    let mut text = String::new(alloc);
    for word in words {
        if push_line(&mut text, word).is_err() {
            return Err(ExplainFault::Memory);
        }
    }
    Ok(text)
}

/// The first of these words that is no code.
fn unknown_in<'a>(mut words: &[&'a str]) -> Option<&'a str>
    ensures { option_map (λ word. word.now) result
        ≡ first_unknown (map (λ word. word.now) words.entry.now) }
{
    while let [word, rest @ ..] = words {
        if sentence(word).is_none() {
            return Some(word);
        }
        words = rest;
    }
    None
}

/// Adds the line of a word.
fn push_line(text: &mut String, word: &str) -> Result<(), AllocError>
    ensures { IfOk result (λ _. string_bytes text.new ≡ string_bytes text.old ++ line_of word.now) }
{
    text.push_str(word)?;
    text.push_str(" ")?;
    text.push_str(sentence(word).unwrap_or(""))?;
    text.push_str("\n")
}
