//! Takes the plain tokens of a text, one at a time. What is not plain gives none.
#![tactic(auto, using(crate::proofs::LexLemmas::reading), unfolding(json::specs::Lex::lex, json::specs::Lex::punctuate, json::specs::Word::word))]

ghost use Rattle.std.specs.Prelude.{◌≡◌, ◌+◌, ◌<◌, ◌≤◌, ◌∷◌, ℕ, List, Some, length, drop, get_or, IfSome, decimal, true, ◌||◌, ◌++◌};
ghost use Rattle.std.specs.Str.{IsCharBoundary};
ghost use Rattle.std.specs.Char.{is_ascii_digit};
ghost use Rattle.json.specs.Word.{ends_word, is_operator, is_space};
ghost use Rattle.json.specs.Lex.{between, in_word, lex, token as lexeme};
ghost use Rattle.json.specs.Reads.{token_of};
ghost use Rattle.json.specs.Token.{number};
ghost use Rattle.serde_json.specs.Data.{unsigned};
ghost use Rattle.serde_json.specs.Read.{number_of};
ghost use Rattle.json.specs.Cursor.{is_leaf};
ghost use Rattle.mv_tokens.specs.inside.Plain.{GoesOn, Steps};

use crate::run::plain_end;
use crate::whole::whole_at;
use json::Token;

/// Takes the token that is next behind a place, and gives where the text goes on.
#[inline(always)]
pub(crate) fn plain_token<'a>(text: &'a str, from: usize) -> Option<(Token<'a>, usize)>
    requires place { IsCharBoundary text.now from }
    ensures { IfSome result (λ step. Steps text.now from (token_of step.0) step.1) }
{
    let bytes = text.as_bytes();
    let at = past_blanks(text, from);
    if at == bytes.len() {
        return None;
    }
    match bytes[at] {
        b'"' => plain_string(text, at),
        b'{' => Some((Token::BeginObject, at + 1)),
        b'[' => Some((Token::BeginArray, at + 1)),
        b'}' => Some((Token::EndObject, value_end(text, at + 1)?)),
        b']' => Some((Token::EndArray, value_end(text, at + 1)?)),
        b'0'..=b'9' => {
            let (_, digits, on) = plain_number(text, at)?;
            Some((Token::Number(digits), on))
        }
        b'n' => plain_word(text, at, b"null", Token::Null),
        b't' => plain_word(text, at, b"true", Token::Bool(true)),
        b'f' => plain_word(text, at, b"false", Token::Bool(false)),
        _ => None,
    }
}

/// The place of the next byte that is no blank, or the end.
#[inline(always)]
pub(crate) fn past_blanks(text: &str, from: usize) -> usize
    requires place { IsCharBoundary text.now from }
    ensures lexemes { lex between (drop result text.now) ≡ lex between (drop from text.now) }
    ensures place { IsCharBoundary text.now result }
{
    let bytes = text.as_bytes();
    let mut at = from;
    while at < bytes.len() && is_blank(bytes[at]) {
        at += 1;
    }
    at
}

/// Whether a byte is a blank.
#[inline(always)]
fn is_blank(byte: u8) -> bool
    ensures { result ≡ is_space byte }
{
    // Most bytes that are asked about are none, and above all of them.
    byte <= b' ' && matches!(byte, b' ' | b'\t' | b'\n' | b'\r')
}

/// Where the text goes on behind a value, as at its beginning: at the next key or value behind a comma, or at what closes. A number or a
/// word ends there.
#[inline(always)]
fn value_end(text: &str, end: usize) -> Option<usize>
    requires place { IsCharBoundary text.now end }
    ensures on { IfSome result (λ at. GoesOn text.now end at) }
    ensures word { IfSome result (λ _. ends_word (drop end text.now) ≡ true) }
{
    let bytes = text.as_bytes();
    let mut at = end;
    if at < bytes.len() && is_blank(bytes[at]) {
        at = past_blanks(text, at + 1);
    }
    if at == bytes.len() {
        return Some(at);
    }
    if bytes[at] == b'}' || bytes[at] == b']' {
        return Some(at);
    }
    if bytes[at] != b',' {
        return None;
    }
    let next = past_blanks(text, at + 1);
    if next == bytes.len() || bytes[next] != b'"' {
        return None;
    }
    Some(next)
}

/// Takes a text that begins at a quote and has no escape, or a key.
#[inline(always)]
fn plain_string<'a>(text: &'a str, at: usize) -> Option<(Token<'a>, usize)>
    requires within { at < length text.now }
    requires quote { get_or text.now at 0 ≡ 34 }
    ensures { IfSome result (λ step. Steps text.now at (token_of step.0) step.1) }
{
    let bytes = text.as_bytes();
    let start = at + 1;
    let stop = plain_end(bytes, start);
    if stop == bytes.len() || bytes[stop] != b'"' {
        return None;
    }
    let string = &text[start..stop];
    let next = past_blanks(text, stop + 1);
    if next < bytes.len() && bytes[next] == b':' {
        return Some((Token::Key(string), next + 1));
    }
    Some((Token::String(string), value_end(text, next)?))
}

/// Takes the whole number that is next behind a place, where it has no sign and few digits, and gives where the text goes on.
#[inline(always)]
pub(crate) fn plain_whole(text: &str, from: usize) -> Option<(u64, usize)>
    requires place { IsCharBoundary text.now from }
    ensures steps { IfSome result (λ step. Steps text.now from (number (decimal step.0)) step.1) }
    ensures is { IfSome result (λ step. number_of (decimal step.0) ≡ Some (unsigned step.0)) }
{
    let bytes = text.as_bytes();
    let at = past_blanks(text, from);
    if at == bytes.len() || !bytes[at].is_ascii_digit() {
        return None;
    }
    let (number, _, on) = plain_number(text, at)?;
    Some((number, on))
}

/// Takes a whole number that has no sign, and few digits: gives it, its digits, and where the text goes on.
#[inline(always)]
fn plain_number<'a>(text: &'a str, at: usize) -> Option<(u64, &'a str, usize)>
    requires place { IsCharBoundary text.now at }
    requires within { at < length text.now }
    requires digit { is_ascii_digit (get_or text.now at 0) ≡ true }
    ensures steps { IfSome result (λ step. Steps text.now at (number (decimal step.0)) step.2) }
    ensures digits { IfSome result (λ step. step.1.now ≡ decimal step.0) }
    ensures is { IfSome result (λ step. number_of (decimal step.0) ≡ Some (unsigned step.0)) }
{
    let bytes = text.as_bytes();
    let (number, end) = whole_at(bytes, at)?;
    // What follows is no part of another character.
    if end < bytes.len() && !bytes[end].is_ascii() {
        return None;
    }
    Some((number, &text[at..end], value_end(text, end)?))
}

/// Takes one of the three words.
#[inline(always)]
fn plain_word<'a>(
    text: &'a str,
    at: usize,
    name: &[u8],
    token: Token<'a>,
) -> Option<(Token<'a>, usize)>
    requires within { at < length text.now }
    requires word { (rest : List ℕ) → ends_word rest ≡ true
        → lex between (name.now ++ rest) ≡ lexeme (token_of token) ∷ lex in_word rest }
    requires leaf { is_leaf (token_of token) ≡ true }
    ensures { IfSome result (λ step. Steps text.now at (token_of step.0) step.1) }
{
    let bytes = text.as_bytes();
    let rest = &bytes[at..];
    if !rest.starts_with(name) {
        return None;
    }
    let end = at + name.len();
    // What follows is no part of another character.
    if end < bytes.len() && !bytes[end].is_ascii() {
        return None;
    }
    Some((token, value_end(text, end)?))
}
