//! Tokens: of texts that are plain, of texts that the library reads from some place on, and of texts that are no JSON; and bytes that are
//! a text.

use json::{Scratch, Token};
use mv_tokens::{Reader, text_of, whole_of};
use std::alloc::Global;

/// The sum of the whole numbers of a text.
fn sum_of(text: &str, scratch: &mut Scratch) -> Option<u64> {
    scratch.reserve(text.len()).ok()?;
    let mut reader = Reader::new(text, scratch);
    let mut sum = 0u64;
    while let Some(token) = reader.next() {
        if let Token::Number(number) = token {
            sum = sum.checked_add(whole_of(number)?)?;
        }
    }
    Some(sum)
}

/// What a token is called.
fn name_of(token: &Token<'_>) -> &'static str {
    match token {
        Token::BeginObject => "{",
        Token::EndObject => "}",
        Token::BeginArray => "[",
        Token::EndArray => "]",
        Token::Key(_) => "key",
        Token::String(_) => "text",
        Token::Number(_) => "number",
        Token::Bool(true) => "true",
        Token::Bool(false) => "false",
        Token::Null => "null",
        Token::Bad => "bad",
    }
}

/// What a token holds, where it holds a text.
fn text_in<'a>(token: &Token<'a>) -> &'a str {
    match token {
        Token::Key(text) | Token::String(text) | Token::Number(text) => text,
        _ => "",
    }
}

/// Whether the tokens of a text are called so and hold these texts.
fn has_tokens(alloc: Global, text: &str, told: &[(&str, &str)]) -> bool {
    let mut scratch = Scratch::new(alloc);
    if scratch.reserve(text.len()).is_err() {
        return false;
    }
    let mut reader = Reader::new(text, &mut scratch);
    for (name, held) in told {
        let Some(token) = reader.next() else {
            return false;
        };
        if name_of(&token) != *name || text_in(&token) != *held {
            return false;
        }
    }
    reader.is_done()
}

#[test]
fn hands_out_plain_tokens(rt: HostRuntime) {
    let told = [
        ("{", ""),
        ("key", "a"),
        ("[", ""),
        ("text", "x y"),
        ("text", ""),
        ("]", ""),
        ("key", "b"),
        ("number", "120"),
        ("key", "c"),
        ("null", ""),
        ("key", "d"),
        ("true", ""),
        ("}", ""),
    ];
    for text in [
        "{\"a\":[\"x y\",\"\"],\"b\":120,\"c\":null,\"d\":true}",
        " { \"a\" : [ \"x y\" , \"\" ] ,\t\"b\" : 120 , \"c\":null, \"d\" :true }\r",
    ] {
        assert!(rt; has_tokens(rt.alloc(), text, &told));
    }
}

#[test]
fn hands_out_what_the_library_reads(rt: HostRuntime) {
    let text = "{\"a\":\"M\\u00fcller\",\"b\":-1,\"c\":false}";
    let told = [
        ("{", ""),
        ("key", "a"),
        ("text", "Müller"),
        ("key", "b"),
        ("number", "-1"),
        ("key", "c"),
        ("false", ""),
        ("}", ""),
    ];
    assert!(rt; has_tokens(rt.alloc(), text, &told));
    let lists = [
        ("[", ""),
        ("[", ""),
        ("]", ""),
        ("[", ""),
        ("text", "a"),
        ("]", ""),
        ("]", ""),
    ];
    assert!(rt; has_tokens(rt.alloc(), "[[],[\"a\"]]", &lists));
}

#[test]
fn hands_out_a_bad_token_at_a_fault(rt: HostRuntime) {
    for (text, told) in [
        ("01", &[("bad", "")][..]),
        ("nul", &[("bad", "")][..]),
        ("\"a", &[("bad", "")][..]),
        ("[1 2]", &[("[", ""), ("number", "1"), ("bad", "")][..]),
        ("[\"a\",]", &[("[", ""), ("text", "a"), ("bad", "")][..]),
        ("{\"a\":,}", &[("{", ""), ("key", "a"), ("bad", "")][..]),
    ] {
        assert!(rt; has_tokens(rt.alloc(), text, told));
    }
}

#[test]
fn adds_up_whole_numbers(rt: HostRuntime) {
    let mut scratch = Scratch::new(rt.alloc());
    assert!(rt; sum_of("[1,20,{\"a\":300}]", &mut scratch) == Some(321));
    assert!(rt; sum_of("[1,-20]", &mut scratch) == None);
    assert!(rt; sum_of("[18446744073709551615]", &mut scratch) == Some(u64::MAX));
    assert!(rt; sum_of("[18446744073709551616]", &mut scratch) == None);
}

#[test]
fn gives_a_text_for_utf8_alone(rt: HostRuntime) {
    // The letter of two bytes stands within the first bytes, and behind the first sixty-four.
    for text in [
        "Müller",
        "0123456789abcdef0123456789abcdef0123456789abcdef0123456789abcdefMüller",
    ] {
        let bytes = text.as_bytes();
        assert!(rt; text_of(bytes) == Some(text));
        let cut = bytes.len().saturating_sub(5);
        assert!(rt; text_of(&bytes[..cut]).is_none());
    }
}
