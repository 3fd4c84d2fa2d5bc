//! The lines of codes are added to a text.

ghost use Rattle.std.specs.Prelude.{◌≡◌, ◌++◌, IfErr, OnErr, OnOk, map, string_bytes};
ghost use Rattle.mv_explain.specs.Explained.{Faults, lines_of};

use mv_explain::{ExplainFault, explain};
use std::alloc::Global;

/// Adds the lines of codes to a text. Where a word is no code, or memory is refused, the text is as it was.
pub fn push_explained<'a>(
    alloc: Global,
    text: &mut String,
    words: &[&'a str],
) -> Result<(), ExplainFault<'a>>
    ensures ok { OnOk result (string_bytes text.new
        ≡ string_bytes text.old ++ lines_of (map (λ word. word.now) words.now)) }
    ensures err { IfErr result (λ fault. Faults fault (map (λ word. word.now) words.now)) }
    ensures unchanged { OnErr result (string_bytes text.new ≡ string_bytes text.old) }
{
    let lines = explain(alloc, words)?;
    match text.push_str(lines.as_str()) {
        Ok(()) => Ok(()),
        Err(_) => Err(ExplainFault::Memory),
    }
}
