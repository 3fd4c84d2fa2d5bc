//! The sentence of a code.

ghost use Rattle.std.specs.Prelude.{◌≡◌, ◌==◌, map, option_map};
ghost use Rattle.std.specs.List.{after_first};
ghost use Rattle.mv_explain.specs.declared.sentences.TheConstants.{ROWS};
ghost use Rattle.mv_explain.specs.Sentences.{all_codes, code_in, sentence_in, sentence_of};

use crate::sentences::ROWS;

/// The sentence of a code, as `P3`: what it means, and what to do. A word that is no code has none.
#[tactic(auto, unfolding(crate::specs::Sentences::sentence_of))]
pub fn sentence(code: &str) -> Option<&'static str>
    ensures { option_map (λ text. text.now) result ≡ sentence_of code.now }
{
    sentence_in(&ROWS, code)
}

/// The codes that have a sentence are those of the definitions, each once, in their order.
pub fn codes_are_listed()
    ensures { map code_in (map (λ row. row.now) ROWS) ≡ all_codes }
{}

/// The sentence of a code in these rows.
fn sentence_in(mut rows: &[&'static str], code: &str) -> Option<&'static str>
    ensures { option_map (λ text. text.now) result
        ≡ sentence_in (map (λ row. row.now) rows.entry.now) code.now }
{
    while let [row, rest @ ..] = rows {
        let (name, told) = parts_of(row);
        if code == name {
            return Some(told);
        }
        rows = rest;
    }
    None
}

/// The code of a row, and its sentence.
#[tactic(auto, using(std::proofs::lemmas::Str::Pattern::split_once_first))]
fn parts_of(row: &'static str) -> (&'static str, &'static str)
    ensures code { result.0.now ≡ code_in row.now }
    ensures sentence { result.1.now ≡ after_first (λ byte. byte == 32) row.now }
{
    match row.split_once(' ') {
        Some(parts) => parts,
        None => (row, ""),
    }
}
