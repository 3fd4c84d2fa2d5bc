//! A number of turns is taken from words.

ghost use Rattle.std.specs.Prelude.{◌≡◌, ◌∷◌, ℕ, IfSome, List, None, codes, map, string_bytes};
ghost use Rattle.std.specs.Str.Parse.{IsNumeral};
ghost use Rattle.mv_words.specs.Words.{GiveTurns, WritesTurns};

use mv_words::laws::{minus_is_mistaken, work_named};
use mv_words::{Task, task_of};
use std::alloc::Global;

/// The turns that words give, where they ask for `work`. There are none where memory is refused, where the words ask for something else,
/// and where they are mistaken, as by a minus in front of the number.
pub fn turns_of(alloc: Global, words: &[String]) -> Option<u32>
    ensures given { (program text : List ℕ) (option : List (List ℕ)) (turns : ℕ) → WritesTurns turns text → GiveTurns text option
        → map string_bytes words.now ≡ program ∷ codes "work" ∷ option → IfSome result (λ given. given ≡ turns) }
    ensures mistaken { (program digits : List ℕ) (option : List (List ℕ)) → IsNumeral 10 digits → GiveTurns (45 ∷ digits) option
        → map string_bytes words.now ≡ program ∷ codes "work" ∷ option → result ≡ None }
{
    work_named();
    minus_is_mistaken();
    match task_of(alloc, words) {
        Ok(Some(Task::Work { turns })) => Some(turns),
        _ => None,
    }
}
