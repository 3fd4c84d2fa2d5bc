//! A text whose tokens are looked at.

ghost use Rattle.std.specs.Prelude.{◌≡◌, ◌∷◌, [], IfSome, IsTrue};
ghost use Rattle.json.specs.Lex.{tokens};
ghost use Rattle.json.specs.Token.{begin_object, end_object};

use json::{Scratch, Token};
use mv_tokens::Reader;

/// Whether a text is an empty object and nothing else; none where memory was refused.
pub fn is_empty_object(text: &str, scratch: &mut Scratch) -> Option<bool>
    ensures { IfSome result (λ is. IsTrue is → tokens text.now ≡ begin_object ∷ end_object ∷ []) }
{
    scratch.reserve(text.len()).ok()?;
    let mut reader = Reader::new(text, scratch);
    if !reader.takes_opening() {
        return Some(false);
    }
    if !matches!(reader.next(), Some(Token::EndObject)) {
        return Some(false);
    }
    Some(reader.is_done())
}
