//! Reads the fields that are lists of texts, and says what such lists hold: serial numbers and markets.

ghost use Rattle.std.specs.Prelude.{◌≡◌, ◌≢◌, IfOk, IfErr, MatchResult, Ok, Err, is_some, ℕ, List, Result};
ghost use Rattle.mv_json.specs.Words.{PackFault as AFault, as_str, items_view, list_all, read_code, read_market, view};
ghost use Rattle.mv_json.specs.Limits.{most_markets, most_serials};
ghost use Rattle.mv_json.specs.Reading.{texts_at, read_item, list_at};
ghost use Rattle.mv_json.specs.inside.Parts.{Takes};

use crate::object::Object;
use crate::part::Part;
use crate::reading::in_field;
use crate::{Field, MessageFault};
use mv_message::{Markets, Serials};
use mv_pack::{Market, PackFault, Serial};
use serde_json::Value;
use std::alloc::Global;

/// How many markets a product has at most.
pub const MOST_MARKETS: usize = 32;

/// How many serial numbers a list of a message has at most.
pub const MOST_SERIALS: usize = 100;

/// The members of a field that is a list of 1 to `most` texts: M3, M5, M7.
#[tactic(auto, using(crate::proofs::ReadingLemmas::all_are_texts, crate::proofs::ReadingLemmas::length_of_view), unfolding(crate::specs::Reading::texts_at, crate::specs::Reading::field_at))]
fn texts_at(value: &Value, field: Field, most: usize) -> Result<&[Value], MessageFault>
    ensures gives { MatchResult result
        (λ list. texts_at most field (view value.now) ≡ Ok (items_view list.now))
        (λ fault. texts_at most field (view value.now) ≡ Err fault) }
    // It takes no memory.
    ensures no_memory { IfErr result (λ fault. fault ≢ MessageFault.Memory) }
{
    let list = value
        .get(field.as_str())
        .ok_or(MessageFault::Missing(field))?
        .as_array()
        .ok_or(MessageFault::Kind(field))?
        .as_slice();
    if !are_texts(list) {
        return Err(MessageFault::Kind(field));
    }
    if list.is_empty() || list.len() > most {
        return Err(MessageFault::Count(field));
    }
    Ok(list)
}

/// Whether all values are texts.
fn are_texts(list: &[Value]) -> bool
    ensures { result ≡ list_all (λ value. is_some (as_str (view value))) list.now }
{
    for value in list {
        if !value.is_string() {
            return false;
        }
    }
    true
}

/// The markets of a field, 1 to 32: M3, M5, M7, M6. Of fields that were met they are taken out, once.
pub(crate) fn markets_at(
    alloc: Global,
    object: &mut Object<'_>,
    field: Field,
) -> Result<Markets, MessageFault>
    ensures { Takes (list_at read_market most_markets field) object.old object.new result }
{
    match object {
        Object::Met(met) => match met.take(field) {
            Some(Part::Markets(list)) => Ok(Markets::new(list)),
            _ => Err(MessageFault::Memory),
        },
        Object::Value(value) => Ok(Markets::new(list_in(alloc, value, field, MOST_MARKETS)?)),
    }
}

/// The serial numbers of a field, 1 to 100: M3, M5, M7, M6. Of fields that were met they are taken out, once.
pub(crate) fn serials_at(
    alloc: Global,
    object: &mut Object<'_>,
    field: Field,
) -> Result<Serials, MessageFault>
    ensures { Takes (list_at read_code most_serials field) object.old object.new result }
{
    match object {
        Object::Met(met) => match met.take(field) {
            Some(Part::Serials(list)) => Ok(Serials::new(list)),
            _ => Err(MessageFault::Memory),
        },
        Object::Value(value) => Ok(Serials::new(list_in(alloc, value, field, MOST_SERIALS)?)),
    }
}

/// What the members of a field that is a list of 1 to `most` texts are read as: M3, M5, M7, M6 of the first bad one.
#[tactic(auto, unfolding(crate::specs::Reading::list_at))]
fn list_in<T: Listed>(
    alloc: Global,
    value: &Value,
    field: Field,
    most: usize,
) -> Result<Vec<T>, MessageFault>
    ensures ok { IfOk result (λ all. list_at T.reads most field (view value.now) ≡ Ok all.items) }
    ensures err { IfErr result (λ fault. fault ≢ MessageFault.Memory
        → list_at T.reads most field (view value.now) ≡ Err fault) }
{
    let list = texts_at(value, field, most)?;
    let mut all = Vec::with_capacity(alloc, list.len())?;
    for value in list {
        all.push_reserved(one_in(value, field)?);
    }
    Ok(all)
}

/// What a member is read as.
fn one_in<T: Listed>(value: &Value, field: Field) -> Result<T, MessageFault>
    ensures { result ≡ read_item T.reads field (view value.now) }
{
    let text = value.as_str().ok_or(MessageFault::Kind(field))?;
    in_field(field, T::from_text(text))
}

/// A value that stands in a list as its text.
pub(crate) trait Listed: Sized + Drop {
    /// What a text is read as.
    ghost reads: { List ℕ → Result Self AFault };

    /// The text of a value.
    ghost written: { Self → List ℕ };

    /// Reads a value from its text.
    fn from_text(text: &str) -> Result<Self, PackFault>
        ensures { result ≡ reads text.now };

    /// The text.
    fn to_text(&self) -> &str
        ensures { result.now ≡ written self.now };
}

impl Listed for Serial {
    ghost reads = { read_code };

    ghost written = { λ serial. serial };

    #[inline(always)]
    fn from_text(text: &str) -> Result<Serial, PackFault> {
        Serial::read(text)
    }

    #[inline(always)]
    fn to_text(&self) -> &str {
        self.as_str()
    }
}

impl Listed for Market {
    ghost reads = { read_market };

    ghost written = { λ market. market };

    #[inline(always)]
    fn from_text(text: &str) -> Result<Market, PackFault> {
        Market::read(text)
    }

    #[inline(always)]
    fn to_text(&self) -> &str {
        self.as_str()
    }
}
