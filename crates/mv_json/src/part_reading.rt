//! Takes what stands in the fields of a message by its tokens, with no value in between.

ghost use Rattle.std.specs.Prelude.{◌≡◌, ◌≤◌, ℕ, List, ◌∷◌, length, IfSome, MatchOption, suc};
ghost use Rattle.json.specs.Reads.{token_of};
ghost use Rattle.json.specs.Token.{Token as AToken, begin_array, begin_object, end_array, end_object, key, string};
ghost use Rattle.mv_json.specs.Fields.{field_name};
ghost use Rattle.mv_json.specs.inside.Parts.{BeginWithPart, BeginWithEntries, BeginWithTexts, deep_in};

use crate::Field;
use crate::found_reading::sighting_in;
use crate::lists::{Listed, MOST_MARKETS, MOST_SERIALS};
use crate::object::Object;
use crate::part::{Met, NUMBERS, Part, Sighting};
use json::Token;
use mv_message::Boxed;
use mv_tokens::{Reader, whole_of};
use std::alloc::Global;

/// How many fields a message has at most.
const MOST_FIELDS: usize = 12;

/// Takes the rest of an object, behind its opening brace, with its fields in any order, each once. One inside another holds no further
/// one, and no list.
#[cycle(members)]
pub(crate) fn take_members<'a>(
    alloc: Global,
    reader: &mut Reader<'a>,
    is_inside: bool,
) -> Option<Met<'a>>
    ensures { IfSome result (λ met. BeginWithEntries (suc (deep_in is_inside))
        (begin_object ∷ reader.old) met reader.new) }
{
    let entries = Vec::with_capacity(alloc, MOST_FIELDS).ok()?;
    let places = [0; NUMBERS];
    let mut met = Met { entries, places };
    while let Some(field) = next_field(reader)? {
        let part = take_part(alloc, reader, field, is_inside)?;
        if !met.adds(field, part) {
            return None;
        }
    }
    Some(met)
}

/// Takes the key of a field, or the end of the object, which is none.
#[inline(always)]
fn next_field(reader: &mut Reader<'_>) -> Option<Option<Field>>
    ensures { IfSome result (λ next. MatchOption next
        (reader.old ≡ end_object ∷ reader.new)
        (λ field. reader.old ≡ key (field_name field) ∷ reader.new)) }
{
    match reader.next()? {
        Token::Key(name) => {
            let field = likely_field(name.as_bytes())?;
            if name != field.as_str() {
                return None;
            }
            Some(Some(field))
        }
        Token::EndObject => Some(None),
        _ => None,
    }
}

/// The one field whose name may be these bytes, by how many they are and by one of them. No clause says more: whoever asks
/// compares the name.
fn likely_field(name: &[u8]) -> Option<Field> {
    let field = match name.len() {
        1 if name[0] == b'q' => Field::Q,
        1 => Field::V,
        2 if name[0] == b'a' => Field::At,
        2 => Field::To,
        3 => Field::Msg,
        4 => match name[0] {
            b'f' => Field::Form,
            b'g' => Field::Gtin,
            b'n' => Field::Name,
            _ => Field::User,
        },
        5 => match name[0] {
            b'a' => Field::Asker,
            b'b' => Field::Batch,
            _ => Field::Found,
        },
        6 => match name[2] {
            b'm' => Field::Common,
            b'p' => Field::Expiry,
            b'h' => Field::Scheme,
            _ => Field::Serial,
        },
        7 if name[0] == b'm' => Field::Markets,
        7 => Field::Serials,
        8 => match name[2] {
            b'a' => Field::Standing,
            b'c' => Field::Recalled,
            b'r' => Field::Strength,
            _ => Field::National,
        },
        9 => match name[5] {
            b's' => Field::PackSize,
            b't' => Field::PackType,
            _ => Field::Withdrawn,
        },
        10 => Field::AfterGtin,
        11 if name[0] == b'a' => Field::AfterBatch,
        11 => Field::BeforeGtin,
        12 => Field::BeforeBatch,
        13 => Field::AfterSerials,
        14 => Field::BeforeSerials,
        _ => return None,
    };
    Some(field)
}

/// Takes what stands in a field.
#[cycle(members)]
#[inline(always)]
fn take_part<'a>(
    alloc: Global,
    reader: &mut Reader<'a>,
    field: Field,
    is_inside: bool,
) -> Option<Part<'a>>
    ensures { IfSome result (λ part. BeginWithPart (deep_in is_inside) reader.old part reader.new) }
{
    match reader.next()? {
        Token::BeginObject if !is_inside => take_found(alloc, reader),
        Token::BeginArray if !is_inside => take_list_part(alloc, reader, field),
        token => single(token),
    }
}

/// Takes the rest of a pack that was found, behind its opening brace.
#[cycle(members)]
fn take_found<'a>(alloc: Global, reader: &mut Reader<'a>) -> Option<Part<'a>>
    ensures { IfSome result (λ part.
        BeginWithPart 1 (begin_object ∷ reader.old) part reader.new) }
{
    let object = Object::Met(take_members(alloc, reader, true)?);
    let sighting = sighting_in(&object)?;
    let sighting = boxed(alloc, sighting)?;
    Some(Part::Found(sighting))
}

/// A sighting in a place of its own.
fn boxed(alloc: Global, sighting: Sighting) -> Option<Boxed<Sighting>>
    ensures { IfSome result (λ boxed. boxed ≡ sighting) }
{
    Boxed::new(alloc, sighting).ok()
}

/// What a token says by itself, which is no object and no list.
#[tactic(auto, using(json::proofs::Grammar::value_is, crate::proofs::MetLemmas::whole_begins))]
#[inline(always)]
fn single<'a>(token: Token<'a>) -> Option<Part<'a>>
    ensures { IfSome result (λ part. (deep : ℕ) (rest : List AToken) → BeginWithPart deep (token_of token.entry ∷ rest) part rest) }
{
    match token {
        Token::String(text) => Some(Part::Text(text)),
        Token::Number(text) => Some(Part::Whole(whole_of(text)?)),
        Token::Bool(truth) => Some(Part::Truth(truth)),
        Token::Null => Some(Part::Null),
        _ => None,
    }
}

/// Takes the rest of a list, behind its opening bracket, by the field's kind.
fn take_list_part<'a>(alloc: Global, reader: &mut Reader<'a>, field: Field) -> Option<Part<'a>>
    ensures { IfSome result (λ part. BeginWithPart 1 (begin_array ∷ reader.old) part reader.new) }
{
    match field {
        Field::AfterSerials | Field::BeforeSerials | Field::Serials => {
            let serials = take_list(alloc, reader, MOST_SERIALS)?;
            Some(Part::Serials(fitted(alloc, serials)?))
        }
        Field::Markets => Some(Part::Markets(take_list(alloc, reader, MOST_MARKETS)?)),
        _ => None,
    }
}

/// The same values in a place of their size. A full list has that, and one value alone stays where it stands: a message copies it out.
/// Any other place is given back as a whole, and serves the next list: a list that shrinks where it stands leaves a rest of another size
/// each time.
#[inline(never)]
fn fitted<T: Drop>(alloc: Global, mut list: Vec<T>) -> Option<Vec<T>>
    ensures { IfSome result (λ same. same.items ≡ list.items) }
{
    if list.len() == 1 || list.len() == list.capacity() {
        return Some(list);
    }
    let Ok(mut same) = Vec::with_capacity(alloc, list.len()) else {
        return None;
    };
    same.append(&mut list).ok()?;
    Some(same)
}

/// Takes 1 to `most` values, up to the end of their list.
fn take_list<T: Listed>(alloc: Global, reader: &mut Reader<'_>, most: usize) -> Option<Vec<T>>
    ensures list { IfSome result (λ list. BeginWithTexts T.reads reader.old list.items reader.new) }
    ensures count { IfSome result (λ list. (1 ≤ length list.items) × (length list.items ≤ most)) }
{
    let Ok(mut list) = Vec::with_capacity(alloc, most) else {
        return None;
    };
    while let Some(text) = next_text(reader)? {
        if list.len() == most {
            return None;
        }
        list.push_reserved(T::from_text(text).ok()?);
    }
    if list.is_empty() {
        return None;
    }
    Some(list)
}

/// Takes a text of a list, or the end of the list, which is none.
#[inline(always)]
fn next_text<'a>(reader: &mut Reader<'a>) -> Option<Option<&'a str>>
    ensures { IfSome result (λ next. MatchOption next
        (reader.old ≡ end_array ∷ reader.new)
        (λ text. reader.old ≡ string text.now ∷ reader.new)) }
{
    match reader.next()? {
        Token::String(text) => Some(Some(text)),
        Token::EndArray => Some(None),
        _ => None,
    }
}
