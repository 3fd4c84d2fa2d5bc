//! Reads the field `found` of an answer: `null`, or an object of its own.

ghost use Rattle.std.specs.Prelude.{◌≡◌, ◌≢◌, IfErr, IfSome, filter};
ghost use Rattle.mv_json.specs.Words.{Data, view};
ghost use Rattle.mv_json.specs.Fields.{is_in};
ghost use Rattle.mv_json.specs.Shapes.{present_fields, present_at, found_of, pack_found};
ghost use Rattle.mv_json.specs.Meanings.{part_of};
ghost use Rattle.mv_json.specs.Reading.{GivesOr};
ghost use Rattle.mv_json.specs.inside.Parts.{Gives, MayGive, IsPart, IsValue, Stands};

use crate::form::Version;
use crate::members::first_unknown;
use crate::object::Object;
use crate::part::{Part, Sighting};
use crate::reading::{batch_at, expiry_at, national_at, standing_at, truth_at};
use crate::{Field, MessageFault};
use mv_message::Found;
use serde_json::Value;

/// What the field `found` says: M3, M5; M9 where fields were met that say it in another version.
pub(crate) fn found_at(object: &Object<'_>, version: Version) -> Result<Found, MessageFault>
    ensures gives { MayGive (pack_found version).read object.now result }
    // Of a value it takes no memory.
    ensures no_memory { IsValue object.now → IfErr result (λ fault. fault ≢ MessageFault.Memory) }
{
    match object {
        Object::Met(met) => match met.find(Field::Found) {
            Some(part) => found_in(part, version),
            None => Err(MessageFault::Memory),
        },
        Object::Value(value) => match value.get(Field::Found.as_str()) {
            Some(found) => found_of(found, version),
            None => Err(MessageFault::Missing(Field::Found)),
        },
    }
}

/// What was met says was found, where it says so in that version.
fn found_in(part: &Part<'_>, version: Version) -> Result<Found, MessageFault>
    ensures { (value : Data) → IsPart value part.now → GivesOr result (found_of version value) MessageFault.Memory }
{
    match part {
        Part::Null => Ok(Found::Absent),
        Part::Found(sighting) if sighting.get().version == version => {
            Ok(sighting.get().found.copy())
        }
        _ => Err(MessageFault::Memory),
    }
}

/// The pack that an object is, and the version that says it so, which is the second where it speaks of withdrawals.
pub(crate) fn sighting_in(object: &Object<'_>) -> Option<Sighting>
    ensures { IfSome result (λ sighting. (value : Data) → Stands value object.now → IsPart value (Part.Found sighting)) }
{
    let version = match object.get(Field::Withdrawn) {
        Some(_) => Version::Two,
        None => Version::One,
    };
    if !object.has_met_only(present_fields(version)) {
        return None;
    }
    let found = present_at(object, version).ok()?;
    Some(Sighting { found, version })
}

/// What a value says was found: M5 of `found` where it is neither `null` nor a legal pack. A pack has no other key than its
/// fields.
#[tactic(auto, unfolding(crate::specs::Shapes::present_of))]
fn found_of(value: &Value, version: Version) -> Result<Found, MessageFault>
    ensures gives { result ≡ found_of version (view value.now) }
    // It takes no memory.
    ensures no_memory { IfErr result (λ fault. fault ≢ MessageFault.Memory) }
{
    if value.is_null() {
        return Ok(Found::Absent);
    }
    let fault = Err(MessageFault::Kind(Field::Found));
    let Some(members) = value.as_object() else {
        return fault;
    };
    if first_unknown(members, present_fields(version)).is_some() {
        return fault;
    }
    present_at(&Object::Value(value), version).or(fault)
}

/// The fields of a pack that was found, in byte order of their names.
pub(crate) fn present_fields(version: Version) -> &'static [Field]
    ensures { result.now ≡ filter (λ field. is_in field version) present_fields }
{
    use Field::*;
    match version {
        Version::One => &[Batch, Expiry, Recalled, Standing],
        Version::Two => &[Batch, Expiry, National, Recalled, Standing, Withdrawn],
    }
}

/// The pack that the fields of an object give.
pub(crate) fn present_at(object: &Object<'_>, version: Version) -> Result<Found, MessageFault>
    ensures { Gives (present_at version) object.now result }
{
    Ok(Found::Present {
        batch: batch_at(object, Field::Batch)?,
        expiry: expiry_at(object, Field::Expiry)?,
        national: national_at(object, version)?,
        recalled: truth_at(object, Field::Recalled)?,
        standing: standing_at(object, Field::Standing)?,
        withdrawn: withdrawn_at(object, version)?,
    })
}

/// Whether the product is withdrawn, of which version 1 does not speak.
fn withdrawn_at(object: &Object<'_>, version: Version) -> Result<bool, MessageFault>
    ensures { Gives (part_of version Field.Withdrawn).read object.now result }
{
    match version {
        Version::One => Ok(false),
        Version::Two => truth_at(object, Field::Withdrawn),
    }
}
