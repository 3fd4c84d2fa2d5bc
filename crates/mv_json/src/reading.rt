//! Reads the fields of a JSON object, one at a time, each with its own faults in their order.
#![tactic(auto, unfolding(crate::specs::Reading::field_at, crate::specs::Reading::read_at, crate::specs::Reading::national_at, crate::specs::Reading::standing_at, crate::specs::Reading::free_text_at))]

ghost use Rattle.std.specs.Prelude.{◌≡◌, ◌≢◌, IfErr, IsOk, MatchResult, Ok, Err};
ghost use Rattle.mv_json.specs.Words.{Data, as_bool, as_str, read_code, read_expiry, read_gtin, read_moment, standing_named};
ghost use Rattle.mv_json.specs.Meanings.{part_of};
ghost use Rattle.mv_json.specs.Reading.{member_at, field_at, map_err, read_at, standing_at, free_text_at, whole_number, whole_from};
ghost use Rattle.mv_json.specs.inside.Parts.{Gives, MayGive, IsPlace, Stands, there};

use crate::form::Version;
use crate::object::{Object, Place};
use crate::{Field, MessageFault};
use mv_message::{Standing, Text};
use mv_pack::{Batch, Expiry, Gtin, Moment, National, PackFault, Serial};
use std::alloc::Global;

/// How many bytes a free text has at most.
pub const MOST_TEXT_BYTES: usize = 200;

/// The value of a field, else M3.
pub(crate) fn member_at<'b>(object: &'b Object<'_>, field: Field) -> Result<Place<'b>, MessageFault>
    ensures gives { (value : Data) → Stands value object.now → MatchResult result
        (λ place. (member_at field value ≡ Ok (there field value))
        × IsPlace (there field value) place)
        (λ fault. member_at field value ≡ Err fault) }
    // It takes no memory.
    ensures no_memory { IfErr result (λ fault. fault ≢ MessageFault.Memory) }
{
    object.get(field).ok_or(MessageFault::Missing(field))
}

/// The text of a field: M3, M5.
pub(crate) fn text_at<'b>(object: &'b Object<'_>, field: Field) -> Result<&'b str, MessageFault>
    ensures gives { (value : Data) → Stands value object.now → MatchResult result
        (λ text. field_at as_str field value ≡ Ok text.now)
        (λ fault. field_at as_str field value ≡ Err fault) }
    // It takes no memory.
    ensures no_memory { IfErr result (λ fault. fault ≢ MessageFault.Memory) }
{
    member_at(object, field)?
        .as_str()
        .ok_or(MessageFault::Kind(field))
}

/// What a reader of values gave of a field, whose fault is M6.
pub(crate) fn in_field<T: Drop>(field: Field, read: Result<T, PackFault>) -> Result<T, MessageFault>
    ensures { result ≡ map_err (MessageFault.Pack field) read }
{
    read.map_err(|fault| MessageFault::Pack(field, fault))
}

/// The product code of a field: M3, M5, M6.
pub(crate) fn gtin_at(object: &Object<'_>, field: Field) -> Result<Gtin, MessageFault>
    ensures { Gives (read_at as_str read_gtin field) object.now result }
{
    in_field(field, Gtin::read(text_at(object, field)?))
}

/// The serial number of a field: M3, M5, M6.
#[inline(always)]
pub(crate) fn serial_at(object: &Object<'_>, field: Field) -> Result<Serial, MessageFault>
    ensures { Gives (read_at as_str read_code field) object.now result }
{
    in_field(field, Serial::read(text_at(object, field)?))
}

/// The batch number of a field: M3, M5, M6.
pub(crate) fn batch_at(object: &Object<'_>, field: Field) -> Result<Batch, MessageFault>
    ensures { Gives (read_at as_str read_code field) object.now result }
{
    in_field(field, Batch::read(text_at(object, field)?))
}

/// The expiry date of a field: M3, M5, M6.
pub(crate) fn expiry_at(object: &Object<'_>, field: Field) -> Result<Expiry, MessageFault>
    ensures { Gives (read_at as_str read_expiry field) object.now result }
{
    in_field(field, Expiry::read(text_at(object, field)?))
}

/// The national number, or none where there is `null`, and in version 1, which has no such field: M3, M5, M6.
pub(crate) fn national_at(
    object: &Object<'_>,
    version: Version,
) -> Result<Option<National>, MessageFault>
    ensures { Gives (part_of version Field.National).read object.now result }
{
    if version == Version::One {
        return Ok(None);
    }
    let field = Field::National;
    let found = member_at(object, field)?;
    if found.is_null() {
        return Ok(None);
    }
    let text = found.as_str().ok_or(MessageFault::Kind(field))?;
    Ok(Some(in_field(field, National::read(text))?))
}

/// The standing of a field: M3, M5.
pub(crate) fn standing_at(object: &Object<'_>, field: Field) -> Result<Standing, MessageFault>
    ensures { Gives (standing_at field) object.now result }
{
    standing_named(text_at(object, field)?).ok_or(MessageFault::Kind(field))
}

/// The standing of that name.
pub(crate) fn standing_named(name: &str) -> Option<Standing>
    ensures { result ≡ standing_named name.now }
{
    match name {
        "active" => Some(Standing::Active),
        "supplied" => Some(Standing::Supplied),
        "exported" => Some(Standing::Exported),
        "destruction" => Some(Standing::Destruction),
        "sample" => Some(Standing::Sample),
        "free_sample" => Some(Standing::FreeSample),
        "stolen" => Some(Standing::Stolen),
        "repackaged" => Some(Standing::Repackaged),
        _ => None,
    }
}

/// The free text of a field: M3, M5, M8.
pub(crate) fn free_text_at(
    alloc: Global,
    object: &Object<'_>,
    field: Field,
) -> Result<Text, MessageFault>
    ensures gives { MayGive (free_text_at field) object.now result }
    // Memory is asked for only once the text is known to be right.
    ensures memory { (value : Data) → Stands value object.now → IfErr result
        (λ fault. fault ≡ MessageFault.Memory → IsOk (free_text_at field value)) }
{
    let text = text_at(object, field)?;
    if text.is_empty() || text.len() > MOST_TEXT_BYTES {
        return Err(MessageFault::TextLength(field));
    }
    Ok(Text::new(String::from_str(alloc, text)?))
}

/// Whether a field says `true`: M3, M5.
pub(crate) fn truth_at(object: &Object<'_>, field: Field) -> Result<bool, MessageFault>
    ensures { Gives (field_at as_bool field) object.now result }
{
    member_at(object, field)?
        .as_bool()
        .ok_or(MessageFault::Kind(field))
}

/// The moment of a field: M3, M5, M6.
pub(crate) fn moment_at(object: &Object<'_>, field: Field) -> Result<Moment, MessageFault>
    ensures { Gives (read_at whole_number read_moment field) object.now result }
{
    let seconds = member_at(object, field)?
        .as_u64()
        .ok_or(MessageFault::Kind(field))?;
    in_field(field, Moment::of(seconds))
}

/// The whole number of a field, from `least` to 4,294,967,295: M3, M5.
pub(crate) fn number_at(object: &Object<'_>, field: Field, least: u32) -> Result<u32, MessageFault>
    ensures { Gives (field_at (whole_from least) field) object.now result }
{
    let number = member_at(object, field)?
        .as_u64()
        .ok_or(MessageFault::Kind(field))?;
    match u32::try_from(number) {
        Ok(number) if least <= number => Ok(number),
        _ => Err(MessageFault::Kind(field)),
    }
}
