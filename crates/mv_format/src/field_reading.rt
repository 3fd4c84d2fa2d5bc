//! Reads the fields of a line, one at a time, each with its own faults in their order.

ghost use Rattle.std.specs.Prelude.{◌≡◌, option_and_then, MatchResult, Ok, Err};
ghost use Rattle.mv_format.specs.Words.{GivesOr, read_code, read_gtin, view, whole_number};
ghost use Rattle.mv_format.specs.Reading.{member_at, text_at, read_at, of_32_bits, number_at, message_at};

use crate::{LineFault, LineField};
use mv_json::MessageFault;
use mv_json::members::Named;
use mv_message::{Message, Shared};
use mv_pack::{Gtin, Serial};
use serde_json::Value;
use std::alloc::Global;

/// The value of a field, else M3.
pub(crate) fn member_of(value: &Value, field: LineField) -> Result<&Value, LineFault>
    ensures { MatchResult result
        (λ member. member_at field (view value.now) ≡ Ok (view member.now))
        (λ fault. member_at field (view value.now) ≡ Err fault) }
{
    value.get(field.name()).ok_or(LineFault::Missing(field))
}

/// The text of a field: M3, M5.
pub(crate) fn text_of(value: &Value, field: LineField) -> Result<&str, LineFault>
    ensures { MatchResult result
        (λ text. text_at field (view value.now) ≡ Ok text.now)
        (λ fault. text_at field (view value.now) ≡ Err fault) }
{
    member_of(value, field)?
        .as_str()
        .ok_or(LineFault::Kind(field))
}

/// The product code of a field: M3, M5, M6.
#[tactic(auto, unfolding(crate::specs::Reading::read_at))]
pub(crate) fn gtin_of(value: &Value, field: LineField) -> Result<Gtin, LineFault>
    ensures { GivesOr result (read_at read_gtin field (view value.now)) LineFault.Memory }
{
    Gtin::read(text_of(value, field)?).map_err(|fault| LineFault::Pack(field, fault))
}

/// The serial number of a field: M3, M5, M6.
#[tactic(auto, unfolding(crate::specs::Reading::read_at))]
pub(crate) fn serial_of(value: &Value, field: LineField) -> Result<Serial, LineFault>
    ensures { GivesOr result (read_at read_code field (view value.now)) LineFault.Memory }
{
    Serial::read(text_of(value, field)?).map_err(|fault| LineFault::Pack(field, fault))
}

/// The whole number of a field, up to 4,294,967,295: M3, M5.
#[tactic(auto, unfolding(crate::specs::Reading::number_at))]
pub(crate) fn number_of(value: &Value, field: LineField) -> Result<u32, LineFault>
    ensures { GivesOr result (number_at field (view value.now)) LineFault.Memory }
{
    whole_number(member_of(value, field)?).ok_or(LineFault::Kind(field))
}

/// The whole number of 32 bits that a value is.
fn whole_number(value: &Value) -> Option<u32>
    ensures { result ≡ option_and_then of_32_bits (whole_number (view value.now)) }
{
    u32::try_from(value.as_u64()?).ok()
}

/// The message of a line: M3, then the message's own faults.
pub(crate) fn message_of(alloc: Global, value: &Value) -> Result<Shared<Message>, LineFault>
    ensures { GivesOr result (message_at (view value.now)) LineFault.Memory }
{
    Ok(Shared::new(alloc, message_in(alloc, value)?)?)
}

/// The message of a line that is a value.
#[tactic(auto, unfolding(crate::specs::Reading::message_at))]
fn message_in(alloc: Global, value: &Value) -> Result<Message, LineFault>
    ensures { GivesOr result (message_at (view value.now)) LineFault.Memory }
{
    match mv_json::from_value(alloc, member_of(value, LineField::Message)?) {
        Ok(message) => Ok(message),
        Err(MessageFault::Memory) => Err(LineFault::Memory),
        Err(fault) => Err(LineFault::Message(fault)),
    }
}
