//! Reads messages: from the bytes of JSON texts, from JSON values, and by their tokens, with no value in between, their keys in any order.

ghost use Rattle.std.specs.Prelude.{◌≡◌, IfErr, IfOk, IfSome, Ok};
ghost use Rattle.mv_json.specs.Words.{Data, view};
ghost use Rattle.mv_json.specs.Messages.{MayTakeMemory, read_bytes, read_message};
ghost use Rattle.mv_json.specs.Parts.{BeginWithMessage};
ghost use Rattle.mv_json.specs.inside.Parts.{Stands};
ghost use Rattle.mv_json.specs.Reading.{GivesOr};

use crate::MessageFault;
use crate::form::{form_at, version_at};
use crate::members::first_unknown;
use crate::object::Object;
use crate::part_reading::take_members;
use crate::readers::message_at;
use json::Scratch;
use mv_message::{Message, Text};
use mv_tokens::{Reader, text_of};
use serde_json::Value;
use std::alloc::Global;

/// Reads a message from the bytes of a JSON text.
///
/// The first of these that holds is the fault: M1, the bytes are no JSON; then those of `from_value`. M9 may stand in
/// place of any answer where memory was refused.
#[tactic(auto, using(crate::proofs::ValueLemmas::utf8_test, crate::proofs::ValueLemmas::utf8_fact))]
pub fn read(alloc: Global, bytes: &[u8]) -> Result<Message, MessageFault>
    ensures { GivesOr result (read_bytes bytes.now) MessageFault.Memory }
{
    match Value::from_slice(alloc, bytes) {
        Ok(value) => from_value(alloc, &value),
        Err(error) if error.is_memory() => Err(MessageFault::Memory),
        Err(_) => Err(MessageFault::NotJson),
    }
}

/// Reads a message as `read` does, in memory that is kept from text to text: what is a legal message by its tokens, and what
/// these give no message of by its value.
pub fn read_in(alloc: Global, scratch: &mut Scratch, bytes: &[u8]) -> Result<Message, MessageFault>
    ensures { GivesOr result (read_bytes bytes.now) MessageFault.Memory }
{
    match read_by_tokens(alloc, scratch, bytes) {
        Some(message) => Ok(message),
        None => read(alloc, bytes),
    }
}

/// Reads a message from a JSON value.
///
/// The first of these that holds is the fault: M2, the value is no object; M5 of `v`, which is there and not 2; M3 or M5
/// of `msg`; M4 with the first key, in byte order, that the message does not have; then the faults of the fields, in byte
/// order of their names. M9 may stand, where memory was refused, in place of M4, which names a key, and of what the fields
/// of a master, an upload, a status or a repack give, which hold texts and lists; in place of nothing else.
#[tactic(auto, unfolding(crate::specs::Messages::read_message))]
pub fn from_value(alloc: Global, value: &Value) -> Result<Message, MessageFault>
    ensures gives { GivesOr result (read_message (view value.now)) MessageFault.Memory }
    ensures memory { IfErr result (λ fault. fault ≡ MessageFault.Memory → MayTakeMemory (view value.now)) }
{
    let members = value.as_object().ok_or(MessageFault::NotObject)?;
    let mut object = Object::Value(value);
    let version = version_at(&object)?;
    let form = form_at(&object, version)?;
    if let Some(key) = first_unknown(members, form.fields(version)) {
        return Err(MessageFault::Unknown(Text::new(String::from_str(alloc, key)?)));
    }
    message_at(alloc, &mut object, version, form)
}

/// Takes the message that the next tokens are, in either version, its keys in any order. What is no legal message, or has a
/// key twice, gives none, and so does a refusal of memory; the reader may then be anywhere.
pub fn take_message(alloc: Global, reader: &mut Reader<'_>) -> Option<Message>
    ensures { IfSome result (λ message. BeginWithMessage reader.old message reader.new) }
{
    if !reader.takes_opening() {
        return None;
    }
    let mut object = Object::Met(take_members(alloc, reader, false)?);
    message_in(alloc, &mut object).ok()
}

/// The message that an object of fields is which were met.
fn message_in(alloc: Global, object: &mut Object<'_>) -> Result<Message, MessageFault>
    ensures { IfOk result (λ message. (value : Data) → Stands value object.old → read_message value ≡ Ok message) }
{
    let version = version_at(object)?;
    let form = form_at(object, version)?;
    if !object.has_met_only(form.fields(version)) {
        return Err(MessageFault::Memory);
    }
    // Only what is read is promised, so the fault goes out by itself.
    let message = message_at(alloc, object, version, form)?;
    Ok(message)
}

/// Reads the message that the bytes of a JSON text are, in memory that is kept from text to text. What is no legal message,
/// or has a key twice, gives none, and so does a refusal of memory.
fn read_by_tokens(alloc: Global, scratch: &mut Scratch, bytes: &[u8]) -> Option<Message>
    ensures { IfSome result (λ message. read_bytes bytes.now ≡ Ok message) }
{
    let text = text_of(bytes)?;
    if scratch.reserve(text.len()).is_err() {
        return None;
    }
    let mut reader = Reader::new(text, scratch);
    let message = take_message(alloc, &mut reader)?;
    if !reader.is_done() {
        return None;
    }
    Some(message)
}
