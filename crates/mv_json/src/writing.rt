//! Writes messages, as JSON values and as texts.

ghost use Rattle.std.specs.Prelude.{◌≡◌, ◌++◌, IfOk, IfErr, OnOk, OnErr, IsUtf8, Ok, string_bytes};
ghost use Rattle.mv_json.specs.Words.{compact_text, view};
ghost use Rattle.mv_json.specs.Messages.{value_of, read_bytes};
ghost use Rattle.mv_json.specs.Shapes.{IsLegal};
ghost use Rattle.mv_json.specs.inside.Shapes.{HasWords};
ghost use Rattle.mv_json.specs.Tokens.{Puts, tokens_of};

use crate::message_members::put_message;
use crate::{MessageFault, TextWriter};
use mv_message::Message;
use serde_json::Value;
use std::alloc::{AllocError, Global};
use std::mem;

/// Appends the canonical text of a message to a buffer: its value with no blanks, the keys in byte order. The only
/// refusal is want of memory; then the buffer holds what it held.
#[tactic(auto, using(crate::proofs::TokenLemmas::written_behind), unfolding(crate::specs::inside::Tokens::PutsValue))]
pub fn write_text(alloc: Global, message: &Message, out: &mut Vec<u8>) -> Result<(), AllocError>
    ensures text { OnOk result
        (out.new.items ≡ out.old.items ++ compact_text (value_of message.now)) }
    ensures utf8 { OnOk result (IsUtf8 (compact_text (value_of message.now))) }
    ensures err { OnErr result (out.new.items ≡ out.old.items) }
{
    let mut writer = TextWriter::new(mem::replace(out, Vec::new(alloc)));
    let done = put_message(&mut writer, message);
    *out = writer.into_buffer(done.is_ok());
    done
}

/// Writes the value of a message, with its keys in byte order, as a value of what a writer has begun. The only refusal is want of
/// memory.
#[tactic(auto, unfolding(crate::specs::inside::Tokens::PutsValue))]
pub fn write_message(writer: &mut TextWriter, message: &Message) -> Result<(), AllocError>
    ensures { Puts result writer.old writer.new (tokens_of (value_of message.now)) }
{
    put_message(writer, message)
}

/// The canonical text of a message: its value with no blanks, the keys in byte order. The only refusal is M9, for want of
/// memory.
pub fn text(alloc: Global, message: &Message) -> Result<String, MessageFault>
    ensures text { IfOk result (λ text. string_bytes text ≡ compact_text (value_of message.now)) }
    // Of a legal message it is read back as that message.
    ensures reads_back { IfOk result
        (λ text. IsLegal message.now → read_bytes (string_bytes text) ≡ Ok message.now) }
    ensures memory { IfErr result (λ fault. fault ≡ MessageFault.Memory) }
{
    know_words(message);
    let mut bytes = Vec::new(alloc);
    write_text(alloc, message, &mut bytes)?;
    let Ok(text) = String::from_utf8(bytes) else {
        unreachable!();
    };
    Ok(text)
}

/// The JSON value of a message, of version 2 where it could not say all in version 1: that of its canonical text. The only
/// refusal is M9, for want of memory.
#[tactic(auto, using(crate::proofs::ValueLemmas::text_reads))]
pub fn to_value(alloc: Global, message: &Message) -> Result<Value, MessageFault>
    ensures value { IfOk result (λ value. view value ≡ value_of message.now) }
    ensures memory { IfErr result (λ fault. fault ≡ MessageFault.Memory) }
{
    know_words(message);
    let text = text(alloc, message)?;
    Value::from_str(alloc, text.as_str()).or(Err(MessageFault::Memory))
}

/// Each number that a message holds has 64 bits.
fn know_words(message: &Message)
    ensures { HasWords message.now }
{
    match message {
        Message::Answer { asker, q, .. } => {
            let _numbers = (*asker, *q);
        }
        Message::Recall { at, .. }
        | Message::Repack { at, .. }
        | Message::Status { at, .. }
        | Message::Withdraw { at, .. } => {
            let _seconds = at.seconds();
        }
        Message::Master { .. } | Message::Query { .. } | Message::Upload { .. } => {}
    }
}
