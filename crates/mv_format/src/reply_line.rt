//! The replies, each written as the canonical text of one JSON object.

ghost use Rattle.std.specs.Prelude.{◌≡◌, ◌++◌, ◌∷◌, [], codes, IfOk, None, string_bytes};
ghost use Rattle.json.specs.Print.{escape};
ghost use Rattle.serde_json.specs.Written.{compact_text};
ghost use Rattle.mv_format.specs.Objects.{object_of};
ghost use Rattle.mv_format.specs.Words.{string};
ghost use Rattle.mv_format.specs.Writing.{Adds, Appended};
ghost use Rattle.mv_format.specs.inside.Writing.{entries_put};
ghost use Rattle.mv_json.specs.Tokens.{Puts};
ghost use Rattle.mv_format.specs.ReplyLines.{answer_value, counts_of, number_where, numbered, place_of, refused, refused_field, refused_pack, message_fault_value, line_fault_value, reply_value};

use crate::members::Member::{Flag, Number, NumberOrNone, Text};
use crate::members::{Object, write_object};
use crate::{Answered, LineFault, ToJson};
use mv_json::members::Named;
use mv_json::{MessageFault, TextWriter};
use mv_link::Reached;
use mv_machine::{Refusal, Reply};
use mv_message::Party;
use mv_pack::PackFault;
use mv_repository::{Effect, Joint, Verdict};
use std::alloc::{AllocError, Global};
use std::mem;

/// The text of the reply to a step.
pub fn reply_text(alloc: Global, reply: &Reply) -> Result<String, AllocError>
    ensures { IfOk result (λ text. string_bytes text ≡ compact_text (reply_value reply.now)) }
{
    line_text(alloc, reply)
}

/// The text of the refusal of a line that asks nothing.
pub fn fault_text(alloc: Global, fault: &LineFault) -> Result<String, AllocError>
    ensures { IfOk result (λ text. string_bytes text ≡ compact_text (line_fault_value fault.now)) }
{
    line_text(alloc, fault)
}

/// The text of a refusal by its number, as `C1`.
pub fn refusal_text(alloc: Global, code: &'static str) -> Result<String, AllocError>
    ensures { IfOk result (λ text. string_bytes text ≡ compact_text (refused code.now)) }
{
    let members = [Text("refused", code)];
    line_text(alloc, &Object { members: &members })
}

/// The text of a reply line.
fn line_text<T: ToJson>(alloc: Global, reply: &T) -> Result<String, AllocError>
    ensures { IfOk result (λ text. string_bytes text ≡ compact_text (T.value reply.now)) }
{
    let mut writer = TextWriter::new(Vec::new(alloc));
    reply.write(&mut writer)?;
    let Ok(text) = String::from_utf8(writer.into_buffer(true)) else {
        unreachable!();
    };
    Ok(text)
}

/// The reply to a line.
impl ToJson for Answered {
    ghost value = { answer_value };

    #[tactic(auto, unfolding(json::specs::Print::escape_byte))]
    fn write(&self, writer: &mut TextWriter) -> Result<(), AllocError> {
        match self {
            Answered::Unread(fault) => fault.write(writer),
            Answered::NotTaken(fault) => write_refused(writer, fault.code(), None),
            Answered::Opened { parties } => write_numbered(writer, "opened", *parties),
            Answered::Stepped { reply, .. } => reply.write(writer),
        }
    }
}

/// The reply to a step. What is written by an array of members has a function of its own, so that no other reply clears its memory.
impl ToJson for Reply {
    ghost value = { reply_value };

    #[tactic(auto, unfolding(json::specs::Print::escape_byte))]
    fn write(&self, writer: &mut TextWriter) -> Result<(), AllocError> {
        match self {
            Reply::Submitted { k } => write_numbered(writer, "submitted", *k),
            Reply::Routed { k, reach } => write_routed(writer, *k, reach),
            Reply::Relayed { number } => write_numbered(writer, "relayed", *number),
            Reply::Known(verdict) => write_verdict(writer, Joint::Decided(*verdict)),
            Reply::Asked { q } => write_numbered(writer, "asked", *q),
            Reply::Applied {
                number,
                effect,
                answer,
            } => write_applied(writer, *number, *effect, *answer),
            Reply::Old { number } => write_numbered(writer, "old", *number),
            Reply::Gap { number, expected } => write_gap(writer, *number, *expected),
            Reply::Repeated { number } => write_numbered(writer, "repeated", *number),
            Reply::Closed => write_closed(writer),
            Reply::Lost { number } => write_numbered(writer, "lost", *number),
            Reply::Joint(verdict) => write_verdict(writer, *verdict),
            Reply::Refused(Refusal::Busy(party)) => write_busy(writer, *party),
            Reply::Refused(refusal) => write_refused(writer, refusal.code(), None),
        }
    }
}

/// The refusal of a line that asks nothing.
impl ToJson for LineFault {
    ghost value = { line_fault_value };

    fn write(&self, writer: &mut TextWriter) -> Result<(), AllocError> {
        match self {
            LineFault::NotJson => write_refused(writer, "M1", None),
            LineFault::NotObject => write_refused(writer, "M2", None),
            LineFault::Missing(field) => write_field(writer, field.name(), "M3", None),
            LineFault::Unknown(key) => write_field(writer, key.as_str(), "M4", None),
            LineFault::Kind(field) => write_field(writer, field.name(), "M5", None),
            LineFault::Pack(field, fault) => write_pack(writer, field.name(), *fault, None),
            LineFault::Message(fault) => write_message_fault(writer, fault, None),
            LineFault::Memory => write_refused(writer, "M9", None),
        }
    }
}

/// Writes the refusal of a message behind what the buffer holds, with the number of its line, where one is given. Where memory is
/// refused the buffer is as it was.
pub fn append_refusal(
    alloc: Global,
    out: &mut Vec<u8>,
    fault: &MessageFault,
    line: Option<u32>,
) -> Result<(), AllocError>
    ensures { Appended result out.old.items out.new.items (message_fault_value line fault.now) }
{
    let mut writer = TextWriter::new(mem::replace(out, Vec::new(alloc)));
    let done = write_message_fault(&mut writer, fault, line);
    *out = writer.into_buffer(done.is_ok());
    done
}

/// The refusal of a message.
impl ToJson for MessageFault {
    ghost value = { message_fault_value None };

    fn write(&self, writer: &mut TextWriter) -> Result<(), AllocError> {
        write_message_fault(writer, self, None)
    }
}

/// Writes the refusal of a message, with the number of its line, where one is given.
fn write_message_fault(
    writer: &mut TextWriter,
    fault: &MessageFault,
    line: Option<u32>,
) -> Result<(), AllocError>
    ensures { Adds result writer.old writer.new (message_fault_value line fault.now) }
{
    let code = fault.code();
    match fault {
        MessageFault::Unknown(key) => write_field(writer, key.as_str(), code, line),
        MessageFault::Missing(field)
        | MessageFault::Kind(field)
        | MessageFault::Count(field)
        | MessageFault::TextLength(field) => write_field(writer, field.as_str(), code, line),
        MessageFault::Pack(field, fault) => write_pack(writer, field.as_str(), *fault, line),
        MessageFault::NotJson | MessageFault::NotObject | MessageFault::Memory => {
            write_refused(writer, code, line)
        }
    }
}

/// Writes an object with one whole number, under a key that needs no escape.
fn write_numbered(writer: &mut TextWriter, key: &'static str, number: u32) -> Result<(), AllocError>
    requires plain { escape key.now ≡ key.now }
    ensures { Adds result writer.old writer.new (numbered key.now number) }
{
    writer.begin_object()?;
    writer.plain_key(key)?;
    writer.u64(u64::from(number))?;
    writer.end_object()
}

/// Writes the reply that a message was routed, and to whom.
#[inline(never)]
#[tactic(auto, unfolding(json::specs::Print::escape_byte))]
fn write_routed(writer: &mut TextWriter, k: u32, reach: &Reached) -> Result<(), AllocError>
    ensures { Adds result writer.old writer.new (reply_value (Reply.Routed k reach.now)) }
{
    writer.begin_object()?;
    writer.plain_key("reach")?;
    reach.write(writer)?;
    writer.plain_key("routed")?;
    writer.u64(u64::from(k))?;
    writer.end_object()
}

/// Writes the reply that a frame lies behind a gap, and which was expected.
#[inline(never)]
fn write_gap(writer: &mut TextWriter, number: u32, expected: u32) -> Result<(), AllocError>
    ensures { Adds result writer.old writer.new (reply_value (Reply.Gap number expected)) }
{
    let members = [
        Number("expected", expected as u64),
        Number("gap", number as u64),
    ];
    write_object(writer, &members)
}

/// Writes the reply that a link was closed.
#[inline(never)]
fn write_closed(writer: &mut TextWriter) -> Result<(), AllocError>
    ensures { Adds result writer.old writer.new (reply_value Reply.Closed) }
{
    write_object(writer, &[Flag("closed", true)])
}

/// Writes the refusal of a routing for want of room on the link to a party.
#[inline(never)]
fn write_busy(writer: &mut TextWriter, party: Party) -> Result<(), AllocError>
    ensures { Adds result writer.old writer.new (reply_value (Reply.Refused (Refusal.Busy party))) }
{
    let members = [Number("party", party as u64), Text("refused", "S6")];
    write_object(writer, &members)
}

/// Writes the reply that a frame was applied, and the number of the answer that it called for.
#[tactic(auto, using(crate::proofs::WritingLemmas::codes_plain), unfolding(json::specs::Print::escape_byte))]
fn write_applied(
    writer: &mut TextWriter,
    number: u32,
    effect: Effect,
    answer: Option<u32>,
) -> Result<(), AllocError>
    ensures { Adds result writer.old writer.new
        (reply_value (Reply.Applied number effect answer)) }
{
    writer.begin_object()?;
    write_where(writer, "answer", answer)?;
    writer.plain_key("applied")?;
    writer.u64(u64::from(number))?;
    writer.plain_key("effect")?;
    writer.plain_string(effect.code())?;
    write_counts(writer, effect)?;
    writer.end_object()
}

/// Writes a member with a whole number, where there is one.
fn write_where(
    writer: &mut TextWriter,
    key: &'static str,
    number: Option<u32>,
) -> Result<(), AllocError>
    ensures { Puts result writer.old writer.new (entries_put (number_where key.now number)) }
{
    let Some(number) = number else {
        return Ok(());
    };
    writer.key(key)?;
    writer.u64(u64::from(number))
}

/// Writes how many packs of an upload were new, and how many were there.
fn write_counts(writer: &mut TextWriter, effect: Effect) -> Result<(), AllocError>
    ensures { Puts result writer.old writer.new (entries_put (counts_of effect)) }
{
    let Effect::Uploaded { new, old } = effect else {
        return Ok(());
    };
    writer.key("new")?;
    writer.u64(new)?;
    writer.key("old")?;
    writer.u64(old)
}

/// Writes a verdict on a pack: of all parties that were asked, or of the one repository that holds it.
#[inline(never)]
fn write_verdict(writer: &mut TextWriter, verdict: Joint) -> Result<(), AllocError>
    ensures { Adds result writer.old writer.new (reply_value (Reply.Joint verdict)) }
{
    match verdict {
        Joint::NotAsked => write_object(writer, &[Text("verdict", "not asked")]),
        Joint::Pending { left } => write_object(
            writer,
            &[Number("left", left as u64), Text("verdict", "pending")],
        ),
        Joint::Decided(Verdict::Authentic) => {
            write_object(writer, &[Text("verdict", "authentic")])
        }
        Joint::Decided(Verdict::NotAuthentic { falsification }) => write_object(
            writer,
            &[
                Flag("falsification", falsification),
                Text("verdict", "not authentic"),
            ],
        ),
    }
}

/// Writes a refusal by its number, with the number of a line, where one is given.
#[inline(never)]
fn write_refused(writer: &mut TextWriter, code: &str, line: Option<u32>) -> Result<(), AllocError>
    ensures { Adds result writer.old writer.new
        (object_of (number_where (codes "line") line ++ (codes "refused", string code.now) ∷ [])) }
{
    let line = NumberOrNone("line", line.map(u64::from));
    write_object(writer, &[line, Text("refused", code)])
}

/// Writes a refusal that names a field.
#[inline(never)]
fn write_field<'a>(
    writer: &mut TextWriter,
    field: &'a str,
    code: &'a str,
    line: Option<u32>,
) -> Result<(), AllocError>
    ensures { Adds result writer.old writer.new (refused_field line field.now code.now) }
{
    let line = NumberOrNone("line", line.map(u64::from));
    let field = Text("field", field);
    write_object(writer, &[field, line, Text("refused", code)])
}

/// Writes the refusal of a text that is no value (M6). That of P6 has the place of the character.
#[inline(never)]
fn write_pack(
    writer: &mut TextWriter,
    field: &str,
    fault: PackFault,
    line: Option<u32>,
) -> Result<(), AllocError>
    ensures { Adds result writer.old writer.new (refused_pack line fault field.now) }
{
    let members = [
        Text("fault", fault.code()),
        Text("field", field),
        NumberOrNone("line", line.map(u64::from)),
        NumberOrNone("place", place_of(fault)),
        Text("refused", "M6"),
    ];
    write_object(writer, &members)
}

/// The place of a character that may not be there.
fn place_of(fault: PackFault) -> Option<u64>
    ensures { result ≡ place_of fault }
{
    match fault {
        PackFault::Character(place) => Some(place as u64),
        _ => None,
    }
}
