//! Reads lines by their tokens, with no value in between, their keys in any order.

ghost use Rattle.std.specs.Prelude.{◌≡◌, ◌∷◌, ℕ, List, [], Ok, IfSome, IsTrue, MatchOption, None, Some};
ghost use Rattle.mv_format.specs.Words.{Data, begin_object, end_object, key, read_code, read_gtin};
ghost use Rattle.mv_pack.specs.Keys.{pack_key};
ghost use Rattle.mv_format.specs.Fields.{field_name};
ghost use Rattle.mv_format.specs.inside.LineFields.{AreAll, BeginWithFields, BeginWithPart, HasFields, LinePart, Meets, met_of};
ghost use Rattle.mv_format.specs.declared.field.LineField.TheVariants as fields;
ghost use Rattle.mv_format.specs.declared.field.LineField.{LineField as AField};
ghost use Rattle.mv_format.specs.inside.LineFields.LinePart.{Message as InMessage, Number};
ghost use Rattle.mv_format.specs.Requests.{read_line, read_request};
ghost use Rattle.mv_format.specs.declared.request.Request.{Request};

use crate::LineField;
use crate::kind::{LineKind, kind_called};
use crate::line_fields::{LineFields, puts};
use json::{Scratch, Token};
use mv_json::take_message;
use mv_machine::Step;
use mv_message::{Message, Party, Shared};
use mv_pack::{Gtin, PackKey, Serial};
use mv_tokens::{Reader, text_of};
use std::alloc::Global;

/// Reads the step that a line asks, its keys in any order, in memory that is kept from line to line. It is put where it is to stand, and
/// `None` says that there is none: where the line asks none, or has a key twice, or memory is refused. [`Request::read`] says which.
pub fn read_step(alloc: Global, scratch: &mut Scratch, line: &[u8], step: &mut Option<Step>)
    ensures { IfSome step.new (λ step. read_line line.now ≡ Ok (Request.Step step)) }
{
    *step = None;
    let _ = puts_step(alloc, scratch, line, step);
}

/// Puts the step that a line asks where none is yet.
#[inline(always)]
fn puts_step(
    alloc: Global,
    scratch: &mut Scratch,
    line: &[u8],
    step: &mut Option<Step>,
) -> Option<()>
    requires none { step.old ≡ None }
    ensures { IfSome step.new (λ step. read_line line.now ≡ Ok (Request.Step step)) }
{
    let text = text_of(line)?;
    if scratch.reserve(text.len()).is_err() {
        return None;
    }
    let mut reader = Reader::new(text, scratch);
    if !reader.takes_opening() {
        return None;
    }
    let mut met = LineFields::default();
    if !takes_members(alloc, &mut reader, &mut met) || !reader.is_done() {
        return None;
    }
    step_met(&mut met, step)
}

/// Puts the step that the fields of a line ask, where they are those of its kind. They are taken out of their places.
#[inline(always)]
fn step_met(met: &mut LineFields<'_>, step: &mut Option<Step>) -> Option<()>
    requires none { step.old ≡ None }
    ensures { IfSome step.new (λ step. (value : Data) → HasFields value met.old → read_request value ≡ Ok (Request.Step step)) }
{
    match kind_called(met.asked.take()?)? {
        LineKind::Open => None,
        LineKind::Submit => {
            let from = met.from.take()?;
            let message = met.message.take()?;
            met.end()?;
            *step = Some(Step::Submit { from, message });
            Some(())
        }
        LineKind::Route => {
            let from = met.from.take()?;
            met.end()?;
            *step = Some(Step::Route { from });
            Some(())
        }
        LineKind::Relay => {
            let (from, to) = link_met(met)?;
            *step = Some(Step::Relay { from, to });
            Some(())
        }
        LineKind::Apply => {
            let (from, to) = link_met(met)?;
            *step = Some(Step::Apply { from, to });
            Some(())
        }
        LineKind::Repeat => {
            let from = met.from.take()?;
            let number = met.number.take()?;
            let to = met.to.take()?;
            met.end()?;
            *step = Some(Step::Repeat { from, number, to });
            Some(())
        }
        LineKind::Close => {
            let (from, to) = link_met(met)?;
            *step = Some(Step::Close { from, to });
            Some(())
        }
        LineKind::Lose => {
            let (from, to) = link_met(met)?;
            *step = Some(Step::Lose { from, to });
            Some(())
        }
        LineKind::Verify => {
            let gtin = met.gtin.take()?;
            let party = met.party.take()?;
            let serial = met.serial.take()?;
            met.end()?;
            *step = Some(verify_of(gtin, party, serial)?);
            Some(())
        }
        LineKind::Verdict => {
            let party = met.party.take()?;
            let q = met.q.take()?;
            met.end()?;
            *step = Some(Step::Verdict { party, q });
            Some(())
        }
    }
}

/// The parties of a link, where no other field is left.
#[inline(always)]
fn link_met(met: &mut LineFields<'_>) -> Option<(Party, Party)>
    ensures { IfSome result (λ link. (met_of met.old fields.From ≡ Some (Number link.0))
        × (met_of met.old fields.To ≡ Some (Number link.1))
        × AreAll met.old (fields.From ∷ fields.To ∷ [])) }
{
    let from = met.from.take()?;
    let to = met.to.take()?;
    met.end()?;
    Some((from, to))
}

/// The step that verifies a pack. It stands for itself, so that no other step is put together with its codes.
#[inline(never)]
fn verify_of(gtin: &str, party: Party, serial: &str) -> Option<Step>
    ensures { IfSome result (λ step. (gtin_read : List ℕ) × (serial_read : List ℕ)
        × (read_gtin gtin.now ≡ Ok gtin_read) × (read_code serial.now ≡ Ok serial_read)
        × (step ≡ Step.Verify party (pack_key gtin_read serial_read))) }
{
    let gtin = Gtin::read(gtin).ok()?;
    let serial = Serial::read(serial).ok()?;
    Some(Step::Verify {
        party,
        key: PackKey { gtin, serial },
    })
}

/// Takes the rest of an object, behind its opening brace, with its fields in any order, each once, and says whether it could.
#[inline(always)]
#[tactic(auto, using(crate::proofs::LineFieldsLemmas::no_field, crate::proofs::LineFieldsLemmas::one_more_field, crate::proofs::LineFieldsLemmas::all_fields))]
fn takes_members<'a>(alloc: Global, reader: &mut Reader<'a>, met: &mut LineFields<'a>) -> bool
    requires none { (field : AField) → met_of met.old field ≡ None }
    ensures { IsTrue result → BeginWithFields (begin_object ∷ reader.old) met.new reader.new }
{
    while let Some(next) = next_field(reader) {
        let Some(field) = next else {
            return true;
        };
        if !takes_field(alloc, reader, field, met) {
            return false;
        }
    }
    false
}

/// Takes the key of a field, or the end of the object, which is none.
fn next_field(reader: &mut Reader<'_>) -> Option<Option<LineField>>
    ensures { IfSome result (λ next. MatchOption next
        (reader.old ≡ end_object ∷ reader.new)
        (λ field. reader.old ≡ key (field_name field) ∷ reader.new)) }
{
    match reader.next()? {
        Token::Key(name) => Some(Some(field_named(name)?)),
        Token::EndObject => Some(None),
        _ => None,
    }
}

/// The field of that name, where a line that asks a step may have it.
fn field_named(name: &str) -> Option<LineField>
    ensures { IfSome result (λ field. name.now ≡ field_name field) }
{
    match name {
        "do" => Some(LineField::Do),
        "from" => Some(LineField::From),
        "gtin" => Some(LineField::Gtin),
        "message" => Some(LineField::Message),
        "number" => Some(LineField::Number),
        "party" => Some(LineField::Party),
        "q" => Some(LineField::Q),
        "serial" => Some(LineField::Serial),
        "to" => Some(LineField::To),
        _ => None,
    }
}

/// Takes what stands in a field, by the field's kind. Says whether it could, and the field was not met before.
fn takes_field<'a>(
    alloc: Global,
    reader: &mut Reader<'a>,
    field: LineField,
    met: &mut LineFields<'a>,
) -> bool
    ensures { IsTrue result → (part : LinePart)
        × BeginWithPart reader.old part reader.new × Meets met.old field part met.new }
{
    match field {
        LineField::Do => puts(&mut met.asked, reader.take_text()),
        LineField::From => puts(&mut met.from, take_number(reader)),
        LineField::Gtin => puts(&mut met.gtin, reader.take_text()),
        LineField::Message => puts(&mut met.message, take_shared(alloc, reader)),
        LineField::Number => puts(&mut met.number, take_number(reader)),
        LineField::Party => puts(&mut met.party, take_number(reader)),
        LineField::Q => puts(&mut met.q, take_number(reader)),
        LineField::Serial => puts(&mut met.serial, reader.take_text()),
        LineField::To => puts(&mut met.to, take_number(reader)),
        _ => false,
    }
}

/// Takes a whole number of 32 bits.
#[inline(always)]
fn take_number(reader: &mut Reader<'_>) -> Option<u32>
    ensures { IfSome result (λ number. BeginWithPart reader.old (Number number) reader.new) }
{
    let number = u32::try_from(reader.take_whole()?).ok()?;
    Some(number)
}

/// Takes a message.
fn take_shared(alloc: Global, reader: &mut Reader<'_>) -> Option<Shared<Message>>
    ensures { IfSome result (λ message. BeginWithPart reader.old (InMessage message) reader.new) }
{
    let message = take_message(alloc, reader)?;
    Shared::new(alloc, message).ok()
}
