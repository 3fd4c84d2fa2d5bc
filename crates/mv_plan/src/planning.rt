//! What a line adds to a plan.

ghost use Rattle.std.specs.Prelude.{◌≡◌, Ok, Some, IfOk, OnErr, option_map, string_bytes};
ghost use Rattle.serde_json.specs.Written.{compact_text};
ghost use Rattle.mv_format.specs.Openings.{map_err, code_of};
ghost use Rattle.mv_format.specs.ReplyLines.{refused, refusal_value};
ghost use Rattle.mv_hub.specs.Parties.{parties_of};
ghost use Rattle.mv_plan.specs.Planning.{begins, plan_step, plan_request, plan_line};
ghost use Rattle.mv_plan.specs.inside.Planning.{planned_by};

use crate::draft::Draft;
use json::Scratch;
use mv_format::{
    LineFault, MarketLists, OpenFault, Request, fault_text, limits_of, parties_of, refusal_text,
    reply_text,
};
use mv_machine::{Limits, Refusal, Reply, Step};
use mv_message::Message;
use mv_party::is_query_or_answer;
use std::alloc::{AllocError, Global};

/// Plans what a line asks, where none was refused before it. The text is that of its refusal, where it is refused.
pub(crate) fn plan_line(
    alloc: Global,
    scratch: &mut Scratch,
    draft: &mut Option<Draft>,
    line: &[u8],
) -> Result<Option<String>, AllocError>
    ensures ok { IfOk result (λ refusal. planned_by (option_map string_bytes refusal) draft.new
        ≡ plan_line (Ok draft.old) line.now) }
    ensures err { OnErr result (draft.new ≡ draft.old) }
{
    match Request::read_in(alloc, scratch, line) {
        Ok(request) => plan_request(alloc, draft, request),
        Err(LineFault::Memory) => Err(AllocError),
        Err(fault) => Ok(Some(fault_text(alloc, &fault)?)),
    }
}

/// Plans this: C1, C2.
fn plan_request(
    alloc: Global,
    draft: &mut Option<Draft>,
    request: Request,
) -> Result<Option<String>, AllocError>
    ensures ok { IfOk result (λ refusal. planned_by (option_map string_bytes refusal) draft.new
        ≡ plan_request draft.old request) }
    ensures err { OnErr result (draft.new ≡ draft.old) }
{
    match request {
        Request::Open {
            parties,
            submissions,
            uplink,
            window,
            wire,
        } => match draft {
            Some(_) => refuse(alloc, OpenFault::AlreadyOpen),
            None => begin(
                alloc,
                draft,
                parties,
                limits_of(window, wire, uplink, submissions),
            ),
        },
        Request::Step(step) => match draft {
            None => refuse(alloc, OpenFault::NotOpen),
            Some(draft) => plan_step(alloc, draft, &step),
        },
    }
}

/// Begins what an opening begins: H1 to H3, O1 to O4.
fn begin(
    alloc: Global,
    draft: &mut Option<Draft>,
    lists: MarketLists,
    limits: Result<Limits, OpenFault>,
) -> Result<Option<String>, AllocError>
    ensures ok { IfOk result (λ refusal. planned_by (option_map string_bytes refusal) draft.new
        ≡ begins (map_err OpenFault.Parties (parties_of lists)) limits) }
    ensures err { OnErr result (draft.new ≡ draft.old) }
{
    let parties = match parties_of(alloc, lists) {
        Ok(parties) => parties,
        Err(OpenFault::Memory) => return Err(AllocError),
        Err(fault) => return refuse(alloc, fault),
    };
    match limits {
        Ok(limits) => {
            *draft = Some(Draft::new(alloc, parties, limits)?);
            Ok(None)
        }
        Err(fault) => refuse(alloc, fault),
    }
}

/// Plans a step: C3, S1, S2.
fn plan_step(alloc: Global, draft: &mut Draft, step: &Step) -> Result<Option<String>, AllocError>
    ensures ok { IfOk result (λ refusal. planned_by (option_map string_bytes refusal) (Some draft.new)
        ≡ plan_step draft.old step.now) }
    ensures err { OnErr result (draft.new ≡ draft.old) }
{
    match step {
        Step::Submit { from, message } => {
            if !draft.is_party(*from) {
                return refuse_step(alloc, Refusal::Party);
            }
            if is_query_or_answer(message.get()) {
                return refuse_step(alloc, Refusal::NotYours);
            }
            // The plan has a message of its own, which it hands on to the party's end.
            draft.add(*from, message.get().copy(alloc)?)?;
            Ok(None)
        }
        Step::Verify { party, key } => {
            if !draft.is_party(*party) {
                return refuse_step(alloc, Refusal::Party);
            }
            draft.add(*party, Message::Query { key: key.copy() })?;
            Ok(None)
        }
        _ => Ok(Some(refusal_text(alloc, "C3")?)),
    }
}

/// What `plan_request` gives for a line that is refused as such a step is: its text.
fn refuse_step(alloc: Global, refusal: Refusal) -> Result<Option<String>, AllocError>
    ensures { IfOk result (λ text.
        option_map string_bytes text ≡ Some (compact_text (refusal_value refusal))) }
{
    Ok(Some(reply_text(alloc, &Reply::Refused(refusal))?))
}

/// What `plan_request` gives for a line that is refused by what is open: its text.
fn refuse(alloc: Global, fault: OpenFault) -> Result<Option<String>, AllocError>
    ensures { IfOk result (λ text.
        option_map string_bytes text ≡ Some (compact_text (refused (code_of fault)))) }
{
    Ok(Some(refusal_text(alloc, fault.code())?))
}
