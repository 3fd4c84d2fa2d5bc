//! Lines are read to the parts of a plan.

ghost use Rattle.std.specs.Prelude.{IfErr, IfOk, IfSome, string_bytes};
ghost use Rattle.mv_plan.specs.Drafts.{CanRun, parts_in};
ghost use Rattle.mv_plan.specs.Reading.{IsRead};

use mv_hub::Parties;
use mv_machine::Limits;
use mv_message::Message;
use mv_plan::{Planned, read_plan};
use std::alloc::Global;

/// The parties, the limits and the messages of each party that lines plan; or the text of the first refusal; or neither, where no line
/// opens a plan or the lines were not read.
pub fn parts_or_refusal(
    alloc: Global,
    lines: &[u8],
) -> Result<(Parties, Limits, Vec<Vec<Message>>), Option<String>>
    ensures ok { IfOk result (λ plan. IsRead lines.now (Ok (Some (parts_in plan.0 plan.1 plan.2.items)))) }
    ensures runs { IfOk result (λ plan. CanRun (parts_in plan.0 plan.1 plan.2.items)) }
    ensures err { IfErr result (λ refusal. IfSome refusal (λ text. IsRead lines.now (Err (string_bytes text)))) }
{
    let mut reader = lines;
    match read_plan(alloc, &mut reader) {
        Ok(Planned::Plan(draft)) => Ok(draft.into_parts()),
        Ok(Planned::Refused(text)) => Err(Some(text)),
        _ => Err(None),
    }
}
