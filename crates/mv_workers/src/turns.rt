//! The turns of each worker.

ghost use Rattle.mv_workers.specs.inside.Desks.{IsFurther, IsLaterHub};

use crate::course::Course;
use crate::desk::Desk;
use crate::gate::Gate;
use crate::pace::Pace;
use crate::waiting::Waiting;
use mv_ends::{HubEnd, repo_end_stays};
use mv_machine::{Refusal, Reply};
use std::alloc::AllocError;
use std::sync::Wait;

/// Whether a call did something, by its reply. Refused where memory was refused to the call.
pub(crate) fn has_moved(reply: &Reply) -> Result<bool, AllocError> {
    match reply {
        Reply::Refused(Refusal::Memory) => Err(AllocError),
        Reply::Refused(_) => Ok(false),
        _ => Ok(true),
    }
}

/// The turns of a repository's worker. It gives back its desk, and whether it ended for want of memory.
pub(crate) fn repo_turns<R: Wait, G: Gate>(
    rt: &R,
    gate: &G,
    course: &Course,
    mut desk: Desk,
) -> (Desk, bool)
    ensures { IsFurther course.now.turns desk result.0 }
{
    repo_end_stays();
    let mut pace = Pace::new(desk.party());
    for _turn in 0..course.turns_once_told(rt) {
        let moved = desk.turn(course.parties, gate);
        if !pace.goes_on(rt, course, moved) {
            break;
        }
    }
    (desk, pace.ends(course))
}

/// A turn of the hub's worker: it routes once from each party, and then relays once on each link on which something may wait.
#[tactic(auto, using(crate::proofs::TurnLemmas::no_later, crate::proofs::TurnLemmas::later_routed, crate::proofs::TurnLemmas::later_relayed))]
fn hub_turn(hub: &mut HubEnd, waiting: &mut Waiting, parties: u32) -> Result<bool, AllocError>
    ensures { IsLaterHub hub.old hub.new }
{
    let mut moved = false;
    for from in 0..parties {
        let reply = hub.route(from);
        waiting.note_routed(from, &reply);
        moved |= has_moved(&reply)?;
    }
    for from in 0..parties {
        if !waiting.has_any(from) {
            continue;
        }
        for to in 0..parties {
            if waiting.has(from, to) {
                let reply = hub.relay(from, to);
                waiting.note_relayed(from, to, &reply);
                moved |= has_moved(&reply)?;
            }
        }
    }
    Ok(moved)
}

/// The turns of the hub's worker. It gives back the hub's end, and whether it ended for want of memory.
#[tactic(auto, using(crate::proofs::TurnLemmas::no_later, crate::proofs::TurnLemmas::later_still))]
pub(crate) fn hub_turns<R: Wait>(rt: &R, course: &Course, mut hub: HubEnd) -> (HubEnd, bool)
    ensures { IsLaterHub hub result.0 }
{
    let mut waiting = Waiting::new();
    let mut pace = Pace::new(course.parties);
    for _turn in 0..course.turns_once_told(rt) {
        let moved = hub_turn(&mut hub, &mut waiting, course.parties);
        if !pace.goes_on(rt, course, moved) {
            break;
        }
    }
    (hub, pace.ends(course))
}
