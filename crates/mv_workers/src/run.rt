//! A run by a plan.

ghost use Rattle.std.specs.Prelude.{◌↔◌, IfOk, IfErr, IfSome, IsTrue};
ghost use Rattle.mv_workers.specs.inside.Crews.{IsBack};
ghost use Rattle.mv_workers.specs.Plans.{IsSound, KeepsPlan, IsComplete, Faults};

use crate::complete::is_carried;
use crate::course::Course;
use crate::crew::{Crew, CrewEnds, Shift};
use crate::gate::Gate;
use crate::plan::{Plan, WorkFault};
use mv_ends::{Outcome, ends_stay_ends, gather};
use std::alloc::Global;
use std::marker::Sync;
use std::sync::Wait;
use std::thread;
use std::thread::Threads;

/// Whether a plan can be run: it has a list for each party, and no answer is planned.
fn is_sound(plan: &Plan) -> bool
    ensures { IsTrue result ↔ IsSound plan.now }
{
    plan.work.as_slice().len() == plan.parties.len() as usize && plan.work.has_no_answer()
}

/// Runs one worker for the hub and one for each repository, each of which takes so many turns at most, and gathers their ends.
///
/// In a turn the hub's worker routes once from each party and then relays once on each link on which something may wait; a
/// repository's worker tries the next message of its party's list once, a query by asking it, and then passes the gate and looks for
/// a frame once for each party. All take their first turn once all have started. A worker ends when memory is refused to it, and when nothing more can come in the
/// whole run; one that can do nothing waits the longer the longer it can't, at most until all are woken.
///
/// No contract says that a run finishes, nor that workers run at once.
pub fn run_workers<R: Threads + Wait + Sync, G: Gate>(
    rt: &R,
    alloc: Global,
    plan: Plan,
    turns: u32,
    gate: &G,
) -> Result<Outcome, WorkFault>
    ensures complete { IfOk result (λ outcome. IsSound plan
        × KeepsPlan plan turns outcome × IsComplete plan outcome) }
    ensures fault { IfErr result (λ fault. Faults plan turns fault) }
{
    if !is_sound(&plan) {
        return Err(WorkFault::Plan);
    }
    let Ok(course) = Course::new(alloc, plan.parties.len(), turns) else {
        return Err(WorkFault::Start);
    };
    let Ok(crew) = Crew::of(alloc, plan) else {
        return Err(WorkFault::Start);
    };
    let shared = &course;
    let back = thread::scope(
        thread::scope_env(),
        rt,
        |scope| -> Option<CrewEnds>
            ensures { IfSome result (λ back. IsBack crew shared.entry.now.turns back) }
        {
            let shift = Shift {
                rt,
                gate,
                course: shared,
            };
            crew.work(scope, &shift)
        },
    );
    let Some(back) = back else {
        return Err(WorkFault::Start);
    };
    ends_stay_ends();
    let outcome = gather(back.hub, back.repos);
    if back.all & is_carried(&outcome) {
        return Ok(outcome);
    }
    if back.short {
        return Err(WorkFault::Memory(outcome));
    }
    Err(WorkFault::Unfinished(outcome))
}
