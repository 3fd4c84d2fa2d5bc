//! Starts a worker for each end, and takes the ends back.

ghost use Rattle.std.specs.Prelude.{◌≡◌, ◌≤◌, [], All, map, vec_len, vec_capacity, IfOk, IfSome};
ghost use Rattle.mv_ends.specs.Laws.{AreSameRepos};
ghost use Rattle.mv_workers.specs.inside.Desks.{AllUnused, IsFurther, IsLaterHub};

use crate::course::Course;
use crate::desk::Desk;
use crate::gate::Gate;
use crate::plan::Plan;
use crate::turns::{hub_turns, repo_turns};
use mv_ends::{HubEnd, Parcel, RepoEnd, open};
use mv_message::{Message, Shared};
use std::alloc::{AllocError, Global};
use std::marker::Sync;
use std::snapshot::Snapshot;
use std::sync::Wait;
use std::thread::{Promise, PromisedHandle, Scope, Threads};

/// What a repository's worker gives back is that desk, behind so many turns at most, and whether it ended for want of memory.
#[derive(Drop)]
pub(crate) struct DeskPromise(Snapshot<Desk>, u32);

impl Promise<(Desk, bool)> for DeskPromise {
    ghost kept_by = { λ p r. IsFurther p.1 p.0.value r.0 };
}

/// The handle of a repository's worker.
type RepoHandle = PromisedHandle<(Desk, bool), DeskPromise>;

/// What the hub's worker gives back is that end, with each link still open that was open, and whether it ended for want of memory.
#[derive(Drop)]
pub(crate) struct HubPromise(Snapshot<HubEnd>);

impl Promise<(HubEnd, bool)> for HubPromise {
    ghost kept_by = { λ p r. IsLaterHub p.0.value r.0 };
}

/// The handle of the hub's worker.
type HubHandle = PromisedHandle<(HubEnd, bool), HubPromise>;

/// What the workers of a run are given, beside their ends.
#[derive(Drop)]
pub(crate) struct Shift<'s, R, G> {
    /// What they wait by.
    pub rt: &'s R,
    /// What a repository's worker passes before it looks for a frame.
    pub gate: &'s G,
    /// What they share.
    pub course: &'s Course,
}

/// The ends of a plan's parties and what each party is to submit, with room for what their workers need.
#[derive(Drop)]
pub(crate) struct Crew {
    /// The hub's end, and that of each party's repository, party 0 first.
    ends: (HubEnd, Vec<RepoEnd>),
    /// What each party is to submit.
    lists: Vec<Vec<Parcel<Shared<Message>>>>,
    /// Room for the handles of the repositories' workers.
    handles: Vec<RepoHandle>,
    /// Room for the repositories' ends, as they come back.
    repos: Vec<RepoEnd>,
    /// There is a list for each end.
    ghost each: { vec_len ends.1 ≡ vec_len lists },
    /// Nothing was submitted.
    ghost unused: { AllUnused ends.1.items },
    /// No worker has started, and there is room for the handle of each.
    ghost for_handles: { (handles.items ≡ []) × (vec_len ends.1 ≤ vec_capacity handles) },
    /// No end has come back, and there is room for each.
    ghost for_repos: { (repos.items ≡ []) × (vec_len ends.1 ≤ vec_capacity repos) },
}

/// The ends behind the turns of all workers, and how these ended.
#[derive(Drop)]
pub(crate) struct CrewEnds {
    /// The hub's end.
    pub hub: HubEnd,
    /// The end of each party's repository, party 0 first.
    pub repos: Vec<RepoEnd>,
    /// Whether all that the parties were to submit was submitted.
    pub all: bool,
    /// Whether memory was refused to a worker.
    pub short: bool,
}

impl Crew {
    ghost use Rattle.mv_workers.specs.Work.{lists_of};
    ghost use Rattle.mv_workers.specs.Plans.{IsSound};
    ghost use Rattle.mv_workers.specs.inside.Crews.{AreBegun, HasTurns, IsCrewOf, IsBack, end_of, work_of};

    /// Gets all that a run by a plan needs. Refused for want of memory.
    #[tactic(auto, using(crate::proofs::PlanLemmas::fresh_ends))]
    pub(crate) fn of(alloc: Global, plan: Plan) -> Result<Crew, AllocError>
        requires { IsSound plan }
        ensures { IfOk result (λ crew. IsCrewOf plan crew) }
    {
        let count = plan.parties.len() as usize;
        let handles = Vec::with_capacity(alloc, count)?;
        let repos = Vec::with_capacity(alloc, count)?;
        let lists = plan.work.into_parcels(alloc)?;
        let ends = open(alloc, plan.parties, plan.limits)?;
        Ok(Crew {
            ends,
            lists,
            handles,
            repos,
        })
    }

    /// Runs a worker for the hub and one for each repository. None where one can't be started: the others end before their first
    /// turn.
    pub(crate) fn work<'s, E, R: Threads + Wait + Sync, G: Gate>(
        self,
        scope: &Scope<'s, E>,
        shift: &Shift<'s, R, G>,
    ) -> Option<CrewEnds>
        ensures { IfSome result (λ back. IsBack self shift.now.course.now.turns back) }
    {
        let started = Crew::start(scope, shift, self.ends, self.lists, self.handles);
        shift.course.tell(shift.rt, started.is_some());
        let (hub, handles) = started?;
        Some(Crew::join(shift, hub, handles, self.repos))
    }

    /// Starts all workers, the hub's first, and puts the handles of the others into a list that has room for them. None where one
    /// can't be started.
    fn start<'s, E, R: Wait + Sync, G: Gate>(
        scope: &Scope<'s, E>,
        shift: &Shift<'s, R, G>,
        ends: (HubEnd, Vec<RepoEnd>),
        lists: Vec<Vec<Parcel<Shared<Message>>>>,
        into: Vec<RepoHandle>,
    ) -> Option<(HubHandle, Vec<RepoHandle>)>
        requires each { vec_len ends.1 ≡ vec_len lists }
        requires unused { AllUnused ends.1.items }
        requires room { (into.items ≡ []) × (vec_len ends.1 ≤ vec_capacity into) }
        ensures hub { IfSome result (λ it. it.0.promise.0.value ≡ ends.0) }
        ensures ends { IfSome result (λ it. map end_of it.1.items ≡ ends.1.items) }
        ensures work { IfSome result (λ it. map work_of it.1.items ≡ lists_of lists.items) }
        ensures turns { IfSome result (λ it. All (HasTurns shift.now.course.now.turns) it.1.items) }
    {
        let (hub, repos) = ends;
        let (mut handles, mut lists) = (into, lists.into_iter());
        let first = start_hub(scope, shift.rt, shift.course, hub)?;
        for end in repos {
            let Some(list) = lists.next() else {
                // There is one for each end.
                unreachable!()
            };
            handles.push_reserved(start_repo(scope, shift, Desk::new(end, list))?);
        }
        Some((first, handles))
    }

    /// Joins all workers, the repositories' in order: their ends come back into a list that has room for them.
    fn join<R: Threads, G>(
        shift: &Shift<'_, R, G>,
        hub: HubHandle,
        handles: Vec<RepoHandle>,
        into: Vec<RepoEnd>,
    ) -> CrewEnds
        requires room { (into.items ≡ []) × (vec_len handles ≤ vec_capacity into) }
        requires turns { All (HasTurns shift.now.course.now.turns) handles.items }
        ensures hub { IsLaterHub hub.promise.0.value result.hub }
        ensures repos { AreSameRepos (map end_of handles.items) result.repos.items }
        ensures begun { AreBegun shift.now.course.now.turns (map work_of handles.items) result.repos.items result.all }
    {
        let (hub, mut short) = hub.join(shift.rt);
        let (mut repos, mut all) = (into, true);
        for handle in handles {
            let (desk, is_short) = handle.join(shift.rt);
            let (end, is_over) = desk.into_end();
            repos.push_reserved(end);
            all &= is_over;
            short |= is_short;
        }
        CrewEnds {
            hub,
            repos,
            all,
            short,
        }
    }
}

/// Starts the hub's worker. None where it can't be started.
fn start_hub<'s, E, R: Wait + Sync>(
    scope: &Scope<'s, E>,
    rt: &'s R,
    course: &'s Course,
    hub: HubEnd,
) -> Option<HubHandle>
    ensures { IfSome result (λ handle. handle.promise.0.value ≡ hub) }
{
    let promise = HubPromise(Snapshot::of(&hub));
    let worker = move || -> (HubEnd, bool)
        ensures { IsLaterHub hub result.0 }
    { hub_turns(rt, course, hub) };
    scope.spawn_with(promise, worker).ok()
}

/// Starts the worker of a repository. None where it can't be started.
fn start_repo<'s, E, R: Wait + Sync, G: Gate>(
    scope: &Scope<'s, E>,
    shift: &Shift<'s, R, G>,
    desk: Desk,
) -> Option<RepoHandle>
    ensures desk { IfSome result (λ handle. handle.promise.0.value ≡ desk) }
    ensures turns { IfSome result (λ handle. handle.promise.1 ≡ shift.now.course.now.turns) }
{
    let promise = DeskPromise(Snapshot::of(&desk), shift.course.turns);
    let (rt, gate, course) = (shift.rt, shift.gate, shift.course);
    let worker = move || -> (Desk, bool)
        ensures { IsFurther course.entry.now.turns desk result.0 }
    { repo_turns(rt, gate, course, desk) };
    scope.spawn_with(promise, worker).ok()
}
