//! Who takes the steps of a system at its ends.

ghost use Rattle.mv_ends.specs.HubEnd.{SameHubEnd};
ghost use Rattle.mv_ends.specs.RepoEnd.{SameRepoEnd};

use mv_ends::{HubEnd, RepoEnd};
use mv_machine::{Refusal, Reply, Step};
use std::snapshot::Snapshot;
use std::thread;
use std::thread::{Promise, Threads};

/// Takes steps at the ends.
pub(crate) trait Hand {
    /// Takes a step at the end of a repository, and gives the end back with the reply.
    fn call(&self, end: RepoEnd, step: Step) -> (RepoEnd, Reply)
        ensures { SameRepoEnd end result.0 };

    /// Takes a step at the hub's end.
    fn call_hub(&self, end: &mut HubEnd, step: Step) -> Reply
        ensures { SameHubEnd end.old end.new }
    {
        hub_called(end, &step)
    }
}

/// The call of a step that a repository's end knows.
fn called(end: RepoEnd, step: &Step) -> (RepoEnd, Reply)
    ensures { SameRepoEnd end result.0 }
{
    let mut end = end;
    match step {
        Step::Submit { from: _, message } => {
            let reply = end.submit(message.get());
            (end, reply)
        }
        Step::Verify { party: _, key } => {
            let reply = end.verify(key);
            (end, reply)
        }
        Step::Apply { from, to: _ } => {
            let reply = end.apply(*from);
            (end, reply)
        }
        _ => (end, Reply::Refused(Refusal::NotYours)),
    }
}

/// The call of a step that the hub's end knows.
fn hub_called(end: &mut HubEnd, step: &Step) -> Reply
    ensures { SameHubEnd end.old end.new }
{
    match step {
        Step::Route { from } => end.route(*from),
        Step::Relay { from, to } => end.relay(*from, *to),
        Step::Repeat { from, to, number } => end.repeat(*from, *to, *number),
        Step::Close { from, to } => end.close(*from, *to),
        _ => Reply::Refused(Refusal::NotYours),
    }
}

/// Whether memory was refused to a step.
fn is_wanting(reply: &Reply) -> bool {
    matches!(reply, Reply::Refused(Refusal::Memory))
}

/// Calls where it stands, and once more where memory was refused.
#[derive(Drop)]
pub(crate) struct Here;

impl Hand for Here {
    fn call(&self, end: RepoEnd, step: Step) -> (RepoEnd, Reply) {
        let (end, reply) = called(end, &step);
        if is_wanting(&reply) {
            called(end, &step)
        } else {
            (end, reply)
        }
    }

    fn call_hub(&self, end: &mut HubEnd, step: Step) -> Reply {
        let reply = hub_called(end, &step);
        if is_wanting(&reply) {
            hub_called(end, &step)
        } else {
            reply
        }
    }
}

/// The end that comes back is the one that went.
#[derive(Drop)]
struct ComesBack(Snapshot<RepoEnd>);

impl Promise<(RepoEnd, Reply)> for ComesBack {
    ghost kept_by = { λ promise back. SameRepoEnd promise.0.value back.0 };
}

/// Calls a repository's end in a thread into which the end is moved, and which is joined; where no thread can be had, it calls where it stands.
#[derive(Drop)]
pub(crate) struct Apart<'a, R>(pub(crate) &'a R);

impl<'a, R: Threads> Hand for Apart<'a, R> {
    fn call(&self, end: RepoEnd, step: Step) -> (RepoEnd, Reply) {
        let promise = ComesBack(Snapshot::of(&end));
        let there = move || -> (RepoEnd, Reply)
            ensures { SameRepoEnd end result.0 }
        { called(end, &step) };
        match thread::spawn_with(self.0, promise, there) {
            Ok(child) => child.join(self.0),
            Err(error) => (error.value)(),
        }
    }
}
