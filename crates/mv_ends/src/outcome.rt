//! What is gathered of all ends of one opening: what happened in a run.

ghost use Rattle.std.specs.Prelude.{◌≡◌, ◌≤◌, length, IsTrue};
ghost use Rattle.mv_ends.specs.Words.{IsLawful, IsWellFormed, is_party, log_of, opening, submissions_of};
ghost use Rattle.mv_machine.specs.Headline.{HeadlineHolds};
ghost use Rattle.mv_ends.specs.Whole.{AreEnds, KeepsSubmissions, state_of};

use crate::hub_end::HubEnd;
use crate::repo_end::RepoEnd;
use mv_hub::{Entry, Hub, Parties};
use mv_message::{Message, Party, Shared};
use mv_repository::{LogEntry, Repository};
use std::marker::Model;
use std::mem;

/// What happened in a run: the record of the hub, and what each party submitted and applied.
///
/// It is seen as the state of the list machine, with nothing under way, and every outcome is lawful. It keeps the ends, so that no
/// memory is needed to gather them; their rings are given back with it.
pub struct Outcome {
    /// The hub's end, as it came back.
    hub: HubEnd,
    /// The end of each repository, party 0 first, as it came back.
    repos: Vec<RepoEnd>,
}

// Written here, so that the crates above prove nothing of how its ends are dropped.
impl Drop for Outcome {
    fn drop(self) {
        let Self { hub: _, repos: _ } = self;
    }
}

impl Model for Outcome {
    ghost use Rattle.mv_ends.specs.Words.{State};
    ghost use Rattle.mv_ends.specs.Whole.{state_of};
    ghost use Rattle.mv_ends.specs.inside.Whole.{IsOutcome};

    ghost Value = { State };

    ghost view = { λ o. state_of o.hub o.repos.items };

    ghost invariant = { λ o. IsOutcome o.hub o.repos.items };
}

/// Gathers all ends of one opening, the repositories in order of party, whatever their calls and however these followed one another:
/// the outcome has the lists of the ends, unchanged, and is lawful. No party submitted more than it may. The headline holds of it, from the
/// opening on: with it, two repositories that applied the same messages about a pack agree on it. It takes no memory.
#[tactic(auto, using(crate::proofs::LookLemmas::seat_of))]
pub fn gather(mut hub: HubEnd, mut repos: Vec<RepoEnd>) -> Outcome
    requires { AreEnds hub repos.items }
    ensures outcome { result ≡ state_of hub repos.items }
    ensures well_formed { IsWellFormed result }
    ensures lawful { IsLawful result }
    ensures few { KeepsSubmissions result }
    ensures headline { HeadlineHolds (opening result.hub.parties result.limits) result }
{
    let count = hub.hub().parties().len();
    for party in 0..count {
        hub.look_beside(party, &mut repos[party as usize]);
    }
    let outcome = Outcome { hub, repos };
    // It is lawful: its record is looked at for that alone.
    let _ = outcome.record();
    outcome
}

impl Outcome {
    /// Leaves the outcome to the end of the process, which gives all its memory back at once: it is not taken apart. Nothing is
    /// promised of it.
    pub fn leave(self) {
        mem::forget(self);
    }

    /// The parties.
    pub fn parties(&self) -> &Parties
        ensures { result.now ≡ self.now.hub.parties }
    {
        self.hub.hub().parties()
    }

    /// Whether there is a party of this number.
    pub fn is_party(&self, party: Party) -> bool
        ensures { result ≡ is_party self.now party }
    {
        party < self.parties().len()
    }

    /// What a party submitted, the oldest message first.
    #[tactic(auto, using(crate::proofs::OutcomeLemmas::shown))]
    pub fn sub(&self, party: Party) -> &[Shared<Message>]
        requires { IsTrue (is_party self.now party) }
        ensures value { result.now ≡ submissions_of self.now party }
        ensures few { length result.now ≤ self.now.limits.submissions }
    {
        self.repos[party as usize].sub()
    }

    /// The hub's record, the oldest entry first. Whoever looks at it knows that no party submitted more than it may, and that the headline
    /// holds of the outcome, from the opening on: what each repository applied from each sender is a prefix of what the record put on their link for the markets
    /// that it serves, in order and each once, and what was routed from a sender is a prefix of what it submitted; the answers
    /// that a party submitted are those that the log of its repository calls for, in order; over no link is anything applied that
    /// was routed after its closing; and two repositories that applied the same messages about a pack, in whatever order these
    /// came, agree on it.
    pub fn record(&self) -> &[Entry]
        ensures entries { result.now ≡ self.now.hub.entries }
        ensures well_formed { IsWellFormed self.now }
        ensures lawful { IsLawful self.now }
        ensures few { KeepsSubmissions self.now }
        ensures headline { HeadlineHolds (opening self.now.hub.parties self.now.limits) self.now }
    {
        self.hub.record()
    }

    /// What a repository applied, the oldest entry first.
    pub fn log(&self, party: Party) -> &[LogEntry]
        requires { IsTrue (is_party self.now party) }
        ensures { result.now ≡ log_of self.now party }
    {
        self.repository(party).log()
    }

    /// The repository of a party. What it answers is the meaning of its log.
    #[tactic(auto, using(crate::proofs::OutcomeLemmas::shown))]
    pub fn repository(&self, party: Party) -> &Repository
        requires { IsTrue (is_party self.now party) }
        ensures party { result.now.party ≡ party }
        ensures log { result.now.log ≡ log_of self.now party }
    {
        self.repos[party as usize].repository()
    }

    /// The hub.
    pub fn hub(&self) -> &Hub
        ensures value { result.now ≡ self.now.hub }
        ensures window { result.now.window ≡ self.now.limits.window }
    {
        self.hub.hub()
    }
}
