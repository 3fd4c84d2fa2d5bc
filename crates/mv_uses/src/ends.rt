//! The ends of a system, called in loops, and what follows of what is gathered of them.

ghost use Rattle.std.specs.Prelude.{◌≡◌, IfSome, IsTrue};
ghost use Rattle.mv_repository.specs.Agreement.{HaveSameAbout};
ghost use Rattle.mv_repository.specs.Verdict.{local_verdict};
ghost use Rattle.mv_machine.specs.State.{is_party, log_of};
ghost use Rattle.mv_machine.specs.Stamps.{RepositoriesAgree};
ghost use Rattle.mv_ends.specs.HubEnd.{SameHubEnd};
ghost use Rattle.mv_ends.specs.Laws.{AreSameRepos};

use mv_ends::{
    HubEnd, Outcome, RepoEnd, ends_stay_ends, gather, hub_end_stays, open, repo_ends_stay,
};
use mv_hub::Parties;
use mv_machine::Limits;
use mv_message::{Message, Party};
use mv_pack::PackKey;
use mv_repository::Local;
use std::alloc::Global;

/// Has each party submit a message.
fn submit_at_each(repos: &mut Vec<RepoEnd>, message: &Message)
    ensures { AreSameRepos repos.old.items repos.new.items }
{
    repo_ends_stay();
    for end in repos.iter_mut() {
        end.submit(message);
    }
}

/// Routes the next message of a party, and relays once on each link from it.
fn carry_from(hub: &mut HubEnd, from: Party)
    ensures { SameHubEnd hub.old hub.new }
{
    hub_end_stays();
    hub.route(from);
    for to in 0..hub.hub().parties().len() {
        hub.relay(from, to);
    }
}

/// Has each repository look for a frame from a party.
fn apply_at_each(repos: &mut Vec<RepoEnd>, from: Party)
    ensures { AreSameRepos repos.old.items repos.new.items }
{
    repo_ends_stay();
    for end in repos.iter_mut() {
        end.apply(from);
    }
}

/// Opens the ends of a system, has each party submit a message, carries that of party 0 to all, and gathers the ends. Two repositories
/// of what is gathered that have the same messages about a pack, in whatever order these came, agree on it. None where memory is refused.
pub fn outcome_in_turn(
    alloc: Global,
    parties: Parties,
    limits: Limits,
    message: &Message,
) -> Option<Outcome>
    ensures { IfSome result (λ outcome. RepositoriesAgree outcome) }
{
    let Ok((mut hub, mut repos)) = open(alloc, parties, limits) else {
        return None;
    };
    repo_ends_stay();
    submit_at_each(&mut repos, message);
    carry_from(&mut hub, 0);
    apply_at_each(&mut repos, 0);
    ends_stay_ends();
    Some(gather(hub, repos))
}

/// The verdicts of two repositories of an outcome on a pack: where both have the same messages about it, in whatever order these
/// came, they are one.
pub fn verdicts_in_one_outcome(
    outcome: &Outcome,
    one: Party,
    other: Party,
    pack: &PackKey,
) -> (Local, Local)
    requires one { IsTrue (is_party outcome.now one) }
    requires other { IsTrue (is_party outcome.now other) }
    ensures first { result.0 ≡ local_verdict pack.now (log_of outcome.now one) }
    ensures second { result.1 ≡ local_verdict pack.now (log_of outcome.now other) }
    ensures agreed { HaveSameAbout pack.now (log_of outcome.now one) (log_of outcome.now other) → result.0 ≡ result.1 }
{
    let _ = outcome.record();
    (
        outcome.repository(one).verify(pack),
        outcome.repository(other).verify(pack),
    )
}
