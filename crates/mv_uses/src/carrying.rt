//! A message is carried from the hub's end to the end of a repository.

ghost use Rattle.mv_ends.specs.HubEnd.{Relays, Routes, SameHubEnd};
ghost use Rattle.mv_ends.specs.RepoEnd.{Applies, SameRepoEnd};
ghost use Rattle.mv_ends.specs.declared.hub_end.HubEnd.{HubEnd as AnEnd};

use mv_ends::{HubEnd, RepoEnd, hub_end_stays};
use mv_machine::Reply;
use mv_message::Party;

/// Routes the next message of a party, relays once on its link to a repository, and has the repository look for a frame. Each reply is
/// that of its call, and the ends are still those of their opening, so that they can be gathered.
pub fn carry(hub: &mut HubEnd, repo: &mut RepoEnd, from: Party) -> (Reply, Reply, Reply)
    ensures replies { (between : AnEnd) × Routes from hub.old between result.0
        × Relays from repo.old.site.party between hub.new result.1 × Applies from repo.old repo.new result.2 }
    ensures same { SameHubEnd hub.old hub.new × SameRepoEnd repo.old repo.new }
{
    hub_end_stays();
    let routed = hub.route(from);
    let relayed = hub.relay(from, repo.party());
    (routed, relayed, repo.apply(from))
}
