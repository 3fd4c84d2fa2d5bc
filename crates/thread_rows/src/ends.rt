//! The ends of a system, all at hand.

use crate::hands::Hand;
use mv_ends::{HubEnd, Outcome, RepoEnd, gather, open};
use mv_hub::Parties;
use mv_machine::{Limits, Refusal, Reply, Step};
use mv_message::Party;
use std::alloc::Global;
use std::marker::Model;

/// The ends of one opening, those of the repositories in order of party.
#[derive(Drop)]
pub(crate) struct Ends {
    hub: HubEnd,
    repos: Vec<RepoEnd>,
}

impl Model for Ends {
    ghost use Rattle.mv_machine.specs.State.{State};
    ghost use Rattle.mv_ends.specs.Whole.{AreEnds, state_of};

    ghost Value = { State };

    ghost view = { λ e. state_of e.hub e.repos.items };

    ghost invariant = { λ e. AreEnds e.hub e.repos.items };
}

impl Ends {
    /// The ends of a system of parties with these markets; none where memory was refused.
    pub(crate) fn open(alloc: Global, parties: Parties, limits: Limits) -> Option<Ends> {
        let Ok((hub, repos)) = open(alloc, parties, limits) else {
            return None;
        };
        Some(Ends { hub, repos })
    }

    /// Takes a step at the end of a party, which goes to the hand and comes back.
    pub(crate) fn at<H: Hand>(&mut self, hand: &H, party: Party, step: Step) -> Reply {
        let place = party as usize;
        if place >= self.repos.len() {
            return Reply::Refused(Refusal::Party);
        }
        let (end, reply) = hand.call(self.repos.remove(place), step);
        let Ok(()) = self.repos.insert(place, end) else {
            unreachable!()
        };
        reply
    }

    /// Takes a step at the hub's end.
    pub(crate) fn at_hub<H: Hand>(&mut self, hand: &H, step: Step) -> Reply {
        hand.call_hub(&mut self.hub, step)
    }

    /// All ends, gathered.
    pub(crate) fn gather(self) -> Outcome {
        let Ends { hub, repos } = self;
        gather(hub, repos)
    }
}
