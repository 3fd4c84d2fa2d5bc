//! Which links have something to relay.

use mv_link::PARTIES_LIMIT;
use mv_machine::{Refusal, Reply};
use mv_message::Party;

/// The links on which something may wait to be relayed, so that the hub's worker does not try all of them in each turn. No contract
/// speaks of it: a link that is left out is not relayed on, and what a run says follows from what it left.
#[derive(Drop)]
pub(crate) struct Waiting {
    /// For each party the parties to which something may wait, one bit for each.
    links: [u64; PARTIES_LIMIT],
}

impl Waiting {
    /// Nothing was routed yet.
    pub(crate) fn new() -> Waiting {
        Waiting {
            links: [0; PARTIES_LIMIT],
        }
    }

    /// Whether something may wait on a link.
    pub(crate) fn has(&self, from: Party, to: Party) -> bool {
        self.links
            .get(from as usize)
            .is_some_and(|links| *links & bit_of(to) != 0)
    }

    /// Whether something may wait on a link from a party.
    pub(crate) fn has_any(&self, from: Party) -> bool {
        self.links
            .get(from as usize)
            .is_some_and(|links| *links != 0)
    }

    /// Notes what the hub answered as it routed a message of a party: something waits for each party that it reaches, and a receipt
    /// for its sender.
    pub(crate) fn note_routed(&mut self, from: Party, reply: &Reply) {
        if let Reply::Routed { reach, .. } = reply
            && let Some(links) = self.links.get_mut(from as usize)
        {
            *links |= bit_of(from);
            let reached = reach.to_reach();
            for to in reached.as_slice() {
                *links |= bit_of(*to);
            }
        }
    }

    /// Notes what the hub answered as it relayed on a link: nothing waits there where all was relayed.
    pub(crate) fn note_relayed(&mut self, from: Party, to: Party, reply: &Reply) {
        if let Reply::Refused(Refusal::Nothing) = reply
            && let Some(links) = self.links.get_mut(from as usize)
        {
            *links &= !bit_of(to);
        }
    }
}

/// The bit of a party.
fn bit_of(party: Party) -> u64 {
    1_u64.wrapping_shl(party)
}
