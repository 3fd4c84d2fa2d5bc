//! Whether all that was submitted was carried to all that it was for.
//!
//! An outcome is lawful, so what was routed of a party is where its submissions begin, and what a repository applied of a party is
//! where its link begins. So lengths decide.

ghost use Rattle.std.specs.Prelude.{◌≡◌, ◌↔◌, ◌<◌, ℕ, length, IsTrue};
ghost use Rattle.mv_hub.specs.Record.{routed_from};
ghost use Rattle.mv_hub.specs.Hub.{items_on};
ghost use Rattle.mv_repository.specs.Repository.{items_from};
ghost use Rattle.mv_machine.specs.State.{is_party, submissions_of, log_of};
ghost use Rattle.mv_workers.specs.Plans.{IsCarried};

use mv_ends::Outcome;
use mv_message::Party;
use mv_party::count_from;

/// Whether a repository applied all that was routed to it.
fn has_applied(outcome: &Outcome, party: Party) -> bool
    requires { IsTrue (is_party outcome.now party) }
    ensures { IsTrue result ↔ ((from : ℕ) → from < length outcome.now.hub.parties
        → items_from (log_of outcome.now party) from ≡ items_on outcome.now.hub from party) }
{
    // The outcome is lawful: its record is looked at for that alone.
    let _ = outcome.record();
    let log = outcome.log(party);
    let hub = outcome.hub();
    for from in 0..outcome.parties().len() {
        if count_from(log, from) != hub.total(from, party) as usize {
            return false;
        }
    }
    true
}

/// Whether all that a party submitted was routed.
fn is_routed(outcome: &Outcome, party: Party) -> bool
    requires { IsTrue (is_party outcome.now party) }
    ensures { IsTrue result
        ↔ (routed_from outcome.now.hub.entries party ≡ submissions_of outcome.now party) }
{
    // The outcome is lawful: its record is looked at for that alone.
    let _ = outcome.record();
    outcome.hub().routed_count(party) as usize == outcome.sub(party).len()
}

/// Whether all that was submitted was routed, and each party applied all that was routed to it.
pub(crate) fn is_carried(outcome: &Outcome) -> bool
    ensures { IsTrue result ↔ ((party : ℕ) → party < length outcome.now.hub.parties → IsCarried outcome.now party) }
{
    for party in 0..outcome.parties().len() {
        if !is_routed(outcome, party) || !has_applied(outcome, party) {
            return false;
        }
    }
    true
}
