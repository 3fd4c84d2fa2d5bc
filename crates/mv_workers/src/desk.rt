//! What a repository's worker has, and its turn.

ghost use Rattle.std.specs.Prelude.{◌≡◌, ◌==◌, ◌++◌, ◌∷◌, [], length, IfErr, OnOk};
ghost use Rattle.mv_ends.specs.RepoEnd.{SameRepoEnd};
ghost use Rattle.mv_workers.specs.inside.Desks.{own_of, IsUnused, work_at, IsFurther};

use crate::gate::Gate;
use crate::turns::has_moved;
use mv_ends::{Parcel, RepoEnd, Unsubmitted, repo_end_stays};
use mv_machine::Reply;
use mv_message::{Message, Shared};
use std::alloc::AllocError;
use std::collections::VecDeque;

/// A repository's end, with what its party has still to submit there. Each message is in memory of
/// its own: the end takes it by value.
#[derive(Drop)]
pub(crate) struct Desk {
    /// The end.
    end: RepoEnd,
    /// The messages, the next one first.
    list: VecDeque<Parcel<Shared<Message>>>,
}

impl Desk {
    /// An end where nothing was submitted, and these messages.
    pub(crate) fn new(end: RepoEnd, list: Vec<Parcel<Shared<Message>>>) -> Desk
        requires { IsUnused end }
        ensures end { (result.end ≡ end) × IsUnused result.end }
        ensures work { work_at result ≡ list.items }
    {
        let list = VecDeque::from(list);
        Desk { end, list }
    }

    /// The number of its party.
    pub(crate) fn party(&self) -> u32 {
        self.end.party()
    }

    /// A turn: the next message is tried once, and then it is looked once for a frame from each party, each time behind the gate.
    #[tactic(auto, using(crate::proofs::TurnLemmas::own_applied))]
    pub(crate) fn turn<G: Gate>(&mut self, parties: u32, gate: &G) -> Result<bool, AllocError>
        ensures { IsFurther 1 self.old self.new }
    {
        repo_end_stays();
        let party = self.end.party();
        let mut moved = self.submit_next()?;
        for from in 0..parties {
            gate.pass(party);
            moved |= has_moved(&self.end.apply(from))?;
        }
        Ok(moved)
    }

    /// Tries the next message once: a query is asked. It is left where it was refused.
    fn submit_next(&mut self) -> Result<bool, AllocError>
        ensures { IsFurther 1 self.old self.new }
    {
        repo_end_stays();
        let Some(message) = self.list.pop_front() else {
            return Ok(false);
        };
        match submit_one(&mut self.end, message) {
            Ok(_) => Ok(true),
            Err(back) => {
                self.list.push_front_reserved(back.message);
                has_moved(&Reply::Refused(back.refusal))
            }
        }
    }

    /// The end, and whether nothing is left to submit.
    pub(crate) fn into_end(self) -> (RepoEnd, bool)
        ensures end { result.0 ≡ self.end }
        ensures over { result.1 ≡ (length self.list.items == 0) }
    {
        (self.end, self.list.is_empty())
    }
}

/// Tries to submit a message once: a query is asked.
#[tactic(auto, using(crate::proofs::TurnLemmas::own_asked, crate::proofs::TurnLemmas::own_submitted))]
fn submit_one(end: &mut RepoEnd, message: Parcel<Shared<Message>>) -> Result<u32, Unsubmitted>
    ensures same { SameRepoEnd end.old end.new }
    ensures ok { OnOk result (own_of end.new ≡ own_of end.old ++ message ∷ []) }
    ensures refused { IfErr result (λ back. own_of end.new ≡ own_of end.old) }
    ensures back { IfErr result (λ back. back.message ≡ message) }
{
    if let Message::Query { key } = message.message() {
        return match end.ask(key) {
            Reply::Asked { q } => Ok(q),
            Reply::Refused(refusal) => Err(Unsubmitted { message, refusal }),
            // `ask` answers nothing else.
            _ => unreachable!(),
        };
    }
    end.submit_own(message)
}
