//! A plan that grows by a message at a time.

ghost use Rattle.std.specs.Prelude.{◌≡◌, ◌<◌, ◌∷◌, [], length, map, replicate, nat_lt, IfOk, OnOk, OnErr};
ghost use Rattle.mv_party.specs.Site.{answers_in};

use mv_hub::Parties;
use mv_machine::Limits;
use mv_message::{Message, Party};
use std::alloc::{AllocError, Global};
use std::marker::Model;

/// A plan that can be run, seen as its parts.
#[derive(Drop)]
pub struct Draft {
    /// The parties, and the markets that each serves.
    parties: Parties,
    /// What a link keeps, how much is under way at most, and how many messages each party submits in all.
    limits: Limits,
    /// What each party is to submit, party 0 first.
    work: Vec<Vec<Message>>,
}

impl Model for Draft {
    ghost use Rattle.mv_plan.specs.Drafts.{Parts, parts_in, CanRun};

    ghost Value = { Parts };

    ghost view = { λ d. parts_in d.parties d.limits d.work.items };

    ghost invariant = { λ d. CanRun (parts_in d.parties d.limits d.work.items) };
}

impl Draft {
    ghost use Rattle.mv_plan.specs.Drafts.{parts_in, CanRun, new_parts, with_message};

    /// No party has anything to submit.
    pub(crate) fn new(alloc: Global, parties: Parties, limits: Limits) -> Result<Draft, AllocError>
        ensures { IfOk result (λ draft. draft ≡ new_parts parties limits) }
    {
        let work = empty_lists(alloc, parties.len())?;
        Ok(Draft {
            parties,
            limits,
            work,
        })
    }

    /// Whether there is a party of this number.
    pub(crate) fn is_party(&self, party: Party) -> bool
        ensures { result ≡ nat_lt party (length self.now.parties) }
    {
        party < self.parties.len()
    }

    /// Plans one more message of a party.
    pub(crate) fn add(&mut self, party: Party, message: Message) -> Result<(), AllocError>
        requires party { party < length self.old.parties }
        requires own { answers_in (message ∷ []) ≡ [] }
        ensures ok { OnOk result (self.new ≡ with_message self.old party message) }
        ensures err { OnErr result (self.new ≡ self.old) }
    {
        self.work[party as usize].push(message)?;
        Ok(())
    }

    /// The parties, the limits, and what each party is to submit, party 0 first.
    pub fn into_parts(self) -> (Parties, Limits, Vec<Vec<Message>>)
        ensures parts { parts_in result.0 result.1 result.2.items ≡ self }
        ensures sound { CanRun self }
    {
        (self.parties, self.limits, self.work)
    }
}

/// So many lists of nothing.
fn empty_lists(alloc: Global, count: u32) -> Result<Vec<Vec<Message>>, AllocError>
    ensures { IfOk result (λ lists. map (λ list. list.items) lists.items ≡ replicate count []) }
{
    let mut lists = Vec::with_capacity(alloc, count as usize)?;
    for _ in 0..count {
        lists.push_reserved(Vec::new(alloc));
    }
    Ok(lists)
}
