//! What each party is to submit.

ghost use Rattle.std.specs.Prelude.{◌≡◌, ◌↔◌, ◌<◌, ℕ, [], length, slice_index_or, IfOk, IsTrue};
ghost use Rattle.std.specs.List.{list_any};
ghost use Rattle.mv_party.specs.Site.{answers_in};
ghost use Rattle.mv_workers.specs.Work.{lists_of, is_answer};

use mv_ends::Parcel;
use mv_message::{Message, Shared};
use std::alloc::{AllocError, Global};
use std::marker::Model;

/// What each party of a plan is to submit, in order: a list for each, that of party 0 first. Contracts see the lists of messages.
#[derive(Drop)]
pub struct Work {
    /// The lists.
    lists: Vec<Vec<Message>>,
}

impl Model for Work {
    ghost use Rattle.std.specs.Prelude.{List};
    ghost use Rattle.mv_message.specs.declared.message.Message.{Message};
    ghost use Rattle.mv_workers.specs.Work.{lists_of};

    ghost Value = { List (List Message) };

    ghost view = { λ work. lists_of work.lists.items };
}

impl Work {
    /// These lists.
    pub fn new(lists: Vec<Vec<Message>>) -> Work
        ensures { result ≡ lists_of lists.items }
    {
        Work { lists }
    }

    /// The lists, that of party 0 first.
    pub fn as_slice(&self) -> &[Vec<Message>]
        ensures { lists_of result.now ≡ self.now }
    {
        self.lists.as_slice()
    }

    /// Whether no answer is among what the parties are to submit.
    #[tactic(auto, using(crate::proofs::WorkLemmas::list_found, crate::proofs::WorkLemmas::lists_counted, crate::proofs::WorkLemmas::none_answers))]
    pub(crate) fn has_no_answer(&self) -> bool
        ensures { IsTrue result ↔ ((party : ℕ) → party < length self.now → answers_in (slice_index_or self.now party []) ≡ []) }
    {
        for party in 0..self.lists.len() {
            if has_answer(self.lists[party].as_slice()) {
                return false;
            }
        }
        true
    }

    /// The messages, each in memory of its own. Refused for want of memory.
    pub(crate) fn into_parcels(
        self,
        alloc: Global,
    ) -> Result<Vec<Vec<Parcel<Shared<Message>>>>, AllocError>
        ensures { IfOk result (λ lists. lists_of lists.items ≡ self) }
    {
        let mut lists = Vec::with_capacity(alloc, self.lists.len())?;
        for list in self.lists {
            lists.push_reserved(parcels_of(alloc, list)?);
        }
        Ok(lists)
    }
}

/// The messages of a list, each in memory of its own. Refused for want of memory.
fn parcels_of(alloc: Global, list: Vec<Message>) -> Result<Vec<Parcel<Shared<Message>>>, AllocError>
    ensures { IfOk result (λ parcels. parcels.items ≡ list.items) }
{
    let mut parcels = Vec::with_capacity(alloc, list.len())?;
    for message in list {
        parcels.push_reserved(Parcel::of_message(alloc, message)?);
    }
    Ok(parcels)
}

/// Whether a message is the answer to a query.
fn is_answer(message: &Message) -> bool
    ensures { result ≡ is_answer message.now }
{
    matches!(message, Message::Answer { .. })
}

/// Whether an answer is among messages.
fn has_answer(messages: &[Message]) -> bool
    ensures { result ≡ list_any is_answer messages.now }
{
    messages.iter().any(is_answer)
}
