//! One party of a system.

ghost use Rattle.std.specs.Prelude.{◌≡◌, ◌<◌, ◌≤◌, ◌+◌, ◌∷◌, [], ◌++◌, List, ℕ, length, slice_get, vec_capacity, option_to_list, None, Some, IfOk, IfErr, OnOk, OnErr, IsErrOf, is_some, false};
ghost use Rattle.mv_party.specs.Words.{Item as AnItem, LogEntry as ALogEntry, Query, SUBMISSIONS_LIMIT, answer_after, is_query_or_answer};
ghost use Rattle.std.specs.Option.{option_copied};
ghost use Rattle.mv_link.specs.declared.incoming.Look.TheVariants.{Next};
ghost use Rattle.mv_link.specs.declared.limits.TheConstants.{NUMBER_LIMIT};
ghost use Rattle.mv_link.specs.Fault.{FailsBy};
ghost use Rattle.mv_link.specs.Receiving.{look_at};
ghost use Rattle.mv_party.specs.Site.{new_site, is_full, with_submission, with_applied, count_from, answer_number, answers_in, IsLawfulParty};
ghost use Rattle.mv_party.specs.Calls.{unless_fault, submit_fault, ask_fault, answer_fault, apply_fault, taken_by, with_taken};

use crate::{SiteFault, Taken};
use mv_link::{Frame, Incoming, Item, Look};
use mv_message::{Message, Party, Shared};
use mv_pack::PackKey;
use mv_repository::{LogEntry, Repository};
use std::alloc::{AllocError, Global};
use std::marker::Model;

/// One party of a system: what it submitted, its repository, and the receiving ends of the links to it.
pub struct Site {
    /// Where queries get their memory.
    alloc: Global,
    /// How many messages it submits in all, at most.
    limit: u32,
    /// What it submitted, the oldest message first.
    submissions: Vec<Shared<Message>>,
    /// What it applied, and what that means.
    repository: Repository,
    /// The receiving end of the link from each party, that from party 0 first.
    accepted: Vec<Incoming>,
}

// Written here, so that the crates above prove nothing of how its parts are dropped.
impl Drop for Site {
    fn drop(self) {
        let Self {
            alloc: _,
            limit: _,
            submissions: _,
            repository: _,
            accepted: _,
        } = self;
    }
}

impl Model for Site {
    ghost use Rattle.std.specs.Prelude.{length};
    ghost use Rattle.mv_party.specs.Site.{SiteState};
    ghost use Rattle.mv_party.specs.inside.Kept.{site_of, IsSite};

    ghost Value = { SiteState };

    ghost view = { λ s.
        site_of s.limit s.submissions.items s.repository (length s.accepted.items) };

    ghost invariant = { λ s. IsSite
        (site_of s.limit s.submissions.items s.repository (length s.accepted.items))
        s.accepted.items };
}

impl Site {
    /// A party that did nothing yet, one of so many, which submits so many messages at most. Its number is not compared with theirs.
    /// Refused for want of memory.
    pub fn new(alloc: Global, party: Party, parties: u32, limit: u32) -> Result<Site, AllocError>
        requires { limit ≤ SUBMISSIONS_LIMIT }
        ensures { IfOk result (λ site. site ≡ new_site party parties limit) }
    {
        let accepted = vec![in alloc; Incoming::new(); parties as usize]?;
        Ok(Site {
            alloc,
            limit,
            submissions: Vec::new(alloc),
            repository: Repository::new(alloc, party),
            accepted,
        })
    }

    /// How many parties there are, itself among them.
    pub fn parties(&self) -> usize
        ensures { result ≡ self.now.parties }
    {
        self.accepted.len()
    }

    /// What it submitted, the oldest message first.
    pub fn submissions(&self) -> &[Shared<Message>]
        ensures value { result.now ≡ self.now.submissions }
        ensures few { length result.now ≤ self.now.limit }
        ensures lawful { IsLawfulParty self.now.parties self.now.submissions self.now.log }
    {
        self.submissions.as_slice()
    }

    /// Its submission at a place, counted from 0.
    pub fn submission(&self, place: usize) -> Option<&Shared<Message>>
        ensures { option_copied result ≡ slice_get self.now.submissions place }
    {
        self.submissions.get(place)
    }

    /// Its repository.
    pub fn repository(&self) -> &Repository
        ensures party { result.now.party ≡ self.now.party }
        ensures log { result.now.log ≡ self.now.log }
    {
        &self.repository
    }

    /// Whether it can submit a message now, memory aside. The first of these that holds is the fault: the message is a query
    /// or an answer; its uplink is full; it submitted as many messages as it may.
    pub fn check(&self, message: &Message, uplink_full: bool) -> Result<(), SiteFault>
        ensures value { result ≡ unless_fault (submit_fault uplink_full self.now message.now) }
        ensures own { OnOk result (answers_in (message.now ∷ []) ≡ []) }
        ensures room { OnOk result (length self.now.submissions < self.now.limit) }
    {
        if is_query_or_answer(message) {
            return Err(SiteFault::NotYours);
        }
        self.check_room(uplink_full)
    }

    /// Whether it can submit anything now, memory aside: its uplink is not full, and it may submit more.
    pub fn check_room(&self, uplink_full: bool) -> Result<(), SiteFault>
        ensures value { result ≡ unless_fault (ask_fault uplink_full self.now) }
        ensures room { OnOk result (length self.now.submissions < self.now.limit) }
    {
        if uplink_full {
            return Err(SiteFault::UplinkFull);
        }
        if self.is_full() {
            return Err(SiteFault::SenderFull);
        }
        Ok(())
    }

    /// Submits a message, and answers its number among the submissions. Refused by [`Site::check`] or for want of memory,
    /// nothing has changed.
    pub fn submit(&mut self, message: &Shared<Message>, uplink_full: bool) -> Result<u32, SiteFault>
        ensures number { IfOk result (λ k. k ≡ length self.old.submissions + 1) }
        ensures ok { OnOk result (self.new ≡ with_submission self.old message.now) }
        ensures err { OnErr result (self.new ≡ self.old) }
        ensures fault { FailsBy SiteFault.Memory
            (submit_fault uplink_full self.old message.now) result }
    {
        self.check(message.get(), uplink_full)?;
        Ok(self.put(message)?)
    }

    /// Submits a query of a pack, and answers its number among the submissions. Refused by [`Site::check_room`] or for want of
    /// memory, nothing has changed.
    pub fn ask(&mut self, key: &PackKey, uplink_full: bool) -> Result<u32, SiteFault>
        ensures number { IfOk result (λ q. q ≡ length self.old.submissions + 1) }
        ensures ok { OnOk result (self.new ≡ with_submission self.old (Query key.now)) }
        ensures err { OnErr result (self.new ≡ self.old) }
        ensures fault { FailsBy SiteFault.Memory (ask_fault uplink_full self.old) result }
    {
        self.check_room(uplink_full)?;
        let query = Shared::new(self.alloc, Message::Query { key: key.copy() })?;
        Ok(self.put(&query)?)
    }

    /// Takes a frame from a party: where it is the next, its item is applied, and the answer that this calls for is submitted,
    /// both or neither; where it is old, or behind a gap, nothing changes. Only the next is refused: where it calls for an
    /// answer that the party cannot submit now, or for want of memory.
    pub fn apply(
        &mut self,
        sender: Party,
        frame: &Frame,
        uplink_full: bool,
    ) -> Result<Taken, SiteFault>
        requires { sender < self.old.parties }
        ensures value { IfOk result (λ taken. taken ≡ taken_by self.old sender frame.now.item
            (look_at (count_from self.old.log sender) frame.now.number)) }
        ensures ok { OnOk result (self.new ≡ with_taken self.old sender frame.now.item
            (look_at (count_from self.old.log sender) frame.now.number)) }
        ensures err { OnErr result (self.new ≡ self.old) }
        ensures fault { FailsBy SiteFault.Memory
            (apply_fault uplink_full self.old sender frame.now.item
            (look_at (count_from self.old.log sender) frame.now.number)) result }
        ensures memory { IsErrOf result SiteFault.Memory
            → look_at (count_from self.old.log sender) frame.now.number ≡ Next }
    {
        match self.check_frame(sender, frame.number, is_query(&frame.item), uplink_full)? {
            Look::Old => Ok(Taken::Old),
            Look::Gap { expected } => Ok(Taken::Gap { expected }),
            Look::Next => self.apply_next(sender, &frame.item),
        }
    }

    /// How the frame of this number from a party stands to what was accepted from it, where the party takes it now, memory aside.
    /// Only the next is refused: where it asks, which calls for an answer, and the party cannot submit one. Nothing changes.
    pub fn check_frame(
        &self,
        sender: Party,
        number: u32,
        asks: bool,
        uplink_full: bool,
    ) -> Result<Look, SiteFault>
        requires { sender < self.now.parties }
        ensures look { IfOk result (λ look. look ≡ look_at (count_from self.now.log sender) number) }
        ensures counted { IfOk result (λ look. look ≡ Next → count_from self.now.log sender < NUMBER_LIMIT) }
        ensures ok { OnOk result ((item : AnItem) → is_some (answer_after self.now.log sender item) ≡ asks
            → apply_fault uplink_full self.now sender item (look_at (count_from self.now.log sender) number) ≡ None) }
        ensures err { IfErr result (λ fault. (item : AnItem) → is_some (answer_after self.now.log sender item) ≡ asks
            → apply_fault uplink_full self.now sender item (look_at (count_from self.now.log sender) number) ≡ Some fault) }
        ensures next { OnErr result (look_at (count_from self.now.log sender) number ≡ Next) }
    {
        let look = self.accepted[sender as usize].look_at(number);
        if look == Look::Next && asks && (uplink_full || self.is_full()) {
            return Err(SiteFault::AnswerBusy);
        }
        Ok(look)
    }

    /// The answer that an item from a party calls for, if it does. Nothing changes.
    pub fn answer(&self, sender: Party, item: &Item) -> Option<Message>
        ensures { result ≡ answer_after self.now.log sender item.now }
    {
        self.repository.answer(sender, item)
    }

    /// Applies the item of the next frame from a party, and submits the answer that it calls for, which [`Site::answer`] told:
    /// both, or neither, for want of memory alone.
    pub fn accept(
        &mut self,
        sender: Party,
        item: &Item,
        answer: Option<Shared<Message>>,
    ) -> Result<Taken, AllocError>
        requires sender { sender < self.old.parties }
        requires count { count_from self.old.log sender < NUMBER_LIMIT }
        requires answer { answer ≡ answer_after self.old.log sender item.now }
        requires free { answer_fault false self.old (answer_after self.old.log sender item.now) ≡ None }
        ensures value { IfOk result (λ taken. taken ≡ taken_by self.old sender item.now Next) }
        ensures ok { OnOk result (self.new ≡ with_applied self.old sender item.now) }
        ensures err { OnErr result (self.new ≡ self.old) }
    {
        self.submissions.reserve(1)?;
        let effect = self.repository.enter(sender, item)?;
        // Nothing fails from here on.
        self.accepted[sender as usize].advance();
        let answer = put_answer(&mut self.submissions, answer);
        Ok(Taken::Applied { effect, answer })
    }

    /// Whether it submitted as many messages as it may.
    fn is_full(&self) -> bool
        ensures value { result ≡ is_full self.now }
        ensures room { result ≡ false → length self.now.submissions < self.now.limit }
    {
        self.submissions.len() == self.limit as usize
    }

    /// Puts a message behind the submissions, and answers its number among them.
    fn put(&mut self, message: &Shared<Message>) -> Result<u32, AllocError>
        requires room { length self.old.submissions < self.old.limit }
        requires own { answers_in (message.now ∷ []) ≡ [] }
        ensures number { IfOk result (λ k. k ≡ length self.old.submissions + 1) }
        ensures ok { OnOk result (self.new ≡ with_submission self.old message.now) }
        ensures err { OnErr result (self.new ≡ self.old) }
    {
        let count = self.submissions.len() as u32;
        self.submissions.push(message.share()?)?;
        Ok(count + 1)
    }

    /// Applies the item of the next frame from a party, and submits the answer that it calls for.
    fn apply_next(&mut self, sender: Party, item: &Item) -> Result<Taken, SiteFault>
        requires sender { sender < self.old.parties }
        requires count { count_from self.old.log sender < NUMBER_LIMIT }
        requires free { answer_fault false self.old (answer_after self.old.log sender item.now) ≡ None }
        ensures value { IfOk result (λ taken. taken ≡ taken_by self.old sender item.now Next) }
        ensures ok { OnOk result (self.new ≡ with_applied self.old sender item.now) }
        ensures err { IfErr result (λ fault. (self.new ≡ self.old) × (fault ≡ SiteFault.Memory)) }
    {
        let answer = match self.answer(sender, item) {
            Some(answer) => Some(Shared::new(self.alloc, answer)?),
            None => None,
        };
        Ok(self.accept(sender, item, answer)?)
    }
}

/// Puts an answer behind submissions that have room for it, and answers its number among them.
fn put_answer(
    submissions: &mut Vec<Shared<Message>>,
    answer: Option<Shared<Message>>,
) -> Option<u32>
    requires few { length submissions.old.items ≤ SUBMISSIONS_LIMIT }
    requires room { length submissions.old.items < vec_capacity submissions.old }
    ensures number { result ≡ answer_number submissions.old.items answer }
    ensures put { submissions.new.items ≡ submissions.old.items ++ option_to_list answer }
{
    let answer = answer?;
    let count = submissions.len() as u32;
    submissions.push_reserved(answer);
    Some(count + 1)
}

/// Whether an item carries a query, which alone calls for an answer.
fn is_query(item: &Item) -> bool
    ensures { (log : List ALogEntry) (sender : ℕ) →
        result ≡ is_some (answer_after log sender item.now) }
{
    match item {
        Item::Carried { message, .. } => matches!(message.get(), Message::Query { .. }),
        Item::Receipt { .. } => false,
    }
}

/// How many items of a sender are in a log.
#[tactic(auto, using(crate::proofs::AnswerLemmas::from_counted))]
pub fn count_from(log: &[LogEntry], sender: Party) -> usize
    ensures { result ≡ count_from log.now sender }
{
    log.iter().filter(|entry| entry.sender == sender).count()
}

/// Whether a message is a query or an answer, which [`Site::submit`] does not take.
pub fn is_query_or_answer(message: &Message) -> bool
    ensures value { result ≡ is_query_or_answer message.now }
    ensures other { result ≡ false → answers_in (message.now ∷ []) ≡ [] }
{
    matches!(message, Message::Query { .. } | Message::Answer { .. })
}
