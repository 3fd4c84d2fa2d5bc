//! A repository's end: the party, the end of its uplink that it puts messages on, and those of the links that it takes frames
//! from.

ghost use Rattle.std.specs.Prelude.{◌≡◌, ◌≤◌, ◌<◌, [], true, false, length, slice_index_or, IfOk, IfErr, OnErr};
ghost use Rattle.mv_ends.specs.Words.{sent, IsLawfulParty, new_site};
ghost use Rattle.mv_ends.specs.inside.Valid.{AreAccepted};
ghost use Rattle.mv_repository.specs.Verdict.{joint_verdict};

use crate::answering::{accept, is_full};
use crate::copies::copy_of_message;
use crate::front::Front;
use crate::inlets::Inlets;
use crate::parcel::Parcel;
use mv_link::{Frame, Look};
use mv_machine::{Limits, Refusal, Reply};
use mv_message::{Message, Party, Shared};
use mv_pack::PackKey;
use mv_party::{Site, Taken};
use mv_repository::{Local, LogEntry, Repository};
use rtrb::Producer;
use std::alloc::{AllocError, Global};

/// A repository's end of all its rings, with its party.
pub struct RepoEnd {
    /// Where copies, queries and answers get their memory.
    alloc: Global,
    /// The party: its submissions and its repository.
    site: Site,
    /// The end of the party's uplink.
    pub(crate) uplink: Producer<Parcel<Shared<Message>>>,
    /// The ends of the links to the party.
    pub(crate) inlets: Inlets<Frame>,
    /// What was put on the uplink is what the party submitted.
    ghost pushed: { sent uplink ≡ site.submissions },
    /// There is a link from each party.
    ghost each: { length inlets.taken ≡ site.parties },
    /// Of the frames that were taken from each link, just those were accepted that the log has from its sender.
    ghost accepted: { AreAccepted site.parties site.log inlets.taken },
}

// Written here, so that the crates above prove nothing of how its parts are dropped.
impl Drop for RepoEnd {
    fn drop(self) {
        let Self {
            alloc: _,
            site: _,
            uplink: _,
            inlets: _,
        } = self;
    }
}

/// A message that was not submitted, handed back, and why.
#[derive(Drop)]
pub struct Unsubmitted {
    /// The message.
    pub message: Parcel<Shared<Message>>,
    /// Why it was not submitted.
    pub refusal: Refusal,
}

impl RepoEnd {
    ghost use Rattle.mv_ends.specs.inside.Rings.{AreEmpty};
    ghost use Rattle.mv_link.specs.declared.incoming.Look.TheVariants.{Next as LookNext};
    ghost use Rattle.mv_link.specs.declared.limits.TheConstants.{NUMBER_LIMIT};
    ghost use Rattle.mv_party.specs.Site.{count_from};
    ghost use Rattle.mv_ends.specs.Words.{Frame as AFrame, reply_to};
    ghost use Rattle.mv_ends.specs.Rings.{IsFront, is_full};
    ghost use Rattle.mv_ends.specs.RepoEnd.{SameRepoEnd, IsRepoUnchanged, TakesFrame, Submits, Asks, Verifies, Applies};
    ghost use Rattle.mv_ends.specs.inside.Taking.{IsTakenAs, IsPassedAs};

    /// The end of a party that did nothing yet, one of so many, with its ends of rings that were not used yet. Refused for want of
    /// memory.
    pub(crate) fn new(
        alloc: Global,
        party: Party,
        count: u32,
        limits: Limits,
        uplink: Producer<Parcel<Shared<Message>>>,
        inlets: Inlets<Frame>,
    ) -> Result<RepoEnd, AllocError>
        requires pushed { sent uplink ≡ [] }
        requires each { length inlets.taken ≡ count }
        requires untaken { AreEmpty inlets.taken }
        ensures site { IfOk result (λ end. end.site ≡ new_site party count limits.submissions) }
        ensures uplink { IfOk result (λ end. end.uplink ≡ uplink) }
        ensures inlets { IfOk result (λ end. end.inlets ≡ inlets) }
    {
        let site = Site::new(alloc, party, count, limits.submissions())?;
        Ok(RepoEnd {
            alloc,
            site,
            uplink,
            inlets,
        })
    }

    /// The party.
    pub fn party(&self) -> Party
        ensures { result ≡ self.now.site.party }
    {
        self.site.repository().party()
    }

    /// What the party submitted, the oldest message first.
    pub fn sub(&self) -> &[Shared<Message>]
        ensures value { result.now ≡ self.now.site.submissions }
        ensures few { length result.now ≤ self.now.site.limit }
        ensures lawful { IsLawfulParty self.now.site.parties self.now.site.submissions self.now.site.log }
    {
        self.site.submissions()
    }

    /// What the party's repository applied, the oldest entry first.
    pub fn log(&self) -> &[LogEntry]
        ensures { result.now ≡ self.now.site.log }
    {
        self.site.repository().log()
    }

    /// The party's repository.
    pub fn repository(&self) -> &Repository
        ensures party { result.now.party ≡ self.now.site.party }
        ensures log { result.now.log ≡ self.now.site.log }
    {
        self.site.repository()
    }

    /// Submits a message that is neither a query nor an answer: a copy of it is kept, and another goes on the uplink, so that the end
    /// shares nothing with its caller.
    ///
    /// Answers `Submitted`, or the first of these refusals that holds: S2, the message is a query or an answer; S3, the uplink
    /// has no room; S4, the party submitted as many messages as it may; S14, memory was refused. S3 may be told though room
    /// was just made.
    #[tactic(auto, using(crate::proofs::SiteEndLemmas::submitted_after, crate::proofs::SiteEndLemmas::refused_after))]
    pub fn submit(&mut self, message: &Message) -> Reply
        ensures same { SameRepoEnd self.old self.new }
        ensures reply { Submits message.now self.old self.new result }
    {
        let full = is_full(&mut self.uplink);
        if let Err(fault) = self.site.check(message, full) {
            return Reply::Refused(Refusal::from(fault));
        }
        let Ok(own) = copy_of_message(self.alloc, message) else {
            return Reply::Refused(Refusal::Memory);
        };
        match self.submit_own(own) {
            Ok(k) => Reply::Submitted { k },
            Err(back) => Reply::Refused(back.refusal),
        }
    }

    /// Submits a message that is given by value, as [`RepoEnd::submit`] does: a copy of it is kept,
    /// and the message itself goes on the uplink. Answers its number among all that the party
    /// submitted, or hands it back with the refusal, and nothing has changed.
    pub fn submit_own(&mut self, message: Parcel<Shared<Message>>) -> Result<u32, Unsubmitted>
        ensures same { SameRepoEnd self.old self.new }
        ensures ok { IfOk result (λ k. Submits message self.old self.new (Reply.Submitted k)) }
        ensures err { IfErr result (λ back. Submits message self.old self.new (Reply.Refused back.refusal)) }
        ensures back { IfErr result (λ back. back.message ≡ message) }
    {
        let full = is_full(&mut self.uplink);
        if let Err(fault) = self.site.check(message.message(), full) {
            let refusal = Refusal::from(fault);
            return Err(Unsubmitted { message, refusal });
        }
        let Ok(kept) = copy_of_message(self.alloc, message.message()) else {
            let refusal = Refusal::Memory;
            return Err(Unsubmitted { message, refusal });
        };
        match self.site.submit(&kept.open(), full) {
            Ok(k) => {
                self.uplink.push_reserved(message);
                Ok(k)
            }
            Err(fault) => {
                let refusal = Refusal::from(fault);
                Err(Unsubmitted { message, refusal })
            }
        }
    }

    /// Submits a query of a pack: a copy goes on the uplink.
    ///
    /// Answers `Asked`, or the first of these refusals that holds: S3, the uplink has no room; S4, the party submitted as many
    /// messages as it may; S14, memory was refused. S3 may be told though room was just made.
    pub fn ask(&mut self, key: &PackKey) -> Reply
        ensures same { SameRepoEnd self.old self.new }
        ensures reply { Asks key.now self.old self.new result }
    {
        let full = is_full(&mut self.uplink);
        if let Err(fault) = self.site.check_room(full) {
            return Reply::Refused(Refusal::from(fault));
        }
        let Ok(asked) = Parcel::of_message(self.alloc, Message::Query { key: key.copy() }) else {
            return Reply::Refused(Refusal::Memory);
        };
        match self.site.ask(key, full) {
            Ok(q) => {
                self.uplink.push_reserved(asked);
                Reply::Asked { q }
            }
            Err(fault) => Reply::Refused(Refusal::from(fault)),
        }
    }

    /// Verifies a pack: by the party's own repository, and where that does not hold it, by a query of the others.
    ///
    /// Answers `Known`, or as `ask` does.
    pub fn verify(&mut self, key: &PackKey) -> Reply
        ensures same { SameRepoEnd self.old self.new }
        ensures reply { Verifies key.now self.old self.new result }
    {
        match self.site.repository().verify(key) {
            Local::Known(verdict) => Reply::Known(verdict),
            Local::Absent => self.ask(key),
        }
    }

    /// The verdict of all that were asked, on the query that was the `q`-th message of the party.
    pub fn verdict(&self, q: u32) -> Reply
        ensures { result ≡ Reply.Joint (joint_verdict self.now.site.party self.now.site.log q) }
    {
        Reply::Joint(self.site.repository().verdict(q))
    }

    /// Takes the front frame of the link from a party.
    ///
    /// Answers `Applied`, `Old` or `Gap`, or the first of these refusals that holds: S1, there is no such party; S8, no frame is
    /// there; S13, the frame is the next and carries a query, and the party can submit no answer now; S14, memory was refused.
    /// S8 and S13 may be told though a frame was just put there, or room just made.
    #[tactic(auto, using(crate::proofs::SiteEndLemmas::one_front, crate::proofs::SiteEndLemmas::apply_refused, crate::proofs::SiteEndLemmas::applied_after, crate::proofs::SiteEndLemmas::apply_wanting))]
    pub fn apply(&mut self, from: Party) -> Reply
        ensures same { SameRepoEnd self.old self.new }
        ensures reply { Applies from self.old self.new result }
    {
        if from as usize >= self.site.parties() {
            return Reply::Refused(Refusal::Party);
        }
        if self.inlets.is_empty(from) {
            return Reply::Refused(Refusal::WireEmpty);
        }
        let full = is_full(&mut self.uplink);
        let Front { number, asks } = self.inlets.front(from);
        let look = match self.site.check_frame(from, number, asks, full) {
            Ok(look) => look,
            Err(fault) => return Reply::Refused(Refusal::from(fault)),
        };
        // Want of memory alone refuses it from here on, and leaves it in hand.
        self.inlets.open(from);
        match look {
            Look::Next => match self.apply_next(from) {
                Ok(taken) => Reply::of_taken(number, taken),
                Err(_) => Reply::Refused(Refusal::Memory),
            },
            Look::Old => self.pass_over(from, number, Taken::Old),
            Look::Gap { expected } => self.pass_over(from, number, Taken::Gap { expected }),
        }
    }

    /// Takes the frame in hand of a party, and applies it: it is the next. Refused for want of memory, nothing has changed.
    #[tactic(auto, using(crate::proofs::SiteEndLemmas::next_free, crate::proofs::SiteEndLemmas::next_room, crate::proofs::SiteEndLemmas::taken_freely, crate::proofs::SiteEndLemmas::more_submitted))]
    fn apply_next(&mut self, from: Party) -> Result<Taken, AllocError>
        requires from { from < self.old.site.parties }
        requires count { count_from self.old.site.log from < NUMBER_LIMIT }
        requires in_hand { slice_index_or self.old.inlets.in_hand from false ≡ true }
        requires front { (frame : AFrame) → IsFront self.old.inlets from frame
            → IsTakenAs self.old.site (is_full self.old.uplink) from LookNext frame }
        ensures same { SameRepoEnd self.old self.new }
        ensures ok { IfOk result (λ taken. (frame : AFrame) × IsFront self.old.inlets from frame
            × TakesFrame from self.old self.new (reply_to frame.number taken)) }
        ensures err { OnErr result (IsRepoUnchanged self.old self.new) }
        ensures uplink { OnErr result (self.new.uplink ≡ self.old.uplink) }
        ensures inlets { OnErr result (self.new.inlets ≡ self.old.inlets) }
    {
        let item = &self.inlets.in_hand(from).item;
        let taken = accept(self.alloc, &mut self.site, &mut self.uplink, from, item)?;
        let _frame = self.inlets.take(from);
        Ok(taken)
    }

    /// Takes the frame in hand of a party, of this number, which changes nothing: it is old, or behind a gap.
    #[tactic(auto, using(crate::proofs::SiteEndLemmas::passing))]
    fn pass_over(&mut self, from: Party, number: u32, taken: Taken) -> Reply
        requires from { from < self.old.site.parties }
        requires in_hand { slice_index_or self.old.inlets.in_hand from false ≡ true }
        requires front { (frame : AFrame) → IsFront self.old.inlets from frame → IsPassedAs self.old.site from number taken frame }
        ensures same { SameRepoEnd self.old self.new }
        ensures reply { TakesFrame from self.old self.new result }
        ensures value { result ≡ reply_to number taken }
    {
        let _passed = self.inlets.take(from);
        Reply::of_taken(number, taken)
    }
}
