//! The hub's end: the hub, the ends of the uplinks that it takes messages from, and those of the links that it puts frames on.

ghost use Rattle.std.specs.Prelude.{◌≡◌, ◌<◌, ◌≤◌, ℕ, [], length, slice_index_or, Option, None, Some, IfOk, IfSome, IsTrue, false};
ghost use Rattle.mv_ends.specs.Words.{IsFrameOf, IsLawfulAt, IsLawfulRecord, IsSquare, are_parties, items_on, new_hub};
ghost use Rattle.mv_ends.specs.inside.Valid.{TookAll, AreOfLinks, AreWithin, IsLawfulRecord-prop};

use crate::copies::copy_of_item;
use crate::inlets::Inlets;
use crate::parcel::Parcel;
use crate::repo_end::RepoEnd;
use crate::wires::Wires;
use mv_hub::{Entry, Hub, Parties};
use mv_link::Frame;
use mv_machine::{Limits, Refusal, Reply};
use mv_message::{Message, Party, Shared};
use std::alloc::{AllocError, Global};

/// The hub's end of all rings, with the hub.
pub struct HubEnd {
    /// Where the copies that go on rings get their memory.
    alloc: Global,
    /// How wide windows and rings are, and how many messages of each party are routed at most.
    limits: Limits,
    /// The hub.
    hub: Hub,
    /// The ends of the uplinks.
    uplinks: Inlets<Shared<Message>>,
    /// The ends of the links.
    wires: Wires,
    /// The window of the hub is that of the limits.
    ghost window: { hub.window ≡ limits.window },
    /// There is an uplink for each party.
    ghost each: { length uplinks.taken ≡ length hub.parties },
    /// There is a link for each ordered pair of parties.
    ghost square: { IsSquare (length hub.parties) wires.put },
    /// What was taken from each uplink is what was routed from its party.
    ghost took: { TookAll (length hub.parties) hub.entries uplinks.taken },
    /// What was put on the ring of each link are frames of the link.
    ghost of_links: { AreOfLinks hub wires.put },
    /// The record is lawful.
    ghost lawful: { IsLawfulRecord (length hub.parties) hub.entries } by { IsLawfulRecord-prop (length hub.parties) hub.entries },
    /// No more messages of a party were routed than it may submit.
    ghost within: { AreWithin limits.submissions hub },
}

// Written here, so that the crates above prove nothing of how its parts are dropped.
impl Drop for HubEnd {
    fn drop(self) {
        let Self {
            alloc: _,
            limits: _,
            hub: _,
            uplinks: _,
            wires: _,
        } = self;
    }
}

impl HubEnd {
    ghost use Rattle.mv_hub.specs.declared.fault.HubFault.{HubFault as AFault};
    ghost use Rattle.mv_hub.specs.declared.fault.HubFault.TheVariants.{StrangerParty};
    ghost use Rattle.mv_ends.specs.Rings.{HasRoomOn, with_frame};
    ghost use Rattle.mv_ends.specs.inside.Rings.{AreEmpty};
    ghost use Rattle.mv_ends.specs.HubEnd.{hub_seat, SameHubEnd, IsUnchanged, IsPutRefused, Routes, Relays, Repeats, Closes};
    ghost use Rattle.mv_ends.specs.RepoEnd.{repo_seat, SameRepoEnd, IsRepoUnchanged};
    ghost use Rattle.mv_ends.specs.Whole.{IsSeatOf};

    /// The end of a hub where nothing has happened, with its ends of rings that were not used yet. Refused for want of memory.
    pub(crate) fn new(
        alloc: Global,
        parties: Parties,
        limits: Limits,
        uplinks: Inlets<Shared<Message>>,
        wires: Wires,
    ) -> Result<HubEnd, AllocError>
        requires each { length uplinks.taken ≡ length parties }
        requires square { IsSquare (length parties) wires.put }
        requires untaken { AreEmpty uplinks.taken }
        requires unused { (to : ℕ) → AreEmpty (slice_index_or wires.put to []) }
        ensures hub { IfOk result (λ end. end.hub ≡ new_hub parties limits.window) }
        ensures limits { IfOk result (λ end. end.limits ≡ limits) }
        ensures uplinks { IfOk result (λ end. end.uplinks ≡ uplinks) }
        ensures wires { IfOk result (λ end. end.wires ≡ wires) }
    {
        let hub = Hub::new(alloc, parties, limits.window())?;
        Ok(HubEnd {
            alloc,
            limits,
            hub,
            uplinks,
            wires,
        })
    }

    /// The hub.
    pub fn hub(&self) -> &Hub
        ensures { result.now ≡ self.now.hub }
    {
        &self.hub
    }

    /// The hub's record, the oldest entry first.
    pub fn record(&self) -> &[Entry]
        ensures entries { result.now ≡ self.now.hub.entries }
        ensures lawful { IsLawfulRecord (length self.now.hub.parties) self.now.hub.entries }
    {
        self.hub.record()
    }

    /// Takes the front message of a party's uplink and routes it.
    ///
    /// Answers `Routed`, or the first of these refusals that holds: S1, there is no such party; S5, no message of the party
    /// is there to be routed, or as many of its messages were routed as it may submit; S6, a link has no room; S14, memory was
    /// refused. S5 may be told though a message was just put on the uplink.
    #[tactic(auto, using(crate::proofs::EndLemmas::lawful_routed, crate::proofs::EndLemmas::room_left))]
    pub fn route(&mut self, from: Party) -> Reply
        ensures same { SameHubEnd self.old self.new }
        ensures reply { Routes from self.old self.new result }
    {
        if from >= self.hub.parties().len() {
            return Reply::Refused(Refusal::Party);
        }
        if self.hub.routed_count(from) >= self.limits.submissions() {
            return Reply::Refused(Refusal::UplinkEmpty);
        }
        if self.uplinks.is_empty(from) {
            return Reply::Refused(Refusal::UplinkEmpty);
        }
        if let Err(fault) = self.hub.check(from, self.uplinks.message(from)) {
            return Reply::Refused(Refusal::from(fault));
        }
        // Want of memory alone refuses it from here on, and leaves it in hand.
        self.uplinks.open(from);
        match self.hub.route(from, self.uplinks.in_hand(from)) {
            Ok((k, reach)) => {
                let _message = self.uplinks.take(from);
                Reply::Routed { k, reach }
            }
            Err(_) => Reply::Refused(Refusal::Memory),
        }
    }

    /// Puts the next frame of a link on its ring.
    ///
    /// Answers `Relayed`, or the first of these refusals that holds: S1, one of the parties is none; S7, the ring has no room;
    /// S11, every item of the link has been relayed; S14, memory was refused. S7 may be told though room was just made.
    pub fn relay(&mut self, from: Party, to: Party) -> Reply
        ensures same { SameHubEnd self.old self.new }
        ensures reply { Relays from to self.old self.new result }
    {
        if let Some(refusal) = self.put_refusal(from, to) {
            return Reply::Refused(refusal);
        }
        let (number, item) = match self.hub.next_item(from, to) {
            Ok(next) => next,
            Err(fault) => return Reply::Refused(Refusal::from(fault)),
        };
        let Ok(parcel) = copy_of_item(self.alloc, number, item) else {
            return Reply::Refused(Refusal::Memory);
        };
        // Nothing fails from here on.
        self.hub.advance(from, to);
        self.put(from, to, parcel);
        Reply::Relayed { number }
    }

    /// Puts the frame of this number of a link on its ring once more, one that was relayed before.
    ///
    /// Answers `Repeated`, or the first of these refusals that holds: S1, one of the parties is none; S7, the ring has no room;
    /// S9, no frame of this number was relayed; S10, it is kept no longer; S14, memory was refused. S7 may be told though room
    /// was just made.
    pub fn repeat(&mut self, from: Party, to: Party, number: u32) -> Reply
        ensures same { SameHubEnd self.old self.new }
        ensures reply { Repeats from to number self.old self.new result }
    {
        if let Some(refusal) = self.put_refusal(from, to) {
            return Reply::Refused(refusal);
        }
        let frame = match self.hub.repeat(from, to, number) {
            Ok(frame) => frame,
            Err(fault) => return Reply::Refused(Refusal::from(fault)),
        };
        let Ok(again) = copy_of_item(self.alloc, number, &frame.item) else {
            return Reply::Refused(Refusal::Memory);
        };
        self.put(from, to, again);
        Reply::Repeated { number }
    }

    /// Closes a link for ever. What was put on it before is still relayed and repeated.
    ///
    /// Answers `Closed`, or the first of these refusals that holds: S1, one of the parties is none; S12, the link is closed
    /// already; S14, memory was refused.
    #[tactic(auto, using(crate::proofs::EndLemmas::closing))]
    pub fn close(&mut self, from: Party, to: Party) -> Reply
        ensures same { SameHubEnd self.old self.new }
        ensures reply { Closes from to self.old self.new result }
    {
        if let Err(fault) = self.hub.close(from, to) {
            return Reply::Refused(Refusal::from(fault));
        }
        Reply::Closed
    }

    /// Looks at both ends of all rings of a party: the party is lawful beside the hub, and did not submit more than it may.
    #[tactic(auto, using(crate::proofs::LookLemmas::count_seated, crate::proofs::LookLemmas::limit_seated))]
    pub(crate) fn look_beside(&mut self, party: Party, repo: &mut RepoEnd)
        requires party { party < length self.old.hub.parties }
        requires seat { IsSeatOf (hub_seat self.old) party (repo_seat repo.old) }
        ensures same { SameHubEnd self.old self.new }
        ensures hub { IsUnchanged self.old self.new }
        ensures repo { SameRepoEnd repo.old repo.new }
        ensures unchanged { IsRepoUnchanged repo.old repo.new }
        ensures lawful { IsLawfulAt self.old.hub party repo.old.site }
        ensures few { length repo.old.site.submissions ≤ self.old.limits.submissions }
    {
        // That the party is lawful, and within its limit, is told by its submissions: they are looked at for that alone.
        let _ = repo.sub();
        let count = self.hub.parties().len();
        self.uplinks.look_beside(party, &mut repo.uplink);
        self.wires.look_beside(party, count, &mut repo.inlets);
    }

    /// Why nothing can be put on the ring of a link, whatever the hub answers: one of the parties is none, or the ring is full.
    fn put_refusal(&mut self, from: Party, to: Party) -> Option<Refusal>
        ensures same { SameHubEnd self.old self.new }
        ensures unchanged { IsUnchanged self.old self.new }
        ensures refused { IfSome result (λ refusal. (fault : Option AFault)
            → (are_parties self.old.hub from to ≡ false → fault ≡ Some StrangerParty)
            → IsPutRefused self.old self.new from to fault refusal) }
        ensures room { result ≡ None → IsTrue (are_parties self.old.hub from to) × HasRoomOn self.new.wires from to }
    {
        let count = self.hub.parties().len();
        if from >= count || to >= count {
            return Some(Refusal::Party);
        }
        if self.wires.is_full(from, to) {
            return Some(Refusal::WireFull);
        }
        None
    }

    /// Puts a frame of a link on its ring, which has room.
    #[tactic(auto, using(crate::proofs::EndLemmas::square))]
    fn put(&mut self, from: Party, to: Party, frame: Parcel<Frame>)
        requires parties { IsTrue (are_parties self.old.hub from to) }
        requires room { HasRoomOn self.old.wires from to }
        requires member { IsFrameOf (items_on self.old.hub from to) frame }
        ensures same { SameHubEnd self.old self.new }
        ensures hub { self.new.hub ≡ self.old.hub }
        ensures taken { self.new.uplinks.taken ≡ self.old.uplinks.taken }
        ensures in_hand { self.new.uplinks.in_hand ≡ self.old.uplinks.in_hand }
        ensures put { self.new.wires.put ≡ with_frame self.old.wires.put from to frame }
    {
        self.wires.put(from, to, frame);
    }
}
