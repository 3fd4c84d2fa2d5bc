//! The steps: each asks what it needs, and makes one change. Only these open the fields of the system to write.
#![tactic(auto, unfolding(mv_machine::specs::Runs::Allows, mv_machine::specs::Runs::Meets, mv_machine::specs::Steps::ask, mv_machine::specs::Steps::outcome, mv_hub::specs::Hub::route_fault))]

ghost use Rattle.std.specs.Prelude.{◌≡◌};
ghost use Rattle.mv_machine.specs.Runs.{Meets, Allows};
ghost use Rattle.mv_machine.specs.Steps.{ask};
ghost use Rattle.mv_system.specs.inside.World.{reply_of};

use crate::world::World;
use mv_machine::{Refusal, Reply, Step};
use mv_message::{Message, Party, Shared};
use mv_pack::PackKey;
use mv_repository::Local;

impl World {
    /// Takes one step.
    #[tactic(auto)]
    #[inline(always)]
    pub(super) fn take_step(&mut self, step: &Step) -> Result<Reply, Refusal>
        ensures { Allows self.old step.now (reply_of result) self.new }
    {
        match step {
            Step::Submit { from, message } => self.submit(*from, message),
            Step::Verify { party, key } => self.verify(*party, key),
            Step::Route { from } => self.route(*from),
            Step::Relay { from, to } => self.relay(*from, *to),
            Step::Apply { from, to } => self.apply(*from, *to),
            Step::Repeat { from, to, number } => self.repeat(*from, *to, *number),
            Step::Close { from, to } => self.close(*from, *to),
            Step::Lose { from, to } => self.lose(*from, *to),
            Step::Verdict { party, q } => self.verdict(*party, *q),
        }
    }

    /// A party submits a message, and is told its number.
    fn submit(&mut self, from: Party, message: &Shared<Message>) -> Result<Reply, Refusal>
        ensures { Allows self.old (Step.Submit from message.now) (reply_of result) self.new }
    {
        if !self.is_party(from) {
            return Err(Refusal::Party);
        }
        let uplink_full = self.is_uplink_full(from);
        let site = &mut self.sites[from as usize];
        let k = site.submit(message, uplink_full)?;
        Ok(Reply::Submitted { k })
    }

    /// A party verifies a pack: its own repository gives the verdict where it holds the pack, else the others are asked.
    fn verify(&mut self, party: Party, key: &PackKey) -> Result<Reply, Refusal>
        ensures { Allows self.old (Step.Verify party key.now) (reply_of result) self.new }
    {
        if !self.is_party(party) {
            return Err(Refusal::Party);
        }
        match self.repository(party).verify(key) {
            Local::Known(verdict) => Ok(Reply::Known(verdict)),
            Local::Absent => self.take_query(party, key),
        }
    }

    /// Submits a query of a pack, without a look at the party's own repository.
    pub(super) fn take_query(&mut self, party: Party, key: &PackKey) -> Result<Reply, Refusal>
        ensures { Meets self.old (ask self.old party key.now) (reply_of result) self.new }
    {
        if !self.is_party(party) {
            return Err(Refusal::Party);
        }
        let uplink_full = self.is_uplink_full(party);
        let site = &mut self.sites[party as usize];
        let q = site.ask(key, uplink_full)?;
        Ok(Reply::Asked { q })
    }

    /// The hub routes the message in front of an uplink.
    fn route(&mut self, from: Party) -> Result<Reply, Refusal>
        ensures { Allows self.old (Step.Route from) (reply_of result) self.new }
    {
        if !self.is_party(from) {
            return Err(Refusal::Party);
        }
        let place = self.hub.routed_count(from) as usize;
        let site = &self.sites[from as usize];
        let Some(message) = site.submission(place) else {
            return Err(Refusal::UplinkEmpty);
        };
        let (k, reach) = self.hub.route(from, message)?;
        Ok(Reply::Routed { k, reach })
    }

    /// The next frame of a link goes on its wire.
    fn relay(&mut self, from: Party, to: Party) -> Result<Reply, Refusal>
        ensures { Allows self.old (Step.Relay from to) (reply_of result) self.new }
    {
        if !self.are_parties(from, to) {
            return Err(Refusal::Party);
        }
        if self.is_wire_full(from, to) {
            return Err(Refusal::WireFull);
        }
        let frame = self.hub.relay(from, to)?;
        let number = frame.number;
        let wire = self.wires.at_mut(from, to);
        drop(wire.push_back(frame));
        Ok(Reply::Relayed { number })
    }

    /// A party takes the frame in front of a wire. Where it refuses, the frame stays there.
    fn apply(&mut self, from: Party, to: Party) -> Result<Reply, Refusal>
        ensures { Allows self.old (Step.Apply from to) (reply_of result) self.new }
    {
        if !self.are_parties(from, to) {
            return Err(Refusal::Party);
        }
        let uplink_full = self.is_uplink_full(to);
        let Some(frame) = self.wires.at(from, to).front() else {
            return Err(Refusal::WireEmpty);
        };
        let number = frame.number;
        let site = &mut self.sites[to as usize];
        let taken = site.apply(from, frame, uplink_full)?;
        let under_way = self.wires.at_mut(from, to);
        drop(under_way.pop_front());
        Ok(Reply::of_taken(number, taken))
    }

    /// A frame of a link that was relayed goes on its wire again.
    fn repeat(&mut self, from: Party, to: Party, number: u32) -> Result<Reply, Refusal>
        ensures { Allows self.old (Step.Repeat from to number) (reply_of result) self.new }
    {
        if !self.are_parties(from, to) {
            return Err(Refusal::Party);
        }
        if self.is_wire_full(from, to) {
            return Err(Refusal::WireFull);
        }
        let frame = self.hub.repeat(from, to, number)?;
        let wire = self.wires.at_mut(from, to);
        drop(wire.push_back(frame));
        Ok(Reply::Repeated { number })
    }

    /// A link is closed.
    fn close(&mut self, from: Party, to: Party) -> Result<Reply, Refusal>
        ensures { Allows self.old (Step.Close from to) (reply_of result) self.new }
    {
        self.hub.close(from, to)?;
        Ok(Reply::Closed)
    }

    /// The frame in front of a wire is lost.
    fn lose(&mut self, from: Party, to: Party) -> Result<Reply, Refusal>
        ensures { Allows self.old (Step.Lose from to) (reply_of result) self.new }
    {
        if !self.are_parties(from, to) {
            return Err(Refusal::Party);
        }
        match self.frame_number(from, to, 0) {
            None => Err(Refusal::WireEmpty),
            Some(number) => {
                let wire = self.wires.at_mut(from, to);
                drop(wire.pop_front());
                Ok(Reply::Lost { number })
            }
        }
    }

    /// The verdict of all repositories that were asked, on a query of a party.
    fn verdict(&mut self, party: Party, q: u32) -> Result<Reply, Refusal>
        ensures { Allows self.old (Step.Verdict party q) (reply_of result) self.new }
    {
        if !self.is_party(party) {
            return Err(Refusal::Party);
        }
        Ok(Reply::Joint(self.repository(party).verdict(q)))
    }
}

/// The reply that tells what a step did, or why it was refused.
pub(super) fn reply_of(done: Result<Reply, Refusal>) -> Reply
    ensures { result ≡ reply_of done }
{
    match done {
        Ok(reply) => reply,
        Err(refusal) => Reply::Refused(refusal),
    }
}
