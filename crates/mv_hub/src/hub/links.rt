//! What the hub does with its links: it relays, repeats and closes.

ghost use Rattle.std.specs.Prelude.{◌≡◌, ◌+◌, ◌<◌, ◌≤◌, length, None, Some, IfErr, IfOk, OnOk, OnErr};
ghost use Rattle.mv_link.specs.Frames.{IsFrameOf};
ghost use Rattle.mv_link.specs.Fault.{FailsBy};
ghost use Rattle.mv_hub.specs.Hub.{are_parties, sent_of, items_on, relay_fault, repeat_fault, close_fault, with_relayed, with_closed};

use crate::hub::Hub;
use crate::{Entry, HubFault};
use mv_link::{Frame, Item};
use mv_message::Party;

impl Hub {
    /// Whether both are parties.
    fn are_parties(&self, from: Party, to: Party) -> bool
        ensures { result ≡ are_parties self.now from to }
    {
        let count = self.parties().len();
        from < count && to < count
    }

    /// How many items were put on the link from one party to another.
    pub fn total(&self, from: Party, to: Party) -> u32
        requires from { from < length self.now.parties }
        requires to { to < length self.now.parties }
        ensures { result ≡ length (items_on self.now from to) }
    {
        self.link(from, to).total()
    }

    /// How many items of the link from one party to another were relayed.
    pub fn relayed(&self, from: Party, to: Party) -> u32
        requires from { from < length self.now.parties }
        requires to { to < length self.now.parties }
        ensures value { result ≡ sent_of self.now from to }
        ensures within { result ≤ length (items_on self.now from to) }
    {
        self.link(from, to).sent()
    }

    /// The next item of the link from one party to another that was not relayed yet, under its number. It stays the next.
    ///
    /// The first of these that holds is the fault: H4, one of the parties is none; H8, every item of the link has been
    /// relayed.
    pub fn next_item(&self, from: Party, to: Party) -> Result<(u32, &Item), HubFault>
        ensures number { IfOk result (λ next. next.0 ≡ sent_of self.now from to + 1) }
        ensures item { IfOk result (λ next. IsFrameOf (items_on self.now from to)
            (record { number = next.0; item = next.1.now })) }
        ensures waiting { OnOk result
            (sent_of self.now from to < length (items_on self.now from to)) }
        ensures ok { OnOk result (relay_fault self.now from to ≡ None) }
        ensures err { IfErr result (λ fault. relay_fault self.now from to ≡ Some fault) }
    {
        if !self.are_parties(from, to) {
            return Err(HubFault::StrangerParty);
        }
        let link = self.link(from, to);
        match link.next() {
            Some(item) => Ok((link.sent() + 1, item)),
            None => Err(HubFault::Nothing),
        }
    }

    /// Counts the next item of the link from one party to another, which is there, as relayed.
    #[tactic(auto, using(crate::proofs::HubLemmas::sent_at, crate::proofs::HubLemmas::kept_relayed, crate::proofs::HubLemmas::sent_put))]
    pub fn advance(&mut self, from: Party, to: Party)
        requires from { from < length self.old.parties }
        requires to { to < length self.old.parties }
        requires waiting { sent_of self.old from to < length (items_on self.old from to) }
        ensures { self.new ≡ with_relayed self.old from to }
    {
        self.links.at_mut(from, to).advance();
    }

    /// The next frame of the link from one party to another that was not relayed yet.
    ///
    /// The first of these that holds is the fault: H4, one of the parties is none; H8, every item of the link has been
    /// relayed; H7, memory was refused.
    pub fn relay(&mut self, from: Party, to: Party) -> Result<Frame, HubFault>
        ensures number { IfOk result (λ frame. frame.number ≡ sent_of self.old from to + 1) }
        ensures frame { IfOk result (λ frame. IsFrameOf (items_on self.old from to) frame) }
        ensures waiting { OnOk result
            (sent_of self.old from to < length (items_on self.old from to)) }
        ensures ok { OnOk result (self.new ≡ with_relayed self.old from to) }
        ensures err { OnErr result (self.new ≡ self.old) }
        ensures fault { FailsBy HubFault.Memory (relay_fault self.old from to) result }
    {
        let (number, next) = self.next_item(from, to)?;
        let item = next.copy()?;
        self.advance(from, to);
        Ok(Frame { number, item })
    }

    /// The frame of this number of the link from one party to another once more, one that was relayed before. Nothing
    /// changes.
    ///
    /// The first of these that holds is the fault: H4, one of the parties is none; H9, no frame of this number was
    /// relayed; H10, it is kept no longer, since as many items as the window holds were put on the link behind it; H7,
    /// memory was refused.
    pub fn repeat(&self, from: Party, to: Party, number: u32) -> Result<Frame, HubFault>
        ensures number { IfOk result (λ frame. frame.number ≡ number) }
        ensures frame { IfOk result (λ frame. IsFrameOf (items_on self.now from to) frame) }
        ensures fault { FailsBy HubFault.Memory (repeat_fault self.now from to number) result }
    {
        if !self.are_parties(from, to) {
            return Err(HubFault::StrangerParty);
        }
        Ok(self.link(from, to).again(number)?)
    }

    /// Closes the link from one party to another, for ever: nothing that is routed later is put on it, neither message nor
    /// receipt. What was put on it before is still relayed and repeated.
    ///
    /// The first of these that holds is the fault: H4, one of the parties is none; H6, the link was closed before; H7,
    /// memory was refused.
    pub fn close(&mut self, from: Party, to: Party) -> Result<(), HubFault>
        ensures ok { OnOk result (self.new ≡ with_closed self.old from to) }
        ensures err { OnErr result (self.new ≡ self.old) }
        ensures fault { FailsBy HubFault.Memory (close_fault self.old from to) result }
    {
        if !self.are_parties(from, to) {
            return Err(HubFault::StrangerParty);
        }
        if !self.is_open(from, to) {
            return Err(HubFault::AlreadyClosed);
        }
        self.trail.push(Entry::Closed { from, to })?;
        self.open_links[from as usize] = self.open_links[from as usize].without(to);
        Ok(())
    }
}
