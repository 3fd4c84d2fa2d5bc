//! The end of a link that items are pushed at. It keeps the last of them in a ring of the window's size.

ghost use Rattle.std.specs.Prelude.{◌≡◌, ◌+◌, ◌-◌, ◌<◌, ◌≤◌, ◌↔◌, List, [], ◌∷◌, ◌++◌, IsTrue, None, IsOk, OnOk, OnErr, OnSome, IfOk, IfSome};

use crate::{Frame, Item, LinkFault, NUMBER_LIMIT};
use circular_buffer::HeapCircularBuffer;
use std::alloc::{AllocError, Global};
use std::marker::Model;

/// The sending end of one link. Its items are numbered from 1 in the order in which they were pushed.
#[derive(Drop)]
pub struct Outgoing {
    /// The last items that were pushed, as many as the window holds.
    held: HeapCircularBuffer<Item>,
    /// How many items were pushed.
    total: u32,
    /// How many of them were relayed.
    sent: u32,
}

impl Model for Outgoing {
    ghost use Rattle.mv_link.specs.Sending.{Sending};
    ghost use Rattle.mv_link.specs.inside.Sending.{IsSending};

    ghost Value = { Sending };

    ghost view = { λ a. record {
      window = a.held.capacity;
      total = a.total;
      sent = a.sent;
      held = a.held.items;
    } };

    ghost invariant = { λ a. IsSending (record {
      window = a.held.capacity;
      total = a.total;
      sent = a.sent;
      held = a.held.items;
    }) };
}

impl Outgoing {
    ghost use Rattle.mv_link.specs.declared.item.Item.{Item as AnItem};
    ghost use Rattle.mv_link.specs.Sending.{IsWindow, new_sending, with_item, with_relayed};
    ghost use Rattle.mv_link.specs.Sending.{HasRoom, EndsWithHeld};
    ghost use Rattle.mv_link.specs.Sending.{IsFrameOfAll, relay_fault, again_fault};
    ghost use Rattle.mv_link.specs.Fault.{FailsBy};

    /// A sending end with a window of 2 to 256 items. Refused for want of memory.
    pub fn new(alloc: Global, window: u32) -> Result<Outgoing, AllocError>
        requires { IsWindow window }
        ensures { IfOk result (λ made. made ≡ new_sending window) }
    {
        let held = HeapCircularBuffer::with_capacity(alloc, window as usize)?;
        Ok(Outgoing {
            held,
            total: 0,
            sent: 0,
        })
    }

    /// How many items were pushed.
    pub fn total(&self) -> u32
        ensures { result ≡ self.now.total }
    {
        self.total
    }

    /// How many items were relayed.
    pub fn sent(&self) -> u32
        ensures value { result ≡ self.now.sent }
        ensures within { result ≤ self.now.total }
    {
        self.sent
    }

    /// Whether so many more items fit: none that waits to be relayed is pushed out, and numbers stay in 32 bits.
    pub fn room(&self, count: u32) -> bool
        ensures { IsTrue result ↔ HasRoom self.now count }
    {
        let waiting = u64::from(self.total - self.sent);
        let window = self.held.capacity() as u64;
        let more = u64::from(count);
        waiting + more <= window && u64::from(self.total) + more <= u64::from(NUMBER_LIMIT)
    }

    /// Pushes an item. It is always taken: what it pushes out of a full window was relayed.
    #[tactic(auto, using(crate::proofs::LinkLemmas::pushed))]
    pub fn push(&mut self, item: Item) -> Result<(), (LinkFault, Item)>
        requires { HasRoom self.old 1 }
        ensures ok { IsOk result }
        ensures pushed { self.new ≡ with_item self.old item }
        ensures grows { (list : List AnItem) → EndsWithHeld self.old list
            → EndsWithHeld self.new (list ++ item ∷ []) }
    {
        let _ = self.held.push_back(item);
        self.total += 1;
        Ok(())
    }

    /// The item of this number, which is held.
    fn item(&self, number: u32) -> &Item
        requires { ((self.now.total - self.now.window) < number) × (number ≤ self.now.total) }
        ensures { IsFrameOfAll self.now (record { number = number; item = result.now }) }
    {
        let behind = (self.total - number) as usize;
        let place = self.held.len() - 1 - behind;
        self.held.get(place).unwrap()
    }

    /// The next item that was not relayed yet, `None` where all have been. It stays the next.
    pub fn next(&self) -> Option<&Item>
        ensures item { IfSome result (λ item.
            IsFrameOfAll self.now (record { number = self.now.sent + 1; item = item.now })) }
        ensures waiting { OnSome result (self.now.sent < self.now.total) }
        ensures none { result ≡ None → self.now.sent ≡ self.now.total }
    {
        if self.sent == self.total {
            return None;
        }
        Some(self.item(self.sent + 1))
    }

    /// Counts the next item as relayed.
    pub fn advance(&mut self)
        requires { self.old.sent < self.old.total }
        ensures { self.new ≡ with_relayed self.old }
    {
        self.sent += 1;
    }

    /// The next frame that was not relayed yet.
    ///
    /// The first of these that holds is the fault: L1, every item has been relayed; L4, memory was refused.
    pub fn relay(&mut self) -> Result<Frame, LinkFault>
        ensures number { IfOk result (λ frame. frame.number ≡ self.old.sent + 1) }
        ensures frame { IfOk result (λ frame. IsFrameOfAll self.old frame) }
        ensures ok { OnOk result (self.new ≡ with_relayed self.old) }
        ensures waiting { OnOk result (self.old.sent < self.old.total) }
        ensures err { OnErr result (self.new ≡ self.old) }
        ensures fault { FailsBy LinkFault.Memory (relay_fault self.old.total self.old.sent) result }
    {
        let Some(item) = self.next() else {
            return Err(LinkFault::Nothing);
        };
        let item = item.copy()?;
        let number = self.sent + 1;
        self.advance();
        Ok(Frame { number, item })
    }

    /// The frame of this number once more, one that was relayed before. Nothing changes.
    ///
    /// The first of these that holds is the fault: L2, no frame of this number was relayed; L3, it is kept no longer,
    /// since as many items as the window holds were pushed behind it; L4, memory was refused.
    pub fn again(&self, number: u32) -> Result<Frame, LinkFault>
        ensures number { IfOk result (λ frame. frame.number ≡ number) }
        ensures frame { IfOk result (λ frame. IsFrameOfAll self.now frame) }
        ensures fault { FailsBy LinkFault.Memory
            (again_fault self.now.window self.now.total self.now.sent number) result }
    {
        if number == 0 || number > self.sent {
            return Err(LinkFault::NotSent);
        }
        let window = self.held.capacity() as u32;
        if number <= self.total.saturating_sub(window) {
            return Err(LinkFault::Gone);
        }
        let item = self.item(number).copy()?;
        Ok(Frame { number, item })
    }
}
