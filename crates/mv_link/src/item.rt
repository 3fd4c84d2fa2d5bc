//! What a link carries, and the frames in which it travels.

ghost use Rattle.std.specs.Prelude.{◌≡◌, IfOk, IfErr};

use crate::{LinkFault, Reached};
use mv_message::{Message, Shared};

/// What a link carries from its sender.
#[derive(PartialEq, Eq, Drop)]
pub enum Item {
    /// To the sender itself: its `k`-th message, counted from one, was routed.
    Receipt {
        /// The number of the message among those of the sender.
        k: u32,
        /// The parties that it was routed to.
        reach: Reached,
        /// Whether it was a query.
        query: bool,
    },
    /// The sender's `k`-th message, counted from one.
    Carried {
        /// The number of the message among those of the sender.
        k: u32,
        /// Its stamp: the place in the hub's record of its routing, counted from one over all entries.
        stamp: u32,
        /// The message.
        message: Shared<Message>,
    },
}

impl Item {
    /// An item of its own that equals this one. It takes no memory: L4, the only refusal, is where so many hold the
    /// message that they cannot be counted.
    pub fn copy(&self) -> Result<Item, LinkFault>
        ensures copy { IfOk result (λ item. item ≡ self.now) }
        ensures memory { IfErr result (λ fault. fault ≡ LinkFault.Memory) }
    {
        match self {
            Item::Receipt { k, reach, query } => Ok(Item::Receipt {
                k: *k,
                reach: reach.copy(),
                query: *query,
            }),
            Item::Carried { k, stamp, message } => Ok(Item::Carried {
                k: *k,
                stamp: *stamp,
                message: message.share()?,
            }),
        }
    }
}

/// An item under its number on its link, counted from one.
#[derive(PartialEq, Eq, Drop)]
pub struct Frame {
    /// The place of the item among all that were pushed on the link, from one.
    pub number: u32,
    /// The item.
    pub item: Item,
}

impl Frame {
    /// A frame of its own that equals this one. The only refusal is L4, as of its item.
    pub fn copy(&self) -> Result<Frame, LinkFault>
        ensures copy { IfOk result (λ frame. frame ≡ self.now) }
        ensures memory { IfErr result (λ fault. fault ≡ LinkFault.Memory) }
    {
        Ok(Frame {
            number: self.number,
            item: self.item.copy()?,
        })
    }
}
