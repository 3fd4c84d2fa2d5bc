//! What crosses a ring: a message, or a frame, in memory of its own.
//!
//! Whoever puts something on a ring keeps what it has, and may share that among its own lists. So
//! what goes on a ring is a parcel, of which nobody else holds anything. Parcels are made here
//! alone, of values: a message that is given by value holds nothing that is shared. A parcel lends
//! plain values, and nothing that could be shared. It is opened by value, and then it is none any
//! more. A message that is given to an end by value is a parcel too, so that no two ends are given
//! the same.

ghost use Rattle.std.specs.Prelude.{◌≡◌, IfOk};
ghost use Rattle.mv_ends.specs.inside.Fronts.{IsFrontOf};

use crate::front::Front;
use mv_link::{Frame, Item, Reached};
use mv_message::{Message, Shared};
use std::alloc::{AllocError, Global};
use std::marker::Model;

/// Something in memory of its own, of which nobody else holds anything. Contracts see what is in it.
#[derive(Drop)]
pub struct Parcel<T> {
    /// What is in it.
    inside: T,
}

impl<T> Model for Parcel<T> {
    ghost Value = { T };

    ghost view = { λ parcel. parcel.inside };
}

impl<T> Parcel<T> {
    /// What is in it, which can be shared from now on. It is no parcel any more.
    pub(crate) fn open(self) -> T
        ensures { result ≡ self }
    {
        self.inside
    }
}

impl Parcel<Shared<Message>> {
    /// A message in memory of its own, since it is given by value, and a message holds nothing that is shared. Refused for want of
    /// memory.
    pub fn of_message(
        alloc: Global,
        message: Message,
    ) -> Result<Parcel<Shared<Message>>, AllocError>
        ensures { IfOk result (λ parcel. parcel ≡ message) }
    {
        let inside = Shared::new(alloc, message)?;
        Ok(Parcel { inside })
    }

    /// The message.
    pub fn message(&self) -> &Message
        ensures { result.now ≡ self.now }
    {
        self.inside.get()
    }
}

impl Parcel<Frame> {
    /// The frame of this number that holds a receipt, which has nothing that can be shared. It takes
    /// no memory.
    pub(crate) fn of_receipt(number: u32, k: u32, reach: Reached, query: bool) -> Parcel<Frame>
        ensures number { result.number ≡ number }
        ensures item { result.item ≡ Item.Receipt k reach query }
    {
        let item = Item::Receipt { k, reach, query };
        let inside = Frame { number, item };
        Parcel { inside }
    }

    /// The frame of this number that carries a message, given by value. Refused for want of memory.
    pub(crate) fn of_carried(
        alloc: Global,
        number: u32,
        k: u32,
        stamp: u32,
        message: Message,
    ) -> Result<Parcel<Frame>, AllocError>
        ensures number { IfOk result (λ parcel. parcel.number ≡ number) }
        ensures item { IfOk result (λ parcel. parcel.item ≡ Item.Carried k stamp message) }
    {
        let message = Shared::new(alloc, message)?;
        let item = Item::Carried { k, stamp, message };
        let inside = Frame { number, item };
        Ok(Parcel { inside })
    }

    /// The number of the frame, and whether it asks.
    pub(crate) fn front(&self) -> Front
        ensures { IsFrontOf self.now result }
    {
        front_of(&self.inside)
    }
}

/// What an end sees of this frame.
pub(crate) fn front_of(frame: &Frame) -> Front
    ensures { IsFrontOf frame.now result }
{
    let asks = match &frame.item {
        Item::Carried { message, .. } => matches!(message.get(), Message::Query { .. }),
        Item::Receipt { .. } => false,
    };
    let number = frame.number;
    Front { number, asks }
}
