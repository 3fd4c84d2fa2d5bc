//! Copies in memory of their own: parcels of what somebody keeps.

ghost use Rattle.std.specs.Prelude.{◌≡◌, IfOk};

use crate::parcel::Parcel;
use mv_link::{Frame, Item};
use mv_message::{Message, Shared};
use std::alloc::{AllocError, Global};

/// A copy of a message. Refused for want of memory.
pub(crate) fn copy_of_message(
    alloc: Global,
    message: &Message,
) -> Result<Parcel<Shared<Message>>, AllocError>
    ensures { IfOk result (λ parcel. parcel ≡ message.now) }
{
    Parcel::of_message(alloc, message.copy(alloc)?)
}

/// A copy of an item of a link, under its number: a frame. Refused for want of memory.
pub(crate) fn copy_of_item(
    alloc: Global,
    number: u32,
    item: &Item,
) -> Result<Parcel<Frame>, AllocError>
    ensures number { IfOk result (λ parcel. parcel.number ≡ number) }
    ensures item { IfOk result (λ parcel. parcel.item ≡ item.now) }
{
    match item {
        Item::Receipt { k, reach, query } => {
            Ok(Parcel::of_receipt(number, *k, reach.copy(), *query))
        }
        Item::Carried { k, stamp, message } => {
            Parcel::of_carried(alloc, number, *k, *stamp, message.get().copy(alloc)?)
        }
    }
}
