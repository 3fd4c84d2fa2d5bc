//! A message that is made once and kept by two.

ghost use Rattle.std.specs.Prelude.{◌≡◌, IfOk};
ghost use Rattle.mv_message.specs.declared.message.Message.TheVariants.{Recall};

use mv_message::{Message, Shared};
use mv_pack::{BatchKey, Moment};
use std::alloc::{AllocError, Global};

/// The recall of a batch at a moment, for two who keep it: both have the same message. Refused for want of memory.
pub fn recall_for_two(
    alloc: Global,
    batch: &BatchKey,
    at: Moment,
) -> Result<(Shared<Message>, Shared<Message>), AllocError>
    ensures one { IfOk result (λ recalls. recalls.0 ≡ Recall batch.now at) }
    ensures other { IfOk result (λ recalls. recalls.1 ≡ Recall batch.now at) }
{
    let key = batch.copy();
    let one = Shared::new(alloc, Message::Recall { key, at })?;
    let other = one.share()?;
    Ok((one, other))
}
