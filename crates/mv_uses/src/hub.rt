//! A message that is routed while the record has room.

ghost use Rattle.std.specs.Prelude.{◌≡◌, IfSome, IfNone};
ghost use Rattle.mv_hub.specs.Hub.{with_routed};
ghost use Rattle.mv_hub.specs.Targets.{reach};

use mv_hub::Hub;
use mv_link::{NUMBER_LIMIT, Reach};
use mv_message::{Message, Party, Shared};

/// Routes the next message of a party, and lists whom it reaches. None where it is refused, or the record is full; then nothing has
/// changed.
pub fn route_and_list(hub: &mut Hub, from: Party, message: &Shared<Message>) -> Option<Reach>
    ensures reach { IfSome result (λ reached. reached ≡ reach hub.old.parties hub.old.entries from message.now) }
    ensures routed { IfSome result (λ reached. hub.new ≡ with_routed hub.old from message.now) }
    ensures refused { IfNone result (hub.new ≡ hub.old) }
{
    if hub.record().len() >= NUMBER_LIMIT as usize {
        return None;
    }
    let (_, reached) = hub.route(from, message).ok()?;
    Some(reached.to_reach())
}
