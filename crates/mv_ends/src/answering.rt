//! How the next frame is applied, and its answer put on the uplink.

ghost use Rattle.std.specs.Prelude.{◌≡◌, ◌<◌, ◌++◌, true, false, None, is_some, option_to_list, IfOk, IsFalse, OnErr, OnOk};
ghost use Rattle.mv_link.specs.declared.incoming.Look.TheVariants.{Next};
ghost use Rattle.mv_link.specs.declared.limits.TheConstants.{NUMBER_LIMIT};
ghost use Rattle.mv_repository.specs.Verdict.{answer_after};
ghost use Rattle.mv_party.specs.Site.{count_from, with_applied};
ghost use Rattle.mv_party.specs.Calls.{answer_fault, taken_by};
ghost use Rattle.mv_ends.specs.Words.{known_free, sent};
ghost use Rattle.mv_ends.specs.Rings.{ring_put, is_full};

use crate::parcel::Parcel;
use mv_link::Item;
use mv_message::{Message, Party, Shared};
use mv_party::{Site, Taken};
use rtrb::Producer;
use std::alloc::{AllocError, Global};

/// Whether an uplink has no room. The hub may make room at any time.
pub(crate) fn is_full(uplink: &mut Producer<Parcel<Shared<Message>>>) -> bool
    ensures same { ring_put uplink.new ≡ ring_put uplink.old }
    ensures nothing { sent uplink.new ≡ sent uplink.old }
    ensures value { result ≡ is_full uplink.new }
    ensures room { IsFalse result → 0 < known_free uplink.new }
{
    uplink.is_full()
}

/// Applies the item of the next frame from a party, and puts the answer that it calls for on the uplink, where it calls for one. Refused for
/// want of memory, nothing has changed.
pub(crate) fn accept(
    alloc: Global,
    site: &mut Site,
    uplink: &mut Producer<Parcel<Shared<Message>>>,
    from: Party,
    item: &Item,
) -> Result<Taken, AllocError>
    requires from { from < site.old.parties }
    requires count { count_from site.old.log from < NUMBER_LIMIT }
    requires free { answer_fault false site.old (answer_after site.old.log from item.now) ≡ None }
    requires room { is_some (answer_after site.old.log from item.now) ≡ true → 0 < known_free uplink.old }
    ensures value { IfOk result (λ taken. taken ≡ taken_by site.old from item.now Next) }
    ensures ok { OnOk result (site.new ≡ with_applied site.old from item.now) }
    ensures put { OnOk result (sent uplink.new ≡ sent uplink.old ++ option_to_list (answer_after site.old.log from item.now)) }
    ensures err { OnErr result (site.new ≡ site.old) }
    ensures unsent { OnErr result (uplink.new ≡ uplink.old) }
    ensures same { ring_put uplink.new ≡ ring_put uplink.old }
{
    let Some(answer) = site.answer(from, item) else {
        return site.accept(from, item, None);
    };
    let kept = Shared::new(alloc, answer.copy(alloc)?)?;
    let parcel = Parcel::of_message(alloc, answer)?;
    let taken = site.accept(from, item, Some(kept))?;
    // Nothing fails from here on: the answer goes out before its query's frame is taken.
    uplink.push_reserved(parcel);
    Ok(taken)
}
