//! Batches that are linked by repackagings, and the catalogue of their product, through the hub's own calls.

use crate::message::message_of;
use mv_hub::{Catalogue, Hub, Parties, RouteFault};
use mv_link::Reached;
use mv_message::{Message, Shared};
use mv_pack::{Batch, BatchKey, Gtin};
use std::alloc::Global;
use std::test::Fail;

/// A product.
const ONE: &str = "09506000134352";

/// Another product.
const OTHER: &str = "04012345678901";

/// A pack of the batch B1 of the one product became a pack of the batch C1 of the other.
const FIRST: &str =
    "{\"after_batch\":\"C1\",\"after_gtin\":\"04012345678901\",\"after_serials\":[\"X1\"],\"at\":1800000000,\"before_batch\":\"B1\",\"before_gtin\":\"09506000134352\",\"before_serials\":[\"S1\"],\"msg\":\"repack\"}";

/// A pack of that batch became one of the batch C2.
const SECOND: &str =
    "{\"after_batch\":\"C2\",\"after_gtin\":\"04012345678901\",\"after_serials\":[\"X1\"],\"at\":1800000000,\"before_batch\":\"C1\",\"before_gtin\":\"04012345678901\",\"before_serials\":[\"X1\"],\"msg\":\"repack\"}";

/// A pack of that batch became one of the first batch.
const THIRD: &str =
    "{\"after_batch\":\"B1\",\"after_gtin\":\"09506000134352\",\"after_serials\":[\"S1\"],\"at\":1800000000,\"before_batch\":\"C2\",\"before_gtin\":\"04012345678901\",\"before_serials\":[\"X1\"],\"msg\":\"repack\"}";

/// The upload of a pack of the batch B1.
const UPLOAD: &str =
    "{\"batch\":\"B1\",\"expiry\":\"280200\",\"gtin\":\"09506000134352\",\"msg\":\"upload\",\"serials\":[\"S1\"]}";

/// The upload of a pack of the batch B2.
const OTHER_UPLOAD: &str =
    "{\"batch\":\"B2\",\"expiry\":\"280200\",\"gtin\":\"09506000134352\",\"msg\":\"upload\",\"serials\":[\"S1\"]}";

/// A hub of one party, which serves no market.
fn hub(alloc: Global) -> Option<Hub> {
    let mut lists = Vec::with_capacity(alloc, 1).ok()?;
    lists.push_reserved(Vec::new(alloc));
    let parties = Parties::new(alloc, lists).ok()?;
    Hub::new(alloc, parties, 8).ok()
}

/// That hub, made again where memory was refused once.
fn hub_at_last(alloc: Global) -> Option<Hub> {
    match hub(alloc) {
        Some(hub) => Some(hub),
        None => hub(alloc),
    }
}

/// How many entries the record has, and how many items were pushed on the link of the party to itself.
fn lengths(hub: &Hub) -> [usize; 2] {
    if hub.parties().len() == 0 {
        return [0; 2];
    }
    [hub.record().len(), hub.total(0, 0) as usize]
}

/// What comes of a routing. Where memory was refused nothing has changed, and the message is routed again.
fn routed_at_last(hub: &mut Hub, message: &Shared<Message>) -> Option<(u32, Reached)> {
    if hub.record().len() > 1_000_000 {
        return None;
    }
    let before = lengths(hub);
    match hub.route(0, message) {
        Err(RouteFault::Memory) => {
            if lengths(hub) != before {
                return None;
            }
            hub.route(0, message).ok()
        }
        first => first.ok(),
    }
}

/// Whether the message of a text is the `number`-th that is routed, and reaches nobody.
fn is_routed(hub: &mut Hub, alloc: Global, text: &str, number: u32) -> bool {
    let Some(message) = message_of(alloc, text) else {
        return false;
    };
    match routed_at_last(hub, &message) {
        Some((k, reach)) => k == number && reach.to_reach().as_slice().is_empty(),
        None => false,
    }
}

/// A batch of a product.
fn batch(gtin: &str, number: &str) -> Option<BatchKey> {
    let gtin = Gtin::read(gtin).ok()?;
    let batch = Batch::read(number).ok()?;
    Some(BatchKey { gtin, batch })
}

/// The batches that are linked to a batch, asked for again where memory was refused once.
fn linked(hub: &Hub, gtin: &str, number: &str) -> Option<Vec<BatchKey>> {
    let batch = batch(gtin, number)?;
    match hub.linked(&batch) {
        Ok(list) => Some(list),
        Err(_) => hub.linked(&batch).ok(),
    }
}

/// The batches that descend from a batch, asked for again where memory was refused once.
fn descendants(hub: &Hub, gtin: &str, number: &str) -> Option<Vec<BatchKey>> {
    let batch = batch(gtin, number)?;
    match hub.descendants(&batch) {
        Ok(list) => Some(list),
        Err(_) => hub.descendants(&batch).ok(),
    }
}

/// Whether a batch is that of a product under a number.
fn is_batch(batch: &BatchKey, gtin: &str, number: &str) -> bool {
    batch.gtin.as_str() == gtin && batch.batch.as_str() == number
}

/// Whether the batch C1 alone is linked to the batch B1.
fn has_link(hub: &Hub) -> bool {
    match linked(hub, ONE, "B1") {
        Some(list) => match list.as_slice() {
            [only] => is_batch(only, OTHER, "C1"),
            _ => false,
        },
        None => false,
    }
}

/// Whether all three batches descend from the batch B1, itself the last by its product.
fn has_descendants(hub: &Hub) -> bool {
    match descendants(hub, ONE, "B1") {
        Some(list) => match list.as_slice() {
            [first, second, third] => {
                is_batch(first, OTHER, "C1")
                    && is_batch(second, OTHER, "C2")
                    && is_batch(third, ONE, "B1")
            }
            _ => false,
        },
        None => false,
    }
}

/// Whether no batch descends from a batch that no repackaging names.
fn has_no_descendants(hub: &Hub) -> bool {
    match descendants(hub, ONE, "B9") {
        Some(list) => list.is_empty(),
        None => false,
    }
}

/// Whether a ring of links is followed, once three repackagings are routed.
fn follows_ring(hub: &mut Hub, alloc: Global) -> bool {
    is_routed(hub, alloc, FIRST, 1)
        && is_routed(hub, alloc, SECOND, 2)
        && is_routed(hub, alloc, THIRD, 3)
        && has_link(hub)
        && has_descendants(hub)
        && has_no_descendants(hub)
}

#[test]
fn follows_linked_batches_round_a_ring(rt: HostRuntime) -> Result<(), Fail> {
    let mut hub = hub_at_last(rt.alloc()).ok_or("a hub")?;
    let followed = follows_ring(&mut hub, rt.alloc());
    drop(hub);
    assert!(rt; followed);
    Ok(())
}

/// Whether a catalogue has no product, and the batches B1 and B2.
fn has_two_batches(catalogue: &Catalogue) -> bool {
    match catalogue.batches.as_slice() {
        [first, second] => {
            catalogue.product.get().is_none()
                && first.0.as_str() == "B1"
                && second.0.as_str() == "B2"
        }
        _ => false,
    }
}

/// Whether the catalogue of the product is that one.
fn is_listed(hub: &Hub) -> bool {
    let Ok(gtin) = Gtin::read(ONE) else {
        return false;
    };
    match hub.catalogue(&gtin) {
        Some(catalogue) => has_two_batches(catalogue),
        None => false,
    }
}

/// Whether each batch is listed once, of which one is uploaded twice.
fn lists_uploads(hub: &mut Hub, alloc: Global) -> bool {
    is_routed(hub, alloc, UPLOAD, 1)
        && is_routed(hub, alloc, UPLOAD, 2)
        && is_routed(hub, alloc, OTHER_UPLOAD, 3)
        && is_listed(hub)
}

#[test]
fn lists_each_batch_once(rt: HostRuntime) -> Result<(), Fail> {
    let mut hub = hub_at_last(rt.alloc()).ok_or("a hub")?;
    let listed = lists_uploads(&mut hub, rt.alloc());
    drop(hub);
    assert!(rt; listed);
    Ok(())
}
