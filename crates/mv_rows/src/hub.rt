//! The router: its record and stamps, and the refusals that the program cannot show. Whom a message reaches is shown by the examples of
//! `mvhub steps`. What it knows of products and batches, and which links are closed, is compared with the plain machine at the end of each
//! random run.

use mv_hub::{Catalogue, Entry, Hub, HubFault, MasterProduct, Pairs, Parties, RouteFault};
use mv_link::{Frame, Item};
use mv_message::{Message, Shared};
use mv_pack::{Batch, Expiry, Gtin, Market};
use std::alloc::Global;

/// The master of a product for Finland.
const FINNISH: &str =
    "{\"common\":\"paracetamol\",\"form\":\"tablet\",\"gtin\":\"09506000134352\",\"markets\":[\"FI\"],\"msg\":\"master\",\"name\":\"Examplin\",\"pack_size\":\"30\",\"pack_type\":\"blister\",\"scheme\":\"GTIN\",\"strength\":\"500 mg\"}";

/// The master of the same product for Sweden.
const SWEDISH: &str =
    "{\"common\":\"paracetamol\",\"form\":\"tablet\",\"gtin\":\"09506000134352\",\"markets\":[\"SE\"],\"msg\":\"master\",\"name\":\"Examplin\",\"pack_size\":\"30\",\"pack_type\":\"blister\",\"scheme\":\"GTIN\",\"strength\":\"500 mg\"}";

/// An upload of a pack of its batch B1.
const FIRST_BATCH: &str =
    "{\"batch\":\"B1\",\"expiry\":\"280200\",\"gtin\":\"09506000134352\",\"msg\":\"upload\",\"serials\":[\"S1\"]}";

/// A question about a pack of the product.
const QUERY: &str = "{\"gtin\":\"09506000134352\",\"msg\":\"query\",\"serial\":\"S1\"}";

/// The list of one market.
fn served(alloc: Global, market: Market) -> Option<Vec<Market>> {
    let mut markets = Vec::with_capacity(alloc, 1).ok()?;
    markets.push_reserved(market);
    Some(markets)
}

/// A hub of three parties: 0 serves no market, 1 the first, 2 the second.
fn hub_of(alloc: Global, first: Market, second: Market) -> Option<Hub> {
    let one = served(alloc, first)?;
    let two = served(alloc, second)?;
    let mut lists = Vec::with_capacity(alloc, 3).ok()?;
    lists.push_reserved(Vec::new(alloc));
    lists.push_reserved(one);
    lists.push_reserved(two);
    let parties = Parties::new(alloc, lists).ok()?;
    Hub::new(alloc, parties, 8).ok()
}

/// Such a hub for Finland and Sweden.
fn opened(alloc: Global) -> Option<Hub> {
    let finland = Market::read("FI").ok()?;
    let sweden = Market::read("SE").ok()?;
    hub_of(alloc, finland, sweden)
}

/// The message that a text is.
fn message_of(alloc: Global, text: &str) -> Option<Shared<Message>> {
    Shared::new(alloc, mv_json::read(alloc, text.as_bytes()).ok()?).ok()
}

/// Whether a message of a party is its `k`-th and reaches these parties.
fn reaches(hub: &mut Hub, from: u32, message: &Shared<Message>, k: u32, reached: &[u32]) -> bool {
    if hub.record().len() > 1_000 {
        return false;
    }
    match hub.route(from, message) {
        Ok((number, reach)) => number == k && reach.to_reach().as_slice() == reached,
        Err(_) => false,
    }
}

/// Whether the message of a text, from a party, is its `k`-th and reaches these parties.
fn is_routed(hub: &mut Hub, alloc: Global, from: u32, text: &str, k: u32, to: &[u32]) -> bool {
    match message_of(alloc, text) {
        Some(message) => reaches(hub, from, &message, k, to),
        None => false,
    }
}

/// Whether an item carries the message of this number under this stamp.
fn carries(item: &Item, number: u32, stamp: u32) -> bool {
    match item {
        Item::Carried {
            k,
            stamp: given,
            ..
        } => *k == number && *given == stamp,
        Item::Receipt { .. } => false,
    }
}

/// Whether a frame was given, of this number, and its item does.
fn is_given(given: Result<Frame, HubFault>, number: u32, stamp: u32) -> bool {
    match given {
        Ok(frame) => frame.number == number && carries(&frame.item, number, stamp),
        Err(_) => false,
    }
}

/// Whether the next item of the link from party 0 to party 1 does, before it is relayed.
fn is_next(hub: &Hub, number: u32, stamp: u32) -> bool {
    match hub.next_item(0, 1) {
        Ok((next, item)) => next == number && carries(item, number, stamp),
        Err(_) => false,
    }
}

/// Whether the next frame of the link from party 0 to party 1 does.
fn is_carried(hub: &mut Hub, number: u32, stamp: u32) -> bool {
    is_given(hub.relay(0, 1), number, stamp)
}

/// Whether an entry says that the `k`-th message of party 0 was routed.
fn is_entry(entry: &Entry, number: u32) -> bool {
    matches!(entry, Entry::Routed { from: 0, k, .. } if *k == number)
}

/// Whether the record has two messages of party 0, and between them the closing of the link from party 1 to party 2.
fn has_a_closing_between(hub: &Hub) -> bool {
    let record = hub.record();
    record.len() == 3
        && is_entry(&record[0], 1)
        && record[1] == Entry::Closed { from: 1, to: 2 }
        && is_entry(&record[2], 2)
}

/// Whether a closing counts in the stamps of the messages behind it.
fn is_stamped(hub: &mut Hub, alloc: Global) -> bool {
    is_routed(hub, alloc, 0, FINNISH, 1, &[1])
        && hub.close(1, 2) == Ok(())
        && is_routed(hub, alloc, 0, FIRST_BATCH, 2, &[1])
        && has_a_closing_between(hub)
        && is_next(hub, 1, 1)
        && is_carried(hub, 1, 1)
        && is_carried(hub, 2, 3)
}

/// Why a message is not routed.
fn fault_of(hub: &mut Hub, from: u32, message: &Shared<Message>) -> Option<RouteFault> {
    if hub.record().len() > 1_000 {
        return None;
    }
    let told = hub.check(from, message.get()).err();
    let met = hub.route(from, message).err();
    if told == met { met } else { None }
}

/// Why a query of a party is not routed.
fn route_fault(hub: &mut Hub, alloc: Global, from: u32) -> Option<RouteFault> {
    match message_of(alloc, QUERY) {
        Some(message) => fault_of(hub, from, &message),
        None => None,
    }
}

/// Why a link gives no next frame.
fn relay_fault(hub: &mut Hub, from: u32, to: u32) -> Option<HubFault> {
    hub.relay(from, to).err()
}

/// Why a link does not give a frame again.
fn repeat_fault(hub: &Hub, from: u32, to: u32, number: u32) -> Option<HubFault> {
    hub.repeat(from, to, number).err()
}

/// Whether each call refuses a party that is none.
fn is_refused(hub: &mut Hub, alloc: Global) -> bool {
    route_fault(hub, alloc, 3) == Some(RouteFault::StrangerParty)
        && relay_fault(hub, 3, 0) == Some(HubFault::StrangerParty)
        && relay_fault(hub, 0, 3) == Some(HubFault::StrangerParty)
        && repeat_fault(hub, 0, 3, 1) == Some(HubFault::StrangerParty)
        && hub.close(3, 0) == Err(HubFault::StrangerParty)
}

/// Whether the product is for Finland alone, which party 1 serves.
fn is_finnish(hub: &Hub) -> bool {
    let (Ok(gtin), Ok(finland)) = (Gtin::read("09506000134352"), Market::read("FI")) else {
        return false;
    };
    let markets = [finland];
    hub.markets(&gtin) == Some(markets.as_slice())
        && hub.parties().serving(&markets).as_slice() == [1].as_slice()
}

/// Whether a hub where nothing has happened refuses and stamps so. No other function has a hub to drop, since that is dear to prove.
fn refuses_and_stamps(alloc: Global) -> bool {
    match opened(alloc) {
        Some(mut hub) => {
            is_refused(&mut hub, alloc) && is_stamped(&mut hub, alloc) && is_finnish(&hub)
        }
        None => false,
    }
}

#[test]
fn refuses_strangers_and_stamps_by_the_place_in_the_record(rt: HostRuntime) {
    assert!(rt; refuses_and_stamps(rt.alloc()));
    assert!(rt; HubFault::StrangerParty.code() == "H4");
    assert!(rt; RouteFault::Busy(1).code() == "H5");
}

/// A catalogue of one batch, and no product.
fn catalogue_of(alloc: Global, number: &str) -> Option<Catalogue> {
    let batch = Batch::read(number).ok()?;
    let expiry = Expiry::read("280200").ok()?;
    let mut list = Vec::with_capacity(alloc, 1).ok()?;
    list.push_reserved((batch, expiry));
    Some(Catalogue {
        product: MasterProduct::new(None),
        batches: Pairs::new(list),
    })
}

/// Whether the catalogues of two batches are made, and are equal.
fn are_equal(alloc: Global, first: &str, second: &str) -> bool {
    match catalogue_of(alloc, first) {
        Some(catalogue) => catalogue_of(alloc, second) == Some(catalogue),
        None => false,
    }
}

#[test]
fn tells_catalogues_apart_by_their_batches(rt: HostRuntime) {
    assert!(rt; are_equal(rt.alloc(), "B1", "B1"));
    assert!(rt; !are_equal(rt.alloc(), "B1", "B2"));
}

/// Whether markets are Finland alone.
fn is_finland(markets: &[Market]) -> bool {
    markets.len() == 1 && markets[0].as_str() == "FI"
}

/// Whether the message of a text gives a product that is for Finland alone.
fn gives_finnish(alloc: Global, text: &str) -> bool {
    let given = MasterProduct::new(message_of(alloc, text));
    match given.get() {
        Some(product) => is_finland(product.markets.as_slice()),
        None => false,
    }
}

/// Whether the products of two messages are equal.
fn are_same(alloc: Global, first: &str, second: &str) -> bool {
    MasterProduct::new(message_of(alloc, first)) == MasterProduct::new(message_of(alloc, second))
}

#[test]
fn lends_the_product_of_a_master(rt: HostRuntime) {
    assert!(rt; gives_finnish(rt.alloc(), FINNISH));
    assert!(rt; !gives_finnish(rt.alloc(), SWEDISH));
    assert!(rt; !gives_finnish(rt.alloc(), FIRST_BATCH));
    assert!(rt; are_same(rt.alloc(), FINNISH, FINNISH));
    assert!(rt; !are_same(rt.alloc(), FINNISH, SWEDISH));
    assert!(rt; !are_same(rt.alloc(), FINNISH, FIRST_BATCH));
}
