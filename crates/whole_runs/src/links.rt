//! How batches are followed through repackagings.

use mv_hub::{Hub, Parties};
use mv_message::{Boxed, Message, Serials, Shared};
use mv_pack::{Batch, BatchKey, Gtin, Moment};
use std::alloc::Global;

/// Which batches are linked.
#[derive(Clone, Copy, PartialEq, Eq)]
pub enum Shape {
    /// Each to the next.
    Chain,
    /// Each to the next, and the last to the first.
    Ring,
    /// Each to each other.
    Complete,
}

/// So many batches, linked in a shape.
#[derive(Clone, Copy)]
pub struct Linked {
    shape: Shape,
    size: u32,
}

impl Linked {
    /// What the words ask for, of which the program's name and `links` are the first: none where they are mistaken.
    pub fn of_words(words: &[String]) -> Option<Linked> {
        let shape = match words.get(2)?.as_str() {
            "chain" => Shape::Chain,
            "ring" => Shape::Ring,
            "complete" => Shape::Complete,
            _ => return None,
        };
        let size = words.get(3)?.parse::<u32>().ok()?;
        Some(Linked { shape, size })
    }
}

/// How many batches descend from the first, where they are linked in a shape. No other function has a hub to drop.
pub fn count_descendants(alloc: Global, linked: Linked) -> Option<usize> {
    let mut hub = hub_of_one(alloc)?;
    let count = count_linked(alloc, &mut hub, linked);
    drop(hub);
    count
}

/// How many batches descend from the first in a hub, once they are linked in a shape.
fn count_linked(alloc: Global, hub: &mut Hub, linked: Linked) -> Option<usize> {
    let gtin = Gtin::read("09506000134352").ok()?;
    let size = linked.size;
    match linked.shape {
        Shape::Chain => link_chain(alloc, hub, gtin, size)?,
        Shape::Ring => link_ring(alloc, hub, gtin, size)?,
        Shape::Complete => link_all(alloc, hub, gtin, size)?,
    }
    descendants_of_first(alloc, hub, gtin)
}

/// How many batches descend from the first.
fn descendants_of_first(alloc: Global, hub: &Hub, gtin: Gtin) -> Option<usize> {
    let first = batch(alloc, gtin, 0)?;
    let found = hub.descendants(&first).ok()?;
    Some(found.len())
}

/// A hub with one party, which serves no market.
fn hub_of_one(alloc: Global) -> Option<Hub> {
    let mut lists = Vec::with_capacity(alloc, 1).ok()?;
    lists.push_reserved(Vec::new(alloc));
    let parties = Parties::new(alloc, lists).ok()?;
    Hub::new(alloc, parties, 2).ok()
}

/// Repackages each batch into the next.
fn link_chain(alloc: Global, hub: &mut Hub, gtin: Gtin, size: u32) -> Option<()> {
    for number in 1..size {
        link(alloc, hub, gtin, number - 1, number)?;
    }
    Some(())
}

/// Repackages each batch into the next, and the last into the first.
fn link_ring(alloc: Global, hub: &mut Hub, gtin: Gtin, size: u32) -> Option<()> {
    link_chain(alloc, hub, gtin, size)?;
    link(alloc, hub, gtin, size.checked_sub(1)?, 0)
}

/// Repackages each batch into each other.
fn link_all(alloc: Global, hub: &mut Hub, gtin: Gtin, size: u32) -> Option<()> {
    for before in 0..size {
        for after in 0..size {
            if before != after {
                link(alloc, hub, gtin, before, after)?;
            }
        }
    }
    Some(())
}

/// Routes a repackaging of one batch into another, and relays its receipt.
fn link(alloc: Global, hub: &mut Hub, gtin: Gtin, before: u32, after: u32) -> Option<()> {
    let message = Shared::new(alloc, repack(alloc, gtin, before, after)?).ok()?;
    if hub.record().len() >= 1_000_000 {
        return None;
    }
    hub.route(0, &message).ok()?;
    hub.relay(0, 0).ok()?;
    Some(())
}

/// A repackaging of one batch into another, which names no pack.
fn repack(alloc: Global, gtin: Gtin, before: u32, after: u32) -> Option<Message> {
    let at = Moment::of(1_800_000_000).ok()?;
    let before = Boxed::new(alloc, batch(alloc, gtin, before)?).ok()?;
    let after = Boxed::new(alloc, batch(alloc, gtin, after)?).ok()?;
    Some(Message::Repack {
        before,
        before_serials: Serials::new(Vec::new(alloc)),
        after,
        after_serials: Serials::new(Vec::new(alloc)),
        at,
    })
}

/// The batch of a number.
fn batch(alloc: Global, gtin: Gtin, number: u32) -> Option<BatchKey> {
    let text = format!(in alloc; "{number}").ok()?;
    let batch = Batch::read(text.as_str()).ok()?;
    Some(BatchKey { gtin, batch })
}
