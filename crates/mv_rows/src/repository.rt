//! A national repository: the entries of its log by their senders, and the history of a pack. All else that it shows runs on the
//! built programs, as files of `examples/`.

use mv_link::Item;
use mv_message::Shared;
use mv_pack::{Gtin, PackKey, Serial};
use mv_repository::{Effect, LogEntry, Repository};
use std::alloc::Global;

/// A batch is recalled.
const RECALL: &str =
    "{\"at\":1800000010,\"batch\":\"B1\",\"gtin\":\"09506000134352\",\"msg\":\"recall\"}";

/// The effect of the recall, from a sender and under a stamp, which is its number too.
fn effect(repository: &mut Repository, alloc: Global, sender: u32, stamp: u32) -> Option<Effect> {
    let message = Shared::new(alloc, mv_json::read(alloc, RECALL.as_bytes()).ok()?).ok()?;
    let item = Item::Carried {
        k: stamp,
        stamp,
        message,
    };
    let (effect, _) = repository.apply(sender, &item).ok()?;
    Some(effect)
}

/// Whether the one entry from a sender has this stamp.
fn has_one(repository: &Repository, sender: u32, wanted: u32) -> bool {
    let mut items = repository.from_sender(sender);
    match items.next() {
        Some(Item::Carried { stamp, .. }) => *stamp == wanted && items.next().is_none(),
        _ => false,
    }
}

/// Whether entries from two senders are told apart, and a third has none.
fn tells_apart(repository: &mut Repository, alloc: Global) -> bool {
    effect(repository, alloc, 0, 1) == Some(Effect::Done)
        && effect(repository, alloc, 1, 2) == Some(Effect::Noted)
        && has_one(repository, 0, 1)
        && has_one(repository, 1, 2)
        && repository.from_sender(2).next().is_none()
}

/// Whether a repository where nothing has happened does.
fn are_told_apart(alloc: Global) -> bool {
    let mut repository = Repository::new(alloc, 2);
    tells_apart(&mut repository, alloc)
}

#[test]
fn tells_the_entries_of_each_sender_apart(rt: HostRuntime) {
    assert!(rt; are_told_apart(rt.alloc()));
}

/// A pack is uploaded.
const UPLOAD: &str =
    "{\"batch\":\"B1\",\"expiry\":\"280200\",\"gtin\":\"09506000134352\",\"msg\":\"upload\",\"serials\":[\"S1\"]}";

/// It is supplied.
const SUPPLY: &str =
    "{\"at\":1800000000,\"gtin\":\"09506000134352\",\"msg\":\"status\",\"serial\":\"S1\",\"to\":\"supplied\",\"user\":\"u1\"}";

/// It is made active again, by another user.
const REVERT: &str =
    "{\"at\":1800000005,\"gtin\":\"09506000134352\",\"msg\":\"status\",\"serial\":\"S1\",\"to\":\"active\",\"user\":\"u2\"}";

/// Its product is withdrawn.
const WITHDRAWAL: &str =
    "{\"at\":1800000020,\"gtin\":\"09506000134352\",\"msg\":\"withdraw\",\"v\":2}";

/// Another batch is recalled.
const OTHER_RECALL: &str =
    "{\"at\":1800000010,\"batch\":\"B2\",\"gtin\":\"09506000134352\",\"msg\":\"recall\"}";

/// Another pack of the product is supplied, which nobody uploads.
const OTHER_SUPPLY: &str =
    "{\"at\":1800000000,\"gtin\":\"09506000134352\",\"msg\":\"status\",\"serial\":\"S2\",\"to\":\"supplied\",\"user\":\"u1\"}";

/// What is sent under a stamp: 1 the upload, 2 and 3 the statuses, 4 the recall, 5 the withdrawal, 6 the other recall, 7 the status
/// of another pack.
fn text_of(stamp: u32) -> &'static str {
    match stamp {
        1 => UPLOAD,
        2 => SUPPLY,
        3 => REVERT,
        4 => RECALL,
        5 => WITHDRAWAL,
        6 => OTHER_RECALL,
        _ => OTHER_SUPPLY,
    }
}

/// Applies what is sent under each of these stamps, in this order.
fn apply_all(repository: &mut Repository, alloc: Global, stamps: &[u32]) -> Option<()> {
    for stamp in stamps {
        let message = mv_json::read(alloc, text_of(*stamp).as_bytes()).ok()?;
        let item = Item::Carried {
            k: *stamp,
            stamp: *stamp,
            message: Shared::new(alloc, message).ok()?,
        };
        let _ = repository.apply(0, &item).ok()?;
    }
    Some(())
}

/// Whether there is an entry, under this stamp.
fn has_stamp(entry: Option<&LogEntry>, wanted: u32) -> bool {
    let Some(entry) = entry else {
        return false;
    };
    match &entry.item {
        Item::Carried { stamp, .. } => *stamp == wanted,
        Item::Receipt { .. } => false,
    }
}

/// The pack.
fn pack() -> Option<PackKey> {
    Some(PackKey {
        gtin: Gtin::read("09506000134352").ok()?,
        serial: Serial::read("S1").ok()?,
    })
}

/// Whether a repository lends all five, by their stamps.
fn lends_all(repository: &Repository, pack: &PackKey) -> bool {
    let history = repository.history(pack);
    let mut statuses = history.statuses();
    has_stamp(history.upload(), 1)
        && has_stamp(statuses.next(), 2)
        && has_stamp(statuses.next(), 3)
        && statuses.next().is_none()
        && has_stamp(history.recall(), 4)
        && has_stamp(history.withdrawal(), 5)
}

/// Whether what came in order and what came out of order are one history, once the last status has come.
fn compares(one: &mut Repository, other: &mut Repository, alloc: Global) -> Option<bool> {
    let pack = pack()?;
    apply_all(one, alloc, &[1, 2, 3, 4, 5])?;
    apply_all(other, alloc, &[5, 2, 4, 1])?;
    let differed = !one.history(&pack).is_same(&other.history(&pack));
    apply_all(other, alloc, &[3])?;
    let is_same = one.history(&pack).is_same(&other.history(&pack));
    Some(differed && is_same && lends_all(one, &pack) && lends_all(other, &pack))
}

/// Whether it is so with two repositories where nothing has happened.
fn are_compared(alloc: Global) -> bool {
    let mut one = Repository::new(alloc, 1);
    let mut other = Repository::new(alloc, 2);
    compares(&mut one, &mut other, alloc) == Some(true)
}

#[test]
fn compares_what_decides_a_pack(rt: HostRuntime) {
    assert!(rt; are_compared(rt.alloc()));
}

/// Whether the batches that are recalled are B2 and B1, and the product is withdrawn.
fn lists_both(repository: &Repository) -> bool {
    match (
        repository.recalled_batches(),
        repository.withdrawn_products(),
    ) {
        ([first, second], [product]) => {
            first.batch.as_str() == "B2"
                && second.batch.as_str() == "B1"
                && product.as_str() == "09506000134352"
        }
        _ => false,
    }
}

/// Whether that is so where the recall of B2 came first, and once more behind that of B1.
fn are_listed(alloc: Global) -> bool {
    let mut repository = Repository::new(alloc, 1);
    apply_all(&mut repository, alloc, &[6, 5, 4, 6, 5]).is_some() && lists_both(&repository)
}

#[test]
fn lists_what_is_recalled_and_withdrawn(rt: HostRuntime) {
    assert!(rt; are_listed(rt.alloc()));
}

/// How many packs of a product a repository holds.
fn held_count(repository: &Repository, gtin: Gtin) -> usize {
    let mut count = 0usize;
    for serial in repository.serials(&gtin) {
        let serial = serial.copy();
        if repository.pack(&PackKey { gtin, serial }).is_some() {
            count = count.saturating_add(1);
        }
    }
    count
}

/// Whether the serial numbers of a product are S2 and S1.
fn lists_serials(repository: &Repository, gtin: Gtin) -> bool {
    let mut serials = repository.serials(&gtin);
    match (serials.next(), serials.next(), serials.next()) {
        (Some(first), Some(second), None) => first.as_str() == "S2" && second.as_str() == "S1",
        _ => false,
    }
}

/// Whether that is so where a status names S2 before the upload of S1 comes, and S1 alone is held. Another product has none.
fn goes_through(repository: &mut Repository, alloc: Global) -> Option<bool> {
    let gtin = Gtin::read("09506000134352").ok()?;
    let other = Gtin::read("04012345678901").ok()?;
    apply_all(repository, alloc, &[7, 1, 2, 7])?;
    let lists = lists_serials(repository, gtin) && repository.serials(&other).next().is_none();
    Some(lists && held_count(repository, gtin) == 1)
}

/// Whether it is so with a repository where nothing has happened.
fn are_gone_through(alloc: Global) -> bool {
    let mut repository = Repository::new(alloc, 1);
    goes_through(&mut repository, alloc) == Some(true)
}

#[test]
fn goes_through_the_packs_of_a_product(rt: HostRuntime) {
    assert!(rt; are_gone_through(rt.alloc()));
}
