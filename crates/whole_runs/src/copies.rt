//! What each repository of a system shows, party by party. Each line is the text of one JSON object, its keys in byte order.

use crate::items::{write_item, write_product};
use crate::named::Named;
use crate::page::Page;
use mv_message::Party;
use mv_pack::{BatchKey, Expiry, Gtin, National, PackKey};
use mv_repository::{Change, Held, LogEntry, Repository};
use mv_system::World;

/// Writes what each repository shows of what was named.
pub(crate) fn write_copies(page: &mut Page, world: &World, named: &Named) {
    for party in 0..world.hub().parties().len() {
        if world.is_party(party) {
            write_copy(page, world.repository(party), named);
        }
    }
}

/// Writes what a repository shows: how much it has, its log, then each product, each batch and each pack.
fn write_copy(page: &mut Page, repository: &Repository, named: &Named) {
    write_counts(page, repository);
    write_log(page, repository);
    for gtin in named.products() {
        write_known(page, repository, gtin);
    }
    for batch in named.batches() {
        write_batch(page, repository, batch);
    }
    for pack in named.packs() {
        write_pack(page, repository, pack);
    }
}

/// Writes how much a repository has.
fn write_counts(page: &mut Page, repository: &Repository) {
    let counts = repository.counts();
    page.begin_object();
    page.number("active", counts.active as u64);
    page.number("entries", counts.entries as u64);
    page.number("packs", counts.packs as u64);
    page.number("party", u64::from(repository.party()));
    page.number("products", counts.products as u64);
    page.number("recalled", counts.recalled as u64);
    page.end_object_and_line()
}

/// Writes the log, its oldest entry first.
fn write_log(page: &mut Page, repository: &Repository) {
    let log = repository.log();
    for place in 0..log.len() {
        write_entry(page, repository.party(), place, &log[place]);
    }
}

/// Writes an entry of the log of a party, by its place, which is counted from 0.
fn write_entry(page: &mut Page, party: Party, place: usize, entry: &LogEntry) {
    page.begin_object();
    page.number("entry", place as u64);
    page.number("from", u64::from(entry.sender));
    write_item(page, "item", &entry.item);
    page.number("party", u64::from(party));
    page.end_object_and_line()
}

/// Writes a product that a repository knows or not, and whether it is withdrawn.
fn write_known(page: &mut Page, repository: &Repository, gtin: &Gtin) {
    page.begin_object();
    page.text("gtin", gtin.as_str());
    page.number("party", u64::from(repository.party()));
    write_product(page, "product", gtin, repository.product(gtin));
    page.flag("withdrawn", repository.withdrawn(gtin));
    page.end_object_and_line()
}

/// Writes whether a batch is recalled.
fn write_batch(page: &mut Page, repository: &Repository, key: &BatchKey) {
    page.begin_object();
    page.text("batch", key.batch.as_str());
    page.text("gtin", key.gtin.as_str());
    page.number("party", u64::from(repository.party()));
    page.flag("recalled", repository.recalled(key));
    page.end_object_and_line()
}

/// Writes a pack that a repository holds or not.
fn write_pack(page: &mut Page, repository: &Repository, key: &PackKey) {
    page.begin_object();
    page.text("gtin", key.gtin.as_str());
    write_held(page, repository, key);
    page.number("party", u64::from(repository.party()));
    page.text("serial", key.serial.as_str());
    page.end_object_and_line()
}

/// Writes a pack as a repository holds it, or null where it does not.
fn write_held(page: &mut Page, repository: &Repository, key: &PackKey) {
    match repository.pack(key) {
        Some(held) => write_state(page, &held),
        None => page.nothing("pack"),
    }
}

/// Writes a pack that is held.
fn write_state(page: &mut Page, held: &Held) {
    page.key("pack");
    page.begin_object();
    page.text("batch", held.batch.as_str());
    write_change(page, held.change);
    write_expiry(page, held.expiry);
    write_national(page, &held.national);
    page.text("standing", held.standing.name());
    page.end_object()
}

/// Writes what took a pack from active: the party, its moment, and the place in the log of its status.
fn write_change(page: &mut Page, change: Option<Change>) {
    let Some(change) = change else {
        return page.nothing("change");
    };
    page.key("change");
    page.begin_object();
    page.number("at", change.at.seconds());
    page.number("by", u64::from(change.by));
    page.number("entry", change.entry as u64);
    page.end_object()
}

/// Writes the date on which something expires.
pub(crate) fn write_expiry(page: &mut Page, expiry: Expiry) {
    let text = expiry.text();
    page.text("expiry", text.as_str())
}

/// Writes a national number, where there is one.
fn write_national(page: &mut Page, national: &Option<National>) {
    match national {
        Some(number) => page.text("national", number.as_str()),
        None => page.nothing("national"),
    }
}
