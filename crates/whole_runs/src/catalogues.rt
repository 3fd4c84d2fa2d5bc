//! What the hub knows of products, and how batches are linked by repackagings.

use crate::copies::write_expiry;
use crate::items::write_product;
use crate::named::Named;
use crate::page::Page;
use mv_hub::{Catalogue, Hub};
use mv_pack::{Batch, BatchKey, Expiry, Gtin};

/// Writes what the hub knows of the products and batches that were named.
pub(crate) fn write_catalogues(page: &mut Page, hub: &Hub, named: &Named) {
    for gtin in named.products() {
        write_known(page, hub, gtin);
    }
    for batch in named.batches() {
        write_batch(page, hub, batch);
    }
}

/// Writes what the hub knows of a product, if anything.
fn write_known(page: &mut Page, hub: &Hub, gtin: &Gtin) {
    page.begin_object();
    match hub.catalogue(gtin) {
        Some(catalogue) => write_catalogue(page, gtin, catalogue),
        None => page.nothing("catalogue"),
    }
    page.text("gtin", gtin.as_str());
    page.end_object_and_line()
}

/// Writes a product, where it has a master, and its batches with their dates.
fn write_catalogue(page: &mut Page, gtin: &Gtin, catalogue: &Catalogue) {
    page.key("catalogue");
    page.begin_object();
    page.begin_list("batches");
    for pair in catalogue.batches.as_slice() {
        write_dated(page, &pair.0, pair.1);
    }
    page.end_list();
    write_product(page, "product", gtin, catalogue.product.get());
    page.end_object()
}

/// Writes a batch with its date.
fn write_dated(page: &mut Page, batch: &Batch, expiry: Expiry) {
    page.begin_element();
    page.text("batch", batch.as_str());
    write_expiry(page, expiry);
    page.end_object()
}

/// Writes the batches to which a batch was repackaged, and those that descend from it.
fn write_batch(page: &mut Page, hub: &Hub, key: &BatchKey) {
    page.begin_object();
    page.text("batch", key.batch.as_str());
    write_descendants(page, hub, key);
    page.text("gtin", key.gtin.as_str());
    write_linked(page, hub, key);
    page.end_object_and_line()
}

/// Writes the batches that descend from a batch.
fn write_descendants(page: &mut Page, hub: &Hub, key: &BatchKey) {
    match hub.descendants(key) {
        Ok(descendants) => write_keys(page, "descendants", descendants.as_slice()),
        Err(_) => page.refuse(),
    }
}

/// Writes the batches to which a batch was repackaged.
fn write_linked(page: &mut Page, hub: &Hub, key: &BatchKey) {
    match hub.linked(key) {
        Ok(linked) => write_keys(page, "linked", linked.as_slice()),
        Err(_) => page.refuse(),
    }
}

/// Writes batches of products.
fn write_keys(page: &mut Page, name: &str, keys: &[BatchKey]) {
    page.begin_list(name);
    for key in keys {
        write_key(page, key);
    }
    page.end_list()
}

/// Writes a batch of a product.
fn write_key(page: &mut Page, key: &BatchKey) {
    page.begin_element();
    page.text("batch", key.batch.as_str());
    page.text("gtin", key.gtin.as_str());
    page.end_object()
}
