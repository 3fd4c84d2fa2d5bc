//! What a link carries, and products.

use crate::page::Page;
use mv_link::Item;
use mv_message::{Boxed, Message, Party, Product};
use mv_pack::Gtin;
use std::alloc::Global;

/// Writes a key with an item: a receipt, or a message with its number and its stamp.
pub(crate) fn write_item(page: &mut Page, key: &str, item: &Item) {
    page.key(key);
    match item {
        Item::Receipt { k, reach, query } => write_receipt(
            page,
            *k,
            reach.to_reach().as_slice(),
            *query,
        ),
        Item::Carried { k, stamp, message } => write_carried(page, *k, *stamp, message.get()),
    }
}

/// Writes the receipt of a message.
fn write_receipt(page: &mut Page, k: u32, reached: &[Party], query: bool) {
    page.begin_object();
    page.number("k", u64::from(k));
    page.flag("query", query);
    page.parties("reach", reached);
    page.end_object()
}

/// Writes a message as it was carried.
fn write_carried(page: &mut Page, k: u32, stamp: u32, message: &Message) {
    page.begin_object();
    page.number("k", u64::from(k));
    page.message("message", message);
    page.number("stamp", u64::from(stamp));
    page.end_object()
}

/// Writes a key with a product as its master says it, or with null where there is none.
pub(crate) fn write_product(page: &mut Page, key: &str, gtin: &Gtin, product: Option<&Product>) {
    let Some(product) = product else {
        return page.nothing(key);
    };
    match master(page.alloc(), gtin, product) {
        Some(master) => page.message(key, &master),
        None => page.refuse(),
    }
}

/// The master of a product. None where memory was refused.
fn master(alloc: Global, gtin: &Gtin, product: &Product) -> Option<Message> {
    let product = Boxed::new(alloc, product.copy(alloc).ok()?).ok()?;
    Some(Message::Master {
        gtin: *gtin,
        product,
    })
}
