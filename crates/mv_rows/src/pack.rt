//! Identifiers, dates and moments: their numbers, and that they are equal and ordered by what they hold. Which texts are
//! read, and why others are not, is shown by the examples of `mvhub canon`.

use mv_pack::laws::{
    batch_keys_are_equal, codes_are_equal, expiries_are_equal, gtins_are_equal, markets_are_equal,
    moments_are_equal, order_of_batch_keys, order_of_codes, order_of_expiries, order_of_gtins,
    order_of_markets, order_of_moments, order_of_pack_keys, pack_keys_are_equal,
};
use mv_pack::{Batch, BatchKey, Expiry, Gtin, Market, Moment, PackKey, Serial};
use std::cmp::Ordering;

/// Whether two values are equal, and their order.
type Compared = Option<(bool, Ordering)>;

const SAME: Compared = Some((true, Ordering::Equal));

const BEFORE: Compared = Some((false, Ordering::Less));

const BEHIND: Compared = Some((false, Ordering::Greater));

fn gtins(left: &str, right: &str) -> Compared {
    let left = Gtin::read(left).ok()?;
    let right = Gtin::read(right).ok()?;
    Some((
        gtins_are_equal(&left, &right),
        order_of_gtins(&left, &right),
    ))
}

fn markets(left: &str, right: &str) -> Compared {
    let left = Market::read(left).ok()?;
    let right = Market::read(right).ok()?;
    Some((
        markets_are_equal(&left, &right),
        order_of_markets(&left, &right),
    ))
}

fn serials(left: &str, right: &str) -> Compared {
    let left = Serial::read(left).ok()?;
    let right = Serial::read(right).ok()?;
    Some((
        codes_are_equal(&left, &right),
        order_of_codes(&left, &right),
    ))
}

fn expiries(left: &str, right: &str) -> Compared {
    let left = Expiry::read(left).ok()?;
    let right = Expiry::read(right).ok()?;
    Some((
        expiries_are_equal(left, right),
        order_of_expiries(left, right),
    ))
}

fn moments(left: u64, right: u64) -> Compared {
    let left = Moment::of(left).ok()?;
    let right = Moment::of(right).ok()?;
    Some((
        moments_are_equal(left, right),
        order_of_moments(left, right),
    ))
}

fn pack_key(gtin: &str, serial: &str) -> Option<PackKey> {
    let gtin = Gtin::read(gtin).ok()?;
    let serial = Serial::read(serial).ok()?;
    Some(PackKey { gtin, serial })
}

fn batch_key(gtin: &str, batch: &str) -> Option<BatchKey> {
    let gtin = Gtin::read(gtin).ok()?;
    let batch = Batch::read(batch).ok()?;
    Some(BatchKey { gtin, batch })
}

fn packs(left: &PackKey, right: &PackKey) -> Compared {
    Some((
        pack_keys_are_equal(left, right),
        order_of_pack_keys(left, right),
    ))
}

fn batches(left: &BatchKey, right: &BatchKey) -> Compared {
    Some((
        batch_keys_are_equal(left, right),
        order_of_batch_keys(left, right),
    ))
}

fn digits(gtin: &str) -> Option<[u8; 14]> {
    Some(Gtin::read(gtin).ok()?.digits())
}

fn day(expiry: &str) -> Option<u32> {
    Some(Expiry::read(expiry).ok()?.day())
}

fn is_expired(expiry: &str, seconds: u64) -> Option<bool> {
    let moment = Moment::of(seconds).ok()?;
    Some(Expiry::read(expiry).ok()?.expired_at(moment))
}

fn seconds(seconds: u64) -> Option<u64> {
    Some(Moment::of(seconds).ok()?.seconds())
}

#[test]
fn gives_the_numbers_of_values(rt: HostRuntime) {
    assert!(rt; digits("9506000134352") == Some([0, 9, 5, 0, 6, 0, 0, 0, 1, 3, 4, 3, 5, 2]));
    assert!(rt; day("280200") == Some(21_243));
    assert!(rt; is_expired("280200", 1_835_481_599) == Some(false));
    assert!(rt; is_expired("280200", 1_835_481_600) == Some(true));
    assert!(rt; seconds(4_102_444_799) == Some(4_102_444_799));
    assert!(rt; seconds(4_102_444_800) == None);
}

#[test]
fn compares_values_by_what_they_hold(rt: HostRuntime) {
    assert!(rt; gtins("9506000134352", "09506000134352") == SAME);
    assert!(rt; gtins("04012345678901", "09506000134352") == BEFORE);
    assert!(rt; markets("FI", "SE") == BEFORE);
    assert!(rt; serials("S1", "S1") == SAME);
    assert!(rt; serials("S1", "S10") == BEFORE);
    assert!(rt; expiries("280200", "280229") == SAME);
    assert!(rt; expiries("271231", "280101") == BEFORE);
    assert!(rt; moments(0, 4_102_444_799) == BEFORE);
}

#[test]
fn orders_packs_by_their_product_first(rt: HostRuntime) {
    let (Some(pack), Some(other)) = (
        pack_key("09506000134352", "S1"),
        pack_key("04012345678901", "S2"),
    ) else {
        assert!(rt; false, "a value is refused");
        return;
    };
    assert!(rt; packs(&pack, &pack.copy()) == SAME);
    assert!(rt; packs(&pack, &other) == BEHIND);
}

#[test]
fn orders_batches_of_a_product_by_their_number(rt: HostRuntime) {
    let (Some(batch), Some(other)) = (
        batch_key("09506000134352", "B1"),
        batch_key("09506000134352", "B10"),
    ) else {
        assert!(rt; false, "a value is refused");
        return;
    };
    assert!(rt; batches(&batch, &batch.copy()) == SAME);
    assert!(rt; batches(&batch, &other) == BEFORE);
}
