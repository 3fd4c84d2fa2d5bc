//! Laws of the values, a sentence each; what they say holds of every text and of every value.

ghost use Rattle.std.specs.Prelude.{◌≡◌, ◌↔◌, IsTrue};
ghost use Rattle.mv_pack.specs.Words.{nat_cmp, ordering_then, slice_cmp};
ghost use Rattle.mv_pack.specs.Gtin.{IsGtin, read_gtin};
ghost use Rattle.mv_pack.specs.Market.{IsMarket, read_market};
ghost use Rattle.mv_pack.specs.Code.{IsCode, read_code};
ghost use Rattle.mv_pack.specs.Expiry.{IsExpiry, expiry_text, read_expiry};
ghost use Rattle.mv_pack.specs.Moment.{IsMoment, read_moment};
ghost use Rattle.mv_pack.specs.Laws.{ReadsLegal, ReadsAsItself};

use crate::code::Code;
use crate::{BatchKey, Expiry, Gtin, Market, Moment, PackKey};
use std::cmp::Ordering;

/// What is read from a text is a product code of 14 digits.
#[tactic(auto, using(crate::proofs::TextLemmas::read_gtin_is_gtin))]
pub fn read_gtin_is_gtin()
    ensures { ReadsLegal read_gtin IsGtin }
{}

/// A product code of 14 digits is read as it stands.
#[tactic(auto, using(crate::proofs::TextLemmas::read_gtin_of))]
pub fn gtin_reads_as_itself()
    ensures { ReadsAsItself read_gtin IsGtin }
{}

/// What is read from a text is a market.
#[tactic(auto, using(crate::proofs::MarketLemmas::read_market_is_market))]
pub fn read_market_is_market()
    ensures { ReadsLegal read_market IsMarket }
{}

/// A market is read as it stands.
#[tactic(auto, using(crate::proofs::MarketLemmas::read_market_of))]
pub fn market_reads_as_itself()
    ensures { ReadsAsItself read_market IsMarket }
{}

/// What is read from a text is a serial, batch or national number.
#[tactic(auto, using(crate::proofs::CodeLemmas::read_code_is_code))]
pub fn read_code_is_code()
    ensures { ReadsLegal read_code IsCode }
{}

/// A serial, batch or national number is read as it stands.
#[tactic(auto, using(crate::proofs::CodeLemmas::read_code_of))]
pub fn code_reads_as_itself()
    ensures { ReadsAsItself read_code IsCode }
{}

/// What is read from a text is a real date of the years 2000 to 2099.
pub fn read_expiry_is_expiry()
    ensures { ReadsLegal read_expiry IsExpiry }
{}

/// The six digits of a date are read as that date.
#[tactic(auto, using(crate::proofs::ExpiryLemmas::read_expiry_text))]
pub fn expiry_reads_as_itself()
    ensures { ReadsAsItself (λ date. read_expiry (expiry_text date)) IsExpiry }
{}

/// What is read from a number of seconds is a moment.
#[tactic(auto, using(crate::proofs::ExpiryLemmas::read_moment_is_moment))]
pub fn read_moment_is_moment()
    ensures { ReadsLegal read_moment IsMoment }
{}

/// The seconds of a moment are read as that moment.
#[tactic(auto, using(crate::proofs::ExpiryLemmas::read_moment_of))]
pub fn moment_reads_as_itself()
    ensures { ReadsAsItself read_moment IsMoment }
{}

/// Product codes are equal exactly where their 14 digits are.
pub fn gtins_are_equal(left: &Gtin, right: &Gtin) -> bool
    ensures { IsTrue result ↔ (left.now ≡ right.now) }
{
    left == right
}

/// Product codes are in the order of their 14 digits.
pub fn order_of_gtins(left: &Gtin, right: &Gtin) -> Ordering
    ensures { result ≡ slice_cmp nat_cmp left.now right.now }
{
    left.cmp(right)
}

/// Markets are equal exactly where their letters are.
pub fn markets_are_equal(left: &Market, right: &Market) -> bool
    ensures { IsTrue result ↔ (left.now ≡ right.now) }
{
    left == right
}

/// Markets are in the order of their letters.
pub fn order_of_markets(left: &Market, right: &Market) -> Ordering
    ensures { result ≡ slice_cmp nat_cmp left.now right.now }
{
    left.cmp(right)
}

/// Serial, batch and national numbers are equal exactly where their texts are.
pub fn codes_are_equal<K>(left: &Code<K>, right: &Code<K>) -> bool
    ensures { IsTrue result ↔ (left.now ≡ right.now) }
{
    left == right
}

/// Serial, batch and national numbers are in the order of their bytes.
pub fn order_of_codes<K>(left: &Code<K>, right: &Code<K>) -> Ordering
    ensures { result ≡ slice_cmp nat_cmp left.now right.now }
{
    left.cmp(right)
}

/// Expiry dates are equal exactly where their year, month and day are.
pub fn expiries_are_equal(left: Expiry, right: Expiry) -> bool
    ensures { IsTrue result ↔ (left ≡ right) }
{
    left == right
}

/// Expiry dates are in the order of their years, then of their months, then of their days.
pub fn order_of_expiries(left: Expiry, right: Expiry) -> Ordering
    ensures { result ≡ ordering_then (nat_cmp left.year right.year)
        (ordering_then (nat_cmp left.month right.month) (nat_cmp left.day right.day)) }
{
    left.cmp(&right)
}

/// Moments are equal exactly where their seconds are.
pub fn moments_are_equal(left: Moment, right: Moment) -> bool
    ensures { IsTrue result ↔ (left ≡ right) }
{
    left == right
}

/// Moments are in the order of their seconds.
pub fn order_of_moments(left: Moment, right: Moment) -> Ordering
    ensures { result ≡ nat_cmp left right }
{
    left.cmp(&right)
}

/// Packs are equal exactly where their product code and serial number are.
pub fn pack_keys_are_equal(left: &PackKey, right: &PackKey) -> bool
    ensures { IsTrue result ↔ (left.now ≡ right.now) }
{
    left == right
}

/// Packs are in the order of the bytes of their product code, then of their serial number.
pub fn order_of_pack_keys(left: &PackKey, right: &PackKey) -> Ordering
    ensures { result ≡ ordering_then (slice_cmp nat_cmp left.now.gtin right.now.gtin)
        (slice_cmp nat_cmp left.now.serial right.now.serial) }
{
    left.cmp(right)
}

/// Batches are equal exactly where their product code and batch number are.
pub fn batch_keys_are_equal(left: &BatchKey, right: &BatchKey) -> bool
    ensures { IsTrue result ↔ (left.now ≡ right.now) }
{
    left == right
}

/// Batches are in the order of the bytes of their product code, then of their batch number.
pub fn order_of_batch_keys(left: &BatchKey, right: &BatchKey) -> Ordering
    ensures { result ≡ ordering_then (slice_cmp nat_cmp left.now.gtin right.now.gtin)
        (slice_cmp nat_cmp left.now.batch right.now.batch) }
{
    left.cmp(right)
}
