//! Laws of the equality of messages and their parts, a sentence each.

ghost use Rattle.std.specs.Prelude.{◌≡◌, ◌↔◌, IsTrue};

use crate::{Found, Markets, Message, Product, Serials, Text};

/// Texts are equal exactly where their bytes are.
pub fn texts_are_equal(left: &Text, right: &Text) -> bool
    ensures { IsTrue result ↔ (left.now ≡ right.now) }
{
    left == right
}

/// Lists of serial numbers are equal exactly where they hold the same numbers in the same order.
#[tactic(auto, using(crate::proofs::EqualityLemmas::lists_decide))]
pub fn serials_are_equal(left: &Serials, right: &Serials) -> bool
    ensures { IsTrue result ↔ (left.now ≡ right.now) }
{
    left == right
}

/// Lists of markets are equal exactly where they hold the same markets in the same order.
#[tactic(auto, using(crate::proofs::EqualityLemmas::lists_decide))]
pub fn markets_are_equal(left: &Markets, right: &Markets) -> bool
    ensures { IsTrue result ↔ (left.now ≡ right.now) }
{
    left == right
}

/// Products are equal exactly where their texts and their markets are.
#[tactic(auto, using(crate::proofs::EqualityLemmas::products_decide))]
pub fn products_are_equal(left: &Product, right: &Product) -> bool
    ensures { IsTrue result ↔ (left.now ≡ right.now) }
{
    left == right
}

/// What was found is equal exactly where both are nothing, or all that was found of both packs is the same.
#[tactic(auto, using(crate::proofs::EqualityLemmas::found_decide))]
pub fn found_are_equal(left: &Found, right: &Found) -> bool
    ensures { IsTrue result ↔ (left.now ≡ right.now) }
{
    left == right
}

/// Messages are equal exactly where they are of one kind and hold the same.
#[tactic(auto, using(crate::proofs::EqualityLemmas::messages_decide))]
pub fn messages_are_equal(left: &Message, right: &Message) -> bool
    ensures { IsTrue result ↔ (left.now ≡ right.now) }
{
    left == right
}
